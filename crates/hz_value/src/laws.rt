// Laws of runs, for every meaning of the functions of a source.

ghost use Rattle.std.specs.Prelude.{◌≡◌, ◌≤◌, ℕ, List};
ghost use Rattle.hz_value.specs.system.System.{Meaning, System, Event, Ending, Ended};
ghost use Rattle.hz_value.specs.system.Runs.{after, Ends, Continues, TakesTurns};

/// Law: a run that has ended stays as it is.
#[tactic(auto, using(crate::proofs::RunLaws::ended_stays))]
pub fn ended_stays<A>()
    ensures { (m : Meaning A) (n : ℕ) (s : System A) (e : Ending) → s.state ≡ Ended e → after m n s ≡ s }
{}

/// Law: a run has at most one outcome: its events and its ending.
pub fn one_outcome<A>()
    ensures { (m : Meaning A) (s : System A) (events events1 : List Event) (e e1 : Ending)
        → Ends m s events e → Ends m s events1 e1 → (events ≡ events1) × (e ≡ e1) }
{}

/// Law: the events of a run only grow.
#[tactic(auto, using(crate::proofs::RunLaws::events_grow))]
pub fn events_grow<A>()
    ensures { (m : Meaning A) (n : ℕ) (s : System A) → Continues s (after m n s) }
{}

/// Law: where no step of the source's functions leaves more turns than there were, no run does.
#[tactic(auto, using(crate::proofs::TurnLaws::turns_fall))]
pub fn turns_fall<A>()
    ensures { (m : Meaning A) → TakesTurns m → (n : ℕ) (s : System A)
        → (after m n s).world.turns ≤ s.world.turns }
{}
