// Laws of lists of events. Each is a function with nothing to do, whose contract is the law.
ghost use Rattle.std.specs.Prelude.{◌≡◌, List};
ghost use Rattle.hz_tree.specs.sources.EarlyErrors.{order_of_early};
ghost use Rattle.hz_tree.specs.sources.Least.{least_of};
ghost use Rattle.hz_early.specs.declared.event.ScopeEvent.{ScopeEvent};
ghost use Rattle.hz_early.specs.Events.{errors_of, known_behind};

/// What an `EarlySet` has found behind some events is the least of all errors that they tell.
#[tactic(auto, using(crate::proofs::LeastLemmas::least_known))]
pub fn least_of_events()
    ensures { (events : List ScopeEvent) → (known_behind events).least ≡ least_of order_of_early (errors_of events) }
{}
