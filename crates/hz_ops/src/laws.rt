// Laws of the meaning of code. Each is a function with nothing to do, whose contract is the law.
ghost use Rattle.std.specs.Prelude.{◌≡◌, ℕ, List, ◌++◌, length, IsTrue, Some};
ghost use Rattle.hz_ops.specs.declared.instr.Instr.{Instr};
ghost use Rattle.hz_ops.specs.Coding.{decode_at, spelling, fits_of};
ghost use Rattle.hz_ops.specs.Activations.{Module};
ghost use Rattle.hz_ops.specs.Runs.{End, System, system_step, after, Ends, IsBuilt};
ghost use Rattle.hz_ops.specs.code.Activations.{Program};
ghost use Rattle.hz_ops.specs.code.Steps.{code_meaning};
ghost use Rattle.hz_value.specs.system.Runs.{TakesTurns};

/// An instruction that fits is read where it stands, whatever stands in front of it and behind it.
pub fn read_in_place()
    ensures { (before rest : List ℕ) (i : Instr) → IsTrue (fits_of i)
        → decode_at (before ++ spelling i ++ rest) (length before) ≡ Some (i, length (spelling i)) }
{}

/// A run has at most one end, with the same lines.
pub fn one_end()
    ensures { (m : Module) (s : System) (lines lines2 : List (List ℕ)) (end end2 : End)
        → Ends m s lines end → Ends m s lines2 end2 → (lines ≡ lines2) × (end ≡ end2) }
{}

/// A line that was printed stays: at each moment of a run its lines begin with those of each earlier
/// moment.
pub fn lines_grow()
    ensures { (m : Module) (n : ℕ) (s : System) → (more : List (List ℕ))
        × ((after m n s).lines ≡ s.lines ++ more) }
{}

/// A run ends as it ends from its next step on.
pub fn step_by_step()
    ensures taken { (m : Module) (s : System) (lines : List (List ℕ)) (end : End)
        → Ends m s lines end → Ends m (system_step m s) lines end }
    ensures put { (m : Module) (s : System) (lines : List (List ℕ)) (end : End)
        → Ends m (system_step m s) lines end → Ends m s lines end }
{}

/// A run that ends never comes to what the rows that there are so far do not say.
pub fn ended_is_built()
    ensures { (m : Module) (s : System) (lines : List (List ℕ)) (end : End) → Ends m s lines end
        → IsBuilt m s }
{}

/// No step of code leaves more turns than there were, whatever the program is.
#[tactic(auto, using(crate::proofs::code::Turns::takes_turns))]
pub fn code_takes_turns()
    ensures { (p : Program) → TakesTurns (code_meaning p) }
{}
