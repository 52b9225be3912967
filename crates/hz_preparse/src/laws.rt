// Laws of the functions of a source. Each is a function with nothing to do, whose contract is the law.
ghost use Rattle.hz_tree.specs.sources.Refusals.{functions};
ghost use Rattle.hz_tree.specs.tokens.Text.{Text};
ghost use Rattle.hz_preparse.specs.Starts.{StartsRise};

/// The script, function 0, starts at 0; the other functions start one behind the other.
#[tactic(auto, using(crate::proofs::FunctionStarts::functions_rise))]
pub fn starts_rise()
    ensures { (source : Text) → StartsRise (functions source) }
{}
