ghost use Rattle.std.specs.Prelude.{◌≡◌, ◌∷◌, []};
ghost use Rattle.hz_tree.specs.sources.Kinds.{order_of_limit};
ghost use Rattle.hz_errors.specs.Found.{noted};

use hz_tree::LimitKind;

/// The least of limits that are passed, with one more beside it.
pub fn with_limit(
    least: Option<(LimitKind, usize)>,
    kind: LimitKind,
    at: usize,
) -> Option<(LimitKind, usize)>
    ensures { result ≡ noted order_of_limit ((kind, at) ∷ []) least }
{
    match least {
        Some((known, place)) if (place, known) <= (at, kind) => least,
        _ => Some((kind, at)),
    }
}
