ghost use Rattle.std.specs.Prelude.{◌≡◌, ◌∷◌, []};
ghost use Rattle.hz_tree.specs.sources.EarlyErrors.{order_of_early};
ghost use Rattle.hz_tree.specs.sources.Kinds.{order_of_profile};
ghost use Rattle.hz_tree.specs.sources.Least.{lesser};
ghost use Rattle.hz_errors.specs.Found.{noted};

use hz_tree::{EarlyKind, ProfileKind};

/// The least of early errors, with one more beside it.
pub fn with_early(
    least: Option<(EarlyKind, usize)>,
    kind: EarlyKind,
    at: usize,
) -> Option<(EarlyKind, usize)>
    ensures { result ≡ noted order_of_early ((kind, at) ∷ []) least }
{
    match least {
        Some((known, place)) if (place, known) <= (at, kind) => least,
        _ => Some((kind, at)),
    }
}

/// The least of what stands against the profile, with one more beside it.
pub fn with_profile(
    least: Option<(ProfileKind, usize)>,
    kind: ProfileKind,
    at: usize,
) -> Option<(ProfileKind, usize)>
    ensures { result ≡ noted order_of_profile ((kind, at) ∷ []) least }
{
    match least {
        Some((known, place)) if (place, known) <= (at, kind) => least,
        _ => Some((kind, at)),
    }
}

/// The lesser of two early errors, as far as they are there.
pub fn lesser_early(
    least: Option<(EarlyKind, usize)>,
    found: Option<(EarlyKind, usize)>,
) -> Option<(EarlyKind, usize)>
    ensures { result ≡ lesser order_of_early least found }
{
    match found {
        Some((kind, at)) => with_early(least, kind, at),
        None => least,
    }
}

/// The lesser of two places outside the profile, as far as they are there.
pub fn lesser_profile(
    least: Option<(ProfileKind, usize)>,
    found: Option<(ProfileKind, usize)>,
) -> Option<(ProfileKind, usize)>
    ensures { result ≡ lesser order_of_profile least found }
{
    match found {
        Some((kind, at)) => with_profile(least, kind, at),
        None => least,
    }
}
