// Searches from a scope outwards.

ghost use Rattle.std.specs.Prelude.{◌≡◌, ◌+◌, ◌≤◌, ◌<◌, length, Some, nat_lt, slice_index, ◌&&◌, ◌==◌};
ghost use Rattle.std.specs.Option.{option_copied};
ghost use Rattle.hz_resolve.specs.Numbered.{found_from, is_within, numbered, scope_at as at, scopes_of};
ghost use Rattle.hz_resolve.specs.Passes.{Counts, hops_from, slot_tests};

use crate::scope::NumberedScope;

/// The number of the declaration of a name in the first scope that declares it, from the scope with the number `start`
/// outwards; None where there is none. `within` is the function in which alone it is looked for.
pub fn find(
    scopes: &[NumberedScope<'_>],
    name: &[u8],
    within: Option<u32>,
    start: u32,
) -> Option<u32>
    ensures { result ≡ found_from within name.now (length scopes.now) scopes.now (Some start) }
{
    let mut next = Some(start);
    let mut left = scopes.len();
    while left > 0 {
        let scope = match scope_at(scopes, next) {
            Some(scope) => scope,
            None => return None,
        };
        if let Some(number) = scope.declaration(name, within) {
            return Some(number);
        }
        next = scope.around();
        left -= 1;
    }
    None
}

/// The scope with this number, if there is one.
pub fn scope_at<'s, 'i>(
    scopes: &'s [NumberedScope<'i>],
    number: Option<u32>,
) -> Option<&'s NumberedScope<'i>>
    ensures { option_copied result ≡ at scopes.now number }
{
    match number {
        Some(number) => scopes.get(number as usize),
        None => None,
    }
}

/// How many scopes with slots come before the one with the number `to`, from the scope with the number `start`
/// outwards, where so many slots come before each name. `within` is the function whose scopes alone are counted.
pub fn hops(
    scopes: &[NumberedScope<'_>],
    before: &[u32],
    within: Option<u32>,
    start: u32,
    to: u32,
) -> u32
    requires numbered { scopes.now ≡ numbered 0 (scopes_of scopes.now) }
    requires few { length scopes.now ≤ 4294967295 }
    requires before { Counts (slot_tests (scopes_of scopes.now)) before.now }
    ensures { result ≡ hops_from (scopes_of scopes.now) within to (length scopes.now) (Some start) }
{
    let mut hops = 0;
    let mut next = Some(start);
    let mut left = scopes.len();
    while left > 0 {
        let scope = match scope_at(scopes, next) {
            Some(scope) => scope,
            None => return hops,
        };
        if is_reached(scope, within, to) {
            return hops;
        }
        hops += is_counted(scope, before, within) as u32;
        next = scope.around();
        left -= 1;
    }
    hops
}

/// Whether the scope is looked at, and has the number `to`.
fn is_reached(scope: &NumberedScope<'_>, within: Option<u32>, to: u32) -> bool
    ensures { result ≡ (is_within within scope.now.scope && scope.now.scope.number == to) }
{
    scope.is_within(within) && scope.number() == to
}

/// Whether the scope is looked at, and some name of it has a slot.
fn is_counted(scope: &NumberedScope<'_>, before: &[u32], within: Option<u32>) -> bool
    requires { scope.now.first + length scope.now.scope.names < length before.now }
    ensures { result ≡ (is_within within scope.now.scope && nat_lt (slice_index before.now scope.now.first)
        (slice_index before.now (scope.now.first + length scope.now.scope.names))) }
{
    let (first, past) = scope.extent();
    scope.is_within(within) && before[first] < before[past]
}
