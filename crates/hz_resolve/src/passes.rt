ghost use Rattle.std.specs.Prelude.{◌≡◌, ◌≤◌, ◌<◌, ℕ, length, map, slice_get, IfOk, Some, is_some, not, ◌&&◌, ◌||◌};
ghost use Rattle.std.specs.Prelude.{false, slice_index_or};
ghost use Rattle.std.specs.Option.{option_map_or, ForSome};
ghost use Rattle.hz_resolve.specs.Numbered.{uses_of};
ghost use Rattle.hz_resolve.specs.Passes.{found_of, is_number, is_taken, is_global_use, slot_tests as tests_of, Counts};
ghost use Rattle.hz_resolve.specs.Views.{known_use};

use crate::name::Name;
use crate::table::Table;
use hz_list::Memory;
use std::alloc::Global;

/// For each name the number of the name that declares it, or None where no scope does.
pub fn declarations(alloc: Global, table: &Table<'_>) -> Result<Vec<Option<u32>>, Memory>
    ensures { IfOk result (λ found. found.items ≡ map (found_of table.now) (uses_of table.now)) }
{
    let mut found = Vec::new(alloc);
    for number in 0..table.len() {
        found.push(table.find(table.name(number)))?;
    }
    Ok(found)
}

/// For each name whether one of another function is declared by it.
pub fn taken(alloc: Global, table: &Table<'_>, found: &[Option<u32>]) -> Result<Vec<bool>, Memory>
    requires { found.now ≡ map (found_of table.now) (uses_of table.now) }
    ensures long { IfOk result (λ taken. length taken.items ≡ length (uses_of table.now)) }
    ensures each { IfOk result (λ taken. (q : ℕ) → q < length (uses_of table.now)
        → slice_get taken.items q ≡ Some (is_taken table.now q)) }
{
    let mut taken = vec![in alloc; false; found.len()]?;
    for number in 0..table.len() {
        mark(&mut taken, table.outer(number, found[number as usize]));
    }
    Ok(taken)
}

/// The name with this number is taken.
fn mark(taken: &mut Vec<bool>, number: Option<u32>)
    requires { ForSome number (λ q. q < length taken.old.items) }
    ensures long { length taken.new.items ≡ length taken.old.items }
    ensures each { (q : ℕ) → q < length taken.old.items → slice_get taken.new.items q
        ≡ Some (slice_index_or taken.old.items q false || is_number q number) }
{
    if let Some(number) = number {
        taken[number as usize] = true;
    }
}

/// For each name whether it is declared where it stands and has a slot there.
pub fn slot_tests(
    alloc: Global,
    table: &Table<'_>,
    found: &[Option<u32>],
    taken: &[bool],
) -> Result<Vec<bool>, Memory>
    requires found { found.now ≡ map (found_of table.now) (uses_of table.now) }
    requires long { length taken.now ≡ length (uses_of table.now) }
    requires each { (q : ℕ) → q < length (uses_of table.now)
        → slice_get taken.now q ≡ Some (is_taken table.now q) }
    ensures tests { IfOk result (λ tests. tests.items ≡ tests_of table.now) }
    ensures few { IfOk result (λ tests. length tests.items ≤ 4294967295) }
{
    let mut tests = Vec::new(alloc);
    for number in 0..table.len() {
        let name = table.name(number);
        tests.push(has_slot(name, found[number as usize], taken))?;
    }
    Ok(tests)
}

fn has_slot(name: &Name<'_>, found: Option<u32>, taken: &[bool]) -> bool
    requires { ForSome found (λ q. q < length taken.now) }
    ensures { result ≡ (is_some name.now.binding && (not (is_global_use (known_use name.now))
        && option_map_or (λ q. slice_index_or taken.now q false) found false)) }
{
    let taken = match found {
        Some(declared) => taken[declared as usize],
        None => false,
    };
    name.binding.is_some() && !name.is_global() && taken
}

/// How many tests before each pass, and how many in all.
pub fn counts(alloc: Global, tests: &[bool]) -> Result<Vec<u32>, Memory>
    requires { length tests.now ≤ 4294967295 }
    ensures { IfOk result (λ before. Counts tests.now before.items) }
{
    let mut before = Vec::new(alloc);
    let mut count = 0;
    before.push(count)?;
    for test in tests {
        count += *test as u32;
        before.push(count)?;
    }
    Ok(before)
}
