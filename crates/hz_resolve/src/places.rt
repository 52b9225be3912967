ghost use Rattle.std.specs.Prelude.{◌≡◌, ◌<◌, length, map, slice_get, IfOk, Some, option_map};
ghost use Rattle.hz_resolve.specs.Numbered.{uses_of};
ghost use Rattle.hz_resolve.specs.Passes.{found_of, slot_tests as tests_of, Counts, place_found, place_of_use};
ghost use Rattle.hz_resolve.specs.Views.{known_use};

use crate::name::Name;
use crate::passes::{counts, declarations, slot_tests, taken};
use crate::table::Table;
use hz_list::Memory;
use hz_tree::Place;
use std::alloc::Global;

/// The place of each name.
pub fn places(alloc: Global, table: &Table<'_>) -> Result<Vec<Place>, Memory>
    ensures { IfOk result (λ places. places.items ≡ map (place_of_use table.now) (uses_of table.now)) }
{
    let found = declarations(alloc, table)?;
    let taken = taken(alloc, table, &found)?;
    let tests = slot_tests(alloc, table, &found, &taken)?;
    let before = counts(alloc, &tests)?;
    all_places(alloc, table, &found, &tests, &before)
}

/// The place of each name, from where it is declared, whether it has a slot, and how many of the names before it have
/// one.
fn all_places(
    alloc: Global,
    table: &Table<'_>,
    found: &[Option<u32>],
    tests: &[bool],
    before: &[u32],
) -> Result<Vec<Place>, Memory>
    requires found { found.now ≡ map (found_of table.now) (uses_of table.now) }
    requires tests { tests.now ≡ tests_of table.now }
    requires before { Counts (tests_of table.now) before.now }
    ensures { IfOk result (λ places. places.items ≡ map (place_of_use table.now) (uses_of table.now)) }
{
    let mut places = Vec::new(alloc);
    for number in 0..table.len() {
        let name = table.name(number);
        places.push(place(table, name, found[number as usize], tests, before))?;
    }
    Ok(places)
}

/// The place of a name that the one with the number `found` declares.
fn place(
    table: &Table<'_>,
    name: &Name<'_>,
    found: Option<u32>,
    tests: &[bool],
    before: &[u32],
) -> Place
    requires found { found ≡ found_of table.now (known_use name.now) }
    requires tests { tests.now ≡ tests_of table.now }
    requires before { Counts (tests_of table.now) before.now }
    ensures { result ≡ place_of_use table.now (known_use name.now) }
{
    match found {
        None => name.undeclared(),
        Some(declared) => declared_place(table, name, declared, tests, before),
    }
}

/// The place of a name that the one with this number declares.
fn declared_place(
    table: &Table<'_>,
    name: &Name<'_>,
    number: u32,
    tests: &[bool],
    before: &[u32],
) -> Place
    requires inside { number < length (uses_of table.now) }
    requires tests { tests.now ≡ tests_of table.now }
    requires before { Counts (tests_of table.now) before.now }
    ensures { option_map (place_found table.now (known_use name.now) number) (slice_get (uses_of table.now) number)
        ≡ Some result }
{
    let declared = table.name(number);
    if declared.is_global() {
        return Place::Global;
    }
    if !tests[number as usize] {
        return Place::Register;
    }
    Place::Slot {
        hops: table.hops(name, declared, before),
        slot: table.slot(number, declared, before),
    }
}
