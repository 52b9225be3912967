//! The tree of the function with a number.

ghost use Rattle.std.specs.Prelude.{◌≡◌, ◌<◌, ◌≤◌, length, IfOk};
ghost use Rattle.hz_tree.specs.sources.Refusals.{functions as functions_in};
ghost use Rattle.hz_middle.specs.Place.{left};
ghost use Rattle.hz_stands.specs.Stands.{written};
ghost use Rattle.hz_parse.specs.Parsed.{Parsed, Reads, symbols_by};
ghost use Rattle.hz_parse.specs.Whole.{Whole};

use crate::given::function_of;
use crate::script::parse_script;
use crate::shapes::{has_one_name, symbols_of};
use crate::symbols::read_symbols;
use hz_index::Index;
use hz_list::{Memory, Steps};
use hz_middle::Middle;
use hz_tree::{FunctionKind, FunctionTree};
use std::alloc::Global;
use std::sync::ledger::Ledger;

/// The tree of the function with this number (ECMA-262, 15 and 16.1), in which the functions within stand by their
/// numbers. It is read from where it starts, with one step for each token that is its own; a function within is
/// passed over by its extent. The only fault is want of memory.
pub fn parse_function<'a, L: Ledger>(
    alloc: Global,
    index: &Index<'a>,
    k: u32,
    steps: &mut Steps<L>,
) -> Result<FunctionTree<'a>, Memory>
    requires { k < length (functions_in index.now.source) }
    ensures { IfOk result (λ tree. Parsed index.now.source k tree steps.old steps.new) }
{
    let function = index.function(k);
    let mut place = Middle::new(alloc, index.source(), function.start);
    if k == 0 {
        parse_script(alloc, index, &mut place, steps)
    } else {
        parse_inner(alloc, index, k, function.kind, &mut place, steps)
    }
}

/// The function with this number and of this kind that starts here (ECMA-262, 15). Its kind and its first token tell how
/// it is written.
fn parse_inner<'a, L: Ledger>(
    alloc: Global,
    index: &Index<'a>,
    number: u32,
    kind: FunctionKind,
    place: &mut Middle<'a>,
    steps: &mut Steps<L>,
) -> Result<FunctionTree<'a>, Memory>
    requires source { place.old.source ≡ index.now.source }
    requires inside { place.old.at ≤ length place.old.source }
    requires read { Whole (functions_in index.now.source) (written (symbols_by kind (left place.old))).symbols
        (left place.old) }
    ensures { IfOk result (λ tree. Reads (functions_in index.now.source) number kind (left place.old) tree
        steps.old steps.new (symbols_by kind (left place.old))) }
{
    let first = place.look(false).one;
    let right = symbols_of(kind, first);
    let mut parts = read_symbols(alloc, index, place, right, steps)?;
    let one_name = has_one_name(kind, first);
    function_of(alloc, number, kind, one_name, &mut parts)
}
