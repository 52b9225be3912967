//! The tree of a script (ECMA-262, 16.1).

ghost use Rattle.std.specs.Prelude.{◌≡◌, ◌≢◌, ◌≤◌, List, [], ◌∷◌, length, None, IfOk};
ghost use Rattle.hz_tree.specs.declared.tree.Tree.{Tree as Made};
ghost use Rattle.hz_tree.specs.declared.tree.FunctionKind.TheVariants as kind;
ghost use Rattle.hz_tree.specs.declared.tree.Tree.TheVariants as t;
ghost use Rattle.hz_tree.specs.sources.Refusals.{functions as functions_in};
ghost use Rattle.hz_middle.specs.Place.{left};
ghost use Rattle.hz_parts.specs.declared.parts.Seen.{Seen as Told};
ghost use Rattle.hz_parse.specs.Parsed.{ReadsScript, script_symbols};
ghost use Rattle.hz_parse.specs.Whole.{Whole};

use crate::symbols::read_symbols;
use hz_index::Index;
use hz_list::{Memory, Steps};
use hz_middle::Middle;
use hz_parts::Parts;
use hz_tree::{Context, FunctionKind, FunctionTree, NodeKind, Nonterminal, Signal, Symbol, Tree};
use sqlite_items::Items;
use std::alloc::Global;
use std::sync::ledger::Ledger;

/// The script, up to the end of the source.
pub fn parse_script<'a, L: Ledger>(
    alloc: Global,
    index: &Index<'a>,
    place: &mut Middle<'a>,
    steps: &mut Steps<L>,
) -> Result<FunctionTree<'a>, Memory>
    requires source { place.old.source ≡ index.now.source }
    requires inside { place.old.at ≤ length place.old.source }
    requires read { Whole (functions_in index.now.source) script_symbols (left place.old) }
    ensures { IfOk result (λ tree. ReadsScript (functions_in index.now.source) (left place.old) tree
        steps.old steps.new) }
{
    let script = Context {
        returns: false,
        yields: false,
        no_in: false,
    };
    let right = &[
        Symbol::Tell(Signal::Begin(NodeKind::Body)),
        Symbol::Read(Nonterminal::Items(script)),
    ];
    let mut parts = read_symbols(alloc, index, place, right, steps)?;
    Ok(with_items(alloc, &mut parts))
}

/// The script whose items were read.
fn with_items<'a>(alloc: Global, parts: &mut Parts<'a>) -> FunctionTree<'a>
    requires { (parts.old.seen ≢ []) × (parts.old.lists ≢ []) }
    ensures { (begun : Told) (told : List Told) (items : List Made) (lists : List (List Made)) →
        parts.old.seen ≡ begun ∷ told → parts.old.lists ≡ items ∷ lists → result ≡ record {
          number = 0;
          kind = kind.Script;
          parameters = [];
          rest = None;
          body = t.Script begun.at items;
        } }
{
    let Some(begun) = parts.seen.pop() else {
        unreachable!();
    };
    let Some(items) = parts.lists.pop() else {
        unreachable!();
    };
    FunctionTree {
        number: 0,
        kind: FunctionKind::Script,
        parameters: Items::from_vec(Vec::new(alloc)),
        rest: None,
        body: Tree::Script {
            at: begun.at,
            items: items.into_items(),
        },
    }
}
