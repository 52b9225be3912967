//! The tree of an expression of a function (ECMA-262, 13).

ghost use Rattle.std.specs.Prelude.{◌≡◌, ◌≢◌, ◌<◌, ◌≤◌, List, [], ◌∷◌, length, true, false, Some, IfOk};
ghost use Rattle.std.specs.List.{slice_get};
ghost use Rattle.hz_tree.specs.declared.index.FunctionInfo.{FunctionInfo as Entry};
ghost use Rattle.hz_tree.specs.declared.tree.Tree.{Tree as Made};
ghost use Rattle.hz_tree.specs.sources.Refusals.{functions as functions_in};
ghost use Rattle.hz_middle.specs.Place.{left};
ghost use Rattle.hz_parse.specs.Parsed as spec;
ghost use Rattle.hz_parse.specs.Parsed.{ReadsTree};
ghost use Rattle.hz_parse.specs.Whole.{Whole};

use crate::symbols::read_symbols;
use hz_index::Index;
use hz_list::{Memory, Steps};
use hz_middle::Middle;
use hz_parts::Parts;
use hz_tree::{Context, FunctionKind, Level, Nonterminal, Symbol, Tree};
use std::alloc::Global;
use std::sync::ledger::Ledger;

/// The tree of an expression that stands at the cursor in the function with this number, in which the functions within
/// stand by their numbers. Where `whole` is not set it is an assignment expression, which a comma ends; where `no_in`
/// is set it stands in the head of a `for`, and `in` ends it. Afterwards the cursor stands behind its last token, and
/// one step was taken for each token of it that stands in no function within. The only fault is want of memory; after
/// that the cursor may be used no more.
pub fn parse_expression<'a, L: Ledger>(
    alloc: Global,
    index: &Index<'a>,
    k: u32,
    cursor: &mut Middle<'a>,
    no_in: bool,
    whole: bool,
    steps: &mut Steps<L>,
) -> Result<Tree<'a>, Memory>
    requires function { k < length (functions_in index.now.source) }
    requires source { cursor.old.source ≡ index.now.source }
    requires inside { cursor.old.at ≤ length cursor.old.source }
    requires stands { (info : Entry) → slice_get (functions_in index.now.source) k ≡ Some info →
        Whole (functions_in index.now.source) (spec.expression whole (spec.context_in info.kind no_in)).symbols
        (left cursor.old) }
    ensures { IfOk result (λ tree. (info : Entry) → slice_get (functions_in index.now.source) k ≡ Some info →
        ReadsTree (functions_in index.now.source) (spec.expression whole (spec.context_in info.kind no_in))
        (left cursor.old) (left cursor.new) tree steps.old steps.new) }
{
    let context = context_in(index.function(k).kind, no_in);
    let right = &[expression(whole, context)];
    let mut parts = read_symbols(alloc, index, cursor, right, steps)?;
    Ok(tree_of(&mut parts))
}

/// The parameters of the rules in a function of the kind.
fn context_in(kind: FunctionKind, no_in: bool) -> Context
    ensures { result ≡ spec.context_in kind no_in }
{
    match kind {
        FunctionKind::Script => Context {
            returns: false,
            yields: false,
            no_in,
        },
        FunctionKind::Generator => Context {
            returns: true,
            yields: true,
            no_in,
        },
        _ => Context {
            returns: true,
            yields: false,
            no_in,
        },
    }
}

fn expression(whole: bool, context: Context) -> Symbol
    ensures { result ∷ [] ≡ (spec.expression whole context).symbols }
{
    if whole {
        return Symbol::Read(Nonterminal::Expr(context));
    }
    Symbol::Read(Nonterminal::Operation(Level::Assignment, context))
}

/// The tree that was made.
fn tree_of<'a>(parts: &mut Parts<'a>) -> Tree<'a>
    requires { parts.old.trees ≢ [] }
    ensures { (tree : Made) (others : List Made) → parts.old.trees ≡ tree ∷ others → result ≡ tree }
{
    let Some(tree) = parts.trees.pop() else {
        unreachable!();
    };
    tree
}
