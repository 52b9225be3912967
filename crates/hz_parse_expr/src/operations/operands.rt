//! Operations from their beginning (ECMA-262, 13.3 to 13.16).

ghost use Rattle.std.specs.Prelude.{◌≡◌, ◌&&◌, List, OnOk};
ghost use Rattle.hz_tree.specs.declared.nonterminal.Context.{Context as In};
ghost use Rattle.hz_tree.specs.declared.nonterminal.Nonterminal.TheVariants as n;
ghost use Rattle.hz_tree.specs.declared.operator.Level.{Level as Tightness};
ghost use Rattle.hz_tree.specs.declared.tree.Tree.{Tree as Made};
ghost use Rattle.hz_tree.specs.declared.tree.Tree.TheVariants as made;
ghost use Rattle.hz_tree.specs.grammar.Classes.{is_yield};
ghost use Rattle.hz_tree.specs.grammar.Look as grammar;
ghost use Rattle.hz_tree.specs.grammar.OperatorRows as row;
ghost use Rattle.hz_tree.specs.grammar.Operators.{unary_operator};
ghost use Rattle.hz_cuts.specs.Rows.{cut_row};
ghost use Rattle.hz_parts.specs.declared.parts.Behind.{Behind as Applied};
ghost use Rattle.hz_parts.specs.declared.parts.Parts.{Parts as Stacks};
ghost use Rattle.hz_parts.specs.declared.parts.Seen.{Seen as Told};
ghost use Rattle.hz_parts.specs.Makes.{Makes};
ghost use Rattle.hz_parts.specs.Values.{push_behind, push_list, push_seen, push_tree};
ghost use Rattle.hz_parse_expr.specs.Trees.{operated_by};

use super::arrows::arrow;
use super::yields::yields;
use crate::operated::{operated, tailed};
use hz_list::Memory;
use hz_parts::{Numbers, Parts, boxed_tree, past_token};
use hz_tree::{Class, Context, Level, Look, Tree, UnaryOperator};
use std::alloc::Global;

pub fn operation<N: Numbers>(
    alloc: Global,
    numbers: &N,
    parts: &mut Parts<'_>,
    loosest: Level,
    context: Context,
    look: Look,
) -> Result<(), Memory>
    ensures { Makes (n.Operation loosest context)
        (cut_row (N.functions numbers.now) (n.Operation loosest context) look) result parts.old parts.new }
{
    if is_arrow(loosest, look) {
        arrow(numbers, parts)
    } else {
        no_arrow(alloc, parts, reads_yield(loosest, context), look.one)
    }
}

fn is_arrow(loosest: Level, look: Look) -> bool
    ensures { result ≡ row.is_loosest loosest && grammar.begins_arrow look }
{
    is_loosest(loosest) && look.begins_arrow()
}

/// `yield` is an operator.
fn reads_yield(loosest: Level, context: Context) -> bool
    ensures { result ≡ row.is_loosest loosest && context.yields }
{
    is_loosest(loosest) && context.yields
}

fn is_loosest(level: Level) -> bool
    ensures { result ≡ row.is_loosest level }
{
    matches!(level, Level::Assignment)
}

fn no_arrow(alloc: Global, parts: &mut Parts<'_>, may_yield: bool, one: Class) -> Result<(), Memory>
    ensures { (loosest : Tightness) (c : In) → Makes (n.Operation loosest c)
        (row.operation_by loosest c may_yield one) result parts.old parts.new }
{
    if begins_yield(may_yield, one) {
        yields(parts)
    } else {
        operand(alloc, parts, one)
    }
}

fn begins_yield(may_yield: bool, one: Class) -> bool
    ensures { result ≡ may_yield && is_yield one }
{
    may_yield && one.is_yield()
}

/// An operand with an operator before it, or one that begins with none.
fn operand(alloc: Global, parts: &mut Parts<'_>, one: Class) -> Result<(), Memory>
    ensures { (loosest : Tightness) (c : In) → Makes (n.Operation loosest c)
        (row.operand_row loosest c one (unary_operator one)) result parts.old parts.new }
{
    match one.unary_operator() {
        Some(operator) => unary(alloc, parts, operator),
        None => primary(alloc, parts),
    }
}

fn unary(alloc: Global, parts: &mut Parts<'_>, operator: UnaryOperator) -> Result<(), Memory>
    ensures { OnOk result ((begun token : Told) (operand : Made) (operators : List Applied) (below : Stacks)
        → parts.old ≡ push_behind operators (push_tree operand (push_seen token (push_seen begun below)))
        → parts.new ≡ push_tree (operated_by (made.Unary begun.at operator operand) operators) below) }
{
    past_token(parts);
    let Some(begun) = parts.seen.pop() else {
        return Ok(());
    };
    let Some(operators) = parts.behind.pop() else {
        return Ok(());
    };
    let Some(operand) = boxed_tree(alloc, parts)? else {
        return Ok(());
    };
    let head = Tree::Unary {
        at: begun.at,
        operator,
        operand,
    };
    let tree = operated(alloc, head, operators)?;
    parts.trees.push(tree)
}

/// A primary expression with what stands behind it.
fn primary(alloc: Global, parts: &mut Parts<'_>) -> Result<(), Memory>
    ensures { OnOk result ((head : Made) (tails : List Made) (operators : List Applied) (below : Stacks)
        → parts.old ≡ push_behind operators (push_list tails (push_tree head below))
        → parts.new ≡ push_tree (operated_by (row.tailed head tails) operators) below) }
{
    let Some(operators) = parts.behind.pop() else {
        return Ok(());
    };
    let Some(tails) = parts.lists.pop() else {
        return Ok(());
    };
    let Some(head) = parts.trees.pop() else {
        return Ok(());
    };
    let head = tailed(alloc, head, tails)?;
    let tree = operated(alloc, head, operators)?;
    parts.trees.push(tree)
}
