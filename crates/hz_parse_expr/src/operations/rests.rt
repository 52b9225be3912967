//! The operators behind an operand (ECMA-262, 13.4 to 13.15).

ghost use Rattle.std.specs.Prelude.{◌≡◌, List, ◌∷◌, OnOk};
ghost use Rattle.hz_tree.specs.declared.nonterminal.Context.{Context as In};
ghost use Rattle.hz_tree.specs.declared.nonterminal.Nonterminal.TheVariants as n;
ghost use Rattle.hz_tree.specs.declared.operator.Level.{Level as Tightness};
ghost use Rattle.hz_tree.specs.declared.tree.Tree.{Tree as Made};
ghost use Rattle.hz_tree.specs.grammar.OperatorRows as row;
ghost use Rattle.hz_tree.specs.grammar.Operators.{assign_operator, binary_operator, update_operator};
ghost use Rattle.hz_parts.specs.declared.parts.Behind.{Behind as Applied};
ghost use Rattle.hz_parts.specs.declared.parts.Behind.TheVariants as behind;
ghost use Rattle.hz_parts.specs.declared.parts.Seen.{Seen as Told};
ghost use Rattle.hz_parts.specs.Makes.{Makes};

use crate::operators::{assigns, no_operators, push_first, updates};
use hz_list::Memory;
use hz_parts::{Behind, Parts, boxed_tree, past_token};
use hz_tree::{BinaryOperator, Class, Context, Level, Look};
use std::alloc::Global;

pub fn rests(
    alloc: Global,
    parts: &mut Parts<'_>,
    loosest: Level,
    tightest: Level,
    context: Context,
    look: Look,
) -> Result<(), Memory>
    ensures { Makes (n.Rests loosest tightest context) (row.rests_row loosest tightest context look)
        result parts.old parts.new }
{
    if reads_on(loosest, tightest, context, look.one_newline, look.one) {
        rest(alloc, parts, look.one)
    } else {
        no_operators(alloc, parts)
    }
}

/// Whether a token goes on with an operation of these levels. `in` is no operator in the head of a `for`.
fn reads_on(loosest: Level, tightest: Level, context: Context, newline: bool, one: Class) -> bool
    ensures { result ≡ row.reads_on loosest tightest context newline one }
{
    !(one.is_in() && context.no_in)
        && match one.level_behind(newline) {
            Some(own) => own.is_between(loosest, tightest),
            None => false,
        }
}

/// A token that goes on with an operation.
fn rest(alloc: Global, parts: &mut Parts<'_>, one: Class) -> Result<(), Memory>
    ensures { (loosest tightest : Tightness) (c : In) → Makes (n.Rests loosest tightest c)
        (row.rest_row loosest tightest c one) result parts.old parts.new }
{
    match one {
        Class::Question => chooses(alloc, parts),
        _ => operator(alloc, parts, one),
    }
}

/// Two expressions, of which one is chosen.
fn chooses(alloc: Global, parts: &mut Parts<'_>) -> Result<(), Memory>
    ensures { OnOk result ((question colon : Told) (seen : List Told) (first second : Made) (trees : List Made)
        (more : List Applied) (others : List (List Applied)) → parts.old.seen ≡ colon ∷ question ∷ seen
        → parts.old.trees ≡ second ∷ first ∷ trees → parts.old.behind ≡ more ∷ others
        → parts.new
        ≡ record parts.old { seen = seen; trees = trees; behind = (behind.Chooses first second ∷ more) ∷ others }) }
{
    past_token(parts);
    past_token(parts);
    let Some(second) = boxed_tree(alloc, parts)? else {
        return Ok(());
    };
    let Some(first) = boxed_tree(alloc, parts)? else {
        return Ok(());
    };
    let Some(mut operators) = parts.behind.pop() else {
        return Ok(());
    };
    operators.push(Behind::Chooses(first, second))?;
    parts.behind.push(operators)
}

/// An operator with what follows it.
fn operator(alloc: Global, parts: &mut Parts<'_>, one: Class) -> Result<(), Memory>
    ensures { (loosest tightest : Tightness) (c : In) → Makes (n.Rests loosest tightest c)
        (row.operator_row loosest tightest c one (assign_operator one) (update_operator one)
        (binary_operator one)) result parts.old parts.new }
{
    if let Some(operator) = one.assign_operator() {
        return assigns(alloc, parts, operator);
    }
    if let Some(operator) = one.update_operator() {
        return updates(parts, operator);
    }
    match one.binary_operator() {
        Some(operator) => joins(alloc, parts, operator),
        None => no_operators(alloc, parts),
    }
}

/// An operator between two operands, before other operators.
fn joins(alloc: Global, parts: &mut Parts<'_>, operator: BinaryOperator) -> Result<(), Memory>
    ensures { OnOk result ((token : Told) (seen : List Told) (right : Made) (trees : List Made)
        (more : List Applied) (others : List (List Applied)) → parts.old.seen ≡ token ∷ seen
        → parts.old.trees ≡ right ∷ trees → parts.old.behind ≡ more ∷ others
        → parts.new
        ≡ record parts.old { seen = seen; trees = trees; behind = (behind.Joins operator right ∷ more) ∷ others }) }
{
    past_token(parts);
    let Some(right) = boxed_tree(alloc, parts)? else {
        return Ok(());
    };
    push_first(parts, Behind::Joins(operator, right))
}
