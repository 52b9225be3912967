//! What tails and operators make of the operand before them.

ghost use Rattle.std.specs.Prelude.{◌≡◌, IfOk};
ghost use Rattle.hz_tree.specs.grammar.ExpressionRows as expressions;
ghost use Rattle.hz_tree.specs.grammar.OperatorRows as row;
ghost use Rattle.hz_parse_expr.specs.Trees.{operated_by, operation_tree};

use crate::place::place;
use hz_list::Memory;
use hz_parts::{Backwards, Behind};
use hz_tree::Tree;
use sqlite_items::Boxed;
use std::alloc::Global;

/// An operand with the members and calls behind it. Without any it is the operand.
pub fn tailed<'a>(
    alloc: Global,
    head: Tree<'a>,
    tails: Backwards<Tree<'a>>,
) -> Result<Tree<'a>, Memory>
    ensures { IfOk result (λ tree. tree ≡ row.tailed head.entry tails.entry) }
{
    if tails.is_empty() {
        return Ok(head);
    }
    let at = place(&head);
    let head = Boxed::new(alloc, head)?;
    Ok(Tree::Left {
        at,
        head,
        tails: tails.into_items(),
    })
}

/// An operand with the operators behind it, grouped to the left.
pub fn operated<'a>(
    alloc: Global,
    head: Tree<'a>,
    operators: Backwards<Behind<'a>>,
) -> Result<Tree<'a>, Memory>
    ensures { IfOk result (λ tree. tree ≡ operated_by head.entry operators.entry) }
{
    let mut tree = head;
    let mut left = operators;
    while let Some(operator) = left.pop() {
        tree = operation(alloc, tree, operator)?;
    }
    Ok(tree)
}

fn operation<'a>(alloc: Global, head: Tree<'a>, operator: Behind<'a>) -> Result<Tree<'a>, Memory>
    ensures { IfOk result (λ tree. tree ≡ operation_tree head.entry operator.entry) }
{
    let at = place(&head);
    let first = Boxed::new(alloc, head)?;
    match operator {
        Behind::Updates(operator) => Ok(Tree::Postfix {
            at,
            operand: first,
            operator,
        }),
        Behind::Joins(operator, right) => Ok(Tree::Binary {
            at,
            left: first,
            operator,
            right,
        }),
        Behind::Chooses(then, otherwise) => Ok(Tree::Cond {
            at,
            test: first,
            then,
            otherwise,
        }),
        Behind::Assigns(operator, value) => Ok(Tree::Assign {
            at,
            target: first,
            operator,
            value,
        }),
    }
}

/// Several expressions, or the only one.
pub fn listed<'a>(
    alloc: Global,
    first: Tree<'a>,
    more: Backwards<Tree<'a>>,
) -> Result<Tree<'a>, Memory>
    ensures { IfOk result (λ tree. tree ≡ expressions.listed first.entry more.entry) }
{
    if more.is_empty() {
        return Ok(first);
    }
    let at = place(&first);
    let mut values = more;
    values.push(first)?;
    Ok(Tree::Comma {
        at,
        values: values.into_items(),
    })
}
