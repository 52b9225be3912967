//! The `for` statement (ECMA-262, 14.7.4 and 14.7.5).

ghost use Rattle.std.specs.Prelude.{◌≡◌, IfOk};
ghost use Rattle.hz_tree.specs.declared.look.Look.{Look as Ahead};
ghost use Rattle.hz_tree.specs.declared.nonterminal.Context.{Context as In};
ghost use Rattle.hz_tree.specs.declared.nonterminal.Nonterminal.TheVariants as n;
ghost use Rattle.hz_tree.specs.grammar.StatementRows as row;
ghost use Rattle.hz_parts.specs.Makes.{Makes};
ghost use Rattle.hz_parse_stmt.specs.Loops.{declared_tree_for, left_tree_for, tree_for};

use hz_list::Memory;
use hz_parse_expr::operated::{listed, operated};
use hz_parts::{AfterFor, AfterLeft, AfterName, Parts, past_token};
use hz_tree::{Bound, Class, DeclarationWord, Tree};
use sqlite_items::Boxed;
use std::alloc::Global;

#[tactic(auto, using(crate::proofs::LoopLaws::tree_for_shown))]
pub fn for_statement(alloc: Global, parts: &mut Parts<'_>) -> Result<(), Memory>
    ensures { (c : In) (l : Ahead) → Makes (n.Statement c) (row.statement_by c l Class.For)
        result parts.old parts.new }
{
    past_token(parts);
    let Some(begun) = parts.seen.pop() else {
        return Ok(());
    };
    let Some(after) = parts.after_fors.pop() else {
        return Ok(());
    };
    let tree = for_tree(alloc, begun.at, after)?;
    parts.trees.push(tree)
}

/// The statement that begins here, from what follows its `(`.
fn for_tree<'a>(alloc: Global, at: usize, after: AfterFor<'a>) -> Result<Tree<'a>, Memory>
    ensures { IfOk result (λ tree. tree ≡ tree_for at after.entry) }
{
    match after {
        AfterFor::Declares {
            word,
            bound,
            after,
            body,
            end,
        } => declared_tree(at, word, bound, after, body, end),
        AfterFor::BeginsLeft { left, after, body } => left_tree(alloc, at, left, after, body),
        AfterFor::BeginsExpr {
            first,
            test,
            update,
            body,
        } => Ok(Tree::ForExpr {
            at,
            first,
            test,
            update,
            body,
        }),
    }
}

/// The statement that begins here, from the name behind its `(` and the word, and what follows that.
fn declared_tree<'a>(
    at: usize,
    word: DeclarationWord,
    bound: Bound<'a>,
    after: AfterName<'a>,
    body: Boxed<Tree<'a>>,
    end: Option<usize>,
) -> Result<Tree<'a>, Memory>
    ensures { IfOk result (λ tree. tree ≡ declared_tree_for at word bound.entry after.entry body.entry end) }
{
    match after {
        AfterName::GoesOver(iteration, over) => Ok(Tree::ForDeclared {
            at,
            word,
            bound,
            iteration,
            over,
            body,
            end,
        }),
        AfterName::Initialised {
            value,
            more,
            test,
            update,
        } => {
            let mut binds = more;
            binds.push(Tree::Bind {
                at: bound.at,
                word,
                name: bound.name,
                value,
            })?;
            Ok(Tree::ForBinds {
                at,
                word,
                binds: binds.into_items(),
                test,
                update,
                body,
                end,
            })
        }
    }
}

/// The statement that begins here, from the left-hand side behind its `(` and what follows that.
fn left_tree<'a>(
    alloc: Global,
    at: usize,
    left: Boxed<Tree<'a>>,
    after: AfterLeft<'a>,
    body: Boxed<Tree<'a>>,
) -> Result<Tree<'a>, Memory>
    ensures { IfOk result (λ tree. tree ≡ left_tree_for at left.entry after.entry body.entry) }
{
    match after {
        AfterLeft::TargetOf(iteration, over) => Ok(Tree::ForLeft {
            at,
            target: left,
            iteration,
            over,
            body,
        }),
        AfterLeft::ExpressionOf {
            operators,
            more,
            test,
            update,
        } => {
            let first = operated(alloc, left.into_inner(), operators)?;
            let first = listed(alloc, first, more)?;
            Ok(Tree::ForExpr {
                at,
                first: Some(Boxed::new(alloc, first)?),
                test,
                update,
                body,
            })
        }
    }
}
