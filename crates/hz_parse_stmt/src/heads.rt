//! The head of a `for` with its body (ECMA-262, 14.7.4 and 14.7.5).

ghost use Rattle.std.specs.Prelude.{◌≡◌, List, ◌∷◌, Option, Some, OnOk};
ghost use Rattle.hz_tree.specs.declared.class.Class.{Class as Kind};
ghost use Rattle.hz_tree.specs.declared.look.Look.{Look as Ahead};
ghost use Rattle.hz_tree.specs.declared.nonterminal.Context.{Context as In};
ghost use Rattle.hz_tree.specs.declared.nonterminal.Nonterminal.TheVariants as n;
ghost use Rattle.hz_tree.specs.declared.operator.DeclarationWord.{DeclarationWord as Word};
ghost use Rattle.hz_tree.specs.declared.tree.Bound.{Bound as Named};
ghost use Rattle.hz_tree.specs.declared.tree.Tree.{Tree as Made};
ghost use Rattle.hz_tree.specs.grammar.HeadRows as row;
ghost use Rattle.hz_parts.specs.declared.heads.AfterFor.TheVariants as after_for;
ghost use Rattle.hz_parts.specs.declared.heads.AfterLeft.TheVariants as after_left;
ghost use Rattle.hz_parts.specs.declared.heads.AfterName.{AfterName as Following};
ghost use Rattle.hz_parts.specs.declared.heads.AfterName.TheVariants as after_name;
ghost use Rattle.hz_parts.specs.declared.parts.Parts.{Parts as Stacks};
ghost use Rattle.hz_parts.specs.declared.parts.Seen.{Seen as Told};
ghost use Rattle.hz_parts.specs.Makes.{Makes};
ghost use Rattle.hz_parts.specs.Values.{push_after_for, push_after_left, push_after_name, push_name};
ghost use Rattle.hz_parts.specs.Values.{push_seen, push_tree};
ghost use Rattle.hz_parse_stmt.specs.Heads.{left_row, no_left_row};

use crate::shapes::{past_three_tokens, some_tree};
use hz_list::Memory;
use hz_parts::{AfterFor, AfterLeft, AfterName, Parts, boxed_tree, past_token};
use hz_tree::{Class, Context, DeclarationWord, Iteration, Look, Tree};
use sqlite_items::Boxed;
use std::alloc::Global;

pub fn for_open(parts: &mut Parts<'_>, one: Class) -> Result<(), Memory>
    ensures { Makes n.ForOpen (row.for_open_row one) result parts.old parts.new }
{
    past_token(parts);
    Ok(())
}

/// What follows the name of a declaration in a head.
pub fn declared_head(
    alloc: Global,
    parts: &mut Parts<'_>,
    word: DeclarationWord,
    one: Class,
) -> Result<(), Memory>
    ensures { (c : In) → Makes (n.DeclaredHead word c) (row.declared_head_row word c one)
        result parts.old parts.new }
{
    match one {
        Class::In => over_keys(alloc, parts),
        Class::Of => over_values(alloc, parts),
        _ => initialised(parts),
    }
}

fn over_keys(alloc: Global, parts: &mut Parts<'_>) -> Result<(), Memory>
    ensures { (word : Word) (c : In) → Makes (n.DeclaredHead word c) (row.declared_head_row word c Class.In)
        result parts.old parts.new }
{
    goes_over(alloc, parts, Iteration::In)
}

fn over_values(alloc: Global, parts: &mut Parts<'_>) -> Result<(), Memory>
    ensures { (word : Word) (c : In) → Makes (n.DeclaredHead word c) (row.declared_head_row word c Class.Of)
        result parts.old parts.new }
{
    goes_over(alloc, parts, Iteration::Of)
}

fn goes_over(alloc: Global, parts: &mut Parts<'_>, iteration: Iteration) -> Result<(), Memory>
    ensures { OnOk result ((token : Told) (over : Made) (below : Stacks)
        → parts.old ≡ push_tree over (push_seen token below)
        → parts.new ≡ push_after_name (after_name.GoesOver iteration over) below) }
{
    past_token(parts);
    let Some(over) = boxed_tree(alloc, parts)? else {
        return Ok(());
    };
    parts.after_names.push(AfterName::GoesOver(iteration, over))
}

/// Values, a test and an update.
fn initialised(parts: &mut Parts<'_>) -> Result<(), Memory>
    ensures { (word : Word) (c : In) → Makes (n.DeclaredHead word c) (row.declared_head_row word c Class.Assign)
        result parts.old parts.new }
{
    past_token(parts);
    past_token(parts);
    let Some(update) = parts.options.pop() else {
        return Ok(());
    };
    let Some(test) = parts.options.pop() else {
        return Ok(());
    };
    let Some(value) = parts.options.pop() else {
        return Ok(());
    };
    let Some(more) = parts.lists.pop() else {
        return Ok(());
    };
    parts.after_names.push(AfterName::Initialised {
        value,
        more,
        test,
        update,
    })
}

/// What follows the left-hand side with which a head begins.
pub fn left_head(alloc: Global, parts: &mut Parts<'_>, one: Class) -> Result<(), Memory>
    ensures { (c : In) → Makes (n.LeftHead c) (row.left_head_row c one) result parts.old parts.new }
{
    match one {
        Class::In => target_of_keys(alloc, parts),
        Class::Of => target_of_values(alloc, parts),
        _ => expression_of(parts),
    }
}

fn target_of_keys(alloc: Global, parts: &mut Parts<'_>) -> Result<(), Memory>
    ensures { (c : In) → Makes (n.LeftHead c) (row.left_head_row c Class.In) result parts.old parts.new }
{
    target_of(alloc, parts, Iteration::In)
}

fn target_of_values(alloc: Global, parts: &mut Parts<'_>) -> Result<(), Memory>
    ensures { (c : In) → Makes (n.LeftHead c) (row.left_head_row c Class.Of) result parts.old parts.new }
{
    target_of(alloc, parts, Iteration::Of)
}

fn target_of(alloc: Global, parts: &mut Parts<'_>, iteration: Iteration) -> Result<(), Memory>
    ensures { OnOk result ((token : Told) (over : Made) (below : Stacks)
        → parts.old ≡ push_tree over (push_seen token below)
        → parts.new ≡ push_after_left (after_left.TargetOf iteration over) below) }
{
    past_token(parts);
    let Some(over) = boxed_tree(alloc, parts)? else {
        return Ok(());
    };
    parts.after_lefts.push(AfterLeft::TargetOf(iteration, over))
}

/// The rest of an expression, a test and an update.
fn expression_of(parts: &mut Parts<'_>) -> Result<(), Memory>
    ensures { (c : In) → Makes (n.LeftHead c) (row.left_head_row c Class.Semicolon) result parts.old parts.new }
{
    past_token(parts);
    past_token(parts);
    let Some(update) = parts.options.pop() else {
        return Ok(());
    };
    let Some(test) = parts.options.pop() else {
        return Ok(());
    };
    let Some(more) = parts.lists.pop() else {
        return Ok(());
    };
    let Some(operators) = parts.behind.pop() else {
        return Ok(());
    };
    parts.after_lefts.push(AfterLeft::ExpressionOf {
        operators,
        more,
        test,
        update,
    })
}

/// A head with `let` or `const`, which has a scope.
fn lexical_head(alloc: Global, parts: &mut Parts<'_>, word: DeclarationWord) -> Result<(), Memory>
    ensures { (c : In) (one : Kind) → Makes (n.Head c) (row.lexical_head_row word one c)
        result parts.old parts.new }
{
    let Some(ended) = parts.seen.pop() else {
        return Ok(());
    };
    declares(alloc, parts, word, Some(ended.behind))
}

fn var_head(alloc: Global, parts: &mut Parts<'_>) -> Result<(), Memory>
    ensures { (c : In) (l : Ahead) → Makes (n.Head c) (row.head_by c l Class.Var) result parts.old parts.new }
{
    declares(alloc, parts, DeclarationWord::Var, None)
}

/// A head that declares a name, with the place where its scope ends.
fn declares(
    alloc: Global,
    parts: &mut Parts<'_>,
    word: DeclarationWord,
    end: Option<usize>,
) -> Result<(), Memory>
    ensures { OnOk result ((first last : Told) (bound : Named) (after : Following) (body : Made) (below : Stacks)
        → parts.old ≡ push_tree body (push_seen last (push_after_name after (push_name (Some bound)
        (push_seen first below))))
        → parts.new ≡ push_after_for (after_for.Declares word bound after body end) below) }
{
    past_token(parts);
    past_token(parts);
    let Some(Some(bound)) = parts.names.pop() else {
        return Ok(());
    };
    let Some(after) = parts.after_names.pop() else {
        return Ok(());
    };
    let Some(body) = boxed_tree(alloc, parts)? else {
        return Ok(());
    };
    parts.after_fors.push(AfterFor::Declares {
        word,
        bound,
        after,
        body,
        end,
    })
}

/// A head without a first expression.
fn no_first(alloc: Global, parts: &mut Parts<'_>) -> Result<(), Memory>
    ensures { (c : In) (l : Ahead) → Makes (n.Head c) (row.head_by c l Class.Semicolon)
        result parts.old parts.new }
{
    past_three_tokens(parts);
    let Some(body) = boxed_tree(alloc, parts)? else {
        return Ok(());
    };
    tested(parts, None, body)
}

/// A first expression, if there is one, with the test and the update behind it.
fn tested<'a>(
    parts: &mut Parts<'a>,
    first: Option<Boxed<Tree<'a>>>,
    body: Boxed<Tree<'a>>,
) -> Result<(), Memory>
    ensures { OnOk result ((update test : Option Made) (options : List (Option Made))
        → parts.old.options ≡ update ∷ test ∷ options
        → parts.new ≡ record parts.old {
          options = options;
          after_fors = after_for.BeginsExpr first.entry test update body.entry ∷ parts.old.after_fors;
        }) }
{
    let Some(update) = parts.options.pop() else {
        return Ok(());
    };
    let Some(test) = parts.options.pop() else {
        return Ok(());
    };
    parts.after_fors.push(AfterFor::BeginsExpr {
        first,
        test,
        update,
        body,
    })
}

pub fn optional_expr(alloc: Global, parts: &mut Parts<'_>, one: Class) -> Result<(), Memory>
    ensures { (c : In) → Makes (n.OptionalExpr c) (row.optional_expr_row c one) result parts.old parts.new }
{
    match one {
        Class::Semicolon => parts.options.push(None),
        Class::RightParen => parts.options.push(None),
        _ => some_tree(alloc, parts),
    }
}

/// What follows the `(` of a head, with the body.
pub fn head(
    alloc: Global,
    parts: &mut Parts<'_>,
    context: Context,
    look: Look,
) -> Result<(), Memory>
    ensures { Makes (n.Head context) (row.head_row context look) result parts.old parts.new }
{
    match look.one {
        Class::Var => var_head(alloc, parts),
        Class::Let => lexical_head(alloc, parts, DeclarationWord::Let),
        Class::Const => lexical_head(alloc, parts, DeclarationWord::Const),
        Class::Semicolon => no_first(alloc, parts),
        _ => expr_head(alloc, parts, context, look),
    }
}

/// An expression that is no left-hand side begins.
fn is_no_left(context: Context, look: Look) -> bool
    ensures { result ≡ row.is_no_left context look }
{
    look.one.unary_operator().is_some()
        || look.begins_arrow()
        || (look.one.is_yield() && context.yields)
}

/// A head that begins with an expression.
fn expr_head(
    alloc: Global,
    parts: &mut Parts<'_>,
    context: Context,
    look: Look,
) -> Result<(), Memory>
    ensures { Makes (n.Head context) (row.expr_head_row context look) result parts.old parts.new }
{
    if is_no_left(context, look) {
        begins_expr(alloc, parts)
    } else {
        begins_left(alloc, parts)
    }
}

fn begins_expr(alloc: Global, parts: &mut Parts<'_>) -> Result<(), Memory>
    ensures { (c : In) → Makes (n.Head c) (no_left_row c) result parts.old parts.new }
{
    past_three_tokens(parts);
    let Some(body) = boxed_tree(alloc, parts)? else {
        return Ok(());
    };
    let first = boxed_tree(alloc, parts)?;
    tested(parts, first, body)
}

fn begins_left(alloc: Global, parts: &mut Parts<'_>) -> Result<(), Memory>
    ensures { (c : In) → Makes (n.Head c) (left_row c) result parts.old parts.new }
{
    past_token(parts);
    let Some(after) = parts.after_lefts.pop() else {
        return Ok(());
    };
    let Some(body) = boxed_tree(alloc, parts)? else {
        return Ok(());
    };
    let Some(left) = boxed_tree(alloc, parts)? else {
        return Ok(());
    };
    parts
        .after_fors
        .push(AfterFor::BeginsLeft { left, after, body })
}
