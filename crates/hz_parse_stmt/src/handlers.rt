//! The clauses of a switch (ECMA-262, 14.12), and what handles the exceptions of a try (14.15).

ghost use Rattle.std.specs.Prelude.{◌≡◌, Bool, true, false};
ghost use Rattle.hz_tree.specs.declared.nonterminal.Context.{Context as In};
ghost use Rattle.hz_tree.specs.declared.nonterminal.Nonterminal.TheVariants as n;
ghost use Rattle.hz_tree.specs.grammar.StatementRows as row;
ghost use Rattle.hz_parts.specs.Makes.{Makes};

use crate::shapes::some_tree;
use hz_list::Memory;
use hz_parts::{Parts, boxed_tree, no_items, past_token};
use hz_tree::{Class, Look, Tree};
use std::alloc::Global;

pub fn catch_clause(parts: &mut Parts<'_>) -> Result<(), Memory>
    ensures { (c : In) → Makes (n.CatchClause c) (row.catch_clause_row c) result parts.old parts.new }
{
    let Some(ended) = parts.seen.pop() else {
        return Ok(());
    };
    past_token(parts);
    past_token(parts);
    let Some(begun) = parts.seen.pop() else {
        return Ok(());
    };
    past_token(parts);
    let Some(here) = parts.seen.pop() else {
        return Ok(());
    };
    let Some(bound) = parts.names.pop() else {
        return Ok(());
    };
    let Some(items) = parts.lists.pop() else {
        return Ok(());
    };
    parts.trees.push(Tree::Catch {
        at: here.at,
        bound,
        brace: begun.at,
        items: items.into_items(),
        end: ended.behind,
    })
}

pub fn catch_name(parts: &mut Parts<'_>, one: Class) -> Result<(), Memory>
    ensures { Makes n.CatchName (row.catch_name_row one) result parts.old parts.new }
{
    match one {
        Class::LeftParen => {
            past_token(parts);
            past_token(parts);
            Ok(())
        }
        _ => parts.names.push(None),
    }
}

pub fn finally(alloc: Global, parts: &mut Parts<'_>, one: Class) -> Result<(), Memory>
    ensures { (c : In) → Makes (n.Finally c) (row.finally_row c one) result parts.old parts.new }
{
    match one {
        Class::Finally => {
            past_token(parts);
            some_tree(alloc, parts)
        }
        _ => parts.options.push(None),
    }
}

/// The clauses of a switch, with at most one `default`.
pub fn clauses(
    alloc: Global,
    parts: &mut Parts<'_>,
    has_default: bool,
    one: Class,
) -> Result<(), Memory>
    ensures { (c : In) → Makes (n.Clauses c has_default) (row.clauses_row c has_default one)
        result parts.old parts.new }
{
    match one {
        Class::Case => case_clause(alloc, parts),
        Class::Default => {
            if has_default {
                no_clauses(alloc, parts)
            } else {
                default_clause(parts)
            }
        }
        _ => no_items(alloc, parts),
    }
}

fn case_clause(alloc: Global, parts: &mut Parts<'_>) -> Result<(), Memory>
    ensures { (c : In) (has_default : Bool) →
        Makes (n.Clauses c has_default) (row.clauses_row c has_default Class.Case) result parts.old parts.new }
{
    past_token(parts);
    let Some(first) = parts.seen.pop() else {
        return Ok(());
    };
    let Some(mut clauses) = parts.lists.pop() else {
        return Ok(());
    };
    let Some(items) = parts.lists.pop() else {
        return Ok(());
    };
    let Some(value) = boxed_tree(alloc, parts)? else {
        return Ok(());
    };
    clauses.push(Tree::Case {
        at: first.at,
        value,
        items: items.into_items(),
    })?;
    parts.lists.push(clauses)
}

fn default_clause(parts: &mut Parts<'_>) -> Result<(), Memory>
    ensures { (c : In) → Makes (n.Clauses c false) (row.clauses_row c false Class.Default)
        result parts.old parts.new }
{
    past_token(parts);
    let Some(first) = parts.seen.pop() else {
        return Ok(());
    };
    let Some(mut clauses) = parts.lists.pop() else {
        return Ok(());
    };
    let Some(items) = parts.lists.pop() else {
        return Ok(());
    };
    clauses.push(Tree::Default {
        at: first.at,
        items: items.into_items(),
    })?;
    parts.lists.push(clauses)
}

/// A second `default` is none of the clauses.
fn no_clauses(alloc: Global, parts: &mut Parts<'_>) -> Result<(), Memory>
    ensures { (c : In) → Makes (n.Clauses c true) (row.clauses_row c true Class.Default)
        result parts.old parts.new }
{
    no_items(alloc, parts)
}

/// What follows the block of a try.
pub fn handlers(alloc: Global, parts: &mut Parts<'_>, look: Look) -> Result<(), Memory>
    ensures { (c : In) → Makes (n.Handlers c) (row.handlers_row c look) result parts.old parts.new }
{
    match look.one {
        Class::Catch => some_tree(alloc, parts),
        _ => parts.options.push(None),
    }
}
