//! `yield` (ECMA-262, 15.5).

ghost use Rattle.std.specs.Prelude.{◌≡◌, true, false, List, ◌∷◌, Some, None, OnOk};
ghost use Rattle.hz_tree.specs.declared.nonterminal.Context.{Context as In};
ghost use Rattle.hz_tree.specs.declared.nonterminal.Nonterminal.TheVariants as n;
ghost use Rattle.hz_tree.specs.declared.operator.Level.{Level as Tightness};
ghost use Rattle.hz_tree.specs.declared.tree.Tree.{Tree as Made};
ghost use Rattle.hz_tree.specs.grammar.ExpressionRows as expressions;
ghost use Rattle.hz_tree.specs.grammar.OperatorRows as row;
ghost use Rattle.hz_parts.specs.Makes.{Makes};
ghost use Rattle.hz_parts.specs.Values.{push_flag, push_option};

use hz_list::Memory;
use hz_parts::{Parts, boxed_tree, past_token};
use hz_tree::{Class, Look, Tree};
use std::alloc::Global;

/// `yield` with its value, if it has one.
pub fn yields(parts: &mut Parts<'_>) -> Result<(), Memory>
    ensures { (loosest : Tightness) (c : In) → Makes (n.Operation loosest c)
        (row.operation_by loosest c true Class.Yield) result parts.old parts.new }
{
    past_token(parts);
    let Some(begun) = parts.seen.pop() else {
        return Ok(());
    };
    let Some(delegates) = parts.flags.pop() else {
        return Ok(());
    };
    let Some(value) = parts.options.pop() else {
        return Ok(());
    };
    parts.trees.push(Tree::Yield {
        at: begun.at,
        delegates,
        value,
    })
}

pub fn yield_value(alloc: Global, parts: &mut Parts<'_>, look: Look) -> Result<(), Memory>
    ensures { (c : In) → Makes (n.YieldValue c) (expressions.yield_value_row c look)
        result parts.old parts.new }
{
    if look.one_newline {
        no_value(parts)
    } else {
        value_on_line(alloc, parts, look.one)
    }
}

fn no_value(parts: &mut Parts<'_>) -> Result<(), Memory>
    ensures { OnOk result (parts.new ≡ push_flag false (push_option None parts.old)) }
{
    parts.options.push(None)?;
    parts.flags.push(false)
}

/// The value behind a `yield` on its line, if there is one.
fn value_on_line(alloc: Global, parts: &mut Parts<'_>, one: Class) -> Result<(), Memory>
    ensures { (c : In) → Makes (n.YieldValue c) (expressions.yield_value_by c false one)
        result parts.old parts.new }
{
    match one {
        Class::RightParen
        | Class::RightBracket
        | Class::RightBrace
        | Class::TemplateMiddle
        | Class::TemplateTail
        | Class::Comma
        | Class::Semicolon
        | Class::Colon
        | Class::In
        | Class::End => no_value(parts),
        Class::Star => {
            past_token(parts);
            some_value(alloc, parts, true)
        }
        _ => some_value(alloc, parts, false),
    }
}

/// The uppermost tree as the value, and whether a `*` stands before it.
fn some_value(alloc: Global, parts: &mut Parts<'_>, delegates: bool) -> Result<(), Memory>
    ensures { OnOk result ((value : Made) (trees : List Made) → parts.old.trees ≡ value ∷ trees
        → parts.new ≡ record parts.old {
          trees = trees;
          options = Some value ∷ parts.old.options;
          flags = delegates ∷ parts.old.flags;
        }) }
{
    let Some(value) = boxed_tree(alloc, parts)? else {
        return Ok(());
    };
    parts.options.push(Some(value))?;
    parts.flags.push(delegates)
}
