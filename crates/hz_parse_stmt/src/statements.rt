//! Statements (ECMA-262, 14).

ghost use Rattle.std.specs.Prelude.{◌≡◌, Bool, false, ◌&&◌, List, ◌∷◌, Some, OnOk};
ghost use Rattle.hz_tree.specs.declared.look.Look.{Look as Ahead};
ghost use Rattle.hz_tree.specs.declared.nonterminal.Context.{Context as In};
ghost use Rattle.hz_tree.specs.declared.nonterminal.Nonterminal.TheVariants as n;
ghost use Rattle.hz_tree.specs.grammar.Classes.{is_colon, is_name};
ghost use Rattle.hz_tree.specs.grammar.StatementRows as row;
ghost use Rattle.hz_parts.specs.declared.parts.Seen.{Seen as Told};
ghost use Rattle.hz_parts.specs.Makes.{Makes};

use crate::for_loop::for_statement;
use crate::shapes::{past_three_tokens, some_tree};
use hz_list::Memory;
use hz_parts::{Parts, boxed_tree, past_token};
use hz_tree::{Bound, Class, Jump, Look, Tree};
use std::alloc::Global;

pub fn statement(alloc: Global, parts: &mut Parts<'_>, look: Look) -> Result<(), Memory>
    ensures { (c : In) → Makes (n.Statement c) (row.statement_row c look) result parts.old parts.new }
{
    if is_labelled(look) {
        labelled(alloc, parts)
    } else {
        unlabelled(alloc, parts, look.one)
    }
}

fn is_labelled(look: Look) -> bool
    ensures { result ≡ is_name look.one && is_colon look.two }
{
    look.one.is_name() && look.two.is_colon()
}

fn unlabelled(alloc: Global, parts: &mut Parts<'_>, one: Class) -> Result<(), Memory>
    ensures { (c : In) (l : Ahead) → Makes (n.Statement c) (row.statement_by c l one) result parts.old parts.new }
{
    match one {
        Class::LeftBrace => Ok(()),
        Class::Var => var_statement(parts),
        Class::Semicolon => empty_statement(parts),
        Class::Debugger => debugger_statement(parts),
        Class::If => if_statement(alloc, parts),
        Class::Do => do_statement(alloc, parts),
        Class::While => while_statement(alloc, parts),
        Class::For => for_statement(alloc, parts),
        Class::Continue => continue_statement(parts),
        Class::Break => break_statement(parts),
        Class::Return => return_statement(parts),
        Class::Throw => throw_statement(alloc, parts),
        Class::Switch => switch_statement(alloc, parts),
        Class::Try => try_statement(alloc, parts),
        _ => expression_statement(alloc, parts),
    }
}

pub fn block(parts: &mut Parts<'_>) -> Result<(), Memory>
    ensures { (c : In) → Makes (n.Block c) (row.block_row c) result parts.old parts.new }
{
    let Some(ended) = parts.seen.pop() else {
        return Ok(());
    };
    past_token(parts);
    past_token(parts);
    let Some(begun) = parts.seen.pop() else {
        return Ok(());
    };
    let Some(items) = parts.lists.pop() else {
        return Ok(());
    };
    parts.trees.push(Tree::Block {
        at: begun.at,
        items: items.into_items(),
        end: ended.behind,
    })
}

fn switch_statement(alloc: Global, parts: &mut Parts<'_>) -> Result<(), Memory>
    ensures { (c : In) → Makes (n.Statement c) (row.switch_row c) result parts.old parts.new }
{
    let Some(ended) = parts.seen.pop() else {
        return Ok(());
    };
    past_token(parts);
    past_token(parts);
    let Some(brace) = parts.seen.pop() else {
        return Ok(());
    };
    past_token(parts);
    past_token(parts);
    past_token(parts);
    let Some(begun) = parts.seen.pop() else {
        return Ok(());
    };
    let Some(clauses) = parts.lists.pop() else {
        return Ok(());
    };
    let Some(value) = boxed_tree(alloc, parts)? else {
        return Ok(());
    };
    parts.trees.push(Tree::Switch {
        at: begun.at,
        value,
        brace: brace.at,
        clauses: clauses.into_items(),
        end: ended.behind,
    })
}

fn var_statement(parts: &mut Parts<'_>) -> Result<(), Memory>
    ensures { (c : In) (l : Ahead) → Makes (n.Statement c) (row.statement_by c l Class.Var)
        result parts.old parts.new }
{
    past_token(parts);
    let Some(begun) = parts.seen.pop() else {
        return Ok(());
    };
    let Some(binds) = parts.lists.pop() else {
        return Ok(());
    };
    parts.trees.push(Tree::Var {
        at: begun.at,
        binds: binds.into_items(),
    })
}

fn empty_statement(parts: &mut Parts<'_>) -> Result<(), Memory>
    ensures { (c : In) (l : Ahead) → Makes (n.Statement c) (row.statement_by c l Class.Semicolon)
        result parts.old parts.new }
{
    past_token(parts);
    let Some(begun) = parts.seen.pop() else {
        return Ok(());
    };
    parts.trees.push(Tree::Empty { at: begun.at })
}

fn debugger_statement(parts: &mut Parts<'_>) -> Result<(), Memory>
    ensures { (c : In) (l : Ahead) → Makes (n.Statement c) (row.statement_by c l Class.Debugger)
        result parts.old parts.new }
{
    past_token(parts);
    let Some(begun) = parts.seen.pop() else {
        return Ok(());
    };
    parts.trees.push(Tree::Debugger { at: begun.at })
}

fn if_statement(alloc: Global, parts: &mut Parts<'_>) -> Result<(), Memory>
    ensures { (c : In) (l : Ahead) → Makes (n.Statement c) (row.statement_by c l Class.If)
        result parts.old parts.new }
{
    past_three_tokens(parts);
    let Some(begun) = parts.seen.pop() else {
        return Ok(());
    };
    let Some(otherwise) = parts.options.pop() else {
        return Ok(());
    };
    let Some(then) = boxed_tree(alloc, parts)? else {
        return Ok(());
    };
    let Some(test) = boxed_tree(alloc, parts)? else {
        return Ok(());
    };
    parts.trees.push(Tree::If {
        at: begun.at,
        test,
        then,
        otherwise,
    })
}

fn do_statement(alloc: Global, parts: &mut Parts<'_>) -> Result<(), Memory>
    ensures { (c : In) (l : Ahead) → Makes (n.Statement c) (row.statement_by c l Class.Do)
        result parts.old parts.new }
{
    past_token(parts);
    past_token(parts);
    past_token(parts);
    past_token(parts);
    let Some(begun) = parts.seen.pop() else {
        return Ok(());
    };
    let Some(test) = boxed_tree(alloc, parts)? else {
        return Ok(());
    };
    let Some(body) = boxed_tree(alloc, parts)? else {
        return Ok(());
    };
    parts.trees.push(Tree::DoWhile {
        at: begun.at,
        body,
        test,
    })
}

fn while_statement(alloc: Global, parts: &mut Parts<'_>) -> Result<(), Memory>
    ensures { (c : In) (l : Ahead) → Makes (n.Statement c) (row.statement_by c l Class.While)
        result parts.old parts.new }
{
    past_three_tokens(parts);
    let Some(begun) = parts.seen.pop() else {
        return Ok(());
    };
    let Some(body) = boxed_tree(alloc, parts)? else {
        return Ok(());
    };
    let Some(test) = boxed_tree(alloc, parts)? else {
        return Ok(());
    };
    parts.trees.push(Tree::While {
        at: begun.at,
        test,
        body,
    })
}

fn continue_statement(parts: &mut Parts<'_>) -> Result<(), Memory>
    ensures { (c : In) (l : Ahead) → Makes (n.Statement c) (row.statement_by c l Class.Continue)
        result parts.old parts.new }
{
    past_token(parts);
    let Some(begun) = parts.seen.pop() else {
        return Ok(());
    };
    let Some(label) = parts.names.pop() else {
        return Ok(());
    };
    parts.trees.push(Tree::Continue {
        at: begun.at,
        label,
    })
}

fn break_statement(parts: &mut Parts<'_>) -> Result<(), Memory>
    ensures { (c : In) (l : Ahead) → Makes (n.Statement c) (row.statement_by c l Class.Break)
        result parts.old parts.new }
{
    past_token(parts);
    let Some(begun) = parts.seen.pop() else {
        return Ok(());
    };
    let Some(label) = parts.names.pop() else {
        return Ok(());
    };
    parts.trees.push(Tree::Break {
        at: begun.at,
        label,
    })
}

fn return_statement(parts: &mut Parts<'_>) -> Result<(), Memory>
    ensures { (c : In) (returns : Bool) → Makes (n.Statement c) (row.return_row c returns)
        result parts.old parts.new }
{
    past_token(parts);
    let Some(begun) = parts.seen.pop() else {
        return Ok(());
    };
    let Some(value) = parts.options.pop() else {
        return Ok(());
    };
    parts.trees.push(Tree::Return {
        at: begun.at,
        value,
    })
}

fn throw_statement(alloc: Global, parts: &mut Parts<'_>) -> Result<(), Memory>
    ensures { (c : In) (l : Ahead) → Makes (n.Statement c) (row.statement_by c l Class.Throw)
        result parts.old parts.new }
{
    past_token(parts);
    let Some(begun) = parts.seen.pop() else {
        return Ok(());
    };
    let Some(value) = boxed_tree(alloc, parts)? else {
        return Ok(());
    };
    parts.trees.push(Tree::Throw {
        at: begun.at,
        value,
    })
}

fn try_statement(alloc: Global, parts: &mut Parts<'_>) -> Result<(), Memory>
    ensures { (c : In) (l : Ahead) → Makes (n.Statement c) (row.statement_by c l Class.Try)
        result parts.old parts.new }
{
    past_token(parts);
    let Some(begun) = parts.seen.pop() else {
        return Ok(());
    };
    let Some(handler) = parts.options.pop() else {
        return Ok(());
    };
    let Some(finally) = parts.options.pop() else {
        return Ok(());
    };
    let Some(block) = boxed_tree(alloc, parts)? else {
        return Ok(());
    };
    parts.trees.push(Tree::Try {
        at: begun.at,
        block,
        handler,
        finally,
    })
}

/// An expression and a semicolon, whatever token the expression begins with.
fn expression_statement(alloc: Global, parts: &mut Parts<'_>) -> Result<(), Memory>
    ensures { (c : In) (l : Ahead) → Makes (n.Statement c) (row.statement_by c l Class.Name)
        result parts.old parts.new }
{
    let Some(begun) = parts.seen.pop() else {
        return Ok(());
    };
    let Some(value) = boxed_tree(alloc, parts)? else {
        return Ok(());
    };
    parts.trees.push(Tree::Expression {
        at: begun.at,
        value,
    })
}

fn labelled(alloc: Global, parts: &mut Parts<'_>) -> Result<(), Memory>
    ensures { (c : In) → Makes (n.Statement c) (row.labelled_row c) result parts.old parts.new }
{
    past_token(parts);
    past_token(parts);
    let Some(label) = parts.seen.pop() else {
        return Ok(());
    };
    let Some(begun) = parts.seen.pop() else {
        return Ok(());
    };
    let Some(body) = boxed_tree(alloc, parts)? else {
        return Ok(());
    };
    parts.trees.push(Tree::Label {
        at: begun.at,
        name: label.text,
        body,
    })
}

pub fn otherwise(alloc: Global, parts: &mut Parts<'_>, one: Class) -> Result<(), Memory>
    ensures { (c : In) → Makes (n.Else c) (row.else_row c one) result parts.old parts.new }
{
    match one {
        Class::Else => {
            past_token(parts);
            some_tree(alloc, parts)
        }
        _ => parts.options.push(None),
    }
}

/// The label of a `break` or `continue`, which stands on its line.
pub fn label(parts: &mut Parts<'_>, jump: Jump, look: Look) -> Result<(), Memory>
    ensures { Makes (n.Label jump) (row.label_row jump look) result parts.old parts.new }
{
    if !look.one_newline && look.one.is_name() {
        some_label(parts)
    } else {
        parts.names.push(None)
    }
}

fn some_label(parts: &mut Parts<'_>) -> Result<(), Memory>
    ensures { OnOk result ((name told : Told) (seen : List Told) → parts.old.seen ≡ name ∷ told ∷ seen
        → parts.new ≡ record parts.old {
          seen = seen;
          names = Some (record { at = told.at; name = told.text }) ∷ parts.old.names;
        }) }
{
    past_token(parts);
    let Some(told) = parts.seen.pop() else {
        return Ok(());
    };
    parts.names.push(Some(Bound {
        at: told.at,
        name: told.text,
    }))
}

pub fn return_value(alloc: Global, parts: &mut Parts<'_>, look: Look) -> Result<(), Memory>
    ensures { (c : In) → Makes (n.ReturnValue c) (row.return_value_row c look) result parts.old parts.new }
{
    if look.one_newline {
        parts.options.push(None)
    } else {
        value_on_line(alloc, parts, look.one)
    }
}

/// The value behind a `return` on its line.
fn value_on_line(alloc: Global, parts: &mut Parts<'_>, one: Class) -> Result<(), Memory>
    ensures { (c : In) → Makes (n.ReturnValue c) (row.return_value_by c false one) result parts.old parts.new }
{
    match one {
        Class::Semicolon => parts.options.push(None),
        Class::RightBrace => parts.options.push(None),
        Class::End => parts.options.push(None),
        _ => some_tree(alloc, parts),
    }
}
