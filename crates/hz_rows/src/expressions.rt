//! Lists of expressions, and parts of arrows and `yield` (ECMA-262, 13.16, 15.3 and 15.5).

ghost use Rattle.hz_tree.specs.grammar.Table.{step_of};
ghost use Rattle.hz_tree.specs.grammar.ExpressionRows as row;
ghost use Rattle.hz_tree.specs.declared.nonterminal.Context.{Context as In};
ghost use Rattle.hz_rows.specs.Pushed.{Pushed};

use crate::contexts::of_arrow;
use crate::stack::Stack;
use crate::stop::{Stop, stuck};
use hz_tree::Nonterminal::{Body, ExprRest, Operation};
use hz_tree::Symbol::{Read, Take, Tell};
use hz_tree::{Class, Context, Level, Look, NodeShape, Signal};

pub fn expr_row(stack: &mut Stack, context: Context) -> Result<(), Stop>
    ensures { Pushed (step_of (row.expr_row context)) result stack.old stack.new }
{
    stack.push(&[
        Read(Operation(Level::Assignment, context)),
        Read(ExprRest(false, context)),
    ])
}

/// The end of a list of expressions.
fn expr_end(stack: &mut Stack, listed: bool) -> Result<(), Stop>
    ensures { (context : In) → Pushed (step_of (row.expr_end listed context))
        result stack.old stack.new }
{
    if listed {
        stack.push(&[Tell(Signal::Node(NodeShape::Other))])
    } else {
        Ok(())
    }
}

pub fn expr_rest_row(
    stack: &mut Stack,
    listed: bool,
    context: Context,
    one: Class,
) -> Result<(), Stop>
    ensures { Pushed (step_of (row.expr_rest_row listed context one))
        result stack.old stack.new }
{
    match one {
        Class::Comma => stack.push(&[
            Take(Class::Comma),
            Read(Operation(Level::Assignment, context)),
            Tell(Signal::Join),
            Read(ExprRest(true, context)),
        ]),
        _ => expr_end(stack, listed),
    }
}

pub fn arrow_sign_row(stack: &mut Stack, look: Look) -> Result<(), Stop>
    ensures { Pushed (step_of (row.arrow_sign_row look)) result stack.old stack.new }
{
    if look.one_newline {
        stuck(look)
    } else {
        stack.push(&[Take(Class::Arrow)])
    }
}

pub fn arrow_body_row(stack: &mut Stack, context: Context, one: Class) -> Result<(), Stop>
    ensures { Pushed (step_of (row.arrow_body_row context one)) result stack.old stack.new }
{
    match one {
        Class::LeftBrace => stack.push(&[Read(Body(false))]),
        _ => stack.push(&[Read(Operation(Level::Assignment, of_arrow(context)))]),
    }
}

pub fn yield_value_row(stack: &mut Stack, context: Context, look: Look) -> Result<(), Stop>
    ensures { Pushed (step_of (row.yield_value_row context look))
        result stack.old stack.new }
{
    if look.one_newline {
        return Ok(());
    }
    match look.one {
        Class::RightParen
        | Class::RightBracket
        | Class::RightBrace
        | Class::TemplateMiddle
        | Class::TemplateTail
        | Class::Comma
        | Class::Semicolon
        | Class::Colon
        | Class::In
        | Class::End => Ok(()),
        Class::Star => stack.push(&[
            Take(Class::Star),
            Read(Operation(Level::Assignment, context)),
            Tell(Signal::Join),
        ]),
        _ => stack.push(&[
            Read(Operation(Level::Assignment, context)),
            Tell(Signal::Join),
        ]),
    }
}
