//! Members, arguments, primary expressions and templates (ECMA-262, 13.2 and 13.3).

ghost use Rattle.hz_tree.specs.grammar.Table.{step_of};
ghost use Rattle.hz_tree.specs.grammar.PrimaryRows as row;
ghost use Rattle.hz_tree.specs.declared.nonterminal.Context.{Context as In};
ghost use Rattle.hz_rows.specs.Pushed.{Pushed};

use crate::contexts::with_in;
use crate::stack::Stack;
use crate::stop::{Stop, left_out, stuck};
use hz_tree::Nonterminal::{
    Args, Argument, Arguments, Body, Elements, Expr, Members, MoreArguments, MoreElements, NewArgs,
    Operation, OwnName, Params, Primary, Props, TemplateRest, Word,
};
use hz_tree::Symbol::{Read, Take, Tell};
use hz_tree::{
    BadKind, Class, Context, FunctionKind, Level, Look, NodeKind, NodeShape, OutsideKind, Signal,
};

pub fn optional_tail_row(stack: &mut Stack, context: Context, one: Class) -> Result<(), Stop>
    ensures { Pushed (step_of (row.optional_tail_row context one)) result stack.old stack.new }
{
    match one {
        Class::LeftBracket => stack.push(&[
            Take(Class::LeftBracket),
            Read(Expr(with_in(context))),
            Tell(Signal::Join),
            Take(Class::RightBracket),
            Tell(Signal::Member),
        ]),
        Class::LeftParen => stack.push(&[Read(Args(context))]),
        Class::TemplateWhole | Class::TemplateHead => left_out(OutsideKind::TaggedTemplate),
        _ => stack.push(&[Read(Word), Tell(Signal::Member)]),
    }
}

pub fn word_row(stack: &mut Stack, look: Look) -> Result<(), Stop>
    ensures { Pushed (step_of (row.word_row look)) result stack.old stack.new }
{
    if look.one.is_word() {
        stack.push(&[Take(look.one)])
    } else {
        stuck(look)
    }
}

/// A `new`, where it stands.
fn new_row(stack: &mut Stack, context: Context, two: Class) -> Result<(), Stop>
    ensures { Pushed (step_of (row.new_row context two)) result stack.old stack.new }
{
    match two {
        Class::Dot => stack.push(&[
            Tell(Signal::NewTarget),
            Take(Class::New),
            Take(Class::Dot),
            Take(Class::Target),
        ]),
        _ => stack.push(&[
            Tell(Signal::Begin(NodeKind::Operand)),
            Take(Class::New),
            Read(Primary(context)),
            Tell(Signal::Join),
            Read(Members(context)),
            Read(NewArgs(context)),
            Tell(Signal::Node(NodeShape::Other)),
        ]),
    }
}

pub fn members_row(stack: &mut Stack, context: Context, one: Class) -> Result<(), Stop>
    ensures { Pushed (step_of (row.members_row context one)) result stack.old stack.new }
{
    match one {
        Class::Dot => stack.push(&[
            Take(Class::Dot),
            Read(Word),
            Tell(Signal::Member),
            Read(Members(context)),
        ]),
        Class::LeftBracket => stack.push(&[
            Take(Class::LeftBracket),
            Read(Expr(with_in(context))),
            Tell(Signal::Join),
            Take(Class::RightBracket),
            Tell(Signal::Member),
            Read(Members(context)),
        ]),
        _ => Ok(()),
    }
}

pub fn new_args_row(stack: &mut Stack, context: Context, one: Class) -> Result<(), Stop>
    ensures { Pushed (step_of (row.new_args_row context one)) result stack.old stack.new }
{
    match one {
        Class::LeftParen => stack.push(&[Read(Args(context))]),
        Class::OptionalDot => Err(Stop::Refused(BadKind::Syntax)),
        _ => Ok(()),
    }
}

pub fn args_row(stack: &mut Stack, context: Context) -> Result<(), Stop>
    ensures { Pushed (step_of (row.args_row context)) result stack.old stack.new }
{
    stack.push(&[
        Tell(Signal::Arguments),
        Take(Class::LeftParen),
        Read(Arguments(with_in(context))),
        Take(Class::RightParen),
        Tell(Signal::Call),
    ])
}

pub fn arguments_row(stack: &mut Stack, context: Context, one: Class) -> Result<(), Stop>
    ensures { Pushed (step_of (row.arguments_row context one)) result stack.old stack.new }
{
    match one {
        Class::RightParen => Ok(()),
        _ => stack.push(&[
            Read(Argument(context)),
            Tell(Signal::Argument),
            Read(MoreArguments(context)),
        ]),
    }
}

pub fn more_arguments_row(stack: &mut Stack, context: Context, one: Class) -> Result<(), Stop>
    ensures { Pushed (step_of (row.more_arguments_row context one)) result stack.old stack.new }
{
    match one {
        Class::Comma => stack.push(&[Take(Class::Comma), Read(Arguments(context))]),
        _ => Ok(()),
    }
}

pub fn argument_row(stack: &mut Stack, context: Context, one: Class) -> Result<(), Stop>
    ensures { Pushed (step_of (row.argument_row context one)) result stack.old stack.new }
{
    match one {
        Class::Ellipsis => stack.push(&[
            Tell(Signal::Begin(NodeKind::Part)),
            Take(Class::Ellipsis),
            Read(Operation(Level::Assignment, context)),
            Tell(Signal::Join),
        ]),
        _ => stack.push(&[Read(Operation(Level::Assignment, context))]),
    }
}

/// A function expression, where `function` stands.
fn function_expression_row(stack: &mut Stack, two: Class) -> Result<(), Stop>
    ensures { (context : In) → Pushed (step_of (row.function_expression_row context two))
        result stack.old stack.new }
{
    match two {
        Class::Star => stack.push(&[
            Tell(Signal::Open(NodeKind::Operand, FunctionKind::Generator)),
            Take(Class::Function),
            Take(Class::Star),
            Read(OwnName),
            Tell(Signal::Enter),
            Read(Params),
            Read(Body(true)),
            Tell(Signal::Join),
            Tell(Signal::Close),
            Tell(Signal::Node(NodeShape::Other)),
        ]),
        _ => stack.push(&[
            Tell(Signal::Open(NodeKind::Operand, FunctionKind::Function)),
            Take(Class::Function),
            Read(OwnName),
            Tell(Signal::Enter),
            Read(Params),
            Read(Body(false)),
            Tell(Signal::Join),
            Tell(Signal::Close),
            Tell(Signal::Node(NodeShape::Other)),
        ]),
    }
}

/// A primary expression that is no async function.
fn primary_by(stack: &mut Stack, context: Context, look: Look) -> Result<(), Stop>
    ensures { Pushed (step_of (row.primary_by context look look.one))
        result stack.old stack.new }
{
    match look.one {
        Class::This => stack.push(&[Tell(Signal::This), Take(Class::This)]),
        Class::Null | Class::True | Class::False | Class::Number => {
            stack.push(&[Tell(Signal::Literal), Take(look.one)])
        }
        Class::OctalNumber => stack.push(&[Tell(Signal::Octal), Take(Class::OctalNumber)]),
        Class::Text => stack.push(&[Tell(Signal::Text), Take(Class::Text)]),
        Class::TemplateWhole => stack.push(&[
            Tell(Signal::Begin(NodeKind::Operand)),
            Take(Class::TemplateWhole),
            Tell(Signal::Node(NodeShape::Other)),
        ]),
        Class::LeftParen => stack.push(&[
            Tell(Signal::Begin(NodeKind::Operand)),
            Take(Class::LeftParen),
            Read(Expr(with_in(context))),
            Take(Class::RightParen),
            Tell(Signal::Parentheses),
        ]),
        Class::TemplateHead => stack.push(&[
            Tell(Signal::Begin(NodeKind::Operand)),
            Take(Class::TemplateHead),
            Read(Expr(with_in(context))),
            Tell(Signal::Join),
            Read(TemplateRest(with_in(context))),
            Tell(Signal::Node(NodeShape::Other)),
        ]),
        Class::New => new_row(stack, context, look.two),
        Class::Slash | Class::SlashAssign => left_out(OutsideKind::RegExp),
        Class::Function => function_expression_row(stack, look.two),
        Class::LeftBracket => stack.push(&[
            Tell(Signal::Begin(NodeKind::Operand)),
            Take(Class::LeftBracket),
            Read(Elements(with_in(context))),
            Take(Class::RightBracket),
            Tell(Signal::Node(NodeShape::Pattern)),
        ]),
        Class::LeftBrace => stack.push(&[
            Tell(Signal::Begin(NodeKind::Operand)),
            Take(Class::LeftBrace),
            Read(Props(with_in(context))),
            Take(Class::RightBrace),
            Tell(Signal::Node(NodeShape::Pattern)),
        ]),
        one => {
            if one.is_name() {
                stack.push(&[Tell(Signal::Name), Take(Class::Name)])
            } else {
                stuck(look)
            }
        }
    }
}

pub fn primary_row(stack: &mut Stack, context: Context, look: Look) -> Result<(), Stop>
    ensures { Pushed (step_of (row.primary_row context look)) result stack.old stack.new }
{
    if look.is_async() {
        left_out(OutsideKind::Async)
    } else {
        primary_by(stack, context, look)
    }
}

pub fn template_rest_row(stack: &mut Stack, context: Context, look: Look) -> Result<(), Stop>
    ensures { Pushed (step_of (row.template_rest_row context look))
        result stack.old stack.new }
{
    match look.one {
        Class::TemplateMiddle => stack.push(&[
            Take(Class::TemplateMiddle),
            Read(Expr(context)),
            Tell(Signal::Join),
            Read(TemplateRest(context)),
        ]),
        Class::TemplateTail => stack.push(&[Take(Class::TemplateTail)]),
        _ => stuck(look),
    }
}

pub fn elements_row(stack: &mut Stack, context: Context, one: Class) -> Result<(), Stop>
    ensures { Pushed (step_of (row.elements_row context one)) result stack.old stack.new }
{
    match one {
        Class::RightBracket => Ok(()),
        Class::Comma => stack.push(&[
            Tell(Signal::Begin(NodeKind::Part)),
            Tell(Signal::Join),
            Take(Class::Comma),
            Read(Elements(context)),
        ]),
        _ => stack.push(&[
            Read(Argument(context)),
            Tell(Signal::Join),
            Read(MoreElements(context)),
        ]),
    }
}

pub fn more_elements_row(stack: &mut Stack, context: Context, one: Class) -> Result<(), Stop>
    ensures { Pushed (step_of (row.more_elements_row context one)) result stack.old stack.new }
{
    match one {
        Class::Comma => stack.push(&[Take(Class::Comma), Read(Elements(context))]),
        _ => Ok(()),
    }
}
