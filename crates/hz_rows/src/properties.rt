//! The properties of object literals (ECMA-262, 13.2.5).

ghost use Rattle.hz_tree.specs.grammar.Table.{step_of};
ghost use Rattle.hz_tree.specs.grammar.Classes as classes;
ghost use Rattle.hz_tree.specs.grammar.PropertyRows as row;
ghost use Rattle.hz_rows.specs.Pushed.{Pushed};

use crate::stack::Stack;
use crate::stop::{Stop, left_out, stuck};
use hz_tree::Nonterminal::{
    Body, Bound, Key, KeyRest, MoreProps, Operation, ParameterEnd, Params, Prop, Props,
    ShorthandEnd, Word,
};
use hz_tree::Symbol::{Read, Take, Tell};
use hz_tree::{Class, Context, FunctionKind, Level, Look, NodeKind, OutsideKind, Role, Signal};

pub fn props_row(stack: &mut Stack, context: Context, one: Class) -> Result<(), Stop>
    ensures { Pushed (step_of (row.props_row context one)) result stack.old stack.new }
{
    match one {
        Class::RightBrace => Ok(()),
        _ => stack.push(&[
            Read(Prop(context)),
            Tell(Signal::Join),
            Read(MoreProps(context)),
        ]),
    }
}

pub fn more_props_row(stack: &mut Stack, context: Context, one: Class) -> Result<(), Stop>
    ensures { Pushed (step_of (row.more_props_row context one)) result stack.old stack.new }
{
    match one {
        Class::Comma => stack.push(&[Take(Class::Comma), Read(Props(context))]),
        _ => Ok(()),
    }
}

/// A property that is no getter, setter, generator or spread.
fn plain_prop_row(stack: &mut Stack, context: Context, look: Look) -> Result<(), Stop>
    ensures { Pushed (step_of (row.plain_prop_row context look)) result stack.old stack.new }
{
    if look.one.is_name() && !look.two.is_colon() && !look.two.is_paren() {
        stack.push(&[
            Tell(Signal::Begin(NodeKind::Part)),
            Tell(Signal::Use),
            Take(Class::Name),
            Read(ShorthandEnd),
        ])
    } else {
        stack.push(&[
            Tell(Signal::Begin(NodeKind::Part)),
            Read(Key(context)),
            Read(KeyRest(context)),
        ])
    }
}

/// A getter, or another property whose name is `get`.
fn getter_row(stack: &mut Stack, context: Context, look: Look) -> Result<(), Stop>
    ensures { Pushed (step_of (row.getter_row context look (classes.begins_key look.two)))
        result stack.old stack.new }
{
    if look.two.begins_key() {
        stack.push(&[
            Tell(Signal::Begin(NodeKind::Part)),
            Take(Class::Get),
            Read(Key(context)),
            Tell(Signal::Open(NodeKind::Part, FunctionKind::Method)),
            Tell(Signal::Enter),
            Take(Class::LeftParen),
            Take(Class::RightParen),
            Read(Body(false)),
            Tell(Signal::Join),
            Tell(Signal::Close),
            Tell(Signal::Join),
        ])
    } else {
        plain_prop_row(stack, context, look)
    }
}

/// A setter, or another property whose name is `set`.
fn setter_row(stack: &mut Stack, context: Context, look: Look) -> Result<(), Stop>
    ensures { Pushed (step_of (row.setter_row context look (classes.begins_key look.two)))
        result stack.old stack.new }
{
    if look.two.begins_key() {
        stack.push(&[
            Tell(Signal::Begin(NodeKind::Part)),
            Take(Class::Set),
            Read(Key(context)),
            Tell(Signal::Open(NodeKind::Part, FunctionKind::Method)),
            Tell(Signal::Enter),
            Take(Class::LeftParen),
            Read(Bound(Role::Parameter)),
            Read(ParameterEnd),
            Take(Class::RightParen),
            Read(Body(false)),
            Tell(Signal::Join),
            Tell(Signal::Close),
            Tell(Signal::Join),
        ])
    } else {
        plain_prop_row(stack, context, look)
    }
}

/// A property that is no async method.
fn prop_by(stack: &mut Stack, context: Context, look: Look) -> Result<(), Stop>
    ensures { Pushed (step_of (row.prop_by context look look.one))
        result stack.old stack.new }
{
    match look.one {
        Class::Ellipsis => stack.push(&[
            Tell(Signal::Begin(NodeKind::Part)),
            Take(Class::Ellipsis),
            Read(Operation(Level::Assignment, context)),
            Tell(Signal::Join),
        ]),
        Class::Star => stack.push(&[
            Tell(Signal::Begin(NodeKind::Part)),
            Take(Class::Star),
            Read(Key(context)),
            Tell(Signal::Open(NodeKind::Part, FunctionKind::Generator)),
            Tell(Signal::Enter),
            Read(Params),
            Read(Body(true)),
            Tell(Signal::Join),
            Tell(Signal::Close),
            Tell(Signal::Join),
        ]),
        Class::Get => getter_row(stack, context, look),
        Class::Set => setter_row(stack, context, look),
        _ => plain_prop_row(stack, context, look),
    }
}

pub fn prop_row(stack: &mut Stack, context: Context, look: Look) -> Result<(), Stop>
    ensures { Pushed (step_of (row.prop_row context look)) result stack.old stack.new }
{
    if look.is_async() {
        left_out(OutsideKind::Async)
    } else {
        prop_by(stack, context, look)
    }
}

pub fn shorthand_end_row(stack: &mut Stack, one: Class) -> Result<(), Stop>
    ensures { Pushed (step_of (row.shorthand_end_row one)) result stack.old stack.new }
{
    match one {
        Class::Assign => left_out(OutsideKind::Pattern),
        _ => Ok(()),
    }
}

pub fn key_rest_row(stack: &mut Stack, context: Context, look: Look) -> Result<(), Stop>
    ensures { Pushed (step_of (row.key_rest_row context look)) result stack.old stack.new }
{
    match look.one {
        Class::Colon => stack.push(&[
            Tell(Signal::Valued),
            Take(Class::Colon),
            Read(Operation(Level::Assignment, context)),
            Tell(Signal::Join),
        ]),
        Class::LeftParen => stack.push(&[
            Tell(Signal::Open(NodeKind::Part, FunctionKind::Method)),
            Tell(Signal::Enter),
            Read(Params),
            Read(Body(false)),
            Tell(Signal::Join),
            Tell(Signal::Close),
            Tell(Signal::Join),
        ]),
        _ => stuck(look),
    }
}

pub fn key_row(stack: &mut Stack, context: Context, look: Look) -> Result<(), Stop>
    ensures { Pushed (step_of (row.key_row context look)) result stack.old stack.new }
{
    match look.one {
        Class::Text => stack.push(&[Tell(Signal::TextKey), Take(Class::Text)]),
        Class::Number => stack.push(&[Take(Class::Number)]),
        Class::OctalNumber => stack.push(&[Tell(Signal::OctalKey), Take(Class::OctalNumber)]),
        Class::LeftBracket => stack.push(&[
            Take(Class::LeftBracket),
            Read(Operation(Level::Assignment, context)),
            Tell(Signal::Join),
            Take(Class::RightBracket),
        ]),
        _ => stack.push(&[Tell(Signal::WordKey), Read(Word)]),
    }
}
