//! Names, parameters and bodies of functions (ECMA-262, 15).

ghost use Rattle.hz_tree.specs.grammar.Table.{step_of};
ghost use Rattle.hz_tree.specs.grammar.FunctionRows as row;
ghost use Rattle.hz_rows.specs.Pushed.{Pushed};

use crate::contexts::of_body;
use crate::stack::Stack;
use crate::stop::{Stop, left_out};
use hz_tree::Nonterminal::{Bound, Items, MoreParameters, ParameterEnd, Parameters};
use hz_tree::Symbol::{Read, Take, Tell};
use hz_tree::{Class, NodeKind, OutsideKind, Role, Signal};

pub fn own_name_row(stack: &mut Stack, one: Class) -> Result<(), Stop>
    ensures { Pushed (step_of (row.own_name_row one)) result stack.old stack.new }
{
    if one.is_name() {
        stack.push(&[Read(Bound(Role::Own))])
    } else {
        Ok(())
    }
}

pub fn params_row(stack: &mut Stack) -> Result<(), Stop>
    ensures { Pushed (step_of row.params_row) result stack.old stack.new }
{
    stack.push(&[
        Take(Class::LeftParen),
        Read(Parameters),
        Take(Class::RightParen),
    ])
}

pub fn parameters_row(stack: &mut Stack, one: Class) -> Result<(), Stop>
    ensures { Pushed (step_of (row.parameters_row one)) result stack.old stack.new }
{
    match one {
        Class::RightParen => Ok(()),
        Class::Ellipsis => stack.push(&[
            Tell(Signal::Rest),
            Take(Class::Ellipsis),
            Read(Bound(Role::RestParameter)),
            Read(ParameterEnd),
        ]),
        _ => stack.push(&[Read(Bound(Role::Parameter)), Read(MoreParameters)]),
    }
}

pub fn more_parameters_row(stack: &mut Stack, one: Class) -> Result<(), Stop>
    ensures { Pushed (step_of (row.more_parameters_row one)) result stack.old stack.new }
{
    match one {
        Class::Comma => stack.push(&[Take(Class::Comma), Read(Parameters)]),
        Class::Assign => left_out(OutsideKind::DefaultParameter),
        _ => Ok(()),
    }
}

pub fn parameter_end_row(stack: &mut Stack, one: Class) -> Result<(), Stop>
    ensures { Pushed (step_of (row.parameter_end_row one)) result stack.old stack.new }
{
    match one {
        Class::Assign => left_out(OutsideKind::DefaultParameter),
        _ => Ok(()),
    }
}

pub fn body_row(stack: &mut Stack, generator: bool) -> Result<(), Stop>
    ensures { Pushed (step_of (row.body_row generator)) result stack.old stack.new }
{
    stack.push(&[
        Tell(Signal::Begin(NodeKind::Body)),
        Take(Class::LeftBrace),
        Read(Items(of_body(generator))),
        Take(Class::RightBrace),
    ])
}
