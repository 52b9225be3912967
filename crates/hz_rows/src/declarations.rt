//! Items and declarations (ECMA-262, 14.2, 14.3, 15.2 and 15.5).

ghost use Rattle.hz_tree.specs.grammar.Table.{step_of};
ghost use Rattle.hz_tree.specs.grammar.StatementRows as row;
ghost use Rattle.hz_tree.specs.declared.nonterminal.Context.{Context as In};
ghost use Rattle.hz_rows.specs.Pushed.{Pushed};

use crate::stack::Stack;
use crate::statements::simple_statement;
use crate::stop::{Stop, left_out, stuck};
use hz_tree::Nonterminal::{
    Bind, Binds, Body, Bound, Initial, Item, Items, MoreBinds, Operation, Params, Statement,
};
use hz_tree::Symbol::{Read, Take, Tell};
use hz_tree::{
    Class, Context, DeclarationWord, FunctionKind, Level, Look, NodeKind, OutsideKind, Role, Signal,
};

pub fn items_row(stack: &mut Stack, context: Context, one: Class) -> Result<(), Stop>
    ensures { Pushed (step_of (row.items_row context one)) result stack.old stack.new }
{
    match one {
        Class::RightBrace | Class::Case | Class::Default | Class::End => Ok(()),
        _ => stack.push(&[Read(Item(context)), Read(Items(context))]),
    }
}

/// A declaration of a function, where `function` stands.
fn declaration_row(stack: &mut Stack, two: Class) -> Result<(), Stop>
    ensures { (context : In) → Pushed (step_of (row.declaration_row context two))
        result stack.old stack.new }
{
    match two {
        Class::Star => stack.push(&[
            Tell(Signal::Open(NodeKind::Statement, FunctionKind::Generator)),
            Take(Class::Function),
            Take(Class::Star),
            Read(Bound(Role::Function)),
            Tell(Signal::Enter),
            Read(Params),
            Read(Body(true)),
            Tell(Signal::Join),
            Tell(Signal::Close),
            Tell(Signal::End(NodeKind::Statement)),
        ]),
        _ => stack.push(&[
            Tell(Signal::Open(NodeKind::Statement, FunctionKind::Function)),
            Take(Class::Function),
            Read(Bound(Role::Function)),
            Tell(Signal::Enter),
            Read(Params),
            Read(Body(false)),
            Tell(Signal::Join),
            Tell(Signal::Close),
            Tell(Signal::End(NodeKind::Statement)),
        ]),
    }
}

pub fn item_row(stack: &mut Stack, context: Context, one: Class, two: Class) -> Result<(), Stop>
    ensures { Pushed (step_of (row.item_row context one two)) result stack.old stack.new }
{
    match one {
        Class::Function => declaration_row(stack, two),
        Class::Let => simple_statement(stack, Class::Let, Binds(DeclarationWord::Let, context)),
        Class::Const => simple_statement(
            stack,
            Class::Const,
            Binds(DeclarationWord::Const, context),
        ),
        _ => stack.push(&[Read(Statement(context))]),
    }
}

pub fn bound_row(stack: &mut Stack, role: Role, look: Look) -> Result<(), Stop>
    ensures { Pushed (step_of (row.bound_row role look)) result stack.old stack.new }
{
    match look.one {
        Class::LeftBracket | Class::LeftBrace => left_out(OutsideKind::Pattern),
        one => {
            if one.is_name() {
                stack.push(&[Tell(Signal::Declare(role)), Take(Class::Name)])
            } else {
                stuck(look)
            }
        }
    }
}

pub fn binds_row(stack: &mut Stack, word: DeclarationWord, context: Context) -> Result<(), Stop>
    ensures { Pushed (step_of (row.binds_row word context)) result stack.old stack.new }
{
    stack.push(&[Read(Bind(word, context)), Read(MoreBinds(word, context))])
}

pub fn bind_row(stack: &mut Stack, word: DeclarationWord, context: Context) -> Result<(), Stop>
    ensures { Pushed (step_of (row.bind_row word context)) result stack.old stack.new }
{
    stack.push(&[
        Read(Bound(Role::Variable(word))),
        Read(Initial(word, context)),
    ])
}

/// A name without a value.
fn no_value(stack: &mut Stack, word: DeclarationWord) -> Result<(), Stop>
    ensures { (context : In) → Pushed (step_of (row.no_value word context))
        result stack.old stack.new }
{
    match word {
        DeclarationWord::Const => stack.push(&[Tell(Signal::Bare)]),
        DeclarationWord::Var => Ok(()),
        DeclarationWord::Let => Ok(()),
    }
}

pub fn initial_row(
    stack: &mut Stack,
    word: DeclarationWord,
    context: Context,
    one: Class,
) -> Result<(), Stop>
    ensures { Pushed (step_of (row.initial_row word context one)) result stack.old stack.new }
{
    match one {
        Class::Assign => stack.push(&[
            Take(Class::Assign),
            Read(Operation(Level::Assignment, context)),
            Tell(Signal::Join),
        ]),
        _ => no_value(stack, word),
    }
}

pub fn more_binds_row(
    stack: &mut Stack,
    word: DeclarationWord,
    context: Context,
    one: Class,
) -> Result<(), Stop>
    ensures { Pushed (step_of (row.more_binds_row word context one))
        result stack.old stack.new }
{
    match one {
        Class::Comma => stack.push(&[Take(Class::Comma), Read(Binds(word, context))]),
        _ => Ok(()),
    }
}
