//! The head of a `for` with its body (ECMA-262, 14.7.4 and 14.7.5).

ghost use Rattle.hz_tree.specs.grammar.Table.{step_of};
ghost use Rattle.hz_tree.specs.grammar.HeadRows as row;
ghost use Rattle.hz_rows.specs.Pushed.{Pushed};
ghost use Rattle.std.specs.Prelude.{◌≡◌};

use crate::contexts::without_in;
use crate::stack::Stack;
use crate::stop::{Stop, left_out};
use hz_tree::Nonterminal::{
    Bound, DeclaredHead, Expr, ExprRest, Initial, LeftHead, MoreBinds, Operation, OptionalExpr,
    Rests, Statement,
};
use hz_tree::Symbol::{Read, Take, Tell};
use hz_tree::{Class, Context, DeclarationWord, Level, Look, OutsideKind, Role, Signal};

pub fn for_open_row(stack: &mut Stack, one: Class) -> Result<(), Stop>
    ensures { Pushed (step_of (row.for_open_row one)) result stack.old stack.new }
{
    match one {
        Class::Await => left_out(OutsideKind::Async),
        _ => stack.push(&[Take(Class::LeftParen)]),
    }
}

pub fn declared_head_row(
    stack: &mut Stack,
    word: DeclarationWord,
    context: Context,
    one: Class,
) -> Result<(), Stop>
    ensures { Pushed (step_of (row.declared_head_row word context one))
        result stack.old stack.new }
{
    match one {
        Class::In => stack.push(&[Take(Class::In), Read(Expr(context)), Tell(Signal::Join)]),
        Class::Of => stack.push(&[
            Take(Class::Of),
            Read(Operation(Level::Assignment, context)),
            Tell(Signal::Join),
        ]),
        _ => stack.push(&[
            Read(Initial(word, without_in(context))),
            Read(MoreBinds(word, without_in(context))),
            Take(Class::Semicolon),
            Read(OptionalExpr(context)),
            Take(Class::Semicolon),
            Read(OptionalExpr(context)),
        ]),
    }
}

/// A head with `let` or `const`, which has a scope.
fn lexical_head_row(
    stack: &mut Stack,
    word: DeclarationWord,
    one: Class,
    context: Context,
) -> Result<(), Stop>
    ensures { Pushed (step_of (row.lexical_head_row word one context))
        result stack.old stack.new }
{
    stack.push(&[
        Tell(Signal::Scope),
        Take(one),
        Read(Bound(Role::Variable(word))),
        Read(DeclaredHead(word, context)),
        Take(Class::RightParen),
        Read(Statement(context)),
        Tell(Signal::EndScope),
    ])
}

pub fn left_head_row(stack: &mut Stack, context: Context, one: Class) -> Result<(), Stop>
    ensures { Pushed (step_of (row.left_head_row context one)) result stack.old stack.new }
{
    match one {
        Class::In => stack.push(&[
            Tell(Signal::Target(true)),
            Tell(Signal::Join),
            Take(Class::In),
            Read(Expr(context)),
            Tell(Signal::Join),
        ]),
        Class::Of => stack.push(&[
            Tell(Signal::Target(true)),
            Tell(Signal::Join),
            Take(Class::Of),
            Read(Operation(Level::Assignment, context)),
            Tell(Signal::Join),
        ]),
        _ => {
            let inner = without_in(context);
            stack.push(&[
                Read(Rests(Level::Assignment, Level::Update, inner)),
                Read(ExprRest(false, inner)),
                Tell(Signal::Join),
                Take(Class::Semicolon),
                Read(OptionalExpr(context)),
                Take(Class::Semicolon),
                Read(OptionalExpr(context)),
            ])
        }
    }
}

/// An expression that is no left-hand side begins.
fn is_no_left(context: Context, look: Look) -> bool
    ensures { result ≡ row.is_no_left context look }
{
    look.one.unary_operator().is_some()
        || look.begins_arrow()
        || (look.one.is_yield() && context.yields)
}

/// A head that begins with an expression.
fn expr_head_row(stack: &mut Stack, context: Context, look: Look) -> Result<(), Stop>
    ensures { Pushed (step_of (row.expr_head_row context look)) result stack.old stack.new }
{
    if look.one.is_async_word() && look.two.is_of() {
        left_out(OutsideKind::Async)
    } else if is_no_left(context, look) {
        stack.push(&[
            Read(Expr(without_in(context))),
            Tell(Signal::Join),
            Take(Class::Semicolon),
            Read(OptionalExpr(context)),
            Take(Class::Semicolon),
            Read(OptionalExpr(context)),
            Take(Class::RightParen),
            Read(Statement(context)),
        ])
    } else {
        stack.push(&[
            Read(Operation(Level::Member, context)),
            Read(LeftHead(context)),
            Take(Class::RightParen),
            Read(Statement(context)),
        ])
    }
}

pub fn head_row(stack: &mut Stack, context: Context, look: Look) -> Result<(), Stop>
    ensures { Pushed (step_of (row.head_row context look)) result stack.old stack.new }
{
    match look.one {
        Class::Var => stack.push(&[
            Take(Class::Var),
            Read(Bound(Role::Variable(DeclarationWord::Var))),
            Read(DeclaredHead(DeclarationWord::Var, context)),
            Take(Class::RightParen),
            Read(Statement(context)),
        ]),
        Class::Let => lexical_head_row(stack, DeclarationWord::Let, Class::Let, context),
        Class::Const => lexical_head_row(stack, DeclarationWord::Const, Class::Const, context),
        Class::Semicolon => stack.push(&[
            Take(Class::Semicolon),
            Read(OptionalExpr(context)),
            Take(Class::Semicolon),
            Read(OptionalExpr(context)),
            Take(Class::RightParen),
            Read(Statement(context)),
        ]),
        _ => expr_head_row(stack, context, look),
    }
}

pub fn optional_expr_row(stack: &mut Stack, context: Context, one: Class) -> Result<(), Stop>
    ensures { Pushed (step_of (row.optional_expr_row context one)) result stack.old stack.new }
{
    match one {
        Class::Semicolon | Class::RightParen => Ok(()),
        _ => stack.push(&[Read(Expr(context)), Tell(Signal::Join)]),
    }
}
