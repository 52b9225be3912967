//! The script, and statements (ECMA-262, 14 and 16).

ghost use Rattle.std.specs.Prelude.{[], ◌∷◌};
ghost use Rattle.hz_tree.specs.grammar.Table.{pushes, step_of};
ghost use Rattle.hz_tree.specs.grammar.StatementRows as row;
ghost use Rattle.hz_tree.specs.declared.look.Look.{Look as Seen};
ghost use Rattle.hz_rows.specs.Pushed.{Pushed};

use crate::contexts::of_script;
use crate::stack::Stack;
use crate::stop::{Stop, left_out, stuck};
use hz_tree::Nonterminal::{
    Binds, Block, Bound, CatchClause, CatchName, Clauses, Else, Expr, Finally, ForOpen, Handlers,
    Head, Items, Label, LooseSemi, ReturnValue, Semi, Statement, ThrowValue,
};
use hz_tree::Symbol::{Read, Take, Tell};
use hz_tree::{
    BadKind, Class, Context, DeclarationWord, Jump, Look, NodeKind, Nonterminal, OutsideKind, Role,
    ScopeKind, Signal, Symbol,
};

pub fn script_row(stack: &mut Stack) -> Result<(), Stop>
    ensures { Pushed (step_of row.script_row) result stack.old stack.new }
{
    stack.push(&[
        Tell(Signal::Begin(NodeKind::Body)),
        Read(Items(of_script())),
        Take(Class::End),
    ])
}

pub fn semi_row(stack: &mut Stack, look: Look) -> Result<(), Stop>
    ensures { Pushed (step_of (row.semi_row look)) result stack.old stack.new }
{
    match look.one {
        Class::Semicolon => stack.push(&[Take(Class::Semicolon)]),
        Class::RightBrace | Class::End => Ok(()),
        _ => {
            if look.one_newline {
                Ok(())
            } else {
                stuck(look)
            }
        }
    }
}

/// The semicolon behind a do-while.
pub fn loose_semi_row(stack: &mut Stack, one: Class) -> Result<(), Stop>
    ensures { Pushed (step_of (row.loose_semi_row one)) result stack.old stack.new }
{
    match one {
        Class::Semicolon => stack.push(&[Take(Class::Semicolon)]),
        _ => Ok(()),
    }
}

pub fn block_row(stack: &mut Stack, context: Context) -> Result<(), Stop>
    ensures { Pushed (step_of (row.block_row context)) result stack.old stack.new }
{
    stack.push(&[
        Tell(Signal::Begin(NodeKind::Statement)),
        Tell(Signal::Scope),
        Take(Class::LeftBrace),
        Read(Items(context)),
        Take(Class::RightBrace),
        Tell(Signal::EndScope),
        Tell(Signal::End(NodeKind::Statement)),
    ])
}

/// A statement that is its word, what that stands before, and a semicolon.
pub fn simple_statement(stack: &mut Stack, word: Class, what: Nonterminal) -> Result<(), Stop>
    ensures { Pushed (pushes (Symbol.Tell (Signal.Begin NodeKind.Statement) ∷ Symbol.Take word
        ∷ Symbol.Read what ∷ Symbol.Read Nonterminal.Semi
        ∷ Symbol.Tell (Signal.End NodeKind.Statement) ∷ [])) result stack.old stack.new }
{
    stack.push(&[
        Tell(Signal::Begin(NodeKind::Statement)),
        Take(word),
        Read(what),
        Read(Semi),
        Tell(Signal::End(NodeKind::Statement)),
    ])
}

fn if_statement(stack: &mut Stack, context: Context) -> Result<(), Stop>
    ensures { (look : Seen) →
        Pushed (step_of (row.statement_by context look Class.If)) result stack.old stack.new }
{
    stack.push(&[
        Tell(Signal::Begin(NodeKind::Statement)),
        Take(Class::If),
        Take(Class::LeftParen),
        Read(Expr(context)),
        Tell(Signal::Join),
        Take(Class::RightParen),
        Read(Statement(context)),
        Read(Else(context)),
        Tell(Signal::End(NodeKind::Statement)),
    ])
}

fn do_statement(stack: &mut Stack, context: Context) -> Result<(), Stop>
    ensures { (look : Seen) →
        Pushed (step_of (row.statement_by context look Class.Do)) result stack.old stack.new }
{
    stack.push(&[
        Tell(Signal::Begin(NodeKind::Loop)),
        Take(Class::Do),
        Read(Statement(context)),
        Take(Class::While),
        Take(Class::LeftParen),
        Read(Expr(context)),
        Tell(Signal::Join),
        Take(Class::RightParen),
        Read(LooseSemi),
        Tell(Signal::End(NodeKind::Loop)),
    ])
}

fn while_statement(stack: &mut Stack, context: Context) -> Result<(), Stop>
    ensures { (look : Seen) →
        Pushed (step_of (row.statement_by context look Class.While)) result stack.old stack.new }
{
    stack.push(&[
        Tell(Signal::Begin(NodeKind::Loop)),
        Take(Class::While),
        Take(Class::LeftParen),
        Read(Expr(context)),
        Tell(Signal::Join),
        Take(Class::RightParen),
        Read(Statement(context)),
        Tell(Signal::End(NodeKind::Loop)),
    ])
}

fn for_statement(stack: &mut Stack, context: Context) -> Result<(), Stop>
    ensures { (look : Seen) →
        Pushed (step_of (row.statement_by context look Class.For)) result stack.old stack.new }
{
    stack.push(&[
        Tell(Signal::Begin(NodeKind::Loop)),
        Take(Class::For),
        Read(ForOpen),
        Read(Head(context)),
        Tell(Signal::End(NodeKind::Loop)),
    ])
}

fn return_statement(stack: &mut Stack, context: Context) -> Result<(), Stop>
    ensures { Pushed (step_of (row.return_row context context.returns)) result stack.old stack.new }
{
    if context.returns {
        simple_statement(stack, Class::Return, ReturnValue(context))
    } else {
        Err(Stop::Refused(BadKind::Syntax))
    }
}

fn switch_row(stack: &mut Stack, context: Context) -> Result<(), Stop>
    ensures { Pushed (step_of (row.switch_row context)) result stack.old stack.new }
{
    stack.push(&[
        Tell(Signal::Begin(NodeKind::Switch)),
        Take(Class::Switch),
        Take(Class::LeftParen),
        Read(Expr(context)),
        Tell(Signal::Join),
        Take(Class::RightParen),
        Tell(Signal::ScopeHere(ScopeKind::Block)),
        Take(Class::LeftBrace),
        Read(Clauses(context, false)),
        Take(Class::RightBrace),
        Tell(Signal::EndScope),
        Tell(Signal::End(NodeKind::Switch)),
    ])
}

fn try_statement(stack: &mut Stack, context: Context) -> Result<(), Stop>
    ensures { (look : Seen) →
        Pushed (step_of (row.statement_by context look Class.Try)) result stack.old stack.new }
{
    stack.push(&[
        Tell(Signal::Begin(NodeKind::Statement)),
        Take(Class::Try),
        Read(Block(context)),
        Read(Handlers(context)),
        Tell(Signal::End(NodeKind::Statement)),
    ])
}

fn expression_statement(stack: &mut Stack, context: Context) -> Result<(), Stop>
    ensures { Pushed (pushes (Symbol.Tell (Signal.Begin NodeKind.Expression)
        ∷ Symbol.Read (Nonterminal.Expr context) ∷ Symbol.Tell Signal.Directive
        ∷ Symbol.Tell Signal.Join ∷ Symbol.Read Nonterminal.Semi
        ∷ Symbol.Tell (Signal.End NodeKind.Statement) ∷ [])) result stack.old stack.new }
{
    stack.push(&[
        Tell(Signal::Begin(NodeKind::Expression)),
        Read(Expr(context)),
        Tell(Signal::Directive),
        Tell(Signal::Join),
        Read(Semi),
        Tell(Signal::End(NodeKind::Statement)),
    ])
}

/// A statement that does not begin with a label.
fn statement_by(stack: &mut Stack, context: Context, look: Look) -> Result<(), Stop>
    ensures { Pushed (step_of (row.statement_by context look look.one))
        result stack.old stack.new }
{
    match look.one {
        Class::LeftBrace => stack.push(&[Read(Block(context))]),
        Class::Var => simple_statement(stack, Class::Var, Binds(DeclarationWord::Var, context)),
        Class::Semicolon => stack.push(&[
            Tell(Signal::Begin(NodeKind::Statement)),
            Take(Class::Semicolon),
            Tell(Signal::End(NodeKind::Statement)),
        ]),
        Class::Debugger => stack.push(&[
            Tell(Signal::Begin(NodeKind::Statement)),
            Take(Class::Debugger),
            Read(Semi),
            Tell(Signal::End(NodeKind::Statement)),
        ]),
        Class::If => if_statement(stack, context),
        Class::Do => do_statement(stack, context),
        Class::While => while_statement(stack, context),
        Class::For => for_statement(stack, context),
        Class::Continue => simple_statement(stack, Class::Continue, Label(Jump::Continue)),
        Class::Break => simple_statement(stack, Class::Break, Label(Jump::Break)),
        Class::Return => return_statement(stack, context),
        Class::Throw => simple_statement(stack, Class::Throw, ThrowValue(context)),
        Class::Switch => switch_row(stack, context),
        Class::Try => try_statement(stack, context),
        Class::Function => Err(Stop::Refused(BadKind::Syntax)),
        _ => expression_statement(stack, context),
    }
}

fn labelled_row(stack: &mut Stack, context: Context) -> Result<(), Stop>
    ensures { Pushed (step_of (row.labelled_row context)) result stack.old stack.new }
{
    stack.push(&[
        Tell(Signal::Begin(NodeKind::Label)),
        Tell(Signal::Label),
        Take(Class::Name),
        Take(Class::Colon),
        Read(Statement(context)),
        Tell(Signal::End(NodeKind::Label)),
    ])
}

pub fn statement_row(stack: &mut Stack, context: Context, look: Look) -> Result<(), Stop>
    ensures { Pushed (step_of (row.statement_row context look)) result stack.old stack.new }
{
    if look.is_async() {
        left_out(OutsideKind::Async)
    } else if look.one.is_name() && look.two.is_colon() {
        labelled_row(stack, context)
    } else {
        statement_by(stack, context, look)
    }
}

pub fn else_row(stack: &mut Stack, context: Context, one: Class) -> Result<(), Stop>
    ensures { Pushed (step_of (row.else_row context one)) result stack.old stack.new }
{
    match one {
        Class::Else => stack.push(&[Take(Class::Else), Read(Statement(context))]),
        _ => Ok(()),
    }
}

pub fn label_row(stack: &mut Stack, jump: Jump, look: Look) -> Result<(), Stop>
    ensures { Pushed (step_of (row.label_row jump look)) result stack.old stack.new }
{
    if !look.one_newline && look.one.is_name() {
        stack.push(&[Tell(Signal::JumpTo(jump)), Take(Class::Name)])
    } else {
        stack.push(&[Tell(Signal::Jump(jump))])
    }
}

pub fn return_value_row(stack: &mut Stack, context: Context, look: Look) -> Result<(), Stop>
    ensures { Pushed (step_of (row.return_value_row context look))
        result stack.old stack.new }
{
    if look.one_newline {
        return Ok(());
    }
    match look.one {
        Class::Semicolon | Class::RightBrace | Class::End => Ok(()),
        _ => stack.push(&[Read(Expr(context)), Tell(Signal::Join)]),
    }
}

pub fn throw_value_row(stack: &mut Stack, context: Context, look: Look) -> Result<(), Stop>
    ensures { Pushed (step_of (row.throw_value_row context look))
        result stack.old stack.new }
{
    if look.one_newline {
        stuck(look)
    } else {
        stack.push(&[Read(Expr(context)), Tell(Signal::Join)])
    }
}

pub fn clauses_row(
    stack: &mut Stack,
    context: Context,
    has_default: bool,
    one: Class,
) -> Result<(), Stop>
    ensures { Pushed (step_of (row.clauses_row context has_default one))
        result stack.old stack.new }
{
    match one {
        Class::Case => stack.push(&[
            Take(Class::Case),
            Read(Expr(context)),
            Tell(Signal::Join),
            Take(Class::Colon),
            Read(Items(context)),
            Read(Clauses(context, has_default)),
        ]),
        Class::Default => {
            if has_default {
                Ok(())
            } else {
                stack.push(&[
                    Take(Class::Default),
                    Take(Class::Colon),
                    Read(Items(context)),
                    Read(Clauses(context, true)),
                ])
            }
        }
        _ => Ok(()),
    }
}

pub fn handlers_row(stack: &mut Stack, context: Context, look: Look) -> Result<(), Stop>
    ensures { Pushed (step_of (row.handlers_row context look)) result stack.old stack.new }
{
    match look.one {
        Class::Catch => stack.push(&[Read(CatchClause(context)), Read(Finally(context))]),
        Class::Finally => stack.push(&[Read(Finally(context))]),
        _ => stuck(look),
    }
}

pub fn catch_clause_row(stack: &mut Stack, context: Context) -> Result<(), Stop>
    ensures { Pushed (step_of (row.catch_clause_row context)) result stack.old stack.new }
{
    stack.push(&[
        Tell(Signal::ScopeHere(ScopeKind::Catch)),
        Take(Class::Catch),
        Read(CatchName),
        Tell(Signal::Begin(NodeKind::Statement)),
        Take(Class::LeftBrace),
        Read(Items(context)),
        Take(Class::RightBrace),
        Tell(Signal::End(NodeKind::Statement)),
        Tell(Signal::EndScope),
    ])
}

pub fn catch_name_row(stack: &mut Stack, one: Class) -> Result<(), Stop>
    ensures { Pushed (step_of (row.catch_name_row one)) result stack.old stack.new }
{
    match one {
        Class::LeftParen => stack.push(&[
            Take(Class::LeftParen),
            Read(Bound(Role::Caught)),
            Take(Class::RightParen),
        ]),
        _ => Ok(()),
    }
}

pub fn finally_row(stack: &mut Stack, context: Context, one: Class) -> Result<(), Stop>
    ensures { Pushed (step_of (row.finally_row context one)) result stack.old stack.new }
{
    match one {
        Class::Finally => stack.push(&[Take(Class::Finally), Read(Block(context))]),
        _ => Ok(()),
    }
}
