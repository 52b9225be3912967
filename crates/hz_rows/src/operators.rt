//! Operations (ECMA-262, 13.3 to 13.16), arrows and `yield` (15.3 and 15.5).

ghost use Rattle.std.specs.Prelude.{◌≡◌, Option, Some};
ghost use Rattle.hz_tree.specs.grammar.Table.{step_of};
ghost use Rattle.hz_tree.specs.grammar.OperatorRows as row;
ghost use Rattle.hz_tree.specs.grammar.Operators as operators;
ghost use Rattle.hz_tree.specs.declared.operator.BinaryOperator.{BinaryOperator as Binary};
ghost use Rattle.hz_tree.specs.declared.operator.Level.{Level as Tightness};
ghost use Rattle.hz_tree.specs.declared.operator.UpdateOperator.{UpdateOperator as Update};
ghost use Rattle.hz_rows.specs.Pushed.{Pushed};

use crate::contexts::with_in;
use crate::stack::Stack;
use crate::stop::{Stop, left_out};
use hz_tree::Nonterminal::{
    Args, ArrowBody, ArrowSign, Bound, Expr, Operation, OptionalTail, Params, Primary, Rests,
    Tails, Word, YieldValue,
};
use hz_tree::Symbol::{Read, Take, Tell};
use hz_tree::{
    AssignOperator, Class, Context, FunctionKind, Level, Look, NodeKind, NodeShape, OutsideKind,
    Role, Signal,
};

fn arrow_row(stack: &mut Stack, context: Context, parenthesised: bool) -> Result<(), Stop>
    ensures { (loosest : Tightness) → Pushed (step_of (row.arrow_row loosest context parenthesised))
        result stack.old stack.new }
{
    let parameters = if parenthesised {
        Params
    } else {
        Bound(Role::Parameter)
    };
    stack.push(&[
        Tell(Signal::Open(NodeKind::Operand, FunctionKind::Arrow)),
        Tell(Signal::Enter),
        Read(parameters),
        Read(ArrowSign),
        Read(ArrowBody(context)),
        Tell(Signal::Join),
        Tell(Signal::Close),
        Tell(Signal::Node(NodeShape::Other)),
    ])
}

/// An operand with an operator before it, or one that begins with none.
fn operand_row(stack: &mut Stack, loosest: Level, context: Context, one: Class) -> Result<(), Stop>
    ensures { Pushed (step_of (row.operand_row loosest context one (operators.unary_operator one)))
        result stack.old stack.new }
{
    match one.unary_operator() {
        Some(operator) => stack.push(&[
            Tell(Signal::Begin(NodeKind::Operand)),
            Take(one),
            Read(Operation(Level::Update, context)),
            Tell(Signal::Unary(operator)),
            Tell(Signal::Join),
            Tell(Signal::Node(NodeShape::Other)),
            Read(Rests(loosest, operator.left(), context)),
        ]),
        None => stack.push(&[Read(Primary(context)), Read(Tails(false, loosest, context))]),
    }
}

fn is_loosest(level: Level) -> bool
    ensures { result ≡ row.is_loosest level }
{
    matches!(level, Level::Assignment)
}

/// An operation that is no arrow.
fn operation_by(
    stack: &mut Stack,
    loosest: Level,
    context: Context,
    yields: bool,
    one: Class,
) -> Result<(), Stop>
    ensures { Pushed (step_of (row.operation_by loosest context yields one))
        result stack.old stack.new }
{
    match one {
        Class::Yield if yields => stack.push(&[
            Tell(Signal::Begin(NodeKind::Operand)),
            Take(Class::Yield),
            Read(YieldValue(context)),
            Tell(Signal::Node(NodeShape::Other)),
        ]),
        _ => operand_row(stack, loosest, context, one),
    }
}

pub fn operation_row(
    stack: &mut Stack,
    loosest: Level,
    context: Context,
    look: Look,
) -> Result<(), Stop>
    ensures { Pushed (step_of (row.operation_row loosest context look)) result stack.old stack.new }
{
    if is_loosest(loosest) && look.begins_arrow() {
        arrow_row(stack, context, look.one.is_paren())
    } else {
        let yields = is_loosest(loosest) && context.yields;
        operation_by(stack, loosest, context, yields, look.one)
    }
}

/// Whether a token goes on with an operation of these levels. `in` is no operator in the head of a `for`.
fn reads_on(loosest: Level, tightest: Level, context: Context, newline: bool, one: Class) -> bool
    ensures { result ≡ row.reads_on loosest tightest context newline one }
{
    !(one.is_in() && context.no_in)
        && match one.level_behind(newline) {
            Some(own) => own.is_between(loosest, tightest),
            None => false,
        }
}

/// An assignment.
fn assign_row(
    stack: &mut Stack,
    operator: AssignOperator,
    one: Class,
    context: Context,
) -> Result<(), Stop>
    ensures { (loosest tightest : Tightness) (updated : Option Update) (joined : Option Binary) →
        Pushed (step_of (row.operator_row loosest tightest context one (Some operator)
        updated joined)) result stack.old stack.new }
{
    stack.push(&[
        Tell(Signal::Target(operator.takes_pattern())),
        Take(one),
        Read(Operation(Level::Assignment, context)),
        Tell(Signal::Join),
        Tell(Signal::Node(NodeShape::Other)),
    ])
}

/// An operator and what follows it.
fn operator_row(
    stack: &mut Stack,
    loosest: Level,
    tightest: Level,
    context: Context,
    one: Class,
) -> Result<(), Stop>
    ensures { Pushed (step_of (row.operator_row loosest tightest context one
        (operators.assign_operator one) (operators.update_operator one)
        (operators.binary_operator one))) result stack.old stack.new }
{
    if let Some(operator) = one.assign_operator() {
        return assign_row(stack, operator, one, context);
    }
    if one.update_operator().is_some() {
        return stack.push(&[
            Tell(Signal::Target(false)),
            Take(one),
            Tell(Signal::Node(NodeShape::Other)),
            Read(Rests(loosest, Level::Power, context)),
        ]);
    }
    match one.binary_operator() {
        Some(operator) => {
            let own = operator.level();
            stack.push(&[
                Take(one),
                Read(Operation(own.right(), context)),
                Tell(Signal::Join),
                Tell(Signal::Node(NodeShape::Other)),
                Read(Rests(loosest, own.left(), context)),
            ])
        }
        None => Ok(()),
    }
}

/// A token that goes on with an operation.
fn rest_row(
    stack: &mut Stack,
    loosest: Level,
    tightest: Level,
    context: Context,
    one: Class,
) -> Result<(), Stop>
    ensures { Pushed (step_of (row.rest_row loosest tightest context one))
        result stack.old stack.new }
{
    match one {
        Class::Question => stack.push(&[
            Take(Class::Question),
            Read(Operation(Level::Assignment, with_in(context))),
            Tell(Signal::Join),
            Take(Class::Colon),
            Read(Operation(Level::Assignment, context)),
            Tell(Signal::Join),
            Tell(Signal::Node(NodeShape::Other)),
            Read(Rests(loosest, Level::Assignment, context)),
        ]),
        _ => operator_row(stack, loosest, tightest, context, one),
    }
}

pub fn rests_row(
    stack: &mut Stack,
    loosest: Level,
    tightest: Level,
    context: Context,
    look: Look,
) -> Result<(), Stop>
    ensures { Pushed (step_of (row.rests_row loosest tightest context look))
        result stack.old stack.new }
{
    if reads_on(loosest, tightest, context, look.one_newline, look.one) {
        rest_row(stack, loosest, tightest, context, look.one)
    } else {
        Ok(())
    }
}

/// The end of the members and calls behind an operand.
fn tails_end(
    stack: &mut Stack,
    tailed: bool,
    loosest: Level,
    context: Context,
    look: Look,
) -> Result<(), Stop>
    ensures { Pushed (step_of (row.tails_end tailed loosest context look))
        result stack.old stack.new }
{
    if tailed {
        stack.push(&[
            Tell(Signal::Node(NodeShape::Same)),
            Read(Rests(loosest, Level::Update, context)),
        ])
    } else {
        rests_row(stack, loosest, Level::Update, context, look)
    }
}

pub fn tails_row(
    stack: &mut Stack,
    tailed: bool,
    loosest: Level,
    context: Context,
    look: Look,
) -> Result<(), Stop>
    ensures { Pushed (step_of (row.tails_row tailed loosest context look))
        result stack.old stack.new }
{
    let more = Read(Tails(true, loosest, context));
    match look.one {
        Class::Dot => stack.push(&[Take(Class::Dot), Read(Word), Tell(Signal::Member), more]),
        Class::LeftBracket => stack.push(&[
            Take(Class::LeftBracket),
            Read(Expr(with_in(context))),
            Tell(Signal::Join),
            Take(Class::RightBracket),
            Tell(Signal::Member),
            more,
        ]),
        Class::LeftParen => stack.push(&[Read(Args(context)), more]),
        Class::OptionalDot => stack.push(&[
            Take(Class::OptionalDot),
            Read(OptionalTail(context)),
            Tell(Signal::Chain),
            more,
        ]),
        Class::TemplateWhole | Class::TemplateHead => left_out(OutsideKind::TaggedTemplate),
        _ => tails_end(stack, tailed, loosest, context, look),
    }
}
