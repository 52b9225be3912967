//! Rows of the operators.

use hz_rows::{Stack, Stop, expand};
use hz_tree::Nonterminal::{Bound, Operation, Primary, Rests, Semi, Tails, Word};
use hz_tree::Symbol::{Read, Take, Tell};
use hz_tree::{
    BadKind, Class, Context, Level, Look, NodeKind, NodeShape, Nonterminal, OutsideKind, Role,
    Signal, Symbol, UnaryOperator,
};
use std::process::Abort;

const IN_HEAD: Context = Context {
    returns: false,
    yields: false,
    no_in: true,
};

const IN_GENERATOR: Context = Context {
    returns: true,
    yields: true,
    no_in: false,
};

/// The operators of two operands that group to the left, their level, and the one of their right operand.
const LEVELS: [(Class, Level, Level); 23] = [
    (Class::OrOr, Level::OrOr, Level::AndAnd),
    (Class::AndAnd, Level::AndAnd, Level::Or),
    (Class::Or, Level::Or, Level::Xor),
    (Class::Xor, Level::Xor, Level::And),
    (Class::And, Level::And, Level::Equality),
    (Class::Equal, Level::Equality, Level::Relation),
    (Class::NotEqual, Level::Equality, Level::Relation),
    (Class::StrictEqual, Level::Equality, Level::Relation),
    (Class::StrictNotEqual, Level::Equality, Level::Relation),
    (Class::Less, Level::Relation, Level::Shift),
    (Class::Greater, Level::Relation, Level::Shift),
    (Class::LessEqual, Level::Relation, Level::Shift),
    (Class::GreaterEqual, Level::Relation, Level::Shift),
    (Class::In, Level::Relation, Level::Shift),
    (Class::InstanceOf, Level::Relation, Level::Shift),
    (Class::ShiftLeft, Level::Shift, Level::Sum),
    (Class::ShiftRight, Level::Shift, Level::Sum),
    (Class::ShiftRightZero, Level::Shift, Level::Sum),
    (Class::Plus, Level::Sum, Level::Product),
    (Class::Minus, Level::Sum, Level::Product),
    (Class::Star, Level::Product, Level::Power),
    (Class::Slash, Level::Product, Level::Power),
    (Class::Percent, Level::Product, Level::Power),
];

fn look(one: Class) -> Look {
    Look {
        one,
        one_newline: false,
        two: Class::End,
        two_newline: false,
        arrow: false,
    }
}

/// Before a token of class `one` the nonterminal stands for these symbols, the first one on top.
fn check_row(
    rt: &(impl Abort + AllocGlobal),
    nonterminal: Nonterminal,
    one: Class,
    wanted: &[Symbol],
) {
    let mut stack = Stack::new(rt.alloc());
    let answer = expand(&mut stack, nonterminal, look(one));
    assert_eq!(rt; answer, Ok(()), "of {nonterminal:?} at {one:?}");
    for symbol in wanted {
        assert_eq!(rt; stack.pop(), Some(*symbol), "of {nonterminal:?} at {one:?}");
    }
    assert_eq!(rt; stack.pop(), None, "of {nonterminal:?} at {one:?}");
}

/// Behind an operand of an expression in a generator the operator is read, with a right operand of this level and then
/// the operators up to `left`; not where only tighter ones are.
fn check_operator(
    rt: &(impl Abort + AllocGlobal),
    one: Class,
    right: Level,
    left: Level,
    tighter: Level,
) {
    check_row(
        rt,
        Rests(Level::Assignment, Level::Update, IN_GENERATOR),
        one,
        &[
            Take(one),
            Read(Operation(right, IN_GENERATOR)),
            Tell(Signal::Join),
            Tell(Signal::Node(NodeShape::Other)),
            Read(Rests(Level::Assignment, left, IN_GENERATOR)),
        ],
    );
    check_row(rt, Rests(tighter, Level::Update, IN_GENERATOR), one, &[]);
}

#[test]
fn rows_of_operators(rt: HostRuntime) {
    for (one, own, right) in LEVELS {
        check_operator(&rt, one, right, own, right);
    }
    check_operator(&rt, Class::Nullish, Level::Or, Level::Nullish, Level::Or);
    check_operator(
        &rt,
        Class::StarStar,
        Level::Power,
        Level::Product,
        Level::Update,
    );
    for one in [Class::OrOr, Class::AndAnd] {
        check_row(
            &rt,
            Rests(Level::Assignment, Level::Nullish, IN_HEAD),
            one,
            &[],
        );
    }
    for level in [Level::OrOr, Level::AndAnd] {
        check_row(
            &rt,
            Rests(Level::Assignment, level, IN_HEAD),
            Class::Nullish,
            &[],
        );
    }
    check_row(
        &rt,
        Rests(Level::Assignment, Level::Update, IN_HEAD),
        Class::In,
        &[],
    );
    for (one, operator, left) in [
        (Class::Delete, UnaryOperator::Delete, Level::Product),
        (Class::Minus, UnaryOperator::Minus, Level::Product),
        (Class::PlusPlus, UnaryOperator::Increment, Level::Power),
    ] {
        check_row(
            &rt,
            Operation(Level::Sum, IN_HEAD),
            one,
            &[
                Tell(Signal::Begin(NodeKind::Operand)),
                Take(one),
                Read(Operation(Level::Update, IN_HEAD)),
                Tell(Signal::Unary(operator)),
                Tell(Signal::Join),
                Tell(Signal::Node(NodeShape::Other)),
                Read(Rests(Level::Sum, left, IN_HEAD)),
            ],
        );
    }
}

#[test]
fn rows_of_members(rt: HostRuntime) {
    for tailed in [false, true] {
        check_row(
            &rt,
            Tails(tailed, Level::Sum, IN_HEAD),
            Class::Dot,
            &[
                Take(Class::Dot),
                Read(Word),
                Tell(Signal::Member),
                Read(Tails(true, Level::Sum, IN_HEAD)),
            ],
        );
    }
    check_row(
        &rt,
        Tails(false, Level::Sum, IN_HEAD),
        Class::Semicolon,
        &[],
    );
    check_row(
        &rt,
        Tails(true, Level::Sum, IN_HEAD),
        Class::Semicolon,
        &[
            Tell(Signal::Node(NodeShape::Same)),
            Read(Rests(Level::Sum, Level::Update, IN_HEAD)),
        ],
    );
}

#[test]
fn a_row_stands_above_what_follows_it(rt: HostRuntime) {
    let mut stack = Stack::new(rt.alloc());
    let operand = Operation(Level::Sum, IN_HEAD);
    assert_eq!(rt; stack.push(&[Read(operand), Read(Semi)]), Ok(()));
    assert_eq!(rt; stack.pop(), Some(Read(operand)));
    assert_eq!(rt; expand(&mut stack, operand, look(Class::Name)), Ok(()));
    for symbol in [
        Read(Primary(IN_HEAD)),
        Read(Tails(false, Level::Sum, IN_HEAD)),
        Read(Semi),
    ] {
        assert_eq!(rt; stack.pop(), Some(symbol));
    }
    assert_eq!(rt; stack.pop(), None);
}

#[test]
fn a_refusal_leaves_the_stack(rt: HostRuntime) {
    let mut stack = Stack::new(rt.alloc());
    let pattern = Stop::Refused(BadKind::Outside(OutsideKind::Pattern));
    assert_eq!(rt;
        expand(&mut stack, Bound(Role::Parameter), look(Class::LeftBrace)),
        Err(pattern)
    );
    assert_eq!(rt;
        expand(&mut stack, Semi, look(Class::Name)),
        Err(Stop::Refused(BadKind::Syntax))
    );
    assert_eq!(rt; stack.pop(), None);
}
