//! The operators that tokens are, and how tightly they bind (ECMA-262, 13.3 to 13.15).

use crate::class::Class;
use crate::operator::{AssignOperator, BinaryOperator, Level, UnaryOperator, UpdateOperator};

impl Class {
    ghost use Rattle.std.specs.Prelude.{◌≡◌};
    ghost use Rattle.hz_tree.specs.grammar.Operators as operators;

    /// The operator of assignment.
    pub fn assign_operator(self) -> Option<AssignOperator>
        ensures { result ≡ operators.assign_operator self }
    {
        let operator = match self {
            Class::Assign => AssignOperator::Assign,
            Class::PlusAssign => AssignOperator::Add,
            Class::MinusAssign => AssignOperator::Subtract,
            Class::StarAssign => AssignOperator::Multiply,
            Class::SlashAssign => AssignOperator::Divide,
            Class::PercentAssign => AssignOperator::Remainder,
            Class::StarStarAssign => AssignOperator::Power,
            Class::ShiftLeftAssign => AssignOperator::ShiftLeft,
            Class::ShiftRightAssign => AssignOperator::ShiftRight,
            Class::ShiftRightZeroAssign => AssignOperator::ShiftRightZero,
            Class::AndAssign => AssignOperator::And,
            Class::OrAssign => AssignOperator::Or,
            Class::XorAssign => AssignOperator::Xor,
            Class::AndAndAssign => AssignOperator::AndAnd,
            Class::OrOrAssign => AssignOperator::OrOr,
            Class::NullishAssign => AssignOperator::Nullish,
            _ => return None,
        };
        Some(operator)
    }

    /// The operator between two operands.
    pub fn binary_operator(self) -> Option<BinaryOperator>
        ensures { result ≡ operators.binary_operator self }
    {
        let operator = match self {
            Class::Nullish => BinaryOperator::Nullish,
            Class::OrOr => BinaryOperator::OrOr,
            Class::AndAnd => BinaryOperator::AndAnd,
            Class::Or => BinaryOperator::Or,
            Class::Xor => BinaryOperator::Xor,
            Class::And => BinaryOperator::And,
            Class::Equal => BinaryOperator::Equal,
            Class::NotEqual => BinaryOperator::NotEqual,
            Class::StrictEqual => BinaryOperator::StrictEqual,
            Class::StrictNotEqual => BinaryOperator::StrictNotEqual,
            Class::Less => BinaryOperator::Less,
            Class::Greater => BinaryOperator::Greater,
            Class::LessEqual => BinaryOperator::LessEqual,
            Class::GreaterEqual => BinaryOperator::GreaterEqual,
            Class::In => BinaryOperator::In,
            Class::InstanceOf => BinaryOperator::InstanceOf,
            Class::ShiftLeft => BinaryOperator::ShiftLeft,
            Class::ShiftRight => BinaryOperator::ShiftRight,
            Class::ShiftRightZero => BinaryOperator::ShiftRightZero,
            Class::Plus => BinaryOperator::Add,
            Class::Minus => BinaryOperator::Subtract,
            Class::Star => BinaryOperator::Multiply,
            Class::Slash => BinaryOperator::Divide,
            Class::Percent => BinaryOperator::Remainder,
            Class::StarStar => BinaryOperator::Power,
            _ => return None,
        };
        Some(operator)
    }

    /// The operator before an operand.
    pub fn unary_operator(self) -> Option<UnaryOperator>
        ensures { result ≡ operators.unary_operator self }
    {
        match self {
            Class::Delete => Some(UnaryOperator::Delete),
            Class::Void => Some(UnaryOperator::Void),
            Class::TypeOf => Some(UnaryOperator::TypeOf),
            Class::Plus => Some(UnaryOperator::Plus),
            Class::Minus => Some(UnaryOperator::Minus),
            Class::Tilde => Some(UnaryOperator::Tilde),
            Class::Not => Some(UnaryOperator::Not),
            Class::PlusPlus => Some(UnaryOperator::Increment),
            Class::MinusMinus => Some(UnaryOperator::Decrement),
            _ => None,
        }
    }

    /// The operator behind an operand.
    pub fn update_operator(self) -> Option<UpdateOperator>
        ensures { result ≡ operators.update_operator self }
    {
        match self {
            Class::PlusPlus => Some(UpdateOperator::Increment),
            Class::MinusMinus => Some(UpdateOperator::Decrement),
            _ => None,
        }
    }

    /// The level of a token that goes on with an expression behind an operand. `newline` tells that a line ends before
    /// the token: `++` and `--` stand on the line of their operand.
    pub fn level_behind(self, newline: bool) -> Option<Level>
        ensures { result ≡ operators.level_behind newline self }
    {
        match self {
            Class::Dot
            | Class::LeftBracket
            | Class::LeftParen
            | Class::OptionalDot
            | Class::TemplateWhole
            | Class::TemplateHead => Some(Level::Member),
            Class::Question => Some(Level::Conditional),
            _ => self.operator_level(newline),
        }
    }

    fn operator_level(self, newline: bool) -> Option<Level>
        ensures { result ≡ operators.level_by (operators.assign_operator self) (operators.update_operator self)
            (operators.binary_operator self) newline }
    {
        if self.assign_operator().is_some() {
            return Some(Level::Assignment);
        }
        if self.update_operator().is_some() {
            return if newline { None } else { Some(Level::Update) };
        }
        match self.binary_operator() {
            Some(operator) => Some(operator.level()),
            None => None,
        }
    }
}

impl BinaryOperator {
    ghost use Rattle.std.specs.Prelude.{◌≡◌};
    ghost use Rattle.hz_tree.specs.grammar.Operators.{level_of};

    /// How tightly it binds.
    pub fn level(self) -> Level
        ensures { result ≡ level_of self }
    {
        match self {
            BinaryOperator::Nullish => Level::Nullish,
            BinaryOperator::OrOr => Level::OrOr,
            BinaryOperator::AndAnd => Level::AndAnd,
            BinaryOperator::Or => Level::Or,
            BinaryOperator::Xor => Level::Xor,
            BinaryOperator::And => Level::And,
            BinaryOperator::Equal
            | BinaryOperator::NotEqual
            | BinaryOperator::StrictEqual
            | BinaryOperator::StrictNotEqual => Level::Equality,
            BinaryOperator::Less
            | BinaryOperator::Greater
            | BinaryOperator::LessEqual
            | BinaryOperator::GreaterEqual
            | BinaryOperator::In
            | BinaryOperator::InstanceOf => Level::Relation,
            BinaryOperator::ShiftLeft
            | BinaryOperator::ShiftRight
            | BinaryOperator::ShiftRightZero => Level::Shift,
            BinaryOperator::Add | BinaryOperator::Subtract => Level::Sum,
            BinaryOperator::Multiply | BinaryOperator::Divide | BinaryOperator::Remainder =>
                Level::Product,
            BinaryOperator::Power => Level::Power,
        }
    }
}

impl AssignOperator {
    ghost use Rattle.std.specs.Prelude.{◌≡◌};
    ghost use Rattle.hz_tree.specs.grammar.Operators as operators;

    /// Whether a pattern could stand before it.
    pub fn takes_pattern(self) -> bool
        ensures { result ≡ operators.takes_pattern self }
    {
        matches!(self, AssignOperator::Assign)
    }
}

impl UnaryOperator {
    ghost use Rattle.std.specs.Prelude.{◌≡◌};
    ghost use Rattle.hz_tree.specs.grammar.Operators.{left_of_unary};

    /// The tightest operator of which the left operand can be an operation with this one before it: `**` stands behind
    /// `++` and `--` with their operand alone.
    pub fn left(self) -> Level
        ensures { result ≡ left_of_unary self }
    {
        match self {
            UnaryOperator::Increment | UnaryOperator::Decrement => Level::Power,
            _ => Level::Product,
        }
    }
}

impl Level {
    ghost use Rattle.std.specs.Prelude.{◌≡◌};
    ghost use Rattle.hz_tree.specs.grammar.Operators as operators;

    /// Its number among the levels.
    fn tightness(self) -> u8
        ensures { result ≡ operators.tightness self }
    {
        match self {
            Level::Assignment => 0,
            Level::Conditional => 1,
            Level::Nullish => 2,
            Level::OrOr => 3,
            Level::AndAnd => 4,
            Level::Or => 5,
            Level::Xor => 6,
            Level::And => 7,
            Level::Equality => 8,
            Level::Relation => 9,
            Level::Shift => 10,
            Level::Sum => 11,
            Level::Product => 12,
            Level::Power => 13,
            Level::Update => 14,
            Level::Member => 15,
        }
    }

    /// The loosest operator in the right operand of an operator of this level.
    pub fn right(self) -> Level
        ensures { result ≡ operators.right_of self }
    {
        match self {
            Level::Nullish | Level::AndAnd => Level::Or,
            Level::OrOr => Level::AndAnd,
            Level::Or => Level::Xor,
            Level::Xor => Level::And,
            Level::And => Level::Equality,
            Level::Equality => Level::Relation,
            Level::Relation => Level::Shift,
            Level::Shift => Level::Sum,
            Level::Sum => Level::Product,
            Level::Product => Level::Power,
            _ => self,
        }
    }

    /// The tightest operator of which the left operand can be an operation of this level.
    pub fn left(self) -> Level
        ensures { result ≡ operators.left_of self }
    {
        match self {
            Level::Power => Level::Product,
            _ => self,
        }
    }

    /// Whether an operator of this level is read where those from `loosest` to `tightest` are.
    pub fn is_between(self, loosest: Level, tightest: Level) -> bool
        ensures { result ≡ operators.is_between loosest tightest self }
    {
        loosest.tightness() <= self.tightness()
            && self.tightness() <= tightest.tightness()
            && !self.is_mixed(tightest)
    }

    /// `??` behind `||` or `&&`.
    fn is_mixed(self, tightest: Level) -> bool
        ensures { result ≡ operators.is_mixed self tightest }
    {
        matches!(
            (self, tightest),
            (Level::Nullish, Level::OrOr | Level::AndAnd)
        )
    }
}
