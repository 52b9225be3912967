// Operations and operands.

/// An operation. Its discriminant is its number: the first byte of the short form. The long form has
/// 128 more. The first register is the one that is written, unless said otherwise.
#[derive(Clone, Copy, Debug, PartialEq, Eq)]
pub enum Op {
    /// Register: undefined.
    LoadUndefined = 1,
    /// Register: null.
    LoadNull = 2,
    /// Register: true.
    LoadTrue = 3,
    /// Register: false.
    LoadFalse = 4,
    /// Register: the empty mark of a binding that is not initialised.
    LoadEmpty = 5,
    /// Register, integer: the integer, which has to be safe.
    LoadInt = 6,
    /// Register, text: the text.
    LoadString = 7,
    /// Two registers: what the second holds, whatever it is.
    Move = 8,
    /// Register, text: throws where the register holds the empty mark; the text is the name.
    CheckInit = 21,
    /// Text: throws, since the binding of this name is constant.
    ThrowConst = 22,
    /// Register, text: the value of the global variable of this name.
    LoadGlobal = 23,
    /// Register, text: what `typeof` gives of the global variable of this name.
    TypeofGlobal = 24,
    /// Text, register: the global variable of this name gets what the register holds.
    StoreGlobal = 25,
    /// Text: makes the global variable of this name.
    DeclareGlobal = 26,
    /// Three registers: the sum of the second and the third, or their texts joined.
    Add = 27,
    /// Three registers: the difference.
    Sub = 28,
    /// Three registers: the product.
    Mul = 29,
    /// Three registers: the quotient, which has to be exact.
    Div = 30,
    /// Three registers: the remainder.
    Rem = 31,
    /// Three registers: the power.
    Pow = 32,
    /// Three registers: `&` of the second and the third.
    And = 33,
    /// Three registers: `|`.
    Or = 34,
    /// Three registers: `^`.
    Xor = 35,
    /// Three registers: `<<`.
    Shl = 36,
    /// Three registers: `>>`.
    Sar = 37,
    /// Three registers: `>>>`.
    Shr = 38,
    /// Three registers: `(a / b) | 0` of the second and the third.
    Quot = 39,
    /// Two registers: `-` of the second.
    Neg = 41,
    /// Two registers: `~`.
    BitNot = 42,
    /// Two registers: `!`.
    Not = 43,
    /// Two registers: the second as a number.
    ToNumber = 44,
    /// Two registers: what `typeof` gives of the second.
    Typeof = 45,
    /// Two registers: the second as a number, and one more.
    Inc = 46,
    /// Two registers: the second as a number, and one less.
    Dec = 47,
    /// Two registers: the second as a text.
    ToText = 49,
    /// Three registers: `==` of the second and the third.
    Equal = 50,
    /// Three registers: `===`.
    StrictEqual = 51,
    /// Three registers: `<`.
    Less = 52,
    /// Three registers: `<=`.
    LessEqual = 53,
    /// Three registers: `>`.
    Greater = 54,
    /// Three registers: `>=`.
    GreaterEqual = 55,
    /// Jump: goes on there.
    Jump = 58,
    /// Register, jump: jumps where the register's value counts as true.
    JumpTrue = 59,
    /// Register, jump: jumps where it counts as false.
    JumpFalse = 60,
    /// Register, jump: jumps where it is undefined or null.
    JumpNullish = 61,
    /// Register, jump: jumps where it is undefined.
    JumpUndefined = 62,
    /// Register, integer, jump: jumps where the register's value is this number.
    JumpIs = 63,
    /// Register: the function ends with the value that it holds.
    Return = 64,
    /// Register: throws the value that it holds.
    Throw = 65,
    /// Four registers and a count: a call of the second, with the third as `this` and with the contents
    /// of so many registers in a row as arguments, from the fourth on.
    Call = 83,
}

/// What an operand stands for, which decides how many bytes it takes. In the short form a register, an
/// integer and a count take one byte, and the others two; in the long form a count takes one byte, and
/// the others eight.
#[derive(Clone, Copy, Debug, PartialEq, Eq)]
pub enum OperandKind {
    Register,
    Slot,
    Text,
    Function,
    Int,
    Jump,
    Count,
}

/// An operand: the number of a register, a slot, a text or a function, an integer, the way of a jump
/// in bytes, or a count.
#[derive(Clone, Copy, Debug, PartialEq, Eq)]
pub enum Operand {
    Register(u64),
    Slot(u64),
    Text(u64),
    Function(u64),
    Int(i64),
    Jump(i64),
    Count(u8),
}

/// A count of nothing.
impl Default for Operand {
    ghost use Rattle.std.specs.Prelude.{◌≡◌};
    ghost use Rattle.hz_ops.specs.declared.op.Operand.TheVariants.{Count};

    ghost is_default = { λ o. o ≡ Count 0 };

    fn default() -> Operand {
        Operand::Count(0)
    }
}
