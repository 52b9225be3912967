// The table of instructions, as a macro: `table!(arms ..)` hands its rows to the macro `arms`, behind
// the further tokens in brackets. Each use makes the arms of one match.
ghost use Rattle.std.specs.Prelude.{◌≡◌, ◌≤◌, length};
ghost use Rattle.hz_ops.specs.Table.{op_at, number_of_op, kinds_of};

use crate::op::{Op, OperandKind};

macro_rules! table {
    ($arms:ident $($extra:tt)*) => {
        $arms! { [$($extra)*]
            1 LoadUndefined [Register],
            2 LoadNull [Register],
            3 LoadTrue [Register],
            4 LoadFalse [Register],
            5 LoadEmpty [Register],
            6 LoadInt [Register, Int],
            7 LoadString [Register, Text],
            8 Move [Register, Register],
            21 CheckInit [Register, Text],
            22 ThrowConst [Text],
            23 LoadGlobal [Register, Text],
            24 TypeofGlobal [Register, Text],
            25 StoreGlobal [Text, Register],
            26 DeclareGlobal [Text],
            27 Add [Register, Register, Register],
            28 Sub [Register, Register, Register],
            29 Mul [Register, Register, Register],
            30 Div [Register, Register, Register],
            31 Rem [Register, Register, Register],
            32 Pow [Register, Register, Register],
            33 And [Register, Register, Register],
            34 Or [Register, Register, Register],
            35 Xor [Register, Register, Register],
            36 Shl [Register, Register, Register],
            37 Sar [Register, Register, Register],
            38 Shr [Register, Register, Register],
            39 Quot [Register, Register, Register],
            41 Neg [Register, Register],
            42 BitNot [Register, Register],
            43 Not [Register, Register],
            44 ToNumber [Register, Register],
            45 Typeof [Register, Register],
            46 Inc [Register, Register],
            47 Dec [Register, Register],
            49 ToText [Register, Register],
            50 Equal [Register, Register, Register],
            51 StrictEqual [Register, Register, Register],
            52 Less [Register, Register, Register],
            53 LessEqual [Register, Register, Register],
            54 Greater [Register, Register, Register],
            55 GreaterEqual [Register, Register, Register],
            58 Jump [Jump],
            59 JumpTrue [Register, Jump],
            60 JumpFalse [Register, Jump],
            61 JumpNullish [Register, Jump],
            62 JumpUndefined [Register, Jump],
            63 JumpIs [Register, Int, Jump],
            64 Return [Register],
            65 Throw [Register],
            83 Call [Register, Register, Register, Register, Count],
        }
    };
}

/// The operation with this number, or `None` where no row has it.
#[tactic(auto, unfolding(crate::specs::Table::op_at))]
pub(crate) fn op_at(number: u8) -> Option<Op>
    ensures { result ≡ op_at number }
{
    macro_rules! number_arms {
        ([$number:expr] $($n:literal $name:ident [$($kind:ident),*],)*) => {
            match $number {
                $($n => Some(Op::$name),)*
                _ => None,
            }
        };
    }
    table!(number_arms number)
}

/// The number of an operation.
pub(crate) fn number_of(op: Op) -> u8
    ensures { result ≡ number_of_op op }
{
    op as u8
}

/// The kinds of an operation's operands, in the order in which they are written.
#[tactic(auto, using(crate::proofs::Fitting::few_kinds))]
pub(crate) fn kinds_of(op: Op) -> &'static [OperandKind]
    ensures kinds { result.now ≡ kinds_of op }
    ensures few { length result.now ≤ 5 }
{
    macro_rules! kind_arms {
        ([$op:expr] $($n:literal $name:ident [$($kind:ident),*],)*) => {
            match $op {
                $(Op::$name => &[$(OperandKind::$kind),*],)*
            }
        };
    }
    table!(kind_arms op)
}
