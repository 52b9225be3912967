// The bytecode's instructions: the table of operations, the coding of an instruction in bytes, and the
// meaning of code.
//
// An instruction is an operation, a form (short or long) and the operands that the operation's row of
// the table lists. `encode_into` spells one in bytes and `decode` reads one: what was written is read
// again, whatever follows, and what is read is written as the same bytes. Both laws are clauses of
// these calls. No call takes memory but `push_instr`.
//
// What code does when it runs is a definition alone, in `specs/code`: a meaning of functions in the shape of the
// system of `hz_value`, whose step is the row of the instruction in hand. A code generator promises its code's meaning
// by it, and an interpreter promises to follow it. `specs/Step.antt` and `specs/Runs.antt` are those of first texts.
#![tactic(auto)]

mod coding;
mod handler;
mod held;
mod instr;
mod laws;
mod number;
mod op;
mod operand;
mod shape;
mod table;
pub mod tested;

pub use coding::{decode, encode_into, fits};
pub use handler::Handler;
pub use held::Held;
pub use instr::{Instr, push_instr};
pub use laws::{
    code_takes_turns, ended_is_built, lines_grow, one_end, read_in_place, step_by_step,
};
pub use op::{Op, Operand, OperandKind};
