// The types that the stages of the front end share: tokens, the grammar's symbols, trees, and the reasons for which
// a source is refused.
//
// The layer above relies on the definitions in `specs/`, which speak of sources in UTF-8, byte by byte:
// `specs/tokens/Tokens.antt` says what the tokens of a source are, in the terms of ECMA-262, clause 12, and
// `specs/grammar/Table.antt` is the grammar as one table, which `specs/reading/Reading.antt` unfolds.
#![tactic(auto)]

mod class;
mod early;
mod front;
mod function_tree;
mod index;
mod limit;
mod look;
mod nonterminal;
mod operator;
mod operators;
mod outside;
mod place;
mod profile;
mod refusal;
mod scope;
mod signal;
mod symbol;
mod token;
mod tree;

pub use class::{Bracket, Bracketing, Class};
pub use early::EarlyKind;
pub use front::{Front, Stretch};
pub use function_tree::FunctionTree;
pub use index::{FunctionInfo, FunctionInfos};
pub use limit::{LimitKind, MAX_DEPTH, MAX_LISTED};
pub use look::Look;
pub use nonterminal::{Context, Nonterminal};
pub use operator::{
    AssignOperator, BinaryOperator, DeclarationWord, Iteration, Level, UnaryOperator,
    UpdateOperator,
};
pub use outside::{BadKind, OutsideKind};
pub use place::Place;
pub use profile::ProfileKind;
pub use refusal::{MAX_LENGTH, Refusal};
pub use scope::{BindingKind, ScopeAt, ScopeKind};
pub use signal::{Jump, NodeKind, NodeShape, Role, Signal};
pub use symbol::Symbol;
pub use token::{Token, TokenKind};
pub use tree::{Bound, FunctionForm, FunctionKind, Rest, Slice, Tree};
