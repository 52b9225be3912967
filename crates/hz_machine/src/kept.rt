ghost use Rattle.std.specs.Prelude.{◌≡◌, ◌+◌, length, OnOk, IfOk};
ghost use Rattle.hz_value.specs.declared.values.Value.TheVariants as value;
ghost use Rattle.hz_value.specs.world.Store.{content_of, object, is_function, type_name};
ghost use Rattle.hz_operators.specs.Outcomes.{content_of as seen};
ghost use Rattle.hz_machine.specs.Kept.{store_of, with_made};

use crate::errors::{Cause, MadeError};
use crate::globals::Globals;
use crate::met::Met;
use crate::texts::Texts;
use hz_operators::Content;
use hz_value::{Memory, Value};
use std::alloc::Global;
use std::marker::Model;

/// The world as the machine keeps it. Contracts see nothing of what is remembered of the code's texts.
#[derive(Debug, Drop)]
pub struct Kept {
    pub(crate) alloc: Global,
    pub(crate) texts: Texts,
    pub(crate) met: Met,
    pub(crate) globals: Globals,
    pub(crate) errors: Vec<MadeError>,
    pub(crate) turns: u64,
    pub(crate) calls: u64,
}

impl Model for Kept {
    ghost use Rattle.hz_machine.specs.Kept.{KeptWorld};

    ghost Value = { KeptWorld };

    ghost view = { λ k. record {
      texts = k.texts;
      globals = k.globals;
      errors = k.errors.items;
      turns = k.turns;
      calls = k.calls;
    } };
}

/// How many objects there are from the start.
const OBJECTS: u64 = 7;

impl Kept {
    /// What the value is.
    pub(crate) fn content(&self, value: Value) -> Content<'_>
        ensures { seen result ≡ content_of (store_of self.now) value }
    {
        match value {
            Value::Undefined => Content::Undefined,
            Value::Null => Content::Null,
            Value::Bool(value) => Content::Boolean(value),
            Value::Num(number) => Content::Number(number),
            Value::Text(text) => Content::Text(self.texts.units(text)),
            Value::Symbol(symbol) => Content::Symbol(symbol),
            Value::Object(object) => Content::Object(object),
        }
    }

    /// Makes an error, and gives it.
    pub(crate) fn make_error(&mut self, cause: &Cause<'_>) -> Result<Value, Memory>
        ensures made { OnOk result (self.new ≡ with_made cause.now self.old) }
        ensures value { IfOk result (λ v. v ≡ value.Object (7 + length (self.old).errors)) }
    {
        let text = cause.message(self.alloc)?;
        let number = self.texts.intern(text)?;
        let object = OBJECTS + self.errors.len() as u64;
        self.errors.push(MadeError {
            kind: cause.kind(),
            text: number,
        })?;
        Ok(Value::Object(object))
    }

    /// Whether the object can be called.
    #[tactic(auto, using(crate::proofs::Making::callable))]
    pub(crate) fn is_function(&self, number: u64) -> bool
        ensures { result ≡ is_function (object (store_of self.now) number).kind }
    {
        number == 1 || number == 6
    }

    /// The result of `typeof` (ECMA-262, 13.5.3).
    pub(crate) fn type_name(&self, value: Value) -> &'static str
        ensures { result.now ≡ type_name (store_of self.now) value }
    {
        match value {
            Value::Undefined => "undefined",
            Value::Null => "object",
            Value::Bool(_) => "boolean",
            Value::Num(_) => "number",
            Value::Text(_) => "string",
            Value::Symbol(_) => "symbol",
            Value::Object(number) => {
                if self.is_function(number) {
                    "function"
                } else {
                    "object"
                }
            }
        }
    }
}
