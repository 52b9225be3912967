ghost use Rattle.std.specs.Prelude.{◌≡◌};
ghost use Rattle.hz_ops.specs.code.Activations.{at, written};
ghost use Rattle.hz_ops.specs.code.Steps.{code_answered};
ghost use Rattle.hz_machine.specs.Frames.{reply_of};

use hz_ops::Held;
use hz_value::Value;
use std::marker::Model;

/// What comes back to an activation that waits.
#[derive(Clone, Copy, Debug, PartialEq, Eq)]
pub enum Reply {
    Normal(Value),
    Thrown(Value),
}

/// The activation of the script: the place of the instruction in hand, the registers, and what came back to the
/// instruction in hand. Contracts see the activation.
#[derive(Debug, Drop)]
pub struct Frame {
    pub(crate) place: u64,
    pub(crate) registers: Vec<Held>,
    pub(crate) reply: Option<Reply>,
}

impl Model for Frame {
    ghost use Rattle.hz_ops.specs.code.Activations.{Activation};
    ghost use Rattle.hz_machine.specs.Frames.{activation};

    ghost Value = { Activation };

    ghost view = { λ f. activation f.place f.registers.items f.reply };
}

impl Frame {
    /// Goes on at this place.
    pub(crate) fn go(&mut self, place: u64)
        ensures { self.new ≡ at place self.old }
    {
        self.place = place;
        self.reply = None;
    }

    /// Goes on at this place, with what the register then holds.
    pub(crate) fn put(&mut self, place: u64, to: u64, held: Held)
        ensures { self.new ≡ written place to held self.old }
    {
        if to < self.registers.len() as u64 {
            self.registers[to as usize] = held;
        }
        self.place = place;
        self.reply = None;
    }

    /// What the registers hold.
    pub(crate) fn held(&self) -> &[Held]
        ensures { result.now ≡ (self.now).registers }
    {
        self.registers.as_slice()
    }

    /// The place of the instruction in hand.
    pub(crate) fn place(&self) -> u64
        ensures { result ≡ (self.now).place }
    {
        self.place
    }

    /// The function: the script.
    pub(crate) fn function(&self) -> u32
        ensures function { result ≡ (self.now).function }
        ensures script { result ≡ 0 }
    {
        let _place = self.place;
        0
    }

    /// The reply comes back to the instruction in hand.
    pub(crate) fn answer(&mut self, reply: Reply)
        ensures { self.new ≡ code_answered self.old (reply_of reply) }
    {
        self.reply = Some(reply);
    }
}
