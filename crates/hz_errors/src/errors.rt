ghost use Rattle.std.specs.Prelude.{◌≡◌};
ghost use Rattle.hz_tree.specs.sources.Refusals.{first_refusal as the_first};

use crate::declarations::Declarations;
use crate::labels::Labels;
use crate::least::{lesser_early, lesser_profile};
use crate::levels::Levels;
use crate::operand_entries::KeptShape;
use crate::operands::Operands;
use crate::receivers::Receivers;
use crate::told::Told;
use hz_list::Memory;
use hz_tree::{
    EarlyKind, FunctionKind, LimitKind, NodeKind, NodeShape, ProfileKind, Refusal, Role, ScopeKind,
    Signal,
};
use std::alloc::Global;
use std::marker::Model;

/// All errors that the events of a source tell.
#[derive(Drop)]
pub struct Errors<'a> {
    declarations: Declarations<'a>,
    labels: Labels<'a>,
    levels: Levels,
    operands: Operands<'a>,
    receivers: Receivers,
}

impl<'a> Model for Errors<'a> {
    ghost use Rattle.hz_errors.specs.Errors.{Errors as Found};

    ghost Value = { Found };

    ghost view = { λ e. record {
      declarations = e.declarations;
      labels = e.labels;
      levels = e.levels;
      operands = e.operands;
      receivers = e.receivers;
    } };
}

impl<'a> Errors<'a> {
    ghost use Rattle.std.specs.Prelude.{◌≡◌, ◌∷◌, [], IfOk, OnOk};
    ghost use Rattle.hz_tree.specs.declared.signal.Signal.TheVariants as tell;
    ghost use Rattle.hz_tree.specs.errors.Targets.{plain};
    ghost use Rattle.hz_tree.specs.grammar.Signals.{event, Plain, Placed, Named};
    ghost use Rattle.hz_errors.specs.Levels.{pushed};
    ghost use Rattle.hz_errors.specs.OperandEntries.{shape_seen};
    ghost use Rattle.hz_errors.specs.Operands.{pushed as with_operand};
    ghost use Rattle.hz_errors.specs.Errors.{begun, happens, early_found, profile_found, refusal_found};

    /// Nothing is told.
    pub fn new(alloc: Global) -> Result<Errors<'a>, Memory>
        ensures { IfOk result (λ errors. errors ≡ begun) }
    {
        Ok(Errors {
            declarations: Declarations::new(alloc),
            labels: Labels::new(alloc),
            levels: Levels::new(alloc),
            operands: Operands::new(alloc)?,
            receivers: Receivers::new(alloc),
        })
    }

    /// Goes on by what the grammar tells.
    pub fn tell(&mut self, signal: Signal, told: &Told<'a>) -> Result<(), Memory>
        ensures { OnOk result (self.new ≡ happens self.old (event signal told.now)) }
    {
        match signal {
            Signal::Begin(kind) => self.begin(kind, told.at)?,
            Signal::End(kind) => self.end(kind)?,
            Signal::Join => self.join(),
            Signal::Node(shape) => self.node(shape)?,
            Signal::Parentheses => self.parentheses()?,
            Signal::Name => self.name(told.text, told.at)?,
            Signal::This => self.this(told.at)?,
            Signal::NewTarget => self.new_target(told.at)?,
            Signal::Literal => self.literal(told.at)?,
            Signal::Octal => self.octal(told.at)?,
            Signal::Text => self.text(told)?,
            Signal::Target(pattern) => self.operands.target(pattern),
            Signal::Unary(operator) => self.operands.unary(operator),
            Signal::Directive => self.operands.direct(),
            Signal::Member => self.operands.member(),
            Signal::Call => self.call(),
            Signal::Chain => self.operands.chain(),
            Signal::Arguments => self.levels.open()?,
            Signal::Argument => self.argument(),
            Signal::Declare(role) => self.declare(role, told.text, told.at)?,
            Signal::Bare => self.declarations.find_bare()?,
            Signal::Rest => self.rest(told.at),
            Signal::Use => {}
            Signal::Scope => self.declarations.open(ScopeKind::Block)?,
            Signal::ScopeHere(kind) => self.declarations.open(kind)?,
            Signal::EndScope => self.declarations.close()?,
            Signal::Open(node, kind) => self.open(node, kind, told.at)?,
            Signal::Enter => self.declarations.open(ScopeKind::Function)?,
            Signal::Close => self.close()?,
            Signal::Label => self.labels.label(told.text)?,
            Signal::Jump(jump) => self.labels.jump(jump),
            Signal::JumpTo(jump) => self.labels.jump_to(jump, told.text),
            Signal::WordKey => self.operands.word_key(told.text),
            Signal::TextKey => self.operands.text_key(told.text, told.octal, told.at),
            Signal::OctalKey => self.operands.note_octal(true, told.at),
            Signal::Valued => self.operands.valued(),
        }
        Ok(())
    }

    // ---- what several parts hear

    fn begin(&mut self, kind: NodeKind, at: usize) -> Result<(), Memory>
        ensures { OnOk result (self.new ≡ happens self.old (Placed (tell.Begin kind) at)) }
    {
        self.declarations.begin(kind)?;
        self.labels.begin(kind, at)?;
        self.levels.begin(at)?;
        self.operands.begin(kind, at)
    }

    fn end(&mut self, kind: NodeKind) -> Result<(), Memory>
        ensures { OnOk result (self.new ≡ happens self.old (Plain (tell.End kind))) }
    {
        self.labels.end(kind);
        self.operands.pop();
        self.levels.end()
    }

    fn join(&mut self)
        ensures { self.new ≡ happens self.old (Plain tell.Join) }
    {
        self.operands.pop();
        self.levels.join();
    }

    fn node(&mut self, shape: NodeShape) -> Result<(), Memory>
        ensures { OnOk result (self.new ≡ happens self.old (Plain (tell.Node shape))) }
    {
        self.operands.node(shape);
        self.levels.node()
    }

    fn parentheses(&mut self) -> Result<(), Memory>
        ensures { OnOk result (self.new ≡ happens self.old (Plain tell.Parentheses)) }
    {
        self.operands.parentheses();
        self.levels.parentheses()
    }

    /// An operand is one token.
    #[inline(always)]
    fn leaf(&mut self, at: usize, shape: KeptShape<'a>) -> Result<(), Memory>
        ensures { OnOk result (self.new ≡ record self.old {
          levels = pushed at (at ∷ []) self.old.levels;
          operands = with_operand (plain at (shape_seen shape.entry)) self.old.operands;
        }) }
    {
        self.levels.leaf(at)?;
        self.operands.push(at, shape)
    }

    fn name(&mut self, name: &'a [u8], at: usize) -> Result<(), Memory>
        ensures { OnOk result (self.new ≡ happens self.old (Named tell.Name at name.now)) }
    {
        self.leaf(at, KeptShape::Name(at, name))
    }

    fn literal(&mut self, at: usize) -> Result<(), Memory>
        ensures { OnOk result (self.new ≡ happens self.old (Placed tell.Literal at)) }
    {
        self.leaf(at, KeptShape::Other)
    }

    fn this(&mut self, at: usize) -> Result<(), Memory>
        ensures { OnOk result (self.new ≡ happens self.old (Placed tell.This at)) }
    {
        self.receivers.find_this(at);
        self.leaf(at, KeptShape::Other)
    }

    fn new_target(&mut self, at: usize) -> Result<(), Memory>
        ensures { OnOk result (self.new ≡ happens self.old (Placed tell.NewTarget at)) }
    {
        self.receivers.find_target(at);
        self.leaf(at, KeptShape::Other)
    }

    fn octal(&mut self, at: usize) -> Result<(), Memory>
        ensures { OnOk result (self.new ≡ happens self.old (Placed tell.Octal at)) }
    {
        self.leaf(at, KeptShape::Other)?;
        self.operands.note_octal(true, at);
        Ok(())
    }

    fn text(&mut self, told: &Told<'a>) -> Result<(), Memory>
        ensures { OnOk result (self.new ≡ happens self.old (event tell.Text told.now)) }
    {
        self.leaf(told.at, KeptShape::Text(told.text))?;
        self.operands.note_octal(told.octal, told.at);
        Ok(())
    }

    fn call(&mut self)
        ensures { self.new ≡ happens self.old (Plain tell.Call) }
    {
        self.operands.call();
        self.levels.close();
    }

    fn argument(&mut self)
        ensures { self.new ≡ happens self.old (Plain tell.Argument) }
    {
        self.operands.pop();
        self.levels.argument();
    }

    fn declare(&mut self, role: Role, name: &'a [u8], at: usize) -> Result<(), Memory>
        ensures { OnOk result (self.new ≡ happens self.old (Named (tell.Declare role) at name.now)) }
    {
        self.declarations.declare(role, name, at)?;
        match role {
            Role::Parameter => self.levels.count(LimitKind::Parameters, at),
            _ => {}
        }
        Ok(())
    }

    fn rest(&mut self, at: usize)
        ensures { self.new ≡ happens self.old (Placed tell.Rest at) }
    {
        self.levels.count(LimitKind::Parameters, at);
        self.operands.set_rest();
    }

    fn open(&mut self, node: NodeKind, kind: FunctionKind, at: usize) -> Result<(), Memory>
        ensures { OnOk result (self.new ≡ happens self.old (Placed (tell.Open node kind) at)) }
    {
        self.labels.open()?;
        self.levels.open_function(at)?;
        self.operands.open(node, at)?;
        self.receivers.open(kind)
    }

    fn close(&mut self) -> Result<(), Memory>
        ensures { OnOk result (self.new ≡ happens self.old (Placed tell.Close 0)) }
    {
        self.declarations.close()?;
        self.labels.close();
        self.levels.close();
        self.operands.close();
        self.receivers.close();
        Ok(())
    }

    /// Why a script of which these are all events is refused, or None: it is not strict code, it has an early error, it is
    /// outside the profile, or it passes a limit. `strict` tells that it is strict code whether it says so or not.
    pub fn refusal(&self, strict: bool) -> Option<Refusal>
        ensures { result ≡ refusal_found strict self.now }
    {
        if !strict && !self.operands.is_strict() {
            return Some(Refusal::Sloppy);
        }
        first_refusal(self.early(), self.profile(), self.levels.least())
    }

    fn early(&self) -> Option<(EarlyKind, usize)>
        ensures { result ≡ early_found self.now }
    {
        let jumps = lesser_early(self.labels.least(), self.receivers.early());
        lesser_early(
            self.declarations.early(),
            lesser_early(self.operands.early(), jumps),
        )
    }

    fn profile(&self) -> Option<(ProfileKind, usize)>
        ensures { result ≡ profile_found self.now }
    {
        lesser_profile(
            self.operands.profile(),
            lesser_profile(self.receivers.profile(), self.declarations.profile()),
        )
    }
}

/// The first of these, as far as they are there.
fn first_refusal(
    early: Option<(EarlyKind, usize)>,
    profile: Option<(ProfileKind, usize)>,
    limit: Option<(LimitKind, usize)>,
) -> Option<Refusal>
    ensures { result ≡ the_first early profile limit }
{
    match (early, profile, limit) {
        (Some((kind, at)), _, _) => Some(Refusal::Early(kind, at)),
        (None, Some((kind, at)), _) => Some(Refusal::Profile(kind, at)),
        (None, None, Some((kind, at))) => Some(Refusal::Limit(kind, at)),
        (None, None, None) => None,
    }
}
