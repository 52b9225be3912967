use crate::least::with_early;
use crate::open_body::OpenBody;
use hz_list::Memory;
use hz_tree::{EarlyKind, Jump, NodeKind};
use std::alloc::Global;
use std::marker::Model;
use std::mem;

/// Finds labels within statements of the same label, and jumps that lead nowhere.
#[derive(Drop)]
pub struct Labels<'a> {
    alloc: Global,

    /// The place of the statement that began last.
    begun: usize,

    /// What is open in the innermost function.
    body: OpenBody<'a>,

    /// What is open in the functions round it, the innermost last.
    outer: Vec<OpenBody<'a>>,

    least: Option<(EarlyKind, usize)>,
}

impl<'a> Model for Labels<'a> {
    ghost use Rattle.std.specs.Prelude.{reverse};
    ghost use Rattle.hz_errors.specs.Labels.{Labelling};

    ghost Value = { Labelling };

    ghost view = { λ l. record {
      begun = l.begun;
      body = l.body;
      outer = reverse l.outer.items;
      least = l.least;
    } };
}

impl<'a> Labels<'a> {
    ghost use Rattle.std.specs.Prelude.{◌≡◌, Some, None, OnOk};
    ghost use Rattle.hz_errors.specs.Labels.{begun, enters, leaves, opens, closes, labels, jumps};

    /// Nothing is open, and nothing is found. No memory is taken.
    pub fn new(alloc: Global) -> Labels<'a>
        ensures { result ≡ begun }
    {
        Labels {
            alloc,
            begun: 0,
            body: OpenBody::new(),
            outer: Vec::new(alloc),
            least: None,
        }
    }

    /// The least error that was found.
    pub fn least(&self) -> Option<(EarlyKind, usize)>
        ensures { result ≡ self.now.least }
    {
        self.least
    }

    /// A node of this kind begins.
    pub fn begin(&mut self, kind: NodeKind, at: usize) -> Result<(), Memory>
        ensures { OnOk result (self.new ≡ enters kind at self.old) }
    {
        match kind {
            NodeKind::Statement | NodeKind::Expression => self.body.begin_statement()?,
            NodeKind::Loop => self.body.begin_loop()?,
            NodeKind::Switch => self.body.begin_switch()?,
            NodeKind::Label => {}
            NodeKind::Operand | NodeKind::Part | NodeKind::Body => return Ok(()),
        }
        self.begun = at;
        Ok(())
    }

    /// A node of this kind ends.
    pub fn end(&mut self, kind: NodeKind)
        ensures { self.new ≡ leaves kind self.old }
    {
        match kind {
            NodeKind::Loop => self.body.end_loop(),
            NodeKind::Switch => self.body.end_switch(),
            NodeKind::Label => self.body.end_label(),
            _ => {}
        }
    }

    /// A function begins.
    pub fn open(&mut self) -> Result<(), Memory>
        ensures { OnOk result (self.new ≡ opens self.old) }
    {
        self.body.begin_statement()?;
        let outer = mem::replace(&mut self.body, OpenBody::new());
        self.outer.push(outer)?;
        Ok(())
    }

    /// The innermost function ends.
    pub fn close(&mut self)
        ensures { self.new ≡ closes self.old }
    {
        if let Some(outer) = self.outer.pop() {
            let _ = mem::replace(&mut self.body, outer);
        }
    }

    /// A label begins.
    pub fn label(&mut self, name: &'a [u8]) -> Result<(), Memory>
        ensures { OnOk result (self.new ≡ labels name.now self.old) }
    {
        if self.body.is_open(name) {
            self.least = with_early(self.least, EarlyKind::DuplicateLabel, self.begun);
        }
        self.body.begin_label(self.alloc, name)
    }

    /// A jump without a label.
    pub fn jump(&mut self, jump: Jump)
        ensures { self.new ≡ jumps jump None self.old }
    {
        if !self.body.leads(jump) {
            self.least = with_early(self.least, bad(jump), self.begun);
        }
    }

    /// A jump with a label.
    pub fn jump_to(&mut self, jump: Jump, name: &[u8])
        ensures { self.new ≡ jumps jump (Some name.now) self.old }
    {
        if !self.body.leads_to(jump, name) {
            self.least = with_early(self.least, bad(jump), self.begun);
        }
    }
}

ghost use Rattle.std.specs.Prelude.{◌≡◌};
ghost use Rattle.hz_tree.specs.errors.Jumps.{bad_jump};

/// The error of a jump that leads nowhere.
fn bad(jump: Jump) -> EarlyKind
    ensures { result ≡ bad_jump jump }
{
    match jump {
        Jump::Break => EarlyKind::BadBreak,
        Jump::Continue => EarlyKind::BadContinue,
    }
}
