use crate::open_labels::OpenLabels;
use hz_list::Memory;
use hz_tree::Jump;
use std::alloc::Global;
use std::marker::Model;

/// What is open in a function, or in the script outside of functions.
#[derive(Drop)]
pub struct OpenBody<'a> {
    /// From the first label on.
    labels: Option<Box<OpenLabels<'a>>>,
    loops: usize,
    switches: usize,
}

impl<'a> Model for OpenBody<'a> {
    ghost use Rattle.hz_errors.specs.Labels.{OpenBody as Known};
    ghost use Rattle.std.specs.Option.{option_map};
    ghost use Rattle.hz_errors.specs.OpenNames.{names_in};

    ghost Value = { Known };

    ghost view = { λ b. record {
      fresh = (names_in (option_map (λ x. x.value) b.labels)).fresh;
      labels = (names_in (option_map (λ x. x.value) b.labels)).labels;
      loops = b.loops;
      switches = b.switches;
    } };
}

impl<'a> OpenBody<'a> {
    ghost use Rattle.std.specs.Prelude.{◌≡◌, ◌-◌, ◌∷◌, true, false, Some, None, OnOk};
    ghost use Rattle.hz_tree.specs.declared.signal.Jump.TheVariants as jump;
    ghost use Rattle.hz_errors.specs.Labels.{nothing_open, is_open as does_hold, leads as does_lead};
    ghost use Rattle.hz_errors.specs.Labels.{settled, in_loop, in_switch, without_label};

    /// Nothing is open. No memory is taken.
    pub fn new() -> OpenBody<'a>
        ensures { result ≡ nothing_open }
    {
        OpenBody {
            labels: None,
            loops: 0,
            switches: 0,
        }
    }

    /// Whether a label of this name is open.
    pub fn is_open(&self, name: &[u8]) -> bool
        ensures { result ≡ does_hold name.now self.now }
    {
        match &self.labels {
            Some(labels) => labels.is_open(name),
            None => false,
        }
    }

    /// Whether a jump without a label leads somewhere.
    pub fn leads(&self, jump: Jump) -> bool
        ensures { result ≡ does_lead jump None self.now }
    {
        match jump {
            Jump::Break => 0 < self.loops || 0 < self.switches,
            Jump::Continue => 0 < self.loops,
        }
    }

    /// Whether a jump with this label leads somewhere.
    pub fn leads_to(&self, jump: Jump, name: &[u8]) -> bool
        ensures { result ≡ does_lead jump (Some name.now) self.now }
    {
        match jump {
            Jump::Break => self.is_open(name),
            Jump::Continue => self.is_on_loop(name),
        }
    }

    /// Whether a label of this name is open whose statement is a loop that has begun.
    fn is_on_loop(&self, name: &[u8]) -> bool
        ensures { result ≡ does_lead jump.Continue (Some name.now) self.now }
    {
        match &self.labels {
            Some(labels) => labels.is_on_loop(name),
            None => false,
        }
    }

    /// Opens a label.
    pub fn begin_label(&mut self, alloc: Global, name: &'a [u8]) -> Result<(), Memory>
        ensures { OnOk result (self.new ≡ record self.old { fresh = name.now ∷ self.old.fresh }) }
    {
        match &mut self.labels {
            Some(labels) => labels.begin(name),
            None => {
                let mut labels = OpenLabels::new(alloc);
                labels.begin(name)?;
                self.labels = Some(Box::new(alloc, labels)?);
                Ok(())
            }
        }
    }

    /// Begins a statement that is neither a loop nor a switch.
    pub fn begin_statement(&mut self) -> Result<(), Memory>
        ensures { OnOk result (self.new ≡ settled false self.old) }
    {
        self.settle(false)
    }

    /// The statement of the fresh labels begins, a loop or another one.
    fn settle(&mut self, on_loop: bool) -> Result<(), Memory>
        ensures { OnOk result (self.new ≡ settled on_loop self.old) }
    {
        match &mut self.labels {
            Some(labels) => labels.settle(on_loop),
            None => Ok(()),
        }
    }

    /// Begins a loop. What counts loops counts more of them than memory could hold.
    pub fn begin_loop(&mut self) -> Result<(), Memory>
        ensures { OnOk result (self.new ≡ in_loop (settled true self.old)) }
    {
        let loops = self.loops.checked_add(1).ok_or(Memory)?;
        self.settle(true)?;
        self.loops = loops;
        Ok(())
    }

    /// Begins a switch.
    pub fn begin_switch(&mut self) -> Result<(), Memory>
        ensures { OnOk result (self.new ≡ in_switch (settled false self.old)) }
    {
        let switches = self.switches.checked_add(1).ok_or(Memory)?;
        self.settle(false)?;
        self.switches = switches;
        Ok(())
    }

    pub fn end_label(&mut self)
        ensures { self.new ≡ without_label self.old }
    {
        if let Some(labels) = &mut self.labels {
            labels.end();
        }
    }

    pub fn end_loop(&mut self)
        ensures { self.new ≡ record self.old { loops = self.old.loops - 1 } }
    {
        self.loops = self.loops.saturating_sub(1);
    }

    pub fn end_switch(&mut self)
        ensures { self.new ≡ record self.old { switches = self.old.switches - 1 } }
    {
        self.switches = self.switches.saturating_sub(1);
    }
}
