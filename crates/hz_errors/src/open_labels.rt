use hz_early::Names;
use hz_list::Memory;
use std::alloc::Global;
use std::marker::Model;

/// A label that is open.
#[derive(Clone, Copy)]
pub struct Label<'a> {
    pub name: &'a [u8],

    /// Whether its statement is a loop, once that has begun.
    pub on_loop: bool,
}

/// The labels that are open in a function.
#[derive(Drop)]
pub struct OpenLabels<'a> {
    /// The outermost first.
    labels: Vec<Label<'a>>,

    /// How many of them have a statement that has begun. The others are fresh.
    settled: usize,

    /// The names of all labels.
    names: Names<'a>,

    /// The names of those whose statement is a loop that has begun.
    loop_names: Names<'a>,
}

impl<'a> Model for OpenLabels<'a> {
    ghost use Rattle.hz_errors.specs.OpenNames.{OpenNames, fresh_of, labels_of, IsNamed};

    ghost Value = { OpenNames };

    ghost view = { λ o. record {
      fresh = fresh_of o.settled o.labels.items;
      labels = labels_of o.settled o.labels.items;
    } };

    ghost invariant = { λ o. IsNamed o.labels.items o.settled o.names o.loop_names };
}

impl<'a> OpenLabels<'a> {
    ghost use Rattle.std.specs.Prelude.{◌≡◌, ◌+◌, ◌<◌, ◌↔◌, [], ◌∷◌, ◌++◌, length, IsTrue, OnOk};
    ghost use Rattle.hz_tree.specs.errors.Scopes.{occurs};
    ghost use Rattle.hz_errors.specs.Labels.{names, loop_names};
    ghost use Rattle.hz_errors.specs.OpenNames.{no_names, settled_names, without_name};

    /// No label is open. No memory is taken.
    pub fn new(alloc: Global) -> OpenLabels<'a>
        ensures { result ≡ no_names }
    {
        OpenLabels {
            labels: Vec::new(alloc),
            settled: 0,
            names: Names::new(alloc),
            loop_names: Names::new(alloc),
        }
    }

    /// Whether a label of this name is open.
    pub fn is_open(&self, name: &[u8]) -> bool
        ensures { result ≡ occurs name.now (self.now.fresh ++ names self.now.labels) }
    {
        self.names.occurs_from(0, name)
    }

    /// Whether a label of this name is open whose statement is a loop that has begun.
    pub fn is_on_loop(&self, name: &[u8]) -> bool
        ensures { result ≡ occurs name.now (loop_names self.now.labels) }
    {
        self.loop_names.occurs_from(0, name)
    }

    /// Opens a label.
    pub fn begin(&mut self, name: &'a [u8]) -> Result<(), Memory>
        ensures { OnOk result (self.new ≡ record {
          fresh = name.now ∷ self.old.fresh;
          labels = self.old.labels;
        }) }
    {
        self.labels.reserve(1)?;
        self.names.push(name)?;
        self.labels.push(Label {
            name,
            on_loop: false,
        })?;
        Ok(())
    }

    /// The statement of the fresh labels begins, a loop or another one.
    pub fn settle(&mut self, on_loop: bool) -> Result<(), Memory>
        ensures { OnOk result (self.new ≡ settled_names on_loop self.old) }
    {
        while !self.is_settled() {
            self.settle_first(on_loop)?;
        }
        Ok(())
    }

    /// Closes the innermost label.
    pub fn end(&mut self)
        ensures { self.new ≡ without_name self.old }
    {
        if let Some(label) = self.labels.pop() {
            let outer = self.labels.len();
            self.names.truncate(outer);
            if outer < self.settled {
                self.settled = outer;
                if label.on_loop {
                    let loops = self.loop_names.len();
                    self.loop_names.truncate(loops.saturating_sub(1));
                }
            }
        }
    }

    fn is_settled(&self) -> bool
        ensures { IsTrue result ↔ (self.now.fresh ≡ []) }
    {
        self.labels.len() <= self.settled
    }

    /// The statement of the outermost fresh label begins.
    fn settle_first(&mut self, on_loop: bool) -> Result<(), Memory>
        requires { 0 < length self.old.fresh }
        ensures same { OnOk result (settled_names on_loop self.new ≡ settled_names on_loop self.old) }
        ensures fewer { OnOk result (length self.new.fresh + 1 ≡ length self.old.fresh) }
    {
        let place = self.settled;
        let name = self.labels[place].name;
        if on_loop {
            self.loop_names.push(name)?;
        }
        self.labels[place].on_loop = on_loop;
        self.settled = place + 1;
        Ok(())
    }
}
