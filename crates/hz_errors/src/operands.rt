use crate::eval::is_eval;
use crate::functions::{OpenFunctions, Opened};
use crate::least::{with_early, with_profile};
use crate::operand_entries::{Entries, Entry, KeptShape};
use crate::proto::{is_proto, is_proto_text};
use hz_list::Memory;
use hz_tree::{EarlyKind, NodeKind, NodeShape, ProfileKind, UnaryOperator};
use std::alloc::Global;
use std::marker::Model;

/// Finds what operators, literals and directives say against a source, and whether the script says "use strict".
#[derive(Debug, Drop)]
pub struct Operands<'a> {
    /// The nodes in hand and the operands that are complete.
    entries: Entries<'a>,

    /// The functions that have not ended, with the script.
    functions: OpenFunctions,

    early: Option<(EarlyKind, usize)>,
    profile: Option<(ProfileKind, usize)>,
}

impl<'a> Model for Operands<'a> {
    ghost use Rattle.hz_errors.specs.Operands.{Operands as Seen};

    ghost Value = { Seen };

    ghost view = { λ o. record { entries = o.entries; functions = o.functions; early = o.early; profile = o.profile } };
}

impl<'a> Operands<'a> {
    ghost use Rattle.std.specs.Prelude.{◌≡◌, Some, drop, OnOk, OnErr, IfOk};
    ghost use Rattle.hz_tree.specs.errors.Targets.{plain, another, Directive, directive_by, target_errors, octal_errors};
    ghost use Rattle.hz_tree.specs.errors.Targets.{an_early, a_profile, unary_errors, member, call, chained};
    ghost use Rattle.hz_tree.specs.errors.Targets.{is_proto as says_proto};
    ghost use Rattle.hz_tree.specs.tokens.Values.{text_value};
    ghost use Rattle.hz_errors.specs.Operands.{begun, noting, pushed, popped, changed, as_node, as_tailed, as_marked};
    ghost use Rattle.hz_errors.specs.Operands.{begins, directing, directing_by, errors_of_first, with_entries, enclosed};
    ghost use Rattle.hz_errors.specs.Operands.{operator_errors, proto_errors, change_innermost, with_functions};
    ghost use Rattle.hz_errors.specs.Operands.{with_rest, with_prologue, is_strict as says_strict, opened};
    ghost use Rattle.hz_errors.specs.OperandEntries.{shape_seen, operand_seen};

    /// The script alone, with nothing found.
    pub fn new(alloc: Global) -> Result<Operands<'a>, Memory>
        ensures { IfOk result (λ operands. operands ≡ begun) }
    {
        let mut functions = OpenFunctions::new(alloc);
        functions.open(Opened {
            prologue: false,
            rest: false,
            strict: false,
        })?;
        Ok(Operands {
            entries: Entries::new(alloc),
            functions,
            early: None,
            profile: None,
        })
    }

    /// The least early error that was found.
    pub fn early(&self) -> Option<(EarlyKind, usize)>
        ensures { result ≡ self.now.early }
    {
        self.early
    }

    /// The least place at which the profile is left.
    pub fn profile(&self) -> Option<(ProfileKind, usize)>
        ensures { result ≡ self.now.profile }
    {
        self.profile
    }

    /// Whether the script says "use strict".
    pub fn is_strict(&self) -> bool
        ensures { result ≡ says_strict self.now }
    {
        match self.functions.innermost() {
            Some(function) => function.strict,
            None => false,
        }
    }

    // ---- errors

    fn note_early(&mut self, kind: EarlyKind, at: usize)
        ensures { self.new ≡ noting (an_early (kind, at)) self.old }
    {
        self.early = with_early(self.early, kind, at);
    }

    fn note_profile(&mut self, kind: ProfileKind, at: usize)
        ensures { self.new ≡ noting (a_profile (kind, at)) self.old }
    {
        self.profile = with_profile(self.profile, kind, at);
    }

    /// A literal stands here, which is octal or not.
    pub fn note_octal(&mut self, octal: bool, at: usize)
        ensures { self.new ≡ noting (octal_errors octal at) self.old }
    {
        if octal {
            self.note_early(EarlyKind::LegacyOctal, at);
        }
    }

    // ---- entries

    /// An operand is complete, or a node begins.
    pub fn push(&mut self, at: usize, shape: KeptShape<'a>) -> Result<(), Memory>
        ensures { OnOk result (self.new ≡ pushed (plain at (shape_seen shape.entry)) self.old) }
    {
        self.entries.push(Entry::plain(at, shape))
    }

    /// The uppermost entry is one node more.
    pub fn node(&mut self, shape: NodeShape)
        ensures { self.new ≡ changed (as_node shape) self.old }
    {
        match shape {
            NodeShape::Other => self.entries.shape(KeptShape::Other),
            NodeShape::Pattern => self.entries.shape(KeptShape::Pattern),
            NodeShape::Same => {}
        }
    }

    /// The uppermost entry goes into the one below it.
    pub fn pop(&mut self)
        ensures { self.new ≡ popped self.old }
    {
        self.entries.pop();
    }

    /// The uppermost entry goes into the parentheses that the one below it stands for.
    pub fn parentheses(&mut self)
        ensures { self.new ≡ with_entries (enclosed self.old.entries) self.old }
    {
        self.entries.enclose();
    }

    /// A member stands behind the uppermost entry.
    pub fn member(&mut self)
        ensures { self.new ≡ changed (as_tailed member) self.old }
    {
        self.entries.member();
    }

    /// A call stands behind the uppermost entry.
    pub fn call(&mut self)
        ensures { self.new ≡ changed (as_tailed call) self.old }
    {
        self.entries.call();
    }

    /// An optional member or call stands behind the uppermost entry.
    pub fn chain(&mut self)
        ensures { self.new ≡ changed (as_tailed chained) self.old }
    {
        self.entries.chain();
    }

    /// The key of the uppermost entry is this word.
    pub fn word_key(&mut self, word: &[u8])
        ensures { self.new ≡ changed (as_marked (says_proto word.now)) self.old }
    {
        self.entries.mark(is_proto(word));
    }

    /// The key of the uppermost entry is this text, as it is written.
    pub fn text_key(&mut self, written: &[u8], octal: bool, at: usize)
        ensures { self.new ≡ noting (octal_errors octal at)
            (changed (as_marked (says_proto (text_value written.now))) self.old) }
    {
        self.entries.mark(is_proto_text(written));
        self.note_octal(octal, at);
    }

    // ---- functions and directives

    fn set_prologue(&mut self, prologue: bool)
        ensures { self.new ≡ with_functions (change_innermost (with_prologue prologue) self.old.functions) self.old }
    {
        if let Some(function) = self.functions.innermost() {
            self.functions.replace(Opened {
                prologue,
                ..function
            });
        }
    }

    /// The innermost function has a rest parameter.
    pub fn set_rest(&mut self)
        ensures { self.new ≡ with_functions (change_innermost with_rest self.old.functions) self.old }
    {
        if let Some(function) = self.functions.innermost() {
            self.functions.replace(Opened {
                rest: true,
                ..function
            });
        }
    }

    /// A node of this kind begins.
    pub fn begin(&mut self, kind: NodeKind, at: usize) -> Result<(), Memory>
        ensures { OnOk result (self.new ≡ pushed (plain at another) (begins kind self.old)) }
    {
        self.begin_node(kind);
        self.push(at, KeptShape::Other)
    }

    /// What a node of this kind says of directives.
    fn begin_node(&mut self, kind: NodeKind)
        ensures { self.new ≡ begins kind self.old }
    {
        match kind {
            NodeKind::Statement | NodeKind::Loop | NodeKind::Switch | NodeKind::Label => {
                self.set_prologue(false)
            }
            NodeKind::Body => self.set_prologue(true),
            NodeKind::Expression | NodeKind::Operand | NodeKind::Part => {}
        }
    }

    /// A function begins, as a node of this kind.
    pub fn open(&mut self, kind: NodeKind, at: usize) -> Result<(), Memory>
        ensures { OnOk result (self.new ≡ opened kind at self.old) }
    {
        self.begin_node(kind);
        self.functions.open(Opened {
            prologue: false,
            rest: false,
            strict: false,
        })?;
        self.push(at, KeptShape::Other)
    }

    /// The innermost function ends.
    pub fn close(&mut self)
        ensures { self.new ≡ with_functions (drop 1 self.old.functions) self.old }
    {
        self.functions.close();
    }

    /// A statement is a text alone.
    fn directive(&mut self, at: usize, written: &[u8])
        ensures { self.new ≡ directing (Some (record { at = at; written = written.now })) self.old }
    {
        if let Some(function) = self.functions.innermost() {
            let said = is_use_strict(written);
            self.functions.replace(Opened {
                strict: function.strict || (function.prologue && said),
                ..function
            });
            if function.prologue && (function.rest && said) {
                self.note_early(EarlyKind::UseStrictInBody, at);
            }
        }
    }

    /// A statement is the uppermost operand.
    pub fn direct(&mut self)
        ensures { self.new ≡ directing_by self.old.entries self.old }
    {
        if let Some(top) = self.entries.top() {
            match top.shape {
                KeptShape::Text(written) if !top.parenthesised => self.directive(top.at, written),
                _ => self.set_prologue(false),
            }
        }
    }

    // ---- operators

    /// This operand is a target.
    fn check_target(&mut self, pattern: bool, operand: Entry<'a>)
        ensures { self.new ≡ noting (target_errors pattern (operand_seen operand.entry)) self.old }
    {
        match operand.shape {
            KeptShape::Name(at, name) => {
                if is_eval(name) {
                    self.note_early(EarlyKind::EvalOrArguments, at);
                }
            }
            KeptShape::Property => {}
            KeptShape::Pattern if pattern && !operand.parenthesised => {
                self.note_profile(ProfileKind::Pattern, operand.at)
            }
            _ => self.note_early(EarlyKind::Target, operand.at),
        }
    }

    /// The uppermost operand is a target.
    pub fn target(&mut self, pattern: bool)
        ensures { self.new ≡ noting (errors_of_first (λ top. target_errors pattern top.operand) self.old.entries) self.old }
    {
        if let Some(top) = self.entries.top() {
            self.check_target(pattern, top);
        }
    }

    /// The operand of an operator that stands at a place.
    fn check_unary(&mut self, operator: UnaryOperator, at: usize, operand: Entry<'a>)
        ensures { self.new ≡ noting (unary_errors at operator (operand_seen operand.entry)) self.old }
    {
        match operator {
            UnaryOperator::Delete => {
                if matches!(operand.shape, KeptShape::Name(_, _)) {
                    self.note_early(EarlyKind::DeleteName, at);
                }
            }
            UnaryOperator::Increment | UnaryOperator::Decrement => {
                self.check_target(false, operand)
            }
            _ => {}
        }
    }

    /// The uppermost operand is that of the operator below it.
    pub fn unary(&mut self, operator: UnaryOperator)
        ensures { self.new ≡ noting (operator_errors operator self.old.entries) self.old }
    {
        if let Some(top) = self.entries.top() {
            if let Some(at) = self.entries.place_below() {
                self.check_unary(operator, at, top);
            }
        }
    }

    /// A value stands behind the key of the uppermost entry.
    pub fn valued(&mut self)
        ensures { self.new ≡ noting (errors_of_first proto_errors self.old.entries) self.old }
    {
        if let Some(top) = self.entries.top() {
            if top.proto {
                self.note_profile(ProfileKind::Proto, top.at);
            }
        }
    }
}

ghost use Rattle.std.specs.Prelude.{◌≡◌};
ghost use Rattle.hz_tree.specs.errors.Targets.{is_use_strict as says_use_strict};

/// Whether a text, as it is written, is the directive that makes code strict.
fn is_use_strict(written: &[u8]) -> bool
    ensures { result ≡ says_use_strict written.now }
{
    b"\"use strict\"".as_slice() == written || b"'use strict'".as_slice() == written
}
