ghost use Rattle.std.specs.Prelude.{◌≡◌, ◌∷◌, [], OnOk, OnErr};
ghost use Rattle.hz_tree.specs.errors.Scopes.{holds_vars as does_hold_vars, lexical_errors};
ghost use Rattle.hz_early.specs.Stack.{marks_of, scope_of, names_outside, with_name, stored_errors};
ghost use Rattle.hz_early.specs.Stack.{stored_var_errors, first_of};

use crate::names::Names;
use hz_list::Memory;
use hz_tree::{BindingKind, EarlyKind, ScopeKind};
use std::alloc::Global;

/// How many names of each sort there are.
#[derive(Clone, Copy)]
pub struct Marks {
    pub parameters: usize,
    pub caught: usize,
    pub lexical: usize,
    pub vars: usize,
}

/// A scope that is open.
#[derive(Clone, Copy)]
pub struct OpenScope {
    pub kind: ScopeKind,

    /// The names that were declared when it began.
    pub start: Marks,

    /// The names that were declared when the scope of its function began, or the outermost one outside functions.
    pub function: Marks,
}

/// The names that the open scopes declare, the outermost scope's first.
#[derive(Drop)]
pub struct Bindings<'a> {
    pub parameters: Names<'a>,
    pub caught: Names<'a>,
    pub lexical: Names<'a>,
    pub vars: Names<'a>,
}

impl<'a> Bindings<'a> {
    /// No names.
    pub fn new(alloc: Global) -> Bindings<'a>
        ensures { result ≡ record { parameters = []; caught = []; lexical = []; vars = [] } }
    {
        Bindings {
            parameters: Names::new(alloc),
            caught: Names::new(alloc),
            lexical: Names::new(alloc),
            vars: Names::new(alloc),
        }
    }

    /// How many names of each sort there are.
    pub fn marks(&self) -> Marks
        ensures { result ≡ marks_of self.now }
    {
        Marks {
            parameters: self.parameters.len(),
            caught: self.caught.len(),
            lexical: self.lexical.len(),
            vars: self.vars.len(),
        }
    }

    /// Takes back what the innermost scope declares. Vars stay, as the scopes round it declare them too, unless it is
    /// their function's.
    pub fn take_back(&mut self, scope: &OpenScope)
        ensures { self.new ≡ names_outside scope.now self.old }
    {
        self.parameters.truncate(scope.start.parameters);
        self.caught.truncate(scope.start.caught);
        self.lexical.truncate(scope.start.lexical);
        if holds_vars(scope.kind) {
            self.vars.truncate(scope.start.vars);
        }
    }

    /// Adds a name. After Memory all is as before.
    pub fn push(&mut self, kind: BindingKind, name: &'a [u8]) -> Result<(), Memory>
        ensures ok { OnOk result (self.new ≡ with_name kind name.now self.old) }
        ensures err { OnErr result (self.new ≡ self.old) }
    {
        match kind {
            BindingKind::Var => self.vars.push(name),
            BindingKind::Let | BindingKind::Const | BindingKind::BlockFunction => {
                self.lexical.push(name)
            }
            BindingKind::Parameter => self.parameters.push(name),
            BindingKind::Caught => self.caught.push(name),
            BindingKind::Own | BindingKind::Activation => Ok(()),
        }
    }

    /// The first error, in the order of the kinds, that a name makes which the innermost scope declares now.
    pub fn error(&self, scope: &OpenScope, kind: BindingKind, name: &[u8]) -> Option<EarlyKind>
        ensures { result ≡ first_of (stored_errors kind name.now scope.now self.now) }
    {
        match kind {
            BindingKind::Var => self.var_error(scope, name),
            BindingKind::Let | BindingKind::Const | BindingKind::BlockFunction => {
                self.lexical_error(scope, name)
            }
            BindingKind::Parameter => {
                let twice = self.parameters.occurs_from(scope.start.parameters, name);
                twice.then_some(EarlyKind::DuplicateParameter)
            }
            BindingKind::Caught => {
                let twice = self.caught.occurs_from(scope.start.caught, name);
                twice.then_some(EarlyKind::DuplicateLexical)
            }
            BindingKind::Own | BindingKind::Activation => None,
        }
    }

    fn var_error(&self, scope: &OpenScope, name: &[u8]) -> Option<EarlyKind>
        ensures { result ≡ first_of (stored_var_errors name.now scope.now self.now) }
    {
        if self.lexical.occurs_from(scope.function.lexical, name) {
            Some(EarlyKind::LexicalVarClash)
        } else if self.caught.occurs_from(scope.function.caught, name) {
            Some(EarlyKind::CatchClash)
        } else {
            None
        }
    }

    fn lexical_error(&self, scope: &OpenScope, name: &[u8]) -> Option<EarlyKind>
        ensures { result ≡ first_of (lexical_errors name.now (scope_of scope.now self.now ∷ [])) }
    {
        if self.lexical.occurs_from(scope.start.lexical, name) {
            Some(EarlyKind::DuplicateLexical)
        } else if self.vars.occurs_from(scope.start.vars, name) {
            Some(EarlyKind::LexicalVarClash)
        } else if self.parameters.occurs_from(scope.start.parameters, name) {
            Some(EarlyKind::ParameterClash)
        } else if self.caught.occurs_from(scope.start.caught, name) {
            Some(EarlyKind::CatchClash)
        } else {
            None
        }
    }
}

/// Whether the vars of the scope go no further out.
pub fn holds_vars(kind: ScopeKind) -> bool
    ensures { result ≡ does_hold_vars kind }
{
    matches!(kind, ScopeKind::Script | ScopeKind::Function)
}
