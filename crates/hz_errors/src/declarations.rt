use crate::eval::is_eval;
use crate::least::with_profile;
use hz_early::{EarlySet, ScopeEvent};
use hz_list::Memory;
use hz_tree::{BindingKind, DeclarationWord, EarlyKind, NodeKind, ProfileKind, Role, ScopeKind};
use std::alloc::Global;
use std::marker::Model;

/// Where a declaration stands: what is known of the innermost scope.
#[derive(Clone, Copy)]
pub struct Site {
    /// The scope is that of a function or of the script.
    pub holds_vars: bool,

    /// A var that it declares is one of the script.
    pub of_script: bool,
}

/// Finds the errors of declarations, and the names that the script may not declare.
#[derive(Drop)]
pub struct Declarations<'a> {
    /// What the open scopes declare.
    scopes: EarlySet<'a>,

    /// One for each open scope, the innermost last.
    sites: Vec<Site>,

    /// The place of the last name that was bound.
    bound: usize,

    profile: Option<(ProfileKind, usize)>,
}

impl<'a> Model for Declarations<'a> {
    ghost use Rattle.std.specs.Prelude.{reverse};
    ghost use Rattle.hz_errors.specs.Declarations.{Declared};

    ghost Value = { Declared };

    ghost view = { λ d. record { sites = reverse d.sites.items; known = d.scopes; bound = d.bound; profile = d.profile } };
}

impl<'a> Declarations<'a> {
    ghost use Rattle.std.specs.Prelude.{◌≡◌, ◌∷◌, [], OnOk};
    ghost use Rattle.hz_tree.specs.errors.Declarations.{declares};
    ghost use Rattle.hz_early.specs.Events.{with_declaration};
    ghost use Rattle.hz_errors.specs.Declarations.{begun, opens, closes, begins, innermost as innermost_of};
    ghost use Rattle.hz_errors.specs.Declarations.{bind as with_bound, with_name, declare as with_declared, bare};
    ghost use Rattle.hz_errors.specs.Declarations.{globals_noted};

    /// No scope is open, and nothing is found. No memory is taken.
    pub fn new(alloc: Global) -> Declarations<'a>
        ensures { result ≡ begun }
    {
        Declarations {
            scopes: EarlySet::new(alloc),
            sites: Vec::new(alloc),
            bound: 0,
            profile: None,
        }
    }

    /// The least early error that was found.
    pub fn early(&self) -> Option<(EarlyKind, usize)>
        ensures { result ≡ self.now.known.least }
    {
        self.scopes.least()
    }

    /// The first place at which the script declares a name that it may not declare.
    pub fn profile(&self) -> Option<(ProfileKind, usize)>
        ensures { result ≡ self.now.profile }
    {
        self.profile
    }

    /// A node of this kind begins.
    pub fn begin(&mut self, kind: NodeKind) -> Result<(), Memory>
        ensures { OnOk result (self.new ≡ begins kind self.old) }
    {
        match kind {
            NodeKind::Body if self.sites.is_empty() => self.open(ScopeKind::Script),
            _ => Ok(()),
        }
    }

    /// A scope of this kind begins.
    pub fn open(&mut self, kind: ScopeKind) -> Result<(), Memory>
        ensures { OnOk result (self.new ≡ opens kind self.old) }
    {
        let site = site_in(kind, self.innermost());
        self.scopes.event(ScopeEvent::Open(kind))?;
        self.sites.push(site)?;
        Ok(())
    }

    /// The innermost scope ends.
    pub fn close(&mut self) -> Result<(), Memory>
        ensures { OnOk result (self.new ≡ closes self.old) }
    {
        self.scopes.event(ScopeEvent::Close)?;
        let _ = self.sites.pop();
        Ok(())
    }

    /// A name is bound.
    pub fn declare(&mut self, role: Role, name: &'a [u8], at: usize) -> Result<(), Memory>
        ensures { OnOk result (self.new ≡ with_declared role (record { at = at; name = name.now }) self.old) }
    {
        self.bind(name, at)?;
        match role {
            Role::Variable(DeclarationWord::Var) => self.name(BindingKind::Var, name, at),
            Role::Variable(DeclarationWord::Let) => self.name(BindingKind::Let, name, at),
            Role::Variable(DeclarationWord::Const) => self.name(BindingKind::Const, name, at),
            Role::Function => self.name(BindingKind::BlockFunction, name, at),
            Role::Parameter | Role::RestParameter => self.name(BindingKind::Parameter, name, at),
            Role::Caught => self.name(BindingKind::Caught, name, at),
            Role::Own => Ok(()),
        }
    }

    /// A name is bound, in whatever scope.
    fn bind(&mut self, name: &[u8], at: usize) -> Result<(), Memory>
        ensures { OnOk result (self.new ≡ with_bound (record { at = at; name = name.now }) self.old) }
    {
        self.bound = at;
        if is_eval(name) {
            self.scopes
                .event(ScopeEvent::Found(EarlyKind::EvalOrArguments, at))?;
        }
        Ok(())
    }

    /// The innermost scope declares a name.
    fn name(&mut self, kind: BindingKind, name: &'a [u8], at: usize) -> Result<(), Memory>
        ensures { OnOk result (self.new ≡ with_name (declares kind (record { at = at; name = name.now })) self.old) }
    {
        let site = self.innermost();
        self.profile = with_global(self.profile, site, kind, name, at);
        let kind = declared_at(site, kind);
        self.scopes.event(ScopeEvent::Declare { kind, name, at })
    }

    /// The name that was bound last is a `const` without a value.
    pub fn find_bare(&mut self) -> Result<(), Memory>
        ensures { OnOk result (self.new ≡ bare self.old) }
    {
        self.scopes.event(ScopeEvent::Found(EarlyKind::ConstWithoutValue, self.bound))
    }

    fn innermost(&self) -> Site
        ensures { result ≡ innermost_of self.now.sites }
    {
        match self.sites.last() {
            Some(site) => *site,
            None => Site {
                holds_vars: false,
                of_script: false,
            },
        }
    }
}

ghost use Rattle.std.specs.Prelude.{◌≡◌, ◌∷◌, [], ℕ, List};
ghost use Rattle.hz_tree.specs.errors.Declarations.{declares};
ghost use Rattle.hz_tree.specs.errors.Sources.{is_fixed_global as names_fixed_global};
ghost use Rattle.hz_errors.specs.Declarations.{site_in as the_site_in, declared_at as as_declared, globals_noted};

fn site_in(kind: ScopeKind, outer: Site) -> Site
    ensures { result ≡ the_site_in kind outer }
{
    match kind {
        ScopeKind::Script => Site {
            holds_vars: true,
            of_script: true,
        },
        ScopeKind::Function => Site {
            holds_vars: true,
            of_script: false,
        },
        ScopeKind::Own | ScopeKind::Block | ScopeKind::Catch => Site {
            holds_vars: false,
            of_script: outer.of_script,
        },
    }
}

/// How a name is declared at a site. At the top of a function or of the script a function declaration is a var.
fn declared_at(site: Site, kind: BindingKind) -> BindingKind
    ensures { (name : List ℕ) (at : ℕ)
        → as_declared site (record { binding = kind; name = name; at = at })
        ≡ record { binding = result; name = name; at = at } }
{
    match kind {
        BindingKind::BlockFunction if site.holds_vars => BindingKind::Var,
        _ => kind,
    }
}

/// With the error of a name where the script declares it, and may not.
fn with_global(
    profile: Option<(ProfileKind, usize)>,
    site: Site,
    kind: BindingKind,
    name: &[u8],
    at: usize,
) -> Option<(ProfileKind, usize)>
    ensures { result ≡ globals_noted site (declares kind (record { at = at; name = name.now }) ∷ []) profile }
{
    let of_script = site.of_script && (site.holds_vars || matches!(kind, BindingKind::Var));
    if of_script && is_fixed_global(name) {
        with_profile(profile, ProfileKind::GlobalName, at)
    } else {
        profile
    }
}

/// Whether it is one of the globals that no declaration of the script may name.
fn is_fixed_global(name: &[u8]) -> bool
    ensures { result ≡ names_fixed_global name.now }
{
    name == b"undefined".as_slice() || name == b"NaN".as_slice() || name == b"Infinity".as_slice()
}
