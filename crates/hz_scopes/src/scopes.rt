use crate::body::{Block, OpenBody, WaitingFunction, body_of};
use crate::declarations::Declarations;
use crate::here::NamesHere;
use crate::naming::{add_bound, add_declared, add_free, add_here, use_free};
use crate::numbers::stored_number;
use crate::starts::Starts;
use crate::uses::Uses;
use hz_index::ScopeTable;
use hz_list::Memory;
use hz_tree::{BindingKind, DeclarationWord, FunctionKind, Role, ScopeAt, ScopeKind, Signal};
use std::alloc::Global;

/// What is known of the scopes of a source's functions behind some of its events.
#[derive(Drop)]
pub struct OpenScopes<'a> {
    /// The place at which the last node began.
    pub begun: usize,

    pub waiting: WaitingFunction,

    /// The innermost function whose scope has begun.
    pub body: OpenBody,

    /// Those round it, the innermost last.
    pub outer: Vec<OpenBody>,

    /// What the outermost scopes of functions declare.
    pub tops: Declarations<'a>,

    /// What the scopes within declare.
    pub lexical: Declarations<'a>,

    /// The names that are used directly in each open scope.
    pub here: NamesHere<'a>,

    /// All names that are used in each open scope and that none within declares.
    pub uses: Uses<'a>,

    /// Where in the table's list the scopes of each open function start.
    pub listed: Starts,

    pub table: ScopeTable<'a>,
    pub alloc: Global,
}

impl<'a> OpenScopes<'a> {
    ghost use Rattle.std.specs.Prelude.{◌≡◌, ◌<◌, [], ◌∷◌, ◌++◌, Bool, length, drop, OnOk, IfOk};
    ghost use Rattle.hz_scopes.specs.State.{in_body, use_name as with_use, declare as with_declaration};
    ghost use Rattle.hz_scopes.specs.State.{declare_lexical as with_lexical, begin_scope as with_scope};
    ghost use Rattle.hz_scopes.specs.State.{end_scope as with_end_of_scope, place_in};
    ghost use Rattle.hz_scopes.specs.State.{close as with_close, begun as at_start, finished};
    ghost use Rattle.hz_scopes.specs.State.{open_function as with_function, bind as with_role};
    ghost use Rattle.hz_scopes.specs.State.{name_function as with_own_name};
    ghost use Rattle.hz_tree.specs.grammar.Signals.{event};
    ghost use Rattle.hz_scopes.specs.Layers.{closed};
    ghost use Rattle.hz_scopes.specs.Entries.{texts_of};
    ghost use Rattle.hz_scopes.specs.Stored.{shown, at_its_top, IsWhole, Goes};
    ghost use Rattle.hz_scopes.specs.Stored.{free_uses, free_of, with_top_end, with_body_end};
    ghost use Rattle.hz_scopes.specs.Stored.{with_known, leaves, enters, happening};

    /// What is known at the start of a source.
    pub fn new(alloc: Global) -> Result<OpenScopes<'a>, Memory>
        ensures { IfOk result (λ scopes. (shown scopes ≡ at_start) × IsWhole scopes) }
    {
        let mut table = ScopeTable::new(alloc);
        table.add_function()?;
        table.list_scope(ScopeKind::Script, 0, None)?;
        let script = WaitingFunction {
            number: 0,
            start: 0,
            kind: FunctionKind::Script,
            named: false,
        };
        Ok(OpenScopes {
            begun: 0,
            waiting: script,
            body: body_of(alloc, ScopeKind::Script, script, None),
            outer: Vec::new(alloc),
            tops: Declarations::new(alloc),
            lexical: Declarations::new(alloc),
            here: NamesHere::new(alloc),
            uses: Uses::new(alloc),
            listed: Starts::new(alloc),
            table,
            alloc,
        })
    }

    /// Goes on by what the grammar tells at a place, with this text, behind a token that ends there.
    pub fn tell(
        &mut self,
        signal: Signal,
        at: usize,
        text: &'a [u8],
        behind: usize,
    ) -> Result<(), Memory>
        requires { IsWhole self.old }
        ensures { (octal : Bool) → OnOk result (Goes (happening (event signal
            (record { at = at; text = text.now; octal = octal; behind = behind }))) self.old self.new) }
    {
        match signal {
            Signal::Begin(_) => {
                self.begun = at;
                Ok(())
            }
            Signal::Open(_, kind) => self.open_function(kind, at),
            Signal::Enter => self.enter(),
            Signal::Close => self.close(behind),
            Signal::Scope => self.begin_scope(ScopeKind::Block, self.begun),
            Signal::ScopeHere(kind) => self.begin_scope(kind, at),
            Signal::EndScope => self.end_scope(behind),
            Signal::Declare(role) => self.bind(role, text),
            Signal::Name | Signal::Use => self.use_name(text),
            Signal::This => self.use_name(b"this".as_slice()),
            Signal::NewTarget => self.use_name(b"new.target".as_slice()),
            _ => Ok(()),
        }
    }

    /// How many functions are open beside the script.
    pub fn depth(&self) -> usize
        ensures { result ≡ length (shown self.now).known.outer }
    {
        self.outer.len()
    }

    /// The scopes and the free names of all functions of a source of so many bytes.
    pub fn finish(mut self, length: usize) -> Result<ScopeTable<'a>, Memory>
        requires { IsWhole self }
        ensures { IfOk result (λ table. table.functions ≡ finished length (shown self.entry)) }
    {
        self.drop_blocks();
        let _ = self.end_body(length)?;
        Ok(self.table)
    }

    /// A function begins, and waits for its name.
    fn open_function(&mut self, kind: FunctionKind, at: usize) -> Result<(), Memory>
        requires { IsWhole self.old }
        ensures { OnOk result (Goes (with_function kind at) self.old self.new) }
    {
        let number = self.table.functions();
        self.table.add_function()?;
        self.waiting = WaitingFunction {
            number,
            start: at,
            kind,
            named: false,
        };
        Ok(())
    }

    fn bind(&mut self, role: Role, name: &'a [u8]) -> Result<(), Memory>
        requires { IsWhole self.old }
        ensures { OnOk result (Goes (with_role role name.now) self.old self.new) }
    {
        match role {
            Role::Variable(DeclarationWord::Var) => {
                self.declare(BindingKind::Var, name)?;
                self.use_name(name)
            }
            Role::Variable(DeclarationWord::Let) => self.declare(BindingKind::Let, name),
            Role::Variable(DeclarationWord::Const) => self.declare(BindingKind::Const, name),
            Role::Function => self.declare(BindingKind::BlockFunction, name),
            Role::Parameter | Role::RestParameter => self.declare(BindingKind::Parameter, name),
            Role::Caught => self.declare(BindingKind::Caught, name),
            Role::Own => self.name_function(name),
        }
    }

    /// The function that waits is an expression with this name, and a scope for the name stands round it.
    fn name_function(&mut self, name: &'a [u8]) -> Result<(), Memory>
        requires { IsWhole self.old }
        ensures { OnOk result (Goes (with_own_name name.now) self.old self.new) }
    {
        self.waiting.named = true;
        self.begin_scope(ScopeKind::Own, self.waiting.start)?;
        self.declare(BindingKind::Own, name)
    }

    /// A name is used directly in the innermost scope.
    fn use_name(&mut self, name: &'a [u8]) -> Result<(), Memory>
        requires { IsWhole self.old }
        ensures { OnOk result (Goes (in_body (with_use name.now)) self.old self.new) }
    {
        self.here.using(name)?;
        self.uses.push(name, false)?;
        Ok(())
    }

    /// A name is declared: by the function's scope if it is a var, and else by the innermost one.
    fn declare(&mut self, binding: BindingKind, name: &'a [u8]) -> Result<(), Memory>
        requires { IsWhole self.old }
        ensures { OnOk result (Goes (in_body (with_declaration (record { binding = binding; name = name.now })))
            self.old self.new) }
    {
        if is_var(binding) {
            self.tops.declare(binding, name)
        } else {
            self.declare_lexical(binding, name)
        }
    }

    fn declare_lexical(&mut self, binding: BindingKind, name: &'a [u8]) -> Result<(), Memory>
        requires { IsWhole self.old }
        ensures { OnOk result (Goes (in_body (with_lexical (record { binding = binding; name = name.now })))
            self.old self.new) }
    {
        if self.body.blocks.is_empty() {
            self.tops.declare(at_top(binding), name)?;
        } else {
            self.lexical.declare(binding, name)?;
        }
        Ok(())
    }

    /// A scope begins within the innermost one.
    fn begin_scope(&mut self, kind: ScopeKind, start: usize) -> Result<(), Memory>
        requires { IsWhole self.old }
        ensures { OnOk result (Goes (in_body (with_scope kind start)) self.old self.new) }
    {
        let number = stored_number(self.table.listed() - self.listed.innermost())?;
        let parent = innermost_number(&self.body.blocks);
        self.lexical.open()?;
        self.here.open()?;
        self.uses.open()?;
        self.table.list_scope(kind, start, Some(parent))?;
        self.body.blocks.push(Block {
            number,
            kind,
            start,
            parent,
        })?;
        Ok(())
    }

    /// The innermost scope ends, but that of the function.
    fn end_scope(&mut self, end: usize) -> Result<(), Memory>
        requires { IsWhole self.old }
        ensures { OnOk result (Goes (in_body (with_end_of_scope end)) self.old self.new) }
    {
        let Some(block) = self.body.blocks.pop() else {
            return Ok(());
        };
        add_declared(&mut self.table, &mut self.uses, &self.lexical)?;
        add_here(
            &mut self.table,
            &self.here,
            &self.lexical,
            self.body.binds,
            false,
        )?;
        let place = place_of(self.listed.innermost(), block.number)?;
        self.table.end_scope(place, end);
        self.lexical.close();
        self.here.close();
        self.uses.join();
        Ok(())
    }

    /// The scopes within the outermost one of the innermost function go, with all that they hold.
    fn drop_blocks(&mut self)
        requires { IsWhole self.old }
        ensures gone { Goes (in_body at_its_top) self.old self.new }
        ensures none { self.new.body.blocks.items ≡ [] }
        ensures outer { self.new.outer ≡ self.old.outer }
    {
        while !self.body.blocks.is_empty() {
            self.drop_block();
        }
    }

    /// The innermost scope goes, with all that it holds.
    fn drop_block(&mut self)
        requires within { 0 < length self.old.body.blocks.items }
        requires whole { IsWhole self.old }
        ensures fewer { length self.new.body.blocks.items < length self.old.body.blocks.items }
        ensures top { in_body at_its_top (shown self.new) ≡ in_body at_its_top (shown self.old) }
        ensures whole { IsWhole self.new }
        ensures outer { self.new.outer ≡ self.old.outer }
    {
        let _ = self.body.blocks.pop();
        self.lexical.close();
        self.here.close();
        self.uses.close();
    }

    /// The outermost scope of the innermost function ends, with its names, and no use of what it declares is left.
    fn end_top(&mut self, end: usize) -> Result<(), Memory>
        requires { IsWhole self.old }
        ensures { OnOk result (self.new ≡ record self.old {
          table = with_top_end end self.old;
          uses = record self.old.uses { inner = free_uses self.old };
        }) }
    {
        let binds = self.body.binds;
        let arguments = add_bound(&mut self.table, &mut self.uses, binds)?;
        add_declared(&mut self.table, &mut self.uses, &self.tops)?;
        add_here(&mut self.table, &self.here, &self.tops, binds, arguments)?;
        self.table.end_scope(self.listed.innermost(), end);
        Ok(())
    }

    /// The innermost function ends, and all about it goes to the table. Gives the names that are free in it.
    fn end_body(&mut self, end: usize) -> Result<Vec<&'a [u8]>, Memory>
        requires { IsWhole self.old }
        ensures known { OnOk result (self.new ≡ record self.old {
          table = with_body_end end self.old;
          uses = record self.old.uses { inner = free_uses self.old };
        }) }
        ensures free { IfOk result (λ names. texts_of names.items ≡ free_of self.old) }
    {
        self.end_top(end)?;
        let free = self.uses.names(self.alloc)?;
        add_free(&mut self.table, &free)?;
        self.table.end_function(
            self.body.number,
            self.listed.innermost(),
            self.body.around,
            self.body.binds,
        )?;
        Ok(free)
    }

    /// The function round the innermost one is the innermost one now.
    fn leave(&mut self)
        requires { 0 < length self.old.outer.items }
        ensures popped { self.old.outer.items ≡ self.new.outer.items ++ self.new.body ∷ [] }
        ensures left { self.new ≡ record self.old {
          body = self.new.body;
          outer = self.new.outer;
          tops = closed self.old.tops;
          here = closed self.old.here;
          uses = closed self.old.uses;
          listed = drop 1 self.old.listed;
        } }
    {
        if let Some(outer) = self.outer.pop() {
            self.body = outer;
        }
        self.tops.close();
        self.here.close();
        self.uses.close();
        self.listed.close();
    }

    /// The innermost function ends, and what is free in it is used in the one round it.
    fn end_innermost(&mut self, end: usize) -> Result<(), Memory>
        requires within { 0 < length self.old.outer.items }
        requires whole { IsWhole self.old }
        ensures { OnOk result (Goes (with_known (leaves end)) self.old self.new) }
    {
        self.drop_blocks();
        let free = self.end_body(end)?;
        self.leave();
        use_free(&mut self.uses, &free)?;
        Ok(())
    }

    /// The innermost function ends, but the script.
    fn close(&mut self, end: usize) -> Result<(), Memory>
        requires { IsWhole self.old }
        ensures { OnOk result (Goes (with_known (with_close end)) self.old self.new) }
    {
        if self.outer.is_empty() {
            return Ok(());
        }
        let named = self.body.named;
        self.end_innermost(end)?;
        if named {
            self.end_scope(end)?;
        }
        Ok(())
    }

    /// The innermost scope of all that are open.
    #[tactic(auto, using(crate::proofs::ShownLemmas::number_shown))]
    fn innermost_scope(&self) -> ScopeAt
        ensures { result ≡ place_in (shown self.now).known.body }
    {
        ScopeAt {
            function: self.body.number,
            scope: innermost_number(&self.body.blocks),
        }
    }

    /// The scope of the function that waits begins.
    fn enter(&mut self) -> Result<(), Memory>
        requires { IsWhole self.old }
        ensures { OnOk result (Goes enters self.old self.new) }
    {
        let around = self.innermost_scope();
        self.listed.open(self.table.listed())?;
        self.tops.open()?;
        self.here.open()?;
        self.uses.open()?;
        let waiting = self.waiting;
        self.table
            .list_scope(ScopeKind::Function, waiting.start, None)?;
        let body = body_of(self.alloc, ScopeKind::Function, waiting, Some(around));
        let outer = std::mem::replace(&mut self.body, body);
        self.outer.push(outer)?;
        Ok(())
    }
}

ghost use Rattle.std.specs.Prelude.{◌≡◌, ◌+◌, List, ℕ, reverse, IfOk};
ghost use Rattle.hz_tree.specs.errors.Declarations.{is_var as names_var};
ghost use Rattle.hz_tree.specs.trees.FunctionScopes.{at_top as as_at_top};
ghost use Rattle.hz_scopes.specs.Stored.{number_of};

fn is_var(binding: BindingKind) -> bool
    ensures { result ≡ names_var binding }
{
    matches!(binding, BindingKind::Var)
}

/// How a name is declared at the top of a function or of the script: a function declaration is a var there.
fn at_top(binding: BindingKind) -> BindingKind
    ensures { (name : List ℕ) → as_at_top (record { binding = binding; name = name })
        ≡ record { binding = result; name = name } }
{
    match binding {
        BindingKind::BlockFunction => BindingKind::Var,
        _ => binding,
    }
}

/// The number of the innermost scope of a function in which these are open.
#[tactic(auto, using(crate::proofs::KeptLemmas::last_number))]
fn innermost_number(blocks: &[Block]) -> u32
    ensures { result ≡ number_of (reverse blocks.now) }
{
    match blocks.last() {
        Some(block) => block.number,
        None => 0,
    }
}

/// The place of a scope in the table's list. Memory for a list that would be longer is never there.
fn place_of(first: usize, number: u32) -> Result<usize, Memory>
    ensures { IfOk result (λ place. place ≡ first + number) }
{
    first.checked_add(number as usize).ok_or(Memory)
}
