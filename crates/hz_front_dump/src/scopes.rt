ghost use Rattle.std.specs.Prelude.{◌≡◌, ◌++◌, codes, Some, OnOk, IfOk, IsSome, string_bytes};
ghost use Rattle.std.specs.List.{flat_map, enumerate_from};
ghost use Rattle.hz_index.specs.Names.{known_name};
ghost use Rattle.hz_index.specs.Views.{known_scope};
ghost use Rattle.hz_resolve.specs.Places.{place_at};
ghost use Rattle.hz_front_dump.specs.Dump as spec;

use crate::lines::parent_word;
use hz_index::{Scope, ScopeName, ScopeNames, Scopes};
use hz_list::Memory;
use hz_resolve::Layout;
use hz_tree::{BindingKind, Place, ScopeKind};
use std::alloc::{AllocError, Global};

/// Adds the lines of the scopes of function `k`, with their names.
pub fn push_scopes(
    alloc: Global,
    text: &mut Vec<u8>,
    scopes: &Scopes<'_>,
    layout: &Layout,
    k: u32,
) -> Result<(), Memory>
    requires { spec.HaveScopes (place_at layout.now k) scopes.now }
    ensures { OnOk result (text.new.items
        ≡ text.old.items ++ flat_map (spec.scope_lines (place_at layout.now k)) (enumerate_from 0 scopes.now)) }
{
    for i in 0..scopes.len() {
        let Some(scope) = scopes.get(i) else {
            unreachable!()
        };
        push_scope_line(alloc, text, i, &scope)?;
        push_names(alloc, text, &scope.names, layout, k, i)?;
    }
    Ok(())
}

/// Adds the line of the scope with the number `i` of its function.
fn push_scope_line(
    alloc: Global,
    text: &mut Vec<u8>,
    i: usize,
    scope: &Scope<'_>,
) -> Result<(), AllocError>
    ensures { OnOk result (text.new.items ≡ text.old.items ++ spec.scope_line i (known_scope scope.now)) }
{
    let line = scope_line(alloc, i, scope)?;
    text.extend_from_slice(line.as_bytes())
}

fn scope_line(alloc: Global, i: usize, scope: &Scope<'_>) -> Result<String, AllocError>
    ensures { IfOk result (λ line. string_bytes line ≡ spec.scope_line i (known_scope scope.now)) }
{
    let (start, end) = (scope.start, scope.end);
    let kind = scope_word(scope.kind);
    let parent = parent_word(alloc, scope.parent)?;
    format!(in alloc; "scope {i} {kind} {start} {end} {parent}\n")
}

/// Adds the lines of the names of scope `i` of function `k`.
fn push_names(
    alloc: Global,
    text: &mut Vec<u8>,
    names: &ScopeNames<'_>,
    layout: &Layout,
    k: u32,
    i: usize,
) -> Result<(), Memory>
    requires { spec.HaveNames (place_at layout.now k i) names.now }
    ensures { OnOk result (text.new.items
        ≡ text.old.items ++ flat_map (spec.name_line (place_at layout.now k i)) (enumerate_from 0 names.now)) }
{
    for n in 0..names.len() {
        let Some(name) = names.get(n) else {
            unreachable!()
        };
        let place = place_of(layout, k, i, n)?;
        push_name(alloc, text, &name, place)?;
    }
    Ok(())
}

/// The place of a name. Memory for more than 4294967296 scopes or names is never there.
fn place_of(layout: &Layout, k: u32, scope: usize, name: usize) -> Result<Place, Memory>
    requires { IsSome (place_at layout.now k scope name) }
    ensures { IfOk result (λ place. place_at layout.now k scope name ≡ Some place) }
{
    if scope > 4294967295 || name > 4294967295 {
        return Err(Memory);
    }
    Ok(layout.place(k, scope as u32, name as u32))
}

fn push_name(
    alloc: Global,
    text: &mut Vec<u8>,
    name: &ScopeName<'_>,
    place: Place,
) -> Result<(), AllocError>
    ensures { OnOk result (text.new.items
        ≡ text.old.items ++ spec.name_line (λ _. Some place) (0, known_name name.now)) }
{
    text.extend_from_slice(b"name ")?;
    text.extend_from_slice(name.name)?;
    text.extend_from_slice(b" ")?;
    text.extend_from_slice(binding_word(name.binding).as_bytes())?;
    push_place(alloc, text, place)
}

/// Adds the place with which the line of a name ends.
fn push_place(alloc: Global, text: &mut Vec<u8>, place: Place) -> Result<(), AllocError>
    ensures { OnOk result (text.new.items
        ≡ text.old.items ++ (codes " " ++ (spec.place_word (Some place) ++ codes "\n"))) }
{
    let word = place_word(alloc, place)?;
    text.extend_from_slice(b" ")?;
    text.extend_from_slice(word.as_bytes())?;
    text.extend_from_slice(b"\n")
}

fn place_word(alloc: Global, place: Place) -> Result<String, AllocError>
    ensures { IfOk result (λ word. string_bytes word ≡ spec.place_word (Some place)) }
{
    match place {
        Place::Register => String::from_str(alloc, "register"),
        Place::Slot { hops, slot } => format!(in alloc; "slot {hops} {slot}"),
        Place::Global => String::from_str(alloc, "global"),
    }
}

fn scope_word(kind: ScopeKind) -> &'static str
    ensures { result.now ≡ spec.scope_word kind }
{
    match kind {
        ScopeKind::Script => "script",
        ScopeKind::Function => "function",
        ScopeKind::Own => "own",
        ScopeKind::Block => "block",
        ScopeKind::Catch => "catch",
    }
}

fn binding_word(binding: Option<BindingKind>) -> &'static str
    ensures { result.now ≡ spec.binding_word binding }
{
    match binding {
        None => "-",
        Some(BindingKind::Var) => "var",
        Some(BindingKind::Let) => "let",
        Some(BindingKind::Const) => "const",
        Some(BindingKind::BlockFunction) => "blockfunction",
        Some(BindingKind::Parameter) => "parameter",
        Some(BindingKind::Caught) => "caught",
        Some(BindingKind::Own) => "own",
        Some(BindingKind::Activation) => "activation",
    }
}
