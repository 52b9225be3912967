ghost use Rattle.std.specs.Prelude.{◌≡◌, ◌&&◌, ◌++◌, ◌∷◌, [], map, true, Some, OnOk, IfOk, if◌then◌else◌};
ghost use Rattle.std.specs.List.{filter};
ghost use Rattle.hz_tree.specs.declared.scope.BindingKind.TheVariants as binding;
ghost use Rattle.hz_tree.specs.trees.FunctionScopes.{used_within, outside, activation};
ghost use Rattle.hz_scopes.specs.Entries.{texts_of};
ghost use Rattle.hz_scopes.specs.Links.{without};
ghost use Rattle.hz_scopes.specs.Naming.{arguments_name, declared_names, used_names, with_names};
ghost use Rattle.hz_scopes.specs.Naming.{is_shown as shows_name};
ghost use Rattle.hz_scopes.specs.Naming.{shows, without_bound};

use crate::declarations::Declarations;
use crate::here::NamesHere;
use crate::uses::Uses;
use hz_index::ScopeTable;
use hz_list::Memory;
use hz_tree::BindingKind;

/// The names that the innermost scope declares go to the table, and their uses in it are taken out.
pub fn add_declared<'a>(
    table: &mut ScopeTable<'a>,
    uses: &mut Uses<'a>,
    declared: &Declarations<'a>,
) -> Result<(), Memory>
    ensures named { OnOk result (table.new ≡ with_names (declared_names declared.now.inner) table.old) }
    ensures taken { OnOk result (uses.new ≡ record uses.old { inner = outside declared.now.inner uses.old.inner }) }
{
    for place in 0..declared.len() {
        let declaration = declared.get(place);
        table.add_name(declaration.name, Some(declaration.binding))?;
        let _ = uses.take_out(declaration.name);
    }
    Ok(())
}

/// The names that are used directly in the innermost scope go to the table, as far as it lists them. A function that
/// binds `this` and `new.target`, or `arguments`, does not list these.
pub fn add_here<'a>(
    table: &mut ScopeTable<'a>,
    here: &NamesHere<'a>,
    declared: &Declarations<'a>,
    binds: bool,
    arguments: bool,
) -> Result<(), Memory>
    ensures { OnOk result (table.new
        ≡ with_names (used_names (filter (shows binds arguments declared.now.inner) here.now.inner)) table.old) }
{
    for place in 0..here.len() {
        let name = here.get(place);
        if lists(declared, binds, arguments, name) {
            table.add_name(name, None)?;
        }
    }
    Ok(())
}

fn lists(declared: &Declarations, binds: bool, arguments: bool, name: &[u8]) -> bool
    ensures { result ≡ shows binds arguments declared.now.inner name.now }
{
    !declared.declares(name) && is_shown(name, binds, arguments)
}

fn is_shown(name: &[u8], binds: bool, arguments: bool) -> bool
    ensures { result ≡ shows_name binds arguments name.now }
{
    let receiver = b"this".as_slice() == name || b"new.target".as_slice() == name;
    let list = b"arguments".as_slice() == name;
    !(binds && receiver) && !(arguments && list)
}

/// What `add_activation` does where the function binds these names, and else nothing.
pub fn add_bound<'a>(
    table: &mut ScopeTable<'a>,
    uses: &mut Uses<'a>,
    binds: bool,
) -> Result<bool, Memory>
    ensures named { OnOk result (table.new ≡ with_names (declared_names (activation binds uses.old.inner)) table.old) }
    ensures taken { OnOk result (uses.new ≡ record uses.old { inner = without_bound binds uses.old.inner }) }
    ensures arguments { IfOk result (λ there. there ≡ (binds && used_within uses.old.inner arguments_name)) }
{
    if binds {
        add_activation(table, uses)
    } else {
        Ok(false)
    }
}

/// A function that binds `this`, `new.target` and `arguments` declares those that functions within use. They go to the
/// table, and no use of them is left. Tells whether `arguments` is declared.
fn add_activation<'a>(table: &mut ScopeTable<'a>, uses: &mut Uses<'a>) -> Result<bool, Memory>
    ensures named { OnOk result (table.new ≡ with_names (declared_names (activation true uses.old.inner)) table.old) }
    ensures taken { OnOk result (uses.new ≡ record uses.old { inner = without_bound true uses.old.inner }) }
    ensures arguments { IfOk result (λ there. there ≡ used_within uses.old.inner arguments_name) }
{
    let _ = add_used(table, uses, b"this".as_slice())?;
    let _ = add_used(table, uses, b"new.target".as_slice())?;
    let arguments = add_used(table, uses, b"arguments".as_slice())?;
    Ok(arguments)
}

fn add_used<'a>(
    table: &mut ScopeTable<'a>,
    uses: &mut Uses<'a>,
    name: &'a [u8],
) -> Result<bool, Memory>
    ensures named { OnOk result (table.new ≡ (if used_within uses.old.inner name.now
        then with_names (record { name = name.now; binding = Some binding.Activation } ∷ []) table.old
        else table.old)) }
    ensures taken { OnOk result (uses.new ≡ record uses.old { inner = without name.now uses.old.inner }) }
    ensures there { IfOk result (λ there. there ≡ used_within uses.old.inner name.now) }
{
    let there = uses.take_out(name);
    if there {
        table.add_name(name, Some(BindingKind::Activation))?;
    }
    Ok(there)
}

/// Names that are free in the function that ends go to the table.
pub fn add_free<'a>(table: &mut ScopeTable<'a>, names: &[&'a [u8]]) -> Result<(), Memory>
    ensures { OnOk result (table.new ≡ with_names (used_names (texts_of names.now)) table.old) }
{
    for name in names {
        table.add_name(*name, None)?;
    }
    Ok(())
}

/// Names that are free in a function are used by it in the innermost scope.
pub fn use_free<'a>(uses: &mut Uses<'a>, names: &[&'a [u8]]) -> Result<(), Memory>
    ensures { OnOk result (uses.new ≡ record uses.old {
      inner = uses.old.inner ++ map (λ name. record { name = name; inner = true }) (texts_of names.now);
    }) }
{
    for name in names {
        uses.push(*name, true)?;
    }
    Ok(())
}
