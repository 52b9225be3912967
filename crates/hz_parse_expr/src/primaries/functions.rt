//! Function expressions (ECMA-262, 15.2 and 15.5), which are left out for their numbers.

ghost use Rattle.std.specs.Prelude.{◌≡◌, ℕ, ◌∷◌, Option, OnOk};
ghost use Rattle.hz_tree.specs.declared.nonterminal.Context.{Context as In};
ghost use Rattle.hz_tree.specs.declared.nonterminal.Nonterminal.TheVariants as n;
ghost use Rattle.hz_tree.specs.declared.tree.Bound.{Bound as Named};
ghost use Rattle.hz_tree.specs.declared.tree.FunctionForm.TheVariants as form;
ghost use Rattle.hz_tree.specs.declared.tree.Tree.TheVariants as made;
ghost use Rattle.hz_tree.specs.trees.FunctionTrees.{number_at};
ghost use Rattle.hz_parts.specs.declared.parts.Parts.{Parts as Stacks};
ghost use Rattle.hz_parts.specs.declared.parts.Seen.{Seen as Told};
ghost use Rattle.hz_parts.specs.Makes.{Makes};
ghost use Rattle.hz_parts.specs.Values.{push_name, push_opened, push_seen, push_tree};
ghost use Rattle.hz_parse_expr.specs.Functions.{expressed};

use hz_list::Memory;
use hz_parts::{Numbers, Parts, past_token};
use hz_tree::{Class, FunctionForm, Tree};

pub fn function_expression<N: Numbers>(
    numbers: &N,
    parts: &mut Parts<'_>,
    two: Class,
) -> Result<(), Memory>
    ensures { (c : In) → Makes (n.Primary c) (expressed (N.functions numbers.now) c two)
        result parts.old parts.new }
{
    match two {
        Class::Star => generator(numbers, parts),
        _ => function(numbers, parts),
    }
}

fn generator<N: Numbers>(numbers: &N, parts: &mut Parts<'_>) -> Result<(), Memory>
    ensures { (c : In) → Makes (n.Primary c) (expressed (N.functions numbers.now) c Class.Star)
        result parts.old parts.new }
{
    past_token(parts);
    inner(numbers, parts)
}

fn function<N: Numbers>(numbers: &N, parts: &mut Parts<'_>) -> Result<(), Memory>
    ensures { (c : In) → Makes (n.Primary c) (expressed (N.functions numbers.now) c Class.Name)
        result parts.old parts.new }
{
    inner(numbers, parts)
}

/// The number of a function that may have a name.
fn inner<N: Numbers>(numbers: &N, parts: &mut Parts<'_>) -> Result<(), Memory>
    ensures { OnOk result ((token : Told) (opened : ℕ) (name : Option Named) (below : Stacks)
        → parts.old ≡ push_name name (push_seen token (push_opened opened below))
        → parts.new ≡ push_tree (made.Inner opened (number_at (N.functions numbers.now) opened)
        (form.Expression name)) below) }
{
    past_token(parts);
    let Some(at) = parts.opened.pop() else {
        return Ok(());
    };
    let Some(name) = parts.names.pop() else {
        return Ok(());
    };
    parts.trees.push(Tree::Inner {
        at,
        number: numbers.number_at(at),
        form: FunctionForm::Expression(name),
    })
}
