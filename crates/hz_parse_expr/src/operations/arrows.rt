//! Arrow functions (ECMA-262, 15.3).

ghost use Rattle.std.specs.Prelude.{◌≡◌, ℕ, OnOk};
ghost use Rattle.hz_tree.specs.declared.nonterminal.Nonterminal.TheVariants as n;
ghost use Rattle.hz_tree.specs.declared.tree.FunctionForm.TheVariants as form;
ghost use Rattle.hz_tree.specs.declared.tree.Tree.TheVariants as made;
ghost use Rattle.hz_tree.specs.grammar.ExpressionRows as row;
ghost use Rattle.hz_tree.specs.trees.FunctionTrees.{number_at};
ghost use Rattle.hz_parts.specs.declared.parts.Parts.{Parts as Stacks};
ghost use Rattle.hz_parts.specs.Makes.{Makes};
ghost use Rattle.hz_parts.specs.Values.{push_opened, push_tree};

use hz_list::Memory;
use hz_parts::{Numbers, Parts, past_token};
use hz_tree::{FunctionForm, Look, Tree};

/// The number of an arrow that is left out.
pub fn arrow<N: Numbers>(numbers: &N, parts: &mut Parts<'_>) -> Result<(), Memory>
    ensures { OnOk result ((opened : ℕ) (below : Stacks) → parts.old ≡ push_opened opened below
        → parts.new
        ≡ push_tree (made.Inner opened (number_at (N.functions numbers.now) opened) form.Arrow) below) }
{
    let Some(at) = parts.opened.pop() else {
        return Ok(());
    };
    parts.trees.push(Tree::Inner {
        at,
        number: numbers.number_at(at),
        form: FunctionForm::Arrow,
    })
}

/// `=>`, which stands on the line of the token before it.
pub fn arrow_sign(parts: &mut Parts<'_>, look: Look) -> Result<(), Memory>
    ensures { Makes n.ArrowSign (row.arrow_sign_row look) result parts.old parts.new }
{
    if look.one_newline {
        Ok(())
    } else {
        past_token(parts);
        Ok(())
    }
}
