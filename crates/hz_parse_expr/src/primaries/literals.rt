//! Numbers and texts (ECMA-262, 13.2.3).

ghost use Rattle.std.specs.Prelude.{◌≡◌};
ghost use Rattle.hz_tree.specs.declared.look.Look.{Look as Ahead};
ghost use Rattle.hz_tree.specs.declared.nonterminal.Context.{Context as In};
ghost use Rattle.hz_tree.specs.declared.nonterminal.Nonterminal.TheVariants as n;
ghost use Rattle.hz_tree.specs.grammar.PrimaryRows as row;
ghost use Rattle.hz_parts.specs.Makes.{Makes};

use hz_list::Memory;
use hz_parts::{Parts, past_token};
use hz_tree::{Class, Tree};

pub fn number(parts: &mut Parts<'_>) -> Result<(), Memory>
    ensures { (c : In) (l : Ahead) → Makes (n.Primary c) (row.primary_by c l Class.Number)
        result parts.old parts.new }
{
    let Some(first) = parts.seen.pop() else {
        return Ok(());
    };
    let Some(told) = parts.seen.pop() else {
        return Ok(());
    };
    parts.trees.push(Tree::Number {
        at: told.at,
        value: first.number,
    })
}

pub fn octal_number(parts: &mut Parts<'_>) -> Result<(), Memory>
    ensures { (c : In) (l : Ahead) → Makes (n.Primary c) (row.primary_by c l Class.OctalNumber)
        result parts.old parts.new }
{
    past_token(parts);
    let Some(told) = parts.seen.pop() else {
        return Ok(());
    };
    parts.trees.push(Tree::OctalNumber { at: told.at })
}

pub fn text(parts: &mut Parts<'_>) -> Result<(), Memory>
    ensures { (c : In) (l : Ahead) → Makes (n.Primary c) (row.primary_by c l Class.Text)
        result parts.old parts.new }
{
    past_token(parts);
    let Some(told) = parts.seen.pop() else {
        return Ok(());
    };
    parts.trees.push(Tree::Text {
        at: told.at,
        written: told.text,
        octal: told.octal,
    })
}
