//! Templates (ECMA-262, 13.2.8).

ghost use Rattle.std.specs.Prelude.{◌≡◌, List, [], ◌∷◌, OnOk};
ghost use Rattle.hz_tree.specs.declared.look.Look.{Look as Ahead};
ghost use Rattle.hz_tree.specs.declared.nonterminal.Context.{Context as In};
ghost use Rattle.hz_tree.specs.declared.nonterminal.Nonterminal.TheVariants as n;
ghost use Rattle.hz_tree.specs.declared.tree.Tree.{Tree as Made};
ghost use Rattle.hz_tree.specs.declared.tree.Tree.TheVariants as made;
ghost use Rattle.hz_tree.specs.grammar.PrimaryRows as row;
ghost use Rattle.hz_tree.specs.tokens.Text.{Text as Written};
ghost use Rattle.hz_parts.specs.declared.parts.Seen.{Seen as Told};
ghost use Rattle.hz_parts.specs.Makes.{Makes};

use hz_list::Memory;
use hz_parts::{Backwards, Parts, first_item, no_items};
use hz_tree::{Class, Tree};
use std::alloc::Global;

/// A template without holes.
pub fn whole(alloc: Global, parts: &mut Parts<'_>) -> Result<(), Memory>
    ensures { (c : In) (l : Ahead) → Makes (n.Primary c) (row.primary_by c l Class.TemplateWhole)
        result parts.old parts.new }
{
    last_text(alloc, parts)?;
    template(parts)
}

/// A template with holes, from its first text to the rest.
pub fn with_holes(parts: &mut Parts<'_>) -> Result<(), Memory>
    ensures { (c : In) (l : Ahead) → Makes (n.Primary c) (row.primary_by c l Class.TemplateHead)
        result parts.old parts.new }
{
    first_text(parts)?;
    first_item(parts)?;
    template(parts)
}

/// What stands behind a hole of a template.
pub fn template_rest(alloc: Global, parts: &mut Parts<'_>, one: Class) -> Result<(), Memory>
    ensures { (c : In) (l : Ahead) → Makes (n.TemplateRest c) (row.template_rest_by c l one)
        result parts.old parts.new }
{
    match one {
        Class::TemplateMiddle => middle(parts),
        Class::TemplateTail => last_text(alloc, parts),
        _ => Ok(()),
    }
}

/// A text, a hole and the rest.
fn middle(parts: &mut Parts<'_>) -> Result<(), Memory>
    ensures { (c : In) (l : Ahead) → Makes (n.TemplateRest c) (row.template_rest_by c l Class.TemplateMiddle)
        result parts.old parts.new }
{
    first_text(parts)?;
    first_item(parts)
}

/// The text of a token, with no holes behind it.
fn last_text(alloc: Global, parts: &mut Parts<'_>) -> Result<(), Memory>
    ensures { OnOk result ((token : Told) (seen : List Told) → parts.old.seen ≡ token ∷ seen
        → parts.new ≡ record parts.old {
          seen = seen;
          texts = (token.text ∷ []) ∷ parts.old.texts;
          lists = [] ∷ parts.old.lists;
        }) }
{
    no_items(alloc, parts)?;
    parts.texts.push(Backwards::new(alloc))?;
    first_text(parts)
}

/// The text of a token before those that are uppermost.
fn first_text(parts: &mut Parts<'_>) -> Result<(), Memory>
    ensures { OnOk result ((token : Told) (seen : List Told) (more : List Written) (texts : List (List Written))
        → parts.old.seen ≡ token ∷ seen → parts.old.texts ≡ more ∷ texts
        → parts.new ≡ record parts.old { seen = seen; texts = (token.text ∷ more) ∷ texts }) }
{
    let Some(token) = parts.seen.pop() else {
        return Ok(());
    };
    let Some(mut texts) = parts.texts.pop() else {
        return Ok(());
    };
    texts.push(token.text)?;
    parts.texts.push(texts)
}

/// A template of the texts and the holes that are uppermost.
fn template(parts: &mut Parts<'_>) -> Result<(), Memory>
    ensures { OnOk result ((begun : Told) (seen : List Told) (written : List Written) (texts : List (List Written))
        (holes : List Made) (lists : List (List Made)) → parts.old.seen ≡ begun ∷ seen
        → parts.old.texts ≡ written ∷ texts → parts.old.lists ≡ holes ∷ lists
        → parts.new ≡ record parts.old {
          seen = seen;
          texts = texts;
          lists = lists;
          trees = made.Template begun.at written holes ∷ parts.old.trees;
        }) }
{
    let Some(begun) = parts.seen.pop() else {
        return Ok(());
    };
    let Some(texts) = parts.texts.pop() else {
        return Ok(());
    };
    let Some(holes) = parts.lists.pop() else {
        return Ok(());
    };
    parts.trees.push(Tree::Template {
        at: begun.at,
        parts: texts.into_items(),
        holes: holes.into_items(),
    })
}
