//! Primary expressions by the tokens that they begin with (ECMA-262, 13.2).

ghost use Rattle.std.specs.Prelude.{◌≡◌, ◌≢◌};
ghost use Rattle.hz_tree.specs.declared.class.Class.TheVariants as k;
ghost use Rattle.hz_tree.specs.declared.nonterminal.Context.{Context as In};
ghost use Rattle.hz_tree.specs.declared.nonterminal.Nonterminal.TheVariants as n;
ghost use Rattle.hz_tree.specs.grammar.PrimaryRows as row;
ghost use Rattle.hz_cuts.specs.Rows.{cut_row};
ghost use Rattle.hz_parts.specs.Makes.{Makes};

use crate::primaries::{brackets, functions, literals, new, templates, words};
use hz_list::Memory;
use hz_parts::{Numbers, Parts};
use hz_tree::{Class, Look};
use std::alloc::Global;

pub fn primary<N: Numbers>(
    alloc: Global,
    numbers: &N,
    parts: &mut Parts<'_>,
    look: Look,
) -> Result<(), Memory>
    ensures { (c : In) → Makes (n.Primary c) (cut_row (N.functions numbers.now) (n.Primary c) look)
        result parts.old parts.new }
{
    match look.one {
        Class::Function => functions::function_expression(numbers, parts, look.two),
        _ => without_function(alloc, parts, look),
    }
}

/// A primary expression that is no function. Where no other token stands, it is a name.
fn without_function(alloc: Global, parts: &mut Parts<'_>, look: Look) -> Result<(), Memory>
    requires { look.one ≢ k.Function }
    ensures { (c : In) → Makes (n.Primary c) (row.primary_by c look look.one) result parts.old parts.new }
{
    match look.one {
        Class::This => words::this(parts),
        Class::Null => words::null(parts),
        Class::True => words::truth(parts, true),
        Class::False => words::truth(parts, false),
        Class::Number => literals::number(parts),
        Class::OctalNumber => literals::octal_number(parts),
        Class::Text => literals::text(parts),
        Class::LeftParen => brackets::parentheses(alloc, parts),
        Class::LeftBracket => brackets::array(parts),
        Class::LeftBrace => brackets::object(parts),
        Class::TemplateWhole => templates::whole(alloc, parts),
        Class::TemplateHead => templates::with_holes(parts),
        Class::New => new::new_expression(alloc, parts, look.two),
        _ => words::name(parts),
    }
}
