//! How a function is written (ECMA-262, 15.2 to 15.5), as its kind and its first token tell.

ghost use Rattle.std.specs.Prelude.{◌≡◌, false};
ghost use Rattle.hz_tree.specs.grammar.Classes.{is_function, is_paren};
ghost use Rattle.hz_tree.specs.grammar.Symbols.{of_body};
ghost use Rattle.hz_stands.specs.Plain.{generator_by, shape_by};
ghost use Rattle.hz_stands.specs.Stands.{arrowed, written};
ghost use Rattle.hz_parse.specs.Given as spec;

use hz_tree::{Class, Context, FunctionKind, Nonterminal, Role, Symbol};

/// The symbols of a function of the kind that begins with a token of the class, from where it starts to where it ends.
pub fn symbols_of(kind: FunctionKind, first: Class) -> &'static [Symbol]
    ensures { result.now ≡ (written (shape_by kind first)).symbols }
{
    match kind {
        FunctionKind::Generator => generator_symbols(first),
        FunctionKind::Arrow => arrow_symbols(first),
        FunctionKind::Method => &[
            Symbol::Read(Nonterminal::Params),
            Symbol::Read(Nonterminal::Body(false)),
        ],
        _ => &[
            Symbol::Take(Class::Function),
            Symbol::Read(Nonterminal::OwnName),
            Symbol::Read(Nonterminal::Params),
            Symbol::Read(Nonterminal::Body(false)),
        ],
    }
}

/// A generator begins with `function`, or is a method.
fn generator_symbols(first: Class) -> &'static [Symbol]
    ensures { result.now ≡ (written (generator_by (is_function first))).symbols }
{
    match first {
        Class::Function => &[
            Symbol::Take(Class::Function),
            Symbol::Take(Class::Star),
            Symbol::Read(Nonterminal::OwnName),
            Symbol::Read(Nonterminal::Params),
            Symbol::Read(Nonterminal::Body(true)),
        ],
        _ => &[
            Symbol::Read(Nonterminal::Params),
            Symbol::Read(Nonterminal::Body(true)),
        ],
    }
}

/// An arrow has parameters in parentheses, or one name.
fn arrow_symbols(first: Class) -> &'static [Symbol]
    ensures { result.now ≡ (written (arrowed (of_body false) (is_paren first))).symbols }
{
    match first {
        Class::LeftParen => &[
            Symbol::Read(Nonterminal::Params),
            Symbol::Read(Nonterminal::ArrowSign),
            Symbol::Read(Nonterminal::ArrowBody(Context {
                returns: true,
                yields: false,
                no_in: false,
            })),
        ],
        _ => &[
            Symbol::Read(Nonterminal::Bound(Role::Parameter)),
            Symbol::Read(Nonterminal::ArrowSign),
            Symbol::Read(Nonterminal::ArrowBody(Context {
                returns: true,
                yields: false,
                no_in: false,
            })),
        ],
    }
}

/// Whether the function has one parameter, which stands without parentheses.
pub fn has_one_name(kind: FunctionKind, first: Class) -> bool
    ensures { result ≡ spec.has_one_name (shape_by kind first) }
{
    match kind {
        FunctionKind::Arrow => !first.is_paren(),
        _ => false,
    }
}
