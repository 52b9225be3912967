//! The parameters of a rule within the rules that it names (ECMA-262, 5.1.5).

ghost use Rattle.std.specs.Prelude.{◌≡◌};
ghost use Rattle.hz_tree.specs.grammar.Symbols as symbols;

use hz_tree::Context;

/// Outside all functions.
pub fn of_script() -> Context
    ensures { result ≡ symbols.of_script }
{
    Context {
        returns: false,
        yields: false,
        no_in: false,
    }
}

/// The body of a function.
pub fn of_body(generator: bool) -> Context
    ensures { result ≡ symbols.of_body generator }
{
    Context {
        returns: true,
        yields: generator,
        no_in: false,
    }
}

/// Within brackets.
pub fn with_in(context: Context) -> Context
    ensures { result ≡ symbols.with_in context }
{
    Context {
        no_in: false,
        ..context
    }
}

/// In the head of a `for`.
pub fn without_in(context: Context) -> Context
    ensures { result ≡ symbols.without_in context }
{
    Context {
        no_in: true,
        ..context
    }
}

/// The expression that is the body of an arrow.
pub fn of_arrow(context: Context) -> Context
    ensures { result ≡ symbols.of_arrow context }
{
    Context {
        returns: true,
        yields: false,
        ..context
    }
}
