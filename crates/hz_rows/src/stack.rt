use crate::stop::Stop;
use hz_list::Series;
use hz_tree::Symbol;
use std::alloc::Global;
use std::marker::Model;

/// The symbols that are still to be read. Contracts see the list of them, the next one first: it is on top.
#[derive(Debug, Drop)]
pub struct Stack {
    symbols: Series<Symbol>,
}

impl Model for Stack {
    ghost use Rattle.std.specs.Prelude.{List, reverse};
    ghost use Rattle.hz_tree.specs.declared.symbol.Symbol.{Symbol};

    ghost Value = { List Symbol };

    ghost view = { λ s. reverse s.symbols };
}

impl Stack {
    ghost use Rattle.std.specs.Prelude.{◌≡◌, [], ◌∷◌, MatchOption};
    ghost use Rattle.hz_tree.specs.grammar.Table.{pushes};
    ghost use Rattle.hz_rows.specs.Pushed.{Pushed};

    /// An empty stack.
    pub fn new(alloc: Global) -> Stack
        ensures { result ≡ [] }
    {
        Stack {
            symbols: Series::new(alloc),
        }
    }

    /// Takes the symbol on top. None where there is none.
    pub fn pop(&mut self) -> Option<Symbol>
        ensures { MatchOption result ((self.old ≡ []) × (self.new ≡ [])) (λ symbol. self.old ≡ symbol ∷ self.new) }
    {
        self.symbols.pop()
    }

    /// Puts a right-hand side onto the stack, its first symbol on top. Only memory can fail.
    #[inline]
    pub fn push(&mut self, right: &[Symbol]) -> Result<(), Stop>
        ensures { Pushed (pushes right.now) result self.old self.new }
    {
        let mut left = right.len();
        while left > 0 {
            left -= 1;
            self.symbols.push(right[left])?;
        }
        Ok(())
    }
}
