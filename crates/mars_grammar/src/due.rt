// What is due: a list of symbols, kept as the rests of rows.
ghost use Rattle.std.specs.Prelude.{◌≡◌, [], ◌∷◌, ◌++◌, OnOk, MatchOption};

use mars_base::NoMemory;
use std::alloc::Global;
use std::marker::Model;

/// The symbols that are due: the rest of the innermost row, and after it those of the rows around it. Contracts see the list.
#[derive(Drop)]
pub(crate) struct Due<'a, S> {
    /// The innermost.
    row: &'a [S],
    /// Those around it, the outermost first.
    outer: Vec<&'a [S]>,
}

impl<'a, S> Model for Due<'a, S> {
    ghost use Rattle.std.specs.Prelude.{List};

    ghost Value = { List S };

    ghost use Rattle.mars_grammar.specs.DueInside.{due_in};

    ghost view = { λ s. due_in s.row.now s.outer.items };
}

impl<'a, S: Copy + Drop> Due<'a, S> {
    /// The symbols of one row. Takes no memory.
    pub(crate) fn new(alloc: Global, row: &'a [S]) -> Due<'a, S>
        ensures { result ≡ row.now }
    {
        Due {
            row,
            outer: Vec::new(alloc),
        }
    }

    /// Takes away the first symbol.
    #[inline(always)]
    pub(crate) fn next(&mut self) -> Option<S>
        ensures { MatchOption result (self.old ≡ []) (λ symbol. self.old ≡ symbol ∷ self.new) }
    {
        if let Some((first, rest)) = self.row.split_first() {
            self.row = rest;
            return Some(*first);
        }
        while let Some(row) = self.outer.pop() {
            if let Some((first, rest)) = row.split_first() {
                self.row = rest;
                return Some(*first);
            }
        }
        None
    }

    /// Puts the symbols of a row before all others.
    pub(crate) fn push(&mut self, row: &'a [S]) -> Result<(), NoMemory>
        ensures { OnOk result (self.new ≡ row.now ++ self.old) }
    {
        if !self.row.is_empty() {
            self.outer.push(self.row)?;
        }
        self.row = row;
        Ok(())
    }
}
