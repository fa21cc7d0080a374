//! Doors: ways to call a table for one caller, whoever has the table.
ghost use Rattle.std.specs.Prelude.{◌≡◌, ℕ, List, Bool, true, [], ◌∷◌, ◌++◌, IfOk, OnErr, refl};
ghost use Rattle.std.proofs.Common.{◌∙◌};
ghost use Rattle.mars_table.specs.declared.entry.Entry.{Entry};
ghost use Rattle.mars_table.specs.Door.{SeesMore};
ghost use Rattle.mars_table.specs.History.{Legal, OwnsFor, call_entry, of};
ghost use Rattle.mars_table.specs.TableSeen.{uncalled};

use crate::entry::{Call, Reply};
use crate::table::Table;
use mars_base::NoMemory;
use std::alloc::Global;

/// A way to call a table for one caller.
pub trait Door {
    /// The caller's number.
    ghost who: { Self → ℕ };

    /// The table's row limit.
    ghost cap: { Self → ℕ };

    /// The entries of the caller.
    ghost mine: { Self → List Entry };

    /// A legal history in which the entries of the caller are `mine`.
    ghost seen: { Self → List Entry };

    /// Whether nobody else calls while the door is lent.
    ghost lone: { Self → Bool };

    /// The second door is on the same loan as the first.
    ghost Stays: { Self → Self → Type 0 };

    /// The caller's number. Takes no memory.
    fn number(&self) -> u32
        ensures { result ≡ who self.now };

    /// Makes a call. `NoMemory` changes nothing. May wait where the door isn't alone.
    fn call(&mut self, call: Call) -> Result<Reply, NoMemory>
        requires { OwnsFor (mine self.old) call }
        ensures stays { Stays self.old self.new }
        ensures who { who self.new ≡ who self.old }
        ensures cap { cap self.new ≡ cap self.old }
        ensures lone { lone self.new ≡ lone self.old }
        ensures mine { IfOk result (λ reply. mine self.new ≡ mine self.old ++ call_entry (who self.old) call reply ∷ []) }
        ensures seen { IfOk result (λ reply. SeesMore (lone self.old) (seen self.old) (seen self.new) (call_entry (who self.old) call reply)) }
        ensures legal { Legal (cap self.new) (seen self.new) }
        ensures own { of (seen self.new) (who self.new) ≡ mine self.new }
        ensures as_before { OnErr result ((mine self.new ≡ mine self.old) × (seen self.new ≡ seen self.old)) };

    ghost stays_itself: { (d : Self) → Stays d d };

    ghost stays_on: { (d e f : Self) → Stays d e → Stays e f → Stays d f };
}

/// A table that is lent to one caller.
#[derive(Drop)]
pub struct TableDoor<'a> {
    table: &'a mut Table,
    caller: u32,
}

impl<'a> TableDoor<'a> {
    /// Lends a table to a caller. Takes no memory.
    pub fn new(table: &'a mut Table, who: u32) -> TableDoor<'a>
        ensures table { result.table ≡ table.entry }
        ensures who { result.caller ≡ who }
    {
        TableDoor { table, caller: who }
    }
}

impl<'a> Door for TableDoor<'a> {
    ghost who = { λ d. d.caller };

    ghost cap = { λ d. d.table.now.cap };

    ghost mine = { λ d. of d.table.now.history d.caller };

    ghost seen = { λ d. d.table.now.history };

    ghost lone = { λ d. true };

    ghost Stays = { λ d e. (e.table.ghost_name ≡ d.table.ghost_name) × (e.caller ≡ d.caller) };

    ghost stays_itself = { λ d. (refl, refl) };

    ghost stays_on = { λ d e f p q. (q.0 ∙ p.0, q.1 ∙ p.1) };

    fn number(&self) -> u32 {
        self.caller
    }

    fn call(&mut self, call: Call) -> Result<Reply, NoMemory> {
        // what the history says of the calls that the caller may make, before the call and after it
        let _before = self.table.history();
        let reply = self.table.apply(self.caller, call);
        let _after = self.table.history();
        reply
    }
}

/// A table without room for a row, for one caller: what is interned is answered by `Full`.
#[derive(Drop)]
pub struct FullDoor {
    table: Table,
    caller: u32,
}

impl FullDoor {
    /// An empty table of limit 0 for a caller. Takes no memory.
    pub fn new(alloc: Global, who: u32) -> FullDoor
        ensures table { result.table ≡ uncalled 0 }
        ensures who { result.caller ≡ who }
    {
        FullDoor {
            table: Table::new(alloc, 0),
            caller: who,
        }
    }
}

impl Door for FullDoor {
    ghost who = { λ d. d.caller };

    ghost cap = { λ d. d.table.cap };

    ghost mine = { λ d. of d.table.history d.caller };

    ghost seen = { λ d. d.table.history };

    ghost lone = { λ d. true };

    ghost Stays = { λ d e. e.caller ≡ d.caller };

    ghost stays_itself = { λ d. refl };

    ghost stays_on = { λ d e f p q. q ∙ p };

    fn number(&self) -> u32 {
        self.caller
    }

    fn call(&mut self, call: Call) -> Result<Reply, NoMemory> {
        // what the history says of the calls that the caller may make, before the call and after it
        let _before = self.table.history();
        let reply = self.table.apply(self.caller, call);
        let _after = self.table.history();
        reply
    }
}
