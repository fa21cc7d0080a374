//! The table: rows of trees and the pins of callers on them, with the history of all calls.
ghost use Rattle.std.specs.Prelude.{◌≡◌, ◌↔◌, ◌<◌, ◌≤◌, ◌^◌, ◌-◌, ◌+◌, length, IfOk, OnOk, OnErr, IsOk, IsTrue, Contains};
ghost use Rattle.mars_canon.specs.Tree.{IsTree};
ghost use Rattle.mars_rows.specs.Sound.{IsSound};
ghost use Rattle.mars_table.specs.declared.entry.Call.TheVariants.{Intern, Pin, Show, Drop, Sweep, Count};
ghost use Rattle.mars_table.specs.Calls.{MayCall};
ghost use Rattle.mars_table.specs.History.{Legal, OwnsFor, of};
ghost use Rattle.mars_table.specs.HistoryLaws.{Live};
ghost use Rattle.mars_table.specs.TableSeen.{TableSeen, uncalled, object_of, Applied, IsDrop};

use crate::entry::{Call, Entry, Handle, Reply};
use mars_base::NoMemory;
use mars_canon::Tree;
use mars_rows::{Added, Rows};
use std::alloc::Global;
use std::marker::Model;

/// Trees under numbers, each tree once, the pins of callers on them, and all calls that were made.
#[derive(Drop)]
pub struct Table {
    rows: Rows,
    history: Vec<Entry>,
    cap: u64,
}

impl Model for Table {
    ghost use Rattle.mars_table.specs.TableSeen.{TableSeen};

    ghost Value = { TableSeen };

    ghost use Rattle.mars_table.specs.TableInside.{seen_of, IsKept};

    ghost view = { seen_of };

    ghost invariant = { IsKept };
}

impl Table {
    /// An empty table of at most `cap` rows.
    pub fn new(alloc: Global, cap: u64) -> Table
        ensures { result ≡ uncalled cap }
    {
        Table {
            rows: Rows::new(alloc, cap),
            history: Vec::new(alloc),
            cap,
        }
    }

    /// Makes a call of `who`, and keeps its entry. `NoMemory` changes nothing, and never comes for a drop.
    pub fn apply(&mut self, who: u32, call: Call) -> Result<Reply, NoMemory>
        requires { MayCall (object_of self.old) who call }
        ensures applied { IfOk result (λ reply. Applied self.old who call reply self.new) }
        ensures drops { IsDrop call → IsOk result }
        ensures as_before { OnErr result (self.new ≡ self.old) }
    {
        match call {
            Call::Intern(tree) => self.keep(who, tree),
            Call::Pin(handle) => self.pin(who, handle),
            Call::Show(handle) => self.show(who, handle),
            Call::Drop(handle) => Ok(self.unpin(who, handle)),
            Call::Sweep => self.sweep(who),
            Call::Count => self.count(who),
        }
    }

    /// Keeps a tree, with a pin of the caller on it.
    fn keep(&mut self, who: u32, tree: Tree) -> Result<Reply, NoMemory>
        requires { IsTree tree }
        ensures applied { IfOk result (λ reply. Applied self.old who (Intern tree) reply self.new) }
        ensures as_before { OnErr result (self.new ≡ self.old) }
    {
        reserve(&mut self.history, &self.rows, 2)?;
        let _entries = self.history.len();
        match self.rows.add(&tree)? {
            Added::Root(root) => {
                // there is room for the pin, so that this can't fail
                self.rows.pin(who, root)?;
                self.history.push_reserved(Entry {
                    who,
                    call: Call::Intern(tree),
                    reply: Reply::Kept(Handle(root)),
                });
                Ok(Reply::Kept(Handle(root)))
            }
            Added::Full { rows, fresh } => {
                let cap = self.cap;
                self.history.push_reserved(Entry {
                    who,
                    call: Call::Intern(tree),
                    reply: Reply::Full { rows, fresh, cap },
                });
                Ok(Reply::Full { rows, fresh, cap })
            }
        }
    }

    /// Puts one more pin on a row.
    fn pin(&mut self, who: u32, handle: Handle) -> Result<Reply, NoMemory>
        requires { MayCall (object_of self.old) who (Pin handle) }
        ensures applied { IfOk result (λ reply. Applied self.old who (Pin handle) reply self.new) }
        ensures as_before { OnErr result (self.new ≡ self.old) }
    {
        reserve(&mut self.history, &self.rows, 2)?;
        self.rows.pin(who, handle.0)?;
        self.history.push_reserved(Entry {
            who,
            call: Call::Pin(handle),
            reply: Reply::Pinned,
        });
        Ok(Reply::Pinned)
    }

    /// Gives the tree of a row.
    fn show(&mut self, who: u32, handle: Handle) -> Result<Reply, NoMemory>
        requires { MayCall (object_of self.old) who (Show handle) }
        ensures applied { IfOk result (λ reply. Applied self.old who (Show handle) reply self.new) }
        ensures as_before { OnErr result (self.new ≡ self.old) }
    {
        reserve(&mut self.history, &self.rows, 1)?;
        let tree = self.rows.graph_of(handle.0)?;
        let again = tree.copy()?;
        self.history.push_reserved(Entry {
            who,
            call: Call::Show(handle),
            reply: Reply::Shown(again),
        });
        Ok(Reply::Shown(tree))
    }

    /// Takes a pin off a row. The place of its entry was kept since the pin came.
    fn unpin(&mut self, who: u32, handle: Handle) -> Reply
        requires { MayCall (object_of self.old) who (Drop handle) }
        ensures applied { Applied self.old who (Drop handle) result self.new }
    {
        self.rows.unpin(who, handle.0);
        self.history.push_reserved(Entry {
            who,
            call: Call::Drop(handle),
            reply: Reply::Dropped,
        });
        Reply::Dropped
    }

    /// Takes away the rows that no walk from a pin meets.
    fn sweep(&mut self, who: u32) -> Result<Reply, NoMemory>
        ensures applied { IfOk result (λ reply. Applied self.old who Sweep reply self.new) }
        ensures as_before { OnErr result (self.new ≡ self.old) }
    {
        reserve(&mut self.history, &self.rows, 1)?;
        let gone = self.rows.sweep()?;
        self.history.push_reserved(Entry {
            who,
            call: Call::Sweep,
            reply: Reply::Swept(gone),
        });
        Ok(Reply::Swept(gone))
    }

    /// Counts rows and pins.
    fn count(&mut self, who: u32) -> Result<Reply, NoMemory>
        ensures applied { IfOk result (λ reply. Applied self.old who Count reply self.new) }
        ensures as_before { OnErr result (self.new ≡ self.old) }
    {
        reserve(&mut self.history, &self.rows, 1)?;
        let (rows, pins) = self.rows.counts();
        self.history.push_reserved(Entry {
            who,
            call: Call::Count,
            reply: Reply::Counted { rows, pins },
        });
        Ok(Reply::Counted { rows, pins })
    }

    /// How many rows and how many pins there are. Takes no memory.
    pub fn counts(&self) -> (u64, u64)
        ensures rows { result.0 ≡ length (object_of self.now).rows }
        ensures pins { result.1 ≡ length (object_of self.now).pins }
        ensures sound { IsSound (object_of self.now) }
    {
        self.rows.counts()
    }

    /// Whether a caller may make a call: whether it has a pin on the row that the call names. Takes no memory, and time in
    /// proportion to the pins.
    pub fn may_call(&self, who: u32, call: &Call) -> bool
        ensures may { IsTrue result ↔ MayCall (object_of self.now) who call.now }
        ensures own { IsTrue result ↔ OwnsFor (of self.now.history who) call.now }
    {
        // whether it may depends on its own entries alone, since the history is legal
        let _history = self.history();
        self.is_open(who, call)
    }

    /// The same by the table's pins.
    fn is_open(&self, who: u32, call: &Call) -> bool
        ensures { IsTrue result ↔ MayCall (object_of self.now) who call.now }
    {
        match call {
            Call::Intern(tree) => {
                let _count = tree.len();
                true
            }
            Call::Pin(handle) => self.is_pinned(who, *handle),
            Call::Show(handle) => self.is_pinned(who, *handle),
            Call::Drop(handle) => self.is_pinned(who, *handle),
            Call::Sweep => true,
            Call::Count => true,
        }
    }

    /// Whether a caller has a pin on a row.
    fn is_pinned(&self, who: u32, handle: Handle) -> bool
        ensures { IsTrue result ↔ Contains (object_of self.now).pins (who, handle.0) }
    {
        self.rows.is_pinned(who, handle.0)
    }

    /// All calls that were made, with their replies. Takes no memory.
    pub fn history(&self) -> &[Entry]
        ensures list { result.now ≡ self.now.history }
        ensures legal { Legal self.now.cap self.now.history }
        ensures live { Live self.now.cap self.now.history }
    {
        self.history.as_slice()
    }

    /// The history alone. Takes no memory.
    pub fn into_history(self) -> Vec<Entry>
        ensures list { result.items ≡ self.history }
        ensures legal { Legal self.cap self.history }
        ensures live { Live self.cap self.history }
    {
        let Table { history, .. } = self;
        history
    }
}

/// Makes room for so many entries beside one for each pin.
fn reserve(history: &mut Vec<Entry>, rows: &Rows, entries: usize) -> Result<(), NoMemory>
    ensures items { history.new.items ≡ history.old.items }
    ensures no_less { history.old.cap - history.old.len ≤ history.new.cap - history.new.len }
    ensures room { OnOk result (length rows.now.table.pins + entries ≤ history.new.cap - history.new.len) }
{
    let (_, pins) = rows.counts();
    history.reserve((pins as usize).checked_add(entries).ok_or(NoMemory)?)?;
    Ok(())
}
