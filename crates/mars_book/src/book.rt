//! The book: a table that threads share, one call at a time.
ghost use Rattle.std.specs.Prelude.{◌≡◌, ◌∷◌, [], IfOk, OnErr, IsOk};
ghost use mathlib.Core.List.{IsPrefix};
ghost use Rattle.mars_canon.specs.Tree.{IsTree};
ghost use Rattle.mars_rows.specs.Sound.{IsSound};
ghost use Rattle.mars_turn.specs.Items.{AllMade};
ghost use Rattle.mars_turn.specs.Steps.{opening_view, after_split, split_off, joined_view, settled_view};
ghost use Rattle.mars_turn.specs.Views.{CanSplit, IsComplete, OnlyOf};
ghost use Rattle.mars_table.specs.declared.entry.Call.TheVariants.{Intern, Pin, Show, Drop, Sweep, Count};
ghost use Rattle.mars_table.specs.declared.entry.Reply.TheVariants.{Pinned, Shown, Dropped, Swept, Counted};
ghost use Rattle.mars_table.specs.History.{Legal, OwnsFor, of};
ghost use Rattle.mars_table.specs.TableSeen.{object_of, IsDrop};
ghost use Rattle.mars_book.specs.PassSeen.{KnowsHistory, knowing};
ghost use Rattle.mars_book.specs.BookCalls.{Called, interned_reply};
ghost use Rattle.mars_book.specs.Books.{IsPassOf};

use crate::book_pass::BookPass;
use crate::interned::Interned;
use crate::shared_table::SharedTable;
use mars_base::NoMemory;
use mars_canon::Tree;
use mars_table::{Call, Handle, Reply, Table};
use mars_turn::Turn;
use std::alloc::Global;
use std::sync::Wait;

/// A table that threads call by turns. A pass is used with the book that made it.
#[derive(Drop)]
pub struct Book {
    turn: Turn<SharedTable>,
    cap: u64,
}

impl Book {
    /// A book with an empty table of at most `cap` rows, and its opening pass, number 0.
    pub fn open(alloc: Global, cap: u64) -> Result<(Book, BookPass), NoMemory>
        ensures of { IfOk result (λ r. IsPassOf r.0 r.1) }
        ensures limit { IfOk result (λ r. r.0.cap ≡ cap) }
        ensures opening { IfOk result (λ r. r.1.view ≡ opening_view cap) }
        ensures knows { IfOk result (λ r. KnowsHistory r.1.view) }
    {
        let table = Table::new(alloc, cap);
        let (turn, pass) = Turn::open(alloc, SharedTable { table })?;
        Ok((Book { turn, cap }, BookPass { pass }))
    }

    /// How many rows there may be. Takes no memory.
    pub fn limit(&self) -> u64
        ensures { result ≡ self.now.cap }
    {
        self.cap
    }

    /// Makes another pass: the k-th has number k, has made nothing, and has seen what the opening pass has seen. It takes
    /// no memory and doesn't wait.
    pub fn split(&self, first: &mut BookPass) -> BookPass
        requires of { IsPassOf self.now first.old }
        requires opening { CanSplit first.old.view }
        ensures of { IsPassOf self.now first.new × IsPassOf self.now result }
        ensures opening { first.new ≡ knowing first.old (after_split first.old.view) }
        ensures new { result ≡ knowing first.old (split_off first.old.view) }
        ensures knows { KnowsHistory result.view }
    {
        let pass = self.turn.split(&mut first.pass);
        BookPass { pass }
    }

    /// Makes a call of the table, in turn.
    pub(crate) fn call<R: Wait>(
        &self,
        rt: &R,
        pass: &mut BookPass,
        call: Call,
    ) -> Result<Reply, NoMemory>
        requires of { IsPassOf self.now pass.old }
        requires may { OwnsFor pass.old.view.mine call }
        ensures of { IsPassOf self.now pass.new }
        ensures called { IfOk result (λ reply. Called pass.old call reply pass.new) }
        ensures drops { IsDrop call → IsOk result }
        ensures as_before { OnErr result (pass.new ≡ pass.old) }
        ensures knows { KnowsHistory pass.new.view }
    {
        let who = pass.pass.number();
        let mut shared = self.turn.enter(rt, &mut pass.pass);
        // what the history says of the calls that the caller may make, before the call and after it
        let _before = shared.table.history();
        let reply = shared.table.apply(who, call);
        let _after = shared.table.history();
        self.turn.leave(&mut pass.pass, shared);
        reply
    }

    /// Keeps a tree, with a pin of the caller on it. It may wait for ever.
    pub fn intern<R: Wait>(
        &self,
        rt: &R,
        pass: &mut BookPass,
        tree: Tree,
    ) -> Result<Interned, NoMemory>
        requires of { IsPassOf self.now pass.old }
        requires tree { IsTree tree }
        ensures of { IsPassOf self.now pass.new }
        ensures called { IfOk result (λ answer. Called pass.old (Intern tree) (interned_reply answer) pass.new) }
        ensures as_before { OnErr result (pass.new ≡ pass.old) }
        ensures knows { KnowsHistory pass.new.view }
    {
        match self.call(rt, pass, Call::Intern(tree))? {
            Reply::Kept(handle) => Ok(Interned::Kept(handle)),
            Reply::Full { rows, fresh, cap } => Ok(Interned::Full { rows, fresh, cap }),
            _ => unreachable!(),
        }
    }

    /// Puts one more pin on a row on which the caller has one. It may wait for ever.
    pub fn pin<R: Wait>(&self, rt: &R, pass: &mut BookPass, handle: Handle) -> Result<(), NoMemory>
        requires of { IsPassOf self.now pass.old }
        requires may { OwnsFor pass.old.view.mine (Pin handle) }
        ensures of { IsPassOf self.now pass.new }
        ensures called { IfOk result (λ _. Called pass.old (Pin handle) Pinned pass.new) }
        ensures as_before { OnErr result (pass.new ≡ pass.old) }
        ensures knows { KnowsHistory pass.new.view }
    {
        let _pinned = self.call(rt, pass, Call::Pin(handle))?;
        Ok(())
    }

    /// Gives the tree of a row on which the caller has a pin. It may wait for ever.
    pub fn show<R: Wait>(
        &self,
        rt: &R,
        pass: &mut BookPass,
        handle: Handle,
    ) -> Result<Tree, NoMemory>
        requires of { IsPassOf self.now pass.old }
        requires may { OwnsFor pass.old.view.mine (Show handle) }
        ensures of { IsPassOf self.now pass.new }
        ensures called { IfOk result (λ tree. Called pass.old (Show handle) (Shown tree) pass.new) }
        ensures as_before { OnErr result (pass.new ≡ pass.old) }
        ensures knows { KnowsHistory pass.new.view }
    {
        match self.call(rt, pass, Call::Show(handle))? {
            Reply::Shown(tree) => Ok(tree),
            _ => unreachable!(),
        }
    }

    /// Takes one pin of the caller off a row. It takes no memory, and may wait for ever.
    pub fn drop<R: Wait>(&self, rt: &R, pass: &mut BookPass, handle: Handle)
        requires of { IsPassOf self.now pass.old }
        requires may { OwnsFor pass.old.view.mine (Drop handle) }
        ensures of { IsPassOf self.now pass.new }
        ensures called { Called pass.old (Drop handle) Dropped pass.new }
        ensures knows { KnowsHistory pass.new.view }
    {
        let Ok(_dropped) = self.call(rt, pass, Call::Drop(handle)) else {
            unreachable!()
        };
    }

    /// Takes away the rows that no walk from a pin meets, and tells how many went. It may wait for ever.
    pub fn sweep<R: Wait>(&self, rt: &R, pass: &mut BookPass) -> Result<u64, NoMemory>
        requires of { IsPassOf self.now pass.old }
        ensures of { IsPassOf self.now pass.new }
        ensures called { IfOk result (λ gone. Called pass.old Sweep (Swept gone) pass.new) }
        ensures as_before { OnErr result (pass.new ≡ pass.old) }
        ensures knows { KnowsHistory pass.new.view }
    {
        match self.call(rt, pass, Call::Sweep)? {
            Reply::Swept(gone) => Ok(gone),
            _ => unreachable!(),
        }
    }

    /// Counts rows and pins. It may wait for ever.
    pub fn count<R: Wait>(&self, rt: &R, pass: &mut BookPass) -> Result<(u64, u64), NoMemory>
        requires of { IsPassOf self.now pass.old }
        ensures of { IsPassOf self.now pass.new }
        ensures called { IfOk result (λ n. Called pass.old Count (Counted n.0 n.1) pass.new) }
        ensures as_before { OnErr result (pass.new ≡ pass.old) }
        ensures knows { KnowsHistory pass.new.view }
    {
        match self.call(rt, pass, Call::Count)? {
            Reply::Counted { rows, pins } => Ok((rows, pins)),
            _ => unreachable!(),
        }
    }

    /// Makes one pass of two: `from` ends in `into`. The pass has the number and the entries of `into`, and has seen the
    /// longer of the two histories, which the other begins. It takes no memory and doesn't wait.
    pub fn meet(&self, from: BookPass, into: BookPass) -> BookPass
        requires of { IsPassOf self.now from × IsPassOf self.now into }
        ensures of { IsPassOf self.now result }
        ensures met { result ≡ knowing into (settled_view (joined_view into.view from.view)) }
        ensures seen { IsPrefix into.view.seen result.view.seen × IsPrefix from.view.seen result.view.seen }
        ensures knows { KnowsHistory result.view }
    {
        let BookPass { pass: from } = from;
        let BookPass { pass: into } = into;
        let pass = self.turn.join(from, into);
        BookPass { pass }
    }

    /// The table, once every other pass has met this one. Its history begins with all that the pass has seen; it has the
    /// entries of the pass and of those that ended in it, and no others. It takes no memory and doesn't wait.
    pub fn close(self, pass: BookPass) -> Table
        requires of { IsPassOf self pass }
        requires complete { IsComplete pass.view }
        ensures limit { result.cap ≡ self.cap }
        ensures sound { IsSound (object_of result) }
        ensures legal { Legal result.cap result.history }
        ensures seen { IsPrefix pass.view.seen result.history }
        ensures own { of result.history pass.view.number ≡ pass.view.mine }
        ensures ended { AllMade (λ e. e.who) result.history pass.view.ended }
        ensures no_others { OnlyOf (λ e. e.who) pass.view result.history }
    {
        let BookPass { pass } = pass;
        let Book { turn, .. } = self;
        let SharedTable { table } = turn.close(pass);
        let _counts = table.counts();
        let _history = table.history();
        table
    }
}
