//! A door to a book with a gate at each call.
ghost use Rattle.std.specs.Prelude.{◌≡◌, false, [], ◌∷◌, ◌++◌, IfOk, OnErr};
ghost use Rattle.std.proofs.Common.{refl, ◌∙◌};
ghost use Rattle.mars_table.specs.Door.{SeesMore};
ghost use Rattle.mars_table.specs.History.{OwnsFor, call_entry};
ghost use Rattle.mars_book.specs.PassSeen.{KnowsHistory};
ghost use Rattle.mars_book.specs.Books.{IsPassOf};
ghost use Rattle.mars_book.specs.Stays.{SamePass, same_pass, same_on};

use mars_base::NoMemory;
use mars_book::{Book, BookDoor, BookPass};
use mars_io::Gate;
use mars_table::{Call, Door, Reply};
use std::sync::Wait;

/// A book and a pass of it, lent to call the table through a gate. Others may call meanwhile.
#[derive(Drop)]
pub(crate) struct GateDoor<'a, G: Gate, R: Wait> {
    book: &'a Book,
    pass: &'a mut BookPass,
    gate: &'a G,
    rt: &'a R,
    /// How many calls were made, as far as a u64 counts.
    nth: u64,
    ghost of: { IsPassOf book.now pass.now },
}

impl<'a, G: Gate, R: Wait> GateDoor<'a, G, R> {
    /// Lends a book and a pass of it, which has made so many calls. Takes no memory.
    pub(crate) fn new(
        rt: &'a R,
        book: &'a Book,
        pass: &'a mut BookPass,
        gate: &'a G,
        nth: u64,
    ) -> GateDoor<'a, G, R>
        requires { IsPassOf book.now pass.old }
        ensures pass { result.pass ≡ pass.entry }
        ensures book { result.book.now ≡ book.now }
    {
        GateDoor {
            book,
            pass,
            gate,
            rt,
            nth,
        }
    }

    /// How many calls were made. Takes no memory.
    pub(crate) fn calls(&self) -> u64 {
        self.nth
    }
}

impl<'a, G: Gate, R: Wait> Door for GateDoor<'a, G, R> {
    ghost who = { λ d. d.pass.now.view.number };

    ghost cap = { λ d. d.book.now.cap };

    ghost mine = { λ d. d.pass.now.view.mine };

    ghost seen = { λ d. d.pass.now.view.seen };

    ghost lone = { λ d. false };

    ghost Stays = { λ d e. (e.pass.ghost_name ≡ d.pass.ghost_name) × SamePass d.pass.now e.pass.now };

    ghost stays_itself = { λ d. (refl, same_pass d.pass.now) };

    ghost stays_on = { λ d e f p q. (q.0 ∙ p.0, same_on d.pass.now e.pass.now f.pass.now p.1 q.1) };

    fn number(&self) -> u32 {
        self.pass.number()
    }

    fn call(&mut self, call: Call) -> Result<Reply, NoMemory> {
        let who = self.pass.number();
        self.gate.before(self.rt, who, self.nth);
        let reply = call_book(self.rt, self.book, self.pass, call);
        self.gate.after(self.rt, who, self.nth);
        self.nth = self.nth.saturating_add(1);
        reply
    }
}

/// Makes a call of the table, in turn.
fn call_book<R: Wait>(
    rt: &R,
    book: &Book,
    pass: &mut BookPass,
    call: Call,
) -> Result<Reply, NoMemory>
    requires of { IsPassOf book.now pass.old }
    requires may { OwnsFor pass.old.view.mine call }
    ensures same { SamePass pass.old pass.new }
    ensures mine { IfOk result (λ reply. pass.new.view.mine ≡ pass.old.view.mine ++ call_entry pass.old.view.number call reply ∷ []) }
    ensures seen { IfOk result (λ reply. SeesMore false pass.old.view.seen pass.new.view.seen (call_entry pass.old.view.number call reply)) }
    ensures as_before { OnErr result ((pass.new.view.mine ≡ pass.old.view.mine) × (pass.new.view.seen ≡ pass.old.view.seen)) }
    ensures knows { KnowsHistory pass.new.view }
{
    let reply = BookDoor::new(rt, book, pass).call(call);
    let _number = pass.number();
    reply
}
