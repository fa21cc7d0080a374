//! The door to a book.
ghost use Rattle.std.specs.Prelude.{◌≡◌, false};
ghost use Rattle.std.proofs.Common.{refl, ◌∙◌};
ghost use Rattle.mars_book.specs.Books.{IsPassOf};
ghost use Rattle.mars_book.specs.Stays.{SamePass, same_pass, same_on};

use crate::book::Book;
use crate::book_pass::BookPass;
use mars_base::NoMemory;
use mars_table::{Call, Door, Reply};
use std::sync::Wait;

/// A book and a pass of it, lent to call the table. Others may call meanwhile.
#[derive(Drop)]
pub struct BookDoor<'a, R: Wait> {
    book: &'a Book,
    pass: &'a mut BookPass,
    rt: &'a R,
    ghost of: { IsPassOf book.now pass.now },
}

impl<'a, R: Wait> BookDoor<'a, R> {
    /// Lends a book and a pass of it. Takes no memory.
    pub fn new(rt: &'a R, book: &'a Book, pass: &'a mut BookPass) -> BookDoor<'a, R>
        requires { IsPassOf book.now pass.old }
        ensures pass { result.pass ≡ pass.entry }
        ensures book { result.book.now ≡ book.now }
    {
        BookDoor { book, pass, rt }
    }
}

impl<'a, R: Wait> Door for BookDoor<'a, R> {
    ghost who = { λ d. d.pass.now.view.number };

    ghost cap = { λ d. d.book.now.cap };

    ghost mine = { λ d. d.pass.now.view.mine };

    ghost seen = { λ d. d.pass.now.view.seen };

    ghost lone = { λ d. false };

    ghost Stays = { λ d e. (e.pass.ghost_name ≡ d.pass.ghost_name) × SamePass d.pass.now e.pass.now };

    ghost stays_itself = { λ d. (refl, same_pass d.pass.now) };

    ghost stays_on = { λ d e f p q. (q.0 ∙ p.0, same_on d.pass.now e.pass.now f.pass.now p.1 q.1) };

    fn number(&self) -> u32 {
        self.pass.number()
    }

    fn call(&mut self, call: Call) -> Result<Reply, NoMemory> {
        self.book.call(self.rt, self.pass, call)
    }
}
