//! A book is shared among threads, and a pass moves into one.
use crate::book::Book;
use crate::book_pass::BookPass;

fn shared<T: Send + Sync>(_value: &T) {}

fn moves<T: Send>(_value: &T) {}

pub(crate) fn cross(book: &Book, pass: &BookPass) {
    shared(book);
    moves(pass);
}
