//! A table that threads call by turns, each with a pass of its own, and doors to it.
#![tactic(auto)]

mod book;
mod book_door;
mod book_pass;
mod interned;
mod sends;
mod shared_table;

pub use book::Book;
pub use book_door::BookDoor;
pub use book_pass::BookPass;
pub use interned::Interned;
pub use shared_table::SharedTable;
