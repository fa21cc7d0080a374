//! What a run gives.
use mars_table::Entry;

/// What a run gives: the text, the history of the table, and whether a session was cut.
#[derive(Drop)]
pub struct Ran {
    pub text: Vec<u8>,
    pub history: Vec<Entry>,
    pub cut: bool,
}
