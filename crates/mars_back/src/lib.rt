//! The law of reading back: what the reader of trees gives for a printed text.
#![tactic(auto)]

mod laws;

pub use laws::{solutions_keep_walks, texts_read_back};
