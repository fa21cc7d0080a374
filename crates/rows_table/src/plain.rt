//! A table as a plain list of rows, beside which the real one is put, and small trees that look random.
mod drawn;
mod finding;
mod listed;

pub use drawn::{Sample, draw_sample};
pub use listed::{PlainReply, PlainTable};
