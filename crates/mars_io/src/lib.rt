//! The outside: a source of bytes and a sink for bytes, each with a count of its faults, and gates for sessions in threads.
#![tactic(auto)]

mod adapters;
mod buffer;
mod bytes;
mod gate;
mod sink;
mod source;
mod whole;

pub use adapters::{FromReader, ToWriter};
pub use buffer::Buffer;
pub use bytes::{Bytes, NeverFails};
pub use gate::{Gate, OpenGate};
pub use sink::{Put, Sink};
pub use source::{Source, Taken};
pub use whole::{SourceError, read_whole};
