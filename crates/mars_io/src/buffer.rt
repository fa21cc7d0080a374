//! A sink in memory.
ghost use Rattle.std.specs.Prelude.{◌≡◌, ◌≤◌, [], Some, IfOk};
ghost use Rattle.mars_base.specs.Faults.{Rose};
ghost use Rattle.mars_io.specs.Memory.{Writes};
ghost use Rattle.mars_io.specs.Sink.{Takes};

use crate::sink::{Put, Sink};
use mars_base::{Faults, NoMemory};
use std::alloc::Global;
use std::marker::Model;

/// Keeps the bytes that come, in room that is reserved from the start. It fails at the calls that are listed and at a piece that doesn't
/// fit in the room, and keeps nothing of a piece at which it fails.
#[derive(Drop)]
pub struct Buffer {
    bytes: Vec<u8>,
    room: usize,
    failing: Vec<u64>,
    calls: u64,
    faults: Faults,
}

impl Model for Buffer {
    ghost use Rattle.std.specs.Prelude.{◌+◌, ◌≤◌, vec_len, vec_capacity};
    ghost use Rattle.mars_io.specs.Memory.{Keeper};

    ghost Value = { Keeper };

    ghost view = { λ s. record { got = s.bytes.items; room = s.room; failing = s.failing.items; call = s.calls; faults = s.faults } };

    ghost invariant = { λ s. vec_len s.bytes + s.room ≤ vec_capacity s.bytes };
}

impl Buffer {
    /// A sink with room for so many bytes that fails at the writes whose numbers, from 0, are listed in `failing`.
    pub fn new(alloc: Global, room: usize, failing: Vec<u64>) -> Result<Buffer, NoMemory>
        ensures { IfOk result (λ b. b ≡ record { got = []; room = room; failing = failing.items; call = 0; faults = 0 }) }
    {
        let bytes = Vec::with_capacity(alloc, room)?;
        Ok(Buffer {
            bytes,
            room,
            failing,
            calls: 0,
            faults: Faults::new(),
        })
    }

    /// The bytes that came. Takes no memory.
    pub fn got(&self) -> &[u8]
        ensures { result.now ≡ self.now.got }
    {
        &self.bytes
    }
}

impl Sink for Buffer {
    ghost use Rattle.std.specs.Prelude.{Some};

    ghost got = { λ s. Some s.got };

    ghost faults = { λ s. s.faults };

    /// Takes the whole piece, or fails and keeps nothing of it. Takes no memory.
    fn write(&mut self, piece: &[u8]) -> Put
        ensures writes { Writes self.old self.new result piece.now }
        ensures bytes { Takes (Some self.old.got) (Some self.new.got) result piece.now }
        ensures later { self.old.faults ≤ self.new.faults }
        ensures cause { result ≡ Put.Failed → Rose self.old.faults self.new.faults }
    {
        let call = self.calls;
        self.calls = call.saturating_add(1);
        if self.failing.contains(&call) || piece.len() > self.room {
            self.faults.rise();
            return Put::Failed;
        }
        let Ok(()) = self.bytes.extend_from_slice(piece) else {
            unreachable!()
        };
        self.room -= piece.len();
        Put::All
    }
}
