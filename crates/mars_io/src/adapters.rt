//! The adapters over std's readers and writers.
ghost use Rattle.std.specs.Prelude.{◌≡◌, ◌≤◌};
ghost use Rattle.mars_base.specs.Faults.{risen};

use crate::sink::{Put, Sink};
use crate::source::{Source, Taken};
use mars_base::Faults;
use std::io::{Read, Write};

/// A reader as a source: each error is a fault, and a read of nothing is the end.
#[derive(Drop)]
pub struct FromReader<R> {
    inner: R,
    faults: Faults,
}

impl<R: Read> FromReader<R> {
    /// The reader as it is, with no fault so far.
    pub fn new(reader: R) -> FromReader<R>
        ensures left { ⟦<FromReader<R> as Source>⟧.left result ≡ R.remaining reader }
        ensures faults { result.faults ≡ 0 }
    {
        FromReader {
            inner: reader,
            faults: Faults::new(),
        }
    }
}

impl<R: Read> Source for FromReader<R> {
    ghost left = { λ s. R.remaining s.inner };

    ghost faults = { λ s. s.faults };

    fn read(&mut self, into: &mut [u8]) -> Taken {
        match self.inner.read(into) {
            Ok(0) => Taken::End,
            Ok(count) => Taken::Got(count),
            Err(_) => {
                self.faults.rise();
                Taken::Failed
            }
        }
    }
}

/// A writer as a sink: each error is a fault, and so is a write of nothing.
#[derive(Drop)]
pub struct ToWriter<W> {
    inner: W,
    faults: Faults,
}

impl<W: Write> ToWriter<W> {
    /// The writer as it is, with no fault so far.
    pub fn new(writer: W) -> ToWriter<W>
        ensures got { ⟦<ToWriter<W> as Sink>⟧.got result ≡ W.contents writer }
        ensures faults { result.faults ≡ 0 }
    {
        ToWriter {
            inner: writer,
            faults: Faults::new(),
        }
    }

    /// Counts a fault.
    fn fault(&mut self)
        ensures one_more { self.new.faults ≡ risen self.old.faults }
        ensures later { self.old.faults ≤ self.new.faults }
        ensures inner { self.new.inner ≡ self.old.inner }
    {
        self.faults.rise();
    }
}

impl<W: Write> Sink for ToWriter<W> {
    ghost got = { λ s. W.contents s.inner };

    ghost faults = { λ s. s.faults };

    fn write(&mut self, piece: &[u8]) -> Put {
        let mut rest = piece;
        while !rest.is_empty() {
            match self.inner.write(rest) {
                Ok(0) => {
                    self.fault();
                    return Put::Failed;
                }
                Ok(count) => rest = &rest[count..],
                Err(_) => {
                    self.fault();
                    return Put::Failed;
                }
            }
        }
        Put::All
    }
}
