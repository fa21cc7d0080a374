//! Sources in memory.
ghost use Rattle.std.specs.Prelude.{◌≡◌, ◌<◌, ◌≤◌, min, length, take, Some};
ghost use Rattle.mars_base.specs.Faults.{Rose};
ghost use Rattle.mars_io.specs.Memory.{Reads, ReadsAll};
ghost use Rattle.mars_io.specs.Source.{GotAtMost, Gives};

use crate::source::{Source, Taken};
use mars_base::Faults;
use std::marker::Model;

/// Gives a list of bytes in pieces, and fails at the calls that are listed.
#[derive(Drop)]
pub struct Bytes {
    bytes: Vec<u8>,
    at: usize,
    most: usize,
    failing: Vec<u64>,
    calls: u64,
    faults: Faults,
}

impl Model for Bytes {
    ghost use Rattle.mars_io.specs.Memory.{Giver};

    ghost Value = { Giver };

    ghost use Rattle.std.specs.Prelude.{drop, ◌<◌, ◌≤◌, vec_len};

    ghost view = { λ s. record { left = drop s.at s.bytes.items; most = s.most; failing = s.failing.items; call = s.calls; faults = s.faults } };

    ghost invariant = { λ s. (s.at ≤ vec_len s.bytes) × (0 < s.most) };
}

impl Bytes {
    /// A source of these bytes that gives at most `most` a read, and fails at the reads whose numbers, from 0,
    /// are listed in `failing`.
    pub fn new(bytes: Vec<u8>, most: usize, failing: Vec<u64>) -> Bytes
        requires { 0 < most }
        ensures { result ≡ record { left = bytes.items; most = most; failing = failing.items; call = 0; faults = 0 } }
    {
        Bytes {
            bytes,
            at: 0,
            most,
            failing,
            calls: 0,
            faults: Faults::new(),
        }
    }
}

/// Copies what comes next, as much as there is room for.
fn give(bytes: &[u8], most: usize, into: &mut [u8]) -> usize
    ensures count { result ≡ min (min (length bytes.now) most) (length into.new) }
    ensures bytes { take result into.new ≡ take result bytes.now }
{
    let count = bytes.len().min(most).min(into.len());
    into[..count].copy_from_slice(&bytes[..count]);
    count
}

impl Source for Bytes {
    ghost use Rattle.std.specs.Prelude.{Some};

    ghost left = { λ s. Some s.left };

    ghost faults = { λ s. s.faults };

    /// Gives as many bytes as are left, as a read gives at most and as there is room for. Takes no memory.
    fn read(&mut self, into: &mut [u8]) -> Taken
        requires { 0 < length into.old }
        ensures reads { Reads self.old self.new result into.new }
        ensures bound { GotAtMost result (length into.new) }
        ensures bytes { Gives (Some self.old.left) (Some self.new.left) result into.new }
        ensures later { self.old.faults ≤ self.new.faults }
        ensures cause { result ≡ Taken.Failed → Rose self.old.faults self.new.faults }
    {
        let call = self.calls;
        self.calls = call.saturating_add(1);
        if self.failing.contains(&call) {
            self.faults.rise();
            return Taken::Failed;
        }
        let count = give(&self.bytes[self.at..], self.most, into);
        if count == 0 {
            return Taken::End;
        }
        self.at += count;
        Taken::Got(count)
    }
}

/// Gives a list of bytes, and never fails.
#[derive(Drop)]
pub struct NeverFails {
    bytes: Vec<u8>,
    at: usize,
}

impl Model for NeverFails {
    ghost use Rattle.std.specs.Prelude.{List, ℕ, drop, ◌≤◌, vec_len};

    ghost Value = { List ℕ };

    ghost view = { λ s. drop s.at s.bytes.items };

    ghost invariant = { λ s. s.at ≤ vec_len s.bytes };
}

impl NeverFails {
    /// A source of these bytes.
    pub fn new(bytes: Vec<u8>) -> NeverFails
        ensures { result ≡ bytes.items }
    {
        NeverFails { bytes, at: 0 }
    }
}

impl Source for NeverFails {
    ghost use Rattle.std.specs.Prelude.{Some};

    ghost left = { λ s. Some s };

    ghost faults = { λ s. 0 };

    /// Gives as many bytes as are left and as there is room for. Takes no memory.
    fn read(&mut self, into: &mut [u8]) -> Taken
        requires { 0 < length into.old }
        ensures reads { ReadsAll self.old self.new result into.new }
        ensures bound { GotAtMost result (length into.new) }
        ensures bytes { Gives (Some self.old) (Some self.new) result into.new }
    {
        let count = give(&self.bytes[self.at..], usize::MAX, into);
        if count == 0 {
            return Taken::End;
        }
        self.at += count;
        Taken::Got(count)
    }
}
