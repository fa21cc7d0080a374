//! Where the bytes come from.
ghost use Rattle.std.specs.Prelude.{◌≡◌, ◌<◌, ◌≤◌, ℕ, List, length, Option};
ghost use Rattle.mars_base.specs.Faults.{Rose};
ghost use Rattle.mars_io.specs.Source.{GotAtMost, Gives};

/// What a read gave.
#[derive(Clone, Copy, Debug, PartialEq, Eq)]
pub enum Taken {
    /// So many bytes, at least one.
    Got(usize),
    /// Nothing is left.
    End,
    /// There was a fault.
    Failed,
}

/// A source of bytes, which are read once and in order.
pub trait Source {
    /// The bytes that are left, where the source tells them.
    ghost left: { Self → Option (List ℕ) };

    /// How many faults there were.
    ghost faults: { Self → ℕ };

    /// Puts the next bytes at the start of `into`, at least one and as many as the source likes.
    fn read(&mut self, into: &mut [u8]) -> Taken
        requires { 0 < length into.old }
        ensures bound { GotAtMost result (length into.new) }
        ensures bytes { Gives (left self.old) (left self.new) result into.new }
        ensures later { faults self.old ≤ faults self.new }
        ensures cause { result ≡ Taken.Failed → Rose (faults self.old) (faults self.new) };
}
