//! Where the bytes go.
ghost use Rattle.std.specs.Prelude.{◌≡◌, ◌<◌, ◌≤◌, ℕ, List, length, Option};
ghost use Rattle.mars_base.specs.Faults.{Rose};
ghost use Rattle.mars_io.specs.Sink.{Takes};

/// What became of a piece.
#[derive(Clone, Copy, Debug, PartialEq, Eq)]
pub enum Put {
    /// The whole piece was appended.
    All,
    /// There was a fault; a beginning of the piece was appended.
    Failed,
}

/// A sink for bytes, which are appended in order.
pub trait Sink {
    /// The bytes that came, where the sink tells them.
    ghost got: { Self → Option (List ℕ) };

    /// How many faults there were.
    ghost faults: { Self → ℕ };

    /// Appends a piece.
    fn write(&mut self, piece: &[u8]) -> Put
        requires { 0 < length piece.now }
        ensures bytes { Takes (got self.old) (got self.new) result piece.now }
        ensures later { faults self.old ≤ faults self.new }
        ensures cause { result ≡ Put.Failed → Rose (faults self.old) (faults self.new) };
}
