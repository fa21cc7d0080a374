//! What a turn, or a lock, keeps: a count.
ghost use Rattle.std.specs.Prelude.{◌≡◌, [], List};

use mars_turn::Listed;

/// A count. It has no history.
#[derive(Drop)]
pub(crate) struct Counter {
    pub(crate) count: u64,
}

impl Listed for Counter {
    type Item = u32;

    ghost list = { λ c. [] };

    ghost fixed = { λ c. 0 };

    ghost by = { λ caller. caller };

    fn caller(item: &u32) -> u32 {
        *item
    }
}

impl Counter {
    /// One more.
    pub(crate) fn step(&mut self) {
        self.count = self.count.wrapping_add(1);
    }
}
