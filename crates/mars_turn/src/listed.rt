//! Values that a turn can have.
ghost use Rattle.std.specs.Prelude.{◌≡◌, ℕ, List};

/// A value with a list of items, each of which has a caller. It can be dropped, since `Turn::open` drops it where it is
/// out of memory.
pub trait Listed: Drop {
    type Item;

    /// The history.
    ghost list: { Self → List Self.Item };

    /// A number that stays the same.
    ghost fixed: { Self → ℕ };

    /// The number of an item's caller.
    ghost by: { Self.Item → ℕ };

    /// The number of an item's caller.
    fn caller(item: &Self::Item) -> u32
        ensures { result ≡ by item.now };
}
