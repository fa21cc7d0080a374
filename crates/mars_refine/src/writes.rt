//! One value at many places.
ghost use Rattle.std.specs.Prelude.{◌≡◌, ◌<◌, ◌≤◌, length, All};
ghost use Rattle.mars_refine.specs.Writes.{put_all};

use mars_base::{NumberPart, Numbers};

/// Writes a value at each of the places.
pub fn write_all(values: &mut Numbers, places: &NumberPart<'_>, value: usize)
    requires places_in { All (λ p. p < length values.old.items) places.now }
    requires fits { value ≤ values.old.most }
    ensures items { values.new.items ≡ put_all values.old.items places.now value }
    ensures most { values.new.most ≡ values.old.most }
{
    for index in 0..places.len() {
        values.set(places.get(index), value);
    }
}
