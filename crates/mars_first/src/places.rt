//! A component by the places of its nodes.
ghost use Rattle.std.specs.Prelude.{◌≡◌, ◌<◌, length};
ghost use Rattle.mars_first.specs.PlacesInside.{kids_of_place, number_at};

/// The number of each place's row, and the kids of each place that are of the component.
#[derive(Drop)]
pub(crate) struct Places {
    pub(crate) numbers: Vec<usize>,
    pub(crate) kids: Vec<Vec<usize>>,
}

impl Places {
    /// The number of a place's row.
    pub(crate) fn number(&self, place: usize) -> usize
        requires { place < length self.now.numbers.items }
        ensures { result ≡ number_at self.now place }
    {
        self.numbers[place]
    }

    /// The kids of a place.
    pub(crate) fn kids(&self, place: usize) -> &[usize]
        requires { place < length self.now.kids.items }
        ensures { result.now ≡ kids_of_place self.now place }
    {
        &self.kids[place]
    }
}
