//! What printing takes.
use crate::texts::shapes::Sample;
use mars_base::NoMemory;
use mars_print::print_tree;
use std::alloc::Global;
use std::io;
use std::time::{Clock, Instant};

/// How many bytes the text of a sample has; none where it hasn't one root.
pub fn text_length(alloc: Global, sample: &Sample) -> Result<usize, NoMemory> {
    let mut text = Vec::new(alloc);
    if sample.canon.roots().len() == 1 {
        print_tree(&sample.names, &sample.canon, &mut text)?;
    }
    Ok(text.len())
}

/// The nanoseconds of so many texts.
pub fn nanoseconds(
    clock: &impl Clock,
    alloc: Global,
    sample: &Sample,
    calls: u64,
) -> io::Result<u128> {
    let start = Instant::now(clock)?;
    for _ in 0..calls {
        if text_length(alloc, sample).is_err() {
            return Err(io::Error::from(io::ErrorKind::OutOfMemory));
        }
    }
    Ok(start.elapsed(clock)?.as_nanos())
}
