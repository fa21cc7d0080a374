//! Measures the texts of trees: how many bytes a second `print_tree` writes for a list, a ring and a wide tuple.
//!
//! Without words it writes how many bytes each text has at a small size. With the words `SHAPE SIZE CALLS`, where SHAPE is
//! `list`, `ring` or `tuple`, it writes how many bytes the text has, and how many are written in a second.
mod shapes;
mod times;

use crate::failing::no_memory;
use crate::texts::shapes::{Sample, Shape, make_sample};
use crate::texts::times::{nanoseconds, text_length};
use crate::words::Words;
use mars_base::NoMemory;
use std::alloc::Global;
use std::io;
use std::time::Clock;

/// Measures as the words say.
pub(crate) fn measure<R: Print + AllocGlobal + Clock>(rt: &R, words: Words) -> io::Result<()> {
    match read_task(words) {
        Some((shape, size, calls)) => write_rate(rt, shape, size, calls),
        None => write_lengths(rt),
    }
}

/// Writes how many bytes each text has at a small size.
fn write_lengths<R: Print + AllocGlobal>(rt: &R) -> io::Result<()> {
    for shape in [Shape::List, Shape::Ring, Shape::Tuple] {
        let bytes = small_text(rt.alloc(), shape).map_err(no_memory)?;
        println!(rt; "{shape:?}: {bytes} bytes")?;
    }
    Ok(())
}

/// Writes how many bytes a text has, and how many are written in a second.
fn write_rate<R: Print + AllocGlobal + Clock>(
    rt: &R,
    shape: Shape,
    size: usize,
    calls: u64,
) -> io::Result<()> {
    let sample = make_sample(rt.alloc(), shape, size).map_err(no_memory)?;
    let bytes = text_length(rt.alloc(), &sample).map_err(no_memory)?;
    let time = nanoseconds(rt, rt.alloc(), &sample, calls)?;
    println!(rt;
        "{shape:?} {size}: {bytes} bytes, {} bytes a second",
        rate(time, bytes, calls)
    )
}

/// How many bytes the text of a small shape has.
fn small_text(alloc: Global, shape: Shape) -> Result<usize, NoMemory> {
    let sample = make_sample(alloc, shape, 1000)?;
    text_length(alloc, &sample)
}

/// The words as a task, where they are one.
fn read_task(words: Words) -> Option<(Shape, usize, u64)> {
    let Words {
        first,
        second,
        third,
    } = words;
    let (shape, size, calls) = (first?, second?, third?);
    let shape = match shape.as_str() {
        "list" => Shape::List,
        "ring" => Shape::Ring,
        "tuple" => Shape::Tuple,
        _ => return None,
    };
    Some((
        shape,
        size.as_str().parse().ok()?,
        calls.as_str().parse().ok()?,
    ))
}

/// Whole bytes a second, of so many nanoseconds for so many texts.
fn rate(time: u128, bytes: usize, calls: u64) -> u128 {
    let all = (bytes as u128).saturating_mul(u128::from(calls));
    all.saturating_mul(1_000_000_000) / time.max(1)
}
