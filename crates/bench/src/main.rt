//! Measures what calls take. The first word names what is measured, and those after it say how; each measurement's file
//! tells its words.
//!
//! With a name alone, it makes that measurement's small runs, and writes what comes out without times. Without words, it
//! makes those of all measurements, each after a line with its name: `stdout` has what must come.
#![tactic(auto)]

mod book;
mod difs;
mod equations;
mod failing;
mod forms;
mod linking;
mod rows;
mod rules;
mod table;
mod texts;
mod turn;
mod words;

use crate::words::Words;
use std::sync::Wait;
use std::thread::Threads;
use std::time::Clock;
use std::{env, io};

/// All that is measured.
const NAMES: [&str; 9] = [
    "equations",
    "difs",
    "rules",
    "forms",
    "texts",
    "rows",
    "table",
    "turn",
    "book",
];

fn main(rt: HostRuntime) -> io::Result<()> {
    let mut words = env::args(&rt)?;
    let _program = words.next();
    match words.next() {
        Some(name) => {
            let words = Words {
                first: words.next(),
                second: words.next(),
                third: words.next(),
            };
            measure(&rt, name.as_str(), words)
        }
        None => measure_all(&rt),
    }
}

/// Makes the small runs of all measurements.
fn measure_all<R: Threads + Wait + Sync + Clock + Print + AllocGlobal>(rt: &R) -> io::Result<()> {
    for name in NAMES {
        println!(rt; "-- {name}")?;
        measure(rt, name, Words::none())?;
    }
    Ok(())
}

/// Makes the measurement of a name.
fn measure<R: Threads + Wait + Sync + Clock + Print + AllocGlobal>(
    rt: &R,
    name: &str,
    words: Words,
) -> io::Result<()> {
    match name {
        "turn" => turn::measure(rt, words),
        "book" => book::measure(rt, words),
        _ => measure_alone(rt, name, words),
    }
}

/// Makes the measurement of a name, of those that run in one thread.
fn measure_alone<R: Clock + Print + AllocGlobal>(
    rt: &R,
    name: &str,
    words: Words,
) -> io::Result<()> {
    match name {
        "equations" => equations::measure(rt, words),
        "difs" => difs::measure(rt, words),
        "rules" => rules::measure(rt, words),
        "forms" => forms::measure(rt, words),
        "texts" => texts::measure(rt, words),
        "rows" => rows::measure(rt, words),
        "table" => table::measure(rt, words),
        _ => println!(rt; "nothing that is measured has the name {name}"),
    }
}
