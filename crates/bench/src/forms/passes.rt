//! What a pass takes: the smallest graph, or the canonical one.
ghost use Rattle.std.specs.Prelude.{◌<◌, length};

use mars_base::NoMemory;
use mars_canon::canon;
use mars_minim::minimise;
use mars_tree::Graph;
use std::alloc::Global;
use std::io;
use std::time::{Clock, Instant};

/// What is measured.
#[derive(Clone, Copy, Debug, PartialEq, Eq)]
pub enum Pass {
    Minimise,
    Canon,
}

/// How many trees a node reaches, as the pass finds it.
fn trees(alloc: Global, pass: Pass, graph: &Graph, root: usize) -> Result<usize, NoMemory>
    requires { root < length graph.now }
{
    match pass {
        Pass::Minimise => Ok(minimise(alloc, graph, &[root])?.graph.len()),
        Pass::Canon => Ok(canon(alloc, graph, &[root])?.len()),
    }
}

/// How many trees the last node reaches, as the pass finds it.
pub fn trees_of_last(alloc: Global, pass: Pass, graph: &Graph) -> Result<usize, NoMemory> {
    match graph.len().checked_sub(1) {
        Some(root) => trees(alloc, pass, graph, root),
        None => Ok(0),
    }
}

/// The nanoseconds of so many passes.
pub fn nanoseconds(
    clock: &impl Clock,
    alloc: Global,
    pass: Pass,
    graph: &Graph,
    calls: u64,
) -> io::Result<u128> {
    let start = Instant::now(clock)?;
    for _ in 0..calls {
        if trees_of_last(alloc, pass, graph).is_err() {
            return Err(io::Error::from(io::ErrorKind::OutOfMemory));
        }
    }
    Ok(start.elapsed(clock)?.as_nanos())
}
