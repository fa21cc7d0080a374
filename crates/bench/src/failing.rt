//! The error of a measurement that is out of memory.
use mars_base::NoMemory;
use std::io;

/// Out of memory, as an error of the program.
pub(crate) fn no_memory(_error: NoMemory) -> io::Error {
    io::Error::from(io::ErrorKind::OutOfMemory)
}
