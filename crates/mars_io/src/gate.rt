//! Gates, which sessions that run in threads go through at each of their table calls.
use std::sync::Wait;

/// Comes before and after each table call of a session. A gate has no answer, so nothing that is promised of a run depends
/// on it: it may wait, and so decide which session goes on.
pub trait Gate: Sync {
    /// Comes before call `nth` of session `who`, both counted from 0. It may wait, for ever too.
    fn before<R: Wait>(&self, rt: &R, who: u32, nth: u64);

    /// Comes after that call. It may wait, for ever too.
    fn after<R: Wait>(&self, rt: &R, who: u32, nth: u64);
}

/// Lets each call through at once.
#[derive(Clone, Copy, Debug)]
pub struct OpenGate;

impl Gate for OpenGate {
    fn before<R: Wait>(&self, _rt: &R, _who: u32, _nth: u64) {}

    fn after<R: Wait>(&self, _rt: &R, _who: u32, _nth: u64) {}
}
