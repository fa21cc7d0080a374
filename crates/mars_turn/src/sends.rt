//! A turn is shared among threads, and a pass moves into one.
use crate::listed::Listed;
use crate::pass::Pass;
use crate::turn::Turn;

fn shared<T: Send + Sync>(_value: &T) {}

fn moves<T: Send>(_value: &T) {}

pub(crate) fn cross<V: Listed + Send>(turn: &Turn<V>, pass: &Pass<V>) {
    shared(turn);
    moves(pass);
}
