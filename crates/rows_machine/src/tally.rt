//! What was counted over many runs.
use mars_base::NoMemory;
use rows::push_number;

/// How many runs there were and how many of each end, and how many steps, sayings, answers, open inequations and frozen
/// pairs they had.
#[derive(Drop)]
pub struct Tally {
    pub runs: usize,
    pub ended: usize,
    pub stopped: usize,
    pub steps: usize,
    pub trees: usize,
    pub answers: usize,
    pub open: usize,
    pub frozen: usize,
}

impl Tally {
    /// Nothing yet.
    pub fn new() -> Tally {
        Tally {
            runs: 0,
            ended: 0,
            stopped: 0,
            steps: 0,
            trees: 0,
            answers: 0,
            open: 0,
            frozen: 0,
        }
    }

    /// Writes the counts.
    pub fn push(&self, into: &mut Vec<u8>) -> Result<(), NoMemory> {
        push_count(self.runs, " runs alike: ", into)?;
        push_count(self.ended, " ended, ", into)?;
        push_count(self.stopped, " stopped, ", into)?;
        push_count(self.steps, " steps, ", into)?;
        push_count(self.trees, " trees, ", into)?;
        push_count(self.answers, " answers, ", into)?;
        push_count(self.open, " open inequations, ", into)?;
        push_count(self.frozen, " frozen goals", into)
    }
}

/// Writes a number and a word.
fn push_count(number: usize, word: &str, into: &mut Vec<u8>) -> Result<(), NoMemory> {
    push_number(number, into)?;
    into.extend_from_slice(word.as_bytes())?;
    Ok(())
}
