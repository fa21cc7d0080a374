//! What an input says, as the reader gives it, and the words that the program is given.
#![tactic(auto)]

mod kinds;
mod laws;
mod numbers;
mod reading;
mod script;
mod steps;
mod words;

pub use laws::{word_examples, words_say_one_thing};
pub use reading::read_words;
pub use script::{Command, Commands, Input, Rules, Script, Sessions};
pub use words::{Mode, Options, SessionNumbers, Words, WordsError};
