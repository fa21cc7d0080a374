//! The reader: the meanings of tokens, and the makers that are told them.
#![tactic(auto)]

mod error;
mod goals;
mod inputs;
mod laws;
mod more_names;
mod reading;
mod spelled;
mod spellings;

pub use error::{ReadError, TEXT_LIMIT, What};
pub use goals::{goals_are_asks, read_goals};
pub use inputs::read_input;
pub use laws::{one_input, one_reading, puts_are_small};
pub use more_names::MoreNames;
pub use reading::read_tree;
pub use spelled::Spelled;
pub use spellings::{TokenMeanings, TokenRole};
