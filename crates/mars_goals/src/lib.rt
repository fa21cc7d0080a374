//! What a machine goes on with: goal lists that share their tails, and the choice points.
#![tactic(auto)]

mod arena;
mod cells;
mod choice;
mod goal_list;
mod points;

pub use arena::GoalArena;
pub use cells::Pending;
pub use choice::{Choice, MachineMark};
pub use goal_list::GoalList;
pub use points::ChoicePoints;
