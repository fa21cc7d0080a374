//! A value that threads take one after the other, with a history that grows by one item of the caller at a time.
#![tactic(auto)]

mod laws;
mod listed;
mod pass;
mod pass_view;
mod plays;
mod sends;
mod turn;

pub use laws::examples;
pub use listed::Listed;
pub use pass::Pass;
pub use pass_view::PassView;
pub use turn::Turn;
