//! The numbers of terms.
#![tactic(auto)]

mod direct;
mod evaluation;
mod laws;
mod operand;
mod operation;
mod terms;

pub use evaluation::eval;
pub use laws::{number_is_one, operations_are_built_in};
pub use operation::Operation;
