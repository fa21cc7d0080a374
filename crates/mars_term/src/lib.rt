//! Terms, goals, rules and asks, as the reader gives them: plain values.
#![tactic(auto)]

mod clause;
mod clause_equality;
mod copying;
mod equality;
mod hashing;
mod laws;
mod term;

pub use clause::{Ask, Goal, Goals, NameIds, Rule, Version};
pub use laws::{parts_of_terms, term_examples};
pub use term::{Term, Terms};
