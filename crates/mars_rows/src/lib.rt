//! Rows of rational trees: each tree once, under a number that is never given again, and pins of callers on them.
#![tactic(auto)]

mod growth;
mod heads;
mod index;
mod laws;
mod marks;
mod stock;
mod store;

pub use laws::{
    examples, find_means, intern_keeps_met, intern_keeps_sound, intern_keeps_trees, intern_means,
    interns_to_lasts, numbers_agree, one_interning, sweep_keeps_met, sweep_keeps_sound,
    sweep_means,
};
pub use store::{Added, Rows};
