//! Systems of equations between nodes that represent equations between terms: what is known of nodes is known of terms.
#![tactic(auto)]

mod laws;

pub use laws::{
    alike_terms_same, answers_denoted, calls_represented, copies_denote, nodes_build, nodes_keep,
    nodes_tell, roots_tell,
};
