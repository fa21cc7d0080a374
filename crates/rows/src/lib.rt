//! What programs of rows share. A row is a line of text that such a program answers; its standard input and its standard
//! output are the test. Here are the loop over the rows, the trees and graphs that a row writes, and large shapes.
#![tactic(auto)]

mod answering;
mod drawing;
mod graphs;
mod labels;
mod laid;
mod operands;
mod refusals;
mod shapes;
mod stopping;
mod texts;
mod unfolding;
mod verdicts;

pub use answering::answer_rows;
pub use drawing::Draw;
pub use graphs::{are_below, are_ground, canon_of, kids_at, label_at, set_kid_at};
pub use labels::{add_name, label_named, name_at, push_label};
pub use laid::{
    Layout, push_graph, push_nodes, push_number, push_numbers, push_roots, read_nodes, read_numbers,
};
pub use operands::{Operand, Operands, read_operands};
pub use refusals::push_refusal;
pub use shapes::{list, ring, tuples};
pub use stopping::Stop;
pub use texts::{push_text, push_tree};
pub use unfolding::unfolded_text;
pub use verdicts::verdict;
