//! The grammar of INPUT, TREE and GOALS, as one table for each version.
#![tactic(auto)]

mod lexeme;
mod starts;
mod symbol;
mod table;

pub use lexeme::{Lexeme, TokenKind};
pub use starts::{parse_goals, parse_input_one, parse_input_two, parse_tree};
pub use symbol::{FormAction, FormMode, FormSymbol, Trigger};
pub use table::{FORMS, FormRow, Forms, GOALS, INPUT, SymbolEntry, TREE};
