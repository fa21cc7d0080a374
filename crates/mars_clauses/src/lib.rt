//! The rules and asks of an input, as builders over the events of the grammar, and the limits that belong to them.
#![tactic(auto)]

mod both;
mod counts;
mod laws;
mod limits;
mod lists;
mod maker;
mod making;
mod short;
mod terms;
mod variables;

pub use counts::{
    ARITY_LIMIT, CLAUSE_LIMIT, INPUT_COMMAND_LIMIT, InputCounts, RULE_LIMIT, SESSION_COMMAND_LIMIT,
    SESSION_LIMIT,
};
pub use laws::clauses_are_well_formed;
pub use limits::{InputLimit, OverLimit};
pub use lists::ClauseLists;
pub use maker::{Maker, ValuedToken};
pub use making::{ClauseMaking, FinishedClause};
pub use short::short_number;
pub use terms::OpenTerm;
pub use variables::VariableList;
