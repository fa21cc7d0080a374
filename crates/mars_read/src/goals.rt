//! The reader of goals.
ghost use Rattle.std.specs.Prelude.{◌≡◌, ◌<◌, ◌+◌, ◌-◌, ◌^◌, length, true, false, IfOk, IfErr};
ghost use Rattle.mars_tokens.specs.Tokens.{IsTokenList};
ghost use Rattle.mars_term.specs.Clauses.{IsAsk};
ghost use Rattle.mars_clauses.specs.Lists.{lists_of};
ghost use Rattle.mars_read.specs.Refused.{is_too_long};
ghost use Rattle.mars_read.specs.ReadTree.{KeepsNames};
ghost use Rattle.mars_read.specs.ReadGoals.{GoalsAreAsks, HasGoalsParts, IsAskOf, IsNoGoalsText, IsReadGoals};

use crate::error::text_error;
use crate::reading::{add_names, read_tokens};
use crate::{ReadError, Spelled, TokenMeanings};
use indexmap::IndexSet;
use mars_base::NoMemory;
use mars_clauses::{ClauseLists, FinishedClause, InputCounts, clauses_are_well_formed};
use mars_forms::parse_goals;
use mars_grammar::Both;
use mars_term::Ask;
use mars_tokens::Tokens;
use mars_tree::Names;
use std::alloc::Global;

/// What is made of the text of goals: the names that it adds, and the ask that is read.
#[derive(Drop)]
struct GoalsParts {
    added: IndexSet<Vec<u8>>,
    lists: ClauseLists,
}

/// Makes what the tokens of goals say.
fn goals_parts(
    alloc: Global,
    bytes: &[u8],
    known: &Names,
    tokens: &Tokens,
) -> Result<GoalsParts, ReadError>
    requires short { is_too_long bytes.now ≡ false }
    requires tokens { IsTokenList true bytes.now tokens.now.lexemes.items tokens.now.refusal }
    ensures made { IfOk result (HasGoalsParts bytes.now known.now) }
    ensures refused { IfErr result (IsNoGoalsText bytes.now known.now) }
{
    let mut told = Spelled {
        meanings: TokenMeanings::new(alloc, bytes, known),
        maker: Both {
            first: InputCounts::new(alloc, true),
            second: ClauseLists::new(alloc, true),
        },
    };
    if let Err(refusal) = parse_goals(alloc, &tokens.lexemes, &mut told) {
        return Err(text_error(refusal, tokens, bytes.len()));
    }
    let Spelled { meanings, maker } = told;
    let TokenMeanings { names, .. } = meanings;
    let added = names.into_added();
    let Both { second, .. } = maker;
    Ok(GoalsParts {
        added,
        lists: second,
    })
}

/// The ask that is whole.
fn whole_ask(mut lists: ClauseLists) -> Result<Ask, NoMemory>
    requires { (ask : Ask) × IsAskOf (lists_of lists) ask }
    ensures { IfOk result (IsAskOf (lists_of lists)) }
{
    match lists.making.finish()? {
        FinishedClause::Ask(ask) => Ok(ask),
        _ => unreachable!(),
    }
}

/// The ask that a text says.
fn ask_of(alloc: Global, bytes: &[u8], names: &mut Names) -> Result<Ask, ReadError>
    requires { length bytes.now + length names.old < 2 ^ 32 - 1 }
    ensures read { IfOk result (IsReadGoals bytes.now names.old names.new) }
    ensures refused { IfErr result (IsNoGoalsText bytes.now names.old) }
    ensures kept { KeepsNames names.old names.new }
{
    let tokens = read_tokens(alloc, bytes, true)?;
    let parts = goals_parts(alloc, bytes, names, &tokens)?;
    add_names(names, parts.added.as_slice())?;
    Ok(whole_ask(parts.lists)?)
}

/// The ask that a text of version 2 says: goals, perhaps with the most answers that are wanted before them. The names that
/// the text writes come after those that were there. The answers besides: the refusal of the text, and out of memory. Two
/// passes, linear in the bytes.
pub fn read_goals(alloc: Global, bytes: &[u8], names: &mut Names) -> Result<Ask, ReadError>
    requires { length bytes.now + length names.old < 2 ^ 32 - 1 }
    ensures read { IfOk result (IsReadGoals bytes.now names.old names.new) }
    ensures well_formed { IfOk result IsAsk }
    ensures refused { IfErr result (IsNoGoalsText bytes.now names.old) }
    ensures kept { KeepsNames names.old names.new }
{
    clauses_are_well_formed();
    ask_of(alloc, bytes, names)
}

/// Goals never end open: each text of goals says an ask.
pub fn goals_are_asks()
    ensures { GoalsAreAsks }
{}
