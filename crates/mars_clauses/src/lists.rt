//! The rules and asks of a text, in order.
ghost use Rattle.std.specs.Prelude.{◌≡◌, OnOk, None, []};
ghost use Rattle.mars_clauses.specs.Lists as told;
ghost use Rattle.mars_clauses.specs.Lists.{Clauses, clauses, clauses_from, lists_of};

use crate::{ClauseMaking, FinishedClause, Maker, OverLimit, ValuedToken};
use mars_base::NoMemory;
use mars_forms::{FormAction, FormSymbol};
use mars_term::{Ask, Rule};
use sqlite_items::Items;
use std::alloc::Global;

/// The rules and asks that are whole, in the order of the text, and the one that is being read.
#[derive(Drop)]
pub struct ClauseLists {
    pub making: ClauseMaking,
    pub rules: Items<Rule>,
    pub asks: Items<Ask>,
}

impl ClauseLists {
    /// No rule and no ask yet; an ask is being read where the text is of goals alone. Takes no memory.
    pub fn new(alloc: Global, asking: bool) -> ClauseLists
        ensures { lists_of result ≡ clauses_from asking }
    {
        ClauseLists {
            making: ClauseMaking::new(alloc, asking),
            rules: Items::new(alloc),
            asks: Items::new(alloc),
        }
    }

    /// A rule or a command is whole.
    fn finish(&mut self) -> Result<(), NoMemory>
        ensures { OnOk result (lists_of self.new ≡ told.with_finished (lists_of self.old)) }
    {
        match self.making.finish()? {
            FinishedClause::Rule(rule) => self.rules.push(rule)?,
            FinishedClause::Ask(ask) => self.asks.push(ask)?,
            FinishedClause::Neither => {}
        }
        Ok(())
    }
}

impl Maker for ClauseLists {
    type Limit = OverLimit;

    ghost Value = { Clauses };

    ghost view = { lists_of };

    ghost build = { clauses };

    fn read(&mut self, symbol: FormSymbol, token: ValuedToken) -> Result<(), NoMemory> {
        match symbol {
            FormSymbol::OneSemicolon => self.finish(),
            _ => self.making.read(symbol, token),
        }
    }

    fn say(&mut self, action: FormAction) -> Result<(), NoMemory> {
        self.making.say(action)
    }

    fn refuses(&self) -> Option<OverLimit> {
        None
    }
}
