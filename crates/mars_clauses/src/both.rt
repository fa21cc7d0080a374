//! Two makers side by side.
ghost use Rattle.mars_grammar.specs.Building.{both};

use crate::{Maker, ValuedToken};
use mars_base::NoMemory;
use mars_forms::{FormAction, FormSymbol};
use mars_grammar::{Both, Which};

impl<A: Maker, B: Maker> Maker for Both<A, B> {
    type Limit = Which<A::Limit, B::Limit>;

    ghost Value = { A.Value × B.Value };

    ghost view = { λ s. (A.view s.first, B.view s.second) };

    ghost build = { both A.build B.build };

    fn read(&mut self, symbol: FormSymbol, token: ValuedToken) -> Result<(), NoMemory> {
        self.first.read(symbol, token)?;
        self.second.read(symbol, token)
    }

    fn say(&mut self, action: FormAction) -> Result<(), NoMemory> {
        self.first.say(action)?;
        self.second.say(action)
    }

    fn refuses(&self) -> Option<Which<A::Limit, B::Limit>> {
        match self.first.refuses() {
            Some(limit) => Some(Which::First(limit)),
            None => match self.second.refuses() {
                Some(limit) => Some(Which::Second(limit)),
                None => None,
            },
        }
    }
}
