// Two builders side by side.
ghost use Rattle.mars_grammar.specs.Building.{both};

use crate::{Builder, Grammar, Which};
use mars_base::NoMemory;

/// Two builders that are told the same.
#[derive(Drop)]
pub struct Both<A, B> {
    pub first: A,
    pub second: B,
}

impl<G: Grammar, A: Builder<G>, B: Builder<G>> Builder<G> for Both<A, B> {
    type Limit = Which<A::Limit, B::Limit>;

    ghost Value = { A.Value × B.Value };

    ghost view = { λ s. (A.view s.first, B.view s.second) };

    ghost build = { both A.build B.build };

    fn read(&mut self, symbol: G::Symbol, token: G::Token) -> Result<(), NoMemory> {
        self.first.read(symbol, token)?;
        self.second.read(symbol, token)
    }

    fn say(&mut self, action: G::Action) -> Result<(), NoMemory> {
        self.first.say(action)?;
        self.second.say(action)
    }

    fn refuses(&self) -> Option<Which<A::Limit, B::Limit>> {
        match self.first.refuses() {
            Some(limit) => Some(Which::First(limit)),
            None => match self.second.refuses() {
                Some(limit) => Some(Which::Second(limit)),
                None => None,
            },
        }
    }
}
