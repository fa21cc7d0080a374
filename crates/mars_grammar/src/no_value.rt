// The builder that makes nothing.
ghost use Rattle.std.specs.Prelude.{◌≡◌};
ghost use Rattle.mars_grammar.specs.Building.{no_value};

use crate::{Builder, Grammar};
use mars_base::NoMemory;

/// Makes nothing, and is over no limit: with it a reading says just whether the tokens are a text.
#[derive(Drop)]
pub struct NoValue;

impl<G: Grammar> Builder<G> for NoValue {
    type Limit = ();

    ghost Value = { Unit {0} };

    ghost view = { λ s. tt };

    ghost build = { no_value };

    fn read(&mut self, _: G::Symbol, _: G::Token) -> Result<(), NoMemory> {
        Ok(())
    }

    fn say(&mut self, _: G::Action) -> Result<(), NoMemory> {
        Ok(())
    }

    fn refuses(&self) -> Option<()> {
        None
    }
}
