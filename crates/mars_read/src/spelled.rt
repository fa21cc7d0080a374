//! What tells a maker the events of a text, each token with its meaning.
ghost use Rattle.std.specs.Prelude.{◌≡◌};
ghost use Rattle.mars_clauses.specs.declared.maker.ValuedToken.{ValuedToken};
ghost use Rattle.mars_read.specs.Spellings.{spellings_of};
ghost use Rattle.mars_read.specs.Spelled.{spelled_out};

use crate::TokenMeanings;
use crate::spellings::valued;
use mars_base::NoMemory;
use mars_clauses::Maker;
use mars_forms::{FormAction, FormSymbol, Forms, Lexeme, TokenKind};
use mars_grammar::Builder;
use mars_tree::NameId;

/// A text with the numbers of its spellings, and a maker that is told its events.
#[derive(Drop)]
pub struct Spelled<'a, M> {
    pub meanings: TokenMeanings<'a>,
    pub maker: M,
}

impl<'a, const TWO: bool, M: Maker> Builder<Forms<TWO>> for Spelled<'a, M> {
    type Limit = M::Limit;

    ghost use Rattle.mars_read.specs.Spellings.{Spellings};

    ghost Value = { Spellings × M.Value };

    ghost view = { λ s. (spellings_of s.meanings, M.view s.maker) };

    ghost build = { spelled_out M.build };

    fn read(&mut self, symbol: FormSymbol, token: Lexeme) -> Result<(), NoMemory> {
        match token.kind {
            // signs, which are half of all tokens and mean nothing but their kind
            TokenKind::Arrow
            | TokenKind::Open
            | TokenKind::Close
            | TokenKind::Less
            | TokenKind::Greater
            | TokenKind::Comma
            | TokenKind::Dot
            | TokenKind::Semicolon
            | TokenKind::Slash
            | TokenKind::Equals
            | TokenKind::Hash => self.maker.read(symbol, valued(token, NameId(0), 0)),
            _ => {
                let meaning = self.meanings.meaning(symbol, token)?;
                self.maker.read(symbol, meaning)
            }
        }
    }

    fn say(&mut self, action: FormAction) -> Result<(), NoMemory> {
        self.maker.say(action)
    }

    fn refuses(&self) -> Option<M::Limit> {
        self.maker.refuses()
    }
}
