//! Tokens with what they mean, and what makes something of such tokens.
ghost use Rattle.std.specs.Prelude.{◌≡◌, OnOk};
ghost use Rattle.mars_grammar.specs.FormTable.{Event, Read, Say};
ghost use Rattle.mars_grammar.specs.Building.{Build};
ghost use Rattle.mars_forms.specs.declared.symbol.FormSymbol.{FormSymbol};
ghost use Rattle.mars_forms.specs.declared.symbol.FormAction.{FormAction};
ghost use Rattle.mars_clauses.specs.declared.maker.ValuedToken.{ValuedToken};

use mars_base::NoMemory;
use mars_forms::{FormAction, FormSymbol, TokenKind};
use mars_tree::NameId;

/// A token with what it means, which its spelling says once for all that read it.
#[derive(Clone, Copy, Debug, PartialEq, Eq, Drop)]
pub struct ValuedToken {
    pub kind: TokenKind,
    /// Its first byte.
    pub start: u32,
    /// The number of its spelling where it is a name or a variable, of its meaning where it is a string, else 0.
    pub name: NameId,
    /// What an integer means, else 0.
    pub number: i64,
}

/// What makes something of the events of a text, whose tokens have their meanings.
pub trait Maker {
    /// Why it refuses a text.
    type Limit: Copy + Drop;

    // What it has made so far.
    ghost Value: { Type 0 };

    ghost view: { Self → Value };

    ghost build: { Build (Event FormSymbol ValuedToken FormAction) Value Self.Limit };

    /// A symbol has taken a token.
    fn read(&mut self, symbol: FormSymbol, token: ValuedToken) -> Result<(), NoMemory>
        ensures { OnOk result (view self.new ≡ build.perform (Read symbol token) (view self.old)) };
    /// An action of the table.
    fn say(&mut self, action: FormAction) -> Result<(), NoMemory>
        ensures { OnOk result (view self.new ≡ build.perform (Say action) (view self.old)) };
    /// The limit that it is over.
    fn refuses(&self) -> Option<Self::Limit>
        ensures { result ≡ build.refuses (view self.now) };
}
