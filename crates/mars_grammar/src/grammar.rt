// What a grammar is, and what a builder is.
ghost use Rattle.std.specs.Prelude.{◌≡◌, List, OnOk};
ghost use Rattle.std.specs.Option.{option_copied};
ghost use Rattle.mars_grammar.specs.FormTable.{FormTable, Event, Read, Say};
ghost use Rattle.mars_grammar.specs.Testing.{Test, Passes};
ghost use Rattle.mars_grammar.specs.Building.{Build};

use mars_base::NoMemory;

/// A grammar whose rules are a table in Greibach form.
pub trait Grammar {
    /// What can be due.
    type Symbol: Copy + Drop + 'static;
    /// What a token is.
    type Kind: Copy + Drop;
    /// A token.
    type Token: Copy + Drop;
    /// What a builder is told beside tokens.
    type Action: Copy + Drop + 'static;
    /// What keeps a symbol from being left out.
    type Mode: Copy + Drop;

    // The grammar's table.
    ghost table: { FormTable Self.Symbol Self.Kind Self.Token Self.Action Self.Mode };
    // What it is tested with.
    ghost test: { Test Self.Symbol Self.Kind Self.Token Self.Mode };

    /// What a token is.
    fn kind(token: Self::Token) -> Self::Kind
        ensures { result ≡ table.kind token };
    /// What is due after a token of this kind, if the symbol takes it.
    fn takes(symbol: Self::Symbol, kind: Self::Kind) -> Option<&'static [Self::Symbol]>
        ensures { option_copied result ≡ table.takes symbol kind };
    /// What a builder is told where the symbol is left out, if it can be.
    fn leaves(symbol: Self::Symbol) -> Option<&'static [Self::Action]>
        ensures { option_copied result ≡ table.leaves symbol };
    /// The mode in which a text begins.
    fn free() -> Self::Mode
        ensures { result ≡ table.free };
    /// The mode after a token.
    fn pass(kind: Self::Kind, mode: Self::Mode) -> Self::Mode
        ensures { result ≡ table.pass kind mode };
    /// Whether the symbol can't be left out in this mode.
    fn stays(mode: Self::Mode, symbol: Self::Symbol) -> bool
        ensures { result ≡ table.stays mode symbol };

    // The table is LL(1).
    ghost passes: { Passes table test };
}

/// What makes something of the events of a text.
pub trait Builder<G: Grammar> {
    /// Why it refuses a text.
    type Limit: Copy + Drop;

    // What it has made so far.
    ghost Value: { Type 0 };

    ghost view: { Self → Value };

    ghost build: { Build (Event G.Symbol G.Token G.Action) Value Self.Limit };

    /// A symbol has taken a token.
    fn read(&mut self, symbol: G::Symbol, token: G::Token) -> Result<(), NoMemory>
        ensures { OnOk result (view self.new ≡ build.perform (Read symbol token) (view self.old)) };
    /// An action of the table.
    fn say(&mut self, action: G::Action) -> Result<(), NoMemory>
        ensures { OnOk result (view self.new ≡ build.perform (Say action) (view self.old)) };
    /// The limit that it is over.
    fn refuses(&self) -> Option<Self::Limit>
        ensures { result ≡ build.refuses (view self.now) };
}
