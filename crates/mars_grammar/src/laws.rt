// Laws of each grammar.
ghost use Rattle.std.specs.Prelude.{◌≡◌, ◌++◌, List, true};
ghost use Rattle.mars_grammar.specs.FormTable.{Event, IsText};
ghost use Rattle.mars_grammar.specs.Testing.{starts};
ghost use Rattle.mars_grammar.specs.Refusing.{upto, IsFirst};
ghost use Rattle.mars_grammar.specs.Building.{Fault};

use crate::{Builder, Grammar};

/// A text tells one thing.
pub fn one_value<G: Grammar>()
    ensures { (start : List G.Symbol) (tokens : List G.Token) (es fs : List (Event G.Symbol G.Token G.Action)) → starts G.table G.test start ≡ true → IsText G.table start tokens es → IsText G.table start tokens fs → es ≡ fs }
{}

/// Tokens have one first fault.
pub fn one_refusal<G: Grammar, B: Builder<G>>()
    ensures { (start : List G.Symbol) (v : B.Value) (tokens : List G.Token) (a b : Fault B.Limit) → starts G.table G.test start ≡ true →
        IsFirst G.table B.build start v tokens a → IsFirst G.table B.build start v tokens b → a ≡ b }
{}

/// What texts tell up to tokens with which they all begin is the same.
pub fn same_beginning<G: Grammar>()
    ensures { (start : List G.Symbol) (front more rest : List G.Token) (es fs : List (Event G.Symbol G.Token G.Action)) → starts G.table G.test start ≡ true →
        IsText G.table start (front ++ more) es → IsText G.table start (front ++ rest) fs → upto front es ≡ upto front fs }
{}
