// The texts that the grammar is for: inputs of each version, trees, goals.
ghost use Rattle.std.specs.Prelude.{OnOk, IfErr, true, false};
ghost use Rattle.mars_grammar.specs.Refusing.{IsMade, HasNoFault, IsRefused};
ghost use Rattle.mars_forms.specs.Table.{forms};

use crate::{Forms, GOALS, INPUT, Lexeme, TREE};
use mars_grammar::{Builder, Refusal, parse};
use std::alloc::Global;

/// Reads a whole input of version 1, and tells a builder.
pub fn parse_input_one<B: Builder<Forms<false>>>(
    alloc: Global,
    tokens: &[Lexeme],
    builder: &mut B,
) -> Result<(), Refusal<B::Limit>>
    ensures made { OnOk result (IsMade (forms false) B.build INPUT.now (B.view builder.old) tokens.now (B.view builder.new)) }
    ensures within { OnOk result (HasNoFault (forms false) B.build INPUT.now (B.view builder.old) tokens.now) }
    ensures refused { IfErr result (λ e. IsRefused (forms false) B.build INPUT.now (B.view builder.old) tokens.now e) }
{
    parse::<Forms<false>, B>(alloc, INPUT, tokens, builder)
}

/// Reads a whole input of version 2, and tells a builder.
pub fn parse_input_two<B: Builder<Forms<true>>>(
    alloc: Global,
    tokens: &[Lexeme],
    builder: &mut B,
) -> Result<(), Refusal<B::Limit>>
    ensures made { OnOk result (IsMade (forms true) B.build INPUT.now (B.view builder.old) tokens.now (B.view builder.new)) }
    ensures within { OnOk result (HasNoFault (forms true) B.build INPUT.now (B.view builder.old) tokens.now) }
    ensures refused { IfErr result (λ e. IsRefused (forms true) B.build INPUT.now (B.view builder.old) tokens.now e) }
{
    parse::<Forms<true>, B>(alloc, INPUT, tokens, builder)
}

/// Reads the text of one tree, which is of version 2, and tells a builder.
pub fn parse_tree<B: Builder<Forms<true>>>(
    alloc: Global,
    tokens: &[Lexeme],
    builder: &mut B,
) -> Result<(), Refusal<B::Limit>>
    ensures made { OnOk result (IsMade (forms true) B.build TREE.now (B.view builder.old) tokens.now (B.view builder.new)) }
    ensures within { OnOk result (HasNoFault (forms true) B.build TREE.now (B.view builder.old) tokens.now) }
    ensures refused { IfErr result (λ e. IsRefused (forms true) B.build TREE.now (B.view builder.old) tokens.now e) }
{
    parse::<Forms<true>, B>(alloc, TREE, tokens, builder)
}

/// Reads the text of goals, which is of version 2, perhaps with a number before them, and tells a builder.
pub fn parse_goals<B: Builder<Forms<true>>>(
    alloc: Global,
    tokens: &[Lexeme],
    builder: &mut B,
) -> Result<(), Refusal<B::Limit>>
    ensures made { OnOk result (IsMade (forms true) B.build GOALS.now (B.view builder.old) tokens.now (B.view builder.new)) }
    ensures within { OnOk result (HasNoFault (forms true) B.build GOALS.now (B.view builder.old) tokens.now) }
    ensures refused { IfErr result (λ e. IsRefused (forms true) B.build GOALS.now (B.view builder.old) tokens.now e) }
{
    parse::<Forms<true>, B>(alloc, GOALS, tokens, builder)
}
