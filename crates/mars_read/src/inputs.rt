//! The reader of inputs.
ghost use Rattle.std.specs.Prelude.{◌≡◌, ◌≤◌, length, true, false, IfOk, OnOk, IfErr};
ghost use Rattle.mars_tree.specs.Names.{built_in_names};
ghost use Rattle.mars_tokens.specs.Tokens.{IsTokenList};
ghost use Rattle.mars_forms.specs.Table.{forms};
ghost use Rattle.mars_forms.specs.declared.table.TheConstants.{INPUT};
ghost use Rattle.mars_grammar.specs.Refusing.{IsMade, HasNoFault, IsRefused};
ghost use Rattle.mars_scripts.specs.WellFormed.{IsWellFormedInput};
ghost use Rattle.mars_scripts.specs.Sizes.{nodes_put};
ghost use Rattle.mars_scripts.specs.Told.{scripts_of};
ghost use Rattle.mars_read.specs.Spellings.{spellings_of};
ghost use Rattle.mars_read.specs.Refused.{is_too_long};
ghost use Rattle.mars_read.specs.ReadTree.{KeepsNames};
ghost use Rattle.mars_read.specs.ReadInput.{input_building, IsInputOf, IsReadInput, IsNoInputText, IsNoInput, HasInputParts};

use crate::error::text_error;
use crate::reading::{add_names, read_tokens};
use crate::{ReadError, Spelled, TokenMeanings};
use indexmap::IndexSet;
use mars_clauses::{InputCounts, OverLimit};
use mars_forms::{Lexeme, parse_input_one, parse_input_two};
use mars_grammar::{Both, Refusal, Which};
use mars_script::Input;
use mars_scripts::{
    ScriptMaker, inputs_are_small, inputs_are_well_formed, inputs_have_few_sessions,
};
use mars_tokens::{Tokens, has_version_two};
use mars_tree::Names;
use std::alloc::Global;

/// What is made of the text of an input: the names that it adds, and the maker of what it says.
#[derive(Drop)]
struct InputParts {
    added: IndexSet<Vec<u8>>,
    scripts: ScriptMaker,
}

/// What is told of an input, with the numbers of its spellings.
pub(crate) type InputTold<'a> = Spelled<'a, Both<InputCounts, ScriptMaker>>;

/// Tells what the tokens of an input say, by the grammar of a version.
fn tell_input(
    alloc: Global,
    two: bool,
    tokens: &[Lexeme],
    told: &mut InputTold,
) -> Result<(), Refusal<Which<OverLimit, OverLimit>>>
    ensures made { OnOk result (IsMade (forms two) input_building INPUT.now (spellings_of told.old.meanings, (told.old.maker.first, scripts_of told.old.maker.second)) tokens.now (spellings_of told.new.meanings, (told.new.maker.first, scripts_of told.new.maker.second))) }
    ensures within { OnOk result (HasNoFault (forms two) input_building INPUT.now (spellings_of told.old.meanings, (told.old.maker.first, scripts_of told.old.maker.second)) tokens.now) }
    ensures refused { IfErr result (λ e. IsRefused (forms two) input_building INPUT.now (spellings_of told.old.meanings, (told.old.maker.first, scripts_of told.old.maker.second)) tokens.now e) }
{
    if two {
        parse_input_two(alloc, tokens, told)
    } else {
        parse_input_one(alloc, tokens, told)
    }
}

/// Makes what the tokens of an input say.
fn input_parts(
    alloc: Global,
    bytes: &[u8],
    known: &Names,
    two: bool,
    tokens: &Tokens,
) -> Result<InputParts, ReadError>
    requires names { known.now ≡ built_in_names }
    requires short { is_too_long bytes.now ≡ false }
    requires tokens { IsTokenList two bytes.now tokens.now.lexemes.items tokens.now.refusal }
    ensures made { IfOk result (HasInputParts two bytes.now) }
    ensures refused { IfErr result (IsNoInputText two bytes.now) }
{
    let mut told = Spelled {
        meanings: TokenMeanings::new(alloc, bytes, known),
        maker: Both {
            first: InputCounts::new(alloc, false),
            second: ScriptMaker::new(alloc),
        },
    };
    if let Err(refusal) = tell_input(alloc, two, &tokens.lexemes, &mut told) {
        return Err(text_error(refusal, tokens, bytes.len()));
    }
    let Spelled { meanings, maker } = told;
    let TokenMeanings { names, .. } = meanings;
    let added = names.into_added();
    let Both { second, .. } = maker;
    Ok(InputParts {
        added,
        scripts: second,
    })
}

/// The input that a text says as one of version 2, or of version 1.
fn input_of_version(alloc: Global, bytes: &[u8], two: bool) -> Result<Input, ReadError>
    ensures read { IfOk result (IsInputOf two bytes.now) }
    ensures names { IfOk result (λ input. KeepsNames built_in_names input.names) }
    ensures refused { IfErr result (IsNoInputText two bytes.now) }
{
    let tokens = read_tokens(alloc, bytes, two)?;
    let mut names = Names::new(alloc);
    let parts = input_parts(alloc, bytes, &names, two, &tokens)?;
    add_names(&mut names, parts.added.as_slice())?;
    Ok(parts.scripts.finish(names))
}

/// The input that a text says, of the version that its first token tells. The answers besides: the refusal of the text,
/// and out of memory. Two passes, linear in the bytes.
pub fn read_input(alloc: Global, bytes: &[u8]) -> Result<Input, ReadError>
    ensures read { IfOk result (IsReadInput bytes.now) }
    ensures well_formed { IfOk result IsWellFormedInput }
    ensures small { IfOk result (λ input. nodes_put input ≤ length bytes.now) }
    ensures few { IfOk result (λ input. length input.sessions ≤ length bytes.now) }
    ensures names { IfOk result (λ input. KeepsNames built_in_names input.names) }
    ensures refused { IfErr result (IsNoInput bytes.now) }
{
    inputs_are_well_formed();
    inputs_are_small();
    inputs_have_few_sessions();
    let two = has_version_two(bytes);
    input_of_version(alloc, bytes, two)
}
