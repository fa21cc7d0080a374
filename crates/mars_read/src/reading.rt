//! The reader of trees, and what it shares with other readers.
ghost use Rattle.std.specs.Prelude.{◌≡◌, ◌<◌, ◌≤◌, ◌+◌, ◌-◌, ◌^◌, length, map, true, false, IfOk, IfErr, OnOk};
ghost use Rattle.mars_tokens.specs.Tokens.{IsTokenList};
ghost use Rattle.mars_read.specs.declared.error.ReadError.TheVariants as read_error;
ghost use Rattle.mars_read.specs.declared.error.What.TheVariants as what;
ghost use Rattle.mars_read.specs.Spellings.{with_texts};
ghost use Rattle.mars_read.specs.Refused.{is_too_long, IsLongRefusal};
ghost use Rattle.mars_read.specs.ReadTree.{IsReadTree, IsTreeText, IsNoTreeText, HasTreeParts, KeepsNames};

use crate::error::text_error;
use crate::{ReadError, Spelled, TEXT_LIMIT, TokenMeanings, What};
use indexmap::IndexSet;
use mars_base::NoMemory;
use mars_clauses::InputCounts;
use mars_forms::parse_tree;
use mars_grammar::Both;
use mars_graphs::GraphMaker;
use mars_scripts::TreeMaker;
use mars_tokens::{Tokens, lex};
use mars_tree::{Graph, Names};
use std::alloc::Global;

/// The tokens of a text of version 2, or of version 1, that isn't too long.
pub(crate) fn read_tokens(alloc: Global, bytes: &[u8], two: bool) -> Result<Tokens, ReadError>
    ensures short { OnOk result (is_too_long bytes.now ≡ false) }
    ensures tokens { IfOk result (λ r. IsTokenList two bytes.now r.lexemes.items r.refusal) }
    ensures refused { IfErr result (IsLongRefusal bytes.now) }
{
    if bytes.len() > TEXT_LIMIT {
        return Err(ReadError::Limit {
            what: What::Input,
            at: TEXT_LIMIT,
        });
    }
    Ok(lex(alloc, bytes, two)?)
}

/// What is made of the text of a tree: the names that it adds, and the maker of its graph.
#[derive(Drop)]
struct TreeParts {
    added: IndexSet<Vec<u8>>,
    graph: GraphMaker,
}

/// Makes what the tokens of a tree say.
fn tree_parts(
    alloc: Global,
    bytes: &[u8],
    known: &Names,
    tokens: &Tokens,
) -> Result<TreeParts, ReadError>
    requires short { is_too_long bytes.now ≡ false }
    requires tokens { IsTokenList true bytes.now tokens.now.lexemes.items tokens.now.refusal }
    ensures made { IfOk result (HasTreeParts bytes.now known.now) }
    ensures refused { IfErr result (IsNoTreeText bytes.now known.now) }
{
    let mut told = Spelled {
        meanings: TokenMeanings::new(alloc, bytes, known),
        maker: Both {
            first: InputCounts::new(alloc, true),
            second: TreeMaker::new(alloc),
        },
    };
    if let Err(refusal) = parse_tree(alloc, &tokens.lexemes, &mut told) {
        return Err(text_error(refusal, tokens, bytes.len()));
    }
    let Spelled { meanings, maker } = told;
    let TokenMeanings { names, .. } = meanings;
    let added = names.into_added();
    let Both { second, .. } = maker;
    let TreeMaker { graph, .. } = second;
    Ok(TreeParts { added, graph })
}

/// Puts texts after the names, each that is new.
pub(crate) fn add_names(names: &mut Names, texts: &[Vec<u8>]) -> Result<(), NoMemory>
    requires { length names.old + length texts.now < 2 ^ 32 }
    ensures ok { OnOk result (names.new ≡ with_texts names.old (map (λ text. text.items) texts.now)) }
    ensures kept { KeepsNames names.old names.new }
{
    for text in texts {
        names.id(text)?;
    }
    Ok(())
}

/// The graph and the root of the tree that a text of version 2 says. The graph has at most as many nodes as the text has bytes.
/// The names that the text writes come after those that were there. The answers besides: the refusal of the text, and out of memory. One pass, linear in the bytes.
pub fn read_tree(
    alloc: Global,
    bytes: &[u8],
    names: &mut Names,
) -> Result<(Graph, usize), ReadError>
    requires { length bytes.now + length names.old < 2 ^ 32 - 1 }
    ensures read { IfOk result (λ made. IsReadTree bytes.now names.old names.new made.0 made.1) }
    ensures small { IfOk result (λ made. length made.0 ≤ length bytes.now) }
    ensures root { IfOk result (λ made. made.1 < length made.0) }
    ensures refused { IfErr result (IsNoTreeText bytes.now names.old) }
    ensures kept { KeepsNames names.old names.new }
{
    let tokens = read_tokens(alloc, bytes, true)?;
    let parts = tree_parts(alloc, bytes, names, &tokens)?;
    add_names(names, parts.added.as_slice())?;
    Ok(parts.graph.finish()?)
}
