//! What tokens mean, by their spellings and the symbols that take them.
ghost use Rattle.std.specs.Prelude.{◌≡◌, IfOk, OnOk, []};
ghost use Rattle.mars_read.specs.Spellings as told;
ghost use Rattle.mars_read.specs.Spellings.{spellings_of, spellings_from};

use crate::MoreNames;
use mars_base::NoMemory;
use mars_clauses::ValuedToken;
use mars_forms::{FormSymbol, Lexeme, TokenKind};
use mars_tokens::{push_meaning, read_integer, token_bytes};
use mars_tree::{NameId, Names};
use std::alloc::Global;

/// What a token means, by its kind and the symbol that takes it.
#[derive(Clone, Copy, Debug, PartialEq, Eq, Drop)]
pub enum TokenRole {
    /// Nothing but its kind.
    Sign,
    /// Its spelling is among the names: a name, or a variable of an ask or a keep.
    Name,
    /// A variable of a rule or a tree, whose spelling is in a list of its own.
    Variable,
    Integer,
    Text,
}

/// Whether a word that a symbol takes is a name.
fn takes_names(symbol: FormSymbol) -> bool
    ensures { result ≡ told.takes_names symbol }
{
    matches!(
        symbol,
        FormSymbol::RuleList
            | FormSymbol::Goals
            | FormSymbol::Term
            | FormSymbol::AskGoals
            | FormSymbol::AskTerm
            | FormSymbol::KeptName
            | FormSymbol::PutTerm
            | FormSymbol::DefinedTerm
            | FormSymbol::OneName
    )
}

/// Whether a variable that a symbol takes is among the names.
fn names_variables(symbol: FormSymbol) -> bool
    ensures { result ≡ told.names_variables symbol }
{
    matches!(
        symbol,
        FormSymbol::AskGoals | FormSymbol::AskTerm | FormSymbol::OneVariable
    )
}

/// This role, or that of a sign.
fn role_if(test: bool, role: TokenRole, otherwise: TokenRole) -> TokenRole
    ensures { result ≡ told.role_if test role otherwise }
{
    if test { role } else { otherwise }
}

/// The role of a token.
fn role_of(symbol: FormSymbol, kind: TokenKind) -> TokenRole
    ensures { result ≡ told.role_of symbol kind }
{
    match kind {
        TokenKind::Variable => {
            role_if(
                names_variables(symbol),
                TokenRole::Name,
                TokenRole::Variable,
            )
        }
        TokenKind::Placed => TokenRole::Variable,
        TokenKind::Integer => TokenRole::Integer,
        TokenKind::Text => TokenRole::Text,
        TokenKind::Arrow
        | TokenKind::Open
        | TokenKind::Close
        | TokenKind::Less
        | TokenKind::Greater
        | TokenKind::Comma
        | TokenKind::Dot
        | TokenKind::Semicolon
        | TokenKind::Slash
        | TokenKind::Equals
        | TokenKind::Hash => TokenRole::Sign,
        _ => role_if(takes_names(symbol), TokenRole::Name, TokenRole::Sign),
    }
}

/// A token with its meaning.
pub(crate) fn valued(token: Lexeme, name: NameId, number: i64) -> ValuedToken
    ensures { result ≡ told.valued token name number }
{
    ValuedToken {
        kind: token.kind,
        start: token.start,
        name,
        number,
    }
}

/// The number of an integer's text, 0 where it is none of i64.
fn integer_or(text: &[u8]) -> i64
    ensures { result ≡ told.integer_or text.now }
{
    match read_integer(text) {
        Some(number) => number,
        None => 0,
    }
}

/// A text, and the numbers of its spellings so far.
#[derive(Drop)]
pub struct TokenMeanings<'a> {
    pub(crate) alloc: Global,
    pub(crate) bytes: &'a [u8],
    pub(crate) names: MoreNames<'a>,
    pub(crate) vars: MoreNames<'a>,
}

impl<'a> TokenMeanings<'a> {
    /// Nothing is read yet. Takes no memory.
    pub fn new(alloc: Global, bytes: &'a [u8], known: &'a Names) -> TokenMeanings<'a>
        ensures { spellings_of result ≡ spellings_from bytes.now known.now }
    {
        TokenMeanings {
            alloc,
            bytes,
            names: MoreNames::new(alloc, known),
            vars: MoreNames::built_in(alloc),
        }
    }

    /// The number of a string's meaning.
    fn text_number(&mut self, token: Lexeme) -> Result<NameId, NoMemory>
        ensures number { IfOk result (λ id. id ≡ told.name_in (told.meaning_at token (spellings_of self.old)) (spellings_of self.old)) }
        ensures spellings { OnOk result (spellings_of self.new ≡ told.with_name (told.meaning_at token (spellings_of self.old)) (spellings_of self.old)) }
    {
        let mut text = Vec::new(self.alloc);
        push_meaning(token_bytes(self.bytes, token), &mut text)?;
        self.names.id(&text)
    }

    /// A token with its meaning; a spelling goes last where it is new.
    pub fn meaning(&mut self, symbol: FormSymbol, token: Lexeme) -> Result<ValuedToken, NoMemory>
        ensures meaning { IfOk result (λ t. t ≡ told.meaning_of symbol token (spellings_of self.old)) }
        ensures spellings { OnOk result (spellings_of self.new ≡ told.with_token symbol token (spellings_of self.old)) }
    {
        let text = token_bytes(self.bytes, token);
        match role_of(symbol, token.kind) {
            TokenRole::Sign => Ok(valued(token, NameId(0), 0)),
            TokenRole::Name => {
                let id = self.names.id(text)?;
                Ok(valued(token, id, 0))
            }
            TokenRole::Variable => {
                let id = self.vars.id_if_room(text)?;
                Ok(valued(token, id, 0))
            }
            TokenRole::Integer => Ok(valued(token, NameId(0), integer_or(text))),
            TokenRole::Text => {
                let id = self.text_number(token)?;
                Ok(valued(token, id, 0))
            }
        }
    }
}
