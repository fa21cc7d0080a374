//! The tokens of a text, from left to right in one pass.
ghost use Rattle.std.specs.Prelude.{◌≡◌, ◌&&◌, nat_le, ℕ, ◌<◌, ◌^◌, ◌++◌, ◌∷◌, [], true, Some, length, IfOk};
ghost use Rattle.mars_forms.specs.declared.lexeme.TokenKind.TheVariants as token_kind;
ghost use Rattle.mars_tokens.specs.declared.limits.TheConstants.{TOKEN_LIMIT};
ghost use Rattle.mars_tokens.specs.Integers.{is_integer_text};
ghost use Rattle.mars_tokens.specs.Refusals.{refusal_if, over_limit, depth_after};
ghost use Rattle.mars_tokens.specs.Tokens.{IsTokenList, IsOfVersion, OneTokenListEach, SomeTokenListEach, is_rules_two, refused_at, spelling_at};

use crate::bytes::from_place;
use crate::integers::read_integer;
use crate::limits::{NESTING_LIMIT, STRING_LIMIT, TOKEN_LIMIT};
use crate::pieces::{Piece, first_piece};
use crate::strings::meaning_length;
use mars_base::NoMemory;
use mars_forms::{Lexeme, TokenKind};
use std::alloc::Global;

/// Why the tokens of a text end before the text does.
#[derive(Clone, Copy, Debug, PartialEq, Eq, Drop)]
pub enum TokenRefusal {
    /// E1: a byte that begins no token.
    BadByte,
    /// E3 `name`: a word, a placed variable or an integer has too many bytes.
    Name,
    /// E3 `literal`: an integer isn't of i64.
    Literal,
    /// E3 `nesting`: a bracket opens while as many are open as can be.
    Nesting,
    /// E3 `string`: a string means too many bytes.
    Text,
}

/// The tokens of a text. Where there is a refusal, the last token is `TokenKind::Refused` and has its place.
#[derive(Debug, Drop)]
pub struct Tokens {
    pub lexemes: Vec<Lexeme>,
    pub refusal: Option<TokenRefusal>,
}

/// This refusal, if a test is true.
fn refusal_if(test: bool, refusal: TokenRefusal) -> Option<TokenRefusal>
    ensures { result ≡ refusal_if test refusal }
{
    if test { Some(refusal) } else { None }
}

/// The limit that an integer is over.
fn over_in_integer(text: &[u8]) -> Option<TokenRefusal>
    requires { is_integer_text text.now ≡ true }
    ensures { (depth : ℕ) → result ≡ over_limit depth token_kind.Integer text.now }
{
    if text.len() > TOKEN_LIMIT {
        return Some(TokenRefusal::Name);
    }
    match read_integer(text) {
        Some(_) => None,
        None => Some(TokenRefusal::Literal),
    }
}

/// The limit that a token is over, where so many brackets are open before it.
fn over_limit(depth: usize, kind: TokenKind, text: &[u8]) -> Option<TokenRefusal>
    requires { kind ≡ token_kind.Integer → is_integer_text text.now ≡ true }
    ensures { result ≡ over_limit depth kind text.now }
{
    match kind {
        TokenKind::Integer => over_in_integer(text),
        TokenKind::Text => { refusal_if(meaning_length(text) > STRING_LIMIT, TokenRefusal::Text) }
        TokenKind::Open => refusal_if(depth >= NESTING_LIMIT, TokenRefusal::Nesting),
        TokenKind::Less => refusal_if(depth >= NESTING_LIMIT, TokenRefusal::Nesting),
        _ => refusal_if(text.len() > TOKEN_LIMIT, TokenRefusal::Name),
    }
}

/// How many brackets are open after a token.
fn depth_after(depth: usize, kind: TokenKind) -> usize
    requires { depth < 2 ^ 63 }
    ensures { result ≡ depth_after depth kind }
{
    match kind {
        TokenKind::Open => depth + 1,
        TokenKind::Less => depth + 1,
        TokenKind::Close => depth.saturating_sub(1),
        TokenKind::Greater => depth.saturating_sub(1),
        _ => depth,
    }
}

/// The tokens before a place, and the refusal there.
fn refused(mut lexemes: Vec<Lexeme>, at: usize, refusal: TokenRefusal) -> Result<Tokens, NoMemory>
    requires { at < 2 ^ 32 }
    ensures { IfOk result (λ r. (r.lexemes.items ≡ lexemes.items ++ refused_at at ∷ []) × (r.refusal ≡ Some refusal)) }
{
    lexemes.push(Lexeme {
        kind: TokenKind::Refused,
        start: at as u32,
        end: at as u32,
    })?;
    Ok(Tokens {
        lexemes,
        refusal: Some(refusal),
    })
}

/// The tokens of a text, up to its end or to the first refusal that looks at tokens alone. One pass, linear in the bytes.
pub fn lex(alloc: Global, bytes: &[u8], two: bool) -> Result<Tokens, NoMemory>
    requires { length bytes.now < 2 ^ 32 }
    ensures { IfOk result (λ r. IsTokenList two bytes.now r.lexemes.items r.refusal) }
{
    let mut lexemes = Vec::with_capacity(alloc, bytes.len() / 4 + 1)?;
    let mut at = 0;
    let mut depth = 0;
    while at < bytes.len() {
        let rest = from_place(bytes, at);
        let found = match first_piece(rest, two) {
            Some(found) => found,
            None => return refused(lexemes, at, TokenRefusal::BadByte),
        };
        let kind = match found.0 {
            Piece::Token(kind) => kind,
            Piece::Between => {
                at += found.1;
                continue;
            }
        };
        match over_limit(depth, kind, &rest[..found.1]) {
            Some(refusal) => return refused(lexemes, at, refusal),
            None => {}
        }
        lexemes.push(Lexeme {
            kind,
            start: at as u32,
            end: (at + found.1) as u32,
        })?;
        depth = depth_after(depth, kind);
        at += found.1;
    }
    Ok(Tokens {
        lexemes,
        refusal: None,
    })
}

/// Whether a text is of version 2: its first token is the word `rules2`, in whichever version it is read. Linear in the blanks
/// and comments that come first.
pub fn has_version_two(bytes: &[u8]) -> bool
    requires { length bytes.now < 2 ^ 63 }
    ensures { IsOfVersion result bytes.now }
{
    let mut at = 0;
    while at < bytes.len() {
        let found = match first_piece(from_place(bytes, at), false) {
            Some(found) => found,
            None => return false,
        };
        match found.0 {
            Piece::Between => at += found.1,
            Piece::Token(kind) => return is_version_word(kind, found.1),
        }
    }
    false
}

/// Whether a token is the word `rules2`.
fn is_rules_two(kind: TokenKind) -> bool
    ensures { result ≡ is_rules_two kind }
{
    match kind {
        TokenKind::RulesTwo => true,
        _ => false,
    }
}

/// Whether a token of so many bytes is the word `rules2` and within the limit.
fn is_version_word(kind: TokenKind, length: usize) -> bool
    ensures { result ≡ (is_rules_two kind && nat_le length TOKEN_LIMIT) }
{
    is_rules_two(kind) && length <= TOKEN_LIMIT
}

/// The bytes of a token; bytes that aren't there are left out.
pub fn token_bytes(bytes: &[u8], token: Lexeme) -> &[u8]
    ensures { result.now ≡ spelling_at bytes.now token }
{
    let start = (token.start as usize).min(bytes.len());
    let end = (token.end as usize).min(bytes.len()).max(start);
    &bytes[start..end]
}

/// A text has one list of tokens, and one refusal if any.
pub fn one_list_of_tokens()
    ensures most { OneTokenListEach }
    ensures least { SomeTokenListEach }
{}
