//! Rows on the tokens of texts: which tokens `mars_tokens` finds, with their places, or which refusal and where.
ghost use Rattle.std.specs.Prelude.{◌<◌, ◌^◌, length};

use mars_forms::{Lexeme, TokenKind};
use mars_tokens::{
    TokenRefusal, Tokens, has_version_two, lex, push_meaning, read_integer, token_bytes,
};
use rows::Stop;
use std::alloc::{AllocError, Global};

/// Of more tokens than these only the last is written.
const WRITTEN: usize = 12;

/// Answers a row by its first word: the version in which the text is read, or `first`.
pub fn answer_tokens(
    alloc: Global,
    word: &str,
    bytes: &[u8],
    into: &mut Vec<u8>,
) -> Result<(), Stop> {
    if bytes.len() > 1_048_576 {
        return Err(Stop::TooMany);
    }
    match word {
        "one" => Ok(push_tokens(alloc, bytes, false, into)?),
        "two" => Ok(push_tokens(alloc, bytes, true, into)?),
        "first" => Ok(push_version(bytes, into)?),
        _ => Err(Stop::NoRow),
    }
}

/// Writes which version a text is of.
fn push_version(bytes: &[u8], into: &mut Vec<u8>) -> Result<(), AllocError>
    requires { length bytes.now < 2 ^ 32 }
{
    into.extend_from_slice(if has_version_two(bytes) {
        b"version 2"
    } else {
        b"version 1"
    })
}

/// Writes the tokens of a text.
fn push_tokens(alloc: Global, bytes: &[u8], two: bool, into: &mut Vec<u8>) -> Result<(), AllocError>
    requires { length bytes.now < 2 ^ 32 }
{
    let Ok(tokens) = lex(alloc, bytes, two) else {
        return Err(AllocError);
    };
    push_list(alloc, bytes, tokens.lexemes.as_slice(), into)?;
    push_refusal(&tokens, into)
}

/// Writes each token, or how many there are and the last.
fn push_list(
    alloc: Global,
    bytes: &[u8],
    lexemes: &[Lexeme],
    into: &mut Vec<u8>,
) -> Result<(), AllocError> {
    let count = lexemes.len();
    if count == 0 {
        return into.extend_from_slice(b"none");
    }
    if count > WRITTEN {
        into.extend_from_slice(format!(in alloc; "{count} tokens, the last  ")?.as_bytes())?;
    }
    let skipped = if count > WRITTEN { count - 1 } else { 0 };
    for (place, lexeme) in lexemes.iter().skip(skipped).enumerate() {
        into.extend_from_slice(if place > 0 { b"  " } else { b"" })?;
        push_lexeme(alloc, bytes, *lexeme, into)?;
    }
    Ok(())
}

/// Writes a token with its places, and the value of an integer or a string.
fn push_lexeme(
    alloc: Global,
    bytes: &[u8],
    lexeme: Lexeme,
    into: &mut Vec<u8>,
) -> Result<(), AllocError> {
    let Lexeme { kind, start, end } = lexeme;
    into.extend_from_slice(format!(in alloc; "{kind:?} {start}-{end}")?.as_bytes())?;
    match kind {
        TokenKind::Integer => push_value(alloc, token_bytes(bytes, lexeme), into),
        TokenKind::Text => push_bytes(alloc, token_bytes(bytes, lexeme), into),
        _ => Ok(()),
    }
}

/// Writes the value of an integer.
fn push_value(alloc: Global, text: &[u8], into: &mut Vec<u8>) -> Result<(), AllocError> {
    match read_integer(text) {
        Some(value) => into.extend_from_slice(format!(in alloc; " = {value}")?.as_bytes()),
        None => into.extend_from_slice(b" = none"),
    }
}

/// Writes the bytes that a string means, as numbers, or how many there are.
fn push_bytes(alloc: Global, text: &[u8], into: &mut Vec<u8>) -> Result<(), AllocError> {
    let mut meaning = Vec::new(alloc);
    if push_meaning(text, &mut meaning).is_err() {
        return Err(AllocError);
    }
    into.extend_from_slice(b" =")?;
    if meaning.len() > WRITTEN {
        let count = meaning.len();
        return into.extend_from_slice(format!(in alloc; " {count} bytes")?.as_bytes());
    }
    for b in &meaning {
        into.extend_from_slice(format!(in alloc; " {b}")?.as_bytes())?;
    }
    Ok(())
}

/// Writes why the tokens end before the text does.
fn push_refusal(tokens: &Tokens, into: &mut Vec<u8>) -> Result<(), AllocError> {
    match tokens.refusal {
        None => Ok(()),
        Some(TokenRefusal::BadByte) => into.extend_from_slice(b", E1"),
        Some(TokenRefusal::Name) => into.extend_from_slice(b", E3 name"),
        Some(TokenRefusal::Literal) => into.extend_from_slice(b", E3 literal"),
        Some(TokenRefusal::Nesting) => into.extend_from_slice(b", E3 nesting"),
        Some(TokenRefusal::Text) => into.extend_from_slice(b", E3 string"),
    }
}
