//! What a word is: one of the words that the grammar writes, an identifier, a variable, or neither.
ghost use Rattle.std.specs.Prelude.{◌≡◌, ◌≤◌, length};
ghost use Rattle.std.specs.List.{list_all, prefix_len};
ghost use Rattle.mars_tokens.specs.Bytes.{is_digit_byte, is_prime_byte};
ghost use Rattle.mars_tokens.specs.Words.{listed_kind, borrowed_words, is_identifier_word, is_variable_word, spelled_kind, word_kind};
ghost use Rattle.mars_tokens.specs.WordsInside.{may_begin, may_be_listed, listed_word};

use crate::bytes::{from_place, is_digit, is_letter};
use mars_forms::TokenKind;

/// The words that the grammar writes, each with its kind, which is the same in both versions.
pub const WORDS: [(&str, TokenKind); 16] = [
    ("rules", TokenKind::Rules),
    ("session", TokenKind::Session),
    ("end", TokenKind::End),
    ("where", TokenKind::Where),
    ("rules2", TokenKind::RulesTwo),
    ("local", TokenKind::Local),
    ("begin", TokenKind::Begin),
    ("put", TokenKind::PutWord),
    ("ask", TokenKind::AskWord),
    ("keep", TokenKind::KeepWord),
    ("same", TokenKind::SameWord),
    ("pin", TokenKind::PinWord),
    ("show", TokenKind::ShowWord),
    ("drop", TokenKind::DropWord),
    ("sweep", TokenKind::SweepWord),
    ("count", TokenKind::CountWord),
];

/// The kind of the first of these words that is spelled so.
fn listed_kind(words: &[(&str, TokenKind)], text: &[u8]) -> Option<TokenKind>
    ensures { result ≡ listed_kind (borrowed_words words.now) text.now }
{
    for (word, kind) in words {
        if text == word.as_bytes() {
            return Some(*kind);
        }
    }
    None
}

/// Whether a word of the grammar may begin with these two bytes.
fn may_begin(a: u8, b: u8) -> bool
    ensures { result ≡ may_begin a b }
{
    match a {
        b'r' => b == b'u',
        b's' => b == b'e' || b == b'a' || b == b'h' || b == b'w',
        b'e' => b == b'n',
        b'w' => b == b'h',
        b'l' => b == b'o',
        b'b' => b == b'e',
        b'p' => b == b'u' || b == b'i',
        b'a' => b == b's',
        b'k' => b == b'e',
        b'd' => b == b'r',
        b'c' => b == b'o',
        _ => false,
    }
}

/// Whether a word may be one of the grammar. Most others are told apart by two bytes.
fn may_be_listed(text: &[u8]) -> bool
    ensures { result ≡ may_be_listed text.now }
{
    match text {
        [a, b, ..] => may_begin(*a, *b),
        _ => false,
    }
}

/// The kind of a word of the grammar.
fn listed_word(text: &[u8]) -> Option<TokenKind>
    ensures { result ≡ listed_word text.now }
{
    if may_be_listed(text) {
        listed_kind(&WORDS, text)
    } else {
        None
    }
}

fn is_identifier(text: &[u8]) -> bool
    ensures { result ≡ is_identifier_word text.now }
{
    text.len() > 1 && is_letter(text[1])
}

fn are_primes(bytes: &[u8]) -> bool
    ensures { result ≡ list_all is_prime_byte bytes.now }
{
    for b in bytes {
        if *b != b'\'' {
            return false;
        }
    }
    true
}

/// How many digits come first.
pub(crate) fn digits(bytes: &[u8]) -> usize
    ensures count { result ≡ prefix_len is_digit_byte bytes.now }
    ensures within { result ≤ length bytes.now }
{
    bytes.iter().take_while(|b| is_digit(**b)).count()
}

fn is_variable(text: &[u8]) -> bool
    ensures { result ≡ is_variable_word text.now }
{
    match text.split_first() {
        Some((_, rest)) => are_primes(from_place(rest, digits(rest))),
        None => false,
    }
}

/// The kind of a word that the grammar doesn't write.
fn spelled_kind(text: &[u8]) -> TokenKind
    ensures { result ≡ spelled_kind text.now }
{
    if is_identifier(text) {
        TokenKind::Identifier
    } else if is_variable(text) {
        TokenKind::Variable
    } else {
        TokenKind::OddWord
    }
}

/// The kind of a word. A look at the words of the grammar.
pub(crate) fn word_kind(text: &[u8]) -> TokenKind
    ensures { result ≡ word_kind text.now }
{
    match listed_word(text) {
        Some(kind) => kind,
        None => spelled_kind(text),
    }
}
