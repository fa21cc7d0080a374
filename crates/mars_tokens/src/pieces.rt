//! The first piece of bytes: blanks, a comment or a token.
ghost use Rattle.std.specs.Prelude.{◌≡◌, ◌<◌, ◌≤◌, ◌^◌, ◌∷◌, length, take, IfSome};
ghost use Rattle.std.specs.List.{prefix_len};
ghost use Rattle.mars_tokens.specs.Bytes.{is_word_byte, is_digit_byte, is_blank_byte, is_comment_byte};
ghost use Rattle.mars_tokens.specs.PiecesInside.{digits_after, after_dash, after_quote, piece_by, first_of};

use crate::bytes::{ByteClass, byte_class, is_blank, is_in_comment, is_tail};
use crate::strings::closing_place;
use crate::words::{digits, word_kind};
use mars_forms::TokenKind;

/// What a text is made of.
#[derive(Clone, Copy, Debug, PartialEq, Eq, Drop)]
pub enum Piece {
    /// Blanks or a comment, which have no meaning.
    Between,
    Token(TokenKind),
}

/// How many bytes from the first on may go on with a word.
fn tail(bytes: &[u8]) -> usize
    ensures count { result ≡ prefix_len is_word_byte bytes.now }
    ensures within { result ≤ length bytes.now }
{
    bytes.iter().take_while(|b| is_tail(**b)).count()
}

/// How many blanks come first.
fn blanks(bytes: &[u8]) -> usize
    ensures count { result ≡ prefix_len is_blank_byte bytes.now }
    ensures within { result ≤ length bytes.now }
{
    bytes.iter().take_while(|b| is_blank(**b)).count()
}

/// How many bytes come before the first line feed.
fn to_line_feed(bytes: &[u8]) -> usize
    ensures count { result ≡ prefix_len is_comment_byte bytes.now }
    ensures within { result ≤ length bytes.now }
{
    bytes.iter().take_while(|b| is_in_comment(**b)).count()
}

/// A token of one byte and the digits after it, if there are any.
fn digits_after(kind: TokenKind, rest: &[u8]) -> Option<(Piece, usize)>
    requires { length rest.now < 2 ^ 63 }
    ensures { result ≡ digits_after kind rest.now }
{
    let n = digits(rest);
    if n == 0 {
        None
    } else {
        Some((Piece::Token(kind), n + 1))
    }
}

/// An arrow or a negative integer, by what is after the dash.
fn after_dash(rest: &[u8]) -> Option<(Piece, usize)>
    requires { length rest.now < 2 ^ 63 }
    ensures { result ≡ after_dash rest.now }
{
    if *rest.first()? == b'>' {
        Some((Piece::Token(TokenKind::Arrow), 2))
    } else {
        digits_after(TokenKind::Integer, rest)
    }
}

/// A string, by what is after its first quote; in version 1 there are none.
fn after_quote(two: bool, rest: &[u8]) -> Option<(Piece, usize)>
    requires { length rest.now < 2 ^ 63 }
    ensures { result ≡ after_quote two rest.now }
{
    if !two {
        return None;
    }
    let n = closing_place(rest)?;
    Some((Piece::Token(TokenKind::Text), n + 2))
}

/// The longest piece that begins the bytes, whatever their first byte, if one does.
#[inline(never)]
fn any_piece(bytes: &[u8], two: bool) -> Option<(Piece, usize)>
    requires { length bytes.now < 2 ^ 63 }
    ensures { result ≡ first_of two bytes.now }
{
    let (first, rest) = bytes.split_first()?;
    match byte_class(*first) {
        ByteClass::Letter => {
            let n = tail(rest) + 1;
            Some((Piece::Token(word_kind(&bytes[..n])), n))
        }
        ByteClass::Digit => Some((Piece::Token(TokenKind::Integer), digits(rest) + 1)),
        ByteClass::Blank => Some((Piece::Between, blanks(rest) + 1)),
        ByteClass::Percent => Some((Piece::Between, to_line_feed(rest) + 1)),
        ByteClass::Underscore => digits_after(TokenKind::Placed, rest),
        ByteClass::Dash => after_dash(rest),
        ByteClass::Quote => after_quote(two, rest),
        ByteClass::Sign(kind) => Some((Piece::Token(kind), 1)),
        ByteClass::Other => None,
    }
}

/// The longest piece that begins the bytes, if one does, and how many bytes it has. Linear in these, but for a quote that
/// begins no string: then the search for its end takes up to all bytes. Signs and words are most pieces.
#[inline(always)]
pub(crate) fn first_piece(bytes: &[u8], two: bool) -> Option<(Piece, usize)>
    requires { length bytes.now < 2 ^ 63 }
    ensures { result ≡ first_of two bytes.now }
{
    let (first, rest) = bytes.split_first()?;
    match byte_class(*first) {
        ByteClass::Sign(kind) => Some((Piece::Token(kind), 1)),
        ByteClass::Letter => {
            let n = tail(rest) + 1;
            Some((Piece::Token(word_kind(&bytes[..n])), n))
        }
        _ => any_piece(bytes, two),
    }
}
