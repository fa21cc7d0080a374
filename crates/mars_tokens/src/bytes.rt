//! The classes of bytes that tokens are made of.
ghost use Rattle.std.specs.Prelude.{◌≡◌, ◌≤◌, length, drop};
ghost use Rattle.mars_tokens.specs.Bytes.{is_letter_byte, is_digit_byte, is_word_byte, is_blank_byte, is_comment_byte, is_plain_byte, is_escaped_byte};
ghost use Rattle.mars_tokens.specs.PiecesInside.{sign_kind, other_class, byte_class};

use mars_forms::TokenKind;

/// What a byte begins.
#[derive(Clone, Copy, Debug, Drop)]
pub(crate) enum ByteClass {
    Letter,
    Digit,
    Blank,
    Percent,
    Underscore,
    Dash,
    Quote,
    Sign(TokenKind),
    Other,
}

/// The bytes from a place on.
pub(crate) fn from_place(bytes: &[u8], at: usize) -> &[u8]
    requires { at ≤ length bytes.now }
    ensures { result.now ≡ drop at bytes.now }
{
    &bytes[at..]
}

pub(crate) fn is_letter(b: u8) -> bool
    ensures { result ≡ is_letter_byte b }
{
    (b >= b'A' && b <= b'Z') || (b >= b'a' && b <= b'z')
}

pub(crate) fn is_digit(b: u8) -> bool
    ensures { result ≡ is_digit_byte b }
{
    b >= b'0' && b <= b'9'
}

/// Whether a word may go on with this byte.
pub(crate) fn is_tail(b: u8) -> bool
    ensures { result ≡ is_word_byte b }
{
    is_letter(b) || is_digit(b) || b == b'_' || b == b'\''
}

pub(crate) fn is_blank(b: u8) -> bool
    ensures { result ≡ is_blank_byte b }
{
    b == b' ' || b == b'\t' || b == b'\n' || b == b'\r'
}

/// Whether a comment may go on with this byte.
pub(crate) fn is_in_comment(b: u8) -> bool
    ensures { result ≡ is_comment_byte b }
{
    b != b'\n'
}

/// Whether a string may have this byte as it is.
pub(crate) fn is_plain(b: u8) -> bool
    ensures { result ≡ is_plain_byte b }
{
    b >= 32 && b <= 126 && b != b'"' && b != b'\\'
}

/// Whether this byte may come after a backslash in a string.
pub(crate) fn is_escaped(b: u8) -> bool
    ensures { result ≡ is_escaped_byte b }
{
    b == b'"' || b == b'\\' || b == b'n'
}

/// The sign that a byte is.
fn sign_kind(b: u8) -> Option<TokenKind>
    ensures { result ≡ sign_kind b }
{
    match b {
        b'(' => Some(TokenKind::Open),
        b')' => Some(TokenKind::Close),
        b'<' => Some(TokenKind::Less),
        b'>' => Some(TokenKind::Greater),
        b',' => Some(TokenKind::Comma),
        b'.' => Some(TokenKind::Dot),
        b';' => Some(TokenKind::Semicolon),
        b'/' => Some(TokenKind::Slash),
        b'=' => Some(TokenKind::Equals),
        b'#' => Some(TokenKind::Hash),
        _ => None,
    }
}

/// The class of a byte that is no letter, digit or blank.
fn other_class(b: u8) -> ByteClass
    ensures { result ≡ other_class b }
{
    if b == b'%' {
        ByteClass::Percent
    } else if b == b'_' {
        ByteClass::Underscore
    } else if b == b'-' {
        ByteClass::Dash
    } else if b == b'"' {
        ByteClass::Quote
    } else {
        match sign_kind(b) {
            Some(kind) => ByteClass::Sign(kind),
            None => ByteClass::Other,
        }
    }
}

/// The class of a byte that is no sign.
#[inline(always)]
fn spelled_class(b: u8) -> ByteClass
    ensures { result ≡ byte_class b }
{
    if is_letter(b) {
        ByteClass::Letter
    } else if is_digit(b) {
        ByteClass::Digit
    } else if is_blank(b) {
        ByteClass::Blank
    } else {
        other_class(b)
    }
}

/// The class of a byte. Signs are told first, since most tokens are signs.
#[inline(always)]
pub(crate) fn byte_class(b: u8) -> ByteClass
    ensures { result ≡ byte_class b }
{
    match b {
        b'(' => ByteClass::Sign(TokenKind::Open),
        b')' => ByteClass::Sign(TokenKind::Close),
        b'<' => ByteClass::Sign(TokenKind::Less),
        b'>' => ByteClass::Sign(TokenKind::Greater),
        b',' => ByteClass::Sign(TokenKind::Comma),
        b'.' => ByteClass::Sign(TokenKind::Dot),
        b';' => ByteClass::Sign(TokenKind::Semicolon),
        b'/' => ByteClass::Sign(TokenKind::Slash),
        b'=' => ByteClass::Sign(TokenKind::Equals),
        b'#' => ByteClass::Sign(TokenKind::Hash),
        _ => spelled_class(b),
    }
}
