//! Where a string ends, and what it means.
ghost use Rattle.std.specs.Prelude.{◌≡◌, ◌<◌, ◌≤◌, ◌++◌, ◌^◌, List, ℕ, length, true, false, IfSome, OnOk, OnErr};
ghost use Rattle.mars_tokens.specs.Strings.{meant, unescaped, between_quotes, string_meaning};
ghost use Rattle.mars_tokens.specs.PiecesInside.{closing_place};

use crate::bytes::{is_escaped, is_plain};
use mars_base::NoMemory;

/// The place of the quote that closes a string, by what is after the one that opens it. One pass.
pub(crate) fn closing_place(bytes: &[u8]) -> Option<usize>
    requires { length bytes.now < 2 ^ 63 }
    ensures place { result ≡ closing_place 0 false bytes.now }
    ensures within { IfSome result (λ n. n < length bytes.now) }
{
    let mut escaped = false;
    let mut n: usize = 0;
    for b in bytes {
        if escaped {
            if !is_escaped(*b) {
                return None;
            }
            escaped = false;
        } else if *b == b'"' {
            return Some(n);
        } else if *b == b'\\' {
            escaped = true;
        } else if !is_plain(*b) {
            return None;
        }
        n += 1;
    }
    None
}

/// The bytes between the quotes.
fn between_quotes(text: &[u8]) -> &[u8]
    ensures { result.now ≡ between_quotes text.now }
{
    match text.split_first() {
        Some((_, [inside @ .., _])) => inside,
        _ => &[],
    }
}

/// How many bytes a string means. One pass.
pub(crate) fn meaning_length(text: &[u8]) -> usize
    ensures { result ≡ length (string_meaning text.now) }
{
    let mut escaped = false;
    let mut n: usize = 0;
    let inside = between_quotes(text);
    for b in inside {
        if !escaped && *b == b'\\' {
            escaped = true;
            continue;
        }
        escaped = false;
        n += 1;
    }
    n
}

/// What a byte means, perhaps after a backslash.
fn meant(escaped: bool, b: u8) -> u8
    ensures { result ≡ meant escaped b }
{
    if escaped && b == b'n' { b'\n' } else { b }
}

/// Appends what a string means: the bytes between its quotes, with their escapes undone. One pass. After `NoMemory` some of
/// them may be there.
pub fn push_meaning(text: &[u8], into: &mut Vec<u8>) -> Result<(), NoMemory>
    ensures ok { OnOk result (into.new.items ≡ into.old.items ++ string_meaning text.now) }
    ensures err { OnErr result ((some : List ℕ) × (into.new.items ≡ into.old.items ++ some)) }
{
    let mut escaped = false;
    let inside = between_quotes(text);
    for b in inside {
        if !escaped && *b == b'\\' {
            escaped = true;
            continue;
        }
        into.push(meant(escaped, *b))?;
        escaped = false;
    }
    Ok(())
}
