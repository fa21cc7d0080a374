//! Strings between their quotes.
ghost use Rattle.std.specs.Prelude.{◌≡◌, ◌++◌, IfOk, OnOk, OnErr};
ghost use Rattle.mars_tree.specs.Names.{spelling};
ghost use Rattle.mars_print.specs.Text.{escaped, string_body, quoted};

use crate::printer::spelled;
use mars_base::NoMemory;
use mars_tree::{NameId, Names};
use std::alloc::Global;

/// Appends a byte as a string has it: `"`, `\` and the line feed are escaped.
fn push_escaped(byte: u8, into: &mut Vec<u8>) -> Result<(), NoMemory>
    ensures { OnOk result (into.new.items ≡ into.old.items ++ escaped byte) }
{
    if byte == b'"' {
        into.extend_from_slice(b"\\\"")?;
    } else if byte == b'\\' {
        into.extend_from_slice(b"\\\\")?;
    } else if byte == b'\n' {
        into.extend_from_slice(b"\\n")?;
    } else {
        into.push(byte)?;
    }
    Ok(())
}

/// Appends the bytes of a string, escaped. Linear in them.
fn push_escaped_all(text: &[u8], into: &mut Vec<u8>) -> Result<(), NoMemory>
    ensures { OnOk result (into.new.items ≡ into.old.items ++ string_body text.now) }
{
    for byte in text {
        push_escaped(*byte, into)?;
    }
    Ok(())
}

/// A string without its quotes.
fn string_body(alloc: Global, text: &[u8]) -> Result<Vec<u8>, NoMemory>
    ensures { IfOk result (λ body. body.items ≡ string_body text.now) }
{
    let mut body = Vec::new(alloc);
    push_escaped_all(text, &mut body)?;
    Ok(body)
}

/// Appends a string without its quotes, as a saying has it: `"`, `\` and the line feed are escaped. Nothing is appended
/// for a string that has no spelling. Linear in its bytes. The one error is out of memory, and nothing is appended then.
pub fn print_string_body(names: &Names, text: NameId, into: &mut Vec<u8>) -> Result<(), NoMemory>
    ensures ok { OnOk result (into.new.items ≡ into.old.items ++ string_body (spelling names.now text)) }
    ensures err { OnErr result (into.new.items ≡ into.old.items) }
{
    let body = string_body(*into.allocator(), spelled(names, text))?;
    into.extend_from_slice(&body)?;
    Ok(())
}

/// Appends a string between its quotes. Linear in its bytes.
pub(crate) fn push_string(text: &[u8], into: &mut Vec<u8>) -> Result<(), NoMemory>
    ensures { OnOk result (into.new.items ≡ into.old.items ++ quoted text.now) }
{
    into.push(b'"')?;
    push_escaped_all(text, into)?;
    into.push(b'"')?;
    Ok(())
}
