//! A text as a row writes it: `{TEXT*COUNT}` is a text as often as is asked for, `@n`, `@r` and `@t` are the line feed, the
//! carriage return and the tabulator, and `@s` is a space.
use std::alloc::{AllocError, Global};

/// The text that a row writes.
pub fn unfolded_text(alloc: Global, rest: &str) -> Result<String, AllocError> {
    let mut text = String::new(alloc);
    push_parts(rest, &mut text)?;
    Ok(text)
}

/// Appends all parts of a text, of which some are repeated.
fn push_parts(rest: &str, into: &mut String) -> Result<(), AllocError> {
    for part in rest.split('{') {
        match part.split_once('}') {
            Some((repeated, plain)) => {
                push_repeated(repeated, into)?;
                push_plain(plain, into)?;
            }
            None => push_plain(part, into)?,
        }
    }
    Ok(())
}

/// Appends `TEXT*COUNT` as a text that is repeated.
fn push_repeated(part: &str, into: &mut String) -> Result<(), AllocError> {
    let Some((text, count)) = part.rsplit_once('*') else {
        return push_plain(part, into);
    };
    for _ in 0..count.parse::<u16>().unwrap_or(0) {
        push_plain(text, into)?;
    }
    Ok(())
}

/// Appends a text with its marks replaced.
fn push_plain(text: &str, into: &mut String) -> Result<(), AllocError> {
    for (place, part) in text.split('@').enumerate() {
        let (mark, rest) = if place == 0 { ("", part) } else { marked(part) };
        into.push_str(mark)?;
        into.push_str(rest)?;
    }
    Ok(())
}

/// What a mark is, and what comes after it.
fn marked(part: &str) -> (&'static str, &str) {
    if let Some(rest) = part.strip_prefix('n') {
        ("\n", rest)
    } else if let Some(rest) = part.strip_prefix('r') {
        ("\r", rest)
    } else if let Some(rest) = part.strip_prefix('t') {
        ("\t", rest)
    } else if let Some(rest) = part.strip_prefix('s') {
        (" ", rest)
    } else {
        ("", "")
    }
}
