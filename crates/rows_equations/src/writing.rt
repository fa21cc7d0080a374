//! Words and numbers put last in a text.
use itoa::Buffer;
use mars_base::NoMemory;

/// Puts a word last.
pub(crate) fn put(into: &mut Vec<u8>, word: &str) -> Result<(), NoMemory> {
    into.extend_from_slice(word.as_bytes())?;
    Ok(())
}

/// Puts a word and a number last.
pub(crate) fn put_number(into: &mut Vec<u8>, word: &str, number: usize) -> Result<(), NoMemory> {
    let mut buffer = Buffer::new();
    into.extend_from_slice(word.as_bytes())?;
    into.extend_from_slice(buffer.format(number).as_bytes())?;
    Ok(())
}

/// Puts `; ` last, unless the text is empty.
pub(crate) fn put_break(into: &mut Vec<u8>) -> Result<(), NoMemory> {
    if into.is_empty() {
        return Ok(());
    }
    put(into, "; ")
}
