//! Rows `marseille WORDS`: what the words that the program is given are read as.
use mars_script::{Mode, Options, Words, WordsError, read_words};
use rows::Stop;
use std::alloc::{AllocError, Global};

/// Answers with what the words of a row are read as.
pub fn answer_words(alloc: Global, rest: &str, into: &mut Vec<u8>) -> Result<(), Stop> {
    let words = words_of(alloc, rest)?;
    match read_words(alloc, &words) {
        Ok(said) => Ok(push_words(alloc, &said, into)?),
        Err(WordsError::Bad) => Ok(into.extend_from_slice(b"bad")?),
        Err(WordsError::NoMemory) => Err(Stop::NoMemory),
    }
}

/// The words after the program's name. The word `''` is an empty one.
fn words_of(alloc: Global, rest: &str) -> Result<Vec<String>, AllocError> {
    let mut words = Vec::new(alloc);
    for word in rest.split_whitespace() {
        let text = if word == "''" { "" } else { word };
        words.push(String::from_str(alloc, text)?)?;
    }
    Ok(words)
}

/// Writes a mode, and then the options.
fn push_words(alloc: Global, said: &Words, into: &mut Vec<u8>) -> Result<(), AllocError> {
    match &said.mode {
        Mode::Run => into.extend_from_slice(b"run")?,
        Mode::Replay => into.extend_from_slice(b"replay")?,
        Mode::Order(numbers) => push_order(alloc, numbers.as_slice(), into)?,
        Mode::Make { start, size } => {
            let text = format!(in alloc; "make {start} {size}")?;
            into.extend_from_slice(text.as_bytes())?;
        }
    }
    push_options(alloc, said.options, into)
}

/// Writes the numbers of an order.
fn push_order(alloc: Global, numbers: &[u32], into: &mut Vec<u8>) -> Result<(), AllocError> {
    into.extend_from_slice(b"order")?;
    for number in numbers {
        let text = format!(in alloc; " {number}")?;
        into.extend_from_slice(text.as_bytes())?;
    }
    Ok(())
}

/// Writes the options.
fn push_options(alloc: Global, options: Options, into: &mut Vec<u8>) -> Result<(), AllocError> {
    let Options { budget, rows, log } = options;
    let text = format!(in alloc; ", {budget} steps, {rows} rows")?;
    into.extend_from_slice(text.as_bytes())?;
    if log {
        into.extend_from_slice(b", log")?;
    }
    Ok(())
}
