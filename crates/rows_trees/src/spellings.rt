//! Rows on names: `names WORD ..` gives the numbers of names in a list that begins with the built-in names, and
//! `listed WORD .. : WORD ..` compares two such lists.
ghost use Rattle.std.specs.Prelude.{◌<◌};

use mars_tree::{NameId, Names};
use rows::{Stop, add_name, push_number, verdict};
use std::alloc::Global;

/// Writes the number of a name, and its spelling there.
fn push_name(names: &Names, id: NameId, into: &mut Vec<u8>) -> Result<(), Stop> {
    push_number(id.0 as usize, into)?;
    if (id.0 as usize) < names.len() {
        into.extend_from_slice(b" ")?;
        into.extend_from_slice(names.text(id))?;
    }
    Ok(())
}

/// Writes the number of a word, after `new` where it isn't found at first.
fn push_word(names: &mut Names, word: &[u8], into: &mut Vec<u8>) -> Result<(), Stop> {
    if names.find(word).is_none() {
        into.extend_from_slice(b"new ")?;
    }
    let id = add_name(names, word)?;
    push_name(names, id, into)?;
    into.extend_from_slice(b", ")?;
    Ok(())
}

/// Writes the number of each word, and then the count of names.
fn push_words(names: &mut Names, words: &str, into: &mut Vec<u8>) -> Result<(), Stop> {
    for word in words.split_whitespace() {
        push_word(names, word.as_bytes(), into)?;
    }
    push_number(names.len(), into)?;
    into.extend_from_slice(b" in all")?;
    Ok(())
}

/// Answers for each word with its number, after `new` where it isn't found at first, and then with the count of names.
pub fn answer_names(alloc: Global, rest: &str, into: &mut Vec<u8>) -> Result<(), Stop> {
    let mut names = Names::new(alloc);
    push_words(&mut names, rest, into)
}

/// Adds words to a list of names.
fn add_words(names: &mut Names, words: &str) -> Result<(), Stop> {
    for word in words.split_whitespace() {
        add_name(names, word.as_bytes())?;
    }
    Ok(())
}

/// How two lists of names compare.
fn compare_lists(alloc: Global, left: &str, right: &str) -> Result<&'static str, Stop> {
    let mut one = Names::new(alloc);
    let mut other = Names::new(alloc);
    add_words(&mut one, left)?;
    add_words(&mut other, right)?;
    Ok(verdict(&one, &other))
}

/// Answers whether two lists of names are equal, and whether equal ones have one hash.
pub fn answer_listed(alloc: Global, rest: &str, into: &mut Vec<u8>) -> Result<(), Stop> {
    let Some((left, right)) = rest.split_once(':') else {
        return Err(Stop::OtherParts);
    };
    let said = compare_lists(alloc, left, right)?;
    into.extend_from_slice(said.as_bytes())?;
    Ok(())
}
