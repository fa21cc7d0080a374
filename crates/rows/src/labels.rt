//! Labels as rows write them: `dot` with two arguments, `tup` with any number, `int7` and `neg5`, `str` and what follows
//! it without arguments, which is a string, and all other names.
ghost use Rattle.std.specs.Prelude.{◌<◌};

use crate::graphs::label_at;
use crate::stopping::Stop;
use mars_base::NoMemory;
use mars_tree::{Graph, Label, NameId, Names};

/// The number of a name, which goes last where it is new.
pub fn add_name(names: &mut Names, text: &[u8]) -> Result<NameId, Stop> {
    if names.len() < 1_000_000 {
        Ok(names.id(text)?)
    } else {
        Err(Stop::TooMany)
    }
}

/// The name at a node, empty where there is none.
pub fn name_at<'a>(names: &'a Names, graph: &Graph, node: usize) -> &'a [u8] {
    match label_at(graph, node) {
        Some(Label::Name { name, arity: _ }) => spelled(names, name),
        _ => b"",
    }
}

/// The spelling of a name, empty where it has none.
fn spelled(names: &Names, name: NameId) -> &[u8] {
    if (name.0 as usize) < names.len() {
        names.text(name)
    } else {
        b""
    }
}

/// The number that digits write.
fn number_of(digits: &[u8]) -> Option<i64> {
    if digits.is_empty() {
        return None;
    }
    let mut number: i64 = 0;
    for digit in digits {
        if !digit.is_ascii_digit() {
            return None;
        }
        number = number.checked_mul(10)?.checked_add(i64::from(*digit & 15))?;
    }
    Some(number)
}

/// The integer that a name writes.
fn integer_of(text: &[u8]) -> Option<i64> {
    if let Some(digits) = text.strip_prefix(b"int".as_slice()) {
        return number_of(digits);
    }
    match text.strip_prefix(b"neg".as_slice()) {
        Some(digits) => number_of(digits)?.checked_neg(),
        None => None,
    }
}

/// The label that a name with so many arguments writes.
pub fn label_named(names: &Names, name: NameId, arity: u32) -> Label {
    let text = spelled(names, name);
    if arity == 2 && text == b"dot".as_slice() {
        return Label::Dot;
    }
    if text == b"tup".as_slice() {
        return Label::Tup(arity);
    }
    if arity == 0 && text.starts_with(b"str".as_slice()) {
        return Label::Str(name);
    }
    match integer_of(text) {
        Some(number) if arity == 0 => Label::Int(number),
        _ => Label::Name { name, arity },
    }
}

/// Writes a label as a row does, and `_` for a free leaf.
pub fn push_label(names: &Names, label: Option<Label>, into: &mut Vec<u8>) -> Result<(), NoMemory> {
    match label {
        Some(Label::Name { name, arity: _ }) => into.extend_from_slice(spelled(names, name))?,
        Some(Label::Int(number)) => push_integer(number, into)?,
        Some(Label::Dot) => into.extend_from_slice(b"dot")?,
        Some(Label::Tup(_)) => into.extend_from_slice(b"tup")?,
        Some(Label::Str(text)) => into.extend_from_slice(spelled(names, text))?,
        None => into.extend_from_slice(b"_")?,
    }
    Ok(())
}

/// Writes an integer as a row does.
fn push_integer(number: i64, into: &mut Vec<u8>) -> Result<(), NoMemory> {
    let sign = if number < 0 { b"neg" } else { b"int" };
    let size = number.unsigned_abs();
    into.extend_from_slice(sign)?;
    into.extend_from_slice(format!(in *into.allocator(); "{size}")?.as_bytes())?;
    Ok(())
}
