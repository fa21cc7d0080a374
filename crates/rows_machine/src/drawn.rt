//! Texts of programs that look random: names over at most two variables and names of no arguments.
use mars_base::NoMemory;
use rows::Draw;
use std::alloc::Global;

/// One of some words.
fn push_one(draw: &mut Draw, words: &[&str], text: &mut Vec<u8>) -> Result<(), NoMemory> {
    if words.len() > 0 {
        let place = draw.below(words.len());
        if let Some(word) = words.get(place) {
            text.extend_from_slice(word.as_bytes())?;
        }
    }
    Ok(())
}

/// An atom: a variable more often than a name.
fn push_atom(draw: &mut Draw, text: &mut Vec<u8>) -> Result<(), NoMemory> {
    push_one(draw, &["x", "y", "z", "x", "y", "aa", "bb", "cc"], text)
}

/// A name over two atoms.
fn push_two(draw: &mut Draw, name: &str, text: &mut Vec<u8>) -> Result<(), NoMemory> {
    text.extend_from_slice(name.as_bytes())?;
    text.extend_from_slice(b"(")?;
    push_atom(draw, text)?;
    text.extend_from_slice(b",")?;
    push_atom(draw, text)?;
    text.extend_from_slice(b")")?;
    Ok(())
}

/// A name over one atom.
fn push_single(draw: &mut Draw, name: &str, text: &mut Vec<u8>) -> Result<(), NoMemory> {
    text.extend_from_slice(name.as_bytes())?;
    text.extend_from_slice(b"(")?;
    push_atom(draw, text)?;
    text.extend_from_slice(b")")?;
    Ok(())
}

/// A call that rules may have.
fn push_call(draw: &mut Draw, text: &mut Vec<u8>) -> Result<(), NoMemory> {
    match draw.below(4) {
        0 => push_two(draw, "qq", text),
        1 => push_one(draw, &["rr"], text),
        _ => push_single(draw, "pp", text),
    }
}

/// A goal that is frozen.
fn push_frozen(draw: &mut Draw, text: &mut Vec<u8>) -> Result<(), NoMemory> {
    text.extend_from_slice(b"freeze(")?;
    push_atom(draw, text)?;
    text.extend_from_slice(b",")?;
    match draw.below(4) {
        0 => push_two(draw, "eq", text)?,
        1 => push_two(draw, "dif", text)?,
        2 => push_single(draw, "out", text)?,
        _ => push_call(draw, text)?,
    }
    text.extend_from_slice(b")")?;
    Ok(())
}

/// A goal.
fn push_goal(draw: &mut Draw, text: &mut Vec<u8>) -> Result<(), NoMemory> {
    text.extend_from_slice(b" ")?;
    match draw.below(12) {
        0 | 1 => push_two(draw, "eq", text),
        2 | 3 => push_two(draw, "dif", text),
        4 | 5 => push_frozen(draw, text),
        6 => push_single(draw, "bound", text),
        7 => push_single(draw, "free", text),
        8 => push_single(draw, "out", text),
        _ => push_call(draw, text),
    }
}

/// A rule: its body may have cuts.
fn push_rule(draw: &mut Draw, text: &mut Vec<u8>) -> Result<(), NoMemory> {
    text.extend_from_slice(b" ")?;
    push_call(draw, text)?;
    text.extend_from_slice(b" ->")?;
    let goals = draw.below(4);
    for _ in 0..goals {
        push_goal(draw, text)?;
        if draw.below(6) == 0 {
            text.extend_from_slice(b" /")?;
        }
    }
    text.extend_from_slice(b";")?;
    Ok(())
}

/// An input with some rules and one ask.
pub fn drawn_text(alloc: Global, draw: &mut Draw) -> Result<Vec<u8>, NoMemory> {
    let mut text = Vec::from_slice(alloc, b"rules")?;
    let rules = draw.below(6);
    for _ in 0..=rules {
        push_rule(draw, &mut text)?;
    }
    text.extend_from_slice(b" session ss ask")?;
    let goals = draw.below(4);
    for _ in 0..=goals {
        push_goal(draw, &mut text)?;
    }
    text.extend_from_slice(b"; end")?;
    Ok(text)
}
