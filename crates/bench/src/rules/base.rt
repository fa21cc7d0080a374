//! The rules that are measured, read from text.
ghost use Rattle.std.specs.Prelude.{◌<◌, length, IfSome};

use mars_base::NoMemory;
use mars_read::{ReadError, read_input};
use mars_rules::RuleBase;
use std::alloc::Global;

/// Append, then naive reverse; the second rule of each is measured.
const LISTS: &[u8] =
    b"rules app(nil,y,y) -> ; app(e.x,y,e.z) -> app(x,y,z); rev(nil,nil) -> ; rev(e.x,y) -> rev(x,z) app(z,e.nil,y); end";

/// How many facts there are.
const FACTS: usize = 4096;

/// What is measured.
#[derive(Clone, Copy, Debug, PartialEq, Eq)]
pub enum Kind {
    Append,
    Reverse,
    Copy,
    LookUp,
}

/// The rules of a kind, none where they can't be read.
pub fn base_of(alloc: Global, kind: Kind) -> Result<Option<RuleBase>, NoMemory> {
    match kind {
        Kind::LookUp => base_from(alloc, &facts(alloc)?),
        _ => base_from(alloc, LISTS),
    }
}

/// The rules of a text, none where it can't be read.
fn base_from(alloc: Global, text: &[u8]) -> Result<Option<RuleBase>, NoMemory> {
    match read_input(alloc, text) {
        Ok(input) => Ok(Some(RuleBase::new(alloc, input.rules.as_slice())?)),
        Err(ReadError::NoMemory) => Err(NoMemory),
        Err(_) => Ok(None),
    }
}

/// Facts of one name that are told apart by their first argument.
fn facts(alloc: Global) -> Result<Vec<u8>, NoMemory> {
    let mut text = Vec::from_slice(alloc, b"rules")?;
    for number in 0..FACTS {
        let fact = format!(in alloc; " ff({number},aa) -> ;")?;
        text.extend_from_slice(fact.as_bytes())?;
    }
    text.extend_from_slice(b" end")?;
    Ok(text)
}

/// The rule that is measured, none where there are too few.
pub fn rule_of(base: &RuleBase, kind: Kind) -> Option<usize>
    ensures { IfSome result (λ rule. rule < length base.now.rules) }
{
    let rule = match kind {
        Kind::Append => 1,
        Kind::Reverse | Kind::Copy => 3,
        Kind::LookUp => FACTS - 1,
    };
    base.candidate(None, rule)
}
