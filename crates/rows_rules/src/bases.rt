//! The rule bases of a row's sessions, and their equality.
ghost use Rattle.std.specs.Prelude.{All, IfOk};
ghost use Rattle.mars_term.specs.Clauses.{IsRule};
ghost use Rattle.mars_scripts.specs.WellFormed.{IsWellFormedInput, IsWellFormedScript};

use mars_base::NoMemory;
use mars_rules::RuleBase;
use mars_script::{Input, Script};
use mars_term::Version;
use rows::Stop;
use std::alloc::Global;

/// The rules of an input, followed by those of a session.
pub(crate) fn base_of(alloc: Global, input: &Input, session: &Script) -> Result<RuleBase, NoMemory>
    requires input { IsWellFormedInput input.now }
    requires session { IsWellFormedScript session.now }
{
    RuleBase::join(
        alloc,
        input.rules.as_slice(),
        session.rules.as_slice(),
        input.version,
    )
}

/// Writes whether the two sessions have equal rule bases.
pub(crate) fn push_equal(alloc: Global, input: &Input, into: &mut Vec<u8>) -> Result<(), Stop>
    requires { IsWellFormedInput input.now }
{
    let mut bases = Vec::new(alloc);
    push_bases(alloc, input, &mut bases)?;
    match bases.as_slice() {
        [one, other] => push_verdict(one, other, into),
        _ => Err(Stop::OtherParts),
    }
}

/// Puts the rules of each session last in a list.
fn push_bases(alloc: Global, input: &Input, bases: &mut Vec<RuleBase>) -> Result<(), Stop>
    requires { IsWellFormedInput input.now }
{
    for session in input.sessions.as_slice() {
        bases.push(base_of(alloc, input, session)?)?;
    }
    Ok(())
}

/// Writes the version of an input's rules by themselves, the version of the input, and whether the two bases are equal.
pub(crate) fn push_versions(alloc: Global, input: &Input, into: &mut Vec<u8>) -> Result<(), Stop>
    requires { IsWellFormedInput input.now }
{
    let one = RuleBase::new(alloc, input.rules.as_slice())?;
    let other = RuleBase::join(alloc, input.rules.as_slice(), &[], input.version)?;
    into.extend_from_slice(version_text(one.version()))?;
    into.extend_from_slice(version_text(other.version()))?;
    push_verdict(&one, &other, into)
}

fn version_text(version: Version) -> &'static [u8] {
    match version {
        Version::One => b"version 1, ",
        Version::Two => b"version 2, ",
    }
}

/// Writes whether two rule bases are equal.
fn push_verdict(one: &RuleBase, other: &RuleBase, into: &mut Vec<u8>) -> Result<(), Stop> {
    let text = if *one == *other {
        b"equal".as_slice()
    } else {
        b"not equal".as_slice()
    };
    into.extend_from_slice(text)?;
    Ok(())
}
