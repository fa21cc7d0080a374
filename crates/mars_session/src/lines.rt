//! The lines that sessions write, each appended to what is there.
ghost use Rattle.std.specs.Prelude.{◌≡◌, ◌+◌, ◌++◌, ◌∷◌, [], OnOk, codes, decimal, length};
ghost use Rattle.mars_tree.specs.Names.{spelling};
ghost use Rattle.mars_session.specs.Lines.{heading_line, too_large_line, kept_line, full_line, pinned_line, shown_line, dropped_line, swept_line, rows_line, answer_line, told_line, ending_codes, ending_line};
ghost use Rattle.mars_machine.specs.declared.stepped.Stepped.TheVariants.{Said, SaidText};
ghost use Rattle.mars_session.specs.LinesInside.{CanBeWritten};

use itoa::Buffer;
use mars_answer::Answer;
use mars_base::NoMemory;
use mars_canon::{Canon, Tree};
use mars_machine::{Ending, Stepped};
use mars_print::{print_roots, print_string_body, print_tree};
use mars_table::Handle;
use mars_tree::{NameId, Names};

/// Writes the spelling of a name. One that isn't among the names has none.
fn push_spelling(line: &mut Vec<u8>, names: &Names, name: NameId) -> Result<(), NoMemory>
    ensures { OnOk result (line.new.items ≡ line.old.items ++ spelling names.now name) }
{
    if (name.0 as usize) < names.len() {
        line.extend_from_slice(names.text(name))?;
    }
    Ok(())
}

/// Writes a number.
fn push_number(line: &mut Vec<u8>, number: u64) -> Result<(), NoMemory>
    ensures { OnOk result (line.new.items ≡ line.old.items ++ decimal number) }
{
    let mut buffer = Buffer::new();
    line.extend_from_slice(buffer.format(number).as_bytes())?;
    Ok(())
}

/// Writes a number, after `#`.
fn push_handle(line: &mut Vec<u8>, handle: Handle) -> Result<(), NoMemory>
    ensures { OnOk result (line.new.items ≡ line.old.items ++ decimal handle.0) }
{
    let mut buffer = Buffer::new();
    line.extend_from_slice(buffer.format(handle.0).as_bytes())?;
    Ok(())
}

/// Writes the first line of a session.
pub(crate) fn push_heading(line: &mut Vec<u8>, names: &Names, name: NameId) -> Result<(), NoMemory>
    ensures { OnOk result (line.new.items ≡ line.old.items ++ heading_line names.now name) }
{
    line.extend_from_slice(b"session ")?;
    push_spelling(line, names, name)?;
    line.extend_from_slice(b"\n")?;
    Ok(())
}

/// Writes the line of a tree that is too large.
pub(crate) fn push_too_large(line: &mut Vec<u8>, count: usize) -> Result<(), NoMemory>
    ensures { OnOk result (line.new.items ≡ line.old.items ++ too_large_line count) }
{
    line.extend_from_slice(b"too large ")?;
    push_number(line, count as u64)?;
    line.extend_from_slice(b"\n")?;
    Ok(())
}

/// Writes the line of a tree that is kept.
pub(crate) fn push_kept(
    line: &mut Vec<u8>,
    names: &Names,
    name: NameId,
    handle: Handle,
) -> Result<(), NoMemory>
    ensures { OnOk result (line.new.items ≡ line.old.items ++ kept_line names.now name handle.0) }
{
    line.extend_from_slice(b"kept ")?;
    push_spelling(line, names, name)?;
    line.extend_from_slice(b" #")?;
    push_handle(line, handle)?;
    line.extend_from_slice(b"\n")?;
    Ok(())
}

/// Writes the line of a table that is full.
pub(crate) fn push_full(line: &mut Vec<u8>, rows: u64, fresh: u64, cap: u64) -> Result<(), NoMemory>
    ensures { OnOk result (line.new.items ≡ line.old.items ++ full_line rows fresh cap) }
{
    line.extend_from_slice(b"full ")?;
    push_number(line, rows)?;
    line.extend_from_slice(b" + ")?;
    push_number(line, fresh)?;
    line.extend_from_slice(b" > ")?;
    push_number(line, cap)?;
    line.extend_from_slice(b"\n")?;
    Ok(())
}

/// Writes the line of a pin.
pub(crate) fn push_pinned(
    line: &mut Vec<u8>,
    names: &Names,
    name: NameId,
    handle: Handle,
) -> Result<(), NoMemory>
    ensures { OnOk result (line.new.items ≡ line.old.items ++ pinned_line names.now name handle.0) }
{
    line.extend_from_slice(b"pinned ")?;
    push_spelling(line, names, name)?;
    line.extend_from_slice(b" #")?;
    push_handle(line, handle)?;
    line.extend_from_slice(b"\n")?;
    Ok(())
}

/// Writes the line of a tree that is shown.
pub(crate) fn push_shown(
    line: &mut Vec<u8>,
    names: &Names,
    name: NameId,
    tree: &Tree,
) -> Result<(), NoMemory>
    ensures { OnOk result (line.new.items ≡ line.old.items ++ shown_line names.now name tree.now) }
{
    let canon = tree.canon()?;
    line.extend_from_slice(b"shown ")?;
    push_spelling(line, names, name)?;
    line.extend_from_slice(b" = ")?;
    print_tree(names, &canon, line)?;
    line.extend_from_slice(b"\n")?;
    Ok(())
}

/// Writes the line of a name that was dropped.
pub(crate) fn push_dropped(line: &mut Vec<u8>, names: &Names, name: NameId) -> Result<(), NoMemory>
    ensures { OnOk result (line.new.items ≡ line.old.items ++ dropped_line names.now name) }
{
    line.extend_from_slice(b"dropped ")?;
    push_spelling(line, names, name)?;
    line.extend_from_slice(b"\n")?;
    Ok(())
}

/// Writes the line of a sweep.
pub(crate) fn push_swept(line: &mut Vec<u8>, gone: u64) -> Result<(), NoMemory>
    ensures { OnOk result (line.new.items ≡ line.old.items ++ swept_line gone) }
{
    line.extend_from_slice(b"swept ")?;
    push_number(line, gone)?;
    line.extend_from_slice(b"\n")?;
    Ok(())
}

/// Writes the line of a count.
pub(crate) fn push_rows(line: &mut Vec<u8>, rows: u64, pins: u64) -> Result<(), NoMemory>
    ensures { OnOk result (line.new.items ≡ line.old.items ++ rows_line rows pins) }
{
    line.extend_from_slice(b"rows ")?;
    push_number(line, rows)?;
    line.extend_from_slice(b", pins ")?;
    push_number(line, pins)?;
    line.extend_from_slice(b"\n")?;
    Ok(())
}

/// Writes the line of a tree that a step says.
fn push_said(line: &mut Vec<u8>, names: &Names, canon: &Canon) -> Result<(), NoMemory>
    requires { length canon.now.roots ≡ 1 }
    ensures { OnOk result (line.new.items ≡ line.old.items ++ told_line names.now [] 0 (Said canon.now)) }
{
    line.extend_from_slice(b"out ")?;
    print_tree(names, canon, line)?;
    line.extend_from_slice(b"\n")?;
    Ok(())
}

/// Writes the line of a string that a step says.
fn push_said_text(line: &mut Vec<u8>, names: &Names, string: NameId) -> Result<(), NoMemory>
    ensures { OnOk result (line.new.items ≡ line.old.items ++ told_line names.now [] 0 (SaidText string)) }
{
    line.extend_from_slice(b"outm ")?;
    print_string_body(names, string, line)?;
    line.extend_from_slice(b"\n")?;
    Ok(())
}

/// Writes the line of an answer of a number.
fn push_answer(
    line: &mut Vec<u8>,
    names: &Names,
    number: u64,
    vars: &[NameId],
    answer: &Answer,
) -> Result<(), NoMemory>
    requires { answer.now.vars ≡ length vars.now }
    ensures { OnOk result (line.new.items ≡ line.old.items ++ answer_line names.now number vars.now answer.now.canon answer.now.difs answer.now.frozen) }
{
    line.extend_from_slice(b"answer ")?;
    push_number(line, number)?;
    line.extend_from_slice(b": ")?;
    print_roots(names, &answer.canon, vars, answer.difs, answer.frozen, line)?;
    line.extend_from_slice(b"\n")?;
    Ok(())
}

/// Writes what a step of an ask tells, with so many answers before it.
pub(crate) fn push_told(
    line: &mut Vec<u8>,
    names: &Names,
    vars: &[NameId],
    count: u64,
    stepped: &Stepped,
) -> Result<(), NoMemory>
    requires { CanBeWritten vars.now stepped.now }
    ensures { OnOk result (line.new.items ≡ line.old.items ++ told_line names.now vars.now count stepped.now) }
{
    match stepped {
        Stepped::Went => Ok(()),
        Stepped::Said(canon) => push_said(line, names, canon),
        Stepped::SaidText(string) => push_said_text(line, names, *string),
        Stepped::Answered(answer) => {
            let number = count.checked_add(1).ok_or(NoMemory)?;
            push_answer(line, names, number, vars, answer)
        }
        Stepped::Ended => Ok(()),
    }
}

/// What the last line of an ask begins with.
fn ending_word(ending: Ending) -> &'static [u8]
    ensures { result.now ≡ ending_codes ending }
{
    match ending {
        Ending::End => b"end ",
        Ending::Enough => b"enough ",
        Ending::Stopped => b"stopped ",
    }
}

/// Writes the last line of an ask, after so many steps.
pub(crate) fn push_ending(line: &mut Vec<u8>, ending: Ending, steps: u64) -> Result<(), NoMemory>
    ensures { OnOk result (line.new.items ≡ line.old.items ++ ending_line ending steps) }
{
    line.extend_from_slice(ending_word(ending))?;
    push_number(line, steps)?;
    line.extend_from_slice(b"\n")?;
    Ok(())
}
