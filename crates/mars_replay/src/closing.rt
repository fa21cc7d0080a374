//! What comes last: the texts of the sessions, the closing calls, and the last line.
ghost use Rattle.std.specs.Prelude.{◌≡◌, ◌++◌, ◌∷◌, [], IfOk, OnOk, codes, decimal};
ghost use Rattle.std.specs.List.{flat_map, list_any};
ghost use Rattle.mars_table.specs.declared.entry.Call.TheVariants.{Sweep, Count};
ghost use Rattle.mars_table.specs.declared.entry.Reply.TheVariants.{Swept, Counted};
ghost use Rattle.mars_table.specs.TableSeen.{Applied};
ghost use Rattle.mars_session.specs.Lines.{last_line};
ghost use Rattle.mars_session.specs.SessionSeen.{session_text};

use itoa::Buffer;
use mars_base::NoMemory;
use mars_session::Session;
use mars_table::{Call, Reply, Table};

/// The sweep of the program.
pub(crate) fn last_sweep(table: &mut Table, who: u32) -> Result<u64, NoMemory>
    ensures { IfOk result (λ gone. Applied table.old who Sweep (Swept gone) table.new) }
{
    match table.apply(who, Call::Sweep)? {
        Reply::Swept(gone) => Ok(gone),
        _ => unreachable!(),
    }
}

/// The counts of the program.
pub(crate) fn last_count(table: &mut Table, who: u32) -> Result<(u64, u64), NoMemory>
    ensures { IfOk result (λ n. Applied table.old who Count (Counted n.0 n.1) table.new) }
{
    match table.apply(who, Call::Count)? {
        Reply::Counted { rows, pins } => Ok((rows, pins)),
        _ => unreachable!(),
    }
}

/// Writes a number.
fn push_number(text: &mut Vec<u8>, number: u64) -> Result<(), NoMemory>
    ensures { OnOk result (text.new.items ≡ text.old.items ++ decimal number) }
{
    let mut buffer = Buffer::new();
    text.extend_from_slice(buffer.format(number).as_bytes())?;
    Ok(())
}

/// Writes the last line of all.
pub fn push_last_line(text: &mut Vec<u8>, gone: u64, rows: u64, pins: u64) -> Result<(), NoMemory>
    ensures { OnOk result (text.new.items ≡ text.old.items ++ last_line gone rows pins) }
{
    text.extend_from_slice(b"swept ")?;
    push_number(text, gone)?;
    text.extend_from_slice(b", rows ")?;
    push_number(text, rows)?;
    text.extend_from_slice(b", pins ")?;
    push_number(text, pins)?;
    text.extend_from_slice(b"\n")?;
    Ok(())
}

/// Writes the texts of sessions, in order.
pub fn push_texts(text: &mut Vec<u8>, sessions: &[Session]) -> Result<(), NoMemory>
    ensures { OnOk result (text.new.items ≡ text.old.items ++ flat_map session_text sessions.now) }
{
    for session in sessions {
        text.extend_from_slice(session.text())?;
    }
    Ok(())
}

/// Whether one of the sessions was cut.
pub fn any_cut(sessions: &[Session]) -> bool
    ensures { result ≡ list_any (λ s. s.cut) sessions.now }
{
    sessions.iter().any(|session| session.was_cut())
}
