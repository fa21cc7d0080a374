//! Rows on sources.
use crate::ends::row::{read_calls, read_number, split_at};
use mars_io::{Bytes, FromReader, NeverFails, Source, SourceError, Taken, read_whole};
use rows::{Stop, push_number};
use std::alloc::Global;

/// A read of a row has at most so many bytes of room.
const MOST_ROOM: usize = 16;

/// One read with so many bytes of room, and what it gave.
fn put_read<S: Source>(source: &mut S, room: &str, into: &mut Vec<u8>) -> Result<(), Stop> {
    let mut bytes = [0u8; MOST_ROOM];
    let room = read_number(room)?;
    if room == 0 || room > MOST_ROOM {
        return Err(Stop::TooMany);
    }
    match source.read(&mut bytes[..room]) {
        Taken::Got(count) => {
            into.extend_from_slice(b" got ")?;
            into.extend_from_slice(&bytes[..count])?;
        }
        Taken::End => into.extend_from_slice(b" end")?,
        Taken::Failed => into.extend_from_slice(b" failed")?,
    }
    Ok(())
}

/// Reads with these rooms, one after the other.
fn put_reads<S: Source>(source: &mut S, rooms: &str, into: &mut Vec<u8>) -> Result<(), Stop> {
    into.extend_from_slice(b"reads")?;
    for room in rooms.split_whitespace() {
        put_read(source, room, into)?;
    }
    Ok(())
}

/// A reading to the end, or past a limit, and how many bytes it gave.
fn put_whole<S: Source>(
    alloc: Global,
    source: &mut S,
    limit: usize,
    into: &mut Vec<u8>,
) -> Result<(), Stop> {
    if limit > 1_048_576 {
        return Err(Stop::TooMany);
    }
    match read_whole(alloc, source, limit) {
        Ok(bytes) => {
            push_number(bytes.len(), into)?;
            into.extend_from_slice(if bytes.len() > limit {
                b" bytes, too many"
            } else {
                b" bytes, all read"
            })?;
        }
        Err(SourceError::Failed) => into.extend_from_slice(b"failed")?,
        Err(SourceError::NoMemory) => return Err(Stop::NoMemory),
    }
    Ok(())
}

/// The source of a row `TEXT most N failing CALLS`.
fn bytes_of(alloc: Global, row: &str) -> Result<Bytes, Stop> {
    let (text, parts) = split_at(row, " most ")?;
    let (most, calls) = split_at(parts, " failing")?;
    let most = read_number(most)?;
    let failing = read_calls(alloc, calls)?;
    if most == 0 {
        return Err(Stop::OtherParts);
    }
    let bytes = Vec::from_slice(alloc, text.as_bytes())?;
    Ok(Bytes::new(bytes, most, failing))
}

/// `bytes TEXT most N failing CALLS reads ROOMS`: a list of bytes in pieces, some of whose reads fail.
pub fn answer_bytes(alloc: Global, rest: &str, into: &mut Vec<u8>) -> Result<(), Stop> {
    let (row, rooms) = split_at(rest, " reads ")?;
    let mut source = bytes_of(alloc, row)?;
    put_reads(&mut source, rooms, into)
}

/// `never TEXT reads ROOMS`: a list of bytes that never fails.
pub fn answer_never(alloc: Global, rest: &str, into: &mut Vec<u8>) -> Result<(), Stop> {
    let (text, rooms) = split_at(rest, " reads ")?;
    let mut source = NeverFails::new(Vec::from_slice(alloc, text.as_bytes())?);
    put_reads(&mut source, rooms, into)
}

/// `reader TEXT reads ROOMS`: a reader of std.
pub fn answer_reader(_alloc: Global, rest: &str, into: &mut Vec<u8>) -> Result<(), Stop> {
    let (text, rooms) = split_at(rest, " reads ")?;
    let mut source = FromReader::new(text.as_bytes());
    put_reads(&mut source, rooms, into)
}

/// `whole TEXT limit N`: a reading to the end.
pub fn answer_whole(alloc: Global, rest: &str, into: &mut Vec<u8>) -> Result<(), Stop> {
    let (text, limit) = split_at(rest, " limit ")?;
    let mut source = NeverFails::new(Vec::from_slice(alloc, text.as_bytes())?);
    put_whole(alloc, &mut source, read_number(limit)?, into)
}

/// `broken TEXT most N failing CALLS limit N`: a reading to the end of a source some of whose reads fail.
pub fn answer_broken(alloc: Global, rest: &str, into: &mut Vec<u8>) -> Result<(), Stop> {
    let (row, limit) = split_at(rest, " limit ")?;
    let mut source = bytes_of(alloc, row)?;
    put_whole(alloc, &mut source, read_number(limit)?, into)
}

/// `long COUNT limit N`: a reading of so many bytes, which are read in several turns.
pub fn answer_long(alloc: Global, rest: &str, into: &mut Vec<u8>) -> Result<(), Stop> {
    let (count, limit) = split_at(rest, " limit ")?;
    let count = read_number(count)?;
    if count > 1_048_577 {
        return Err(Stop::TooMany);
    }
    let mut source = NeverFails::new(vec![in alloc; b'a'; count]?);
    put_whole(alloc, &mut source, read_number(limit)?, into)
}
