//! Rows on sinks.
use crate::ends::row::{read_calls, read_number, split_at};
use mars_io::{Buffer, Put, Sink, ToWriter};
use rows::Stop;
use std::alloc::Global;

/// Writes these pieces, one after the other, and what became of each.
fn put_writes<K: Sink>(sink: &mut K, pieces: &str, into: &mut Vec<u8>) -> Result<(), Stop> {
    into.extend_from_slice(b"writes")?;
    for piece in pieces.split_whitespace() {
        let piece = piece.as_bytes();
        if piece.is_empty() {
            return Err(Stop::OtherParts);
        }
        match sink.write(piece) {
            Put::All => into.extend_from_slice(b" all")?,
            Put::Failed => into.extend_from_slice(b" failed")?,
        }
    }
    Ok(())
}

/// Ends an answer with the bytes that a sink got.
fn put_got(got: &[u8], into: &mut Vec<u8>) -> Result<(), Stop> {
    into.extend_from_slice(b", got ")?;
    into.extend_from_slice(got)?;
    Ok(())
}

/// `buffer N failing CALLS writes PIECES`: a buffer with room for so many bytes, some of whose writes fail.
pub fn answer_buffer(alloc: Global, rest: &str, into: &mut Vec<u8>) -> Result<(), Stop> {
    let (row, pieces) = split_at(rest, " writes ")?;
    let (room, calls) = split_at(row, " failing")?;
    let mut sink = Buffer::new(alloc, read_number(room)?, read_calls(alloc, calls)?)?;
    put_writes(&mut sink, pieces, into)?;
    put_got(sink.got(), into)
}

/// `list writes PIECES`: a list as std's writer.
pub fn answer_list(alloc: Global, rest: &str, into: &mut Vec<u8>) -> Result<(), Stop> {
    let (_nothing, pieces) = split_at(rest, "writes ")?;
    let mut list = Vec::new(alloc);
    put_writes(&mut ToWriter::new(&mut list), pieces, into)?;
    put_got(&list, into)
}

/// `short writes PIECES`: four bytes as std's writer, which takes nothing where they are full.
pub fn answer_short(rest: &str, into: &mut Vec<u8>) -> Result<(), Stop> {
    let (_nothing, pieces) = split_at(rest, "writes ")?;
    let mut bytes = [b'.'; 4];
    put_writes(&mut ToWriter::new(bytes.as_mut_slice()), pieces, into)?;
    put_got(&bytes, into)
}
