//! `marseille` reads an input from standard input, runs its sessions, and writes what they answer to standard output.
#![tactic(auto)]

mod reading;
mod refusal;
mod running;
mod status;
mod top;
mod words;

use mars_base::NoMemory;
use mars_io::{FromReader, OpenGate, ToWriter};
use status::{Outcome, Status};
use std::alloc::Global;
use std::io::ErrorKind;
use std::process::ExitCode;
use std::{env, io};
use top::marseille;

/// The words after the program's name. Where one of them isn't UTF-8, they are one empty word, which isn't accepted.
fn words_of(rt: &(impl std::rt::Env + Alloc<A = Global>)) -> Result<Vec<String>, NoMemory> {
    let mut words = Vec::new(rt.alloc());
    match env::args(rt) {
        Ok(args) => {
            for word in args.skip(1) {
                words.push(word)?;
            }
        }
        Err(error) if error.kind() == ErrorKind::OutOfMemory => return Err(NoMemory),
        Err(_) => words.push(String::new(rt.alloc()))?,
    }
    Ok(words)
}

fn main(rt: HostRuntime) -> ExitCode {
    let Ok(words) = words_of(&rt) else {
        return ExitCode::from(Status::Memory.number());
    };
    let mut source = FromReader::new(rt.reader());
    let mut sink = ToWriter::new(io::writer(&rt));
    let Outcome { status, .. } = marseille(
        &rt,
        rt.alloc(),
        &words,
        &mut source,
        &mut sink,
        &OpenGate,
    );
    ExitCode::from(status.number())
}
