//! Carries out a command line.

use crate::answer::Answer;
use crate::command::Command;
use crate::compare::comparison;
use crate::decoding::with_place;
use crate::input::{bytes_of, message_type, pool_of};
use crate::print::{message_text, raw_text};
use crate::redact::redact;
use crate::refusal::Refusal;
use std::env::Env;
use std::fmt::Display;
use std::io::{ErrorKind, Input, Write};
use std::rt::Files;
use std::{env, io};

/// The status of a command that is carried out.
const DONE: u8 = 0;

/// The status of a command whose data are refused, or which finds something amiss.
const REFUSED: u8 = 1;

/// The status of words that ask for no command.
const MISUSED: u8 = 2;

const USAGE: &str =
    "usage: prototool print [SET NAME] [FILE | --hex DIGITS] | compare OLDER NEWER [NAME] | redact SET NAME PATH.. [-- FILE | --hex DIGITS]";

/// Carries out the command line, and answers the status that the program ends with: 0 where the command was carried out, 1
/// where its data were refused, with a line on the error stream, or a write failed, and 2 with a line on the usage where the
/// words ask for no command.
pub fn run(rt: &HostRuntime) -> u8 {
    match carry_out(rt) {
        Ok(status) => status,
        Err(_) => REFUSED,
    }
}

/// Carries out the command line, and answers the status.
///
/// # Errors
///
/// That of a write that fails.
fn carry_out(rt: &HostRuntime) -> io::Result<u8> {
    let words = match words(rt) {
        Ok(words) => words,
        Err(error) => return refuse_words(rt, &error),
    };
    let Some(command) = Command::parse(words.as_slice()) else {
        write_line(&mut rt.stderr(), USAGE)?;
        return Ok(MISUSED);
    };
    match answer(rt, command) {
        Ok(answer) => {
            write_bytes(&mut rt.stdout(), answer.bytes.as_slice())?;
            Ok(if answer.passes { DONE } else { REFUSED })
        }
        Err(refusal) => {
            write_line(&mut rt.stderr(), refusal)?;
            Ok(REFUSED)
        }
    }
}

/// The words of the command line, without the program's name.
fn words<R: Env + AllocGlobal>(rt: &R) -> io::Result<Vec<String>> {
    let mut words = env::args(rt)?;
    let _program = words.next();
    Ok(words.collect(rt.alloc())?)
}

/// Names on the error stream why the words of the command line can't be had: out of memory, or a word is no text.
fn refuse_words(rt: &HostRuntime, error: &io::Error) -> io::Result<u8> {
    if error.kind() == ErrorKind::OutOfMemory {
        write_line(&mut rt.stderr(), Refusal::Memory)?;
        return Ok(REFUSED);
    }
    write_line(&mut rt.stderr(), USAGE)?;
    Ok(MISUSED)
}

/// What answers the command.
fn answer<R: Files + Input + AllocGlobal>(rt: &R, command: Command<'_>) -> Result<Answer, Refusal> {
    match command {
        Command::Print { set, name, source } => {
            let pool = pool_of(rt, set.as_str())?;
            let descriptor = message_type(&pool, name.as_str())?;
            let bytes = bytes_of(rt, source)?;
            match message_text(rt.alloc(), descriptor.clone()?, bytes.as_slice()) {
                Ok(text) => Ok(Answer::passing(text.into_bytes())),
                Err(refusal) => Err(with_place(rt.alloc(), descriptor, bytes.as_slice(), refusal)),
            }
        }
        Command::PrintRaw { source } => {
            let bytes = bytes_of(rt, source)?;
            let text = raw_text(rt.alloc(), bytes.as_slice())?;
            Ok(Answer::passing(text.into_bytes()))
        }
        Command::Compare { older, newer, name } => {
            let older = pool_of(rt, older.as_str())?;
            let newer = pool_of(rt, newer.as_str())?;
            let name = name.map(|name| name.as_str());
            comparison(rt.alloc(), &older, &newer, name)
        }
        Command::Redact {
            set,
            name,
            paths,
            source,
        } => {
            let bytes = redact(rt, set.as_str(), name.as_str(), paths, source)?;
            Ok(Answer::passing(bytes))
        }
    }
}

fn write_bytes<W: Write>(to: &mut W, bytes: &[u8]) -> io::Result<()> {
    to.write_all(bytes)?;
    to.flush()
}

fn write_line<W: Write, D: Display + Drop>(to: &mut W, line: D) -> io::Result<()> {
    to.writeln(line)?;
    to.flush()
}
