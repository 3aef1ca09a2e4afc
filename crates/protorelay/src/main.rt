//! Reads a message by the name of its type, and writes it again, with a value set in it or without, or names what is
//! present: `protorelay relay|show SET NAME HEX | edit SET NAME HEX PATH TEXT`.
#![tactic(auto)]

use protorelay_commands::run::{refuse_words, run};
use std::env::Env;
use std::process::ExitCode;
use std::{env, io};

/// The words of the command line, without the program's name.
fn words<R: Env + AllocGlobal>(rt: &R) -> io::Result<Vec<String>> {
    let mut words = env::args(rt)?;
    let _program = words.next();
    Ok(words.collect(rt.alloc())?)
}

fn main(rt: HostRuntime) -> ExitCode {
    let status = match words(&rt) {
        Ok(words) => run(words.as_slice(), &mut rt.stdout(), &mut rt.stderr()),
        Err(error) => refuse_words(&error, &mut rt.stderr()),
    };
    ExitCode::from(status)
}
