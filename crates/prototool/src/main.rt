//! Prints messages in the text format, compares schemas, and clears fields of messages: `prototool print [SET NAME]
//! [FILE | --hex DIGITS]`, `prototool compare OLDER NEWER [NAME]` and `prototool redact SET NAME PATH.. [-- FILE | --hex
//! DIGITS]`. SET, OLDER and NEWER are files with descriptor sets, or `-` for the built-in one.
#![tactic(auto)]

use prototool_commands::run::run;
use std::process::ExitCode;

fn main(rt: HostRuntime) -> ExitCode {
    ExitCode::from(run(&rt))
}
