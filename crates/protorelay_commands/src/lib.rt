//! The commands of the program `protorelay`: reads a message by the name of its type, and writes it again, with a value set
//! in it or without, or names what is present.
//!
//! Begin with `run`, which carries out a command line over two writers. `command` has what a command line asks for, `reading`
//! what each command reads, and `relay`, `show` and `edit` what answers them; `refusal` names why one is not carried out.
#![tactic(auto)]

mod command;
mod edit;
mod path;
mod reading;
mod refusal;
mod relay;
pub mod run;
mod show;
