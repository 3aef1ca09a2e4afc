//! The commands of the program `prototool`: prints messages in the text format, compares schemas, and clears fields of
//! messages.
//!
//! Begin with `run`, which carries out a command line. `print`, `compare` and `redact` have what answers each command, as
//! `message_text`, `comparison` and `redacted`, which read no file; `command` has what a command line asks for, `input` what
//! it reads, and `refusal` names why one is not carried out, with the place of a fault from `decoding`.
#![tactic(auto)]

mod answer;
mod command;
mod compare;
mod decoding;
mod input;
mod print;
mod redact;
mod refusal;
pub mod run;
mod types;

pub use answer::Answer;
pub use compare::comparison;
pub use decoding::with_place;
pub use print::{double_text, float_text, message_text, raw_text};
pub use redact::{numbers_of, redacted};
pub use refusal::Refusal;
