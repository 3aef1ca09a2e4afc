//! What the calls promise that read and write messages and ask of them, said of functions above the library, and the wrong
//! bodies that these promises refuse.
//!
//! Each function makes one call, or two, and promises what a program may rely on there, in the words of the definitions; the
//! search alone proves it from the contracts of the calls. An edit in `must-fail/` has a function do something else for some
//! messages or bytes, as dropping what is unknown, and the prover has to refuse it. So each edit shows that the promise of a
//! call leaves no room for that. The same edits of the calls themselves stand in `more-edits/` of the crates below: for these
//! the gate would have to prove the largest crate twice. `prost_reflect_edit_promises` has the calls that change messages, and
//! those of values, descriptors and pools.
//!
//! Begin with `reading`, which says what bytes mean; `writing` makes bytes again, `asking` has what a message is asked, and
//! `nesting` what it and its values show of what is inside. Relaying has its edits in `prost_reflect`, whose functions relay.
#![tactic(auto)]

mod asking;
mod nesting;
mod reading;
mod writing;

pub use asking::{
    fields_had, get, has, has_extended, is_typed, may_be_written, owns, store_the_same, unknown_had,
};
pub use nesting::{elements, fields_inside, part_shown, shown_inside};
pub use reading::{merge, read, read_in_pieces};
pub use writing::{write, written_len};
