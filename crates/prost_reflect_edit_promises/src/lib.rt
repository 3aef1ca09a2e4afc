//! What the calls promise that change messages, and those of values, descriptors and pools, said of functions above the library,
//! and the wrong bodies that these promises refuse.
//!
//! It is to these calls what `prost_reflect_promises` is to those that read, write and ask: each function makes one call and
//! promises what the call promises, and an edit in `must-fail/` has it do something else. The two crates stand beside each
//! other, so that their edits are tried side by side.
//!
//! Begin with `editing`, which has the calls that change a message; `lending` has what these give away and lend, `values` those
//! of values and keys, and `descriptors` and `pools` those of what the files say.
#![tactic(auto)]

mod descriptors;
mod editing;
mod lending;
mod pools;
mod values;

pub use descriptors::{field_named, full_name_of, is_reduction, options_of};
pub use editing::{clear, clear_all, copy, is_taken_by, set, set_through, take, take_all, try_set};
pub use lending::{lend_inside, lend_message, lend_part, take_inside, take_part};
pub use pools::{add_files, are_equal, find, read_record, record_of};
pub use values::{default_key_of, default_of, is_default_of, spelled};
