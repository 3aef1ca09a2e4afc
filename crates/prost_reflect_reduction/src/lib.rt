//! Whether a message type of linked tables is a reduction of another: the same type, perhaps with fields left out.
//!
//! `is_reduction` promises the answer exactly, yes and no, where it finds memory: that some set of pairs of message types holds
//! the two and each pair that is reached from them, whose fields, oneofs, enums and defaults are alike. `reduction_fault` is
//! the same walk with the first fault that it finds, which stands where its path leads.
//!
//! Begin with `walk`, which visits each pair once; `types` compares two message types by themselves, `fields` and `values` two
//! fields, and `kinds` kinds and enums. `fault` has what is answered.
#![tactic(auto)]

mod fault;
mod fields;
mod kinds;
mod oneofs;
mod types;
mod values;
mod walk;

pub use fault::{ReductionFault, ReductionFaultKind};
pub use walk::{is_reduction, reduction_fault};
