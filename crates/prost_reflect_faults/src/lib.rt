//! Where in the bytes a fault stands that keeps a message type from accepting them.
//!
//! `decode_fault` promises none exactly where the type accepts the bytes, and else a fault that stands where it says: so many
//! bytes behind the beginning, inside of the fields of its path. It takes no memory.
//!
//! Begin with `search`, which goes through the records of a message, of a group or of an entry; `inside` looks up what is known of
//! a number there, and `payload` passes over scalars. `fault` has what is answered.
#![tactic(auto)]

mod fault;
mod inside;
mod payload;
mod search;

pub use fault::DecodeFault;
pub use search::decode_fault;
