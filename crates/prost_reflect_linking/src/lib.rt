//! Linking: the rows of a pool and of files that are added to it, in flat lists.
//!
//! `linked` makes the rows of message types, fields, oneofs and enums, which name one another by places; what descriptors tell
//! beside them stands in the catalog, which `prost_reflect_catalog` makes. Only what is added is linked. What the pool has stays
//! shared, but for the rows of the messages that added extensions extend. Promised are the grown rows, as `prost_reflect_growth`
//! says them (`grown_rows`), for faulty files too, so linking asks nothing of its input but what its texts mean.
//!
//! Begin with `link`; `grown` has the messages of the pool, and `meaning` what the texts of fields mean, without the definitions
//! that they stand in.
#![tactic(auto)]

mod grown;
mod link;
mod meaning;

pub use link::linked;
pub use meaning::{Meaning, meanings, meanings_by_message};
