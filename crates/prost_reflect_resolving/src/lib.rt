//! What the texts of added definitions mean: the definitions that they name, of the pool that is there or of the added ones, the
//! kinds of fields, and their defaults.
//!
//! Files are added to a `Base`. Their own definitions stand in flat lists, as `prost_reflect_flat` makes them, and the places of
//! these go on behind those of the pool. `all_resolved` promises of each field and extension what the definitions of linking say
//! over all flat lists, those of the pool's files and the added ones behind them (`specs/Resolved`), and looks at the added ones
//! alone: a text costs a search in the pool and one in the index of the added names.
//!
//! Begin with `index`, what texts are looked up in; `resolve` looks each text up once, for the checks and for linking.
#![tactic(auto)]

mod index;
mod resolve;

pub use index::{Index, enum_place, index_from, message_place};
pub use resolve::{Resolved, ResolvedField, all_resolved};
