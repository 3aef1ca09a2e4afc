//! What stands in a pool to which files are added, as the checks and the linking of the added files ask it.
//!
//! A `Base` lends a pool. What it promises is said of the definitions of the pool's files in flat lists, `rows_below`, as the
//! checks and the linking of added files speak of them. These lists stand in contracts alone: what is asked is looked up in the
//! pool's tables, its catalog and its records, and nothing is made.
//!
//! Begin with `base`, the type and how many definitions there are. `lookup` finds definitions by their names and numbers, and
//! what stands at a place; `names` says whether a definition of whatever sort has a full name, and `full_names` which one stands at
//! a place.
#![tactic(auto)]

mod base;
mod full_names;
mod lookup;
mod names;

pub use base::Base;
