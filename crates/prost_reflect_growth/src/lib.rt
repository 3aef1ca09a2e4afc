//! What becomes of the flat lists, the tables and the catalog of files that pass all checks, where files are added to them.
//!
//! `laws` says what stays, so that nothing old has to be made anew: old definitions mean what they did, the faults of all files
//! together are tests of the added definitions, and the rows and lists of all are those of the old ones, with what the added ones
//! put among them and behind them. Old files, enums and services keep theirs, and so does each message that none further extends.
//! Each law is the contract of a function without a body; the statements stand in `specs/`, and the lemmas in `proofs/` are open
//! to the crates above.
//!
//! Begin with `laws`: `rows_grow`, `checks_grow` and `catalog_grows` are what the others lead to. `grown_message` computes the
//! row of an old message with further extensions, `moved_extension` where those that it has move, and `merged` puts what is
//! added among what stands in order. `linked_identity` and `json_name` give what the rows of added definitions say of where these
//! stand and what they are called, `add_item` puts what belongs to a place into the list of it, `gathered` makes the lists of all
//! items that belong to some places, and `ordered_texts` and `ordered_numbers` put places in order; rows and catalog are made with
//! them.
#![tactic(auto)]

mod belonging;
mod gather;
mod identity;
pub mod laws;
mod merge;
mod order;
mod rows;

pub use belonging::{add_item, empty_lists, is_below};
pub use gather::{gathered, list_at};
pub use identity::{json_name, lent_identity, linked_identity};
pub use merge::merged;
pub use order::{ordered_numbers, ordered_texts, sort_by_text, text_at};
pub use rows::{grown_message, moved_extension, sort_by_number};
