//! The lists of messages and enums in the catalog of a pool and of files that are added to it, and the extensions in it.
//!
//! `inner_places`, `further_places`, `lists_of_enums` and `all_extended` take from flat lists what messages enclose, what extends
//! them, the values of enums and what is extended; `lists_of_messages` and `linked_extensions` make the rest once the linked tables
//! are there. Only what is added is linked. What the pool has stays shared, but for what added extensions change: the lists of the
//! messages that they extend, and the rows of the extensions that these had.
//!
//! `prost_reflect_catalog` puts the lists into a catalog, beside what `prost_reflect_sorted` makes.
//!
//! Begin with `lists`, the lists of messages and enums; `extensions` says where the rows of extensions stand.
#![tactic(auto)]

mod extensions;
mod lists;

pub use extensions::{Extended, all_extended, linked_extensions};
pub use lists::{InnerPlaces, further_places, inner_places, lists_of_enums, lists_of_messages};
