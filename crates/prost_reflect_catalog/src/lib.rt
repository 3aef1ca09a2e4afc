//! The catalog of a pool and of files that are added to it: what descriptors tell beside the rows of message types.
//!
//! `outlined` takes from flat lists what each definition encloses, what is extended, services, and places in the order of names,
//! so that the lists may be gone before the catalog is made; `linked_catalog` makes it once the rows are there, as
//! `prost_reflect_linking` makes them: the lists of fields and the places of extensions go by these. Only what is added is linked.
//! What the pool has stays shared, but for what added extensions change: the lists of the messages that they extend, and the rows
//! of the extensions that these had.
//! Promised is the grown catalog, as `prost_reflect_growth` says it (`grown_catalog`), for faulty files too, so nothing is asked
//! of the input but what its texts mean.
//!
//! `prost_reflect_lists` makes the lists of messages and enums and the rows of extensions, and `prost_reflect_sorted` the lists of
//! files, the services and the places in the order of names; `catalog` puts together what both make.
#![tactic(auto)]

mod catalog;

pub use catalog::{Outline, linked_catalog, outlined};
pub use prost_reflect_lists::Extended;
