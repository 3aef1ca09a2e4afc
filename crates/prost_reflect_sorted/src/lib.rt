//! The files, services and enum values of the catalog of a pool and of files that are added to it, and the places of definitions
//! in the order of names.
//!
//! All of it is taken from flat lists, before the linked tables are there. What the pool has stays shared, but for the places in
//! the order of names where some of their sort are added: these are copied, and the added ones put among them.
//!
//! `prost_reflect_catalog` puts what is made here into a catalog, beside the lists that `prost_reflect_lists` makes.
//!
//! Begin with `files`, what stands at the top of files and which files they import. `services` has the services with their
//! methods, `merging` the places of each sort of definitions in the order of names, and `values` those of the values of enums.
#![tactic(auto)]

mod files;
mod merging;
mod services;
mod values;

pub use files::linked_files;
pub use merging::{Sort, merged_by_name};
pub use services::linked_services;
pub use values::merged_values;
