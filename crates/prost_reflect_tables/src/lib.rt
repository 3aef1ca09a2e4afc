//! The linked tables and the catalog of a descriptor pool as plain data: its message types and enums, each named by its place in a
//! list, and the lists in which its names, numbers and places are found.
//!
//! All definitions of checks and of linking stand here, in `specs/`, so that a reader finds in one place what is wrong with files
//! and what they link to: the definitions of files in flat lists (`specs/Flat`), the faults (`specs/Checked`), and what tables and
//! the catalog are linked to (`specs/Linking`, `specs/LinkedCatalog`). `prost_reflect_flat` makes the flat lists,
//! `prost_reflect_definition_checks` and `prost_reflect_checks` compute the faults, `prost_reflect_linking` the tables, and
//! `prost_reflect_catalog` the catalog.
//!
//! Begin with `tables` and `catalog`, the rows; `lookup` finds what stands at a place. `kinds` and `names` read what definitions
//! write of types and of names, and `error` says why files are refused.
#![tactic(auto)]

mod catalog;
mod definition_names;
mod error;
mod examples;
mod field;
mod kinds;
mod laws;
mod lookup;
mod names;
mod naming;
mod scalar;
mod tables;

pub use catalog::{
    Catalog, EnumLists, ExtensionTable, FileTable, MessageLists, MethodTable, ServiceTable,
    SortedPlaces,
};
pub use definition_names::DefinitionNames;
pub use error::PoolError;
pub use examples::{
    checking, contents_and_tables, defaults_read, defaults_refused, linking, shown_tables,
    tables_not_linked,
};
pub use kinds::{is_packable, linked_kind, natural_or_zero, place_in};
pub use laws::{equal_files, files_equality};
pub use names::{joined, text_or_empty, without_dot};
pub use scalar::ScalarRef;
pub use tables::{
    Cardinality, EnumTable, EnumValueTable, FieldTable, Identity, MessageTable, OneofTable,
    TableKind, Tables, WrittenDefault,
};
