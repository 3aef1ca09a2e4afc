//! What a pool and its linked tables say of fields, kinds and records, before any value is there.
//!
//! Users see none of these; `prost_reflect_dynamic`, the crate of descriptors, values and messages, stands on them.
//!
//! The crate promises: what the record behind a key is read as (`targets`) is what the schema has for its number; a path of
//! numbers leads to the field that the schema has there (`paths`); a scalar is taken by a kind, is a field's default, and is
//! written, exactly as the definitions say (`scalars`, `writing`); a number is undeclared exactly where a closed enum lacks it
//! (`enums`).
//!
//! Begin with `targets`. `forms`, `kinds` and `types` tell the forms of fields, the names of kinds, and whether two message
//! types are one; `bodies` and `numbers` look at what stands behind keys, and `options` at what records store of options.
#![tactic(auto)]

pub mod bodies;
pub mod enums;
pub mod forms;
pub mod kinds;
pub mod numbers;
pub mod options;
pub mod paths;
pub mod scalars;
pub mod targets;
pub mod types;
pub mod writing;
