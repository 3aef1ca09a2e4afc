//! The checks of added files that look at their definitions alone, and ask no pool: of names and syntaxes, of indices, numbers,
//! types that are missing, labels, oneofs and first values, of ranges, and of option bytes.
//!
//! Each check answers whether the definitions have one fault, exactly as `prost_reflect_tables` defines it (`specs/Faults`,
//! `specs/OptionFaults`). `prost_reflect_checks` makes them one after another, with those that ask what the texts of definitions
//! mean, and has the tests of this crate for them too.
//!
//! Begin with `walk`, the walks over definitions of a sort that each check hands its test to; the other modules hold the tests, by
//! topic.
#![tactic(auto)]

pub mod fields;
pub mod indices;
pub mod names;
pub mod options;
pub mod ranges;
pub mod walk;
