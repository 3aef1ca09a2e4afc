//! Walks over what stands at places, and over what records reserve.
//!
//! Begin with `descriptors`: `Descriptors` gives what stands at each of some places of its parent, whatever that is (`Placed`).
//! `places` has the places that are still to come, and `ranges` the numbers and names that definitions reserve.
#![tactic(auto)]

mod descriptors;
mod places;
mod ranges;

pub use descriptors::{Descriptors, Placed};
pub use places::Places;
pub use ranges::{EnumReservedRanges, ExtensionRanges, ReservedNames, ReservedRanges};
