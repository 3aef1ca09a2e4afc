//! The fields of a message by number, over any type of values.
//!
//! `FieldSet<V>` keeps at each number a value, unknown fields, or both, and promises: values stand only at the numbers of the
//! message type, unknown fields only where they give no field a value, and of each oneof at most one member has a value. A
//! call that runs out of memory changes nothing.
//!
//! Begin with `field_set`. Below it `stored` says what setting, taking and lending make of all slots, over any map from numbers
//! (`NumberMap` of `prost_reflect_maps`, a trait with laws), and `slot_map` that behind a call that sets a value at most one member
//! of each oneof has one, whatever the map.
#![tactic(auto)]

pub mod field_set;
mod members;
mod noting;
pub mod number_sets;
pub mod parting;
pub mod slot;
pub mod slot_map;
pub mod stored;
mod taking;
