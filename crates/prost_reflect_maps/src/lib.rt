//! Maps from numbers to items of any type.
//!
//! Begin with `number_map`, a trait with laws: what is at each number, the first number from one on, and the last below one.
//! `walks` goes over all items of any such map, up and down. `sorted_map` is the map that messages hold: one list (`items`) of up
//! to 128 items, and sorted runs (`runs`) above that, whose items it moves, copies and replaces. A call that runs out of memory
//! changes nothing.
#![tactic(auto)]

pub mod boxed;
pub mod items;
pub mod number_map;
mod runs;
pub mod sorted_map;
pub mod walks;
