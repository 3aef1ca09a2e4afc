//! Tests of what is asked of messages and changed in them.

mod access;
mod by_name;
mod every;
mod lists;
mod many_calls;
mod messages;
pub(crate) mod types;
mod unknowns;
mod ways;
mod worked_values;
