//! Tests of `prost_reflect_fields`, through its public calls.
#![tactic(auto)]

#[cfg(test)]
mod changes;
#[cfg(test)]
mod choices;
#[cfg(test)]
mod fields;
#[cfg(test)]
mod runs;
