//! Tests of `prost_reflect_pool`, through its public calls. They stand in a crate of their own, so that the gate need
//! not prove that one a second time with them.
#![tactic(auto)]

#[cfg(test)]
mod additions;
#[cfg(test)]
mod batches;
#[cfg(test)]
mod behind;
#[cfg(test)]
mod builtin;
#[cfg(test)]
mod describe;
#[cfg(test)]
mod described;
#[cfg(test)]
mod found;
#[cfg(test)]
mod handles;
#[cfg(test)]
mod many;
#[cfg(test)]
mod named;
#[cfg(test)]
mod options;
#[cfg(test)]
mod origins;
#[cfg(test)]
mod pools;
#[cfg(test)]
mod random_files;
#[cfg(test)]
mod reductions;
#[cfg(test)]
mod schema;
#[cfg(test)]
mod whole;
