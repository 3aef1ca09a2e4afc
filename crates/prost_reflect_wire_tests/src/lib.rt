//! Tests of `prost_reflect_wire`, through its public calls. They stand in a crate of their own, so that the gate need not
//! prove that one a second time with them.
#![tactic(auto)]

#[cfg(test)]
mod copies;
#[cfg(test)]
mod encodings;
#[cfg(test)]
mod forms;
#[cfg(test)]
mod numbers;
#[cfg(test)]
mod records;
#[cfg(test)]
mod unknown;
#[cfg(test)]
mod worked;
