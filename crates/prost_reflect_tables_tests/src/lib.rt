//! Tests of shared lists, of the tables of files, of the checks and of linking, through their public calls. They stand in a crate
//! of their own, so that the gate need not prove those a second time with them.
#![tactic(auto)]

#[cfg(test)]
mod defaults;
#[cfg(test)]
mod faults;
#[cfg(test)]
mod refusals;
#[cfg(test)]
mod shared_lists;
#[cfg(test)]
mod tables;
