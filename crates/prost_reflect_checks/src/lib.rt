//! The checks of files that are added to a pool: each fault that files may have has a name, and a test that looks for it.
//!
//! `check_added` takes the added definitions in flat lists, as `prost_reflect_flat` makes them, and the pool that is there, and
//! promises: it hands on each added field with what its texts mean exactly where pool and added files together have none of the
//! eighteen faults, and else names one that they have, or is out of memory. It looks at the added definitions alone, and asks the
//! pool what these name. What each fault is stands in the definitions of `prost_reflect_tables` (`specs/Checked`), and why the
//! added definitions tell it in `prost_reflect_growth`.
//!
//! Begin with `faults`, the list of all checks in their order. Those that look at the added definitions alone stand in
//! `prost_reflect_definition_checks`, with the walks over definitions that each check hands its test to; here stand those that
//! ask what texts mean, or the pool, by topic, and `walk`, with the walks over fields whose texts were looked up.
#![tactic(auto)]

mod defaults;
mod entries;
mod faults;
mod names;
mod numbers;
mod ranges;
mod types;
mod walk;

pub use faults::check_added;
