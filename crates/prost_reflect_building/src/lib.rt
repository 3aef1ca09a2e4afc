//! Builds pools: the pool of files that are added to those of another, and the built-in pool.
//!
//! Begin with `adding`, which says which files of a batch are added. `building` checks them and links those that pass behind the
//! pool's, and `builtin` has the files of the built-in pool. A pool of files is that of an addition to an empty one.
#![tactic(auto)]

mod adding;
mod building;
mod builtin;

pub use adding::with_files;
pub use builtin::builtin_pool;
