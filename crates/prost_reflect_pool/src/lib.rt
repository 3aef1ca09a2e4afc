//! Pools as files with their tables, and message types as places of a shared one.
//!
//! A `LinkedPool` promises that its files pass all checks, that its tables and its catalog are those of the files, and that no
//! two files have one name; so a pool is fixed by its files. A `PooledType` is a message type as a place of a shared pool.
//!
//! Begin with `pool`. `lookup`, `listing`, `linking` and `records` lend what a name, a number, a place or a path finds. How the
//! pool of a batch of files is made stands above this crate, in `prost_reflect_building`.
#![tactic(auto)]

mod files;
mod laws;
mod linking;
mod listing;
mod lookup;
mod maps;
mod pool;
mod pooled_type;
mod records;

pub use files::FileDescriptorProtos;
pub use pool::LinkedPool;
pub use pooled_type::PooledType;
