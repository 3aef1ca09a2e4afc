//! Functions of programs above the library, each proved by the contracts of its public calls alone: no proof file stands
//! beside them, so they say what such a program may rely on.

pub mod asking;
pub mod comparing;
pub mod descriptors;
mod edit_runs;
pub mod editing;
pub mod error;
pub mod extending;
pub mod lending;
pub mod moving;
pub mod nesting;
pub mod relaying;
mod runs;
pub mod writing;
