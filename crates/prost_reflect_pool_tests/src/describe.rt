//! All that the descriptors of a pool say.

mod enums;
mod fields;
mod files;
mod lists;
mod messages;
mod words;

use crate::describe::enums::write_enums;
use crate::describe::fields::write_extensions;
use crate::describe::files::{write_files, write_services};
pub use crate::describe::lists::Listed;
use crate::describe::messages::write_messages;
use crate::describe::words::Lines;
use prost_reflect::DescriptorPool;
use std::alloc::{AllocError, Global};

/// A line for each definition of the pool, lent to the end of the run.
pub fn describe(alloc: Global, pool: &DescriptorPool) -> Result<&'static str, AllocError> {
    let lines = Box::leak(Box::new(alloc, Lines::new(alloc))?);
    write_files(lines, pool);
    write_messages(lines, pool);
    write_extensions(lines, pool);
    write_enums(lines, pool);
    write_services(lines, pool);
    lines.finish()
}
