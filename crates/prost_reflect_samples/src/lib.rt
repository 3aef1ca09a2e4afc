//! What the tests of several crates begin with: descriptor sets, messages, and a list of calls.
#![tactic(auto)]

pub mod calls;
pub mod every;
pub mod sets;

use std::alloc::{AllocError, Global};

/// The value, lent to the end of the run and never dropped. A test that begins with it owns nothing, and what a function has to
/// drop on each of its ways out is most of what its proof takes.
pub fn leaked<'a, T: Drop + 'a>(alloc: Global, value: T) -> Result<&'a mut T, AllocError> {
    Ok(Box::leak(Box::new(alloc, value)?))
}
