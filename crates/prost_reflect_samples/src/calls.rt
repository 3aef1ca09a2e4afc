//! Many calls on the fields of a message.

use std::alloc::{AllocError, Global};

/// A call on the field of a number.
#[derive(Clone, Copy)]
pub enum Call {
    Set(u32, u32),
    Clear(u32),
    Take(u32),
    /// Adds the amount to the value that is lent for writing, which is 1000 where there was none.
    Write(u32, u32),
}

impl Call {
    /// The number of the field.
    pub fn number(self) -> u32 {
        match self {
            Call::Set(number, _) | Call::Write(number, _) => number,
            Call::Clear(number) | Call::Take(number) => number,
        }
    }
}

/// Five hundred calls of the four forms on the numbers 1 to 12.
pub fn calls(alloc: Global) -> Result<Vec<Call>, AllocError> {
    let mut calls = Vec::new(alloc);
    let mut state: u64 = 20_251_122;
    for step in 0..500_u32 {
        state = state
            .wrapping_mul(6_364_136_223_846_793_005)
            .wrapping_add(1_442_695_040_888_963_407);
        let number = ((state >> 33) % 12) as u32 + 1;
        let call = match (state >> 40) % 6 {
            0 => Call::Take(number),
            1 => Call::Clear(number),
            2 | 3 => Call::Write(number, step),
            _ => Call::Set(number, step),
        };
        calls.push(call)?;
    }
    Ok(calls)
}
