//! What the functions refuse.

use prost_reflect::{DecodeError, EncodeError, GetFieldError, SetFieldError};
use std::alloc::AllocError;
use thiserror::Error;

/// Why a function answers nothing.
#[derive(Debug, Drop, Error)]
pub enum ClientError {
    /// The bytes are not read.
    #[error("not read: {0}")]
    Decode(#[from] DecodeError),
    /// The message is not written.
    #[error("not written: {0}")]
    Encode(#[from] EncodeError),
    /// A field is not set.
    #[error("not set: {0}")]
    Set(#[from] SetFieldError),
    /// A field is not lent.
    #[error("not lent: {0}")]
    Get(#[from] GetFieldError),
    /// Out of memory.
    #[error("out of memory")]
    OutOfMemory(#[from] AllocError),
}
