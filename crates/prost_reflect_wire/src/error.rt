//! Why bytes are refused, or not written.

ghost use Rattle.std.specs.Prelude.{◌≡◌};
ghost use Rattle.prost_reflect_wire.specs.declared.error.DecodeError.TheVariants as decode_errors;
ghost use Rattle.prost_reflect_wire.specs.declared.error.EncodeError.TheVariants as encode_errors;

use std::alloc::{AllocError, AllocFailed};
use thiserror::Error;

/// Why bytes are refused. If they have several faults, one of them is named.
#[derive(Clone, Copy, Debug, PartialEq, Eq, Error)]
pub enum DecodeError {
    /// The input or a delimited body ends inside a record, a length passes the end, or a group has no end.
    #[error("the input ends inside a record")]
    Truncated,
    /// The tenth byte of a varint is above 1.
    #[error("a varint does not fit 64 bits")]
    Varint,
    /// A key is 2^32 or more, has the field number 0, or has the wire type 6 or 7.
    #[error("a key has no field number or no wire type")]
    Key,
    /// A record has a wire type that its field does not take.
    #[error("a record has a wire type that its field does not take")]
    WireType,
    /// An end key closes no open group of its number.
    #[error("an end key closes no open group")]
    EndGroup,
    /// The bytes of a string are not UTF-8.
    #[error("a string is not UTF-8")]
    Utf8,
    /// More levels are nested than may be opened.
    #[error("messages or groups are nested too deep")]
    Depth,
    /// Out of memory.
    #[error("out of memory")]
    OutOfMemory,
}

impl From<AllocError> for DecodeError {
    ghost from_gives = { λ _ e. e ≡ decode_errors.OutOfMemory };

    fn from(_error: AllocError) -> DecodeError {
        DecodeError::OutOfMemory
    }
}

impl<T: Drop> From<AllocFailed<T>> for DecodeError {
    ghost from_gives = { λ _ e. e ≡ decode_errors.OutOfMemory };

    fn from(_error: AllocFailed<T>) -> DecodeError {
        DecodeError::OutOfMemory
    }
}

/// Why a value is not written.
#[derive(Clone, Copy, Debug, PartialEq, Eq, Error)]
pub enum EncodeError {
    /// A length passes the greatest `usize`.
    #[error("a length passes the greatest usize")]
    TooLong,
    /// Out of memory.
    #[error("out of memory")]
    OutOfMemory,
}

impl From<AllocError> for EncodeError {
    ghost from_gives = { λ _ e. e ≡ encode_errors.OutOfMemory };

    fn from(_error: AllocError) -> EncodeError {
        EncodeError::OutOfMemory
    }
}
