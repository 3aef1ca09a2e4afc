//! Why files do not become a pool.

ghost use Rattle.std.specs.Prelude.{◌≡◌};
ghost use Rattle.prost_reflect_tables.specs.declared.error.PoolError.TheVariants as pool_errors;
ghost use Rattle.prost_reflect_tables.specs.ReadErrors.{read_error};

use prost_reflect_wire::DecodeError;
use std::alloc::{AllocError, AllocFailed};
use thiserror::Error;

/// Why a descriptor set is refused. If its files have several faults, one of them is named.
#[derive(Clone, Copy, Debug, PartialEq, Eq, Error)]
pub enum PoolError {
    /// The bytes are not a descriptor set, or not a file's record. The error inside is never `OutOfMemory`.
    #[error("the bytes are no descriptor record: {0}")]
    Decode(DecodeError),
    /// A definition has no name, or an empty one.
    #[error("a definition has no name")]
    MissingName,
    /// Two definitions have one full name.
    #[error("two definitions have one full name")]
    DuplicateName,
    /// A syntax other than `proto2` and `proto3` is named.
    #[error("a file has an unknown syntax")]
    UnknownSyntax,
    /// A dependency names no file of the pool.
    #[error("a file depends on one that is not there")]
    MissingDependency,
    /// The index of a public or weak dependency, or of a oneof, is out of range.
    #[error("an index is out of range")]
    BadIndex,
    /// A field's number is not from 1 to 536870911.
    #[error("a field number is out of range")]
    BadNumber,
    /// Two fields or extensions of one message have one number.
    #[error("two fields of a message have one number")]
    DuplicateNumber,
    /// A range of a message is empty or starts below 0, or a range of an enum ends before it starts.
    #[error("a range ends before it starts")]
    BadRange,
    /// An extension's number is in no extension range of the message that it extends.
    #[error("an extension is in no extension range")]
    OutsideRange,
    /// A type name names nothing of the right sort.
    #[error("a type name names nothing")]
    UnknownType,
    /// A type is absent or unknown, or the name of one is absent.
    #[error("a type is missing")]
    MissingType,
    /// A label is unknown, or requires a field in a proto3 file.
    #[error("a field has a bad label")]
    BadLabel,
    /// A repeated field or an extension is a member of a oneof.
    #[error("a oneof has a member that none may have")]
    BadOneof,
    /// A message type of map entries, or a field that names one, is not as maps have it.
    #[error("a map entry is not as maps have it")]
    BadMapEntry,
    /// An enum has no values.
    #[error("an enum has no values")]
    EmptyEnum,
    /// A field has a default that its type or its file does not take.
    #[error("a default is not of its field's type")]
    BadDefault,
    /// A floating-point field has a default that is not read here, as `1.5`.
    #[error("a floating-point default is not read")]
    FloatDefault,
    /// The bytes of options are no records, or an option that is read has another wire type.
    #[error("options are not read")]
    BadOptions,
    /// Out of memory.
    #[error("out of memory")]
    OutOfMemory,
}

impl From<AllocError> for PoolError {
    ghost from_gives = { λ _ e. e ≡ pool_errors.OutOfMemory };

    fn from(_error: AllocError) -> PoolError {
        PoolError::OutOfMemory
    }
}

impl<T: Drop> From<AllocFailed<T>> for PoolError {
    ghost from_gives = { λ _ e. e ≡ pool_errors.OutOfMemory };

    fn from(_error: AllocFailed<T>) -> PoolError {
        PoolError::OutOfMemory
    }
}

impl From<DecodeError> for PoolError {
    ghost from_gives = { λ error e. e ≡ read_error error };

    fn from(error: DecodeError) -> PoolError {
        match error {
            DecodeError::OutOfMemory => PoolError::OutOfMemory,
            fault => PoolError::Decode(fault),
        }
    }
}
