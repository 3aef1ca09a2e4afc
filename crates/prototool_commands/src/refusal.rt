//! Why a command is refused, and the lines that say so.

ghost use Rattle.std.specs.Prelude.{◌≡◌, false};
ghost use Rattle.prototool_commands.specs.Refusals.{RefusesPath, decode_refusal, encode_refusal, is_path};
ghost use Rattle.prototool_commands.specs.declared.refusal.Refusal.TheVariants as refusals;

use hex::FromHexError;
use prost_reflect::{DecodeError, EncodeError, PoolError};
use std::alloc::{AllocError, AllocFailed, Global};
use std::io::ErrorKind;
use std::{fmt, io};

/// Why a command is not carried out. Its text is the line that the program prints.
#[derive(Debug, Drop, PartialEq, Eq)]
pub enum Refusal {
    /// The file of the path is not read. Out of memory is `Memory`.
    File(String),
    /// The standard input is not read. Out of memory is `Memory`.
    Input,
    /// The bytes are no descriptor set. Out of memory is `Memory`.
    Set(DecodeError),
    /// The files of the descriptor set make no pool. Out of memory is `Memory`, and bytes that are no set are `Set`.
    Pool(PoolError),
    /// No message type has the name.
    Name,
    /// The digits of the message are not pairs of hex digits.
    Hex,
    /// The path of names leads to no field.
    Path(String),
    /// The bytes are no fields. Out of memory is `Memory`.
    Decode(DecodeError),
    /// The bytes are no message of the type, and the text says where the fault stands.
    Message(DecodeError, String),
    /// The message is not written. Out of memory is `Memory`.
    Encode(EncodeError),
    /// Out of memory.
    Memory,
}

impl Refusal {
    /// The refusal of a file that is not read.
    pub fn of_file(alloc: Global, path: &str, error: &io::Error) -> Refusal
        ensures { is_path result ≡ false }
    {
        if error.kind() == ErrorKind::OutOfMemory {
            return Refusal::Memory;
        }
        match String::from_str(alloc, path) {
            Ok(path) => Refusal::File(path),
            Err(_) => Refusal::Memory,
        }
    }

    /// The refusal of the standard input, if it is not read.
    pub fn of_input(error: &io::Error) -> Refusal
        ensures { is_path result ≡ false }
    {
        if error.kind() == ErrorKind::OutOfMemory {
            Refusal::Memory
        } else {
            Refusal::Input
        }
    }

    /// The refusal of a path of names that leads to no field.
    pub fn of_path(alloc: Global, path: &str) -> Refusal
        ensures { RefusesPath path.now result }
    {
        match String::from_str(alloc, path) {
            Ok(path) => Refusal::Path(path),
            Err(_) => Refusal::Memory,
        }
    }
}

impl fmt::Display for Refusal {
    fn fmt<W: fmt::Write>(&self, f: &mut fmt::Formatter<W>) -> fmt::Result {
        match self {
            Refusal::File(path) => write!(f, "refused file {path}"),
            Refusal::Input => write!(f, "refused input"),
            Refusal::Set(fault) => write!(f, "refused pool Decode {fault:?}"),
            Refusal::Pool(fault) => write!(f, "refused pool {fault:?}"),
            Refusal::Name => write!(f, "refused name"),
            Refusal::Hex => write!(f, "refused hex"),
            Refusal::Path(path) => write!(f, "refused path {path}"),
            Refusal::Decode(fault) => write!(f, "refused decode {fault:?}"),
            Refusal::Message(fault, place) => write!(f, "refused decode {fault:?} {place}"),
            Refusal::Encode(fault) => write!(f, "refused encode {fault:?}"),
            Refusal::Memory => write!(f, "refused memory"),
        }
    }
}

impl From<AllocError> for Refusal {
    ghost from_gives = { λ _ refusal. refusal ≡ refusals.Memory };

    fn from(_error: AllocError) -> Refusal {
        Refusal::Memory
    }
}

impl<T: Drop> From<AllocFailed<T>> for Refusal {
    ghost from_gives = { λ _ refusal. refusal ≡ refusals.Memory };

    fn from(_failed: AllocFailed<T>) -> Refusal {
        Refusal::Memory
    }
}

impl From<FromHexError> for Refusal {
    ghost from_gives = { λ _ refusal. is_path refusal ≡ false };

    fn from(error: FromHexError) -> Refusal {
        match error {
            FromHexError::OutOfMemory => Refusal::Memory,
            _ => Refusal::Hex,
        }
    }
}

impl From<PoolError> for Refusal {
    ghost from_gives = { λ _ refusal. is_path refusal ≡ false };

    fn from(error: PoolError) -> Refusal {
        match error {
            PoolError::OutOfMemory => Refusal::Memory,
            PoolError::Decode(fault) => Refusal::Set(fault),
            fault => Refusal::Pool(fault),
        }
    }
}

impl From<DecodeError> for Refusal {
    ghost from_gives = { λ error refusal. refusal ≡ decode_refusal error };

    fn from(error: DecodeError) -> Refusal {
        match error {
            DecodeError::OutOfMemory => Refusal::Memory,
            fault => Refusal::Decode(fault),
        }
    }
}

impl From<EncodeError> for Refusal {
    ghost from_gives = { λ error refusal. refusal ≡ encode_refusal error };

    fn from(error: EncodeError) -> Refusal {
        match error {
            EncodeError::OutOfMemory => Refusal::Memory,
            fault => Refusal::Encode(fault),
        }
    }
}
