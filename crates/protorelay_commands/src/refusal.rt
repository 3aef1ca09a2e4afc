//! Why a command is refused, and the lines that say so.

ghost use Rattle.std.specs.Prelude.{◌≡◌, Some};
ghost use Rattle.protorelay_commands.specs.Reading.{hex_refusal, pool_refusal, decode_refusal, encode_refusal, relay_refusal};
ghost use Rattle.protorelay_commands.specs.Editing.{edit_refusal};
ghost use Rattle.protorelay_commands.specs.Refusals.{decode_name, encode_name, pool_name, refusal_line};
ghost use Rattle.protorelay_commands.specs.declared.refusal.Refusal.TheVariants as refusals;

use hex::FromHexError;
use prost_reflect::{
    DecodeError, EncodeError, PoolError, RelayError, RelayHexError, RelayWithError,
};
use std::alloc::AllocError;
use std::fmt;

/// Why a command is not carried out. Its text is the line that the program prints.
#[derive(Clone, Copy, Debug, PartialEq, Eq)]
pub enum Refusal {
    /// The bytes are no descriptor set. Out of memory is `Memory`.
    Set(DecodeError),
    /// The files of the descriptor set make no pool. Out of memory is `Memory`, and bytes that are no set are `Set`.
    Pool(PoolError),
    /// No message type has the name.
    Name,
    /// The digits of the set, or of the message, are not pairs of hex digits.
    Hex,
    /// The path is not numbers joined by dots, or leads to no field.
    Number,
    /// The text spells no value that the field takes; a list, a map, a message or a group takes none.
    Value,
    /// Out of memory where the text was read, so its value is not known. The line is that of `Value`.
    ValueUnread,
    /// The type does not accept the bytes. Out of memory is `Memory`.
    Decode(DecodeError),
    /// The message is not written. Out of memory is `Memory`.
    Encode(EncodeError),
    /// Out of memory.
    Memory,
}

impl fmt::Display for Refusal {
    ghost output = { λ refusal. Some (refusal_line refusal) };

    fn fmt<W: fmt::Write>(&self, f: &mut fmt::Formatter<W>) -> fmt::Result {
        match *self {
            Refusal::Set(fault) => write!(f, "refused pool Decode {}", decode_name(fault)),
            Refusal::Pool(fault) => write!(f, "refused pool {}", pool_name(fault)),
            Refusal::Name => write!(f, "refused name"),
            Refusal::Hex => write!(f, "refused hex"),
            Refusal::Number => write!(f, "refused number"),
            Refusal::Value | Refusal::ValueUnread => write!(f, "refused value"),
            Refusal::Decode(fault) => write!(f, "refused decode {}", decode_name(fault)),
            Refusal::Encode(fault) => write!(f, "refused encode {}", encode_name(fault)),
            Refusal::Memory => write!(f, "refused memory"),
        }
    }
}

impl From<AllocError> for Refusal {
    ghost from_gives = { λ _ refusal. refusal ≡ refusals.Memory };

    fn from(_error: AllocError) -> Refusal {
        Refusal::Memory
    }
}

impl From<FromHexError> for Refusal {
    ghost from_gives = { λ error refusal. refusal ≡ hex_refusal error };

    fn from(error: FromHexError) -> Refusal {
        match error {
            FromHexError::OutOfMemory => Refusal::Memory,
            _ => Refusal::Hex,
        }
    }
}

impl From<PoolError> for Refusal {
    ghost from_gives = { λ error refusal. refusal ≡ pool_refusal error };

    fn from(error: PoolError) -> Refusal {
        match error {
            PoolError::OutOfMemory => Refusal::Memory,
            PoolError::Decode(fault) => Refusal::Set(fault),
            fault => Refusal::Pool(fault),
        }
    }
}

impl From<DecodeError> for Refusal {
    ghost from_gives = { λ error refusal. refusal ≡ decode_refusal error };

    fn from(error: DecodeError) -> Refusal {
        match error {
            DecodeError::OutOfMemory => Refusal::Memory,
            fault => Refusal::Decode(fault),
        }
    }
}

impl From<EncodeError> for Refusal {
    ghost from_gives = { λ error refusal. refusal ≡ encode_refusal error };

    fn from(error: EncodeError) -> Refusal {
        match error {
            EncodeError::OutOfMemory => Refusal::Memory,
            fault => Refusal::Encode(fault),
        }
    }
}

impl From<RelayHexError> for Refusal {
    ghost from_gives = { λ error refusal. refusal ≡ relay_refusal error };

    fn from(error: RelayHexError) -> Refusal {
        match error {
            RelayHexError::Hex => Refusal::Hex,
            RelayHexError::Relay(RelayError::Decode(fault)) => Refusal::from(fault),
            RelayHexError::Relay(RelayError::Encode(fault)) => Refusal::from(fault),
            RelayHexError::OutOfMemory => Refusal::Memory,
        }
    }
}

impl From<RelayWithError> for Refusal {
    ghost from_gives = { λ error refusal. refusal ≡ edit_refusal error };

    fn from(error: RelayWithError) -> Refusal {
        match error {
            RelayWithError::NotFound => Refusal::Number,
            RelayWithError::InvalidType | RelayWithError::HoldsMessage => Refusal::Value,
            RelayWithError::Decode(fault) => Refusal::from(fault),
            RelayWithError::Encode(fault) => Refusal::from(fault),
            RelayWithError::OutOfMemory => Refusal::Memory,
        }
    }
}

/// The name of a fault that bytes have.
fn decode_name(fault: DecodeError) -> &'static str
    ensures { result.now ≡ decode_name fault }
{
    match fault {
        DecodeError::Truncated => "Truncated",
        DecodeError::Varint => "Varint",
        DecodeError::Key => "Key",
        DecodeError::WireType => "WireType",
        DecodeError::EndGroup => "EndGroup",
        DecodeError::Utf8 => "Utf8",
        DecodeError::Depth => "Depth",
        DecodeError::OutOfMemory => "OutOfMemory",
    }
}

/// The name of a fault in writing a message.
fn encode_name(fault: EncodeError) -> &'static str
    ensures { result.now ≡ encode_name fault }
{
    match fault {
        EncodeError::TooLong => "TooLong",
        EncodeError::OutOfMemory => "OutOfMemory",
    }
}

/// The name of a fault that files have.
fn pool_name(fault: PoolError) -> &'static str
    ensures { result.now ≡ pool_name fault }
{
    match fault {
        PoolError::Decode(_) => "Decode",
        PoolError::MissingName => "MissingName",
        PoolError::DuplicateName => "DuplicateName",
        PoolError::UnknownSyntax => "UnknownSyntax",
        PoolError::MissingDependency => "MissingDependency",
        PoolError::BadIndex => "BadIndex",
        PoolError::BadNumber => "BadNumber",
        PoolError::DuplicateNumber => "DuplicateNumber",
        PoolError::BadRange => "BadRange",
        PoolError::OutsideRange => "OutsideRange",
        PoolError::UnknownType => "UnknownType",
        PoolError::MissingType => "MissingType",
        PoolError::BadLabel => "BadLabel",
        PoolError::BadOneof => "BadOneof",
        PoolError::BadMapEntry => "BadMapEntry",
        PoolError::EmptyEnum => "EmptyEnum",
        PoolError::BadDefault => "BadDefault",
        PoolError::FloatDefault => "FloatDefault",
        PoolError::BadOptions => "BadOptions",
        PoolError::OutOfMemory => "OutOfMemory",
    }
}
