//! Relaying: bytes are read by an older message type, and written again.

ghost use Rattle.std.specs.Prelude.{◌≡◌, ◌≢◌, IfOk, IfErr, string_bytes};
ghost use Rattle.hex.specs.declared.error.FromHexError.TheVariants as hex_errors;
ghost use Rattle.prost_reflect_wire.specs.declared.error.DecodeError.TheVariants as decode_errors;
ghost use Rattle.prost_reflect.specs.declared.relaying.RelayError.TheVariants as relay_errors;
ghost use Rattle.prost_reflect.specs.declared.relaying.RelayHexError.TheVariants as relay_hex_errors;
ghost use Rattle.prost_reflect_dynamic.specs.ReadBack.{IsFaulty};
ghost use Rattle.prost_reflect_dynamic.specs.Named.{schema_named, type_named};
ghost use Rattle.prost_reflect.specs.Relaying.{IsReadBy, IsRelayed, RefusesRelay, OlderAccepts, Passes, IsRelayedHex, RefusesHex, hex_refusal};
ghost use Rattle.prost_reflect_dynamic.specs.View.{content_of};

mod edit;

pub use edit::{RelayWithError, relay_with};
use hex::FromHexError;
use prost_reflect_dynamic::{DynamicMessage, MessageDescriptor};
use prost_reflect_wire::{DecodeError, EncodeError};
use std::alloc::{AllocError, Global};
use thiserror::Error;

/// Why bytes are not relayed.
#[derive(Clone, Copy, Debug, PartialEq, Eq, Error)]
pub enum RelayError {
    /// The older type does not accept the bytes, or memory ran out.
    #[error("the bytes are not read: {0}")]
    Decode(DecodeError),
    /// What was read is not written.
    #[error("the message is not written: {0}")]
    Encode(EncodeError),
}

impl From<DecodeError> for RelayError {
    ghost from_gives = { λ error e. e ≡ relay_errors.Decode error };

    fn from(error: DecodeError) -> RelayError {
        RelayError::Decode(error)
    }
}

impl From<EncodeError> for RelayError {
    ghost from_gives = { λ error e. e ≡ relay_errors.Encode error };

    fn from(error: EncodeError) -> RelayError {
        RelayError::Encode(error)
    }
}

/// Why a text of hex digits is not relayed.
#[derive(Clone, Copy, Debug, PartialEq, Eq, Error)]
pub enum RelayHexError {
    /// The text is not an even number of hex digits.
    #[error("the text is not an even number of hex digits")]
    Hex,
    /// The bytes that it spells are not relayed.
    #[error("{0}")]
    Relay(RelayError),
    /// Out of memory.
    #[error("out of memory")]
    OutOfMemory,
}

impl From<FromHexError> for RelayHexError {
    ghost from_gives = { λ error e. e ≡ hex_refusal error };

    fn from(error: FromHexError) -> RelayHexError {
        match error {
            FromHexError::OutOfMemory => RelayHexError::OutOfMemory,
            _ => RelayHexError::Hex,
        }
    }
}

impl From<RelayError> for RelayHexError {
    ghost from_gives = { λ error e. e ≡ relay_hex_errors.Relay error };

    fn from(error: RelayError) -> RelayHexError {
        RelayHexError::Relay(error)
    }
}

impl From<AllocError> for RelayHexError {
    ghost from_gives = { λ _ e. e ≡ relay_hex_errors.OutOfMemory };

    fn from(_error: AllocError) -> RelayHexError {
        RelayHexError::OutOfMemory
    }
}

/// What the bytes mean to the older type, written again. What that type does not know stays as unknown fields, so a newer
/// type that it is a reduction of, and that accepts the bytes, reads the same from what is written (the encoding guide,
/// "Updating A Message Type"). No bytes are relayed as none.
///
/// ```
/// // Of the type `builtin.Plain`, `50 83 00 28 96 01` becomes `28 96 01 50 03`, so this is true.
/// fn relays(alloc: Global, plain: &MessageDescriptor) -> Result<bool, RelayError> {
///     let written = relay(alloc, plain, &[0x50, 0x83, 0, 0x28, 0x96, 1])?;
///     Ok(written.as_slice() == [0x28, 0x96, 1, 0x50, 3].as_slice())
/// }
/// ```
///
/// # Errors
///
/// `Decode` with a fault that the bytes have, and only if the older type does not accept them; `Encode` with `TooLong` if
/// what is written passes the greatest `usize`; either with `OutOfMemory` if memory runs out.
pub fn relay(alloc: Global, older: &MessageDescriptor, bytes: &[u8]) -> Result<Vec<u8>, RelayError>
    ensures relayed { IfOk result (λ written. IsRelayed (schema_named older.now) (type_named older.now) bytes.now written.items) }
    ensures refused { IfErr result (RefusesRelay (schema_named older.now) (type_named older.now) bytes.now) }
    ensures older_accepts { OlderAccepts (schema_named older.now) (type_named older.now) bytes.now }
    ensures passes { IfOk result (λ written. Passes (schema_named older.now) (type_named older.now) bytes.now written.items) }
{
    let message = decode_by(alloc, older, bytes)?;
    let written = message.encode_to_vec(alloc)?;
    Ok(written)
}

/// What the bytes mean to the older type.
fn decode_by(
    alloc: Global,
    older: &MessageDescriptor,
    bytes: &[u8],
) -> Result<DynamicMessage, DecodeError>
    ensures read { IfOk result (λ message. IsReadBy (schema_named older.now) (type_named older.now) bytes.now (content_of message)) }
    ensures refused { IfErr result
        (λ e. e ≢ decode_errors.OutOfMemory → IsFaulty (schema_named older.now) (type_named older.now) e bytes.now) }
{
    let descriptor = older.clone()?;
    DynamicMessage::decode(alloc, descriptor, bytes)
}

/// `relay` of the bytes that hex digits of either case spell, as lower-case hex digits.
///
/// ```
/// // Of the type `builtin.Plain`, `508300289601` becomes `2896015003`, so this is true.
/// fn relays(alloc: Global, plain: &MessageDescriptor) -> Result<bool, RelayHexError> {
///     Ok(relay_hex(alloc, plain, "508300289601")?.as_str() == "2896015003")
/// }
/// ```
///
/// # Errors
///
/// `Hex` if the text is not an even number of hex digits; `Relay` as `relay` refuses the bytes; `OutOfMemory` if memory
/// runs out.
pub fn relay_hex(
    alloc: Global,
    older: &MessageDescriptor,
    text: &str,
) -> Result<String, RelayHexError>
    ensures relayed { IfOk result (λ digits. IsRelayedHex (schema_named older.now) (type_named older.now) text.now (string_bytes digits)) }
    ensures refused { IfErr result (RefusesHex (schema_named older.now) (type_named older.now) text.now) }
{
    let bytes = hex::decode(alloc, text)?;
    let written = relay(alloc, older, bytes.as_slice())?;
    let digits = hex::encode(alloc, written.as_slice())?;
    Ok(digits)
}
