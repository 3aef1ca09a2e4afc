//! Passing over scalars and packed lists (the encoding guide, "Message Structure" and "Packed Repeated Fields").

ghost use Rattle.std.specs.Prelude.{◌≡◌, ◌≢◌, IfOk, IfErr, OnOk};
ghost use Rattle.prost_reflect_wire.specs.Front.{PlainFault};
ghost use Rattle.prost_reflect_wire.specs.Fault.{ElementFault};
ghost use Rattle.prost_reflect_wire.specs.declared.key.WireType.TheVariants as wires;
ghost use Rattle.prost_reflect_tables.specs.declared.tables.TableKind.TheVariants as kinds;
ghost use Rattle.prost_reflect_faults.specs.Searching.{TakesPlain, TakesScalar, RefusesScalar, AreElements, TakesPacked, RefusesPacked, wire_of_kind};

use prost_reflect_tables::TableKind;
use prost_reflect_wire::{
    DecodeError, WireType, decode_delimited, decode_fixed32, decode_fixed64, decode_varint,
};

/// Gives what follows a payload of a wire type that is no group's.
///
/// # Errors
///
/// `Truncated` and `Varint`, as the payload's reader.
pub(crate) fn skip_plain(wire_type: WireType, bytes: &[u8]) -> Result<&[u8], DecodeError>
    requires start { wire_type ≢ wires.StartGroup }
    requires end { wire_type ≢ wires.EndGroup }
    ensures ok { IfOk result (λ rest. TakesPlain wire_type bytes.now rest.now) }
    ensures fault { IfErr result (λ e. PlainFault e wire_type bytes.now) }
{
    match wire_type {
        WireType::Varint => {
            let (_, rest) = decode_varint(bytes)?;
            Ok(rest)
        }
        WireType::SixtyFourBit => {
            let (_, rest) = decode_fixed64(bytes)?;
            Ok(rest)
        }
        WireType::LengthDelimited => {
            let (_, rest) = decode_delimited(bytes)?;
            Ok(rest)
        }
        WireType::ThirtyTwoBit => {
            let (_, rest) = decode_fixed32(bytes)?;
            Ok(rest)
        }
        WireType::StartGroup | WireType::EndGroup => unreachable!(),
    }
}

/// The wire type of the payloads of a scalar kind.
fn wire_type_of(kind: TableKind) -> WireType
    ensures { result ≡ wire_of_kind kind }
{
    match kind {
        TableKind::Double | TableKind::Fixed64 | TableKind::Sfixed64 => WireType::SixtyFourBit,
        TableKind::Float | TableKind::Fixed32 | TableKind::Sfixed32 => WireType::ThirtyTwoBit,
        TableKind::String | TableKind::Bytes => WireType::LengthDelimited,
        _ => WireType::Varint,
    }
}

/// Gives what follows a text.
fn skip_text(bytes: &[u8]) -> Result<&[u8], DecodeError>
    ensures ok { IfOk result (λ rest. TakesScalar kinds.String wires.LengthDelimited bytes.now rest.now) }
    ensures fault { IfErr result (λ e. RefusesScalar kinds.String wires.LengthDelimited e bytes.now) }
{
    let (text, rest) = decode_delimited(bytes)?;
    match std::str::from_utf8(text) {
        Ok(_) => Ok(rest),
        Err(_) => Err(DecodeError::Utf8),
    }
}

/// Gives what follows a scalar of the kind behind a key of the wire type.
///
/// # Errors
///
/// `WireType` if the kind's payloads have another wire type, `Truncated` and `Varint` as the payload's reader, and `Utf8` if the
/// kind is a string and the bytes are no text.
pub(crate) fn skip_scalar(
    kind: TableKind,
    wire_type: WireType,
    bytes: &[u8],
) -> Result<&[u8], DecodeError>
    ensures ok { IfOk result (λ rest. TakesScalar kind wire_type bytes.now rest.now) }
    ensures fault { IfErr result (λ e. RefusesScalar kind wire_type e bytes.now) }
{
    if wire_type != wire_type_of(kind) {
        return Err(DecodeError::WireType);
    }
    match kind {
        TableKind::String => skip_text(bytes),
        _ => skip_plain(wire_type, bytes),
    }
}

/// Whether bytes are payloads of the wire type of a packable kind, end to end.
fn check_elements(kind: TableKind, body: &[u8]) -> Result<(), DecodeError>
    ensures ok { OnOk result (AreElements (wire_of_kind kind) body.now) }
    ensures fault { IfErr result (λ e. ElementFault (wire_of_kind kind) e body.now) }
{
    let wire_type = wire_type_of(kind);
    let mut rest = body;
    while !rest.is_empty() {
        rest = skip_plain(wire_type, rest)?;
    }
    Ok(())
}

/// Gives what follows a packed list of the kind.
///
/// # Errors
///
/// `Truncated` and `Varint`, as the readers of the length and of the elements.
pub(crate) fn skip_packed(kind: TableKind, bytes: &[u8]) -> Result<&[u8], DecodeError>
    ensures ok { IfOk result (λ rest. TakesPacked kind bytes.now rest.now) }
    ensures fault { IfErr result (λ e. RefusesPacked kind e bytes.now) }
{
    let (body, rest) = decode_delimited(bytes)?;
    check_elements(kind, body)?;
    Ok(rest)
}
