//! The options that are read of a definition's option bytes.

ghost use Rattle.std.specs.Prelude.{◌≡◌, ℕ, List, None};
ghost use Rattle.prost_reflect_wire.specs.Record.{Payload};
ghost use Rattle.prost_reflect_wire.specs.Front.{ValueFront};
ghost use Rattle.prost_reflect_tables.specs.EntryFaults.{is_entry};
ghost use Rattle.prost_reflect_flat.specs.FlatViews.{message_row};
ghost use Rattle.prost_reflect_tables.specs.Options.{bool_of, bool_in, bool_option};

use crate::definitions::FlatMessage;
use prost_reflect_wire::{RECURSION_LIMIT, WireType, decode_key, decode_varint, skip_value};

/// The bool option of a number, or none where the options do not say it or are not read.
pub fn bool_option(number: u32, options: &Option<Vec<u8>>) -> Option<bool>
    ensures { result ≡ bool_option number options.now }
{
    match options {
        Some(bytes) => bool_in(number, bytes.as_slice()),
        None => None,
    }
}

/// The bool of the last record of a number.
fn bool_in(number: u32, bytes: &[u8]) -> Option<bool>
    ensures { result ≡ bool_in number None bytes.now }
{
    let mut found = None;
    let mut rest = bytes;
    while !rest.is_empty() {
        let Ok((key, wire_type, after)) = decode_key(rest) else {
            return None;
        };
        let Ok(end) = skip_value(key, wire_type, after, RECURSION_LIMIT) else {
            return None;
        };
        if key.get() == number {
            found = bool_at(wire_type, after);
        }
        rest = end;
    }
    found
}

/// The bool that stands behind a key, if a varint does.
fn bool_at(wire_type: WireType, bytes: &[u8]) -> Option<bool>
    ensures { (n levels : ℕ) (p : Payload) (rest : List ℕ) → ValueFront n wire_type levels p bytes.now rest → result ≡ bool_of p }
{
    match wire_type {
        WireType::Varint => match decode_varint(bytes) {
            Ok((value, _)) => Some(value != 0),
            Err(_) => None,
        },
        _ => None,
    }
}

/// Whether the option `map_entry` marks a message.
pub fn is_entry(message: &FlatMessage) -> bool
    ensures { result ≡ is_entry (message_row message.now) }
{
    bool_option(7, &message.definition.proto.options).unwrap_or(false)
}
