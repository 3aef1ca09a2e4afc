//! The check of options: option bytes are records, and the option that is read of them is a varint.

ghost use Rattle.std.specs.Prelude.{◌≡◌};
ghost use Rattle.prost_reflect_wire.specs.Record.{Payload, record_at, payload_wire};
ghost use Rattle.prost_reflect_flat.specs.FlatViews.{flat_rows};
ghost use Rattle.prost_reflect_tables.specs.OptionFaults.{suits_option, bytes_suit_option, option_bad, bad_options};

use crate::walk::{any_field, any_message};
use prost_reflect_flat::Flat;
use prost_reflect_wire::{RECURSION_LIMIT, WireType, decode_key, skip_value};

/// Whether a record is a varint, if it is of the number.
fn suits_option(number: u32, key: u32, wire_type: WireType) -> bool
    ensures { (p : Payload) → payload_wire p ≡ wire_type → result ≡ suits_option number (record_at key p) }
{
    key != number || matches!(wire_type, WireType::Varint)
}

/// Whether bytes are records within the limit of levels, and those of the number are varints.
fn bytes_suit_option(number: u32, bytes: &[u8]) -> bool
    ensures { result ≡ bytes_suit_option number bytes.now }
{
    let mut rest = bytes;
    while !rest.is_empty() {
        let Ok((key, wire_type, value)) = decode_key(rest) else {
            return false;
        };
        let Ok(end) = skip_value(key, wire_type, value, RECURSION_LIMIT) else {
            return false;
        };
        if !suits_option(number, key.get(), wire_type) {
            return false;
        }
        rest = end;
    }
    true
}

fn is_option_bad(number: u32, options: &Option<Vec<u8>>) -> bool
    ensures { result ≡ option_bad number options.now }
{
    match options {
        Some(bytes) => !bytes_suit_option(number, bytes.as_slice()),
        None => false,
    }
}

/// Whether the option bytes of a message, a field or an extension are no records, or the option that is read of them is no
/// varint.
pub fn has_bad_options(flat: &Flat) -> bool
    ensures { result ≡ bad_options (flat_rows flat.now) }
{
    any_message(
        flat.messages.as_slice(),
        &|message| is_option_bad(7, &message.definition.proto.options),
    ) || any_field(flat, &|field| is_option_bad(2, &field.proto.options))
}
