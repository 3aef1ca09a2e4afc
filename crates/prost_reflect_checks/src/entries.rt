//! The check of map entries, and of what names them.

ghost use Rattle.std.specs.Prelude.{◌≡◌, map, slice_get};
ghost use Rattle.std.specs.List.{list_any};
ghost use Rattle.prost_reflect_tables.specs.EntryFaults.{is_entry, is_key_type, is_plain, is_entry_key, is_entry_value, is_key_and_value, entry_bad, is_entry_message, names_entry, is_of_entry, wrongly_of_entry, method_of_entry};
ghost use Rattle.prost_reflect_flat.specs.FlatViews.{definition_row, message_row, flat_rows};
ghost use Rattle.prost_reflect_resolving.specs.Indexed.{all_rows};
ghost use Rattle.prost_reflect_resolving.specs.Resolved.{resolved_row, IsResolved};
ghost use Rattle.prost_reflect_checks.specs.Added.{added_map_entry};
ghost use Rattle.prost_reflect_tables.specs.ResolvedFaults.{flat_message_at, found_of_entry, wrongly_found};

use crate::walk::{any_resolved_extension, any_resolved_field};
use prost_reflect_definition_checks::fields::{is_code, is_message_type, is_type};
use prost_reflect_definition_checks::walk::any_method;
use prost_reflect_flat::{Definition, Flat, FlatMessage};
use prost_reflect_resolving::{Resolved, ResolvedField, message_place};
use prost_reflect_types::{FieldDescriptorProto, MethodDescriptorProto};

// KEYS AND VALUES

fn is_key_type(code: Option<i32>) -> bool
    ensures { result ≡ is_key_type code }
{
    is_type(code)
        && !(is_code(1, code)
            || is_code(2, code)
            || is_message_type(code)
            || is_code(12, code)
            || is_code(14, code))
}

fn is_plain(field: &Definition<FieldDescriptorProto>) -> bool
    ensures { result ≡ is_plain (definition_row field.now) }
{
    let proto = field.proto;
    !is_code(3, proto.label) && proto.default_value.is_none() && proto.oneof_index.is_none()
}

fn is_entry_key(field: &Definition<FieldDescriptorProto>) -> bool
    ensures { result ≡ is_entry_key (definition_row field.now) }
{
    is_code(1, field.proto.number) && is_plain(field) && is_key_type(field.proto.type_)
}

fn is_entry_value(field: &Definition<FieldDescriptorProto>) -> bool
    ensures { result ≡ is_entry_value (definition_row field.now) }
{
    is_code(2, field.proto.number) && is_plain(field) && !is_code(10, field.proto.type_)
}

fn is_key_and_value(fields: &[Definition<FieldDescriptorProto>]) -> bool
    ensures { result ≡ is_key_and_value (map definition_row fields.now) }
{
    match fields {
        [first, second] => {
            (is_entry_key(first) && is_entry_value(second))
                || (is_entry_value(first) && is_entry_key(second))
        }
        _ => false,
    }
}

/// Whether a message is a map's entry, as the flag says, and not a key and a value alone.
fn is_entry_bad(is_marked: bool, message: &FlatMessage) -> bool
    requires { is_marked ≡ is_entry (message_row message.now) }
    ensures { result ≡ entry_bad (message_row message.now) }
{
    is_marked
        && !(is_key_and_value(message.fields.as_slice())
            && message.definition.proto.extension_range.is_empty())
}

fn has_entry_bad(resolved: &Resolved, flat: &Flat) -> bool
    requires { IsResolved resolved.now (flat_rows flat.now) }
    ensures { result ≡ list_any entry_bad (flat_rows flat.now).messages }
{
    for (place, message) in flat.messages.iter().enumerate() {
        if is_entry_bad(resolved.entries[place], message) {
            return true;
        }
    }
    false
}

// WHAT NAMES AN ENTRY

/// Whether the added message at a place among the added ones is an entry.
fn is_added_entry(resolved: &Resolved, flat: &Flat, offset: usize) -> bool
    requires { IsResolved resolved.now (flat_rows flat.now) }
    ensures { result ≡ is_entry_message (slice_get (flat_rows flat.now).messages offset) }
{
    resolved.entries.get(offset).copied().unwrap_or(false)
}

fn is_entry_at(resolved: &Resolved, flat: &Flat, place: Option<usize>) -> bool
    requires { IsResolved resolved.now (flat_rows flat.now) }
    ensures { result ≡ is_entry_message (flat_message_at (all_rows resolved.now.index.base (flat_rows flat.now)) place) }
{
    let Some(place) = place else {
        return false;
    };
    let count = resolved.index.base.message_count();
    if place < count {
        resolved.index.base.is_entry(place)
    } else {
        is_added_entry(resolved, flat, place - count)
    }
}

fn names_entry(resolved: &Resolved, flat: &Flat, text: &Option<String>) -> bool
    requires { IsResolved resolved.now (flat_rows flat.now) }
    ensures { result ≡ names_entry (all_rows resolved.now.index.base (flat_rows flat.now)) text.now }
{
    is_entry_at(resolved, flat, message_place(&resolved.index, flat, text))
}

fn is_of_entry(resolved: &Resolved, flat: &Flat, field: &ResolvedField) -> bool
    requires { IsResolved resolved.now (flat_rows flat.now) }
    ensures { result ≡ found_of_entry (all_rows resolved.now.index.base (flat_rows flat.now)) (resolved_row field.now) }
{
    is_message_type(field.definition.proto.type_) && is_entry_at(resolved, flat, field.message)
}

fn is_wrongly_of_entry(resolved: &Resolved, flat: &Flat, field: &ResolvedField) -> bool
    requires { IsResolved resolved.now (flat_rows flat.now) }
    ensures { result ≡ wrongly_found (all_rows resolved.now.index.base (flat_rows flat.now)) (resolved_row field.now) }
{
    is_of_entry(resolved, flat, field)
        && !(is_code(3, field.definition.proto.label) && is_code(11, field.definition.proto.type_))
}

fn is_method_of_entry(
    resolved: &Resolved,
    flat: &Flat,
    method: &Definition<MethodDescriptorProto>,
) -> bool
    requires { IsResolved resolved.now (flat_rows flat.now) }
    ensures { result ≡ method_of_entry (all_rows resolved.now.index.base (flat_rows flat.now)) (definition_row method.now) }
{
    names_entry(resolved, flat, &method.proto.input_type)
        || names_entry(resolved, flat, &method.proto.output_type)
}

fn has_wrongly_of_entry(resolved: &Resolved, flat: &Flat) -> bool
    requires { IsResolved resolved.now (flat_rows flat.now) }
    ensures { result
        ≡ list_any (λ m. list_any (wrongly_of_entry (all_rows resolved.now.index.base (flat_rows flat.now))) m.fields)
        (flat_rows flat.now).messages }
{
    any_resolved_field(
        resolved,
        flat,
        &|field| is_wrongly_of_entry(resolved, flat, field),
    )
}

fn has_extension_of_entry(resolved: &Resolved, flat: &Flat) -> bool
    requires { IsResolved resolved.now (flat_rows flat.now) }
    ensures { result ≡ list_any (is_of_entry (all_rows resolved.now.index.base (flat_rows flat.now))) (flat_rows flat.now).extensions }
{
    any_resolved_extension(
        resolved,
        flat,
        &|extension| is_of_entry(resolved, flat, extension),
    )
}

fn has_method_of_entry(resolved: &Resolved, flat: &Flat) -> bool
    requires { IsResolved resolved.now (flat_rows flat.now) }
    ensures { result
        ≡ list_any (λ s. list_any (method_of_entry (all_rows resolved.now.index.base (flat_rows flat.now))) s.methods)
        (flat_rows flat.now).services }
{
    any_method(
        flat.services.as_slice(),
        &|method| is_method_of_entry(resolved, flat, method),
    )
}

/// Whether an added message that the option `map_entry` marks is not a key and a value, or something added other than a repeated
/// message field names one.
pub fn has_bad_map_entry(resolved: &Resolved, flat: &Flat) -> bool
    requires { IsResolved resolved.now (flat_rows flat.now) }
    ensures { result ≡ added_map_entry (all_rows resolved.now.index.base (flat_rows flat.now)) (flat_rows flat.now) }
{
    has_entry_bad(resolved, flat)
        || has_wrongly_of_entry(resolved, flat)
        || has_extension_of_entry(resolved, flat)
        || has_method_of_entry(resolved, flat)
}
