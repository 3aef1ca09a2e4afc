//! Calls with the descriptors that other calls give.

ghost use Rattle.std.specs.Prelude.{◌≡◌, true, false, is_some, IfNone, IfOk, IfSome, IsTrue, OnErr, Some};
ghost use Rattle.prost_reflect_wire.specs.Schema.{passes};
ghost use Rattle.prost_reflect_dynamic.specs.Access.{is_field_number, number_named, number_of, takes_at};
ghost use Rattle.prost_reflect_dynamic.specs.Edits.{Sets};
ghost use Rattle.prost_reflect_dynamic.specs.Setting.{DescribesField};
ghost use Rattle.prost_reflect_dynamic.specs.View.{message_type_of};
ghost use Rattle.prost_reflect_dynamic.specs.declared.descriptor.field.FieldDescriptor.{FieldDescriptor};

use prost_reflect::{
    DynamicMessage, FieldDescriptor, Kind, MapKey, MessageDescriptor, Value, laws,
};
use std::alloc::{AllocError, Global};

/// How many of the fields that are listed the message has.
pub fn listed_fields(message: &DynamicMessage) -> Result<u32, AllocError> {
    let mut count = 0u32;
    for item in message.fields() {
        let (field, _) = item?;
        if message.has_field(&field) {
            count = count.saturating_add(1);
        }
    }
    Ok(count)
}

/// The kind of the values of a map field.
pub fn map_value_kind(field: &FieldDescriptor) -> Result<Option<Kind>, AllocError> {
    if !field.is_map() {
        return Ok(None);
    }
    match field.kind()?.as_message() {
        Some(entry) => Ok(Some(entry.map_entry_value_field()?.kind()?)),
        None => Ok(None),
    }
}

/// The kind of the values of a map's entries.
pub fn entry_value_kind(entry: &MessageDescriptor) -> Result<Option<Kind>, AllocError> {
    if !entry.is_map_entry() {
        return Ok(None);
    }
    Ok(Some(entry.map_entry_value_field()?.kind()?))
}

/// Sets the field of a number where the value fits that field.
pub fn set_where_it_fits(
    message: &mut DynamicMessage,
    number: u32,
    value: Value,
) -> Result<(), AllocError> {
    let descriptor = message.descriptor()?;
    if let Some(field) = descriptor.get_field(number)? {
        if value.is_valid_for_field(&field) {
            message.set_field_by_number(number, value)?;
        }
    }
    Ok(())
}

/// Sets, by its number, the field that the look-up of a number finds, if the value fits it. Whether it fits, or nothing where
/// no field has the number: where it fits, that number got it, and else nothing changes.
pub fn set_found_number(
    message: &mut DynamicMessage,
    number: u32,
    value: Value,
) -> Result<Option<bool>, AllocError>
    ensures found { IfOk result (λ answer. IfSome answer (λ _. is_field_number (message_type_of message.old) number ≡ true)) }
    ensures missing { IfOk result
        (λ answer. IfNone answer
        ((field : FieldDescriptor) → DescribesField (message_type_of message.old) number field → ⊥)) }
    ensures fits { IfOk result (λ answer. IfSome answer (λ fits. fits ≡ takes_at (message_type_of message.old) number value)) }
    ensures sets { IfOk result (λ answer. IfSome answer (λ fits. IsTrue fits → Sets (Some number) value message.old message.new)) }
    ensures unchanged { IfOk result (λ answer. IfNone answer (message.new ≡ message.old)) }
    ensures refused { IfOk result (λ answer. IfSome answer (λ fits. fits ≡ false → message.new ≡ message.old)) }
    ensures err { OnErr result (message.new ≡ message.old) }
{
    laws::number_found();
    let descriptor = message.descriptor()?;
    let Some(field) = descriptor.get_field(number)? else {
        return Ok(None);
    };
    if !value.is_valid_for_field(&field) {
        return Ok(Some(false));
    }
    message.set_field_by_number(number, value)?;
    Ok(Some(true))
}

/// Sets, by its name, the field that the look-up of a name finds, if the value fits it. That field, if there is one and it takes
/// the value: then it got it, and else nothing changes.
pub fn set_found_name(
    message: &mut DynamicMessage,
    name: &str,
    value: Value,
) -> Result<Option<FieldDescriptor>, AllocError>
    ensures fits { IfOk result
        (λ found. is_some found
        ≡ passes (number_named (message_type_of message.old) name.now)
        (λ n. takes_at (message_type_of message.old) n value)) }
    ensures field { IfOk result
        (λ found. IfSome found
        (λ field. number_named (message_type_of message.old) name.now ≡ Some (number_of field))) }
    ensures sets { IfOk result (λ found. IfSome found (λ field. Sets (Some (number_of field)) value message.old message.new)) }
    ensures unchanged { IfOk result (λ found. IfNone found (message.new ≡ message.old)) }
    ensures err { OnErr result (message.new ≡ message.old) }
{
    laws::name_found();
    let descriptor = message.descriptor()?;
    if let Some(field) = descriptor.get_field_by_name(name)? {
        if value.is_valid_for_field(&field) {
            message.set_field_by_name(name, value)?;
            return Ok(Some(field));
        }
    }
    Ok(None)
}

/// How many fields of the message's own type it has, and how many of these show a number other than zero.
pub fn own_fields(alloc: Global, message: &DynamicMessage) -> Result<(u32, u32), AllocError> {
    let descriptor = message.descriptor()?;
    let mut had = 0u32;
    let mut set = 0u32;
    for field in descriptor.fields() {
        let field = field?;
        if message.has_field(&field) {
            had = had.saturating_add(1);
        }
        let value = message.get_field(alloc, &field)?;
        if value.as_i32().unwrap_or(0) != 0 {
            set = set.saturating_add(1);
        }
    }
    Ok((had, set))
}

/// How many extensions of the message's own type it has.
pub fn own_extensions(message: &DynamicMessage) -> Result<u32, AllocError> {
    let descriptor = message.descriptor()?;
    let mut had = 0u32;
    for extension in descriptor.extensions() {
        if message.has_extension(&extension?) {
            had = had.saturating_add(1);
        }
    }
    Ok(had)
}

/// The number that the extension of a full name shows, if the message's type has the extension.
pub fn shown_by_full_name(
    alloc: Global,
    message: &DynamicMessage,
    name: &str,
) -> Result<Option<i32>, AllocError> {
    let descriptor = message.descriptor()?;
    match descriptor.get_extension_by_full_name(name)? {
        Some(extension) => Ok(message.get_extension(alloc, &extension)?.as_i32()),
        None => Ok(None),
    }
}

/// Whether the message has the extension of a number, and that of a name in JSON.
pub fn has_extensions(
    message: &DynamicMessage,
    number: u32,
    name: &str,
) -> Result<(bool, bool), AllocError> {
    let descriptor = message.descriptor()?;
    let by_number = match descriptor.get_extension(number)? {
        Some(extension) => message.has_extension(&extension),
        None => false,
    };
    let by_name = match descriptor.get_extension_by_json_name(name)? {
        Some(extension) => message.has_extension(&extension),
        None => false,
    };
    Ok((by_number, by_name))
}

/// The default key of a kind, if keys may be of the kind.
pub fn default_key(alloc: Global, kind: &Kind) -> Option<MapKey> {
    match kind {
        Kind::Int32
        | Kind::Int64
        | Kind::Uint32
        | Kind::Uint64
        | Kind::Sint32
        | Kind::Sint64
        | Kind::Fixed32
        | Kind::Fixed64
        | Kind::Sfixed32
        | Kind::Sfixed64
        | Kind::Bool
        | Kind::String => Some(MapKey::default_value(alloc, kind)),
        _ => None,
    }
}
