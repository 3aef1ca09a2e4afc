//! Clearing fields along a path of numbers, in each message that the path leads through.

ghost use Rattle.std.specs.Prelude.{◌≡◌, IfOk, IfSome, None, true, false, map};
ghost use Rattle.prost_reflect_wire.specs.Content.{values_from};
ghost use Rattle.prost_reflect_fields.specs.Known.{known_of, is_listed};
ghost use Rattle.prost_reflect_dynamic.specs.ContentLaws.{pairs_shown};
ghost use Rattle.prost_reflect_dynamic.specs.ExtensionAccess.{IsOwnExtension, extension_number};
ghost use Rattle.prost_reflect_dynamic.specs.View.{value_of, content_of, message_type_of};
ghost use Rattle.prototool_commands.specs.Redacting.{ClearsAlong, ClearsLast, ClearsThrough, ClearsInside, ClearsElement, ClearsElements, ClearsEntries};

use prost_reflect::{DynamicMessage, ExtensionDescriptor, MapKey, Value};
use std::alloc::{AllocError, Global};
use std::collections::BTreeMap;
use std::mem;

/// Clears the field or extension of the last number, in each message that the numbers before it lead through: in a message,
/// in each element of a list, and in each value of a map. All else stays, and nothing is made on the way.
///
/// # Errors
///
/// `AllocError` if out of memory. The message is not to be used then, since entries of a map may be lost.
#[cycle(clearing)]
pub fn clear_along(
    alloc: Global,
    message: &mut DynamicMessage,
    path: &[u32],
) -> Result<(), AllocError>
    ensures { IfOk result (λ _. ClearsAlong path.now (content_of message.old) (content_of message.new)) }
{
    let Some((number, rest)) = path.split_first() else {
        return Ok(());
    };
    if rest.is_empty() {
        clear_number(message, *number)
    } else {
        clear_through(alloc, message, *number, rest)
    }
}

/// Clears along the rest of a path in the value of the field or extension of the first number, if the message has it.
#[cycle(clearing)]
fn clear_through(
    alloc: Global,
    message: &mut DynamicMessage,
    number: u32,
    rest: &[u32],
) -> Result<(), AllocError>
    ensures { IfOk result (λ _. ClearsThrough number rest.now (content_of message.old) (content_of message.new)) }
{
    match extension_of(message, number)? {
        Some(extension) => clear_in_extension(alloc, message, &extension, rest),
        None => clear_in_field(alloc, message, number, rest),
    }
}

/// Clears along the path in the value of the extension, if the message has it.
#[cycle(clearing)]
fn clear_in_extension(
    alloc: Global,
    message: &mut DynamicMessage,
    extension: &ExtensionDescriptor,
    path: &[u32],
) -> Result<(), AllocError>
    requires { IsOwnExtension (message_type_of message.old) extension.now }
    ensures { IfOk result (λ _. ClearsThrough (extension_number extension.now) path.now (content_of message.old) (content_of message.new)) }
{
    if !message.has_extension(extension) {
        return Ok(());
    }
    let value = message.get_extension_mut(alloc, extension)?;
    clear_inside(alloc, value, path)
}

/// Clears along the path in the value of the field of the number, which is no extension's, if the message has it.
#[cycle(clearing)]
fn clear_in_field(
    alloc: Global,
    message: &mut DynamicMessage,
    number: u32,
    path: &[u32],
) -> Result<(), AllocError>
    requires { is_listed true (known_of (message_type_of message.old)) number ≡ false }
    ensures { IfOk result (λ _. ClearsThrough number path.now (content_of message.old) (content_of message.new)) }
{
    if !message.has_field_by_number(number) {
        return Ok(());
    }
    match message.get_field_by_number_mut(alloc, number) {
        Ok(value) => clear_inside(alloc, value, path),
        Err(_) => Err(AllocError),
    }
}

/// Clears along the path in the message that the value is, or in each message of its list or its map.
#[cycle(clearing)]
fn clear_inside(alloc: Global, value: &mut Value, path: &[u32]) -> Result<(), AllocError>
    ensures { IfOk result (λ _. ClearsInside path.now (value_of value.old) (value_of value.new)) }
{
    if let Some(values) = value.as_list_mut() {
        return clear_elements(alloc, values, path);
    }
    if let Some(entries) = value.as_map_mut() {
        return clear_entries(alloc, entries, path);
    }
    clear_element(alloc, value, path)
}

/// Clears along the path in the message that the value is, if it is one.
#[cycle(clearing)]
fn clear_element(alloc: Global, value: &mut Value, path: &[u32]) -> Result<(), AllocError>
    ensures { IfOk result (λ _. ClearsElement path.now (value_of value.old) (value_of value.new)) }
{
    match value.as_message_mut() {
        Some(message) => clear_along(alloc, message, path),
        None => Ok(()),
    }
}

/// Clears along the path in each element.
#[cycle(clearing)]
fn clear_elements(alloc: Global, values: &mut Vec<Value>, path: &[u32]) -> Result<(), AllocError>
    ensures { IfOk result
        (λ _. ClearsElements path.now (values_from (map value_of values.old.items))
        (values_from (map value_of values.new.items))) }
{
    for value in values.iter_mut() {
        clear_element(alloc, value, path)?;
    }
    Ok(())
}

/// Clears along the path in each value of the map.
#[cycle(clearing)]
fn clear_entries(
    alloc: Global,
    entries: &mut BTreeMap<MapKey, Value>,
    path: &[u32],
) -> Result<(), AllocError>
    ensures { IfOk result (λ _. ClearsEntries path.now (pairs_shown entries.old.entries) (pairs_shown entries.new.entries)) }
{
    let taken = mem::replace(entries, BTreeMap::new(alloc));
    for (key, value) in taken {
        let mut value = value;
        clear_element(alloc, &mut value, path)?;
        drop(entries.insert(key, value)?);
    }
    Ok(())
}

/// Removes the value of the field or extension of the number.
fn clear_number(message: &mut DynamicMessage, number: u32) -> Result<(), AllocError>
    ensures { IfOk result (λ _. ClearsLast number (content_of message.old) (content_of message.new)) }
{
    match extension_of(message, number)? {
        Some(extension) => message.clear_extension(&extension),
        None => message.clear_field_by_number(number),
    }
    Ok(())
}

/// The extension of the message's type that has the number, or none.
fn extension_of(
    message: &DynamicMessage,
    number: u32,
) -> Result<Option<ExtensionDescriptor>, AllocError>
    ensures own { IfOk result (λ found. IfSome found (λ extension. IsOwnExtension (message_type_of message.now) extension)) }
    ensures number { IfOk result (λ found. IfSome found (λ extension. extension_number extension ≡ number)) }
    ensures missing { IfOk result (λ found. found ≡ None → is_listed true (known_of (message_type_of message.now)) number ≡ false) }
{
    let descriptor = message.descriptor()?;
    Ok(descriptor.get_extension(number)?)
}
