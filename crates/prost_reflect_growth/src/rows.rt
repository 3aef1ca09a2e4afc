//! The row of an old message with the rows of added extensions, and where the rows of its extensions move.

ghost use Rattle.std.specs.Prelude.{◌≡◌, ◌++◌, ◌<◌, length, IfOk, OnOk, map, slice_get};
ghost use Rattle.std.specs.List.Sorted.{IsNonDecreasingBy};
ghost use Rattle.prost_reflect_tables.specs.declared.tables.FieldTable.{FieldTable};
ghost use Rattle.prost_reflect_tables.specs.Rows.{identity_row, field_row, oneof_row, message_row};
ghost use Rattle.prost_reflect_tables.specs.CatalogRows.{extension_table_row};
ghost use Rattle.prost_reflect_tables.specs.Linking.{in_order};
ghost use Rattle.prost_reflect_growth.specs.RowsGrow.{smaller, number_of_row, moved_place, moved_oneof, grown_message};
ghost use Rattle.prost_reflect_growth.specs.ExtensionsGrow.{moved_extension};

use prost_reflect_tables::{ExtensionTable, FieldTable, Identity, MessageTable, OneofTable};
use std::alloc::{AllocError, Global};

fn copied_identity(id: &Identity) -> Result<Identity, AllocError>
    ensures { IfOk result (λ i. identity_row i ≡ identity_row id.now) }
{
    Ok(Identity {
        file: id.file,
        parent: id.parent,
        path: id.path.clone()?,
        names: id.names.clone()?,
    })
}

fn copied_field(field: &FieldTable) -> Result<FieldTable, AllocError>
    ensures { IfOk result (λ f. field_row f ≡ field_row field.now) }
{
    Ok(FieldTable {
        id: copied_identity(&field.id)?,
        json_name: field.json_name.clone()?,
        number: field.number,
        is_extension: field.is_extension,
        kind: field.kind,
        is_group: field.is_group,
        cardinality: field.cardinality,
        is_packed: field.is_packed,
        supports_presence: field.supports_presence,
        default: field.default.clone()?,
        oneof: field.oneof,
    })
}

/// Copies of the fields, with room for further ones, which are so many.
fn copied_fields(
    alloc: Global,
    fields: &[FieldTable],
    further: usize,
) -> Result<Vec<FieldTable>, AllocError>
    ensures { IfOk result (λ v. map field_row v.items ≡ map field_row fields.now) }
{
    let mut copies = Vec::with_capacity(alloc, fields.len().saturating_add(further))?;
    for field in fields {
        copies.push(copied_field(field)?)?;
    }
    Ok(copies)
}

/// Puts fields in ascending order of their numbers; those of one number stay in their order.
///
/// # Errors
///
/// `AllocError` if out of memory.
pub fn sort_by_number(fields: &mut Vec<FieldTable>) -> Result<(), AllocError>
    ensures sorted { OnOk result (map field_row fields.new.items ≡ in_order (map field_row fields.old.items)) }
    ensures rising { OnOk result (IsNonDecreasingBy (λ f. f.number) fields.new.items) }
{
    fields.sort_by_key(|field| field.number)?;
    Ok(())
}

/// How many of the rows have a smaller number.
fn smaller(number: u32, rows: &[FieldTable]) -> usize
    requires { IsNonDecreasingBy (λ (f : FieldTable). f.number) rows.now }
    ensures { result ≡ smaller number (map field_row rows.now) }
{
    rows.partition_point(|row| row.number < number)
}

fn number_at(fields: &[FieldTable], place: usize) -> u32
    ensures { result ≡ number_of_row (slice_get (map field_row fields.now) place) }
{
    match fields.get(place) {
        Some(field) => field.number,
        None => 0,
    }
}

/// Where the field at a place stands among further rows.
fn moved_place(
    fields: &[FieldTable],
    more: &[FieldTable],
    place: usize,
) -> Result<usize, AllocError>
    requires { IsNonDecreasingBy (λ (f : FieldTable). f.number) more.now }
    ensures { IfOk result (λ p. p ≡ moved_place (map field_row more.now) (map field_row fields.now) place) }
{
    place
        .checked_add(smaller(number_at(fields, place), more))
        .ok_or(AllocError)
}

fn moved_places(
    alloc: Global,
    fields: &[FieldTable],
    more: &[FieldTable],
    places: &[usize],
) -> Result<Vec<usize>, AllocError>
    requires { IsNonDecreasingBy (λ (f : FieldTable). f.number) more.now }
    ensures { IfOk result (λ v. v.items ≡ map (moved_place (map field_row more.now) (map field_row fields.now)) places.now) }
{
    let mut moved = Vec::with_capacity(alloc, places.len())?;
    for place in places {
        moved.push(moved_place(fields, more, *place)?)?;
    }
    Ok(moved)
}

fn moved_oneofs(
    alloc: Global,
    fields: &[FieldTable],
    more: &[FieldTable],
    oneofs: &[OneofTable],
) -> Result<Vec<OneofTable>, AllocError>
    requires { IsNonDecreasingBy (λ (f : FieldTable). f.number) more.now }
    ensures { IfOk result
        (λ v. map oneof_row v.items
        ≡ map (moved_oneof (map field_row more.now) (map field_row fields.now)) (map oneof_row oneofs.now)) }
{
    let mut moved = Vec::with_capacity(alloc, oneofs.len())?;
    for oneof in oneofs {
        moved.push(OneofTable {
            id: copied_identity(&oneof.id)?,
            fields: moved_places(alloc, fields, more, oneof.fields.as_slice())?,
        })?;
    }
    Ok(moved)
}

/// The row of a message with the rows of further extensions, which are in ascending order of numbers.
///
/// # Errors
///
/// `AllocError` if out of memory.
pub fn grown_message(
    alloc: Global,
    message: &MessageTable,
    more: &[FieldTable],
) -> Result<MessageTable, AllocError>
    requires { IsNonDecreasingBy (λ (f : FieldTable). f.number) more.now }
    ensures { IfOk result (λ m. message_row m ≡ grown_message (map field_row more.now) (message_row message.now)) }
{
    let former = message.fields.as_slice();
    let mut fields = copied_fields(alloc, former, more.len())?;
    for row in more {
        fields.push(copied_field(row)?)?;
    }
    sort_by_number(&mut fields)?;
    Ok(MessageTable {
        id: copied_identity(&message.id)?,
        is_map_entry: message.is_map_entry,
        fields,
        oneofs: moved_oneofs(alloc, former, more, message.oneofs.as_slice())?,
    })
}

/// Where the row of an extension stands once further rows, which are in ascending order of numbers, are put among the fields of
/// its message.
///
/// # Errors
///
/// `AllocError` if no `usize` counts so far.
pub fn moved_extension(
    extension: &ExtensionTable,
    fields: &[FieldTable],
    more: &[FieldTable],
) -> Result<ExtensionTable, AllocError>
    requires { IsNonDecreasingBy (λ (f : FieldTable). f.number) more.now }
    ensures { IfOk result
        (λ x. extension_table_row x
        ≡ moved_extension (map field_row more.now) (map field_row fields.now) (extension_table_row extension.now)) }
{
    Ok(ExtensionTable {
        message: extension.message,
        field: moved_place(fields, more, extension.field)?,
    })
}
