//! The check that the fields and extensions of a message have different numbers, those of the pool and the added ones.

ghost use Rattle.std.specs.Prelude.{◌≡◌, [], ◌++◌, IfOk, OnOk, map};
ghost use Rattle.std.specs.List.{list_any};
ghost use Rattle.prost_reflect_base.specs.Below.{rows_below};
ghost use Rattle.prost_reflect_growth.specs.ChecksGrow.{added_numbers_repeat};
ghost use Rattle.prost_reflect_tables.specs.Faults.{numbered_fields, numbered_in, all_numbered, same_numbered, number_repeats};
ghost use Rattle.prost_reflect_flat.specs.FlatViews.{definition_row, message_row, flat_rows};
ghost use Rattle.prost_reflect_resolving.specs.Resolved.{resolved_row, IsResolved};
ghost use Rattle.prost_reflect_checks.specs.Numbers.{numbered_list};
ghost use Rattle.prost_reflect_tables.specs.ResolvedFaults.{numbered_found};

use prost_reflect_base::Base;
use prost_reflect_definition_checks::walk::any;
use prost_reflect_flat::{Definition, Flat, FlatMessage};
use prost_reflect_resolving::{Resolved, ResolvedField};
use prost_reflect_types::FieldDescriptorProto;
use std::alloc::{AllocError, Global};

/// Whether one stands among those before it. Puts them in order, and leaves each once.
fn repeats(numbers: &mut Vec<(usize, i32)>) -> bool
    ensures { result ≡ number_repeats [] (numbered_list numbers.old.items) }
{
    let count = numbers.as_slice().len();
    numbers.sort_unstable();
    numbers.dedup();
    numbers.as_slice().len() < count
}

fn add_fields(
    numbers: &mut Vec<(usize, i32)>,
    message: usize,
    fields: &[Definition<FieldDescriptorProto>],
) -> Result<(), AllocError>
    ensures { OnOk result
        (numbered_list numbers.new.items
        ≡ numbered_list numbers.old.items ++ numbered_fields message (map definition_row fields.now)) }
{
    for field in fields {
        numbers.push((message, field.proto.number.unwrap_or(0)))?;
    }
    Ok(())
}

/// Adds the numbers of messages' fields, where the first message is at the place.
fn add_messages(
    numbers: &mut Vec<(usize, i32)>,
    first: usize,
    messages: &[FlatMessage],
) -> Result<(), AllocError>
    ensures { OnOk result
        (numbered_list numbers.new.items
        ≡ numbered_list numbers.old.items ++ numbered_in first (map message_row messages.now)) }
{
    for (offset, message) in messages.iter().enumerate() {
        let place = first.checked_add(offset).ok_or(AllocError)?;
        add_fields(numbers, place, message.fields.as_slice())?;
    }
    Ok(())
}

fn add_extensions(
    numbers: &mut Vec<(usize, i32)>,
    extensions: &[ResolvedField],
) -> Result<(), AllocError>
    ensures { OnOk result
        (numbered_list numbers.new.items
        ≡ numbered_list numbers.old.items ++ numbered_found (map resolved_row extensions.now)) }
{
    for extension in extensions {
        if let Some(place) = extension.extendee {
            numbers.push((place, extension.definition.proto.number.unwrap_or(0)))?;
        }
    }
    Ok(())
}

/// Whether a field or an extension of the pool has one of the numbers in its message.
fn is_one_taken(base: Base<'_>, numbers: &[(usize, i32)]) -> bool
    ensures { result ≡ list_any (λ n. list_any (same_numbered n) (all_numbered (rows_below base.entry))) (numbered_list numbers.now) }
{
    any(numbers, &|number| base.has_number(number.0, number.1))
}

/// Whether an added field or extension has the number of another one of its message, of the pool or added.
///
/// # Errors
///
/// `AllocError` if out of memory.
pub fn has_duplicate_number(
    alloc: Global,
    resolved: &Resolved,
    flat: &Flat,
) -> Result<bool, AllocError>
    requires { IsResolved resolved.now (flat_rows flat.now) }
    ensures { IfOk result (λ b. b ≡ added_numbers_repeat (rows_below resolved.now.index.base) (flat_rows flat.now)) }
{
    let base = resolved.index.base;
    let mut numbers = Vec::new(alloc);
    add_messages(&mut numbers, base.message_count(), flat.messages.as_slice())?;
    add_extensions(&mut numbers, resolved.extensions.as_slice())?;
    Ok(is_one_taken(base, numbers.as_slice()) || repeats(&mut numbers))
}
