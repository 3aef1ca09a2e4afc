//! Descriptors: names, the fields that are found, options, and which message type is a reduction of another.

ghost use Rattle.std.specs.Prelude.{◌≡◌, ◌↔◌, None, Some, IfOk, IsOk, IsTrue, option_map};
ghost use Rattle.prost_reflect_wire.specs.Reduction.{Reduced};
ghost use Rattle.prost_reflect_pool.specs.Lookups.{named_field};
ghost use Rattle.prost_reflect_dynamic.specs.Named.{message_row_named, schema_named, type_named};
ghost use Rattle.prost_reflect_dynamic.specs.NamedFields.{descriptor_fields};
ghost use Rattle.prost_reflect_dynamic.specs.NamedRecords.{message_record_named};
ghost use Rattle.prost_reflect_dynamic.specs.Options.{OptionsOf};

use prost_reflect_dynamic::{DynamicMessage, FieldDescriptor, MessageDescriptor, OptionsError};
use std::alloc::AllocError;

/// The package, the enclosing message types and the name, joined by dots.
pub fn full_name_of(message_type: &MessageDescriptor) -> &str
    ensures { option_map (λ message. message.id.full_name) (message_row_named message_type.now) ≡ Some result.now }
{
    message_type.full_name()
}

/// The field of a name, or none where no field of the message type has it.
///
/// # Errors
///
/// `AllocError` if out of memory; never where there is none.
pub fn field_named(
    message_type: &MessageDescriptor,
    name: &str,
) -> Result<Option<FieldDescriptor>, AllocError>
    ensures found { IfOk result
        (λ found. option_map (λ field. field.index) found ≡ named_field (descriptor_fields message_type.now) name.now) }
    ensures missing { named_field (descriptor_fields message_type.now) name.now ≡ None → IsOk result }
{
    message_type.get_field_by_name(name)
}

/// The options of a message type: what its record stores, read by the pool's `google.protobuf.MessageOptions`.
///
/// # Errors
///
/// `NoOptionsMessage` if the pool has no such message type; `Decode` with a fault that the stored bytes have; `OutOfMemory`
/// if memory runs out.
pub fn options_of(message_type: &MessageDescriptor) -> Result<DynamicMessage, OptionsError>
    ensures { OptionsOf message_type.now.pool.inner (message_record_named message_type.now) result }
{
    message_type.options()
}

/// Whether a message type is a reduction of a newer one, with fields left out in it and in the message types of its fields.
///
/// # Errors
///
/// `AllocError` if out of memory.
pub fn is_reduction(
    older: &MessageDescriptor,
    newer: &MessageDescriptor,
) -> Result<bool, AllocError>
    ensures { IfOk result
        (λ yes. Reduced (schema_named older.now) (type_named older.now) (schema_named newer.now) (type_named newer.now)
        ↔ IsTrue yes) }
{
    older.is_reduction_of(newer)
}
