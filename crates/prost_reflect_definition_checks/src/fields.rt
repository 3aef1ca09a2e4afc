//! The checks of fields and enums that name no other definition: numbers, types, labels, oneofs, and the first values of enums.

ghost use Rattle.std.specs.Prelude.{◌≡◌, ◌≤ℤ◌, pos, nat_abs};
ghost use Rattle.std.specs.List.{list_any};
ghost use Rattle.prost_reflect_tables.specs.Faults.{number_or_zero, number_bad, bad_number, is_type, is_code, is_message_type, type_missing, extendee_missing, method_type_missing, missing_type, label_bad, bad_label, is_member, repeated_member, bad_oneof, enum_empty, empty_enum};
ghost use Rattle.prost_reflect_flat.specs.FlatViews.{definition_row, enum_row, flat_rows};

use crate::walk::{any_definition, any_enum, any_field, any_method};
use prost_reflect_flat::{Definition, Flat, FlatEnum};
use prost_reflect_types::{FieldDescriptorProto, MethodDescriptorProto};

// NUMBERS

fn is_number_bad(field: &Definition<FieldDescriptorProto>) -> bool
    ensures { result ≡ number_bad (definition_row field.now) }
{
    let number = field.proto.number.unwrap_or(0);
    number < 1 || number > 536_870_911
}

/// Whether the number of a field or of an extension is not from 1 to 536870911.
pub fn has_bad_number(flat: &Flat) -> bool
    ensures { result ≡ bad_number (flat_rows flat.now) }
{
    any_field(flat, &is_number_bad)
}

// TYPES THAT ARE MISSING

/// Whether the number is there and is the code.
pub fn is_code(code: i32, number: Option<i32>) -> bool
    requires { pos 0 ≤ℤ code }
    ensures { result ≡ is_code (nat_abs code) number }
{
    number == Some(code)
}

/// Whether the type code is that of a group or of a message.
pub fn is_message_type(code: Option<i32>) -> bool
    ensures { result ≡ is_message_type code }
{
    is_code(10, code) || is_code(11, code)
}

/// Whether the type code is there and is that of a type: from 1 to 18.
pub fn is_type(code: Option<i32>) -> bool
    ensures { result ≡ is_type (number_or_zero code) }
{
    let code = code.unwrap_or(0);
    code >= 1 && code <= 18
}

fn is_type_missing(field: &Definition<FieldDescriptorProto>) -> bool
    ensures { result ≡ type_missing (definition_row field.now) }
{
    let code = field.proto.type_;
    !is_type(code)
        || ((is_message_type(code) || is_code(14, code)) && field.proto.type_name.is_none())
}

fn is_extendee_missing(extension: &Definition<FieldDescriptorProto>) -> bool
    ensures { result ≡ extendee_missing (definition_row extension.now) }
{
    extension.proto.extendee.is_none()
}

fn is_method_type_missing(method: &Definition<MethodDescriptorProto>) -> bool
    ensures { result ≡ method_type_missing (definition_row method.now) }
{
    method.proto.input_type.is_none() || method.proto.output_type.is_none()
}

fn has_extendee_missing(flat: &Flat) -> bool
    ensures { result ≡ list_any extendee_missing (flat_rows flat.now).extensions }
{
    any_definition(flat.extensions.as_slice(), &is_extendee_missing)
}

fn has_method_type_missing(flat: &Flat) -> bool
    ensures { result ≡ list_any (λ s. list_any method_type_missing s.methods) (flat_rows flat.now).services }
{
    any_method(flat.services.as_slice(), &is_method_type_missing)
}

/// Whether a type is absent or unknown, or the name of one is absent.
pub fn has_missing_type(flat: &Flat) -> bool
    ensures { result ≡ missing_type (flat_rows flat.now) }
{
    any_field(flat, &is_type_missing) || has_extendee_missing(flat) || has_method_type_missing(flat)
}

// LABELS AND ONEOFS

fn is_label_bad(field: &Definition<FieldDescriptorProto>) -> bool
    ensures { result ≡ label_bad (definition_row field.now) }
{
    let label = field.proto.label;
    !(label.is_none()
        || is_code(1, label)
        || is_code(3, label)
        || (is_code(2, label) && !field.is_proto3))
}

/// Whether a label is unknown, or requires a field in a proto3 file.
pub fn has_bad_label(flat: &Flat) -> bool
    ensures { result ≡ bad_label (flat_rows flat.now) }
{
    any_field(flat, &is_label_bad)
}

fn is_repeated_member(field: &Definition<FieldDescriptorProto>) -> bool
    ensures { result ≡ repeated_member (definition_row field.now) }
{
    field.proto.oneof_index.is_some() && is_code(3, field.proto.label)
}

fn is_member(extension: &Definition<FieldDescriptorProto>) -> bool
    ensures { result ≡ is_member (definition_row extension.now) }
{
    extension.proto.oneof_index.is_some()
}

/// Whether a repeated field or an extension is a member of a oneof.
pub fn has_bad_oneof(flat: &Flat) -> bool
    ensures { result ≡ bad_oneof (flat_rows flat.now) }
{
    any_field(flat, &is_repeated_member) || any_definition(flat.extensions.as_slice(), &is_member)
}

// ENUMS WITHOUT VALUES

fn is_enum_empty(declared: &FlatEnum) -> bool
    ensures { result ≡ enum_empty (enum_row declared.now) }
{
    declared.values.is_empty()
}

/// Whether an enum has no values.
pub fn has_empty_enum(flat: &Flat) -> bool
    ensures { result ≡ empty_enum (flat_rows flat.now) }
{
    any_enum(flat.enums.as_slice(), &is_enum_empty)
}
