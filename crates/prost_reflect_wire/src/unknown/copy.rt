//! Copies of the fields that no descriptor knows.

ghost use Rattle.std.specs.Prelude.{◌≡◌, IfOk};
ghost use Rattle.prost_reflect_wire.specs.Unknown.{payload_of, unknown_record, records_of};

use crate::unknown::{UnknownField, UnknownFieldSet, UnknownFieldValue};
use std::alloc::AllocError;

impl Clone for UnknownField {
    ghost is_clone = { λ field copied. unknown_record copied ≡ unknown_record field };

    fn clone(&self) -> Result<UnknownField, AllocError> {
        copy_field(self)
    }
}

impl Clone for UnknownFieldValue {
    ghost is_clone = { λ value copied. payload_of copied ≡ payload_of value };

    fn clone(&self) -> Result<UnknownFieldValue, AllocError> {
        copy_value(self)
    }
}

impl Clone for UnknownFieldSet {
    ghost is_clone = { λ set copied. records_of copied ≡ records_of set };

    fn clone(&self) -> Result<UnknownFieldSet, AllocError> {
        copy_set(self)
    }
}

#[cycle(copy)]
fn copy_field(field: &UnknownField) -> Result<UnknownField, AllocError>
    ensures { IfOk result (λ copied. unknown_record copied ≡ unknown_record field.now) }
{
    let value = copy_value(&field.value)?;
    Ok(UnknownField::new(field.number, value))
}

#[cycle(copy)]
fn copy_value(value: &UnknownFieldValue) -> Result<UnknownFieldValue, AllocError>
    ensures { IfOk result (λ copied. payload_of copied ≡ payload_of value.now) }
{
    match value {
        UnknownFieldValue::Varint(value) => Ok(UnknownFieldValue::Varint(*value)),
        UnknownFieldValue::SixtyFourBit(payload) => Ok(UnknownFieldValue::SixtyFourBit(*payload)),
        UnknownFieldValue::LengthDelimited(payload) => {
            Ok(UnknownFieldValue::LengthDelimited(payload.clone()?))
        }
        UnknownFieldValue::Group(fields) => Ok(UnknownFieldValue::Group(copy_set(fields)?)),
        UnknownFieldValue::ThirtyTwoBit(payload) => Ok(UnknownFieldValue::ThirtyTwoBit(*payload)),
    }
}

#[cycle(copy)]
fn copy_set(set: &UnknownFieldSet) -> Result<UnknownFieldSet, AllocError>
    ensures { IfOk result (λ copied. records_of copied ≡ records_of set.now) }
{
    let mut fields = Vec::with_capacity(*set.fields.allocator(), set.fields.len())?;
    for field in &set.fields {
        fields.push(copy_field(field)?)?;
    }
    Ok(UnknownFieldSet { fields })
}
