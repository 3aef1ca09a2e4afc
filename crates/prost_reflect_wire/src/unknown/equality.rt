//! Equality of the fields that no descriptor knows.

ghost use Rattle.std.specs.Prelude.{◌≡◌, ◌↔◌, IsTrue};
ghost use Rattle.prost_reflect_wire.specs.Unknown.{payload_of, unknown_record, records_of};
ghost use Rattle.prost_reflect_wire.specs.Equality.{field_eq, field_eq_laws, value_eq, value_eq_laws, set_eq, set_eq_laws};

use crate::unknown::{UnknownField, UnknownFieldSet, UnknownFieldValue};

impl PartialEq for UnknownField {
    ghost eq = { field_eq };

    ghost laws = { field_eq_laws };

    /// Whether the numbers and the values are equal.
    fn eq(&self, other: &UnknownField) -> bool
        ensures value { result ≡ field_eq self.now other.now }
        ensures same { IsTrue result ↔ (unknown_record self.now ≡ unknown_record other.now) }
    {
        equal_fields(self, other)
    }
}

impl PartialEq for UnknownFieldValue {
    ghost eq = { value_eq };

    ghost laws = { value_eq_laws };

    /// Whether both store the same.
    fn eq(&self, other: &UnknownFieldValue) -> bool
        ensures value { result ≡ value_eq self.now other.now }
        ensures same { IsTrue result ↔ (payload_of self.now ≡ payload_of other.now) }
    {
        equal_values(self, other)
    }
}

impl PartialEq for UnknownFieldSet {
    ghost eq = { set_eq };

    ghost laws = { set_eq_laws };

    /// Whether both have equal fields in the same order.
    fn eq(&self, other: &UnknownFieldSet) -> bool
        ensures value { result ≡ set_eq self.now other.now }
        ensures same { IsTrue result ↔ (records_of self.now ≡ records_of other.now) }
    {
        equal_sets(self, other)
    }
}

#[cycle(equality)]
fn equal_fields(a: &UnknownField, b: &UnknownField) -> bool
    ensures { result ≡ field_eq a.now b.now }
{
    a.number.get() == b.number.get() && equal_values(&a.value, &b.value)
}

#[cycle(equality)]
fn equal_values(a: &UnknownFieldValue, b: &UnknownFieldValue) -> bool
    ensures { result ≡ value_eq a.now b.now }
{
    match (a, b) {
        (UnknownFieldValue::Varint(a), UnknownFieldValue::Varint(b)) => a == b,
        (UnknownFieldValue::SixtyFourBit(a), UnknownFieldValue::SixtyFourBit(b)) => a == b,
        (UnknownFieldValue::LengthDelimited(a), UnknownFieldValue::LengthDelimited(b)) => {
            a.as_slice() == b.as_slice()
        }
        (UnknownFieldValue::Group(a), UnknownFieldValue::Group(b)) => equal_sets(a, b),
        (UnknownFieldValue::ThirtyTwoBit(a), UnknownFieldValue::ThirtyTwoBit(b)) => a == b,
        _ => false,
    }
}

#[cycle(equality)]
fn equal_sets(a: &UnknownFieldSet, b: &UnknownFieldSet) -> bool
    ensures { result ≡ set_eq a.now b.now }
{
    if a.fields.len() != b.fields.len() {
        return false;
    }
    for index in 0..a.fields.len() {
        if !equal_fields(&a.fields[index], &b.fields[index]) {
            return false;
        }
    }
    true
}
