//! The fields that no descriptor knows.

ghost use Rattle.std.specs.Prelude.{◌≡◌, ◌≤◌, ◌<◌, ◌^◌, ◌==◌, ◌++◌, ◌∷◌, [], length, map, OnOk, OnErr};
ghost use Rattle.std.specs.Iterator.Runs.{EveryRun, ItemsMapTo, ItemsAre};
ghost use Rattle.std.specs.Slice.Iter.{iter_rest, iter_steps};
ghost use Rattle.std.specs.declared.alloc.Global.{Global as Heap};
ghost use Rattle.std.specs.Vec.Iter.{into_iter_items, into_iter_len, into_iter_steps};
ghost use Rattle.prost_reflect_wire.specs.Record.{payload_wire};
ghost use Rattle.prost_reflect_wire.specs.declared.unknown.UnknownField.{UnknownField};
ghost use Rattle.prost_reflect_wire.specs.Unknown.{payload_of, unknown_record, records_of, unknown_fields_of};

use crate::key::{FieldNumber, WireType};
use std::alloc::{AllocError, Global};
use std::slice::Iter;
use std::vec::IntoIter;

mod copy;
mod equality;
mod reading;
mod skipping;
mod writing;

pub use reading::{RECURSION_LIMIT, decode_value};
pub use skipping::skip_value;
pub use writing::{prepend_fields, write_field, write_fields};

/// How many fields a set has room for at first. Most groups have few fields, and most messages few of one number.
const FIRST_ROOM: usize = 2;

/// A field that its message does not know.
#[derive(Debug, Drop)]
#[cycle(unknown)]
pub struct UnknownField {
    pub(crate) number: FieldNumber,
    pub(crate) value: UnknownFieldValue,
}

/// What an unknown field contains.
#[derive(Debug, Drop)]
#[cycle(unknown)]
pub enum UnknownFieldValue {
    /// A varint's value; its spelling is not kept.
    Varint(u64),
    /// Eight bytes.
    SixtyFourBit([u8; 8]),
    /// Bytes that a length counts.
    LengthDelimited(Vec<u8>),
    /// The records of a group.
    Group(UnknownFieldSet),
    /// Four bytes.
    ThirtyTwoBit([u8; 4]),
}

/// Unknown fields, in order.
#[derive(Debug, Drop)]
#[cycle(unknown)]
pub struct UnknownFieldSet {
    pub(crate) fields: Vec<UnknownField>,
}

impl UnknownField {
    /// A field of the number with the value.
    ///
    /// ```
    /// // Appends the bytes 28 96 01: field 5 with the varint 150.
    /// fn append_five(out: &mut Vec<u8>) -> Result<(), EncodeError> {
    ///     let field = UnknownField::new(FieldNumber::new(5), UnknownFieldValue::Varint(150));
    ///     field.encode(out)
    /// }
    /// ```
    pub fn new(number: FieldNumber, value: UnknownFieldValue) -> UnknownField
        ensures number { result.number ≡ number }
        ensures value { result.value ≡ value }
    {
        UnknownField { number, value }
    }

    /// The number of the field, from 1 to 536870911.
    pub fn number(&self) -> u32
        ensures value { result ≡ (unknown_record self.now).number }
        ensures some { 1 ≤ result }
        ensures below { result < 2 ^ 29 }
    {
        self.number.get()
    }

    /// The wire type of the field's key: `StartGroup` for a group.
    pub fn wire_type(&self) -> WireType
        ensures { result ≡ payload_wire (unknown_record self.now).payload }
    {
        self.value.wire_type()
    }

    /// What the field contains.
    pub fn value(&self) -> &UnknownFieldValue
        ensures value { result.now ≡ self.now.value }
        ensures payload { payload_of result.now ≡ (unknown_record self.now).payload }
    {
        &self.value
    }
}

impl UnknownFieldValue {
    /// The wire type of the key of a field that contains this.
    pub(crate) fn wire_type(&self) -> WireType
        ensures { result ≡ payload_wire (payload_of self.now) }
    {
        match self {
            UnknownFieldValue::Varint(_) => WireType::Varint,
            UnknownFieldValue::SixtyFourBit(_) => WireType::SixtyFourBit,
            UnknownFieldValue::LengthDelimited(_) => WireType::LengthDelimited,
            UnknownFieldValue::Group(_) => WireType::StartGroup,
            UnknownFieldValue::ThirtyTwoBit(_) => WireType::ThirtyTwoBit,
        }
    }
}

impl UnknownFieldSet {
    /// No fields.
    ///
    /// ```
    /// // The set of one field.
    /// fn set_of(alloc: Global, field: UnknownField) -> Result<UnknownFieldSet, AllocError> {
    ///     let mut set = UnknownFieldSet::new(alloc);
    ///     set.insert(field)?;
    ///     Ok(set)
    /// }
    /// ```
    pub fn new(alloc: Global) -> UnknownFieldSet
        ensures fields { unknown_fields_of result ≡ [] }
        ensures records { records_of result ≡ [] }
    {
        UnknownFieldSet {
            fields: Vec::new(alloc),
        }
    }

    /// These fields in their order.
    pub fn from_fields(fields: Vec<UnknownField>) -> UnknownFieldSet
        ensures fields { unknown_fields_of result ≡ fields.items }
        ensures records { records_of result ≡ map unknown_record fields.items }
    {
        UnknownFieldSet { fields }
    }

    /// How many fields there are.
    pub fn len(&self) -> usize
        ensures { result ≡ length (records_of self.now) }
    {
        self.fields.len()
    }

    /// Whether there are none.
    pub fn is_empty(&self) -> bool
        ensures { result ≡ (length (records_of self.now) == 0) }
    {
        self.fields.is_empty()
    }

    /// Adds a field at the end.
    ///
    /// # Errors
    ///
    /// `AllocError` if out of memory; the set stays.
    pub fn insert(&mut self, field: UnknownField) -> Result<(), AllocError>
        ensures fields { OnOk result (unknown_fields_of self.new ≡ unknown_fields_of self.old ++ field ∷ []) }
        ensures records { OnOk result (records_of self.new ≡ records_of self.old ++ unknown_record field ∷ []) }
        ensures err { OnErr result (unknown_fields_of self.new ≡ unknown_fields_of self.old) }
    {
        if self.fields.capacity() == 0 {
            self.fields.reserve_exact(FIRST_ROOM)?;
        }
        self.fields.push(field)?;
        Ok(())
    }

    /// The fields in their order.
    pub fn iter(&self) -> Iter<'_, UnknownField>
        ensures rest { iter_rest result ≡ unknown_fields_of self.now }
        ensures bound { length (iter_rest result) < 2 ^ 64 }
        ensures runs { EveryRun (iter_steps {A = UnknownField}) (λ p. ItemsMapTo p (λ x. x.now) (iter_rest p.from)) }
    {
        self.fields.iter()
    }
}

impl IntoIterator for UnknownFieldSet {
    type Item = UnknownField;

    type IntoIter = IntoIter<UnknownField, Global>;

    ghost into_iter_gives = { λ set fields. (into_iter_items fields ≡ unknown_fields_of set) × (into_iter_len fields ≡ length (unknown_fields_of set)) × (into_iter_len fields < 2 ^ 64)
        × EveryRun (into_iter_steps {X = UnknownField} {Z = Heap}) (λ p. ItemsAre p (into_iter_items p.from)) };

    fn into_iter(self) -> IntoIter<UnknownField, Global> {
        self.fields.into_iter()
    }
}

impl<'a> IntoIterator for &'a UnknownFieldSet {
    type Item = &'a UnknownField;

    type IntoIter = Iter<'a, UnknownField>;

    ghost into_iter_gives = { λ set fields. (iter_rest fields ≡ unknown_fields_of set.now) × (length (iter_rest fields) < 2 ^ 64)
        × EveryRun (iter_steps {A = UnknownField}) (λ p. ItemsMapTo p (λ x. x.now) (iter_rest p.from)) };

    fn into_iter(self) -> Iter<'a, UnknownField> {
        self.iter()
    }
}
