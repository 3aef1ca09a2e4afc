//! Writing fields that no descriptor knows, the last byte first (the encoding guide, "Message Structure" and "Groups").

ghost use Rattle.std.specs.Prelude.{◌≡◌, ◌≤◌, ◌<◌, ◌^◌, ◌++◌, ◌∷◌, [], ℕ, List, true, length, OnOk, OnErr, IfErr};
ghost use Rattle.std.specs.Option.{SomeIff};
ghost use Rattle.prost_reflect_wire.specs.Record.{body_of, Spells, spelled, short_payload, valid, payload_valid};
ghost use Rattle.prost_reflect_wire.specs.Front.{RecordFront};
ghost use Rattle.prost_reflect_wire.specs.Buffer.{bytes_of, Prepended};
ghost use Rattle.prost_reflect_wire.specs.Sinks.{Adds};
ghost use Rattle.prost_reflect_wire.specs.Unknown.{payload_of, unknown_record, records_of};

use crate::buffer::BackBuffer;
use crate::error::EncodeError;
use crate::key::{FieldNumber, WireType};
use crate::sink::{ByteSink, LengthSink, Sink, write_key};
use crate::unknown::{UnknownField, UnknownFieldSet, UnknownFieldValue};

/// Adds the record of the field in front.
#[cycle(writing)]
pub fn write_field<S: Sink>(sink: &mut S, field: &UnknownField)
    ensures added { Adds S.added sink.old sink.new (spelled (unknown_record field.now ∷ [])) }
    ensures valid { valid (body_of (unknown_record field.now ∷ [])) ≡ true }
{
    write_value(sink, field.number, &field.value);
    write_key(sink, field.number.get(), field.value.wire_type());
}

/// Adds what stands behind the key of a field in front.
#[cycle(writing)]
fn write_value<S: Sink>(sink: &mut S, number: FieldNumber, value: &UnknownFieldValue)
    ensures added { Adds S.added sink.old sink.new (short_payload number.value (payload_of value.now)) }
    ensures valid { payload_valid (payload_of value.now) ≡ true }
{
    match value {
        UnknownFieldValue::Varint(value) => sink.prepend_varint(*value),
        UnknownFieldValue::SixtyFourBit(payload) => sink.prepend(payload),
        UnknownFieldValue::LengthDelimited(payload) => {
            sink.prepend(payload);
            sink.prepend_varint(payload.len() as u64);
        }
        UnknownFieldValue::Group(fields) => {
            write_key(sink, number.get(), WireType::EndGroup);
            write_fields(sink, fields);
        }
        UnknownFieldValue::ThirtyTwoBit(payload) => sink.prepend(payload),
    }
}

/// Adds the records of the fields in front, in their order.
#[cycle(writing)]
pub fn write_fields<S: Sink>(sink: &mut S, fields: &UnknownFieldSet)
    ensures added { Adds S.added sink.old sink.new (spelled (records_of fields.now)) }
    ensures valid { valid (body_of (records_of fields.now)) ≡ true }
{
    for index in (0..fields.fields.len()).rev() {
        write_field(sink, &fields.fields[index]);
    }
}

impl UnknownField {
    /// Appends the record of the field, in its shortest spelling.
    ///
    /// # Errors
    ///
    /// `TooLong` if the record passes the greatest `usize`, `OutOfMemory` if memory runs out; the output stays.
    pub fn encode(&self, out: &mut Vec<u8>) -> Result<(), EncodeError>
        ensures ok { OnOk result (out.new.items ≡ out.old.items ++ spelled (unknown_record self.now ∷ [])) }
        ensures first { OnOk result
            ((tail : List ℕ)
            → RecordFront (unknown_record self.now) (spelled (unknown_record self.now ∷ []) ++ tail) tail) }
        ensures err { OnErr result (out.new.items ≡ out.old.items) }
        ensures too_long { IfErr result (λ e. e ≡ EncodeError.TooLong → 2 ^ 64 ≤ length (spelled (unknown_record self.now ∷ []))) }
    {
        let mut sink = ByteSink::new(*out.allocator());
        write_field(&mut sink, self);
        sink.append_to(out)
    }

    /// How many bytes `encode` appends; `None` if they are more than a `usize` counts.
    pub fn encoded_len(&self) -> Option<usize>
        ensures { let n = length (spelled (unknown_record self.now ∷ [])) in SomeIff result (n < 2 ^ 64) n }
    {
        let mut sink = LengthSink::new();
        write_field(&mut sink, self);
        sink.total()
    }
}

impl UnknownFieldSet {
    /// Appends the records of the fields in their order, in their shortest spelling.
    ///
    /// # Errors
    ///
    /// As `UnknownField::encode`.
    pub fn encode(&self, out: &mut Vec<u8>) -> Result<(), EncodeError>
        ensures ok { OnOk result (out.new.items ≡ out.old.items ++ spelled (records_of self.now)) }
        ensures spells { OnOk result (Spells (body_of (records_of self.now)) (spelled (records_of self.now))) }
        ensures err { OnErr result (out.new.items ≡ out.old.items) }
        ensures too_long { IfErr result (λ e. e ≡ EncodeError.TooLong → 2 ^ 64 ≤ length (spelled (records_of self.now))) }
    {
        let mut sink = ByteSink::new(*out.allocator());
        write_fields(&mut sink, self);
        sink.append_to(out)
    }

    /// How many bytes `encode` appends; `None` if they are more than a `usize` counts.
    pub fn encoded_len(&self) -> Option<usize>
        ensures { let n = length (spelled (records_of self.now)) in SomeIff result (n < 2 ^ 64) n }
    {
        let mut sink = LengthSink::new();
        write_fields(&mut sink, self);
        sink.total()
    }
}

/// Adds the records of the fields in front of a buffer, in their order.
///
/// # Errors
///
/// `TooLong` if the whole passes the greatest `usize`, `OutOfMemory` if memory runs out; the buffer stays.
pub fn prepend_fields(fields: &UnknownFieldSet, out: &mut BackBuffer) -> Result<(), EncodeError>
    ensures ok { Prepended result (bytes_of out.old) (bytes_of out.new) (spelled (records_of fields.now)) }
    ensures valid { OnOk result (valid (body_of (records_of fields.now)) ≡ true) }
    ensures err { OnErr result (bytes_of out.new ≡ bytes_of out.old) }
{
    let mut sink = ByteSink::new(out.allocator());
    write_fields(&mut sink, fields);
    let mut bytes = Vec::new(out.allocator());
    sink.append_to(&mut bytes)?;
    out.prepend(bytes.as_slice())
}
