//! Writing the fields of descriptor records, by their kinds; of an absent one nothing is written (the encoding guide,
//! "Message Structure", "Length-Delimited Records" and "Submessages").

ghost use Rattle.std.specs.Prelude.{◌≡◌, true, ◌∷◌, [], map};
ghost use Rattle.prost_reflect_wire.specs.Record.{Flat, Len, Var, record_at, spelled};
ghost use Rattle.prost_reflect_wire.specs.Writing.{encoded};
ghost use Rattle.prost_reflect_types.specs.DescriptorViews.{of_text, of_number, of_flag, of_bytes, of_texts, of_numbers, of_records};
ghost use Rattle.prost_reflect_proto.specs.DescriptorSound.{RecordSound, FieldSound};
ghost use Rattle.prost_reflect_wire.specs.Varint.{are_bytes};
ghost use Rattle.prost_reflect_proto.specs.DescriptorWriting.{field_bytes};
ghost use Rattle.prost_reflect_wire.specs.Sinks.{Adds};
ghost use Rattle.prost_reflect_types.specs.declared.table.FieldKind.TheVariants as kinds;

use crate::proto::WriteProto;
use prost_reflect_wire::{Sink, WireType, sign_extended, write_key};

fn write_varint<S: Sink>(sink: &mut S, number: u32, value: u64)
    ensures { Adds S.added sink.old sink.new (spelled (record_at number (Flat (Var value)) ∷ [])) }
{
    sink.prepend_varint(value);
    write_key(sink, number, WireType::Varint);
}

fn write_delimited<S: Sink>(sink: &mut S, number: u32, payload: &[u8])
    ensures added { Adds S.added sink.old sink.new (spelled (record_at number (Flat (Len payload.now)) ∷ [])) }
    ensures bytes { are_bytes payload.now ≡ true }
{
    sink.prepend(payload);
    sink.prepend_varint(payload.len() as u64);
    write_key(sink, number, WireType::LengthDelimited);
}

/// Writes a nested record under the number.
pub fn write_record<S: Sink, P: WriteProto>(sink: &mut S, number: u32, value: &P)
    ensures added { Adds S.added sink.old sink.new (spelled (record_at number (Flat (Len (encoded (P.content value.now)))) ∷ [])) }
    ensures sound { RecordSound P.record_type (P.content value.now) }
{
    let before = sink.len();
    value.write(sink);
    sink.prepend_len_since(before);
    write_key(sink, number, WireType::LengthDelimited);
}

/// Writes a text under the number, unless it is absent.
pub fn write_text<S: Sink>(sink: &mut S, number: u32, text: &Option<String>)
    ensures { Adds S.added sink.old sink.new (field_bytes number kinds.Text (of_text text.now)) }
{
    if let Some(text) = text {
        write_delimited(sink, number, text.as_bytes());
    }
}

/// Writes an `int32` under the number, unless it is absent.
pub fn write_number<S: Sink>(sink: &mut S, number: u32, value: &Option<i32>)
    ensures added { Adds S.added sink.old sink.new (field_bytes number kinds.Number (of_number value.now)) }
    ensures sound { FieldSound kinds.Number (of_number value.now) }
{
    if let Some(value) = value {
        let value = *value;
        write_varint(sink, number, sign_extended(value));
    }
}

/// Writes a `bool` under the number, unless it is absent.
pub fn write_flag<S: Sink>(sink: &mut S, number: u32, flag: &Option<bool>)
    ensures { Adds S.added sink.old sink.new (field_bytes number kinds.Flag (of_flag flag.now)) }
{
    if let Some(flag) = flag {
        write_varint(sink, number, u64::from(*flag));
    }
}

/// Writes raw bytes under the number, unless they are absent.
pub fn write_bytes<S: Sink>(sink: &mut S, number: u32, bytes: &Option<Vec<u8>>)
    ensures added { Adds S.added sink.old sink.new (field_bytes number kinds.Bytes (of_bytes bytes.now)) }
    ensures sound { FieldSound kinds.Bytes (of_bytes bytes.now) }
{
    if let Some(bytes) = bytes {
        write_delimited(sink, number, bytes);
    }
}

/// Writes each text under the number, the last one first.
pub fn write_texts<S: Sink>(sink: &mut S, number: u32, texts: &Vec<String>)
    ensures { Adds S.added sink.old sink.new (field_bytes number kinds.Texts (of_texts texts.now)) }
{
    for index in (0..texts.len()).rev() {
        write_delimited(sink, number, texts[index].as_bytes());
    }
}

/// Writes each `int32` under the number, not packed, the last one first.
pub fn write_numbers<S: Sink>(sink: &mut S, number: u32, values: &Vec<i32>)
    ensures added { Adds S.added sink.old sink.new (field_bytes number kinds.Numbers (of_numbers values.now)) }
    ensures sound { FieldSound kinds.Numbers (of_numbers values.now) }
{
    for index in (0..values.len()).rev() {
        write_varint(sink, number, sign_extended(values[index]));
    }
}

/// Writes each nested record under the number, the last one first.
pub fn write_records<S: Sink, P: WriteProto>(sink: &mut S, number: u32, records: &Vec<P>)
    ensures added { Adds S.added sink.old sink.new
        (field_bytes number (kinds.Records P.record_type) (of_records (map P.content records.now.items))) }
    ensures sound { FieldSound (kinds.Records P.record_type) (of_records (map P.content records.now.items)) }
{
    for index in (0..records.len()).rev() {
        write_record(sink, number, &records[index]);
    }
}
