//! Writing lists of scalars (the encoding guide, "Repeated Elements" and "Packed Repeated Fields").

ghost use Rattle.prost_reflect_wire.specs.Sinks.{Adds};
ghost use Rattle.prost_reflect_tables.specs.Rows.{field_row};
ghost use Rattle.prost_reflect_dynamic.specs.Lists.{TakesScalars, payloads_bytes, records_bytes, packed_bytes, list_bytes};

use crate::value::Value;
use prost_reflect_rows::writing::{write_scalar, write_scalar_record};
use prost_reflect_tables::{FieldTable, TableKind};
use prost_reflect_wire::{Sink, WireType, write_key};

/// Adds the payloads of scalars in front, end to end. The loop is made once for each of the kinds that many elements have most
/// often.
fn write_payloads<S: Sink>(sink: &mut S, kind: TableKind, values: &[Value])
    requires { TakesScalars kind values.now }
    ensures { Adds S.added sink.old sink.new (payloads_bytes kind values.now) }
{
    match kind {
        TableKind::Int32 => write_all(sink, TableKind::Int32, values),
        TableKind::Uint32 => write_all(sink, TableKind::Uint32, values),
        TableKind::Fixed64 => write_all(sink, TableKind::Fixed64, values),
        TableKind::Double => write_all(sink, TableKind::Double, values),
        _ => write_all(sink, kind, values),
    }
}

/// Adds the payloads of scalars in front, as `write_payloads` does. Where it is inlined into an arm of one kind, its loop is
/// made for that kind.
#[inline(always)]
fn write_all<S: Sink>(sink: &mut S, kind: TableKind, values: &[Value])
    requires { TakesScalars kind values.now }
    ensures { Adds S.added sink.old sink.new (payloads_bytes kind values.now) }
{
    for index in (0..values.len()).rev() {
        write_scalar(sink, kind, values[index].scalar());
    }
}

/// Adds the records of scalars in front, one for each.
fn write_records<S: Sink>(sink: &mut S, number: u32, kind: TableKind, values: &[Value])
    requires { TakesScalars kind values.now }
    ensures { Adds S.added sink.old sink.new (records_bytes number kind values.now) }
{
    for index in (0..values.len()).rev() {
        write_scalar_record(sink, number, kind, values[index].scalar());
    }
}

/// Adds one record of all scalars in front.
fn write_packed<S: Sink>(sink: &mut S, number: u32, kind: TableKind, values: &[Value])
    requires { TakesScalars kind values.now }
    ensures { Adds S.added sink.old sink.new (packed_bytes number kind values.now) }
{
    let before = sink.len();
    write_payloads(sink, kind, values);
    sink.prepend_len_since(before);
    write_key(sink, number, WireType::LengthDelimited);
}

/// Adds what is written of a list in front: one record where it is packed, else one for each element; nothing of an empty one.
pub(crate) fn write_list<S: Sink>(sink: &mut S, number: u32, field: &FieldTable, values: &[Value])
    requires { TakesScalars (field_row field.now).kind values.now }
    ensures { Adds S.added sink.old sink.new (list_bytes number (field_row field.now).is_packed (field_row field.now).kind values.now) }
{
    if values.is_empty() {
        return;
    }
    if field.is_packed {
        write_packed(sink, number, field.kind, values);
    } else {
        write_records(sink, number, field.kind, values);
    }
}
