//! Writing scalars and their records (the encoding guide, "Message Structure").

ghost use Rattle.prost_reflect_wire.specs.Record.{Len, short_plain};
ghost use Rattle.prost_reflect_wire.specs.Sinks.{Adds};
ghost use Rattle.prost_reflect_wire.specs.Content.{ScalarValue};
ghost use Rattle.prost_reflect_tables.specs.Rows.{field_row};
ghost use Rattle.prost_reflect_tables.specs.Scalars.{scalar_of};
ghost use Rattle.prost_reflect_tables.specs.WrittenDefaults.{plain_kind};
ghost use Rattle.prost_reflect_pool.specs.SharedPools.{pool_rows};
ghost use Rattle.prost_reflect_rows.specs.Scalars.{TakesScalar, scalar_bytes, scalar_record_bytes, kept_scalar_bytes};

use crate::scalars::{is_default, wire_type_of};
use prost_reflect_pool::PooledType;
use prost_reflect_tables::{FieldTable, ScalarRef, TableKind};
use prost_reflect_wire::{Sink, sign_extended, write_key, zigzag32, zigzag64};

/// Adds the payload of a scalar of the kind in front of what the sink has.
#[inline(always)]
pub fn write_scalar<S: Sink>(sink: &mut S, kind: TableKind, scalar: ScalarRef<'_>)
    requires { TakesScalar kind (ScalarValue (scalar_of scalar)) }
    ensures { Adds S.added sink.old sink.new (scalar_bytes (plain_kind kind) (ScalarValue (scalar_of scalar.entry))) }
{
    match (kind, scalar) {
        (TableKind::Int32, ScalarRef::I32(value)) => sink.prepend_varint(sign_extended(value)),
        (TableKind::Int64, ScalarRef::I64(value)) => sink.prepend_varint(value.cast_unsigned()),
        (TableKind::Uint32, ScalarRef::U32(value)) => sink.prepend_varint(u64::from(value)),
        (TableKind::Uint64, ScalarRef::U64(value)) => sink.prepend_varint(value),
        (TableKind::Sint32, ScalarRef::I32(value)) => {
            sink.prepend_varint(u64::from(zigzag32(value)))
        }
        (TableKind::Sint64, ScalarRef::I64(value)) => sink.prepend_varint(zigzag64(value)),
        (TableKind::Bool, ScalarRef::Bool(value)) => sink.prepend_varint(u64::from(value)),
        (TableKind::Double, ScalarRef::F64(bits)) => sink.prepend(&bits.to_le_bytes()),
        (TableKind::Float, ScalarRef::F32(bits)) => sink.prepend(&bits.to_le_bytes()),
        (TableKind::Fixed32, ScalarRef::U32(value)) => sink.prepend(&value.to_le_bytes()),
        (TableKind::Fixed64, ScalarRef::U64(value)) => sink.prepend(&value.to_le_bytes()),
        (TableKind::Sfixed32, ScalarRef::I32(value)) => sink.prepend(&value.to_le_bytes()),
        (TableKind::Sfixed64, ScalarRef::I64(value)) => sink.prepend(&value.to_le_bytes()),
        (TableKind::String, ScalarRef::String(text)) => write_delimited(sink, text.as_bytes()),
        (TableKind::Bytes, ScalarRef::Bytes(bytes)) => write_delimited(sink, bytes),
        (TableKind::Enum(_), ScalarRef::EnumNumber(number)) => {
            sink.prepend_varint(sign_extended(number))
        }
        _ => unreachable!(),
    }
}

/// Adds a length and the bytes in front.
fn write_delimited<S: Sink>(sink: &mut S, body: &[u8])
    ensures { Adds S.added sink.old sink.new (short_plain (Len body.now)) }
{
    sink.prepend(body);
    sink.prepend_varint(body.len() as u64);
}

/// Adds the record of a scalar of the kind, under the number, in front of what the sink has.
pub fn write_scalar_record<S: Sink>(
    sink: &mut S,
    number: u32,
    kind: TableKind,
    scalar: ScalarRef<'_>,
)
    requires { TakesScalar kind (ScalarValue (scalar_of scalar)) }
    ensures { Adds S.added sink.old sink.new (scalar_record_bytes number (plain_kind kind) (ScalarValue (scalar_of scalar.entry))) }
{
    write_scalar(sink, kind, scalar);
    write_key(sink, number, wire_type_of(kind));
}

/// Adds what is kept of a scalar of a field in front of what the sink has: its record, or nothing where it is the default of a
/// field without presence.
pub fn write_kept_scalar<S: Sink>(
    sink: &mut S,
    message_type: &PooledType,
    number: u32,
    field: &FieldTable,
    scalar: ScalarRef<'_>,
)
    requires { TakesScalar (field_row field.now).kind (ScalarValue (scalar_of scalar)) }
    ensures { Adds S.added sink.old sink.new
        (kept_scalar_bytes number (pool_rows message_type.now.pool).enums (field_row field.now)
        (ScalarValue (scalar_of scalar.entry))) }
{
    if !field.supports_presence && is_default(message_type, field, scalar) {
        return;
    }
    write_scalar_record(sink, number, field.kind, scalar);
}
