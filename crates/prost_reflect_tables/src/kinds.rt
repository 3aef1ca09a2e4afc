//! The kinds of fields, by the type codes and the names that their definitions write.

ghost use Rattle.std.specs.Prelude.{◌≡◌, IsSome, IsSomeAnd, unwrap_or};
ghost use Rattle.prost_reflect_wire.specs.Schema.{is_packable as scalar_packable};
ghost use Rattle.prost_reflect_tables.specs.Linking.{natural_or_zero, place_in, kind_of_code, is_packable};
ghost use Rattle.prost_reflect_tables.specs.WrittenDefaults.{plain_kind};

use crate::tables::TableKind;
use prost_reflect_types::FieldDescriptorProto;

/// A number that is absent or negative counts as 0.
pub fn natural_or_zero(number: Option<i32>) -> u32
    ensures { result ≡ natural_or_zero number }
{
    match number {
        Some(number) => u32::try_from(number).unwrap_or(0),
        None => 0,
    }
}

/// A place, unless it is absent or negative.
pub fn place_in(index: Option<i32>) -> Option<usize>
    ensures { result ≡ place_in index }
{
    match index {
        Some(index) => usize::try_from(index).ok(),
        None => None,
    }
}

/// The kind of a type code, where a message or an enum has the place.
fn kind_of_code(message: usize, enumeration: usize, code: u32) -> TableKind
    ensures { result ≡ kind_of_code message enumeration code }
{
    match code {
        2 => TableKind::Float,
        3 => TableKind::Int64,
        4 => TableKind::Uint64,
        5 => TableKind::Int32,
        6 => TableKind::Fixed64,
        7 => TableKind::Fixed32,
        8 => TableKind::Bool,
        9 => TableKind::String,
        10 | 11 => TableKind::Message(message),
        12 => TableKind::Bytes,
        13 => TableKind::Uint32,
        14 => TableKind::Enum(enumeration),
        15 => TableKind::Sfixed32,
        16 => TableKind::Sfixed64,
        17 => TableKind::Sint32,
        18 => TableKind::Sint64,
        _ => TableKind::Double,
    }
}

/// The kind of a field whose type's name names the message and the enum of these places. One that names none counts as the first.
pub fn linked_kind(
    message: Option<usize>,
    enumeration: Option<usize>,
    field: &FieldDescriptorProto,
) -> TableKind
    ensures { result ≡ kind_of_code (unwrap_or message 0) (unwrap_or enumeration 0) (natural_or_zero field.now.type_) }
{
    kind_of_code(
        message.unwrap_or(0),
        enumeration.unwrap_or(0),
        natural_or_zero(field.type_),
    )
}

/// Whether a list of the kind may be written as one record: of all kinds but string, bytes and messages.
pub fn is_packable(kind: TableKind) -> bool
    ensures kind { result ≡ is_packable kind }
    ensures scalar { IsSome (plain_kind kind) → IsSomeAnd (plain_kind kind) (λ k. scalar_packable k ≡ result) }
{
    !matches!(
        kind,
        TableKind::String | TableKind::Bytes | TableKind::Message(_)
    )
}
