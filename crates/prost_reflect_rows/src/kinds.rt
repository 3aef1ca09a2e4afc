//! What kinds are called, and what stands at the places that they name.

ghost use Rattle.std.specs.Prelude.{◌≡◌, option_map, slice_get};
ghost use Rattle.std.specs.Option.{option_copied};
ghost use Rattle.prost_reflect_tables.specs.Rows.{enum_row, message_row};
ghost use Rattle.prost_reflect_rows.specs.KindNames.{enums_in, kind_name, messages_in};
ghost use Rattle.prost_reflect_rows.specs.RowKinds.{place_named};

use prost_reflect_pool::LinkedPool;
use prost_reflect_tables::{EnumTable, MessageTable, TableKind};

/// The name of a kind of the tables (the language guide, "Scalar Value Types"); that of a message type or an enum of the pool
/// is its full name, and is empty where there is none.
pub fn kind_name(pool: Option<&LinkedPool>, kind: TableKind) -> &str
    ensures { result.now ≡ kind_name (messages_in (option_copied pool.entry)) (enums_in (option_copied pool.entry)) kind }
{
    match kind {
        TableKind::Double => "double",
        TableKind::Float => "float",
        TableKind::Int32 => "int32",
        TableKind::Int64 => "int64",
        TableKind::Uint32 => "uint32",
        TableKind::Uint64 => "uint64",
        TableKind::Sint32 => "sint32",
        TableKind::Sint64 => "sint64",
        TableKind::Fixed32 => "fixed32",
        TableKind::Fixed64 => "fixed64",
        TableKind::Sfixed32 => "sfixed32",
        TableKind::Sfixed64 => "sfixed64",
        TableKind::Bool => "bool",
        TableKind::String => "string",
        TableKind::Bytes => "bytes",
        TableKind::Message(place) => match message_at(pool, place) {
            Some(message) => message.id.full_name(),
            None => "",
        },
        TableKind::Enum(place) => match enum_at(pool, place) {
            Some(found) => found.id.full_name(),
            None => "",
        },
    }
}

/// The message type at a place of the pool, or none where none stands there.
fn message_at(pool: Option<&LinkedPool>, place: usize) -> Option<&MessageTable>
    ensures { option_map (λ m. message_row m.now) result ≡ slice_get (messages_in (option_copied pool.entry)) place }
{
    pool?.tables().messages.get(place)
}

/// The enum at a place of the pool, or none where none stands there.
fn enum_at(pool: Option<&LinkedPool>, place: usize) -> Option<&EnumTable>
    ensures { option_map (λ e. enum_row e.now) result ≡ slice_get (enums_in (option_copied pool.entry)) place }
{
    pool?.tables().enums.get(place)
}

/// The place of the message type that a kind of the tables names, or none where it is no message kind.
pub fn named_place(kind: TableKind) -> Option<usize>
    ensures { result ≡ place_named kind }
{
    match kind {
        TableKind::Message(place) => Some(place),
        _ => None,
    }
}
