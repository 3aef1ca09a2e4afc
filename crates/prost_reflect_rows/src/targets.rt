//! What the record behind a key is read as.

ghost use Rattle.std.specs.Prelude.{◌≡◌};
ghost use Rattle.prost_reflect_tables.specs.Rows.{field_row};
ghost use Rattle.prost_reflect_pool.specs.MapParts.{map_parts};
ghost use Rattle.prost_reflect_pool.specs.SharedPools.{pool_rows};
ghost use Rattle.prost_reflect_rows.specs.Targets.{IsTarget, element_target_of, entry_target_of, repeated_target_of, target_of};

use prost_reflect_pool::PooledType;
use prost_reflect_tables::{FieldTable, TableKind};

/// Which messages a field has.
#[derive(Clone, Copy)]
pub struct MessageKind {
    /// The place of their type.
    pub place: usize,
    /// Whether each is written as a group.
    pub is_group: bool,
}

/// What the record behind a key is read as.
#[derive(Clone, Copy)]
pub enum Target {
    /// An unknown field.
    Unknown,
    /// A scalar of the kind, and the place of its field's oneof.
    Scalar(TableKind, Option<usize>),
    /// Elements of a list of such scalars.
    List(TableKind),
    /// Elements of a list of numbers of this enum.
    Numbers(TableKind),
    /// An entry of a map whose keys and values are scalars of these kinds.
    Map(TableKind, TableKind),
    /// A message of the kind, and the place of its field's oneof.
    Message(MessageKind, Option<usize>),
    /// Such a message as an element of a list.
    Element(MessageKind),
    /// An entry of a map whose keys are scalars of the kind, and whose values are messages of the type at the place.
    MessageEntry(TableKind, usize),
}

/// What the record of a number is read as in a message of the type.
pub fn target_at(message_type: &PooledType, number: u32) -> Target
    ensures { IsTarget message_type.now number result }
{
    match message_type.field_table(number) {
        Some(field) if field.cardinality.is_repeated() => repeated_target(message_type, field),
        Some(field) => value_target(field.kind, field.is_group, field.oneof),
        None => Target::Unknown,
    }
}

/// What a record of a repeated field is read as.
fn repeated_target(message_type: &PooledType, field: &FieldTable) -> Target
    ensures { result
        ≡ repeated_target_of (map_parts (pool_rows message_type.now.pool) (field_row field.now))
        (field_row field.now).kind (field_row field.now).is_group }
{
    match message_type.map_parts(field) {
        Some((key, value)) => entry_target(key.kind, value.kind),
        None => element_target(field.kind, field.is_group),
    }
}

/// What a record of a field of one value is read as.
fn value_target(kind: TableKind, is_group: bool, oneof: Option<usize>) -> Target
    ensures { result ≡ target_of kind is_group oneof }
{
    match kind {
        TableKind::Message(place) => Target::Message(MessageKind { place, is_group }, oneof),
        _ => Target::Scalar(kind, oneof),
    }
}

/// What a record of a list is read as.
fn element_target(kind: TableKind, is_group: bool) -> Target
    ensures { result ≡ element_target_of kind is_group }
{
    match kind {
        TableKind::Message(place) => Target::Element(MessageKind { place, is_group }),
        TableKind::Enum(_) => Target::Numbers(kind),
        _ => Target::List(kind),
    }
}

/// What a record of a map is read as, by the kinds of its keys and values.
fn entry_target(key: TableKind, kind: TableKind) -> Target
    ensures { result ≡ entry_target_of key kind }
{
    match kind {
        TableKind::Message(place) => Target::MessageEntry(key, place),
        _ => Target::Map(key, kind),
    }
}
