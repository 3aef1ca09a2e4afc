//! What is known of the number of a record.

ghost use Rattle.std.specs.Prelude.{◌≡◌};
ghost use Rattle.prost_reflect_tables.specs.Rows.{field_row};
ghost use Rattle.prost_reflect_tables.specs.Schema.{rows_of};
ghost use Rattle.prost_reflect_tables.specs.Shown.{schema_field};
ghost use Rattle.prost_reflect_faults.specs.Searching.{IsField, InsideThere, LookedUp};

use prost_reflect_tables::{Cardinality, FieldTable, Tables};

/// Where the numbers of records are looked up.
#[derive(Clone, Copy)]
pub(crate) enum Inside<'a> {
    /// Among the fields of the message type at a place of the tables.
    Message(usize),
    /// In the entry of a map, whose key and value are of the types of these rows.
    Entry(&'a FieldTable, &'a FieldTable),
    /// Nowhere, as in an unknown group.
    Nothing,
}

/// What is known in a body: where its numbers are looked up, how many levels may be opened in it, and of a group the number
/// whose end key ends it.
#[derive(Clone, Copy)]
pub(crate) struct Region<'a> {
    pub(crate) inside: Inside<'a>,
    pub(crate) levels: u32,
    pub(crate) open_group: Option<u32>,
}

/// The field of a number. Its values are of the type of a row.
#[derive(Clone, Copy)]
pub(crate) enum Known<'a> {
    /// One of a single value.
    One(&'a FieldTable),
    /// A list.
    List(&'a FieldTable),
    /// A map, whose keys are of the type of the first row, and its values of the second.
    Map(&'a FieldTable, &'a FieldTable),
}

/// The field that a row is.
fn known_as<'a>(tables: &'a Tables, field: &'a FieldTable) -> Known<'a>
    ensures { IsField (rows_of tables.now) result (schema_field (rows_of tables.now) (field_row field.now)) }
{
    match field.cardinality {
        Cardinality::Repeated => match tables.entry_of(field) {
            Some(entry) => Known::Map(entry.part_or(0, field), entry.part_or(1, field)),
            None => Known::List(field),
        },
        Cardinality::Optional | Cardinality::Required => Known::One(field),
    }
}

/// The field of a number.
pub(crate) fn known_inside<'a>(
    tables: &'a Tables,
    inside: Inside<'a>,
    number: u32,
) -> Option<Known<'a>>
    requires { InsideThere (rows_of tables.now) inside }
    ensures { LookedUp (rows_of tables.now) inside.entry number result }
{
    match inside {
        Inside::Message(place) => match tables.field_table(place, number) {
            Some(field) => Some(known_as(tables, field)),
            None => None,
        },
        Inside::Entry(key, value) => match number {
            1 => Some(Known::One(key)),
            2 => Some(Known::One(value)),
            _ => None,
        },
        Inside::Nothing => None,
    }
}
