//! What stands at a place of the tables, and the place of a field number.

use crate::tables::{FieldTable, Tables};

impl Tables {
    ghost use Rattle.std.specs.Prelude.{◌≡◌, ◌<◌, length, map, option_map};
    ghost use Rattle.prost_reflect_wire.specs.Schema.{known, field_of};
    ghost use Rattle.prost_reflect_tables.specs.Rows.{field_row};
    ghost use Rattle.prost_reflect_tables.specs.Places.{fields_at, row_of, place_of};
    ghost use Rattle.prost_reflect_tables.specs.Shown.{schema_field};
    ghost use Rattle.prost_reflect_tables.specs.Schema.{rows_of, schema_of};

    /// The fields and extensions of the message type at a place, in ascending order of their numbers.
    pub fn field_tables(&self, message: usize) -> &[FieldTable]
        requires { message < length (rows_of self.now).messages }
        ensures { map field_row result.now ≡ fields_at (rows_of self.now) message }
    {
        &self.messages[message].fields
    }

    /// The place of the field or extension of a number among those of the message type at a place, or none where no field has the
    /// number.
    pub fn field_place(&self, message: usize, number: u32) -> Option<usize>
        requires { message < length (rows_of self.now).messages }
        ensures { result ≡ place_of (fields_at (rows_of self.now) message) number }
    {
        place_among(self.field_tables(message), number)
    }

    /// The field or extension of a number of the message type at a place, or none where no field has the number.
    pub fn field_table(&self, message: usize, number: u32) -> Option<&FieldTable>
        requires { message < length (rows_of self.now).messages }
        ensures row { option_map (λ field. field_row field.now) result ≡ row_of (fields_at (rows_of self.now) message) number }
        ensures field { option_map (λ field. schema_field (rows_of self.now) (field_row field.now)) result
            ≡ field_of (known (schema_of self.now) message) number }
    {
        let fields = self.field_tables(message);
        match place_among(fields, number) {
            Some(place) => Some(&fields[place]),
            None => None,
        }
    }
}

ghost use Rattle.std.specs.Prelude.{◌≡◌, IsTrue, map};
ghost use Rattle.prost_reflect_tables.specs.Rows.{field_row};
ghost use Rattle.prost_reflect_tables.specs.Places.{place_of};
ghost use Rattle.prost_reflect_tables.specs.Linked.{ascending_from};

/// The place of a number among fields of ascending numbers, by binary search.
fn place_among(fields: &[FieldTable], number: u32) -> Option<usize>
    requires { IsTrue (ascending_from 0 (map field_row fields.now)) }
    ensures { result ≡ place_of (map field_row fields.now) number }
{
    let mut low = 0;
    let mut high = fields.len();
    while low < high {
        let middle = low + (high - low) / 2;
        let found = fields[middle].number;
        if found == number {
            return Some(middle);
        }
        if found < number {
            low = middle + 1;
        } else {
            high = middle;
        }
    }
    None
}
