//! What fields are and have by their rows, and by those of the types that they name.

ghost use Rattle.std.specs.Prelude.{◌≡◌, Bool, List, None, option_map, slice_get};
ghost use Rattle.prost_reflect_wire.specs.Scalar.{EnumNumber, kind_default};
ghost use Rattle.prost_reflect_tables.specs.Rows.{EnumRow, enum_row, field_row, message_row, value_numbers};
ghost use Rattle.prost_reflect_tables.specs.Scalars.{scalar_of};
ghost use Rattle.prost_reflect_tables.specs.Schema.{rows_of};
ghost use Rattle.prost_reflect_tables.specs.Shown.{enum_kind, first_number, map_entry, own_type, schema_default, schema_kind, type_or};
ghost use Rattle.prost_reflect_tables.specs.declared.tables.Cardinality.TheVariants.{Repeated as RepeatedLabel};

use crate::scalar::ScalarRef;
use crate::tables::{EnumTable, FieldTable, MessageTable, TableKind, Tables};

impl EnumTable {
    /// The number of the first value.
    pub fn first_number(&self) -> i32
        ensures { result ≡ first_number (value_numbers (enum_row self.now)) }
    {
        match self.values.first() {
            Some(value) => value.number,
            None => 0,
        }
    }
}

impl MessageTable {
    /// Of the type of a map's entries, the field at a place, which is the key or the value; the map itself where there is none.
    pub fn part_or<'a>(&'a self, place: usize, map: &'a FieldTable) -> &'a FieldTable
        ensures { (enums : List EnumRow)
            → own_type enums (field_row result.now)
            ≡ type_or enums (field_row map.now) (slice_get (message_row self.now).fields place) }
    {
        match self.fields.get(place) {
            Some(part) => part,
            None => map,
        }
    }
}

impl Tables {
    /// The enum at a place, if there is one.
    pub fn enum_at(&self, place: usize) -> Option<&EnumTable>
        ensures { option_map (λ e. enum_row e.now) result ≡ slice_get (rows_of self.now).enums place }
    {
        self.enums.get(place)
    }

    /// The number of the first value of the enum at a place.
    fn first_number(&self, place: usize) -> i32
        ensures { EnumNumber result ≡ kind_default (enum_kind (slice_get (rows_of self.now).enums place)) }
    {
        match self.enum_at(place) {
            Some(table) => table.first_number(),
            None => 0,
        }
    }

    /// The default of a kind: the first number of an enum, else zero, false or empty. A message's says nothing.
    pub fn kind_default(&self, kind: TableKind) -> ScalarRef<'static>
        ensures { (g : Bool) → scalar_of result ≡ schema_default None (schema_kind (rows_of self.now).enums kind g) }
    {
        match kind {
            TableKind::Enum(place) => ScalarRef::EnumNumber(self.first_number(place)),
            TableKind::Message(_) => ScalarRef::I32(0),
            _ => ScalarRef::zero(kind),
        }
    }

    /// The default of a field's own values: the one that the definition writes, else that of the kind.
    pub fn scalar_default<'a>(&self, field: &'a FieldTable) -> ScalarRef<'a>
        ensures { scalar_of result ≡ (own_type (rows_of self.now).enums (field_row field.now)).default }
    {
        match &field.default {
            Some(default) => ScalarRef::written(default),
            None => self.kind_default(field.kind),
        }
    }

    /// The type of a field's entries, if a repeated field is a map.
    pub fn entry_of(&self, field: &FieldTable) -> Option<&MessageTable>
        ensures { option_map (λ m. message_row m.now) result ≡ map_entry (rows_of self.now).messages (field_row field.now) RepeatedLabel }
    {
        match field.kind {
            TableKind::Message(place) if !field.is_group => match self.messages.get(place) {
                Some(message) if message.is_map_entry => Some(message),
                _ => None,
            },
            _ => None,
        }
    }
}
