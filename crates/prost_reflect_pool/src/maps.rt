//! The keys and values of map fields.

ghost use Rattle.std.specs.Prelude.{◌≡◌, map, option_map};
ghost use Rattle.prost_reflect_tables.specs.Rows.{field_row};
ghost use Rattle.prost_reflect_pool.specs.MapParts.{two_of};

use crate::LinkedPool;
use prost_reflect_tables::{Cardinality, FieldTable};

impl LinkedPool {
    ghost use Rattle.prost_reflect_pool.specs.MapParts.{map_parts};
    ghost use Rattle.prost_reflect_pool.specs.Pools.{pool_rows};

    /// The rows of the key and the value of a field's entries, or none where the field is no map.
    pub fn map_parts<'a>(&'a self, field: &FieldTable) -> Option<(&'a FieldTable, &'a FieldTable)>
        ensures { option_map (λ parts. (field_row parts.0.now, field_row parts.1.now)) result
            ≡ map_parts (pool_rows self.now) (field_row field.now) }
    {
        match field.cardinality {
            Cardinality::Repeated => match self.tables.entry_of(field) {
                Some(entry) => two_of(entry.fields.as_slice()),
                None => None,
            },
            Cardinality::Optional | Cardinality::Required => None,
        }
    }
}

/// The first two rows, which are those of an entry's key and value.
fn two_of(fields: &[FieldTable]) -> Option<(&FieldTable, &FieldTable)>
    ensures { option_map (λ parts. (field_row parts.0.now, field_row parts.1.now)) result ≡ two_of (map field_row fields.now) }
{
    match fields {
        [key, value, ..] => Some((key, value)),
        _ => None,
    }
}
