//! Definitions by their names and numbers, and what stands at a place.

ghost use Rattle.std.specs.Prelude.{◌≡◌, ◌==◌, [], option_map, slice_get, unwrap_or};
ghost use Rattle.std.specs.List.{list_any};
ghost use Rattle.prost_reflect_tables.specs.EntryFaults.{is_entry_message};
ghost use Rattle.prost_reflect_tables.specs.Faults.{all_numbered, enum_names, file_names, message_names, name_place, same_numbered};
ghost use Rattle.prost_reflect_tables.specs.Linking.{links_of};
ghost use Rattle.prost_reflect_tables.specs.Places.{fields_at};
ghost use Rattle.prost_reflect_tables.specs.WrittenDefaults.{number_named};
ghost use Rattle.prost_reflect_pool.specs.Pools.{pool_rows};
ghost use Rattle.prost_reflect_base.specs.Below.{files_below, rows_below};

use crate::Base;
use prost_reflect_types::ExtensionRange;

/// Places of definitions by their names.
impl Base<'_> {
    /// The place of the first file of a name, or none where no file has it.
    pub fn file_place(&self, name: &str) -> Option<usize>
        ensures { result ≡ name_place (file_names (files_below self.now)) name.now }
    {
        self.pool.file_place(name)
    }

    /// The place of the first message type of a full name, or none where no message type has it.
    pub fn message_place(&self, full_name: &str) -> Option<usize>
        ensures { result ≡ name_place (message_names (rows_below self.now)) full_name.now }
    {
        self.pool.message_place(full_name)
    }

    /// The place of the first enum of a full name, or none where no enum has it.
    pub fn enum_place(&self, full_name: &str) -> Option<usize>
        ensures { result ≡ name_place (enum_names (rows_below self.now)) full_name.now }
    {
        self.pool.enum_place(full_name)
    }
}

/// What stands at a place.
impl<'p> Base<'p> {
    /// The number of the first value of a name in the enum at a place, or none where no value has the name, or no enum stands
    /// there.
    pub fn value_number(&self, enumeration: usize, name: &str) -> Option<i32>
        ensures { result ≡ number_named (unwrap_or (slice_get (links_of (rows_below self.now)).values enumeration) []) name.now }
    {
        if enumeration >= self.pool.enum_count() {
            return None;
        }
        match self.pool.value_place_by_name(enumeration, name) {
            Some(place) => Some(self.pool.enum_table(enumeration).values[place].number),
            None => None,
        }
    }

    /// Whether the message type at a place is that of a map's entries.
    pub fn is_entry(&self, place: usize) -> bool
        ensures { result ≡ is_entry_message (slice_get (rows_below self.now).messages place) }
    {
        place < self.pool.message_count() && self.pool.message_table(place).is_map_entry
    }

    /// The ranges of extension numbers of the message type at a place, or none where no message type stands there.
    pub fn extension_ranges(&self, place: usize) -> Option<&'p [ExtensionRange]>
        ensures { option_map (λ r. r.now) result
            ≡ option_map (λ m. m.definition.proto.extension_range) (slice_get (rows_below self.now).messages place) }
    {
        if place < self.pool.message_count() {
            Some(self.pool.message_record(place).extension_range.as_slice())
        } else {
            None
        }
    }

    /// Whether a row of the message type at a place has the number.
    fn has_row(&self, place: usize, number: u32) -> bool
        ensures { result ≡ list_any (λ f. f.number == number) (fields_at (pool_rows self.now.pool.now) place) }
    {
        place < self.pool.message_count() && self.pool.tables().field_place(place, number).is_some()
    }

    /// Whether a field or an extension of the message type at a place has the number.
    pub fn has_number(&self, place: usize, number: i32) -> bool
        ensures { result ≡ list_any (same_numbered (record { message = place; number = number })) (all_numbered (rows_below self.now)) }
    {
        match u32::try_from(number) {
            Ok(number) => self.has_row(place, number),
            Err(_) => false,
        }
    }
}
