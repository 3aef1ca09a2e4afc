//! The full names of definitions, by the places at which they stand.

ghost use Rattle.std.specs.Prelude.{◌≡◌, map};
ghost use Rattle.prost_reflect_tables.specs.Faults.{enum_names, file_names, message_names, names_of};
ghost use Rattle.prost_reflect_tables.specs.LinkedCatalog.{service_names, value_full_name};
ghost use Rattle.prost_reflect_tables.specs.Orders.{text_at};
ghost use Rattle.prost_reflect_tables.specs.Rows.{enum_value_row};
ghost use Rattle.prost_reflect_base.specs.Below.{files_below, rows_below};

use crate::Base;
use prost_reflect_tables::{EnumValueTable, text_or_empty};

/// The full name of the value at a place, empty where no value stands there.
fn full_name_of_value(values: &[EnumValueTable], place: usize) -> &str
    ensures { result.now ≡ text_at (map (λ v. v.id.full_name) (map enum_value_row values.now)) place }
{
    match values.get(place) {
        Some(value) => value.id.full_name(),
        None => "",
    }
}

/// Full names, empty where nothing stands at the place.
impl<'p> Base<'p> {
    /// The name of the file at a place.
    pub fn file_name(&self, place: usize) -> &'p str
        ensures { result.now ≡ text_at (file_names (files_below self.now)) place }
    {
        match self.pool.files().get(place) {
            Some(file) => text_or_empty(&file.name),
            None => "",
        }
    }

    /// The full name of the message type at a place.
    pub fn message_name(&self, place: usize) -> &'p str
        ensures { result.now ≡ text_at (message_names (rows_below self.now)) place }
    {
        match self.pool.tables().messages.get(place) {
            Some(message) => message.id.full_name(),
            None => "",
        }
    }

    /// The full name of the enum at a place.
    pub fn enum_name(&self, place: usize) -> &'p str
        ensures { result.now ≡ text_at (enum_names (rows_below self.now)) place }
    {
        match self.pool.tables().enums.get(place) {
            Some(declared) => declared.id.full_name(),
            None => "",
        }
    }

    /// The full name of the value of an enum, at the place of the enum and its place among the values of that enum.
    pub fn value_name(&self, place: (usize, usize)) -> &'p str
        ensures { result.now ≡ value_full_name (rows_below self.now) place }
    {
        match self.pool.tables().enums.get(place.0) {
            Some(declared) => full_name_of_value(declared.values.as_slice(), place.1),
            None => "",
        }
    }

    /// The full name of the extension at a place.
    pub fn extension_name(&self, place: usize) -> &'p str
        ensures { result.now ≡ text_at (names_of (rows_below self.now).extensions) place }
    {
        if place < self.pool.extension_count() {
            self.pool.extension_field(place).id.full_name()
        } else {
            ""
        }
    }

    /// The full name of the service at a place.
    pub fn service_name(&self, place: usize) -> &'p str
        ensures { result.now ≡ text_at (service_names (rows_below self.now)) place }
    {
        match self.pool.catalog().services.get(place) {
            Some(service) => service.id.full_name(),
            None => "",
        }
    }
}
