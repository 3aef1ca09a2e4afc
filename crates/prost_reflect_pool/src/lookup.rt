//! Places of definitions by their names and numbers, found by binary search in the catalog.

ghost use Rattle.std.specs.Prelude.{◌≡◌, ◌<◌, ◌==◌, IfSome, find, length, map};
ghost use Rattle.std.specs.List.{list_any};
ghost use Rattle.std.specs.Option.{is_some};
ghost use Rattle.std.specs.Str.{bytes_eq};
ghost use Rattle.std.specs.Ordering.{is_eq, ordering_index};
ghost use Rattle.std.specs.declared.cmp.Ordering.{Ordering};
ghost use Rattle.std.specs.List.Sorted.{IsNonDecreasingBy};
ghost use Rattle.prost_reflect_tables.specs.Walks.{Computes};
ghost use Rattle.prost_reflect_tables.specs.LinkedCatalog.{field_names, json_names, own_fields, ordered};
ghost use Rattle.prost_reflect_tables.specs.Orders.{text_at, text_in, number_at, by_text, by_number};
ghost use Rattle.prost_reflect_tables.specs.Gathered.{all_places};
ghost use Rattle.prost_reflect_tables.specs.Places.{fields_at, message_place};
ghost use Rattle.prost_reflect_tables.specs.Rows.{field_row, enum_value_row};
ghost use Rattle.prost_reflect_tables.specs.Faults.{file_names};
ghost use Rattle.prost_reflect_pool.specs.Enums.{values_at};
ghost use Rattle.prost_reflect_pool.specs.Lookups.{enum_place, service_place, file_place, extension_name, extension_place, extension_where, named_field, json_named_field, named_value, numbered_value, value_place};
ghost use Rattle.prost_reflect_pool.specs.Pools.{files_of, pool_rows, pool_catalog};

use crate::LinkedPool;
use prost_reflect_tables::{EnumValueTable, FieldTable, text_or_empty};
use std::cmp::Ordering;

/// The first of the places that compares as equal to what is looked for, where all that compare as less stand before it and all
/// that compare as greater behind it.
fn first_equal<T: Copy, C: Fn(&T) -> Ordering>(places: &[T], compare: &C) -> Option<T>
    requires { C.IsAlwaysCallable compare.now }
    ensures { (order : T → Ordering) → Computes C.Fn compare.now order
        → IsNonDecreasingBy (λ p. ordering_index (order p)) places.now
        → result ≡ find (λ p. is_eq (order p)) places.now }
{
    let mut low = 0;
    let mut high = places.len();
    while low < high {
        let middle = low + (high - low) / 2;
        if compare(&places[middle]).is_lt() {
            low = middle + 1;
        } else {
            high = middle;
        }
    }
    match places.get(low) {
        Some(place) => {
            let order = compare(place);
            if order.is_eq() { Some(*place) } else { None }
        }
        None => None,
    }
}

fn field_name(fields: &[FieldTable], place: usize) -> &str
    ensures { result.now ≡ text_at (field_names (map field_row fields.now)) place }
{
    match fields.get(place) {
        Some(field) => field.id.name(),
        None => "",
    }
}

fn json_name(fields: &[FieldTable], place: usize) -> &str
    ensures { result.now ≡ text_at (json_names (map field_row fields.now)) place }
{
    match fields.get(place) {
        Some(field) => field.json_name(),
        None => "",
    }
}

fn value_name(values: &[EnumValueTable], place: usize) -> &str
    ensures { result.now ≡ text_at (map (λ v. v.id.name) (map enum_value_row values.now)) place }
{
    match values.get(place) {
        Some(value) => value.id.name(),
        None => "",
    }
}

fn value_full_name(values: &[EnumValueTable], place: usize) -> &str
    ensures { result.now ≡ text_at (map (λ v. v.id.full_name) (map enum_value_row values.now)) place }
{
    match values.get(place) {
        Some(value) => value.id.full_name(),
        None => "",
    }
}

fn value_number(values: &[EnumValueTable], place: usize) -> i32
    ensures { result ≡ number_at (map (λ v. v.number) (map enum_value_row values.now)) place }
{
    match values.get(place) {
        Some(value) => value.number,
        None => 0,
    }
}

fn named_among(fields: &[FieldTable], places: &[usize], name: &str) -> Option<usize>
    requires { places.now ≡ by_text (field_names (map field_row fields.now)) (own_fields (map field_row fields.now)) }
    ensures { result ≡ named_field (map field_row fields.now) name.now }
{
    let compare = |place: &usize| field_name(fields, *place).cmp(name);
    first_equal(places, &compare)
}

fn json_named_among(fields: &[FieldTable], places: &[usize], name: &str) -> Option<usize>
    requires { places.now ≡ by_text (json_names (map field_row fields.now)) (own_fields (map field_row fields.now)) }
    ensures { result ≡ json_named_field (map field_row fields.now) name.now }
{
    let compare = |place: &usize| json_name(fields, *place).cmp(name);
    first_equal(places, &compare)
}

fn value_named_among(values: &[EnumValueTable], places: &[usize], name: &str) -> Option<usize>
    requires { places.now ≡ ordered (map (λ v. v.id.name) (map enum_value_row values.now)) }
    ensures { result ≡ named_value (map enum_value_row values.now) name.now }
{
    let compare = |place: &usize| value_name(values, *place).cmp(name);
    first_equal(places, &compare)
}

fn numbered_among(values: &[EnumValueTable], places: &[usize], number: i32) -> Option<usize>
    requires { let numbers = map (λ v. v.number) (map enum_value_row values.now) in places.now ≡ by_number numbers (all_places numbers) }
    ensures { result ≡ numbered_value (map enum_value_row values.now) number }
{
    let compare = |place: &usize| value_number(values, *place).cmp(&number);
    first_equal(places, &compare)
}

/// Full names, empty where nothing stands.
impl LinkedPool {
    fn file_name(&self, place: usize) -> &str
        ensures { result.now ≡ text_at (file_names (files_of self.now)) place }
    {
        match self.files.get(place) {
            Some(file) => text_or_empty(&file.name),
            None => "",
        }
    }

    fn message_name(&self, place: usize) -> &str
        ensures { result.now ≡ text_at (map (λ m. m.id.full_name) (pool_rows self.now).messages) place }
    {
        match self.tables.messages.get(place) {
            Some(message) => message.id.full_name(),
            None => "",
        }
    }

    fn enum_name(&self, place: usize) -> &str
        ensures { result.now ≡ text_at (map (λ e. e.id.full_name) (pool_rows self.now).enums) place }
    {
        match self.tables.enums.get(place) {
            Some(declared) => declared.id.full_name(),
            None => "",
        }
    }

    fn value_name(&self, place: (usize, usize)) -> &str
        ensures { result.now ≡ text_in (map (λ e. map (λ v. v.id.full_name) e.values) (pool_rows self.now).enums) place }
    {
        match self.tables.enums.get(place.0) {
            Some(declared) => value_full_name(declared.values.as_slice(), place.1),
            None => "",
        }
    }

    fn extension_name(&self, place: usize) -> &str
        ensures { result.now ≡ text_at (map (extension_name (pool_rows self.now)) (pool_catalog self.now).extensions) place }
    {
        if place < self.extension_count() {
            self.extension_field(place).id.full_name()
        } else {
            ""
        }
    }

    fn service_name(&self, place: usize) -> &str
        ensures { result.now ≡ text_at (map (λ s. s.id.full_name) (pool_catalog self.now).services) place }
    {
        match self.catalog.services.get(place) {
            Some(service) => service.id.full_name(),
            None => "",
        }
    }
}

/// Definitions by their full names.
impl LinkedPool {
    /// The place of the file of a name, or none where no file has it.
    pub fn file_place(&self, name: &str) -> Option<usize>
        ensures { result ≡ file_place (files_of self.now) name.now }
    {
        let compare = |place: &usize| self.file_name(*place).cmp(name);
        first_equal(self.catalog.by_name.files.as_slice(), &compare)
    }

    /// The place of the message type of a full name, or none where no message type has it.
    pub fn message_place(&self, full_name: &str) -> Option<usize>
        ensures { result ≡ message_place (pool_rows self.now) full_name.now }
    {
        let compare = |place: &usize| self.message_name(*place).cmp(full_name);
        first_equal(self.catalog.by_name.messages.as_slice(), &compare)
    }

    /// The place of the enum of a full name, or none where no enum has it.
    pub fn enum_place(&self, full_name: &str) -> Option<usize>
        ensures { result ≡ enum_place (pool_rows self.now) full_name.now }
    {
        let compare = |place: &usize| self.enum_name(*place).cmp(full_name);
        first_equal(self.catalog.by_name.enums.as_slice(), &compare)
    }

    /// The place of the enum of the first value of a full name, by enum and then by declaration, and the place of that value in its
    /// enum, or none where no value has the name. Full names of values stand in the scope around their enum.
    pub fn value_place(&self, full_name: &str) -> Option<(usize, usize)>
        ensures found { result ≡ value_place (pool_rows self.now) full_name.now }
        ensures there { IfSome result (λ p. p.1 < length (values_at (pool_rows self.now) p.0)) }
        ensures known { is_some result
            ≡ list_any (λ e. list_any (λ v. bytes_eq full_name.now v.id.full_name) e.values)
            (pool_rows self.now).enums }
    {
        let compare = |place: &(usize, usize)| self.value_name(*place).cmp(full_name);
        first_equal(self.catalog.by_name.values.as_slice(), &compare)
    }

    /// The place of the extension of a full name, or none where no extension has it.
    pub fn extension_place(&self, full_name: &str) -> Option<usize>
        ensures { result ≡ extension_place (pool_rows self.now) (pool_catalog self.now) full_name.now }
    {
        let compare = |place: &usize| self.extension_name(*place).cmp(full_name);
        first_equal(self.catalog.by_name.extensions.as_slice(), &compare)
    }

    /// The place of the service of a full name, or none where no service has it.
    pub fn service_place(&self, full_name: &str) -> Option<usize>
        ensures { result ≡ service_place (pool_catalog self.now) full_name.now }
    {
        let compare = |place: &usize| self.service_name(*place).cmp(full_name);
        first_equal(self.catalog.by_name.services.as_slice(), &compare)
    }
}

/// Fields of a message type and values of an enum.
impl LinkedPool {
    /// The values of the enum at a place, in the order of their declaration.
    fn values(&self, index: usize) -> &[EnumValueTable]
        requires { index < length (pool_rows self.now).enums }
        ensures { map enum_value_row result.now ≡ values_at (pool_rows self.now) index }
    {
        self.enum_table(index).values.as_slice()
    }

    /// The place of the first field of a name in the message type at a place, or none where no field has it. Extensions do not
    /// count.
    pub fn field_place_by_name(&self, message: usize, name: &str) -> Option<usize>
        requires { message < length (pool_rows self.now).messages }
        ensures { result ≡ named_field (fields_at (pool_rows self.now) message) name.now }
    {
        let lists = self.message_lists(message);
        named_among(
            self.tables.field_tables(message),
            lists.by_name.as_slice(),
            name,
        )
    }

    /// The place of the field of a name in JSON in the message type at a place, or none where no field has it; of several, that
    /// of the least number. Extensions do not count.
    pub fn field_place_by_json_name(&self, message: usize, name: &str) -> Option<usize>
        requires { message < length (pool_rows self.now).messages }
        ensures { result ≡ json_named_field (fields_at (pool_rows self.now) message) name.now }
    {
        let lists = self.message_lists(message);
        json_named_among(
            self.tables.field_tables(message),
            lists.by_json_name.as_slice(),
            name,
        )
    }

    /// The place of the first value of a name in the enum at a place, or none where no value has it.
    pub fn value_place_by_name(&self, index: usize, name: &str) -> Option<usize>
        requires { index < length (pool_rows self.now).enums }
        ensures { result ≡ named_value (values_at (pool_rows self.now) index) name.now }
    {
        let lists = self.enum_lists(index);
        value_named_among(self.values(index), lists.by_name.as_slice(), name)
    }

    /// The place of the first value of a number in the enum at a place, or none where no value has it.
    pub fn value_place_by_number(&self, index: usize, number: i32) -> Option<usize>
        requires { index < length (pool_rows self.now).enums }
        ensures { result ≡ numbered_value (values_at (pool_rows self.now) index) number }
    {
        let lists = self.enum_lists(index);
        numbered_among(self.values(index), lists.by_number.as_slice(), number)
    }
}

/// Extensions of a message type.
impl LinkedPool {
    /// The place of the extension of a number of the message type at a place, or none where no extension of it has the number.
    pub fn extension_place_by_number(&self, message: usize, number: u32) -> Option<usize>
        requires { message < length (pool_rows self.now).messages }
        ensures found { result ≡ extension_where self.now message (λ f. f.number == number) }
        ensures there { IfSome result (λ i. i < length (pool_catalog self.now).extensions) }
    {
        let field = self.tables.field_table(message, number)?;
        if field.is_extension {
            self.extension_place_by_full_name(message, field.id.full_name())
        } else {
            None
        }
    }

    /// The place of the extension of a full name of the message type at a place, or none where no extension of it has the name.
    pub fn extension_place_by_full_name(&self, message: usize, full_name: &str) -> Option<usize>
        requires { message < length (pool_rows self.now).messages }
        ensures found { result ≡ extension_where self.now message (λ f. bytes_eq f.id.full_name full_name.now) }
        ensures there { IfSome result (λ i. i < length (pool_catalog self.now).extensions) }
    {
        let place = self.extension_place(full_name)?;
        let extension = self.extension_table(place);
        if extension.message == message {
            Some(place)
        } else {
            None
        }
    }

    /// The place of the extension of a name in JSON, which is its full name in brackets, of the message type at a place, or none
    /// where no extension of it has the name.
    pub fn extension_place_by_json_name(&self, message: usize, json_name: &str) -> Option<usize>
        requires { message < length (pool_rows self.now).messages }
        ensures found { result ≡ extension_where self.now message (λ f. bytes_eq f.json_name json_name.now) }
        ensures there { IfSome result (λ i. i < length (pool_catalog self.now).extensions) }
    {
        let rest = json_name.strip_prefix("[")?;
        let full_name = rest.strip_suffix("]")?;
        self.extension_place_by_full_name(message, full_name)
    }
}
