//! Whether a definition has a full name.
//!
//! The full name of a field, a oneof or a method is that of what it stands in, a dot and its own name, which may hold dots too.
//! So the text is cut at each of its dots. A value of an enum stands in the scope around its enum, and is looked up as it is.

ghost use Rattle.std.specs.Prelude.{◌≡◌, ◌<◌, ◌+◌, ◌||◌, [], drop, length, map, slice_index, take};
ghost use Rattle.std.specs.List.{list_any};
ghost use Rattle.std.specs.Str.{bytes_eq};
ghost use Rattle.prost_reflect_tables.specs.CatalogRows.{method_table_row};
ghost use Rattle.prost_reflect_tables.specs.Faults.{enum_names, full_names, message_names, names_of};
ghost use Rattle.prost_reflect_tables.specs.LinkedCatalog.{service_names};
ghost use Rattle.prost_reflect_tables.specs.Rows.{oneof_row};
ghost use Rattle.prost_reflect_base.specs.Below.{rows_below};
ghost use Rattle.prost_reflect_base.specs.Inside.{cut_at_a_dot, has_inside, has_member, has_method};

use crate::Base;
use prost_reflect_tables::{MethodTable, OneofTable};

/// The texts in front of the dot at a place and behind it.
fn around_dot(text: &str, place: usize) -> (&str, &str)
    requires within { place < length text.now }
    requires dot { slice_index text.now place ≡ 46 }
    ensures scope { result.0.now ≡ take place text.now }
    ensures name { result.1.now ≡ drop (place + 1) text.now }
{
    let (scope, _) = text.split_at(place);
    (scope, &text[place + 1..])
}

/// Whether the name is that of a oneof.
fn is_oneof_name(oneofs: &[OneofTable], name: &str) -> bool
    ensures { result ≡ list_any (λ o. bytes_eq name.now o.id.name) (map oneof_row oneofs.now) }
{
    for oneof in oneofs {
        if name == oneof.id.name() {
            return true;
        }
    }
    false
}

/// Whether the name is that of a method.
fn is_method_name(methods: &[MethodTable], name: &str) -> bool
    ensures { result ≡ list_any (λ m. bytes_eq name.now m.id.name) (map method_table_row methods.now) }
{
    for method in methods {
        if name == method.id.name() {
            return true;
        }
    }
    false
}

/// Definitions whose places are in order of their full names.
impl Base<'_> {
    fn has_message(&self, full_name: &str) -> bool
        ensures { result ≡ list_any (bytes_eq full_name.now) (message_names (rows_below self.now)) }
    {
        self.pool.message_place(full_name).is_some()
    }

    fn has_enum(&self, full_name: &str) -> bool
        ensures { result ≡ list_any (bytes_eq full_name.now) (enum_names (rows_below self.now)) }
    {
        self.pool.enum_place(full_name).is_some()
    }

    fn has_value(&self, full_name: &str) -> bool
        ensures { result ≡ list_any (λ e. list_any (bytes_eq full_name.now) (names_of e.values)) (rows_below self.now).enums }
    {
        self.pool.value_place(full_name).is_some()
    }

    fn has_extension(&self, full_name: &str) -> bool
        ensures { result ≡ list_any (bytes_eq full_name.now) (names_of (rows_below self.now).extensions) }
    {
        self.pool.extension_place(full_name).is_some()
    }

    fn has_service(&self, full_name: &str) -> bool
        ensures { result ≡ list_any (bytes_eq full_name.now) (service_names (rows_below self.now)) }
    {
        self.pool.service_place(full_name).is_some()
    }
}

/// Definitions that stand in message types and services.
impl Base<'_> {
    /// Whether the message type of the scope has a field or a oneof of the name.
    fn has_member(&self, scope: &str, name: &str) -> bool
        ensures { result ≡ has_member (rows_below self.now) scope.now name.now }
    {
        match self.message_place(scope) {
            Some(place) => {
                self.pool.field_place_by_name(place, name).is_some()
                    || is_oneof_name(self.pool.message_table(place).oneofs.as_slice(), name)
            }
            None => false,
        }
    }

    /// Whether the service of the scope has a method of the name.
    fn has_method(&self, scope: &str, name: &str) -> bool
        ensures { result ≡ has_method (rows_below self.now) scope.now name.now }
    {
        match self.pool.service_place(scope) {
            Some(place) => is_method_name(self.pool.service_table(place).methods.as_slice(), name),
            None => false,
        }
    }

    /// Whether a field, a oneof or a method has the full name.
    fn has_inside(&self, full_name: &str) -> bool
        ensures { result ≡ cut_at_a_dot (has_inside (rows_below self.now)) [] full_name.now }
    {
        let bytes = full_name.as_bytes();
        for (place, byte) in bytes.iter().enumerate() {
            if *byte == b'.' {
                let (scope, name) = around_dot(full_name, place);
                if self.has_member(scope, name) || self.has_method(scope, name) {
                    return true;
                }
            }
        }
        false
    }
}

/// Definitions of all sorts.
impl Base<'_> {
    /// Whether a definition other than the value of an enum has the full name.
    fn has_name_but_of_values(&self, full_name: &str) -> bool
        ensures { let rows = rows_below self.now in let test = bytes_eq full_name.now in
            result ≡ (list_any test (message_names rows) || list_any test (enum_names rows) || list_any test (names_of rows.extensions)
            || list_any test (service_names rows) || cut_at_a_dot (has_inside rows) [] full_name.now) }
    {
        self.has_message(full_name)
            || self.has_enum(full_name)
            || self.has_extension(full_name)
            || self.has_service(full_name)
            || self.has_inside(full_name)
    }

    /// Whether a definition has the full name: a message type, a field or an extension, a oneof, an enum, a value of an enum, a
    /// service or a method.
    pub fn has_name(&self, full_name: &str) -> bool
        ensures { result ≡ list_any (bytes_eq full_name.now) (full_names (rows_below self.now)) }
    {
        self.has_name_but_of_values(full_name) || self.has_value(full_name)
    }
}
