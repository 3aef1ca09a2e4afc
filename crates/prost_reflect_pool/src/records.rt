//! The records of a pool's definitions, found by their paths.

ghost use Rattle.std.specs.Prelude.{◌≡◌, ◌<◌, length, option_map, option_and_then, slice_get, Some};
ghost use Rattle.prost_reflect_tables.specs.CatalogRows.{service_table_row, method_table_row};
ghost use Rattle.prost_reflect_tables.specs.Places.{fields_at};
ghost use Rattle.prost_reflect_tables.specs.Rows.{identity_row, field_row, enum_value_row};
ghost use Rattle.prost_reflect_pool.specs.Enums.{values_at};
ghost use Rattle.prost_reflect_pool.specs.Pools.{files_of, pool_rows, pool_catalog};
ghost use Rattle.prost_reflect_pool.specs.RecordPaths.{MessageRecord, FieldRecord, OneofRecord, EnumRecord, ValueRecord, ServiceRecord, MethodRecord, item, in_file, in_message, in_enum, in_service, member, record_below, record_of, oneofs_at, methods_at, Found};
ghost use Rattle.prost_reflect_pool.specs.RecordViews.{record_view};

use crate::LinkedPool;
use prost_reflect_tables::{EnumValueTable, FieldTable, Identity, MethodTable, ServiceTable};
use prost_reflect_types::{
    DescriptorProto, EnumDescriptorProto, EnumValueDescriptorProto, FieldDescriptorProto,
    FileDescriptorProto, MethodDescriptorProto, OneofDescriptorProto, ServiceDescriptorProto,
};

/// A record that a path can name.
#[derive(Clone, Copy)]
pub(crate) enum AnyRecord<'a> {
    File(&'a FileDescriptorProto),
    Message(&'a DescriptorProto),
    Field(&'a FieldDescriptorProto),
    Oneof(&'a OneofDescriptorProto),
    Enum(&'a EnumDescriptorProto),
    Value(&'a EnumValueDescriptorProto),
    Service(&'a ServiceDescriptorProto),
    Method(&'a MethodDescriptorProto),
}

/// The item at a place of a list, or none where the place is negative or past the end.
fn item<R>(list: &[R], place: i32) -> Option<&R>
    ensures { option_map (λ r. r.now) result ≡ item list.now place }
{
    match usize::try_from(place) {
        Ok(place) => list.get(place),
        Err(_) => None,
    }
}

fn in_file(file: &FileDescriptorProto, number: i32, place: i32) -> Option<AnyRecord<'_>>
    ensures { option_map record_view result ≡ in_file file.now number place }
{
    match number {
        4 => item(file.message_type.as_slice(), place).map(|m| AnyRecord::Message(m)),
        5 => item(file.enum_type.as_slice(), place).map(|e| AnyRecord::Enum(e)),
        6 => item(file.service.as_slice(), place).map(|s| AnyRecord::Service(s)),
        7 => item(file.extension.as_slice(), place).map(|f| AnyRecord::Field(f)),
        _ => None,
    }
}

fn in_message(message: &DescriptorProto, number: i32, place: i32) -> Option<AnyRecord<'_>>
    ensures { option_map record_view result ≡ in_message message.now number place }
{
    match number {
        2 => item(message.field.as_slice(), place).map(|f| AnyRecord::Field(f)),
        3 => item(message.nested_type.as_slice(), place).map(|m| AnyRecord::Message(m)),
        4 => item(message.enum_type.as_slice(), place).map(|e| AnyRecord::Enum(e)),
        6 => item(message.extension.as_slice(), place).map(|f| AnyRecord::Field(f)),
        8 => item(message.oneof_decl.as_slice(), place).map(|o| AnyRecord::Oneof(o)),
        _ => None,
    }
}

fn in_enum(e: &EnumDescriptorProto, number: i32, place: i32) -> Option<AnyRecord<'_>>
    ensures { option_map record_view result ≡ in_enum e.now number place }
{
    match number {
        2 => item(e.value.as_slice(), place).map(|v| AnyRecord::Value(v)),
        _ => None,
    }
}

fn in_service(service: &ServiceDescriptorProto, number: i32, place: i32) -> Option<AnyRecord<'_>>
    ensures { option_map record_view result ≡ in_service service.now number place }
{
    match number {
        2 => item(service.method.as_slice(), place).map(|m| AnyRecord::Method(m)),
        _ => None,
    }
}

/// The record at a place of the list that a record has as its field of a number.
fn member<'a>(start: AnyRecord<'a>, number: i32, place: i32) -> Option<AnyRecord<'a>>
    ensures { option_map record_view result ≡ member number place (record_view start.entry) }
{
    match start {
        AnyRecord::File(file) => in_file(file, number, place),
        AnyRecord::Message(message) => in_message(message, number, place),
        AnyRecord::Enum(e) => in_enum(e, number, place),
        AnyRecord::Service(service) => in_service(service, number, place),
        AnyRecord::Field(_) | AnyRecord::Oneof(_) | AnyRecord::Value(_) | AnyRecord::Method(_) =>
            None,
    }
}

/// The record that a path names below a record.
fn record_below<'a>(start: AnyRecord<'a>, path: &[i32]) -> Option<AnyRecord<'a>>
    ensures { option_map record_view result ≡ record_below (Some (record_view start.entry)) path.now }
{
    match path {
        [] => Some(start),
        [_] => None,
        [number, place, rest @ ..] => {
            let number = *number;
            let place = *place;
            match member(start, number, place) {
                Some(inner) => record_below(inner, rest),
                None => None,
            }
        }
    }
}

fn the_message(found: Option<AnyRecord<'_>>) -> &DescriptorProto
    requires { Found MessageRecord (option_map record_view found) }
    ensures { option_map record_view found.entry ≡ Some (MessageRecord result.now) }
{
    match found {
        Some(AnyRecord::Message(message)) => message,
        _ => unreachable!(),
    }
}

fn the_field(found: Option<AnyRecord<'_>>) -> &FieldDescriptorProto
    requires { Found FieldRecord (option_map record_view found) }
    ensures { option_map record_view found.entry ≡ Some (FieldRecord result.now) }
{
    match found {
        Some(AnyRecord::Field(field)) => field,
        _ => unreachable!(),
    }
}

fn the_oneof(found: Option<AnyRecord<'_>>) -> &OneofDescriptorProto
    requires { Found OneofRecord (option_map record_view found) }
    ensures { option_map record_view found.entry ≡ Some (OneofRecord result.now) }
{
    match found {
        Some(AnyRecord::Oneof(oneof)) => oneof,
        _ => unreachable!(),
    }
}

fn the_enum(found: Option<AnyRecord<'_>>) -> &EnumDescriptorProto
    requires { Found EnumRecord (option_map record_view found) }
    ensures { option_map record_view found.entry ≡ Some (EnumRecord result.now) }
{
    match found {
        Some(AnyRecord::Enum(e)) => e,
        _ => unreachable!(),
    }
}

fn the_value(found: Option<AnyRecord<'_>>) -> &EnumValueDescriptorProto
    requires { Found ValueRecord (option_map record_view found) }
    ensures { option_map record_view found.entry ≡ Some (ValueRecord result.now) }
{
    match found {
        Some(AnyRecord::Value(value)) => value,
        _ => unreachable!(),
    }
}

fn the_service(found: Option<AnyRecord<'_>>) -> &ServiceDescriptorProto
    requires { Found ServiceRecord (option_map record_view found) }
    ensures { option_map record_view found.entry ≡ Some (ServiceRecord result.now) }
{
    match found {
        Some(AnyRecord::Service(service)) => service,
        _ => unreachable!(),
    }
}

fn the_method(found: Option<AnyRecord<'_>>) -> &MethodDescriptorProto
    requires { Found MethodRecord (option_map record_view found) }
    ensures { option_map record_view found.entry ≡ Some (MethodRecord result.now) }
{
    match found {
        Some(AnyRecord::Method(method)) => method,
        _ => unreachable!(),
    }
}

fn field_at(pool: &LinkedPool, message: usize, field: usize) -> &FieldTable
    requires message { message < length (pool_rows pool.now).messages }
    requires field { field < length (fields_at (pool_rows pool.now) message) }
    ensures { slice_get (fields_at (pool_rows pool.now) message) field ≡ Some (field_row result.now) }
{
    &pool.tables.field_tables(message)[field]
}

fn value_at(pool: &LinkedPool, e: usize, value: usize) -> &EnumValueTable
    requires e { e < length (pool_rows pool.now).enums }
    requires value { value < length (values_at (pool_rows pool.now) e) }
    ensures { slice_get (values_at (pool_rows pool.now) e) value ≡ Some (enum_value_row result.now) }
{
    &pool.enum_table(e).values[value]
}

fn service_at(pool: &LinkedPool, service: usize) -> &ServiceTable
    requires { service < length (pool_catalog pool.now).services }
    ensures { slice_get (pool_catalog pool.now).services service ≡ Some (service_table_row result.now) }
{
    &pool.catalog.services[service]
}

fn method_at(pool: &LinkedPool, service: usize, method: usize) -> &MethodTable
    requires service { service < length (pool_catalog pool.now).services }
    requires method { method < length (methods_at (pool_catalog pool.now) service) }
    ensures { slice_get (methods_at (pool_catalog pool.now) service) method ≡ Some (method_table_row result.now) }
{
    &service_at(pool, service).methods[method]
}

impl LinkedPool {
    /// The record that a path names in a file.
    fn record_of(&self, id: &Identity) -> Option<AnyRecord<'_>>
        ensures { option_map record_view result ≡ record_of (files_of self.now) (identity_row id.now) }
    {
        match self.files.get(id.file) {
            Some(file) => record_below(AnyRecord::File(file), id.path.as_slice()),
            None => None,
        }
    }

    /// The record of the file at a place.
    pub fn file_record(&self, index: usize) -> &FileDescriptorProto
        requires { index < length (files_of self.now) }
        ensures { slice_get (files_of self.now) index ≡ Some result.now }
    {
        &self.files[index]
    }
    /// The record of the message type at a place.
    pub fn message_record(&self, index: usize) -> &DescriptorProto
        requires { index < length (pool_rows self.now).messages }
        ensures { option_and_then (λ m. record_of (files_of self.now) m.id)
            (slice_get (pool_rows self.now).messages index)
            ≡ Some (MessageRecord result.now) }
    {
        the_message(self.record_of(&self.message_table(index).id))
    }

    /// The record of the field or extension at a place among those of a message type.
    pub fn field_record(&self, message: usize, field: usize) -> &FieldDescriptorProto
        requires message { message < length (pool_rows self.now).messages }
        requires field { field < length (fields_at (pool_rows self.now) message) }
        ensures { option_and_then (λ f. record_of (files_of self.now) f.id)
            (slice_get (fields_at (pool_rows self.now) message) field)
            ≡ Some (FieldRecord result.now) }
    {
        the_field(self.record_of(&field_at(self, message, field).id))
    }

    /// The record of the oneof at a place among those of a message type.
    pub fn oneof_record(&self, message: usize, oneof: usize) -> &OneofDescriptorProto
        requires message { message < length (pool_rows self.now).messages }
        requires oneof { oneof < length (oneofs_at (pool_rows self.now) message) }
        ensures { option_and_then (λ o. record_of (files_of self.now) o.id)
            (slice_get (oneofs_at (pool_rows self.now) message) oneof)
            ≡ Some (OneofRecord result.now) }
    {
        the_oneof(self.record_of(&self.oneof_table(message, oneof).id))
    }

    /// The record of the enum at a place.
    pub fn enum_record(&self, index: usize) -> &EnumDescriptorProto
        requires { index < length (pool_rows self.now).enums }
        ensures { option_and_then (λ e. record_of (files_of self.now) e.id) (slice_get (pool_rows self.now).enums index)
            ≡ Some (EnumRecord result.now) }
    {
        the_enum(self.record_of(&self.enum_table(index).id))
    }

    /// The record of the value at a place among those of an enum.
    pub fn value_record(&self, e: usize, value: usize) -> &EnumValueDescriptorProto
        requires e { e < length (pool_rows self.now).enums }
        requires value { value < length (values_at (pool_rows self.now) e) }
        ensures { option_and_then (λ v. record_of (files_of self.now) v.id)
            (slice_get (values_at (pool_rows self.now) e) value)
            ≡ Some (ValueRecord result.now) }
    {
        the_value(self.record_of(&value_at(self, e, value).id))
    }

    /// The record of the service at a place.
    pub fn service_record(&self, index: usize) -> &ServiceDescriptorProto
        requires { index < length (pool_catalog self.now).services }
        ensures { option_and_then (λ s. record_of (files_of self.now) s.id)
            (slice_get (pool_catalog self.now).services index)
            ≡ Some (ServiceRecord result.now) }
    {
        the_service(self.record_of(&service_at(self, index).id))
    }

    /// The record of the method at a place among those of a service.
    pub fn method_record(&self, service: usize, method: usize) -> &MethodDescriptorProto
        requires service { service < length (pool_catalog self.now).services }
        requires method { method < length (methods_at (pool_catalog self.now) service) }
        ensures { option_and_then (λ m. record_of (files_of self.now) m.id)
            (slice_get (methods_at (pool_catalog self.now) service) method)
            ≡ Some (MethodRecord result.now) }
    {
        the_method(self.record_of(&method_at(self, service, method).id))
    }
}
