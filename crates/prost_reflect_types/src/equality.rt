//! Equality of the descriptor records.

ghost use Rattle.std.specs.Prelude.{◌≡◌, ◌↔◌, IsTrue, map};
ghost use Rattle.prost_reflect_wire.specs.ContentEquality.{content_eq, seen_eq_laws};
ghost use Rattle.prost_reflect_types.specs.DescriptorViews.{of_text, of_number, of_flag, of_bytes, of_texts, of_numbers, of_records, of_extension_range, of_reserved_range, of_field, of_oneof, of_enum_reserved_range, of_enum_value, of_enum, of_method, of_service, of_message, of_file, of_file_set};

use crate::content::OwnedRecord;
use crate::{
    DescriptorProto, EnumDescriptorProto, EnumReservedRange, EnumValueDescriptorProto,
    ExtensionRange, FieldDescriptorProto, FileDescriptorProto, FileDescriptorSet,
    MethodDescriptorProto, OneofDescriptorProto, ReservedRange, ServiceDescriptorProto,
};

fn equal_text(a: &Option<String>, b: &Option<String>) -> bool
    ensures { IsTrue result ↔ (of_text a.now ≡ of_text b.now) }
{
    a == b
}

fn equal_number(a: &Option<i32>, b: &Option<i32>) -> bool
    ensures { IsTrue result ↔ (of_number a.now ≡ of_number b.now) }
{
    a == b
}

fn equal_flag(a: &Option<bool>, b: &Option<bool>) -> bool
    ensures { IsTrue result ↔ (of_flag a.now ≡ of_flag b.now) }
{
    a == b
}

fn equal_bytes(a: &Option<Vec<u8>>, b: &Option<Vec<u8>>) -> bool
    ensures { IsTrue result ↔ (of_bytes a.now ≡ of_bytes b.now) }
{
    a == b
}

fn equal_texts(a: &Vec<String>, b: &Vec<String>) -> bool
    ensures { IsTrue result ↔ (of_texts a.now ≡ of_texts b.now) }
{
    a == b
}

fn equal_numbers(a: &Vec<i32>, b: &Vec<i32>) -> bool
    ensures { IsTrue result ↔ (of_numbers a.now ≡ of_numbers b.now) }
{
    a == b
}

fn equal_record<P: OwnedRecord>(a: &P, b: &P) -> bool
    ensures { IsTrue result ↔ (P.content a.now ≡ P.content b.now) }
{
    a == b
}

fn equal_records<P: OwnedRecord>(a: &Vec<P>, b: &Vec<P>) -> bool
    ensures { IsTrue result ↔ (of_records (map P.content a.now.items) ≡ of_records (map P.content b.now.items)) }
{
    if a.len() != b.len() {
        return false;
    }
    for index in 0..a.len() {
        if !equal_record(&a[index], &b[index]) {
            return false;
        }
    }
    true
}

/// Whether all that was compared holds the same. Once two fields differ, the rest is passed over.
#[derive(Drop)]
struct Comparison {
    equal: bool,
}

impl Comparison {
    fn text(&mut self, a: &Option<String>, b: &Option<String>)
        ensures { IsTrue self.new.equal ↔ (IsTrue self.old.equal × (of_text a.now ≡ of_text b.now)) }
    {
        if self.equal {
            self.equal = equal_text(a, b);
        }
    }

    fn number(&mut self, a: &Option<i32>, b: &Option<i32>)
        ensures { IsTrue self.new.equal ↔ (IsTrue self.old.equal × (of_number a.now ≡ of_number b.now)) }
    {
        if self.equal {
            self.equal = equal_number(a, b);
        }
    }

    fn flag(&mut self, a: &Option<bool>, b: &Option<bool>)
        ensures { IsTrue self.new.equal ↔ (IsTrue self.old.equal × (of_flag a.now ≡ of_flag b.now)) }
    {
        if self.equal {
            self.equal = equal_flag(a, b);
        }
    }

    fn bytes(&mut self, a: &Option<Vec<u8>>, b: &Option<Vec<u8>>)
        ensures { IsTrue self.new.equal ↔ (IsTrue self.old.equal × (of_bytes a.now ≡ of_bytes b.now)) }
    {
        if self.equal {
            self.equal = equal_bytes(a, b);
        }
    }

    fn texts(&mut self, a: &Vec<String>, b: &Vec<String>)
        ensures { IsTrue self.new.equal ↔ (IsTrue self.old.equal × (of_texts a.now ≡ of_texts b.now)) }
    {
        if self.equal {
            self.equal = equal_texts(a, b);
        }
    }

    fn numbers(&mut self, a: &Vec<i32>, b: &Vec<i32>)
        ensures { IsTrue self.new.equal ↔ (IsTrue self.old.equal × (of_numbers a.now ≡ of_numbers b.now)) }
    {
        if self.equal {
            self.equal = equal_numbers(a, b);
        }
    }

    fn records<P: OwnedRecord>(&mut self, a: &Vec<P>, b: &Vec<P>)
        ensures { IsTrue self.new.equal
            ↔ (IsTrue self.old.equal
            × (of_records (map P.content a.now.items) ≡ of_records (map P.content b.now.items))) }
    {
        if self.equal {
            self.equal = equal_records(a, b);
        }
    }
}

impl PartialEq for ExtensionRange {
    ghost eq = { λ a b. content_eq (of_extension_range a) (of_extension_range b) };

    ghost laws = { seen_eq_laws of_extension_range };

    /// Whether both hold the same.
    fn eq(&self, other: &ExtensionRange) -> bool
        ensures value { result ≡ content_eq (of_extension_range self.now) (of_extension_range other.now) }
        ensures same { IsTrue result ↔ (of_extension_range self.now ≡ of_extension_range other.now) }
    {
        let mut all = Comparison { equal: true };
        all.number(&self.start, &other.start);
        all.number(&self.end, &other.end);
        all.bytes(&self.options, &other.options);
        all.equal
    }
}

impl PartialEq for ReservedRange {
    ghost eq = { λ a b. content_eq (of_reserved_range a) (of_reserved_range b) };

    ghost laws = { seen_eq_laws of_reserved_range };

    /// Whether both hold the same.
    fn eq(&self, other: &ReservedRange) -> bool
        ensures value { result ≡ content_eq (of_reserved_range self.now) (of_reserved_range other.now) }
        ensures same { IsTrue result ↔ (of_reserved_range self.now ≡ of_reserved_range other.now) }
    {
        let mut all = Comparison { equal: true };
        all.number(&self.start, &other.start);
        all.number(&self.end, &other.end);
        all.equal
    }
}

impl PartialEq for FieldDescriptorProto {
    ghost eq = { λ a b. content_eq (of_field a) (of_field b) };

    ghost laws = { seen_eq_laws of_field };

    /// Whether both hold the same.
    fn eq(&self, other: &FieldDescriptorProto) -> bool
        ensures value { result ≡ content_eq (of_field self.now) (of_field other.now) }
        ensures same { IsTrue result ↔ (of_field self.now ≡ of_field other.now) }
    {
        let mut all = Comparison { equal: true };
        all.text(&self.name, &other.name);
        all.text(&self.extendee, &other.extendee);
        all.number(&self.number, &other.number);
        all.number(&self.label, &other.label);
        all.number(&self.type_, &other.type_);
        all.text(&self.type_name, &other.type_name);
        all.text(&self.default_value, &other.default_value);
        all.bytes(&self.options, &other.options);
        all.number(&self.oneof_index, &other.oneof_index);
        all.text(&self.json_name, &other.json_name);
        all.flag(&self.proto3_optional, &other.proto3_optional);
        all.equal
    }
}

impl PartialEq for OneofDescriptorProto {
    ghost eq = { λ a b. content_eq (of_oneof a) (of_oneof b) };

    ghost laws = { seen_eq_laws of_oneof };

    /// Whether both hold the same.
    fn eq(&self, other: &OneofDescriptorProto) -> bool
        ensures value { result ≡ content_eq (of_oneof self.now) (of_oneof other.now) }
        ensures same { IsTrue result ↔ (of_oneof self.now ≡ of_oneof other.now) }
    {
        let mut all = Comparison { equal: true };
        all.text(&self.name, &other.name);
        all.bytes(&self.options, &other.options);
        all.equal
    }
}

impl PartialEq for EnumReservedRange {
    ghost eq = { λ a b. content_eq (of_enum_reserved_range a) (of_enum_reserved_range b) };

    ghost laws = { seen_eq_laws of_enum_reserved_range };

    /// Whether both hold the same.
    fn eq(&self, other: &EnumReservedRange) -> bool
        ensures value { result ≡ content_eq (of_enum_reserved_range self.now) (of_enum_reserved_range other.now) }
        ensures same { IsTrue result ↔ (of_enum_reserved_range self.now ≡ of_enum_reserved_range other.now) }
    {
        let mut all = Comparison { equal: true };
        all.number(&self.start, &other.start);
        all.number(&self.end, &other.end);
        all.equal
    }
}

impl PartialEq for EnumValueDescriptorProto {
    ghost eq = { λ a b. content_eq (of_enum_value a) (of_enum_value b) };

    ghost laws = { seen_eq_laws of_enum_value };

    /// Whether both hold the same.
    fn eq(&self, other: &EnumValueDescriptorProto) -> bool
        ensures value { result ≡ content_eq (of_enum_value self.now) (of_enum_value other.now) }
        ensures same { IsTrue result ↔ (of_enum_value self.now ≡ of_enum_value other.now) }
    {
        let mut all = Comparison { equal: true };
        all.text(&self.name, &other.name);
        all.number(&self.number, &other.number);
        all.bytes(&self.options, &other.options);
        all.equal
    }
}

impl PartialEq for EnumDescriptorProto {
    ghost eq = { λ a b. content_eq (of_enum a) (of_enum b) };

    ghost laws = { seen_eq_laws of_enum };

    /// Whether both hold the same.
    fn eq(&self, other: &EnumDescriptorProto) -> bool
        ensures value { result ≡ content_eq (of_enum self.now) (of_enum other.now) }
        ensures same { IsTrue result ↔ (of_enum self.now ≡ of_enum other.now) }
    {
        let mut all = Comparison { equal: true };
        all.text(&self.name, &other.name);
        all.records(&self.value, &other.value);
        all.bytes(&self.options, &other.options);
        all.records(&self.reserved_range, &other.reserved_range);
        all.texts(&self.reserved_name, &other.reserved_name);
        all.equal
    }
}

impl PartialEq for MethodDescriptorProto {
    ghost eq = { λ a b. content_eq (of_method a) (of_method b) };

    ghost laws = { seen_eq_laws of_method };

    /// Whether both hold the same.
    fn eq(&self, other: &MethodDescriptorProto) -> bool
        ensures value { result ≡ content_eq (of_method self.now) (of_method other.now) }
        ensures same { IsTrue result ↔ (of_method self.now ≡ of_method other.now) }
    {
        let mut all = Comparison { equal: true };
        all.text(&self.name, &other.name);
        all.text(&self.input_type, &other.input_type);
        all.text(&self.output_type, &other.output_type);
        all.bytes(&self.options, &other.options);
        all.flag(&self.client_streaming, &other.client_streaming);
        all.flag(&self.server_streaming, &other.server_streaming);
        all.equal
    }
}

impl PartialEq for ServiceDescriptorProto {
    ghost eq = { λ a b. content_eq (of_service a) (of_service b) };

    ghost laws = { seen_eq_laws of_service };

    /// Whether both hold the same.
    fn eq(&self, other: &ServiceDescriptorProto) -> bool
        ensures value { result ≡ content_eq (of_service self.now) (of_service other.now) }
        ensures same { IsTrue result ↔ (of_service self.now ≡ of_service other.now) }
    {
        let mut all = Comparison { equal: true };
        all.text(&self.name, &other.name);
        all.records(&self.method, &other.method);
        all.bytes(&self.options, &other.options);
        all.equal
    }
}

impl PartialEq for DescriptorProto {
    ghost eq = { λ a b. content_eq (of_message a) (of_message b) };

    ghost laws = { seen_eq_laws of_message };

    /// Whether both hold the same.
    fn eq(&self, other: &DescriptorProto) -> bool
        ensures value { result ≡ content_eq (of_message self.now) (of_message other.now) }
        ensures same { IsTrue result ↔ (of_message self.now ≡ of_message other.now) }
    {
        equal_message(self, other)
    }
}

#[cycle(message_equality)]
fn equal_message(a: &DescriptorProto, b: &DescriptorProto) -> bool
    ensures { IsTrue result ↔ (of_message a.now ≡ of_message b.now) }
{
    let mut all = Comparison { equal: true };
    all.text(&a.name, &b.name);
    all.records(&a.field, &b.field);
    compare_messages(&mut all, &a.nested_type, &b.nested_type);
    all.records(&a.enum_type, &b.enum_type);
    all.records(&a.extension_range, &b.extension_range);
    all.records(&a.extension, &b.extension);
    all.bytes(&a.options, &b.options);
    all.records(&a.oneof_decl, &b.oneof_decl);
    all.records(&a.reserved_range, &b.reserved_range);
    all.texts(&a.reserved_name, &b.reserved_name);
    all.equal
}

#[cycle(message_equality)]
fn compare_messages(all: &mut Comparison, a: &Vec<DescriptorProto>, b: &Vec<DescriptorProto>)
    ensures { IsTrue all.new.equal
        ↔ (IsTrue all.old.equal × (of_records (map of_message a.now.items) ≡ of_records (map of_message b.now.items))) }
{
    if all.equal {
        all.equal = equal_messages(a, b);
    }
}

#[cycle(message_equality)]
fn equal_messages(a: &Vec<DescriptorProto>, b: &Vec<DescriptorProto>) -> bool
    ensures { IsTrue result ↔ (of_records (map of_message a.now.items) ≡ of_records (map of_message b.now.items)) }
{
    if a.len() != b.len() {
        return false;
    }
    for index in 0..a.len() {
        if !equal_message(&a[index], &b[index]) {
            return false;
        }
    }
    true
}

impl PartialEq for FileDescriptorProto {
    ghost eq = { λ a b. content_eq (of_file a) (of_file b) };

    ghost laws = { seen_eq_laws of_file };

    /// Whether both hold the same.
    fn eq(&self, other: &FileDescriptorProto) -> bool
        ensures value { result ≡ content_eq (of_file self.now) (of_file other.now) }
        ensures same { IsTrue result ↔ (of_file self.now ≡ of_file other.now) }
    {
        let mut all = Comparison { equal: true };
        all.text(&self.name, &other.name);
        all.text(&self.package, &other.package);
        all.texts(&self.dependency, &other.dependency);
        all.records(&self.message_type, &other.message_type);
        all.records(&self.enum_type, &other.enum_type);
        all.records(&self.service, &other.service);
        all.records(&self.extension, &other.extension);
        all.bytes(&self.options, &other.options);
        all.bytes(&self.source_code_info, &other.source_code_info);
        all.numbers(&self.public_dependency, &other.public_dependency);
        all.numbers(&self.weak_dependency, &other.weak_dependency);
        all.text(&self.syntax, &other.syntax);
        all.equal
    }
}

impl PartialEq for FileDescriptorSet {
    ghost eq = { λ a b. content_eq (of_file_set a) (of_file_set b) };

    ghost laws = { seen_eq_laws of_file_set };

    /// Whether both hold the same.
    fn eq(&self, other: &FileDescriptorSet) -> bool
        ensures value { result ≡ content_eq (of_file_set self.now) (of_file_set other.now) }
        ensures same { IsTrue result ↔ (of_file_set self.now ≡ of_file_set other.now) }
    {
        let mut all = Comparison { equal: true };
        all.records(&self.file, &other.file);
        all.equal
    }
}
