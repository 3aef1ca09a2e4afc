//! The structs of a descriptor set: files, messages, fields, enums, services and what they consist of, as
//! `descriptor.proto` of Protocol Buffers declares them. `Proto` of `prost_reflect_proto` reads, writes and measures them.
//!
//! Options and source information are kept as the bytes that they are written in.
#![tactic(auto)]

mod content;
mod copy;
mod equality;
mod table;

pub use content::{HasContent, OwnedRecord};
pub use table::{FieldKind, RecordType};

/// The files that a compiler was given, each behind those that it depends on.
#[derive(Debug, Drop)]
pub struct FileDescriptorSet {
    /// The files (number 1).
    pub file: Vec<FileDescriptorProto>,
}

/// A file with what it declares.
#[derive(Debug, Drop)]
pub struct FileDescriptorProto {
    /// The path of the file, from the root of the source tree (number 1).
    pub name: Option<String>,
    /// The package, in dotted words (number 2).
    pub package: Option<String>,
    /// The names of the files that it imports (number 3).
    pub dependency: Vec<String>,
    /// The messages at the top of the file (number 4).
    pub message_type: Vec<DescriptorProto>,
    /// The enums at the top of the file (number 5).
    pub enum_type: Vec<EnumDescriptorProto>,
    /// The services (number 6).
    pub service: Vec<ServiceDescriptorProto>,
    /// The extensions at the top of the file (number 7).
    pub extension: Vec<FieldDescriptorProto>,
    /// The bytes of the file's options (number 8).
    pub options: Option<Vec<u8>>,
    /// The bytes that say where in the source each definition stands (number 9).
    pub source_code_info: Option<Vec<u8>>,
    /// The places, in `dependency`, of the public imports (number 10).
    pub public_dependency: Vec<i32>,
    /// The places, in `dependency`, of the weak imports (number 11).
    pub weak_dependency: Vec<i32>,
    /// The syntax: absent or `proto2`, or `proto3` (number 12).
    pub syntax: Option<String>,
}

/// A message with what it declares.
#[cycle(messages)]
#[derive(Debug, Drop)]
pub struct DescriptorProto {
    /// The name (number 1).
    pub name: Option<String>,
    /// The fields (number 2).
    pub field: Vec<FieldDescriptorProto>,
    /// The messages that are declared inside (number 3).
    pub nested_type: Vec<DescriptorProto>,
    /// The enums that are declared inside (number 4).
    pub enum_type: Vec<EnumDescriptorProto>,
    /// The numbers that are left to extensions (number 5).
    pub extension_range: Vec<ExtensionRange>,
    /// The extensions that are declared inside (number 6).
    pub extension: Vec<FieldDescriptorProto>,
    /// The bytes of the message's options (number 7).
    pub options: Option<Vec<u8>>,
    /// The oneofs (number 8).
    pub oneof_decl: Vec<OneofDescriptorProto>,
    /// The numbers that no field may have (number 9).
    pub reserved_range: Vec<ReservedRange>,
    /// The names that no field may have (number 10).
    pub reserved_name: Vec<String>,
}

/// A range of numbers that are left to extensions.
#[derive(Debug, Drop)]
pub struct ExtensionRange {
    /// The first number (number 1).
    pub start: Option<i32>,
    /// The number behind the last one (number 2).
    pub end: Option<i32>,
    /// The bytes of the range's options (number 3).
    pub options: Option<Vec<u8>>,
}

/// A range of numbers that no field of a message may have.
#[derive(Debug, Drop)]
pub struct ReservedRange {
    /// The first number (number 1).
    pub start: Option<i32>,
    /// The number behind the last one (number 2).
    pub end: Option<i32>,
}

/// A field, or an extension.
#[derive(Debug, Drop)]
pub struct FieldDescriptorProto {
    /// The name (number 1).
    pub name: Option<String>,
    /// The name of the message that an extension belongs to (number 2).
    pub extendee: Option<String>,
    /// The number on the wire (number 3).
    pub number: Option<i32>,
    /// 1 for optional, 2 for required, 3 for repeated (number 4).
    pub label: Option<i32>,
    /// The code of the type, 1 for double to 18 for sint64 (number 5).
    pub type_: Option<i32>,
    /// The name of the message or of the enum that is the type (number 6).
    pub type_name: Option<String>,
    /// The default, as text (number 7).
    pub default_value: Option<String>,
    /// The bytes of the field's options (number 8).
    pub options: Option<Vec<u8>>,
    /// The place of the oneof that the field belongs to, among those of its message (number 9).
    pub oneof_index: Option<i32>,
    /// The name in JSON (number 10).
    pub json_name: Option<String>,
    /// Whether the field was declared `optional` in a proto3 file (number 17).
    pub proto3_optional: Option<bool>,
}

/// A oneof.
#[derive(Debug, Drop)]
pub struct OneofDescriptorProto {
    /// The name (number 1).
    pub name: Option<String>,
    /// The bytes of the oneof's options (number 2).
    pub options: Option<Vec<u8>>,
}

/// An enum with its values.
#[derive(Debug, Drop)]
pub struct EnumDescriptorProto {
    /// The name (number 1).
    pub name: Option<String>,
    /// The values (number 2).
    pub value: Vec<EnumValueDescriptorProto>,
    /// The bytes of the enum's options (number 3).
    pub options: Option<Vec<u8>>,
    /// The numbers that no value may have (number 4).
    pub reserved_range: Vec<EnumReservedRange>,
    /// The names that no value may have (number 5).
    pub reserved_name: Vec<String>,
}

/// A range of numbers that no value of an enum may have.
#[derive(Debug, Drop)]
pub struct EnumReservedRange {
    /// The first number (number 1).
    pub start: Option<i32>,
    /// The last number (number 2).
    pub end: Option<i32>,
}

/// A value of an enum.
#[derive(Debug, Drop)]
pub struct EnumValueDescriptorProto {
    /// The name (number 1).
    pub name: Option<String>,
    /// The number (number 2).
    pub number: Option<i32>,
    /// The bytes of the value's options (number 3).
    pub options: Option<Vec<u8>>,
}

/// A service with its methods.
#[derive(Debug, Drop)]
pub struct ServiceDescriptorProto {
    /// The name (number 1).
    pub name: Option<String>,
    /// The methods (number 2).
    pub method: Vec<MethodDescriptorProto>,
    /// The bytes of the service's options (number 3).
    pub options: Option<Vec<u8>>,
}

/// A method of a service.
#[derive(Debug, Drop)]
pub struct MethodDescriptorProto {
    /// The name (number 1).
    pub name: Option<String>,
    /// The name of the message that it takes (number 2).
    pub input_type: Option<String>,
    /// The name of the message that it answers (number 3).
    pub output_type: Option<String>,
    /// The bytes of the method's options (number 4).
    pub options: Option<Vec<u8>>,
    /// Whether it takes a stream of messages (number 5).
    pub client_streaming: Option<bool>,
    /// Whether it answers a stream of messages (number 6).
    pub server_streaming: Option<bool>,
}
