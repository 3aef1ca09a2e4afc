//! Pools and descriptors: places in a shared pool.

mod adding;
mod builtin;
mod decode_fault;
mod enum_value;
mod enums;
mod extension;
mod field;
mod file;
mod files;
mod iter;
pub(crate) mod kind;
pub(crate) mod laws;
mod message;
mod method;
mod oneof;
mod options;
pub(crate) mod path;
mod pool;
mod reduction;
mod service;

pub use builtin::builtin_pool;
pub use enum_value::EnumValueDescriptor;
pub use enums::EnumDescriptor;
pub use extension::ExtensionDescriptor;
pub use field::FieldDescriptor;
pub use file::{FileDescriptor, Syntax};
pub use iter::{
    EnumDescriptors, EnumValueDescriptors, ExtensionDescriptors, FieldDescriptors, FileDescriptors,
    MessageDescriptors, MethodDescriptors, OneofDescriptors, ServiceDescriptors,
};
pub use kind::Kind;
pub use message::MessageDescriptor;
pub use method::MethodDescriptor;
pub use oneof::OneofDescriptor;
pub use options::OptionsError;
pub use pool::DescriptorPool;
pub use prost_reflect_walks::{
    Descriptors, EnumReservedRanges, ExtensionRanges, Placed, Places, ReservedNames, ReservedRanges,
};
pub use service::ServiceDescriptor;
