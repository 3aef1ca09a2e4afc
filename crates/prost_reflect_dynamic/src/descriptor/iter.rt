//! Iterators over the definitions of a pool, or of what encloses them.

use crate::descriptor::{
    DescriptorPool, EnumDescriptor, EnumValueDescriptor, ExtensionDescriptor, FieldDescriptor,
    FileDescriptor, MessageDescriptor, MethodDescriptor, OneofDescriptor, ServiceDescriptor,
};
use prost_reflect_walks::Descriptors;

/// The files of a pool, or those that a file imports.
pub type FileDescriptors<'a> = Descriptors<'a, DescriptorPool, FileDescriptor>;
/// The message types of a pool, a file or a message type.
pub type MessageDescriptors<'a> = Descriptors<'a, DescriptorPool, MessageDescriptor>;
/// The enums of a pool, a file or a message type.
pub type EnumDescriptors<'a> = Descriptors<'a, DescriptorPool, EnumDescriptor>;
/// The extensions of a pool, a file or a message type.
pub type ExtensionDescriptors<'a> = Descriptors<'a, DescriptorPool, ExtensionDescriptor>;
/// The services of a pool or a file.
pub type ServiceDescriptors<'a> = Descriptors<'a, DescriptorPool, ServiceDescriptor>;
/// The fields of a message type or a oneof.
pub type FieldDescriptors<'a> = Descriptors<'a, MessageDescriptor, FieldDescriptor>;
/// The oneofs of a message type.
pub type OneofDescriptors<'a> = Descriptors<'a, MessageDescriptor, OneofDescriptor>;
/// The values of an enum.
pub type EnumValueDescriptors<'a> = Descriptors<'a, EnumDescriptor, EnumValueDescriptor>;
/// The methods of a service.
pub type MethodDescriptors<'a> = Descriptors<'a, ServiceDescriptor, MethodDescriptor>;
