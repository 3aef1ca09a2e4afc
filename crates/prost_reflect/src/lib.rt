//! Protocol Buffers messages whose types are known only at run time.
//!
//! A pool is made of a descriptor set, as `protoc --include_imports --descriptor_set_out` writes one. A message type is
//! found in it by its full name, and messages are read, changed and written by that type. `Fail` below is the error of
//! tests, to which every other error converts.
//!
//! ```
//! use prost_reflect::{DescriptorPool, DynamicMessage};
//! use std::alloc::Global;
//! use std::test::Fail;
//!
//! // What the bytes mean to the message type of the name in the descriptor set, written again.
//! fn written_again(alloc: Global, set: &[u8], name: &str, bytes: &[u8]) -> Result<Vec<u8>, Fail> {
//!     let pool = DescriptorPool::decode(alloc, set)?;
//!     let found = pool.get_message_by_name(name)?;
//!     let message_type = found.ok_or("no such message type")?;
//!     let message = DynamicMessage::decode(alloc, message_type, bytes)?;
//!     Ok(message.encode_to_vec(alloc)?)
//! }
//! ```
#![tactic(auto)]

pub mod laws;
mod like;
mod relaying;

pub use like::FieldDescriptorLike;
pub use prost_reflect_dynamic::{
    DecodeFault, DescriptorPool, Descriptors, DynamicMessage, EnumDescriptor, EnumDescriptors,
    EnumReservedRanges, EnumValueDescriptor, EnumValueDescriptors, ExtensionDescriptor,
    ExtensionDescriptors, ExtensionRanges, Extensions, FieldDescriptor, FieldDescriptors, Fields,
    FileDescriptor, FileDescriptors, GetFieldError, Kind, MapKey, MessageDescriptor,
    MessageDescriptors, MethodDescriptor, MethodDescriptors, OneofDescriptor, OneofDescriptors,
    OptionsError, Placed, Places, Present, PresentItems, PresentNumber, ReductionFault,
    ReductionFaultKind, ReservedNames, ReservedRanges, ServiceDescriptor, ServiceDescriptors,
    SetFieldError, Syntax, TakenExtensions, TakenFields, TakenUnknownFields, UnknownFields, Value,
    builtin_pool,
};
pub use prost_reflect_pool::FileDescriptorProtos;
pub use prost_reflect_proto::Proto;
pub use prost_reflect_tables::{Cardinality, PoolError};
pub use prost_reflect_types::{
    DescriptorProto, EnumDescriptorProto, EnumReservedRange, EnumValueDescriptorProto,
    ExtensionRange, FieldDescriptorProto, FileDescriptorProto, FileDescriptorSet,
    MethodDescriptorProto, OneofDescriptorProto, ReservedRange, ServiceDescriptorProto,
};
pub use prost_reflect_wire::{
    DecodeError, EncodeError, FieldNumber, RECURSION_LIMIT, UnknownField, UnknownFieldSet,
    UnknownFieldValue, WireType,
};
pub use relaying::{RelayError, RelayHexError, RelayWithError, relay, relay_hex, relay_with};
