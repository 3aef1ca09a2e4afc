//! Pools and descriptors, and values and messages whose types are known only at run time.
//!
//! Users import these from `prost_reflect`.
//!
//! The crate promises: `DynamicMessage::decode` accepts exactly what a message type allows within 100 levels, and yields what
//! the records mean; `encode` writes equal bytes exactly for equal contents; each call that changes a message says what it
//! makes of the content; each descriptor answers what the files say of its definition.
//!
//! Begin with `message`, whose `DynamicMessage` is a field set under a message type: `message/decode` reads, `message/encode`
//! writes, `message/access` and its neighbours ask and change. `value` has values and the keys of maps, and `descriptor` the
//! pools and descriptors, which are shared pools with a place.
#![tactic(auto)]

mod descriptor;
mod message;
mod value;

pub use descriptor::laws::descriptor_equality;
pub use descriptor::{
    DescriptorPool, Descriptors, EnumDescriptor, EnumDescriptors, EnumReservedRanges,
    EnumValueDescriptor, EnumValueDescriptors, ExtensionDescriptor, ExtensionDescriptors,
    ExtensionRanges, FieldDescriptor, FieldDescriptors, FileDescriptor, FileDescriptors, Kind,
    MessageDescriptor, MessageDescriptors, MethodDescriptor, MethodDescriptors, OneofDescriptor,
    OneofDescriptors, OptionsError, Placed, Places, ReservedNames, ReservedRanges,
    ServiceDescriptor, ServiceDescriptors, Syntax, builtin_pool,
};
pub use message::laws::one_member;
pub use message::path::{set_at_path, takes_at_path};
pub use message::{
    DynamicMessage, Extensions, Fields, GetFieldError, Present, PresentItems, PresentNumber,
    SetFieldError, TakenExtensions, TakenFields, TakenUnknownFields, UnknownFields,
};
pub use prost_reflect_faults::DecodeFault;
pub use prost_reflect_reduction::{ReductionFault, ReductionFaultKind};
pub use value::{MapKey, Value};
