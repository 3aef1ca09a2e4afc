//! The types and messages that these tests begin with.
//!
//! What is missing, as memory or a name, ends the test at once, so no function here has a second way out; and what they hand
//! out is lent to the end of the run, so their callers have nothing to drop.

use prost_reflect::{
    DescriptorPool, DynamicMessage, ExtensionDescriptor, FieldDescriptor, MessageDescriptor,
    builtin_pool,
};
use prost_reflect_samples::{leaked, sets};
use std::alloc::Global;
use std::process::Abort;

/// A descriptor set of the samples, or that of the built-in types.
#[derive(Clone, Copy)]
enum Set {
    Builtin,
    Choices,
    Every,
    Forms,
    Kinds,
    Newer,
    Older,
}

/// A message type: the set that it stands in, and its full name.
#[derive(Clone, Copy)]
pub(crate) struct Type {
    set: Set,
    name: &'static str,
}

pub(crate) const KEPT: Type = Type {
    set: Set::Builtin,
    name: "builtin.Kept",
};

pub(crate) const CHOICES: Type = Type {
    set: Set::Choices,
    name: "Choices",
};

pub(crate) const EVERY: Type = Type {
    set: Set::Every,
    name: "e.Every",
};

pub(crate) const T: Type = Type {
    set: Set::Forms,
    name: "T",
};

pub(crate) const V: Type = Type {
    set: Set::Kinds,
    name: "v.V",
};

pub(crate) const ENTRY: Type = Type {
    set: Set::Kinds,
    name: "v.V.MEntry",
};

pub(crate) const W: Type = Type {
    set: Set::Kinds,
    name: "o.W",
};

pub(crate) const MY_MESSAGE: Type = Type {
    set: Set::Newer,
    name: "package.MyMessage",
};

pub(crate) const P: Type = Type {
    set: Set::Newer,
    name: "P",
};

pub(crate) const Q: Type = Type {
    set: Set::Newer,
    name: "Q",
};

pub(crate) const FOO: Type = Type {
    set: Set::Newer,
    name: "Foo",
};

pub(crate) const C: Type = Type {
    set: Set::Newer,
    name: "C",
};

pub(crate) const OLDER_MESSAGE: Type = Type {
    set: Set::Older,
    name: "package.MyMessage",
};

/// The value, lent to the end of the run.
pub(crate) fn lent<'a, T: Drop + 'a>(rt: &impl Abort, alloc: Global, value: T) -> &'a T {
    leaked(alloc, value).expect(rt, "memory")
}

/// The pool of a descriptor set.
fn pool_of(rt: &impl Abort, alloc: Global, set: Set) -> DescriptorPool {
    let bytes = match set {
        Set::Builtin => return builtin_pool(alloc).expect(rt, "memory"),
        Set::Choices => sets::choices(),
        Set::Every => sets::every(),
        Set::Forms => sets::forms(),
        Set::Kinds => sets::kinds(),
        Set::Newer => sets::newer(),
        Set::Older => sets::older(),
    };
    DescriptorPool::decode(alloc, bytes).expect(rt, "a pool")
}

/// The descriptor of a message type.
pub(crate) fn descriptor_of(
    rt: &impl Abort,
    alloc: Global,
    owner: Type,
) -> &'static MessageDescriptor {
    let pool = lent(rt, alloc, pool_of(rt, alloc, owner.set));
    let found = pool.get_message_by_name(owner.name).expect(rt, "memory");
    lent(rt, alloc, found.expect(rt, "a message type"))
}

/// The message that the bytes mean to a message type.
pub(crate) fn decoded(rt: &impl Abort, alloc: Global, owner: Type, bytes: &[u8]) -> DynamicMessage {
    let descriptor = descriptor_of(rt, alloc, owner).clone().expect(rt, "memory");
    DynamicMessage::decode(alloc, descriptor, bytes).expect(rt, "a message")
}

/// The message that the bytes mean to a message type, lent to the end of the run.
pub(crate) fn lent_message(
    rt: &impl Abort,
    alloc: Global,
    owner: Type,
    bytes: &[u8],
) -> &'static mut DynamicMessage {
    leaked(alloc, decoded(rt, alloc, owner, bytes)).expect(rt, "memory")
}

/// The field of a name of a message type.
pub(crate) fn named_field(
    rt: &impl Abort,
    alloc: Global,
    descriptor: &MessageDescriptor,
    name: &str,
) -> &'static FieldDescriptor {
    let found = descriptor.get_field_by_name(name).expect(rt, "memory");
    lent(rt, alloc, found.expect(rt, "a field"))
}

/// The field of a number of a message type.
pub(crate) fn field_at(
    rt: &impl Abort,
    alloc: Global,
    descriptor: &MessageDescriptor,
    number: u32,
) -> &'static FieldDescriptor {
    let found = descriptor.get_field(number).expect(rt, "memory");
    lent(rt, alloc, found.expect(rt, "a field"))
}

/// The extension of a number of a message type.
pub(crate) fn extension_at(
    rt: &impl Abort,
    alloc: Global,
    descriptor: &MessageDescriptor,
    number: u32,
) -> &'static ExtensionDescriptor {
    let found = descriptor.get_extension(number).expect(rt, "memory");
    lent(rt, alloc, found.expect(rt, "an extension"))
}
