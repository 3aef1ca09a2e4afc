//! The types that these tests begin with, and messages of them, each lent to the end of the run.

use prost_reflect::{
    DescriptorPool, DynamicMessage, EncodeError, FieldDescriptor, MessageDescriptor,
};
use prost_reflect_samples::{leaked, sets};
use std::alloc::{AllocError, Global};
use std::test::Fail;

/// The definition that was found.
pub(crate) fn lent<'a, D: Drop + 'a>(
    alloc: Global,
    found: Result<Option<D>, AllocError>,
) -> Result<&'a D, Fail> {
    Ok(leaked(alloc, found?.ok_or("no such definition")?)?)
}

/// The message type of a name in a descriptor set.
pub(crate) fn message_type(
    alloc: Global,
    set: &[u8],
    name: &str,
) -> Result<&'static MessageDescriptor, Fail> {
    let pool = leaked(alloc, DescriptorPool::decode(alloc, set)?)?;
    lent(alloc, pool.get_message_by_name(name))
}

/// The message that the bytes mean to the type of a name in a descriptor set.
pub(crate) fn message_of(
    alloc: Global,
    set: &[u8],
    name: &str,
    bytes: &[u8],
) -> Result<&'static mut DynamicMessage, Fail> {
    let found = message_type(alloc, set, name)?;
    let message = DynamicMessage::decode(alloc, found.clone()?, bytes)?;
    Ok(leaked(alloc, message)?)
}

/// The message of `Choices` in `choices` that the bytes mean.
pub(crate) fn choices(alloc: Global, bytes: &[u8]) -> Result<&'static mut DynamicMessage, Fail> {
    message_of(alloc, sets::choices(), "Choices", bytes)
}

/// The message of `MyMessage` in `newer` that the bytes mean.
pub(crate) fn my_message(alloc: Global, bytes: &[u8]) -> Result<&'static mut DynamicMessage, Fail> {
    message_of(alloc, sets::newer(), "package.MyMessage", bytes)
}

/// The message type of a name in `worked`.
pub(crate) fn worked_type(alloc: Global, name: &str) -> Result<&'static MessageDescriptor, Fail> {
    message_type(alloc, sets::worked(), name)
}

/// The field of a number in the message type of a name in `worked`.
pub(crate) fn worked_field(
    alloc: Global,
    name: &str,
    number: u32,
) -> Result<&'static FieldDescriptor, Fail> {
    lent(alloc, worked_type(alloc, name)?.get_field(number))
}

/// The empty message of the type of a name in `worked`.
pub(crate) fn empty(alloc: Global, name: &str) -> Result<&'static mut DynamicMessage, Fail> {
    let found = worked_type(alloc, name)?;
    let message = DynamicMessage::new(alloc, found.clone()?);
    Ok(leaked(alloc, message)?)
}

/// The message that the digits mean to the type of a name in `worked`.
pub(crate) fn decoded(
    alloc: Global,
    name: &str,
    digits: &str,
) -> Result<&'static mut DynamicMessage, Fail> {
    let bytes = leaked(alloc, hex::decode(alloc, digits)?)?;
    message_of(alloc, sets::worked(), name, bytes.as_slice())
}

/// Whether the message is the one that the digits mean to the type of a name in `worked`.
pub(crate) fn is_message(
    alloc: Global,
    message: &DynamicMessage,
    name: &str,
    digits: &str,
) -> Result<bool, Fail> {
    Ok(*message == *decoded(alloc, name, digits)?)
}

/// Whether the message may be written, and is written as these bytes.
pub(crate) fn is_written(
    alloc: Global,
    message: &DynamicMessage,
    bytes: &[u8],
) -> Result<bool, EncodeError> {
    Ok(message.is_encodable() && message.encode_to_vec(alloc)?.as_slice() == bytes)
}
