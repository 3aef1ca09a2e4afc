//! Extensions that are set, taken and set again, with no test after that which could fail.

use crate::programs::error::ClientError;
use prost_reflect::{DynamicMessage, ExtensionDescriptor, MessageDescriptor, Value};
use std::alloc::Global;

/// Reads, sets an extension to 7, if it is the message's own and takes 7, and writes.
pub fn set_extension_and_write(
    alloc: Global,
    message_type: MessageDescriptor,
    bytes: &[u8],
    extension: &ExtensionDescriptor,
) -> Result<Vec<u8>, ClientError> {
    let mut message = DynamicMessage::decode(alloc, message_type, bytes)?;
    let value = Value::I32(7);
    if message.owns_extension(extension) && value.is_valid_for_extension(extension) {
        message.set_extension(extension, value)?;
    }
    Ok(message.encode_to_vec(alloc)?)
}

/// Reads, takes an extension, if it is the message's own, sets it again, which it takes in any case, and writes.
pub fn take_extension_and_set_again(
    alloc: Global,
    message_type: MessageDescriptor,
    bytes: &[u8],
    extension: &ExtensionDescriptor,
) -> Result<Vec<u8>, ClientError> {
    let mut message = DynamicMessage::decode(alloc, message_type, bytes)?;
    if message.owns_extension(extension) {
        if let Some(value) = message.take_extension(extension) {
            if !value.is_valid_for_extension(extension) {
                unreachable!();
            }
            message.set_extension(extension, value)?;
        }
    }
    Ok(message.encode_to_vec(alloc)?)
}

/// Reads, takes all extensions and writes.
pub fn take_extensions_and_write(
    alloc: Global,
    message_type: MessageDescriptor,
    bytes: &[u8],
) -> Result<Vec<u8>, ClientError> {
    let mut message = DynamicMessage::decode(alloc, message_type, bytes)?;
    drop(message.take_extensions(alloc)?);
    Ok(message.encode_to_vec(alloc)?)
}
