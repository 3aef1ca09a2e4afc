//! Descriptor sets, their pools, and the definitions of these by names, lent to the end of the run.

use crate::described::{STREAMED, V_AND_W};
use crate::found::{K_AND_O, SMALL};
use crate::options::{BARE, O_PROTO, OPTIONS_OF_BOOL, OPTIONS_OF_TEXT, USER};
use crate::pools::{A_AND_B, B_AND_A, M_OF_EDITIONS, NAMELESS, SET_M, SOUND_AND_EDITIONS};
use crate::schema::SCHEMA;
use crate::whole::WHOLE;
use prost_reflect::{DescriptorPool, FieldDescriptor, MessageDescriptor};
use prost_reflect_samples::{leaked, sets};
use std::alloc::{AllocError, Global};
use std::test::Fail;

/// A descriptor set, by the name of its bytes.
#[derive(Clone, Copy)]
pub(crate) enum Set {
    /// No bytes.
    Empty,
    M,
    AAndB,
    BAndA,
    SoundAndEditions,
    MOfEditions,
    Nameless,
    KAndO,
    Small,
    Streamed,
    VAndW,
    Schema,
    Whole,
    OProto,
    Bare,
    User,
    OptionsOfBool,
    OptionsOfText,
    Choices,
    Every,
    Forms,
    Groups,
    Kinds,
    Worked,
}

impl Set {
    /// The bytes.
    pub(crate) fn bytes(self) -> &'static [u8] {
        match self {
            Set::Empty => b"",
            Set::M => SET_M,
            Set::AAndB => A_AND_B,
            Set::BAndA => B_AND_A,
            Set::SoundAndEditions => SOUND_AND_EDITIONS,
            Set::MOfEditions => M_OF_EDITIONS,
            Set::Nameless => NAMELESS,
            Set::KAndO => K_AND_O,
            Set::Small => SMALL,
            Set::Streamed => STREAMED,
            Set::VAndW => V_AND_W,
            Set::Schema => SCHEMA,
            Set::Whole => WHOLE,
            Set::OProto => O_PROTO,
            Set::Bare => BARE,
            Set::User => USER,
            Set::OptionsOfBool => OPTIONS_OF_BOOL,
            Set::OptionsOfText => OPTIONS_OF_TEXT,
            Set::Choices => sets::choices(),
            Set::Every => sets::every(),
            Set::Forms => sets::forms(),
            Set::Groups => sets::groups(),
            Set::Kinds => sets::kinds(),
            Set::Worked => sets::worked(),
        }
    }
}

/// The pool of the bytes.
pub(crate) fn pool_of(alloc: Global, bytes: &[u8]) -> Result<&'static DescriptorPool, Fail> {
    Ok(leaked(alloc, DescriptorPool::decode(alloc, bytes)?)?)
}

/// The definition that was found.
pub(crate) fn lent<'a, D: Drop + 'a>(
    alloc: Global,
    found: Result<Option<D>, AllocError>,
) -> Result<&'a D, Fail> {
    Ok(leaked(alloc, found?.ok_or("no such definition")?)?)
}

/// Whether a copy is equal.
pub(crate) fn is_its_copy<T: Clone + PartialEq>(value: &T) -> Result<bool, AllocError> {
    Ok(value.clone()? == *value)
}

/// The message type of the full name.
pub(crate) fn message_of(
    alloc: Global,
    pool: &DescriptorPool,
    name: &str,
) -> Result<&'static MessageDescriptor, Fail> {
    lent(alloc, pool.get_message_by_name(name))
}

/// The message type of the full name in the pool of the set.
pub(crate) fn type_in(
    alloc: Global,
    set: Set,
    name: &str,
) -> Result<&'static MessageDescriptor, Fail> {
    message_of(alloc, pool_of(alloc, set.bytes())?, name)
}

/// The field of the message type.
pub(crate) fn field_of(
    alloc: Global,
    pool: &DescriptorPool,
    message: &str,
    number: u32,
) -> Result<&'static FieldDescriptor, Fail> {
    lent(alloc, message_of(alloc, pool, message)?.get_field(number))
}
