//! Handles of one pool are compared in a fixed number of steps, however many files it has, and so are handles of two places.

use crate::many::append;
use crate::named::{field_of, lent, message_of, pool_of};
use prost_reflect::{
    DescriptorPool, DynamicMessage, ExtensionDescriptor, FieldDescriptor, Kind, MessageDescriptor,
    Value,
};
use prost_reflect_samples::leaked;
use std::alloc::{AllocError, Global};
use std::test::Fail;

/// How many fields of int32 the message type of each file has.
const FIELDS: u8 = 25;

/// How many files the pools have.
const SIZES: [usize; 2] = [100, 400];

/// How often handles are compared.
const TIMES: usize = 400_000;

/// Appends the file `N.proto`, in `pN`, for a number of three digits: `message M`, which has the fields, `optional M m = 26` and
/// `extensions 100 to 199`, and `extend M { optional int32 x = 100; }`.
fn append_file(set: &mut Vec<u8>, number: usize, fields: &[u8]) -> Result<(), AllocError> {
    let alloc = *set.allocator();
    let a = (number / 100 % 10) as u8 + b'0';
    let b = (number / 10 % 10) as u8 + b'0';
    let c = (number % 10) as u8 + b'0';
    let message = leaked(alloc, Vec::from_slice(alloc, fields)?)?;
    message.extend_from_slice(&[
        0x12, 17, 0x0a, 1, b'm', 0x18, 26, 0x20, 1, 0x28, 11, 0x32, 6, b'p', a, b, c, b'.', b'M',
    ])?;
    let file = leaked(alloc, Vec::new(alloc))?;
    file.extend_from_slice(&[0x0a, 9, a, b, c, b'.', b'p', b'r', b'o', b't', b'o'])?;
    file.extend_from_slice(&[0x12, 4, b'p', a, b, c])?;
    append(file, 0x22, message)?;
    file.extend_from_slice(&[
        0x3a, 17, 0x0a, 1, b'x', 0x12, 6, b'p', a, b, c, b'.', b'M', 0x18, 100, 0x20, 1, 0x28, 5,
    ])?;
    append(set, 0x0a, file)
}

/// A pool of so many files.
fn pool_of_files(alloc: Global, count: usize) -> Result<&'static DescriptorPool, Fail> {
    let fields = leaked(
        alloc,
        Vec::from_slice(alloc, b"\x0a\x01M*\x05\x08d\x10\xc8\x01")?,
    )?;
    for number in 1..=FIELDS {
        let (high, low) = (b'0' + number / 10 % 10, b'0' + number % 10);
        fields.extend_from_slice(&[
            0x12, 11, 0x0a, 3, b'f', high, low, 0x18, number, 0x20, 1, 0x28, 5,
        ])?;
    }
    let set = leaked(alloc, Vec::new(alloc))?;
    for number in 0..count {
        append_file(set, number, fields)?;
    }
    pool_of(alloc, set)
}

/// Handles of a pool: of itself, and of the message type, the extension and a field of one of its files; the kind of the field
/// `m` of that type, an empty message of it, as a value, and a message that has such a one in `m`.
#[derive(Clone, Copy)]
struct Handles {
    pool: &'static DescriptorPool,
    message_type: &'static MessageDescriptor,
    extension: &'static ExtensionDescriptor,
    field: &'static FieldDescriptor,
    kind: &'static Kind,
    empty: &'static Value,
    message: &'static DynamicMessage,
}

/// An empty message of the type, as a value.
fn empty(alloc: Global, message_type: &MessageDescriptor) -> Result<Value, AllocError> {
    Ok(Value::Message(DynamicMessage::new(alloc, message_type.clone()?)))
}

/// A message of the type that has an empty one of another type in `m`.
fn around(
    alloc: Global,
    message_type: &MessageDescriptor,
    inner: &MessageDescriptor,
) -> Result<&'static DynamicMessage, Fail> {
    let message = leaked(alloc, DynamicMessage::new(alloc, message_type.clone()?))?;
    let lent = message.get_field_by_number_mut(alloc, 26)?;
    *lent = empty(alloc, inner)?;
    Ok(message)
}

impl Handles {
    /// Handles of the pool: of what the names of a message type and of its extension say, and of the field of the number.
    fn of(
        alloc: Global,
        pool: &DescriptorPool,
        (name, extension): (&str, &str),
        number: u32,
    ) -> Result<Handles, Fail> {
        let message_type = message_of(alloc, pool, name)?;
        Ok(Handles {
            pool: leaked(alloc, pool.clone()?)?,
            message_type,
            extension: lent(alloc, pool.get_extension_by_name(extension))?,
            field: field_of(alloc, pool, "p000.M", number)?,
            kind: leaked(alloc, field_of(alloc, pool, name, 26)?.kind()?)?,
            empty: leaked(alloc, empty(alloc, message_type)?)?,
            message: around(alloc, message_type, message_type)?,
        })
    }

    /// Whether each is equal to the other of its sort, the field and the extension are those of the message, and the empty
    /// message is the default of the kind.
    fn are_equal(&self, others: &Handles) -> bool {
        *self.pool == *others.pool
            && *self.message_type == *others.message_type
            && *self.field == *others.field
            && *self.message == *others.message
            && self.message.owns_field(others.field)
            && self.message.owns_extension(others.extension)
            && self.empty.is_default(others.kind)
    }

    /// Whether none is equal to the other of its sort, and the extension and the kind are of another message type.
    fn are_different(&self, others: &Handles) -> bool {
        *self.message_type != *others.message_type
            && *self.field != *others.field
            && *self.message != *others.message
            && !self.message.owns_extension(others.extension)
            && !self.empty.is_default(others.kind)
    }
}

/// Handles of one pool are equal, and those of two places are not, also in two pools of equal files. No file is looked at to tell,
/// so these millions of comparisons take a part of a second; with files compared they would take minutes, the more the more
/// files there are, and a test has one.
#[test]
fn handles_are_told_at_once(rt: HostRuntime) -> Result<(), Fail> {
    for count in SIZES {
        let pool = pool_of_files(rt.alloc(), count)?;
        let twin = pool_of_files(rt.alloc(), count)?;
        let handles = Handles::of(rt.alloc(), pool, ("p000.M", "p000.x"), 1)?;
        let others = Handles::of(rt.alloc(), pool, ("p000.M", "p000.x"), 1)?;
        let second = Handles::of(rt.alloc(), twin, ("p001.M", "p001.x"), 2)?;
        let mixed = around(rt.alloc(), handles.message_type, second.message_type)?;
        for _ in 0..TIMES {
            assert!(rt; handles.are_equal(&others), "{count}");
            assert!(rt; handles.are_different(&second), "{count}");
            assert!(rt; handles.message.is_typed() && !mixed.is_typed(), "{count}");
        }
        let twins = Handles::of(rt.alloc(), twin, ("p000.M", "p000.x"), 1)?;
        assert!(rt; handles.are_equal(&twins), "{count}");
    }
    Ok(())
}
