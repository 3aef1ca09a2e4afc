//! Worked messages of each form: what is written of them again, and what is present in them.
//!
//! What is missing, as memory or a name, ends the test at once, so no function here has a second way out; and what they hand
//! out is lent to the end of the run, so their callers have nothing to drop.

use crate::contents::shown;
use prost_reflect::{DecodeError, DescriptorPool, DynamicMessage, MessageDescriptor, builtin_pool};
use prost_reflect_samples::{leaked, sets};
use std::alloc::Global;
use std::process::Abort;

/// A descriptor set.
#[derive(Clone, Copy)]
pub(crate) enum Set {
    Every,
    Groups,
    Newer,
    Older,
    /// `message R { repeated R r = 1; }`, of proto2.
    Repeated,
    /// `b.X` without the extension.
    WithoutExtension,
    Worked,
}

/// The value, lent to the end of the run.
pub(crate) fn lent<'a, T: Drop + 'a>(rt: &impl Abort, alloc: Global, value: T) -> &'a mut T {
    leaked(alloc, value).expect(rt, "memory")
}

/// The bytes of a descriptor set.
fn set_of(set: Set) -> &'static [u8] {
    match set {
        Set::Every => sets::every(),
        Set::Groups => sets::groups(),
        Set::Newer => sets::newer(),
        Set::Older => sets::older(),
        Set::Repeated => {
            b"\x0a\x17\x0a\x01r\"\x12\x0a\x01R\x12\x0d\x0a\x01r\x18\x01 \x03(\x0b2\x02.R"
        }
        Set::WithoutExtension => {
            b"\x0a\x1c\x0a\x0bolder.proto\x12\x01b\"\x0a\x0a\x01X*\x05\x08d\x10\xc8\x01"
        }
        Set::Worked => sets::worked(),
    }
}

/// The type of the name in the descriptor set, or the built-in one.
pub(crate) fn message_type(
    rt: &impl Abort,
    alloc: Global,
    set: Set,
    name: &str,
) -> &'static MessageDescriptor {
    let pool = if name.starts_with("builtin.") {
        builtin_pool(alloc).expect(rt, "memory")
    } else {
        DescriptorPool::decode(alloc, set_of(set)).expect(rt, "a pool")
    };
    let found = lent(rt, alloc, pool)
        .get_message_by_name(name)
        .expect(rt, "memory");
    lent(rt, alloc, found.expect(rt, "a message type"))
}

/// The bytes that the digits spell.
pub(crate) fn bytes_of(rt: &impl Abort, alloc: Global, digits: &str) -> &'static [u8] {
    lent(rt, alloc, hex::decode(alloc, digits).expect(rt, "digits")).as_slice()
}

/// The message of the type that the bytes mean.
pub(crate) fn decoded(
    rt: &impl Abort,
    alloc: Global,
    descriptor: &MessageDescriptor,
    bytes: &[u8],
) -> &'static mut DynamicMessage {
    let descriptor = descriptor.clone().expect(rt, "memory");
    let message = DynamicMessage::decode(alloc, descriptor, bytes).expect(rt, "a message");
    lent(rt, alloc, message)
}

/// An empty message of the type.
pub(crate) fn empty(
    rt: &impl Abort,
    alloc: Global,
    descriptor: &MessageDescriptor,
) -> &'static mut DynamicMessage {
    let descriptor = descriptor.clone().expect(rt, "memory");
    lent(rt, alloc, DynamicMessage::new(alloc, descriptor))
}

/// A message type, the digits of bytes, those of what is written again, and what is shown of the message.
static WRITTEN: [(&str, &str, &str, &str); 47] = [
    ("package.MyMessage", "", "", ""),
    ("package.MyMessage", "089601", "089601", "1=150 "),
    ("package.MyMessage", "0800", "", ""),
    // A member of a oneof has presence, and `foo` has none.
    ("package.MyMessage", "08001000", "1000", "2=0 "),
    // The records of one number are those of one message, which may be empty.
    (
        "package.MyMessage",
        "1a0208051a021042",
        "1a0408051042",
        "3={1=5 2=66 } ",
    ),
    ("package.MyMessage", "1a0208051a020800", "1a00", "3={} "),
    (
        "package.MyMessage",
        "1a0410420805",
        "1a0408051042",
        "3={1=5 2=66 } ",
    ),
    ("package.MyMessage", "1a020801", "1a020801", "3={1=1 } "),
    // A negative number is written in ten bytes, whatever it is read from.
    (
        "package.MyMessage",
        "08ffffffff0f",
        "08ffffffffffffffffff01",
        "1=-1 ",
    ),
    // Needless digits of a value and of a key are read, and not written.
    ("package.MyMessage", "0880808080808080808000", "", ""),
    (
        "package.MyMessage",
        "8880808080808080800005",
        "0805",
        "1=5 ",
    ),
    // The greatest number is of no field.
    (
        "package.MyMessage",
        "f8ffffff0f00",
        "f8ffffff0f00",
        "536870911?0 ",
    ),
    (
        "package.MyMessage",
        "0896011a0210422a002801",
        "0896011a0210422a002801",
        "1=150 3={2=66 } 5?x 5?1 ",
    ),
    // Unknown fields stand in ascending order of their numbers, those of one number in the order in which they came.
    (
        "package.MyMessage",
        "300128022801",
        "280228013001",
        "5?2 5?1 6?1 ",
    ),
    // A list is read packed or not. Proto2 writes a record for each element, proto3 one for all.
    ("b.Foo", "0a020102", "08010802", "1=[1 2 ] "),
    ("b.Foo", "10050807", "08071005", "1=[7 ] 2?5 "),
    (
        "a.Foo",
        "0a0b01ffffffffffffffffff01",
        "0a0b01ffffffffffffffffff01",
        "1=[1 -1 ] ",
    ),
    (
        "a.Foo",
        "08010a02020308040a00",
        "0a0401020304",
        "1=[1 2 3 4 ] ",
    ),
    ("a.Foo", "0a00", "", ""),
    // The last entry of a key counts. What an entry lacks is zero or empty, and what is none of both is dropped.
    (
        "a.P",
        "0a050a016110010a050a01611002",
        "0a050a01611002",
        "1=(a:2 ) ",
    ),
    (
        "a.P",
        "0a050a016210010a050a01611002",
        "0a050a016110020a050a01621001",
        "1=(a:2 b:1 ) ",
    ),
    ("a.P", "0a00", "0a00", "1=(:0 ) "),
    ("a.P", "0a0418031001", "0a021001", "1=(:1 ) "),
    ("a.P", "0a025354", "0a00", "1=(:0 ) "),
    ("a.P", "1200", "12021200", "2=(0:{} ) "),
    // Keys ascend as numbers, and the records of an entry's message are those of one message.
    (
        "a.P",
        "12020801120b08ffffffffffffffffff01",
        "120d08ffffffffffffffffff011200120408011200",
        "2=(-1:{} 1:{} ) ",
    ),
    (
        "a.P",
        "120a08011202080512021042",
        "12080801120408051042",
        "2=(1:{1=5 2=66 } ) ",
    ),
    // In proto2 the key and the value of an entry have presence.
    ("b.T", "0a00", "0a040a001000", "1=(:0 ) "),
    // A member clears the others of its oneof.
    ("a.Q", "12020805080112021042", "12021042", "2={2=66 } "),
    ("a.Q", "12000801", "0801", "1=1 "),
    ("a.Q", "08011200", "1200", "2={} "),
    ("b.G", "0b08010c", "0b08010c", "1=[{1=1 } ] "),
    // The zero with a sign is no default.
    ("a.F", "0d00000080", "0d00000080", "1=2147483648 "),
    ("a.F", "0d00000000", "", ""),
    ("b.X", "a00607", "a00607", "[100]=7 "),
    // A number that a closed enum does not declare stays unknown, behind the value, and clears no sibling.
    ("C", "0807", "0807", "1?7 "),
    ("C", "080108070800", "08000807", "1=0 1?7 "),
    ("C", "120401070009", "1202010010071009", "2=[1 0 ] 2?7 2?9 "),
    ("C", "120107", "1007", "2?7 "),
    // An entry with such a number stays unknown whole.
    (
        "C",
        "1a050a016110011a050a01611007",
        "1a050a016110011a050a01611007",
        "3=(a:1 ) 3?x0a01611007 ",
    ),
    ("C", "28052007", "20072805", "4?7 5=5 "),
    // All 64 bits of it are kept; the low 32 bits say which number it is.
    ("C", "08ffffffff0f", "08ffffffff0f", "1?4294967295 "),
    ("C", "088080808010", "0800", "1=0 "),
    // An enum of proto3 takes any number, in a message of proto2 too.
    ("b.C", "0807", "0807", "1=7 "),
    // Of the built-in types one has presence.
    ("builtin.Plain", "508300289601", "2896015003", "5=150 10?3 "),
    ("builtin.Plain", "2800", "", ""),
    ("builtin.Kept", "2800", "2800", "5=0 "),
];

/// Whether the message is written as these bytes, whose length is foretold.
pub(crate) fn is_written(
    rt: &impl Abort,
    alloc: Global,
    message: &DynamicMessage,
    bytes: &[u8],
) -> bool {
    assert!(rt; message.is_encodable());
    let is_foretold = message.encoded_len() == Some(bytes.len());
    let written = message.encode_to_vec(alloc).expect(rt, "memory");
    written.as_slice() == bytes && is_foretold
}

/// Whether the message is written as the bytes of these digits, and shown as the text.
pub(crate) fn is_written_and_shown(
    rt: &impl Abort,
    alloc: Global,
    message: &DynamicMessage,
    digits: &str,
    text: &str,
) -> bool {
    is_written(rt, alloc, message, bytes_of(rt, alloc, digits)) && shown(rt, alloc, message) == text
}

/// Why the bytes are no message of the type, if they are none.
pub(crate) fn fault(
    rt: &impl Abort,
    alloc: Global,
    descriptor: &MessageDescriptor,
    bytes: &[u8],
) -> Option<DecodeError> {
    let descriptor = descriptor.clone().expect(rt, "memory");
    DynamicMessage::decode(alloc, descriptor, bytes).err()
}

/// Why the bytes are no message of the type, as the search for a fault says, if they are none.
fn fault_found(descriptor: &MessageDescriptor, bytes: &[u8]) -> Option<DecodeError> {
    match descriptor.decode_fault(bytes) {
        Some(found) => Some(found.error()),
        None => None,
    }
}

/// The message that the bytes mean. Each part in front of their end is read too, or ends too early, and its fault is found.
pub(crate) fn read(
    rt: &impl Abort,
    alloc: Global,
    descriptor: &MessageDescriptor,
    bytes: &[u8],
) -> &'static DynamicMessage {
    for len in 0..bytes.len() {
        let fault = fault(rt, alloc, descriptor, &bytes[..len]);
        assert!(rt; fault.is_none() || fault == Some(DecodeError::Truncated));
        assert!(rt; fault_found(descriptor, &bytes[..len]) == fault);
    }
    assert!(rt; fault_found(descriptor, bytes).is_none());
    decoded(rt, alloc, descriptor, bytes)
}

/// Whether the message of the worked type that the bytes mean is written as the others.
pub(crate) fn is_rewritten(
    rt: &impl Abort,
    alloc: Global,
    name: &str,
    bytes: &[u8],
    again: &[u8],
) -> bool {
    let descriptor = message_type(rt, alloc, Set::Worked, name);
    is_written(rt, alloc, decoded(rt, alloc, descriptor, bytes), again)
}

/// Whether the message that the bytes mean is written as the others, and something is shown of it.
pub(crate) fn passes(
    rt: &impl Abort,
    alloc: Global,
    descriptor: &MessageDescriptor,
    bytes: &[u8],
    again: &[u8],
) -> bool {
    let message = read(rt, alloc, descriptor, bytes);
    is_written(rt, alloc, message, again) && !shown(rt, alloc, message).is_empty()
}

/// Whether the message that the digits' bytes mean is written as those of the others, and shown as the text.
fn is_worked(rt: &impl Abort, alloc: Global, set: Set, row: &(&str, &str, &str, &str)) -> bool {
    let (name, digits, again, text) = *row;
    let descriptor = message_type(rt, alloc, set, name);
    let message = read(rt, alloc, descriptor, bytes_of(rt, alloc, digits));
    is_written_and_shown(rt, alloc, message, again, text)
}

/// Where a pool lacks the extension, its record is unknown.
#[test]
fn worked_messages_are_written_again(rt: HostRuntime) {
    let alloc = rt.alloc();
    for row in &WRITTEN {
        assert!(rt; is_worked(&rt, alloc, Set::Worked, row), "{}", row.1);
    }
    let row = ("b.X", "a00607", "a00607", "100?7 ");
    assert!(rt; is_worked(&rt, alloc, Set::WithoutExtension, &row));
}
