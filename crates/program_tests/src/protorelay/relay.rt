//! Messages that are written again, and those that are refused.

use crate::protorelay::{
    GROUPS, KEPT, LISTS, MAPS, MEMBERS, MESSAGES, NESTED_MAPS, NUMBERS, OLD_LISTS, OLD_MAPS, PLAIN,
    answered, four_words,
};
use std::alloc::{AllocError, Global};
use std::process::Abort;
use std::test::Fail;

/// Names and messages, and what is printed of them.
static RELAYED: [(&str, &str, &str); 12] = [
    // An unknown varint keeps its value and loses its needless zero digits, and numbers ascend.
    (PLAIN, "508300289601", "2896015003\n"),
    // A bool is 1 for any value but 0.
    (PLAIN, "4005", "4001\n"),
    // The zigzag of -1.
    (PLAIN, "880101", "880101\n"),
    // A default without presence is dropped; -0.0 is no default, and presence keeps each value.
    (PLAIN, "1500000000", "\n"),
    (KEPT, "1500000000", "1500000000\n"),
    (PLAIN, "1500000080", "1500000080\n"),
    (PLAIN, "2800", "\n"),
    (KEPT, "2800", "2800\n"),
    // A negative int32 is written in ten bytes.
    (PLAIN, "28ffffffff0f", "28ffffffffffffffffff01\n"),
    // Unknown groups stay.
    (PLAIN, "5354", "5354\n"),
    // Digits in either case, and none.
    (PLAIN, "4A024869", "4a024869\n"),
    (PLAIN, "", "\n"),
];

#[test]
fn prints_what_is_written_again(rt: HostRuntime) -> Result<(), Fail> {
    for (name, digits, written) in &RELAYED {
        let words = four_words(rt.alloc(), &["relay", "-", name, digits])?;
        answered(&rt, rt.alloc(), words.as_slice(), 0, written, "");
    }
    Ok(())
}

/// Names and messages, and why they are refused.
static REFUSED: [(&str, &str, &str); 12] = [
    (PLAIN, "0801", "refused decode WireType\n"),
    (PLAIN, "4a01ff", "refused decode Utf8\n"),
    (PLAIN, "54", "refused decode EndGroup\n"),
    (PLAIN, "28", "refused decode Truncated\n"),
    (PLAIN, "00", "refused decode Key\n"),
    (PLAIN, "28ffffffffffffffffff02", "refused decode Varint\n"),
    // An odd number of digits, and no digit.
    (PLAIN, "280", "refused hex\n"),
    (PLAIN, "2x00", "refused hex\n"),
    // The name comes before the digits.
    ("builtin.None", "2800", "refused name\n"),
    ("builtin", "2x", "refused name\n"),
    (".builtin.Plain", "2800", "refused name\n"),
    ("", "", "refused name\n"),
];

#[test]
fn names_the_first_refusal(rt: HostRuntime) -> Result<(), Fail> {
    for (name, digits, refusal) in &REFUSED {
        let words = four_words(rt.alloc(), &["relay", "-", name, digits])?;
        answered(&rt, rt.alloc(), words.as_slice(), 1, "", refusal);
    }
    Ok(())
}

/// So many times 0x53, which opens a group of number 10, and as often 0x54, which ends it.
fn groups(alloc: Global, levels: usize) -> Result<String, AllocError> {
    let mut digits = String::new(alloc);
    for _ in 0..levels {
        digits.push_str("53")?;
    }
    for _ in 0..levels {
        digits.push_str("54")?;
    }
    Ok(digits)
}

/// A record of the unknown number 10 with a million bytes.
fn long_record(alloc: Global) -> Result<String, AllocError> {
    let mut digits = String::from_str(alloc, "52c0843d")?;
    for _ in 0..1_000_000 {
        digits.push_str("ff")?;
    }
    Ok(digits)
}

/// The message is relayed as it is.
fn passes(rt: &impl Abort, alloc: Global, digits: &str) -> Result<(), AllocError> {
    let words = four_words(alloc, &["relay", "-", PLAIN, digits])?;
    let written = format!(in alloc; "{digits}\n")?;
    answered(rt, alloc, words.as_slice(), 0, written.as_str(), "");
    Ok(())
}

/// A message of two million digits passes. So do a hundred groups in one another, and no more.
#[test]
fn passes_a_hundred_groups(rt: HostRuntime) -> Result<(), Fail> {
    passes(&rt, rt.alloc(), long_record(rt.alloc())?.as_str())?;
    passes(&rt, rt.alloc(), groups(rt.alloc(), 100)?.as_str())?;
    let deep = groups(rt.alloc(), 101)?;
    let words = four_words(rt.alloc(), &["relay", "-", PLAIN, deep.as_str()])?;
    answered(
        &rt,
        rt.alloc(),
        words.as_slice(),
        1,
        "",
        "refused decode Depth\n",
    );
    Ok(())
}

/// Sets, names and messages of each form of field, and what is printed of them.
static FORMS: [(&str, &str, &str, &str); 21] = [
    // The records of two messages of one field are those of one message.
    (
        MESSAGES,
        "package.MyMessage",
        "1a0208051a021042",
        "1a0408051042\n",
    ),
    (MESSAGES, "package.MyMessage", "1a0208051a020800", "1a00\n"),
    // A member of a oneof has presence.
    (MESSAGES, "package.MyMessage", "08001000", "1000\n"),
    // Another member clears a message of its oneof.
    (MEMBERS, "package.Q", "12020805080112021042", "12021042\n"),
    (MEMBERS, "package.Q", "08011200", "1200\n"),
    // An element of a list of groups.
    (GROUPS, "G", "0b08010c", "0b08010c\n"),
    // Elements, packed or not, are written in one record in proto3, and in one each in proto2; no record of none.
    (LISTS, "Foo", "08010a02020308040a00", "0a0401020304\n"),
    (OLD_LISTS, "Foo", "0a020102", "08010802\n"),
    (LISTS, "Foo", "0a00", "\n"),
    // Keys ascend, as numbers.
    (
        MAPS,
        "M",
        "0a0508011201610a0e08ffffffffffffffffff01120162",
        "0a0e08ffffffffffffffffff011201620a050801120161\n",
    ),
    (
        MAPS,
        "M",
        "12050a016b100112030a0161",
        "12030a016112050a016b1001\n",
    ),
    // The last entry of a key replaces the others.
    (
        MAPS,
        "M",
        "0a0508011201610a0508021201630a050801120162",
        "0a0508011201620a050802120163\n",
    ),
    // In an entry the last key and the last value count, and nothing is kept of other records.
    (MAPS, "M", "0a09120161180008010802", "0a050802120161\n"),
    // What an entry lacks is zero, false or empty, and written where it has presence.
    (MAPS, "M", "0a00", "0a00\n"),
    (OLD_MAPS, "M", "0a00", "0a0408001200\n"),
    // Numbers that the enum does not declare leave a packed record, each as a record of its own.
    (NUMBERS, "C", "120401070009", "1202010010071009\n"),
    (NUMBERS, "C", "120107", "1007\n"),
    // An entry of such a number stays unknown whole, and the map as it was.
    (
        NUMBERS,
        "C",
        "1a050a016110011a050a01611007",
        "1a050a016110011a050a01611007\n",
    ),
    // The records of an entry's message are those of one message; where none is, it is empty, and written.
    (
        NESTED_MAPS,
        "package.P",
        "120a08011202080512021042",
        "12080801120408051042\n",
    ),
    (NESTED_MAPS, "package.P", "1200", "12021200\n"),
    (
        NESTED_MAPS,
        "package.P",
        "12020801120b08ffffffffffffffffff01",
        "120d08ffffffffffffffffff011200120408011200\n",
    ),
];

#[test]
fn relays_each_form(rt: HostRuntime) -> Result<(), Fail> {
    for (set, name, digits, written) in &FORMS {
        let words = four_words(rt.alloc(), &["relay", set, name, digits])?;
        answered(&rt, rt.alloc(), words.as_slice(), 0, written, "");
    }
    Ok(())
}

/// Likewise, and why they are refused.
static FORM_FAULTS: [(&str, &str, &str, &str); 12] = [
    (
        MESSAGES,
        "package.MyMessage",
        "1b1c",
        "refused decode WireType\n",
    ),
    (GROUPS, "G", "0b080114", "refused decode EndGroup\n"),
    (GROUPS, "G", "0a020801", "refused decode WireType\n"),
    (LISTS, "Foo", "0a0180", "refused decode Truncated\n"),
    (LISTS, "Foo", "0d00000000", "refused decode WireType\n"),
    (MAPS, "M", "0801", "refused decode WireType\n"),
    (MAPS, "M", "0a020a00", "refused decode WireType\n"),
    (MAPS, "M", "0a03120161ff", "refused decode Truncated\n"),
    (MAPS, "M", "0a0212", "refused decode Truncated\n"),
    (MAPS, "M", "0a031201ff", "refused decode Utf8\n"),
    (MAPS, "M", "0c", "refused decode EndGroup\n"),
    // The message of an entry is a level too many, though none is written.
    (
        NESTED_MAPS,
        "package.P",
        "1aec011ae9011ae6011ae3011ae0011add011ada011ad7011ad4011ad1011ace011acb011ac8011ac5011ac2011abf011abc011ab9011ab6011ab3011ab0011aad011aaa011aa7011aa4011aa1011a9e011a9b011a98011a95011a92011a8f011a8c011a89011a86011a83011a80011a7e1a7c1a7a1a781a761a741a721a701a6e1a6c1a6a1a681a661a641a621a601a5e1a5c1a5a1a581a561a541a521a501a4e1a4c1a4a1a481a461a441a421a401a3e1a3c1a3a1a381a361a341a321a301a2e1a2c1a2a1a281a261a241a221a201a1e1a1c1a1a1a181a161a141a121a101a0e1a0c1a0a1a081a061a041a021200",
        "refused decode Depth\n",
    ),
];

#[test]
fn names_the_faults_of_each_form(rt: HostRuntime) -> Result<(), Fail> {
    for (set, name, digits, refusal) in &FORM_FAULTS {
        let words = four_words(rt.alloc(), &["relay", set, name, digits])?;
        answered(&rt, rt.alloc(), words.as_slice(), 1, "", refusal);
    }
    Ok(())
}
