//! What the program prints, and its statuses.

mod edit;
mod relay;

use protorelay_commands::run::{refuse_words, run};
use std::alloc::{AllocError, Global};
use std::io;
use std::io::{ErrorKind, Write};
use std::process::Abort;
use std::test::Fail;

const PLAIN: &str = "builtin.Plain";

const KEPT: &str = "builtin.Kept";

/// The words between single spaces; none, if there is no text.
fn words(alloc: Global, text: &str) -> Result<Vec<String>, AllocError> {
    if text.is_empty() {
        return Ok(Vec::new(alloc));
    }
    text.split(' ')
        .map(|word| word.to_string(alloc))
        .try_collect(alloc)
}

/// The words of a command line of four.
fn four_words(alloc: Global, words: &[&str; 4]) -> Result<Vec<String>, AllocError> {
    words
        .iter()
        .map(|word| word.to_string(alloc))
        .try_collect(alloc)
}

/// The words are answered by this status, and by what is printed on the one stream and on the other.
fn answered(rt: &impl Abort, alloc: Global, words: &[String], status: u8, out: &str, err: &str) {
    let mut printed = Vec::new(alloc);
    let mut warned = Vec::new(alloc);
    let answer = run(words, &mut printed, &mut warned);
    assert_eq!(rt; printed.as_slice(), out.as_bytes(), "{words:?}");
    assert_eq!(rt; warned.as_slice(), err.as_bytes(), "{words:?}");
    assert_eq!(rt; answer, status, "{words:?}");
}

/// The set of the file `s` in proto3 with the message type `S`, which has the field `int32 a = 1`.
const SMALL: &str = "0a1b0a0173220e0a015312090a0161180120012805620670726f746f33";

/// The same without its last byte, and with another one in its place, so that the syntax is `proto4`.
const CUT: &str = "0a1b0a0173220e0a015312090a0161180120012805620670726f746f";

const PROTO4: &str = "0a1b0a0173220e0a015312090a0161180120012805620670726f746f34";

/// The set of the file `m.proto` in proto3 with `message MyMessage { int32 foo = 1; oneof optional { int32 bar = 2; } MyMessage nested = 3; }` in `package`.
const SET_M: &str =
    "0a730a076d2e70726f746f12077061636b61676522570a094d794d657373616765120b0a03666f6f180120012805120d0a03626172180220012805480012220a066e657374656418032001280b32122e7061636b6167652e4d794d657373616765420a0a086f7074696f6e616c620670726f746f33";

/// Command lines with a set, and their statuses and what is printed.
static WITH_SETS: [([&str; 4], u8, &str, &str); 17] = [
    (
        ["show", SET_M, "package.MyMessage", "0896011a0210422a002801"],
        0,
        "field 1\nfield 3\nunknown 5 2\n",
        "",
    ),
    (
        ["show", SET_M, "package.Other", "0896011a0210422a002801"],
        1,
        "",
        "refused name\n",
    ),
    (
        ["relay", SET_M, "package.Other", "0801"],
        1,
        "",
        "refused name\n",
    ),
    (["relay", SMALL, "S", "0896011002"], 0, "0896011002\n", ""),
    (
        ["show", SMALL, "S", "0896011002"],
        0,
        "field 1\nunknown 2 1\n",
        "",
    ),
    (["relay", SMALL, "T", "08"], 1, "", "refused name\n"),
    (["show", SMALL, "T", "0"], 1, "", "refused name\n"),
    (["show", SMALL, "S", "0"], 1, "", "refused hex\n"),
    (
        ["relay", SMALL, "S", "08"],
        1,
        "",
        "refused decode Truncated\n",
    ),
    (
        ["show", SMALL, "S", "08"],
        1,
        "",
        "refused decode Truncated\n",
    ),
    (
        ["relay", CUT, "S", "08"],
        1,
        "",
        "refused pool Decode Truncated\n",
    ),
    (
        ["show", CUT, "S", "08"],
        1,
        "",
        "refused pool Decode Truncated\n",
    ),
    (
        ["relay", PROTO4, "S", "08"],
        1,
        "",
        "refused pool UnknownSyntax\n",
    ),
    (
        ["show", PROTO4, "S", "08"],
        1,
        "",
        "refused pool UnknownSyntax\n",
    ),
    // A set without files, and what is no set in hex digits.
    (["relay", "", "S", "08"], 1, "", "refused name\n"),
    (["relay", "0", "S", "08"], 1, "", "refused hex\n"),
    (["show", "0", "S", "08"], 1, "", "refused hex\n"),
];

#[test]
fn takes_descriptor_sets(rt: HostRuntime) -> Result<(), Fail> {
    for (line, status, out, err) in &WITH_SETS {
        let words = four_words(rt.alloc(), line)?;
        answered(&rt, rt.alloc(), words.as_slice(), *status, out, err);
    }
    Ok(())
}

/// The set of the file `m` in proto3 with `message M { map<int32, string> a = 1; map<string, sint64> b = 2; }`.
const MAPS: &str =
    "0a91010a016d2283010a014d12140a016118012003280b32092e4d2e41456e74727912140a016218022003280b32092e4d2e42456e7472791a280a0641456e747279120b0a036b6579180120012805120d0a0576616c75651802200128093a0238011a280a0642456e747279120b0a036b6579180120012809120d0a0576616c75651802200128123a023801620670726f746f33";

/// The same file in proto2, where keys and values have presence.
const OLD_MAPS: &str =
    "0a89010a016d2283010a014d12140a016118012003280b32092e4d2e41456e74727912140a016218022003280b32092e4d2e42456e7472791a280a0641456e747279120b0a036b6579180120012805120d0a0576616c75651802200128093a0238011a280a0642456e747279120b0a036b6579180120012809120d0a0576616c75651802200128123a023801";

/// The set of `package.MyMessage` in proto3, as protoc writes it: `int32 foo = 1; oneof optional { int32 bar = 2; } MyMessage nested = 3;`.
const MESSAGES: &str =
    "0a85010a07662e70726f746f12077061636b61676522690a094d794d65737361676512100a03666f6f1801200128055203666f6f12120a0362617218022001280548005203626172122a0a066e657374656418032001280b32122e7061636b6167652e4d794d65737361676552066e6573746564420a0a086f7074696f6e616c620670726f746f33";

/// The same with `message Q { oneof o { int32 a = 1; MyMessage b = 2; } }`.
const MEMBERS: &str =
    "0ac3010a07662e70726f746f12077061636b61676522690a094d794d65737361676512100a03666f6f1801200128055203666f6f12120a0362617218022001280548005203626172122a0a066e657374656418032001280b32122e7061636b6167652e4d794d65737361676552066e6573746564420a0a086f7074696f6e616c223c0a0151120e0a0161180120012805480052016112220a016218022001280b32122e7061636b6167652e4d794d657373616765480052016242030a0163620670726f746f33";

/// `message Foo { repeated int32 values = 1; }` in proto3.
const LISTS: &str =
    "0a300a07662e70726f746f221d0a03466f6f12160a0676616c756573180120032805520676616c756573620670726f746f33";

/// The same in proto2, with a range of extensions and `repeated int32 ext_values = 100`.
const OLD_LISTS: &str =
    "0a540a07662e70726f746f22240a03466f6f12160a0676616c756573180120032805520676616c7565732a05086410c8013a230a0a6578745f76616c75657312042e466f6f186420032805520965787456616c756573";

/// `message G { repeated group Item = 1 { optional int32 x = 1; } }` in proto2.
const GROUPS: &str =
    "0a410a07662e70726f746f22360a0147121b0a046974656d18012003280a32072e472e4974656d52046974656d1a140a044974656d120c0a0178180120012805520178";

/// The set of the file `f.proto` in proto2 with `enum E { A = 0; B = 1; }` and `message C { optional E e = 1;
/// repeated E r = 2 [packed = true]; map<string, E> m = 3; oneof o { E x = 4; int32 y = 5; } }`.
const NUMBERS: &str =
    "0ac6010a07662e70726f746f22a7010a014312100a016518012001280e32022e4552016512140a017218022003280e32022e454202100152017212170a016d18032003280b32092e432e4d456e74727952016d12120a017818042001280e32022e454800520178120e0a017918052001280548005201791a380a064d456e74727912100a036b657918012001280952036b657912180a0576616c756518022001280e32022e45520576616c75653a02380142030a016f2a110a014512050a0141100012050a01421001";

/// The set of the file of `package.MyMessage` with `message P { map<string, int32> m = 1; map<int32, MyMessage> q = 2; P p = 3; }`.
const NESTED_MAPS: &str =
    "0ae7020a07662e70726f746f12077061636b61676522690a094d794d65737361676512100a03666f6f1801200128055203666f6f12120a0362617218022001280548005203626172122a0a066e657374656418032001280b32122e7061636b6167652e4d794d65737361676552066e6573746564420a0a086f7074696f6e616c22df010a0150121f0a016d18012003280b32112e7061636b6167652e502e4d456e74727952016d121f0a017118022003280b32112e7061636b6167652e502e51456e74727952017112180a017018032001280b320a2e7061636b6167652e505201701a340a064d456e74727912100a036b657918012001280952036b657912140a0576616c7565180220012805520576616c75653a0238011a480a0651456e74727912100a036b657918012001280552036b657912280a0576616c756518022001280b32122e7061636b6167652e4d794d657373616765520576616c75653a023801620670726f746f33";

/// The set of the file `f` in proto2 with `message E { optional int32 a = 1; extensions 100 to 199; }` and the extension `x = 100`.
const EXTENDED: &str =
    "0a290a016622150a014512090a01611801200128052a05086410c8013a0d0a017812022e45186420012805";

/// The set of the file `f` in proto2 with `enum E { A = 0; B = 1; }` and `message C { optional E e = 1; }`.
const CLOSED: &str =
    "0a2a0a016622120a0143120d0a016518012001280e32022e452a110a014512050a0141100012050a01421001";

/// Sets, names and messages, and what is shown of them.
static SHOWN: [(&str, &str, &str, &str); 8] = [
    // Unknown fields are counted, in whatever order they came.
    (
        "-",
        PLAIN,
        "5000289601720040015001",
        "field 5\nfield 8\nunknown 10 2\nunknown 14 1\n",
    ),
    // A default without presence is not present; with it, it is.
    ("-", PLAIN, "28001500000080", "field 2\n"),
    ("-", KEPT, "28001500000080", "field 2\nfield 5\n"),
    ("-", PLAIN, "", ""),
    (
        EXTENDED,
        "E",
        "a00607a8060008ff01",
        "field 1\nextension 100\nunknown 101 1\n",
    ),
    // A number that the enum does not declare stands beside one that it does, or alone.
    (CLOSED, "C", "080108070800", "field 1\nunknown 1 1\n"),
    (CLOSED, "C", "0807", "unknown 1 1\n"),
    (NUMBERS, "C", "080108070800", "field 1\nunknown 1 1\n"),
];

#[test]
fn shows_what_is_present(rt: HostRuntime) -> Result<(), Fail> {
    for (set, name, digits, out) in &SHOWN {
        let words = four_words(rt.alloc(), &["show", set, name, digits])?;
        answered(&rt, rt.alloc(), words.as_slice(), 0, out, "");
    }
    Ok(())
}

const USAGE: &str = "usage: protorelay relay|show SET NAME HEX | edit SET NAME HEX PATH TEXT\n";

#[test]
fn prints_the_usage_for_any_other_command_line(rt: HostRuntime) -> Result<(), Fail> {
    let rows = [
        "",
        "relay",
        "relay - builtin.Plain",
        "relay - builtin.Plain 2800 ",
        "Relay - builtin.Plain 2800",
        "show - builtin.Plain",
        "show - builtin.Plain 2800 ",
        "edit - builtin.Plain 2800",
        "edit - builtin.Plain 2800 5",
        "edit - builtin.Plain 2800 5 1 ",
        "relay - builtin.Plain 2800 5 1",
    ];
    for text in rows {
        let words = words(rt.alloc(), text)?;
        answered(&rt, rt.alloc(), words.as_slice(), 2, "", USAGE);
    }
    Ok(())
}

#[test]
fn names_why_the_words_cannot_be_had(rt: HostRuntime) -> Result<(), Fail> {
    let mut err = Vec::new(rt.alloc());
    let refused = io::Error::from(ErrorKind::OutOfMemory);
    assert_eq!(rt; refuse_words(&refused, &mut err), 1);
    assert_eq!(rt; err.as_slice(), b"refused memory\n".as_slice());
    err.clear();
    let invalid = io::Error::from(ErrorKind::InvalidData);
    assert_eq!(rt; refuse_words(&invalid, &mut err), 2);
    assert_eq!(rt; err.as_slice(), USAGE.as_bytes());
    Ok(())
}

/// A writer with room for so many bytes, which refuses the next and, if it is to, a flush.
#[derive(Drop)]
struct Room {
    bytes: usize,
    flushes: bool,
}

impl Write for Room {
    fn write(&mut self, buf: &[u8]) -> io::Result<usize> {
        if self.bytes == 0 {
            return Err(io::Error::from(ErrorKind::StorageFull));
        }
        let taken = buf.len().min(self.bytes);
        self.bytes -= taken;
        Ok(taken)
    }

    fn flush(&mut self) -> io::Result<()> {
        if self.flushes {
            Ok(())
        } else {
            Err(io::Error::from(ErrorKind::StorageFull))
        }
    }
}

#[test]
fn answers_1_where_a_write_fails(rt: HostRuntime) -> Result<(), Fail> {
    // So many bytes are printed, the last of them a line feed.
    let rows = [
        ("relay - builtin.Plain 4001", 5, 0),
        ("show - builtin.Plain 4001", 8, 0),
        ("relay - none 4001", 13, 1),
        ("", 72, 2),
    ];
    for (text, length, status) in rows {
        let words = words(rt.alloc(), text)?;
        for bytes in 0..length {
            assert_eq!(rt;
                status_with_room(words.as_slice(), bytes, true),
                1,
                "{text} {bytes}"
            );
        }
        assert_eq!(rt;
            status_with_room(words.as_slice(), length, true),
            status,
            "{text}"
        );
        assert_eq!(rt;
            status_with_room(words.as_slice(), length, false),
            1,
            "{text}"
        );
    }
    Ok(())
}

/// The status where each stream has room for so many bytes, and can be flushed or not.
fn status_with_room(words: &[String], bytes: usize, flushes: bool) -> u8 {
    let mut out = Room { bytes, flushes };
    let mut err = Room { bytes, flushes };
    run(words, &mut out, &mut err)
}
