//! Values that are set at paths.

use crate::protorelay::{EXTENDED, LISTS, MAPS, MEMBERS, NUMBERS, PLAIN, SET_M, answered};
use protorelay_commands::run::run;
use std::alloc::{AllocError, Global};
use std::test::Fail;

/// The words of a command line of six.
fn six_words(alloc: Global, words: &[&str; 6]) -> Result<Vec<String>, AllocError> {
    words
        .iter()
        .map(|word| word.to_string(alloc))
        .try_collect(alloc)
}

/// Sets, names, messages, paths and texts, and their statuses and what is printed.
static EDITED: [([&str; 6], u8, &str, &str); 21] = [
    (
        ["edit", SET_M, "package.MyMessage", "1a021042", "1", "5"],
        0,
        "08051a021042\n",
        "",
    ),
    // A default without presence is none; unknown fields stay.
    (
        ["edit", SET_M, "package.MyMessage", "0896015003", "1", "0"],
        0,
        "5003\n",
        "",
    ),
    (
        [
            "edit",
            SET_M,
            "package.MyMessage",
            "1a0210422801",
            "3.1",
            "7",
        ],
        0,
        "1a04080710422801\n",
        "",
    ),
    // The other members of a oneof go.
    (
        ["edit", MEMBERS, "package.Q", "12021042", "1", "0"],
        0,
        "0800\n",
        "",
    ),
    // An undeclared number stays beside the one that is set.
    (
        ["edit", NUMBERS, "C", "0807", "1", "B"],
        0,
        "08010807\n",
        "",
    ),
    // A message, a text that spells no number, a list and a map.
    (
        ["edit", SET_M, "package.MyMessage", "0896015003", "3", "0"],
        1,
        "",
        "refused value\n",
    ),
    (
        ["edit", SET_M, "package.MyMessage", "0896015003", "1", "x"],
        1,
        "",
        "refused value\n",
    ),
    (
        ["edit", LISTS, "Foo", "", "1", "5"],
        1,
        "",
        "refused value\n",
    ),
    (["edit", MAPS, "M", "", "1", "5"], 1, "", "refused value\n"),
    // No field; an extension is none, and a path leads through messages alone.
    (
        ["edit", SET_M, "package.MyMessage", "0896015003", "42", "0"],
        1,
        "",
        "refused number\n",
    ),
    (
        ["edit", EXTENDED, "E", "", "100", "5"],
        1,
        "",
        "refused number\n",
    ),
    (
        ["edit", SET_M, "package.MyMessage", "", "1.1", "0"],
        1,
        "",
        "refused number\n",
    ),
    // Digits alone between dots, and no number past the greatest u32.
    (["edit", "-", PLAIN, "", "", "1"], 1, "", "refused number\n"),
    (
        ["edit", "-", PLAIN, "", "5.", "1"],
        1,
        "",
        "refused number\n",
    ),
    (
        ["edit", "-", PLAIN, "", "+5", "1"],
        1,
        "",
        "refused number\n",
    ),
    (
        ["edit", "-", PLAIN, "", "4294967301", "1"],
        1,
        "",
        "refused number\n",
    ),
    // The first refusal is named.
    (
        ["edit", "-", "builtin.None", "2x", "x", "y"],
        1,
        "",
        "refused name\n",
    ),
    (["edit", "-", PLAIN, "2x", "x", "y"], 1, "", "refused hex\n"),
    (
        ["edit", "-", PLAIN, "28", "x", "y"],
        1,
        "",
        "refused number\n",
    ),
    (
        ["edit", "-", PLAIN, "28", "5", "y"],
        1,
        "",
        "refused value\n",
    ),
    (
        ["edit", "-", PLAIN, "28", "5", "1"],
        1,
        "",
        "refused decode Truncated\n",
    ),
];

#[test]
fn sets_values_at_paths(rt: HostRuntime) -> Result<(), Fail> {
    for (line, status, out, err) in &EDITED {
        let words = six_words(rt.alloc(), line)?;
        answered(&rt, rt.alloc(), words.as_slice(), *status, out, err);
    }
    Ok(())
}

/// A path goes through a hundred messages, and no more.
#[test]
fn sets_a_value_a_hundred_messages_deep(rt: HostRuntime) -> Result<(), Fail> {
    let alloc = rt.alloc();
    let deep = threes(alloc, 100)?;
    let words = six_words(
        alloc,
        &["edit", SET_M, "package.MyMessage", "", deep.as_str(), "0"],
    )?;
    let mut printed = Vec::new(alloc);
    let mut warned = Vec::new(alloc);
    assert_eq!(rt; run(words.as_slice(), &mut printed, &mut warned), 0);
    let deep = threes(alloc, 101)?;
    let words = six_words(
        alloc,
        &["edit", SET_M, "package.MyMessage", "", deep.as_str(), "0"],
    )?;
    answered(&rt, alloc, words.as_slice(), 1, "", "refused number\n");
    Ok(())
}

/// So many times the number 3, and then 2.
fn threes(alloc: Global, levels: usize) -> Result<String, AllocError> {
    let mut path = String::new(alloc);
    for _ in 0..levels {
        path.push_str("3.")?;
    }
    path.push_str("2")?;
    Ok(path)
}
