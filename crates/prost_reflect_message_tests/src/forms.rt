//! Values and keys of each form, copied, put in order and handed back.

use crate::setting::{Answer, Way, answers};
use crate::shown::{Form, Shown, form_of, key_of, made};
use crate::types::{EVERY, MY_MESSAGE, lent, lent_message};
use prost_reflect::{MapKey, Value};
use std::alloc::Global;
use std::cmp::Ordering;
use std::hash::{DefaultHasher, Hash, Hasher};
use std::process::Abort;

/// A message of `Every` with fields of some forms, an extension and unknown fields.
const MESSAGE: Shown = Shown::Message(
    EVERY,
    b"\x28\x07\x4a\x01x\x5a\x02\x28\x01\xa9\x01\x01\x02\x03\x04\x05\x06\x07\x08\x98\x3f\x01\xa0\x06\x07\xc8\x06\x07",
);

/// Two messages of `MyMessage`.
const FIVE: Shown = Shown::Message(MY_MESSAGE, b"\x08\x05");

const SIX: Shown = Shown::Message(MY_MESSAGE, b"\x08\x06");

/// Keys in order, by their variants and then by their values, texts by their bytes; and a value for each in a map.
const KEYS: &[(Shown, Shown)] = &[
    (Shown::Bool(false), Shown::Text("v")),
    (Shown::Bool(true), Shown::Text("v")),
    (Shown::I32(-2_147_483_648), Shown::Text("v")),
    (Shown::I32(0), Shown::Text("v")),
    (Shown::I32(5), Shown::Text("v")),
    (Shown::I32(2_147_483_647), Shown::Text("v")),
    (Shown::I64(-9_223_372_036_854_775_808), Shown::Text("v")),
    (Shown::I64(-1), Shown::Text("v")),
    (Shown::I64(9_223_372_036_854_775_807), Shown::Text("v")),
    (Shown::U32(0), Shown::Text("v")),
    (Shown::U32(2_147_483_648), Shown::Text("v")),
    (Shown::U32(4_294_967_295), Shown::Text("v")),
    (Shown::U64(0), Shown::Text("v")),
    (Shown::U64(18_446_744_073_709_551_615), Shown::Text("v")),
    (Shown::Text(""), Shown::Text("v")),
    (Shown::Text("B"), Shown::Text("v")),
    (Shown::Text("a"), Shown::Text("v")),
    (Shown::Text("a\u{0}"), Shown::Text("v")),
    (Shown::Text("foo"), Shown::Text("v")),
    (Shown::Text("\u{e9}"), Shown::Text("v")),
];

/// A value of each form, no two of which are equal, and whether it becomes a key, as a bool, an integer and a text do. Floats are
/// compared by their bits, so a NaN is equal to itself, and the zeros are not equal.
static FORMS: [(Form, bool); 30] = [
    (Form::One(Shown::Bool(true)), true),
    (Form::One(Shown::I32(-1)), true),
    (Form::One(Shown::I64(-2)), true),
    (Form::One(Shown::U32(3)), true),
    (Form::One(Shown::U64(4)), true),
    (Form::One(Shown::F32(5)), false),
    (Form::One(Shown::F32(0)), false),
    (Form::One(Shown::F32(0x8000_0000)), false),
    (Form::One(Shown::F32(0x7fc0_0000)), false),
    (Form::One(Shown::F64(6)), false),
    (Form::One(Shown::Number(-7)), false),
    (Form::One(Shown::Text("")), true),
    (Form::One(Shown::Text("a text")), true),
    (Form::LongText, true),
    (Form::One(Shown::Bytes(b"")), false),
    (Form::LongBytes, false),
    (Form::One(Shown::Message(EVERY, b"")), false),
    (Form::One(MESSAGE), false),
    (Form::One(Shown::NoItems), false),
    (Form::Numbers(0, 300), false),
    (Form::Numbers(1, 3), false),
    (Form::List(0, &[MESSAGE, MESSAGE]), false),
    (Form::List(149, &[FIVE]), false),
    (Form::List(149, &[SIX]), false),
    (Form::One(Shown::NoPairs), false),
    (Form::NumberMap(300), false),
    (Form::Map(KEYS), false),
    (Form::Map(&[(Shown::Text("k"), MESSAGE)]), false),
    (
        Form::Map(&[
            (Shown::Text("a"), Shown::I32(1)),
            (Shown::Text("b"), Shown::I32(2)),
        ]),
        false,
    ),
    (
        Form::Map(&[
            (Shown::Text("a"), Shown::I32(2)),
            (Shown::Text("b"), Shown::I32(1)),
        ]),
        false,
    ),
];

/// A map whose entries are put into it in both orders.
static COUNTS: [Form; 2] = [
    Form::Map(&[
        (Shown::Text("a"), Shown::I32(1)),
        (Shown::Text("b"), Shown::I32(2)),
    ]),
    Form::Map(&[
        (Shown::Text("b"), Shown::I32(2)),
        (Shown::Text("a"), Shown::I32(1)),
    ]),
];

/// Whether the value of the form at the place is equal to its copy, and to no value of another form.
fn is_apart(rt: &impl Abort, alloc: Global, place: usize, form: Form) -> bool {
    let value = lent(rt, alloc, form_of(rt, alloc, form));
    for (other, (second, _)) in FORMS.iter().enumerate() {
        let second = lent(rt, alloc, form_of(rt, alloc, *second));
        if (*value == *second) != (place == other) {
            return false;
        }
    }
    *value == *lent(rt, alloc, value.clone().expect(rt, "memory"))
}

/// Whether the field of the number 10 takes the value of the form if it is a message, and else hands it back.
fn is_handed_back(rt: &impl Abort, alloc: Global, form: Form) -> bool {
    let message = lent_message(rt, alloc, EVERY, b"");
    let answer = match form {
        Form::One(Shown::Message(_, _)) => Answer::Taken,
        _ => Answer::Refused("f10", "expected a value of type 'e.Every'"),
    };
    answers(rt, alloc, message, Way::Number(10), form, answer)
}

/// Whether the value of the form becomes a key.
fn becomes_key(rt: &impl Abort, alloc: Global, form: Form) -> bool {
    form_of(rt, alloc, form).into_map_key().is_some()
}

#[test]
fn each_form_is_copied_and_handed_back_and_some_become_keys(rt: HostRuntime) {
    let alloc = rt.alloc();
    for (place, (form, is_key)) in FORMS.iter().enumerate() {
        assert!(rt; is_apart(&rt, alloc, place, *form), "{place}");
        assert!(rt; is_handed_back(&rt, alloc, *form), "{place}");
        assert!(rt; becomes_key(&rt, alloc, *form) == *is_key, "{place}");
    }
}

#[test]
fn entries_are_equal_in_any_order_of_putting(rt: HostRuntime) {
    let map = lent(&rt, rt.alloc(), form_of(&rt, rt.alloc(), COUNTS[0]));
    assert!(rt; *map == *lent(&rt, rt.alloc(), form_of(&rt, rt.alloc(), COUNTS[1])));
}

fn hash_of(key: &MapKey) -> u64 {
    let mut state = DefaultHasher::new();
    key.hash(&mut state);
    state.finish()
}

/// Whether the keys are in this order, and are equal and of one hash where it says so.
fn are_in_order(left: &MapKey, order: Ordering, right: &MapKey) -> bool {
    left.cmp(right) == order
        && (*left == *right) == order.is_eq()
        && (hash_of(left) == hash_of(right)) == order.is_eq()
}

/// Whether the key is equal to its copy, this becomes the value, and the value becomes the key.
fn comes_back(rt: &impl Abort, alloc: Global, shown: Shown) -> bool {
    let key = lent(rt, alloc, key_of(rt, alloc, shown));
    let copy = lent(rt, alloc, key.clone().expect(rt, "memory"));
    let value = lent(rt, alloc, Value::from(key_of(rt, alloc, shown)));
    let again = Value::from(key.clone().expect(rt, "memory")).into_map_key();
    let again = lent(rt, alloc, again.expect(rt, "a key"));
    let expected = lent(rt, alloc, made(rt, alloc, shown));
    *copy == *key && *value == *expected && *again == *key
}

/// Keys of each two variants.
#[test]
fn keys_are_in_order_and_become_values_and_keys_again(rt: HostRuntime) {
    let alloc = rt.alloc();
    for (low, (left, _)) in KEYS.iter().enumerate() {
        assert!(rt; comes_back(&rt, alloc, *left), "{low}");
        let left = lent(&rt, alloc, key_of(&rt, alloc, *left));
        for (high, (right, _)) in KEYS.iter().enumerate() {
            let right = lent(&rt, alloc, key_of(&rt, alloc, *right));
            assert!(rt; are_in_order(left, low.cmp(&high), right), "{low} {high}");
        }
    }
}
