//! What is asked of fields and of extensions alike, through their trait.

use crate::shown::{Shown, made};
use crate::types::{CHOICES, T, Type, V, descriptor_of, extension_at, field_at, lent, named_field};
use prost_reflect::{FieldDescriptorLike, Kind};
use std::alloc::Global;
use std::process::Abort;

/// Whether it has presence, is a group, a list and a map, is packed, and may be.
type Shape = [bool; 6];

/// A field of `V`, its number and its shape.
static SHAPES: [(&str, u32, Shape); 6] = [
    ("f", 1, [true, false, false, false, false, true]),
    ("b", 2, [true, false, false, false, false, false]),
    ("values", 3, [false, false, true, false, false, true]),
    ("m", 4, [false, false, false, true, false, false]),
    ("e", 5, [true, false, false, false, false, true]),
    ("v", 7, [true, false, false, false, false, false]),
];

/// Whether it has this number and this shape.
fn is_shaped<F: FieldDescriptorLike>(field: &F, number: u32, expected: Shape) -> bool {
    let shape = [
        field.supports_presence(),
        field.is_group(),
        field.is_list(),
        field.is_map(),
        field.is_packed(),
        field.is_packable(),
    ];
    field.number() == number && shape == expected
}

/// Whether it is of the kind.
fn is_of<F: FieldDescriptorLike>(rt: &impl Abort, alloc: Global, field: &F, kind: Kind) -> bool {
    let found = lent(rt, alloc, field.kind().expect(rt, "memory"));
    *found == *lent(rt, alloc, kind)
}

/// Whether the extension of `V` and the packed field of `T` have their shapes, and are of their kinds.
fn are_shaped(rt: &impl Abort, alloc: Global) -> [bool; 4] {
    let extension = extension_at(rt, alloc, descriptor_of(rt, alloc, V), 100);
    let packed = named_field(rt, alloc, descriptor_of(rt, alloc, T), "a");
    [
        is_shaped(extension, 100, [true, false, false, false, false, true]),
        is_of(rt, alloc, extension, Kind::Sint64),
        is_shaped(packed, 1, [false, false, true, false, true, true]),
        is_of(rt, alloc, packed, Kind::Int32),
    ]
}

#[test]
fn fields_and_extensions_have_shapes(rt: HostRuntime) {
    let alloc = rt.alloc();
    let v = descriptor_of(&rt, alloc, V);
    for (name, number, shape) in &SHAPES {
        let field = named_field(&rt, alloc, v, name);
        assert!(rt; is_shaped(field, *number, *shape), "of the field {name}");
    }
    assert!(rt; are_shaped(&rt, alloc) == [true; 4]);
}

/// A message type, the number of a field or an extension of it, a value, and whether it is the default, fits, and is had where
/// it is stored. With presence each value is had, and an extension has presence; without it the default is not had.
static VALUES: [(Type, u32, Shown, [bool; 3]); 6] = [
    (V, 1, Shown::F32(0x3f80_0000), [true, true, true]),
    (V, 1, Shown::F32(0), [false, true, true]),
    (V, 100, Shown::I64(-3), [true, true, true]),
    (V, 100, Shown::I32(-3), [false, false, true]),
    (T, 3, Shown::I32(0), [true, true, false]),
    (T, 3, Shown::I32(1), [false, true, true]),
];

/// Whether the value is the default, fits, and is had where it is stored.
fn takes<F: FieldDescriptorLike>(
    rt: &impl Abort,
    alloc: Global,
    field: &F,
    shown: Shown,
) -> [bool; 3] {
    let value = lent(rt, alloc, made(rt, alloc, shown));
    let default = lent(rt, alloc, field.default_value(alloc).expect(rt, "memory"));
    let is_default = *default == *value && field.is_default_value(value);
    [is_default, field.is_valid(value), field.has(value)]
}

#[test]
fn fields_and_extensions_have_values(rt: HostRuntime) {
    let alloc = rt.alloc();
    for (owner, number, shown, expected) in &VALUES {
        let descriptor = descriptor_of(&rt, alloc, *owner);
        let found = if *number < 100 {
            takes(
                &rt,
                alloc,
                field_at(&rt, alloc, descriptor, *number),
                *shown,
            )
        } else {
            takes(
                &rt,
                alloc,
                extension_at(&rt, alloc, descriptor, *number),
                *shown,
            )
        };
        assert!(rt; found == *expected, "{number}");
    }
}

/// Whether it is a member of the oneof `first`.
fn is_of_first<F: FieldDescriptorLike>(rt: &impl Abort, alloc: Global, field: &F) -> bool {
    match lent(rt, alloc, field.containing_oneof().expect(rt, "memory")) {
        Some(oneof) => oneof.name() == "first",
        None => false,
    }
}

/// Whether the fields 4 and 1 of `Choices` are members of the oneof `first`, and whether its extension is of no oneof.
fn are_members(rt: &impl Abort, alloc: Global) -> [bool; 3] {
    let choices = descriptor_of(rt, alloc, CHOICES);
    let fourth = is_of_first(rt, alloc, field_at(rt, alloc, choices, 4));
    let first = is_of_first(rt, alloc, field_at(rt, alloc, choices, 1));
    let extension = extension_at(rt, alloc, choices, 12);
    let oneof = FieldDescriptorLike::containing_oneof(extension).expect(rt, "memory");
    [fourth, first, oneof.is_none()]
}

#[test]
fn fields_alone_are_members_of_oneofs(rt: HostRuntime) {
    assert!(rt; are_members(&rt, rt.alloc()) == [true, false, true]);
}
