//! Copies of unknown fields, and sets that grow.

use prost_reflect_wire::{
    FieldNumber, RECURSION_LIMIT, UnknownField, UnknownFieldSet, UnknownFieldValue,
};
use std::alloc::{AllocError, Global};
use std::test::Fail;

/// The group of number 3 with the group of number 2 with `hello`.
static NESTED: &[u8] = b"\x1b\x13\x0a\x05hello\x14\x1c";

/// The only field of a group.
fn only_in(value: &UnknownFieldValue) -> Option<&UnknownField> {
    match value {
        UnknownFieldValue::Group(fields) if fields.len() == 1 => fields.iter().next(),
        _ => None,
    }
}

/// Whether the value is that of the outer group.
fn is_nested(value: &UnknownFieldValue) -> bool {
    let Some(inner) = only_in(value) else {
        return false;
    };
    let Some(text) = only_in(inner.value()) else {
        return false;
    };
    let UnknownFieldValue::LengthDelimited(bytes) = text.value() else {
        return false;
    };
    inner.number() == 2 && text.number() == 1 && bytes.as_slice() == b"hello".as_slice()
}

/// Whether the field is equal to its copy, and a copy of its value is that of the outer group.
fn is_copied(field: &UnknownField) -> Result<bool, AllocError> {
    let is_equal = field.clone()? == *field;
    Ok(is_nested(&field.value().clone()?) && is_equal)
}

#[test]
fn nested_groups_are_copied(rt: HostRuntime) -> Result<(), Fail> {
    let mut cursor = NESTED;
    let field = UnknownField::decode(rt.alloc(), &mut cursor, RECURSION_LIMIT)?;
    assert!(rt; is_nested(field.value()) && is_copied(&field)?);
    Ok(())
}

/// The fields 0 to 4 of number 1, which are more than a set has room for at first.
fn set_of_five(alloc: Global) -> Result<UnknownFieldSet, AllocError> {
    let mut set = UnknownFieldSet::new(alloc);
    for value in 0..5 {
        let field = UnknownField::new(FieldNumber::new(1), UnknownFieldValue::Varint(value));
        set.insert(field)?;
    }
    Ok(set)
}

/// Whether the set is written as these bytes behind a mark.
fn is_written_as(alloc: Global, set: &UnknownFieldSet, bytes: &[u8]) -> Result<bool, Fail> {
    let mut out = Vec::from_slice(alloc, b"<")?;
    set.encode(&mut out)?;
    Ok(out.as_slice() == bytes)
}

#[test]
fn a_set_grows_and_is_copied(rt: HostRuntime) -> Result<(), Fail> {
    let copy = set_of_five(rt.alloc())?.clone()?;
    assert!(rt;
        is_written_as(
            rt.alloc(),
            &copy,
            b"<\x08\x00\x08\x01\x08\x02\x08\x03\x08\x04"
        )?
    );
    Ok(())
}
