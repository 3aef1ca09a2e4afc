//! Bytes from the encoding guide and from other programs, and refused memory.

ghost use Rattle.std.specs.Prelude.{◌≤◌, ◌<◌, ◌^◌};

use prost_reflect_wire::{
    BackBuffer, ByteSink, DecodeError, EncodeError, FieldNumber, RECURSION_LIMIT, Sink,
    UnknownField, UnknownFieldSet, UnknownFieldValue, WireType, decode_value, prepend_fields,
    skip_value, write_field, write_fields, write_key,
};
use std::alloc::{AllocError, Global};
use std::process::Abort;
use std::test::Fail;

/// The group of the number 3 with `hello`, 10 and 11, and what stands behind it.
static GROUP_AND_TAIL: &[u8] = b"\x1b\x0a\x05hello\x10\x0a\x10\x0b\x1ctail";

/// Whether the field is the group of the number 3, and is written as its bytes.
fn is_group(alloc: Global, field: &UnknownField) -> Result<bool, Fail> {
    let mut out = Vec::new(alloc);
    field.encode(&mut out)?;
    let is_written = out.as_slice() == b"\x1b\x0a\x05hello\x10\x0a\x10\x0b\x1c".as_slice();
    Ok(is_written && field.number() == 3 && field.wire_type() == WireType::StartGroup)
}

#[test]
fn group_and_tail(rt: HostRuntime) -> Result<(), Fail> {
    let mut cursor = GROUP_AND_TAIL;
    let field = UnknownField::decode(rt.alloc(), &mut cursor, RECURSION_LIMIT)?;
    assert!(rt; cursor == b"tail".as_slice() && is_group(rt.alloc(), &field)?);
    Ok(())
}

/// Bytes in hex within so many groups of number 5, how many levels are allowed, and the bytes that are written of the
/// field which is read, or why none is. The answers follow from the rules and the examples of the encoding guide; the
/// keys of number 0, the early ends and the end keys that close nothing are those of protobuf's conformance tests.
static ROWS: [(usize, u32, &str, Result<&str, DecodeError>); 106] = [
    // Varints, and the tenth byte.
    (0, 100, "0800", Ok("0800")),
    (0, 100, "087f", Ok("087f")),
    (0, 100, "088001", Ok("088001")),
    (0, 100, "089601", Ok("089601")),
    (0, 100, "08ffffffff0f", Ok("08ffffffff0f")),
    (0, 100, "08ffffffffffffffff7f", Ok("08ffffffffffffffff7f")),
    (
        0,
        100,
        "0880808080808080808001",
        Ok("0880808080808080808001"),
    ),
    (
        0,
        100,
        "08feffffffffffffffff01",
        Ok("08feffffffffffffffff01"),
    ),
    (
        0,
        100,
        "08ffffffffffffffffff01",
        Ok("08ffffffffffffffffff01"),
    ),
    // Varints with needless digits.
    (0, 100, "088000", Ok("0800")),
    (0, 100, "188300", Ok("1803")),
    (0, 100, "1803", Ok("1803")),
    (0, 100, "088180808000", Ok("0801")),
    (0, 100, "0880808080808080808000", Ok("0800")),
    (0, 100, "08ffffffffffffffffff00", Ok("08ffffffffffffffff7f")),
    (0, 100, "0881808080808080808000", Ok("0801")),
    // Varints past 64 bits.
    (0, 100, "0880808080808080808002", Err(DecodeError::Varint)),
    (0, 100, "08ffffffffffffffffff02", Err(DecodeError::Varint)),
    (0, 100, "088080808080808080807f", Err(DecodeError::Varint)),
    (0, 100, "0880808080808080808080", Err(DecodeError::Varint)),
    (0, 100, "088080808080808080808000", Err(DecodeError::Varint)),
    (0, 100, "088080808080808080808101", Err(DecodeError::Varint)),
    (0, 100, "0a80808080808080808002", Err(DecodeError::Varint)),
    (0, 100, "0affffffffffffffffffff01", Err(DecodeError::Varint)),
    (0, 100, "ffffffffffffffffff02", Err(DecodeError::Varint)),
    (0, 100, "8080808080808080808001", Err(DecodeError::Varint)),
    // Keys: the least and the greatest numbers, and needless digits.
    (0, 100, "7801", Ok("7801")),
    (0, 100, "800101", Ok("800101")),
    (0, 100, "f8ffffff0f00", Ok("f8ffffff0f00")),
    (0, 100, "fdffffff0f01020304", Ok("fdffffff0f01020304")),
    (0, 100, "880001", Ok("0801")),
    (0, 100, "88800000", Ok("0800")),
    (0, 100, "8880808080808080800001", Ok("0801")),
    // Keys of number 0.
    (0, 100, "00", Err(DecodeError::Key)),
    (0, 100, "0001", Err(DecodeError::Key)),
    (0, 100, "800001", Err(DecodeError::Key)),
    (0, 100, "014445414442454546", Err(DecodeError::Key)),
    (0, 100, "020101", Err(DecodeError::Key)),
    (0, 100, "0304", Err(DecodeError::Key)),
    (0, 100, "04", Err(DecodeError::Key)),
    (0, 100, "0544454144", Err(DecodeError::Key)),
    // Keys of wire types 6 and 7.
    (0, 100, "0601", Err(DecodeError::Key)),
    (0, 100, "0701", Err(DecodeError::Key)),
    (0, 100, "0e00", Err(DecodeError::Key)),
    (0, 100, "0e", Err(DecodeError::Key)),
    (0, 100, "0f00", Err(DecodeError::Key)),
    (0, 100, "8e0000", Err(DecodeError::Key)),
    (0, 100, "feffffff0f00", Err(DecodeError::Key)),
    (0, 100, "ffffffff0f00", Err(DecodeError::Key)),
    // Keys past 32 bits.
    (0, 100, "808080801000", Err(DecodeError::Key)),
    (0, 100, "8080808010", Err(DecodeError::Key)),
    (0, 100, "888080801001", Err(DecodeError::Key)),
    (0, 100, "ffffffff1f01", Err(DecodeError::Key)),
    (0, 100, "808080808080808080010c", Err(DecodeError::Key)),
    (0, 100, "8880808080808080800101", Err(DecodeError::Key)),
    (0, 100, "ffffffffffffffffff0100", Err(DecodeError::Key)),
    // Lengths.
    (0, 100, "0a00", Ok("0a00")),
    (0, 100, "120774657374696e67", Ok("120774657374696e67")),
    (0, 100, "1a03089601", Ok("1a03089601")),
    (0, 100, "1a021042", Ok("1a021042")),
    (0, 100, "3206038e029ea705", Ok("3206038e029ea705")),
    (0, 100, "7a0769a6be6db6ff58", Ok("7a0769a6be6db6ff58")),
    (0, 100, "0a810061", Ok("0a0161")),
    (0, 100, "0a80808080808080808000", Ok("0a00")),
    (0, 100, "0a0241", Err(DecodeError::Truncated)),
    (0, 100, "0affffffff0761", Err(DecodeError::Truncated)),
    (0, 100, "0a808080801061", Err(DecodeError::Truncated)),
    (
        0,
        100,
        "0affffffffffffffff7f61",
        Err(DecodeError::Truncated),
    ),
    (
        0,
        100,
        "0affffffffffffffffff0161",
        Err(DecodeError::Truncated),
    ),
    // Fixed widths.
    (0, 100, "099a9999999999f13f", Ok("099a9999999999f13f")),
    (0, 100, "15cdcc0c40", Ok("15cdcc0c40")),
    (0, 100, "0961626364656667", Err(DecodeError::Truncated)),
    (0, 100, "0d616263", Err(DecodeError::Truncated)),
    // Groups.
    (0, 100, "0b0c", Ok("0b0c")),
    (
        0,
        100,
        "1b0a0568656c6c6f100a100b1c",
        Ok("1b0a0568656c6c6f100a100b1c"),
    ),
    (0, 100, "fbffffff0ffcffffff0f", Ok("fbffffff0ffcffffff0f")),
    (0, 100, "8b008c8000", Ok("0b0c")),
    (0, 100, "9b8000880083009c00", Ok("1b08031c")),
    (0, 100, "0b0a010c0c", Ok("0b0a010c0c")),
    (0, 100, "0b0d0c0c0c0c0c", Ok("0b0d0c0c0c0c0c")),
    (0, 100, "0b131b1c1412000c", Ok("0b131b1c1412000c")),
    (0, 100, "0b0801", Err(DecodeError::Truncated)),
    (0, 100, "0b0a020c", Err(DecodeError::Truncated)),
    (0, 100, "0b04", Err(DecodeError::Key)),
    (0, 100, "0b0e000c", Err(DecodeError::Key)),
    (
        0,
        100,
        "0b08ffffffffffffffffff020c",
        Err(DecodeError::Varint),
    ),
    // End keys that close no open group of their number.
    (0, 100, "0c", Err(DecodeError::EndGroup)),
    (0, 100, "944d", Err(DecodeError::EndGroup)),
    (0, 100, "0b14", Err(DecodeError::EndGroup)),
    (0, 100, "cb0cd40c", Err(DecodeError::EndGroup)),
    (0, 100, "0b130c14", Err(DecodeError::EndGroup)),
    (0, 100, "0b131414", Err(DecodeError::EndGroup)),
    // Levels.
    (0, 1, "0b0c", Ok("0b0c")),
    (0, 0, "0b0c", Err(DecodeError::Depth)),
    (0, 0, "1b0a0568656c6c6f100a100b1c", Err(DecodeError::Depth)),
    (0, 0, "0801", Ok("0801")),
    (0, 2, "0b13140c", Ok("0b13140c")),
    (0, 1, "0b13140c", Err(DecodeError::Depth)),
    (99, 100, "", Ok("")),
    (100, 100, "", Ok("")),
    (101, 100, "", Err(DecodeError::Depth)),
    (100, 100, "088300", Ok("0803")),
    (99, 100, "0b0c", Ok("0b0c")),
    (100, 100, "0b0c", Err(DecodeError::Depth)),
    (100, 99, "", Err(DecodeError::Depth)),
    (0, 100, "", Err(DecodeError::Truncated)),
];

#[test]
fn spellings_and_refusals(rt: HostRuntime) -> Result<(), Fail> {
    for (groups, levels, text, answer) in &ROWS {
        let input = in_groups(rt.alloc(), *groups, text)?;
        match answer {
            Ok(again) => {
                let again = in_groups(rt.alloc(), *groups, again)?;
                assert!(rt;
                    is_written_as(rt.alloc(), &input, *levels, &again)?,
                    "of {text}"
                );
            }
            Err(error) => {
                let refused = refusal(rt.alloc(), &input, *levels);
                assert!(rt; refused == Some(*error), "at {text}");
            }
        }
    }
    Ok(())
}

/// Whether all the bytes spell a field that is written as `again`, and no part in front of their end spells one.
fn is_written_as(alloc: Global, input: &[u8], levels: u32, again: &[u8]) -> Result<bool, Fail> {
    if levels > RECURSION_LIMIT {
        return Ok(false);
    }
    let mut cursor = input;
    let field = UnknownField::decode(alloc, &mut cursor, levels)?;
    let mut out = Vec::new(alloc);
    field.encode(&mut out)?;
    let is_whole = cursor.is_empty() && field.encoded_len() == Some(again.len());
    Ok(out.as_slice() == again && is_whole && is_refused_in_part(alloc, input, levels))
}

/// Whether each part of a field that ends before its last byte is refused.
fn is_refused_in_part(alloc: Global, input: &[u8], levels: u32) -> bool {
    for len in 0..input.len() {
        if refusal(alloc, &input[..len], levels) != Some(DecodeError::Truncated) {
            return false;
        }
    }
    true
}

/// Why the bytes begin with no field, where the cursor stays at them.
fn refusal(alloc: Global, input: &[u8], levels: u32) -> Option<DecodeError> {
    if levels > RECURSION_LIMIT {
        return None;
    }
    let mut cursor = input;
    let error = UnknownField::decode(alloc, &mut cursor, levels).err();
    if cursor.len() == input.len() {
        error
    } else {
        None
    }
}

/// The bytes of the hex text within so many groups of number 5.
pub(crate) fn in_groups(alloc: Global, count: usize, text: &str) -> Result<Vec<u8>, Fail> {
    let mut all = vec![in alloc; 0x2b; count]?;
    push_hex(&mut all, text)?;
    all.resize(all.len().saturating_add(count), 0x2c)?;
    Ok(all)
}

/// Appends the bytes of the hex text.
fn push_hex(all: &mut Vec<u8>, text: &str) -> Result<(), Fail> {
    for pair in text.as_bytes().chunks(2) {
        all.push(u8::from_str_radix(str::from_utf8(pair)?, 16)?)?;
    }
    Ok(())
}

/// Whether the bytes behind the key of a delimited field of the number 3 are read up to the rest, and it is written as `1a021042`.
fn is_1042_behind_its_key(alloc: Global, bytes: &[u8], rest: &[u8]) -> Result<bool, Fail> {
    let mut cursor = bytes;
    let wire_type = WireType::LengthDelimited;
    let field = UnknownField::decode_value(alloc, 3, wire_type, &mut cursor, 0)?;
    let mut out = Vec::new(alloc);
    field.encode(&mut out)?;
    Ok(cursor == rest && out.as_slice() == [0x1a, 0x02, 0x10, 0x42].as_slice())
}

/// Whether the value is that of the bytes of a varint, which are read up to the rest.
fn is_150(alloc: Global) -> Result<bool, Fail> {
    let number = FieldNumber::new(5);
    let (value, rest) = decode_value(alloc, number, WireType::Varint, &[0x96, 0x01, 0x7f], 0)?;
    let is_given = varint_field(5, 150).value() == &value;
    Ok(value == UnknownFieldValue::Varint(150) && is_given && rest == [0x7f].as_slice())
}

#[test]
fn values_behind_a_key(rt: HostRuntime) -> Result<(), Fail> {
    assert!(rt; is_1042_behind_its_key(rt.alloc(), &[0x02, 0x10, 0x42, 0x7f], &[0x7f])?);
    assert!(rt; is_1042_behind_its_key(rt.alloc(), &[0x02, 0x10, 0x42], &[])?);
    assert!(rt; is_150(rt.alloc())?);
    let number = FieldNumber::new(3);
    let rest = skip_value(number, WireType::StartGroup, &GROUP_AND_TAIL[1..], 1)?;
    assert!(rt; rest == b"tail".as_slice());
    Ok(())
}

fn varint_field(number: u32, value: u64) -> UnknownField
    requires some { 1 ≤ number }
    requires below { number < 2 ^ 29 }
{
    UnknownField::new(FieldNumber::new(number), UnknownFieldValue::Varint(value))
}

/// The fields 7 and 9 of number 1.
fn two_fields(alloc: Global) -> Result<UnknownFieldSet, AllocError> {
    let mut set = UnknownFieldSet::new(alloc);
    set.insert(varint_field(1, 7))?;
    set.insert(varint_field(1, 9))?;
    Ok(set)
}

/// The same, made of a list.
fn two_in_a_list(alloc: Global) -> Result<UnknownFieldSet, AllocError> {
    let mut fields = Vec::new(alloc);
    fields.push(varint_field(1, 7))?;
    fields.push(varint_field(1, 9))?;
    Ok(UnknownFieldSet::from_fields(fields))
}

/// Whether the set has two fields, is equal to its copy, and is shown.
fn is_list_of_two(alloc: Global, set: &UnknownFieldSet) -> Result<bool, AllocError> {
    let is_copied = set.clone()? == *set;
    let is_shown = !format!(in alloc; "{set:?}")?.is_empty();
    Ok(is_copied && is_shown && set.len() == 2 && !set.is_empty())
}

/// Whether the two fields are written in order behind 2000 bytes, and counted.
fn is_written_in_order(alloc: Global, set: &UnknownFieldSet) -> Result<bool, Fail> {
    let mut out = vec![in alloc; 7; 2000]?;
    set.encode(&mut out)?;
    let mut expected = vec![in alloc; 7; 2000]?;
    expected.extend_from_slice(&[0x08, 7, 0x08, 9])?;
    Ok(out.as_slice() == expected.as_slice() && set.encoded_len() == Some(4))
}

/// The digits that the fields have, by reference and by `iter`.
fn digits_of(set: &UnknownFieldSet) -> u64 {
    let mut seen = 0;
    for field in set {
        seen = after(seen, field);
    }
    for field in set.iter() {
        seen = after(seen, field);
    }
    seen
}

/// The digits, and behind them those that the fields have one by one.
fn digits_behind(digits: u64, set: UnknownFieldSet) -> u64 {
    let mut seen = digits;
    for field in set {
        seen = after(seen, &field);
    }
    seen
}

#[test]
fn sets_are_lists(rt: HostRuntime) -> Result<(), Fail> {
    let set = two_fields(rt.alloc())?;
    assert!(rt; is_list_of_two(rt.alloc(), &set)?);
    assert!(rt; is_written_in_order(rt.alloc(), &set)?);
    assert!(rt; set == two_in_a_list(rt.alloc())?);
    assert!(rt; digits_behind(digits_of(&set), set) == 797_979);
    assert!(rt; varint_field(16, 300).encoded_len() == Some(4));
    Ok(())
}

/// The digits, and that of the field behind them.
fn after(digits: u64, field: &UnknownField) -> u64 {
    match field.value() {
        UnknownFieldValue::Varint(value) => digits.wrapping_mul(10).wrapping_add(*value),
        _ => 0,
    }
}

#[test]
fn values_are_equal_where_they_store_the_same(rt: HostRuntime) -> Result<(), Fail> {
    let text = UnknownFieldValue::LengthDelimited(Vec::from_slice(rt.alloc(), b"hello")?);
    assert!(rt; text.clone()? == text);
    assert!(rt; UnknownFieldValue::Varint(1) != UnknownFieldValue::Varint(2));
    Ok(())
}

/// The field of the number 2 with the bytes 1 to 4.
fn one_to_four() -> UnknownField {
    UnknownField::new(
        FieldNumber::new(2),
        UnknownFieldValue::ThirtyTwoBit([1, 2, 3, 4]),
    )
}

fn set_of(alloc: Global, field: UnknownField) -> Result<UnknownFieldSet, AllocError> {
    let mut set = UnknownFieldSet::new(alloc);
    set.insert(field)?;
    Ok(set)
}

/// Writes `end`, the fields of the set one by one, and the set, and in front of these a key and their length.
fn write_behind_key(sink: &mut ByteSink, set: &UnknownFieldSet) {
    sink.prepend(b"end");
    for field in set {
        write_field(sink, field);
    }
    write_fields(sink, set);
    let len = sink.len();
    sink.prepend_varint(len as u64);
    write_key(sink, 1, WireType::LengthDelimited);
}

/// What is written so, behind a mark.
fn written_from_the_back(alloc: Global, set: &UnknownFieldSet) -> Result<Vec<u8>, Fail> {
    let mut sink = ByteSink::new(alloc);
    write_behind_key(&mut sink, set);
    let mut out = Vec::from_slice(alloc, b"<")?;
    sink.append_to(&mut out)?;
    Ok(out)
}

/// Puts `end` and the set into the buffer, and in front of them a key and their length, if the length is that of the bytes.
fn prepend_behind_key(buffer: &mut BackBuffer, set: &UnknownFieldSet) -> Result<(), Fail> {
    buffer.prepend(b"end")?;
    prepend_fields(set, buffer)?;
    let len = buffer.len();
    if len != buffer.as_slice().len() {
        return Err(Fail::from("another length"));
    }
    buffer.prepend_varint(len as u64)?;
    buffer.prepend_key(FieldNumber::new(1), WireType::LengthDelimited)?;
    Ok(())
}

/// What stands in the buffer then, behind a mark.
fn in_front_of_a_buffer(alloc: Global, set: &UnknownFieldSet) -> Result<Vec<u8>, Fail> {
    let mut buffer = BackBuffer::new(alloc);
    prepend_behind_key(&mut buffer, set)?;
    let mut out = Vec::from_slice(alloc, b"<")?;
    buffer.append_to(&mut out)?;
    Ok(out)
}

#[test]
fn sets_are_written_from_the_back(rt: HostRuntime) -> Result<(), Fail> {
    let set = set_of(rt.alloc(), one_to_four())?;
    let written = written_from_the_back(rt.alloc(), &set)?;
    assert!(rt;
        written.as_slice() == b"<\x0a\x0d\x15\x01\x02\x03\x04\x15\x01\x02\x03\x04end".as_slice()
    );
    let set = set_of(rt.alloc(), varint_field(16, 300))?;
    let written = in_front_of_a_buffer(rt.alloc(), &set)?;
    assert!(rt; written.as_slice() == b"<\x0a\x07\x80\x01\xac\x02end".as_slice());
    Ok(())
}

/// Whether errors of both kinds have a text.
fn are_shown(alloc: Global) -> Result<bool, AllocError> {
    let is_decode_error_shown = !format!(in alloc; "{}", DecodeError::Depth)?.is_empty();
    Ok(is_decode_error_shown && !format!(in alloc; "{}", EncodeError::TooLong)?.is_empty())
}

#[test]
fn errors(rt: HostRuntime) -> Result<(), Fail> {
    assert!(rt; DecodeError::from(AllocError) == DecodeError::OutOfMemory);
    assert!(rt; EncodeError::from(AllocError) == EncodeError::OutOfMemory);
    assert!(rt; DecodeError::Truncated != DecodeError::Varint);
    assert!(rt; EncodeError::TooLong != EncodeError::OutOfMemory);
    assert!(rt; are_shown(rt.alloc())?);
    Ok(())
}
