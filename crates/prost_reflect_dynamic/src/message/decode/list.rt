//! Reading lists of scalars (the encoding guide, "Repeated Elements" and "Packed Repeated Fields").

ghost use Rattle.std.specs.Prelude.{◌≡◌, ◌≢◌, true, IsSome, IsSomeAnd, IfOk, IfErr};
ghost use Rattle.prost_reflect_wire.specs.Schema.{is_packable};
ghost use Rattle.prost_reflect_wire.specs.Typing.{WellStored};
ghost use Rattle.prost_reflect_wire.specs.Decoding.{Step, StandsBehindKey};
ghost use Rattle.prost_reflect_fields.specs.Known.{known_of};
ghost use Rattle.prost_reflect_dynamic.specs.Lists.{AddsPacked, RefusesPacked, AddsElements, RefusesElements, JoinsElements, IsList};
ghost use Rattle.prost_reflect_rows.specs.FieldKinds.{ListField};
ghost use Rattle.prost_reflect_dynamic.specs.Scalars.{plain_kind};
ghost use Rattle.prost_reflect_dynamic.specs.View.{value_of, content_of, message_type_of};
ghost use Rattle.prost_reflect_dynamic.specs.TypedSteps.{StaysTyped};

use crate::message::DynamicMessage;
use crate::message::decode::scalar::scalar_at;
use crate::value::Value;
use prost_reflect_rows::bodies::elements_in;
use prost_reflect_rows::scalars::wire_type_of;
use prost_reflect_tables::{TableKind, is_packable};
use prost_reflect_wire::{DecodeError, FieldNumber, WireType, decode_delimited};
use std::alloc::Global;

/// Adds the elements of a packed record's body, which stand end to end. The loop is made once for each of the kinds that many
/// elements have most often.
///
/// # Errors
///
/// `Truncated` and `Varint` as an element's reader, `OutOfMemory` if memory runs out; then some may have been added.
fn push_packed(
    alloc: Global,
    values: &mut Vec<Value>,
    kind: TableKind,
    body: &[u8],
) -> Result<(), DecodeError>
    requires { IsSomeAnd (plain_kind kind) (λ k. is_packable k ≡ true) }
    ensures ok { IfOk result (λ _. AddsPacked kind values.old.items values.new.items body.now) }
    ensures fault { IfErr result (λ e. e ≢ DecodeError.OutOfMemory → RefusesPacked kind e body.now) }
{
    match kind {
        TableKind::Int32 => push_all(alloc, values, TableKind::Int32, body),
        TableKind::Uint32 => push_all(alloc, values, TableKind::Uint32, body),
        TableKind::Fixed64 => push_all(alloc, values, TableKind::Fixed64, body),
        TableKind::Double => push_all(alloc, values, TableKind::Double, body),
        _ => push_all(alloc, values, kind, body),
    }
}

/// Adds the elements of a packed record, as `push_packed` does. Where it is inlined into an arm of one kind, its loop is made
/// for that kind.
#[inline(always)]
fn push_all(
    alloc: Global,
    values: &mut Vec<Value>,
    kind: TableKind,
    body: &[u8],
) -> Result<(), DecodeError>
    requires { IsSomeAnd (plain_kind kind) (λ k. is_packable k ≡ true) }
    ensures ok { IfOk result (λ _. AddsPacked kind values.old.items values.new.items body.now) }
    ensures fault { IfErr result (λ e. e ≢ DecodeError.OutOfMemory → RefusesPacked kind e body.now) }
{
    let wire_type = wire_type_of(kind);
    values.reserve(elements_in(wire_type, body))?;
    let mut rest = body;
    while !rest.is_empty() {
        let (element, after) = scalar_at(alloc, kind, wire_type, rest)?;
        values.push(element)?;
        rest = after;
    }
    Ok(())
}

/// Adds the elements of a list's record behind its key, and gives the bytes behind them. A packed record and a single one
/// are taken alike.
///
/// # Errors
///
/// As `scalar_at` and `push_packed`; then some may have been added.
fn push_elements<'a>(
    alloc: Global,
    values: &mut Vec<Value>,
    kind: TableKind,
    wire_type: WireType,
    bytes: &'a [u8],
) -> Result<&'a [u8], DecodeError>
    requires { IsSome (plain_kind kind) }
    ensures ok { IfOk result (λ rest. AddsElements kind wire_type values.old.items values.new.items bytes.now rest.now) }
    ensures fault { IfErr result (λ e. e ≢ DecodeError.OutOfMemory → RefusesElements kind wire_type e bytes.now) }
{
    if wire_type == WireType::LengthDelimited && is_packable(kind) {
        let (body, rest) = decode_delimited(bytes)?;
        push_packed(alloc, values, kind, body)?;
        return Ok(rest);
    }
    let (value, rest) = scalar_at(alloc, kind, wire_type, bytes)?;
    values.push(value)?;
    Ok(rest)
}

/// Adds the elements of a list's record to a value that is a list, as `push_elements` does.
fn join_elements<'a>(
    alloc: Global,
    value: &mut Value,
    kind: TableKind,
    wire_type: WireType,
    bytes: &'a [u8],
) -> Result<&'a [u8], DecodeError>
    requires scalar { IsSome (plain_kind kind) }
    requires list { IsList (value_of value.old) }
    ensures ok { IfOk result (λ rest. JoinsElements kind wire_type (value_of value.old) (value_of value.new) bytes.now rest.now) }
    ensures fault { IfErr result (λ e. e ≢ DecodeError.OutOfMemory → RefusesElements kind wire_type e bytes.now) }
{
    match value.as_list_mut() {
        Some(values) => push_elements(alloc, values, kind, wire_type, bytes),
        None => unreachable!(),
    }
}

impl DynamicMessage {
    /// Reads a record of a list behind its field's key: its elements go behind those that are there.
    pub(crate) fn merge_list<'a>(
        &mut self,
        alloc: Global,
        number: FieldNumber,
        kind: TableKind,
        wire_type: WireType,
        bytes: &'a [u8],
        levels: u32,
    ) -> Result<&'a [u8], DecodeError>
        requires sound { WellStored (content_of self.old) }
        requires field { ListField (known_of (message_type_of self.old)) number.value kind }
        ensures ok { IfOk result
            (λ rest. Step levels number.value wire_type (content_of self.old) (content_of self.new) bytes.now
            rest.now) }
        ensures message_type { message_type_of self.new ≡ message_type_of self.old }
        ensures typed { IfOk result (λ _. StaysTyped self.old self.new) }
        ensures fault { IfErr result
            (λ e. e ≢ DecodeError.OutOfMemory
            → StandsBehindKey (content_of self.old) levels number.value wire_type e bytes.now) }
    {
        let value = self.value_mut_or(number.get(), Value::List(Vec::new(alloc)))?;
        join_elements(alloc, value, kind, wire_type, bytes)
    }
}
