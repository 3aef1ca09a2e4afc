//! Reading lists of enum numbers (the encoding guide, "Repeated Elements" and "Packed Repeated Fields"; the page "Enum
//! Behavior").

ghost use Rattle.std.specs.Prelude.{◌≡◌, ◌≢◌, true, [], ◌∷◌, ◌++◌, map, unwrap_or, IfOk, IfErr};
ghost use Rattle.std.specs.List.{list_all};
ghost use Rattle.prost_reflect_wire.specs.declared.key.WireType.TheVariants as wires;
ghost use Rattle.prost_reflect_wire.specs.Content.{ListValue, NoValues, entries_of, value_at};
ghost use Rattle.prost_reflect_wire.specs.Fault.{ElementFault};
ghost use Rattle.prost_reflect_wire.specs.Typing.{WellStored};
ghost use Rattle.prost_reflect_wire.specs.Decoding.{Step, StandsBehindKey};
ghost use Rattle.prost_reflect_dynamic.specs.Contents.{value_set};
ghost use Rattle.prost_reflect_fields.specs.Known.{known_of, is_known};
ghost use Rattle.prost_reflect_dynamic.specs.Lists.{IsList};
ghost use Rattle.prost_reflect_rows.specs.FieldKinds.{NumberList};
ghost use Rattle.prost_reflect_dynamic.specs.Numbers.{BodyTaken, PartsNumbers, JoinsNumbers, number_element, is_stray_varint, declared_in, strays_in, numbers_taken, varints_added};
ghost use Rattle.prost_reflect_pool.specs.SharedPools.{pool_rows};
ghost use Rattle.prost_reflect_dynamic.specs.View.{content_of, message_type_of, value_of};
ghost use Rattle.prost_reflect_dynamic.specs.TypedSteps.{StaysTyped};

use crate::message::DynamicMessage;
use crate::message::enums::is_stray;
use crate::value::Value;
use prost_reflect_pool::PooledType;
use prost_reflect_rows::bodies::{last_digits, number_at};
use prost_reflect_tables::TableKind;
use prost_reflect_wire::{
    DecodeError, FieldNumber, UnknownField, UnknownFieldValue, WireType, decode_delimited,
    decode_varint, low_i32,
};
use std::alloc::{AllocError, Global};

/// Adds the number of a varint behind the elements of a list, or the varint behind the strays if the enum does not declare
/// the number.
fn push_number(
    message_type: &PooledType,
    kind: TableKind,
    values: &mut Vec<Value>,
    strays: &mut Vec<u64>,
    varint: u64,
) -> Result<(), AllocError>
    ensures added { IfOk result
        (λ _. map value_of values.new.items
        ≡ map value_of values.old.items
        ++ map number_element (declared_in (pool_rows message_type.now.pool).enums kind (varint ∷ []))) }
    ensures left { IfOk result
        (λ _. strays.new.items
        ≡ strays.old.items ++ strays_in (pool_rows message_type.now.pool).enums kind (varint ∷ [])) }
{
    let element = Value::EnumNumber(low_i32(varint));
    if is_stray(message_type, kind, &element) {
        strays.push(varint)?;
    } else {
        values.push(element)?;
    }
    Ok(())
}

/// Reads the varints of a packed record's body, which stand end to end: adds the numbers that the enum declares behind the
/// elements of a list, and gives the other varints.
///
/// # Errors
///
/// `Truncated` and `Varint` as `decode_varint`, `OutOfMemory` if memory runs out; then some may have been added.
fn push_numbers(
    alloc: Global,
    message_type: &PooledType,
    kind: TableKind,
    values: &mut Vec<Value>,
    body: &[u8],
) -> Result<Vec<u64>, DecodeError>
    ensures ok { IfOk result
        (λ strays. PartsNumbers (pool_rows message_type.now.pool).enums kind (map value_of values.old.items)
        (map value_of values.new.items) strays.items body.now) }
    ensures fault { IfErr result (λ e. e ≢ DecodeError.OutOfMemory → ElementFault wires.Varint e body.now) }
{
    values.reserve(last_digits(body))?;
    let mut strays = Vec::new(alloc);
    let mut rest = body;
    while !rest.is_empty() {
        let (varint, after) = decode_varint(rest)?;
        push_number(message_type, kind, values, &mut strays, varint)?;
        rest = after;
    }
    Ok(strays)
}

/// Adds the numbers of a list's record to a value that is a list, as `push_numbers` does.
fn join_numbers(
    alloc: Global,
    message_type: &PooledType,
    kind: TableKind,
    value: &mut Value,
    body: &[u8],
) -> Result<Vec<u64>, DecodeError>
    requires { IsList (value_of value.old) }
    ensures ok { IfOk result
        (λ strays. JoinsNumbers (pool_rows message_type.now.pool).enums kind (value_of value.old) (value_of value.new)
        strays.items body.now) }
    ensures fault { IfErr result (λ e. e ≢ DecodeError.OutOfMemory → ElementFault wires.Varint e body.now) }
{
    match value.as_list_mut() {
        Some(values) => push_numbers(alloc, message_type, kind, values, body),
        None => unreachable!(),
    }
}

impl DynamicMessage {
    /// Reads a record of a list of enum numbers behind its field's key: its numbers go behind those that are there. Each
    /// one that a closed enum does not declare becomes an unknown field instead, with all of its bits.
    pub(crate) fn merge_numbers<'a>(
        &mut self,
        alloc: Global,
        number: FieldNumber,
        kind: TableKind,
        wire_type: WireType,
        bytes: &'a [u8],
        levels: u32,
    ) -> Result<&'a [u8], DecodeError>
        requires sound { WellStored (content_of self.old) }
        requires field { NumberList (message_type_of self.old) number.value kind }
        ensures ok { IfOk result
            (λ rest. Step levels number.value wire_type (content_of self.old) (content_of self.new) bytes.now
            rest.now) }
        ensures message_type { message_type_of self.new ≡ message_type_of self.old }
        ensures typed { IfOk result (λ _. StaysTyped self.old self.new) }
        ensures fault { IfErr result
            (λ e. e ≢ DecodeError.OutOfMemory
            → StandsBehindKey (content_of self.old) levels number.value wire_type e bytes.now) }
    {
        if wire_type == WireType::LengthDelimited {
            let (body, rest) = decode_delimited(bytes)?;
            self.merge_body(alloc, number, kind, body)?;
            return Ok(rest);
        }
        let (varint, rest) = number_at(wire_type, bytes)?;
        self.merge_number(alloc, number, kind, varint)?;
        Ok(rest)
    }

    /// Reads the numbers of a packed record's body. The list is lent once, and its strays are added behind it.
    ///
    /// # Errors
    ///
    /// `Truncated` and `Varint` as `decode_varint`, `OutOfMemory` if memory runs out; then some may have been read.
    fn merge_body(
        &mut self,
        alloc: Global,
        number: FieldNumber,
        kind: TableKind,
        body: &[u8],
    ) -> Result<(), DecodeError>
        requires sound { WellStored (content_of self.old) }
        requires field { NumberList (message_type_of self.old) number.value kind }
        ensures ok { IfOk result
            (λ _. BodyTaken (pool_rows (message_type_of self.old).pool).enums number.value kind (content_of self.old)
            (content_of self.new) body.now) }
        ensures message_type { message_type_of self.new ≡ message_type_of self.old }
        ensures typed { IfOk result (λ _. StaysTyped self.old self.new) }
        ensures fault { IfErr result (λ e. e ≢ DecodeError.OutOfMemory → ElementFault wires.Varint e body.now) }
    {
        let message_type = self.message_type().clone()?;
        let value = self.value_mut_or(number.get(), Value::List(Vec::new(alloc)))?;
        let strays = join_numbers(alloc, &message_type, kind, value, body)?;
        self.add_strays(number, kind, &strays)?;
        Ok(())
    }

    /// Adds the number of a varint behind the list's elements, or as an unknown field if its enum does not declare it; then
    /// the list is there, too.
    fn merge_number(
        &mut self,
        alloc: Global,
        number: FieldNumber,
        kind: TableKind,
        varint: u64,
    ) -> Result<(), AllocError>
        requires sound { WellStored (content_of self.old) }
        requires field { NumberList (message_type_of self.old) number.value kind }
        ensures message_type { message_type_of self.new ≡ message_type_of self.old }
        ensures typed { IfOk result (λ _. StaysTyped self.old self.new) }
        ensures content { IfOk result
            (λ _. content_of self.new
            ≡ numbers_taken (pool_rows (message_type_of self.old).pool).enums number.value kind (varint ∷ [])
            (content_of self.old)) }
    {
        let element = Value::EnumNumber(low_i32(varint));
        if is_stray(self.message_type(), kind, &element) {
            self.make_list(alloc, number.get())?;
            return self.add_stray(number, kind, varint);
        }
        self.push_value(alloc, number.get(), element)
    }

    /// Adds an unknown field of the number for each of these varints, whose numbers its enum does not declare.
    fn add_strays(
        &mut self,
        number: FieldNumber,
        kind: TableKind,
        strays: &Vec<u64>,
    ) -> Result<(), AllocError>
        requires field { NumberList (message_type_of self.old) number.value kind }
        requires strays { list_all (is_stray_varint (pool_rows (message_type_of self.old).pool).enums kind) strays.now.items ≡ true }
        ensures message_type { message_type_of self.new ≡ message_type_of self.old }
        ensures typed { IfOk result (λ _. StaysTyped self.old self.new) }
        ensures content { IfOk result (λ _. content_of self.new ≡ varints_added number.value strays.now.items (content_of self.old)) }
    {
        for varint in strays {
            self.add_stray(number, kind, *varint)?;
        }
        Ok(())
    }

    /// Adds such a one.
    fn add_stray(
        &mut self,
        number: FieldNumber,
        kind: TableKind,
        varint: u64,
    ) -> Result<(), AllocError>
        requires field { NumberList (message_type_of self.old) number.value kind }
        requires stray { is_stray_varint (pool_rows (message_type_of self.old).pool).enums kind varint ≡ true }
        ensures message_type { message_type_of self.new ≡ message_type_of self.old }
        ensures typed { IfOk result (λ _. StaysTyped self.old self.new) }
        ensures content { IfOk result (λ _. content_of self.new ≡ varints_added number.value (varint ∷ []) (content_of self.old)) }
    {
        let field = UnknownField::new(number, UnknownFieldValue::Varint(varint));
        self.add_unknown(number.get(), field)
    }

    /// Stores an empty list at a number where nothing is there yet. It says nothing, and nothing is written of it.
    fn make_list(&mut self, alloc: Global, number: u32) -> Result<(), AllocError>
        requires known { is_known (known_of (message_type_of self.old)) number ≡ true }
        ensures message_type { message_type_of self.new ≡ message_type_of self.old }
        ensures typed { IfOk result (λ _. StaysTyped self.old self.new) }
        ensures content { IfOk result
            (λ _. content_of self.new
            ≡ value_set number (unwrap_or (value_at number (entries_of (content_of self.old))) (ListValue NoValues))
            (content_of self.old)) }
    {
        self.value_mut_or(number, Value::List(Vec::new(alloc)))?;
        Ok(())
    }
}
