//! Reading messages and groups as the elements of a list (the encoding guide, "Repeated Elements", "Submessages" and
//! "Groups").

ghost use Rattle.std.specs.Prelude.{◌≡◌, ◌≢◌, true, Some, [], ◌∷◌, ◌++◌, IfOk, IfErr};
ghost use Rattle.prost_reflect_wire.specs.Content.{entries_of, value_at};
ghost use Rattle.prost_reflect_wire.specs.Typing.{WellStored};
ghost use Rattle.prost_reflect_wire.specs.Decoding.{Step, StandsBehindKey};
ghost use Rattle.prost_reflect_dynamic.specs.Contents.{value_set};
ghost use Rattle.prost_reflect_fields.specs.Known.{known_of, is_known};
ghost use Rattle.prost_reflect_dynamic.specs.Lists.{IsList, IsListOrNone, with_element};
ghost use Rattle.prost_reflect_rows.specs.FieldKinds.{NestedList};
ghost use Rattle.prost_reflect_dynamic.specs.View.{value_of, content_of, message_type_of};
ghost use Rattle.prost_reflect_dynamic.specs.Stored.{value_stored};
ghost use Rattle.prost_reflect_dynamic.specs.TypedSteps.{element_typed, item_added, StaysTyped};

use crate::message::DynamicMessage;
use crate::message::decode::nested::empty_message;
use crate::value::Value;
use prost_reflect_rows::targets::MessageKind;
use prost_reflect_wire::{DecodeError, FieldNumber, WireType};
use std::alloc::{AllocError, Global};

impl DynamicMessage {
    /// Reads a message or a group behind its field's key, and adds it behind the elements of the list.
    #[cycle(reading)]
    pub(super) fn merge_element<'a>(
        &mut self,
        alloc: Global,
        number: FieldNumber,
        kind: MessageKind,
        wire_type: WireType,
        bytes: &'a [u8],
        levels: u32,
    ) -> Result<&'a [u8], DecodeError>
        requires sound { WellStored (content_of self.old) }
        requires field { NestedList (message_type_of self.old) number.value kind.place kind.is_group }
        ensures ok { IfOk result
            (λ rest. Step levels number.value wire_type (content_of self.old) (content_of self.new) bytes.now
            rest.now) }
        ensures message_type { message_type_of self.new ≡ message_type_of self.old }
        ensures typed { IfOk result (λ _. StaysTyped self.old self.new) }
        ensures fault { IfErr result
            (λ e. e ≢ DecodeError.OutOfMemory
            → StandsBehindKey (content_of self.old) levels number.value wire_type e bytes.now) }
    {
        let mut element = empty_message(alloc, self.message_type(), kind.place)?;
        let rest = element.merge_nested(alloc, number, kind.is_group, wire_type, bytes, levels)?;
        self.push_value(alloc, number.get(), Value::Message(element))?;
        Ok(rest)
    }

    /// Adds a value behind the elements of the list at a number; where nothing is there yet, it is the first one.
    pub(super) fn push_value(
        &mut self,
        alloc: Global,
        number: u32,
        element: Value,
    ) -> Result<(), AllocError>
        requires known { is_known (known_of (message_type_of self.old)) number ≡ true }
        requires list { IsListOrNone (value_at number (entries_of (content_of self.old))) }
        ensures message_type { message_type_of self.new ≡ message_type_of self.old }
        ensures content { IfOk result
            (λ _. content_of self.new
            ≡ value_set number
            (with_element (value_at number (entries_of (content_of self.old))) (value_of element))
            (content_of self.old)) }
        ensures typed { IfOk result
            (λ _. element_typed (message_type_of self.old) number (value_stored element) ≡ true
            → StaysTyped self.old self.new) }
    {
        let value = self.value_mut_or(number, Value::List(Vec::new(alloc)))?;
        push_item(value, element)
    }
}

/// Adds a value behind the elements of the list that a value is.
fn push_item(value: &mut Value, element: Value) -> Result<(), AllocError>
    requires { IsList (value_of value.old) }
    ensures value { IfOk result (λ _. value_of value.new ≡ with_element (Some (value_of value.old)) (value_of element)) }
    ensures stored { IfOk result (λ _. value_stored value.new ≡ item_added (value_stored value.old) (value_stored element)) }
{
    match value.as_list_mut() {
        Some(values) => push_element(values, element),
        None => unreachable!(),
    }
}

fn push_element(values: &mut Vec<Value>, element: Value) -> Result<(), AllocError>
    ensures { IfOk result (λ _. values.new.items ≡ values.old.items ++ element ∷ []) }
{
    values.push(element)?;
    Ok(())
}
