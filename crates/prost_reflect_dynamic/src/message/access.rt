//! Asking, reading, setting, clearing and taking fields.

ghost use Rattle.std.specs.Prelude.{◌≡◌, ◌↔◌, ◌<◌, ◌&&◌, IsTrue, true, false, None, Some, is_some, option_and_then, if◌then◌else◌, OnOk, OnErr, IfOk, IfSome, IsOk};
ghost use Rattle.std.specs.Borrow.{LendsIfOk, sem};
ghost use Rattle.std.specs.Cow.{cow_value};
ghost use Rattle.std.specs.Option.{option_copied};
ghost use Rattle.prost_reflect_wire.specs.Content.{entries_of, value_at};
ghost use Rattle.prost_reflect_dynamic.specs.Depths.{LendsInside, ShownInside};
ghost use Rattle.prost_reflect_dynamic.specs.contracts.message.DynamicMessage.{the_row};
ghost use Rattle.prost_reflect_dynamic.specs.contracts.value.Value as value;
ghost use Rattle.prost_reflect_dynamic.specs.declared.message.DynamicMessage.{size-DynamicMessage};
ghost use Rattle.prost_reflect_dynamic.specs.declared.value.Value.{Value, size-Value};
ghost use Rattle.prost_reflect_wire.specs.Schema.{passes};
ghost use Rattle.prost_reflect_dynamic.specs.Edits.{IsPart, LeavesMessage, LeavesSet, Removes, Sets, StaysBeside};
ghost use Rattle.prost_reflect_fields.specs.Known.{known_of, is_known};
ghost use Rattle.prost_reflect_dynamic.specs.Access.{IsOwnField, number_of, is_field_number, number_declared, takes, takes_at, has_at, had_at, saying, says_nothing, IsDefaultAt, Shows, ShowsHeld, ShowsIf, IsLentOf, left_at};
ghost use Rattle.prost_reflect_dynamic.specs.Contents.{cleared_if, value_set};
ghost use Rattle.prost_reflect_dynamic.specs.Stored.{value_stored};
ghost use Rattle.prost_reflect_dynamic.specs.TypedSteps.{typed_at};
ghost use Rattle.prost_reflect_dynamic.specs.View.{value_of, content_of, message_type_of};

mod by_name;

use crate::descriptor::FieldDescriptor;
use crate::message::DynamicMessage;
use crate::message::defaults::{default_value, is_field_default};
use crate::value::Value;
use prost_reflect_pool::PooledType;
use std::alloc::{AllocError, Global};
use std::borrow::Cow;

impl DynamicMessage {
    /// Whether the field is one of the message's own type: their pools hold the same files, and it is the same message type
    /// there.
    pub fn owns_field(&self, field: &FieldDescriptor) -> bool
        ensures { IsTrue result ↔ IsOwnField (message_type_of self.now) field.now }
    {
        field.parent_message().names(self.message_type())
    }

    /// Whether the message has a value of the field. The default of a field without presence is none, nor is an empty list
    /// or an empty map. The field has to be of the message's own type, as `owns_field` tells.
    pub fn has_field(&self, field: &FieldDescriptor) -> bool
        requires { IsOwnField (message_type_of self.now) field.now }
        ensures { result ≡ has_at (number_of field.now) (content_of self.now) }
    {
        self.had_value(field.number()).is_some()
    }

    /// Whether the message has a value of the field of a number; it has none where no field has the number.
    pub fn has_field_by_number(&self, number: u32) -> bool
        ensures { result ≡ (is_field_number (message_type_of self.now) number && has_at number (content_of self.now)) }
    {
        self.is_field_number(number) && self.had_value(number).is_some()
    }

    /// The value of the field: the stored one, borrowed, or else the default. The field has to be of the message's own
    /// type, as `owns_field` tells.
    ///
    /// ```
    /// // The text in the field, or its default; nothing where the field is another type's, or no text.
    /// fn text_in(alloc: Global, message: &DynamicMessage, field: &FieldDescriptor) -> Result<Option<String>, AllocError> {
    ///     if !message.owns_field(field) {
    ///         return Ok(None);
    ///     }
    ///     let value = message.get_field(alloc, field)?;
    ///     match value.as_str() {
    ///         Some(text) => Ok(Some(String::from_str(alloc, text)?)),
    ///         None => Ok(None),
    ///     }
    /// }
    /// ```
    ///
    /// # Errors
    ///
    /// `AllocError` if the default needs memory and memory runs out.
    pub fn get_field(
        &self,
        alloc: Global,
        field: &FieldDescriptor,
    ) -> Result<Cow<'_, Value>, AllocError>
        requires { IsOwnField (message_type_of self.now) field.now }
        ensures shown { IfOk result (Shows self.now (number_of field.now)) }
        ensures held { IfOk result (ShowsHeld self.now (number_of field.now)) }
        ensures inside { IfOk result (ShownInside self.now) }
        ensures part { IfOk result (λ shown. IsPart self.now (number_of field.now) (cow_value shown)) }
    {
        self.value_or_default(alloc, field.number())
    }

    /// The value of the field of a number: the stored one, borrowed, or else the default. There is none where no field has
    /// the number.
    ///
    /// # Errors
    ///
    /// `AllocError` if the default needs memory and memory runs out.
    pub fn get_field_by_number(
        &self,
        alloc: Global,
        number: u32,
    ) -> Result<Option<Cow<'_, Value>>, AllocError>
        ensures shown { IfOk result (ShowsIf (is_field_number (message_type_of self.now) number) self.now number) }
        ensures held { IfOk result (λ found. IfSome found (ShowsHeld self.now number)) }
        ensures inside { IfOk result (λ found. IfSome found (ShownInside self.now)) }
        ensures part { IfOk result (λ found. IfSome found (λ shown. IsPart self.now number (cow_value shown))) }
        ensures missing { is_field_number (message_type_of self.now) number ≡ false → IsOk result }
    {
        if self.is_field_number(number) {
            Ok(Some(self.value_or_default(alloc, number)?))
        } else {
            Ok(None)
        }
    }

    /// The value of the field, borrowed for writing; where there is none, it is first set to the default. Once the borrow
    /// ends, the message is as if the value that is left there had been set. The field has to be of the message's own type,
    /// as `owns_field` tells.
    ///
    /// ```
    /// // Adds a number to the list in the field, if it is the message's own.
    /// fn add_number(
    ///     alloc: Global,
    ///     message: &mut DynamicMessage,
    ///     field: &FieldDescriptor,
    ///     number: i32,
    /// ) -> Result<(), AllocError> {
    ///     if message.owns_field(field) {
    ///         if let Value::List(numbers) = message.get_field_mut(alloc, field)? {
    ///             numbers.push(Value::I32(number))?;
    ///         }
    ///     }
    ///     Ok(())
    /// }
    /// ```
    ///
    /// # Errors
    ///
    /// `AllocError` if out of memory; then nothing changes.
    pub fn get_field_mut(
        &mut self,
        alloc: Global,
        field: &FieldDescriptor,
    ) -> Result<&mut Value, AllocError>
        requires { IsOwnField (message_type_of self.old) field.now }
        ensures* writes_back { sem 𝓛 (LendsIfOk the_row value.the_row self.entry result (left_at self.old (number_of field.now)) self.old) }
        ensures value { IfOk result (λ lent. IsLentOf self.old (number_of field.now) lent.now) }
        ensures part { IfOk result (λ lent. IsPart self.old (number_of field.now) lent.now) }
        ensures inside { IfOk result (λ lent. LendsInside (Some (number_of field.now)) self.old lent.now) }
        ensures sets { OnOk result (LeavesSet (Some (number_of field.now)) self.old) }
        ensures message { IfOk result (λ lent. LeavesMessage (Some (number_of field.now)) self.old lent.now) }
        ensures message_type { (v : Value) → message_type_of (left_at self.old (number_of field.now) v) ≡ message_type_of self.old }
        ensures content { OnOk result
            ((v : Value)
            → content_of (left_at self.old (number_of field.now) v)
            ≡ value_set (number_of field.now) (value_of v) (content_of self.old)) }
    {
        self.value_or_default_mut(alloc, field.number())
    }

    /// Removes the value of the field. Unknown fields of its number stay. A message that can be encoded, as `is_encodable`
    /// tells, stays one, so no test is needed after it. The field has to be of the message's own type, as `owns_field` tells.
    pub fn clear_field(&mut self, field: &FieldDescriptor)
        requires { IsOwnField (message_type_of self.old) field.now }
        ensures removes { Removes (cleared_if (Some (number_of field.now))) self.old self.new }
        ensures gone { has_at (number_of field.now) (content_of self.new) ≡ false }
        ensures others { StaysBeside (number_of field.now) self.old self.new }
    {
        self.clear_value(field.number());
    }

    /// Removes the value of the field of a number. Nothing changes where no field has the number.
    pub fn clear_field_by_number(&mut self, number: u32)
        ensures removes { Removes (cleared_if (number_declared (message_type_of self.old) number)) self.old self.new }
        ensures gone { passes (number_declared (message_type_of self.old) number) (λ n. has_at n (content_of self.new)) ≡ false }
        ensures others { StaysBeside number self.old self.new }
        ensures unchanged { is_field_number (message_type_of self.old) number ≡ false → self.new ≡ self.old }
    {
        if self.is_field_number(number) {
            self.clear_value(number);
        }
    }

    /// Takes the value of the field, and answers it, or none where the message did not have it. A stored default is removed,
    /// too. Unknown fields of the number stay. The field has to be of the message's own type, as `owns_field` tells.
    pub fn take_field(&mut self, field: &FieldDescriptor) -> Option<Value>
        requires { IsOwnField (message_type_of self.old) field.now }
        ensures value { result ≡ had_at (number_of field.now) self.old }
        ensures inside { IfSome result (λ value. size-Value value < size-DynamicMessage self.old) }
        ensures part { IfSome result (IsPart self.old (number_of field.now)) }
        ensures removes { Removes (cleared_if (Some (number_of field.now))) self.old self.new }
        ensures gone { has_at (number_of field.now) (content_of self.new) ≡ false }
        ensures others { StaysBeside (number_of field.now) self.old self.new }
    {
        self.take_had(field.number())
    }

    /// Takes the value of the field of a number. There is none, and nothing changes, where no field has the number.
    pub fn take_field_by_number(&mut self, number: u32) -> Option<Value>
        ensures value { result ≡ (if is_field_number (message_type_of self.old) number then had_at number self.old else None) }
        ensures inside { IfSome result (λ value. size-Value value < size-DynamicMessage self.old) }
        ensures part { IfSome result (IsPart self.old number) }
        ensures removes { Removes (cleared_if (number_declared (message_type_of self.old) number)) self.old self.new }
        ensures gone { passes (number_declared (message_type_of self.old) number) (λ n. has_at n (content_of self.new)) ≡ false }
        ensures others { StaysBeside number self.old self.new }
        ensures unchanged { is_field_number (message_type_of self.old) number ≡ false → self.new ≡ self.old }
    {
        if self.is_field_number(number) {
            self.take_had(number)
        } else {
            None
        }
    }

    /// Sets the field to a value that fits it, and removes the values of the other members of its oneof. The field has to
    /// be of the message's own type, as `owns_field` tells, and the value has to fit it, as `Value::is_valid_for_field`
    /// tells. A message that can be encoded stays one where the messages in the value can be.
    ///
    /// ```
    /// // Sets the field to 7, if it is the message's own and takes that.
    /// fn set_seven(message: &mut DynamicMessage, field: &FieldDescriptor) -> Result<(), AllocError> {
    ///     if message.owns_field(field) && Value::I32(7).is_valid_for_field(field) {
    ///         message.set_field(field, Value::I32(7))?;
    ///     }
    ///     Ok(())
    /// }
    /// ```
    ///
    /// # Errors
    ///
    /// `AllocError` if out of memory; then nothing changes.
    pub fn set_field(&mut self, field: &FieldDescriptor, value: Value) -> Result<(), AllocError>
        requires own { IsOwnField (message_type_of self.old) field.now }
        requires valid { takes field.now value ≡ true }
        ensures message_type { message_type_of self.new ≡ message_type_of self.old }
        ensures sets { OnOk result (Sets (Some (number_of field.now)) value self.old self.new) }
        ensures err { OnErr result (self.new ≡ self.old) }
    {
        self.set_value(field.number(), value)
    }

    /// Sets the field of a number to a value that fits it, and removes the values of the other members of its oneof.
    /// Nothing changes where no field has the number. The value has to fit the field, as `Value::is_valid_for_field` tells;
    /// `try_set_field_by_number` tests that itself.
    ///
    /// ```
    /// // Sets the field to 7, clears it, and sets it again; 7 is known to fit then, so the last call needs no test.
    /// fn set_again(message: &mut DynamicMessage, number: u32) -> Result<(), SetFieldError> {
    ///     message.try_set_field_by_number(number, Value::I32(7))?;
    ///     message.clear_field_by_number(number);
    ///     message.set_field_by_number(number, Value::I32(7))?;
    ///     Ok(())
    /// }
    /// ```
    ///
    /// # Errors
    ///
    /// `AllocError` if out of memory; then nothing changes.
    pub fn set_field_by_number(&mut self, number: u32, value: Value) -> Result<(), AllocError>
        requires { is_field_number (message_type_of self.old) number ≡ true → takes_at (message_type_of self.old) number value ≡ true }
        ensures message_type { message_type_of self.new ≡ message_type_of self.old }
        ensures sets { OnOk result (Sets (number_declared (message_type_of self.old) number) value self.old self.new) }
        ensures missing { is_field_number (message_type_of self.old) number ≡ false → IsOk result × (self.new ≡ self.old) }
        ensures err { OnErr result (self.new ≡ self.old) }
    {
        if self.is_field_number(number) {
            self.set_value(number, value)
        } else {
            Ok(())
        }
    }

    /// Whether the number is that of a field; that of an extension is not.
    pub(super) fn is_field_number(&self, number: u32) -> bool
        ensures { result ≡ is_field_number (message_type_of self.now) number }
    {
        match self.message_type().field_table(number) {
            Some(field) => !field.is_extension,
            None => false,
        }
    }

    /// The value at the number of a field or an extension: the stored one, borrowed, or else the default.
    pub(super) fn value_or_default(
        &self,
        alloc: Global,
        number: u32,
    ) -> Result<Cow<'_, Value>, AllocError>
        requires { is_known (known_of (message_type_of self.now)) number ≡ true }
        ensures shown { IfOk result (Shows self.now number) }
        ensures held { IfOk result (ShowsHeld self.now number) }
        ensures inside { IfOk result (ShownInside self.now) }
        ensures part { IfOk result (λ shown. IsPart self.now number (cow_value shown)) }
    {
        match self.stored_value(number) {
            Some(value) => Ok(Cow::Borrowed(value)),
            None => Ok(Cow::Owned(default_at(alloc, self.message_type(), number)?)),
        }
    }

    /// The value at the number of a field or an extension, for writing; where there is none, it is first set to the default.
    pub(super) fn value_or_default_mut(
        &mut self,
        alloc: Global,
        number: u32,
    ) -> Result<&mut Value, AllocError>
        requires { is_known (known_of (message_type_of self.old)) number ≡ true }
        ensures* writes_back { sem 𝓛 (LendsIfOk the_row value.the_row self.entry result (left_at self.old number) self.old) }
        ensures value { IfOk result (λ lent. IsLentOf self.old number lent.now) }
        ensures part { IfOk result (λ lent. IsPart self.old number lent.now) }
        ensures inside { IfOk result (λ lent. LendsInside (Some number) self.old lent.now) }
        ensures sets { OnOk result (LeavesSet (Some number) self.old) }
        ensures message { IfOk result (λ lent. LeavesMessage (Some number) self.old lent.now) }
        ensures message_type { (v : Value) → message_type_of (left_at self.old number v) ≡ message_type_of self.old }
        ensures content { OnOk result
            ((v : Value)
            → content_of (left_at self.old number v) ≡ value_set number (value_of v) (content_of self.old)) }
    {
        match self.default_if_absent(alloc, number) {
            Ok(default) => self.value_mut_or(number, default),
            Err(refused) => Err(refused),
        }
    }

    /// The default of the field or extension of a number where nothing is stored, and any value where something is.
    fn default_if_absent(&self, alloc: Global, number: u32) -> Result<Value, AllocError>
        requires { is_known (known_of (message_type_of self.now)) number ≡ true }
        ensures default { IfOk result
            (λ v. value_at number (entries_of (content_of self.now)) ≡ None
            → IsDefaultAt (message_type_of self.now) number v) }
        ensures typed { IfOk result
            (λ v. value_at number (entries_of (content_of self.now)) ≡ None
            → typed_at (message_type_of self.now) number (value_stored v) ≡ true) }
    {
        match self.stored_value(number) {
            Some(_) => Ok(Value::Bool(false)),
            None => default_at(alloc, self.message_type(), number),
        }
    }

    /// The value at the number, if the message has it.
    pub(super) fn had_value(&self, number: u32) -> Option<&Value>
        ensures value { option_copied result ≡ had_at number self.now }
        ensures has { is_some result ≡ has_at number (content_of self.now) }
    {
        match self.stored_value(number) {
            Some(value) => {
                if says_nothing(self.message_type(), number, value) {
                    None
                } else {
                    Some(value)
                }
            }
            None => None,
        }
    }

    /// Takes the value at the number, and answers it if the message had it.
    pub(super) fn take_had(&mut self, number: u32) -> Option<Value>
        ensures value { result ≡ had_at number self.old }
        ensures inside { IfSome result (λ value. size-Value value < size-DynamicMessage self.old) }
        ensures part { IfSome result (IsPart self.old number) }
        ensures removes { Removes (cleared_if (Some number)) self.old self.new }
        ensures gone { has_at number (content_of self.new) ≡ false }
        ensures others { StaysBeside number self.old self.new }
    {
        let value = self.take_value(number);
        saying(self.message_type(), number, value)
    }
}

/// What the field or extension of a number has where nothing is stored.
fn default_at(alloc: Global, message_type: &PooledType, number: u32) -> Result<Value, AllocError>
    requires { is_known (known_of message_type.now) number ≡ true }
    ensures default { IfOk result (IsDefaultAt message_type.now number) }
    ensures typed { IfOk result (λ v. typed_at message_type.now number (value_stored v) ≡ true) }
{
    match message_type.field_table(number) {
        Some(field) => default_value(alloc, message_type, field),
        None => unreachable!(),
    }
}

/// The value, unless it says nothing.
pub(super) fn saying(message_type: &PooledType, number: u32, value: Option<Value>) -> Option<Value>
    ensures { result ≡ option_and_then (saying (known_of message_type.now) number) value }
{
    let value = value?;
    if says_nothing(message_type, number, &value) {
        None
    } else {
        Some(value)
    }
}

/// Whether a value is what the field of the number has where nothing is stored, and so no value of the message.
fn says_nothing(message_type: &PooledType, number: u32, value: &Value) -> bool
    ensures { result ≡ says_nothing (known_of message_type.now) number value.now }
{
    match message_type.field_table(number) {
        Some(field) => is_field_default(message_type, field, value),
        None => false,
    }
}
