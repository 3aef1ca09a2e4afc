//! Asking, reading, setting, clearing and taking fields by their names.

ghost use Rattle.std.specs.Prelude.{◌≡◌, ◌<◌, IfOk, IfSome, IsOk, None, OnErr, OnOk, option_and_then, false, true};
ghost use Rattle.std.specs.Cow.{cow_value};
ghost use Rattle.prost_reflect_wire.specs.Schema.{passes};
ghost use Rattle.prost_reflect_dynamic.specs.Access.{number_named, takes_at, has_at, had_at, ShowsFound, ShowsHeld};
ghost use Rattle.prost_reflect_dynamic.specs.Contents.{cleared_if};
ghost use Rattle.prost_reflect_dynamic.specs.Depths.{ShownInside};
ghost use Rattle.prost_reflect_dynamic.specs.Edits.{IsPart, Removes, Sets, StaysBeside};
ghost use Rattle.prost_reflect_dynamic.specs.View.{content_of, message_type_of};
ghost use Rattle.prost_reflect_dynamic.specs.declared.message.DynamicMessage.{size-DynamicMessage};
ghost use Rattle.prost_reflect_dynamic.specs.declared.value.Value.{size-Value};

use crate::message::DynamicMessage;
use crate::value::Value;
use std::alloc::{AllocError, Global};
use std::borrow::Cow;

impl DynamicMessage {
    /// Whether the message has a value of the field of a name; it has none where no field has the name.
    pub fn has_field_by_name(&self, name: &str) -> bool
        ensures { result ≡ passes (number_named (message_type_of self.now) name.now) (λ n. has_at n (content_of self.now)) }
    {
        match self.number_named(name) {
            Some(number) => self.had_value(number).is_some(),
            None => false,
        }
    }

    /// The value of the field of a name: the stored one, borrowed, or else the default. There is none where no field has
    /// the name.
    ///
    /// # Errors
    ///
    /// `AllocError` if the default needs memory and memory runs out.
    pub fn get_field_by_name(
        &self,
        alloc: Global,
        name: &str,
    ) -> Result<Option<Cow<'_, Value>>, AllocError>
        ensures shown { IfOk result (ShowsFound (number_named (message_type_of self.now) name.now) self.now) }
        ensures held { IfOk result
            (λ found. IfSome found
            (λ shown. IfSome (number_named (message_type_of self.now) name.now)
            (λ n. ShowsHeld self.now n shown))) }
        ensures inside { IfOk result (λ found. IfSome found (ShownInside self.now)) }
        ensures part { IfOk result
            (λ found. IfSome found
            (λ shown. IfSome (number_named (message_type_of self.now) name.now)
            (λ n. IsPart self.now n (cow_value shown)))) }
        ensures missing { number_named (message_type_of self.now) name.now ≡ None → IsOk result }
    {
        match self.number_named(name) {
            Some(number) => Ok(Some(self.value_or_default(alloc, number)?)),
            None => Ok(None),
        }
    }

    /// Removes the value of the field of a name. Nothing changes where no field has the name.
    pub fn clear_field_by_name(&mut self, name: &str)
        ensures removes { Removes (cleared_if (number_named (message_type_of self.old) name.now)) self.old self.new }
        ensures gone { passes (number_named (message_type_of self.old) name.now) (λ n. has_at n (content_of self.new)) ≡ false }
        ensures others { IfSome (number_named (message_type_of self.old) name.now) (λ n. StaysBeside n self.old self.new) }
        ensures unchanged { number_named (message_type_of self.old) name.now ≡ None → self.new ≡ self.old }
    {
        match self.number_named(name) {
            Some(number) => self.clear_value(number),
            None => {}
        }
    }

    /// Takes the value of the field of a name. There is none, and nothing changes, where no field has the name.
    pub fn take_field_by_name(&mut self, name: &str) -> Option<Value>
        ensures value { result ≡ option_and_then (λ n. had_at n self.old) (number_named (message_type_of self.old) name.now) }
        ensures inside { IfSome result (λ value. size-Value value < size-DynamicMessage self.old) }
        ensures part { IfSome result (λ value. IfSome (number_named (message_type_of self.old) name.now) (λ n. IsPart self.old n value)) }
        ensures removes { Removes (cleared_if (number_named (message_type_of self.old) name.now)) self.old self.new }
        ensures gone { passes (number_named (message_type_of self.old) name.now) (λ n. has_at n (content_of self.new)) ≡ false }
        ensures others { IfSome (number_named (message_type_of self.old) name.now) (λ n. StaysBeside n self.old self.new) }
        ensures unchanged { number_named (message_type_of self.old) name.now ≡ None → self.new ≡ self.old }
    {
        match self.number_named(name) {
            Some(number) => self.take_had(number),
            None => None,
        }
    }

    /// Sets the field of a name to a value that fits it, and removes the values of the other members of its oneof. Nothing
    /// changes where no field has the name. The value has to fit the field, as `Value::is_valid_for_field` tells;
    /// `try_set_field_by_name` tests that itself.
    ///
    /// # Errors
    ///
    /// `AllocError` if out of memory; then nothing changes.
    pub fn set_field_by_name(&mut self, name: &str, value: Value) -> Result<(), AllocError>
        requires { IfSome (number_named (message_type_of self.old) name.now) (λ n. takes_at (message_type_of self.old) n value ≡ true) }
        ensures message_type { message_type_of self.new ≡ message_type_of self.old }
        ensures sets { OnOk result (Sets (number_named (message_type_of self.old) name.now) value self.old self.new) }
        ensures missing { number_named (message_type_of self.old) name.now ≡ None → IsOk result × (self.new ≡ self.old) }
        ensures err { OnErr result (self.new ≡ self.old) }
    {
        match self.number_named(name) {
            Some(number) => self.set_value(number, value),
            None => Ok(()),
        }
    }

    /// The number of the field of a name; the name of an extension finds none.
    pub(crate) fn number_named(&self, name: &str) -> Option<u32>
        ensures { result ≡ number_named (message_type_of self.now) name.now }
    {
        let message_type = self.message_type();
        let place = message_type
            .pool()
            .field_place_by_name(message_type.index(), name)?;
        Some(message_type.field_tables()[place].number)
    }
}
