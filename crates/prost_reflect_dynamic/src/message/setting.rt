//! Setting fields to values that may not fit them.

ghost use Rattle.std.specs.Prelude.{◌≡◌, true, IfErr, IfOk, IfSome, IsOk, OnErr, OnOk, Some};
ghost use Rattle.prost_reflect_wire.specs.Schema.{passes};
ghost use Rattle.prost_reflect_dynamic.specs.Edits.{Sets};
ghost use Rattle.prost_reflect_dynamic.specs.Access.{IsOwnField, number_of, takes, is_field_number, number_declared, number_named, takes_at};
ghost use Rattle.prost_reflect_dynamic.specs.Setting.{DescribesField, RefusesFound, RefusesValue};
ghost use Rattle.prost_reflect_dynamic.specs.View.{message_type_of};
ghost use Rattle.prost_reflect_dynamic.specs.declared.message.setting.SetFieldError.TheVariants as refusals;

use crate::descriptor::FieldDescriptor;
use crate::message::DynamicMessage;
use crate::message::encodable::takes_value;
use crate::value::Value;
use prost_reflect_rows::kinds::kind_name;
use std::alloc::AllocError;
use std::fmt;
use thiserror::Error;

/// Why a field is not set.
///
/// Its text is `field not found`, `expected a value of type 'T'` or `out of memory`. `T` is the name of the field's kind,
/// as `int32` or the full name of its message type or enum; that of a list is as `repeated int32`, and that of a map as
/// `map<string, int32>`.
#[derive(Debug, PartialEq, Drop, Error)]
pub enum SetFieldError {
    /// The message type has no such field.
    #[error("field not found")]
    NotFound,
    /// The field does not take the value.
    #[error("expected a value of type '{}'", FieldType(.field))]
    InvalidType {
        /// The field that was to be set.
        field: FieldDescriptor,
        /// The value that does not fit it.
        value: Value,
    },
    /// Out of memory.
    #[error("out of memory")]
    OutOfMemory,
}

impl Clone for SetFieldError {
    ghost use Rattle.prost_reflect_dynamic.specs.Setting.{SameRefusal};

    ghost is_clone = { SameRefusal };

    fn clone(&self) -> Result<SetFieldError, AllocError> {
        Ok(match self {
            SetFieldError::NotFound => SetFieldError::NotFound,
            SetFieldError::InvalidType { field, value } => SetFieldError::InvalidType {
                field: field.clone()?,
                value: value.clone()?,
            },
            SetFieldError::OutOfMemory => SetFieldError::OutOfMemory,
        })
    }
}

impl From<AllocError> for SetFieldError {
    ghost from_gives = { λ _ e. e ≡ refusals.OutOfMemory };

    fn from(_error: AllocError) -> SetFieldError {
        SetFieldError::OutOfMemory
    }
}

/// The type of a field, whose text is its kind's name, `repeated` and that name for a list, or `map` with the names of both
/// kinds for a map.
#[derive(Clone, Copy)]
struct FieldType<'a>(&'a FieldDescriptor);

impl<'a> fmt::Display for FieldType<'a> {
    fn fmt<W: fmt::Write>(&self, f: &mut fmt::Formatter<W>) -> fmt::Result {
        let pool = self.0.parent_pool().linked();
        let field = self.0.table();
        match pool.map_parts(field) {
            Some((key, value)) => write!(
                f,
                "map<{}, {}>",
                kind_name(Some(pool), key.kind),
                kind_name(Some(pool), value.kind)
            ),
            None => {
                if field.cardinality.is_repeated() {
                    f.write_str("repeated ")?;
                }
                f.write_str(kind_name(Some(pool), field.kind))
            }
        }
    }
}

impl DynamicMessage {
    /// Sets the field to the value if the value fits it, and then removes the values of the other members of its oneof. The
    /// field has to be of the message's own type, as `owns_field` tells.
    ///
    /// # Errors
    ///
    /// `InvalidType`, with the field and the value, if the value does not fit the field, as `Value::is_valid_for_field`
    /// tells; and `OutOfMemory` if memory runs out. In each case nothing changes.
    pub fn try_set_field(
        &mut self,
        field: &FieldDescriptor,
        value: Value,
    ) -> Result<(), SetFieldError>
        requires { IsOwnField (message_type_of self.old) field.now }
        ensures message_type { message_type_of self.new ≡ message_type_of self.old }
        ensures sets { OnOk result (Sets (Some (number_of field.now)) value self.old self.new) }
        ensures valid { IsOk result → takes field.now value ≡ true }
        ensures err { OnErr result (self.new ≡ self.old) }
        ensures refused { IfErr result (RefusesValue field.now value) }
    {
        if value.is_valid_for_field(field) {
            self.set_field(field, value)?;
            Ok(())
        } else {
            let field = field.clone()?;
            Err(SetFieldError::InvalidType { field, value })
        }
    }

    /// Sets the field of a number to the value if the value fits it, and then removes the values of the other members of
    /// its oneof.
    ///
    /// ```
    /// // Sets the field of the number 5 to 7, and clears that of the number 6.
    /// fn change(message: &mut DynamicMessage) -> Result<(), SetFieldError> {
    ///     message.try_set_field_by_number(5, Value::I32(7))?;
    ///     message.clear_field_by_number(6);
    ///     Ok(())
    /// }
    /// ```
    ///
    /// # Errors
    ///
    /// `NotFound` if no field has the number, where an extension is no field; `InvalidType`, with the field and the value,
    /// if the value does not fit the field; and `OutOfMemory` if memory runs out. In each case nothing changes.
    pub fn try_set_field_by_number(
        &mut self,
        number: u32,
        value: Value,
    ) -> Result<(), SetFieldError>
        ensures message_type { message_type_of self.new ≡ message_type_of self.old }
        ensures sets { OnOk result (Sets (number_declared (message_type_of self.old) number) value self.old self.new) }
        ensures found { IsOk result → is_field_number (message_type_of self.old) number ≡ true }
        ensures valid { IsOk result
            → passes (number_declared (message_type_of self.old) number)
            (λ n. takes_at (message_type_of self.old) n value)
            ≡ true }
        ensures again { IsOk result → is_field_number (message_type_of self.new) number ≡ true
            → takes_at (message_type_of self.new) number value ≡ true }
        ensures err { OnErr result (self.new ≡ self.old) }
        ensures refused { IfErr result (RefusesFound (message_type_of self.old) (number_declared (message_type_of self.old) number) value) }
    {
        if self.is_field_number(number) {
            self.try_set_value(number, value)
        } else {
            Err(SetFieldError::NotFound)
        }
    }

    /// Sets the field of a name to the value if the value fits it, and then removes the values of the other members of its oneof.
    ///
    /// # Errors
    ///
    /// `NotFound` if no field has the name, where an extension is no field; `InvalidType`, with the field and the value, if
    /// the value does not fit the field; and `OutOfMemory` if memory runs out. In each case nothing changes.
    pub fn try_set_field_by_name(&mut self, name: &str, value: Value) -> Result<(), SetFieldError>
        ensures message_type { message_type_of self.new ≡ message_type_of self.old }
        ensures sets { OnOk result (Sets (number_named (message_type_of self.old) name.now) value self.old self.new) }
        ensures valid { IsOk result
            → passes (number_named (message_type_of self.old) name.now)
            (λ n. takes_at (message_type_of self.old) n value)
            ≡ true }
        ensures again { IsOk result
            → IfSome (number_named (message_type_of self.new) name.now)
            (λ n. takes_at (message_type_of self.new) n value ≡ true) }
        ensures err { OnErr result (self.new ≡ self.old) }
        ensures refused { IfErr result (RefusesFound (message_type_of self.old) (number_named (message_type_of self.old) name.now) value) }
    {
        match self.number_named(name) {
            Some(number) => self.try_set_value(number, value),
            None => Err(SetFieldError::NotFound),
        }
    }

    /// Sets the field of a number to the value if the value fits it. Where an error is answered nothing changes.
    fn try_set_value(&mut self, number: u32, value: Value) -> Result<(), SetFieldError>
        requires { is_field_number (message_type_of self.old) number ≡ true }
        ensures message_type { message_type_of self.new ≡ message_type_of self.old }
        ensures sets { OnOk result (Sets (Some number) value self.old self.new) }
        ensures valid { IsOk result → takes_at (message_type_of self.old) number value ≡ true }
        ensures err { OnErr result (self.new ≡ self.old) }
        ensures refused { IfErr result (RefusesFound (message_type_of self.old) (Some number) value) }
    {
        if takes_value(self.message_type(), number, &value) {
            self.set_value(number, value)?;
            Ok(())
        } else {
            let field = self.field_at(number)?;
            Err(SetFieldError::InvalidType { field, value })
        }
    }

    /// The field of a number.
    fn field_at(&self, number: u32) -> Result<FieldDescriptor, AllocError>
        requires { is_field_number (message_type_of self.now) number ≡ true }
        ensures { IfOk result (DescribesField (message_type_of self.now) number) }
    {
        match self.descriptor()?.get_field(number)? {
            Some(field) => Ok(field),
            None => unreachable!(),
        }
    }
}
