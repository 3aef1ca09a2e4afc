//! Fields that are lent for writing by their numbers and by their names.

ghost use Rattle.std.specs.Prelude.{◌≡◌, true, IfErr, IfOk, IfSome, IsOk, OnOk};
ghost use Rattle.std.specs.Borrow.{LendsIfOk, sem};
ghost use Rattle.prost_reflect_dynamic.specs.Depths.{LendsInside};
ghost use Rattle.prost_reflect_dynamic.specs.Edits.{IsPart, LeavesMessage, LeavesSet};
ghost use Rattle.prost_reflect_dynamic.specs.contracts.message.DynamicMessage.{the_row};
ghost use Rattle.prost_reflect_dynamic.specs.contracts.value.Value as value;
ghost use Rattle.prost_reflect_dynamic.specs.declared.value.Value.{Value};
ghost use Rattle.prost_reflect_dynamic.specs.Access.{is_field_number, number_declared, number_named, IsLentIf, left_if};
ghost use Rattle.prost_reflect_dynamic.specs.Contents.{set_if};
ghost use Rattle.prost_reflect_dynamic.specs.Lending.{RefusesLoan};
ghost use Rattle.prost_reflect_dynamic.specs.View.{value_of, content_of, message_type_of};

use crate::message::DynamicMessage;
use crate::value::Value;
use std::alloc::Global;
use thiserror::Error;

/// Why a field is not lent for writing.
#[derive(Clone, Copy, Debug, PartialEq, Eq, Error)]
pub enum GetFieldError {
    /// The message type has no such field.
    #[error("field not found")]
    NotFound,
    /// Out of memory.
    #[error("out of memory")]
    OutOfMemory,
}

impl DynamicMessage {
    /// The value of the field of a number, borrowed for writing; where there is none, it is first set to the default. Once
    /// the borrow ends, the message is as if the value that is left there had been set.
    ///
    /// # Errors
    ///
    /// `NotFound` if no field has the number, where an extension is no field; and `OutOfMemory` if memory runs out. In each
    /// case nothing changes.
    pub fn get_field_by_number_mut(
        &mut self,
        alloc: Global,
        number: u32,
    ) -> Result<&mut Value, GetFieldError>
        ensures* writes_back { sem 𝓛
            (LendsIfOk the_row value.the_row self.entry result
            (left_if (number_declared (message_type_of self.old) number) self.old) self.old) }
        ensures value { IfOk result (λ lent. IsLentIf (number_declared (message_type_of self.old) number) self.old lent.now) }
        ensures part { IfOk result (λ lent. IsPart self.old number lent.now) }
        ensures inside { IfOk result (λ lent. LendsInside (number_declared (message_type_of self.old) number) self.old lent.now) }
        ensures sets { OnOk result (LeavesSet (number_declared (message_type_of self.old) number) self.old) }
        ensures message { IfOk result (λ lent. LeavesMessage (number_declared (message_type_of self.old) number) self.old lent.now) }
        ensures found { IsOk result → is_field_number (message_type_of self.old) number ≡ true }
        ensures message_type { (v : Value)
            → message_type_of (left_if (number_declared (message_type_of self.old) number) self.old v)
            ≡ message_type_of self.old }
        ensures content { OnOk result
            ((v : Value)
            → content_of (left_if (number_declared (message_type_of self.old) number) self.old v)
            ≡ set_if (number_declared (message_type_of self.old) number) (value_of v) (content_of self.old)) }
        ensures refused { IfErr result (RefusesLoan (number_declared (message_type_of self.old) number)) }
    {
        if self.is_field_number(number) {
            match self.value_or_default_mut(alloc, number) {
                Ok(value) => Ok(value),
                Err(_) => Err(GetFieldError::OutOfMemory),
            }
        } else {
            Err(GetFieldError::NotFound)
        }
    }

    /// The value of the field of a name, borrowed for writing; where there is none, it is first set to the default. Once
    /// the borrow ends, the message is as if the value that is left there had been set.
    ///
    /// # Errors
    ///
    /// `NotFound` if no field has the name, where an extension is no field; and `OutOfMemory` if memory runs out. In each
    /// case nothing changes.
    pub fn get_field_by_name_mut(
        &mut self,
        alloc: Global,
        name: &str,
    ) -> Result<&mut Value, GetFieldError>
        ensures* writes_back { sem 𝓛
            (LendsIfOk the_row value.the_row self.entry result
            (left_if (number_named (message_type_of self.old) name.now) self.old) self.old) }
        ensures value { IfOk result (λ lent. IsLentIf (number_named (message_type_of self.old) name.now) self.old lent.now) }
        ensures part { IfOk result (λ lent. IfSome (number_named (message_type_of self.old) name.now) (λ n. IsPart self.old n lent.now)) }
        ensures inside { IfOk result (λ lent. LendsInside (number_named (message_type_of self.old) name.now) self.old lent.now) }
        ensures sets { OnOk result (LeavesSet (number_named (message_type_of self.old) name.now) self.old) }
        ensures message { IfOk result (λ lent. LeavesMessage (number_named (message_type_of self.old) name.now) self.old lent.now) }
        ensures message_type { (v : Value)
            → message_type_of (left_if (number_named (message_type_of self.old) name.now) self.old v)
            ≡ message_type_of self.old }
        ensures content { OnOk result
            ((v : Value)
            → content_of (left_if (number_named (message_type_of self.old) name.now) self.old v)
            ≡ set_if (number_named (message_type_of self.old) name.now) (value_of v) (content_of self.old)) }
        ensures refused { IfErr result (RefusesLoan (number_named (message_type_of self.old) name.now)) }
    {
        match self.number_named(name) {
            Some(number) => match self.value_or_default_mut(alloc, number) {
                Ok(value) => Ok(value),
                Err(_) => Err(GetFieldError::OutOfMemory),
            },
            None => Err(GetFieldError::NotFound),
        }
    }
}
