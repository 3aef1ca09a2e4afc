//! Asking, reading, setting, clearing and taking extensions (the proto2 guide, "Extensions").

ghost use Rattle.std.specs.Prelude.{◌≡◌, ◌↔◌, ◌<◌, IsTrue, true, false, Some, OnOk, OnErr, IfOk, IfSome};
ghost use Rattle.std.specs.Borrow.{LendsIfOk, sem};
ghost use Rattle.std.specs.Cow.{cow_value};
ghost use Rattle.prost_reflect_dynamic.specs.contracts.message.DynamicMessage.{the_row};
ghost use Rattle.prost_reflect_dynamic.specs.contracts.value.Value as value;
ghost use Rattle.prost_reflect_dynamic.specs.declared.message.DynamicMessage.{size-DynamicMessage};
ghost use Rattle.prost_reflect_dynamic.specs.declared.value.Value.{Value, size-Value};
ghost use Rattle.prost_reflect_dynamic.specs.Access.{has_at, had_at, Shows, ShowsHeld, IsLentOf, left_at};
ghost use Rattle.prost_reflect_dynamic.specs.Contents.{cleared_if, value_set};
ghost use Rattle.prost_reflect_dynamic.specs.Depths.{LendsInside, ShownInside};
ghost use Rattle.prost_reflect_dynamic.specs.Edits.{IsPart, LeavesMessage, LeavesSet, Removes, Sets, StaysBeside};
ghost use Rattle.prost_reflect_dynamic.specs.ExtensionAccess.{IsOwnExtension, extension_number, extension_takes};
ghost use Rattle.prost_reflect_dynamic.specs.View.{value_of, content_of, message_type_of};

use crate::descriptor::ExtensionDescriptor;
use crate::message::DynamicMessage;
use crate::value::Value;
use std::alloc::{AllocError, Global};
use std::borrow::Cow;

impl DynamicMessage {
    /// Whether the extension extends the message's own type: their pools hold the same files, and it is the same message
    /// type there.
    pub fn owns_extension(&self, extension: &ExtensionDescriptor) -> bool
        ensures { IsTrue result ↔ IsOwnExtension (message_type_of self.now) extension.now }
    {
        extension.extends(self.message_type())
    }

    /// Whether the message has a value of the extension. An empty list or an empty map is none. The extension has to extend
    /// the message's own type, as `owns_extension` tells.
    pub fn has_extension(&self, extension: &ExtensionDescriptor) -> bool
        requires { IsOwnExtension (message_type_of self.now) extension.now }
        ensures { result ≡ has_at (extension_number extension.now) (content_of self.now) }
    {
        self.had_value(extension.number()).is_some()
    }

    /// The value of the extension: the stored one, borrowed, or else the default. The extension has to extend the message's
    /// own type, as `owns_extension` tells.
    ///
    /// ```
    /// // The number in the extension of a full name, or none where the message's type has no such extension.
    /// fn number_in(alloc: Global, message: &DynamicMessage, name: &str) -> Result<Option<i32>, AllocError> {
    ///     match message.descriptor()?.get_extension_by_full_name(name)? {
    ///         Some(extension) => Ok(message.get_extension(alloc, &extension)?.as_i32()),
    ///         None => Ok(None),
    ///     }
    /// }
    /// ```
    ///
    /// # Errors
    ///
    /// `AllocError` if the default needs memory and memory runs out.
    pub fn get_extension(
        &self,
        alloc: Global,
        extension: &ExtensionDescriptor,
    ) -> Result<Cow<'_, Value>, AllocError>
        requires { IsOwnExtension (message_type_of self.now) extension.now }
        ensures shown { IfOk result (Shows self.now (extension_number extension.now)) }
        ensures held { IfOk result (ShowsHeld self.now (extension_number extension.now)) }
        ensures inside { IfOk result (ShownInside self.now) }
        ensures part { IfOk result (λ shown. IsPart self.now (extension_number extension.now) (cow_value shown)) }
    {
        self.value_or_default(alloc, extension.number())
    }

    /// The value of the extension, borrowed for writing; where there is none, it is first set to the default. Once the
    /// borrow ends, the message is as if the value that is left there had been set. The extension has to extend the
    /// message's own type, as `owns_extension` tells.
    ///
    /// # Errors
    ///
    /// `AllocError` if out of memory; then nothing changes.
    pub fn get_extension_mut(
        &mut self,
        alloc: Global,
        extension: &ExtensionDescriptor,
    ) -> Result<&mut Value, AllocError>
        requires { IsOwnExtension (message_type_of self.old) extension.now }
        ensures* writes_back { sem 𝓛
            (LendsIfOk the_row value.the_row self.entry result (left_at self.old (extension_number extension.now))
            self.old) }
        ensures value { IfOk result (λ lent. IsLentOf self.old (extension_number extension.now) lent.now) }
        ensures part { IfOk result (λ lent. IsPart self.old (extension_number extension.now) lent.now) }
        ensures inside { IfOk result (λ lent. LendsInside (Some (extension_number extension.now)) self.old lent.now) }
        ensures sets { OnOk result (LeavesSet (Some (extension_number extension.now)) self.old) }
        ensures message { IfOk result (λ lent. LeavesMessage (Some (extension_number extension.now)) self.old lent.now) }
        ensures message_type { (v : Value)
            → message_type_of (left_at self.old (extension_number extension.now) v) ≡ message_type_of self.old }
        ensures content { OnOk result
            ((v : Value)
            → content_of (left_at self.old (extension_number extension.now) v)
            ≡ value_set (extension_number extension.now) (value_of v) (content_of self.old)) }
    {
        self.value_or_default_mut(alloc, extension.number())
    }

    /// Removes the value of the extension. Unknown fields of its number stay. The extension has to extend the message's own
    /// type, as `owns_extension` tells.
    pub fn clear_extension(&mut self, extension: &ExtensionDescriptor)
        requires { IsOwnExtension (message_type_of self.old) extension.now }
        ensures removes { Removes (cleared_if (Some (extension_number extension.now))) self.old self.new }
        ensures gone { has_at (extension_number extension.now) (content_of self.new) ≡ false }
        ensures others { StaysBeside (extension_number extension.now) self.old self.new }
    {
        self.clear_value(extension.number());
    }

    /// Takes the value of the extension, and answers it if the message had it. An empty list or map that is stored is
    /// removed, too. Unknown fields of the number stay. The extension has to extend the message's own type, as
    /// `owns_extension` tells.
    pub fn take_extension(&mut self, extension: &ExtensionDescriptor) -> Option<Value>
        requires { IsOwnExtension (message_type_of self.old) extension.now }
        ensures value { result ≡ had_at (extension_number extension.now) self.old }
        ensures inside { IfSome result (λ value. size-Value value < size-DynamicMessage self.old) }
        ensures part { IfSome result (IsPart self.old (extension_number extension.now)) }
        ensures removes { Removes (cleared_if (Some (extension_number extension.now))) self.old self.new }
        ensures gone { has_at (extension_number extension.now) (content_of self.new) ≡ false }
        ensures others { StaysBeside (extension_number extension.now) self.old self.new }
    {
        self.take_had(extension.number())
    }

    /// Sets the extension to a value that fits it. The extension has to extend the message's own type, as `owns_extension`
    /// tells, and the value has to fit it, as `Value::is_valid_for_extension` tells.
    ///
    /// # Errors
    ///
    /// `AllocError` if out of memory; then nothing changes.
    pub fn set_extension(
        &mut self,
        extension: &ExtensionDescriptor,
        value: Value,
    ) -> Result<(), AllocError>
        requires own { IsOwnExtension (message_type_of self.old) extension.now }
        requires valid { extension_takes extension.now value ≡ true }
        ensures message_type { message_type_of self.new ≡ message_type_of self.old }
        ensures sets { OnOk result (Sets (Some (extension_number extension.now)) value self.old self.new) }
        ensures err { OnErr result (self.new ≡ self.old) }
    {
        self.set_value(extension.number(), value)
    }
}
