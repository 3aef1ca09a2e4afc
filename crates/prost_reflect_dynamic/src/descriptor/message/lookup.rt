//! Looking up the fields and the extensions of a message type.

ghost use Rattle.std.specs.Prelude.{◌≡◌, IfOk, IfSome, IsOk, None, option_map};

use crate::descriptor::extension::extension_at;
use crate::descriptor::{ExtensionDescriptor, FieldDescriptor, MessageDescriptor, Placed};
use prost_reflect_rows::paths::declared_place;
use std::alloc::AllocError;

impl MessageDescriptor {
    ghost use Rattle.std.specs.Prelude.{◌==◌, IsTrue, Some};
    ghost use Rattle.std.specs.Str.{bytes_eq};
    ghost use Rattle.prost_reflect_pool.specs.Lookups.{named_field, json_named_field, extension_where};
    ghost use Rattle.prost_reflect_dynamic.specs.Named.{SameMessage};
    ghost use Rattle.prost_reflect_dynamic.specs.NamedExtensions.{Extends};
    ghost use Rattle.prost_reflect_dynamic.specs.NamedFields.{descriptor_fields, is_declared_at};
    ghost use Rattle.prost_reflect_rows.specs.Paths.{declared_place};
    ghost use Rattle.prost_reflect_pool.specs.declared.pooled_type.PooledType.{PooledType};
    ghost use Rattle.prost_reflect_dynamic.specs.Access.{IsOwnField, number_named, number_of};

    /// The field of a number, or none where no field has it; the number of an extension finds none.
    ///
    /// ```
    /// // Whether the message type has a field of the number that is a list.
    /// fn is_list_at(message_type: &MessageDescriptor, number: u32) -> Result<bool, AllocError> {
    ///     match message_type.get_field(number)? {
    ///         Some(field) => Ok(field.is_list()),
    ///         None => Ok(false),
    ///     }
    /// }
    /// ```
    ///
    /// # Errors
    ///
    /// `AllocError` if out of memory.
    pub fn get_field(&self, number: u32) -> Result<Option<FieldDescriptor>, AllocError>
        ensures found { IfOk result
            (λ found. option_map (λ field. field.index) found ≡ declared_place (descriptor_fields self.now) number) }
        ensures message { IfOk result (λ found. IfSome found (λ field. SameMessage self.now field.message)) }
        ensures number { IfOk result (λ found. IfSome found (λ field. number_of field ≡ number)) }
        ensures missing { declared_place (descriptor_fields self.now) number ≡ None → IsOk result }
    {
        self.field_at(self.declared_place(number))
    }

    /// The field of a name, or none where no field has it; an extension's finds none.
    ///
    /// # Errors
    ///
    /// `AllocError` if out of memory.
    pub fn get_field_by_name(&self, name: &str) -> Result<Option<FieldDescriptor>, AllocError>
        ensures found { IfOk result (λ found. option_map (λ field. field.index) found ≡ named_field (descriptor_fields self.now) name.now) }
        ensures message { IfOk result (λ found. IfSome found (λ field. SameMessage self.now field.message)) }
        ensures name { IfOk result
            (λ found. IfSome found
            (λ field. (t : PooledType) → IsOwnField t field → number_named t name.now ≡ Some (number_of field))) }
        ensures missing { named_field (descriptor_fields self.now) name.now ≡ None → IsOk result }
    {
        self.field_at(self.pool.inner.field_place_by_name(self.index, name))
    }

    /// The field of a name in JSON, or none where no field has it; of several, the one of the least number.
    ///
    /// # Errors
    ///
    /// `AllocError` if out of memory.
    pub fn get_field_by_json_name(
        &self,
        json_name: &str,
    ) -> Result<Option<FieldDescriptor>, AllocError>
        ensures found { IfOk result
            (λ found. option_map (λ field. field.index) found
            ≡ json_named_field (descriptor_fields self.now) json_name.now) }
        ensures message { IfOk result (λ found. IfSome found (λ field. SameMessage self.now field.message)) }
        ensures missing { json_named_field (descriptor_fields self.now) json_name.now ≡ None → IsOk result }
    {
        self.field_at(
            self.pool
                .inner
                .field_place_by_json_name(self.index, json_name),
        )
    }

    /// The field at a place, if there is one.
    fn field_at(&self, place: Option<usize>) -> Result<Option<FieldDescriptor>, AllocError>
        requires { IfSome place (λ i. IsTrue (is_declared_at (descriptor_fields self.now) i)) }
        ensures found { IfOk result (λ found. option_map (λ field. field.index) found ≡ place) }
        ensures message { IfOk result (λ found. IfSome found (λ field. SameMessage self.now field.message)) }
        ensures missing { place ≡ None → IsOk result }
    {
        match place {
            Some(index) => Ok(Some(FieldDescriptor::at(self, index)?)),
            None => Ok(None),
        }
    }

    /// The extension of a number, or none where no extension of the message type has it; the number of a field finds none.
    ///
    /// # Errors
    ///
    /// `AllocError` if out of memory.
    pub fn get_extension(&self, number: u32) -> Result<Option<ExtensionDescriptor>, AllocError>
        ensures found { IfOk result
            (λ found. option_map (λ extension. extension.index) found
            ≡ extension_where self.now.pool.inner.value self.now.index (λ f. f.number == number)) }
        ensures own { IfOk result (λ found. IfSome found (Extends self.now)) }
        ensures missing { extension_where self.now.pool.inner.value self.now.index (λ f. f.number == number) ≡ None → IsOk result }
    {
        let pool = &self.pool.inner;
        extension_at(
            &self.pool,
            pool.extension_place_by_number(self.index, number),
        )
    }

    /// The extension of a full name, as `my.package.my_extension`, or none where no extension of the message type has it.
    ///
    /// # Errors
    ///
    /// `AllocError` if out of memory.
    pub fn get_extension_by_full_name(
        &self,
        name: &str,
    ) -> Result<Option<ExtensionDescriptor>, AllocError>
        ensures found { IfOk result
            (λ found. option_map (λ extension. extension.index) found
            ≡ extension_where self.now.pool.inner.value self.now.index (λ f. bytes_eq f.id.full_name name.now)) }
        ensures own { IfOk result (λ found. IfSome found (Extends self.now)) }
        ensures missing { extension_where self.now.pool.inner.value self.now.index
            (λ f. bytes_eq f.id.full_name name.now)
            ≡ None
            → IsOk result }
    {
        let pool = &self.pool.inner;
        extension_at(
            &self.pool,
            pool.extension_place_by_full_name(self.index, name),
        )
    }

    /// The extension of a name in JSON, as `[my.package.my_extension]`, or none where no extension of the message type has it.
    ///
    /// # Errors
    ///
    /// `AllocError` if out of memory.
    pub fn get_extension_by_json_name(
        &self,
        name: &str,
    ) -> Result<Option<ExtensionDescriptor>, AllocError>
        ensures found { IfOk result
            (λ found. option_map (λ extension. extension.index) found
            ≡ extension_where self.now.pool.inner.value self.now.index (λ f. bytes_eq f.json_name name.now)) }
        ensures own { IfOk result (λ found. IfSome found (Extends self.now)) }
        ensures missing { extension_where self.now.pool.inner.value self.now.index (λ f. bytes_eq f.json_name name.now)
            ≡ None
            → IsOk result }
    {
        let pool = &self.pool.inner;
        extension_at(
            &self.pool,
            pool.extension_place_by_json_name(self.index, name),
        )
    }

    /// The place of the field of a number; the number of an extension finds none.
    fn declared_place(&self, number: u32) -> Option<usize>
        ensures place { result ≡ declared_place (descriptor_fields self.now) number }
        ensures declared { IfSome result (λ i. IsTrue (is_declared_at (descriptor_fields self.now) i)) }
    {
        declared_place(&self.pool.inner, self.index, number)
    }
}
