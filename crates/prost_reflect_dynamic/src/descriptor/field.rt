//! Fields as places of a message type.

ghost use Rattle.std.specs.Prelude.{◌≡◌, IsTrue};
ghost use Rattle.prost_reflect_dynamic.specs.NamedFields.{descriptor_fields, is_declared_at};

use crate::descriptor::options::{OptionsError, options_by};
use crate::descriptor::{
    DescriptorPool, FileDescriptor, Kind, MessageDescriptor, OneofDescriptor, Placed,
};
use crate::message::DynamicMessage;
use crate::value::Value;
use crate::value::defaults::default_value;
use prost_reflect_rows::forms::{is_list, is_map};
use prost_reflect_tables::{Cardinality, FieldTable, is_packable};
use prost_reflect_types::FieldDescriptorProto;
use std::alloc::{AllocError, Global};

/// A field of a message type.
#[derive(PartialEq, Eq, Debug)]
pub struct FieldDescriptor {
    index: usize,
    message: MessageDescriptor,
    pub ghost declared: { IsTrue (is_declared_at (descriptor_fields message) index) },
}

impl Drop for FieldDescriptor {
    fn drop(self) {
        let FieldDescriptor {
            index: _,
            message: _,
        } = self;
    }
}

impl Clone for FieldDescriptor {
    ghost use Rattle.prost_reflect_dynamic.specs.NamedField.{SameField};

    ghost is_clone = { SameField };

    fn clone(&self) -> Result<FieldDescriptor, AllocError> {
        Ok(FieldDescriptor {
            message: self.message.clone()?,
            index: self.index,
        })
    }
}

impl Placed<MessageDescriptor> for FieldDescriptor {
    ghost use Rattle.prost_reflect_dynamic.specs.Named.{SameMessage};

    ghost is_place = { λ message i. is_declared_at (descriptor_fields message) i };

    ghost stands = { λ message i field. SameMessage message field.message × (field.index ≡ i) };

    fn at(message: &MessageDescriptor, index: usize) -> Result<FieldDescriptor, AllocError> {
        Ok(FieldDescriptor::new(message.clone()?, index))
    }
}

impl FieldDescriptor {
    ghost use Rattle.std.specs.Prelude.{None, Some, true, IfOk, IfSome, IsOk, option_and_then, option_map};
    ghost use Rattle.prost_reflect_wire.specs.Schema.{is_list, is_map};
    ghost use Rattle.prost_reflect_tables.specs.Linking.{is_packable};
    ghost use Rattle.prost_reflect_tables.specs.Shown.{schema_field, is_required};
    ghost use Rattle.prost_reflect_dynamic.specs.Named.{message_row_named};
    ghost use Rattle.prost_reflect_tables.specs.Rows.{field_row};
    ghost use Rattle.prost_reflect_pool.specs.RecordPaths.{FieldRecord, record_of};
    ghost use Rattle.prost_reflect_pool.specs.SharedPools.{files_of, pool_rows};
    ghost use Rattle.prost_reflect_dynamic.specs.Named.{SameMessage};
    ghost use Rattle.prost_reflect_dynamic.specs.NamedField.{row_at};
    ghost use Rattle.prost_reflect_dynamic.specs.NamedKinds.{table_kind, IsAmong};
    ghost use Rattle.prost_reflect_dynamic.specs.Options.{OptionsOf};
    ghost use Rattle.prost_reflect_wire.specs.Typing.{fit_test, value_passes};
    ghost use Rattle.prost_reflect_dynamic.specs.Access.{takes};
    ghost use Rattle.prost_reflect_dynamic.specs.Edits.{IsWholeFor};
    ghost use Rattle.prost_reflect_dynamic.specs.Defaults.{field_default, IsFieldDefault};
    ghost use Rattle.prost_reflect_dynamic.specs.View.{value_of};

    /// The field at a place of a message type.
    pub(crate) fn new(message: MessageDescriptor, index: usize) -> FieldDescriptor
        requires { IsTrue (is_declared_at (descriptor_fields message) index) }
        ensures message { SameMessage message result.message }
        ensures index { result.index ≡ index }
    {
        FieldDescriptor { message, index }
    }

    /// The pool that the field is of.
    pub fn parent_pool(&self) -> &DescriptorPool
        ensures { result.now ≡ self.now.message.pool }
    {
        self.message.parent_pool()
    }

    /// The file that declares the field.
    ///
    /// # Errors
    ///
    /// `AllocError` if out of memory.
    pub fn parent_file(&self) -> Result<FileDescriptor, AllocError>
        ensures file { IfOk result
            (λ file. option_map (λ message. message.id.file) (message_row_named self.now.message) ≡ Some file.index) }
        ensures pool { IfOk result (λ file. file.pool.inner.value ≡ self.now.message.pool.inner.value) }
    {
        self.message.parent_file()
    }

    /// The message type that the field is of.
    pub fn parent_message(&self) -> &MessageDescriptor
        ensures { SameMessage self.now.message result.now }
    {
        &self.message
    }

    /// The field's own name, without its scope.
    pub fn name(&self) -> &str
        ensures { option_map (λ field. field.id.name) (row_at self.now) ≡ Some result.now }
    {
        self.table().id.name()
    }

    /// The full name of the message type and the field's name, joined by a dot.
    pub fn full_name(&self) -> &str
        ensures { option_map (λ field. field.id.full_name) (row_at self.now) ≡ Some result.now }
    {
        self.table().id.full_name()
    }

    /// The path in the file, as in `SourceCodeInfo.Location.path`.
    pub fn path(&self) -> &[i32]
        ensures { option_map (λ field. field.id.path) (row_at self.now) ≡ Some result.now }
    {
        self.table().id.path.as_slice()
    }

    /// The field's record.
    pub fn field_descriptor_proto(&self) -> &FieldDescriptorProto
        ensures { option_and_then (λ field. record_of (files_of self.now.message.pool.inner) field.id) (row_at self.now)
            ≡ Some (FieldRecord result.now) }
    {
        let pool = &self.message.parent_pool().inner;
        pool.field_record(self.message.index(), self.index)
    }

    /// The field's options: what its record stores, read by the pool's `google.protobuf.FieldOptions`.
    /// Where it stores none, the message is empty.
    ///
    /// # Errors
    ///
    /// `NoOptionsMessage` if the pool has no such message type; `Decode` with a fault that the stored bytes have, and only
    /// if that type does not accept them; `OutOfMemory` if memory runs out.
    pub fn options(&self) -> Result<DynamicMessage, OptionsError>
        ensures { OptionsOf self.now.message.pool.inner
            (option_and_then (λ field. record_of (files_of self.now.message.pool.inner) field.id) (row_at self.now))
            result }
    {
        options_by(
            self.parent_pool(),
            "google.protobuf.FieldOptions",
            &self.field_descriptor_proto().options,
        )
    }

    /// The name in JSON: the one that the field's record gives, or else its own name.
    pub fn json_name(&self) -> &str
        ensures { option_map (λ field. field.json_name) (row_at self.now) ≡ Some result.now }
    {
        self.table().json_name()
    }

    /// The field number, from 1 to 536870911.
    pub fn number(&self) -> u32
        ensures { option_map (λ field. field.number) (row_at self.now) ≡ Some result }
    {
        self.table().number
    }

    /// The label: how many values the field has.
    pub fn cardinality(&self) -> Cardinality
        ensures { option_map (λ field. field.cardinality) (row_at self.now) ≡ Some result }
    {
        self.table().cardinality
    }

    /// Whether the label is `required`.
    pub fn is_required(&self) -> bool
        ensures { option_map (λ field. is_required field.cardinality) (row_at self.now) ≡ Some result }
    {
        self.cardinality().is_required()
    }

    /// Whether the field has a list of values, and is no map.
    pub fn is_list(&self) -> bool
        ensures { option_map (λ field. is_list (schema_field (pool_rows self.now.message.pool.inner) field).form)
            (row_at self.now)
            ≡ Some result }
    {
        is_list(&self.parent_pool().inner, self.table())
    }

    /// Whether the field is a map.
    pub fn is_map(&self) -> bool
        ensures { option_map (λ field. is_map (schema_field (pool_rows self.now.message.pool.inner) field).form)
            (row_at self.now)
            ≡ Some result }
    {
        is_map(&self.parent_pool().inner, self.table())
    }

    /// Whether a field that was never set is told apart from one that is set to its default (the guide on field presence).
    pub fn supports_presence(&self) -> bool
        ensures { option_map (λ field. field.supports_presence) (row_at self.now) ≡ Some result }
    {
        self.table().supports_presence
    }

    /// Whether a message value is written as a group.
    pub fn is_group(&self) -> bool
        ensures { option_map (λ field. field.is_group) (row_at self.now) ≡ Some result }
    {
        self.table().is_group
    }

    /// Whether a list is written as one record.
    pub fn is_packed(&self) -> bool
        ensures { option_map (λ field. field.is_packed) (row_at self.now) ≡ Some result }
    {
        self.table().is_packed
    }

    /// Whether a list of the field's kind may be written as one record: of all kinds but string, bytes and messages.
    pub fn is_packable(&self) -> bool
        ensures { option_map (λ field. is_packable field.kind) (row_at self.now) ≡ Some result }
    {
        is_packable(self.table().kind)
    }

    /// The type of the field's values; a map's is the message type of its entries.
    ///
    /// ```
    /// // Whether the values of the field are texts.
    /// fn is_text(field: &FieldDescriptor) -> Result<bool, AllocError> {
    ///     Ok(field.kind()? == Kind::String)
    /// }
    /// ```
    ///
    /// # Errors
    ///
    /// `AllocError` if out of memory.
    pub fn kind(&self) -> Result<Kind, AllocError>
        ensures kind { IfOk result (λ kind. option_map (λ field. field.kind) (row_at self.now) ≡ Some (table_kind kind)) }
        ensures pool { IfOk result (IsAmong self.now.message.pool) }
    {
        Kind::from_table(self.message.parent_pool(), self.table().kind)
    }

    /// The oneof that the field is a member of, or none.
    ///
    /// # Errors
    ///
    /// `AllocError` if out of memory.
    pub fn containing_oneof(&self) -> Result<Option<OneofDescriptor>, AllocError>
        ensures oneof { IfOk result
            (λ oneof. option_map (λ field. field.oneof) (row_at self.now) ≡ Some (option_map (λ o. o.index) oneof)) }
        ensures message { IfOk result (λ oneof. IfSome oneof (λ o. SameMessage self.now.message o.message)) }
        ensures alone { option_map (λ field. field.oneof) (row_at self.now) ≡ Some None → IsOk result }
    {
        match self.table().oneof {
            Some(index) => Ok(Some(OneofDescriptor::at(&self.message, index)?)),
            None => Ok(None),
        }
    }

    /// What the field has where nothing is stored: an empty list or map, the default that the field's definition writes, or else
    /// that of its kind.
    ///
    /// So a field `optional int32 count = 1 [default = 7]` has `Value::I32(7)`.
    ///
    /// # Errors
    ///
    /// `AllocError` if out of memory.
    pub fn default_value(&self, alloc: Global) -> Result<Value, AllocError>
        ensures value { IfOk result (λ value. Some (value_of value) ≡ field_default self.now) }
        ensures default { IfOk result (IsFieldDefault self.now) }
        ensures valid { IfOk result (λ value. takes self.now value ≡ true) }
        ensures fits { IfOk result (λ value. value_passes fit_test (value_of value) ≡ true) }
        ensures whole { IfOk result (IsWholeFor self.now) }
    {
        default_value(alloc, &self.parent_pool().inner, self.table())
    }

    /// The field's row.
    pub(crate) fn table(&self) -> &FieldTable
        ensures { row_at self.now ≡ Some (field_row result.now) }
    {
        &self.message.field_tables()[self.index]
    }
}
