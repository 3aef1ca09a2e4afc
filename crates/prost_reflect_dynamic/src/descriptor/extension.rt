//! Extensions as places of a pool.

ghost use Rattle.std.specs.Prelude.{◌≡◌, ◌<◌, IfOk, IfSome, IsOk, None, length, option_map};
ghost use Rattle.prost_reflect_pool.specs.SharedPools.{pool_catalog};

use crate::descriptor::message::message_at;
use crate::descriptor::options::{OptionsError, options_by};
use crate::descriptor::{DescriptorPool, FileDescriptor, Kind, MessageDescriptor, Placed};
use crate::message::DynamicMessage;
use crate::value::Value;
use crate::value::defaults::default_value;
use prost_reflect_pool::PooledType;
use prost_reflect_rows::forms::{is_list, is_map};
use prost_reflect_tables::{Cardinality, FieldTable, is_packable, text_or_empty};
use prost_reflect_types::{FieldDescriptorProto, FileDescriptorProto};
use std::alloc::{AllocError, Global};

/// An extension of a message type (the proto2 guide, "Extensions").
#[derive(PartialEq, Eq, Debug)]
pub struct ExtensionDescriptor {
    index: usize,
    pool: DescriptorPool,
    pub ghost in_range: { index < length (pool_catalog pool.inner).extensions },
}

impl Drop for ExtensionDescriptor {
    fn drop(self) {
        let ExtensionDescriptor { index: _, pool: _ } = self;
    }
}

impl Clone for ExtensionDescriptor {
    ghost use Rattle.prost_reflect_dynamic.specs.NamedExtensions.{SameExtension};

    ghost is_clone = { SameExtension };

    fn clone(&self) -> Result<ExtensionDescriptor, AllocError> {
        Ok(ExtensionDescriptor {
            pool: self.pool.clone()?,
            index: self.index,
        })
    }
}

impl Placed<DescriptorPool> for ExtensionDescriptor {
    ghost use Rattle.std.specs.Prelude.{nat_lt};

    ghost is_place = { λ pool i. nat_lt i (length (pool_catalog pool.inner).extensions) };

    ghost stands = { λ pool i extension. (extension.pool.inner.value ≡ pool.inner.value) × (extension.index ≡ i) };

    fn at(pool: &DescriptorPool, index: usize) -> Result<ExtensionDescriptor, AllocError> {
        Ok(ExtensionDescriptor {
            pool: pool.clone()?,
            index,
        })
    }
}

impl ExtensionDescriptor {
    ghost use Rattle.std.specs.Prelude.{◌↔◌, true, Some, IsTrue, option_and_then, slice_get};
    ghost use Rattle.prost_reflect_wire.specs.Schema.{is_list, is_map};
    ghost use Rattle.prost_reflect_tables.specs.Linked.{kind_in_range};
    ghost use Rattle.prost_reflect_tables.specs.Linking.{is_packable};
    ghost use Rattle.prost_reflect_tables.specs.Names.{text_or_empty};
    ghost use Rattle.prost_reflect_tables.specs.Rows.{field_row};
    ghost use Rattle.prost_reflect_tables.specs.Shown.{schema_field};
    ghost use Rattle.prost_reflect_pool.specs.RecordPaths.{FieldRecord, record_of};
    ghost use Rattle.prost_reflect_pool.specs.SharedPools.{files_of, pool_rows};
    ghost use Rattle.prost_reflect_wire.specs.Typing.{fit_test, value_passes};
    ghost use Rattle.prost_reflect_dynamic.specs.Edits.{IsWholeForExtension};
    ghost use Rattle.prost_reflect_dynamic.specs.ExtensionAccess.{IsOwnExtension, extension_takes};
    ghost use Rattle.prost_reflect_dynamic.specs.NamedExtensions.{extension_named, extension_row_named};
    ghost use Rattle.prost_reflect_dynamic.specs.NamedKinds.{table_kind, IsAmong};
    ghost use Rattle.prost_reflect_dynamic.specs.Options.{OptionsOf};
    ghost use Rattle.prost_reflect_dynamic.specs.Defaults.{extension_default, IsExtensionDefault};
    ghost use Rattle.prost_reflect_dynamic.specs.View.{value_of};

    /// The pool that the extension is of.
    pub fn parent_pool(&self) -> &DescriptorPool
        ensures { result.now ≡ self.now.pool }
    {
        &self.pool
    }

    /// The file that declares the extension.
    ///
    /// # Errors
    ///
    /// `AllocError` if out of memory.
    pub fn parent_file(&self) -> Result<FileDescriptor, AllocError>
        ensures file { IfOk result (λ file. option_map (λ field. field.id.file) (extension_row_named self.now) ≡ Some file.index) }
        ensures pool { IfOk result (λ file. file.pool.inner.value ≡ self.now.pool.inner.value) }
    {
        FileDescriptor::at(&self.pool, self.table().id.file)
    }

    /// The message type in which the extension is declared, or none at the top of a file.
    ///
    /// # Errors
    ///
    /// `AllocError` if out of memory.
    pub fn parent_message(&self) -> Result<Option<MessageDescriptor>, AllocError>
        ensures parent { IfOk result
            (λ parent. option_map (λ field. field.id.parent) (extension_row_named self.now)
            ≡ Some (option_map (λ message. message.index) parent)) }
        ensures pool { IfOk result (λ parent. IfSome parent (λ message. message.pool.inner.value ≡ self.now.pool.inner.value)) }
        ensures top { option_map (λ field. field.id.parent) (extension_row_named self.now) ≡ Some None → IsOk result }
    {
        message_at(&self.pool, self.table().id.parent)
    }

    /// The message type that the extension extends.
    ///
    /// ```
    /// // Whether the extension extends the message type of the full name.
    /// fn extends(extension: &ExtensionDescriptor, name: &str) -> Result<bool, AllocError> {
    ///     Ok(extension.containing_message()?.full_name() == name)
    /// }
    /// ```
    ///
    /// # Errors
    ///
    /// `AllocError` if out of memory.
    pub fn containing_message(&self) -> Result<MessageDescriptor, AllocError>
        ensures message { IfOk result
            (λ message. option_map (λ extension. extension.message) (extension_named self.now) ≡ Some message.index) }
        ensures pool { IfOk result (λ message. message.pool.inner.value ≡ self.now.pool.inner.value) }
    {
        MessageDescriptor::at(
            &self.pool,
            self.pool.inner.extension_table(self.index).message,
        )
    }

    /// The extension's own name, without its scope.
    pub fn name(&self) -> &str
        ensures { option_map (λ field. field.id.name) (extension_row_named self.now) ≡ Some result.now }
    {
        self.table().id.name()
    }

    /// The package, the enclosing message types and the name, joined by dots.
    pub fn full_name(&self) -> &str
        ensures { option_map (λ field. field.id.full_name) (extension_row_named self.now) ≡ Some result.now }
    {
        self.table().id.full_name()
    }

    /// The package of the file, empty where it has none.
    pub fn package_name(&self) -> &str
        ensures { option_map (λ file. text_or_empty file.package)
            (option_and_then (λ field. slice_get (files_of self.now.pool.inner) field.id.file)
            (extension_row_named self.now))
            ≡ Some result.now }
    {
        text_or_empty(&self.parent_file_descriptor_proto().package)
    }

    /// The path in the file, as in `SourceCodeInfo.Location.path`.
    pub fn path(&self) -> &[i32]
        ensures { option_map (λ field. field.id.path) (extension_row_named self.now) ≡ Some result.now }
    {
        self.table().id.path.as_slice()
    }

    /// The record of the file that declares the extension.
    pub fn parent_file_descriptor_proto(&self) -> &FileDescriptorProto
        ensures { option_and_then (λ field. slice_get (files_of self.now.pool.inner) field.id.file)
            (extension_row_named self.now)
            ≡ Some result.now }
    {
        self.pool.inner.file_record(self.table().id.file)
    }

    /// The extension's record.
    pub fn field_descriptor_proto(&self) -> &FieldDescriptorProto
        ensures { option_and_then (λ field. record_of (files_of self.now.pool.inner) field.id)
            (extension_row_named self.now)
            ≡ Some (FieldRecord result.now) }
    {
        let stands = self.pool.inner.extension_table(self.index);
        self.pool.inner.field_record(stands.message, stands.field)
    }

    /// The extension's options: what its record stores, read by the pool's `google.protobuf.FieldOptions`.
    /// Where it stores none, the message is empty.
    ///
    /// # Errors
    ///
    /// `NoOptionsMessage` if the pool has no such message type; `Decode` with a fault that the stored bytes have, and only
    /// if that type does not accept them; `OutOfMemory` if memory runs out.
    pub fn options(&self) -> Result<DynamicMessage, OptionsError>
        ensures { OptionsOf self.now.pool.inner
            (option_and_then (λ field. record_of (files_of self.now.pool.inner) field.id)
            (extension_row_named self.now)) result }
    {
        options_by(
            &self.pool,
            "google.protobuf.FieldOptions",
            &self.field_descriptor_proto().options,
        )
    }

    /// The field number, from 1 to 536870911.
    pub fn number(&self) -> u32
        ensures { option_map (λ field. field.number) (extension_row_named self.now) ≡ Some result }
    {
        self.table().number
    }

    /// The name in JSON: the full name in brackets.
    pub fn json_name(&self) -> &str
        ensures { option_map (λ field. field.json_name) (extension_row_named self.now) ≡ Some result.now }
    {
        self.table().json_name()
    }

    /// Whether a message value is written as a group.
    pub fn is_group(&self) -> bool
        ensures { option_map (λ field. field.is_group) (extension_row_named self.now) ≡ Some result }
    {
        self.table().is_group
    }

    /// Whether the extension has a list of values, and is no map.
    pub fn is_list(&self) -> bool
        ensures { option_map (λ field. is_list (schema_field (pool_rows self.now.pool.inner) field).form)
            (extension_row_named self.now)
            ≡ Some result }
    {
        is_list(&self.pool.inner, self.table())
    }

    /// Whether the extension is a map.
    pub fn is_map(&self) -> bool
        ensures { option_map (λ field. is_map (schema_field (pool_rows self.now.pool.inner) field).form)
            (extension_row_named self.now)
            ≡ Some result }
    {
        is_map(&self.pool.inner, self.table())
    }

    /// Whether a list is written as one record.
    pub fn is_packed(&self) -> bool
        ensures { option_map (λ field. field.is_packed) (extension_row_named self.now) ≡ Some result }
    {
        self.table().is_packed
    }

    /// Whether a list of the extension's kind may be written as one record: of all kinds but string, bytes and messages.
    pub fn is_packable(&self) -> bool
        ensures { option_map (λ field. is_packable field.kind) (extension_row_named self.now) ≡ Some result }
    {
        is_packable(self.table().kind)
    }

    /// The label: how many values the extension has.
    pub fn cardinality(&self) -> Cardinality
        ensures { option_map (λ field. field.cardinality) (extension_row_named self.now) ≡ Some result }
    {
        self.table().cardinality
    }

    /// Whether an extension that was never set is told apart from one that is set to its default (the guide on field
    /// presence).
    pub fn supports_presence(&self) -> bool
        ensures { option_map (λ field. field.supports_presence) (extension_row_named self.now) ≡ Some result }
    {
        self.table().supports_presence
    }

    /// The type of the extension's values; a map's is the message type of its entries.
    ///
    /// # Errors
    ///
    /// `AllocError` if out of memory.
    pub fn kind(&self) -> Result<Kind, AllocError>
        ensures kind { IfOk result (λ kind. option_map (λ field. field.kind) (extension_row_named self.now) ≡ Some (table_kind kind)) }
        ensures pool { IfOk result (IsAmong self.now.pool) }
    {
        Kind::from_table(&self.pool, self.table().kind)
    }

    /// What the extension has where nothing is stored, as `FieldDescriptor::default_value` says it of a field.
    ///
    /// # Errors
    ///
    /// `AllocError` if out of memory.
    pub fn default_value(&self, alloc: Global) -> Result<Value, AllocError>
        ensures value { IfOk result (λ value. Some (value_of value) ≡ extension_default self.now) }
        ensures default { IfOk result (IsExtensionDefault self.now) }
        ensures valid { IfOk result (λ value. extension_takes self.now value ≡ true) }
        ensures fits { IfOk result (λ value. value_passes fit_test (value_of value) ≡ true) }
        ensures whole { IfOk result (IsWholeForExtension self.now) }
    {
        default_value(alloc, &self.pool.inner, self.table())
    }

    /// Whether the extension extends the message type, or an equal one of another pool.
    pub(crate) fn extends(&self, message_type: &PooledType) -> bool
        ensures { IsTrue result ↔ IsOwnExtension message_type.now self.now }
    {
        self.extended_place() == message_type.index() && self.pool.inner == *message_type.pool()
    }

    /// The place of the message type that the extension extends.
    fn extended_place(&self) -> usize
        ensures { option_map (λ extension. extension.message) (extension_named self.now) ≡ Some result }
    {
        self.pool.inner.extension_table(self.index).message
    }

    /// The extension's row.
    pub(crate) fn table(&self) -> &FieldTable
        ensures row { extension_row_named self.now ≡ Some (field_row result.now) }
        ensures file { result.now.id.file < length (files_of self.now.pool.inner) }
        ensures parent { IfSome result.now.id.parent (λ p. p < length (pool_rows self.now.pool.inner).messages) }
        ensures kind { IsTrue
            (kind_in_range (length (pool_rows self.now.pool.inner).messages)
            (length (pool_rows self.now.pool.inner).enums) result.now.kind) }
    {
        self.pool.inner.extension_field(self.index)
    }
}

/// The extension at a place of a pool, if there is one.
pub(crate) fn extension_at(
    pool: &DescriptorPool,
    place: Option<usize>,
) -> Result<Option<ExtensionDescriptor>, AllocError>
    requires { IfSome place (λ i. i < length (pool_catalog pool.now.inner).extensions) }
    ensures place { IfOk result (λ found. option_map (λ extension. extension.index) found ≡ place) }
    ensures pool { IfOk result (λ found. IfSome found (λ extension. extension.pool.inner.value ≡ pool.now.inner.value)) }
    ensures missing { place ≡ None → IsOk result }
{
    match place {
        Some(index) => Ok(Some(ExtensionDescriptor::at(pool, index)?)),
        None => Ok(None),
    }
}
