//! Message types as places of a pool.

ghost use Rattle.std.specs.Prelude.{◌≡◌, ◌<◌, IfOk, IfSome, IsOk, None, length, option_map};
ghost use Rattle.prost_reflect_pool.specs.SharedPools.{pool_rows};

mod lookup;

use crate::descriptor::options::{OptionsError, options_by};
use crate::descriptor::{
    DescriptorPool, Descriptors, EnumDescriptor, ExtensionDescriptor, ExtensionRanges,
    FieldDescriptor, FileDescriptor, OneofDescriptor, Placed, ReservedNames, ReservedRanges,
};
use crate::message::DynamicMessage;
use prost_reflect_pool::PooledType;
use prost_reflect_tables::{FieldTable, MessageLists, MessageTable, text_or_empty};
use prost_reflect_types::{DescriptorProto, FileDescriptorProto};
use prost_reflect_walks::Places;
use std::alloc::AllocError;

/// A message type of a pool.
#[derive(PartialEq, Eq, Debug)]
pub struct MessageDescriptor {
    index: usize,
    pool: DescriptorPool,
    pub ghost in_range: { index < length (pool_rows pool.inner).messages },
}

impl Drop for MessageDescriptor {
    fn drop(self) {
        let MessageDescriptor { index: _, pool: _ } = self;
    }
}

impl Clone for MessageDescriptor {
    ghost use Rattle.prost_reflect_dynamic.specs.Named.{SameMessage};

    ghost is_clone = { SameMessage };

    fn clone(&self) -> Result<MessageDescriptor, AllocError> {
        Ok(MessageDescriptor {
            pool: self.pool.clone()?,
            index: self.index,
        })
    }
}

impl Placed<DescriptorPool> for MessageDescriptor {
    ghost use Rattle.std.specs.Prelude.{nat_lt};

    ghost is_place = { λ pool i. nat_lt i (length (pool_rows pool.inner).messages) };

    ghost stands = { λ pool i message. (message.pool.inner.value ≡ pool.inner.value) × (message.index ≡ i) };

    fn at(pool: &DescriptorPool, index: usize) -> Result<MessageDescriptor, AllocError> {
        Ok(MessageDescriptor::new(pool.clone()?, index))
    }
}

impl MessageDescriptor {
    ghost use Rattle.std.specs.Prelude.{◌↔◌, All, IsTrue, Some, map, true};
    ghost use Rattle.prost_reflect_tables.specs.CatalogRows.{message_lists_row};
    ghost use Rattle.prost_reflect_tables.specs.Names.{text_or_empty};
    ghost use Rattle.prost_reflect_tables.specs.LinkedCatalog.{own_fields};
    ghost use Rattle.prost_reflect_pool.specs.SharedPools.{files_of, pool_catalog};
    ghost use Rattle.prost_reflect_walks.specs.Places.{places_from, places_left};
    ghost use Rattle.prost_reflect_dynamic.specs.NamedRecords.{file_of_message, message_record_named, reserved_in, extensible_in, names_in};
    ghost use Rattle.prost_reflect_walks.specs.Reserved.{reserved_left, extensible_left, names_left};
    ghost use Rattle.prost_reflect_pool.specs.RecordPaths.{MessageRecord};
    ghost use Rattle.prost_reflect_dynamic.specs.Named.{lists_named};
    ghost use Rattle.prost_reflect_tables.specs.Rows.{field_row, message_row};
    ghost use Rattle.prost_reflect_dynamic.specs.Named.{IsNamed, NamesEqual, NamesSame, SameMessage, message_row_named};
    ghost use Rattle.prost_reflect_dynamic.specs.NamedExtensions.{Extends};
    ghost use Rattle.prost_reflect_dynamic.specs.NamedFields.{descriptor_fields};
    ghost use Rattle.prost_reflect_rows.specs.Paths.{declared_place};
    ghost use Rattle.prost_reflect_dynamic.specs.Options.{OptionsOf};
    ghost use Rattle.prost_reflect_walks.specs.Walks.{GivesEach};

    /// The message type at a place of a pool.
    pub(crate) fn new(pool: DescriptorPool, index: usize) -> MessageDescriptor
        requires { index < length (pool_rows pool.inner).messages }
        ensures pool { result.pool ≡ pool }
        ensures index { result.index ≡ index }
    {
        MessageDescriptor { pool, index }
    }

    /// The descriptor of a message type.
    pub(crate) fn of_type(message_type: &PooledType) -> Result<MessageDescriptor, AllocError>
        ensures { IfOk result (λ descriptor. NamesSame descriptor message_type.now) }
    {
        let inner = message_type.pool().clone()?;
        Ok(MessageDescriptor::new(DescriptorPool { inner }, message_type.index()))
    }

    /// The message type that the descriptor names.
    pub(crate) fn into_type(self) -> PooledType
        ensures { IsNamed self result }
    {
        let MessageDescriptor { index, pool } = self;
        PooledType::new(pool.into_inner(), index)
    }

    /// Whether the descriptor names the message type, or an equal one of another pool.
    pub(crate) fn names(&self, message_type: &PooledType) -> bool
        ensures { IsTrue result ↔ NamesEqual self.now message_type.now }
    {
        self.index == message_type.index() && self.pool.inner == *message_type.pool()
    }

    /// The pool that the message type is of.
    pub fn parent_pool(&self) -> &DescriptorPool
        ensures { result.now ≡ self.now.pool }
    {
        &self.pool
    }

    /// The file that declares the message type.
    ///
    /// # Errors
    ///
    /// `AllocError` if out of memory.
    pub fn parent_file(&self) -> Result<FileDescriptor, AllocError>
        ensures file { IfOk result (λ file. option_map (λ message. message.id.file) (message_row_named self.now) ≡ Some file.index) }
        ensures pool { IfOk result (λ file. file.pool.inner.value ≡ self.now.pool.inner.value) }
    {
        FileDescriptor::at(&self.pool, self.table().id.file)
    }

    /// The message type around this one, or none at the top of a file.
    ///
    /// # Errors
    ///
    /// `AllocError` if out of memory.
    pub fn parent_message(&self) -> Result<Option<MessageDescriptor>, AllocError>
        ensures parent { IfOk result
            (λ parent. option_map (λ message. message.id.parent) (message_row_named self.now)
            ≡ Some (option_map (λ message. message.index) parent)) }
        ensures pool { IfOk result (λ parent. IfSome parent (λ message. message.pool.inner.value ≡ self.now.pool.inner.value)) }
        ensures top { option_map (λ message. message.id.parent) (message_row_named self.now) ≡ Some None → IsOk result }
    {
        message_at(&self.pool, self.table().id.parent)
    }

    /// The message type's own name, without its scope.
    pub fn name(&self) -> &str
        ensures { option_map (λ message. message.id.name) (message_row_named self.now) ≡ Some result.now }
    {
        self.table().id.name()
    }

    /// The package, the enclosing message types and the name, joined by dots.
    pub fn full_name(&self) -> &str
        ensures { option_map (λ message. message.id.full_name) (message_row_named self.now) ≡ Some result.now }
    {
        self.table().id.full_name()
    }

    /// The package of the file, empty where it has none.
    pub fn package_name(&self) -> &str
        ensures { option_map (λ file. text_or_empty file.package) (file_of_message self.now) ≡ Some result.now }
    {
        text_or_empty(&self.parent_file_descriptor_proto().package)
    }

    /// The path in the file, as in `SourceCodeInfo.Location.path`.
    pub fn path(&self) -> &[i32]
        ensures { option_map (λ message. message.id.path) (message_row_named self.now) ≡ Some result.now }
    {
        self.table().id.path.as_slice()
    }

    /// The record of the file that declares the message type.
    pub fn parent_file_descriptor_proto(&self) -> &FileDescriptorProto
        ensures { file_of_message self.now ≡ Some result.now }
    {
        self.pool.inner.file_record(self.table().id.file)
    }

    /// Whether the type is that of a map's entries.
    pub fn is_map_entry(&self) -> bool
        ensures { option_map (λ message. message.is_map_entry) (message_row_named self.now) ≡ Some result }
    {
        self.table().is_map_entry
    }

    /// The field of the keys of a map's entries, which has the number 1 (the language guide, "Maps"). The type has to be
    /// that of a map's entries, as `is_map_entry` tells.
    ///
    /// # Errors
    ///
    /// `AllocError` if out of memory.
    pub fn map_entry_key_field(&self) -> Result<FieldDescriptor, AllocError>
        requires { option_map (λ message. message.is_map_entry) (message_row_named self.now) ≡ Some true }
        ensures place { IfOk result (λ field. declared_place (descriptor_fields self.now) 1 ≡ Some field.index) }
        ensures message { IfOk result (λ field. SameMessage self.now field.message) }
    {
        FieldDescriptor::at(self, 0)
    }

    /// The field of the values of a map's entries, which has the number 2. The type has to be that of a map's entries, as
    /// `is_map_entry` tells.
    ///
    /// # Errors
    ///
    /// `AllocError` if out of memory.
    pub fn map_entry_value_field(&self) -> Result<FieldDescriptor, AllocError>
        requires { option_map (λ message. message.is_map_entry) (message_row_named self.now) ≡ Some true }
        ensures place { IfOk result (λ field. declared_place (descriptor_fields self.now) 2 ≡ Some field.index) }
        ensures message { IfOk result (λ field. SameMessage self.now field.message) }
    {
        FieldDescriptor::at(self, 1)
    }

    /// The fields, in ascending order of their numbers; extensions are none of them.
    pub fn fields(&self) -> Descriptors<'_, MessageDescriptor, FieldDescriptor>
        ensures message { result.parent.now ≡ self.now }
        ensures places { option_map (λ lists. lists.fields) (lists_named self.now) ≡ Some (places_left result.places) }
        ensures own { GivesEach (λ field. SameMessage self.now field.message) result }
    {
        Descriptors::new(self, Places::Listed(self.lists().fields.as_slice()))
    }

    /// The oneofs, in the order of their declaration.
    pub fn oneofs(&self) -> Descriptors<'_, MessageDescriptor, OneofDescriptor>
        ensures message { result.parent.now ≡ self.now }
        ensures places { option_map (λ message. places_from 0 (length message.oneofs)) (message_row_named self.now)
            ≡ Some (places_left result.places) }
    {
        Descriptors::new(self, Places::up_to(self.table().oneofs.len()))
    }

    /// The message types declared in this one, in the order of their declaration.
    pub fn child_messages(&self) -> Descriptors<'_, DescriptorPool, MessageDescriptor>
        ensures pool { result.parent.now ≡ self.now.pool }
        ensures places { option_map (λ lists. lists.messages) (lists_named self.now) ≡ Some (places_left result.places) }
    {
        Descriptors::new(&self.pool, Places::Listed(self.lists().messages.as_slice()))
    }

    /// The enums declared in the message type, in the order of their declaration.
    pub fn child_enums(&self) -> Descriptors<'_, DescriptorPool, EnumDescriptor>
        ensures pool { result.parent.now ≡ self.now.pool }
        ensures places { option_map (λ lists. lists.enums) (lists_named self.now) ≡ Some (places_left result.places) }
    {
        Descriptors::new(&self.pool, Places::Listed(self.lists().enums.as_slice()))
    }

    /// The extensions declared in the message type, whatever they extend, in the order of their declaration.
    pub fn child_extensions(&self) -> Descriptors<'_, DescriptorPool, ExtensionDescriptor>
        ensures pool { result.parent.now ≡ self.now.pool }
        ensures places { option_map (λ lists. lists.extensions) (lists_named self.now) ≡ Some (places_left result.places) }
    {
        Descriptors::new(
            &self.pool,
            Places::Listed(self.lists().extensions.as_slice()),
        )
    }

    /// The extensions of the message type, wherever they are declared, by file and then by path.
    pub fn extensions(&self) -> Descriptors<'_, DescriptorPool, ExtensionDescriptor>
        ensures pool { result.parent.now ≡ self.now.pool }
        ensures places { option_map (λ lists. lists.extending) (lists_named self.now) ≡ Some (places_left result.places) }
        ensures own { GivesEach (Extends self.now) result }
    {
        Descriptors::new(
            &self.pool,
            Places::Listed(self.lists().extending.as_slice()),
        )
    }

    /// The message type's record.
    pub fn descriptor_proto(&self) -> &DescriptorProto
        ensures { message_record_named self.now ≡ Some (MessageRecord result.now) }
    {
        self.pool.inner.message_record(self.index)
    }

    /// The message type's options: what its record stores, read by the pool's `google.protobuf.MessageOptions`.
    /// Where it stores none, the message is empty.
    ///
    /// # Errors
    ///
    /// `NoOptionsMessage` if the pool has no such message type; `Decode` with a fault that the stored bytes have, and only
    /// if that type does not accept them; `OutOfMemory` if memory runs out.
    pub fn options(&self) -> Result<DynamicMessage, OptionsError>
        ensures { OptionsOf self.now.pool.inner (message_record_named self.now) result }
    {
        options_by(
            &self.pool,
            "google.protobuf.MessageOptions",
            &self.descriptor_proto().options,
        )
    }

    /// The ranges of numbers that no field may have, in the order of the record.
    pub fn reserved_ranges(&self) -> ReservedRanges<'_>
        ensures { reserved_in (message_record_named self.now) ≡ Some (reserved_left result) }
    {
        ReservedRanges {
            records: self.descriptor_proto().reserved_range.as_slice(),
        }
    }

    /// The names that no field may have, in the order of the record.
    pub fn reserved_names(&self) -> ReservedNames<'_>
        ensures { names_in (message_record_named self.now) ≡ Some (names_left result) }
    {
        ReservedNames {
            names: self.descriptor_proto().reserved_name.as_slice(),
        }
    }

    /// The ranges of numbers that extensions may have, in the order of the record.
    pub fn extension_ranges(&self) -> ExtensionRanges<'_>
        ensures { extensible_in (message_record_named self.now) ≡ Some (extensible_left result) }
    {
        ExtensionRanges {
            records: self.descriptor_proto().extension_range.as_slice(),
        }
    }

    /// The message type's place in its pool.
    pub(crate) fn index(&self) -> usize
        ensures { result ≡ self.now.index }
    {
        self.index
    }

    /// What is declared in the message type, and what extends it.
    fn lists(&self) -> &MessageLists
        ensures row { lists_named self.now ≡ Some (message_lists_row result.now) }
        ensures messages { All (λ i. i < length (pool_rows self.now.pool.inner).messages) result.now.messages.items }
        ensures enums { All (λ i. i < length (pool_rows self.now.pool.inner).enums) result.now.enums.items }
        ensures extensions { All (λ i. i < length (pool_catalog self.now.pool.inner).extensions) result.now.extensions.items }
        ensures extending { All (λ i. i < length (pool_catalog self.now.pool.inner).extensions) result.now.extending.items }
        ensures fields { result.now.fields.items ≡ own_fields (descriptor_fields self.now) }
    {
        self.pool.inner.message_lists(self.index)
    }

    /// The message type's table.
    pub(crate) fn table(&self) -> &MessageTable
        ensures row { message_row_named self.now ≡ Some (message_row result.now) }
        ensures file { result.now.id.file < length (files_of self.now.pool.inner) }
        ensures parent { IfSome result.now.id.parent (λ p. p < length (pool_rows self.now.pool.inner).messages) }
    {
        self.pool.inner.message_table(self.index)
    }

    /// The rows of the fields and extensions, in ascending order of their numbers.
    pub(crate) fn field_tables(&self) -> &[FieldTable]
        ensures { map field_row result.now ≡ descriptor_fields self.now }
    {
        self.pool.inner.tables().field_tables(self.index)
    }
}

/// The message type at a place of a pool, if there is one.
pub(crate) fn message_at(
    pool: &DescriptorPool,
    place: Option<usize>,
) -> Result<Option<MessageDescriptor>, AllocError>
    requires { IfSome place (λ i. i < length (pool_rows pool.now.inner).messages) }
    ensures place { IfOk result (λ found. option_map (λ message. message.index) found ≡ place) }
    ensures pool { IfOk result (λ found. IfSome found (λ message. message.pool.inner.value ≡ pool.now.inner.value)) }
    ensures missing { place ≡ None → IsOk result }
{
    match place {
        Some(index) => Ok(Some(MessageDescriptor::at(pool, index)?)),
        None => Ok(None),
    }
}
