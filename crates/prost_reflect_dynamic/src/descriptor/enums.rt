//! Enums as places of a pool.

ghost use Rattle.std.specs.Prelude.{◌≡◌, ◌<◌, length};
ghost use Rattle.prost_reflect_pool.specs.SharedPools.{pool_rows};

use crate::descriptor::message::message_at;
use crate::descriptor::options::{OptionsError, options_by};
use crate::descriptor::{
    DescriptorPool, Descriptors, EnumReservedRanges, EnumValueDescriptor, FileDescriptor,
    MessageDescriptor, Placed, ReservedNames,
};
use crate::message::DynamicMessage;
use prost_reflect_tables::{EnumLists, EnumTable, text_or_empty};
use prost_reflect_types::{EnumDescriptorProto, FileDescriptorProto};
use prost_reflect_walks::Places;
use std::alloc::AllocError;

/// An enum of a pool.
#[derive(PartialEq, Eq, Debug)]
pub struct EnumDescriptor {
    index: usize,
    pool: DescriptorPool,
    pub ghost in_range: { index < length (pool_rows pool.inner).enums },
}

impl Drop for EnumDescriptor {
    fn drop(self) {
        let EnumDescriptor { index: _, pool: _ } = self;
    }
}

impl Clone for EnumDescriptor {
    ghost use Rattle.prost_reflect_dynamic.specs.NamedEnums.{SameEnum};

    ghost is_clone = { SameEnum };

    fn clone(&self) -> Result<EnumDescriptor, AllocError> {
        Ok(EnumDescriptor {
            pool: self.pool.clone()?,
            index: self.index,
        })
    }
}

impl Placed<DescriptorPool> for EnumDescriptor {
    ghost use Rattle.std.specs.Prelude.{nat_lt};

    ghost is_place = { λ pool i. nat_lt i (length (pool_rows pool.inner).enums) };

    ghost stands = { λ pool i e. (e.pool.inner.value ≡ pool.inner.value) × (e.index ≡ i) };

    fn at(pool: &DescriptorPool, index: usize) -> Result<EnumDescriptor, AllocError> {
        Ok(EnumDescriptor::new(pool.clone()?, index))
    }
}

impl EnumDescriptor {
    ghost use Rattle.std.specs.Prelude.{All, true, None, Some, IfOk, IfSome, IsOk, option_map, option_and_then, slice_get};
    ghost use Rattle.prost_reflect_wire.specs.Scalar.{in_i32};
    ghost use Rattle.prost_reflect_tables.specs.CatalogRows.{enum_lists_row};
    ghost use Rattle.prost_reflect_tables.specs.Names.{text_or_empty};
    ghost use Rattle.prost_reflect_pool.specs.SharedPools.{files_of};
    ghost use Rattle.prost_reflect_dynamic.specs.NamedEnums.{enum_lists_at, SameEnum};
    ghost use Rattle.prost_reflect_pool.specs.Lookups.{named_value, numbered_value};
    ghost use Rattle.prost_reflect_dynamic.specs.NamedLists.{values_of};
    ghost use Rattle.prost_reflect_dynamic.specs.NamedRecords.{enum_record_named, enum_reserved_in, names_in};
    ghost use Rattle.prost_reflect_walks.specs.Reserved.{enum_reserved_left, names_left};
    ghost use Rattle.prost_reflect_pool.specs.RecordPaths.{EnumRecord};
    ghost use Rattle.prost_reflect_walks.specs.Places.{places_left};
    ghost use Rattle.prost_reflect_tables.specs.Rows.{enum_row};
    ghost use Rattle.prost_reflect_tables.specs.WrittenDefaults.{number_named};
    ghost use Rattle.prost_reflect_pool.specs.Enums.{first_of};
    ghost use Rattle.prost_reflect_dynamic.specs.NamedEnums.{enum_row_at};
    ghost use Rattle.prost_reflect_dynamic.specs.Options.{OptionsOf};

    /// The enum at a place of a pool.
    pub(crate) fn new(pool: DescriptorPool, index: usize) -> EnumDescriptor
        requires { index < length (pool_rows pool.inner).enums }
        ensures same { result.pool ≡ pool }
        ensures index { result.index ≡ index }
    {
        EnumDescriptor { pool, index }
    }

    /// The pool that the enum is of.
    pub fn parent_pool(&self) -> &DescriptorPool
        ensures same { result.now ≡ self.now.pool }
    {
        &self.pool
    }

    /// The package, the enclosing message types and the name, joined by dots.
    pub fn full_name(&self) -> &str
        ensures { option_map (λ e. e.id.full_name) (enum_row_at self.now) ≡ Some result.now }
    {
        self.table().id.full_name()
    }

    /// The file that declares the enum.
    ///
    /// # Errors
    ///
    /// `AllocError` if out of memory.
    pub fn parent_file(&self) -> Result<FileDescriptor, AllocError>
        ensures file { IfOk result (λ file. option_map (λ e. e.id.file) (enum_row_at self.now) ≡ Some file.index) }
        ensures pool { IfOk result (λ file. file.pool.inner.value ≡ self.now.pool.inner.value) }
    {
        FileDescriptor::at(&self.pool, self.table().id.file)
    }

    /// The message type around the enum, or none at the top of a file.
    ///
    /// # Errors
    ///
    /// `AllocError` if out of memory.
    pub fn parent_message(&self) -> Result<Option<MessageDescriptor>, AllocError>
        ensures parent { IfOk result
            (λ parent. option_map (λ e. e.id.parent) (enum_row_at self.now)
            ≡ Some (option_map (λ message. message.index) parent)) }
        ensures pool { IfOk result (λ parent. IfSome parent (λ message. message.pool.inner.value ≡ self.now.pool.inner.value)) }
        ensures top { option_map (λ e. e.id.parent) (enum_row_at self.now) ≡ Some None → IsOk result }
    {
        message_at(&self.pool, self.table().id.parent)
    }

    /// The enum's own name, without its scope.
    pub fn name(&self) -> &str
        ensures { option_map (λ e. e.id.name) (enum_row_at self.now) ≡ Some result.now }
    {
        self.table().id.name()
    }

    /// The package of the file, empty where it has none.
    pub fn package_name(&self) -> &str
        ensures { option_map (λ file. text_or_empty file.package)
            (option_and_then (λ e. slice_get (files_of self.now.pool.inner) e.id.file) (enum_row_at self.now))
            ≡ Some result.now }
    {
        text_or_empty(&self.parent_file_descriptor_proto().package)
    }

    /// The path in the file, as in `SourceCodeInfo.Location.path`.
    pub fn path(&self) -> &[i32]
        ensures { option_map (λ e. e.id.path) (enum_row_at self.now) ≡ Some result.now }
    {
        self.table().id.path.as_slice()
    }

    /// The record of the file that declares the enum.
    pub fn parent_file_descriptor_proto(&self) -> &FileDescriptorProto
        ensures { option_and_then (λ e. slice_get (files_of self.now.pool.inner) e.id.file) (enum_row_at self.now) ≡ Some result.now }
    {
        self.pool.inner.file_record(self.table().id.file)
    }

    /// The values, in ascending order of their numbers; values of one number in the order of their declaration.
    pub fn values(&self) -> Descriptors<'_, EnumDescriptor, EnumValueDescriptor>
        ensures parent { result.parent.now ≡ self.now }
        ensures places { option_map (λ lists. lists.by_number) (enum_lists_at self.now) ≡ Some (places_left result.places) }
    {
        Descriptors::new(self, Places::Listed(self.lists().by_number.as_slice()))
    }

    /// The value of a name, or none where no value has it.
    ///
    /// # Errors
    ///
    /// `AllocError` if out of memory.
    pub fn get_value_by_name(&self, name: &str) -> Result<Option<EnumValueDescriptor>, AllocError>
        ensures found { IfOk result (λ found. option_map (λ value. value.index) found ≡ named_value (values_of self.now) name.now) }
        ensures parent { IfOk result (λ found. IfSome found (λ value. SameEnum self.now value.parent)) }
        ensures missing { named_value (values_of self.now) name.now ≡ None → IsOk result }
    {
        self.value_at(self.pool.inner.value_place_by_name(self.index, name))
    }

    /// The first declared value of a number, or none where no value has it.
    ///
    /// ```
    /// // Whether the enum declares the number.
    /// fn declares(e: &EnumDescriptor, number: i32) -> Result<bool, AllocError> {
    ///     Ok(e.get_value(number)?.is_some())
    /// }
    /// ```
    ///
    /// # Errors
    ///
    /// `AllocError` if out of memory.
    pub fn get_value(&self, number: i32) -> Result<Option<EnumValueDescriptor>, AllocError>
        ensures found { IfOk result (λ found. option_map (λ value. value.index) found ≡ numbered_value (values_of self.now) number) }
        ensures parent { IfOk result (λ found. IfSome found (λ value. SameEnum self.now value.parent)) }
        ensures missing { numbered_value (values_of self.now) number ≡ None → IsOk result }
    {
        self.value_at(self.pool.inner.value_place_by_number(self.index, number))
    }

    /// The value at a place, if there is one.
    fn value_at(&self, place: Option<usize>) -> Result<Option<EnumValueDescriptor>, AllocError>
        requires { IfSome place (λ i. i < length (values_of self.now)) }
        ensures found { IfOk result (λ found. option_map (λ value. value.index) found ≡ place) }
        ensures parent { IfOk result (λ found. IfSome found (λ value. SameEnum self.now value.parent)) }
        ensures missing { place ≡ None → IsOk result }
    {
        match place {
            Some(index) => Ok(Some(EnumValueDescriptor::at(self, index)?)),
            None => Ok(None),
        }
    }

    /// The default: the value that is declared first.
    ///
    /// # Errors
    ///
    /// `AllocError` if out of memory.
    pub fn default_value(&self) -> Result<EnumValueDescriptor, AllocError>
        ensures first { IfOk result (λ value. value.index ≡ 0) }
        ensures parent { IfOk result (λ value. SameEnum self.now value.parent) }
    {
        EnumValueDescriptor::at(self, 0)
    }

    /// The enum's record.
    pub fn enum_descriptor_proto(&self) -> &EnumDescriptorProto
        ensures { enum_record_named self.now ≡ Some (EnumRecord result.now) }
    {
        self.pool.inner.enum_record(self.index)
    }

    /// The enum's options: what its record stores, read by the pool's `google.protobuf.EnumOptions`.
    /// Where it stores none, the message is empty.
    ///
    /// # Errors
    ///
    /// `NoOptionsMessage` if the pool has no such message type; `Decode` with a fault that the stored bytes have, and only
    /// if that type does not accept them; `OutOfMemory` if memory runs out.
    pub fn options(&self) -> Result<DynamicMessage, OptionsError>
        ensures { OptionsOf self.now.pool.inner (enum_record_named self.now) result }
    {
        options_by(
            &self.pool,
            "google.protobuf.EnumOptions",
            &self.enum_descriptor_proto().options,
        )
    }

    /// The ranges of numbers that no value may have, in the order of the record.
    pub fn reserved_ranges(&self) -> EnumReservedRanges<'_>
        ensures { enum_reserved_in (enum_record_named self.now) ≡ Some (enum_reserved_left result) }
    {
        EnumReservedRanges {
            records: self.enum_descriptor_proto().reserved_range.as_slice(),
        }
    }

    /// The names that no value may have, in the order of the record.
    pub fn reserved_names(&self) -> ReservedNames<'_>
        ensures { names_in (enum_record_named self.now) ≡ Some (names_left result) }
    {
        ReservedNames {
            names: self.enum_descriptor_proto().reserved_name.as_slice(),
        }
    }

    /// The enum's place in its pool.
    pub(crate) fn index(&self) -> usize
        ensures { result ≡ self.now.index }
    {
        self.index
    }

    /// Whether a number that no value has is kept as an unknown field.
    pub fn is_closed(&self) -> bool
        ensures { option_map (λ e. e.is_closed) (enum_row_at self.now) ≡ Some result }
    {
        self.table().is_closed
    }

    /// What is looked up in the enum.
    fn lists(&self) -> &EnumLists
        ensures row { enum_lists_at self.now ≡ Some (enum_lists_row result.now) }
        ensures by_number { All (λ i. i < length (values_of self.now)) result.now.by_number.items }
    {
        self.pool.inner.enum_lists(self.index)
    }

    /// The enum's table.
    pub(crate) fn table(&self) -> &EnumTable
        ensures row { enum_row_at self.now ≡ Some (enum_row result.now) }
        ensures file { result.now.id.file < length (files_of self.now.pool.inner) }
        ensures parent { IfSome result.now.id.parent (λ p. p < length (pool_rows self.now.pool.inner).messages) }
    {
        self.pool.inner.enum_table(self.index)
    }

    /// The number of the first value of a name.
    pub(crate) fn number_named(&self, name: &str) -> Option<i32>
        ensures { result ≡ number_named (values_of self.now) name.now }
    {
        match self.pool.inner.value_place_by_name(self.index, name) {
            Some(place) => self.number_at(place),
            None => None,
        }
    }

    /// The number of the value at a place.
    fn number_at(&self, place: usize) -> Option<i32>
        ensures { result ≡ option_map (λ value. value.number) (slice_get (values_of self.now) place) }
    {
        match self.table().values.get(place) {
            Some(value) => Some(value.number),
            None => None,
        }
    }

    /// The number of the first value.
    pub(crate) fn first_number(&self) -> i32
        ensures first { result ≡ first_of (enum_row_at self.now) }
        ensures range { in_i32 result ≡ true }
    {
        self.table().first_number()
    }
}
