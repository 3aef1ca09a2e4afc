//! Values of enums.

ghost use Rattle.std.specs.Prelude.{◌≡◌, ◌<◌, length};
ghost use Rattle.prost_reflect_dynamic.specs.NamedLists.{values_of};

use crate::descriptor::options::{OptionsError, options_by};
use crate::descriptor::{DescriptorPool, EnumDescriptor, FileDescriptor, Placed};
use crate::message::DynamicMessage;
use prost_reflect_tables::EnumValueTable;
use prost_reflect_types::EnumValueDescriptorProto;
use std::alloc::AllocError;

/// A value of an enum.
#[derive(PartialEq, Eq, Debug)]
pub struct EnumValueDescriptor {
    index: usize,
    parent: EnumDescriptor,
    pub ghost in_range: { index < length (values_of parent) },
}

impl Drop for EnumValueDescriptor {
    fn drop(self) {
        let EnumValueDescriptor {
            index: _,
            parent: _,
        } = self;
    }
}

impl Clone for EnumValueDescriptor {
    ghost use Rattle.prost_reflect_dynamic.specs.NamedValues.{SameValue};

    ghost is_clone = { SameValue };

    fn clone(&self) -> Result<EnumValueDescriptor, AllocError> {
        Ok(EnumValueDescriptor {
            parent: self.parent.clone()?,
            index: self.index,
        })
    }
}

impl Placed<EnumDescriptor> for EnumValueDescriptor {
    ghost use Rattle.std.specs.Prelude.{nat_lt};
    ghost use Rattle.prost_reflect_dynamic.specs.NamedEnums.{SameEnum};

    ghost is_place = { λ parent i. nat_lt i (length (values_of parent)) };

    ghost stands = { λ parent i value. SameEnum parent value.parent × (value.index ≡ i) };

    fn at(parent: &EnumDescriptor, index: usize) -> Result<EnumValueDescriptor, AllocError> {
        Ok(EnumValueDescriptor {
            parent: parent.clone()?,
            index,
        })
    }
}

impl EnumValueDescriptor {
    ghost use Rattle.std.specs.Prelude.{Some, IfOk, option_and_then, option_map};
    ghost use Rattle.prost_reflect_tables.specs.Rows.{enum_value_row};
    ghost use Rattle.prost_reflect_pool.specs.RecordPaths.{ValueRecord, record_of};
    ghost use Rattle.prost_reflect_pool.specs.SharedPools.{files_of};
    ghost use Rattle.prost_reflect_dynamic.specs.NamedEnums.{enum_row_at};
    ghost use Rattle.prost_reflect_dynamic.specs.NamedValues.{value_row_named};
    ghost use Rattle.prost_reflect_dynamic.specs.Options.{OptionsOf};

    /// The pool that the value is of.
    pub fn parent_pool(&self) -> &DescriptorPool
        ensures { result.now ≡ self.now.parent.pool }
    {
        self.parent.parent_pool()
    }

    /// The file that declares the value.
    ///
    /// # Errors
    ///
    /// `AllocError` if out of memory.
    pub fn parent_file(&self) -> Result<FileDescriptor, AllocError>
        ensures file { IfOk result (λ file. option_map (λ e. e.id.file) (enum_row_at self.now.parent) ≡ Some file.index) }
        ensures pool { IfOk result (λ file. file.pool.inner.value ≡ self.now.parent.pool.inner.value) }
    {
        self.parent.parent_file()
    }

    /// The enum that the value is of.
    pub fn parent_enum(&self) -> &EnumDescriptor
        ensures { result.now ≡ self.now.parent }
    {
        &self.parent
    }

    /// The value's own name, without its scope.
    pub fn name(&self) -> &str
        ensures { option_map (λ value. value.id.name) (value_row_named self.now) ≡ Some result.now }
    {
        self.table().id.name()
    }

    /// The scope around the enum and the value's name, joined by a dot: the enum's own name is no part of it.
    pub fn full_name(&self) -> &str
        ensures { option_map (λ value. value.id.full_name) (value_row_named self.now) ≡ Some result.now }
    {
        self.table().id.full_name()
    }

    /// The path in the file, as in `SourceCodeInfo.Location.path`.
    pub fn path(&self) -> &[i32]
        ensures { option_map (λ value. value.id.path) (value_row_named self.now) ≡ Some result.now }
    {
        self.table().id.path.as_slice()
    }

    /// The value's record.
    pub fn enum_value_descriptor_proto(&self) -> &EnumValueDescriptorProto
        ensures { option_and_then (λ value. record_of (files_of self.now.parent.pool.inner) value.id)
            (value_row_named self.now)
            ≡ Some (ValueRecord result.now) }
    {
        let pool = &self.parent.parent_pool().inner;
        pool.value_record(self.parent.index(), self.index)
    }

    /// The value's options: what its record stores, read by the pool's `google.protobuf.EnumValueOptions`.
    /// Where it stores none, the message is empty.
    ///
    /// # Errors
    ///
    /// `NoOptionsMessage` if the pool has no such message type; `Decode` with a fault that the stored bytes have, and only
    /// if that type does not accept them; `OutOfMemory` if memory runs out.
    pub fn options(&self) -> Result<DynamicMessage, OptionsError>
        ensures { OptionsOf self.now.parent.pool.inner
            (option_and_then (λ value. record_of (files_of self.now.parent.pool.inner) value.id)
            (value_row_named self.now)) result }
    {
        options_by(
            self.parent_pool(),
            "google.protobuf.EnumValueOptions",
            &self.enum_value_descriptor_proto().options,
        )
    }

    /// The number; several values may have the same one.
    ///
    /// ```
    /// // The number of the enum's value of the name, or none where no value has it.
    /// fn number_of(e: &EnumDescriptor, name: &str) -> Result<Option<i32>, AllocError> {
    ///     match e.get_value_by_name(name)? {
    ///         Some(value) => Ok(Some(value.number())),
    ///         None => Ok(None),
    ///     }
    /// }
    /// ```
    pub fn number(&self) -> i32
        ensures { option_map (λ value. value.number) (value_row_named self.now) ≡ Some result }
    {
        self.table().number
    }

    /// The value's row.
    fn table(&self) -> &EnumValueTable
        ensures { value_row_named self.now ≡ Some (enum_value_row result.now) }
    {
        &self.parent.table().values[self.index]
    }
}
