//! Laws of the equality of descriptors: each function has no body, and its contract is a law.

ghost use Rattle.std.specs.Prelude.{◌≡◌, ◌↔◌, IsTrue};
ghost use Rattle.prost_reflect_pool.specs.SharedPools.{files_of, pool_rows};
ghost use Rattle.prost_reflect_tables.specs.FileLaws.{SameContents};
ghost use Rattle.prost_reflect_dynamic.specs.Named.{schema_named, type_named};
ghost use Rattle.prost_reflect_dynamic.specs.declared.descriptor.pool.DescriptorPool.{DescriptorPool};
ghost use Rattle.prost_reflect_dynamic.specs.declared.descriptor.message.MessageDescriptor.{MessageDescriptor};
ghost use Rattle.prost_reflect_dynamic.specs.declared.descriptor.enums.EnumDescriptor.{EnumDescriptor};
ghost use Rattle.prost_reflect_dynamic.specs.declared.descriptor.field.FieldDescriptor.{FieldDescriptor};
ghost use Rattle.prost_reflect_dynamic.specs.declared.descriptor.file.FileDescriptor.{FileDescriptor};
ghost use Rattle.prost_reflect_dynamic.specs.declared.descriptor.extension.ExtensionDescriptor.{ExtensionDescriptor};
ghost use Rattle.prost_reflect_dynamic.specs.declared.descriptor.oneof.OneofDescriptor.{OneofDescriptor};
ghost use Rattle.prost_reflect_dynamic.specs.declared.descriptor.enum_value.EnumValueDescriptor.{EnumValueDescriptor};
ghost use Rattle.prost_reflect_dynamic.specs.declared.descriptor.service.ServiceDescriptor.{ServiceDescriptor};
ghost use Rattle.prost_reflect_dynamic.specs.declared.descriptor.method.MethodDescriptor.{MethodDescriptor};

use crate::descriptor::{
    DescriptorPool, EnumDescriptor, EnumValueDescriptor, ExtensionDescriptor, FieldDescriptor,
    FileDescriptor, MessageDescriptor, MethodDescriptor, OneofDescriptor, ServiceDescriptor,
};

/// Pools are equal by `==` exactly where as many files stand in both, and their contents are equal one by one; equal pools
/// have equal tables. Descriptors of files, messages, enums, extensions and services are equal exactly where their pools are
/// and their places are one; those of fields, oneofs, values and methods exactly where what they belong to is, and their places
/// in it are one.
pub fn descriptor_equality()
    ensures pool { (a : DescriptorPool) (b : DescriptorPool)
        → IsTrue (⟦<DescriptorPool as PartialEq>⟧.eq a b) ↔ SameContents (files_of a.inner) (files_of b.inner) }
    ensures tables { (a : DescriptorPool) (b : DescriptorPool) → IsTrue (⟦<DescriptorPool as PartialEq>⟧.eq a b)
        → pool_rows a.inner ≡ pool_rows b.inner }
    ensures message { (a : MessageDescriptor) (b : MessageDescriptor)
        → IsTrue (⟦<MessageDescriptor as PartialEq>⟧.eq a b)
        ↔ (SameContents (files_of a.pool.inner) (files_of b.pool.inner) × (a.index ≡ b.index)) }
    ensures an_enum { (a : EnumDescriptor) (b : EnumDescriptor)
        → IsTrue (⟦<EnumDescriptor as PartialEq>⟧.eq a b)
        ↔ (SameContents (files_of a.pool.inner) (files_of b.pool.inner) × (a.index ≡ b.index)) }
    ensures file { (a : FileDescriptor) (b : FileDescriptor)
        → IsTrue (⟦<FileDescriptor as PartialEq>⟧.eq a b)
        ↔ (SameContents (files_of a.pool.inner) (files_of b.pool.inner) × (a.index ≡ b.index)) }
    ensures extension { (a : ExtensionDescriptor) (b : ExtensionDescriptor)
        → IsTrue (⟦<ExtensionDescriptor as PartialEq>⟧.eq a b)
        ↔ (SameContents (files_of a.pool.inner) (files_of b.pool.inner) × (a.index ≡ b.index)) }
    ensures service { (a : ServiceDescriptor) (b : ServiceDescriptor)
        → IsTrue (⟦<ServiceDescriptor as PartialEq>⟧.eq a b)
        ↔ (SameContents (files_of a.pool.inner) (files_of b.pool.inner) × (a.index ≡ b.index)) }
    ensures field { (a : FieldDescriptor) (b : FieldDescriptor)
        → IsTrue (⟦<FieldDescriptor as PartialEq>⟧.eq a b)
        ↔ (IsTrue (⟦<MessageDescriptor as PartialEq>⟧.eq a.message b.message) × (a.index ≡ b.index)) }
    ensures oneof { (a : OneofDescriptor) (b : OneofDescriptor)
        → IsTrue (⟦<OneofDescriptor as PartialEq>⟧.eq a b)
        ↔ (IsTrue (⟦<MessageDescriptor as PartialEq>⟧.eq a.message b.message) × (a.index ≡ b.index)) }
    ensures value { (a : EnumValueDescriptor) (b : EnumValueDescriptor)
        → IsTrue (⟦<EnumValueDescriptor as PartialEq>⟧.eq a b)
        ↔ (IsTrue (⟦<EnumDescriptor as PartialEq>⟧.eq a.parent b.parent) × (a.index ≡ b.index)) }
    ensures method { (a : MethodDescriptor) (b : MethodDescriptor)
        → IsTrue (⟦<MethodDescriptor as PartialEq>⟧.eq a b)
        ↔ (IsTrue (⟦<ServiceDescriptor as PartialEq>⟧.eq a.service b.service) × (a.index ≡ b.index)) }
    ensures schema { (a : MessageDescriptor) (b : MessageDescriptor)
        → IsTrue (⟦<MessageDescriptor as PartialEq>⟧.eq a b)
        → schema_named a ≡ schema_named b }
    ensures place { (a : MessageDescriptor) (b : MessageDescriptor) → IsTrue (⟦<MessageDescriptor as PartialEq>⟧.eq a b)
        → type_named a ≡ type_named b }
{}
