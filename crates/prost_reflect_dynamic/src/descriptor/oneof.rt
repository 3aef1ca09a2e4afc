//! Oneofs as places of a message type.

ghost use Rattle.std.specs.Prelude.{◌≡◌, ◌<◌, length};
ghost use Rattle.prost_reflect_dynamic.specs.NamedLists.{oneofs_of};

use crate::descriptor::options::{OptionsError, options_by};
use crate::descriptor::{
    DescriptorPool, Descriptors, FieldDescriptor, FileDescriptor, MessageDescriptor, Placed,
};
use crate::message::DynamicMessage;
use prost_reflect_tables::OneofTable;
use prost_reflect_types::OneofDescriptorProto;
use prost_reflect_walks::Places;
use std::alloc::AllocError;

/// A oneof of a message type (the proto3 guide, "Oneof").
#[derive(PartialEq, Eq, Debug)]
pub struct OneofDescriptor {
    index: usize,
    message: MessageDescriptor,
    pub ghost in_range: { index < length (oneofs_of message) },
}

impl Drop for OneofDescriptor {
    fn drop(self) {
        let OneofDescriptor {
            index: _,
            message: _,
        } = self;
    }
}

impl Clone for OneofDescriptor {
    ghost use Rattle.prost_reflect_dynamic.specs.NamedOneofs.{SameOneof};

    ghost is_clone = { SameOneof };

    fn clone(&self) -> Result<OneofDescriptor, AllocError> {
        Ok(OneofDescriptor {
            message: self.message.clone()?,
            index: self.index,
        })
    }
}

impl Placed<MessageDescriptor> for OneofDescriptor {
    ghost use Rattle.std.specs.Prelude.{nat_lt};
    ghost use Rattle.prost_reflect_dynamic.specs.Named.{SameMessage};

    ghost is_place = { λ message i. nat_lt i (length (oneofs_of message)) };

    ghost stands = { λ message i oneof. SameMessage message oneof.message × (oneof.index ≡ i) };

    fn at(message: &MessageDescriptor, index: usize) -> Result<OneofDescriptor, AllocError> {
        Ok(OneofDescriptor {
            message: message.clone()?,
            index,
        })
    }
}

impl OneofDescriptor {
    ghost use Rattle.std.specs.List.{list_all};
    ghost use Rattle.std.specs.Prelude.{IsTrue, Some, IfOk, option_and_then, option_map};
    ghost use Rattle.prost_reflect_tables.specs.Rows.{oneof_row};
    ghost use Rattle.prost_reflect_pool.specs.RecordPaths.{OneofRecord, record_of};
    ghost use Rattle.prost_reflect_pool.specs.SharedPools.{files_of};
    ghost use Rattle.prost_reflect_dynamic.specs.Named.{message_row_named};
    ghost use Rattle.prost_reflect_dynamic.specs.NamedFields.{descriptor_fields, is_declared_at};
    ghost use Rattle.prost_reflect_dynamic.specs.NamedOneofs.{is_synthetic_in, oneof_row_named};
    ghost use Rattle.prost_reflect_walks.specs.Places.{places_left};
    ghost use Rattle.prost_reflect_dynamic.specs.Options.{OptionsOf};
    ghost use Rattle.prost_reflect_dynamic.specs.Named.{SameMessage};
    ghost use Rattle.prost_reflect_walks.specs.Walks.{GivesEach};

    /// The pool that the oneof is of.
    pub fn parent_pool(&self) -> &DescriptorPool
        ensures { result.now ≡ self.now.message.pool }
    {
        self.message.parent_pool()
    }

    /// The file that declares the oneof.
    ///
    /// # Errors
    ///
    /// `AllocError` if out of memory.
    pub fn parent_file(&self) -> Result<FileDescriptor, AllocError>
        ensures file { IfOk result
            (λ file. option_map (λ message. message.id.file) (message_row_named self.now.message) ≡ Some file.index) }
        ensures pool { IfOk result (λ file. file.pool.inner.value ≡ self.now.message.pool.inner.value) }
    {
        self.message.parent_file()
    }

    /// The message type that the oneof is of.
    pub fn parent_message(&self) -> &MessageDescriptor
        ensures { result.now ≡ self.now.message }
    {
        &self.message
    }

    /// The oneof's own name, without its scope.
    pub fn name(&self) -> &str
        ensures { option_map (λ oneof. oneof.id.name) (oneof_row_named self.now) ≡ Some result.now }
    {
        self.table().id.name()
    }

    /// The full name of the message type and the oneof's name, joined by a dot.
    pub fn full_name(&self) -> &str
        ensures { option_map (λ oneof. oneof.id.full_name) (oneof_row_named self.now) ≡ Some result.now }
    {
        self.table().id.full_name()
    }

    /// The path in the file, as in `SourceCodeInfo.Location.path`.
    pub fn path(&self) -> &[i32]
        ensures { option_map (λ oneof. oneof.id.path) (oneof_row_named self.now) ≡ Some result.now }
    {
        self.table().id.path.as_slice()
    }

    /// The oneof's record.
    pub fn oneof_descriptor_proto(&self) -> &OneofDescriptorProto
        ensures { option_and_then (λ oneof. record_of (files_of self.now.message.pool.inner) oneof.id)
            (oneof_row_named self.now)
            ≡ Some (OneofRecord result.now) }
    {
        let pool = &self.message.parent_pool().inner;
        pool.oneof_record(self.message.index(), self.index)
    }

    /// The oneof's options: what its record stores, read by the pool's `google.protobuf.OneofOptions`.
    /// Where it stores none, the message is empty.
    ///
    /// # Errors
    ///
    /// `NoOptionsMessage` if the pool has no such message type; `Decode` with a fault that the stored bytes have, and only
    /// if that type does not accept them; `OutOfMemory` if memory runs out.
    pub fn options(&self) -> Result<DynamicMessage, OptionsError>
        ensures { OptionsOf self.now.message.pool.inner
            (option_and_then (λ oneof. record_of (files_of self.now.message.pool.inner) oneof.id)
            (oneof_row_named self.now)) result }
    {
        options_by(
            self.parent_pool(),
            "google.protobuf.OneofOptions",
            &self.oneof_descriptor_proto().options,
        )
    }

    /// The members, in the order of their declaration.
    ///
    /// ```
    /// // Whether the oneof has several members, of which a message has one at most.
    /// fn is_choice(oneof: &OneofDescriptor) -> bool {
    ///     oneof.fields().len() > 1
    /// }
    /// ```
    pub fn fields(&self) -> Descriptors<'_, MessageDescriptor, FieldDescriptor>
        ensures message { result.parent.now ≡ self.now.message }
        ensures places { option_map (λ oneof. oneof.fields) (oneof_row_named self.now) ≡ Some (places_left result.places) }
        ensures own { GivesEach (λ field. SameMessage self.now.message field.message) result }
    {
        Descriptors::new(
            &self.message,
            Places::Listed(self.table().fields.as_slice()),
        )
    }

    /// Whether the oneof has one member alone, and that one's record says `proto3_optional`: no source text declares it.
    pub fn is_synthetic(&self) -> bool
        ensures { option_map
            (λ oneof. is_synthetic_in (files_of self.now.message.pool.inner) (descriptor_fields self.now.message)
            oneof.fields) (oneof_row_named self.now)
            ≡ Some result }
    {
        let pool = &self.message.parent_pool().inner;
        match self.table().fields.as_slice() {
            [field] => pool
                .field_record(self.message.index(), *field)
                .proto3_optional
                .unwrap_or(false),
            _ => false,
        }
    }

    /// The oneof's row.
    fn table(&self) -> &OneofTable
        ensures row { oneof_row_named self.now ≡ Some (oneof_row result.now) }
        ensures members { IsTrue (list_all (is_declared_at (descriptor_fields self.now.message)) result.now.fields.items) }
    {
        let pool = &self.message.parent_pool().inner;
        pool.oneof_table(self.message.index(), self.index)
    }
}
