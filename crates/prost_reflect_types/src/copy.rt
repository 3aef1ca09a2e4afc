//! Copies of the descriptor records.

ghost use Rattle.std.specs.Prelude.{◌≡◌, IfOk, map};
ghost use Rattle.prost_reflect_types.specs.DescriptorViews.{of_text, of_bytes, of_texts, of_numbers, of_extension_range, of_reserved_range, of_field, of_oneof, of_enum_reserved_range, of_enum_value, of_enum, of_method, of_service, of_message, of_file, of_file_set};

use crate::content::OwnedRecord;
use crate::{
    DescriptorProto, EnumDescriptorProto, EnumReservedRange, EnumValueDescriptorProto,
    ExtensionRange, FieldDescriptorProto, FileDescriptorProto, FileDescriptorSet,
    MethodDescriptorProto, OneofDescriptorProto, ReservedRange, ServiceDescriptorProto,
};
use std::alloc::AllocError;

fn copy_text(text: &Option<String>) -> Result<Option<String>, AllocError>
    ensures { IfOk result (λ copied. of_text copied ≡ of_text text.now) }
{
    match text {
        Some(text) => Ok(Some(text.clone()?)),
        None => Ok(None),
    }
}

fn copy_bytes(bytes: &Option<Vec<u8>>) -> Result<Option<Vec<u8>>, AllocError>
    ensures { IfOk result (λ copied. of_bytes copied ≡ of_bytes bytes.now) }
{
    match bytes {
        Some(bytes) => Ok(Some(bytes.clone()?)),
        None => Ok(None),
    }
}

fn copy_texts(texts: &Vec<String>) -> Result<Vec<String>, AllocError>
    ensures { IfOk result (λ copied. of_texts copied ≡ of_texts texts.now) }
{
    texts.clone()
}

fn copy_numbers(values: &Vec<i32>) -> Result<Vec<i32>, AllocError>
    ensures { IfOk result (λ copied. of_numbers copied ≡ of_numbers values.now) }
{
    values.clone()
}

fn copy_record<P: OwnedRecord>(value: &P) -> Result<P, AllocError>
    ensures { IfOk result (λ copied. P.content copied ≡ P.content value.now) }
{
    value.clone()
}

fn copy_records<P: OwnedRecord>(records: &Vec<P>) -> Result<Vec<P>, AllocError>
    ensures { IfOk result (λ copied. map P.content copied.items ≡ map P.content records.now.items) }
{
    let mut copied = Vec::with_capacity(*records.allocator(), records.len())?;
    for record in records {
        copied.push(copy_record(record)?)?;
    }
    Ok(copied)
}

impl Clone for ExtensionRange {
    ghost is_clone = { λ r copied. of_extension_range copied ≡ of_extension_range r };

    fn clone(&self) -> Result<ExtensionRange, AllocError> {
        Ok(ExtensionRange {
            start: self.start,
            end: self.end,
            options: copy_bytes(&self.options)?,
        })
    }
}

impl Clone for ReservedRange {
    ghost is_clone = { λ r copied. of_reserved_range copied ≡ of_reserved_range r };

    fn clone(&self) -> Result<ReservedRange, AllocError> {
        Ok(ReservedRange {
            start: self.start,
            end: self.end,
        })
    }
}

impl Clone for FieldDescriptorProto {
    ghost is_clone = { λ r copied. of_field copied ≡ of_field r };

    fn clone(&self) -> Result<FieldDescriptorProto, AllocError> {
        Ok(FieldDescriptorProto {
            name: copy_text(&self.name)?,
            extendee: copy_text(&self.extendee)?,
            number: self.number,
            label: self.label,
            type_: self.type_,
            type_name: copy_text(&self.type_name)?,
            default_value: copy_text(&self.default_value)?,
            options: copy_bytes(&self.options)?,
            oneof_index: self.oneof_index,
            json_name: copy_text(&self.json_name)?,
            proto3_optional: self.proto3_optional,
        })
    }
}

impl Clone for OneofDescriptorProto {
    ghost is_clone = { λ r copied. of_oneof copied ≡ of_oneof r };

    fn clone(&self) -> Result<OneofDescriptorProto, AllocError> {
        Ok(OneofDescriptorProto {
            name: copy_text(&self.name)?,
            options: copy_bytes(&self.options)?,
        })
    }
}

impl Clone for EnumReservedRange {
    ghost is_clone = { λ r copied. of_enum_reserved_range copied ≡ of_enum_reserved_range r };

    fn clone(&self) -> Result<EnumReservedRange, AllocError> {
        Ok(EnumReservedRange {
            start: self.start,
            end: self.end,
        })
    }
}

impl Clone for EnumValueDescriptorProto {
    ghost is_clone = { λ r copied. of_enum_value copied ≡ of_enum_value r };

    fn clone(&self) -> Result<EnumValueDescriptorProto, AllocError> {
        Ok(EnumValueDescriptorProto {
            name: copy_text(&self.name)?,
            number: self.number,
            options: copy_bytes(&self.options)?,
        })
    }
}

impl Clone for EnumDescriptorProto {
    ghost is_clone = { λ r copied. of_enum copied ≡ of_enum r };

    fn clone(&self) -> Result<EnumDescriptorProto, AllocError> {
        Ok(EnumDescriptorProto {
            name: copy_text(&self.name)?,
            value: copy_records(&self.value)?,
            options: copy_bytes(&self.options)?,
            reserved_range: copy_records(&self.reserved_range)?,
            reserved_name: copy_texts(&self.reserved_name)?,
        })
    }
}

impl Clone for MethodDescriptorProto {
    ghost is_clone = { λ r copied. of_method copied ≡ of_method r };

    fn clone(&self) -> Result<MethodDescriptorProto, AllocError> {
        Ok(MethodDescriptorProto {
            name: copy_text(&self.name)?,
            input_type: copy_text(&self.input_type)?,
            output_type: copy_text(&self.output_type)?,
            options: copy_bytes(&self.options)?,
            client_streaming: self.client_streaming,
            server_streaming: self.server_streaming,
        })
    }
}

impl Clone for ServiceDescriptorProto {
    ghost is_clone = { λ r copied. of_service copied ≡ of_service r };

    fn clone(&self) -> Result<ServiceDescriptorProto, AllocError> {
        Ok(ServiceDescriptorProto {
            name: copy_text(&self.name)?,
            method: copy_records(&self.method)?,
            options: copy_bytes(&self.options)?,
        })
    }
}

impl Clone for DescriptorProto {
    ghost is_clone = { λ r copied. of_message copied ≡ of_message r };

    fn clone(&self) -> Result<DescriptorProto, AllocError> {
        copy_message(self)
    }
}

#[cycle(message_copy)]
fn copy_message(message: &DescriptorProto) -> Result<DescriptorProto, AllocError>
    ensures { IfOk result (λ copied. of_message copied ≡ of_message message.now) }
{
    Ok(DescriptorProto {
        name: copy_text(&message.name)?,
        field: copy_records(&message.field)?,
        nested_type: copy_messages(&message.nested_type)?,
        enum_type: copy_records(&message.enum_type)?,
        extension_range: copy_records(&message.extension_range)?,
        extension: copy_records(&message.extension)?,
        options: copy_bytes(&message.options)?,
        oneof_decl: copy_records(&message.oneof_decl)?,
        reserved_range: copy_records(&message.reserved_range)?,
        reserved_name: copy_texts(&message.reserved_name)?,
    })
}

#[cycle(message_copy)]
fn copy_messages(messages: &Vec<DescriptorProto>) -> Result<Vec<DescriptorProto>, AllocError>
    ensures { IfOk result (λ copied. map of_message copied.items ≡ map of_message messages.now.items) }
{
    let mut copied = Vec::with_capacity(*messages.allocator(), messages.len())?;
    for message in messages {
        copied.push(copy_message(message)?)?;
    }
    Ok(copied)
}

impl Clone for FileDescriptorProto {
    ghost is_clone = { λ r copied. of_file copied ≡ of_file r };

    fn clone(&self) -> Result<FileDescriptorProto, AllocError> {
        Ok(FileDescriptorProto {
            name: copy_text(&self.name)?,
            package: copy_text(&self.package)?,
            dependency: copy_texts(&self.dependency)?,
            message_type: copy_records(&self.message_type)?,
            enum_type: copy_records(&self.enum_type)?,
            service: copy_records(&self.service)?,
            extension: copy_records(&self.extension)?,
            options: copy_bytes(&self.options)?,
            source_code_info: copy_bytes(&self.source_code_info)?,
            public_dependency: copy_numbers(&self.public_dependency)?,
            weak_dependency: copy_numbers(&self.weak_dependency)?,
            syntax: copy_text(&self.syntax)?,
        })
    }
}

impl Clone for FileDescriptorSet {
    ghost is_clone = { λ r copied. of_file_set copied ≡ of_file_set r };

    fn clone(&self) -> Result<FileDescriptorSet, AllocError> {
        Ok(FileDescriptorSet {
            file: copy_records(&self.file)?,
        })
    }
}
