//! Which pool, file and parent definitions have, which records they were read from, and that they are equal to their copies and
//! to what is made of their places.

use crate::named::{field_of, is_its_copy, lent, message_of, pool_of};
use crate::whole::WHOLE;
use prost_reflect::{
    DescriptorPool, EnumDescriptor, EnumValueDescriptor, ExtensionDescriptor, FieldDescriptor,
    FileDescriptor, MessageDescriptor, MethodDescriptor, OneofDescriptor, ServiceDescriptor,
};
use std::alloc::{AllocError, Global};
use std::test::Fail;

/// Whether the text is there, and is this one.
fn is(text: &Option<String>, expected: &str) -> bool {
    match text {
        Some(text) => text.as_str() == expected,
        None => false,
    }
}

/// Whether the file is `whole.proto`, of the pool.
fn is_file(file: &FileDescriptor, pool: &DescriptorPool) -> bool {
    is(&file.file_descriptor_proto().package, "w.x") && *file.parent_pool() == *pool
}

/// Whether the message type is `C`, of the pool.
fn is_message(message: &MessageDescriptor, pool: &DescriptorPool) -> bool {
    let record = message.descriptor_proto();
    is(&record.name, "C")
        && record.field.len() == 3
        && is(&message.parent_file_descriptor_proto().name, "whole.proto")
        && *message.parent_pool() == *pool
}

/// Whether the field is `state`, of `C` and of the pool.
fn is_field(field: &FieldDescriptor, pool: &DescriptorPool) -> Result<bool, AllocError> {
    let is_read = is(&field.field_descriptor_proto().default_value, "UP");
    let is_inside = field.parent_message().name() == "C" && *field.parent_pool() == *pool;
    Ok(field.parent_file()?.name() == "whole.proto" && is_read && is_inside)
}

/// Whether the oneof is `choice`, of `A` and of the pool.
fn is_oneof(oneof: &OneofDescriptor, pool: &DescriptorPool) -> Result<bool, AllocError> {
    let is_read = is(&oneof.oneof_descriptor_proto().name, "choice");
    let is_inside = oneof.parent_message().name() == "A" && *oneof.parent_pool() == *pool;
    Ok(oneof.parent_file()?.name() == "whole.proto" && is_read && is_inside)
}

/// Whether the extension is `c`, of the pool.
fn is_extension(extension: &ExtensionDescriptor, pool: &DescriptorPool) -> bool {
    is(&extension.field_descriptor_proto().extendee, ".w.x.Other")
        && is(
            &extension.parent_file_descriptor_proto().name,
            "whole.proto",
        )
        && *extension.parent_pool() == *pool
}

/// Whether the enum is `State`, of the pool.
fn is_enum(found: &EnumDescriptor, pool: &DescriptorPool) -> bool {
    let record = found.enum_descriptor_proto();
    is(&record.name, "State")
        && record.value.len() == 3
        && is(&found.parent_file_descriptor_proto().name, "whole.proto")
        && *found.parent_pool() == *pool
}

/// Whether the value is `OFF`, of `State` and of the pool.
fn is_value(value: &EnumValueDescriptor, pool: &DescriptorPool) -> Result<bool, AllocError> {
    let record = value.enum_value_descriptor_proto();
    let is_read = is(&record.name, "OFF") && record.number == Some(2);
    let is_inside = value.parent_enum().name() == "State" && *value.parent_pool() == *pool;
    Ok(value.parent_file()?.name() == "whole.proto" && is_read && is_inside)
}

/// Whether the service is `S`, of the pool.
fn is_service(service: &ServiceDescriptor, pool: &DescriptorPool) -> bool {
    service.service_descriptor_proto().method.len() == 2
        && service.name() == "S"
        && is(&service.parent_file_descriptor_proto().name, "whole.proto")
        && service.index() == 0
        && *service.parent_pool() == *pool
}

/// Whether the method is `Go`, of `S` and of the pool.
fn is_method(method: &MethodDescriptor, pool: &DescriptorPool) -> Result<bool, AllocError> {
    let is_read = is(&method.method_descriptor_proto().output_type, ".w.x.Other");
    let is_inside = method.parent_service().name() == "S" && *method.parent_pool() == *pool;
    Ok(method.parent_file()?.name() == "whole.proto" && is_read && is_inside)
}

/// Whether the file, which is the second, the service and the method are equal to what is made of their parents and places.
fn are_made_of_places(
    file: &FileDescriptor,
    service: &ServiceDescriptor,
    method: &MethodDescriptor,
) -> Result<[bool; 3], AllocError> {
    let second = FileDescriptor::new(file.parent_pool().clone()?, file.index()) == *file;
    let made = ServiceDescriptor::new(service.parent_pool().clone()?, service.index()) == *service;
    let inside = MethodDescriptor::new(method.parent_service().clone()?, method.index()) == *method;
    Ok([second && file.index() == 1, made, inside])
}

/// Whether a file, a message type, a field and a oneof of the pool have their origins, and equal their copies.
fn have_members(alloc: Global, pool: &DescriptorPool) -> Result<[bool; 4], Fail> {
    let file = lent(alloc, pool.get_file_by_name("whole.proto"))?;
    let message = message_of(alloc, pool, "w.x.A.B.C")?;
    let field = field_of(alloc, pool, "w.x.A.B.C", 2)?;
    let oneof = lent(
        alloc,
        message_of(alloc, pool, "w.x.A")?
            .oneofs()
            .next()
            .transpose(),
    )?;
    Ok([
        is_file(file, pool) && is_its_copy(file)?,
        is_message(message, pool) && is_its_copy(message)?,
        is_field(field, pool)? && is_its_copy(field)?,
        is_oneof(oneof, pool)? && is_its_copy(oneof)?,
    ])
}

/// The same of an extension, an enum and a value.
fn have_values(alloc: Global, pool: &DescriptorPool) -> Result<[bool; 3], Fail> {
    let extension = lent(alloc, pool.get_extension_by_name("w.x.A.B.C.c"))?;
    let state = lent(alloc, pool.get_enum_by_name("w.x.A.B.C.State"))?;
    let off = lent(alloc, state.get_value_by_name("OFF"))?;
    Ok([
        is_extension(extension, pool) && is_its_copy(extension)?,
        is_enum(state, pool) && is_its_copy(state)?,
        is_value(off, pool)? && is_its_copy(off)?,
    ])
}

/// The same of a service and a method, which are made of their places, as a file is.
fn have_methods(alloc: Global, pool: &DescriptorPool) -> Result<[bool; 2], Fail> {
    let file = lent(alloc, pool.get_file_by_name("base.proto"))?;
    let service = lent(alloc, pool.get_service_by_name("w.x.S"))?;
    let method = lent(alloc, service.methods().next().transpose())?;
    let are_made = are_made_of_places(file, service, method)? == [true; 3];
    Ok([
        is_service(service, pool) && is_its_copy(service)?,
        is_method(method, pool)? && is_its_copy(method)? && are_made,
    ])
}

#[test]
fn definitions_have_origins(rt: HostRuntime) -> Result<(), Fail> {
    let pool = pool_of(rt.alloc(), WHOLE)?;
    assert_eq!(rt; have_members(rt.alloc(), pool)?, [true; 4]);
    assert_eq!(rt; have_values(rt.alloc(), pool)?, [true; 3]);
    assert_eq!(rt; have_methods(rt.alloc(), pool)?, [true; 2]);
    Ok(())
}
