//! The definitions of files in flat lists, each with its full name, its path and what encloses it.

ghost use Rattle.std.specs.Prelude.{◌≡◌, ◌+◌, ◌++◌, ◌∷◌, [], pos, length, IfOk, OnOk, map};
ghost use Rattle.prost_reflect_types.specs.declared.DescriptorProto.TheViews.{out-DescriptorProto};
ghost use Rattle.prost_reflect_tables.specs.Flat.{defined, defined_from, field_name, oneof_name, value_name, method_name, enum_at, enums_from, service_at, services_from, own_message, message_at, with_given, is_proto3, behind, file_at, files_from};
ghost use Rattle.prost_reflect_flat.specs.FlatViews.{scope_row, definition_row, message_row, enum_row, service_row, file_list, flat_rows};

use crate::definitions::{Definition, Flat, FlatEnum, FlatMessage, FlatService, Scope};
use prost_reflect_tables::{joined, text_or_empty};
use prost_reflect_types::{
    DescriptorProto, EnumDescriptorProto, EnumValueDescriptorProto, FieldDescriptorProto,
    FileDescriptorProto, MethodDescriptorProto, OneofDescriptorProto, ServiceDescriptorProto,
};
use std::alloc::{AllocError, Global};

/// A path with the number of a record's field and the place in its list behind.
///
/// A place past 2^31 - 1 has no path; it is answered as being out of memory, as no memory holds so many records.
fn longer_path(
    alloc: Global,
    path: &[i32],
    number: u8,
    place: usize,
) -> Result<Vec<i32>, AllocError>
    ensures { IfOk result (λ v. v.items ≡ path.now ++ pos number ∷ pos place ∷ []) }
{
    let Ok(place) = i32::try_from(place) else {
        return Err(AllocError);
    };
    let mut longer = Vec::with_capacity(alloc, path.len() + 2)?;
    longer.extend_from_slice(path)?;
    longer.push(i32::from(number))?;
    longer.push(place)?;
    Ok(longer)
}

fn defined<'a, R>(
    alloc: Global,
    scope: &Scope,
    number: u8,
    place: usize,
    name: &Option<String>,
    proto: &'a R,
) -> Result<Definition<'a, R>, AllocError>
    ensures { IfOk result (λ d. definition_row d ≡ defined (scope_row scope.now) number place name.now proto.now) }
{
    Ok(Definition {
        full_name: joined(alloc, scope.name, text_or_empty(name))?,
        path: longer_path(alloc, scope.path, number, place)?,
        file: scope.file,
        is_proto3: scope.is_proto3,
        parent: scope.parent,
        proto,
    })
}

fn add_fields<'a>(
    alloc: Global,
    fields: &mut Vec<Definition<'a, FieldDescriptorProto>>,
    scope: &Scope,
    number: u8,
    protos: &'a [FieldDescriptorProto],
) -> Result<(), AllocError>
    ensures { OnOk result
        (map definition_row fields.new.items
        ≡ map definition_row fields.old.items
        ++ defined_from field_name (scope_row scope.now) number 0 protos.now) }
{
    for (place, proto) in protos.iter().enumerate() {
        fields.push(defined(alloc, scope, number, place, &proto.name, proto)?)?;
    }
    Ok(())
}

fn oneofs_in<'a>(
    alloc: Global,
    scope: &Scope,
    protos: &'a [OneofDescriptorProto],
) -> Result<Vec<Definition<'a, OneofDescriptorProto>>, AllocError>
    ensures { IfOk result (λ v. map definition_row v.items ≡ defined_from oneof_name (scope_row scope.now) 8 0 protos.now) }
{
    let mut oneofs = Vec::with_capacity(alloc, protos.len())?;
    for (place, proto) in protos.iter().enumerate() {
        oneofs.push(defined(alloc, scope, 8, place, &proto.name, proto)?)?;
    }
    Ok(oneofs)
}

fn values_in<'a>(
    alloc: Global,
    scope: &Scope,
    protos: &'a [EnumValueDescriptorProto],
) -> Result<Vec<Definition<'a, EnumValueDescriptorProto>>, AllocError>
    ensures { IfOk result (λ v. map definition_row v.items ≡ defined_from value_name (scope_row scope.now) 2 0 protos.now) }
{
    let mut values = Vec::with_capacity(alloc, protos.len())?;
    for (place, proto) in protos.iter().enumerate() {
        values.push(defined(alloc, scope, 2, place, &proto.name, proto)?)?;
    }
    Ok(values)
}

fn methods_in<'a>(
    alloc: Global,
    scope: &Scope,
    protos: &'a [MethodDescriptorProto],
) -> Result<Vec<Definition<'a, MethodDescriptorProto>>, AllocError>
    ensures { IfOk result (λ v. map definition_row v.items ≡ defined_from method_name (scope_row scope.now) 2 0 protos.now) }
{
    let mut methods = Vec::with_capacity(alloc, protos.len())?;
    for (place, proto) in protos.iter().enumerate() {
        methods.push(defined(alloc, scope, 2, place, &proto.name, proto)?)?;
    }
    Ok(methods)
}

/// An enum with its values, whose full names stand in the scope around it.
fn flat_enum<'a>(
    alloc: Global,
    scope: &Scope,
    number: u8,
    place: usize,
    proto: &'a EnumDescriptorProto,
) -> Result<FlatEnum<'a>, AllocError>
    ensures { IfOk result (λ e. enum_row e ≡ enum_at (scope_row scope.now) number place proto.now) }
{
    let definition = defined(alloc, scope, number, place, &proto.name, proto)?;
    let within = Scope {
        name: scope.name,
        path: definition.path.as_slice(),
        file: scope.file,
        is_proto3: scope.is_proto3,
        parent: scope.parent,
    };
    let values = values_in(alloc, &within, proto.value.as_slice())?;
    Ok(FlatEnum { definition, values })
}

fn add_enums<'a>(
    alloc: Global,
    enums: &mut Vec<FlatEnum<'a>>,
    scope: &Scope,
    number: u8,
    protos: &'a [EnumDescriptorProto],
) -> Result<(), AllocError>
    ensures { OnOk result
        (map enum_row enums.new.items
        ≡ map enum_row enums.old.items ++ enums_from (scope_row scope.now) number 0 protos.now) }
{
    for (place, proto) in protos.iter().enumerate() {
        enums.push(flat_enum(alloc, scope, number, place, proto)?)?;
    }
    Ok(())
}

fn flat_service<'a>(
    alloc: Global,
    scope: &Scope,
    number: u8,
    place: usize,
    proto: &'a ServiceDescriptorProto,
) -> Result<FlatService<'a>, AllocError>
    ensures { IfOk result (λ s. service_row s ≡ service_at (scope_row scope.now) number place proto.now) }
{
    let definition = defined(alloc, scope, number, place, &proto.name, proto)?;
    let within = Scope {
        name: definition.full_name.as_str(),
        path: definition.path.as_slice(),
        file: scope.file,
        is_proto3: scope.is_proto3,
        parent: scope.parent,
    };
    let methods = methods_in(alloc, &within, proto.method.as_slice())?;
    Ok(FlatService {
        definition,
        methods,
    })
}

fn add_services<'a>(
    alloc: Global,
    services: &mut Vec<FlatService<'a>>,
    scope: &Scope,
    number: u8,
    protos: &'a [ServiceDescriptorProto],
) -> Result<(), AllocError>
    ensures { OnOk result
        (map service_row services.new.items
        ≡ map service_row services.old.items ++ services_from (scope_row scope.now) number 0 protos.now) }
{
    for (place, proto) in protos.iter().enumerate() {
        services.push(flat_service(alloc, scope, number, place, proto)?)?;
    }
    Ok(())
}

/// A message with its fields and oneofs, as the message of the place `before`.
fn flat_message<'a>(
    alloc: Global,
    scope: &Scope,
    number: u8,
    place: usize,
    before: usize,
    proto: &'a DescriptorProto,
) -> Result<FlatMessage<'a>, AllocError>
    ensures { IfOk result (λ m. message_row m ≡ own_message (out-DescriptorProto proto.now) (scope_row scope.now) number place before) }
{
    let definition = defined(alloc, scope, number, place, &proto.name, proto)?;
    let within = Scope {
        name: definition.full_name.as_str(),
        path: definition.path.as_slice(),
        file: scope.file,
        is_proto3: scope.is_proto3,
        parent: Some(before),
    };
    let mut fields = Vec::with_capacity(alloc, proto.field.len())?;
    add_fields(alloc, &mut fields, &within, 2, proto.field.as_slice())?;
    let oneofs = oneofs_in(alloc, &within, proto.oneof_decl.as_slice())?;
    Ok(FlatMessage {
        definition,
        fields,
        oneofs,
    })
}

/// Adds a message, and the messages, enums and extensions in it.
fn add_message<'a>(
    alloc: Global,
    flat: &mut Flat<'a>,
    scope: &Scope,
    number: u8,
    place: usize,
    proto: &'a DescriptorProto,
) -> Result<(), AllocError>
    ensures added { OnOk result
        (with_given (flat_rows flat.old)
        (message_at proto.now (scope_row scope.now) number place
        (flat.old.before + length flat.old.messages.items))
        ≡ flat_rows flat.new) }
    ensures before { flat.new.before ≡ flat.old.before }
{
    let before = flat.next_place()?;
    let message = flat_message(alloc, scope, number, place, before, proto)?;
    let full_name = message.definition.full_name.clone()?;
    let path = message.definition.path.to_vec(alloc)?;
    flat.messages.push(message)?;
    let within = Scope {
        name: full_name.as_str(),
        path: path.as_slice(),
        file: scope.file,
        is_proto3: scope.is_proto3,
        parent: Some(before),
    };
    for (place, nested) in proto.nested_type.iter().enumerate() {
        add_message(alloc, flat, &within, 3, place, nested)?;
    }
    add_enums(
        alloc,
        &mut flat.enums,
        &within,
        4,
        proto.enum_type.as_slice(),
    )?;
    add_fields(
        alloc,
        &mut flat.extensions,
        &within,
        6,
        proto.extension.as_slice(),
    )?;
    Ok(())
}

/// Whether the file is of proto3.
pub fn is_proto3(proto: &FileDescriptorProto) -> bool
    ensures { result ≡ is_proto3 proto.now }
{
    text_or_empty(&proto.syntax) == "proto3"
}

/// Adds the definitions of the file of a place.
fn add_file<'a>(
    alloc: Global,
    flat: &mut Flat<'a>,
    file: usize,
    proto: &'a FileDescriptorProto,
) -> Result<(), AllocError>
    ensures added { OnOk result
        (behind (flat_rows flat.old) (file_at proto.now file (flat.old.before + length flat.old.messages.items))
        ≡ flat_rows flat.new) }
    ensures before { flat.new.before ≡ flat.old.before }
{
    let scope = Scope {
        name: text_or_empty(&proto.package),
        path: &[],
        file,
        is_proto3: is_proto3(proto),
        parent: None,
    };
    for (place, message) in proto.message_type.iter().enumerate() {
        add_message(alloc, flat, &scope, 4, place, message)?;
    }
    add_enums(
        alloc,
        &mut flat.enums,
        &scope,
        5,
        proto.enum_type.as_slice(),
    )?;
    add_fields(
        alloc,
        &mut flat.extensions,
        &scope,
        7,
        proto.extension.as_slice(),
    )?;
    add_services(
        alloc,
        &mut flat.services,
        &scope,
        6,
        proto.service.as_slice(),
    )?;
    Ok(())
}

/// The definitions of files, by file and then by path, where the first file is at a place, behind so many messages.
///
/// # Errors
///
/// `AllocError` if out of memory, or if a place passes the greatest `usize`, as no memory holds so many definitions.
pub fn flattened<'a>(
    alloc: Global,
    first: usize,
    before: usize,
    files: &[&'a FileDescriptorProto],
) -> Result<Flat<'a>, AllocError>
    ensures { IfOk result (λ f. flat_rows f ≡ files_from (file_list files.now) first before) }
{
    let mut flat = Flat {
        before,
        messages: Vec::new(alloc),
        enums: Vec::new(alloc),
        extensions: Vec::new(alloc),
        services: Vec::new(alloc),
    };
    for (offset, proto) in files.iter().enumerate() {
        let file = first.checked_add(offset).ok_or(AllocError)?;
        add_file(alloc, &mut flat, file, proto)?;
    }
    Ok(flat)
}
