//! The checks of names and syntaxes: each definition has a name, and each file a syntax that is known. The full names of
//! definitions, and whether one of them repeats.

ghost use Rattle.std.specs.Prelude.{◌≡◌, [], ◌++◌, IfOk, OnOk, map};
ghost use Rattle.prost_reflect_tables.specs.Faults.{is_unnamed, message_unnamed, enum_unnamed, service_unnamed, missing_name, syntax_unknown, unknown_syntax, names_in_messages, names_in_enums, names_in_services, full_names, repeats};
ghost use Rattle.prost_reflect_flat.specs.FlatViews.{file_list, message_row, enum_row, service_row, flat_rows, text_list};

use crate::walk::{any_definition, any_enum, any_file, any_message, any_service};
use prost_reflect_flat::{Flat, FlatEnum, FlatMessage, FlatService, add_names};
use prost_reflect_tables::text_or_empty;
use prost_reflect_types::FileDescriptorProto;
use std::alloc::{AllocError, Global};

fn is_unnamed(name: &Option<String>) -> bool
    ensures { result ≡ is_unnamed name.now }
{
    text_or_empty(name).is_empty()
}

fn is_message_unnamed(message: &FlatMessage) -> bool
    ensures { result ≡ message_unnamed (message_row message.now) }
{
    is_unnamed(&message.definition.proto.name)
        || any_definition(
            message.fields.as_slice(),
            &|field| is_unnamed(&field.proto.name),
        )
        || any_definition(
            message.oneofs.as_slice(),
            &|oneof| is_unnamed(&oneof.proto.name),
        )
}

fn is_enum_unnamed(declared: &FlatEnum) -> bool
    ensures { result ≡ enum_unnamed (enum_row declared.now) }
{
    is_unnamed(&declared.definition.proto.name)
        || any_definition(
            declared.values.as_slice(),
            &|value| is_unnamed(&value.proto.name),
        )
}

fn is_service_unnamed(service: &FlatService) -> bool
    ensures { result ≡ service_unnamed (service_row service.now) }
{
    is_unnamed(&service.definition.proto.name)
        || any_definition(
            service.methods.as_slice(),
            &|method| is_unnamed(&method.proto.name),
        )
}

/// Whether a file or a definition has no name, or an empty one.
pub fn has_missing_name(files: &[&FileDescriptorProto], flat: &Flat) -> bool
    ensures { result ≡ missing_name (file_list files.now) (flat_rows flat.now) }
{
    any_file(files, &|file| is_unnamed(&file.name))
        || any_message(flat.messages.as_slice(), &is_message_unnamed)
        || any_enum(flat.enums.as_slice(), &is_enum_unnamed)
        || any_definition(
            flat.extensions.as_slice(),
            &|extension| is_unnamed(&extension.proto.name),
        )
        || any_service(flat.services.as_slice(), &is_service_unnamed)
}

fn is_syntax_unknown(file: &FileDescriptorProto) -> bool
    ensures { result ≡ syntax_unknown file.now }
{
    let syntax = text_or_empty(&file.syntax);
    !(syntax.is_empty() || syntax == "proto2" || syntax == "proto3")
}

/// Whether a file names a syntax other than `proto2` and `proto3`.
pub fn has_unknown_syntax(files: &[&FileDescriptorProto]) -> bool
    ensures { result ≡ unknown_syntax (file_list files.now) }
{
    any_file(files, &|file| is_syntax_unknown(file))
}

// DUPLICATE NAMES

fn add_names_in_messages<'f, 'a>(
    names: &mut Vec<&'f str>,
    messages: &'f [FlatMessage<'a>],
) -> Result<(), AllocError>
    ensures { OnOk result (text_list names.new.items ≡ text_list names.old.items ++ names_in_messages (map message_row messages.now)) }
{
    for message in messages {
        names.push(message.definition.full_name.as_str())?;
        add_names(names, message.fields.as_slice())?;
        add_names(names, message.oneofs.as_slice())?;
    }
    Ok(())
}

fn add_names_in_enums<'f, 'a>(
    names: &mut Vec<&'f str>,
    enums: &'f [FlatEnum<'a>],
) -> Result<(), AllocError>
    ensures { OnOk result (text_list names.new.items ≡ text_list names.old.items ++ names_in_enums (map enum_row enums.now)) }
{
    for declared in enums {
        names.push(declared.definition.full_name.as_str())?;
        add_names(names, declared.values.as_slice())?;
    }
    Ok(())
}

fn add_names_in_services<'f, 'a>(
    names: &mut Vec<&'f str>,
    services: &'f [FlatService<'a>],
) -> Result<(), AllocError>
    ensures { OnOk result (text_list names.new.items ≡ text_list names.old.items ++ names_in_services (map service_row services.now)) }
{
    for service in services {
        names.push(service.definition.full_name.as_str())?;
        add_names(names, service.methods.as_slice())?;
    }
    Ok(())
}

/// The full names of the definitions: of messages with their fields and oneofs, of enums with their values, of extensions, and of
/// services with their methods.
///
/// # Errors
///
/// `AllocError` if out of memory.
pub fn full_names<'f, 'a>(alloc: Global, flat: &'f Flat<'a>) -> Result<Vec<&'f str>, AllocError>
    ensures { IfOk result (λ v. text_list v.items ≡ full_names (flat_rows flat.now)) }
{
    let mut names = Vec::new(alloc);
    add_names_in_messages(&mut names, flat.messages.as_slice())?;
    add_names_in_enums(&mut names, flat.enums.as_slice())?;
    add_names(&mut names, flat.extensions.as_slice())?;
    add_names_in_services(&mut names, flat.services.as_slice())?;
    Ok(names)
}

/// Whether a name stands among those before it. Puts them in order, and leaves each once.
pub fn repeats(names: &mut Vec<&str>) -> bool
    ensures { result ≡ repeats [] (text_list names.old.items) }
{
    let count = names.as_slice().len();
    names.sort_unstable();
    names.dedup();
    names.as_slice().len() < count
}
