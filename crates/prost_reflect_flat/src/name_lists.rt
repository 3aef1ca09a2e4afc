//! Lists of the names of files and of the full names of definitions.

ghost use Rattle.std.specs.Prelude.{◌≡◌, ◌++◌, IfOk, OnOk, map};
ghost use Rattle.prost_reflect_tables.specs.Faults.{names_of, file_names};
ghost use Rattle.prost_reflect_flat.specs.FlatViews.{definition_row, file_list, message_row, enum_row, text_list};

use crate::definitions::{Definition, FlatEnum, FlatMessage};
use prost_reflect_tables::text_or_empty;
use prost_reflect_types::FileDescriptorProto;
use std::alloc::{AllocError, Global};

/// Adds the full names of definitions.
///
/// # Errors
///
/// `AllocError` if out of memory.
pub fn add_names<'f, 'a, R>(
    names: &mut Vec<&'f str>,
    more: &'f [Definition<'a, R>],
) -> Result<(), AllocError>
    ensures { OnOk result (text_list names.new.items ≡ text_list names.old.items ++ names_of (map definition_row more.now)) }
{
    for definition in more {
        names.push(definition.full_name.as_str())?;
    }
    Ok(())
}

/// The names of files, empty where a file has none.
///
/// # Errors
///
/// `AllocError` if out of memory.
pub fn file_names<'f>(
    alloc: Global,
    files: &[&'f FileDescriptorProto],
) -> Result<Vec<&'f str>, AllocError>
    ensures { IfOk result (λ v. text_list v.items ≡ file_names (file_list files.now)) }
{
    let mut names = Vec::with_capacity(alloc, files.len())?;
    for file in files {
        names.push(text_or_empty(&file.name))?;
    }
    Ok(names)
}

/// The full names of messages.
///
/// # Errors
///
/// `AllocError` if out of memory.
pub fn message_names<'f, 'a>(
    alloc: Global,
    messages: &'f [FlatMessage<'a>],
) -> Result<Vec<&'f str>, AllocError>
    ensures { IfOk result (λ v. text_list v.items ≡ map (λ m. m.definition.full_name) (map message_row messages.now)) }
{
    let mut names = Vec::with_capacity(alloc, messages.len())?;
    for message in messages {
        names.push(message.definition.full_name.as_str())?;
    }
    Ok(names)
}

/// The full names of enums.
///
/// # Errors
///
/// `AllocError` if out of memory.
pub fn enum_names<'f, 'a>(
    alloc: Global,
    enums: &'f [FlatEnum<'a>],
) -> Result<Vec<&'f str>, AllocError>
    ensures { IfOk result (λ v. text_list v.items ≡ map (λ e. e.definition.full_name) (map enum_row enums.now)) }
{
    let mut names = Vec::with_capacity(alloc, enums.len())?;
    for declared in enums {
        names.push(declared.definition.full_name.as_str())?;
    }
    Ok(names)
}
