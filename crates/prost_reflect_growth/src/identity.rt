//! Where definitions stand, as rows of the tables say it.

ghost use Rattle.std.specs.Prelude.{◌≡◌, IfOk, string_bytes};
ghost use Rattle.prost_reflect_tables.specs.Rows.{identity_row, json_name_of};
ghost use Rattle.prost_reflect_flat.specs.FlatViews.{definition_row, lent_row};
ghost use Rattle.prost_reflect_tables.specs.Linking.{linked_identity, json_name};
ghost use Rattle.prost_reflect_tables.specs.Names.{bracketed, text_or_empty};

use prost_reflect_flat::{Definition, DefinitionRef};
use prost_reflect_tables::{DefinitionNames, Identity, text_or_empty};
use prost_reflect_types::FieldDescriptorProto;
use smallvec::SmallVec;
use std::alloc::{AllocError, Global};

/// Where a definition of this name stands.
///
/// # Errors
///
/// `AllocError` if out of memory.
pub fn linked_identity<R>(
    alloc: Global,
    definition: &Definition<R>,
    name: &Option<String>,
) -> Result<Identity, AllocError>
    ensures { IfOk result (λ i. identity_row i ≡ linked_identity name.now (definition_row definition.now)) }
{
    lent_identity(alloc, &definition.lend(), name)
}

/// Where a definition that is lent stands.
///
/// # Errors
///
/// `AllocError` if out of memory.
pub fn lent_identity<R>(
    alloc: Global,
    definition: &DefinitionRef<R>,
    name: &Option<String>,
) -> Result<Identity, AllocError>
    ensures { IfOk result (λ i. identity_row i ≡ linked_identity name.now (lent_row definition.now)) }
{
    Ok(Identity {
        file: definition.file,
        parent: definition.parent,
        path: SmallVec::from_slice(alloc, definition.path)?,
        names: DefinitionNames::new(alloc, definition.full_name, text_or_empty(name))?,
    })
}

fn bracketed(alloc: Global, full_name: &str) -> Result<String, AllocError>
    ensures { IfOk result (λ s. string_bytes s ≡ bracketed full_name.now) }
{
    let mut name = String::with_capacity(alloc, full_name.len() + 2)?;
    name.push_str("[")?;
    name.push_str(full_name)?;
    name.push_str("]")?;
    Ok(name)
}

/// The name of a field or an extension in JSON, if it is not its own name.
///
/// # Errors
///
/// `AllocError` if out of memory.
pub fn json_name(
    alloc: Global,
    is_extension: bool,
    definition: &DefinitionRef<FieldDescriptorProto>,
) -> Result<Option<Box<String>>, AllocError>
    ensures { IfOk result
        (λ text. json_name_of text (text_or_empty definition.now.proto.now.name)
        ≡ json_name is_extension (lent_row definition.now)) }
{
    if is_extension {
        return Ok(Some(Box::new(alloc, bracketed(alloc, definition.full_name)?)?));
    }
    let name = text_or_empty(&definition.proto.name);
    match &definition.proto.json_name {
        Some(text) if text.as_str() != name => Ok(Some(Box::new(alloc, text.clone()?)?)),
        _ => Ok(None),
    }
}
