//! What texts name: the checks of types, of what is extended, and of files that others depend on.

ghost use Rattle.std.specs.Prelude.{◌≡◌, ◌++◌, length, IfOk};
ghost use Rattle.std.specs.List.{list_any};
ghost use Rattle.std.specs.BTreeMap.{get_by_text};
ghost use Rattle.prost_reflect_base.specs.Below.{files_below};
ghost use Rattle.prost_reflect_tables.specs.Faults.{any_field, is_code, is_message_type, name_place, file_names, message_names, dependency_missing, names_nothing, type_unknown, extendee_unknown, method_type_unknown};
ghost use Rattle.prost_reflect_flat.specs.FlatViews.{definition_row, file_list, flat_rows};
ghost use Rattle.prost_reflect_resolving.specs.Indexed.{all_rows, IsIndexFrom, IsIndex};
ghost use Rattle.prost_reflect_resolving.specs.Resolved.{resolved_row, IsResolved};
ghost use Rattle.prost_reflect_checks.specs.Added.{added_unknown_type};
ghost use Rattle.prost_reflect_tables.specs.ResolvedFaults.{unfound, type_unfound, extendee_unfound};

use crate::walk::{any_resolved_extension, any_resolved_field};
use prost_reflect_base::Base;
use prost_reflect_definition_checks::fields::{is_code, is_message_type};
use prost_reflect_definition_checks::walk::{any, any_file, any_method};
use prost_reflect_flat::{Definition, Flat, file_names};
use prost_reflect_resolving::{Index, Resolved, ResolvedField, index_from, message_place};
use prost_reflect_types::{FileDescriptorProto, MethodDescriptorProto};
use std::alloc::{AllocError, Global};
use std::collections::BTreeMap;

// FILES

fn place_in(index: &BTreeMap<String, usize>, name: &str) -> Option<usize>
    ensures { result ≡ get_by_text index.now name.now }
{
    index.get(name).copied()
}

/// The place of the first file of a name, of the pool's files and of those that are added behind them.
fn file_place(
    base: Base<'_>,
    index: &BTreeMap<String, usize>,
    files: &[&FileDescriptorProto],
    name: &str,
) -> Option<usize>
    requires { IsIndexFrom (length (files_below base)) index.now (file_names (file_list files.now)) }
    ensures { result ≡ name_place (file_names (files_below base.entry ++ file_list files.now)) name.now }
{
    match base.file_place(name) {
        Some(place) => Some(place),
        None => place_in(index, name),
    }
}

fn is_dependency_missing(
    base: Base<'_>,
    index: &BTreeMap<String, usize>,
    files: &[&FileDescriptorProto],
    file: &FileDescriptorProto,
) -> bool
    requires { IsIndexFrom (length (files_below base)) index.now (file_names (file_list files.now)) }
    ensures { result ≡ dependency_missing (file_names (files_below base.entry ++ file_list files.now)) file.now }
{
    any(
        file.dependency.as_slice(),
        &|dependency| file_place(base, index, files, dependency.as_str()).is_none(),
    )
}

/// Whether an added file depends on one that is neither in the pool nor added.
///
/// # Errors
///
/// `AllocError` if out of memory.
pub fn has_missing_dependency(
    alloc: Global,
    base: Base<'_>,
    files: &[&FileDescriptorProto],
) -> Result<bool, AllocError>
    ensures { IfOk result
        (λ b. b
        ≡ list_any (dependency_missing (file_names (files_below base.entry ++ file_list files.now)))
        (file_list files.now)) }
{
    let names = file_names(alloc, files)?;
    let index = index_from(alloc, base.file_count(), names.as_slice())?;
    Ok(any_file(
        files,
        &|file| is_dependency_missing(base, &index, files, file),
    ))
}

// TYPES

/// Whether there is a text, and its definition was not found.
fn is_unfound(text: &Option<String>, place: Option<usize>) -> bool
    ensures { result ≡ unfound text.now place }
{
    text.is_some() && place.is_none()
}

fn is_type_unfound(field: &ResolvedField) -> bool
    ensures { result ≡ type_unfound (resolved_row field.now) }
{
    let proto = field.definition.proto;
    (is_message_type(proto.type_) && is_unfound(&proto.type_name, field.message))
        || (is_code(14, proto.type_) && is_unfound(&proto.type_name, field.enumeration))
}

fn is_extendee_unfound(extension: &ResolvedField) -> bool
    ensures { result ≡ extendee_unfound (resolved_row extension.now) }
{
    is_unfound(&extension.definition.proto.extendee, extension.extendee)
}

fn names_no_message(index: &Index, flat: &Flat, text: &Option<String>) -> bool
    requires { IsIndex index.now (flat_rows flat.now) }
    ensures { result ≡ names_nothing (message_names (all_rows index.now.base (flat_rows flat.now))) text.now }
{
    text.is_some() && message_place(index, flat, text).is_none()
}

fn is_method_type_unknown(
    index: &Index,
    flat: &Flat,
    method: &Definition<MethodDescriptorProto>,
) -> bool
    requires { IsIndex index.now (flat_rows flat.now) }
    ensures { result ≡ method_type_unknown (all_rows index.now.base (flat_rows flat.now)) (definition_row method.now) }
{
    names_no_message(index, flat, &method.proto.input_type)
        || names_no_message(index, flat, &method.proto.output_type)
}

fn has_method_type_unknown(index: &Index, flat: &Flat) -> bool
    requires { IsIndex index.now (flat_rows flat.now) }
    ensures { result
        ≡ list_any (λ s. list_any (method_type_unknown (all_rows index.now.base (flat_rows flat.now))) s.methods)
        (flat_rows flat.now).services }
{
    any_method(
        flat.services.as_slice(),
        &|method| is_method_type_unknown(index, flat, method),
    )
}

fn has_type_unknown(resolved: &Resolved, flat: &Flat) -> bool
    requires { IsResolved resolved.now (flat_rows flat.now) }
    ensures { result ≡ any_field (type_unknown (all_rows resolved.now.index.base (flat_rows flat.now))) (flat_rows flat.now) }
{
    any_resolved_field(resolved, flat, &is_type_unfound)
        || any_resolved_extension(resolved, flat, &is_type_unfound)
}

fn has_extendee_unknown(resolved: &Resolved, flat: &Flat) -> bool
    requires { IsResolved resolved.now (flat_rows flat.now) }
    ensures { result ≡ list_any (extendee_unknown (all_rows resolved.now.index.base (flat_rows flat.now))) (flat_rows flat.now).extensions }
{
    any_resolved_extension(resolved, flat, &is_extendee_unfound)
}

/// Whether an added type name, or what an added extension extends, or what an added method takes or answers, names nothing of
/// its sort.
pub fn has_unknown_type(resolved: &Resolved, flat: &Flat) -> bool
    requires { IsResolved resolved.now (flat_rows flat.now) }
    ensures { result ≡ added_unknown_type (all_rows resolved.now.index.base (flat_rows flat.now)) (flat_rows flat.now) }
{
    has_type_unknown(resolved, flat)
        || has_extendee_unknown(resolved, flat)
        || has_method_type_unknown(&resolved.index, flat)
}
