//! The catalog of a pool and of files that are added to it.

ghost use Rattle.std.specs.Prelude.{◌≡◌, IfOk, map};
ghost use Rattle.prost_reflect_base.specs.Below.{files_below, rows_below, tables_below, catalog_below};
ghost use Rattle.prost_reflect_growth.specs.GrownCatalog.{grown_catalog};
ghost use Rattle.prost_reflect_growth.specs.Merging.{grown_sorted};
ghost use Rattle.prost_reflect_growth.specs.RowsGrow.{grown_rows};
ghost use Rattle.prost_reflect_catalog.specs.Outlines.{IsOutlineOf};
ghost use Rattle.prost_reflect_resolving.specs.Indexed.{all_rows, IsIndex};
ghost use Rattle.prost_reflect_resolving.specs.Resolved.{resolved_row};
ghost use Rattle.prost_reflect_tables.specs.CatalogRows.{sorted_row, catalog_row};
ghost use Rattle.prost_reflect_tables.specs.Faults.{names_of};
ghost use Rattle.prost_reflect_tables.specs.Flat.{FlatRows};
ghost use Rattle.prost_reflect_flat.specs.FlatViews.{definition_row, file_list, flat_rows, service_row, text_list};
ghost use Rattle.prost_reflect_tables.specs.Linking.{links_of};
ghost use Rattle.prost_reflect_tables.specs.Resolved.{resolve};
ghost use Rattle.prost_reflect_tables.specs.Schema.{rows_of};

use prost_reflect_base::Base;
use prost_reflect_flat::{
    Definition, Flat, FlatService, add_names, enum_names, file_names, message_names,
};
use prost_reflect_lists::{
    Extended, InnerPlaces, all_extended, further_places, inner_places, linked_extensions,
    lists_of_enums, lists_of_messages,
};
use prost_reflect_resolving::{Index, ResolvedField};
use prost_reflect_shared::shared_list::SharedList;
use prost_reflect_sorted::{Sort, linked_files, linked_services, merged_by_name, merged_values};
use prost_reflect_tables::{Catalog, EnumLists, FileTable, ServiceTable, SortedPlaces, Tables};
use prost_reflect_types::{FieldDescriptorProto, FileDescriptorProto};
use std::alloc::{AllocError, Global};

fn extension_names<'f, 'a>(
    alloc: Global,
    extensions: &'f [Definition<'a, FieldDescriptorProto>],
) -> Result<Vec<&'f str>, AllocError>
    ensures { IfOk result (λ v. text_list v.items ≡ names_of (map definition_row extensions.now)) }
{
    let mut names = Vec::with_capacity(alloc, extensions.len())?;
    add_names(&mut names, extensions)?;
    Ok(names)
}

fn service_names<'f, 'a>(
    alloc: Global,
    services: &'f [FlatService<'a>],
) -> Result<Vec<&'f str>, AllocError>
    ensures { IfOk result (λ v. text_list v.items ≡ map (λ s. s.definition.full_name) (map service_row services.now)) }
{
    let mut names = Vec::with_capacity(alloc, services.len())?;
    for service in services {
        names.push(service.definition.full_name.as_str())?;
    }
    Ok(names)
}

/// The places of all definitions by their names: those of the pool, with the added ones among them.
fn sorted_places(
    alloc: Global,
    base: Base<'_>,
    files: &[&FileDescriptorProto],
    flat: &Flat,
) -> Result<SortedPlaces, AllocError>
    ensures { IfOk result
        (λ s. sorted_row s
        ≡ grown_sorted (files_below base.entry) (file_list files.now) (rows_below base.entry) (flat_rows flat.now)
        (catalog_below base.entry).by_name) }
{
    let files = file_names(alloc, files)?;
    let messages = message_names(alloc, flat.messages.as_slice())?;
    let enums = enum_names(alloc, flat.enums.as_slice())?;
    let extensions = extension_names(alloc, flat.extensions.as_slice())?;
    let services = service_names(alloc, flat.services.as_slice())?;
    Ok(SortedPlaces {
        files: merged_by_name(alloc, base, Sort::File, files.as_slice())?,
        messages: merged_by_name(alloc, base, Sort::Message, messages.as_slice())?,
        enums: merged_by_name(alloc, base, Sort::Enum, enums.as_slice())?,
        extensions: merged_by_name(alloc, base, Sort::Extension, extensions.as_slice())?,
        services: merged_by_name(alloc, base, Sort::Service, services.as_slice())?,
        values: merged_values(alloc, base, flat)?,
    })
}

/// What a catalog takes of added files and of their flat lists, but for what takes the linked tables. What the catalog of the pool
/// has is shared.
#[derive(Drop)]
pub struct Outline {
    /// The files, of the pool and the added ones.
    pub files: SharedList<FileTable>,
    /// What stands in each added message, and what extends it.
    pub inner: InnerPlaces,
    /// The added extensions of each message of the pool; no lists where there are no such extensions.
    pub further: Vec<Vec<usize>>,
    /// The lists of each enum, of the pool and the added ones.
    pub enums: SharedList<EnumLists>,
    /// What each added extension extends.
    pub extensions: Vec<Extended>,
    /// The services, of the pool and the added ones.
    pub services: SharedList<ServiceTable>,
    /// The places of all definitions, by their full names.
    pub by_name: SortedPlaces,
}

/// What the catalog of a pool and of added files takes of their flat lists, so that these may be gone before it is made.
///
/// # Errors
///
/// `AllocError` if out of memory.
pub fn outlined(
    alloc: Global,
    base: Base<'_>,
    files: &[&FileDescriptorProto],
    flat: &Flat,
    index: &Index,
    extensions: &[ResolvedField],
) -> Result<Outline, AllocError>
    requires index { IsIndex index.now (flat_rows flat.now) }
    requires base { index.now.base ≡ base }
    requires extensions { map resolved_row extensions.now
        ≡ map (resolve (links_of (all_rows base (flat_rows flat.now)))) (flat_rows flat.now).extensions }
    ensures { IfOk result (λ o. IsOutlineOf o base.entry (file_list files.now) (flat_rows flat.now)) }
{
    Ok(Outline {
        files: linked_files(alloc, base, files, flat)?,
        inner: inner_places(alloc, base, extensions, flat)?,
        further: further_places(alloc, base, extensions, flat)?,
        enums: lists_of_enums(alloc, base, flat.enums.as_slice())?,
        extensions: all_extended(alloc, extensions)?,
        services: linked_services(alloc, index, flat, flat.services.as_slice())?,
        by_name: sorted_places(alloc, base, files, flat)?,
    })
}

/// The catalog of a pool and of files that are added to it, whose tables are linked already, with those of the pool. What the
/// catalog of the pool has is shared, but for what added extensions change. The cost grows as n log n in the number of added
/// definitions; the places by names of each sort that is added are copied, and, where a message type of the pool is extended, its
/// lists and extensions.
///
/// # Errors
///
/// `AllocError` if out of memory.
pub fn linked_catalog(
    alloc: Global,
    base: Base<'_>,
    files: &[&FileDescriptorProto],
    outline: Outline,
    tables: &Tables,
) -> Result<Catalog, AllocError>
    ghost new: { FlatRows }
    requires outline { IsOutlineOf outline base (file_list files.now) new }
    requires tables { rows_of tables.now ≡ grown_rows (rows_below base) new (tables_below base) }
    ensures { IfOk result
        (λ c. catalog_row c
        ≡ grown_catalog (files_below base.entry) (file_list files.now) (rows_below base.entry) new
        (tables_below base.entry) (catalog_below base.entry)) }
{
    let further = outline.further.as_slice();
    let messages = lists_of_messages(alloc, base, &outline.inner, further, tables)?;
    let extensions = linked_extensions(base, tables, further, outline.extensions.as_slice())?;
    Ok(Catalog {
        files: outline.files,
        messages,
        enums: outline.enums,
        extensions,
        services: outline.services,
        by_name: outline.by_name,
    })
}
