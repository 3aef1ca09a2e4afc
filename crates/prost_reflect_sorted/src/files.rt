//! What stands in added files, and which files they import.

ghost use Rattle.std.specs.Prelude.{◌≡◌, ◌+◌, ◌<◌, ◌++◌, length, IfOk, map, string_bytes};
ghost use Rattle.prost_reflect_base.specs.Below.{files_below, rows_below, catalog_below};
ghost use Rattle.prost_reflect_growth.specs.CatalogGrow.{added_file};
ghost use Rattle.prost_reflect_growth.specs.GatheredFrom.{gathered_from};
ghost use Rattle.prost_reflect_sorted.specs.Tops.{AreTops};
ghost use Rattle.prost_reflect_resolving.specs.Indexed.{IsIndexFrom};
ghost use Rattle.prost_reflect_tables.specs.CatalogRows.{file_table_row};
ghost use Rattle.prost_reflect_tables.specs.Faults.{file_names};
ghost use Rattle.prost_reflect_flat.specs.FlatViews.{definition_row, file_list, flat_rows};
ghost use Rattle.prost_reflect_tables.specs.LinkedCatalog.{each_from, top_file, file_place, import_at};

use prost_reflect_base::Base;
use prost_reflect_flat::{
    Definition, Flat, FlatEnum, FlatMessage, FlatService, file_names, is_proto3,
};
use prost_reflect_growth::{gathered, list_at};
use prost_reflect_resolving::index_from;
use prost_reflect_shared::shared_list::SharedList;
use prost_reflect_tables::{FileTable, place_in};
use prost_reflect_types::{FieldDescriptorProto, FileDescriptorProto};
use std::alloc::{AllocError, Global};
use std::collections::BTreeMap;

/// What stands at the top of each added file.
#[derive(Drop)]
pub struct TopPlaces {
    /// The messages.
    pub messages: Vec<Vec<usize>>,
    /// The enums.
    pub enums: Vec<Vec<usize>>,
    /// The extensions.
    pub extensions: Vec<Vec<usize>>,
    /// The services.
    pub services: Vec<Vec<usize>>,
}

/// The file of a definition that no message encloses.
fn top_file<'a, R>(definition: &Definition<'a, R>) -> Option<usize>
    ensures { result ≡ top_file (definition_row definition.now) }
{
    if definition.parent.is_none() {
        Some(definition.file)
    } else {
        None
    }
}

fn top_messages(
    alloc: Global,
    base: Base<'_>,
    files: usize,
    flat: &Flat,
) -> Result<Vec<Vec<usize>>, AllocError>
    ensures { IfOk result
        (λ v. map (λ l. l.items) v.items
        ≡ gathered_from (λ m. top_file m.definition) (length (rows_below base.entry).messages)
        (flat_rows flat.now).messages (length (files_below base.entry)) files) }
{
    let owner = |message: &FlatMessage| top_file(&message.definition);
    Ok(gathered(
        alloc,
        base.file_count(),
        files,
        base.message_count(),
        flat.messages.as_slice(),
        &owner,
    )?)
}

fn top_enums(
    alloc: Global,
    base: Base<'_>,
    files: usize,
    flat: &Flat,
) -> Result<Vec<Vec<usize>>, AllocError>
    ensures { IfOk result
        (λ v. map (λ l. l.items) v.items
        ≡ gathered_from (λ e. top_file e.definition) (length (rows_below base.entry).enums)
        (flat_rows flat.now).enums (length (files_below base.entry)) files) }
{
    let owner = |declared: &FlatEnum| top_file(&declared.definition);
    Ok(gathered(
        alloc,
        base.file_count(),
        files,
        base.enum_count(),
        flat.enums.as_slice(),
        &owner,
    )?)
}

fn top_extensions(
    alloc: Global,
    base: Base<'_>,
    files: usize,
    flat: &Flat,
) -> Result<Vec<Vec<usize>>, AllocError>
    ensures { IfOk result
        (λ v. map (λ l. l.items) v.items
        ≡ gathered_from top_file (length (rows_below base.entry).extensions) (flat_rows flat.now).extensions
        (length (files_below base.entry)) files) }
{
    let owner = |extension: &Definition<FieldDescriptorProto>| top_file(extension);
    Ok(gathered(
        alloc,
        base.file_count(),
        files,
        base.extension_count(),
        flat.extensions.as_slice(),
        &owner,
    )?)
}

fn top_services(
    alloc: Global,
    base: Base<'_>,
    files: usize,
    flat: &Flat,
) -> Result<Vec<Vec<usize>>, AllocError>
    ensures { IfOk result
        (λ v. map (λ l. l.items) v.items
        ≡ gathered_from (λ s. top_file s.definition) (length (rows_below base.entry).services)
        (flat_rows flat.now).services (length (files_below base.entry)) files) }
{
    let owner = |service: &FlatService| top_file(&service.definition);
    Ok(gathered(
        alloc,
        base.file_count(),
        files,
        base.service_count(),
        flat.services.as_slice(),
        &owner,
    )?)
}

fn top_places(
    alloc: Global,
    base: Base<'_>,
    files: usize,
    flat: &Flat,
) -> Result<TopPlaces, AllocError>
    ensures { IfOk result (λ tops. AreTops tops (length (files_below base.entry)) (rows_below base.entry) (flat_rows flat.now) files) }
{
    Ok(TopPlaces {
        messages: top_messages(alloc, base, files, flat)?,
        enums: top_enums(alloc, base, files, flat)?,
        extensions: top_extensions(alloc, base, files, flat)?,
        services: top_services(alloc, base, files, flat)?,
    })
}

/// The place of the file of a name, among those of the pool or else among the added ones.
fn file_place(
    base: Base<'_>,
    index: &BTreeMap<String, usize>,
    files: &[&FileDescriptorProto],
    name: &str,
) -> usize
    requires { IsIndexFrom (length (files_below base)) index.now (file_names (file_list files.now)) }
    ensures { result ≡ file_place (file_names (files_below base.entry ++ file_list files.now)) name.now }
{
    match base.file_place(name) {
        Some(place) => place,
        None => index.get(name).copied().unwrap_or(0),
    }
}

fn dependency_places(
    alloc: Global,
    base: Base<'_>,
    index: &BTreeMap<String, usize>,
    files: &[&FileDescriptorProto],
    dependencies: &[String],
) -> Result<Vec<usize>, AllocError>
    requires { IsIndexFrom (length (files_below base)) index.now (file_names (file_list files.now)) }
    ensures { IfOk result
        (λ v. v.items
        ≡ map (λ d. file_place (file_names (files_below base.entry ++ file_list files.now)) (string_bytes d))
        dependencies.now) }
{
    let mut places = Vec::with_capacity(alloc, dependencies.len())?;
    for dependency in dependencies {
        places.push(file_place(base, index, files, dependency.as_str()))?;
    }
    Ok(places)
}

fn import_at(dependencies: &[usize], index: i32) -> usize
    ensures { result ≡ import_at dependencies.now index }
{
    let place = place_in(Some(index)).unwrap_or(0);
    dependencies.get(place).copied().unwrap_or(0)
}

fn public_places(
    alloc: Global,
    dependencies: &[usize],
    indices: &[i32],
) -> Result<Vec<usize>, AllocError>
    ensures { IfOk result (λ v. v.items ≡ map (import_at dependencies.now) indices.now) }
{
    let mut places = Vec::with_capacity(alloc, indices.len())?;
    for index in indices {
        places.push(import_at(dependencies, *index))?;
    }
    Ok(places)
}

fn file_table(
    alloc: Global,
    base: Base<'_>,
    index: &BTreeMap<String, usize>,
    files: &[&FileDescriptorProto],
    flat: &Flat,
    tops: &TopPlaces,
    place: usize,
    file: &FileDescriptorProto,
) -> Result<FileTable, AllocError>
    requires index { IsIndexFrom (length (files_below base)) index.now (file_names (file_list files.now)) }
    requires tops { AreTops tops.now (length (files_below base)) (rows_below base) (flat_rows flat.now) (length files.now) }
    requires place { place < length files.now }
    ensures { IfOk result
        (λ t. file_table_row t
        ≡ added_file (file_names (files_below base.entry ++ file_list files.now)) (rows_below base.entry)
        (flat_rows flat.now) (length (files_below base.entry) + place) file.now) }
{
    let dependencies = dependency_places(alloc, base, index, files, file.dependency.as_slice())?;
    Ok(FileTable {
        messages: list_at(alloc, tops.messages.as_slice(), place)?,
        enums: list_at(alloc, tops.enums.as_slice(), place)?,
        extensions: list_at(alloc, tops.extensions.as_slice(), place)?,
        services: list_at(alloc, tops.services.as_slice(), place)?,
        public_dependencies: public_places(
            alloc,
            dependencies.as_slice(),
            file.public_dependency.as_slice(),
        )?,
        dependencies,
        is_proto3: is_proto3(file),
    })
}

/// What stands in each file of the pool and in each added one, and which files it imports. That of the pool's files is shared.
///
/// # Errors
///
/// `AllocError` if out of memory.
pub fn linked_files(
    alloc: Global,
    base: Base<'_>,
    files: &[&FileDescriptorProto],
    flat: &Flat,
) -> Result<SharedList<FileTable>, AllocError>
    ensures { IfOk result
        (λ l. map file_table_row l
        ≡ (catalog_below base.entry).files
        ++ each_from
        (added_file (file_names (files_below base.entry ++ file_list files.now)) (rows_below base.entry)
        (flat_rows flat.now)) (length (files_below base.entry)) (file_list files.now)) }
{
    let names = file_names(alloc, files)?;
    let index = index_from(alloc, base.file_count(), names.as_slice())?;
    let tops = top_places(alloc, base, files.len(), flat)?;
    let mut tables = base.pool().catalog().files.clone()?;
    for (place, file) in files.iter().enumerate() {
        tables.push(file_table(alloc, base, &index, files, flat, &tops, place, file)?)?;
    }
    Ok(tables)
}
