//! Checks files that are added to a pool, and links those that pass behind the pool's.

ghost use Rattle.std.specs.Prelude.{◌≡◌, ◌≢◌, ◌++◌, IsTrue, IfOk, IfErr};
ghost use Rattle.prost_reflect_pool.specs.Pools.{files_of};
ghost use Rattle.prost_reflect_tables.specs.Built.{AreTablesOf};
ghost use Rattle.prost_reflect_tables.specs.Checked.{Stands};
ghost use Rattle.prost_reflect_tables.specs.Flat.{flattened};
ghost use Rattle.prost_reflect_flat.specs.FlatViews.{file_list};
ghost use Rattle.prost_reflect_tables.specs.InRange.{in_range};
ghost use Rattle.prost_reflect_tables.specs.LinkedCatalog.{IsCatalogOf};
ghost use Rattle.prost_reflect_tables.specs.Schema.{rows_of};
ghost use Rattle.prost_reflect_tables.specs.declared.error.PoolError.TheVariants as pool_errors;

use prost_reflect_base::Base;
use prost_reflect_catalog::{linked_catalog, outlined};
use prost_reflect_checks::check_added;
use prost_reflect_flat::flattened;
use prost_reflect_linking::{linked, meanings, meanings_by_message};
use prost_reflect_pool::LinkedPool;
use prost_reflect_resolving::Resolved;
use prost_reflect_tables::{Catalog, PoolError, Tables};
use prost_reflect_types::FileDescriptorProto;
use std::alloc::Global;

/// The tables and the catalog of a pool's files and of files that are added to them, where these pass all checks: the message types
/// and enums of all, by file and then by path.
///
/// A type is named by its place in these lists, and each extension is listed with the message that it extends, wherever it was
/// declared. The added files may come in any order; each file that one depends on is among them or in the pool.
///
/// # Errors
///
/// The name of a fault that the files of the pool have together with those that are added, or `OutOfMemory` if memory runs out.
pub(crate) fn link_behind(
    alloc: Global,
    pool: &LinkedPool,
    files: &[&FileDescriptorProto],
) -> Result<(Tables, Catalog), PoolError>
    ensures tables { IfOk result (λ t. AreTablesOf (files_of pool.now ++ file_list files.now) (rows_of t.0)) }
    ensures catalog { IfOk result (λ t. IsCatalogOf (files_of pool.now ++ file_list files.now) t.1) }
    ensures ranged { IfOk result (λ t. IsTrue (in_range (rows_of t.0))) }
    ensures stands { IfErr result
        (λ e. e ≢ pool_errors.OutOfMemory
        → Stands e (files_of pool.now ++ file_list files.now)
        (flattened (files_of pool.now ++ file_list files.now))) }
{
    let base = Base::of(pool);
    let flat = flattened(alloc, base.file_count(), base.message_count(), files)?;
    let Resolved {
        index,
        entries,
        fields,
        extensions,
    } = check_added(alloc, base, files, &flat)?;
    let outline = outlined(alloc, base, files, &flat, &index, extensions.as_slice())?;
    drop(index);
    let fields = meanings_by_message(alloc, fields)?;
    let extensions = meanings(alloc, extensions)?;
    let (messages, enums) = linked(
        alloc,
        base,
        flat,
        fields,
        extensions.as_slice(),
        entries.as_slice(),
    )?;
    let tables = Tables { messages, enums };
    let catalog = linked_catalog(alloc, base, files, outline, &tables)?;
    Ok((tables, catalog))
}
