//! Where the rows of extensions stand.

ghost use Rattle.std.specs.Prelude.{◌≡◌, ◌<◌, ◌++◌, length, IfOk, OnOk, Some, map, option_map, slice_get, unwrap_or};
ghost use Rattle.std.specs.List.{All};
ghost use Rattle.prost_reflect_base.specs.Below.{rows_below, tables_below, catalog_below};
ghost use Rattle.prost_reflect_growth.specs.ExtensionsGrow.{grown_extension};
ghost use Rattle.prost_reflect_growth.specs.RowsGrow.{grown_rows};
ghost use Rattle.prost_reflect_lists.specs.GatheredLists.{AreFurther};
ghost use Rattle.prost_reflect_lists.specs.ExtendedRows.{extended_row, found_extended, placed, found_again, again_at, made_anew};
ghost use Rattle.prost_reflect_resolving.specs.Resolved.{resolved_row};
ghost use Rattle.prost_reflect_tables.specs.CatalogRows.{extension_table_row};
ghost use Rattle.prost_reflect_tables.specs.Flat.{FlatRows};
ghost use Rattle.prost_reflect_tables.specs.Places.{place_of, fields_at};
ghost use Rattle.prost_reflect_tables.specs.Schema.{rows_of};

use prost_reflect_base::Base;
use prost_reflect_resolving::ResolvedField;
use prost_reflect_shared::shared_list::SharedList;
use prost_reflect_tables::{ExtensionTable, Tables, natural_or_zero};
use std::alloc::{AllocError, Global};

// ADDED EXTENSIONS

/// What an extension extends, and its number there.
#[derive(Drop)]
pub struct Extended {
    /// The place of the message type.
    pub message: usize,
    /// The number.
    pub number: u32,
}

fn extended_by(extension: &ResolvedField) -> Extended
    ensures { extended_row result ≡ found_extended (resolved_row extension.now) }
{
    Extended {
        message: extension.extendee.unwrap_or(0),
        number: natural_or_zero(extension.definition.proto.number),
    }
}

/// What each extension extends.
///
/// # Errors
///
/// `AllocError` if out of memory.
pub fn all_extended(
    alloc: Global,
    extensions: &[ResolvedField],
) -> Result<Vec<Extended>, AllocError>
    ensures { IfOk result (λ v. map extended_row v.items ≡ map found_extended (map resolved_row extensions.now)) }
{
    let mut all = Vec::with_capacity(alloc, extensions.len())?;
    for extension in extensions {
        all.push(extended_by(extension))?;
    }
    Ok(all)
}

/// The place of the row of a number among those of the message type at a place, or the first one where there is none.
fn row_place(tables: &Tables, message: usize, number: u32) -> usize
    ensures { result ≡ unwrap_or (place_of (fields_at (rows_of tables.now) message) number) 0 }
{
    if message < tables.messages.len() {
        tables.field_place(message, number).unwrap_or(0)
    } else {
        0
    }
}

fn linked_extension(tables: &Tables, extension: &Extended) -> ExtensionTable
    ensures { extension_table_row result ≡ placed (rows_of tables.now) (extended_row extension.now) }
{
    ExtensionTable {
        message: extension.message,
        field: row_place(tables, extension.message, extension.number),
    }
}

// THE EXTENSIONS OF THE POOL

/// Where the row of the pool's extension at a place stands among the linked tables of pool and added files.
fn moved_extension(base: Base<'_>, tables: &Tables, place: usize) -> ExtensionTable
    requires { place < length (catalog_below base).extensions }
    ensures { option_map (found_again (tables_below base.entry) (rows_of tables.now))
        (slice_get (catalog_below base.entry).extensions place)
        ≡ Some (extension_table_row result) }
{
    let pool = base.pool();
    let message = pool.extension_table(place).message;
    ExtensionTable {
        message,
        field: row_place(tables, message, pool.extension_field(place).number),
    }
}

/// Makes the rows of the pool's extensions at these places anew.
fn move_extensions(
    base: Base<'_>,
    tables: &Tables,
    places: &[usize],
    extensions: &mut SharedList<ExtensionTable>,
) -> Result<(), AllocError>
    requires places { All (λ i. i < length (catalog_below base).extensions) places.now }
    requires long { length extensions.old ≡ length (catalog_below base).extensions }
    ensures { OnOk result
        (map extension_table_row extensions.new
        ≡ made_anew (again_at (tables_below base.entry) (rows_of tables.now) (catalog_below base.entry).extensions)
        places.now (map extension_table_row extensions.old)) }
{
    for place in places {
        extensions.set(*place, moved_extension(base, tables, *place))?;
    }
    Ok(())
}

/// Where the row of each extension of the pool stands. Those of message types that no added extension extends are shared.
fn old_extensions(
    base: Base<'_>,
    tables: &Tables,
    further: &[Vec<usize>],
) -> Result<SharedList<ExtensionTable>, AllocError>
    ghost new: { FlatRows }
    requires further { AreFurther further.now (rows_below base) new }
    requires tables { rows_of tables.now ≡ grown_rows (rows_below base) new (tables_below base) }
    ensures { IfOk result
        (λ l. map extension_table_row l
        ≡ map (grown_extension (rows_below base.entry) new (tables_below base.entry))
        (catalog_below base.entry).extensions) }
{
    let pool = base.pool();
    let mut extensions = pool.catalog().extensions.clone()?;
    for (place, places) in further.iter().enumerate() {
        if !places.is_empty() {
            let moved = pool.message_lists(place).extending.as_slice();
            move_extensions(base, tables, moved, &mut extensions)?;
        }
    }
    Ok(extensions)
}

/// Where the row of each extension stands, of the pool and of the added ones.
///
/// # Errors
///
/// `AllocError` if out of memory.
pub fn linked_extensions(
    base: Base<'_>,
    tables: &Tables,
    further: &[Vec<usize>],
    added: &[Extended],
) -> Result<SharedList<ExtensionTable>, AllocError>
    ghost new: { FlatRows }
    requires further { AreFurther further.now (rows_below base) new }
    requires tables { rows_of tables.now ≡ grown_rows (rows_below base) new (tables_below base) }
    ensures { IfOk result
        (λ l. map extension_table_row l
        ≡ map (grown_extension (rows_below base.entry) new (tables_below base.entry))
        (catalog_below base.entry).extensions
        ++ map (placed (rows_of tables.now)) (map extended_row added.now)) }
{
    let mut extensions = old_extensions(base, tables, further)?;
    for extension in added {
        extensions.push(linked_extension(tables, extension))?;
    }
    Ok(extensions)
}
