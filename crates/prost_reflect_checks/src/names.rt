//! The check that no two definitions have one full name, in the pool or added.

ghost use Rattle.std.specs.Prelude.{◌≡◌, IfOk};
ghost use Rattle.std.specs.List.{list_any};
ghost use Rattle.std.specs.Str.{bytes_eq};
ghost use Rattle.prost_reflect_tables.specs.Faults.{full_names};
ghost use Rattle.prost_reflect_base.specs.Below.{rows_below};
ghost use Rattle.prost_reflect_growth.specs.ChecksGrow.{added_names_repeat};
ghost use Rattle.prost_reflect_flat.specs.FlatViews.{flat_rows, text_list};

use prost_reflect_base::Base;
use prost_reflect_definition_checks::names::{full_names, repeats};
use prost_reflect_definition_checks::walk::any;
use prost_reflect_flat::Flat;
use std::alloc::{AllocError, Global};

/// Whether a definition of the pool has one of the names.
fn is_one_taken(base: Base<'_>, names: &[&str]) -> bool
    ensures { result ≡ list_any (λ n. list_any (bytes_eq n) (full_names (rows_below base.entry))) (text_list names.now) }
{
    any(names, &|name| base.has_name(name))
}

/// Whether an added definition has the full name of another one, of the pool or added.
///
/// # Errors
///
/// `AllocError` if out of memory.
pub fn has_duplicate_name(alloc: Global, base: Base<'_>, flat: &Flat) -> Result<bool, AllocError>
    ensures { IfOk result (λ b. b ≡ added_names_repeat (rows_below base.entry) (flat_rows flat.now)) }
{
    let mut names = full_names(alloc, flat)?;
    Ok(is_one_taken(base, names.as_slice()) || repeats(&mut names))
}
