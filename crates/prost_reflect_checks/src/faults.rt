//! All checks of added files, one after another.

ghost use Rattle.std.specs.Prelude.{◌≡◌, ◌≢◌, true, false, IfOk, IfErr, OnOk};
ghost use Rattle.std.specs.List.{list_any};
ghost use Rattle.prost_reflect_tables.specs.declared.error.PoolError.TheVariants as pool_errors;
ghost use Rattle.prost_reflect_base.specs.Below.{files_below, rows_below};
ghost use Rattle.prost_reflect_growth.specs.ChecksGrow.{added_fault};
ghost use Rattle.prost_reflect_tables.specs.declared.error.PoolError.{PoolError};
ghost use Rattle.prost_reflect_flat.specs.FlatViews.{file_list, flat_rows};
ghost use Rattle.prost_reflect_resolving.specs.Resolved.{IsResolved};

use crate::defaults::{has_bad_default, has_float_default};
use crate::entries::has_bad_map_entry;
use crate::names::has_duplicate_name;
use crate::numbers::has_duplicate_number;
use crate::ranges::has_outside_range;
use crate::types::{has_missing_dependency, has_unknown_type};
use prost_reflect_base::Base;
use prost_reflect_definition_checks::fields::{
    has_bad_label, has_bad_number, has_bad_oneof, has_empty_enum, has_missing_type,
};
use prost_reflect_definition_checks::indices::has_bad_index;
use prost_reflect_definition_checks::names::{has_missing_name, has_unknown_syntax};
use prost_reflect_definition_checks::options::has_bad_options;
use prost_reflect_definition_checks::ranges::has_bad_range;
use prost_reflect_flat::Flat;
use prost_reflect_resolving::{Resolved, all_resolved};
use prost_reflect_tables::PoolError;
use prost_reflect_types::FileDescriptorProto;
use std::alloc::{AllocError, Global};

/// The faults that files may have, in the order in which they are looked for.
const FAULTS: [PoolError; 18] = [
    PoolError::MissingName,
    PoolError::UnknownSyntax,
    PoolError::BadIndex,
    PoolError::BadNumber,
    PoolError::BadRange,
    PoolError::MissingType,
    PoolError::BadLabel,
    PoolError::BadOneof,
    PoolError::EmptyEnum,
    PoolError::BadOptions,
    PoolError::MissingDependency,
    PoolError::DuplicateName,
    PoolError::UnknownType,
    PoolError::DuplicateNumber,
    PoolError::OutsideRange,
    PoolError::BadMapEntry,
    PoolError::BadDefault,
    PoolError::FloatDefault,
];

/// Whether added files have the fault of this name.
fn has_fault(
    alloc: Global,
    fault: PoolError,
    files: &[&FileDescriptorProto],
    flat: &Flat,
    resolved: &Resolved,
) -> Result<bool, AllocError>
    requires { IsResolved resolved.now (flat_rows flat.now) }
    ensures { IfOk result
        (λ b. b
        ≡ added_fault fault (files_below resolved.now.index.base) (file_list files.now)
        (rows_below resolved.now.index.base) (flat_rows flat.now)) }
{
    match fault {
        PoolError::MissingName => Ok(has_missing_name(files, flat)),
        PoolError::UnknownSyntax => Ok(has_unknown_syntax(files)),
        PoolError::BadIndex => Ok(has_bad_index(files, flat)),
        PoolError::BadNumber => Ok(has_bad_number(flat)),
        PoolError::BadRange => Ok(has_bad_range(flat)),
        PoolError::MissingType => Ok(has_missing_type(flat)),
        PoolError::BadLabel => Ok(has_bad_label(flat)),
        PoolError::BadOneof => Ok(has_bad_oneof(flat)),
        PoolError::EmptyEnum => Ok(has_empty_enum(flat)),
        PoolError::BadOptions => Ok(has_bad_options(flat)),
        PoolError::MissingDependency => has_missing_dependency(alloc, resolved.index.base, files),
        PoolError::DuplicateName => has_duplicate_name(alloc, resolved.index.base, flat),
        PoolError::UnknownType => Ok(has_unknown_type(resolved, flat)),
        PoolError::DuplicateNumber => has_duplicate_number(alloc, resolved, flat),
        PoolError::OutsideRange => has_outside_range(alloc, resolved, flat),
        PoolError::BadMapEntry => Ok(has_bad_map_entry(resolved, flat)),
        PoolError::BadDefault => Ok(has_bad_default(resolved, flat)),
        PoolError::FloatDefault => Ok(has_float_default(resolved, flat)),
        PoolError::Decode(_) | PoolError::OutOfMemory => Ok(false),
    }
}

/// Looks for faults, one after another.
fn check_faults(
    alloc: Global,
    faults: &[PoolError],
    files: &[&FileDescriptorProto],
    flat: &Flat,
    resolved: &Resolved,
) -> Result<(), PoolError>
    requires { IsResolved resolved.now (flat_rows flat.now) }
    ensures ok { OnOk result
        (list_any
        (λ e. added_fault e (files_below resolved.now.index.base) (file_list files.now)
        (rows_below resolved.now.index.base) (flat_rows flat.now)) faults.now
        ≡ false) }
    ensures stands { IfErr result
        (λ e. e ≢ pool_errors.OutOfMemory
        → added_fault e (files_below resolved.now.index.base) (file_list files.now)
        (rows_below resolved.now.index.base) (flat_rows flat.now)
        ≡ true) }
{
    for fault in faults {
        if has_fault(alloc, *fault, files, flat, resolved)? {
            return Err(*fault);
        }
    }
    Ok(())
}

/// Checks the definitions of files that are added to a pool, and gives their fields and extensions with what their texts mean. What
/// the pool has is not checked again.
///
/// # Errors
///
/// The name of a fault that the added files have in the pool, or `OutOfMemory` if memory runs out.
pub fn check_added<'f, 'a>(
    alloc: Global,
    base: Base<'f>,
    files: &[&FileDescriptorProto],
    flat: &'f Flat<'a>,
) -> Result<Resolved<'f>, PoolError>
    ensures ok { OnOk result
        ((e : PoolError)
        → added_fault e (files_below base.entry) (file_list files.now) (rows_below base.entry) (flat_rows flat.now)
        ≡ false) }
    ensures resolved { IfOk result (λ resolved. IsResolved resolved (flat_rows flat.now)) }
    ensures base { IfOk result (λ resolved. resolved.index.base ≡ base.entry) }
    ensures stands { IfErr result
        (λ e. e ≢ pool_errors.OutOfMemory
        → added_fault e (files_below base.entry) (file_list files.now) (rows_below base.entry) (flat_rows flat.now)
        ≡ true) }
{
    let resolved = all_resolved(alloc, base, flat)?;
    check_faults(alloc, &FAULTS, files, flat, &resolved)?;
    Ok(resolved)
}
