//! Bytes that are changed by an older type, for those who know a newer one.

ghost use Rattle.std.specs.Prelude.{◌↔◌, IfOk, IfSome, IsTrue, is_some};
ghost use Rattle.prost_reflect_wire.specs.Grammar.{Accepts, LEVEL_LIMIT};
ghost use Rattle.prost_reflect_wire.specs.Reduction.{Reduced};
ghost use Rattle.prost_reflect.specs.Edits.{MeansEdited};
ghost use Rattle.prost_reflect_dynamic.specs.Named.{schema_named, type_named};
ghost use Rattle.prost_reflect_dynamic.specs.View.{value_of};

use prost_reflect::{MessageDescriptor, RelayWithError, Value, relay_with};
use std::alloc::Global;

/// The bytes with a value set by an older type, if that is a reduction of the newer one. What the newer one reads of them is what it
/// read before, with that value set.
pub fn edit_for_newer(
    alloc: Global,
    older: &MessageDescriptor,
    newer: &MessageDescriptor,
    bytes: &[u8],
    path: &[u32],
    value: Value,
) -> Result<Option<Vec<u8>>, RelayWithError>
    ensures decides { IfOk result
        (λ found. Reduced (schema_named older.now) (type_named older.now) (schema_named newer.now)
        (type_named newer.now)
        ↔ IsTrue (is_some found)) }
    ensures passes { IfOk result
        (λ found. IfSome found
        (λ written. Accepts (schema_named newer.now) LEVEL_LIMIT (type_named newer.now) bytes.now
        → MeansEdited (schema_named newer.now) (type_named newer.now) bytes.now path.now (value_of value)
        written.items)) }
{
    if !older.is_reduction_of(newer)? {
        return Ok(None);
    }
    Ok(Some(relay_with(alloc, older, bytes, path, value)?))
}
