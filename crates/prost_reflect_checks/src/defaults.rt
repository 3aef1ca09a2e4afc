//! The checks of the defaults that fields write as text: where one may stand, and whether it gives a value.

ghost use Rattle.std.specs.Prelude.{◌≡◌};
ghost use Rattle.prost_reflect_flat.specs.FlatViews.{flat_rows};
ghost use Rattle.prost_reflect_tables.specs.DefaultFaults.{is_float_type};
ghost use Rattle.prost_reflect_resolving.specs.Indexed.{all_rows};
ghost use Rattle.prost_reflect_resolving.specs.Resolved.{resolved_row, IsResolved};
ghost use Rattle.prost_reflect_checks.specs.Added.{added_bad_default, added_float_default};
ghost use Rattle.prost_reflect_tables.specs.ResolvedFaults.{misplaced, unread, bad_read, bad_float};

use crate::walk::{any_resolved_extension, any_resolved_field};
use prost_reflect_definition_checks::fields::{is_code, is_message_type};
use prost_reflect_flat::Flat;
use prost_reflect_resolving::{Resolved, ResolvedField};

/// Whether a default stands at a list, at a message or in a proto3 file.
fn is_default_misplaced(field: &ResolvedField) -> bool
    ensures { result ≡ misplaced (resolved_row field.now) }
{
    let proto = field.definition.proto;
    proto.default_value.is_some()
        && (is_code(3, proto.label) || is_message_type(proto.type_) || field.definition.is_proto3)
}

/// Whether a default's text gives no value of the field's kind.
fn is_default_unread(field: &ResolvedField) -> bool
    ensures { result ≡ unread (resolved_row field.now) }
{
    field.definition.proto.default_value.is_some() && field.default.is_none()
}

fn is_float_type(code: Option<i32>) -> bool
    ensures { result ≡ is_float_type code }
{
    is_code(1, code) || is_code(2, code)
}

fn is_default_bad(field: &ResolvedField) -> bool
    ensures { result ≡ bad_read (resolved_row field.now) }
{
    is_default_misplaced(field)
        || (!is_float_type(field.definition.proto.type_) && is_default_unread(field))
}

/// Whether an added default stands at a list, at a message or in a proto3 file, or, floats and doubles aside, gives no value of
/// its field's kind.
pub fn has_bad_default(resolved: &Resolved, flat: &Flat) -> bool
    requires { IsResolved resolved.now (flat_rows flat.now) }
    ensures { result ≡ added_bad_default (all_rows resolved.now.index.base (flat_rows flat.now)) (flat_rows flat.now) }
{
    any_resolved_field(resolved, flat, &is_default_bad)
        || any_resolved_extension(resolved, flat, &is_default_bad)
}

fn is_float_default_bad(field: &ResolvedField) -> bool
    ensures { result ≡ bad_float (resolved_row field.now) }
{
    is_float_type(field.definition.proto.type_) && is_default_unread(field)
}

/// Whether the added default of a float or a double is neither `inf`, `-inf`, `nan` nor a whole number up to 2^24 or 2^53.
pub fn has_float_default(resolved: &Resolved, flat: &Flat) -> bool
    requires { IsResolved resolved.now (flat_rows flat.now) }
    ensures { result ≡ added_float_default (all_rows resolved.now.index.base (flat_rows flat.now)) (flat_rows flat.now) }
{
    any_resolved_field(resolved, flat, &is_float_default_bad)
        || any_resolved_extension(resolved, flat, &is_float_default_bad)
}
