//! Full names, and texts that name them.

ghost use Rattle.std.specs.Prelude.{◌≡◌, IfOk, string_bytes};
ghost use Rattle.prost_reflect_tables.specs.Names.{text_or_empty, joined, without_dot};

use std::alloc::{AllocError, Global};

/// The text, or the empty one where there is none.
pub fn text_or_empty(text: &Option<String>) -> &str
    ensures { result.now ≡ text_or_empty text.now }
{
    match text {
        Some(text) => text.as_str(),
        None => "",
    }
}

/// A name in a scope, joined by a dot; in the empty scope it stands alone.
///
/// # Errors
///
/// `AllocError` if out of memory.
pub fn joined(alloc: Global, scope: &str, name: &str) -> Result<String, AllocError>
    ensures { IfOk result (λ s. string_bytes s ≡ joined scope.now name.now) }
{
    let mut full_name = String::with_capacity(alloc, scope.len() + name.len() + 1)?;
    full_name.push_str(scope)?;
    if !scope.is_empty() {
        full_name.push_str(".")?;
    }
    full_name.push_str(name)?;
    Ok(full_name)
}

/// The full name that a type name means: the text without a dot in front, if one stands there.
pub fn without_dot(name: &str) -> &str
    ensures { result.now ≡ without_dot name.now }
{
    match name.strip_prefix('.') {
        Some(rest) => rest,
        None => name,
    }
}
