//! What the texts of fields mean, without the definitions that they stand in.

ghost use Rattle.std.specs.Prelude.{◌≡◌, IfOk, map};
ghost use Rattle.prost_reflect_linking.specs.Meanings.{meaning_row, meaning_lists, meant};
ghost use Rattle.prost_reflect_resolving.specs.Resolved.{resolved_lists, resolved_row};

use prost_reflect_resolving::ResolvedField;
use prost_reflect_tables::{TableKind, WrittenDefault};
use std::alloc::{AllocError, Global};

/// What the texts of a field mean.
#[derive(Drop)]
pub struct Meaning {
    /// The place of the message that it extends.
    pub extendee: Option<usize>,
    /// Its kind.
    pub kind: TableKind,
    /// The default that its text gives, if it gives one.
    pub default: Option<WrittenDefault>,
}

fn meaning_of(field: ResolvedField) -> Meaning
    ensures { meaning_row result ≡ meant (resolved_row field.entry) }
{
    Meaning {
        extendee: field.extendee,
        kind: field.kind,
        default: field.default,
    }
}

/// What the texts of fields mean.
///
/// # Errors
///
/// `AllocError` if out of memory.
pub fn meanings(alloc: Global, fields: Vec<ResolvedField>) -> Result<Vec<Meaning>, AllocError>
    ensures { IfOk result (λ v. map meaning_row v.items ≡ map meant (map resolved_row fields.entry.items)) }
{
    let mut all = Vec::with_capacity(alloc, fields.len())?;
    for field in fields {
        all.push(meaning_of(field))?;
    }
    Ok(all)
}

/// What the texts of each message's fields mean. What was found of a message's fields is let go as soon as its meanings are had.
///
/// # Errors
///
/// `AllocError` if out of memory.
pub fn meanings_by_message(
    alloc: Global,
    fields: Vec<Vec<ResolvedField>>,
) -> Result<Vec<Vec<Meaning>>, AllocError>
    ensures { IfOk result (λ v. meaning_lists v.items ≡ map (λ rs. map meant rs) (resolved_lists fields.entry.items)) }
{
    let mut lists = Vec::with_capacity(alloc, fields.len())?;
    for own in fields {
        lists.push(meanings(alloc, own)?)?;
    }
    Ok(lists)
}
