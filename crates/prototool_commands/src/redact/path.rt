//! Paths of names, as `user.email`, and the numbers of the fields and extensions that they lead through.

ghost use Rattle.std.specs.Prelude.{◌≢◌, ◌∷◌, ℕ, IfOk, List, Some, option_map};
ghost use Rattle.prototool_commands.specs.Naming.{AreNumbersOf, Full, IsFirstName, IsFoundIn, Own, row_named, shown_name};

use crate::types::message_inside;
use prost_reflect::{FieldDescriptorLike, MessageDescriptor, RECURSION_LIMIT};
use std::alloc::{AllocError, Global};

/// How many names a path has at most: one for each level of messages that is read, and one for the field.
const PATH_LIMIT: u32 = RECURSION_LIMIT + 1;

/// The first name of a path.
#[derive(Clone, Copy)]
enum Name<'a> {
    /// The name of a field.
    Field(&'a str),
    /// The full name of an extension, which stands in brackets.
    Extension(&'a str),
}

/// A field or an extension that a name leads to.
#[derive(Drop)]
struct Found {
    /// Its number.
    number: u32,
    /// The type of the messages in its values, if these are messages.
    inside: Option<MessageDescriptor>,
}

/// The numbers of the fields and extensions that the path leads through from the message type on, or none if it leads to no
/// field. Names are joined by dots; each but the last is that of a field whose values are messages, or lists or maps of such,
/// and the full name of an extension stands in brackets. A path of more than 101 names leads to none.
///
/// # Errors
///
/// `AllocError` if out of memory.
pub fn numbers_of(
    alloc: Global,
    descriptor: &MessageDescriptor,
    path: &str,
) -> Result<Option<Vec<u32>>, AllocError>
    ensures { IfOk result
        (λ found. AreNumbersOf descriptor.now.pool.inner.value descriptor.now.index path.now
        (option_map (λ numbers. numbers.items) found)) }
{
    let mut numbers = Vec::new(alloc);
    let mut from = descriptor.clone()?;
    let mut left = path;
    for _step in 0..PATH_LIMIT {
        let Some((name, rest)) = first_name(left) else {
            return Ok(None);
        };
        let Some(found) = found_by(&from, name)? else {
            return Ok(None);
        };
        let Found { number, inside } = found;
        numbers.push(number)?;
        let Some(rest) = rest else {
            return Ok(Some(numbers));
        };
        let Some(inside) = inside else {
            return Ok(None);
        };
        from = inside;
        left = rest;
    }
    Ok(None)
}

/// The first name of a path, and the path behind the dot that follows it, if one does; none if a bracket is not closed, or
/// closed before the end of a name.
fn first_name(path: &str) -> Option<(Name<'_>, Option<&str>)>
    ensures { IsFirstName path.now result }
{
    match path.strip_prefix('[') {
        Some(bracketed) => bracketed_name(bracketed),
        None => Some(own_name(path)),
    }
}

/// The same where the path is a bracket and the text.
fn bracketed_name(text: &str) -> Option<(Name<'_>, Option<&str>)>
    ensures { IsFirstName (91 ∷ text.now) result }
{
    let (name, behind) = text.split_once(']')?;
    if behind.is_empty() {
        return Some((Name::Extension(name), None));
    }
    let rest = behind.strip_prefix('.')?;
    Some((Name::Extension(name), Some(rest)))
}

/// The same where the path begins with no bracket.
fn own_name(path: &str) -> (Name<'_>, Option<&str>)
    requires { (rest : List ℕ) → path.now ≢ 91 ∷ rest }
    ensures { IsFirstName path.now (Some result) }
{
    match path.split_once('.') {
        Some((name, rest)) => (Name::Field(name), Some(rest)),
        None => (Name::Field(path), None),
    }
}

/// The field or the extension of the name.
fn found_by(descriptor: &MessageDescriptor, name: Name<'_>) -> Result<Option<Found>, AllocError>
    ensures { IfOk result
        (IsFoundIn descriptor.now.pool.inner.value
        (row_named descriptor.now.pool.inner.value descriptor.now.index (shown_name name.entry))) }
{
    match name {
        Name::Field(name) => field_by(descriptor, name),
        Name::Extension(name) => extension_by(descriptor, name),
    }
}

/// The field of the name.
fn field_by(descriptor: &MessageDescriptor, name: &str) -> Result<Option<Found>, AllocError>
    ensures { IfOk result
        (IsFoundIn descriptor.now.pool.inner.value
        (row_named descriptor.now.pool.inner.value descriptor.now.index (Own name.now))) }
{
    let Some(field) = descriptor.get_field_by_name(name)? else {
        return Ok(None);
    };
    Ok(Some(Found::of(&field)?))
}

/// The extension of the full name.
fn extension_by(descriptor: &MessageDescriptor, name: &str) -> Result<Option<Found>, AllocError>
    ensures { IfOk result
        (IsFoundIn descriptor.now.pool.inner.value
        (row_named descriptor.now.pool.inner.value descriptor.now.index (Full name.now))) }
{
    let Some(extension) = descriptor.get_extension_by_full_name(name)? else {
        return Ok(None);
    };
    Ok(Some(Found::of(&extension)?))
}

impl Found {
    ghost use Rattle.prototool_commands.specs.Naming.{IsFoundOf};

    /// What is found of a field or an extension.
    fn of<F: FieldDescriptorLike>(field: &F) -> Result<Found, AllocError>
        ensures { IfOk result (IsFoundOf (F.pool field.now).inner.value (F.table_row field.now)) }
    {
        let kind = field.kind()?;
        let inside = message_inside(kind)?;
        Ok(Found {
            number: field.number(),
            inside,
        })
    }
}
