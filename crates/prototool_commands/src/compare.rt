//! Compares two schemas: which message types of the older one are reductions of those of the newer one, so that messages
//! pass through them without a loss; what is at fault with the others; and which types and fields were added and removed.

mod changes;
mod place;

use crate::answer::Answer;
use crate::refusal::Refusal;
use changes::push_changes;
use place::push_fault;
use prost_reflect::{DescriptorPool, MessageDescriptor};
use std::alloc::{AllocError, Global};
use std::collections::BTreeSet;

/// Compares the message types of both pools, but those of the entries of maps, in the order of their full names, or those
/// of one name. The answer passes where each type that both pools have is a reduction.
///
/// A line has the full name of a type, and then `passes`, `added`, `removed`, or `fails:`, the place of the first fault, and
/// what differs there. A place is the names of fields, joined by dots, and the number of the last one. Behind a type that
/// both pools have comes a line for each field that was removed from it, and one for each that was added.
///
/// # Errors
///
/// `Name` if no message type of either pool has the name, or `Memory`.
pub fn comparison(
    alloc: Global,
    older: &DescriptorPool,
    newer: &DescriptorPool,
    name: Option<&str>,
) -> Result<Answer, Refusal> {
    let mut text = String::new(alloc);
    let passes = match name {
        Some(name) => push_named(&mut text, older, newer, name)?,
        None => push_all(&mut text, older, newer)?,
    };
    Ok(Answer {
        bytes: text.into_bytes(),
        passes,
    })
}

/// Appends the lines of the types of one name, and answers whether the older one passes.
fn push_named(
    text: &mut String,
    older: &DescriptorPool,
    newer: &DescriptorPool,
    name: &str,
) -> Result<bool, Refusal> {
    let older = older.get_message_by_name(name)?;
    let newer = newer.get_message_by_name(name)?;
    if older.is_none() && newer.is_none() {
        return Err(Refusal::Name);
    }
    Ok(push_types(text, name, older, newer)?)
}

/// Appends the lines of all types, and answers whether each older one passes.
fn push_all(
    text: &mut String,
    older: &DescriptorPool,
    newer: &DescriptorPool,
) -> Result<bool, AllocError> {
    let alloc = *text.allocator();
    let mut names = BTreeSet::new(alloc);
    add_names(alloc, &mut names, older)?;
    add_names(alloc, &mut names, newer)?;
    let mut passes = true;
    for name in &names {
        let older = older.get_message_by_name(name.as_str())?;
        let newer = newer.get_message_by_name(name.as_str())?;
        if !push_types(text, name.as_str(), older, newer)? {
            passes = false;
        }
    }
    Ok(passes)
}

/// Adds the full names of the pool's message types, but of those of the entries of maps.
fn add_names(
    alloc: Global,
    names: &mut BTreeSet<String>,
    pool: &DescriptorPool,
) -> Result<(), AllocError> {
    for message in pool.all_messages() {
        let message = message?;
        if !message.is_map_entry() {
            names.insert(String::from_str(alloc, message.full_name())?)?;
        }
    }
    Ok(())
}

/// Appends the lines of the types of one name, of which one may be missing, and answers whether the older one passes.
fn push_types(
    text: &mut String,
    name: &str,
    older: Option<MessageDescriptor>,
    newer: Option<MessageDescriptor>,
) -> Result<bool, AllocError> {
    match (older, newer) {
        (Some(older), Some(newer)) => push_compared(text, &older, &newer),
        (Some(_), None) => {
            write!(text, "{name} removed\n")?;
            Ok(true)
        }
        (None, _) => {
            write!(text, "{name} added\n")?;
            Ok(true)
        }
    }
}

/// Appends the lines of a type that both pools have, and answers whether the older one is a reduction of the newer one.
fn push_compared(
    text: &mut String,
    older: &MessageDescriptor,
    newer: &MessageDescriptor,
) -> Result<bool, AllocError> {
    text.push_str(older.full_name())?;
    let fault = older.reduction_fault(newer)?;
    match &fault {
        Some(fault) => {
            text.push_str(" fails: ")?;
            push_fault(text, older, newer, fault)?;
        }
        None => text.push_str(" passes")?,
    }
    text.push_str("\n")?;
    push_changes(text, older, newer)?;
    Ok(fault.is_none())
}
