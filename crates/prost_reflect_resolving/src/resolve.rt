//! Fields and extensions with what their texts mean: each text is looked up or read once, for the checks and for linking.

ghost use Rattle.std.specs.Prelude.{◌≡◌, IfOk, map, option_map};
ghost use Rattle.prost_reflect_tables.specs.EntryFaults.{is_entry};
ghost use Rattle.prost_reflect_flat.specs.FlatViews.{definition_row, message_row, flat_rows};
ghost use Rattle.prost_reflect_tables.specs.Linking.{links_of, linked_default};
ghost use Rattle.prost_reflect_tables.specs.Resolved.{resolve};
ghost use Rattle.prost_reflect_tables.specs.Rows.{written_scalar};
ghost use Rattle.prost_reflect_resolving.specs.Indexed.{all_rows, IsIndex};
ghost use Rattle.prost_reflect_resolving.specs.Resolved.{resolved_row, resolved_lists, IsResolved};

use crate::index::{Index, enum_place, indexed, message_place, number_named};
use prost_reflect_base::Base;
use prost_reflect_flat::{Definition, DefinitionRef, Flat, FlatMessage, is_entry, written_default};
use prost_reflect_tables::{TableKind, WrittenDefault, linked_kind};
use prost_reflect_types::FieldDescriptorProto;
use std::alloc::{AllocError, Global};

/// A field or an extension with what its texts mean.
#[derive(Drop)]
pub struct ResolvedField<'f> {
    /// The definition.
    pub definition: DefinitionRef<'f, FieldDescriptorProto>,
    /// The place of the message that it extends.
    pub extendee: Option<usize>,
    /// The place of the message that its type's name names.
    pub message: Option<usize>,
    /// The place of the enum that its type's name names.
    pub enumeration: Option<usize>,
    /// The kind; a name that names nothing stands for the first of its sort.
    pub kind: TableKind,
    /// The default that its text gives, if it gives one.
    pub default: Option<WrittenDefault>,
}

/// The fields of each added message and the added extensions, with what their texts mean.
#[derive(Drop)]
pub struct Resolved<'f> {
    /// What texts are looked up in.
    pub index: Index<'f>,
    /// Whether each message is a map's entry.
    pub entries: Vec<bool>,
    /// The fields of each message.
    pub fields: Vec<Vec<ResolvedField<'f>>>,
    /// The extensions.
    pub extensions: Vec<ResolvedField<'f>>,
}

/// The default that a field's definition writes.
fn linked_default(
    alloc: Global,
    index: &Index,
    flat: &Flat,
    kind: TableKind,
    text: &Option<String>,
) -> Result<Option<WrittenDefault>, AllocError>
    requires { IsIndex index.now (flat_rows flat.now) }
    ensures { IfOk result
        (λ d. option_map written_scalar d
        ≡ linked_default (links_of (all_rows index.now.base (flat_rows flat.now))) kind text.now) }
{
    match text {
        Some(text) => {
            let number = number_named(index, flat, kind, text.as_str());
            written_default(alloc, kind, number, text.as_str())
        }
        None => Ok(None),
    }
}

#[tactic(auto, unfolding(prost_reflect_tables::specs::Resolved::resolve))]
fn resolved_field<'f, 'a>(
    alloc: Global,
    index: &Index,
    flat: &Flat,
    definition: &'f Definition<'a, FieldDescriptorProto>,
) -> Result<ResolvedField<'f>, AllocError>
    requires { IsIndex index.now (flat_rows flat.now) }
    ensures { IfOk result
        (λ f. resolved_row f
        ≡ resolve (links_of (all_rows index.now.base (flat_rows flat.now))) (definition_row definition.now)) }
{
    let proto = definition.proto;
    let message = message_place(index, flat, &proto.type_name);
    let enumeration = enum_place(index, flat, &proto.type_name);
    let kind = linked_kind(message, enumeration, proto);
    Ok(ResolvedField {
        definition: definition.lend(),
        extendee: message_place(index, flat, &proto.extendee),
        message,
        enumeration,
        kind,
        default: linked_default(alloc, index, flat, kind, &proto.default_value)?,
    })
}

fn resolved_list<'f, 'a>(
    alloc: Global,
    index: &Index,
    flat: &Flat,
    definitions: &'f [Definition<'a, FieldDescriptorProto>],
) -> Result<Vec<ResolvedField<'f>>, AllocError>
    requires { IsIndex index.now (flat_rows flat.now) }
    ensures { IfOk result
        (λ v. map resolved_row v.items
        ≡ map (resolve (links_of (all_rows index.now.base (flat_rows flat.now))))
        (map definition_row definitions.now)) }
{
    let mut fields = Vec::with_capacity(alloc, definitions.len())?;
    for definition in definitions {
        fields.push(resolved_field(alloc, index, flat, definition)?)?;
    }
    Ok(fields)
}

/// The fields of each message.
fn resolved_fields<'f, 'a>(
    alloc: Global,
    index: &Index,
    flat: &Flat,
    messages: &'f [FlatMessage<'a>],
) -> Result<Vec<Vec<ResolvedField<'f>>>, AllocError>
    requires { IsIndex index.now (flat_rows flat.now) }
    ensures { IfOk result
        (λ v. resolved_lists v.items
        ≡ map (λ m. map (resolve (links_of (all_rows index.now.base (flat_rows flat.now)))) m.fields)
        (map message_row messages.now)) }
{
    let mut lists = Vec::with_capacity(alloc, messages.len())?;
    for message in messages {
        lists.push(resolved_list(alloc, index, flat, message.fields.as_slice())?)?;
    }
    Ok(lists)
}

/// Whether each message is a map's entry.
fn entry_flags(alloc: Global, messages: &[FlatMessage]) -> Result<Vec<bool>, AllocError>
    ensures { IfOk result (λ v. v.items ≡ map is_entry (map message_row messages.now)) }
{
    let mut flags = Vec::with_capacity(alloc, messages.len())?;
    for message in messages {
        flags.push(is_entry(message))?;
    }
    Ok(flags)
}

/// The fields of each added message and the added extensions, with what their texts mean in a pool and the added definitions.
///
/// # Errors
///
/// `AllocError` if out of memory.
pub fn all_resolved<'f, 'a>(
    alloc: Global,
    base: Base<'f>,
    flat: &'f Flat<'a>,
) -> Result<Resolved<'f>, AllocError>
    ensures resolved { IfOk result (λ resolved. IsResolved resolved (flat_rows flat.now)) }
    ensures base { IfOk result (λ resolved. resolved.index.base ≡ base.entry) }
{
    let index = indexed(alloc, base, flat)?;
    let fields = resolved_fields(alloc, &index, flat, flat.messages.as_slice())?;
    let extensions = resolved_list(alloc, &index, flat, flat.extensions.as_slice())?;
    Ok(Resolved {
        entries: entry_flags(alloc, flat.messages.as_slice())?,
        index,
        fields,
        extensions,
    })
}
