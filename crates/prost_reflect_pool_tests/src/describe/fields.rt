//! The lines of fields, oneofs and extensions.

use crate::describe::lists::list;
use crate::describe::words::{Lines, shown, write_kind};
use prost_reflect::{
    Cardinality, DescriptorPool, ExtensionDescriptor, FieldDescriptor, FieldDescriptorLike,
    OneofDescriptor,
};

/// A field of a message type.
pub fn write_field(lines: &mut Lines, field: &FieldDescriptor) {
    lines.word("field ", field.full_name());
    lines.path(" path=", field.path());
    lines.word(" json=", field.json_name());
    write_values(lines, field, field.cardinality());
    lines.value(" required=", field.is_required());
    lines.found_or_none(" oneof=", field.containing_oneof());
    lines.add("\n");
}

/// A oneof of a message type.
pub fn write_oneof(lines: &mut Lines, oneof: &OneofDescriptor) {
    lines.word("oneof ", oneof.full_name());
    lines.path(" path=", oneof.path());
    list(lines, " fields=", oneof.fields());
    lines.value(" synthetic=", oneof.is_synthetic());
    lines.add("\n");
}

/// The extensions of a pool.
pub fn write_extensions(lines: &mut Lines, pool: &DescriptorPool) {
    for extension in pool.all_extensions() {
        match extension {
            Ok(extension) => write_extension(lines, &extension),
            Err(error) => lines.fail(error),
        }
    }
}

/// The line of an extension: where it stands, what it extends, and which values it has.
fn write_extension(lines: &mut Lines, extension: &ExtensionDescriptor) {
    lines.word("extension ", extension.full_name());
    lines.word(" name=", extension.name());
    lines.found(" file=", extension.parent_file());
    lines.word(" package=", shown(extension.package_name()));
    lines.path(" path=", extension.path());
    lines.found_or_none(" parent=", extension.parent_message());
    lines.word(" json=", extension.json_name());
    lines.found(" containing=", extension.containing_message());
    write_values(lines, extension, extension.cardinality());
    lines.add("\n");
}

/// Which values a field or an extension has.
fn write_values<F: FieldDescriptorLike>(lines: &mut Lines, field: &F, cardinality: Cardinality) {
    lines.value(" number=", field.number());
    write_kind(lines, field.kind());
    lines.value(" cardinality=", format_args!("{cardinality:?}"));
    lines.value(" presence=", field.supports_presence());
    lines.value(" packed=", field.is_packed());
    lines.value(" group=", field.is_group());
    lines.value(" list=", field.is_list());
    lines.value(" map=", field.is_map());
}
