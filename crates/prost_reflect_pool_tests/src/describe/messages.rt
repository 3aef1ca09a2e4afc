//! The lines of message types, with their fields and oneofs.

use crate::describe::fields::{write_field, write_oneof};
use crate::describe::lists::{
    list, list_extension_ranges, list_reserved_names, list_reserved_ranges,
};
use crate::describe::words::{Lines, shown};
use prost_reflect::{DescriptorPool, MessageDescriptor};

/// The message types of a pool, each followed by its fields and its oneofs.
pub fn write_messages(lines: &mut Lines, pool: &DescriptorPool) {
    for message in pool.all_messages() {
        match message {
            Ok(message) => write_whole(lines, &message),
            Err(error) => lines.fail(error),
        }
    }
}

/// A message type, followed by its fields and its oneofs.
fn write_whole(lines: &mut Lines, message: &MessageDescriptor) {
    write_message(lines, message);
    write_members(lines, message);
    for field in message.fields() {
        match field {
            Ok(field) => write_field(lines, &field),
            Err(error) => lines.fail(error),
        }
    }
    for oneof in message.oneofs() {
        match oneof {
            Ok(oneof) => write_oneof(lines, &oneof),
            Err(error) => lines.fail(error),
        }
    }
}

/// Where the message type stands.
fn write_message(lines: &mut Lines, message: &MessageDescriptor) {
    lines.word("message ", message.full_name());
    lines.word(" name=", message.name());
    lines.found(" file=", message.parent_file());
    lines.word(" package=", shown(message.package_name()));
    lines.path(" path=", message.path());
    lines.found_or_none(" parent=", message.parent_message());
    lines.value(" entry=", message.is_map_entry());
}

/// What is declared in the message type, and the numbers and names that it keeps.
fn write_members(lines: &mut Lines, message: &MessageDescriptor) {
    list(lines, " fields=", message.fields());
    list(lines, " oneofs=", message.oneofs());
    list(lines, " child_messages=", message.child_messages());
    list(lines, " child_enums=", message.child_enums());
    list(lines, " child_extensions=", message.child_extensions());
    list(lines, " extensions=", message.extensions());
    list_reserved_ranges(lines, message.reserved_ranges());
    list_reserved_names(lines, message.reserved_names());
    list_extension_ranges(lines, message.extension_ranges());
    lines.add("\n");
}
