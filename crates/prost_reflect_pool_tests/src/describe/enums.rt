//! The lines of enums and their values.

use crate::describe::lists::{list_enum_ranges, list_reserved_names};
use crate::describe::words::{Lines, shown};
use prost_reflect::{DescriptorPool, EnumDescriptor, EnumValueDescriptor};

/// The enums of a pool, each followed by its values.
pub fn write_enums(lines: &mut Lines, pool: &DescriptorPool) {
    for found in pool.all_enums() {
        match found {
            Ok(found) => write_enum(lines, &found),
            Err(error) => lines.fail(error),
        }
    }
}

/// The line of an enum, followed by its values.
fn write_enum(lines: &mut Lines, found: &EnumDescriptor) {
    lines.word("enum ", found.full_name());
    lines.word(" name=", found.name());
    lines.found(" file=", found.parent_file());
    lines.word(" package=", shown(found.package_name()));
    lines.path(" path=", found.path());
    lines.found_or_none(" parent=", found.parent_message());
    lines.value(" closed=", found.is_closed());
    lines.found(" default=", found.default_value());
    list_enum_ranges(lines, found.reserved_ranges());
    list_reserved_names(lines, found.reserved_names());
    lines.add("\n");
    for value in found.values() {
        match value {
            Ok(value) => write_value(lines, &value),
            Err(error) => lines.fail(error),
        }
    }
}

/// The line of a value.
fn write_value(lines: &mut Lines, value: &EnumValueDescriptor) {
    lines.word("value ", value.full_name());
    lines.word(" enum=", value.parent_enum().full_name());
    lines.value(" number=", value.number());
    lines.path(" path=", value.path());
    lines.add("\n");
}
