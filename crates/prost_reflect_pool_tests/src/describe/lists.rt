//! Lists of definitions, of names and of ranges.

use crate::describe::words::Lines;
use prost_reflect::{
    Descriptors, EnumDescriptor, EnumReservedRanges, EnumValueDescriptor, ExtensionDescriptor,
    ExtensionRanges, FieldDescriptor, FileDescriptor, MessageDescriptor, MethodDescriptor,
    OneofDescriptor, Placed, ReservedNames, ReservedRanges, ServiceDescriptor,
};

/// A definition that stands in lists.
pub trait Listed {
    /// The name that it has there.
    fn listed(&self) -> &str;
}

impl Listed for FileDescriptor {
    fn listed(&self) -> &str {
        self.name()
    }
}

impl Listed for MessageDescriptor {
    fn listed(&self) -> &str {
        self.full_name()
    }
}

impl Listed for FieldDescriptor {
    fn listed(&self) -> &str {
        self.name()
    }
}

impl Listed for OneofDescriptor {
    fn listed(&self) -> &str {
        self.name()
    }
}

impl Listed for ExtensionDescriptor {
    fn listed(&self) -> &str {
        self.full_name()
    }
}

impl Listed for EnumDescriptor {
    fn listed(&self) -> &str {
        self.full_name()
    }
}

impl Listed for EnumValueDescriptor {
    fn listed(&self) -> &str {
        self.name()
    }
}

impl Listed for ServiceDescriptor {
    fn listed(&self) -> &str {
        self.full_name()
    }
}

impl Listed for MethodDescriptor {
    fn listed(&self) -> &str {
        self.name()
    }
}

/// The names of definitions.
pub fn list<P, D: Placed<P> + Listed + Drop>(
    lines: &mut Lines,
    label: &str,
    definitions: Descriptors<'_, P, D>,
) {
    lines.list(label);
    for definition in definitions {
        match definition {
            Ok(definition) => lines.item(definition.listed()),
            Err(error) => lines.fail(error),
        }
    }
    lines.end_list();
}

/// Names that are reserved.
pub fn list_reserved_names(lines: &mut Lines, names: ReservedNames<'_>) {
    lines.list(" reserved_names=");
    for name in names {
        lines.item(name);
    }
    lines.end_list();
}

/// Ranges of numbers that a message type reserves, each without its end.
pub fn list_reserved_ranges(lines: &mut Lines, ranges: ReservedRanges<'_>) {
    lines.list(" reserved=");
    for range in ranges {
        lines.range(range.start, "-", range.end);
    }
    lines.end_list();
}

/// Ranges of numbers that a message type keeps for extensions, each without its end.
pub fn list_extension_ranges(lines: &mut Lines, ranges: ExtensionRanges<'_>) {
    lines.list(" ranges=");
    for range in ranges {
        lines.range(range.start, "-", range.end);
    }
    lines.end_list();
}

/// Ranges of numbers that an enum reserves, each with its end.
pub fn list_enum_ranges(lines: &mut Lines, ranges: EnumReservedRanges<'_>) {
    lines.list(" reserved=");
    for range in ranges {
        lines.range(*range.start(), "..", *range.end());
    }
    lines.end_list();
}
