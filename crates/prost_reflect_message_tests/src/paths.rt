//! The fields that paths of numbers lead to.

use crate::worked::{Set, message_type};
use std::alloc::Global;
use std::process::Abort;

/// A descriptor set, a message type, a path, and the full name of the field that it leads to, or none: a number that no field has,
/// that of an extension, and a path that goes on through a scalar, a list or a map, lead nowhere. A path has a number for each
/// level and one for the field.
static ROWS: [(Set, &str, &[u32], &str); 14] = [
    (
        Set::Newer,
        "package.MyMessage",
        &[3],
        "package.MyMessage.nested",
    ),
    (
        Set::Newer,
        "package.MyMessage",
        &[3, 3, 2],
        "package.MyMessage.bar",
    ),
    (Set::Newer, "P", &[3, 3, 2], "P.q"),
    (Set::Newer, "Q", &[2, 1], "package.MyMessage.foo"),
    (Set::Newer, "package.MyMessage", &[], ""),
    (Set::Newer, "package.MyMessage", &[4], ""),
    (Set::Newer, "package.MyMessage", &[1, 1], ""),
    (Set::Newer, "P", &[2, 2], ""),
    (Set::Newer, "Foo", &[1, 1], ""),
    (Set::Newer, "Foo", &[100], ""),
    (Set::Groups, "G", &[1], "G.item"),
    (Set::Groups, "G", &[1, 1], ""),
    (Set::Newer, "P", &[3; 101], "P.p"),
    (Set::Newer, "P", &[3; 102], ""),
];

/// Whether the path leads from the type to the field of the full name, or to none where that is empty.
fn leads_from(rt: &impl Abort, alloc: Global, row: &(Set, &str, &[u32], &str)) -> bool {
    let (set, name, path, full_name) = *row;
    let descriptor = message_type(rt, alloc, set, name);
    match descriptor.get_field_by_path(path).expect(rt, "memory") {
        Some(field) => field.full_name() == full_name,
        None => full_name.is_empty(),
    }
}

#[test]
fn paths_lead_to_fields(rt: HostRuntime) {
    for (place, row) in ROWS.iter().enumerate() {
        assert!(rt; leads_from(&rt, rt.alloc(), row), "{place}");
    }
}
