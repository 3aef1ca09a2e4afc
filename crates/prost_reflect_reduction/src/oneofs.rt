//! The members of oneofs that follow one another.

ghost use Rattle.std.specs.Prelude.{◌≡◌, true, List, IfOk, length, map};
ghost use Rattle.std.specs.List.{list_all};
ghost use Rattle.prost_reflect_wire.specs.Schema.{Field};
ghost use Rattle.prost_reflect_tables.specs.Linked.{oneof_in_range};
ghost use Rattle.prost_reflect_tables.specs.Rows.{field_row};
ghost use Rattle.prost_reflect_reduction.specs.Merging.{first_member, next_members, noted, AreFirst, shown_fields};

use prost_reflect_tables::{FieldTable, Tables};
use std::alloc::{AllocError, Global};

/// The number that is noted for a oneof, or 0 for none.
fn noted_for(first: &[u32], oneof: Option<usize>) -> u32
    requires { oneof_in_range (length first.now) oneof ≡ true }
    ensures { (fields : List Field) → AreFirst first.now fields → result ≡ first_member fields oneof }
{
    match oneof {
        Some(place) => first[place],
        None => 0,
    }
}

/// Notes a number for a oneof.
fn note(first: &mut Vec<u32>, oneof: Option<usize>, number: u32)
    requires { oneof_in_range (length first.old.items) oneof ≡ true }
    ensures { first.new.items ≡ noted first.old.items oneof number }
{
    if let Some(place) = oneof {
        first[place] = number;
    }
}

/// For each field the number of the next member of its oneof, or 0.
pub(crate) fn next_members(
    alloc: Global,
    tables: &Tables,
    fields: &[FieldTable],
    oneofs: usize,
) -> Result<Vec<u32>, AllocError>
    requires { list_all (λ f. oneof_in_range oneofs f.oneof) (map field_row fields.now) ≡ true }
    ensures { IfOk result (λ next. next.items ≡ next_members (shown_fields tables.now fields.now)) }
{
    let mut next = vec![in alloc; 0u32; fields.len()]?;
    let mut first = vec![in alloc; 0u32; oneofs]?;
    let mut place = fields.len();
    while place > 0 {
        place -= 1;
        let field = &fields[place];
        next[place] = noted_for(&first, field.oneof);
        note(&mut first, field.oneof, field.number);
    }
    Ok(next)
}
