//! The search for a fault, record by record (the encoding guide, "Message Structure", "Submessages", "Groups" and "Maps").

ghost use Rattle.std.specs.Prelude.{◌≡◌, ◌≢◌, ◌≤◌, ◌<◌, ◌+◌, ◌*◌, ◌^◌, ◌↔◌, [], List, length, true, Some, None, IfOk, IfErr, OnOk, IsTrue, IsFalse};
ghost use Rattle.std.specs.Option.{is_none};
ghost use Rattle.prost_reflect_wire.specs.Front.{KeyFront};
ghost use Rattle.prost_reflect_wire.specs.Grammar.{LEVEL_LIMIT, Accepts, has_level};
ghost use Rattle.prost_reflect_wire.specs.Schema.{MessageOf};
ghost use Rattle.prost_reflect_wire.specs.declared.key.WireType.TheVariants as wires;
ghost use Rattle.prost_reflect_tables.specs.Linking.{is_packable as packable};
ghost use Rattle.prost_reflect_tables.specs.Rows.{EnumRow, field_row};
ghost use Rattle.prost_reflect_tables.specs.Schema.{rows_of, schema_of};
ghost use Rattle.prost_reflect_tables.specs.Shown.{own_type};
ghost use Rattle.prost_reflect_faults.specs.Positions.{StandsAt, message_place};
ghost use Rattle.prost_reflect_faults.specs.Searching.{InsideThere, MessageThere, KnownAt, KindField, MapField, GroupInside, StandsInside, TakesBody, TakesPayload, among, rank, place_at, type_of_row};
ghost use Rattle.prost_reflect_faults.specs.declared.fault.DecodeFault.{DecodeFault};

use crate::fault::{DecodeFault, PATH_LIMIT};
use crate::inside::{Inside, Known, Region, known_inside};
use crate::payload::{skip_packed, skip_plain, skip_scalar};
use arrayvec::ArrayVec;
use prost_reflect_tables::{FieldTable, TableKind, Tables, is_packable};
use prost_reflect_wire::{
    DecodeError, FieldNumber, RECURSION_LIMIT, WireType, decode_delimited, decode_key,
};

/// A fault, and how many bytes stand before its record.
#[derive(Clone, Copy)]
struct Found {
    error: DecodeError,
    offset: usize,
}

impl From<DecodeError> for Found {
    ghost use Rattle.std.specs.Prelude.{◌≡◌};

    ghost from_gives = { λ e found. (found.error ≡ e) × (found.offset ≡ 0) };

    /// A fault of the record that comes next.
    fn from(error: DecodeError) -> Found {
        Found { error, offset: 0 }
    }
}

/// A record whose key is read.
#[derive(Clone, Copy)]
struct Keyed<'a> {
    /// The record, and what follows it.
    from: &'a [u8],
    number: FieldNumber,
    wire_type: WireType,
    /// What follows the key.
    behind: &'a [u8],
}

/// The first fault that keeps the message type at a place of the tables from accepting the bytes within 100 levels, or none where
/// it accepts them.
pub fn decode_fault(tables: &Tables, message: usize, bytes: &[u8]) -> Option<DecodeFault>
    requires { message < length (rows_of tables.now).messages }
    ensures none { Accepts (schema_of tables.now) LEVEL_LIMIT message bytes.now ↔ IsTrue (is_none result) }
    ensures stands { (fault : DecodeFault) → result ≡ Some fault
        → StandsAt (schema_of tables.now) (message_place LEVEL_LIMIT message bytes.now) fault.error fault.offset
        fault.path.items }
{
    let mut path = ArrayVec::new();
    let region = Region {
        inside: Inside::Message(message),
        levels: RECURSION_LIMIT,
        open_group: None,
    };
    match search_body(tables, &mut path, region, bytes) {
        Ok(_) => None,
        Err(found) => Some(DecodeFault {
            error: found.error,
            offset: found.offset,
            path,
        }),
    }
}

/// Whether nothing is left, and no end key has to come.
fn is_over(open_group: Option<u32>, rest: &[u8]) -> bool
    ensures yes { IsTrue result → (rest.now ≡ []) × (open_group ≡ None) }
    ensures no { IsFalse result → rest.now ≡ [] → open_group ≢ None }
{
    match open_group {
        Some(_) => false,
        None => rest.is_empty(),
    }
}

/// Whether an end key of the number closes the open group.
fn closes(open_group: Option<u32>, number: u32) -> bool
    ensures yes { IsTrue result → open_group ≡ Some number }
    ensures no { IsFalse result → open_group ≢ Some number }
{
    match open_group {
        Some(open) => open == number,
        None => false,
    }
}

/// Whether a record of a list of the kind is a packed one.
fn is_packed(kind: TableKind, wire_type: WireType) -> bool
    ensures yes { IsTrue result → (wire_type ≡ wires.LengthDelimited) × (packable kind ≡ true) }
    ensures no { IsFalse result → wire_type ≡ wires.LengthDelimited → packable kind ≡ true → ⊥ }
{
    if wire_type != WireType::LengthDelimited {
        return false;
    }
    is_packable(kind)
}

/// Whether so many levels suffice for the value of an entry: one where it is a message.
fn has_level(levels: u32, value: &FieldTable) -> bool
    ensures { (enums : List EnumRow) → result ≡ has_level levels (own_type enums (field_row value.now)).kind }
{
    match value.kind {
        TableKind::Message(_) => levels > 0,
        _ => true,
    }
}

/// Gives what follows the records of a body: nothing, or behind those of a group what stands behind its end key.
#[cycle(searching)]
fn search_body<'a>(
    tables: &Tables,
    path: &mut ArrayVec<u32, PATH_LIMIT>,
    region: Region<'_>,
    bytes: &'a [u8],
) -> Result<&'a [u8], Found>
    requires levels { region.levels ≤ LEVEL_LIMIT }
    requires inside { InsideThere (rows_of tables.now) region.inside }
    requires path { path.old.items ≡ [] }
    ensures ok { IfOk result (λ rest. TakesBody (schema_of tables.now) (place_at (rows_of tables.now) region.entry bytes.now) rest.now) }
    ensures kept { OnOk result (path.new.items ≡ []) }
    ensures fault { IfErr result
        (λ found. StandsAt (schema_of tables.now) (place_at (rows_of tables.now) region.entry bytes.now) found.error
        found.offset path.new.items) }
{
    let mut rest = bytes;
    loop {
        if is_over(region.open_group, rest) {
            return Ok(rest);
        }
        let before = bytes.len() - rest.len();
        let (number, wire_type, behind) = match decode_key(rest) {
            Ok(key) => key,
            Err(error) => {
                return Err(Found {
                    error,
                    offset: before,
                });
            }
        };
        if wire_type == WireType::EndGroup {
            if closes(region.open_group, number.get()) {
                return Ok(behind);
            }
            return Err(Found {
                error: DecodeError::EndGroup,
                offset: before,
            });
        }
        let keyed = Keyed {
            from: rest,
            number,
            wire_type,
            behind,
        };
        match search_record(tables, path, region, keyed) {
            Ok(after) => rest = after,
            Err(found) => {
                return Err(Found {
                    error: found.error,
                    offset: before + found.offset,
                });
            }
        }
    }
}

/// Gives what follows a record.
#[cycle(searching)]
fn search_record<'a>(
    tables: &Tables,
    path: &mut ArrayVec<u32, PATH_LIMIT>,
    region: Region<'_>,
    keyed: Keyed<'a>,
) -> Result<&'a [u8], Found>
    requires levels { region.levels ≤ LEVEL_LIMIT }
    requires inside { InsideThere (rows_of tables.now) region.inside }
    requires path { path.old.items ≡ [] }
    requires key { KeyFront keyed.number.value keyed.wire_type keyed.from.now keyed.behind.now }
    requires other { keyed.wire_type ≢ wires.EndGroup }
    ensures ok { IfOk result
        (λ rest. TakesPayload (schema_of tables.now) (place_at (rows_of tables.now) region.entry keyed.entry.from.now)
        keyed.entry.number.value keyed.entry.wire_type keyed.entry.behind.now rest.now) }
    ensures kept { OnOk result (path.new.items ≡ []) }
    ensures fault { IfErr result
        (λ found. StandsAt (schema_of tables.now) (place_at (rows_of tables.now) region.entry keyed.entry.from.now)
        found.error found.offset path.new.items) }
{
    match known_inside(tables, region.inside, keyed.number.get()) {
        Some(known) => search_known(tables, path, region, keyed, known),
        None if keyed.wire_type == WireType::StartGroup => {
            search_group(tables, path, region, Inside::Nothing, keyed)
        }
        None => Ok(skip_plain(keyed.wire_type, keyed.behind)?),
    }
}

/// Gives what follows a record of a field.
#[cycle(searching)]
fn search_known<'a>(
    tables: &Tables,
    path: &mut ArrayVec<u32, PATH_LIMIT>,
    region: Region<'_>,
    keyed: Keyed<'a>,
    known: Known<'_>,
) -> Result<&'a [u8], Found>
    requires levels { region.levels ≤ LEVEL_LIMIT }
    requires path { path.old.items ≡ [] }
    requires key { KeyFront keyed.number.value keyed.wire_type keyed.from.now keyed.behind.now }
    requires other { keyed.wire_type ≢ wires.EndGroup }
    requires known { KnownAt (rows_of tables.now) region.inside keyed.number.value known }
    ensures ok { IfOk result
        (λ rest. TakesPayload (schema_of tables.now) (place_at (rows_of tables.now) region.entry keyed.entry.from.now)
        keyed.entry.number.value keyed.entry.wire_type keyed.entry.behind.now rest.now) }
    ensures kept { OnOk result (path.new.items ≡ []) }
    ensures fault { IfErr result
        (λ found. StandsAt (schema_of tables.now) (place_at (rows_of tables.now) region.entry keyed.entry.from.now)
        found.error found.offset path.new.items) }
{
    match known {
        Known::One(row) => search_value(tables, path, region, keyed, row),
        Known::List(row) => {
            if is_packed(row.kind, keyed.wire_type) {
                return Ok(skip_packed(row.kind, keyed.behind)?);
            }
            search_value(tables, path, region, keyed, row)
        }
        Known::Map(key, value) => search_entry(tables, path, region, keyed, key, value),
    }
}

/// Gives what follows a value of the type of a row.
#[cycle(searching)]
fn search_value<'a>(
    tables: &Tables,
    path: &mut ArrayVec<u32, PATH_LIMIT>,
    region: Region<'_>,
    keyed: Keyed<'a>,
    row: &FieldTable,
) -> Result<&'a [u8], Found>
    requires levels { region.levels ≤ LEVEL_LIMIT }
    requires path { path.old.items ≡ [] }
    requires key { KeyFront keyed.number.value keyed.wire_type keyed.from.now keyed.behind.now }
    requires other { keyed.wire_type ≢ wires.EndGroup }
    requires field { KindField (schema_of tables.now) (place_at (rows_of tables.now) region keyed.from.now)
        keyed.number.value keyed.wire_type (type_of_row (rows_of tables.now) row.now).kind }
    requires there { MessageThere (rows_of tables.now) (type_of_row (rows_of tables.now) row.now) }
    ensures ok { IfOk result
        (λ rest. TakesPayload (schema_of tables.now) (place_at (rows_of tables.now) region.entry keyed.entry.from.now)
        keyed.entry.number.value keyed.entry.wire_type keyed.entry.behind.now rest.now) }
    ensures kept { OnOk result (path.new.items ≡ []) }
    ensures fault { IfErr result
        (λ found. StandsAt (schema_of tables.now) (place_at (rows_of tables.now) region.entry keyed.entry.from.now)
        found.error found.offset path.new.items) }
{
    match row.kind {
        TableKind::Message(place) => {
            if !row.is_group {
                return search_message(tables, path, region, keyed, place);
            }
            if keyed.wire_type != WireType::StartGroup {
                return Err(Found::from(DecodeError::WireType));
            }
            search_group(tables, path, region, Inside::Message(place), keyed)
        }
        kind => Ok(skip_scalar(kind, keyed.wire_type, keyed.behind)?),
    }
}

/// Gives what follows a group.
#[cycle(searching)]
fn search_group<'a>(
    tables: &Tables,
    path: &mut ArrayVec<u32, PATH_LIMIT>,
    region: Region<'_>,
    inside: Inside<'_>,
    keyed: Keyed<'a>,
) -> Result<&'a [u8], Found>
    requires levels { region.levels ≤ LEVEL_LIMIT }
    requires path { path.old.items ≡ [] }
    requires key { KeyFront keyed.number.value keyed.wire_type keyed.from.now keyed.behind.now }
    requires start { keyed.wire_type ≡ wires.StartGroup }
    requires group { GroupInside (schema_of tables.now) (place_at (rows_of tables.now) region keyed.from.now)
        keyed.number.value (among (rows_of tables.now) inside) }
    requires there { InsideThere (rows_of tables.now) inside }
    ensures ok { IfOk result
        (λ rest. TakesPayload (schema_of tables.now) (place_at (rows_of tables.now) region.entry keyed.entry.from.now)
        keyed.entry.number.value keyed.entry.wire_type keyed.entry.behind.now rest.now) }
    ensures kept { OnOk result (path.new.items ≡ []) }
    ensures fault { IfErr result
        (λ found. StandsAt (schema_of tables.now) (place_at (rows_of tables.now) region.entry keyed.entry.from.now)
        found.error found.offset path.new.items) }
{
    if region.levels == 0 {
        return Err(Found::from(DecodeError::Depth));
    }
    let group = Region {
        inside,
        levels: region.levels - 1,
        open_group: Some(keyed.number.get()),
    };
    let before = keyed.from.len() - keyed.behind.len();
    match search_inside(tables, path, group, keyed.number, before, keyed.behind) {
        Ok(rest) => Ok(rest),
        Err(found) => Err(found),
    }
}

/// Gives what follows a message of the type at a place.
#[cycle(searching)]
fn search_message<'a>(
    tables: &Tables,
    path: &mut ArrayVec<u32, PATH_LIMIT>,
    region: Region<'_>,
    keyed: Keyed<'a>,
    place: usize,
) -> Result<&'a [u8], Found>
    requires levels { region.levels ≤ LEVEL_LIMIT }
    requires path { path.old.items ≡ [] }
    requires key { KeyFront keyed.number.value keyed.wire_type keyed.from.now keyed.behind.now }
    requires other { keyed.wire_type ≢ wires.EndGroup }
    requires field { KindField (schema_of tables.now) (place_at (rows_of tables.now) region keyed.from.now)
        keyed.number.value keyed.wire_type (MessageOf place) }
    requires there { place < length (rows_of tables.now).messages }
    ensures ok { IfOk result
        (λ rest. TakesPayload (schema_of tables.now) (place_at (rows_of tables.now) region.entry keyed.entry.from.now)
        keyed.entry.number.value keyed.entry.wire_type keyed.entry.behind.now rest.now) }
    ensures kept { OnOk result (path.new.items ≡ []) }
    ensures fault { IfErr result
        (λ found. StandsAt (schema_of tables.now) (place_at (rows_of tables.now) region.entry keyed.entry.from.now)
        found.error found.offset path.new.items) }
{
    if keyed.wire_type != WireType::LengthDelimited {
        return Err(Found::from(DecodeError::WireType));
    }
    if region.levels == 0 {
        return Err(Found::from(DecodeError::Depth));
    }
    let (body, rest) = decode_delimited(keyed.behind)?;
    let message = Region {
        inside: Inside::Message(place),
        levels: region.levels - 1,
        open_group: None,
    };
    let before = keyed.from.len() - (body.len() + rest.len());
    match search_inside(tables, path, message, keyed.number, before, body) {
        Ok(_) => Ok(rest),
        Err(found) => Err(found),
    }
}

/// Gives what follows the entry of a map whose keys and values are of the types of these rows.
#[cycle(searching)]
fn search_entry<'a>(
    tables: &Tables,
    path: &mut ArrayVec<u32, PATH_LIMIT>,
    region: Region<'_>,
    keyed: Keyed<'a>,
    key: &FieldTable,
    value: &FieldTable,
) -> Result<&'a [u8], Found>
    requires levels { region.levels ≤ LEVEL_LIMIT }
    requires path { path.old.items ≡ [] }
    requires key { KeyFront keyed.number.value keyed.wire_type keyed.from.now keyed.behind.now }
    requires other { keyed.wire_type ≢ wires.EndGroup }
    requires field { MapField (schema_of tables.now) (place_at (rows_of tables.now) region keyed.from.now)
        keyed.number.value (type_of_row (rows_of tables.now) key.now) (type_of_row (rows_of tables.now) value.now) }
    requires there { MessageThere (rows_of tables.now) (type_of_row (rows_of tables.now) key.now)
        × MessageThere (rows_of tables.now) (type_of_row (rows_of tables.now) value.now) }
    ensures ok { IfOk result
        (λ rest. TakesPayload (schema_of tables.now) (place_at (rows_of tables.now) region.entry keyed.entry.from.now)
        keyed.entry.number.value keyed.entry.wire_type keyed.entry.behind.now rest.now) }
    ensures kept { OnOk result (path.new.items ≡ []) }
    ensures fault { IfErr result
        (λ found. StandsAt (schema_of tables.now) (place_at (rows_of tables.now) region.entry keyed.entry.from.now)
        found.error found.offset path.new.items) }
{
    if keyed.wire_type != WireType::LengthDelimited {
        return Err(Found::from(DecodeError::WireType));
    }
    let (body, rest) = decode_delimited(keyed.behind)?;
    if !has_level(region.levels, value) {
        return Err(Found::from(DecodeError::Depth));
    }
    let entry = Region {
        inside: Inside::Entry(key, value),
        levels: region.levels,
        open_group: None,
    };
    let before = keyed.from.len() - (body.len() + rest.len());
    match search_inside(tables, path, entry, keyed.number, before, body) {
        Ok(_) => Ok(rest),
        Err(found) => Err(found),
    }
}

/// Searches a body inside of the field of a number, whose bytes begin so many bytes behind the beginning of its record.
#[cycle(searching)]
fn search_inside<'a>(
    tables: &Tables,
    path: &mut ArrayVec<u32, PATH_LIMIT>,
    region: Region<'_>,
    number: FieldNumber,
    before: usize,
    bytes: &'a [u8],
) -> Result<&'a [u8], Found>
    requires levels { region.levels ≤ LEVEL_LIMIT }
    requires inside { InsideThere (rows_of tables.now) region.inside }
    requires short { 2 * region.levels + rank (among (rows_of tables.now) region.inside) < 201 }
    requires path { path.old.items ≡ [] }
    requires before { before + length bytes.now < 2 ^ 64 }
    ensures ok { IfOk result (λ rest. TakesBody (schema_of tables.now) (place_at (rows_of tables.now) region.entry bytes.now) rest.now) }
    ensures kept { OnOk result (path.new.items ≡ []) }
    ensures fault { IfErr result
        (λ found. StandsInside (schema_of tables.now) (place_at (rows_of tables.now) region.entry bytes.now)
        number.value before found.error found.offset path.new.items) }
{
    match search_body(tables, path, region, bytes) {
        Ok(rest) => Ok(rest),
        Err(found) => {
            path.insert(0, number.get());
            Err(Found {
                error: found.error,
                offset: before + found.offset,
            })
        }
    }
}
