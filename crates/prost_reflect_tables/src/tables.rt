//! Message types, fields and enums as plain data.
//!
//! A type is named by its place in the list of its sort, so that types may name one another in any order.

ghost use Rattle.std.specs.Prelude.{IsTrue};
ghost use Rattle.prost_reflect_tables.specs.Rows.{rows_from};
ghost use Rattle.prost_reflect_tables.specs.Linked.{is_linked};

use crate::definition_names::DefinitionNames;
use prost_reflect_shared::shared_list::SharedList;
use smallvec::SmallVec;
use std::alloc::AllocError;
use std::fmt;

/// How many values a field has, as its label says (the proto2 guide, "Field Labels"). Its text is that label, as `optional`.
#[derive(Clone, Copy, PartialEq, Eq, Debug)]
pub enum Cardinality {
    /// At most one value.
    Optional,
    /// One value.
    Required,
    /// A list of values, or a map.
    Repeated,
}

impl Cardinality {
    ghost use Rattle.std.specs.Prelude.{◌≡◌};
    ghost use Rattle.prost_reflect_tables.specs.Linking.{is_repeated};
    ghost use Rattle.prost_reflect_tables.specs.Shown.{is_required};

    /// Whether the field has a list of values, or a map.
    pub fn is_repeated(self) -> bool
        ensures { result ≡ is_repeated self }
    {
        matches!(self, Cardinality::Repeated)
    }

    /// Whether the field has one value, which its writers have to set.
    pub fn is_required(self) -> bool
        ensures { result ≡ is_required self }
    {
        matches!(self, Cardinality::Required)
    }
}

impl fmt::Display for Cardinality {
    ghost use Rattle.std.specs.Prelude.{Some};
    ghost use Rattle.std.specs.Fmt.{padded};
    ghost use Rattle.prost_reflect_tables.specs.Labels.{label_of};

    ghost output = { λ cardinality. Some (label_of cardinality) };

    ghost styled_output = { λ cardinality spec. Some (padded spec (label_of cardinality)) };

    fn fmt<W: fmt::Write>(&self, f: &mut fmt::Formatter<W>) -> fmt::Result {
        f.pad(match self {
            Cardinality::Optional => "optional",
            Cardinality::Required => "required",
            Cardinality::Repeated => "repeated",
        })
    }
}

/// The type of a field's values (the language guide, "Scalar Value Types"). Messages and enums are named by their places.
#[derive(Clone, Copy, PartialEq, Eq, Debug)]
pub enum TableKind {
    /// 64 bits of a floating-point number.
    Double,
    /// 32 bits of a floating-point number.
    Float,
    /// 32 bits with a sign, as a varint.
    Int32,
    /// 64 bits with a sign, as a varint.
    Int64,
    /// 32 bits, as a varint.
    Uint32,
    /// 64 bits, as a varint.
    Uint64,
    /// 32 bits with a sign, as a zigzag varint.
    Sint32,
    /// 64 bits with a sign, as a zigzag varint.
    Sint64,
    /// 32 bits, in four bytes.
    Fixed32,
    /// 64 bits, in eight bytes.
    Fixed64,
    /// 32 bits with a sign, in four bytes.
    Sfixed32,
    /// 64 bits with a sign, in eight bytes.
    Sfixed64,
    /// True or false.
    Bool,
    /// UTF-8 text.
    String,
    /// Any bytes.
    Bytes,
    /// The message type of this place in the tables' list.
    Message(usize),
    /// The enum of this place in the tables' list.
    Enum(usize),
}

/// A default that a field's definition writes (the proto2 guide, "Default Field Values"). Floating-point numbers are bits.
#[derive(PartialEq, Eq, Debug, Drop)]
pub enum WrittenDefault {
    /// Of a bool field.
    Bool(bool),
    /// Of an int32, sint32 or sfixed32 field.
    I32(i32),
    /// Of an int64, sint64 or sfixed64 field.
    I64(i64),
    /// Of a uint32 or fixed32 field.
    U32(u32),
    /// Of a uint64 or fixed64 field.
    U64(u64),
    /// Of a float field.
    F32(u32),
    /// Of a double field.
    F64(u64),
    /// Of a string field.
    String(String),
    /// Of a bytes field.
    Bytes(Vec<u8>),
    /// Of an enum field.
    EnumNumber(i32),
}

impl Clone for WrittenDefault {
    ghost use Rattle.std.specs.Prelude.{◌≡◌};
    ghost use Rattle.prost_reflect_tables.specs.Rows.{written_scalar};

    ghost is_clone = { λ default copied. written_scalar copied ≡ written_scalar default };

    fn clone(&self) -> Result<WrittenDefault, AllocError> {
        match self {
            WrittenDefault::Bool(value) => Ok(WrittenDefault::Bool(*value)),
            WrittenDefault::I32(value) => Ok(WrittenDefault::I32(*value)),
            WrittenDefault::I64(value) => Ok(WrittenDefault::I64(*value)),
            WrittenDefault::U32(value) => Ok(WrittenDefault::U32(*value)),
            WrittenDefault::U64(value) => Ok(WrittenDefault::U64(*value)),
            WrittenDefault::F32(bits) => Ok(WrittenDefault::F32(*bits)),
            WrittenDefault::F64(bits) => Ok(WrittenDefault::F64(*bits)),
            WrittenDefault::String(text) => Ok(WrittenDefault::String(text.clone()?)),
            WrittenDefault::Bytes(bytes) => Ok(WrittenDefault::Bytes(bytes.clone()?)),
            WrittenDefault::EnumNumber(number) => Ok(WrittenDefault::EnumNumber(*number)),
        }
    }
}

/// Where a definition stands, and how it is named.
pub struct Identity {
    /// The place of its file in the list of files.
    pub file: usize,
    /// The place of the message type around it, or none at the top of a file.
    pub parent: Option<usize>,
    /// The path in its file, as in `SourceCodeInfo.Location.path`. Up to four numbers, as of a field of a message at the top of its
    /// file, take no memory of their own.
    pub path: SmallVec<i32, 4>,
    /// The full name, which is the package, the enclosing definitions and the name, joined by dots; and the own name, without its
    /// scope.
    pub names: DefinitionNames,
}

impl Drop for Identity {
    fn drop(self) {
        let Identity {
            file: _,
            parent: _,
            path: _,
            names: _,
        } = self;
    }
}

/// A field or an extension of a message type.
pub struct FieldTable {
    /// Where the field stands. The message type around an extension is the one in which it is declared, if it is declared in one.
    pub id: Identity,
    /// The name in JSON, if it is not the own name: of an extension the full name in brackets, of another field the name that its
    /// record gives, or else its own name.
    pub json_name: Option<Box<String>>,
    /// The field number, from 1 to 536870911.
    pub number: u32,
    /// Whether the field is declared outside its message type, by `extend`.
    pub is_extension: bool,
    /// The type of one value.
    pub kind: TableKind,
    /// Whether a message value is written as a group.
    pub is_group: bool,
    /// The label.
    pub cardinality: Cardinality,
    /// Whether a list is written as one record.
    pub is_packed: bool,
    /// Whether a field that was never set is told apart from one that is set to its default (the guide on field presence).
    pub supports_presence: bool,
    /// The default that the definition writes, if it writes one. It stands apart from the row, since most fields have none.
    pub default: Option<Box<WrittenDefault>>,
    /// The oneof that the field is a member of, as a place in its message type's list.
    pub oneof: Option<usize>,
}

impl Drop for FieldTable {
    fn drop(self) {
        let FieldTable {
            id: _,
            json_name: _,
            number: _,
            is_extension: _,
            kind: _,
            is_group: _,
            cardinality: _,
            is_packed: _,
            supports_presence: _,
            default: _,
            oneof: _,
        } = self;
    }
}

/// A oneof of a message type.
pub struct OneofTable {
    /// Where the oneof stands.
    pub id: Identity,
    /// The members in the order of their declaration, as places in the message type's list of fields.
    pub fields: Vec<usize>,
}

impl Drop for OneofTable {
    fn drop(self) {
        let OneofTable { id: _, fields: _ } = self;
    }
}

/// A message type.
pub struct MessageTable {
    /// Where the message type stands.
    pub id: Identity,
    /// Whether the type is that of a map's entries.
    pub is_map_entry: bool,
    /// The fields and extensions, in ascending order of their numbers.
    pub fields: Vec<FieldTable>,
    /// The oneofs, in the order of their declaration.
    pub oneofs: Vec<OneofTable>,
}

impl Drop for MessageTable {
    fn drop(self) {
        let MessageTable {
            id: _,
            is_map_entry: _,
            fields: _,
            oneofs: _,
        } = self;
    }
}

/// A value of an enum.
#[derive(Drop)]
pub struct EnumValueTable {
    /// Where the value stands. Its full name stands in the scope around its enum.
    pub id: Identity,
    /// The number, 0 where the definition gives none.
    pub number: i32,
}

/// An enum.
pub struct EnumTable {
    /// Where the enum stands.
    pub id: Identity,
    /// The values in the order of their declaration; the number of the first is the default.
    pub values: Vec<EnumValueTable>,
    /// Whether a number that no value has is kept as an unknown field.
    pub is_closed: bool,
}

impl Drop for EnumTable {
    fn drop(self) {
        let EnumTable {
            id: _,
            values: _,
            is_closed: _,
        } = self;
    }
}

/// The message types and enums of a pool, linked: every place that they name is there.
pub struct Tables {
    /// The message types, nested ones too.
    pub messages: SharedList<MessageTable>,
    /// The enums, nested ones too.
    pub enums: SharedList<EnumTable>,
    pub ghost linked: { IsTrue (is_linked (rows_from messages enums)) },
}

impl Drop for Tables {
    fn drop(self) {
        let Tables {
            messages: _,
            enums: _,
        } = self;
    }
}
