//! The types of fields.

use crate::descriptor::{DescriptorPool, EnumDescriptor, MessageDescriptor};
use crate::message::DynamicMessage;
use crate::value::Value;
use prost_reflect_pool::LinkedPool;
use prost_reflect_rows::kinds::kind_name;
use prost_reflect_tables::{ScalarRef, TableKind};
use prost_reflect_wire::WireType;
use std::alloc::{AllocError, Global};
use std::fmt;

/// The type of a field's values (the language guide, "Scalar Value Types"). A group is a message.
///
/// Its text is the name that the language has for it, as `sfixed64`; that of a message type or an enum is its full name.
///
/// ```
/// // The field's name and the name of its kind, as `age: int32`.
/// fn declared(alloc: Global, field: &FieldDescriptor) -> Result<String, AllocError> {
///     let kind = field.kind()?;
///     format!(in alloc; "{}: {kind}", field.name())
/// }
/// ```
#[derive(PartialEq, Eq, Debug, Drop)]
pub enum Kind {
    /// 64 bits of a floating-point number.
    Double,
    /// 32 bits of a floating-point number.
    Float,
    /// 32 bits with a sign, as a varint.
    Int32,
    /// 64 bits with a sign, as a varint.
    Int64,
    /// 32 bits, as a varint.
    Uint32,
    /// 64 bits, as a varint.
    Uint64,
    /// 32 bits with a sign, as a zigzag varint.
    Sint32,
    /// 64 bits with a sign, as a zigzag varint.
    Sint64,
    /// 32 bits, in four bytes.
    Fixed32,
    /// 64 bits, in eight bytes.
    Fixed64,
    /// 32 bits with a sign, in four bytes.
    Sfixed32,
    /// 64 bits with a sign, in eight bytes.
    Sfixed64,
    /// True or false.
    Bool,
    /// UTF-8 text.
    String,
    /// Any bytes.
    Bytes,
    /// A message, also one that is written as a group.
    Message(MessageDescriptor),
    /// An enum.
    Enum(EnumDescriptor),
}

impl Clone for Kind {
    ghost use Rattle.prost_reflect_dynamic.specs.NamedKinds.{SameKind};

    ghost is_clone = { SameKind };

    fn clone(&self) -> Result<Kind, AllocError> {
        Ok(match self {
            Kind::Double => Kind::Double,
            Kind::Float => Kind::Float,
            Kind::Int32 => Kind::Int32,
            Kind::Int64 => Kind::Int64,
            Kind::Uint32 => Kind::Uint32,
            Kind::Uint64 => Kind::Uint64,
            Kind::Sint32 => Kind::Sint32,
            Kind::Sint64 => Kind::Sint64,
            Kind::Fixed32 => Kind::Fixed32,
            Kind::Fixed64 => Kind::Fixed64,
            Kind::Sfixed32 => Kind::Sfixed32,
            Kind::Sfixed64 => Kind::Sfixed64,
            Kind::Bool => Kind::Bool,
            Kind::String => Kind::String,
            Kind::Bytes => Kind::Bytes,
            Kind::Message(message) => Kind::Message(message.clone()?),
            Kind::Enum(e) => Kind::Enum(e.clone()?),
        })
    }
}

impl fmt::Display for Kind {
    ghost use Rattle.std.specs.Prelude.{Some};
    ghost use Rattle.std.specs.Fmt.{padded};
    ghost use Rattle.prost_reflect_dynamic.specs.KindNames.{name_of};

    ghost output = { λ kind. Some (name_of kind) };

    ghost styled_output = { λ kind spec. Some (padded spec (name_of kind)) };

    fn fmt<W: fmt::Write>(&self, f: &mut fmt::Formatter<W>) -> fmt::Result {
        f.pad(kind_name(self.pool(), self.to_table()))
    }
}

impl Kind {
    ghost use Rattle.std.specs.Prelude.{◌≡◌, true, IsTrue, IfOk, length};
    ghost use Rattle.prost_reflect_tables.specs.Linked.{kind_in_range};
    ghost use Rattle.prost_reflect_pool.specs.SharedPools.{pool_rows};
    ghost use Rattle.prost_reflect_dynamic.specs.NamedKinds.{table_kind, kind_named, pool_of, IsAmong, message_of, enum_of, wire_type_of};
    ghost use Rattle.std.specs.Option.{option_copied};
    ghost use Rattle.prost_reflect_wire.specs.Content.{ScalarValue};
    ghost use Rattle.prost_reflect_wire.specs.Typing.{element_valid, kind_takes};
    ghost use Rattle.prost_reflect_dynamic.specs.Defaults.{IsKindDefault};
    ghost use Rattle.prost_reflect_dynamic.specs.NamedDefaults.{default_named};
    ghost use Rattle.prost_reflect_dynamic.specs.Scalars.{scalar_of, IsScalar};
    ghost use Rattle.prost_reflect_dynamic.specs.View.{value_of};

    /// A kind of the tables, with descriptors for places.
    pub(crate) fn from_table(pool: &DescriptorPool, kind: TableKind) -> Result<Kind, AllocError>
        requires { IsTrue (kind_in_range (length (pool_rows pool.now.inner).messages) (length (pool_rows pool.now.inner).enums) kind) }
        ensures kind { IfOk result (λ shown. table_kind shown ≡ kind) }
        ensures pool { IfOk result (IsAmong pool.now) }
    {
        Ok(match kind {
            TableKind::Double => Kind::Double,
            TableKind::Float => Kind::Float,
            TableKind::Int32 => Kind::Int32,
            TableKind::Int64 => Kind::Int64,
            TableKind::Uint32 => Kind::Uint32,
            TableKind::Uint64 => Kind::Uint64,
            TableKind::Sint32 => Kind::Sint32,
            TableKind::Sint64 => Kind::Sint64,
            TableKind::Fixed32 => Kind::Fixed32,
            TableKind::Fixed64 => Kind::Fixed64,
            TableKind::Sfixed32 => Kind::Sfixed32,
            TableKind::Sfixed64 => Kind::Sfixed64,
            TableKind::Bool => Kind::Bool,
            TableKind::String => Kind::String,
            TableKind::Bytes => Kind::Bytes,
            TableKind::Message(index) => Kind::Message(MessageDescriptor::new(
                pool.clone()?,
                index,
            )),
            TableKind::Enum(index) => Kind::Enum(EnumDescriptor::new(pool.clone()?, index)),
        })
    }

    /// The kind of the tables, with places for descriptors.
    pub(crate) fn to_table(&self) -> TableKind
        ensures { result ≡ table_kind self.now }
    {
        match self {
            Kind::Double => TableKind::Double,
            Kind::Float => TableKind::Float,
            Kind::Int32 => TableKind::Int32,
            Kind::Int64 => TableKind::Int64,
            Kind::Uint32 => TableKind::Uint32,
            Kind::Uint64 => TableKind::Uint64,
            Kind::Sint32 => TableKind::Sint32,
            Kind::Sint64 => TableKind::Sint64,
            Kind::Fixed32 => TableKind::Fixed32,
            Kind::Fixed64 => TableKind::Fixed64,
            Kind::Sfixed32 => TableKind::Sfixed32,
            Kind::Sfixed64 => TableKind::Sfixed64,
            Kind::Bool => TableKind::Bool,
            Kind::String => TableKind::String,
            Kind::Bytes => TableKind::Bytes,
            Kind::Message(message) => TableKind::Message(message.index()),
            Kind::Enum(e) => TableKind::Enum(e.index()),
        }
    }

    /// The pool of the type that the kind names, or none where it names no type.
    pub(crate) fn pool(&self) -> Option<&LinkedPool>
        ensures { option_copied result ≡ pool_of self.now }
    {
        match self {
            Kind::Message(message) => Some(message.parent_pool().linked()),
            Kind::Enum(e) => Some(e.parent_pool().linked()),
            _ => None,
        }
    }

    /// The message type, or none if the kind is no message type.
    ///
    /// ```
    /// // How many fields the messages of the kind have, or none if its values are no messages.
    /// fn count_fields(kind: &Kind) -> Option<usize> {
    ///     let message_type = kind.as_message()?;
    ///     Some(message_type.fields().len())
    /// }
    /// ```
    pub fn as_message(&self) -> Option<&MessageDescriptor>
        ensures { option_copied result ≡ message_of self.now }
    {
        match self {
            Kind::Message(message) => Some(message),
            _ => None,
        }
    }

    /// The enum, or none if the kind is no enum.
    pub fn as_enum(&self) -> Option<&EnumDescriptor>
        ensures { option_copied result ≡ enum_of self.now }
    {
        match self {
            Kind::Enum(e) => Some(e),
            _ => None,
        }
    }

    /// The wire type of a record of one value, not packed (the encoding guide, "Message Structure"). A message's is
    /// `LengthDelimited`, also where its field is written as a group.
    pub fn wire_type(&self) -> WireType
        ensures { result ≡ wire_type_of self.now }
    {
        match self {
            Kind::Double | Kind::Fixed64 | Kind::Sfixed64 => WireType::SixtyFourBit,
            Kind::Float | Kind::Fixed32 | Kind::Sfixed32 => WireType::ThirtyTwoBit,
            Kind::String | Kind::Bytes | Kind::Message(_) => WireType::LengthDelimited,
            _ => WireType::Varint,
        }
    }

    /// The value that a field of the kind has where nothing is stored: zero, false or empty, the first declared number of
    /// an enum, or an empty message.
    ///
    /// So `Kind::Sint32.default_value(alloc)` is `Value::I32(0)`.
    ///
    /// # Errors
    ///
    /// `AllocError` if out of memory.
    pub fn default_value(&self, alloc: Global) -> Result<Value, AllocError>
        ensures value { IfOk result (λ value. value_of value ≡ default_named self.now) }
        ensures default { IfOk result (IsKindDefault self.now) }
        ensures valid { IfOk result (λ value. element_valid (kind_named self.now) (value_of value) ≡ true) }
    {
        match self {
            Kind::Message(message) => {
                Ok(Value::Message(DynamicMessage::new(alloc, message.clone()?)))
            }
            _ => Value::from_scalar(alloc, self.scalar_default()),
        }
    }

    /// The default of a kind that is no message type.
    pub(crate) fn scalar_default(&self) -> ScalarRef<'static>
        requires { IsScalar (default_named self.now) }
        ensures default { ScalarValue (scalar_of result) ≡ default_named self.now }
        ensures valid { kind_takes (kind_named self.now) (scalar_of result) ≡ true }
    {
        match self {
            Kind::Enum(e) => ScalarRef::EnumNumber(e.first_number()),
            _ => ScalarRef::zero(self.to_table()),
        }
    }
}
