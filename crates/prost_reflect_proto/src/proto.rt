//! What the structs of a descriptor set have in common: `Proto`, with the calls that read, write and measure them, and the two
//! traits below it.

ghost use Rattle.std.specs.Prelude.{◌≡◌, ◌≢◌, ◌≤◌, ◌<◌, ◌^◌, ◌++◌, length, Some, OnOk, OnErr, IfOk, IfErr};
ghost use Rattle.std.specs.Option.{SomeIff};
ghost use Rattle.prost_reflect_wire.specs.Fault.{StandsInMessage};
ghost use Rattle.prost_reflect_wire.specs.Grammar.{LEVEL_LIMIT, Accepts};
ghost use Rattle.prost_reflect_wire.specs.Levels.{levels};
ghost use Rattle.prost_reflect_wire.specs.Sinks.{Adds};
ghost use Rattle.prost_reflect_wire.specs.Writing.{encoded};
ghost use Rattle.prost_reflect_types.specs.DescriptorMeaning.{record_decoded};
ghost use Rattle.prost_reflect_proto.specs.DescriptorSound.{RecordSound};
ghost use Rattle.prost_reflect_types.specs.DescriptorTable.{type_place, record_schema};
ghost use Rattle.prost_reflect_types.specs.declared.table.RecordType.{RecordType};

use crate::encoding::append;
use prost_reflect_types::{HasContent, OwnedRecord};
use prost_reflect_wire::{DecodeError, EncodeError, LengthSink, RECURSION_LIMIT, Sink};
use std::alloc::Global;

/// A proto that is written field by field.
pub trait WriteProto: HasContent {
    ghost record_type: { RecordType };

    /// Writes the fields, the one of the greatest number first.
    fn write<S: Sink>(&self, sink: &mut S)
        ensures added { Adds S.added sink.old sink.new (encoded (Self.content self.now)) }
        ensures sound { RecordSound Self.record_type (Self.content self.now) };
}

/// A proto that owns what it holds, and is read by its row of the table.
pub trait OwnedProto: WriteProto + OwnedRecord + Sized {
    /// Reads the proto from the bytes of its body, with so many levels left below it.
    fn from_body(alloc: Global, body: &[u8], levels: u32) -> Result<Self, DecodeError>
        ensures ok { IfOk result (λ own. record_decoded levels Self.record_type body.now ≡ Some (Self.content own)) }
        ensures fault { IfErr result
            (λ e. e ≢ DecodeError.OutOfMemory
            → StandsInMessage record_schema (type_place Self.record_type) levels e body.now) };
}

/// A struct of a descriptor set: it is read from bytes, written to them and measured, as a `prost::Message` is.
///
/// Its calls are there where the trait is imported. It belongs to these twelve structs, and no other type can have it:
/// `FileDescriptorSet`, `FileDescriptorProto`, `DescriptorProto`, `ExtensionRange`, `ReservedRange`,
/// `FieldDescriptorProto`, `OneofDescriptorProto`, `EnumDescriptorProto`, `EnumReservedRange`, `EnumValueDescriptorProto`,
/// `ServiceDescriptorProto` and `MethodDescriptorProto`.
///
/// What one of them holds, its contracts call its `content`: for `FileDescriptorProto`, say, that is `of_file`, and its
/// `record_type`, the row of the table of `descriptor.proto` that its bytes are read by, is `File`.
///
/// ```
/// use prost_reflect::{DecodeError, FileDescriptorSet, Proto};
/// use std::alloc::Global;
///
/// // How many files the descriptor set has.
/// fn count_files(alloc: Global, bytes: &[u8]) -> Result<usize, DecodeError> {
///     let set = FileDescriptorSet::decode(alloc, bytes)?;
///     Ok(set.file.len())
/// }
/// ```
pub trait Proto: OwnedProto {
    /// Reads the struct from all the bytes, in at most 100 levels of nested messages and unknown groups.
    ///
    /// Of a text, a number or a flag that is given twice the last one counts; the messages and texts of a list, and the
    /// pieces of raw bytes, join; packed numbers are read as single ones are; fields that the struct does not have are
    /// dropped (the encoding guide, "Last One Wins", "Packed Repeated Fields" and "Submessages"). Bytes that are accepted
    /// are refused only if memory runs out.
    ///
    /// # Errors
    ///
    /// A fault that the bytes have (`Truncated`, `Varint`, `Key`, `WireType`, `EndGroup`, `Utf8` or `Depth`), and only if
    /// they are no such struct; `OutOfMemory` if memory runs out.
    final fn decode(alloc: Global, bytes: &[u8]) -> Result<Self, DecodeError>
        ensures means { IfOk result (λ own. record_decoded LEVEL_LIMIT Self.record_type bytes.now ≡ Some (Self.content own)) }
        ensures accepts { IfOk result (λ _. Accepts record_schema LEVEL_LIMIT (type_place Self.record_type) bytes.now) }
        ensures fault { IfErr result
            (λ e. e ≢ DecodeError.OutOfMemory
            → StandsInMessage record_schema (type_place Self.record_type) LEVEL_LIMIT e bytes.now) }
        ensures accepted { IfErr result
            (λ e. Accepts record_schema LEVEL_LIMIT (type_place Self.record_type) bytes.now
            → e ≡ DecodeError.OutOfMemory) }
    {
        Self::from_body(alloc, bytes, RECURSION_LIMIT)
    }

    /// Appends the encoding of the struct: fields in ascending number, those alone that are there, lists not packed (the
    /// encoding guide, "Message Structure", "Packed Repeated Fields" and "Submessages").
    ///
    /// Where the struct nests at most 100 levels, the bytes are read as the same struct.
    ///
    /// # Errors
    ///
    /// `TooLong` if the encoding passes the greatest `usize`, `OutOfMemory` if memory runs out; the output stays as it was.
    final fn encode(&self, out: &mut Vec<u8>) -> Result<(), EncodeError>
        ensures ok { OnOk result (out.new.items ≡ out.old.items ++ encoded (Self.content self.now)) }
        ensures err { OnErr result (out.new.items ≡ out.old.items) }
        ensures too_long { IfErr result (λ e. e ≡ EncodeError.TooLong → 2 ^ 64 ≤ length (encoded (Self.content self.now))) }
        ensures reads { OnOk result
            (levels (Self.content self.now) ≤ LEVEL_LIMIT
            → record_decoded LEVEL_LIMIT Self.record_type (encoded (Self.content self.now))
            ≡ Some (Self.content self.now)) }
    {
        append(self, out)
    }

    /// How many bytes `encode` appends; `None` if they are more than a `usize` counts. No memory is taken.
    final fn encoded_len(&self) -> Option<usize>
        ensures { let n = length (encoded (Self.content self.now)) in SomeIff result (n < 2 ^ 64) n }
    {
        let mut sink = LengthSink::new();
        self.write(&mut sink);
        sink.total()
    }
}

impl<P: OwnedProto> Proto for P {}
