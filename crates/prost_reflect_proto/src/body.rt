//! Reading the body of each descriptor record, by its row of the table.

ghost use Rattle.std.specs.Prelude.{◌≡◌, ◌≢◌, ℕ, List, [], Some, map, IfOk, IfErr};
ghost use Rattle.prost_reflect_wire.specs.Fault.{StandsInMessage};
ghost use Rattle.prost_reflect_types.specs.DescriptorTable.{type_place, record_schema};
ghost use Rattle.prost_reflect_types.specs.DescriptorMeaning.{record_decoded};
ghost use Rattle.prost_reflect_types.specs.DescriptorViews.{of_message};
ghost use Rattle.prost_reflect_proto.specs.DescriptorReading.{Fields, all_found, nested_decoded, records_at, at_number, record_in, StandsInNested, StandsAmong};
ghost use Rattle.prost_reflect_types.specs.declared.table.RecordType.TheVariants as types;

use crate::fields::{RawField, fields_in};
use crate::proto::OwnedProto;
use crate::values::{bodies, bytes, flag, number, numbers, text, texts};
use prost_reflect_types::{
    DescriptorProto, EnumDescriptorProto, EnumReservedRange, EnumValueDescriptorProto,
    ExtensionRange, FieldDescriptorProto, FileDescriptorProto, FileDescriptorSet,
    MethodDescriptorProto, OneofDescriptorProto, RecordType, ReservedRange, ServiceDescriptorProto,
};
use prost_reflect_wire::DecodeError;
use std::alloc::Global;

/// Reads a nested record, which takes a level.
fn nested<P: OwnedProto>(alloc: Global, body: &[u8], levels: u32) -> Result<P, DecodeError>
    ensures ok { IfOk result (λ own. nested_decoded levels P.record_type body.now ≡ Some (P.content own)) }
    ensures fault { IfErr result (λ e. e ≢ DecodeError.OutOfMemory → StandsInNested levels P.record_type e body.now) }
{
    if levels == 0 {
        return Err(DecodeError::Depth);
    }
    P::from_body(alloc, body, levels - 1)
}

/// Reads the nested records of the number.
fn records<P: OwnedProto>(
    alloc: Global,
    fields: &[RawField<'_>],
    number: u32,
    levels: u32,
) -> Result<Vec<P>, DecodeError>
    ensures ok { IfOk result (λ found. records_at levels P.record_type number (all_found fields.now) ≡ Some (map P.content found.items)) }
    ensures fault { IfErr result
        (λ e. e ≢ DecodeError.OutOfMemory
        → StandsAmong levels P.record_type e (at_number record_in number (all_found fields.now))) }
{
    let bodies = bodies(alloc, fields, number)?;
    let bodies = bodies.as_slice();
    let mut records = Vec::with_capacity(alloc, bodies.len())?;
    for body in bodies {
        records.push(nested(alloc, body, levels)?)?;
    }
    Ok(records)
}

impl OwnedProto for ExtensionRange {
    fn from_body(alloc: Global, body: &[u8], levels: u32) -> Result<ExtensionRange, DecodeError> {
        let fields = fields_in(alloc, RecordType::ExtensionRange, body, levels)?;
        let fields = fields.as_slice();
        Ok(ExtensionRange {
            start: number(fields, 1),
            end: number(fields, 2),
            options: bytes(alloc, fields, 3)?,
        })
    }
}

impl OwnedProto for ReservedRange {
    fn from_body(alloc: Global, body: &[u8], levels: u32) -> Result<ReservedRange, DecodeError> {
        let fields = fields_in(alloc, RecordType::ReservedRange, body, levels)?;
        let fields = fields.as_slice();
        Ok(ReservedRange {
            start: number(fields, 1),
            end: number(fields, 2),
        })
    }
}

impl OwnedProto for FieldDescriptorProto {
    fn from_body(
        alloc: Global,
        body: &[u8],
        levels: u32,
    ) -> Result<FieldDescriptorProto, DecodeError> {
        let fields = fields_in(alloc, RecordType::Field, body, levels)?;
        let fields = fields.as_slice();
        Ok(FieldDescriptorProto {
            name: text(alloc, fields, 1)?,
            extendee: text(alloc, fields, 2)?,
            number: number(fields, 3),
            label: number(fields, 4),
            type_: number(fields, 5),
            type_name: text(alloc, fields, 6)?,
            default_value: text(alloc, fields, 7)?,
            options: bytes(alloc, fields, 8)?,
            oneof_index: number(fields, 9),
            json_name: text(alloc, fields, 10)?,
            proto3_optional: flag(fields, 17),
        })
    }
}

impl OwnedProto for OneofDescriptorProto {
    fn from_body(
        alloc: Global,
        body: &[u8],
        levels: u32,
    ) -> Result<OneofDescriptorProto, DecodeError> {
        let fields = fields_in(alloc, RecordType::Oneof, body, levels)?;
        let fields = fields.as_slice();
        Ok(OneofDescriptorProto {
            name: text(alloc, fields, 1)?,
            options: bytes(alloc, fields, 2)?,
        })
    }
}

impl OwnedProto for EnumReservedRange {
    fn from_body(
        alloc: Global,
        body: &[u8],
        levels: u32,
    ) -> Result<EnumReservedRange, DecodeError> {
        let fields = fields_in(alloc, RecordType::EnumReservedRange, body, levels)?;
        let fields = fields.as_slice();
        Ok(EnumReservedRange {
            start: number(fields, 1),
            end: number(fields, 2),
        })
    }
}

impl OwnedProto for EnumValueDescriptorProto {
    fn from_body(
        alloc: Global,
        body: &[u8],
        levels: u32,
    ) -> Result<EnumValueDescriptorProto, DecodeError> {
        let fields = fields_in(alloc, RecordType::EnumValue, body, levels)?;
        let fields = fields.as_slice();
        Ok(EnumValueDescriptorProto {
            name: text(alloc, fields, 1)?,
            number: number(fields, 2),
            options: bytes(alloc, fields, 3)?,
        })
    }
}

impl OwnedProto for EnumDescriptorProto {
    fn from_body(
        alloc: Global,
        body: &[u8],
        levels: u32,
    ) -> Result<EnumDescriptorProto, DecodeError> {
        let fields = fields_in(alloc, RecordType::Enum, body, levels)?;
        let fields = fields.as_slice();
        Ok(EnumDescriptorProto {
            name: text(alloc, fields, 1)?,
            value: records(alloc, fields, 2, levels)?,
            options: bytes(alloc, fields, 3)?,
            reserved_range: records(alloc, fields, 4, levels)?,
            reserved_name: texts(alloc, fields, 5)?,
        })
    }
}

impl OwnedProto for MethodDescriptorProto {
    fn from_body(
        alloc: Global,
        body: &[u8],
        levels: u32,
    ) -> Result<MethodDescriptorProto, DecodeError> {
        let fields = fields_in(alloc, RecordType::Method, body, levels)?;
        let fields = fields.as_slice();
        Ok(MethodDescriptorProto {
            name: text(alloc, fields, 1)?,
            input_type: text(alloc, fields, 2)?,
            output_type: text(alloc, fields, 3)?,
            options: bytes(alloc, fields, 4)?,
            client_streaming: flag(fields, 5),
            server_streaming: flag(fields, 6),
        })
    }
}

impl OwnedProto for ServiceDescriptorProto {
    fn from_body(
        alloc: Global,
        body: &[u8],
        levels: u32,
    ) -> Result<ServiceDescriptorProto, DecodeError> {
        let fields = fields_in(alloc, RecordType::Service, body, levels)?;
        let fields = fields.as_slice();
        Ok(ServiceDescriptorProto {
            name: text(alloc, fields, 1)?,
            method: records(alloc, fields, 2, levels)?,
            options: bytes(alloc, fields, 3)?,
        })
    }
}

/// Reads a message's record from the bytes of its body.
#[cycle(reading)]
fn message(alloc: Global, body: &[u8], levels: u32) -> Result<DescriptorProto, DecodeError>
    ensures ok { IfOk result (λ own. record_decoded levels types.Message body.now ≡ Some (of_message own)) }
    ensures fault { IfErr result
        (λ e. e ≢ DecodeError.OutOfMemory
        → StandsInMessage record_schema (type_place types.Message) levels e body.now) }
{
    let fields = fields_in(alloc, RecordType::Message, body, levels)?;
    let fields = fields.as_slice();
    let nested_type = messages(alloc, fields, 3, levels)?;
    message_of(alloc, fields, nested_type, levels)
}

/// Makes a message's record of the values that were found in its body, and of its nested messages.
fn message_of(
    alloc: Global,
    fields: &[RawField<'_>],
    nested_type: Vec<DescriptorProto>,
    levels: u32,
) -> Result<DescriptorProto, DecodeError>
    requires { records_at levels types.Message 3 (all_found fields.now) ≡ Some (map of_message nested_type.items) }
    ensures ok { IfOk result
        (λ own. (body : List ℕ) → Fields levels types.Message (all_found fields.now) body []
        → record_decoded levels types.Message body ≡ Some (of_message own)) }
    ensures fault { IfErr result
        (λ e. e ≢ DecodeError.OutOfMemory → (body : List ℕ) → Fields levels types.Message (all_found fields.now) body []
        → StandsInMessage record_schema (type_place types.Message) levels e body) }
{
    Ok(DescriptorProto {
        name: text(alloc, fields, 1)?,
        field: records(alloc, fields, 2, levels)?,
        nested_type,
        enum_type: records(alloc, fields, 4, levels)?,
        extension_range: records(alloc, fields, 5, levels)?,
        extension: records(alloc, fields, 6, levels)?,
        options: bytes(alloc, fields, 7)?,
        oneof_decl: records(alloc, fields, 8, levels)?,
        reserved_range: records(alloc, fields, 9, levels)?,
        reserved_name: texts(alloc, fields, 10)?,
    })
}

/// Reads a nested message's record, which takes a level.
#[cycle(reading)]
fn nested_message(alloc: Global, body: &[u8], levels: u32) -> Result<DescriptorProto, DecodeError>
    ensures ok { IfOk result (λ own. nested_decoded levels types.Message body.now ≡ Some (of_message own)) }
    ensures fault { IfErr result (λ e. e ≢ DecodeError.OutOfMemory → StandsInNested levels types.Message e body.now) }
{
    if levels == 0 {
        return Err(DecodeError::Depth);
    }
    message(alloc, body, levels - 1)
}

/// Reads the nested messages' records of the number.
#[cycle(reading)]
fn messages(
    alloc: Global,
    fields: &[RawField<'_>],
    number: u32,
    levels: u32,
) -> Result<Vec<DescriptorProto>, DecodeError>
    ensures ok { IfOk result (λ found. records_at levels types.Message number (all_found fields.now) ≡ Some (map of_message found.items)) }
    ensures fault { IfErr result
        (λ e. e ≢ DecodeError.OutOfMemory
        → StandsAmong levels types.Message e (at_number record_in number (all_found fields.now))) }
{
    let bodies = bodies(alloc, fields, number)?;
    let bodies = bodies.as_slice();
    let mut records = Vec::with_capacity(alloc, bodies.len())?;
    for body in bodies {
        records.push(nested_message(alloc, body, levels)?)?;
    }
    Ok(records)
}

impl OwnedProto for DescriptorProto {
    fn from_body(alloc: Global, body: &[u8], levels: u32) -> Result<DescriptorProto, DecodeError> {
        message(alloc, body, levels)
    }
}

impl OwnedProto for FileDescriptorProto {
    fn from_body(
        alloc: Global,
        body: &[u8],
        levels: u32,
    ) -> Result<FileDescriptorProto, DecodeError> {
        let fields = fields_in(alloc, RecordType::File, body, levels)?;
        let fields = fields.as_slice();
        Ok(FileDescriptorProto {
            name: text(alloc, fields, 1)?,
            package: text(alloc, fields, 2)?,
            dependency: texts(alloc, fields, 3)?,
            message_type: records(alloc, fields, 4, levels)?,
            enum_type: records(alloc, fields, 5, levels)?,
            service: records(alloc, fields, 6, levels)?,
            extension: records(alloc, fields, 7, levels)?,
            options: bytes(alloc, fields, 8)?,
            source_code_info: bytes(alloc, fields, 9)?,
            public_dependency: numbers(alloc, fields, 10)?,
            weak_dependency: numbers(alloc, fields, 11)?,
            syntax: text(alloc, fields, 12)?,
        })
    }
}

impl OwnedProto for FileDescriptorSet {
    fn from_body(
        alloc: Global,
        body: &[u8],
        levels: u32,
    ) -> Result<FileDescriptorSet, DecodeError> {
        let fields = fields_in(alloc, RecordType::FileSet, body, levels)?;
        let fields = fields.as_slice();
        Ok(FileDescriptorSet {
            file: records(alloc, fields, 1, levels)?,
        })
    }
}
