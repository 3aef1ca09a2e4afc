//! Writing the descriptor records, field by field.

ghost use Rattle.std.specs.Prelude.{map};
ghost use Rattle.prost_reflect_wire.specs.Writing.{encoded};
ghost use Rattle.prost_reflect_types.specs.DescriptorViews.{of_records, of_message};
ghost use Rattle.prost_reflect_proto.specs.DescriptorSound.{RecordSound, FieldSound};
ghost use Rattle.prost_reflect_proto.specs.DescriptorWriting.{field_bytes};
ghost use Rattle.prost_reflect_wire.specs.Sinks.{Adds};
ghost use Rattle.prost_reflect_types.specs.declared.table.FieldKind.TheVariants as kinds;
ghost use Rattle.prost_reflect_types.specs.declared.table.RecordType.TheVariants as types;

use crate::field_writing::{
    write_bytes, write_flag, write_number, write_numbers, write_records, write_text, write_texts,
};
use crate::proto::WriteProto;
use prost_reflect_types::{
    DescriptorProto, EnumDescriptorProto, EnumReservedRange, EnumValueDescriptorProto,
    ExtensionRange, FieldDescriptorProto, FileDescriptorProto, FileDescriptorSet,
    MethodDescriptorProto, OneofDescriptorProto, ReservedRange, ServiceDescriptorProto,
};
use prost_reflect_wire::{Sink, WireType, write_key};

impl WriteProto for ExtensionRange {
    ghost record_type = { types.ExtensionRange };

    fn write<S: Sink>(&self, sink: &mut S) {
        write_bytes(sink, 3, &self.options);
        write_number(sink, 2, &self.end);
        write_number(sink, 1, &self.start);
    }
}

impl WriteProto for ReservedRange {
    ghost record_type = { types.ReservedRange };

    fn write<S: Sink>(&self, sink: &mut S) {
        write_number(sink, 2, &self.end);
        write_number(sink, 1, &self.start);
    }
}

impl WriteProto for FieldDescriptorProto {
    ghost record_type = { types.Field };

    fn write<S: Sink>(&self, sink: &mut S) {
        write_flag(sink, 17, &self.proto3_optional);
        write_text(sink, 10, &self.json_name);
        write_number(sink, 9, &self.oneof_index);
        write_bytes(sink, 8, &self.options);
        write_text(sink, 7, &self.default_value);
        write_text(sink, 6, &self.type_name);
        write_number(sink, 5, &self.type_);
        write_number(sink, 4, &self.label);
        write_number(sink, 3, &self.number);
        write_text(sink, 2, &self.extendee);
        write_text(sink, 1, &self.name);
    }
}

impl WriteProto for OneofDescriptorProto {
    ghost record_type = { types.Oneof };

    fn write<S: Sink>(&self, sink: &mut S) {
        write_bytes(sink, 2, &self.options);
        write_text(sink, 1, &self.name);
    }
}

impl WriteProto for EnumReservedRange {
    ghost record_type = { types.EnumReservedRange };

    fn write<S: Sink>(&self, sink: &mut S) {
        write_number(sink, 2, &self.end);
        write_number(sink, 1, &self.start);
    }
}

impl WriteProto for EnumValueDescriptorProto {
    ghost record_type = { types.EnumValue };

    fn write<S: Sink>(&self, sink: &mut S) {
        write_bytes(sink, 3, &self.options);
        write_number(sink, 2, &self.number);
        write_text(sink, 1, &self.name);
    }
}

impl WriteProto for EnumDescriptorProto {
    ghost record_type = { types.Enum };

    fn write<S: Sink>(&self, sink: &mut S) {
        write_texts(sink, 5, &self.reserved_name);
        write_records(sink, 4, &self.reserved_range);
        write_bytes(sink, 3, &self.options);
        write_records(sink, 2, &self.value);
        write_text(sink, 1, &self.name);
    }
}

impl WriteProto for MethodDescriptorProto {
    ghost record_type = { types.Method };

    fn write<S: Sink>(&self, sink: &mut S) {
        write_flag(sink, 6, &self.server_streaming);
        write_flag(sink, 5, &self.client_streaming);
        write_bytes(sink, 4, &self.options);
        write_text(sink, 3, &self.output_type);
        write_text(sink, 2, &self.input_type);
        write_text(sink, 1, &self.name);
    }
}

impl WriteProto for ServiceDescriptorProto {
    ghost record_type = { types.Service };

    fn write<S: Sink>(&self, sink: &mut S) {
        write_bytes(sink, 3, &self.options);
        write_records(sink, 2, &self.method);
        write_text(sink, 1, &self.name);
    }
}

impl WriteProto for DescriptorProto {
    ghost record_type = { types.Message };

    fn write<S: Sink>(&self, sink: &mut S) {
        write_message(sink, self);
    }
}

#[cycle(message_writing)]
fn write_message<S: Sink>(sink: &mut S, message: &DescriptorProto)
    ensures added { Adds S.added sink.old sink.new (encoded (of_message message.now)) }
    ensures sound { RecordSound types.Message (of_message message.now) }
{
    write_texts(sink, 10, &message.reserved_name);
    write_records(sink, 9, &message.reserved_range);
    write_records(sink, 8, &message.oneof_decl);
    write_bytes(sink, 7, &message.options);
    write_records(sink, 6, &message.extension);
    write_records(sink, 5, &message.extension_range);
    write_records(sink, 4, &message.enum_type);
    write_messages(sink, 3, &message.nested_type);
    write_records(sink, 2, &message.field);
    write_text(sink, 1, &message.name);
}

#[cycle(message_writing)]
fn write_messages<S: Sink>(sink: &mut S, number: u32, messages: &Vec<DescriptorProto>)
    ensures added { Adds S.added sink.old sink.new
        (field_bytes number (kinds.Records types.Message) (of_records (map of_message messages.now.items))) }
    ensures sound { FieldSound (kinds.Records types.Message) (of_records (map of_message messages.now.items)) }
{
    for index in (0..messages.len()).rev() {
        let before = sink.len();
        write_message(sink, &messages[index]);
        sink.prepend_len_since(before);
        write_key(sink, number, WireType::LengthDelimited);
    }
}

impl WriteProto for FileDescriptorProto {
    ghost record_type = { types.File };

    fn write<S: Sink>(&self, sink: &mut S) {
        write_text(sink, 12, &self.syntax);
        write_numbers(sink, 11, &self.weak_dependency);
        write_numbers(sink, 10, &self.public_dependency);
        write_bytes(sink, 9, &self.source_code_info);
        write_bytes(sink, 8, &self.options);
        write_records(sink, 7, &self.extension);
        write_records(sink, 6, &self.service);
        write_records(sink, 5, &self.enum_type);
        write_records(sink, 4, &self.message_type);
        write_texts(sink, 3, &self.dependency);
        write_text(sink, 2, &self.package);
        write_text(sink, 1, &self.name);
    }
}

impl WriteProto for FileDescriptorSet {
    ghost record_type = { types.FileSet };

    fn write<S: Sink>(&self, sink: &mut S) {
        write_records(sink, 1, &self.file);
    }
}
