//! Writing files that are shared, as the set that they are.

ghost use Rattle.std.specs.Prelude.{◌≡◌, ◌≤◌, ◌++◌, ◌^◌, length, map, Some, OnOk, OnErr, IfErr};
ghost use Rattle.prost_reflect_wire.specs.Grammar.{LEVEL_LIMIT};
ghost use Rattle.prost_reflect_wire.specs.Levels.{levels};
ghost use Rattle.prost_reflect_wire.specs.Writing.{encoded};
ghost use Rattle.prost_reflect_types.specs.DescriptorMeaning.{record_decoded};
ghost use Rattle.prost_reflect_proto.specs.DescriptorSound.{FieldSound};
ghost use Rattle.prost_reflect_types.specs.DescriptorViews.{of_file, of_files, of_records, shared_files};
ghost use Rattle.prost_reflect_proto.specs.DescriptorWriting.{field_bytes};
ghost use Rattle.prost_reflect_wire.specs.Sinks.{Adds};
ghost use Rattle.prost_reflect_types.specs.declared.table.FieldKind.TheVariants as kinds;
ghost use Rattle.prost_reflect_types.specs.declared.table.RecordType.TheVariants as types;

use crate::encoding::append;
use crate::field_writing::write_record;
use crate::proto::WriteProto;
use prost_reflect_types::{FileDescriptorProto, HasContent};
use prost_reflect_wire::{EncodeError, Sink};
use std::rc::Rc;

/// The set of files that are shared.
#[derive(Drop)]
struct SharedFiles<'a> {
    files: &'a [Rc<FileDescriptorProto>],
}

impl<'a> HasContent for SharedFiles<'a> {
    ghost content = { λ set. of_files (shared_files set.files.now) };
}

impl<'a> WriteProto for SharedFiles<'a> {
    ghost record_type = { types.FileSet };

    fn write<S: Sink>(&self, sink: &mut S) {
        write_files(sink, 1, self.files);
    }
}

fn write_files<S: Sink>(sink: &mut S, number: u32, files: &[Rc<FileDescriptorProto>])
    ensures added { Adds S.added sink.old sink.new
        (field_bytes number (kinds.Records types.File) (of_records (map of_file (shared_files files.now)))) }
    ensures sound { FieldSound (kinds.Records types.File) (of_records (map of_file (shared_files files.now))) }
{
    for index in (0..files.len()).rev() {
        let file: &FileDescriptorProto = &files[index];
        write_record(sink, number, file);
    }
}

/// Appends the encoding of the descriptor set that has these files, as `FileDescriptorSet::encode` does, without a copy of them.
///
/// # Errors
///
/// `TooLong` if the encoding passes the greatest `usize`, `OutOfMemory` if memory runs out; the output stays.
pub fn encode_files(files: &[Rc<FileDescriptorProto>], out: &mut Vec<u8>) -> Result<(), EncodeError>
    ensures ok { OnOk result (out.new.items ≡ out.old.items ++ encoded (of_files (shared_files files.now))) }
    ensures err { OnErr result (out.new.items ≡ out.old.items) }
    ensures too_long { IfErr result (λ e. e ≡ EncodeError.TooLong → 2 ^ 64 ≤ length (encoded (of_files (shared_files files.now)))) }
    ensures reads { OnOk result
        (levels (of_files (shared_files files.now)) ≤ LEVEL_LIMIT
        → record_decoded LEVEL_LIMIT types.FileSet (encoded (of_files (shared_files files.now)))
        ≡ Some (of_files (shared_files files.now))) }
{
    append(&SharedFiles { files }, out)
}
