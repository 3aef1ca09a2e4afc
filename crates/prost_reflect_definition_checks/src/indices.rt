//! The check of indices: public and weak imports are among the imports, and a field's oneof is among those of its message.

ghost use Rattle.std.specs.Prelude.{◌≡◌};
ghost use Rattle.prost_reflect_tables.specs.Faults.{is_outside, import_outside, oneof_outside, has_oneof_outside, bad_index};
ghost use Rattle.prost_reflect_flat.specs.FlatViews.{file_list, message_row, flat_rows};

use crate::walk::{any, any_definition, any_file, any_message};
use prost_reflect_flat::{Flat, FlatMessage};
use prost_reflect_types::FileDescriptorProto;

fn is_outside(count: usize, index: i32) -> bool
    ensures { result ≡ is_outside count index }
{
    index < 0 || index as usize >= count
}

fn is_import_outside(file: &FileDescriptorProto) -> bool
    ensures { result ≡ import_outside file.now }
{
    let count = file.dependency.len();
    any(
        file.public_dependency.as_slice(),
        &|index| is_outside(count, *index),
    ) || any(
        file.weak_dependency.as_slice(),
        &|index| is_outside(count, *index),
    )
}

fn is_oneof_outside(count: usize, index: Option<i32>) -> bool
    ensures { result ≡ oneof_outside count index }
{
    match index {
        Some(index) => is_outside(count, index),
        None => false,
    }
}

fn has_oneof_outside(message: &FlatMessage) -> bool
    ensures { result ≡ has_oneof_outside (message_row message.now) }
{
    let count = message.oneofs.len();
    any_definition(
        message.fields.as_slice(),
        &|field| is_oneof_outside(count, field.proto.oneof_index),
    )
}

/// Whether the index of a public or weak dependency, or of a oneof, is out of range.
pub fn has_bad_index(files: &[&FileDescriptorProto], flat: &Flat) -> bool
    ensures { result ≡ bad_index (file_list files.now) (flat_rows flat.now) }
{
    any_file(files, &|file| is_import_outside(file))
        || any_message(flat.messages.as_slice(), &has_oneof_outside)
}
