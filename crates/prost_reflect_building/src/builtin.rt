//! The built-in pool.

ghost use Rattle.std.specs.Prelude.{◌≡◌, IfOk, IfErr, codes, map};
ghost use Rattle.prost_reflect_tables.specs.Shown.{schema_from};
ghost use Rattle.prost_reflect_tables.specs.declared.error.PoolError.TheVariants as pool_errors;
ghost use Rattle.prost_reflect_pool.specs.Pools.{files_of, pool_rows};
ghost use Rattle.prost_reflect_building.specs.Builtin.{builtin_schema, builtin_names};
ghost use Rattle.prost_reflect_building.specs.BuiltinFiles.{field_view, scalar_view, IsScalarMessage, IsScalarFile, AreBuiltin};
ghost use Rattle.prost_reflect_building.specs.BuiltinRows.{builtin_rows};

use crate::adding::with_files;
use prost_reflect_pool::LinkedPool;
use prost_reflect_tables::PoolError;
use prost_reflect_types::{DescriptorProto, FieldDescriptorProto, FileDescriptorProto};
use std::alloc::{AllocError, Global};

/// The type code and the name of each field; the number is the type code too.
const SCALAR_FIELDS: [(i32, &str); 15] = [
    (1, "f_double"),
    (2, "f_float"),
    (3, "f_int64"),
    (4, "f_uint64"),
    (5, "f_int32"),
    (6, "f_fixed64"),
    (7, "f_fixed32"),
    (8, "f_bool"),
    (9, "f_string"),
    (12, "f_bytes"),
    (13, "f_uint32"),
    (15, "f_sfixed32"),
    (16, "f_sfixed64"),
    (17, "f_sint32"),
    (18, "f_sint64"),
];

/// The pool of two files, `plain.proto` of proto3 and `kept.proto` of proto2, with one message type each: `builtin.Plain` and
/// `builtin.Kept`, which have one singular field of each scalar kind. No field of the first has presence, all of the second have
/// it.
///
/// # Errors
///
/// `OutOfMemory` if memory runs out.
pub fn builtin_pool(alloc: Global) -> Result<LinkedPool, PoolError>
    ensures files { IfOk result (λ pool. AreBuiltin (files_of pool)) }
    ensures rows { IfOk result (λ pool. pool_rows pool ≡ builtin_rows) }
    ensures schema { IfOk result (λ pool. schema_from (pool_rows pool) ≡ builtin_schema) }
    ensures names { IfOk result (λ pool. map (λ m. m.id.full_name) (pool_rows pool).messages ≡ builtin_names) }
    ensures refused { IfErr result (λ e. e ≡ pool_errors.OutOfMemory) }
{
    let none = LinkedPool::new(alloc);
    let pool = with_files(&none, builtin_files(alloc)?)?;
    Ok(pool)
}

fn builtin_files(alloc: Global) -> Result<Vec<FileDescriptorProto>, AllocError>
    ensures { IfOk result (λ files. AreBuiltin files.items) }
{
    let mut files = Vec::new(alloc);
    files.push(scalar_file(alloc, "plain.proto", "Plain", "proto3")?)?;
    files.push(scalar_file(alloc, "kept.proto", "Kept", "proto2")?)?;
    Ok(files)
}

fn scalar_file(
    alloc: Global,
    name: &str,
    message: &str,
    syntax: &str,
) -> Result<FileDescriptorProto, AllocError>
    ensures { IfOk result (IsScalarFile name.now message.now syntax.now) }
{
    let mut message_type = Vec::new(alloc);
    message_type.push(scalar_message(alloc, message)?)?;
    Ok(FileDescriptorProto {
        name: Some(String::from_str(alloc, name)?),
        package: Some(String::from_str(alloc, "builtin")?),
        dependency: Vec::new(alloc),
        message_type,
        enum_type: Vec::new(alloc),
        service: Vec::new(alloc),
        extension: Vec::new(alloc),
        options: None,
        source_code_info: None,
        public_dependency: Vec::new(alloc),
        weak_dependency: Vec::new(alloc),
        syntax: Some(String::from_str(alloc, syntax)?),
    })
}

fn scalar_message(alloc: Global, name: &str) -> Result<DescriptorProto, AllocError>
    ensures { IfOk result (IsScalarMessage name.now) }
{
    Ok(DescriptorProto {
        name: Some(String::from_str(alloc, name)?),
        field: scalar_fields(alloc, &SCALAR_FIELDS)?,
        nested_type: Vec::new(alloc),
        enum_type: Vec::new(alloc),
        extension_range: Vec::new(alloc),
        extension: Vec::new(alloc),
        options: None,
        oneof_decl: Vec::new(alloc),
        reserved_range: Vec::new(alloc),
        reserved_name: Vec::new(alloc),
    })
}

fn scalar_fields(
    alloc: Global,
    list: &[(i32, &str)],
) -> Result<Vec<FieldDescriptorProto>, AllocError>
    ensures { IfOk result (λ fields. map field_view fields.items ≡ map (λ f. scalar_view f.0 f.1.now) list.now) }
{
    let mut fields = Vec::new(alloc);
    for (code, name) in list {
        fields.push(scalar_field(alloc, *code, name)?)?;
    }
    Ok(fields)
}

fn scalar_field(alloc: Global, code: i32, name: &str) -> Result<FieldDescriptorProto, AllocError>
    ensures { IfOk result (λ field. field_view field ≡ scalar_view code name.now) }
{
    Ok(FieldDescriptorProto {
        name: Some(String::from_str(alloc, name)?),
        extendee: None,
        number: Some(code),
        label: Some(1),
        type_: Some(code),
        type_name: None,
        default_value: None,
        options: None,
        oneof_index: None,
        json_name: None,
        proto3_optional: None,
    })
}
