//! What files are flattened to, and the tables and the catalog that are linked of them.

use prost_reflect_building::with_files;
use prost_reflect_flat::{Flat, FlatMessage, flattened};
use prost_reflect_pool::LinkedPool;
use prost_reflect_proto::Proto;
use prost_reflect_samples::leaked;
use prost_reflect_tables::{Catalog, FieldTable, Identity, MessageTable, Tables};
use prost_reflect_types::FileDescriptorProto;
use std::alloc::{AllocError, Global};
use std::test::Fail;

/// The file of `package p; message A { message B {} } message C {} enum F {} service S {}`. Each message has a field `f`,
/// an enum `E`, an extension `x` and a oneof `choice`; each enum has `ZERO`, the service has `Get`, and the file has an
/// extension `y`.
static NESTED: &[u8] =
    b"\x0a\x07n.proto\x12\x01p\"f\x0a\x01A\x12\x09\x0a\x01f\x18\x01 \x01(\x05\x1a2\x0a\x01B\x12\x09\
    \x0a\x01f\x18\x01 \x01(\x05\"\x0d\x0a\x01E\x12\x08\x0a\x04ZERO\x10\x002\x09\x0a\x01x\x18\x01 \
    \x01(\x05B\x08\x0a\x06choice\"\x0d\x0a\x01E\x12\x08\x0a\x04ZERO\x10\x002\x09\x0a\x01x\x18\x01 \
    \x01(\x05B\x08\x0a\x06choice\"2\x0a\x01C\x12\x09\x0a\x01f\x18\x01 \x01(\x05\"\x0d\x0a\x01E\x12\
    \x08\x0a\x04ZERO\x10\x002\x09\x0a\x01x\x18\x01 \x01(\x05B\x08\x0a\x06choice*\x0d\x0a\x01F\x12\
    \x08\x0a\x04ZERO\x10\x002\x0a\x0a\x01S\x12\x05\x0a\x03Get:\x09\x0a\x01y\x18\x01 \x01(\x05";

/// A full name, a path, and the place of the message around it.
fn show_place(
    seen: &mut String,
    full_name: &str,
    path: &[i32],
    parent: Option<usize>,
) -> Result<(), AllocError> {
    write!(seen, "{full_name} {path:?} {parent:?}; ")
}

/// A full name, and a path.
fn show_path(seen: &mut String, full_name: &str, path: &[i32]) -> Result<(), AllocError> {
    write!(seen, "{full_name} {path:?}; ")
}

fn show_messages(seen: &mut String, flat: &Flat) -> Result<(), AllocError> {
    for message in &flat.messages {
        let scope = &message.definition;
        show_place(seen, &scope.full_name, &scope.path, scope.parent)?;
        show_members(seen, message)?;
    }
    Ok(())
}

/// Fields and oneofs.
fn show_members(seen: &mut String, message: &FlatMessage) -> Result<(), AllocError> {
    for field in &message.fields {
        show_place(seen, &field.full_name, &field.path, field.parent)?;
    }
    for oneof in &message.oneofs {
        show_path(seen, &oneof.full_name, &oneof.path)?;
    }
    Ok(())
}

fn show_enums(seen: &mut String, flat: &Flat) -> Result<(), AllocError> {
    for declared in &flat.enums {
        let scope = &declared.definition;
        show_place(seen, &scope.full_name, &scope.path, scope.parent)?;
        for value in &declared.values {
            show_path(seen, &value.full_name, &value.path)?;
        }
    }
    Ok(())
}

fn show_extensions(seen: &mut String, flat: &Flat) -> Result<(), AllocError> {
    for extension in &flat.extensions {
        show_place(
            seen,
            &extension.full_name,
            &extension.path,
            extension.parent,
        )?;
    }
    Ok(())
}

fn show_services(seen: &mut String, flat: &Flat) -> Result<(), AllocError> {
    for service in &flat.services {
        let scope = &service.definition;
        show_path(seen, &scope.full_name, &scope.path)?;
        for method in &service.methods {
            show_path(seen, &method.full_name, &method.path)?;
        }
    }
    Ok(())
}

/// All definitions, those of a sort on a line.
fn show_flat(seen: &mut String, flat: &Flat) -> Result<(), AllocError> {
    show_messages(seen, flat)?;
    seen.push_str("\n")?;
    show_enums(seen, flat)?;
    seen.push_str("\n")?;
    show_extensions(seen, flat)?;
    show_services(seen, flat)
}

/// Messages, enums, and extensions with services, in the order of their paths.
static NESTED_TEXT: &str = "\
    p.A [4, 0] None; p.A.f [4, 0, 2, 0] Some(0); p.A.choice [4, 0, 8, 0]; p.A.B [4, 0, 3, 0] Some(0); p.A.B.f [4, 0, 3, 0, 2, 0] Some(1); p.A.B.choice [4, 0, 3, 0, 8, 0]; p.C [4, 1] None; p.C.f [4, 1, 2, 0] Some(2); p.C.choice [4, 1, 8, 0]; \n\
    p.A.B.E [4, 0, 3, 0, 4, 0] Some(1); p.A.B.ZERO [4, 0, 3, 0, 4, 0, 2, 0]; p.A.E [4, 0, 4, 0] Some(0); p.A.ZERO [4, 0, 4, 0, 2, 0]; p.C.E [4, 1, 4, 0] Some(2); p.C.ZERO [4, 1, 4, 0, 2, 0]; p.F [5, 0] None; p.ZERO [5, 0, 2, 0]; \n\
    p.A.B.x [4, 0, 3, 0, 6, 0] Some(1); p.A.x [4, 0, 6, 0] Some(0); p.C.x [4, 1, 6, 0] Some(2); p.y [7, 0] None; p.S [6, 0]; p.S.Get [6, 0, 2, 0]; ";

/// Whether the definitions of the file are shown as the text.
fn is_flattened(alloc: Global, file: &[u8], text: &str) -> Result<bool, Fail> {
    let file = FileDescriptorProto::decode(alloc, file)?;
    let flat = flattened(alloc, 0, 0, &[&file])?;
    let mut seen = String::new(alloc);
    show_flat(&mut seen, &flat)?;
    Ok(seen.as_str() == text)
}

/// Full names, paths and enclosing messages of nested definitions.
#[test]
fn nested_definitions(rt: HostRuntime) -> Result<(), Fail> {
    assert!(rt; is_flattened(rt.alloc(), NESTED, NESTED_TEXT)?);
    Ok(())
}

fn show_field(seen: &mut String, field: &FieldTable) -> Result<(), AllocError> {
    write!(
        seen,
        "{} {} {:?} {:?} ",
        field.number,
        field.id.name(),
        field.kind,
        field.cardinality
    )?;
    show_flags(seen, field)?;
    write!(seen, "{:?} {:?}; ", field.default, field.oneof)?;
    Ok(())
}

fn show_flags(seen: &mut String, field: &FieldTable) -> Result<(), AllocError> {
    write!(
        seen,
        "extension {} group {} packed {} presence {} ",
        field.is_extension, field.is_group, field.is_packed, field.supports_presence
    )?;
    Ok(())
}

fn show_message(seen: &mut String, message: &MessageTable) -> Result<(), AllocError> {
    write!(
        seen,
        "{} {}: ",
        message.id.full_name(),
        message.is_map_entry
    )?;
    for field in &message.fields {
        show_field(seen, field)?;
    }
    for oneof in &message.oneofs {
        write!(seen, "oneof {} {:?}; ", oneof.id.name(), oneof.fields)?;
    }
    Ok(())
}

fn shown(alloc: Global, tables: &Tables) -> Result<String, AllocError> {
    let mut seen = String::new(alloc);
    for message in &tables.messages {
        show_message(&mut seen, message)?;
    }
    for item in &tables.enums {
        write!(seen, "{} ", item.id.full_name())?;
        for value in &item.values {
            write!(seen, "{} ", value.number)?;
        }
        write!(seen, "closed {}; ", item.is_closed)?;
    }
    Ok(seen)
}

/// proto3: `package package; message MyMessage { int32 foo = 1; oneof optional { int32 bar = 2; } MyMessage nested = 3; }`.
static MY_MESSAGE: &[u8] =
    b"\x0a\x07m.proto\x12\x07package\"W\x0a\x09MyMessage\x12\x0b\x0a\x03foo\x18\x01 \x01(\x05\x12\
    \x0d\x0a\x03bar\x18\x02 \x01(\x05H\x00\x12\"\x0a\x06nested\x18\x03 \x01(\x0b2\x12.package.MyMess\
    ageB\x0a\x0a\x08optionalb\x06proto3";

/// The pool of files, lent to the end of the run.
fn pool_of(alloc: Global, files: &[&[u8]]) -> Result<&'static LinkedPool, Fail> {
    let mut batch = Vec::new(alloc);
    for file in files {
        batch.push(FileDescriptorProto::decode(alloc, file)?)?;
    }
    let pool = leaked(alloc, LinkedPool::new(alloc))?;
    Ok(leaked(alloc, with_files(pool, batch)?)?)
}

/// A message type with a oneof and a field of its own type, in proto3.
#[test]
fn linked_proto3(rt: HostRuntime) -> Result<(), Fail> {
    let tables = pool_of(rt.alloc(), &[MY_MESSAGE])?.tables();
    assert!(rt;
        shown(rt.alloc(), tables)?.as_str()
            == "package.MyMessage false: 1 foo Int32 Optional extension false group false packed false presence false None None; 2 bar Int32 Optional extension false group false packed false presence true None Some(0); 3 nested Message(0) Optional extension false group false packed false presence true None None; oneof optional [1]; "
    );
    Ok(())
}

/// proto2: `message M { repeated int32 p = 9; repeated int32 l = 8; required E e = 7 [default = ZERO]; map<string, string> m = 6;
/// extensions 5; } message X {} enum E { ZERO = 0; } extend M { optional group X = 5; }`, where `p` has the option `packed` twice
/// and is packed at last.
static FORMS: &[u8] =
    b"\x0a\x07m.proto\"x\x0a\x01M\x12\x0f\x0a\x01p\x18\x09 \x03(\x05B\x04\x10\x00\x10\x01\x12\x09\
    \x0a\x01l\x18\x08 \x03(\x05\x12\x12\x0a\x01e\x18\x07 \x02(\x0e2\x01E:\x04ZERO\x12\x13\x0a\x01m\
    \x18\x06 \x03(\x0b2\x08M.MEntry\x1a(\x0a\x06MEntry\x12\x0b\x0a\x03key\x18\x01 \x01(\x09\x12\x0d\
    \x0a\x05value\x18\x02 \x01(\x09:\x028\x01*\x04\x08\x05\x10\x06\"\x03\x0a\x01X*\x0d\x0a\x01E\x12\
    \x08\x0a\x04ZERO\x10\x00:\x11\x0a\x01x\x12\x02.M\x18\x05 \x01(\x0a2\x02.X";

/// A list with a packed option in front of one without, a default, a closed enum, a map's entry, and an extension with a
/// smaller number than the fields.
#[test]
fn linked_proto2(rt: HostRuntime) -> Result<(), Fail> {
    let tables = pool_of(rt.alloc(), &[FORMS])?.tables();
    assert!(rt;
        shown(rt.alloc(), tables)?.as_str()
            == "M false: 5 x Message(2) Optional extension true group true packed false presence true None None; 6 m Message(1) Repeated extension false group false packed false presence false None None; 7 e Enum(0) Required extension false group false packed false presence true Some(EnumNumber(0)) None; 8 l Int32 Repeated extension false group false packed false presence false None None; 9 p Int32 Repeated extension false group false packed true presence false None None; M.MEntry true: 1 key String Optional extension false group false packed false presence true None None; 2 value String Optional extension false group false packed false presence true None None; X false: E 0 closed true; "
    );
    Ok(())
}

/// The place of the file, that of the message around it, the path, the full name and the name.
fn show_identity(seen: &mut String, id: &Identity) -> Result<(), AllocError> {
    write!(seen, "{} {:?} {:?} ", id.file, id.parent, id.path)?;
    write!(seen, "{} {}", id.full_name(), id.name())?;
    Ok(())
}

/// A message type with its fields, which have a name in JSON too, and its oneofs.
fn show_identities(seen: &mut String, message: &MessageTable) -> Result<(), AllocError> {
    show_identity(seen, &message.id)?;
    for field in &message.fields {
        seen.push_str("; ")?;
        show_identity(seen, &field.id)?;
        write!(seen, " {}", field.json_name())?;
    }
    for oneof in &message.oneofs {
        seen.push_str("; ")?;
        show_identity(seen, &oneof.id)?;
    }
    Ok(())
}

fn shown_identities(alloc: Global, tables: &Tables) -> Result<String, AllocError> {
    let mut seen = String::new(alloc);
    for message in &tables.messages {
        show_identities(&mut seen, message)?;
        seen.push_str("; ")?;
    }
    for item in &tables.enums {
        show_identity(&mut seen, &item.id)?;
        for value in &item.values {
            seen.push_str("; ")?;
            show_identity(&mut seen, &value.id)?;
        }
    }
    Ok(seen)
}

/// `message M {}`.
static FIRST: &[u8] = b"\x0a\x07m.proto\x22\x03\x0a\x01M";

/// `package p; message A { message B { optional int32 my_field = 1 [json_name = "other"]; oneof choice { int32 member = 2; }
/// enum E { ZERO = 0; } extensions 100; } extend B { optional int32 x = 100; } }`.
static SECOND: &[u8] = b"\x0a\x07p.proto\x12\x01p\x22\x65\x0a\x01A\x1a\x4d\x0a\x01B\
    \x12\x17\x0a\x08my_field\x18\x01\x20\x01\x28\x05\x52\x05other\
    \x12\x10\x0a\x06member\x18\x02\x20\x01\x28\x05\x48\x00\
    \x22\x0d\x0a\x01E\x12\x08\x0a\x04ZERO\x10\x00\x2a\x04\x08\x64\x10\x65\
    \x42\x08\x0a\x06choice\x32\x11\x0a\x01x\x12\x06.p.A.B\x18\x64\x20\x01\x28\x05";

/// A nested message, its fields, an extension that is declared around it, a oneof, an enum and a value of the second file.
#[test]
fn linked_identities(rt: HostRuntime) -> Result<(), Fail> {
    let tables = pool_of(rt.alloc(), &[FIRST, SECOND])?.tables();
    assert!(rt;
        shown_identities(rt.alloc(), tables)?.as_str()
            == "0 None [4, 0] M M; 1 None [4, 0] p.A A; 1 Some(1) [4, 0, 3, 0] p.A.B B; 1 Some(2) [4, 0, 3, 0, 2, 0] p.A.B.my_field my_field other; 1 Some(2) [4, 0, 3, 0, 2, 1] p.A.B.member member member; 1 Some(1) [4, 0, 6, 0] p.A.x x [p.A.x]; 1 Some(2) [4, 0, 3, 0, 8, 0] p.A.B.choice choice; 1 Some(2) [4, 0, 3, 0, 4, 0] p.A.B.E E; 1 Some(2) [4, 0, 3, 0, 4, 0, 2, 0] p.A.B.ZERO ZERO"
    );
    Ok(())
}

/// proto2: `package b; message Base { extensions 100 to 199; }`.
static BASE: &[u8] = b"\x0a\x0abase.proto\x12\x01b\"\x0d\x0a\x04Base*\x05\x08d\x10\xc8\x01";

/// proto2, `import public` of the file above: `package t; message Outer { int32 zeta = 1; int32 alpha = 2; message Inner {}
/// enum Mood { SAD = 1; GLAD = 0; FINE = 1; } extend b.Base { int32 inner_note = 101; } } extend b.Base { int32 note = 100; }
/// service Post { rpc Send (Outer) returns (b.Base); }`.
static TOP: &[u8] =
    b"\x0a\x09top.proto\x12\x01t\x1a\x0abase.protoP\x00\"o\x0a\x05Outer\x12\x0c\x0a\x04zeta\x18\
    \x01 \x01(\x05\x12\x0d\x0a\x05alpha\x18\x02 \x01(\x05\x1a\x07\x0a\x05Inner\"#\x0a\x04Mood\
    \x12\x07\x0a\x03SAD\x10\x01\x12\x08\x0a\x04GLAD\x10\x00\x12\x08\x0a\x04FINE\x10\x012\x1b\
    \x0a\x0ainner_note\x12\x07.b.Base\x18e \x01(\x05:\x15\x0a\x04note\x12\x07.b.Base\x18d \x01\
    (\x052!\x0a\x04Post\x12\x19\x0a\x04Send\x12\x08.t.Outer\x1a\x07.b.Base";

/// Whether the first file holds what `top.proto` does, and depends on the second, which has the third message.
fn lists_files(catalog: &Catalog) -> bool {
    if catalog.files.len() != 2 {
        return false;
    }
    let (top, base) = (&catalog.files[0], &catalog.files[1]);
    let lists = [
        (top.messages.as_slice(), [0].as_slice()),
        (top.enums.as_slice(), &[]),
        (top.extensions.as_slice(), &[1]),
        (top.services.as_slice(), &[0]),
        (top.dependencies.as_slice(), &[1]),
        (top.public_dependencies.as_slice(), &[1]),
        (base.messages.as_slice(), &[2]),
    ];
    places_are(&lists)
}

/// Lists of places, and what they have to be.
fn places_are(rows: &[(&[usize], &[usize])]) -> bool {
    for (places, expected) in rows {
        if places != expected {
            return false;
        }
    }
    true
}

/// Whether the messages `Outer`, `Inner` and `Base` hold what is declared in them.
fn lists_messages(catalog: &Catalog) -> bool {
    if catalog.messages.len() != 3 {
        return false;
    }
    let (outer, base) = (&catalog.messages[0], &catalog.messages[2]);
    let lists = [
        (outer.messages.as_slice(), [1].as_slice()),
        (outer.enums.as_slice(), &[0]),
        (outer.extensions.as_slice(), &[0]),
        (outer.extending.as_slice(), &[]),
        (outer.fields.as_slice(), &[0, 1]),
        (outer.by_name.as_slice(), &[1, 0]),
        (outer.by_json_name.as_slice(), &[1, 0]),
        (base.extending.as_slice(), &[0, 1]),
        (base.by_name.as_slice(), &[]),
    ];
    places_are(&lists)
}

/// Whether what is found by names and numbers stands in their order.
fn orders_by_names_and_numbers(catalog: &Catalog) -> bool {
    if catalog.enums.len() != 1 {
        return false;
    }
    let mood = &catalog.enums[0];
    let lists = [
        (mood.by_name.as_slice(), [2, 1, 0].as_slice()),
        (mood.by_number.as_slice(), &[1, 0, 2]),
        (catalog.by_name.files.as_slice(), &[1, 0]),
        (catalog.by_name.messages.as_slice(), &[2, 0, 1]),
        (catalog.by_name.extensions.as_slice(), &[0, 1]),
    ];
    places_are(&lists)
}

/// Whether `inner_note` and `note` are the fields 1 and 0 of `Base`.
fn says_what_is_extended(catalog: &Catalog) -> bool {
    if catalog.extensions.len() != 2 {
        return false;
    }
    let (inner_note, note) = (&catalog.extensions[0], &catalog.extensions[1]);
    let places = [
        inner_note.message,
        inner_note.field,
        note.message,
        note.field,
    ];
    places.as_slice() == [2, 1, 2, 0].as_slice()
}

/// Whether `Send` of `Post` leads from `Outer` to `Base`.
fn says_what_is_called(catalog: &Catalog) -> bool {
    if catalog.services.len() != 1 {
        return false;
    }
    let post = &catalog.services[0];
    let [send] = post.methods.as_slice() else {
        return false;
    };
    post.id.full_name() == "t.Post" && send.input == 0 && send.output == 2
}

/// The file that is imported stands behind the one that imports it.
#[test]
fn catalog_of_two_files(rt: HostRuntime) -> Result<(), Fail> {
    let catalog = pool_of(rt.alloc(), &[TOP, BASE])?.catalog();
    assert!(rt; lists_files(catalog));
    assert!(rt; lists_messages(catalog));
    assert!(rt; orders_by_names_and_numbers(catalog));
    assert!(rt; says_what_is_extended(catalog) && says_what_is_called(catalog));
    Ok(())
}
