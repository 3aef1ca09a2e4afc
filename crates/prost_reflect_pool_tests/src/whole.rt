//! All that the descriptors of a set say that has each sort of definition.

use crate::describe::describe;
use crate::named::message_of;
use crate::schema::SCHEMA;
use prost_reflect::DescriptorPool;
use prost_reflect_samples::leaked;
use std::alloc::{AllocError, Global};
use std::test::Fail;

/// What protoc writes for three files. `plain.proto`, of proto3:
///
///     message Plain { string text = 1; }
///
/// `base.proto`, of proto3, in `base`:
///
///     message Base {
///       reserved 10 to 12, 20;
///       reserved "old", "older";
///       optional int32 maybe = 1;
///       repeated int32 counts = 2;
///       map<string, Level> levels = 3;
///     }
///     enum Level {
///       reserved -5 to -3, 7;
///       reserved "GONE";
///       LEVEL_ZERO = 0;
///       LEVEL_ONE = 1;
///     }
///
/// And `whole.proto`, of proto2, in `w.x`:
///
///     import "plain.proto";
///     import public "base.proto";
///     message A {
///       message B {
///         message C {
///           enum State { option allow_alias = true; OFF = 2; ON = 1; UP = 1; }
///           extend Other { optional A.B.C c = 100; }
///           required int32 id = 5;
///           optional State state = 2 [default = UP];
///           repeated group Item = 3 { optional Plain plain = 1; }
///         }
///         optional C c = 1 [json_name = "see"];
///       }
///       oneof choice { string text = 7; base.Level level = 2; }
///       map<int32, B> bs = 3;
///       extensions 100 to 199, 500 to max;
///       reserved 4, 8 to 9;
///       reserved "gone";
///     }
///     message Other { extensions 100 to 102; }
///     extend A { repeated sint64 marks = 101 [packed = true]; }
///     service S {
///       rpc Go(stream A) returns (Other);
///       rpc Back(Plain) returns (stream A.B.C);
///     }
pub(crate) static WHOLE: &[u8] =
    b"\x0a2\x0a\x0bplain.proto\"\x1b\x0a\x05Plain\x12\x12\x0a\x04text\x18\x01 \x01(\x09R\x04textb\
    \x06proto3\x0a\xbc\x02\x0a\x0abase.proto\x12\x04base\"\xd3\x01\x0a\x04Base\x12\x19\x0a\x05maybe\
    \x18\x01 \x01(\x05H\x00R\x05maybe\x88\x01\x01\x12\x16\x0a\x06counts\x18\x02 \x03(\x05R\x06count\
    s\x12.\x0a\x06levels\x18\x03 \x03(\x0b2\x16.base.Base.LevelsEntryR\x06levels\x1aF\x0a\x0bLevels\
    Entry\x12\x10\x0a\x03key\x18\x01 \x01(\x09R\x03key\x12!\x0a\x05value\x18\x02 \x01(\x0e2\x0b.bas\
    e.LevelR\x05value:\x028\x01B\x08\x0a\x06_maybeJ\x04\x08\x0a\x10\x0dJ\x04\x08\x14\x10\x15R\x03ol\
    dR\x05older*J\x0a\x05Level\x12\x0e\x0a\x0aLEVEL_ZERO\x10\x00\x12\x0d\x0a\x09LEVEL_ONE\x10\x01\"\
    \x16\x08\xfb\xff\xff\xff\xff\xff\xff\xff\xff\x01\x10\xfd\xff\xff\xff\xff\xff\xff\xff\xff\x01\"\
    \x04\x08\x07\x10\x07*\x04GONEb\x06proto3\x0a\xe8\x04\x0a\x0bwhole.proto\x12\x03w.x\x1a\x0bplain\
    .proto\x1a\x0abase.proto\"\xc8\x03\x0a\x01A\x12\x14\x0a\x04text\x18\x07 \x01(\x09H\x00R\x04text\
    \x12#\x0a\x05level\x18\x02 \x01(\x0e2\x0b.base.LevelH\x00R\x05level\x12\x1e\x0a\x02bs\x18\x03 \
    \x03(\x0b2\x0e.w.x.A.BsEntryR\x02bs\x1a\xf8\x01\x0a\x01B\x12\x1a\x0a\x01c\x18\x01 \x01(\x0b2\
    \x0a.w.x.A.B.CR\x03see\x1a\xd6\x01\x0a\x01C\x12\x0e\x0a\x02id\x18\x05 \x02(\x05R\x02id\x12*\x0a\
    \x05state\x18\x02 \x01(\x0e2\x10.w.x.A.B.C.State:\x02UPR\x05state\x12#\x0a\x04item\x18\x03 \x03\
    (\x0a2\x0f.w.x.A.B.C.ItemR\x04item\x1a$\x0a\x04Item\x12\x1c\x0a\x05plain\x18\x01 \x01(\x0b2\x06\
    .PlainR\x05plain\"$\x0a\x05State\x12\x07\x0a\x03OFF\x10\x02\x12\x06\x0a\x02ON\x10\x01\x12\x06\
    \x0a\x02UP\x10\x01\x1a\x02\x10\x012$\x0a\x01c\x12\x0a.w.x.Other\x18d \x01(\x0b2\x0a.w.x.A.B.CR\
    \x01c\x1a?\x0a\x07BsEntry\x12\x10\x0a\x03key\x18\x01 \x01(\x05R\x03key\x12\x1e\x0a\x05value\x18\
    \x02 \x01(\x0b2\x08.w.x.A.BR\x05value:\x028\x01*\x05\x08d\x10\xc8\x01*\x09\x08\xf4\x03\x10\x80\
    \x80\x80\x80\x02B\x08\x0a\x06choiceJ\x04\x08\x04\x10\x05J\x04\x08\x08\x10\x0aR\x04gone\"\x0d\
    \x0a\x05Other*\x04\x08d\x10g2=\x0a\x01S\x12\x1a\x0a\x02Go\x12\x06.w.x.A\x1a\x0a.w.x.Other(\x01\
    \x12\x1c\x0a\x04Back\x12\x06.Plain\x1a\x0a.w.x.A.B.C0\x01: \x0a\x05marks\x12\x06.w.x.A\x18e \
    \x03(\x12B\x02\x10\x01R\x05marksP\x01";

/// A line for each definition, in the format of `scripts/describe`, as protobuf's own descriptors of the set answer.
static TEXT: &str = "\
    file plain.proto index=0 package=- syntax=Proto3 dependencies=- public=- messages=Plain enums=- extensions=- services=-\n\
    file base.proto index=1 package=base syntax=Proto3 dependencies=- public=- messages=base.Base enums=base.Level extensions=- services=-\n\
    file whole.proto index=2 package=w.x syntax=Proto2 dependencies=plain.proto,base.proto public=base.proto messages=w.x.A,w.x.Other enums=- extensions=w.x.marks services=w.x.S\n\
    message Plain name=Plain file=plain.proto package=- path=4.0 parent=- entry=false fields=text oneofs=- child_messages=- child_enums=- child_extensions=- extensions=- reserved=- reserved_names=- ranges=-\n\
    field Plain.text path=4.0.2.0 json=text number=1 kind=String wire=2 cardinality=Optional presence=false packed=false group=false list=false map=false required=false oneof=-\n\
    message base.Base name=Base file=base.proto package=base path=4.0 parent=- entry=false fields=maybe,counts,levels oneofs=_maybe child_messages=base.Base.LevelsEntry child_enums=- child_extensions=- extensions=- reserved=10-13,20-21 reserved_names=old,older ranges=-\n\
    field base.Base.maybe path=4.0.2.0 json=maybe number=1 kind=Int32 wire=0 cardinality=Optional presence=true packed=false group=false list=false map=false required=false oneof=_maybe\n\
    field base.Base.counts path=4.0.2.1 json=counts number=2 kind=Int32 wire=0 cardinality=Repeated presence=false packed=true group=false list=true map=false required=false oneof=-\n\
    field base.Base.levels path=4.0.2.2 json=levels number=3 kind=Message:base.Base.LevelsEntry wire=2 cardinality=Repeated presence=false packed=false group=false list=false map=true required=false oneof=-\n\
    oneof base.Base._maybe path=4.0.8.0 fields=maybe synthetic=true\n\
    message base.Base.LevelsEntry name=LevelsEntry file=base.proto package=base path=4.0.3.0 parent=base.Base entry=true fields=key,value oneofs=- child_messages=- child_enums=- child_extensions=- extensions=- reserved=- reserved_names=- ranges=-\n\
    field base.Base.LevelsEntry.key path=4.0.3.0.2.0 json=key number=1 kind=String wire=2 cardinality=Optional presence=false packed=false group=false list=false map=false required=false oneof=-\n\
    field base.Base.LevelsEntry.value path=4.0.3.0.2.1 json=value number=2 kind=Enum:base.Level wire=0 cardinality=Optional presence=false packed=false group=false list=false map=false required=false oneof=-\n\
    message w.x.A name=A file=whole.proto package=w.x path=4.0 parent=- entry=false fields=level,bs,text oneofs=choice child_messages=w.x.A.B,w.x.A.BsEntry child_enums=- child_extensions=- extensions=w.x.marks reserved=4-5,8-10 reserved_names=gone ranges=100-200,500-536870912\n\
    field w.x.A.level path=4.0.2.1 json=level number=2 kind=Enum:base.Level wire=0 cardinality=Optional presence=true packed=false group=false list=false map=false required=false oneof=choice\n\
    field w.x.A.bs path=4.0.2.2 json=bs number=3 kind=Message:w.x.A.BsEntry wire=2 cardinality=Repeated presence=false packed=false group=false list=false map=true required=false oneof=-\n\
    field w.x.A.text path=4.0.2.0 json=text number=7 kind=String wire=2 cardinality=Optional presence=true packed=false group=false list=false map=false required=false oneof=choice\n\
    oneof w.x.A.choice path=4.0.8.0 fields=text,level synthetic=false\n\
    message w.x.A.B name=B file=whole.proto package=w.x path=4.0.3.0 parent=w.x.A entry=false fields=c oneofs=- child_messages=w.x.A.B.C child_enums=- child_extensions=- extensions=- reserved=- reserved_names=- ranges=-\n\
    field w.x.A.B.c path=4.0.3.0.2.0 json=see number=1 kind=Message:w.x.A.B.C wire=2 cardinality=Optional presence=true packed=false group=false list=false map=false required=false oneof=-\n\
    message w.x.A.B.C name=C file=whole.proto package=w.x path=4.0.3.0.3.0 parent=w.x.A.B entry=false fields=state,item,id oneofs=- child_messages=w.x.A.B.C.Item child_enums=w.x.A.B.C.State child_extensions=w.x.A.B.C.c extensions=- reserved=- reserved_names=- ranges=-\n\
    field w.x.A.B.C.state path=4.0.3.0.3.0.2.1 json=state number=2 kind=Enum:w.x.A.B.C.State wire=0 cardinality=Optional presence=true packed=false group=false list=false map=false required=false oneof=-\n\
    field w.x.A.B.C.item path=4.0.3.0.3.0.2.2 json=item number=3 kind=Message:w.x.A.B.C.Item wire=2 cardinality=Repeated presence=false packed=false group=true list=true map=false required=false oneof=-\n\
    field w.x.A.B.C.id path=4.0.3.0.3.0.2.0 json=id number=5 kind=Int32 wire=0 cardinality=Required presence=true packed=false group=false list=false map=false required=true oneof=-\n\
    message w.x.A.B.C.Item name=Item file=whole.proto package=w.x path=4.0.3.0.3.0.3.0 parent=w.x.A.B.C entry=false fields=plain oneofs=- child_messages=- child_enums=- child_extensions=- extensions=- reserved=- reserved_names=- ranges=-\n\
    field w.x.A.B.C.Item.plain path=4.0.3.0.3.0.3.0.2.0 json=plain number=1 kind=Message:Plain wire=2 cardinality=Optional presence=true packed=false group=false list=false map=false required=false oneof=-\n\
    message w.x.A.BsEntry name=BsEntry file=whole.proto package=w.x path=4.0.3.1 parent=w.x.A entry=true fields=key,value oneofs=- child_messages=- child_enums=- child_extensions=- extensions=- reserved=- reserved_names=- ranges=-\n\
    field w.x.A.BsEntry.key path=4.0.3.1.2.0 json=key number=1 kind=Int32 wire=0 cardinality=Optional presence=true packed=false group=false list=false map=false required=false oneof=-\n\
    field w.x.A.BsEntry.value path=4.0.3.1.2.1 json=value number=2 kind=Message:w.x.A.B wire=2 cardinality=Optional presence=true packed=false group=false list=false map=false required=false oneof=-\n\
    message w.x.Other name=Other file=whole.proto package=w.x path=4.1 parent=- entry=false fields=- oneofs=- child_messages=- child_enums=- child_extensions=- extensions=w.x.A.B.C.c reserved=- reserved_names=- ranges=100-103\n\
    extension w.x.A.B.C.c name=c file=whole.proto package=w.x path=4.0.3.0.3.0.6.0 parent=w.x.A.B.C json=[w.x.A.B.C.c] containing=w.x.Other number=100 kind=Message:w.x.A.B.C wire=2 cardinality=Optional presence=true packed=false group=false list=false map=false\n\
    extension w.x.marks name=marks file=whole.proto package=w.x path=7.0 parent=- json=[w.x.marks] containing=w.x.A number=101 kind=Sint64 wire=0 cardinality=Repeated presence=false packed=true group=false list=true map=false\n\
    enum base.Level name=Level file=base.proto package=base path=5.0 parent=- closed=false default=LEVEL_ZERO reserved=-5..-3,7..7 reserved_names=GONE\n\
    value base.LEVEL_ZERO enum=base.Level number=0 path=5.0.2.0\n\
    value base.LEVEL_ONE enum=base.Level number=1 path=5.0.2.1\n\
    enum w.x.A.B.C.State name=State file=whole.proto package=w.x path=4.0.3.0.3.0.4.0 parent=w.x.A.B.C closed=true default=OFF reserved=- reserved_names=-\n\
    value w.x.A.B.C.ON enum=w.x.A.B.C.State number=1 path=4.0.3.0.3.0.4.0.2.1\n\
    value w.x.A.B.C.UP enum=w.x.A.B.C.State number=1 path=4.0.3.0.3.0.4.0.2.2\n\
    value w.x.A.B.C.OFF enum=w.x.A.B.C.State number=2 path=4.0.3.0.3.0.4.0.2.0\n\
    service w.x.S file=whole.proto package=w.x path=6.0 methods=Go,Back\n\
    method w.x.S.Go path=6.0.2.0 index=0 input=w.x.A output=w.x.Other client_streaming=true server_streaming=false\n\
    method w.x.S.Back path=6.0.2.1 index=1 input=Plain output=w.x.A.B.C client_streaming=false server_streaming=true\n\
";

/// Whether the pool's descriptors say what the text does, and whether it has the file of the schema of descriptor sets.
fn is_told(alloc: Global, pool: &DescriptorPool) -> Result<[bool; 2], AllocError> {
    let is_told = describe(alloc, pool)? == TEXT;
    let schema = pool.get_file_by_name("google/protobuf/descriptor.proto")?;
    Ok([is_told, schema.is_some()])
}

/// Each sort of definition is told. A descriptor that was made before an addition answers as before, and its pool tells what it
/// told.
#[test]
fn an_addition_changes_no_answer(rt: HostRuntime) -> Result<(), Fail> {
    let pool = leaked(rt.alloc(), DescriptorPool::decode(rt.alloc(), WHOLE)?)?;
    assert!(rt; is_told(rt.alloc(), pool)? == [true, false]);
    let found = message_of(rt.alloc(), pool, "w.x.A")?;
    pool.decode_file_descriptor_set(SCHEMA)?;
    assert!(rt; is_told(rt.alloc(), found.parent_pool())? == [true, false]);
    assert!(rt; is_told(rt.alloc(), pool)? == [false, true]);
    Ok(())
}
