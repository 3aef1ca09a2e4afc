//! Pairs of descriptor sets in hex digits, as `protoc` writes them, with the lines that compare them. The comment on a row has
//! the definitions in `t.proto`, with the package `t`: of the older set, and of the newer one.

/// A pair of sets, and the lines.
pub type Row = (&'static str, &'static str, &'static str);

/// Pairs of sets, each with one difference or a few.
pub static ROWS: [Row; 27] = [
    // The same type. In proto2.
    // message A { optional int32 a = 1; }
    // message A { optional int32 a = 1; }
    (
        "0a1f0a07742e70726f746f12017422110a0141120c0a0161180120012805520161",
        "0a1f0a07742e70726f746f12017422110a0141120c0a0161180120012805520161",
        "t.A passes\n",
    ),
    // Fields that are left out, and one that shares a oneof with no other. In proto2.
    // message A { optional int32 a = 1; }
    // message A { optional int32 a = 1; optional int32 b = 2; oneof o { int32 c = 3; } }
    (
        "0a1f0a07742e70726f746f12017422110a0141120c0a0161180120012805520161",
        "0a420a07742e70726f746f12017422340a0141120c0a0161180120012805520161120c0a0162180220012805520162120e0a0163180320012805480052016342030a016f",
        "t.A passes\n  b (2) added\n  c (3) added\n",
    ),
    // A number that the newer type lacks. In proto2.
    // message A { optional int32 a = 1; optional int32 b = 2; }
    // message A { optional int32 a = 1; }
    (
        "0a2d0a07742e70726f746f120174221f0a0141120c0a0161180120012805520161120c0a0162180220012805520162",
        "0a1f0a07742e70726f746f12017422110a0141120c0a0161180120012805520161",
        "t.A fails: b (2) number\n  b (2) removed\n",
    ),
    // A number that the newer type lacks, below a difference. In proto2.
    // message A { optional int32 a = 1; optional int32 b = 2; }
    // message A { optional int64 b = 2; }
    (
        "0a2d0a07742e70726f746f120174221f0a0141120c0a0161180120012805520161120c0a0162180220012805520162",
        "0a1f0a07742e70726f746f12017422110a0141120c0a0162180220012803520162",
        "t.A fails: a (1) number\n  a (1) removed\n",
    ),
    // Another kind. In proto2.
    // message A { optional int32 a = 1; }
    // message A { optional int64 a = 1; }
    (
        "0a1f0a07742e70726f746f12017422110a0141120c0a0161180120012805520161",
        "0a1f0a07742e70726f746f12017422110a0141120c0a0161180120012803520161",
        "t.A fails: a (1) kind\n",
    ),
    // A kind of the same wire type, of a list whose packing differs. In proto2.
    // message A { repeated int32 a = 1; repeated sint32 b = 2; }
    // message A { repeated int32 a = 1 [packed = true]; repeated int32 b = 2; }
    (
        "0a2d0a07742e70726f746f120174221f0a0141120c0a0161180120032805520161120c0a0162180220032811520162",
        "0a310a07742e70726f746f12017422230a014112100a016118012003280542021001520161120c0a0162180220032805520162",
        "t.A fails: b (2) kind\n",
    ),
    // A list in place of one value. In proto2.
    // message A { optional int32 a = 1; }
    // message A { repeated int32 a = 1; }
    (
        "0a1f0a07742e70726f746f12017422110a0141120c0a0161180120012805520161",
        "0a1f0a07742e70726f746f12017422110a0141120c0a0161180120032805520161",
        "t.A fails: a (1) cardinality\n",
    ),
    // A label that requires the field. In proto2.
    // message A { required int32 a = 1; }
    // message A { optional int32 a = 1; }
    (
        "0a1f0a07742e70726f746f12017422110a0141120c0a0161180120022805520161",
        "0a1f0a07742e70726f746f12017422110a0141120c0a0161180120012805520161",
        "t.A fails: a (1) cardinality\n",
    ),
    // A field with presence. In proto3.
    // message A { int32 a = 1; }
    // message A { optional int32 a = 1; }
    (
        "0a270a07742e70726f746f12017422110a0141120c0a0161180120012805520161620670726f746f33",
        "0a320a07742e70726f746f120174221c0a014112110a0161180120012805480052016188010142040a025f61620670726f746f33",
        "t.A fails: a (1) presence\n",
    ),
    // Another default. In proto2.
    // message A { optional int32 a = 1; }
    // message A { optional int32 a = 1 [default = 2]; }
    (
        "0a1f0a07742e70726f746f12017422110a0141120c0a0161180120012805520161",
        "0a220a07742e70726f746f12017422140a0141120f0a01611801200128053a0132520161",
        "t.A fails: a (1) default\n",
    ),
    // Members of a oneof in the newer type alone. In proto2.
    // message A { optional int32 a = 1; optional int32 b = 2; }
    // message A { oneof o { int32 a = 1; int32 b = 2; } }
    (
        "0a2d0a07742e70726f746f120174221f0a0141120c0a0161180120012805520161120c0a0162180220012805520162",
        "0a360a07742e70726f746f12017422280a0141120e0a01611801200128054800520161120e0a0162180220012805480052016242030a016f",
        "t.A fails: a (1) oneof\n",
    ),
    // A further member behind the one that is known. In proto2.
    // message A { oneof o { int32 a = 1; } }
    // message A { oneof o { int32 a = 1; int32 b = 2; } }
    (
        "0a260a07742e70726f746f12017422180a0141120e0a0161180120012805480052016142030a016f",
        "0a360a07742e70726f746f12017422280a0141120e0a01611801200128054800520161120e0a0162180220012805480052016242030a016f",
        "t.A fails: a (1) oneof\n  b (2) added\n",
    ),
    // A further member in front of the one that is known. In proto2.
    // message A { oneof o { int32 b = 2; } }
    // message A { oneof o { int32 a = 1; int32 b = 2; } }
    (
        "0a260a07742e70726f746f12017422180a0141120e0a0162180220012805480052016242030a016f",
        "0a360a07742e70726f746f12017422280a0141120e0a01611801200128054800520161120e0a0162180220012805480052016242030a016f",
        "t.A fails: a (1) oneof\n  a (1) added\n",
    ),
    // A closed enum with a number more. In proto2.
    // message A { optional E e = 1; } enum E { NONE = 0; }
    // message A { optional E e = 1; } enum E { NONE = 0; ONE = 1; }
    (
        "0a340a07742e70726f746f12017422170a014112120a016518012001280e32042e742e455201652a0d0a014512080a044e4f4e451000",
        "0a3d0a07742e70726f746f12017422170a014112120a016518012001280e32042e742e455201652a160a014512080a044e4f4e45100012070a034f4e451001",
        "t.A fails: e (1) enum\n",
    ),
    // An open enum with a number more. In proto3.
    // message A { E e = 1; } enum E { NONE = 0; }
    // message A { E e = 1; } enum E { NONE = 0; ONE = 1; }
    (
        "0a3c0a07742e70726f746f12017422170a014112120a016518012001280e32042e742e455201652a0d0a014512080a044e4f4e451000620670726f746f33",
        "0a450a07742e70726f746f12017422170a014112120a016518012001280e32042e742e455201652a160a014512080a044e4f4e45100012070a034f4e451001620670726f746f33",
        "t.A passes\n",
    ),
    // A number in place of an enum. In proto3.
    // message A { E e = 1; } enum E { NONE = 0; }
    // message A { int32 e = 1; }
    (
        "0a3c0a07742e70726f746f12017422170a014112120a016518012001280e32042e742e455201652a0d0a014512080a044e4f4e451000620670726f746f33",
        "0a270a07742e70726f746f12017422110a0141120c0a0165180120012805520165620670726f746f33",
        "t.A fails: e (1) kind\n",
    ),
    // Keys of another kind. In proto3.
    // message A { map<int32, int32> m = 1; }
    // message A { map<int64, int32> m = 1; }
    (
        "0a6a0a07742e70726f746f12017422540a014112190a016d18012003280b320b2e742e412e4d456e74727952016d1a340a064d456e74727912100a036b657918012001280552036b657912140a0576616c7565180220012805520576616c75653a023801620670726f746f33",
        "0a6a0a07742e70726f746f12017422540a014112190a016d18012003280b320b2e742e412e4d456e74727952016d1a340a064d456e74727912100a036b657918012001280352036b657912140a0576616c7565180220012805520576616c75653a023801620670726f746f33",
        "t.A fails: m (1) map\n",
    ),
    // Values of another kind. In proto3.
    // message A { map<int32, int32> m = 1; }
    // message A { map<int32, int64> m = 1; }
    (
        "0a6a0a07742e70726f746f12017422540a014112190a016d18012003280b320b2e742e412e4d456e74727952016d1a340a064d456e74727912100a036b657918012001280552036b657912140a0576616c7565180220012805520576616c75653a023801620670726f746f33",
        "0a6a0a07742e70726f746f12017422540a014112190a016d18012003280b320b2e742e412e4d456e74727952016d1a340a064d456e74727912100a036b657918012001280552036b657912140a0576616c7565180220012803520576616c75653a023801620670726f746f33",
        "t.A fails: m (1) kind\n",
    ),
    // A list in place of a map. In proto3.
    // message A { map<int32, int32> m = 1; }
    // message A { repeated int32 m = 1; }
    (
        "0a6a0a07742e70726f746f12017422540a014112190a016d18012003280b320b2e742e412e4d456e74727952016d1a340a064d456e74727912100a036b657918012001280552036b657912140a0576616c7565180220012805520576616c75653a023801620670726f746f33",
        "0a270a07742e70726f746f12017422110a0141120c0a016d18012003280552016d620670726f746f33",
        "t.A fails: m (1) map\n",
    ),
    // A field in place of an extension. In proto2.
    // message A { extensions 5 to 9; } extend A { optional int32 x = 5; }
    // message A { optional int32 x = 5; }
    (
        "0a2b0a07742e70726f746f12017422090a01412a040805100a3a120a017812042e742e41180520012805520178",
        "0a1f0a07742e70726f746f12017422110a0141120c0a0178180520012805520178",
        "t.A fails: [t.x] (5) extension\n",
    ),
    // An extension that the newer type lacks. In proto2.
    // message A { extensions 5 to 9; } extend A { optional int32 x = 5; }
    // message A { extensions 5 to 9; } extend A { optional int32 y = 6; }
    (
        "0a2b0a07742e70726f746f12017422090a01412a040805100a3a120a017812042e742e41180520012805520178",
        "0a2b0a07742e70726f746f12017422090a01412a040805100a3a120a017912042e742e41180620012805520179",
        "t.A fails: [t.x] (5) number\n  [t.x] (5) removed\n  [t.y] (6) added\n",
    ),
    // A message in place of a group. In proto2.
    // message A { optional group G = 1 { } }
    // message A { message G { } optional G g = 1; }
    (
        "0a2c0a07742e70726f746f120174221e0a014112140a016718012001280a32062e742e412e475201671a030a0147",
        "0a2c0a07742e70726f746f120174221e0a014112140a016718012001280b32062e742e412e475201671a030a0147",
        "t.A fails: g (1) kind\nt.A.G passes\n",
    ),
    // A difference in the type of a list. In proto2.
    // message A { repeated B b = 3; } message B { optional int32 a = 1; }
    // message A { repeated B b = 3; } message B { optional string a = 1; }
    (
        "0a380a07742e70726f746f12017422170a014112120a016218032003280b32042e742e4252016222110a0142120c0a0161180120012805520161",
        "0a380a07742e70726f746f12017422170a014112120a016218032003280b32042e742e4252016222110a0142120c0a0161180120012809520161",
        "t.A fails: b.a (1) kind\nt.B fails: a (1) kind\n",
    ),
    // A difference in the type of the values of a map. In proto3.
    // message A { map<string, B> m = 3; } message B { repeated int32 a = 1; }
    // message A { map<string, B> m = 3; } message B { int32 a = 1; }
    (
        "0a83010a07742e70726f746f120174225a0a014112190a016d18032003280b320b2e742e412e4d456e74727952016d1a3a0a064d456e74727912100a036b657918012001280952036b6579121a0a0576616c756518022001280b32042e742e42520576616c75653a02380122110a0142120c0a0161180120032805520161620670726f746f33",
        "0a83010a07742e70726f746f120174225a0a014112190a016d18032003280b320b2e742e412e4d456e74727952016d1a3a0a064d456e74727912100a036b657918012001280952036b6579121a0a0576616c756518022001280b32042e742e42520576616c75653a02380122110a0142120c0a0161180120012805520161620670726f746f33",
        "t.A fails: m.a (1) cardinality\nt.B fails: a (1) cardinality\n",
    ),
    // A difference in the type of an extension and of a group. In proto2.
    // message A { extensions 5; } extend A { optional B x = 5; } message B { optional group C = 1 { optional int32 a = 2; } }
    // message A { extensions 5; } extend A { optional B x = 5; } message B { optional group C = 1 { required int32 a = 2; } }
    (
        "0a5f0a07742e70726f746f12017422090a01412a0408051006222c0a014212140a016318012001280a32062e742e422e435201631a110a0143120c0a01611802200128055201613a180a017812042e742e4118052001280b32042e742e42520178",
        "0a5f0a07742e70726f746f12017422090a01412a0408051006222c0a014212140a016318012001280a32062e742e422e435201631a110a0143120c0a01611802200228055201613a180a017812042e742e4118052001280b32042e742e42520178",
        "t.A fails: [t.x].c.a (2) cardinality\nt.B fails: c.a (2) cardinality\nt.B.C fails: a (2) cardinality\n",
    ),
    // A type of itself, and a member that the older type lacks below. In proto2.
    // message A { optional A a = 1; optional B b = 2; } message B { optional A a = 1; }
    // message A { optional A a = 1; optional B b = 2; } message B { optional A a = 1; oneof o { int32 c = 3; int32 d = 4; } }
    (
        "0a520a07742e70726f746f120174222b0a014112120a016118012001280b32042e742e4152016112120a016218022001280b32042e742e4252016222170a014212120a016118012001280b32042e742e41520161",
        "0a770a07742e70726f746f120174222b0a014112120a016118012001280b32042e742e4152016112120a016218022001280b32042e742e42520162223c0a014212120a016118012001280b32042e742e41520161120e0a01631803200128054800520163120e0a0164180420012805480052016442030a016f",
        "t.A fails: b.c (3) oneof\nt.B fails: c (3) oneof\n  c (3) added\n  d (4) added\n",
    ),
    // Types in the order of their names, of which each set has some. In proto2.
    // message C { } message B { } message A { message B { } }
    // message D { message A { } } message A { } message C { }
    (
        "0a200a07742e70726f746f12017422030a014322030a014222080a01411a030a0142",
        "0a200a07742e70726f746f12017422080a01441a030a014122030a014122030a0143",
        "t.A passes\nt.A.B removed\nt.B removed\nt.C passes\nt.D added\nt.D.A added\n",
    ),
];
