//! The schema of descriptor sets, and what its descriptors say.

use crate::describe::describe;
use crate::named::{message_of, pool_of};
use prost_reflect::{MessageDescriptor, RelayError, relay};
use std::alloc::Global;
use std::test::Fail;

/// What protoc 3.21 writes for `google/protobuf/descriptor.proto`.
pub(crate) static SCHEMA: &[u8] =
    b"\x0a\xf3;\x0a google/protobuf/descriptor.proto\x12\x0fgoogle.protobuf\"M\x0a\x11FileDescripto\
    rSet\x128\x0a\x04file\x18\x01 \x03(\x0b2$.google.protobuf.FileDescriptorProtoR\x04file\"\xe4\
    \x04\x0a\x13FileDescriptorProto\x12\x12\x0a\x04name\x18\x01 \x01(\x09R\x04name\x12\x18\x0a\x07p\
    ackage\x18\x02 \x01(\x09R\x07package\x12\x1e\x0a\x0adependency\x18\x03 \x03(\x09R\x0adependency\
    \x12+\x0a\x11public_dependency\x18\x0a \x03(\x05R\x10publicDependency\x12'\x0a\x0fweak_dependen\
    cy\x18\x0b \x03(\x05R\x0eweakDependency\x12C\x0a\x0cmessage_type\x18\x04 \x03(\x0b2 .google.pro\
    tobuf.DescriptorProtoR\x0bmessageType\x12A\x0a\x09enum_type\x18\x05 \x03(\x0b2$.google.protobuf\
    .EnumDescriptorProtoR\x08enumType\x12A\x0a\x07service\x18\x06 \x03(\x0b2'.google.protobuf.Servi\
    ceDescriptorProtoR\x07service\x12C\x0a\x09extension\x18\x07 \x03(\x0b2%.google.protobuf.FieldDe\
    scriptorProtoR\x09extension\x126\x0a\x07options\x18\x08 \x01(\x0b2\x1c.google.protobuf.FileOpti\
    onsR\x07options\x12I\x0a\x10source_code_info\x18\x09 \x01(\x0b2\x1f.google.protobuf.SourceCodeI\
    nfoR\x0esourceCodeInfo\x12\x16\x0a\x06syntax\x18\x0c \x01(\x09R\x06syntax\"\xb9\x06\x0a\x0fDesc\
    riptorProto\x12\x12\x0a\x04name\x18\x01 \x01(\x09R\x04name\x12;\x0a\x05field\x18\x02 \x03(\x0b2\
    %.google.protobuf.FieldDescriptorProtoR\x05field\x12C\x0a\x09extension\x18\x06 \x03(\x0b2%.goog\
    le.protobuf.FieldDescriptorProtoR\x09extension\x12A\x0a\x0bnested_type\x18\x03 \x03(\x0b2 .goog\
    le.protobuf.DescriptorProtoR\x0anestedType\x12A\x0a\x09enum_type\x18\x04 \x03(\x0b2$.google.pro\
    tobuf.EnumDescriptorProtoR\x08enumType\x12X\x0a\x0fextension_range\x18\x05 \x03(\x0b2/.google.p\
    rotobuf.DescriptorProto.ExtensionRangeR\x0eextensionRange\x12D\x0a\x0aoneof_decl\x18\x08 \x03(\
    \x0b2%.google.protobuf.OneofDescriptorProtoR\x09oneofDecl\x129\x0a\x07options\x18\x07 \x01(\x0b\
    2\x1f.google.protobuf.MessageOptionsR\x07options\x12U\x0a\x0ereserved_range\x18\x09 \x03(\x0b2.\
    .google.protobuf.DescriptorProto.ReservedRangeR\x0dreservedRange\x12#\x0a\x0dreserved_name\x18\
    \x0a \x03(\x09R\x0creservedName\x1az\x0a\x0eExtensionRange\x12\x14\x0a\x05start\x18\x01 \x01(\
    \x05R\x05start\x12\x10\x0a\x03end\x18\x02 \x01(\x05R\x03end\x12@\x0a\x07options\x18\x03 \x01(\
    \x0b2&.google.protobuf.ExtensionRangeOptionsR\x07options\x1a7\x0a\x0dReservedRange\x12\x14\x0a\
    \x05start\x18\x01 \x01(\x05R\x05start\x12\x10\x0a\x03end\x18\x02 \x01(\x05R\x03end\"|\x0a\x15Ex\
    tensionRangeOptions\x12X\x0a\x14uninterpreted_option\x18\xe7\x07 \x03(\x0b2$.google.protobuf.Un\
    interpretedOptionR\x13uninterpretedOption*\x09\x08\xe8\x07\x10\x80\x80\x80\x80\x02\"\xc1\x06\
    \x0a\x14FieldDescriptorProto\x12\x12\x0a\x04name\x18\x01 \x01(\x09R\x04name\x12\x16\x0a\x06numb\
    er\x18\x03 \x01(\x05R\x06number\x12A\x0a\x05label\x18\x04 \x01(\x0e2+.google.protobuf.FieldDesc\
    riptorProto.LabelR\x05label\x12>\x0a\x04type\x18\x05 \x01(\x0e2*.google.protobuf.FieldDescripto\
    rProto.TypeR\x04type\x12\x1b\x0a\x09type_name\x18\x06 \x01(\x09R\x08typeName\x12\x1a\x0a\x08ext\
    endee\x18\x02 \x01(\x09R\x08extendee\x12#\x0a\x0ddefault_value\x18\x07 \x01(\x09R\x0cdefaultVal\
    ue\x12\x1f\x0a\x0boneof_index\x18\x09 \x01(\x05R\x0aoneofIndex\x12\x1b\x0a\x09json_name\x18\x0a\
    \x20\x01(\x09R\x08jsonName\x127\x0a\x07options\x18\x08 \x01(\x0b2\x1d.google.protobuf.FieldOpti\
    onsR\x07options\x12'\x0a\x0fproto3_optional\x18\x11 \x01(\x08R\x0eproto3Optional\"\xb6\x02\x0a\
    \x04Type\x12\x0f\x0a\x0bTYPE_DOUBLE\x10\x01\x12\x0e\x0a\x0aTYPE_FLOAT\x10\x02\x12\x0e\x0a\x0aTY\
    PE_INT64\x10\x03\x12\x0f\x0a\x0bTYPE_UINT64\x10\x04\x12\x0e\x0a\x0aTYPE_INT32\x10\x05\x12\x10\
    \x0a\x0cTYPE_FIXED64\x10\x06\x12\x10\x0a\x0cTYPE_FIXED32\x10\x07\x12\x0d\x0a\x09TYPE_BOOL\x10\
    \x08\x12\x0f\x0a\x0bTYPE_STRING\x10\x09\x12\x0e\x0a\x0aTYPE_GROUP\x10\x0a\x12\x10\x0a\x0cTYPE_M\
    ESSAGE\x10\x0b\x12\x0e\x0a\x0aTYPE_BYTES\x10\x0c\x12\x0f\x0a\x0bTYPE_UINT32\x10\x0d\x12\x0d\x0a\
    \x09TYPE_ENUM\x10\x0e\x12\x11\x0a\x0dTYPE_SFIXED32\x10\x0f\x12\x11\x0a\x0dTYPE_SFIXED64\x10\x10\
    \x12\x0f\x0a\x0bTYPE_SINT32\x10\x11\x12\x0f\x0a\x0bTYPE_SINT64\x10\x12\"C\x0a\x05Label\x12\x12\
    \x0a\x0eLABEL_OPTIONAL\x10\x01\x12\x12\x0a\x0eLABEL_REQUIRED\x10\x02\x12\x12\x0a\x0eLABEL_REPEA\
    TED\x10\x03\"c\x0a\x14OneofDescriptorProto\x12\x12\x0a\x04name\x18\x01 \x01(\x09R\x04name\x127\
    \x0a\x07options\x18\x02 \x01(\x0b2\x1d.google.protobuf.OneofOptionsR\x07options\"\xe3\x02\x0a\
    \x13EnumDescriptorProto\x12\x12\x0a\x04name\x18\x01 \x01(\x09R\x04name\x12?\x0a\x05value\x18\
    \x02 \x03(\x0b2).google.protobuf.EnumValueDescriptorProtoR\x05value\x126\x0a\x07options\x18\x03\
    \x20\x01(\x0b2\x1c.google.protobuf.EnumOptionsR\x07options\x12]\x0a\x0ereserved_range\x18\x04 \
    \x03(\x0b26.google.protobuf.EnumDescriptorProto.EnumReservedRangeR\x0dreservedRange\x12#\x0a\
    \x0dreserved_name\x18\x05 \x03(\x09R\x0creservedName\x1a;\x0a\x11EnumReservedRange\x12\x14\x0a\
    \x05start\x18\x01 \x01(\x05R\x05start\x12\x10\x0a\x03end\x18\x02 \x01(\x05R\x03end\"\x83\x01\
    \x0a\x18EnumValueDescriptorProto\x12\x12\x0a\x04name\x18\x01 \x01(\x09R\x04name\x12\x16\x0a\x06\
    number\x18\x02 \x01(\x05R\x06number\x12;\x0a\x07options\x18\x03 \x01(\x0b2!.google.protobuf.Enu\
    mValueOptionsR\x07options\"\xa7\x01\x0a\x16ServiceDescriptorProto\x12\x12\x0a\x04name\x18\x01 \
    \x01(\x09R\x04name\x12>\x0a\x06method\x18\x02 \x03(\x0b2&.google.protobuf.MethodDescriptorProto\
    R\x06method\x129\x0a\x07options\x18\x03 \x01(\x0b2\x1f.google.protobuf.ServiceOptionsR\x07optio\
    ns\"\x89\x02\x0a\x15MethodDescriptorProto\x12\x12\x0a\x04name\x18\x01 \x01(\x09R\x04name\x12\
    \x1d\x0a\x0ainput_type\x18\x02 \x01(\x09R\x09inputType\x12\x1f\x0a\x0boutput_type\x18\x03 \x01(\
    \x09R\x0aoutputType\x128\x0a\x07options\x18\x04 \x01(\x0b2\x1e.google.protobuf.MethodOptionsR\
    \x07options\x120\x0a\x10client_streaming\x18\x05 \x01(\x08:\x05falseR\x0fclientStreaming\x120\
    \x0a\x10server_streaming\x18\x06 \x01(\x08:\x05falseR\x0fserverStreaming\"\x91\x09\x0a\x0bFileO\
    ptions\x12!\x0a\x0cjava_package\x18\x01 \x01(\x09R\x0bjavaPackage\x120\x0a\x14java_outer_classn\
    ame\x18\x08 \x01(\x09R\x12javaOuterClassname\x125\x0a\x13java_multiple_files\x18\x0a \x01(\x08:\
    \x05falseR\x11javaMultipleFiles\x12D\x0a\x1djava_generate_equals_and_hash\x18\x14 \x01(\x08B\
    \x02\x18\x01R\x19javaGenerateEqualsAndHash\x12:\x0a\x16java_string_check_utf8\x18\x1b \x01(\x08\
    :\x05falseR\x13javaStringCheckUtf8\x12S\x0a\x0coptimize_for\x18\x09 \x01(\x0e2).google.protobuf\
    .FileOptions.OptimizeMode:\x05SPEEDR\x0boptimizeFor\x12\x1d\x0a\x0ago_package\x18\x0b \x01(\x09\
    R\x09goPackage\x125\x0a\x13cc_generic_services\x18\x10 \x01(\x08:\x05falseR\x11ccGenericService\
    s\x129\x0a\x15java_generic_services\x18\x11 \x01(\x08:\x05falseR\x13javaGenericServices\x125\
    \x0a\x13py_generic_services\x18\x12 \x01(\x08:\x05falseR\x11pyGenericServices\x127\x0a\x14php_g\
    eneric_services\x18* \x01(\x08:\x05falseR\x12phpGenericServices\x12%\x0a\x0adeprecated\x18\x17 \
    \x01(\x08:\x05falseR\x0adeprecated\x12.\x0a\x10cc_enable_arenas\x18\x1f \x01(\x08:\x04trueR\x0e\
    ccEnableArenas\x12*\x0a\x11objc_class_prefix\x18$ \x01(\x09R\x0fobjcClassPrefix\x12)\x0a\x10csh\
    arp_namespace\x18% \x01(\x09R\x0fcsharpNamespace\x12!\x0a\x0cswift_prefix\x18' \x01(\x09R\x0bsw\
    iftPrefix\x12(\x0a\x10php_class_prefix\x18( \x01(\x09R\x0ephpClassPrefix\x12#\x0a\x0dphp_namesp\
    ace\x18) \x01(\x09R\x0cphpNamespace\x124\x0a\x16php_metadata_namespace\x18, \x01(\x09R\x14phpMe\
    tadataNamespace\x12!\x0a\x0cruby_package\x18- \x01(\x09R\x0brubyPackage\x12X\x0a\x14uninterpret\
    ed_option\x18\xe7\x07 \x03(\x0b2$.google.protobuf.UninterpretedOptionR\x13uninterpretedOption\"\
    :\x0a\x0cOptimizeMode\x12\x09\x0a\x05SPEED\x10\x01\x12\x0d\x0a\x09CODE_SIZE\x10\x02\x12\x10\x0a\
    \x0cLITE_RUNTIME\x10\x03*\x09\x08\xe8\x07\x10\x80\x80\x80\x80\x02J\x04\x08&\x10'\"\xe3\x02\x0a\
    \x0eMessageOptions\x12<\x0a\x17message_set_wire_format\x18\x01 \x01(\x08:\x05falseR\x14messageS\
    etWireFormat\x12L\x0a\x1fno_standard_descriptor_accessor\x18\x02 \x01(\x08:\x05falseR\x1cnoStan\
    dardDescriptorAccessor\x12%\x0a\x0adeprecated\x18\x03 \x01(\x08:\x05falseR\x0adeprecated\x12\
    \x1b\x0a\x09map_entry\x18\x07 \x01(\x08R\x08mapEntry\x12X\x0a\x14uninterpreted_option\x18\xe7\
    \x07 \x03(\x0b2$.google.protobuf.UninterpretedOptionR\x13uninterpretedOption*\x09\x08\xe8\x07\
    \x10\x80\x80\x80\x80\x02J\x04\x08\x04\x10\x05J\x04\x08\x05\x10\x06J\x04\x08\x06\x10\x07J\x04\
    \x08\x08\x10\x09J\x04\x08\x09\x10\x0a\"\x92\x04\x0a\x0cFieldOptions\x12A\x0a\x05ctype\x18\x01 \
    \x01(\x0e2#.google.protobuf.FieldOptions.CType:\x06STRINGR\x05ctype\x12\x16\x0a\x06packed\x18\
    \x02 \x01(\x08R\x06packed\x12G\x0a\x06jstype\x18\x06 \x01(\x0e2$.google.protobuf.FieldOptions.J\
    SType:\x09JS_NORMALR\x06jstype\x12\x19\x0a\x04lazy\x18\x05 \x01(\x08:\x05falseR\x04lazy\x12.\
    \x0a\x0funverified_lazy\x18\x0f \x01(\x08:\x05falseR\x0eunverifiedLazy\x12%\x0a\x0adeprecated\
    \x18\x03 \x01(\x08:\x05falseR\x0adeprecated\x12\x19\x0a\x04weak\x18\x0a \x01(\x08:\x05falseR\
    \x04weak\x12X\x0a\x14uninterpreted_option\x18\xe7\x07 \x03(\x0b2$.google.protobuf.Uninterpreted\
    OptionR\x13uninterpretedOption\"/\x0a\x05CType\x12\x0a\x0a\x06STRING\x10\x00\x12\x08\x0a\x04COR\
    D\x10\x01\x12\x10\x0a\x0cSTRING_PIECE\x10\x02\"5\x0a\x06JSType\x12\x0d\x0a\x09JS_NORMAL\x10\x00\
    \x12\x0d\x0a\x09JS_STRING\x10\x01\x12\x0d\x0a\x09JS_NUMBER\x10\x02*\x09\x08\xe8\x07\x10\x80\x80\
    \x80\x80\x02J\x04\x08\x04\x10\x05\"s\x0a\x0cOneofOptions\x12X\x0a\x14uninterpreted_option\x18\
    \xe7\x07 \x03(\x0b2$.google.protobuf.UninterpretedOptionR\x13uninterpretedOption*\x09\x08\xe8\
    \x07\x10\x80\x80\x80\x80\x02\"\xc0\x01\x0a\x0bEnumOptions\x12\x1f\x0a\x0ballow_alias\x18\x02 \
    \x01(\x08R\x0aallowAlias\x12%\x0a\x0adeprecated\x18\x03 \x01(\x08:\x05falseR\x0adeprecated\x12X\
    \x0a\x14uninterpreted_option\x18\xe7\x07 \x03(\x0b2$.google.protobuf.UninterpretedOptionR\x13un\
    interpretedOption*\x09\x08\xe8\x07\x10\x80\x80\x80\x80\x02J\x04\x08\x05\x10\x06\"\x9e\x01\x0a\
    \x10EnumValueOptions\x12%\x0a\x0adeprecated\x18\x01 \x01(\x08:\x05falseR\x0adeprecated\x12X\x0a\
    \x14uninterpreted_option\x18\xe7\x07 \x03(\x0b2$.google.protobuf.UninterpretedOptionR\x13uninte\
    rpretedOption*\x09\x08\xe8\x07\x10\x80\x80\x80\x80\x02\"\x9c\x01\x0a\x0eServiceOptions\x12%\x0a\
    \x0adeprecated\x18! \x01(\x08:\x05falseR\x0adeprecated\x12X\x0a\x14uninterpreted_option\x18\xe7\
    \x07 \x03(\x0b2$.google.protobuf.UninterpretedOptionR\x13uninterpretedOption*\x09\x08\xe8\x07\
    \x10\x80\x80\x80\x80\x02\"\xe0\x02\x0a\x0dMethodOptions\x12%\x0a\x0adeprecated\x18! \x01(\x08:\
    \x05falseR\x0adeprecated\x12q\x0a\x11idempotency_level\x18\" \x01(\x0e2/.google.protobuf.Method\
    Options.IdempotencyLevel:\x13IDEMPOTENCY_UNKNOWNR\x10idempotencyLevel\x12X\x0a\x14uninterpreted\
    _option\x18\xe7\x07 \x03(\x0b2$.google.protobuf.UninterpretedOptionR\x13uninterpretedOption\"P\
    \x0a\x10IdempotencyLevel\x12\x17\x0a\x13IDEMPOTENCY_UNKNOWN\x10\x00\x12\x13\x0a\x0fNO_SIDE_EFFE\
    CTS\x10\x01\x12\x0e\x0a\x0aIDEMPOTENT\x10\x02*\x09\x08\xe8\x07\x10\x80\x80\x80\x80\x02\"\x9a\
    \x03\x0a\x13UninterpretedOption\x12A\x0a\x04name\x18\x02 \x03(\x0b2-.google.protobuf.Uninterpre\
    tedOption.NamePartR\x04name\x12)\x0a\x10identifier_value\x18\x03 \x01(\x09R\x0fidentifierValue\
    \x12,\x0a\x12positive_int_value\x18\x04 \x01(\x04R\x10positiveIntValue\x12,\x0a\x12negative_int\
    _value\x18\x05 \x01(\x03R\x10negativeIntValue\x12!\x0a\x0cdouble_value\x18\x06 \x01(\x01R\x0bdo\
    ubleValue\x12!\x0a\x0cstring_value\x18\x07 \x01(\x0cR\x0bstringValue\x12'\x0a\x0faggregate_valu\
    e\x18\x08 \x01(\x09R\x0eaggregateValue\x1aJ\x0a\x08NamePart\x12\x1b\x0a\x09name_part\x18\x01 \
    \x02(\x09R\x08namePart\x12!\x0a\x0cis_extension\x18\x02 \x02(\x08R\x0bisExtension\"\xa7\x02\x0a\
    \x0eSourceCodeInfo\x12D\x0a\x08location\x18\x01 \x03(\x0b2(.google.protobuf.SourceCodeInfo.Loca\
    tionR\x08location\x1a\xce\x01\x0a\x08Location\x12\x16\x0a\x04path\x18\x01 \x03(\x05B\x02\x10\
    \x01R\x04path\x12\x16\x0a\x04span\x18\x02 \x03(\x05B\x02\x10\x01R\x04span\x12)\x0a\x10leading_c\
    omments\x18\x03 \x01(\x09R\x0fleadingComments\x12+\x0a\x11trailing_comments\x18\x04 \x01(\x09R\
    \x10trailingComments\x12:\x0a\x19leading_detached_comments\x18\x06 \x03(\x09R\x17leadingDetache\
    dComments\"\xd1\x01\x0a\x11GeneratedCodeInfo\x12M\x0a\x0aannotation\x18\x01 \x03(\x0b2-.google.\
    protobuf.GeneratedCodeInfo.AnnotationR\x0aannotation\x1am\x0a\x0aAnnotation\x12\x16\x0a\x04path\
    \x18\x01 \x03(\x05B\x02\x10\x01R\x04path\x12\x1f\x0a\x0bsource_file\x18\x02 \x01(\x09R\x0asourc\
    eFile\x12\x14\x0a\x05begin\x18\x03 \x01(\x05R\x05begin\x12\x10\x0a\x03end\x18\x04 \x01(\x05R\
    \x03endB~\x0a\x13com.google.protobufB\x10DescriptorProtosH\x01Z-google.golang.org/protobuf/type\
    s/descriptorpb\xf8\x01\x01\xa2\x02\x03GPB\xaa\x02\x1aGoogle.Protobuf.Reflection";

/// Some of the lines that its descriptors give, in the format of `scripts/describe`, as protobuf's own descriptors answer.
static LINES: [&str; 5] = [
    "field google.protobuf.FileOptions.optimize_for path=4.10.2.5 json=optimizeFor number=9 kind=Enum:google.protobuf.FileOptions.OptimizeMode wire=0 cardinality=Optional presence=true packed=false group=false list=false map=false required=false oneof=-",
    "message google.protobuf.FieldOptions name=FieldOptions file=google/protobuf/descriptor.proto package=google.protobuf path=4.12 parent=- entry=false fields=ctype,packed,deprecated,lazy,jstype,weak,unverified_lazy,uninterpreted_option oneofs=- child_messages=- child_enums=google.protobuf.FieldOptions.CType,google.protobuf.FieldOptions.JSType child_extensions=- extensions=- reserved=4-5 reserved_names=- ranges=1000-536870912",
    "field google.protobuf.SourceCodeInfo.Location.span path=4.19.3.0.2.1 json=span number=2 kind=Int32 wire=0 cardinality=Repeated presence=false packed=true group=false list=true map=false required=false oneof=-",
    "enum google.protobuf.FieldDescriptorProto.Type name=Type file=google/protobuf/descriptor.proto package=google.protobuf path=4.4.4.0 parent=google.protobuf.FieldDescriptorProto closed=true default=TYPE_DOUBLE reserved=- reserved_names=-",
    "value google.protobuf.FieldDescriptorProto.TYPE_GROUP enum=google.protobuf.FieldDescriptorProto.Type number=10 path=4.4.4.0.2.9",
];

/// How many bytes all the lines are.
const LENGTH: usize = 45001;

/// Whether the schema is relayed as it is, by the type of descriptor sets.
fn relays_schema(alloc: Global, set: &MessageDescriptor) -> Result<bool, RelayError> {
    Ok(relay(alloc, set, SCHEMA)?.as_slice() == SCHEMA)
}

/// It is told, and is itself a message of the type that it defines for descriptor sets.
#[test]
fn the_schema_of_descriptor_sets_is_told_and_relays_itself(rt: HostRuntime) -> Result<(), Fail> {
    let pool = pool_of(rt.alloc(), SCHEMA)?;
    let text = describe(rt.alloc(), pool)?;
    assert_eq!(rt; text.len(), LENGTH);
    for line in LINES {
        assert!(rt; text.contains(line), "{line}");
    }
    let set = message_of(rt.alloc(), pool, "google.protobuf.FileDescriptorSet")?;
    assert!(rt; relays_schema(rt.alloc(), set)?);
    Ok(())
}
