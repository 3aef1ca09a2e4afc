//! Which fields each descriptor record has.

ghost use Rattle.std.specs.Prelude.{◌≡◌};
ghost use Rattle.prost_reflect_types.specs.DescriptorTable.{rows};

/// The records of a descriptor set.
#[derive(Clone, Copy, Debug, PartialEq, Eq)]
pub enum RecordType {
    /// `FileDescriptorSet`.
    FileSet,
    /// `FileDescriptorProto`.
    File,
    /// `DescriptorProto`.
    Message,
    /// `DescriptorProto.ExtensionRange`.
    ExtensionRange,
    /// `DescriptorProto.ReservedRange`.
    ReservedRange,
    /// `FieldDescriptorProto`.
    Field,
    /// `OneofDescriptorProto`.
    Oneof,
    /// `EnumDescriptorProto`.
    Enum,
    /// `EnumDescriptorProto.EnumReservedRange`.
    EnumReservedRange,
    /// `EnumValueDescriptorProto`.
    EnumValue,
    /// `ServiceDescriptorProto`.
    Service,
    /// `MethodDescriptorProto`.
    Method,
}

/// What a field of a descriptor record holds.
#[derive(Clone, Copy, Debug, PartialEq, Eq)]
pub enum FieldKind {
    /// A text, or none.
    Text,
    /// An `int32`, or none.
    Number,
    /// A `bool`, or none.
    Flag,
    /// Raw bytes, or none.
    Bytes,
    /// Texts.
    Texts,
    /// `int32`s.
    Numbers,
    /// Records of a type.
    Records(RecordType),
}

impl RecordType {
    /// The number and the kind of each field, in ascending number.
    pub fn rows(self) -> &'static [(u32, FieldKind)]
        ensures { result.now ≡ rows self }
    {
        match self {
            RecordType::FileSet => &[(1, FieldKind::Records(RecordType::File))],
            RecordType::File => &[
                (1, FieldKind::Text),
                (2, FieldKind::Text),
                (3, FieldKind::Texts),
                (4, FieldKind::Records(RecordType::Message)),
                (5, FieldKind::Records(RecordType::Enum)),
                (6, FieldKind::Records(RecordType::Service)),
                (7, FieldKind::Records(RecordType::Field)),
                (8, FieldKind::Bytes),
                (9, FieldKind::Bytes),
                (10, FieldKind::Numbers),
                (11, FieldKind::Numbers),
                (12, FieldKind::Text),
            ],
            RecordType::Message => &[
                (1, FieldKind::Text),
                (2, FieldKind::Records(RecordType::Field)),
                (3, FieldKind::Records(RecordType::Message)),
                (4, FieldKind::Records(RecordType::Enum)),
                (5, FieldKind::Records(RecordType::ExtensionRange)),
                (6, FieldKind::Records(RecordType::Field)),
                (7, FieldKind::Bytes),
                (8, FieldKind::Records(RecordType::Oneof)),
                (9, FieldKind::Records(RecordType::ReservedRange)),
                (10, FieldKind::Texts),
            ],
            RecordType::ExtensionRange => &[
                (1, FieldKind::Number),
                (2, FieldKind::Number),
                (3, FieldKind::Bytes),
            ],
            RecordType::ReservedRange => &[(1, FieldKind::Number), (2, FieldKind::Number)],
            RecordType::Field => &[
                (1, FieldKind::Text),
                (2, FieldKind::Text),
                (3, FieldKind::Number),
                (4, FieldKind::Number),
                (5, FieldKind::Number),
                (6, FieldKind::Text),
                (7, FieldKind::Text),
                (8, FieldKind::Bytes),
                (9, FieldKind::Number),
                (10, FieldKind::Text),
                (17, FieldKind::Flag),
            ],
            RecordType::Oneof => &[(1, FieldKind::Text), (2, FieldKind::Bytes)],
            RecordType::Enum => &[
                (1, FieldKind::Text),
                (2, FieldKind::Records(RecordType::EnumValue)),
                (3, FieldKind::Bytes),
                (4, FieldKind::Records(RecordType::EnumReservedRange)),
                (5, FieldKind::Texts),
            ],
            RecordType::EnumReservedRange => &[(1, FieldKind::Number), (2, FieldKind::Number)],
            RecordType::EnumValue => &[
                (1, FieldKind::Text),
                (2, FieldKind::Number),
                (3, FieldKind::Bytes),
            ],
            RecordType::Service => &[
                (1, FieldKind::Text),
                (2, FieldKind::Records(RecordType::Method)),
                (3, FieldKind::Bytes),
            ],
            RecordType::Method => &[
                (1, FieldKind::Text),
                (2, FieldKind::Text),
                (3, FieldKind::Text),
                (4, FieldKind::Bytes),
                (5, FieldKind::Flag),
                (6, FieldKind::Flag),
            ],
        }
    }
}
