//! What the records of a descriptor set hold, and that their copies and their equality go by it.

ghost use Rattle.std.specs.Prelude.{◌≡◌, refl};
ghost use Rattle.prost_reflect_wire.specs.Content.{Content};
ghost use Rattle.prost_reflect_wire.specs.ContentEquality.{content_eq};
ghost use Rattle.prost_reflect_types.specs.DescriptorViews.{of_extension_range, of_reserved_range, of_field, of_oneof, of_enum_reserved_range, of_enum_value, of_enum, of_method, of_service, of_message, of_file, of_file_set};

use crate::{
    DescriptorProto, EnumDescriptorProto, EnumReservedRange, EnumValueDescriptorProto,
    ExtensionRange, FieldDescriptorProto, FileDescriptorProto, FileDescriptorSet,
    MethodDescriptorProto, OneofDescriptorProto, ReservedRange, ServiceDescriptorProto,
};

/// What is seen as the content of a descriptor record.
pub trait HasContent {
    ghost content: { Self → Content };
}

/// A descriptor record that owns what it holds: its copies hold the same, and its equality compares all that it holds.
pub trait OwnedRecord: HasContent + Clone + PartialEq + Sized {
    ghost copies: { (p copied : Self) → Self.is_clone p copied → Self.content copied ≡ Self.content p };

    ghost compares: { (a b : Self) → Self.eq a b ≡ content_eq (Self.content a) (Self.content b) };
}

impl HasContent for ExtensionRange {
    ghost content = { of_extension_range };
}

impl OwnedRecord for ExtensionRange {
    ghost copies = { λ _ _ same. same };

    ghost compares = { λ _ _. refl };
}

impl HasContent for ReservedRange {
    ghost content = { of_reserved_range };
}

impl OwnedRecord for ReservedRange {
    ghost copies = { λ _ _ same. same };

    ghost compares = { λ _ _. refl };
}

impl HasContent for FieldDescriptorProto {
    ghost content = { of_field };
}

impl OwnedRecord for FieldDescriptorProto {
    ghost copies = { λ _ _ same. same };

    ghost compares = { λ _ _. refl };
}

impl HasContent for OneofDescriptorProto {
    ghost content = { of_oneof };
}

impl OwnedRecord for OneofDescriptorProto {
    ghost copies = { λ _ _ same. same };

    ghost compares = { λ _ _. refl };
}

impl HasContent for EnumReservedRange {
    ghost content = { of_enum_reserved_range };
}

impl OwnedRecord for EnumReservedRange {
    ghost copies = { λ _ _ same. same };

    ghost compares = { λ _ _. refl };
}

impl HasContent for EnumValueDescriptorProto {
    ghost content = { of_enum_value };
}

impl OwnedRecord for EnumValueDescriptorProto {
    ghost copies = { λ _ _ same. same };

    ghost compares = { λ _ _. refl };
}

impl HasContent for EnumDescriptorProto {
    ghost content = { of_enum };
}

impl OwnedRecord for EnumDescriptorProto {
    ghost copies = { λ _ _ same. same };

    ghost compares = { λ _ _. refl };
}

impl HasContent for MethodDescriptorProto {
    ghost content = { of_method };
}

impl OwnedRecord for MethodDescriptorProto {
    ghost copies = { λ _ _ same. same };

    ghost compares = { λ _ _. refl };
}

impl HasContent for ServiceDescriptorProto {
    ghost content = { of_service };
}

impl OwnedRecord for ServiceDescriptorProto {
    ghost copies = { λ _ _ same. same };

    ghost compares = { λ _ _. refl };
}

impl HasContent for DescriptorProto {
    ghost content = { of_message };
}

impl OwnedRecord for DescriptorProto {
    ghost copies = { λ _ _ same. same };

    ghost compares = { λ _ _. refl };
}

impl HasContent for FileDescriptorProto {
    ghost content = { of_file };
}

impl OwnedRecord for FileDescriptorProto {
    ghost copies = { λ _ _ same. same };

    ghost compares = { λ _ _. refl };
}

impl HasContent for FileDescriptorSet {
    ghost content = { of_file_set };
}

impl OwnedRecord for FileDescriptorSet {
    ghost copies = { λ _ _ same. same };

    ghost compares = { λ _ _. refl };
}
