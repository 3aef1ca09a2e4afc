//! A definition with its full name, its path and what encloses it, and flat lists of such.

ghost use Rattle.std.specs.Prelude.{◌≡◌, ◌+◌, length, IfOk};
ghost use Rattle.prost_reflect_flat.specs.FlatViews.{definition_row, lent_row};

use prost_reflect_types::{
    DescriptorProto, EnumDescriptorProto, EnumValueDescriptorProto, FieldDescriptorProto,
    MethodDescriptorProto, OneofDescriptorProto, ServiceDescriptorProto,
};
use std::alloc::AllocError;

/// Where definitions stand.
#[derive(Clone, Copy)]
pub struct Scope<'a> {
    /// The full name of what encloses them.
    pub name: &'a str,
    /// Its path.
    pub path: &'a [i32],
    /// The place of their file.
    pub file: usize,
    /// Whether the file is of proto3.
    pub is_proto3: bool,
    /// The place of the message around them.
    pub parent: Option<usize>,
}

/// A definition with its record.
pub struct Definition<'a, R> {
    /// The package, the enclosing definitions and the name, joined by dots.
    pub full_name: String,
    /// The path in the file.
    pub path: Vec<i32>,
    /// The place of the file.
    pub file: usize,
    /// Whether the file is of proto3.
    pub is_proto3: bool,
    /// The place of the message around it.
    pub parent: Option<usize>,
    /// The record.
    pub proto: &'a R,
}

impl<'a, R> Drop for Definition<'a, R> {
    fn drop(self) {
        let Definition {
            full_name: _,
            path: _,
            file: _,
            is_proto3: _,
            parent: _,
            proto: _,
        } = self;
    }
}

/// A definition that is lent.
pub struct DefinitionRef<'f, R> {
    /// Its full name.
    pub full_name: &'f str,
    /// Its path.
    pub path: &'f [i32],
    /// The place of the file.
    pub file: usize,
    /// Whether the file is of proto3.
    pub is_proto3: bool,
    /// The place of the message around it.
    pub parent: Option<usize>,
    /// The record.
    pub proto: &'f R,
}

impl<'f, R> Drop for DefinitionRef<'f, R> {
    fn drop(self) {
        let DefinitionRef {
            full_name: _,
            path: _,
            file: _,
            is_proto3: _,
            parent: _,
            proto: _,
        } = self;
    }
}

impl<'a, R> Definition<'a, R> {
    /// Lends the definition.
    pub fn lend<'f>(&'f self) -> DefinitionRef<'f, R>
        ensures { lent_row result ≡ definition_row self.now }
    {
        DefinitionRef {
            full_name: self.full_name.as_str(),
            path: self.path.as_slice(),
            file: self.file,
            is_proto3: self.is_proto3,
            parent: self.parent,
            proto: self.proto,
        }
    }
}

/// A message with the definitions in it that no other message has.
pub struct FlatMessage<'a> {
    /// The message itself.
    pub definition: Definition<'a, DescriptorProto>,
    /// Its fields.
    pub fields: Vec<Definition<'a, FieldDescriptorProto>>,
    /// Its oneofs.
    pub oneofs: Vec<Definition<'a, OneofDescriptorProto>>,
}

impl<'a> Drop for FlatMessage<'a> {
    fn drop(self) {
        let FlatMessage {
            definition: _,
            fields: _,
            oneofs: _,
        } = self;
    }
}

/// An enum with its values.
pub struct FlatEnum<'a> {
    /// The enum itself.
    pub definition: Definition<'a, EnumDescriptorProto>,
    /// Its values.
    pub values: Vec<Definition<'a, EnumValueDescriptorProto>>,
}

impl<'a> Drop for FlatEnum<'a> {
    fn drop(self) {
        let FlatEnum {
            definition: _,
            values: _,
        } = self;
    }
}

/// A service with its methods.
pub struct FlatService<'a> {
    /// The service itself.
    pub definition: Definition<'a, ServiceDescriptorProto>,
    /// Its methods.
    pub methods: Vec<Definition<'a, MethodDescriptorProto>>,
}

impl<'a> Drop for FlatService<'a> {
    fn drop(self) {
        let FlatService {
            definition: _,
            methods: _,
        } = self;
    }
}

/// The definitions of files, by file and then by path.
#[derive(Drop)]
pub struct Flat<'a> {
    /// How many messages of other files stand in front of these.
    pub before: usize,
    /// The messages, nested ones too.
    pub messages: Vec<FlatMessage<'a>>,
    /// The enums, nested ones too.
    pub enums: Vec<FlatEnum<'a>>,
    /// The extensions, nested ones too.
    pub extensions: Vec<Definition<'a, FieldDescriptorProto>>,
    /// The services.
    pub services: Vec<FlatService<'a>>,
}

impl<'a> Flat<'a> {
    /// The place of the next message.
    ///
    /// # Errors
    ///
    /// `AllocError` if the place passes the greatest `usize`, as no memory holds so many messages.
    pub(crate) fn next_place(&self) -> Result<usize, AllocError>
        ensures { IfOk result (λ n. n ≡ self.now.before + length self.now.messages.items) }
    {
        self.before
            .checked_add(self.messages.len())
            .ok_or(AllocError)
    }
}
