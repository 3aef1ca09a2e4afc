//! What descriptors tell of a pool besides its rows, and reading and writing messages do not need: what each definition encloses,
//! services, and places in the order of names.

use crate::tables::Identity;
use prost_reflect_shared::shared_list::SharedList;
use prost_reflect_shared::shared_slice::SharedSlice;

/// What stands in a file.
#[derive(Drop)]
pub struct FileTable {
    /// The message types at the top of the file, as places in the pool's list, in the order of their declaration.
    pub messages: Vec<usize>,
    /// The enums at the top of the file, alike.
    pub enums: Vec<usize>,
    /// The extensions at the top of the file, alike.
    pub extensions: Vec<usize>,
    /// The services, alike.
    pub services: Vec<usize>,
    /// The places of the files that the file imports, in the order of the imports.
    pub dependencies: Vec<usize>,
    /// The places of those that it imports publicly.
    pub public_dependencies: Vec<usize>,
    /// Whether the file is of proto3.
    pub is_proto3: bool,
}

/// What is declared in a message type, and what is looked up in it.
#[derive(Drop)]
pub struct MessageLists {
    /// The message types declared in it, as places in the pool's list, in the order of their declaration.
    pub messages: Vec<usize>,
    /// The enums declared in it, alike.
    pub enums: Vec<usize>,
    /// The extensions declared in it, alike, whatever they extend.
    pub extensions: Vec<usize>,
    /// The extensions of this message type, wherever they are declared, as places in the pool's list, in its order.
    pub extending: Vec<usize>,
    /// The places of its fields without extensions, in ascending order of their numbers.
    pub fields: Vec<usize>,
    /// The places of these fields, in the order of their names.
    pub by_name: Vec<usize>,
    /// The places of these fields, in the order of their names in JSON; those of one such name in ascending order of their numbers.
    pub by_json_name: Vec<usize>,
}

/// What is looked up in an enum.
#[derive(Drop)]
pub struct EnumLists {
    /// The places of the values, by their names.
    pub by_name: Vec<usize>,
    /// The places of the values, by their numbers; values of one number in the order of their declaration.
    pub by_number: Vec<usize>,
}

/// Where the row of an extension stands.
#[derive(Drop)]
pub struct ExtensionTable {
    /// The place of the message type that it extends.
    pub message: usize,
    /// The place of its row among the fields of that message type.
    pub field: usize,
}

/// A method of a service.
#[derive(Drop)]
pub struct MethodTable {
    /// Where it stands.
    pub id: Identity,
    /// The place of the message type that it takes.
    pub input: usize,
    /// The place of the message type that it answers with.
    pub output: usize,
}

/// A service.
pub struct ServiceTable {
    /// Where it stands.
    pub id: Identity,
    /// The methods in the order of their declaration.
    pub methods: Vec<MethodTable>,
}

impl Drop for ServiceTable {
    fn drop(self) {
        let ServiceTable { id: _, methods: _ } = self;
    }
}

/// The places of all definitions of a sort, by their full names.
#[derive(Drop)]
pub struct SortedPlaces {
    /// The files, by their names.
    pub files: SharedSlice<usize>,
    /// The message types.
    pub messages: SharedSlice<usize>,
    /// The enums.
    pub enums: SharedSlice<usize>,
    /// The extensions.
    pub extensions: SharedSlice<usize>,
    /// The services.
    pub services: SharedSlice<usize>,
    /// The values of all enums, each as the place of its enum and its place among the values of that enum; of values of one full
    /// name the first, in the order of the enums and then of their declaration, stands first.
    pub values: SharedSlice<(usize, usize)>,
}

/// What descriptors tell of a pool besides its rows.
pub struct Catalog {
    /// The files, as they were added.
    pub files: SharedList<FileTable>,
    /// The lists of each message type.
    pub messages: SharedList<MessageLists>,
    /// The lists of each enum.
    pub enums: SharedList<EnumLists>,
    /// The extensions, by file and then by path.
    pub extensions: SharedList<ExtensionTable>,
    /// The services, by file and then by path.
    pub services: SharedList<ServiceTable>,
    /// The places of all of them, by their full names.
    pub by_name: SortedPlaces,
}

impl Drop for Catalog {
    fn drop(self) {
        let Catalog {
            files: _,
            messages: _,
            enums: _,
            extensions: _,
            services: _,
            by_name: _,
        } = self;
    }
}
