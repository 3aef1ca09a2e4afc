//! The definitions of files in flat lists, with what their texts mean: what the checks and linking read of records.
//!
//! `flattened` puts each definition into a list, with its full name, its path and the message around it. It promises that the lists
//! are those of the definitions, by file and then by path (`specs/Flat` of `prost_reflect_tables`); `specs/FlatViews` says which
//! rows of the definitions the lists are, wherever they lie in memory. `written_default` reads a default as its field writes it,
//! `bool_option` the bool of a number in option bytes, and `name_lists` gives the names of files and of definitions.
//!
//! No pool stands below this crate, and none needs it: a pool looks at linked tables alone. What adds files to one needs both.
//!
//! Begin with `definitions`, which says what stands in the lists, and `flatten`, which leads from records to them; the other modules
//! stand alone.
#![tactic(auto)]

mod defaults;
mod definitions;
mod flatten;
mod name_lists;
mod options;

pub use defaults::written_default;
pub use definitions::{Definition, DefinitionRef, Flat, FlatEnum, FlatMessage, FlatService};
pub use flatten::{flattened, is_proto3};
pub use name_lists::{add_names, enum_names, file_names, message_names};
pub use options::{bool_option, is_entry};
