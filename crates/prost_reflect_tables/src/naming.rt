//! How the rows of definitions are named.

ghost use Rattle.std.specs.Prelude.{◌≡◌};
ghost use Rattle.prost_reflect_tables.specs.Rows.{field_row, identity_row};

use crate::tables::{FieldTable, Identity};

impl Identity {
    /// The package, the enclosing definitions and the name, joined by dots.
    pub fn full_name(&self) -> &str
        ensures { result.now ≡ (identity_row self.now).full_name }
    {
        self.names.full_name()
    }

    /// The definition's own name, without its scope.
    pub fn name(&self) -> &str
        ensures { result.now ≡ (identity_row self.now).name }
    {
        self.names.name()
    }
}

impl FieldTable {
    /// The name in JSON.
    pub fn json_name(&self) -> &str
        ensures { result.now ≡ (field_row self.now).json_name }
    {
        match &self.json_name {
            Some(name) => name.as_str(),
            None => self.id.name(),
        }
    }
}
