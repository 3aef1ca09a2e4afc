//! Why a message type is no reduction of another: the fault, and where it stands.

ghost use Rattle.std.specs.Prelude.{◌≡◌};

use std::fmt;

/// What a definition of the older type differs in from the newer type, so that it is no reduction.
///
/// But for `MapEntry`, which is a fault of a message type, each is one of the field of a number. Values of a map are compared
/// at the map's field.
#[derive(Clone, Copy, Debug, PartialEq, Eq)]
pub enum ReductionFaultKind {
    /// One of the two types alone is that of a map's entries, or the older one lacks a field of the entries.
    MapEntry,
    /// The older type has a field of the number, and the newer type has none.
    Number,
    /// The number shares a oneof with a number in one of the types, and not with that number in the other.
    Oneof,
    /// The number is an extension's in one of the types alone.
    Extension,
    /// The field is repeated in one of the types alone, or required in one of them alone.
    Cardinality,
    /// Both fields are repeated, and one alone is a map, or they are maps whose keys differ.
    Map,
    /// The kinds of values differ; any two message types are one kind, and any two groups.
    Kind,
    /// Both values are those of enums, which differ in their first number, or of which one alone is closed, or which are
    /// closed and declare other numbers.
    Enum,
    /// The field has presence in one of the types alone.
    Presence,
    /// The defaults differ.
    Default,
}

impl ReductionFaultKind {
    /// What differs, as a few words of prose.
    pub fn as_str(self) -> &'static str {
        match self {
            ReductionFaultKind::MapEntry => "map entry",
            ReductionFaultKind::Number => "number",
            ReductionFaultKind::Oneof => "oneof",
            ReductionFaultKind::Extension => "extension",
            ReductionFaultKind::Cardinality => "cardinality",
            ReductionFaultKind::Map => "map",
            ReductionFaultKind::Kind => "kind",
            ReductionFaultKind::Enum => "enum",
            ReductionFaultKind::Presence => "presence",
            ReductionFaultKind::Default => "default",
        }
    }
}

impl fmt::Display for ReductionFaultKind {
    fn fmt<W: fmt::Write>(&self, f: &mut fmt::Formatter<W>) -> fmt::Result {
        f.write_str(self.as_str())
    }
}

/// A fault of a pair of message types: what differs, and the number of the field, but for a fault of the types themselves.
#[derive(Clone, Copy, Debug, PartialEq, Eq)]
pub(crate) struct TypeFault {
    pub(crate) number: Option<u32>,
    pub(crate) kind: ReductionFaultKind,
}

/// Why a message type is no reduction of a newer one: the first definition that is found at fault.
///
/// Its text is the path and the number, joined by dots, and then what differs, as `3.5: kind`.
#[derive(Debug, PartialEq, Eq, Drop)]
pub struct ReductionFault {
    pub(crate) path: Vec<u32>,
    pub(crate) number: Option<u32>,
    pub(crate) kind: ReductionFaultKind,
}

impl ReductionFault {
    /// The numbers of the fields that lead from the message type that was asked to the one at fault: of messages and groups,
    /// of lists of them, and of maps to messages. It is empty where the fault stands in the type that was asked.
    pub fn path(&self) -> &[u32]
        ensures { result.now ≡ self.now.path.items }
    {
        &self.path
    }

    /// The number of the field at fault in the message type that the path leads to, or `None` where the type itself is, as
    /// `ReductionFaultKind::MapEntry` says.
    pub fn number(&self) -> Option<u32>
        ensures { result ≡ self.now.number }
    {
        self.number
    }

    /// What differs.
    pub fn kind(&self) -> ReductionFaultKind
        ensures { result ≡ self.now.kind }
    {
        self.kind
    }
}

impl fmt::Display for ReductionFault {
    fn fmt<W: fmt::Write>(&self, f: &mut fmt::Formatter<W>) -> fmt::Result {
        let mut between = "";
        for number in &self.path {
            write!(f, "{between}{number}")?;
            between = ".";
        }
        if let Some(number) = self.number {
            write!(f, "{between}{number}")?;
            between = ".";
        }
        if !between.is_empty() {
            f.write_str(": ")?;
        }
        f.write_str(self.kind.as_str())
    }
}
