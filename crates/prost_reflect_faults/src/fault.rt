//! A fault, and where it stands.

ghost use Rattle.std.specs.Prelude.{◌≡◌};

use arrayvec::ArrayVec;
use prost_reflect_wire::DecodeError;
use std::fmt;

/// How many fields lead to a fault at most: two for each of the 100 levels, since the entry of a map is no level, but its message
/// is, and one for an entry of scalars.
pub(crate) const PATH_LIMIT: usize = 201;

/// Why a message type does not accept bytes, and where in them the fault stands.
///
/// Its text is the path, joined by dots, the offset, and then what the fault is, as `3.5 at 12: a string is not UTF-8`.
#[derive(Debug, PartialEq, Eq, Drop)]
pub struct DecodeFault {
    pub(crate) error: DecodeError,
    pub(crate) offset: usize,
    pub(crate) path: ArrayVec<u32, PATH_LIMIT>,
}

impl DecodeFault {
    /// What the fault is, and never `OutOfMemory`.
    pub fn error(&self) -> DecodeError
        ensures { result ≡ self.now.error }
    {
        self.error
    }

    /// How many bytes stand before the record at fault, whose key comes next. Where the bytes end inside of a group, or where no
    /// key can be read, they stand before that place.
    pub fn offset(&self) -> usize
        ensures { result ≡ self.now.offset }
    {
        self.offset
    }

    /// The numbers of the fields that the record at fault stands in, outermost first: of messages, of groups, known or not, and
    /// of maps, behind which stands 2 where the fault is inside of the value. It is empty where the record is one of the message
    /// itself.
    pub fn path(&self) -> &[u32]
        ensures { result.now ≡ self.now.path.items }
    {
        self.path.as_slice()
    }
}

impl fmt::Display for DecodeFault {
    fn fmt<W: fmt::Write>(&self, f: &mut fmt::Formatter<W>) -> fmt::Result {
        let mut between = "";
        for number in self.path() {
            write!(f, "{between}{number}")?;
            between = ".";
        }
        if !between.is_empty() {
            f.write_str(" ")?;
        }
        write!(f, "at {}: {}", self.offset, self.error)
    }
}
