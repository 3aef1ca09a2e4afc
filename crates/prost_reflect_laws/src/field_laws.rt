//! Laws of reading one unknown field, over the definitions alone.

ghost use Rattle.prost_reflect_laws.specs.FieldLaws.{FieldUnlessFault, ValueUnlessFault, OnlyTooDeep, OneField, FieldAgain};

/// Bytes begin with a field within the levels, or have a fault there, and never both.
pub fn field_unless_fault()
    ensures { FieldUnlessFault }
{}

/// Bytes begin with a value behind a given key within the levels, or have a fault there, and never both.
pub fn value_unless_fault()
    ensures { ValueUnlessFault }
{}

/// Bytes that begin with a whole field have no fault there but `Depth`, and that one only if the field nests deeper than the
/// levels.
pub fn only_too_deep()
    ensures { OnlyTooDeep }
{}

/// Bytes begin with at most one field, which ends in one place.
pub fn one_field()
    ensures { OneField }
{}

/// What was read and is written again is read again, whatever follows it.
pub fn field_again()
    ensures { FieldAgain }
{}
