//! What a constant of this crate is in the definitions: the function has no body, and its contract is the law.

ghost use Rattle.std.specs.Prelude.{◌≡◌};
ghost use Rattle.prost_reflect_wire.specs.Grammar.{LEVEL_LIMIT};

use crate::unknown::RECURSION_LIMIT;

/// The limit that callers name is that of the definitions.
pub fn recursion_limit()
    ensures { RECURSION_LIMIT ≡ LEVEL_LIMIT }
{}
