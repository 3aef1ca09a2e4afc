//! What tells in a fixed number of steps whether two handles are of one shared value, whatever the value holds.
//!
//! An `Identity` is a byte beside the value. `is_same` promises that its answer is true exactly where both are one identity:
//! it sets the one byte to `false`, the other to `true`, and reads the first again. This is the one crate with raw pointers; its
//! proofs are by hand, and nothing is trusted for them.
#![tactic(auto)]

ghost use Rattle.std.specs.Prelude.{◌≡◌, ◌↔◌, ℕ, IsTrue};
ghost use base.Fml.{fex, fsep};
ghost use Rattle.prost_reflect_identity.specs.Ownership.{is_alone, behind_reference};
ghost use Rattle.prost_reflect_identity.specs.Values.{value_of};

use std::fmt::{self, Debug, Formatter, Write};
use std::marker::{Move, Owns, PhantomData};

/// Stands beside a value, and tells by its own place in memory which value that is.
///
/// Each differs from all that were made before, and stays what it is where it is moved. So two handles of one `Rc` have one
/// identity inside, and two values have two, also where they are equal.
#[derive(Drop)]
pub struct Identity<T> {
    flag: bool,
    marker: PhantomData<T>,
}

impl<T> Owns for Identity<T> {
    ghost Value = { (ℕ × ℕ) × T };

    ghost shr_at = { λ identity. behind_reference Fields T.row.coded identity };
}

impl<T> Move for Identity<T> {
    ghost own_val = { λ identity words. fex Inside (λ fields. fsep (Fields.own_val fields words) (is_alone T.row.coded identity)) };
}

impl<T> Identity<T> {
    /// An identity to stand beside the value, or beside what the value is moved to.
    pub fn of(value: &T) -> Identity<T>
        ensures { value_of result ≡ value.now }
    {
        Identity {
            flag: false,
            marker: PhantomData,
        }
    }

    /// Whether both are one identity, so that they stand beside one value.
    ///
    /// What is written to the flag of the one is read from that of the other exactly where the two flags are one.
    pub fn is_same(&self, other: &Identity<T>) -> bool
        ensures { IsTrue result ↔ (self.now ≡ other.now) }
    {
        let own = &raw const self.flag as *mut bool;
        let others = &raw const other.flag as *mut bool;
        unsafe {
            own.write(false);
            others.write(true);
            own.read()
        }
    }
}

impl<T> Debug for Identity<T> {
    fn fmt<W: Write>(&self, f: &mut Formatter<W>) -> fmt::Result {
        f.write_str("Identity")
    }
}
