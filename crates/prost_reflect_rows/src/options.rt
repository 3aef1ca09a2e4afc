//! What records store of the options of definitions.

ghost use Rattle.std.specs.Prelude.{◌≡◌};
ghost use Rattle.prost_reflect_rows.specs.Options.{bytes_or_none};

/// The bytes that a record stores of its options, or no bytes where it stores none.
pub fn bytes_or_none(stored: &Option<Vec<u8>>) -> &[u8]
    ensures { result.now ≡ bytes_or_none stored.now }
{
    match stored {
        Some(bytes) => bytes.as_slice(),
        None => &[],
    }
}
