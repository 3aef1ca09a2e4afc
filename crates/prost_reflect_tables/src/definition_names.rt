//! The full name of a definition and its own name, in one text.

ghost use Rattle.std.specs.Prelude.{◌≡◌, IfOk, IsCharBoundary, drop, string_bytes, take};

use std::alloc::{AllocError, Global};

/// The full name of a definition and its own name. A full name ends with the own name, which so is stored once; one that did not
/// would be stored beside it.
#[derive(Drop)]
pub struct DefinitionNames {
    /// The full name, and behind it the own name, if the full name does not end with that.
    pub(crate) text: String,
    /// Where the full name ends.
    pub(crate) end: usize,
    /// Where the own name begins.
    pub(crate) start: usize,
    pub ghost cut: { IsCharBoundary (string_bytes text) end × IsCharBoundary (string_bytes text) start },
}

impl DefinitionNames {
    /// These two names.
    ///
    /// # Errors
    ///
    /// `AllocError` if out of memory.
    pub fn new(alloc: Global, full_name: &str, name: &str) -> Result<DefinitionNames, AllocError>
        ensures full_name { IfOk result (λ names. take names.end (string_bytes names.text) ≡ full_name.now) }
        ensures name { IfOk result (λ names. drop names.start (string_bytes names.text) ≡ name.now) }
    {
        let end = full_name.len();
        if let Some(scope) = full_name.as_bytes().strip_suffix(name.as_bytes()) {
            return Ok(DefinitionNames {
                text: String::from_str(alloc, full_name)?,
                end,
                start: scope.len(),
            });
        }
        let mut text = String::with_capacity(alloc, end + name.len())?;
        text.push_str(full_name)?;
        text.push_str(name)?;
        Ok(DefinitionNames {
            text,
            end,
            start: end,
        })
    }

    /// The full name.
    pub fn full_name(&self) -> &str
        ensures { result.now ≡ take self.now.end (string_bytes self.now.text) }
    {
        &self.text[..self.end]
    }

    /// The own name.
    pub fn name(&self) -> &str
        ensures { result.now ≡ drop self.now.start (string_bytes self.now.text) }
    {
        &self.text[self.start..]
    }
}

impl Clone for DefinitionNames {
    ghost use Rattle.std.specs.Prelude.{◌≡◌};

    ghost is_clone = { λ names copied. (string_bytes copied.text ≡ string_bytes names.text) × (copied.end ≡ names.end)
        × (copied.start ≡ names.start) };

    /// # Errors
    ///
    /// `AllocError` if out of memory.
    fn clone(&self) -> Result<DefinitionNames, AllocError> {
        Ok(DefinitionNames {
            text: self.text.clone()?,
            end: self.end,
            start: self.start,
        })
    }
}
