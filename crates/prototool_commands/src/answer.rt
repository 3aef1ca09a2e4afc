//! What a command answers.

/// What a command that is carried out writes on the standard output, and whether what it was asked about is so.
#[derive(Debug, Drop)]
pub struct Answer {
    /// What is written on the standard output.
    pub bytes: Vec<u8>,
    /// Whether the program ends with status 0; it ends with 1 where something that was compared differs.
    pub passes: bool,
}

impl Answer {
    /// The answer of a command that has nothing to find amiss.
    pub fn passing(bytes: Vec<u8>) -> Answer {
        Answer {
            bytes,
            passes: true,
        }
    }
}
