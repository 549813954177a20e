//! What a run comes to.

/// What a run has printed, and how it ended.
#[derive(Debug, Drop)]
pub struct Outcome {
    pub output: Vec<u8>,
    pub end: End,
}

/// How a run ended.
#[derive(Clone, Copy, Debug, PartialEq, Eq)]
pub enum End {
    /// With this status.
    Exit(u32),
    /// What came next had no meaning.
    Stuck,
    /// The stack was too large.
    Deep,
    /// All steps were taken.
    OutOfSteps,
}
