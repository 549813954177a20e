//! Ranges of constants, to which a rule may be restricted.
ghost use Rattle.std.specs.Prelude.{◌↔◌, IsTrue};
ghost use Rattle.lburg_model.specs.Range.{Contains};

/// The constants from one number to another, both included. Where the lower end is above the
/// upper one there are none.
#[derive(Clone, Copy, Debug, PartialEq, Eq)]
pub struct Range {
    /// The least constant of the range.
    pub low: i64,
    /// The greatest constant of the range.
    pub high: i64,
}

impl Range {
    /// Whether the constant lies in the range.
    pub fn contains(&self, constant: i64) -> bool
        ensures { IsTrue result ↔ Contains self.now constant }
    {
        self.low <= constant && constant <= self.high
    }
}
