//! Cases of the command line: words and an input, with the output, report and status expected.
/// A case: words and an input, and what has to come of them. Behind the first command others may
/// stand, each with the output of the one before as its input.
#[derive(Drop)]
pub struct Case {
    pub name: String,
    pub input: Vec<u8>,
    pub steps: Vec<Step>,
}

/// A command of a case: the words behind the program's name, and what the call has to give.
#[derive(Drop)]
pub struct Step {
    pub words: Vec<String>,
    /// What the output has to take; with none it may be anything.
    pub output: Option<Vec<u8>>,
    pub report: Vec<u8>,
    pub status: u8,
}
