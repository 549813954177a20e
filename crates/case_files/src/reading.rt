//! The lines of a case file, one after the other.
use crate::bytes::{NamedText, bytes_of};
use crate::fault::{CaseFault, Refused};
use std::alloc::Global;

/// The cases of a file so far, in some form of cases.
pub trait CaseReader {
    /// Reads a line that begins with a word, which has this rest behind the word and a blank.
    fn named(&mut self, word: &str, rest: &str) -> Result<(), CaseFault>;

    /// Adds bytes to the section that is open, or tells `NoSection`.
    fn add(&mut self, bytes: &[u8]) -> Result<(), CaseFault>;

    /// Closes the last case, if one is open, or tells what it lacks.
    fn close(&mut self) -> Result<(), CaseFault>;
}

/// The texts of a case file so far.
#[derive(Drop)]
struct Texts {
    alloc: Global,
    named: Vec<NamedText>,
    /// Whether the bytes that come are the last text's.
    is_open: bool,
}

impl Texts {
    fn begin(&mut self, name: &str) -> Result<(), CaseFault> {
        self.named.push(NamedText {
            name: String::from_str(self.alloc, name)?,
            bytes: Vec::new(self.alloc),
        })?;
        self.is_open = true;
        Ok(())
    }

    /// Adds bytes to the last text.
    fn add(&mut self, bytes: &[u8]) -> Result<(), CaseFault> {
        if let Some(text) = self.named.last_mut() {
            text.bytes.extend_from_slice(bytes)?;
        }
        Ok(())
    }

    /// Reads a line that stands for bytes.
    fn add_line<C: CaseReader>(&mut self, cases: &mut C, line: &str) -> Result<(), CaseFault> {
        let bytes = bytes_of(self.alloc, &self.named, line)?;
        if self.is_open {
            self.add(&bytes)
        } else {
            cases.add(&bytes)
        }
    }

    /// Reads a line that begins with a word. A text may stand between two cases.
    fn begin_section<C: CaseReader>(
        &mut self,
        cases: &mut C,
        word: &str,
        rest: &str,
    ) -> Result<(), CaseFault> {
        if word == "text" {
            cases.close()?;
            return self.begin(rest);
        }
        self.is_open = false;
        cases.named(word, rest)
    }

    /// Reads a line. An empty one is skipped, and so is a comment, which begins with `#`.
    fn line<C: CaseReader>(&mut self, cases: &mut C, line: &str) -> Result<(), CaseFault> {
        if line.is_empty() || line.starts_with('#') {
            return Ok(());
        }
        if line.starts_with(['|', '>', '%', '@', '*', '+']) {
            return self.add_line(cases, line);
        }
        match line.split_once(' ') {
            Some((word, rest)) => self.begin_section(cases, word, rest),
            None => self.begin_section(cases, line, ""),
        }
    }
}

/// Reads the lines of a file, in order, up to the first that has a fault. A case that lacks something is told
/// at the line where a case or a text begins, or at the last.
pub fn read_file<C: CaseReader>(alloc: Global, text: &str, cases: &mut C) -> Result<(), Refused> {
    let mut texts = Texts {
        alloc,
        named: Vec::new(alloc),
        is_open: false,
    };
    let mut number = 0u64;
    for line in text.lines() {
        number = number.saturating_add(1);
        if let Err(fault) = texts.line(cases, line) {
            return Err(Refused {
                line: number,
                fault,
            });
        }
    }
    match cases.close() {
        Ok(()) => Ok(()),
        Err(fault) => Err(Refused {
            line: number,
            fault,
        }),
    }
}
