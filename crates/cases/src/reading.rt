//! Reading a case file.
use crate::case::{Case, Step};
use case_files::{CaseFault, CaseReader, Refused, read_file};
use std::alloc::{AllocError, Global};

/// Where in a case file the next line stands. The sections of a case are in their order.
#[derive(Clone, Copy, Debug, PartialEq, Eq, PartialOrd, Ord)]
enum Section {
    Between,
    Name,
    Words,
    Input,
    Output,
    Report,
    Status,
}

/// The cases of a file so far.
#[derive(Drop)]
struct Reader {
    alloc: Global,
    section: Section,
    /// Whether the open step states its output.
    is_output_stated: bool,
    cases: Vec<Case>,
}

impl Reader {
    fn begin_case(&mut self, name: &str) -> Result<(), CaseFault> {
        self.close()?;
        self.cases.push(Case {
            name: String::from_str(self.alloc, name)?,
            input: Vec::new(self.alloc),
            steps: Vec::new(self.alloc),
        })?;
        self.section = Section::Name;
        Ok(())
    }

    /// Adds a command to the open case. Its output is empty, unless it is stated.
    fn begin_step(&mut self, words: &str) -> Result<(), CaseFault> {
        let step = Step {
            words: split_words(self.alloc, words)?,
            output: Some(Vec::new(self.alloc)),
            report: Vec::new(self.alloc),
            status: 0,
        };
        if let Some(case) = self.cases.last_mut() {
            case.steps.push(step)?;
        }
        self.is_output_stated = false;
        Ok(())
    }

    fn words(&mut self, words: &str) -> Result<(), CaseFault> {
        if self.section != Section::Name {
            return Err(CaseFault::OutOfPlace);
        }
        self.begin_step(words)?;
        self.section = Section::Words;
        Ok(())
    }

    /// A further command, whose input is the output of the one before. So it has no input of its
    /// own, and that output may be anything where it isn't stated.
    fn then(&mut self, words: &str) -> Result<(), CaseFault> {
        if self.section != Section::Status {
            return Err(CaseFault::OutOfPlace);
        }
        if !self.is_output_stated {
            leave_output_open(&mut self.cases);
        }
        self.begin_step(words)?;
        self.section = Section::Input;
        Ok(())
    }

    /// One more word, which may be empty or have blanks in it.
    fn word(&mut self, word: &str) -> Result<(), CaseFault> {
        if self.section != Section::Words {
            return Err(CaseFault::OutOfPlace);
        }
        let word = String::from_str(self.alloc, word)?;
        if let Some(step) = last_step(&mut self.cases) {
            step.words.push(word)?;
        }
        Ok(())
    }

    /// Goes on to a later section of the open step.
    fn enter(&mut self, section: Section) -> Result<(), CaseFault> {
        if self.section < Section::Words || self.section >= section {
            return Err(CaseFault::OutOfPlace);
        }
        self.section = section;
        Ok(())
    }

    fn output(&mut self) -> Result<(), CaseFault> {
        self.enter(Section::Output)?;
        self.is_output_stated = true;
        Ok(())
    }

    fn status(&mut self, number: &str) -> Result<(), CaseFault> {
        self.enter(Section::Status)?;
        let Ok(status) = number.parse::<u8>() else {
            return Err(CaseFault::BadNumber);
        };
        if let Some(step) = last_step(&mut self.cases) {
            step.status = status;
        }
        Ok(())
    }
}

impl CaseReader for Reader {
    fn named(&mut self, word: &str, rest: &str) -> Result<(), CaseFault> {
        match word {
            "case" => self.begin_case(rest),
            "words" => self.words(rest),
            "word" => self.word(rest),
            "input" => self.enter(Section::Input),
            "output" => self.output(),
            "report" => self.enter(Section::Report),
            "status" => self.status(rest),
            "then" => self.then(rest),
            _ => Err(CaseFault::UnknownLine),
        }
    }

    fn add(&mut self, bytes: &[u8]) -> Result<(), CaseFault> {
        match self.section {
            Section::Input => {
                if let Some(case) = self.cases.last_mut() {
                    case.input.extend_from_slice(bytes)?;
                }
            }
            Section::Output => {
                if let Some(step) = last_step(&mut self.cases) {
                    add_to_output(step, bytes)?;
                }
            }
            Section::Report => {
                if let Some(step) = last_step(&mut self.cases) {
                    step.report.extend_from_slice(bytes)?;
                }
            }
            _ => return Err(CaseFault::NoSection),
        }
        Ok(())
    }

    fn close(&mut self) -> Result<(), CaseFault> {
        match self.section {
            Section::Between | Section::Status => {
                self.section = Section::Between;
                Ok(())
            }
            _ => Err(CaseFault::NoStatus),
        }
    }
}

fn last_step(cases: &mut Vec<Case>) -> Option<&mut Step> {
    cases.last_mut()?.steps.last_mut()
}

/// Lets the last step give any output.
fn leave_output_open(cases: &mut Vec<Case>) {
    if let Some(step) = last_step(cases) {
        step.output = None;
    }
}

fn add_to_output(step: &mut Step, bytes: &[u8]) -> Result<(), AllocError> {
    if let Some(output) = &mut step.output {
        output.extend_from_slice(bytes)?;
    }
    Ok(())
}

fn split_words(alloc: Global, text: &str) -> Result<Vec<String>, AllocError> {
    let mut words = Vec::new(alloc);
    for word in text.split_whitespace() {
        words.push(String::from_str(alloc, word)?)?;
    }
    Ok(words)
}

/// The cases of a file, in order, or the first fault.
pub fn read_cases(alloc: Global, text: &str) -> Result<Vec<Case>, Refused> {
    let mut reader = Reader {
        alloc,
        section: Section::Between,
        is_output_stated: false,
        cases: Vec::new(alloc),
    };
    read_file(alloc, text, &mut reader)?;
    let Reader { cases, .. } = reader;
    Ok(cases)
}
