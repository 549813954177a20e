//! Reading a case file.
use crate::case::{Case, orders_of};
use case_files::{CaseFault, CaseReader, Refused, read_file};
use std::alloc::Global;

/// Where in a case file the next line stands.
#[derive(Clone, Copy, Debug, PartialEq, Eq)]
enum Section {
    Between,
    Name,
    Program,
    Told,
}

/// The cases of a file so far, and the name of the case that is open.
#[derive(Drop)]
struct Reader {
    alloc: Global,
    section: Section,
    name: String,
    cases: Vec<Case>,
}

impl Reader {
    fn begin(&mut self, name: &str) -> Result<(), CaseFault> {
        self.close()?;
        self.name = String::from_str(self.alloc, name)?;
        self.section = Section::Name;
        Ok(())
    }

    fn order(&mut self, word: &str) -> Result<(), CaseFault> {
        if self.section != Section::Name {
            return Err(CaseFault::OutOfPlace);
        }
        let Some(orders) = orders_of(word) else {
            return Err(CaseFault::UnknownLine);
        };
        self.cases.push(Case {
            name: String::from_str(self.alloc, self.name.as_str())?,
            orders,
            program: Vec::new(self.alloc),
            told: Vec::new(self.alloc),
        })?;
        self.section = Section::Program;
        Ok(())
    }

    fn tell(&mut self) -> Result<(), CaseFault> {
        if self.section != Section::Program {
            return Err(CaseFault::OutOfPlace);
        }
        self.section = Section::Told;
        Ok(())
    }
}

impl CaseReader for Reader {
    fn named(&mut self, word: &str, rest: &str) -> Result<(), CaseFault> {
        match word {
            "case" => self.begin(rest),
            "order" => self.order(rest),
            "tells" => self.tell(),
            _ => Err(CaseFault::UnknownLine),
        }
    }

    fn add(&mut self, bytes: &[u8]) -> Result<(), CaseFault> {
        let Some(case) = self.cases.last_mut() else {
            return Err(CaseFault::NoSection);
        };
        match self.section {
            Section::Program => case.program.extend_from_slice(bytes)?,
            Section::Told => case.told.extend_from_slice(bytes)?,
            _ => return Err(CaseFault::NoSection),
        }
        Ok(())
    }

    fn close(&mut self) -> Result<(), CaseFault> {
        match self.section {
            Section::Between | Section::Told => {
                self.section = Section::Between;
                Ok(())
            }
            _ => Err(CaseFault::NothingTold),
        }
    }
}

/// The cases of a file, in order, or the first fault.
pub fn read_cases(alloc: Global, text: &str) -> Result<Vec<Case>, Refused> {
    let mut reader = Reader {
        alloc,
        section: Section::Between,
        name: String::new(alloc),
        cases: Vec::new(alloc),
    };
    read_file(alloc, text, &mut reader)?;
    let Reader { cases, .. } = reader;
    Ok(cases)
}
