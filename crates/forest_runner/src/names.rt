//! What the names of a unit stand for.
use crate::halt::Halt;
use lcc_base::Bytes;
use op_forest::Lowered;
use std::alloc::Global;

/// The value of the function of the first name; those of further names are 4 apart.
const FUNCTIONS: u32 = 0x0040_0000;

/// What a call of a name does.
#[derive(Clone, Copy, Debug, PartialEq, Eq)]
pub(crate) enum Callee {
    /// It enters the function at this place.
    Function(usize),
    Putchar,
    Getchar,
    Exit,
    /// It has no meaning.
    Nothing,
}

/// The value of each name, and what its call does.
#[derive(Drop)]
pub(crate) struct Names {
    values: Vec<u32>,
    callees: Vec<Callee>,
}

impl Names {
    /// Those of a unit, where no object has its address yet.
    pub(crate) fn new(alloc: Global, unit: &Lowered) -> Result<Self, Halt> {
        let mut names = Names {
            values: Vec::new(alloc),
            callees: Vec::new(alloc),
        };
        let mut value = FUNCTIONS;
        for text in unit.names() {
            names.values.push(value)?;
            names.callees.push(built_in(text))?;
            value = value.wrapping_add(4);
        }
        for (place, function) in unit.functions().iter().enumerate() {
            names.set_callee(function.name, Callee::Function(place));
        }
        Ok(names)
    }

    /// A name stands for an object at this address.
    pub(crate) fn set_object(&mut self, name: u32, address: u32) {
        let place = name as usize;
        if place < self.values.len() {
            self.values[place] = address;
        }
        self.set_callee(name, Callee::Nothing);
    }

    /// The value of a name.
    pub(crate) fn value(&self, name: u32) -> Result<u32, Halt> {
        match self.values.get(name as usize) {
            Some(value) => Ok(*value),
            None => Err(Halt::Stuck),
        }
    }

    /// What the call of a value does.
    pub(crate) fn callee(&self, value: u32) -> Callee {
        let from_first = value.wrapping_sub(FUNCTIONS);
        if from_first % 4 != 0 {
            return Callee::Nothing;
        }
        match self.callees.get((from_first / 4) as usize) {
            Some(callee) => *callee,
            None => Callee::Nothing,
        }
    }

    fn set_callee(&mut self, name: u32, callee: Callee) {
        let place = name as usize;
        if place < self.callees.len() {
            self.callees[place] = callee;
        }
    }
}

// The built-in function of this name.
fn built_in(text: &Bytes) -> Callee {
    match text.as_slice() {
        b"putchar" => Callee::Putchar,
        b"getchar" => Callee::Getchar,
        b"exit" => Callee::Exit,
        _ => Callee::Nothing,
    }
}
