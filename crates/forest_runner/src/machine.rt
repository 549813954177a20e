//! Runs of units.
use crate::data::place_objects;
use crate::halt::Halt;
use crate::memory::Memory;
use crate::names::{Callee, Names};
use crate::operations::holds;
use crate::outcome::{End, Outcome};
use crate::trees::{Scene, value, width};
use indexmap::IndexMap;
use lcc_base::Memory as Refused;
use op_forest::{Lowered, Op, Operands, Suffix, Sym, Tree};
use std::alloc::Global;

/// A call that is open: its function's place, the next root, the address of its frame's top, how many bytes there were
/// below its frame, and where its value goes.
#[derive(Clone, Copy)]
struct Open {
    function: usize,
    root: usize,
    top: u32,
    below: usize,
    into: Option<u32>,
}

/// A run under way.
#[derive(Drop)]
struct Machine<'a> {
    unit: &'a Lowered,
    input: &'a [u8],
    memory: Memory,
    names: Names,
    labels: Vec<IndexMap<u32, usize>>,
    open: Vec<Open>,
    arguments: Vec<u32>,
    output: Vec<u8>,
}

/// The run of a unit's main with this input, of at most so many roots. `Memory` comes where an allocation is refused.
pub fn run(alloc: Global, unit: &Lowered, input: &[u8], roots: u64) -> Result<Outcome, Refused> {
    let mut machine = Machine {
        unit,
        input,
        memory: Memory::new(alloc, unit.order()),
        names: match Names::new(alloc, unit) {
            Ok(names) => names,
            Err(_) => return Err(Refused),
        },
        labels: labels_of(alloc, unit)?,
        open: Vec::new(alloc),
        arguments: Vec::new(alloc),
        output: Vec::new(alloc),
    };
    let halt = machine.run(roots);
    let end = match halt {
        Some(Halt::Exit(status)) => End::Exit(status),
        Some(Halt::Stuck) => End::Stuck,
        Some(Halt::Deep) => End::Deep,
        Some(Halt::Memory) => return Err(Refused),
        None => End::OutOfSteps,
    };
    let Machine { output, .. } = machine;
    Ok(Outcome { output, end })
}

// Where the labels of each function stand.
fn labels_of(alloc: Global, unit: &Lowered) -> Result<Vec<IndexMap<u32, usize>>, Refused> {
    let mut all = Vec::new(alloc);
    for function in unit.functions() {
        let mut places = IndexMap::new(alloc);
        for (place, root) in function.forest.roots.as_slice().iter().enumerate() {
            if let (Op::Label, Sym::Label(label)) = (root.operator.op, root.sym) {
                places.insert(label, place)?;
            }
        }
        all.push(places)?;
    }
    Ok(all)
}

impl<'a> Machine<'a> {
    // At most so many roots from the start; why it goes on no further, if it doesn't.
    fn run(&mut self, roots: u64) -> Option<Halt> {
        if let Err(halt) = self.start() {
            return Some(halt);
        }
        for _ in 0..roots {
            if let Err(halt) = self.step() {
                return Some(halt);
            }
        }
        None
    }

    // Main is called; its words, if it has any, are 0 and the address of a null pointer.
    fn start(&mut self) -> Result<(), Halt> {
        place_objects(self.unit, &mut self.memory, &mut self.names)?;
        let null = self.memory.end()?;
        self.memory.zeros(4)?;
        for (place, function) in self.unit.functions().iter().enumerate() {
            let Some(text) = self.unit.names().get(function.name as usize) else {
                return Err(Halt::Stuck);
            };
            if text.as_slice() == b"main".as_slice() {
                if function.words != 0 {
                    self.arguments.push(0)?;
                    self.arguments.push(null)?;
                }
                return self.enter(place, None);
            }
        }
        Err(Halt::Stuck)
    }

    // One root.
    fn step(&mut self) -> Result<(), Halt> {
        let Some(open) = self.open.last_mut() else {
            return Err(Halt::Stuck);
        };
        let Open {
            function,
            root,
            top,
            ..
        } = *open;
        open.root = root.wrapping_add(1);
        let unit = self.unit;
        let Some(function) = unit.functions().get(function) else {
            return Err(Halt::Stuck);
        };
        match function.forest.roots.as_slice().get(root) {
            Some(tree) => self.act(tree, top),
            None => self.leave(0),
        }
    }

    // What a root does.
    fn act(&mut self, tree: &Tree, top: u32) -> Result<(), Halt> {
        match (tree.operator.op, tree.operands()) {
            (Op::Label, Operands::Leaf) => Ok(()),
            (Op::Ret, Operands::Leaf) => self.leave(0),
            (Op::Ret, Operands::Unary(a)) => {
                let x = self.value(a, top)?;
                self.leave(x)
            }
            (Op::Arg, Operands::Unary(a)) => {
                let x = self.value(a, top)?;
                self.arguments.push(x)?;
                Ok(())
            }
            (Op::Jump, Operands::Unary(a)) => {
                let label = self.value(a, top)?;
                self.jump(label)
            }
            (Op::Call, Operands::Unary(a)) => {
                let x = self.value(a, top)?;
                self.call(x, None)
            }
            (Op::Asgn, Operands::Binary(a, b)) => self.assign(tree, a, b, top),
            (_, Operands::Binary(a, b)) => {
                let x = self.value(a, top)?;
                let y = self.value(b, top)?;
                self.branch(tree, x, y)
            }
            _ => Err(Halt::Stuck),
        }
    }

    fn value(&self, tree: &Tree, top: u32) -> Result<u32, Halt> {
        let scene = Scene {
            memory: &self.memory,
            names: &self.names,
            top,
        };
        value(scene, tree)
    }

    // A store, a copy, or a call whose value is stored.
    fn assign(&mut self, tree: &Tree, to: &Tree, from: &Tree, top: u32) -> Result<(), Halt> {
        let address = self.value(to, top)?;
        if let (Op::Call, Operands::Unary(a)) = (from.operator.op, from.operands()) {
            let x = self.value(a, top)?;
            return self.call(x, Some(address));
        }
        let y = self.value(from, top)?;
        match (tree.operator.suffix, tree.sym) {
            (Suffix::B, Sym::Block { size, .. }) => self.memory.copy(address, y, size),
            (suffix, _) => self.memory.store(address, width(suffix), y),
        }
    }

    // A comparison, with a jump where it holds.
    fn branch(&mut self, tree: &Tree, x: u32, y: u32) -> Result<(), Halt> {
        match tree.sym {
            Sym::Label(label) if holds(tree.operator, x, y)? => self.jump(label),
            Sym::Label(_) => Ok(()),
            _ => Err(Halt::Stuck),
        }
    }

    fn jump(&mut self, label: u32) -> Result<(), Halt> {
        let Some(open) = self.open.last_mut() else {
            return Err(Halt::Stuck);
        };
        let Some(places) = self.labels.get(open.function) else {
            return Err(Halt::Stuck);
        };
        match places.get(&label) {
            Some(place) => {
                open.root = *place;
                Ok(())
            }
            None => Err(Halt::Stuck),
        }
    }

    // A call of a value; its own value goes to an address, if there is one.
    fn call(&mut self, callee: u32, into: Option<u32>) -> Result<(), Halt> {
        match self.names.callee(callee) {
            Callee::Function(place) => self.enter(place, into),
            Callee::Putchar => {
                let byte = self.argument()? & 0xFF;
                self.output.push(byte as u8)?;
                self.give(byte, into)
            }
            Callee::Getchar => match self.input.split_first() {
                Some((byte, rest)) => {
                    self.input = rest;
                    self.give(u32::from(*byte), into)
                }
                None => self.give(0xFFFF_FFFF, into),
            },
            Callee::Exit => Err(Halt::Exit(self.argument()?)),
            Callee::Nothing => Err(Halt::Stuck),
        }
    }

    // The one argument word of a call.
    fn argument(&mut self) -> Result<u32, Halt> {
        let Some(word) = self.arguments.first() else {
            return Err(Halt::Stuck);
        };
        let word = *word;
        self.arguments.clear();
        Ok(word)
    }

    fn give(&mut self, word: u32, into: Option<u32>) -> Result<(), Halt> {
        match into {
            Some(address) => self.memory.store(address, 4, word),
            None => Ok(()),
        }
    }

    // The function at a place is entered with the argument words: its frame's slots, and its parameter words above them.
    fn enter(&mut self, place: usize, into: Option<u32>) -> Result<(), Halt> {
        let unit = self.unit;
        let Some(function) = unit.functions().get(place) else {
            return Err(Halt::Stuck);
        };
        if self.arguments.len() != function.words as usize {
            return Err(Halt::Stuck);
        }
        let below = self.memory.length();
        self.memory.align()?;
        self.memory
            .reserve(function.forest.frame.lowest().unsigned_abs())?;
        let top = self.memory.end()?;
        for word in &self.arguments {
            self.memory.push_word(*word)?;
        }
        self.arguments.clear();
        self.open.push(Open {
            function: place,
            root: 0,
            top,
            below,
            into,
        })?;
        Ok(())
    }

    // The innermost call ends with a value.
    fn leave(&mut self, word: u32) -> Result<(), Halt> {
        let Some(open) = self.open.pop() else {
            return Err(Halt::Stuck);
        };
        if self.open.is_empty() {
            return Err(Halt::Exit(word));
        }
        self.memory.cut(open.below);
        self.give(word, open.into)
    }
}
