//! What the built-in functions do to registers and input.
ghost use Rattle.std.specs.Prelude.{◌≡◌, ◌+◌, ◌∷◌, [], drop, MatchOption};
ghost use Rattle.mips_machine.specs.StepTable.{returned, lost, without};

use crate::processor::Processor;
use asm_text::Input;

/// The registers that a built-in function leaves zero.
const LOST: [u8; 16] = [1, 3, 4, 5, 6, 7, 8, 9, 10, 11, 12, 13, 14, 15, 24, 25];

impl Processor {
    /// Goes back from a built-in function that returns this word.
    pub fn go_back(&mut self, n: u32)
        ensures { self.new ≡ returned self.old n }
    {
        self.pc = self.registers[31];
        lose(&mut self.registers);
        self.registers[2] = n;
    }
}

/// The registers that a built-in function leaves zero become zero.
fn lose(registers: &mut [u32; 32])
    ensures { registers.new ≡ without lost registers.old }
{
    for r in LOST {
        registers[r as usize] = 0;
    }
}

/// Takes the next byte of the input, if there is one.
pub fn next_byte(input: &mut Input) -> Option<u8>
    ensures bytes { input.new.bytes ≡ input.old.bytes }
    ensures taken { MatchOption result ((drop input.old.place input.old.bytes ≡ []) × (input.new.place ≡ input.old.place)) (λ byte. (drop input.old.place input.old.bytes ≡ byte ∷ drop (input.old.place + 1) input.old.bytes) × (input.new.place ≡ input.old.place + 1)) }
{
    if input.place >= input.bytes.len() {
        return None;
    }
    let byte = input.bytes.as_slice()[input.place];
    input.place += 1;
    Some(byte)
}
