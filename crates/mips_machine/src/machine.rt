//! The MIPS machine: decoded code, byte order and processor, run one step at a time.
ghost use Rattle.std.specs.Prelude.{◌≡◌, ◌≢◌, ℕ, ◌%◌, ◌<◌, ◌≤◌, List, [], ◌∷◌, Some, None, Option, drop, length, map, IfSome, slice_get};
ghost use Rattle.std.specs.Option.{option_copied, option_map};
ghost use Rattle.asm_lines.specs.declared.instruction.Instruction.{Instruction};
ghost use Rattle.asm_text.specs.Addresses.{data_start, putchar_at};
ghost use Rattle.asm_text.specs.Runs.{Goes};
ghost use Rattle.asm_text.specs.declared.running.Input.{Input};
ghost use Rattle.mips_machine.specs.InstructionOf.{instruction_of};
ghost use Rattle.mips_machine.specs.StepTable.{register, fetched, prints, takes};
ghost use Rattle.mips_machine.specs.Stepped.{IsStepped, scene, step_of, printed_by};
ghost use Rattle.mips_machine.specs.Turned.{IsTurned};
ghost use Rattle.mips_machine.specs.declared.turn.Turn.{Turn as Turned};

use crate::built_ins::next_byte;
use crate::decoded::Decoded;
use crate::processor::Processor;
use crate::turn::Turn;
use asm_text::{CODE_START, END_AT, EXIT_AT, GETCHAR_AT, Input, PUTCHAR_AT, Step, StuckCause};
use lcc_base::{Order, Sink};
use std::marker::Model;

/// A MIPS machine with its program, which contracts see as the code, in which names are addresses, the order of bytes,
/// the registers, the data, the stack and the address of the next instruction.
#[derive(Drop)]
pub struct Machine {
    code: Vec<Decoded>,
    order: Order,
    processor: Processor,
}

impl Model for Machine {
    ghost use Rattle.std.specs.Prelude.{◌≤◌, length, map};
    ghost use Rattle.mips_machine.specs.InstructionOf.{instruction_of};
    ghost use Rattle.mips_machine.specs.State.{MMachine};

    ghost Value = { MMachine };

    ghost view = { λ m. record { code = map instruction_of m.code.items; order = m.order; cpu = m.processor } };

    ghost invariant = { λ m. length m.code.items ≤ 4194304 };
}

impl Machine {
    /// The machine with this code, in this state.
    pub(crate) fn new(code: Vec<Decoded>, order: Order, processor: Processor) -> Self
        requires { length code.items ≤ 4194304 }
        ensures { result ≡ record { code = map instruction_of code.items; order = order; cpu = processor } }
    {
        Machine {
            code,
            order,
            processor,
        }
    }

    /// One step: an instruction, a built-in function or the end.
    ///
    /// `putchar` writes a byte, and the answer is `Failed` where the write fails. `getchar` takes the next byte of the
    /// input. After any answer but `Went` the machine and the input are as they were. A step takes no memory (Kane and
    /// Heinrich, MIPS RISC Architecture).
    pub fn step<K: Sink>(&mut self, input: &mut Input, out: &mut K) -> Step
        ensures stepped { IsStepped (step_of self.old input.old) (scene self.old input.old (K.taken out.old) (K.faults out.old)) (scene self.new input.new (K.taken out.new) (K.faults out.new)) result }
        ensures later { K.faults out.old ≤ K.faults out.new }
        ensures silent { printed_by (step_of self.old input.old) ≡ [] → out.new ≡ out.old }
    {
        let pc = self.processor.pc();
        match fetch(&self.code, pc) {
            Some(decoded) => self.processor.act(self.order, decoded),
            None if pc == PUTCHAR_AT => self.print(out),
            None => self.call_quiet(input),
        }
    }

    /// One step, as `step` does it, but that it writes nothing: it gives the byte that it prints.
    #[inline(always)]
    pub fn turn(&mut self, input: &mut Input) -> Turn
        ensures { IsTurned self.old input.old self.new input.new result }
    {
        let pc = self.processor.pc();
        match fetch(&self.code, pc) {
            Some(decoded) => Turn::Quiet(self.processor.act(self.order, decoded)),
            None if pc == PUTCHAR_AT => Turn::Prints(self.give()),
            None => Turn::Quiet(self.call_quiet(input)),
        }
    }

    /// A built-in function that prints nothing, or the end.
    fn call_quiet(&mut self, input: &mut Input) -> Step
        requires code { fetched self.old.code self.old.cpu.pc ≡ None }
        requires quiet { self.old.cpu.pc ≢ putchar_at }
        ensures { IsTurned self.old input.old self.new input.new (Turned.Quiet result) }
    {
        match self.processor.pc() {
            END_AT => Step::Ended(self.processor.register(2).cast_signed()),
            GETCHAR_AT => self.read(input),
            EXIT_AT => Step::Ended(self.processor.register(4).cast_signed()),
            pc => Step::Stuck(StuckCause::BadJump, pc),
        }
    }

    /// The byte that `putchar` prints: the low one of its argument.
    fn argument(&self) -> u8
        ensures { result ≡ register self.now.cpu 4 % 256 }
    {
        (self.processor.register(4) & 0xff) as u8
    }

    /// `putchar`, but that nothing takes its byte.
    fn give(&mut self) -> u8
        ensures byte { prints self.old.cpu ≡ Goes self.new.cpu (result ∷ []) 0 }
        ensures others { self.new ≡ record self.old { cpu = self.new.cpu } }
    {
        let byte = self.argument();
        self.processor.go_back(byte as u32);
        byte
    }

    /// `putchar`: writes the low byte of its argument.
    fn print<K: Sink>(&mut self, out: &mut K) -> Step
        ensures stepped { (input : Input) → IsStepped (prints self.old.cpu) (scene self.old input (K.taken out.old) (K.faults out.old)) (scene self.new input (K.taken out.new) (K.faults out.new)) result }
        ensures later { K.faults out.old ≤ K.faults out.new }
    {
        let byte = self.argument();
        match out.write(&[byte]) {
            Ok(_) => {
                self.processor.go_back(byte as u32);
                Step::Went
            }
            Err(_) => Step::Failed,
        }
    }

    /// `getchar`: takes the next byte of the input, or gives -1 at its end.
    fn read(&mut self, input: &mut Input) -> Step
        ensures { (taken : Option (List ℕ)) (faults : ℕ) → IsStepped (takes self.old.cpu (drop input.old.place input.old.bytes)) (scene self.old input.old taken faults) (scene self.new input.new taken faults) result }
    {
        match next_byte(input) {
            Some(byte) => self.processor.go_back(byte as u32),
            None => self.processor.go_back(u32::MAX),
        }
        Step::Went
    }
}

/// The place of an instruction in the code, by its address. An address that is no multiple of 4, or is below the code,
/// gives a place above the end of any code.
fn place_of(pc: u32) -> usize
    ensures is { (code : List (Instruction ℕ)) → length code ≤ 4194304 → slice_get code result ≡ fetched code pc }
    ensures low { result < 4194304 → pc < data_start }
{
    pc.wrapping_sub(CODE_START).rotate_right(2) as usize
}

/// The instruction at an address, if one is there.
fn fetch(code: &[Decoded], pc: u32) -> Option<&Decoded>
    requires { length code.now ≤ 4194304 }
    ensures is { option_map instruction_of (option_copied result) ≡ fetched (map instruction_of code.now) pc }
    ensures low { IfSome result (λ _. pc < data_start) }
{
    code.get(place_of(pc))
}
