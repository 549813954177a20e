//! The execution of decoded instructions by the processor.
ghost use Rattle.std.specs.Prelude.{◌≡◌, ◌<◌, ◌+◌, if◌then◌else◌};
ghost use Rattle.asm_text.specs.Addresses.{data_start};
ghost use Rattle.mips_machine.specs.Did.{Did};
ghost use Rattle.mips_machine.specs.InstructionOf.{instruction_of};
ghost use Rattle.mips_machine.specs.Operations.{holds};
ghost use Rattle.mips_machine.specs.StepTable.{act, operates, jumps};

use crate::decoded::{Decoded, address_at, address_from};
use crate::free_register::FreeRegister;
use crate::operations::{change, combine, compare};
use crate::processor::Processor;
use asm_text::{BinaryOp, Condition, Instruction, LoadOp, Register, Step, StoreOp};
use lcc_base::Order;

impl Processor {
    /// The register gets what the operation makes of two words, and the next instruction comes.
    #[inline(always)]
    fn operate(&mut self, op: BinaryOp, d: Register, x: u32, y: u32) -> Step
        requires { self.old.pc < data_start }
        ensures { Did (operates self.old op d x y) self.old self.new result }
    {
        match combine(op, x, y) {
            Ok(n) => self.write(d, n),
            Err(cause) => Step::Stuck(cause, self.pc),
        }
    }

    /// Goes on at the address where the comparison of two words holds, and at the next instruction where it doesn't.
    #[inline(always)]
    fn branch(&mut self, condition: Condition, x: u32, y: u32, address: u32) -> Step
        requires { self.old.pc < data_start }
        ensures { Did (jumps self.old (if holds condition x y then address else self.old.pc + 4)) self.old self.new result }
    {
        if compare(condition, x, y) {
            self.jump(address)
        } else {
            self.jump(self.pc + 4)
        }
    }

    /// The same for a register that takes any word.
    #[inline(always)]
    fn operate_free(&mut self, op: BinaryOp, d: FreeRegister, x: u32, y: u32) -> Step
        requires { self.old.pc < data_start }
        ensures { Did (operates self.old op d x y) self.old self.new result }
    {
        match combine(op, x, y) {
            Ok(n) => self.set(d, n),
            Err(cause) => Step::Stuck(cause, self.pc),
        }
    }

    /// Does what the decoded instruction at this address says.
    #[inline(always)]
    pub fn act(&mut self, order: Order, decoded: &Decoded) -> Step
        requires { self.old.pc < data_start }
        ensures { Did (act order self.old (instruction_of decoded.now)) self.old self.new result }
    {
        match decoded {
            Decoded::LoadNumber(d, n) => self.set(*d, *n),
            Decoded::LoadAddress(d, name, offset) => {
                self.set(*d, self.address(address_at(*name, *offset)))
            }
            Decoded::Move(d, s) => self.set(*d, self.get(*s)),
            Decoded::Add(d, s, t) => {
                self.operate_free(BinaryOp::Add, *d, self.get(*s), self.get(*t))
            }
            Decoded::AddNumber(d, s, n) => {
                self.operate_free(BinaryOp::Add, *d, self.get(*s), *n)
            }
            Decoded::Subtract(d, s, t) => {
                self.operate_free(BinaryOp::Subtract, *d, self.get(*s), self.get(*t))
            }
            Decoded::SubtractNumber(d, s, n) => {
                self.operate_free(BinaryOp::Subtract, *d, self.get(*s), *n)
            }
            Decoded::Multiply(d, s, t) => {
                self.operate_free(BinaryOp::Multiply, *d, self.get(*s), self.get(*t))
            }
            Decoded::And(d, s, t) => {
                self.operate_free(BinaryOp::And, *d, self.get(*s), self.get(*t))
            }
            Decoded::AndNumber(d, s, n) => {
                self.operate_free(BinaryOp::And, *d, self.get(*s), *n)
            }
            Decoded::Or(d, s, t) => {
                self.operate_free(BinaryOp::Or, *d, self.get(*s), self.get(*t))
            }
            Decoded::Xor(d, s, t) => {
                self.operate_free(BinaryOp::Xor, *d, self.get(*s), self.get(*t))
            }
            Decoded::ShiftLeftNumber(d, s, n) => {
                self.operate_free(BinaryOp::ShiftLeft, *d, self.get(*s), *n)
            }
            Decoded::ShiftRightArithmeticNumber(d, s, n) => {
                self.operate_free(BinaryOp::ShiftRightArithmetic, *d, self.get(*s), *n)
            }
            Decoded::LoadByte(d, base, offset) => {
                let address = self.address(address_from(*base, *offset));
                self.load_free(order, LoadOp::Byte, *d, address)
            }
            Decoded::LoadByteUnsigned(d, base, offset) => {
                let address = self.address(address_from(*base, *offset));
                self.load_free(order, LoadOp::ByteUnsigned, *d, address)
            }
            Decoded::LoadWord(d, base, offset) => {
                let address = self.address(address_from(*base, *offset));
                self.load_free(order, LoadOp::Word, *d, address)
            }
            Decoded::StoreByte(s, base, offset) => {
                let address = self.address(address_from(*base, *offset));
                self.store(order, StoreOp::Byte, *s, address)
            }
            Decoded::StoreWord(s, base, offset) => {
                let address = self.address(address_from(*base, *offset));
                self.store(order, StoreOp::Word, *s, address)
            }
            Decoded::Branch(address) => self.jump(*address),
            Decoded::BranchEqual(s, t, address) => {
                self.branch(Condition::Equal, self.get(*s), self.get(*t), *address)
            }
            Decoded::BranchNotEqual(s, t, address) => {
                self.branch(Condition::NotEqual, self.get(*s), self.get(*t), *address)
            }
            Decoded::BranchLess(s, t, address) => {
                self.branch(Condition::Less, self.get(*s), self.get(*t), *address)
            }
            Decoded::BranchLessEqual(s, t, address) => {
                self.branch(Condition::LessEqual, self.get(*s), self.get(*t), *address)
            }
            Decoded::BranchGreater(s, t, address) => {
                self.branch(Condition::Greater, self.get(*s), self.get(*t), *address)
            }
            Decoded::BranchGreaterEqual(s, t, address) => {
                self.branch(
                    Condition::GreaterEqual,
                    self.get(*s),
                    self.get(*t),
                    *address,
                )
            }
            Decoded::Jump(address) => self.jump(*address),
            Decoded::JumpRegister(s) => self.jump(self.get(*s)),
            Decoded::Call(address) => self.call(*address),
            Decoded::Other(instruction) => self.act_written(order, instruction),
        }
    }

    /// Does what the instruction at this address says, as it is written.
    #[inline(never)]
    fn act_written(&mut self, order: Order, instruction: &Instruction<u32>) -> Step
        requires { self.old.pc < data_start }
        ensures { Did (act order self.old instruction.now) self.old self.new result }
    {
        match instruction {
            Instruction::LoadAddress(d, a) => self.write(*d, self.address(*a)),
            Instruction::LoadNumber(d, n) => self.write(*d, *n),
            Instruction::Move(d, s) => self.write(*d, self.get(*s)),
            Instruction::Unary(op, d, s) => self.write(*d, change(*op, self.get(*s))),
            Instruction::Binary(op, d, s, t) => {
                self.operate(*op, *d, self.get(*s), self.value(*t))
            }
            Instruction::Load(op, d, a) => self.load(order, *op, *d, self.address(*a)),
            Instruction::Store(op, s, a) => self.store(order, *op, *s, self.address(*a)),
            Instruction::Branch(address) => self.jump(*address),
            Instruction::BranchIf(condition, s, t, address) => {
                self.branch(*condition, self.get(*s), self.value(*t), *address)
            }
            Instruction::Jump(to) => self.jump(self.target(*to)),
            Instruction::Call(to) => self.call(self.target(*to)),
        }
    }
}
