//! Instructions as the machine keeps them. Each is decoded once, when its program is loaded: a step then looks at one tag
//! alone, and writes most registers without a look at which they are.
ghost use Rattle.std.specs.Prelude.{◌≡◌, map, length, IfOk, IfSome};
ghost use Rattle.asm_lines.specs.declared.instruction.Instruction.TheVariants as written;
ghost use Rattle.mips_machine.specs.InstructionOf.{instruction_of, offset_at, offset_from};

use crate::free_register::FreeRegister;
use asm_text::{
    Address, BinaryOp, Condition, Instruction, LoadOp, Register, StoreOp, Target, Value,
};
use std::alloc::{AllocError, Global};

/// A decoded instruction.
#[derive(Clone, Copy, Debug, PartialEq, Eq)]
pub enum Decoded {
    /// `li d,K`
    LoadNumber(FreeRegister, u32),
    /// `la d,L+K`
    LoadAddress(FreeRegister, u32, u32),
    /// `move d,s`
    Move(FreeRegister, Register),
    /// `addu d,s,t`
    Add(FreeRegister, Register, Register),
    /// `addu d,s,K`
    AddNumber(FreeRegister, Register, u32),
    /// `subu d,s,t`
    Subtract(FreeRegister, Register, Register),
    /// `subu d,s,K`
    SubtractNumber(FreeRegister, Register, u32),
    /// `mul d,s,t`
    Multiply(FreeRegister, Register, Register),
    /// `and d,s,t`
    And(FreeRegister, Register, Register),
    /// `and d,s,K`
    AndNumber(FreeRegister, Register, u32),
    /// `or d,s,t`
    Or(FreeRegister, Register, Register),
    /// `xor d,s,t`
    Xor(FreeRegister, Register, Register),
    /// `sll d,s,K`
    ShiftLeftNumber(FreeRegister, Register, u32),
    /// `sra d,s,K`
    ShiftRightArithmeticNumber(FreeRegister, Register, u32),
    /// `lb d,K(b)`
    LoadByte(FreeRegister, Register, u32),
    /// `lbu d,K(b)`
    LoadByteUnsigned(FreeRegister, Register, u32),
    /// `lw d,K(b)`
    LoadWord(FreeRegister, Register, u32),
    /// `sb s,K(b)`
    StoreByte(Register, Register, u32),
    /// `sw s,K(b)`
    StoreWord(Register, Register, u32),
    /// `b L`
    Branch(u32),
    /// `beq s,t,L`
    BranchEqual(Register, Register, u32),
    /// `bne s,t,L`
    BranchNotEqual(Register, Register, u32),
    /// `blt s,t,L`
    BranchLess(Register, Register, u32),
    /// `ble s,t,L`
    BranchLessEqual(Register, Register, u32),
    /// `bgt s,t,L`
    BranchGreater(Register, Register, u32),
    /// `bge s,t,L`
    BranchGreaterEqual(Register, Register, u32),
    /// `j L`
    Jump(u32),
    /// `j s`
    JumpRegister(Register),
    /// `jal L`
    Call(u32),
    /// Any instruction, as it is written.
    Other(Instruction<u32>),
}

/// Each instruction is decoded.
pub fn decode_all(alloc: Global, code: &[Instruction<u32>]) -> Result<Vec<Decoded>, AllocError>
    ensures all { IfOk result (λ decoded. map instruction_of decoded.items ≡ code.now) }
    ensures many { IfOk result (λ decoded. length decoded.items ≡ length code.now) }
{
    let mut decoded = Vec::with_capacity(alloc, code.len())?;
    for instruction in code {
        decoded.push(decode(instruction))?;
    }
    Ok(decoded)
}

/// The instruction, decoded.
fn decode(instruction: &Instruction<u32>) -> Decoded
    ensures { instruction_of result ≡ instruction.now }
{
    match decode_common(instruction) {
        Some(decoded) => decoded,
        None => Decoded::Other(*instruction),
    }
}

/// The instruction, decoded, if it is a common one.
fn decode_common(instruction: &Instruction<u32>) -> Option<Decoded>
    ensures { IfSome result (λ decoded. instruction_of decoded ≡ instruction.now) }
{
    match instruction {
        Instruction::LoadNumber(d, n) => Some(Decoded::LoadNumber(FreeRegister::new(*d)?, *n)),
        Instruction::LoadAddress(d, a) => decode_address(FreeRegister::new(*d)?, *a),
        Instruction::Move(d, s) => Some(Decoded::Move(FreeRegister::new(*d)?, *s)),
        Instruction::Binary(op, d, s, t) => decode_binary(*op, FreeRegister::new(*d)?, *s, *t),
        Instruction::Load(op, d, a) => decode_load(*op, FreeRegister::new(*d)?, *a),
        Instruction::Store(op, s, a) => decode_store(*op, *s, *a),
        Instruction::Branch(address) => Some(Decoded::Branch(*address)),
        Instruction::BranchIf(condition, s, t, address) => {
            decode_branch(*condition, *s, *t, *address)
        }
        Instruction::Jump(to) => Some(decode_jump(*to)),
        Instruction::Call(Target::Label(address)) => Some(Decoded::Call(*address)),
        _ => None,
    }
}

/// An address for a register, decoded, if it is a place with a number.
fn decode_address(d: FreeRegister, a: Address<u32>) -> Option<Decoded>
    ensures { IfSome result (λ decoded. instruction_of decoded ≡ written.LoadAddress d a) }
{
    match (a.name, a.base) {
        (Some(name), None) => Some(Decoded::LoadAddress(d, name, a.offset)),
        _ => None,
    }
}

/// A jump, decoded.
fn decode_jump(to: Target<u32>) -> Decoded
    ensures { instruction_of result ≡ written.Jump to }
{
    match to {
        Target::Label(address) => Decoded::Jump(address),
        Target::Register(s) => Decoded::JumpRegister(s),
    }
}

/// An operation of two words, decoded, if it is a common one.
fn decode_binary(op: BinaryOp, d: FreeRegister, s: Register, t: Value) -> Option<Decoded>
    ensures { IfSome result (λ decoded. instruction_of decoded ≡ written.Binary op d s t) }
{
    match (op, t) {
        (BinaryOp::Add, Value::Register(t)) => Some(Decoded::Add(d, s, t)),
        (BinaryOp::Add, Value::Number(n)) => Some(Decoded::AddNumber(d, s, n)),
        (BinaryOp::Subtract, Value::Register(t)) => Some(Decoded::Subtract(d, s, t)),
        (BinaryOp::Subtract, Value::Number(n)) => Some(Decoded::SubtractNumber(d, s, n)),
        (BinaryOp::Multiply, Value::Register(t)) => Some(Decoded::Multiply(d, s, t)),
        (BinaryOp::And, Value::Register(t)) => Some(Decoded::And(d, s, t)),
        (BinaryOp::And, Value::Number(n)) => Some(Decoded::AndNumber(d, s, n)),
        (BinaryOp::Or, Value::Register(t)) => Some(Decoded::Or(d, s, t)),
        (BinaryOp::Xor, Value::Register(t)) => Some(Decoded::Xor(d, s, t)),
        (BinaryOp::ShiftRightArithmetic, Value::Number(n)) => Some(
            Decoded::ShiftRightArithmeticNumber(d, s, n),
        ),
        (BinaryOp::ShiftLeft, Value::Number(n)) => Some(Decoded::ShiftLeftNumber(d, s, n)),
        _ => None,
    }
}

/// The register and the number of an address, if it is the sum of these two.
fn base_and_offset(a: Address<u32>) -> Option<(Register, u32)>
    ensures { IfSome result (λ (base, offset). a ≡ offset_from base offset) }
{
    match a.name {
        None => Some((a.base?, a.offset)),
        Some(_) => None,
    }
}

/// The sum of a place and a number, as an address.
pub fn address_at(name: u32, offset: u32) -> Address<u32>
    ensures { result ≡ offset_at name offset }
{
    Address {
        name: Some(name),
        offset,
        base: None,
    }
}

/// The sum of a register and a number, as an address.
pub fn address_from(base: Register, offset: u32) -> Address<u32>
    ensures { result ≡ offset_from base offset }
{
    Address {
        name: None,
        offset,
        base: Some(base),
    }
}

/// A load, decoded, if it is a common one.
fn decode_load(op: LoadOp, d: FreeRegister, a: Address<u32>) -> Option<Decoded>
    ensures { IfSome result (λ decoded. instruction_of decoded ≡ written.Load op d a) }
{
    let (base, offset) = base_and_offset(a)?;
    match op {
        LoadOp::Byte => Some(Decoded::LoadByte(d, base, offset)),
        LoadOp::ByteUnsigned => Some(Decoded::LoadByteUnsigned(d, base, offset)),
        LoadOp::Word => Some(Decoded::LoadWord(d, base, offset)),
        _ => None,
    }
}

/// A store, decoded, if it is a common one.
fn decode_store(op: StoreOp, s: Register, a: Address<u32>) -> Option<Decoded>
    ensures { IfSome result (λ decoded. instruction_of decoded ≡ written.Store op s a) }
{
    let (base, offset) = base_and_offset(a)?;
    match op {
        StoreOp::Byte => Some(Decoded::StoreByte(s, base, offset)),
        StoreOp::Half => None,
        StoreOp::Word => Some(Decoded::StoreWord(s, base, offset)),
    }
}

/// A branch on a comparison, decoded, if it is a common one.
fn decode_branch(condition: Condition, s: Register, t: Value, address: u32) -> Option<Decoded>
    ensures { IfSome result (λ decoded. instruction_of decoded ≡ written.BranchIf condition s t address) }
{
    match (condition, t) {
        (Condition::Equal, Value::Register(t)) => Some(Decoded::BranchEqual(s, t, address)),
        (Condition::NotEqual, Value::Register(t)) => Some(Decoded::BranchNotEqual(s, t, address)),
        (Condition::Less, Value::Register(t)) => Some(Decoded::BranchLess(s, t, address)),
        (Condition::LessEqual, Value::Register(t)) => Some(Decoded::BranchLessEqual(s, t, address)),
        (Condition::Greater, Value::Register(t)) => Some(Decoded::BranchGreater(s, t, address)),
        (Condition::GreaterEqual, Value::Register(t)) => {
            Some(Decoded::BranchGreaterEqual(s, t, address))
        }
        _ => None,
    }
}
