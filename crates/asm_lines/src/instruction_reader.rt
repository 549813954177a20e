//! Readers of the operands of instructions.
ghost use Rattle.std.specs.Prelude.{◌≡◌, [], ℕ, List, IfSome, IfNone};
ghost use Rattle.asm_lines.specs.declared.instruction.Address.{Address as Addresses};
ghost use Rattle.asm_lines.specs.declared.instruction.Instruction.{Instruction as Instructions};
ghost use Rattle.asm_lines.specs.declared.instruction.Value.{Value as Values};
ghost use Rattle.asm_lines.specs.Tokens.{Spaced, views};
ghost use Rattle.asm_lines.specs.Words.{head_of};
ghost use Rattle.asm_lines.specs.Numbers.{IsNumber};
ghost use Rattle.asm_lines.specs.Operands.{RegisterThen, NameThen, CommaThen, RegisterComma, ValueThen, IsAddress, AreOperands};
ghost use Rattle.asm_lines.specs.Statements.{address_with, instruction_with};

use crate::address_reader::address;
use crate::instruction::{Address, Instruction, Value};
use crate::mnemonic::Mnemonic;
use crate::number_reader::number;
use crate::operand_reader::{comma, only_name, only_register, register_comma, target, value};
use crate::register::Register;
use crate::token::Token;

/// The number that is all there is.
fn only_number(tokens: &[Token]) -> Option<u32>
    ensures some { IfSome result (λ n. IsNumber (views tokens.now) n []) }
    ensures none { IfNone result ((n : ℕ) → IsNumber (views tokens.now) n [] → ⊥) }
{
    let (number, rest) = number(tokens)?;
    if rest.is_empty() { Some(number) } else { None }
}

/// The value that is all there is.
fn only_value(tokens: &[Token]) -> Option<Value>
    ensures some { IfSome result (λ v. ValueThen (views tokens.now) v []) }
    ensures none { IfNone result ((v : Values) → ValueThen (views tokens.now) v [] → ⊥) }
{
    let Some((value, rest)) = value(tokens) else {
        return None;
    };
    if rest.is_empty() { Some(value) } else { None }
}

/// A register and an address.
fn register_and_address<'a>(tokens: &[Token<'a>]) -> Option<(Register, Address<&'a [u8]>)>
    ensures some { IfSome result (λ x. (mid : List Spaced) × RegisterComma (views tokens.now) x.0 mid × IsAddress mid (address_with (λ n. n.now) x.1)) }
    ensures none { IfNone result ((d : ℕ) (a : Addresses (List ℕ)) → (mid : List Spaced) × RegisterComma (views tokens.now) d mid × IsAddress mid a → ⊥) }
{
    let Some((register, rest)) = register_comma(tokens) else {
        return None;
    };
    match address(rest) {
        Some(address) => Some((register, address)),
        None => None,
    }
}

/// A register and a number.
fn register_and_number(tokens: &[Token]) -> Option<(Register, u32)>
    ensures some { IfSome result (λ x. (mid : List Spaced) × RegisterComma (views tokens.now) x.0 mid × IsNumber mid x.1 []) }
    ensures none { IfNone result ((d n : ℕ) → (mid : List Spaced) × RegisterComma (views tokens.now) d mid × IsNumber mid n [] → ⊥) }
{
    let Some((register, rest)) = register_comma(tokens) else {
        return None;
    };
    Some((register, only_number(rest)?))
}

/// Two registers.
fn two_registers(tokens: &[Token]) -> Option<(Register, Register)>
    ensures some { IfSome result (λ x. (mid : List Spaced) × RegisterComma (views tokens.now) x.0 mid × RegisterThen mid x.1 []) }
    ensures none { IfNone result ((d s : ℕ) → (mid : List Spaced) × RegisterComma (views tokens.now) d mid × RegisterThen mid s [] → ⊥) }
{
    let Some((first, rest)) = register_comma(tokens) else {
        return None;
    };
    Some((first, only_register(rest)?))
}

/// Two registers and a value.
fn registers_and_value(tokens: &[Token]) -> Option<(Register, Register, Value)>
    ensures some { IfSome result (λ x. (mid behind : List Spaced) × RegisterComma (views tokens.now) x.0 mid × RegisterComma mid x.1 behind × ValueThen behind x.2 []) }
    ensures none { IfNone result ((d s : ℕ) (t : Values) → (mid behind : List Spaced) × RegisterComma (views tokens.now) d mid × RegisterComma mid s behind × ValueThen behind t [] → ⊥) }
{
    let Some((first, rest)) = register_comma(tokens) else {
        return None;
    };
    let Some((second, rest)) = register_comma(rest) else {
        return None;
    };
    Some((first, second, only_value(rest)?))
}

/// A register, a value and a name.
fn register_value_and_name<'a>(tokens: &[Token<'a>]) -> Option<(Register, Value, &'a [u8])>
    ensures some { IfSome result (λ x. (mid behind last : List Spaced) × RegisterComma (views tokens.now) x.0 mid × ValueThen mid x.1 behind × CommaThen behind last × NameThen last x.2.now []) }
    ensures none { IfNone result ((s : ℕ) (t : Values) (name : List ℕ) → (mid behind last : List Spaced) × RegisterComma (views tokens.now) s mid × ValueThen mid t behind × CommaThen behind last × NameThen last name [] → ⊥) }
{
    let Some((register, rest)) = register_comma(tokens) else {
        return None;
    };
    let Some((value, rest)) = value(rest) else {
        return None;
    };
    let name = only_name(comma(rest)?)?;
    Some((register, value, name))
}

/// The instruction of a mnemonic with the operands that are all there is.
pub(crate) fn instruction<'a>(
    mnemonic: Mnemonic,
    operands: &[Token<'a>],
) -> Option<Instruction<&'a [u8]>>
    ensures some { IfSome result (λ i. (head_of i ≡ mnemonic) × AreOperands (views operands.now) (instruction_with (λ n. n.now) i)) }
    ensures none { IfNone result ((i : Instructions (List ℕ)) → head_of i ≡ mnemonic → AreOperands (views operands.now) i → ⊥) }
{
    match mnemonic {
        Mnemonic::LoadAddress => {
            let Some((to, address)) = register_and_address(operands) else {
                return None;
            };
            Some(Instruction::LoadAddress(to, address))
        }
        Mnemonic::LoadNumber => {
            let (to, number) = register_and_number(operands)?;
            Some(Instruction::LoadNumber(to, number))
        }
        Mnemonic::Move => {
            let (to, from) = two_registers(operands)?;
            Some(Instruction::Move(to, from))
        }
        Mnemonic::Unary(op) => {
            let (to, from) = two_registers(operands)?;
            Some(Instruction::Unary(op, to, from))
        }
        Mnemonic::Binary(op) => {
            let (to, from, value) = registers_and_value(operands)?;
            Some(Instruction::Binary(op, to, from, value))
        }
        Mnemonic::Load(op) => {
            let Some((to, address)) = register_and_address(operands) else {
                return None;
            };
            Some(Instruction::Load(op, to, address))
        }
        Mnemonic::Store(op) => {
            let Some((from, address)) = register_and_address(operands) else {
                return None;
            };
            Some(Instruction::Store(op, from, address))
        }
        Mnemonic::Branch => Some(Instruction::Branch(only_name(operands)?)),
        Mnemonic::BranchIf(condition) => {
            let Some((first, second, label)) = register_value_and_name(operands) else {
                return None;
            };
            Some(Instruction::BranchIf(condition, first, second, label))
        }
        Mnemonic::Jump => match target(operands) {
            Some(to) => Some(Instruction::Jump(to)),
            None => None,
        },
        Mnemonic::Call => match target(operands) {
            Some(to) => Some(Instruction::Call(to)),
            None => None,
        },
    }
}
