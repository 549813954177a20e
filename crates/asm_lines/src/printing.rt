//! Labels and statements as text.
ghost use Rattle.std.specs.Prelude.{◌≡◌, ◌<◌, ◌≤◌, ◌^◌, ◌++◌, ◌∷◌, [], ℕ, List, All, decimal, map, option_map, OnOk};
ghost use Rattle.asm_lines.specs.Tokens.{Spaced, IsName};
ghost use Rattle.asm_lines.specs.Words.{directive_text, head_of};
ghost use Rattle.asm_lines.specs.Statements.{IsLabelled, IsStatement, told, item_of, address_with, target_with, instruction_with};
ghost use Rattle.asm_lines.specs.Printed.{
  printed_label,
  register_text,
  value_text,
  target_text,
  place_text,
  base_text,
  before_base,
  address_text,
  operands_text,
  item_text,
  more_text,
  listed_text,
  row_text,
  statement_text,
  printed_statement,
};
ghost use Rattle.asm_lines.specs.Within.{IsValueWithin, IsTargetWithin, IsAddressWithin, IsInstructionWithin, IsWithin};
ghost use Rattle.asm_lines.specs.Printable.{IsPrintable};
ghost use Rattle.asm_lines.specs.ReadBack.{ReadsBack};

use crate::instruction::{Address, Instruction, Target, Value};
use crate::mnemonic::{DirectiveWord, Mnemonic, directive_word, mnemonic_word};
use crate::register::Register;
use crate::statement::{Item, Statement};
use itoa::Buffer;
use lcc_base::{Bytes, Memory};

fn add_number(out: &mut Bytes, number: u32) -> Result<(), Memory>
    ensures text { OnOk result (out.new ≡ out.old ++ decimal number) }
    ensures within { number ≤ 4294967295 }
{
    let mut buffer = Buffer::new();
    out.extend(buffer.format(number).as_bytes())
}

fn add_register(out: &mut Bytes, register: Register) -> Result<(), Memory>
    ensures text { OnOk result (out.new ≡ out.old ++ register_text register) }
    ensures within { OnOk result (register < 32) }
{
    out.push(b'$')?;
    add_number(out, u32::from(register.number()))
}

fn add_value(out: &mut Bytes, value: Value) -> Result<(), Memory>
    ensures text { OnOk result (out.new ≡ out.old ++ value_text value) }
    ensures within { OnOk result (IsValueWithin value) }
{
    match value {
        Value::Register(register) => add_register(out, register),
        Value::Number(number) => add_number(out, number),
    }
}

fn add_target(out: &mut Bytes, target: &Target<&[u8]>) -> Result<(), Memory>
    ensures text { OnOk result (out.new ≡ out.old ++ target_text (target_with (λ n. n.now) target.now)) }
    ensures within { OnOk result (IsTargetWithin target.now) }
{
    match target {
        Target::Label(name) => out.extend(name),
        Target::Register(register) => add_register(out, *register),
    }
}

/// Adds a name with its number, or the number alone.
fn add_place(out: &mut Bytes, name: Option<&[u8]>, number: u32) -> Result<(), Memory>
    ensures text { OnOk result (out.new ≡ out.old ++ place_text (option_map (λ n. n.now) name.entry) number) }
    ensures within { OnOk result (number ≤ 4294967295) }
{
    let Some(name) = name else {
        return add_number(out, number);
    };
    out.extend(name)?;
    if number == 0 {
        return Ok(());
    }
    out.push(b'+')?;
    add_number(out, number)
}

/// Adds what stands before a base: nothing for 0 without a name.
fn add_before_base(out: &mut Bytes, name: Option<&[u8]>, number: u32) -> Result<(), Memory>
    ensures text { OnOk result (out.new ≡ out.old ++ before_base (option_map (λ n. n.now) name.entry) number) }
    ensures within { OnOk result (number ≤ 4294967295) }
{
    if name.is_none() && number == 0 {
        return Ok(());
    }
    add_place(out, name, number)
}

fn add_base(out: &mut Bytes, base: Register) -> Result<(), Memory>
    ensures text { OnOk result (out.new ≡ out.old ++ base_text base) }
    ensures within { OnOk result (base < 32) }
{
    out.push(b'(')?;
    add_register(out, base)?;
    out.push(b')')
}

fn add_address(out: &mut Bytes, address: &Address<&[u8]>) -> Result<(), Memory>
    ensures text { OnOk result (out.new ≡ out.old ++ address_text (address_with (λ n. n.now) address.now)) }
    ensures within { OnOk result (IsAddressWithin address.now) }
{
    match address.base {
        None => add_place(out, address.name, address.offset),
        Some(base) => {
            add_before_base(out, address.name, address.offset)?;
            add_base(out, base)
        }
    }
}

/// Adds a register and a comma.
fn add_register_comma(out: &mut Bytes, register: Register) -> Result<(), Memory>
    ensures text { OnOk result (out.new ≡ out.old ++ register_text register ++ 44 ∷ []) }
    ensures within { OnOk result (register < 32) }
{
    add_register(out, register)?;
    out.push(b',')
}

fn add_registers(out: &mut Bytes, to: Register, from: Register) -> Result<(), Memory>
    ensures text { OnOk result (out.new ≡ out.old ++ register_text to ++ 44 ∷ register_text from) }
    ensures within { OnOk result ((to < 32) × (from < 32)) }
{
    add_register_comma(out, to)?;
    add_register(out, from)
}

fn add_register_and_number(out: &mut Bytes, to: Register, number: u32) -> Result<(), Memory>
    ensures text { OnOk result (out.new ≡ out.old ++ register_text to ++ 44 ∷ decimal number) }
    ensures within { OnOk result ((to < 32) × (number ≤ 4294967295)) }
{
    add_register_comma(out, to)?;
    add_number(out, number)
}

fn add_register_and_address(
    out: &mut Bytes,
    register: Register,
    address: &Address<&[u8]>,
) -> Result<(), Memory>
    ensures text { OnOk result (out.new ≡ out.old ++ register_text register ++ 44 ∷ address_text (address_with (λ n. n.now) address.now)) }
    ensures within { OnOk result ((register < 32) × IsAddressWithin address.now) }
{
    add_register_comma(out, register)?;
    add_address(out, address)
}

fn add_registers_and_value(
    out: &mut Bytes,
    to: Register,
    from: Register,
    value: Value,
) -> Result<(), Memory>
    ensures text { OnOk result (out.new ≡ out.old ++ register_text to ++ 44 ∷ (register_text from ++ 44 ∷ value_text value)) }
    ensures within { OnOk result ((to < 32) × (from < 32) × IsValueWithin value) }
{
    add_register_comma(out, to)?;
    add_register_comma(out, from)?;
    add_value(out, value)
}

fn add_register_value_and_name(
    out: &mut Bytes,
    register: Register,
    value: Value,
    name: &[u8],
) -> Result<(), Memory>
    ensures text { OnOk result (out.new ≡ out.old ++ register_text register ++ 44 ∷ (value_text value ++ 44 ∷ name.now)) }
    ensures within { OnOk result ((register < 32) × IsValueWithin value) }
{
    add_register_comma(out, register)?;
    add_value(out, value)?;
    out.push(b',')?;
    out.extend(name)
}

fn add_operands(out: &mut Bytes, instruction: &Instruction<&[u8]>) -> Result<(), Memory>
    ensures text { OnOk result (out.new ≡ out.old ++ operands_text (instruction_with (λ n. n.now) instruction.now)) }
    ensures within { OnOk result (IsInstructionWithin instruction.now) }
{
    match instruction {
        Instruction::LoadAddress(to, address) => add_register_and_address(out, *to, address),
        Instruction::LoadNumber(to, number) => add_register_and_number(out, *to, *number),
        Instruction::Move(to, from) => add_registers(out, *to, *from),
        Instruction::Unary(_, to, from) => add_registers(out, *to, *from),
        Instruction::Binary(_, to, from, value) => add_registers_and_value(out, *to, *from, *value),
        Instruction::Load(_, to, address) => add_register_and_address(out, *to, address),
        Instruction::Store(_, from, address) => add_register_and_address(out, *from, address),
        Instruction::Branch(name) => out.extend(name),
        Instruction::BranchIf(_, first, second, name) => {
            add_register_value_and_name(out, *first, *second, name)
        }
        Instruction::Jump(to) => add_target(out, to),
        Instruction::Call(to) => add_target(out, to),
    }
}

fn mnemonic_of(instruction: &Instruction<&[u8]>) -> Mnemonic
    ensures { result ≡ head_of instruction.now }
{
    match instruction {
        Instruction::LoadAddress(_, _) => Mnemonic::LoadAddress,
        Instruction::LoadNumber(_, _) => Mnemonic::LoadNumber,
        Instruction::Move(_, _) => Mnemonic::Move,
        Instruction::Unary(op, _, _) => Mnemonic::Unary(*op),
        Instruction::Binary(op, _, _, _) => Mnemonic::Binary(*op),
        Instruction::Load(op, _, _) => Mnemonic::Load(*op),
        Instruction::Store(op, _, _) => Mnemonic::Store(*op),
        Instruction::Branch(_) => Mnemonic::Branch,
        Instruction::BranchIf(condition, _, _, _) => Mnemonic::BranchIf(*condition),
        Instruction::Jump(_) => Mnemonic::Jump,
        Instruction::Call(_) => Mnemonic::Call,
    }
}

/// Adds a number behind a comma.
fn add_more(out: &mut Bytes, number: u32) -> Result<(), Memory>
    ensures { OnOk result (out.new ≡ out.old ++ 44 ∷ decimal number) }
{
    out.push(b',')?;
    add_number(out, number)
}

#[tactic(auto, using(crate::proofs::Commas::more_step, crate::proofs::Commas::more_done))]
fn add_more_halves(out: &mut Bytes, halves: &[u16]) -> Result<(), Memory>
    ensures { OnOk result (out.new ≡ out.old ++ more_text decimal halves.now) }
{
    for half in halves {
        add_more(out, u32::from(*half))?;
    }
    Ok(())
}

fn add_halves(out: &mut Bytes, halves: &[u16]) -> Result<(), Memory>
    ensures text { OnOk result (out.new ≡ out.old ++ listed_text decimal halves.now) }
    ensures within { All (λ n. n < 2 ^ 16) halves.now }
{
    let Some((first, more)) = halves.split_first() else {
        return Ok(());
    };
    add_number(out, u32::from(*first))?;
    add_more_halves(out, more)
}

#[tactic(auto, using(crate::proofs::Commas::more_step, crate::proofs::Commas::more_done))]
fn add_more_bytes(out: &mut Bytes, bytes: &[u8]) -> Result<(), Memory>
    ensures { OnOk result (out.new ≡ out.old ++ more_text decimal bytes.now) }
{
    for byte in bytes {
        add_more(out, u32::from(*byte))?;
    }
    Ok(())
}

fn add_bytes(out: &mut Bytes, bytes: &[u8]) -> Result<(), Memory>
    ensures text { OnOk result (out.new ≡ out.old ++ listed_text decimal bytes.now) }
    ensures within { All (λ n. n < 2 ^ 8) bytes.now }
{
    let Some((first, more)) = bytes.split_first() else {
        return Ok(());
    };
    add_number(out, u32::from(*first))?;
    add_more_bytes(out, more)
}

fn add_item(out: &mut Bytes, item: Item<&[u8]>) -> Result<(), Memory>
    ensures text { OnOk result (out.new ≡ out.old ++ item_text (item_of item.entry)) }
    ensures within { OnOk result (item.entry.value ≤ 4294967295) }
{
    add_place(out, item.name, item.value)
}

#[tactic(auto, using(crate::proofs::Commas::more_done))]
fn add_more_words(out: &mut Bytes, items: &[Item<&[u8]>]) -> Result<(), Memory>
    ensures text { OnOk result (out.new ≡ out.old ++ more_text (λ i. item_text (item_of i)) items.now) }
    ensures within { OnOk result (All (λ i. i.value ≤ 4294967295) items.now) }
{
    for item in items {
        out.push(b',')?;
        add_item(out, *item)?;
    }
    Ok(())
}

fn add_words(out: &mut Bytes, items: &[Item<&[u8]>]) -> Result<(), Memory>
    ensures text { OnOk result (out.new ≡ out.old ++ listed_text item_text (map item_of items.now)) }
    ensures within { OnOk result (All (λ i. i.1 ≤ 4294967295) (map item_of items.now)) }
{
    let Some((first, more)) = items.split_first() else {
        return Ok(());
    };
    add_item(out, *first)?;
    add_more_words(out, more)
}

/// Adds a word between tabs.
fn add_word(out: &mut Bytes, word: &[u8]) -> Result<(), Memory>
    ensures { OnOk result (out.new ≡ out.old ++ row_text word.now []) }
{
    out.push(b'\t')?;
    out.extend(word)?;
    out.push(b'\t')
}

/// Adds a directive that has no operands.
fn add_alone(out: &mut Bytes, directive: DirectiveWord) -> Result<(), Memory>
    ensures { OnOk result (out.new ≡ out.old ++ 9 ∷ directive_text directive) }
{
    out.push(b'\t')?;
    out.extend(directive_word(directive))
}

fn add_global(out: &mut Bytes, name: &[u8]) -> Result<(), Memory>
    ensures { OnOk result (out.new ≡ out.old ++ row_text (directive_text DirectiveWord.Global) name.now) }
{
    add_word(out, directive_word(DirectiveWord::Global))?;
    out.extend(name)
}

/// Adds a directive with a number.
fn add_count(out: &mut Bytes, directive: DirectiveWord, number: u32) -> Result<(), Memory>
    ensures text { OnOk result (out.new ≡ out.old ++ row_text (directive_text directive) (decimal number)) }
    ensures within { number ≤ 4294967295 }
{
    add_word(out, directive_word(directive))?;
    add_number(out, number)
}

fn add_instruction(out: &mut Bytes, instruction: &Instruction<&[u8]>) -> Result<(), Memory>
    ensures text { OnOk result (out.new ≡ out.old ++ statement_text (told (Statement.Instruction instruction.now))) }
    ensures within { OnOk result (IsInstructionWithin instruction.now) }
{
    add_word(out, mnemonic_word(mnemonic_of(instruction)))?;
    add_operands(out, instruction)
}

fn end_line(out: &mut Bytes) -> Result<(), Memory>
    ensures { OnOk result (out.new ≡ out.old ++ 10 ∷ []) }
{
    out.push(b'\n')
}

fn add_words_row(out: &mut Bytes, items: &[Item<&[u8]>]) -> Result<(), Memory>
    ensures text { OnOk result (out.new ≡ out.old ++ statement_text (told (Statement.Words items.now))) }
    ensures within { OnOk result (IsWithin (told (Statement.Words items.now))) }
{
    add_word(out, directive_word(DirectiveWord::Word))?;
    add_words(out, items)
}

fn add_halves_row(out: &mut Bytes, halves: &[u16]) -> Result<(), Memory>
    ensures text { OnOk result (out.new ≡ out.old ++ statement_text (told (Statement.Halves halves.now))) }
    ensures within { OnOk result (IsWithin (told (Statement.Halves halves.now))) }
{
    add_word(out, directive_word(DirectiveWord::Half))?;
    add_halves(out, halves)
}

fn add_bytes_row(out: &mut Bytes, bytes: &[u8]) -> Result<(), Memory>
    ensures text { OnOk result (out.new ≡ out.old ++ statement_text (told (Statement.Bytes bytes.now))) }
    ensures within { OnOk result (IsWithin (told (Statement.Bytes bytes.now))) }
{
    add_word(out, directive_word(DirectiveWord::Byte))?;
    add_bytes(out, bytes)
}

fn add_statement(out: &mut Bytes, statement: &Statement<&[u8]>) -> Result<(), Memory>
    ensures text { OnOk result (out.new ≡ out.old ++ statement_text (told statement.now)) }
    ensures within { OnOk result (IsWithin (told statement.now)) }
{
    match statement {
        Statement::Nothing => Ok(()),
        Statement::Text => add_alone(out, DirectiveWord::Text),
        Statement::Data => add_alone(out, DirectiveWord::Data),
        Statement::Global(name) => add_global(out, name),
        Statement::Align(n) => add_count(out, DirectiveWord::Align, u32::from(*n)),
        Statement::Words(items) => add_words_row(out, items.as_slice()),
        Statement::Halves(halves) => add_halves_row(out, halves.as_slice()),
        Statement::Bytes(bytes) => add_bytes_row(out, bytes.as_slice()),
        Statement::Space(n) => add_count(out, DirectiveWord::Space, *n),
        Statement::Instruction(instruction) => add_instruction(out, instruction),
    }
}

/// Adds a label: the name and a colon, with no line feed, so that the text of another label or of a statement may be
/// added behind it. `Memory` comes where an allocation is refused: `out` then has a part of the text, and is to be given
/// up.
pub fn print_label(out: &mut Bytes, name: &[u8]) -> Result<(), Memory>
    // It is what is added.
    ensures text { OnOk result (out.new ≡ out.old ++ printed_label name.now) }
    // A line that is read back as some tokens is read back, behind the label, as the label and those tokens.
    ensures read_back { OnOk result (IsName name.now → (text : List ℕ) (tokens : List Spaced) → ReadsBack text (λ ts. ts ≡ tokens) → ReadsBack (printed_label name.now ++ text) (λ ts. IsLabelled ts name.now tokens)) }
{
    out.extend(name)?;
    out.push(b':')
}

/// Adds a statement in a line of its own: a tab before its word and before its first operand, commas without blanks
/// between operands, registers by their numbers, unsigned numbers, and a line feed. An address with no part is written
/// as 0. `Memory` comes where an allocation is refused: `out` then has a part of the text, and is to be given up.
pub fn print_statement(out: &mut Bytes, statement: &Statement<&[u8]>) -> Result<(), Memory>
    // It is what is added.
    ensures text { OnOk result (out.new ≡ out.old ++ printed_statement (told statement.now)) }
    // The line is read back as the statement.
    ensures read_back { OnOk result (IsPrintable (told statement.now) → ReadsBack (printed_statement (told statement.now)) (λ ts. IsStatement ts (told statement.now))) }
{
    add_statement(out, statement)?;
    end_line(out)
}

/// Adds a statement `.word` with these items in a line of its own, as `print_statement` does. `Memory` comes where an
/// allocation is refused: `out` then has a part of the text, and is to be given up.
pub fn print_words(out: &mut Bytes, items: &[Item<&[u8]>]) -> Result<(), Memory>
    // It is what is added.
    ensures text { OnOk result (out.new ≡ out.old ++ printed_statement (told (Statement.Words items.now))) }
    // The line is read back as the statement.
    ensures read_back { OnOk result (IsPrintable (told (Statement.Words items.now)) → ReadsBack (printed_statement (told (Statement.Words items.now))) (λ ts. IsStatement ts (told (Statement.Words items.now)))) }
{
    add_words_row(out, items)?;
    end_line(out)
}

/// Adds a statement `.half` with these halves in a line of its own, as `print_statement` does. `Memory` comes where an
/// allocation is refused: `out` then has a part of the text, and is to be given up.
pub fn print_halves(out: &mut Bytes, halves: &[u16]) -> Result<(), Memory>
    // It is what is added.
    ensures text { OnOk result (out.new ≡ out.old ++ printed_statement (told (Statement.Halves halves.now))) }
    // The line is read back as the statement.
    ensures read_back { OnOk result (IsPrintable (told (Statement.Halves halves.now)) → ReadsBack (printed_statement (told (Statement.Halves halves.now))) (λ ts. IsStatement ts (told (Statement.Halves halves.now)))) }
{
    add_halves_row(out, halves)?;
    end_line(out)
}

/// Adds a statement `.byte` with these bytes in a line of its own, as `print_statement` does. `Memory` comes where an
/// allocation is refused: `out` then has a part of the text, and is to be given up.
pub fn print_bytes(out: &mut Bytes, bytes: &[u8]) -> Result<(), Memory>
    // It is what is added.
    ensures text { OnOk result (out.new ≡ out.old ++ printed_statement (told (Statement.Bytes bytes.now))) }
    // The line is read back as the statement.
    ensures read_back { OnOk result (IsPrintable (told (Statement.Bytes bytes.now)) → ReadsBack (printed_statement (told (Statement.Bytes bytes.now))) (λ ts. IsStatement ts (told (Statement.Bytes bytes.now)))) }
{
    add_bytes_row(out, bytes)?;
    end_line(out)
}
