//! The instructions of a function.
ghost use Rattle.std.specs.Prelude.{◌≡◌, ◌+◌, ◌*◌, ◌≤◌, ◌<◌, ◌^◌, ◌++◌, [], ◌∷◌, max, min, length, get_or, drop, OnOk};
ghost use Rattle.mips_rules.specs.Mips.{mips};
ghost use Rattle.mips_target.specs.Frame.{slot_place, return_place, frame_size};
ghost use Rattle.mips_target.specs.FunctionCode.{in_frame, binary_of, operand_of, prologue, epilogue, loads_of, call_of, instructions_of, handed_behind, most_handed, argument_words, unmarked, body_of, function_code};
ghost use Rattle.unit_text.specs.UnitLines.{numbered, label_text, code_lines};
ghost use Rattle.mips_target.specs.Sizes.{IsSourceWithin, FitsOne, Fits};

use crate::layout::Layout;
use asm_text::{
    Address, BinaryOp, Instruction, Lines, LoadOp, Register, Statement, StoreOp, Target, UnaryOp,
    Value,
};
use frame_code::{Arithmetic, Instr, Source};
use lcc_base::{Bytes, Memory};
use std::alloc::Global;
use unit_text::push_plain;
use vcode::Reg;

/// The register of this number.
fn register(number: Reg) -> Register
    requires { number < 32 }
    ensures { result ≡ number }
{
    match Register::new(number as u8) {
        Some(register) => register,
        None => unreachable!(),
    }
}

/// A place in the frame, in bytes from the stack pointer, which is `$29`.
fn in_frame(place: u32) -> Address<&'static [u8]>
    ensures { result ≡ in_frame place }
{
    Address {
        name: None,
        offset: place,
        base: Some(register(29)),
    }
}

/// The register of this number gets the word at the place in the frame.
fn load(to: Reg, place: u32) -> Statement<&'static [u8]>
    requires { to < 32 }
    ensures { result ≡ Statement.Instruction (Instruction.Load LoadOp.Word to (in_frame place)) }
{
    Statement::Instruction(Instruction::Load(LoadOp::Word, register(to), in_frame(place)))
}

/// The register of this number is stored at the place in the frame.
fn store(from: Reg, place: u32) -> Statement<&'static [u8]>
    requires { from < 32 }
    ensures { result ≡ Statement.Instruction (Instruction.Store StoreOp.Word from (in_frame place)) }
{
    Statement::Instruction(Instruction::Store(StoreOp::Word, register(from), in_frame(place)))
}

/// The first register gets the second.
fn copy(to: Reg, from: Reg) -> Statement<&'static [u8]>
    requires to { to < 32 }
    requires from { from < 32 }
    ensures { result ≡ Statement.Instruction (Instruction.Move to from) }
{
    Statement::Instruction(Instruction::Move(register(to), register(from)))
}

/// The stack pointer moves by so many bytes.
fn move_stack_pointer(op: BinaryOp, bytes: u32) -> Statement<&'static [u8]>
    ensures { result ≡ Statement.Instruction (Instruction.Binary op 29 29 (Value.Number bytes)) }
{
    Statement::Instruction(Instruction::Binary(
        op,
        register(29),
        register(29),
        Value::Number(bytes),
    ))
}

/// Adds the lines that make the frame.
fn push_prologue(alloc: Global, layout: Layout, lines: &mut Lines) -> Result<(), Memory>
    requires { layout.arguments + layout.slots < 2 ^ 28 }
    ensures { OnOk result (lines.new ≡ lines.old ++ numbered (length lines.old + 1) (code_lines label_text (unmarked (prologue layout)))) }
{
    push_plain(
        alloc,
        lines,
        move_stack_pointer(BinaryOp::Subtract, layout.frame_size()),
    )?;
    push_plain(alloc, lines, store(31, layout.return_place()))
}

/// Adds the lines that give the frame back and return.
fn push_epilogue(alloc: Global, layout: Layout, lines: &mut Lines) -> Result<(), Memory>
    requires { layout.arguments + layout.slots < 2 ^ 28 }
    ensures { OnOk result (lines.new ≡ lines.old ++ numbered (length lines.old + 1) (code_lines label_text (unmarked (epilogue layout)))) }
{
    push_plain(alloc, lines, load(31, layout.return_place()))?;
    push_plain(
        alloc,
        lines,
        move_stack_pointer(BinaryOp::Add, layout.frame_size()),
    )?;
    push_plain(
        alloc,
        lines,
        Statement::Instruction(Instruction::Jump(Target::Register(register(31)))),
    )
}

/// The machine's operation.
fn binary_of(op: Arithmetic) -> BinaryOp
    ensures { result ≡ binary_of op }
{
    match op {
        Arithmetic::Add => BinaryOp::Add,
        Arithmetic::Subtract => BinaryOp::Subtract,
        Arithmetic::Multiply => BinaryOp::Multiply,
    }
}

/// The last operand of an operation.
fn operand_of(source: Source) -> Value
    requires { IsSourceWithin source }
    ensures { result ≡ operand_of source }
{
    match source {
        Source::Register(reg) => Value::Register(register(reg)),
        Source::Number(number) => Value::Number(number),
    }
}

/// Adds the lines of a call of a name with so many argument words, of which the first four go in
/// registers. The register gets its result.
fn push_call(
    alloc: Global,
    names: &[Bytes],
    words: u32,
    to: Reg,
    name: u32,
    lines: &mut Lines,
) -> Result<(), Memory>
    requires register { to < 32 }
    requires name { name < length names.now }
    ensures { OnOk result (lines.new ≡ lines.old ++ numbered (length lines.old + 1) (code_lines label_text (unmarked (call_of names.now words to name)))) }
{
    for word in 0..words.min(4) {
        push_plain(alloc, lines, load(4 + word, 4 * word))?;
    }
    let label = names[name as usize].as_slice();
    push_plain(
        alloc,
        lines,
        Statement::Instruction(Instruction::Call(Target::Label(label))),
    )?;
    push_plain(alloc, lines, copy(to, 2))
}

/// Adds the lines of an instruction, where so many argument words were handed since the last call.
fn push_instructions(
    alloc: Global,
    names: &[Bytes],
    layout: Layout,
    handed: u32,
    instr: Instr,
    lines: &mut Lines,
) -> Result<(), Memory>
    requires fits { FitsOne names.now layout handed instr }
    requires frame { layout.arguments + layout.slots < 2 ^ 28 }
    ensures { OnOk result (lines.new ≡ lines.old ++ numbered (length lines.old + 1) (code_lines label_text (unmarked (instructions_of names.now layout handed instr)))) }
{
    match instr {
        Instr::LoadNumber { to, number } => push_plain(
            alloc,
            lines,
            Statement::Instruction(Instruction::LoadNumber(register(to), number)),
        ),
        Instr::Binary {
            op,
            to,
            from,
            operand,
        } => push_plain(
            alloc,
            lines,
            Statement::Instruction(Instruction::Binary(
                binary_of(op),
                register(to),
                register(from),
                operand_of(operand),
            )),
        ),
        Instr::Negate { to, from } => push_plain(
            alloc,
            lines,
            Statement::Instruction(Instruction::Unary(
                UnaryOp::Negate,
                register(to),
                register(from),
            )),
        ),
        Instr::Argument { from } => push_plain(alloc, lines, store(from, 4 * handed)),
        Instr::Call { to, name } => push_call(alloc, names, handed, to, name, lines),
        Instr::Return { from } => {
            push_plain(alloc, lines, copy(2, from))?;
            push_epilogue(alloc, layout, lines)
        }
        Instr::Copy { to, from } => push_plain(alloc, lines, copy(to, from)),
        Instr::LoadSlot { to, slot } => push_plain(alloc, lines, load(to, layout.slot_place(slot))),
        Instr::StoreSlot { from, slot } => push_plain(
            alloc,
            lines,
            store(from, layout.slot_place(slot)),
        ),
    }
}

/// How many argument words were handed since the last call behind an instruction.
fn handed_behind(handed: u32, instr: Instr) -> u32
    requires { handed < 2 ^ 31 }
    ensures { result ≡ handed_behind handed instr }
{
    match instr {
        Instr::Argument { from: _ } => handed + 1,
        Instr::Call { to: _, name: _ } => 0,
        _ => handed,
    }
}

/// How many words a frame has for argument words: as many as are handed before a call, and four at
/// least.
pub(crate) fn argument_words(code: &[Instr]) -> u32
    requires { length code.now < 2 ^ 31 }
    ensures { result ≡ argument_words code.now }
{
    let mut handed = 0;
    let mut most = 4;
    for instr in code {
        handed = handed_behind(handed, *instr);
        most = most.max(handed);
    }
    most
}

/// Adds the lines of a function with this allocated code. It has no labels so far.
pub(crate) fn push_function_code(
    alloc: Global,
    names: &[Bytes],
    layout: Layout,
    code: &[Instr],
    lines: &mut Lines,
) -> Result<(), Memory>
    requires fits { Fits names.now layout 0 code.now }
    requires frame { layout.arguments + layout.slots < 2 ^ 28 }
    requires size { length code.now < 2 ^ 31 }
    ensures { OnOk result (lines.new ≡ lines.old ++ numbered (length lines.old + 1) (code_lines label_text (function_code names.now layout code.now))) }
{
    push_prologue(alloc, layout, lines)?;
    let mut handed = 0;
    for instr in code {
        push_instructions(alloc, names, layout, handed, *instr, lines)?;
        handed = handed_behind(handed, *instr);
    }
    push_epilogue(alloc, layout, lines)
}
