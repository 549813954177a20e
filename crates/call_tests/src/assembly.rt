//! Lines of assembly printed, and the texts of faults.
use asm_text::{AsmFault, Instruction, Item, Lines, Register, Statement, Target, print};
use lcc_base::{Bytes, Items, Memory, Which};
use std::alloc::Global;
use std::test::Fail;

/// A number, a name, and a name with a number.
fn words(alloc: Global) -> Result<Items<Item<&'static [u8]>>, Memory> {
    let mut words = Items::new(alloc);
    for (name, value) in [
        (None, 5),
        (Some(b"a".as_slice()), 0),
        (Some(b"b".as_slice()), 8),
    ] {
        words.push(Item { name, value })?;
    }
    Ok(words)
}

/// Halves at both ends of their range.
fn halves(alloc: Global) -> Result<Items<u16>, Memory> {
    let mut halves = Items::new(alloc);
    halves.push(65535)?;
    halves.push(0)?;
    Ok(halves)
}

/// Adds lines of data.
fn push_data(alloc: Global, lines: &mut Lines) -> Result<(), Memory> {
    lines.push(alloc, &[], Statement::Data)?;
    let labels = [b"a".as_slice(), b"b".as_slice()];
    lines.push(alloc, &labels, Statement::Words(words(alloc)?))?;
    lines.push(alloc, &[], Statement::Halves(halves(alloc)?))?;
    let bytes = Bytes::copied(alloc, &[255, 0, 1])?;
    lines.push(alloc, &[b"c".as_slice()], Statement::Bytes(bytes))
}

/// Adds lines without operands, with a number, with a name, and with an instruction.
fn push_others(alloc: Global, lines: &mut Lines, register: Register) -> Result<(), Memory> {
    lines.push(alloc, &[b"d".as_slice()], Statement::Nothing)?;
    lines.push(alloc, &[], Statement::Align(4))?;
    lines.push(alloc, &[], Statement::Global(b"e"))?;
    let jump = Instruction::Jump(Target::Register(register));
    lines.push(alloc, &[b"e".as_slice()], Statement::Instruction(jump))
}

const TEXT: &[u8] = b"\t.data
a:b:\t.word\t5,a,b+8
\t.half\t65535,0
c:\t.byte\t255,0,1
d:
\t.align\t4
\t.globl\te
e:\tj\t$31
";

#[test]
fn lines_are_printed(rt: HostRuntime) -> Result<(), Fail> {
    let alloc = rt.alloc();
    let mut lines = Lines::new(alloc);
    let register = Register::new(31).ok_or("a register")?;
    push_data(alloc, &mut lines)?;
    push_others(alloc, &mut lines, register)?;
    let text = print(alloc, &lines)?;
    assert_eq!(rt; text.as_slice(), TEXT);
    Ok(())
}

#[test]
fn faults_are_told(rt: HostRuntime) -> Result<(), Fail> {
    let which = Which::Code;
    let faults = [
        (
            AsmFault::BadLine { line: 1 },
            "line 1: no line has this form",
        ),
        (
            AsmFault::TooLarge { line: 6, which },
            "line 6: past a limit",
        ),
        (AsmFault::Memory, "an allocation was refused"),
    ];
    for (fault, text) in faults {
        assert_eq!(rt; format!(in rt.alloc(); "{fault}")?.as_str(), text);
    }
    Ok(())
}
