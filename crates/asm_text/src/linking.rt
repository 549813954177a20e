//! Programs as machines hold them.
ghost use Rattle.std.specs.Prelude.{◌≡◌, ◌++◌, ℕ, All, map, length, replicate, OnOk, IfOk, IfSome, IfNone};
ghost use Rattle.asm_lines.specs.Statements.{instruction_with};
ghost use Rattle.asm_text.specs.Linked.{
  address_in,
  half_bytes,
  word_bytes,
  datum_bytes,
  all_bytes,
  linked_code,
  linked_data,
  HasMain,
};
ghost use Rattle.asm_text.specs.Names.{names_of_instruction, names_of_datum};
ghost use Rattle.asm_text.specs.ProgramTable.{AreBelow};

use crate::datum::Datum;
use crate::naming::{name_of, named};
use crate::program::Program;
use asm_lines::Instruction;
use lcc_base::{Memory, Order};
use std::alloc::Global;

/// A program as a machine holds it.
#[derive(Debug, Drop)]
pub struct Linked {
    /// The instructions, in which each name is its address.
    pub code: Vec<Instruction<u32>>,
    /// The bytes of the data.
    pub data: Vec<u8>,
    /// The instruction at which the label `main` stands, from 0, if it stands in the code.
    pub main: Option<u32>,
}

/// The instruction with its name's address.
#[tactic(auto, using(crate::proofs::LinkedNames::named_once, crate::proofs::LinkedNames::named_never))]
fn with_address(instruction: &Instruction<u32>, addresses: &[u32]) -> Instruction<u32>
    requires { AreBelow (length addresses.now) (names_of_instruction instruction.now) }
    ensures { result ≡ instruction_with (address_in addresses.now) instruction.now }
{
    match name_of(instruction) {
        Some(number) => named(instruction, addresses[number as usize]),
        None => *instruction,
    }
}

/// Each instruction gets its name's address.
fn link_code(code: &mut [Instruction<u32>], addresses: &[u32])
    requires { All (λ i. AreBelow (length addresses.now) (names_of_instruction i)) code.old }
    ensures { code.new ≡ map (instruction_with (address_in addresses.now)) code.old }
{
    for instruction in code.iter_mut() {
        *instruction = with_address(instruction, addresses);
    }
}

/// Adds the two bytes of a number.
fn add_half(out: &mut Vec<u8>, order: Order, half: u16) -> Result<(), Memory>
    ensures { OnOk result (out.new.items ≡ out.old.items ++ half_bytes order half) }
{
    let bytes = match order {
        Order::Big => half.to_be_bytes(),
        Order::Little => half.to_le_bytes(),
    };
    out.extend_from_slice(&bytes)?;
    Ok(())
}

/// Adds the four bytes of a number.
fn add_word(out: &mut Vec<u8>, order: Order, word: u32) -> Result<(), Memory>
    ensures { OnOk result (out.new.items ≡ out.old.items ++ word_bytes order word) }
{
    let bytes = match order {
        Order::Big => word.to_be_bytes(),
        Order::Little => word.to_le_bytes(),
    };
    out.extend_from_slice(&bytes)?;
    Ok(())
}

/// Adds so many zero bytes.
fn add_zeros(out: &mut Vec<u8>, count: u32) -> Result<(), Memory>
    ensures { OnOk result (out.new.items ≡ out.old.items ++ replicate count 0) }
{
    out.resize(out.len() + count as usize, 0)?;
    Ok(())
}

/// Adds the bytes of a datum.
fn add_datum(
    out: &mut Vec<u8>,
    order: Order,
    addresses: &[u32],
    datum: Datum<u32>,
) -> Result<(), Memory>
    requires { AreBelow (length addresses.now) (names_of_datum datum) }
    ensures { OnOk result (out.new.items ≡ out.old.items ++ datum_bytes order (address_in addresses.now) datum) }
{
    match datum {
        Datum::Byte(byte) => {
            out.push(byte)?;
            Ok(())
        }
        Datum::Half(half) => add_half(out, order, half),
        Datum::Word(word) => add_word(out, order, word),
        Datum::Named(number, more) => {
            add_word(out, order, addresses[number as usize].wrapping_add(more))
        }
        Datum::Zeros(count) => add_zeros(out, count),
    }
}

/// The bytes of data.
#[tactic(auto, using(crate::proofs::LinkedNames::bytes_more))]
fn data_bytes(
    alloc: Global,
    order: Order,
    addresses: &[u32],
    datums: &[Datum<u32>],
) -> Result<Vec<u8>, Memory>
    requires { All (λ d. AreBelow (length addresses.now) (names_of_datum d)) datums.now }
    ensures { IfOk result (λ out. out.items ≡ all_bytes order (address_in addresses.now) datums.now) }
{
    let mut out = Vec::new(alloc);
    for datum in datums {
        add_datum(&mut out, order, addresses, *datum)?;
    }
    Ok(out)
}

impl Program {
    /// The program as a machine of this order holds it. `Memory` comes where an allocation is refused.
    pub fn link(self, alloc: Global, order: Order) -> Result<Linked, Memory>
        ensures code { IfOk result (λ l. l.code.items ≡ linked_code self) }
        ensures data { IfOk result (λ l. l.data.items ≡ linked_data order self) }
        ensures main { IfOk result (λ l. IfSome l.main (λ main. HasMain self main)) }
        ensures no_main { IfOk result (λ l. IfNone l.main ((main : ℕ) → HasMain self main → ⊥)) }
    {
        let Program {
            used: _,
            addresses,
            mut code,
            numbers: _,
            data,
            label_names: _,
            places: _,
            main,
        } = self;
        let data = data_bytes(alloc, order, &addresses, &data)?;
        link_code(&mut code, &addresses);
        Ok(Linked { code, data, main })
    }
}
