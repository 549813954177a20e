//! Loading: a program is linked and decoded, and its machine stands at `main`.
ghost use Rattle.std.specs.Prelude.{◌≡◌, ℕ, ◌≤◌, IfOk, IfErr, IsErrOf};
ghost use Rattle.asm_text.specs.IsProgram.{IsProgram};
ghost use Rattle.asm_text.specs.Linked.{linked_code, linked_data, HasMain};
ghost use Rattle.mips_machine.specs.Run.{first_cpu};

use crate::decoded::decode_all;
use crate::processor::Processor;
use crate::{LoadFault, Machine};
use asm_text::{CODE_START, Linked, Program};
use lcc_base::Order;
use std::alloc::Global;

/// A machine of this byte order at the start of the program, at its label `main`, with a stack of so many bytes.
///
/// `NoMain` comes where no label of the code is `main`, and `Memory` where an allocation was refused. After an error the
/// program is gone.
pub fn load(alloc: Global, program: Program, order: Order, stack: u32) -> Result<Machine, LoadFault>
    requires program { IsProgram program }
    requires least { 4096 ≤ stack }
    requires most { stack ≤ 16777216 }
    ensures loaded { IfOk result (λ m. (main : ℕ) × HasMain program main × (m ≡ record { code = linked_code program; order = order; cpu = first_cpu (linked_data order program) stack main })) }
    ensures main { (main : ℕ) → HasMain program main → IfErr result (λ e. e ≡ LoadFault.Memory) }
    ensures no_main { IsErrOf result LoadFault.NoMain → (main : ℕ) → HasMain program main → ⊥ }
{
    let Linked { code, data, main } = program.link(alloc, order)?;
    let Some(main) = main else {
        return Err(LoadFault::NoMain);
    };
    let stack = vec![in alloc; 0; stack as usize]?;
    let decoded = decode_all(alloc, &code)?;
    let processor = Processor::new(data, stack, CODE_START + 4 * main);
    Ok(Machine::new(decoded, order, processor))
}
