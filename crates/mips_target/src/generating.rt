//! A lowered unit as lines of assembly.
ghost use Rattle.std.specs.Prelude.{◌≡◌, ℕ, ◌≤◌, ◌<◌, ◌^◌, ◌+◌, ◌++◌, length, sum_by, All, get_or, IfOk, OnOk};
ghost use Rattle.op_forest.specs.Nodes.{nodes};
ghost use Rattle.forests.specs.WellFormed.{IsWellFormed};
ghost use Rattle.forests.specs.HasRules.{HasRules};
ghost use Rattle.mips_rules.specs.Shipped.{IsShipped, CoversRoots};
ghost use Rattle.op_forest.specs.Lowered.{IsUnitName, IsFunctionOf};
ghost use Rattle.asm_text.specs.Makes.{Makes};
ghost use Rattle.asm_text.specs.Program.{MProgram};
ghost use Rattle.asm_text.specs.Printable.{ArePrintable};
ghost use Rattle.unit_text.specs.Callable.{AreCallable};
ghost use Rattle.mips_target.specs.Allocated.{IsAllocated};
ghost use Rattle.mips_target.specs.Generated.{IsSelected, AddsFunction, IsGenerated};
ghost use Rattle.mips_target.specs.UnitAssembly.{HasBounds, IsUnitAssembly};
ghost use Rattle.mips_target.specs.UnitProgram.{IsUnitProgram};

use crate::function_code::{argument_words, push_function_code};
use crate::layout::Layout;
use asm_text::{Lines, Statement};
use forests::{WellFormed, check_forest};
use lcc_base::Memory;
use mips_rules::{Mips, MipsRules, rules};
use op_forest::{Forest, Lowered, LoweredFunction};
use reducer::best_derivations;
use slot_allocator::give_slots;
use std::alloc::Global;
use unit_text::{push_name, push_plain};
use vcode::{Code, Reg, RuleSet, VCode, linearise};

/// The registers that hold spilled values for one instruction.
const TEMPORARIES: [Reg; 3] = [8, 9, 10];

/// A forest that is known to be well formed. It has no fault, so that memory alone can be refused.
fn well_formed(alloc: Global, forest: &Forest) -> Result<WellFormed, Memory>
    requires { IsWellFormed forest.now }
    ensures { IfOk result (λ w. w ≡ forest.now) }
{
    match check_forest(alloc, forest) {
        Ok(well_formed) => Ok(well_formed),
        Err(_) => Err(Memory),
    }
}

/// The virtual code of a forest, by the best derivations of its roots. The forest and the
/// derivations are given up.
fn linearised(alloc: Global, rules: &MipsRules, forest: WellFormed) -> Result<VCode<Mips>, Memory>
    requires shipped { IsShipped rules.now }
    requires covers { CoversRoots rules.now }
    requires ruled { HasRules forest.roots }
    requires size { sum_by nodes forest.roots ≤ 2 ^ 24 }
    ensures { IfOk result (λ c. IsSelected forest.roots c) }
{
    let roots = forest.forest().roots.as_slice();
    let cover = best_derivations(alloc, rules.description(), roots)?;
    linearise(alloc, &Mips, &forest, cover.as_slice(), rules)
}

/// The code of a forest over the machine's registers and spill slots.
fn allocated(alloc: Global, rules: &MipsRules, forest: WellFormed) -> Result<Code<Mips>, Memory>
    requires shipped { IsShipped rules.now }
    requires covers { CoversRoots rules.now }
    requires ruled { HasRules forest.roots }
    requires size { sum_by nodes forest.roots ≤ 2 ^ 24 }
    ensures { IfOk result (λ c. IsAllocated forest.roots c) }
{
    let code = linearised(alloc, rules, forest)?;
    give_slots(alloc, &Mips, code, &TEMPORARIES)
}

/// Adds the lines of a function of a unit.
fn push_function(
    alloc: Global,
    lowered: &Lowered,
    rules: &MipsRules,
    function: &LoweredFunction,
    lines: &mut Lines,
) -> Result<(), Memory>
    requires shipped { IsShipped rules.now }
    requires covers { CoversRoots rules.now }
    requires names { All IsUnitName lowered.now.names }
    requires function { IsFunctionOf lowered.now function.now }
    requires well_formed { IsWellFormed function.now.forest }
    requires ruled { HasRules function.now.forest.roots }
    requires size { sum_by nodes function.now.forest.roots ≤ 2 ^ 24 }
    ensures { OnOk result (AddsFunction lowered.now function.now lines.old lines.new) }
{
    let forest = well_formed(alloc, &function.forest)?;
    let code = allocated(alloc, rules, forest)?;
    let layout = Layout {
        arguments: argument_words(code.code()),
        slots: code.slots(),
    };
    let name = &lowered.names()[function.name as usize];
    push_name(alloc, lines, name.as_slice())?;
    push_function_code(alloc, lowered.names(), layout, code.code(), lines)
}

/// The lines of a unit: its functions in order, each by the best derivations of its roots. `Memory`
/// comes where an allocation is refused.
/// Source: Fraser and Hanson, A Retargetable C Compiler, chapters 13 to 16.
pub fn generate(alloc: Global, lowered: &Lowered) -> Result<Lines, Memory>
    requires well_formed { All (λ f. IsWellFormed f.forest) lowered.now.functions }
    requires ruled { All (λ f. HasRules f.forest.roots) lowered.now.functions }
    requires size { All (λ f. sum_by nodes f.forest.roots ≤ 2 ^ 24) lowered.now.functions }
    ensures value { IfOk result (λ lines. IsGenerated lowered.now lines) }
    ensures printable { IfOk result (λ lines. ArePrintable lines) }
    ensures unit { IfOk result (λ lines. (p : MProgram) → Makes lines p → IsUnitProgram lowered.now p) }
    ensures assembly { IfOk result (λ lines. (p : MProgram) → Makes lines p → (room most : LoweredFunction → ℕ) → All (HasBounds room most) lowered.now.functions → IsUnitAssembly room most lowered.now p) }
    ensures program { IfOk result (λ lines. AreCallable lowered.now → (p : MProgram) × Makes lines p) }
{
    let rules = rules(alloc)?;
    let mut lines = Lines::new(alloc);
    push_plain(alloc, &mut lines, Statement::Text)?;
    for function in lowered.functions() {
        push_function(alloc, lowered, &rules, function, &mut lines)?;
    }
    Ok(lines)
}
