//! Returns.
ghost use Rattle.std.specs.Prelude.{◌≡◌, IfOk, OnOk};
ghost use Rattle.c_meaning.specs.Types as kinds;
ghost use Rattle.c_rows_agree.specs.Typed.{as_i, head};
ghost use Rattle.lowered_forms.specs.Accesses.{copied};
ghost use Rattle.lowered_forms.specs.Lows.{acted_one};
ghost use Rattle.lowered_statements.specs.Bodies.{returned};
ghost use Rattle.lowered_statements.specs.Returns as returns;
ghost use Rattle.lowering_acts.specs.Sites.{context_of, type_in};
ghost use Rattle.lowering_steps.specs.Asking.{Acts, Asks};
ghost use Rattle.lowering_steps.specs.Operands.{typed_of};
ghost use Rattle.statement_steps.specs.Functions.{function_of};

use crate::site::FunctionSite;
use c_types::TypeId;
use c_worlds::is_record;
use dag_forest::Kids;
use lcc_base::Memory;
use lowering_acts::{Site, copy};
use lowering_steps::{OpenBlock, Operand};
use op_forest::{Op, Operator, Suffix, Sym};

/// The value that a function gives has come to this operand: a scalar is given as a word, a structure is copied to the object whose
/// address is the hidden first argument. `Memory` comes where an allocation is refused, and where the block is full; it is given up then.
pub fn give(f: &FunctionSite, value: Operand, block: &mut OpenBlock) -> Result<(), Memory>
    ensures { OnOk result (Acts block.old (λ l. returns.given_by (kinds.is_record (type_in f.now.site f.now.result)) (function_of f.now) (typed_of value) l) block.new) }
{
    if is_record(f.site.program.core.types(), f.result) {
        give_whole(&f.site, f.result, value, block)
    } else {
        give_word(value, block)
    }
}

/// No value, or 0. `Memory` comes as for `give`.
pub fn give_nothing(zero: bool, block: &mut OpenBlock) -> Result<(), Memory>
    ensures { OnOk result (Acts block.old (λ l. returns.nothing_given zero l) block.new) }
{
    if zero {
        give_word(Operand::number(true, 0), block)
    } else {
        leave(block)
    }
}

// A structure of this type.
fn give_whole(site: &Site, of: TypeId, value: Operand, block: &mut OpenBlock) -> Result<(), Memory>
    ensures { OnOk result (Acts block.old (λ l. returned (copied (context_of site.now).unit.tags (type_in site.now of) returns.hidden (typed_of value) l)) block.new) }
{
    let place = block.loaded_pointer(Operand::parameter(0))?;
    copy(site, block, of, place, value)?;
    leave(block)
}

// A scalar.
fn give_word(value: Operand, block: &mut OpenBlock) -> Result<(), Memory>
    ensures { OnOk result (Acts block.old (λ l. acted_one (head Op.Ret Suffix.I) (as_i (typed_of value)) l) block.new) }
{
    let word = as_number(value, block)?;
    let operator = Operator {
        op: Op::Ret,
        suffix: Suffix::I,
    };
    block.root(operator, Kids::One(word), Sym::Nothing)
}

// The node of a value as an int.
fn as_number(value: Operand, block: &mut OpenBlock) -> Result<u32, Memory>
    ensures { IfOk result (λ n. Asks block.old (as_i (typed_of value)) n block.new) }
{
    match value.suffix {
        Suffix::P => {
            let pointer = block.operand(value)?;
            let word = block.over(Op::Cvp, Suffix::U, pointer)?;
            block.over(Op::Cvu, Suffix::I, word)
        }
        Suffix::C | Suffix::S | Suffix::I | Suffix::U | Suffix::B | Suffix::V => block.hand(value),
    }
}

// A return without a value.
fn leave(block: &mut OpenBlock) -> Result<(), Memory>
    ensures { OnOk result (Acts block.old (λ l. returned l) block.new) }
{
    let operator = Operator {
        op: Op::Ret,
        suffix: Suffix::V,
    };
    block.root(operator, Kids::Zero, Sym::Nothing)
}
