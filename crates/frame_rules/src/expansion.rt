//! The expansion of rules into instructions, as their actions say.
ghost use Rattle.std.specs.Prelude.{◌≡◌, ◌||◌, true, ℕ, List, Some, slice_get, option_to_list};
ghost use Rattle.lburg_model.specs.Pattern.{MPattern};
ghost use Rattle.op_forest.specs.Nodes.{Node, head_of};
ghost use Rattle.vcode.specs.Patterns.{Meeting};
ghost use Rattle.frame_rules.specs.declared.part.Part.{Part as Parts};
ghost use Rattle.frame_rules.specs.AppliedRules.{Applied};
ghost use Rattle.frame_rules.specs.FrameRules.{part_at, register_of, number_in, source_of, name_in, constant_of, name_of, is_register, is_constant, is_place, code_by, part_by};

use crate::action::Action;
use crate::part::Part;
use frame_code::{Arithmetic, Instr, Source};
use lcc_base::Items;
use op_forest::{Sym, Tree};
use vcode::Reg;

/// The node's constant modulo 2^32; 0 where it has none.
fn constant_of(node: &Tree) -> u32
    ensures { result ≡ constant_of (head_of node.now).value }
{
    match node.value {
        Some(value) => value.rem_euclid(1 << 32) as u32,
        None => 0,
    }
}

/// The node's name or label.
fn name_of(node: &Tree) -> Part
    ensures { result ≡ name_of (head_of node.now).sym }
{
    match node.sym {
        Sym::Global { name, offset } => Part::Name { name, offset },
        Sym::Label(label) => Part::Label(label),
        _ => Part::Name { name: 0, offset: 0 },
    }
}

/// The register that part n is.
fn register_at(parts: &Items<Part>, n: usize) -> Reg
    requires { (r : ℕ) × (slice_get parts.now n ≡ Some (Part.Register r)) }
    ensures { result ≡ register_of (part_at parts.now n) }
{
    match parts.at(n) {
        Part::Register(reg) => *reg,
        _ => unreachable!(),
    }
}

/// The constant that part n is.
fn number_at(parts: &Items<Part>, n: usize) -> u32
    requires { (k : ℕ) × (slice_get parts.now n ≡ Some (Part.Constant k)) }
    ensures { result ≡ number_in (part_at parts.now n) }
{
    match parts.at(n) {
        Part::Constant(number) => *number,
        _ => unreachable!(),
    }
}

/// Part n, a register or a constant, as the last operand of an operation.
fn source_at(parts: &Items<Part>, n: usize) -> Source
    requires { (p : Parts) × (slice_get parts.now n ≡ Some p) × ((is_register p || is_constant p) ≡ true) }
    ensures { result ≡ source_of (part_at parts.now n) }
{
    match parts.at(n) {
        Part::Register(reg) => Source::Register(*reg),
        Part::Constant(number) => Source::Number(*number),
        _ => unreachable!(),
    }
}

/// The name that part n is; 0 where it is a label, which has none.
fn name_at(parts: &Items<Part>, n: usize) -> u32
    requires { (p : Parts) × (slice_get parts.now n ≡ Some p) × (is_place p ≡ true) }
    ensures { result ≡ name_in (part_at parts.now n) }
{
    match parts.at(n) {
        Part::Name { name, offset: _ } => *name,
        Part::Label(_) => 0,
        _ => unreachable!(),
    }
}

/// The operation on the two parts, a register, and a register or a constant.
fn operation(op: Arithmetic, parts: &Items<Part>, to: Reg) -> Instr
    requires first { (r : ℕ) × (slice_get parts.now 0 ≡ Some (Part.Register r)) }
    requires second { (p : Parts) × (slice_get parts.now 1 ≡ Some p) × ((is_register p || is_constant p) ≡ true) }
    ensures { result ≡ Instr.Binary op to (register_of (part_at parts.now 0)) (source_of (part_at parts.now 1)) }
{
    let from = register_at(parts, 0);
    let operand = source_at(parts, 1);
    Instr::Binary {
        op,
        to,
        from,
        operand,
    }
}

/// The instruction that the action adds, if it adds one.
pub fn instr_by(action: Action, parts: &Items<Part>, to: Reg) -> Option<Instr>
    requires { (left : ℕ) × (pattern : MPattern) × (t : Node) × (ms : List Meeting) × Applied action left pattern t parts.now ms }
    ensures { option_to_list result ≡ code_by action parts.now to }
{
    match action {
        Action::Discard | Action::Pass | Action::TakeConstant | Action::TakeName => None,
        Action::LoadConstant => Some(Instr::LoadNumber {
            to,
            number: number_at(parts, 0),
        }),
        Action::Combine(op) => Some(operation(op, parts, to)),
        Action::Negate => Some(Instr::Negate {
            to,
            from: register_at(parts, 0),
        }),
        Action::Call => Some(Instr::Call {
            to,
            name: name_at(parts, 0),
        }),
        Action::HandOver => Some(Instr::Argument {
            from: register_at(parts, 0),
        }),
        Action::Return => Some(Instr::Return {
            from: register_at(parts, 0),
        }),
    }
}

/// What the action hands up.
pub fn part_by(action: Action, node: &Tree, parts: &Items<Part>, to: Reg) -> Part
    requires { (left : ℕ) × (pattern : MPattern) × (ms : List Meeting) × Applied action left pattern node.now parts.now ms }
    ensures { result ≡ part_by action node.now parts.now to }
{
    match action {
        Action::Discard | Action::HandOver | Action::Return => Part::Nothing,
        Action::Pass => *parts.at(0),
        Action::TakeConstant => Part::Constant(constant_of(node)),
        Action::TakeName => name_of(node),
        Action::LoadConstant | Action::Combine(_) | Action::Negate | Action::Call => {
            Part::Register(to)
        }
    }
}
