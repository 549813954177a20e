//! Statements without statements in them, and the nodes of labels and cases (C89 3.6.1, 3.6.6).
ghost use Rattle.std.specs.Prelude.{◌≡◌, ℕ, true, false, length, IfOk, IfErr, OnOk};
ghost use Rattle.c_meaning.specs.declared.core_stmt.CoreStmt.TheVariants as stmt;
ghost use Rattle.c_values.specs.declared.check_fault.CheckFault.TheVariants.{Constraint};
ghost use Rattle.c_types.specs.Table.{Table};
ghost use Rattle.c_meaning.specs.CoreTrees.{IsIn};
ghost use Rattle.c_check_expr.specs.Walks.{core};
ghost use Rattle.c_units.specs.Bodies.{case_number, goto as goto_by, number_of as number_modulo, stands_again as is_label_again};
ghost use Rattle.c_units.specs.Statements as node;
ghost use Rattle.c_check_decl.specs.Declares.{stmt_in};
ghost use Rattle.c_units.specs.Bodies.{done};
ghost use Rattle.c_stmt_parts.specs.Asked.{IsSound, IsToldAt};
ghost use Rattle.c_stmt_parts.specs.BodiesSeen.{IsBodyIn, around_seen, body_in, within_in};

use crate::around::{Around, Within};
use crate::body::Body;
use c_meaning::{CoreExpr, CoreStmt};
use c_types::TypeTable;
use c_values::{CheckFault, constant_value};
use lcc_base::Memory;

/// `break;` on this line.
pub fn break_(around: Around, line: u32) -> Result<CoreStmt, CheckFault>
    ensures ok { IfOk result (λ s. s ≡ stmt.Break) }
    ensures sound { OnOk result ((t : Table) → IsSound t line (node.Break (around_seen around))) }
    ensures told { IfErr result (λ e. (t : Table) → IsToldAt t line (node.Break (around_seen around)) e) }
{
    if around.in_switch || around.in_loop {
        Ok(CoreStmt::Break)
    } else {
        Err(CheckFault::Constraint { number: 49, line })
    }
}

/// `continue;` on this line.
pub fn continue_(around: Around, line: u32) -> Result<CoreStmt, CheckFault>
    ensures ok { IfOk result (λ s. s ≡ stmt.Continue) }
    ensures sound { OnOk result ((t : Table) → IsSound t line (node.Continue (around_seen around))) }
    ensures told { IfErr result (λ e. (t : Table) → IsToldAt t line (node.Continue (around_seen around)) e) }
{
    if around.in_loop {
        Ok(CoreStmt::Continue)
    } else {
        Err(CheckFault::Constraint { number: 49, line })
    }
}

/// `goto` to a label of the function.
pub fn goto(body: &mut Body, within: &Within, name: &[u8]) -> Result<CoreStmt, Memory>
    ensures ok { IfOk result (λ s. (t : Table) → done (body_in t body.new) (stmt_in t s) ≡ goto_by (within_in t within.now) (body_in t body.old) name.now) }
    ensures within { (n : ℕ) → IsBodyIn n body.old → IsBodyIn n body.new }
{
    match within.labels.find(name) {
        // No source has as many labels.
        Some(number) => Ok(CoreStmt::Goto(u32::try_from(number).map_err(|_| Memory)?)),
        None => {
            body.lost = true;
            Ok(CoreStmt::Goto(0))
        }
    }
}

/// Whether the label that stands here isn't the first of its name.
pub fn is_again(body: &Body, within: &Within, name: &[u8]) -> bool
    ensures { (t : Table) → result ≡ is_label_again (within_in t within.now) (body_in t body.now) name.now }
{
    match within.labels.find(name) {
        Some(number) => number != body.marks as usize,
        None => false,
    }
}

/// Nothing, unless the label on this line stood before.
pub fn label(again: bool, line: u32) -> Result<(), CheckFault>
    ensures sound { OnOk result ((t : Table) → IsSound t line (node.Label again)) }
    ensures told { IfErr result (λ e. (t : Table) → IsToldAt t line (node.Label again) e) }
{
    if again {
        return Err(CheckFault::Constraint { number: 50, line });
    }
    Ok(())
}

/// The number of a case modulo 2^32. None where it isn't constant.
pub fn number_of(types: &TypeTable, e: &CoreExpr) -> Option<u32>
    requires { IsIn (length types.now.forms) e.now }
    ensures { result ≡ case_number (core types.now e.now) }
{
    modulo(constant_value(types, e))
}

/// A number modulo 2^32, if there is one.
fn modulo(value: Option<i64>) -> Option<u32>
    ensures { result ≡ number_modulo value }
{
    match value {
        Some(value) => Some(value.rem_euclid(1 << 32) as u32),
        None => None,
    }
}

/// Nothing, unless the case on this line isn't constant, stands in no switch, or stood in it before.
pub fn case(
    types: &TypeTable,
    around: Around,
    again: bool,
    line: u32,
    e: &CoreExpr,
) -> Result<(), CheckFault>
    requires { IsIn (length types.now.forms) e.now }
    ensures sound { OnOk result (IsSound types.now line (node.Case (core types.now e.now) (around_seen around) again)) }
    ensures told { IfErr result (IsToldAt types.now line (node.Case (core types.now e.now) (around_seen around) again)) }
{
    if again || constant_value(types, e).is_none() {
        return Err(CheckFault::Constraint { number: 48, line });
    }
    in_switch(around, line)
}

/// Nothing, unless the default on this line stands in no switch, or in one that has one.
pub fn default(around: Around, again: bool, line: u32) -> Result<(), CheckFault>
    ensures sound { OnOk result ((t : Table) → IsSound t line (node.Default (around_seen around) again)) }
    ensures told { IfErr result (λ e. (t : Table) → IsToldAt t line (node.Default (around_seen around) again) e) }
{
    if again {
        return Err(CheckFault::Constraint { number: 48, line });
    }
    in_switch(around, line)
}

/// Nothing, unless a case or default on this line stands in no switch.
fn in_switch(around: Around, line: u32) -> Result<(), CheckFault>
    ensures ok { OnOk result (around.in_switch ≡ true) }
    ensures err { IfErr result (λ e. (e ≡ Constraint 49 line) × (around.in_switch ≡ false)) }
{
    if around.in_switch {
        Ok(())
    } else {
        Err(CheckFault::Constraint { number: 49, line })
    }
}
