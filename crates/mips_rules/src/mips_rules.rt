//! The MIPS rule set for instruction selection: the description together with its expansion.
ghost use Rattle.std.specs.Prelude.{◌≡◌, map, IfOk};
ghost use Rattle.vcode.specs.RuleSets.{row_of};
ghost use Rattle.frame_rules.specs.Rows.{nonterminals, stmt};
ghost use Rattle.mips_rules.specs.MipsRows.{rows, costs, ranges};
ghost use Rattle.mips_rules.specs.MipsTerminals.{terminals};
ghost use Rattle.mips_rules.specs.Shipped.{IsShipped, DerivesStatements, CoversRoots};

use crate::mips::Mips;
use crate::mips_description::description;
use crate::rule_line::action_of;
use frame_code::Instr;
use frame_rules::{Part, instr_by, part_by};
use lburg_model::Description;
use lcc_base::{Items, Memory};
use op_forest::Tree;
use std::alloc::Global;
use std::marker::Model;
use vcode::{Reg, RuleSet};

/// The rules of MIPS with their description, which contracts see as it.
/// Source: Fraser and Hanson, A Retargetable C Compiler, chapter 16.
#[derive(Debug, Drop)]
pub struct MipsRules {
    description: Description,
}

impl Model for MipsRules {
    ghost use Rattle.std.specs.Prelude.{◌≡◌, map};
    ghost use Rattle.std.specs.Coded.{codes};
    ghost use Rattle.lburg_model.specs.contracts.pattern.Pattern as pattern;
    ghost use Rattle.lburg_model.specs.Description.{MDescription};
    ghost use Rattle.vcode.specs.RuleSets.{row_of};
    ghost use Rattle.frame_rules.specs.Rows.{stmt};
    ghost use Rattle.mips_rules.specs.MipsRows.{rows};

    ghost Value = { MDescription };

    ghost coded = { Prim.hlevel (codes, pattern.the_row.coded) };

    ghost view = { λ r. r.description };

    ghost invariant = { λ r. (map row_of r.description.rules ≡ rows) × (r.description.start ≡ stmt) };
}

/// The rules, with the shipped description.
pub fn rules(alloc: Global) -> Result<MipsRules, Memory>
    ensures terminals { IfOk result (λ d. d.terminals ≡ terminals) }
    ensures nonterminals { IfOk result (λ d. d.nonterminals ≡ nonterminals) }
    ensures start { IfOk result (λ d. d.start ≡ stmt) }
    ensures rows { IfOk result (λ d. map row_of d.rules ≡ rows) }
    ensures costs { IfOk result (λ d. map (λ r. r.cost) d.rules ≡ costs) }
    ensures ranges { IfOk result (λ d. map (λ r. r.range) d.rules ≡ ranges) }
    ensures shipped { IfOk result (λ d. IsShipped d) }
    ensures derives { IfOk result (λ d. DerivesStatements d) }
    ensures covers { IfOk result (λ d. CoversRoots d) }
{
    let description = description(alloc)?;
    Ok(MipsRules { description })
}

impl RuleSet<Mips> for MipsRules {
    ghost use Rattle.lburg_model.specs.Description.{MDescription};
    ghost use Rattle.mips_rules.specs.MipsRules.{mips_rules};
    ghost use Rattle.mips_rules.specs.MipsObeys.{mips_obeys};

    type Part = Part;

    ghost rules = { mips_rules };

    ghost described = { λ d. d };

    fn description(&self) -> &Description {
        &self.description
    }

    fn expand(
        &self,
        _alloc: Global,
        rule: u16,
        node: &Tree,
        parts: &Items<Part>,
        to: Reg,
        into: &mut Items<Instr>,
    ) -> Result<Part, Memory> {
        let action = action_of(rule);
        if let Some(instr) = instr_by(action, parts, to) {
            into.push(instr)?;
        }
        Ok(part_by(action, node, parts, to))
    }

    ghost obeys = { mips_obeys };
}
