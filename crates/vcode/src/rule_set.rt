//! Rule sets: what a target's rules emit and hand up when derivations are turned into code.
ghost use Rattle.std.specs.Prelude.{◌≡◌, ◌++◌, map, IfOk, OnOk};
ghost use Rattle.lburg_model.specs.Description.{MDescription};
ghost use Rattle.vcode.specs.RuleSets.{Row, row_of, Rules, Applies, Obeys};

use crate::operand::Reg;
use crate::target::Target;
use lburg_model::Description;
use lcc_base::{Items, Memory};
use op_forest::Tree;
use std::alloc::Global;

/// A set of rules: a description, and the code that each of its rules adds on a target.
/// Source: Fraser and Hanson, A Retargetable C Compiler, chapters 13 and 14.
pub trait RuleSet<T: Target> {
    /// What a nonterminal hands up: a register, an address, a constant or nothing.
    type Part: Drop;

    /// What the rules add and hand up.
    ghost rules: { Rules T.Instr Self.Part };

    /// The description of which they are the rules.
    ghost described: { Self → MDescription };

    /// The description.
    fn description(&self) -> &Description
        ensures value { result.now ≡ described self.now }
        ensures rows { map row_of (described self.now).rules ≡ rules.rows }
        ensures start { (described self.now).start ≡ rules.start };

    /// Adds the code of a rule, by its number from 1, at a node, given what the rule's nonterminals
    /// hand up, from left to right, and the node's register. It answers what the rule hands up.
    /// `Memory` comes where an allocation is refused; then `into` is given up.
    fn expand(
        &self,
        alloc: Global,
        rule: u16,
        node: &Tree,
        parts: &Items<Self::Part>,
        to: Reg,
        into: &mut Items<T::Instr>,
    ) -> Result<Self::Part, Memory>
        requires { (row : Row) × Applies rules rule row node.now parts.now to }
        ensures code { OnOk result (into.new ≡ into.old ++ rules.code rule node.now parts.now to) }
        ensures part { IfOk result (λ p. p ≡ rules.part rule node.now parts.now to) };

    /// The laws that the code keeps on the target's machine.
    ghost obeys: { Obeys T.machine rules };
}
