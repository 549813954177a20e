//! The tables by which trees are labelled, and how they are built from a description.
ghost use Rattle.std.specs.Prelude.{◌≡◌, ◌↔◌, ℕ, ◌+◌, ◌-◌, ◌^◌, ◌<◌, ◌≤◌, IfOk, IsTrue, length};
ghost use Rattle.lburg_model.specs.Description.{MDescription, IsDescription};
ghost use Rattle.lburg_tables.specs.IsTables.{IsTables};
ghost use Rattle.lburg_tables.specs.Root.{Chain, Operator, places_with};
ghost use Rattle.lburg_tables.specs.BestChains.{AreBest};
ghost use Rattle.lburg_tables.specs.ChainTries.{chain_tries};
ghost use Rattle.lburg_tables.specs.Leads.{HasRanged};
ghost use Rattle.lburg_tables.specs.Row.{CellAt, Closed, IsCheap};
ghost use Rattle.lburg_tables.specs.RowOf.{row_of};
ghost use Rattle.lburg_tables.specs.Waits.{IsIdle};
ghost use Rattle.lburg_tables.specs.declared.cell.Cell.{Cell as Cells};

use crate::best_chain::BestChain;
use crate::cell::Cell;
use crate::chains::{best_chains, has_ranged};
use crate::closing::{NodeRules, close_row};
use crate::index::{Index, index_of, places_at};
use lburg_model::Description;
use lcc_base::{Items, Memory, Steps};
use place_queue::Queue;
use std::alloc::Global;
use std::marker::Model;
use std::sync::ledger::Ledger;

/// The tables of a description, with which trees are labelled: the description, the places of its
/// rules by what stands at the root of their patterns, and the best chains between nonterminals.
/// Contracts see them as the description.
/// Source: Fraser and Hanson, A Retargetable C Compiler, chapter 14.
#[derive(Debug, Drop)]
pub struct Tables<'a> {
    description: &'a Description,
    index: Index,
    /// Whether some chain rule has a range.
    is_ranged: bool,
    /// The best chains, by the nonterminal that they start from.
    chains: Vec<Items<BestChain>>,
}

impl<'a> Model for Tables<'a> {
    ghost use Rattle.lburg_model.specs.Description.{MDescription, IsDescription};
    ghost use Rattle.lburg_model.specs.contracts.pattern.Pattern as pattern;
    ghost use Rattle.lburg_tables.specs.IsTables.{IsTables};
    ghost use Rattle.std.specs.Coded.{codes};

    ghost Value = { MDescription };

    ghost coded = { Prim.hlevel (codes, pattern.the_row.coded) };

    ghost view = { λ t. t.description.now };

    ghost invariant = { λ t. IsTables t.description.now t.index t.is_ranged t.chains.items };
}

/// The tables of a description, which they borrow. They take room linear in its rules and operators
/// and in the square of the number of its nonterminals. `Memory` comes where an allocation is
/// refused.
pub fn build(alloc: Global, d: &Description) -> Result<Tables, Memory>
    ensures { IfOk result (λ t. t ≡ d.now) }
{
    let index = index_of(alloc, d)?;
    let is_ranged = has_ranged(d.rules());
    let chains = best_chains(alloc, d, &index)?;
    Ok(Tables {
        description: d,
        index,
        is_ranged,
        chains,
    })
}

impl<'a> Tables<'a> {
    /// The description that they were built from.
    pub fn description(&self) -> &Description
        ensures value { result.now ≡ self.now }
        ensures is { IsDescription self.now }
    {
        self.description
    }

    /// The places, from 0 and in order, of the rules whose patterns have this operator at their root.
    pub fn rules_on(&self, op: u16) -> &[u16]
        ensures { result.now ≡ places_with (Operator op) self.now.rules }
    {
        places_at(&self.index.operators, op as usize)
    }

    /// The places, from 0 and in order, of the chain rules from this nonterminal.
    pub fn chains_from(&self, n: u16) -> &[u16]
        ensures { result.now ≡ places_with (Chain n) self.now.rules }
    {
        places_at(&self.index.chains, n as usize)
    }

    /// Whether some chain rule has a range, so that what chain rules make of a cell depends on the
    /// node's constant.
    pub fn has_ranged_chains(&self) -> bool
        ensures { IsTrue result ↔ HasRanged self.now.rules }
    {
        self.is_ranged
    }

    /// The best chains from a nonterminal: for each other one that chain rules without a range lead
    /// to, the least by cost, then count, then the number of the last rule.
    pub fn best_chains(&self, from: usize) -> &[BestChain]
        requires { from < length self.now.nonterminals }
        ensures { AreBest self.now from result.now }
    {
        self.chains[from].as_slice()
    }

    /// Adds to the row of a node with this constant what the chain rules that apply there make of
    /// its cells. The queue has as many places as the row has cells; none waits, before and after. A
    /// step is one chain rule that is tried on a cell.
    pub fn close_row<L: Ledger>(
        &self,
        constant: Option<i64>,
        row: &mut [Cell],
        queue: &mut Queue,
        steps: &mut Steps<L>,
    )
        requires wide { length self.now.nonterminals ≤ length row.old }
        requires narrow { length row.old < 2 ^ 32 - 1 }
        requires idle { IsIdle (length row.old) queue.old }
        requires short { (n : ℕ) (c : Cells) → CellAt (row_of row.old) n c → c.count + length row.old < 2 ^ 32 }
        requires cheap { IsCheap (row_of row.old) }
        ensures closed { Closed self.now.rules constant (row_of row.old) (row_of row.new) }
        ensures idle { IsIdle (length row.old) queue.new }
        ensures steps { steps.new ≡ steps.old + chain_tries (row_of row.new) self.now.rules }
    {
        let node = NodeRules {
            rules: self.description.rules(),
            index: &self.index,
            constant,
        };
        close_row(&node, row, queue, steps);
    }
}
