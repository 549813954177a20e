//! Descriptions of tree grammars, with access to their parts.
ghost use Rattle.std.specs.Prelude.{◌≡◌};
ghost use Rattle.lburg_model.specs.Description.{MDescription, IsDescription};
ghost use Rattle.lburg_model.specs.NamesOf.{operator_name, nonterminal_name};

use crate::rule::Rule;
use crate::terminal::Terminal;
use lcc_base::{Bytes, Items};
use std::marker::Model;

/// A description: terminals, nonterminals, a start symbol and rules. It keeps the language's
/// rules and limits.
#[derive(Debug, Drop)]
pub struct Description {
    terminals: Items<Terminal>,
    nonterminals: Items<Bytes>,
    start: u16,
    rules: Items<Rule>,
}

impl Model for Description {
    ghost use Rattle.lburg_model.specs.Description.{MDescription, IsDescription};
    ghost use Rattle.lburg_model.specs.contracts.pattern.Pattern as pattern;
    ghost use Rattle.std.specs.Coded.{codes};

    ghost Value = { MDescription };

    ghost coded = { Prim.hlevel (codes, pattern.the_row.coded) };

    ghost view = { λ d. record { terminals = d.terminals; nonterminals = d.nonterminals; start = d.start; rules = d.rules } };

    ghost invariant = { λ d. IsDescription (record { terminals = d.terminals; nonterminals = d.nonterminals; start = d.start; rules = d.rules }) };
}

impl Description {
    /// The description of these parts, without an allocation.
    pub fn of_parts(
        terminals: Vec<Terminal>,
        nonterminals: Vec<Bytes>,
        start: u16,
        rules: Vec<Rule>,
    ) -> Self
        requires { IsDescription (record { terminals = terminals.items; nonterminals = nonterminals.items; start = start; rules = rules.items }) }
        ensures { result ≡ record { terminals = terminals.items; nonterminals = nonterminals.items; start = start; rules = rules.items } }
    {
        Description {
            terminals: Items::from_vec(terminals),
            nonterminals: Items::from_vec(nonterminals),
            start,
            rules: Items::from_vec(rules),
        }
    }

    /// The terminals in the order of their declarations.
    pub fn terminals(&self) -> &[Terminal]
        ensures value { result.now ≡ self.now.terminals }
        ensures is { IsDescription self.now }
    {
        self.terminals.as_slice()
    }

    /// The names of the nonterminals in the order of their first rules.
    pub fn nonterminals(&self) -> &[Bytes]
        ensures value { result.now ≡ self.now.nonterminals }
        ensures is { IsDescription self.now }
    {
        self.nonterminals.as_slice()
    }

    /// The start symbol's place among the nonterminals, from 0.
    pub fn start(&self) -> u16
        ensures value { result ≡ self.now.start }
        ensures is { IsDescription self.now }
    {
        self.start
    }

    /// The rules in order; the first has the number 1.
    pub fn rules(&self) -> &[Rule]
        ensures value { result.now ≡ self.now.rules }
        ensures is { IsDescription self.now }
    {
        self.rules.as_slice()
    }

    /// The name of an operator's terminal, the operator from 1; empty where there is no such terminal.
    pub fn operator_name(&self, op: u16) -> &[u8]
        ensures { result.now ≡ operator_name self.now op }
    {
        if op == 0 {
            return &[];
        }
        match self.terminals.as_slice().get(op as usize - 1) {
            Some(terminal) => terminal.name.as_slice(),
            None => &[],
        }
    }

    /// The name of the nonterminal at a place, from 0; empty where there is none.
    pub fn nonterminal_name(&self, n: u16) -> &[u8]
        ensures { result.now ≡ nonterminal_name self.now n }
    {
        match self.nonterminals.as_slice().get(n as usize) {
            Some(name) => name.as_slice(),
            None => &[],
        }
    }
}
