//! The best chains of chain rules between nonterminals, as the tables keep them.
/// A chain from one nonterminal to another that none is less than: chain rules without a range, one
/// applied after another.
#[derive(Clone, Copy, Debug, Drop)]
pub struct BestChain {
    /// The costs of its rules, added up.
    pub cost: u64,
    /// How many rules it has.
    pub count: u32,
    /// The number, from 1, of its last rule, which stands at the root of a derivation by the chain.
    pub rule: u16,
    /// The nonterminal that it leads to, the left side of its last rule.
    pub to: u16,
}
