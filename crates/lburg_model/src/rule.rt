//! Rules of a tree grammar, and to which constants they apply.
ghost use Rattle.std.specs.Prelude.{◌↔◌, IsTrue};
ghost use Rattle.lburg_model.specs.Range.{IsMet};

use crate::pattern::Pattern;
use crate::range::Range;
use lcc_base::Bytes;

/// A rule `left: pattern "template" cost`, or one with a range in the cost's place.
#[derive(Debug, Drop)]
pub struct Rule {
    /// The nonterminal that it derives.
    pub left: u16,
    /// What it covers.
    pub pattern: Pattern,
    /// The bytes between the quotes, as they were written.
    pub template: Bytes,
    /// What it adds to a derivation's cost. With a range it is 0.
    pub cost: u16,
    /// The constants of the nodes at which it applies: where it has a range, it applies nowhere
    /// else, so at no node without a constant.
    pub range: Option<Range>,
}

impl Rule {
    /// Whether its range, if it has one, contains the constant of the node at which its pattern's
    /// root stands. A node without a constant is in no range.
    pub fn applies(&self, constant: Option<i64>) -> bool
        ensures { IsTrue result ↔ IsMet self.now.range constant }
    {
        match self.range {
            None => true,
            Some(range) => match constant {
                None => false,
                Some(constant) => range.contains(constant),
            },
        }
    }
}
