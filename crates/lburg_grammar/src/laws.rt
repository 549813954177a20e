//! What texts of descriptions keep.
ghost use Rattle.std.specs.Prelude.{◌≡◌, List, ℕ};
ghost use Rattle.lburg_faults.specs.declared.desc_fault.DescFault.{DescFault};
ghost use Rattle.lburg_faults.specs.FirstFault.{FirstFault};
ghost use Rattle.lburg_model.specs.Tree.{MTree};
ghost use Rattle.lburg_model.specs.Description.{MDescription, IsDescription};
ghost use Rattle.lburg_model.specs.SameParts.{SameParts};
ghost use Rattle.lburg_trees.specs.declared.tree_fault.TreeFault.{TreeFault};
ghost use Rattle.lburg_trees.specs.FirstFault.{FirstFault as FirstTreeFault};
ghost use Rattle.lburg_trees.specs.TailText.{IsTail};
ghost use Rattle.lburg_grammar.specs.DescriptionText.{IsText};

use lburg_lines::{one_line, one_spelling, one_text, one_tree};

/// A text has one first fault at most, and a description's text has none.
pub fn one_fault()
    ensures one { (text : List ℕ) (f g : DescFault) → FirstFault text f → FirstFault text g → f ≡ g }
    ensures none { (text : List ℕ) (d : MDescription) (f : DescFault) → IsText d text → FirstFault text f → ⊥ }
{
    one_text();
    one_line();
    one_tree();
}

/// A text is one description's, wherever its patterns stand in memory.
pub fn one_description()
    ensures { (text : List ℕ) (d e : MDescription) → IsText d text → IsText e text → SameParts d e }
{
    one_text();
    one_line();
}

/// A tail has one first fault at most, whichever description with these terminals is asked, and a tail of trees of a
/// description has none.
pub fn one_tree_fault()
    ensures one { (text : List ℕ) (d e : MDescription) (f g : TreeFault) → d.terminals ≡ e.terminals → FirstTreeFault d text f → FirstTreeFault e text g → f ≡ g }
    ensures none { (text : List ℕ) (d e : MDescription) (trees : List MTree) (f : TreeFault) → IsDescription d → d.terminals ≡ e.terminals → IsTail d trees text → FirstTreeFault e text f → ⊥ }
{
    one_text();
    one_spelling();
}
