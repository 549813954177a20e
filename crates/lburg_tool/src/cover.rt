//! The command `lburg cover`: each tree of the tail is labelled, reduced and printed as a line.
ghost use Rattle.std.specs.Prelude.{◌≡◌, ◌+◌, ◌<◌, ◌≤◌, ◌-◌, List, length, IfOk, OnOk, IsErrOf};
ghost use Rattle.lburg_model.specs.Tree.{MTree, nodes};
ghost use Rattle.lburg_model.specs.CoverText.{IsCoverText, no_cover_line};
ghost use Rattle.lburg_model.specs.Derivation.{MDerivation, cost};
ghost use Rattle.lburg_model.specs.Best.{IsBest};
ghost use Rattle.lburg_trees.specs.TailText.{IsTail};
ghost use Rattle.lburg_grammar.specs.DescriptionText.{IsText};
ghost use Rattle.tree_labeller.specs.IsLabelled.{IsLabelled};
ghost use Rattle.tree_labeller.specs.MCells.{room, HasRoom};
ghost use Rattle.lburg_tool.specs.Printing.{Adds, AddsNumber, AddsLine, IsReady, Covers};
ghost use Rattle.lburg_tool.specs.Cover.{IsCover, CoverEnds, RefusesTail, RefusesCover, cover_behaviour};
ghost use Rattle.outcomes.specs.Work.{IsWorked};
ghost use Rattle.lburg_tool.specs.declared.text_fault.TextFault.TheVariants.{Refused};
ghost use Rattle.outcomes.specs.declared.outcome.Refusal.{Refusal as Refusals};

use crate::laws::cover_laws;
use crate::printer::Printer;
use crate::text_fault::TextFault;
use lburg_grammar::{Description, TextTree, TreeNode, TreeTaker, read, take_trees};
use lburg_tables::{Tables, build};
use lcc_base::{Bytes, Memory, Sink, Steps};
use outcomes::{End, Outcome, write_text};
use reducer::{Cost, Visitor, best, reduce};
use std::alloc::Global;
use std::marker::Brand;
use std::sync::ledger::{Blank, Ledger};
use tree_labeller::{Cells, label};

/// The text of a cover, and how many trees have no derivation.
#[derive(Drop)]
pub(crate) struct Cover {
    pub(crate) text: Bytes,
    pub(crate) uncovered: u64,
}

impl<N> Visitor<N> for Printer {
    ghost takes = { AddsNumber };

    fn rule(&mut self, number: u16, _node: &N) {
        self.print_behind_blank(number);
    }
}

/// Prints the line of a tree with a derivation, whose cost this is.
fn print_covered<N: TreeNode>(
    tables: &Tables,
    tree: &N,
    number: u64,
    cells: &Cells,
    sum: u64,
    printer: &mut Printer,
)
    requires labelled { IsLabelled tables.now cells.now (N.tree tree.now) }
    requires best { (x : MDerivation) × IsBest tables.now (N.tree tree.now) x × (sum ≡ cost tables.now.rules x) }
    ensures { AddsLine tables.now number (N.tree tree.now) 0 printer.old printer.new }
{
    printer.print_number(number);
    printer.print(b": cost ");
    printer.print_number(sum);
    printer.print(b":");
    reduce(tables, tree, cells, printer);
    printer.print(b"\n");
}

/// Prints the line of a tree without a derivation.
fn print_uncovered(number: u64, printer: &mut Printer)
    ensures { Adds printer.old printer.new (no_cover_line number) }
{
    printer.print_number(number);
    printer.print(b": no cover\n");
}

/// Prints a tree's line, and tells how many trees, 0 or 1, have no derivation.
fn cover_tree<N: TreeNode, L: Ledger>(
    tables: &Tables,
    tree: &N,
    number: u64,
    cells: &mut Cells,
    steps: &mut Steps<L>,
    printer: &mut Printer,
) -> u64
    requires nodes { nodes (N.tree tree.now) ≤ room cells.old }
    requires nonterminals { length tables.now.nonterminals ≤ cells.old.nonterminals }
    ensures line { AddsLine tables.now number (N.tree tree.now) result printer.old printer.new }
    ensures one { result ≤ 1 }
    ensures room { HasRoom cells.new (room cells.old) cells.old.nonterminals }
{
    label(tables, tree, cells, steps);
    match best(tables, cells, steps) {
        Some(cost) => {
            print_covered(tables, tree, number, cells, cost.sum, printer);
            0
        }
        None => {
            print_uncovered(number, printer);
            1
        }
    }
}

/// Makes room for a tree of so many nodes. New room is for twice as many, so that it is made seldom.
fn make_room(alloc: Global, cells: &mut Cells, count: usize) -> Result<(), Memory>
    requires small { count ≤ 65535 }
    requires few { cells.old.nonterminals ≤ 127 }
    ensures room { OnOk result (count ≤ room cells.new) }
    ensures width { OnOk result (cells.new.nonterminals ≡ cells.old.nonterminals) }
{
    if count > cells.nodes() {
        *cells = Cells::reserve(alloc, 2 * count, cells.nonterminals())?;
    }
    Ok(())
}

/// Covers trees as they come, and gathers their lines.
#[derive(Drop)]
struct Coverer<'a, L: Ledger> {
    alloc: Global,
    tables: &'a Tables<'a>,
    cells: Cells,
    steps: Steps<L>,
    printer: Printer,
    /// How many trees had no derivation.
    uncovered: u64,
}

impl<'a, L: Ledger> TreeTaker for Coverer<'a, L> {
    ghost ready = { λ c number. IsReady c.tables.now c.cells c.uncovered number };

    ghost takes = { λ old number tree new. Covers old.tables.now number tree old.printer old.uncovered new.printer new.uncovered × (new.tables.now ≡ old.tables.now) };

    fn take_tree(&mut self, number: u32, tree: TextTree, count: usize) -> Result<(), Memory> {
        make_room(self.alloc, &mut self.cells, count)?;
        self.uncovered += cover_tree(
            self.tables,
            &tree,
            u64::from(number),
            &mut self.cells,
            &mut self.steps,
            &mut self.printer,
        );
        Ok(())
    }
}

/// The lines of the trees in the tail of a description's text, which are covered one by one.
fn cover_trees<L: Ledger>(
    alloc: Global,
    blank: Blank,
    description: &Description,
    input: &[u8],
) -> Result<Cover, TextFault>
    requires name { blank.name ≡ L.name }
    requires parts { blank.parts ≡ L.parts }
    requires some { 0 < blank.parts }
    requires within { length input.now ≤ 16777216 }
    ensures found { IfOk result (λ c. (trees : List MTree) × IsTail description.now trees input.now × IsCoverText description.now trees c.text c.uncovered) }
    ensures refused { (why : Refusals) → IsErrOf result (Refused why) → RefusesTail description.now input.now why }
{
    let tables = build(alloc, description)?;
    let mut coverer = Coverer {
        alloc,
        tables: &tables,
        cells: Cells::reserve(alloc, 0, description.nonterminals().len())?,
        steps: Steps::<L>::new(blank),
        printer: Printer::new(alloc),
        uncovered: 0,
    };
    take_trees(alloc, description, input, &mut coverer)?;
    let Coverer {
        printer,
        uncovered,
        ..
    } = coverer;
    let Printer { text, is_refused } = printer;
    if is_refused {
        return Err(TextFault::Memory);
    }
    Ok(Cover { text, uncovered })
}

/// The cover of the trees in the tail of a description's text.
fn cover_tail(alloc: Global, description: &Description, input: &[u8]) -> Result<Cover, TextFault>
    requires text { IsText description.now input.now }
    requires within { length input.now ≤ 16777216 }
    ensures found { IfOk result (λ c. IsCover input.now c.text c.uncovered) }
    ensures refused { (why : Refusals) → IsErrOf result (Refused why) → RefusesTail description.now input.now why }
{
    cover_trees::<Brand>(alloc, Blank::new(1), description, input)
}

/// The cover that a description's text with a tail of trees asks for.
pub(crate) fn cover_text(alloc: Global, input: &[u8]) -> Result<Cover, TextFault>
    requires { length input.now ≤ 16777216 }
    ensures found { IfOk result (λ c. IsCover input.now c.text c.uncovered) }
    ensures refused { (why : Refusals) → IsErrOf result (Refused why) → RefusesCover input.now why }
{
    let description = read(alloc, input)?;
    cover_tail(alloc, &description, input)
}

/// How a cover ends in which so many trees have no derivation.
fn end_of(uncovered: u64) -> End
    ensures { CoverEnds uncovered result }
{
    if uncovered == 0 {
        End::Finished
    } else {
        End::NoCover(uncovered)
    }
}

/// Writes the cover that the input asks for.
pub fn cover_input<K: Sink>(alloc: Global, input: &[u8], output: &mut K) -> Outcome
    requires { length input.now ≤ 16777216 }
    ensures worked { IsWorked cover_behaviour input.now (K.taken output.old) (K.taken output.new) (K.faults output.old) (K.faults output.new) result }
    ensures later { K.faults output.old ≤ K.faults output.new }
{
    cover_laws();
    match cover_text(alloc, input) {
        Ok(cover) => write_text(cover.text.as_slice(), end_of(cover.uncovered), output),
        Err(TextFault::Refused(why)) => Outcome::Refused(why),
        Err(TextFault::Memory) => Outcome::Memory,
    }
}
