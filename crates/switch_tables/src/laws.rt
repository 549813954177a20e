//! Laws of jump tables: how cases are sorted and cut, where numbers lead, how deep searches go.
ghost use Rattle.switch_tables.specs.Laws.{AreCut, AreFew, AreGreedy, AreHalfFull, AreKnown, AreRanked, AreSame, AreSearched, AreShallow, AreTables, IsOnlyCut, Lead};

/// Cases in rising order are the cases: each number has the label that it had, and is below those behind it.
pub fn cases_are_sorted()
    ensures ranked { AreRanked }
    ensures same { AreSame }
{}

/// The cut puts each case into one group, in order. A case joins the group before it exactly where at least half of the
/// group's numbers are then cases, and no other cut is so.
pub fn cases_are_cut()
    ensures cut { AreCut }
    ensures greedy { AreGreedy }
    ensures only { IsOnlyCut }
{}

/// There are at most as many tables as cases, and at least half of the numbers of each are cases. Each has a label for each
/// number between its first one and its last one, and has no labels but the cases' and the default's.
pub fn tables_are_whole()
    ensures full { AreHalfFull }
    ensures tables { AreTables }
    ensures few { AreFew }
    ensures known { AreKnown }
{}

/// Each number leads to its case's label, else to the default's.
pub fn numbers_lead()
    ensures { Lead }
{}

/// A search has each table once, in order, and of less than 2^k tables it compares a number with at most k.
pub fn searches_are_short()
    ensures searched { AreSearched }
    ensures shallow { AreShallow }
{}
