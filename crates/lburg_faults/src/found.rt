//! Faults placed at a token of their line, and which of two stands further left.
ghost use Rattle.std.specs.Prelude.{◌≡◌, None, ℕ};
ghost use Rattle.lburg_lines.specs.Sections.{TokenLine};
ghost use Rattle.lburg_faults.specs.Lines.{IsRules};
ghost use Rattle.lburg_faults.specs.Setting.{Setting};
ghost use Rattle.lburg_faults.specs.Scans.{Scanned, NameRows, UseRows};
ghost use Rattle.lburg_faults.specs.LineEnds.{RuleRows};

use crate::line_fault::LineFault;

/// A fault of a line, and the token at which it stands: its place from 0, or the number of tokens for the
/// line's end.
#[derive(Clone, Copy, Debug, PartialEq, Eq)]
pub(crate) struct Found {
    pub(crate) place: usize,
    pub(crate) fault: LineFault,
}

/// The one of two faults of a rule that stands further left: one of its names, and one of their operands.
pub(crate) fn earlier(one: Option<Found>, other: Option<Found>) -> Option<Found>
    ensures first { (s : Setting) (l : TokenLine) (bound : ℕ) → IsRules l → Scanned NameRows s l bound one
        → Scanned UseRows s l bound other → Scanned RuleRows s l bound result }
    ensures none { result ≡ None → (one ≡ None) × (other ≡ None) }
{
    match (one, other) {
        (Some(a), Some(b)) => { if b.place < a.place { Some(b) } else { Some(a) } }
        (Some(a), None) => Some(a),
        (None, other) => other,
    }
}
