//! What the lines of assembly keep.
ghost use Rattle.std.specs.Prelude.{◌≡◌, List, ℕ};
ghost use Rattle.asm_lines.specs.Tokens.{Spaced};
ghost use Rattle.asm_lines.specs.Spelling.{Spells};
ghost use Rattle.asm_lines.specs.Statements.{MStatement, IsStatement};
ghost use Rattle.asm_lines.specs.Sections.{StandsIn};
ghost use Rattle.asm_lines.specs.Faults.{FaultStands};
ghost use Rattle.asm_lines.specs.declared.fault.StatementFault.{StatementFault};
ghost use Rattle.asm_lines.specs.declared.section.Section.{Section};

/// Bytes spell one list of tokens at most.
pub fn one_spelling()
    ensures { (ts us : List Spaced) (bytes : List ℕ) → Spells ts bytes → Spells us bytes → ts ≡ us }
{}

/// Tokens are one statement at most. In a section, a fault stands there or a statement that the section has, and not
/// both, and one fault at most.
pub fn one_statement()
    ensures one { (ts : List Spaced) (s u : MStatement) → IsStatement ts s → IsStatement ts u → s ≡ u }
    ensures apart { (section : Section) (ts : List Spaced) (s : MStatement) (f : StatementFault) → IsStatement ts s → StandsIn section s → FaultStands section ts f → ⊥ }
    ensures fault { (section : Section) (ts : List Spaced) (f g : StatementFault) → FaultStands section ts f → FaultStands section ts g → f ≡ g }
{}
