//! The syntax of a description's lines, by kind.
use crate::declaration::Declaration;
use crate::rule_line::RuleLine;

/// A line of a description as it is written.
#[derive(Debug, Drop)]
pub enum Line<'a> {
    /// A line without a token, or of a prologue.
    Blank,
    /// `%%`
    Divider,
    /// `%{`, whatever stands behind it.
    PrologueStart,
    /// `%}`
    PrologueEnd,
    /// A line of declarations.
    Declaration(Declaration<'a>),
    /// A rule.
    Rule(RuleLine<'a>),
}
