//! The sections of a description's text, and how a line leads from one to the next.
ghost use Rattle.std.specs.Prelude.{◌≡◌};
ghost use Rattle.lburg_lines.specs.Tokens.{views};
ghost use Rattle.lburg_lines.specs.Sections.{first_border, section_behind};

use crate::token::{Border, Token};

/// The part of a description's text in which a line stands.
#[derive(Clone, Copy, Debug, PartialEq, Eq)]
pub enum Section {
    /// Before any line that isn't blank: a prologue may open here.
    Head,
    /// Behind a line `%{`, up to the line that begins with `%}`.
    Prologue,
    /// The declarations, before the first `%%`.
    Declarations,
    /// The rules, behind the first `%%`.
    Rules,
    /// Behind the second `%%`.
    Tail,
}

/// The border with which the line begins, if it does.
fn first_border(tokens: &[Token]) -> Option<Border>
    ensures { result ≡ first_border (views tokens.now) }
{
    match tokens.split_first() {
        Some((Token::Border(border), _)) => Some(*border),
        _ => None,
    }
}

impl Section {
    /// The section behind a line of this section that has these tokens.
    pub fn behind(self, tokens: &[Token]) -> Section
        ensures { result ≡ section_behind self (views tokens.now) }
    {
        match self {
            Section::Head => head_behind(tokens),
            Section::Prologue => match first_border(tokens) {
                Some(Border::PrologueEnd) => Section::Declarations,
                _ => Section::Prologue,
            },
            Section::Declarations => match first_border(tokens) {
                Some(Border::Divider) => Section::Rules,
                _ => Section::Declarations,
            },
            Section::Rules => match first_border(tokens) {
                Some(Border::Divider) => Section::Tail,
                _ => Section::Rules,
            },
            Section::Tail => Section::Tail,
        }
    }
}

fn head_behind(tokens: &[Token]) -> Section
    ensures { result ≡ section_behind Section.Head (views tokens.now) }
{
    if tokens.is_empty() {
        return Section::Head;
    }
    match first_border(tokens) {
        Some(Border::PrologueStart) => Section::Prologue,
        Some(Border::Divider) => Section::Rules,
        _ => Section::Declarations,
    }
}
