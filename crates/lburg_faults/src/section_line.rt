//! The lines of a description's text before its tail, as tokens.
ghost use Rattle.std.specs.Prelude.{◌≤◌, length, IfOk};
ghost use Rattle.lcc_text.specs.Lines.{lines_of};
ghost use Rattle.lburg_lines.specs.declared.section.Section.TheVariants.{Head};
ghost use Rattle.lburg_lines.specs.Sections.{AreLinesFrom};
ghost use Rattle.lburg_faults.specs.Reads.{lines_view};

use lburg_lines::{Section, Token, line_tokens};
use lcc_text::next_line;
use std::alloc::{AllocError, Global};

/// A line, with the section in which it stands.
#[derive(Drop)]
pub(crate) struct SectionLine<'a> {
    pub(crate) section: Section,
    pub(crate) tokens: Vec<Token<'a>>,
}

/// The lines of the text before its tail.
pub(crate) fn section_lines<'a>(
    alloc: Global,
    text: &'a [u8],
) -> Result<Vec<SectionLine<'a>>, AllocError>
    ensures are { IfOk result (λ ls. AreLinesFrom Head (lines_of text.now) (lines_view ls.items)) }
    ensures few { IfOk result (λ ls. length ls.items ≤ length text.now) }
{
    let mut lines = Vec::new(alloc);
    let mut section = Section::Head;
    let mut rest = text;
    while let Some((line, behind)) = next_line(rest) {
        if section == Section::Tail {
            return Ok(lines);
        }
        let tokens = line_tokens(alloc, section, line)?;
        let next = section.behind(&tokens);
        lines.push(SectionLine { section, tokens })?;
        section = next;
        rest = behind;
    }
    Ok(lines)
}
