//! The refusal of a source by `ceval`, from the faults of lexing, parsing and checking.
ghost use Rattle.std.specs.Prelude.{◌≡◌};
ghost use Rattle.ceval_tool.specs.SourceFaults.{lexer_name, of_check, of_syntax};
ghost use Rattle.ceval_tool.specs.declared.source_fault.SourceFault.TheVariants as fault;

use c_expr::SyntaxFault;
use c_lexer::LexFaultKind;
use c_values::CheckFault;
use outcomes::{FaultName, Refusal};
use thiserror::Error;

/// Why nothing is run of a source.
#[derive(Debug, PartialEq, Eq, Drop, Error)]
pub(crate) enum SourceFault {
    /// It is refused.
    #[error("the source is refused")]
    Refused(Refusal),
    /// An allocation was refused.
    #[error("an allocation was refused")]
    Memory,
}

/// The name of a fault of the lexer.
fn name_of(kind: LexFaultKind) -> FaultName
    ensures { result ≡ lexer_name kind }
{
    match kind {
        LexFaultKind::BadByte => FaultName::BadByte,
        LexFaultKind::BadConstant => FaultName::BadConstant,
        LexFaultKind::OpenComment => FaultName::OpenComment,
        LexFaultKind::OpenText => FaultName::OpenText,
        LexFaultKind::FloatConstant => FaultName::FloatConstant,
        LexFaultKind::WideConstant => FaultName::WideConstant,
    }
}

/// The refusal of a fault in a line.
fn at(line: u32, name: FaultName) -> SourceFault
    ensures { result ≡ fault.Refused (Refusal.Fault line name) }
{
    SourceFault::Refused(Refusal::Fault { line, name })
}

impl From<SyntaxFault> for SourceFault {
    ghost from_gives = { λ why e. e ≡ of_syntax why };

    fn from(why: SyntaxFault) -> Self {
        match why {
            SyntaxFault::NoParse { line } => at(line, FaultName::NoParse),
            SyntaxFault::Memory => SourceFault::Memory,
            SyntaxFault::Lex(fault) => at(fault.line, name_of(fault.kind)),
        }
    }
}

impl From<CheckFault> for SourceFault {
    ghost from_gives = { λ why e. e ≡ of_check why };

    fn from(why: CheckFault) -> Self {
        match why {
            CheckFault::Constraint { number, line } => {
                SourceFault::Refused(Refusal::Constraint { line, number })
            }
            CheckFault::Limit { which, line } => {
                SourceFault::Refused(Refusal::Limit { line, which })
            }
            CheckFault::Memory => SourceFault::Memory,
        }
    }
}
