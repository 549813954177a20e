//! The faults that a report names, of descriptions, tails, assembly and C sources.
ghost use Rattle.std.specs.Prelude.{◌≡◌};

/// A fault of a description, of its tail, of assembly or of a C source, by the name that the report tells.
#[derive(Clone, Copy, Debug, PartialEq, Eq)]
pub enum FaultName {
    /// The bytes form no token.
    BadToken,
    /// The tokens don't follow the grammar.
    BadRule,
    /// A name with operands isn't a terminal.
    UnknownTerminal,
    /// A terminal's name or number is declared again.
    DoubleTerminal,
    /// A terminal is used with another number of operands than at its first use.
    ArityDiffers,
    /// A nonterminal has no rule.
    UnknownNonterminal,
    /// The rest of a rule's line isn't a cost.
    CostForm,
    /// A decimal cost is above 32,766.
    CostTooLarge,
    /// A line of the tail is no tree.
    BadTree,
    /// A name in the tail isn't a terminal's.
    UnknownOp,
    /// An operator in the tail has another number of operands than the rules use it with.
    WrongArity,
    /// A line of assembly has no such form.
    BadLine,
    /// A word of assembly is neither an instruction's nor a directive's.
    UnknownInstruction,
    /// Operands of assembly have another form.
    BadOperand,
    /// A label of assembly stands twice.
    DoubleLabel,
    /// A name of assembly is neither a label nor a built-in function.
    UnknownLabel,
    /// A byte of a C source begins no token.
    BadByte,
    /// A constant of a C source is malformed, or greater than 4,294,967,295.
    BadConstant,
    /// A comment of a C source doesn't end.
    OpenComment,
    /// A line ends within a character constant or a string literal.
    OpenText,
    /// A constant of a C source is a floating one.
    FloatConstant,
    /// A literal of a C source is one of wide characters.
    WideConstant,
    /// A C source's tokens denote no unit.
    NoParse,
}

impl FaultName {
    ghost use Rattle.outcomes.specs.FaultName.{fault_name};

    /// Its text in a report.
    pub fn text(self) -> &'static str
        ensures { result.now ≡ fault_name self }
    {
        match self {
            FaultName::BadToken => "BadToken",
            FaultName::BadRule => "BadRule",
            FaultName::UnknownTerminal => "UnknownTerminal",
            FaultName::DoubleTerminal => "DoubleTerminal",
            FaultName::ArityDiffers => "ArityDiffers",
            FaultName::UnknownNonterminal => "UnknownNonterminal",
            FaultName::CostForm => "CostForm",
            FaultName::CostTooLarge => "CostTooLarge",
            FaultName::BadTree => "BadTree",
            FaultName::UnknownOp => "UnknownOp",
            FaultName::WrongArity => "WrongArity",
            FaultName::BadLine => "BadLine",
            FaultName::UnknownInstruction => "UnknownInstruction",
            FaultName::BadOperand => "BadOperand",
            FaultName::DoubleLabel => "DoubleLabel",
            FaultName::UnknownLabel => "UnknownLabel",
            FaultName::BadByte => "BadByte",
            FaultName::BadConstant => "BadConstant",
            FaultName::OpenComment => "OpenComment",
            FaultName::OpenText => "OpenText",
            FaultName::FloatConstant => "FloatConstant",
            FaultName::WideConstant => "WideConstant",
            FaultName::NoParse => "NoParse",
        }
    }
}
