//! The limits of inputs and results, and their names in reports.
ghost use Rattle.std.specs.Prelude.{◌≡◌};

/// A limit of the program's inputs, by what it counts.
#[derive(Clone, Copy, Debug, PartialEq, Eq)]
pub enum Which {
    /// The bytes of an input.
    Input,
    /// The terminals of a description.
    Terminals,
    /// The nonterminals of a description.
    Nonterminals,
    /// The rules of a description.
    Rules,
    /// The nodes of a pattern.
    Pattern,
    /// The number of a terminal.
    Number,
    /// The nodes of a tree, or of a function.
    Nodes,
    /// The height of a tree.
    Height,
    /// The bytes of an object.
    Object,
    /// The depth and nesting of a type.
    Depth,
    /// The parameters of a function, or the arguments of a call.
    Parameters,
    /// The bytes of a function's frame.
    Frame,
    /// The bytes of a program's data.
    Data,
    /// The instructions of a program.
    Code,
    /// What a rule costs.
    Cost,
    /// The states of an automaton.
    States,
    /// The sets of an automaton's states.
    Sets,
}

impl Which {
    ghost use Rattle.lcc_base.specs.Which.{which_name};

    /// Its name in a report.
    pub fn name(self) -> &'static str
        ensures { result.now ≡ which_name self }
    {
        match self {
            Which::Input => "input",
            Which::Terminals => "terminals",
            Which::Nonterminals => "nonterminals",
            Which::Rules => "rules",
            Which::Pattern => "pattern",
            Which::Number => "number",
            Which::Nodes => "nodes",
            Which::Height => "height",
            Which::Object => "object",
            Which::Depth => "depth",
            Which::Parameters => "parameters",
            Which::Frame => "frame",
            Which::Data => "data",
            Which::Code => "code",
            Which::Cost => "cost",
            Which::States => "states",
            Which::Sets => "sets",
        }
    }
}
