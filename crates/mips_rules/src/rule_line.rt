//! The table of the MIPS rules: patterns, templates, costs and actions.
ghost use Rattle.std.specs.Prelude.{◌≡◌, ◌<◌, ◌≤◌, length, map, Some, slice_get};
ghost use Rattle.mips_rules.specs.MipsRules.{action_at};

use frame_code::Arithmetic;
use frame_rules::Action;

/// The pattern of a rule, which has at most one operator. A nonterminal is given by its place among
/// the nonterminals, from 0, and an operator by its number.
#[derive(Clone, Copy)]
pub enum Form {
    /// A nonterminal alone.
    Chain(u16),
    /// An operator without operands.
    Leaf(u16),
    /// An operator of a nonterminal.
    Unary(u16, u16),
    /// An operator of two nonterminals.
    Binary(u16, u16, u16),
}

/// A rule of the shipped description, and what it does.
#[derive(Clone, Copy)]
pub struct RuleLine {
    pub left: u16,
    pub form: Form,
    /// The template as a description has it: a line end is a backslash and an n.
    pub template: &'static [u8],
    pub cost: u16,
    pub action: Action,
}

/// The names of the nonterminals, in the order of their first rules.
pub const NONTERMINALS: [&[u8]; 5] = [b"stmt", b"con", b"rc", b"reg", b"addr"];

/// The start symbol, a statement.
pub const STMT: u16 = 0;

/// A constant.
const CON: u16 = 1;

/// A register or a constant.
const RC: u16 = 2;

/// A register.
const REG: u16 = 3;

/// An address.
const ADDR: u16 = 4;

const CNSTI: u16 = 3;

const ADDRGP: u16 = 6;

const ARGI: u16 = 19;

const CALLI: u16 = 21;

const RETI: u16 = 23;

const NEGI: u16 = 37;

const ADDI: u16 = 39;

const SUBI: u16 = 42;

const MULI: u16 = 45;

/// The rules in order; the first has the number 1.
/// Source: Fraser and Hanson, A Retargetable C Compiler, chapter 16.
pub const RULES: [RuleLine; 13] = [
    RuleLine {
        left: STMT,
        form: Form::Chain(REG),
        template: b"",
        cost: 0,
        action: Action::Discard,
    },
    RuleLine {
        left: CON,
        form: Form::Leaf(CNSTI),
        template: b"%a",
        cost: 0,
        action: Action::TakeConstant,
    },
    RuleLine {
        left: RC,
        form: Form::Chain(CON),
        template: b"%0",
        cost: 0,
        action: Action::Pass,
    },
    RuleLine {
        left: RC,
        form: Form::Chain(REG),
        template: b"$%0",
        cost: 0,
        action: Action::Pass,
    },
    RuleLine {
        left: REG,
        form: Form::Chain(CON),
        template: b"li $%c,%0\\n",
        cost: 1,
        action: Action::LoadConstant,
    },
    RuleLine {
        left: ADDR,
        form: Form::Leaf(ADDRGP),
        template: b"%a",
        cost: 0,
        action: Action::TakeName,
    },
    RuleLine {
        left: REG,
        form: Form::Binary(ADDI, REG, RC),
        template: b"addu $%c,$%0,%1\\n",
        cost: 1,
        action: Action::Combine(Arithmetic::Add),
    },
    RuleLine {
        left: REG,
        form: Form::Binary(SUBI, REG, RC),
        template: b"subu $%c,$%0,%1\\n",
        cost: 1,
        action: Action::Combine(Arithmetic::Subtract),
    },
    RuleLine {
        left: REG,
        form: Form::Binary(MULI, REG, RC),
        template: b"mul $%c,$%0,%1\\n",
        cost: 1,
        action: Action::Combine(Arithmetic::Multiply),
    },
    RuleLine {
        left: REG,
        form: Form::Unary(NEGI, REG),
        template: b"negu $%c,$%0\\n",
        cost: 1,
        action: Action::Negate,
    },
    RuleLine {
        left: STMT,
        form: Form::Unary(ARGI, REG),
        template: b"",
        cost: 1,
        action: Action::HandOver,
    },
    RuleLine {
        left: REG,
        form: Form::Unary(CALLI, ADDR),
        template: b"jal %0\\n",
        cost: 1,
        action: Action::Call,
    },
    RuleLine {
        left: STMT,
        form: Form::Unary(RETI, REG),
        template: b"",
        cost: 1,
        action: Action::Return,
    },
];

/// What the rule at this place does.
fn action_in(lines: &[RuleLine], place: usize) -> Action
    requires { place < length lines.now }
    ensures { slice_get (map (λ l. l.action) lines.now) place ≡ Some result }
{
    lines[place].action
}

/// What the rule with this number, from 1, does.
pub fn action_of(rule: u16) -> Action
    requires some { 1 ≤ rule }
    requires limit { rule ≤ 13 }
    ensures { result ≡ action_at rule }
{
    action_in(&RULES, rule as usize - 1)
}
