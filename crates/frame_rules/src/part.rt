//! The values that nonterminals of rules hand up to the rules above them.
use vcode::Reg;

/// What a nonterminal hands up.
#[derive(Clone, Copy, Debug, PartialEq, Eq)]
pub enum Part {
    /// The value of a register.
    Register(Reg),
    /// A number.
    Constant(u32),
    /// The address that lies so many bytes behind that of a global, which is given by its place
    /// among the names of the unit.
    Name { name: u32, offset: i32 },
    /// The address of a label of the function itself.
    Label(u32),
    /// No value.
    Nothing,
}
