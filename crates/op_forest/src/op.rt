//! The generic operators of the intermediate code, without their types.
ghost use Rattle.std.specs.Prelude.{◌≡◌};

/// What an operator does, whatever the type of its value.
/// Source: Fraser and Hanson, A Retargetable C Compiler, chapter 5.
#[derive(Clone, Copy, Debug, PartialEq, Eq)]
pub enum Op {
    /// A constant.
    Cnst,
    /// The address of a global.
    Addrg,
    /// The address of a parameter.
    Addrf,
    /// The address of a local.
    Addrl,
    /// The contents of an address; of a block its address.
    Indir,
    /// A store of the second operand at the first.
    Asgn,
    /// The next argument word of the next call.
    Arg,
    /// A call of the operand with the argument words since the last call.
    Call,
    /// A return, with the operand's value if there is one.
    Ret,
    /// A conversion from char.
    Cvc,
    /// A conversion from short.
    Cvs,
    /// A conversion from int.
    Cvi,
    /// A conversion from unsigned.
    Cvu,
    /// A conversion from a pointer.
    Cvp,
    /// The negative.
    Neg,
    /// The complement.
    Bcom,
    /// The sum.
    Add,
    /// The difference.
    Sub,
    /// The product.
    Mul,
    /// The truncating quotient.
    Div,
    /// Its remainder.
    Mod,
    /// A shift to the left.
    Lsh,
    /// A shift to the right; of an int arithmetic.
    Rsh,
    /// The bits of both.
    Band,
    /// The bits of either.
    Bor,
    /// The bits of one alone.
    Bxor,
    /// A jump where both are equal.
    Eq,
    /// A jump where they differ.
    Ne,
    /// A jump where the first is less.
    Lt,
    /// A jump where the first isn't greater.
    Le,
    /// A jump where the first is greater.
    Gt,
    /// A jump where the first isn't less.
    Ge,
    /// A jump to the operand.
    Jump,
    /// A label.
    Label,
}

impl Op {
    ghost use Rattle.op_forest.specs.Signature.{moves};

    /// Whether the run may go on elsewhere behind it: a return, a jump or a comparison.
    pub fn moves(self) -> bool
        ensures { result ≡ moves self }
    {
        matches!(
            self,
            Op::Ret | Op::Eq | Op::Ne | Op::Lt | Op::Le | Op::Gt | Op::Ge | Op::Jump
        )
    }
}
