//! Virtual code: instructions over registers without number, cut into stretches.
ghost use Rattle.std.specs.Prelude.{◌≡◌};
ghost use Rattle.vcode.specs.VirtualCode.{MCode, IsVirtualCode};

use crate::target::Target;
use lcc_base::Items;
use std::marker::Model;

/// Code over registers without number, and its cuts: the places, rising, behind its stretches. In a
/// stretch a virtual register is read only after it was written, a label stands first, and what
/// moves control last. Each register is below 2^31.
/// Source: Fraser and Hanson, A Retargetable C Compiler, chapter 15.
#[derive(Drop)]
pub struct VCode<T: Target> {
    code: Items<T::Instr>,
    cuts: Items<usize>,
}

impl<T: Target> Model for VCode<T> {
    ghost use Rattle.vcode.specs.VirtualCode.{MCode, IsVirtualCode};

    ghost Value = { MCode T.Instr };

    ghost view = { λ v. record { code = v.code; cuts = v.cuts } };

    ghost invariant = { λ v. IsVirtualCode T.machine (record { code = v.code; cuts = v.cuts }) };
}

impl<T: Target> VCode<T> {
    /// The code with these cuts. It takes no memory.
    pub fn new(code: Items<T::Instr>, cuts: Items<usize>) -> VCode<T>
        requires { IsVirtualCode T.machine (record { code = code; cuts = cuts }) }
        ensures { result ≡ record { code = code; cuts = cuts } }
    {
        VCode { code, cuts }
    }

    /// The instructions.
    pub fn code(&self) -> &[T::Instr]
        ensures value { result.now ≡ self.now.code }
        ensures is { IsVirtualCode T.machine self.now }
    {
        self.code.as_slice()
    }

    /// The places behind its stretches.
    pub fn cuts(&self) -> &[usize]
        ensures { result.now ≡ self.now.cuts }
    {
        self.cuts.as_slice()
    }

    /// The instructions, without an allocation.
    pub fn into_code(self) -> Items<T::Instr>
        ensures value { result ≡ self.code }
        ensures is { IsVirtualCode T.machine self }
    {
        let VCode { code, cuts: _ } = self;
        code
    }
}
