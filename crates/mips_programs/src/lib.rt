//! What a generated program does on the machine MIPS.
#![tactic(auto)]

mod whole_programs;

pub use whole_programs::programs_agree;
