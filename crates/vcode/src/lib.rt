//! Virtual code: instructions over registers without number, the targets and rule sets that make
//! it, and its making from a forest.
#![tactic(auto)]

mod allocated_code;
mod linearising;
mod operand;
mod register_set;
mod rule_set;
mod target;
mod virtual_code;

pub use allocated_code::Code;
pub use linearising::linearise;
pub use operand::{Operand, Reg};
pub use register_set::RegSet;
pub use rule_set::RuleSet;
pub use target::Target;
pub use virtual_code::VCode;
