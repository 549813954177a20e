//! A description's text without a fault, with names as they are written, or its first fault with its line.
#![tactic(auto)]

mod checked_text;
mod declared;
mod declaring;
mod desc_fault;
mod directive;
mod ending;
mod found;
mod here;
mod known;
mod line_check;
mod line_fault;
mod naming;
mod numbered_rules;
mod reading;
mod section_line;
mod unruled;
mod using;

pub use checked_text::CheckedText;
pub use desc_fault::DescFault;
pub use line_fault::LineFault;
pub use reading::read_checked;
