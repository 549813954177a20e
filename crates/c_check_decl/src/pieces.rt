//! Of what checkers of functions, statements and units are made, beside whole declarations.

pub use crate::counting::{local_count, set_count};
pub use crate::declares::{nothing, together};
pub use crate::defining::note;
pub use crate::fitting::{fits, makes_function};
pub use crate::forming::{first_class, name_or_empty};
pub use crate::linkage::{Linkage, given_linkage, is_linked, is_outside};
pub use crate::linked::declare_name;
pub use crate::name_faults::{is_declared_again, is_declared_otherwise};
pub use crate::naming::Naming;
pub use crate::own_specifiers::{inside, is_inner_class, own_specifiers};
pub use crate::walk::{declaration, declares_something};
pub use crate::whole_faults::{is_defined, is_typedef};
