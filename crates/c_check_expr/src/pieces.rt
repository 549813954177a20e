//! Of what checkers of declarations and statements are made, beside whole expressions and declared types.

pub use crate::declarators::{limited, shape};
pub use crate::declaring::{declare, level};
pub use crate::outline::array_length;
pub use crate::parameters::{ParameterSpot, adjusted, declare_parameter, is_other_class};
pub use crate::parts::{Declared, NamedParameter, Part, Shaped, Specified, Step};
pub use crate::specifiers::specified;
pub use crate::step_types::formed;
pub use crate::steps::{
    has_bad_element, has_bad_result, has_bad_size, has_many_parameters, has_name_list, is_large,
};
pub use crate::tags::{is_of_kind, new_tag, record_form, symbol_type, tag_key};
pub use crate::walk_declarators::declarator;
pub use crate::walk_expr::{expression, maybe_expression};
pub use crate::walk_types::specifiers;
