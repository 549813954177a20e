//! The meaning of forests of operator trees, over the values, bytes and objects of C programs; and which
//! forests are well formed.
#![tactic(auto)]

mod arities;
mod calls;
mod checking;
mod forest_fault;
mod kinds;
mod labels;
mod laws;
mod slots;
mod well_formed;

pub use checking::check_forest;
pub use forest_fault::ForestFault;
pub use laws::{
    budgets_are_steps, known_bits_are_kept, numbers_are_read_back, objects_keep_their_shapes,
    operators_act_alike, roots_take_one_step, runs_go_further, runs_stay_sound,
    stores_leave_the_rest, trees_go_on_behind, words_are_read_back,
};
pub use well_formed::WellFormed;
