//! The next place to be initialised, split off from what waits behind it.
use crate::place::Place;
use crate::waits::Waits;

/// The first place of what waits, and what is left of it behind that place.
#[derive(Clone, Copy)]
pub(crate) struct Front {
    pub(crate) place: Place,
    pub(crate) behind: Option<Waits>,
}
