//! What the items of an initialiser list have stored so far, and what still waits.
use crate::waits::Waits;
use c_meaning::CoreExpr;
use c_types::TypeId;

/// What is stored in a place of an object, before the object's size is known. The place is as `Place` has
/// it.
#[derive(Drop)]
pub(crate) struct Stored {
    pub(crate) of: TypeId,
    pub(crate) offset: u64,
    pub(crate) first: u8,
    pub(crate) width: u8,
    pub(crate) value: CoreExpr,
}

/// What the items of a list have stored, what still waits behind them, the next one last, and whether one
/// of them found no place.
#[derive(Drop)]
pub(crate) struct Filling {
    pub(crate) places: Vec<Stored>,
    pub(crate) waits: Vec<Waits>,
    pub(crate) excess: bool,
}
