//! The parts of a node or root: operator, operands, symbol and constant.
use crate::kids::Kids;
use op_forest::{Operator, Sym};

/// What a node or a root is made of.
#[derive(Clone, Copy, Debug, PartialEq, Eq)]
pub struct Parts {
    pub operator: Operator,
    pub kids: Kids,
    pub sym: Sym,
    pub constant: Option<i64>,
}
