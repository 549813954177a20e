//! Cases of lowered units: a program, the orders of bytes in which it runs, and what comes of it.
use lcc_base::Order;

/// A case: a C program with what it reads behind a line `%%`, the orders of bytes in which it is lowered and run, and what has to be told of it.
#[derive(Drop)]
pub struct Case {
    pub name: String,
    pub orders: Orders,
    pub program: Vec<u8>,
    pub told: Vec<u8>,
}

/// In which orders of bytes a program runs.
#[derive(Clone, Copy, Debug, PartialEq, Eq)]
pub enum Orders {
    Big,
    Little,
    Both,
}

impl Orders {
    /// Whether this order is one of them.
    pub fn has(self, order: Order) -> bool {
        match self {
            Orders::Big => order == Order::Big,
            Orders::Little => order == Order::Little,
            Orders::Both => true,
        }
    }
}

/// The orders that a word names, if it does.
pub fn orders_of(word: &str) -> Option<Orders> {
    match word {
        "big" => Some(Orders::Big),
        "little" => Some(Orders::Little),
        "both" => Some(Orders::Both),
        _ => None,
    }
}
