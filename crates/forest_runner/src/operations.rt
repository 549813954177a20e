//! What operators make of words.
use crate::halt::Halt;
use op_forest::{Op, Operator, Suffix};

/// The value of an operator of one operand that reads no memory.
pub(crate) fn change(operator: Operator, x: u32) -> Result<u32, Halt> {
    match (operator.op, operator.suffix) {
        (Op::Cvc, Suffix::I) => Ok(extended(x, 24)),
        (Op::Cvc, Suffix::U) => Ok(x & 0xFF),
        (Op::Cvs, Suffix::I) => Ok(extended(x, 16)),
        (Op::Cvs, Suffix::U) => Ok(x & 0xFFFF),
        (Op::Cvi | Op::Cvu | Op::Cvp, _) => Ok(x),
        (Op::Neg, Suffix::I) => Ok(x.wrapping_neg()),
        (Op::Bcom, Suffix::U) => Ok(!x),
        _ => Err(Halt::Stuck),
    }
}

/// The value of an operator of two operands.
pub(crate) fn combine(operator: Operator, x: u32, y: u32) -> Result<u32, Halt> {
    match operator.op {
        Op::Add => Ok(x.wrapping_add(y)),
        Op::Sub => Ok(x.wrapping_sub(y)),
        Op::Mul => Ok(x.wrapping_mul(y)),
        Op::Div => divide(operator.suffix, x, y),
        Op::Mod => remain(operator.suffix, x, y),
        Op::Lsh | Op::Rsh => shift(operator, x, y),
        Op::Band => Ok(x & y),
        Op::Bor => Ok(x | y),
        Op::Bxor => Ok(x ^ y),
        _ => Err(Halt::Stuck),
    }
}

/// Whether a comparison holds.
pub(crate) fn holds(operator: Operator, x: u32, y: u32) -> Result<bool, Halt> {
    let (less, equal) = match operator.suffix {
        Suffix::U => (x < y, x == y),
        _ => (x.cast_signed() < y.cast_signed(), x == y),
    };
    match operator.op {
        Op::Eq => Ok(equal),
        Op::Ne => Ok(!equal),
        Op::Lt => Ok(less),
        Op::Le => Ok(less || equal),
        Op::Gt => Ok(!less && !equal),
        Op::Ge => Ok(!less),
        _ => Err(Halt::Stuck),
    }
}

// The low bits as a signed number, where so many bits stand above them.
fn extended(x: u32, above: u32) -> u32 {
    x.wrapping_shl(above)
        .cast_signed()
        .wrapping_shr(above)
        .cast_unsigned()
}

// Shifts by fewer bits than a word has.
fn shift(operator: Operator, x: u32, y: u32) -> Result<u32, Halt> {
    if y >= 32 {
        return Err(Halt::Stuck);
    }
    match (operator.op, operator.suffix) {
        (Op::Lsh, _) => Ok(x.wrapping_shl(y)),
        (Op::Rsh, Suffix::I) => Ok(x.cast_signed().wrapping_shr(y).cast_unsigned()),
        (Op::Rsh, Suffix::U) => Ok(x.wrapping_shr(y)),
        _ => Err(Halt::Stuck),
    }
}

// Whether the quotient isn't there: by 0, or of the least number by -1.
fn has_quotient(suffix: Suffix, x: u32, y: u32) -> bool {
    y != 0 && (suffix == Suffix::U || x != 0x8000_0000 || y != 0xFFFF_FFFF)
}

fn divide(suffix: Suffix, x: u32, y: u32) -> Result<u32, Halt> {
    if !has_quotient(suffix, x, y) {
        return Err(Halt::Stuck);
    }
    match suffix {
        Suffix::U => x.checked_div(y).ok_or(Halt::Stuck),
        _ => match x.cast_signed().checked_div(y.cast_signed()) {
            Some(quotient) => Ok(quotient.cast_unsigned()),
            None => Err(Halt::Stuck),
        },
    }
}

fn remain(suffix: Suffix, x: u32, y: u32) -> Result<u32, Halt> {
    if !has_quotient(suffix, x, y) {
        return Err(Halt::Stuck);
    }
    match suffix {
        Suffix::U => x.checked_rem(y).ok_or(Halt::Stuck),
        _ => match x.cast_signed().checked_rem(y.cast_signed()) {
            Some(rest) => Ok(rest.cast_unsigned()),
            None => Err(Halt::Stuck),
        },
    }
}
