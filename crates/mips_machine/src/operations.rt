//! What the operations make of words, and when a comparison holds.
//! Source: G. Kane and J. Heinrich, MIPS RISC Architecture, 1992, with the macros of its assemblers.
ghost use Rattle.std.specs.Prelude.{◌≡◌, ◌≢◌, ◌-◌, ◌^◌, Some, None, IfOk, IfErr, IfNone};
ghost use Rattle.asm_lines.specs.declared.operator.BinaryOp.TheVariants as binary;
ghost use Rattle.mips_machine.specs.Operations.{changed, combined, cause_of, signed_cause, unsigned_cause, holds};

use asm_text::{BinaryOp, Condition, StuckCause, UnaryOp};

/// What the operation makes of a word.
pub fn change(op: UnaryOp, x: u32) -> u32
    ensures { result ≡ changed op x }
{
    match op {
        UnaryOp::Negate => x.wrapping_neg(),
        UnaryOp::Not => !x,
    }
}

/// What the operation makes of two words, or why it has no result.
#[inline(always)]
pub fn combine(op: BinaryOp, x: u32, y: u32) -> Result<u32, StuckCause>
    ensures made { IfOk result (λ n. (cause_of op x y ≡ None) × (n ≡ combined op x y)) }
    ensures cause { IfErr result (λ cause. cause_of op x y ≡ Some cause) }
{
    match op {
        BinaryOp::Add => Ok(x.wrapping_add(y)),
        BinaryOp::Subtract => Ok(x.wrapping_sub(y)),
        BinaryOp::Multiply => Ok(x.wrapping_mul(y)),
        BinaryOp::Divide => divide(x, y),
        BinaryOp::Remainder => remainder(x, y),
        BinaryOp::DivideUnsigned => divide_unsigned(x, y),
        BinaryOp::RemainderUnsigned => remainder_unsigned(x, y),
        BinaryOp::And => Ok(x & y),
        BinaryOp::Or => Ok(x | y),
        BinaryOp::Xor => Ok(x ^ y),
        BinaryOp::ShiftLeft => Ok(x.wrapping_shl(y)),
        BinaryOp::ShiftRight => Ok(x.wrapping_shr(y)),
        BinaryOp::ShiftRightArithmetic => Ok(shift_arithmetic(x, y)),
    }
}

/// Shifted to the right, by the second modulo 32, with the sign at the left.
fn shift_arithmetic(x: u32, y: u32) -> u32
    ensures { result ≡ combined binary.ShiftRightArithmetic x y }
{
    x.cast_signed().wrapping_shr(y).cast_unsigned()
}

/// Why two words have no quotient as signed numbers.
fn signed_fault(x: u32, y: u32) -> Option<StuckCause>
    ensures is { result ≡ signed_cause x y }
    ensures divisor { IfNone result (y ≢ 0) }
    ensures fits { IfNone result (x ≡ 2 ^ 31 → y ≢ 2 ^ 32 - 1) }
{
    if y == 0 {
        Some(StuckCause::ZeroDivisor)
    } else if x == 0x8000_0000 && y == u32::MAX {
        Some(StuckCause::DivideOverflow)
    } else {
        None
    }
}

/// The quotient of signed numbers, truncated, if there is one.
fn divide(x: u32, y: u32) -> Result<u32, StuckCause>
    ensures made { IfOk result (λ n. (signed_cause x y ≡ None) × (n ≡ combined binary.Divide x y)) }
    ensures cause { IfErr result (λ cause. signed_cause x y ≡ Some cause) }
{
    match signed_fault(x, y) {
        Some(cause) => Err(cause),
        None => Ok((x.cast_signed() / y.cast_signed()).cast_unsigned()),
    }
}

/// The remainder of signed numbers, with the sign of the first, if there is a quotient.
fn remainder(x: u32, y: u32) -> Result<u32, StuckCause>
    ensures made { IfOk result (λ n. (signed_cause x y ≡ None) × (n ≡ combined binary.Remainder x y)) }
    ensures cause { IfErr result (λ cause. signed_cause x y ≡ Some cause) }
{
    match signed_fault(x, y) {
        Some(cause) => Err(cause),
        None => Ok((x.cast_signed() % y.cast_signed()).cast_unsigned()),
    }
}

/// The quotient of unsigned numbers, if there is one.
fn divide_unsigned(x: u32, y: u32) -> Result<u32, StuckCause>
    ensures made { IfOk result (λ n. (unsigned_cause y ≡ None) × (n ≡ combined binary.DivideUnsigned x y)) }
    ensures cause { IfErr result (λ cause. unsigned_cause y ≡ Some cause) }
{
    if y == 0 {
        return Err(StuckCause::ZeroDivisor);
    }
    Ok(x / y)
}

/// The remainder of unsigned numbers, if there is a quotient.
fn remainder_unsigned(x: u32, y: u32) -> Result<u32, StuckCause>
    ensures made { IfOk result (λ n. (unsigned_cause y ≡ None) × (n ≡ combined binary.RemainderUnsigned x y)) }
    ensures cause { IfErr result (λ cause. unsigned_cause y ≡ Some cause) }
{
    if y == 0 {
        return Err(StuckCause::ZeroDivisor);
    }
    Ok(x % y)
}

/// Whether the comparison of two words holds.
#[inline(always)]
pub fn compare(condition: Condition, x: u32, y: u32) -> bool
    ensures { result ≡ holds condition x y }
{
    match condition {
        Condition::Equal => x == y,
        Condition::NotEqual => x != y,
        Condition::Less => x.cast_signed() < y.cast_signed(),
        Condition::LessEqual => x.cast_signed() <= y.cast_signed(),
        Condition::Greater => x.cast_signed() > y.cast_signed(),
        Condition::GreaterEqual => x.cast_signed() >= y.cast_signed(),
        Condition::LessUnsigned => x < y,
        Condition::LessEqualUnsigned => x <= y,
        Condition::GreaterUnsigned => x > y,
        Condition::GreaterEqualUnsigned => x >= y,
    }
}
