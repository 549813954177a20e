//! The causes of undefined behaviour in a C program's run, and their names.
ghost use Rattle.std.specs.Prelude.{◌≡◌};

/// Why a C program's run is undefined.
/// Source: C89, 3.1.2.4, 3.2.2.3, 3.3 to 3.3.16 and 3.6.6.4, in the profile of this compiler.
#[derive(Clone, Copy, Debug, PartialEq, Eq)]
pub enum Cause {
    /// A divisor is 0.
    ZeroDivisor,
    /// The least int is divided by -1.
    DivideOverflow,
    /// A shift count is outside of 0 to 31.
    ShiftCount,
    /// An unknown bit is read.
    Unknown,
    /// Some bytes of a pointer or function are read, and not all of one in order.
    PointerBytes,
    /// An access lies outside an object, or goes through a number.
    Outside,
    /// An access isn't at a multiple of its type's alignment.
    Misaligned,
    /// A pointer to an object past its lifetime is used.
    Dead,
    /// A string literal or a const object is written.
    ReadOnly,
    /// Pointer arithmetic leaves its object, or moves a number or a function.
    PointerRange,
    /// Pointers that aren't into one object are ordered or subtracted.
    PointerOrder,
    /// Pointers are compared whose equality the language leaves open.
    PointerEqual,
    /// A pointer or function is used as a number.
    PointerNumber,
    /// A call doesn't fit the function that it calls.
    CallMismatch,
    /// The result of a function is used that gave none.
    NoResult,
    /// A structure is assigned to a place that overlaps it in part.
    Overlap,
}

impl Cause {
    ghost use Rattle.lcc_base.specs.Cause.{cause_name};

    /// Its name in a report.
    pub fn name(self) -> &'static str
        ensures { result.now ≡ cause_name self }
    {
        match self {
            Cause::ZeroDivisor => "ZeroDivisor",
            Cause::DivideOverflow => "DivideOverflow",
            Cause::ShiftCount => "ShiftCount",
            Cause::Unknown => "Unknown",
            Cause::PointerBytes => "PointerBytes",
            Cause::Outside => "Outside",
            Cause::Misaligned => "Misaligned",
            Cause::Dead => "Dead",
            Cause::ReadOnly => "ReadOnly",
            Cause::PointerRange => "PointerRange",
            Cause::PointerOrder => "PointerOrder",
            Cause::PointerEqual => "PointerEqual",
            Cause::PointerNumber => "PointerNumber",
            Cause::CallMismatch => "CallMismatch",
            Cause::NoResult => "NoResult",
            Cause::Overlap => "Overlap",
        }
    }
}
