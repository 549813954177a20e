//! The library functions that a program may call without defining them.
/// A function that is there without a definition in the unit.
#[derive(Clone, Copy, Debug, PartialEq, Eq)]
pub enum BuiltIn {
    /// `int putchar(int)` writes the low byte, and gives it as 0 to 255.
    Putchar,
    /// `int getchar(void)` gives the next byte of the input, or -1 at its end.
    Getchar,
    /// `void exit(int)` ends the run with its argument as the status.
    Exit,
}
