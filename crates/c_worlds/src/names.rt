//! The numbering of the built-in functions behind what the unit defines.
/// How the built-in functions are numbered: behind the unit's functions, objects and texts come those of putchar,
/// getchar and exit, in this order, whose names the unit doesn't define.
#[derive(Clone, Copy, Debug)]
pub struct Names {
    /// How many functions, objects and texts the unit has.
    pub first: u32,
    /// Whether the unit defines a function or an object of this name.
    pub putchar: bool,
    /// The same of `getchar`.
    pub getchar: bool,
    /// The same of `exit`.
    pub exit: bool,
}
