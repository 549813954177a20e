//! One entry in the stack of bindings.
/// A binding of a name, by the name's number.
#[derive(Clone, Copy, Debug)]
pub(crate) struct Bound {
    pub(crate) number: usize,
    pub(crate) typedef: bool,
    /// Whether the name was a typedef name before this binding.
    pub(crate) before: bool,
}
