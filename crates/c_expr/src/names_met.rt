//! The names that no abstract declarator has.
ghost use Rattle.std.specs.Prelude.{◌≡◌};
ghost use Rattle.c_expr.specs.declared.stop.Stop.TheVariants.{Memory};

use crate::stop::Stop;

/// Which names that no abstract declarator has were met in a declarator: the declared one, and those of
/// a list of names.
#[derive(Clone, Copy, Debug)]
pub(crate) struct NamesMet {
    /// The declared name was met.
    declared: bool,
    /// How many tokens were left at the first of them.
    first: Option<usize>,
}

impl NamesMet {
    /// None was met so far.
    pub(crate) fn none() -> Self {
        NamesMet {
            declared: false,
            first: None,
        }
    }

    /// The first of so many tokens is one of them.
    fn meet(&mut self, left: usize) {
        if self.first.is_none() {
            self.first = Some(left);
        }
    }

    /// The first of so many tokens is the declared name.
    pub(crate) fn declare(&mut self, left: usize) {
        self.declared = true;
        self.meet(left);
    }

    /// The first of so many tokens begins a list of names.
    pub(crate) fn list(&mut self, left: usize) {
        self.meet(left);
    }

    /// Why a type's name stopped, whose declarator is abstract: at the first of them, if one was met.
    pub(crate) fn in_type_name(&self, stop: Stop) -> Stop
        ensures { stop ≡ Memory → result ≡ Memory }
    {
        match self.first {
            Some(left) => stop.no_later(left),
            None => stop,
        }
    }

    /// Why a parameter stopped, whose declarator is abstract or declares a name: at the first of them,
    /// where it declares none.
    pub(crate) fn in_parameter(&self, stop: Stop) -> Stop
        ensures { stop ≡ Memory → result ≡ Memory }
    {
        if self.declared {
            stop
        } else {
            self.in_type_name(stop)
        }
    }
}
