//! The names in force by scope, from which a parser tells typedef names from other identifiers.
ghost use Rattle.std.specs.Prelude.{◌≡◌, IfOk, OnOk, OnErr};
ghost use Rattle.c_ast.specs.InForce.{nothing_in_force, is_typedef, put, opened, closed, closed_kept, reopened, forgotten};

use crate::bindings::Bindings;
use lcc_base::Memory;
use std::alloc::Global;
use std::marker::Model;

/// The names in force, by scope, and those of the last parameter list that was kept. A look takes
/// the same time at any depth. Source: C89 3.1.2.1.
#[derive(Drop)]
pub struct Names {
    bindings: Bindings,
    /// Where the bindings of each open scope start, the outermost first.
    starts: Vec<usize>,
}

impl Model for Names {
    ghost use Rattle.c_ast.specs.InForce.{InForce};

    ghost Value = { InForce };

    ghost use Rattle.names_in_force.specs.Cut.{names_of, AreStarts};
    ghost use Rattle.std.specs.Prelude.{reverse, length};

    ghost view = { λ n. names_of n.bindings n.starts.items };

    ghost invariant = { λ n. AreStarts (reverse n.starts.items) (length n.bindings.bound) };
}

impl Names {
    /// File scope, without names.
    pub fn new(alloc: Global) -> Result<Self, Memory>
        ensures { IfOk result (λ n. n ≡ nothing_in_force) }
    {
        let mut starts = Vec::new(alloc);
        starts.push(0)?;
        Ok(Names {
            bindings: Bindings::new(alloc),
            starts,
        })
    }

    /// Whether the innermost declaration in force makes the name a typedef name.
    pub fn is_typedef(&self, name: &[u8]) -> bool
        ensures { result ≡ is_typedef self.now name.now }
    {
        self.bindings.is_typedef(name)
    }

    /// The name comes into force in the innermost scope, as a typedef name or another; with no scope
    /// open, in a new one. After an error the names are as before.
    pub fn put(&mut self, name: &[u8], typedef: bool) -> Result<(), Memory>
        ensures ok { OnOk result (self.new ≡ put self.old name.now typedef) }
        ensures err { OnErr result (self.new ≡ self.old) }
    {
        if self.starts.is_empty() {
            return self.put_alone(name, typedef);
        }
        self.bindings.put(name, typedef)
    }

    /// The name comes into force in a new scope. After an error the names are as before.
    fn put_alone(&mut self, name: &[u8], typedef: bool) -> Result<(), Memory>
        ensures ok { OnOk result (self.new ≡ put (opened self.old) name.now typedef) }
        ensures err { OnErr result (self.new ≡ self.old) }
    {
        self.open()?;
        let result = self.bindings.put(name, typedef);
        if result.is_err() {
            self.close();
        }
        result
    }

    /// A scope without names begins in the innermost one. After an error the names are as before.
    pub fn open(&mut self) -> Result<(), Memory>
        ensures ok { OnOk result (self.new ≡ opened self.old) }
        ensures err { OnErr result (self.new ≡ self.old) }
    {
        let start = self.bindings.len();
        self.starts.push(start)?;
        Ok(())
    }

    /// The innermost scope ends, if there is one.
    pub fn close(&mut self)
        ensures { self.new ≡ closed self.old }
    {
        if let Some(start) = self.starts.pop() {
            self.bindings.unbind_to(start);
        }
    }

    /// The innermost scope ends, if there is one, and its names are those that are kept. After an
    /// error the names are as before.
    pub fn keep(&mut self) -> Result<(), Memory>
        ensures ok { OnOk result (self.new ≡ closed_kept self.old) }
        ensures err { OnErr result (self.new ≡ self.old) }
    {
        let start = self.starts.last().copied().unwrap_or(0);
        self.bindings.keep_from(start)?;
        self.close();
        Ok(())
    }

    /// A scope begins with the names that were kept, and none are kept. After an error the names
    /// are as before.
    pub fn reopen(&mut self) -> Result<(), Memory>
        ensures ok { OnOk result (self.new ≡ reopened self.old) }
        ensures err { OnErr result (self.new ≡ self.old) }
    {
        self.starts.push(self.bindings.len())?;
        let result = self.bindings.rebind_kept();
        if result.is_err() {
            self.starts.pop();
        }
        result
    }

    /// No names are kept.
    pub fn forget(&mut self)
        ensures { self.new ≡ forgotten self.old }
    {
        self.bindings.forget();
    }
}
