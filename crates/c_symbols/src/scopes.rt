//! The symbol table: nested scopes, names with linkage, and all symbols declared.
ghost use Rattle.std.specs.Prelude.{ℕ, ◌≡◌, ◌≢◌, ◌++◌, ◌∷◌, ◌<◌, [], None, Some, length, slice_get, slice_set, IfOk, IfErr, IfSome, OnOk, OnErr};
ghost use Rattle.c_symbols.specs.declared.declare.Declare.TheVariants.{Memory as NoMemory, Redeclared};
ghost use Rattle.c_symbols.specs.Scoping.{AreBelow, IsDeclared, found, symbol_named};

use crate::declare::Declare;
use crate::hidden::Hidden;
use crate::meanings::Meanings;
use crate::open::Open;
use crate::scope::Scope;
use crate::symbol::Symbol;
use lcc_base::Memory;
use std::alloc::Global;
use std::marker::Model;

/// The place of a symbol.
pub type SymbolId = usize;

/// The scopes that are open, the names with linkage, and each symbol that was declared. Contracts see
/// the innermost scope and those around it, the outermost first, each as the list of its names with
/// their symbols; the names with linkage likewise; and the list of the symbols, which leaving a scope
/// doesn't change.
#[derive(Drop)]
pub struct Scopes {
    alloc: Global,
    outer: Vec<Open>,
    inner: Open,
    links: Scope,
    symbols: Vec<Symbol>,
    meanings: Meanings,
}

impl Model for Scopes {
    ghost use Rattle.c_symbols.specs.Scoping.{Scoping};

    ghost Value = { Scoping };

    ghost use Rattle.c_symbols.specs.Hiding.{AreKept, scoping};

    ghost view = { λ s. scoping s.outer.items s.inner s.links s.symbols.items };

    ghost invariant = { λ s. AreKept s.meanings s.outer.items s.inner s.links s.symbols.items };
}

impl Scopes {
    /// One scope without names: file scope.
    pub fn new(alloc: Global) -> Result<Self, Memory>
        ensures outer { IfOk result (λ s. s.outer ≡ []) }
        ensures inner { IfOk result (λ s. s.inner ≡ []) }
        ensures links { IfOk result (λ s. s.links ≡ []) }
        ensures symbols { IfOk result (λ s. s.symbols ≡ []) }
    {
        Ok(Scopes {
            alloc,
            outer: Vec::new(alloc),
            inner: Open::new(alloc),
            links: Scope::new(alloc),
            symbols: Vec::new(alloc),
            meanings: Meanings::new(alloc),
        })
    }

    /// Opens a scope without names in the innermost one. After an error the scopes are as before.
    pub fn enter(&mut self) -> Result<(), Memory>
        ensures outer { OnOk result (self.new.outer ≡ self.old.outer ++ self.old.inner ∷ []) }
        ensures inner { OnOk result (self.new.inner ≡ []) }
        ensures links { OnOk result (self.new.links ≡ self.old.links) }
        ensures symbols { OnOk result (self.new.symbols ≡ self.old.symbols) }
        ensures err { OnErr result (self.new ≡ self.old) }
    {
        self.reopen(Scope::new(self.alloc))
    }

    /// Closes the innermost scope, which has one around it. That one is again as it was when the scope
    /// was opened.
    pub fn leave(&mut self)
        requires { self.old.outer ≢ [] }
        ensures scopes { self.old.outer ≡ self.new.outer ++ self.new.inner ∷ [] }
        ensures links { self.new.links ≡ self.old.links }
        ensures symbols { self.new.symbols ≡ self.old.symbols }
    {
        let _names = self.close();
    }

    /// Closes the innermost scope, as `leave` does, and gives its names. The names of a prototype's
    /// parameters are in force again in the body of the function (C89 3.1.2.1).
    pub fn close(&mut self) -> Scope
        requires { self.old.outer ≢ [] }
        ensures names { result ≡ self.old.inner }
        ensures within { AreBelow (length self.new.symbols) result }
        ensures scopes { self.old.outer ≡ self.new.outer ++ self.new.inner ∷ [] }
        ensures links { self.new.links ≡ self.old.links }
        ensures symbols { self.new.symbols ≡ self.old.symbols }
    {
        match self.outer.pop() {
            Some(around) => {
                let Open { names, hidden } = std::mem::replace(&mut self.inner, around);
                self.meanings.restore(hidden.as_slice());
                names
            }
            None => unreachable!(),
        }
    }

    /// Opens a scope with the names of one that was closed. After an error the scopes are as before.
    pub fn reopen(&mut self, names: Scope) -> Result<(), Memory>
        requires { AreBelow (length self.old.symbols) names }
        ensures outer { OnOk result (self.new.outer ≡ self.old.outer ++ self.old.inner ∷ []) }
        ensures inner { OnOk result (self.new.inner ≡ names) }
        ensures links { OnOk result (self.new.links ≡ self.old.links) }
        ensures symbols { OnOk result (self.new.symbols ≡ self.old.symbols) }
        ensures err { OnErr result (self.new ≡ self.old) }
    {
        self.outer.reserve(1)?;
        let hidden = self.meanings.hide_all(&names)?;
        self.meanings.bind(&names, hidden.as_slice());
        let around = std::mem::replace(&mut self.inner, Open { names, hidden });
        self.outer.push_reserved(around);
        Ok(())
    }

    /// Declares the name in the innermost scope. Redeclared comes exactly where that scope has the name,
    /// with the symbol that it has there. After an error the scopes are as before.
    pub fn declare(&mut self, name: &[u8], symbol: Symbol) -> Result<SymbolId, Declare>
        ensures id { IfOk result (λ id. id ≡ length self.old.symbols) }
        ensures new_name { OnOk result (symbol_named self.old.inner name.now ≡ None) }
        ensures outer { OnOk result (self.new.outer ≡ self.old.outer) }
        ensures inner { IfOk result (λ id. self.new.inner ≡ self.old.inner ++ (name.now, id) ∷ []) }
        ensures symbols { OnOk result (self.new.symbols ≡ self.old.symbols ++ symbol ∷ []) }
        ensures links { OnOk result (self.new.links ≡ self.old.links) }
        ensures redeclared { IfErr result (λ e. e ≢ NoMemory → (old : ℕ) × (e ≡ Redeclared old) × (symbol_named self.old.inner name.now ≡ Some old)) }
        ensures err { OnErr result (self.new ≡ self.old) }
    {
        let Ok(hidden) = self.meanings.hide(name) else {
            return Err(Declare::Memory);
        };
        let id = declare_open(
            self.alloc,
            &mut self.inner,
            &mut self.symbols,
            hidden,
            name,
            symbol,
        )?;
        self.meanings.set(hidden.place, Some(id));
        Ok(id)
    }

    /// Gives a name with linkage the symbol that stands for what all its declarations name (C89
    /// 3.1.2.2). Redeclared comes exactly where it has one, with that one. After an error the scopes
    /// are as before.
    pub fn link(&mut self, name: &[u8], symbol: Symbol) -> Result<SymbolId, Declare>
        ensures id { IfOk result (λ id. id ≡ length self.old.symbols) }
        ensures new_name { OnOk result (symbol_named self.old.links name.now ≡ None) }
        ensures outer { OnOk result (self.new.outer ≡ self.old.outer) }
        ensures inner { OnOk result (self.new.inner ≡ self.old.inner) }
        ensures links { IfOk result (λ id. self.new.links ≡ self.old.links ++ (name.now, id) ∷ []) }
        ensures symbols { OnOk result (self.new.symbols ≡ self.old.symbols ++ symbol ∷ []) }
        ensures redeclared { IfErr result (λ e. e ≢ NoMemory → (old : ℕ) × (e ≡ Redeclared old) × (symbol_named self.old.links name.now ≡ Some old)) }
        ensures err { OnErr result (self.new ≡ self.old) }
    {
        declare_in(self.alloc, &mut self.links, &mut self.symbols, name, symbol)
    }

    /// The symbol of a name with linkage, in whichever scopes it was declared. None exactly where `link`
    /// gave it none.
    pub fn linked(&self, name: &[u8]) -> Option<SymbolId>
        ensures means { result ≡ symbol_named self.now.links name.now }
        ensures within { IfSome result (λ id. id < length self.now.symbols) }
    {
        self.links.find(name)
    }

    /// The names with linkage, in the order of their first declarations.
    pub fn links(&self) -> &Scope
        ensures { result.now ≡ self.now.links }
    {
        &self.links
    }

    /// Each name has one of the symbols that were declared.
    pub fn names_are_declared(&self)
        ensures { IsDeclared self.now }
    {
        // A field is named, so that what the scopes keep is known here.
        let _alloc = &self.alloc;
    }

    /// How many scopes stand around the innermost: 0 at file scope.
    pub fn level(&self) -> usize
        ensures { result ≡ length self.now.outer }
    {
        self.outer.len()
    }

    /// How many symbols were declared.
    pub fn count(&self) -> usize
        ensures { result ≡ length self.now.symbols }
    {
        self.symbols.len()
    }

    /// The symbol of the name in the innermost scope. None exactly where that scope doesn't have it.
    pub fn find_here(&self, name: &[u8]) -> Option<SymbolId>
        ensures means { result ≡ symbol_named self.now.inner name.now }
        ensures within { IfSome result (λ id. id < length self.now.symbols) }
    {
        self.inner.names.find(name)
    }

    /// The symbol of the innermost declaration of the name. None exactly where no scope has it.
    pub fn find(&self, name: &[u8]) -> Option<SymbolId>
        ensures means { result ≡ found (self.now.outer ++ self.now.inner ∷ []) name.now }
        ensures within { IfSome result (λ id. id < length self.now.symbols) }
    {
        self.meanings.find(name)
    }

    /// The symbol that was declared with this place, or that `replace` put there last.
    pub fn symbol(&self, id: SymbolId) -> &Symbol
        requires { id < length self.now.symbols }
        ensures { slice_get self.now.symbols id ≡ Some result.now }
    {
        &self.symbols[id]
    }

    /// Puts another symbol in this one's place. Nothing else changes.
    pub fn replace(&mut self, id: SymbolId, symbol: Symbol)
        requires { id < length self.old.symbols }
        ensures outer { self.new.outer ≡ self.old.outer }
        ensures inner { self.new.inner ≡ self.old.inner }
        ensures links { self.new.links ≡ self.old.links }
        ensures symbols { self.new.symbols ≡ slice_set self.old.symbols id symbol }
    {
        self.symbols[id] = symbol;
    }
}

/// Declares the name in a scope that is open, where it hides this.
fn declare_open(
    alloc: Global,
    scope: &mut Open,
    symbols: &mut Vec<Symbol>,
    hidden: Hidden,
    name: &[u8],
    symbol: Symbol,
) -> Result<SymbolId, Declare>
    ensures id { IfOk result (λ id. id ≡ length symbols.old.items) }
    ensures new_name { OnOk result (symbol_named scope.old.names name.now ≡ None) }
    ensures names { IfOk result (λ id. scope.new.names ≡ scope.old.names ++ (name.now, id) ∷ []) }
    ensures hidden { OnOk result (scope.new.hidden.items ≡ scope.old.hidden.items ++ hidden ∷ []) }
    ensures symbols { OnOk result (symbols.new.items ≡ symbols.old.items ++ symbol ∷ []) }
    ensures redeclared { IfErr result (λ e. e ≢ NoMemory → (old : ℕ) × (e ≡ Redeclared old) × (symbol_named scope.old.names name.now ≡ Some old)) }
    ensures names_stay { OnErr result (scope.new.names ≡ scope.old.names) }
    ensures hidden_stays { OnErr result (scope.new.hidden.items ≡ scope.old.hidden.items) }
    ensures symbols_stay { OnErr result (symbols.new.items ≡ symbols.old.items) }
{
    if scope.hidden.reserve(1).is_err() {
        return Err(Declare::Memory);
    }
    let id = declare_in(alloc, &mut scope.names, symbols, name, symbol)?;
    scope.hidden.push_reserved(hidden);
    Ok(id)
}

/// Declares the name in this scope.
fn declare_in(
    alloc: Global,
    scope: &mut Scope,
    symbols: &mut Vec<Symbol>,
    name: &[u8],
    symbol: Symbol,
) -> Result<SymbolId, Declare>
    ensures id { IfOk result (λ id. id ≡ length symbols.old.items) }
    ensures new_name { OnOk result (symbol_named scope.old name.now ≡ None) }
    ensures scope { IfOk result (λ id. scope.new ≡ scope.old ++ (name.now, id) ∷ []) }
    ensures symbols { OnOk result (symbols.new.items ≡ symbols.old.items ++ symbol ∷ []) }
    ensures redeclared { IfErr result (λ e. e ≢ NoMemory → (old : ℕ) × (e ≡ Redeclared old) × (symbol_named scope.old name.now ≡ Some old)) }
    ensures scope_stays { OnErr result (scope.new ≡ scope.old) }
    ensures symbols_stay { OnErr result (symbols.new.items ≡ symbols.old.items) }
{
    if let Some(old) = scope.find(name) {
        return Err(Declare::Redeclared { old });
    }
    let id = symbols.len();
    if symbols.push(symbol).is_err() {
        return Err(Declare::Memory);
    }
    if scope.add(alloc, name, id).is_err() {
        symbols.pop();
        return Err(Declare::Memory);
    }
    Ok(id)
}
