//! Which symbols are those of names with linkage (C89 3.1.2.2).
ghost use Rattle.std.specs.Prelude.{◌≡◌, ℕ, false, get_or, length, IfOk};
ghost use Rattle.c_symbols.specs.Scoping.{AreBelow};
ghost use Rattle.c_units.specs.Ends.{is_link};

use c_symbols::Scope;
use lcc_base::Memory;
use std::alloc::Global;

/// Of which symbols, so many in all, a name with linkage is: a mark for each.
pub fn linked_symbols(alloc: Global, links: &Scope, symbols: usize) -> Result<Vec<bool>, Memory>
    requires { AreBelow symbols links.now }
    ensures many { IfOk result (λ l. length l.items ≡ symbols) }
    ensures marks { IfOk result (λ l. (k : ℕ) → get_or l.items k false ≡ is_link links.now k) }
{
    let mut linked = vec![in alloc; false; symbols]?;
    for place in 0..links.len() {
        let (_, id) = links.entry(place);
        linked[id] = true;
    }
    Ok(linked)
}
