//! Whether the parts of an expression are straight, told once, in the order in which they are lowered.
ghost use Rattle.std.specs.Prelude.{◌≡◌, ℕ, ◌∷◌, ◌++◌, ◌&&◌, drop, IfOk, OnOk};
ghost use Rattle.c_lower_expr.specs.Marks.{all_marks, marks};
ghost use Rattle.c_meaning.specs.CoreTrees.{all_seen, cores_of, seen};
ghost use Rattle.c_types.specs.CType.{CType};
ghost use Rattle.lowered_forms.specs.Straight.{all_straight, goes_on, straight};

use c_meaning::{CoreExpr, CoreKind};
use lcc_base::Memory;
use std::alloc::Global;
use std::marker::Model;

/// The marks of what isn't lowered yet. Contracts see the list of them.
#[derive(Drop)]
pub struct Marks {
    marks: Vec<bool>,
    // So many were used.
    used: usize,
}

impl Model for Marks {
    ghost use Rattle.std.specs.Prelude.{Bool, List, drop};

    ghost Value = { List Bool };

    ghost view = { λ m. drop m.used m.marks.items };
}

impl Marks {
    /// Those of an expression.
    pub fn of(alloc: Global, e: &CoreExpr) -> Result<Self, Memory>
        ensures { (known : ℕ → CType) → IfOk result (λ m. m ≡ marks (seen known e.now)) }
    {
        let mut all = Vec::new(alloc);
        mark(e, &mut all)?;
        Ok(Marks {
            marks: all,
            used: 0,
        })
    }

    /// The next one, which is used. `Memory` comes where there is none.
    pub fn next(&mut self) -> Result<bool, Memory>
        ensures { IfOk result (λ m. self.old ≡ m ∷ self.new) }
    {
        let mark = self.first()?;
        self.used += 1;
        Ok(mark)
    }

    /// The next one, which isn't used yet. `Memory` comes as above.
    pub fn first(&self) -> Result<bool, Memory>
        ensures { IfOk result (λ m. self.now ≡ m ∷ drop 1 self.now) }
    {
        match self.marks.get(self.used) {
            Some(mark) => Ok(*mark),
            None => Err(Memory),
        }
    }
}

// Whether an expression is straight; its marks are added.
#[cycle(marking)]
fn mark(e: &CoreExpr, all: &mut Vec<bool>) -> Result<bool, Memory>
    ensures marks { (known : ℕ → CType) → OnOk result (all.new.items ≡ all.old.items ++ marks (seen known e.now)) }
    ensures is { (known : ℕ → CType) → IfOk result (λ b. b ≡ straight (seen known e.now)) }
{
    let place = all.len();
    all.push(true)?;
    let are = mark_all(e.kids.as_slice(), all)?;
    let is = goes_on(&e.what, are);
    all[place] = is;
    Ok(is)
}

// Whether several are; their marks are added.
#[cycle(marking)]
fn mark_all(list: &[CoreExpr], all: &mut Vec<bool>) -> Result<bool, Memory>
    ensures marks { (known : ℕ → CType) → OnOk result (all.new.items ≡ all.old.items ++ all_marks (all_seen known (cores_of list.now))) }
    ensures is { (known : ℕ → CType) → IfOk result (λ b. b ≡ all_straight (all_seen known (cores_of list.now))) }
{
    let mut are = true;
    for e in list {
        let is = mark(e, all)?;
        are = both(are, is);
    }
    Ok(are)
}

// Whether an expression of this kind is straight, by whether its parts are.
fn goes_on(what: &CoreKind, are: bool) -> bool
    ensures { result ≡ (goes_on what.now && are) }
{
    match what {
        CoreKind::Compare { .. }
        | CoreKind::Not
        | CoreKind::And
        | CoreKind::Or
        | CoreKind::Conditional => false,
        _ => are,
    }
}

fn both(a: bool, b: bool) -> bool
    ensures { result ≡ (a && b) }
{
    a && b
}
