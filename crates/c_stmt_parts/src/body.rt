//! What a function's body has so far.
ghost use Rattle.std.specs.Prelude.{◌≡◌, ◌++◌, ℕ, map, IfOk, OnOk};
ghost use Rattle.c_types.specs.Table.{Table, type_at};
ghost use Rattle.c_units.specs.Functions.{started};
ghost use Rattle.c_units.specs.Bodies.{case_number, is_case_again as stands_again, is_default_again as has_default_again, marked, with_case as case_noted, with_declared as declared_behind, with_default as default_noted};
ghost use Rattle.c_check_decl.specs.Declares.{AreDeclaredIn, AreLocalsIn, declares_in};
ghost use Rattle.c_stmt_parts.specs.BodiesSeen.{IsBodyIn, around_seen, body_in};

use crate::around::Around;
use crate::cases::Cases;
use c_check_decl::{Declares, DefinedObject, LinkedName};
use c_meaning::CoreStmt;
use c_types::TypeId;
use lcc_base::{Items, Memory};
use std::alloc::Global;

/// What a function has so far: its locals, and what its blocks define and declare.
#[derive(Drop)]
pub struct Body {
    pub alloc: Global,
    /// How many labels, cases and defaults stood.
    pub marks: u32,
    /// The cases of the innermost switch.
    pub cases: Cases,
    /// The label of its default.
    pub default: Option<u32>,
    /// Whether a goto names none of the function's labels.
    pub lost: bool,
    /// The types of the locals, the parameters first.
    pub locals: Items<TypeId>,
    /// The objects with static storage that blocks define, in order.
    pub objects: Items<DefinedObject>,
    /// The names with linkage that blocks declare, in order.
    pub linked: Items<LinkedName>,
}

impl Body {
    /// That of a function whose parameters have these types, before its first statement.
    pub fn new(alloc: Global, parameters: Items<TypeId>) -> Self
        ensures is { (t : Table) → body_in t result ≡ started (map (type_at t) parameters) }
        ensures within { (n : ℕ) → AreLocalsIn n parameters → IsBodyIn n result }
    {
        Body {
            alloc,
            marks: 0,
            cases: Cases::new(alloc),
            default: None,
            lost: false,
            locals: parameters,
            objects: Items::new(alloc),
            linked: Items::new(alloc),
        }
    }

    /// The number of the label, case or default that stands here.
    pub fn mark(&mut self) -> Result<u32, Memory>
        ensures number { IfOk result (λ n. n ≡ self.old.marks) }
        ensures marked { OnOk result ((t : Table) → body_in t self.new ≡ marked (body_in t self.old)) }
        ensures within { OnOk result ((n : ℕ) → IsBodyIn n self.old → IsBodyIn n self.new) }
    {
        let number = self.marks;
        // No source has as many.
        self.marks = number.checked_add(1).ok_or(Memory)?;
        Ok(number)
    }

    /// The label of a case with this number, which is none where it isn't constant. It joins the cases of the
    /// switch around, if there is one that doesn't have the number.
    pub fn mark_case(&mut self, around: Around, number: Option<u32>) -> Result<u32, Memory>
        ensures number { IfOk result (λ n. n ≡ self.old.marks) }
        ensures noted { OnOk result ((t : Table) → (c : _) → case_number c ≡ number → body_in t self.new ≡ case_noted (around_seen around) (body_in t self.old) c) }
        ensures within { OnOk result ((n : ℕ) → IsBodyIn n self.old → IsBodyIn n self.new) }
    {
        if !around.in_switch {
            return self.mark();
        }
        let label = self.marks;
        self.cases.note(number, label)?;
        self.mark()
    }

    /// Whether a case with this number stood in the switch around.
    pub fn has_case(&self, around: Around, number: Option<u32>) -> bool
        ensures { (t : Table) → (c : _) → case_number c ≡ number → result ≡ stands_again (around_seen around) (body_in t self.now) c }
    {
        match number {
            Some(number) => around.in_switch && self.cases.has(number),
            None => false,
        }
    }

    /// The label of a default, which is that of the switch around, if there is one without a default.
    pub fn mark_default(&mut self, around: Around) -> Result<u32, Memory>
        ensures number { IfOk result (λ n. n ≡ self.old.marks) }
        ensures noted { OnOk result ((t : Table) → body_in t self.new ≡ default_noted (around_seen around) (body_in t self.old)) }
        ensures within { OnOk result ((n : ℕ) → IsBodyIn n self.old → IsBodyIn n self.new) }
    {
        if !around.in_switch {
            return self.mark();
        }
        let label = self.marks;
        self.default = self.default.or(Some(label));
        self.mark()
    }

    /// Whether a default stood in the switch around.
    pub fn has_default(&self, around: Around) -> bool
        ensures { (t : Table) → result ≡ has_default_again (around_seen around) (body_in t self.now) }
    {
        around.in_switch && self.default.is_some()
    }

    /// Adds what declarations declare, and gives what the locals begin with.
    pub fn declare(&mut self, what: Declares) -> Result<Items<CoreStmt>, Memory>
        ensures fills { IfOk result (λ fills. fills ≡ what.fills) }
        ensures declared { OnOk result ((t : Table) → body_in t self.new ≡ declared_behind (body_in t self.old) (declares_in t what)) }
        ensures within { OnOk result ((n : ℕ) → IsBodyIn n self.old → AreDeclaredIn n what → IsBodyIn n self.new) }
    {
        push_all(&mut self.locals, what.locals)?;
        push_all(&mut self.objects, what.objects)?;
        push_all(&mut self.linked, what.linked)?;
        Ok(what.fills)
    }
}

/// Puts items behind others.
pub fn push_all<T: Drop>(items: &mut Items<T>, more: Items<T>) -> Result<(), Memory>
    ensures { OnOk result (items.new ≡ items.old ++ more) }
{
    for item in more.into_vec() {
        items.push(item)?;
    }
    Ok(())
}

/// Items behind others, in the memory of the last ones, which may be many.
pub fn behind<T: Drop>(first: Items<T>, more: Items<T>) -> Result<Items<T>, Memory>
    ensures { IfOk result (λ all. all ≡ first ++ more) }
{
    if first.is_empty() {
        return Ok(more);
    }
    let count = first.len();
    let mut all = more;
    push_all(&mut all, first)?;
    let mut list = all.into_vec();
    list.rotate_right(count);
    Ok(Items::from_vec(list))
}
