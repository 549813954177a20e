//! Calls: the arguments from left to right, the argument words, and the call.
ghost use Rattle.std.specs.Prelude.{◌≡◌, [], ◌∷◌, ℕ, suc, IfOk, OnOk};
ghost use Rattle.c_lower_expr.specs.Lowering.{LowersTo};
ghost use Rattle.c_lower_expr.specs.Marks.{all_marks, marks as marks_of};
ghost use Rattle.c_lower_expr.specs.Passing.{Passes, ShowsPassed, all_typed, part_of};
ghost use Rattle.c_meaning.specs.CoreTrees.{kids_of, type_of, what_of};
ghost use Rattle.c_worlds.specs.Programs.{HasNames};
ghost use Rattle.lowered_forms.specs.Calls.{Passed as PassedSo, all_held, all_passed, called_in, held_for, made, nothing_given as nothing_given_by, passed_by, result_suffix as result_suffix_by, whole_given as whole_given_by, with_argument, word_passed};
ghost use Rattle.lowered_forms.specs.Expressions.{parts_of, plain_row};
ghost use Rattle.lowered_forms.specs.Lows.{Low};
ghost use Rattle.lowered_forms.specs.Values.{with_value};
ghost use Rattle.lowering_acts.specs.Forms.{form_of};
ghost use Rattle.lowering_acts.specs.Gives.{Gives};
ghost use Rattle.lowering_acts.specs.Sites.{context_of, tree_in, trees_in, type_in};
ghost use Rattle.lowering_acts.specs.declared.forms.Form.TheVariants as form;
ghost use Rattle.lowering_steps.specs.Asking.{Acts};
ghost use Rattle.lowering_steps.specs.Operands.{template_of, typed_of};
ghost use Rattle.lowering_steps.specs.States.{Comes, Shows};
ghost use Rattle.c_meaning.specs.Types.{is_pointer as is_pointer_type, is_record as is_record_type, is_void as is_void_type};

use crate::marks::Marks;
use crate::values::value;
use c_meaning::CoreExpr;
use c_types::TypeId;
use c_values::kinds;
use c_worlds::{is_pointer, is_record, known_type};
use lcc_base::Memory;
use lowering_acts::{Site, copy, copy_place, first_part};
use lowering_steps::{OpenBlock, Operand, State};
use op_forest::Suffix;
use std::alloc::Global;

/// What a call passes so far: the operands, what is called first, and the local for the next copy of a structure.
#[derive(Drop)]
pub struct Passed {
    pub values: Vec<Operand>,
    pub next: u32,
}

/// A call, whose copies of structures begin at this local.
#[cycle(lowering)]
pub fn call(
    site: &Site,
    e: &CoreExpr,
    copies: u32,
    marks: &mut Marks,
    into: &mut State,
) -> Result<Operand, Memory>
    requires names { HasNames site.now.program }
    requires form { form_of (what_of e.now) ≡ form.Call copies }
    ensures { let kids = trees_in site.now (kids_of e.now) in IfOk result (λ v. LowersTo (λ l. plain_row (context_of site.now) (what_of e.now) (type_in site.now (type_of e.now)) (parts_of (context_of site.now) kids) l) (all_marks kids) into.old marks.old v into.new marks.new) }
{
    let (called, arguments) = first_part(e)?;
    let function = value(site, called, marks, into)?;
    let values = alone(*into.done.allocator(), function)?;
    let mut passed = Passed {
        values,
        next: copies,
    };
    for a in arguments {
        argument(site, a, &mut passed, marks, into)?;
    }
    make(site, e.of, &passed, into)
}

fn alone(alloc: Global, v: Operand) -> Result<Vec<Operand>, Memory>
    ensures { IfOk result (λ vs. vs.items ≡ v ∷ []) }
{
    let mut values = Vec::new(alloc);
    values.push(v)?;
    Ok(values)
}

// An argument is passed behind the others, which wait for it.
#[cycle(lowering)]
fn argument(
    site: &Site,
    a: &CoreExpr,
    passed: &mut Passed,
    marks: &mut Marks,
    into: &mut State,
) -> Result<(), Memory>
    requires { HasNames site.now.program }
    ensures { let x = part_of (context_of site.now) (tree_in site.now a.now) in OnOk result (Passes (λ p. with_argument (context_of site.now) x (held_for x p)) (marks_of x.tree) into.old marks.old passed.old.values.items passed.old.next into.new marks.new passed.new.values.items passed.new.next) }
{
    let is_straight = marks.first()?;
    hold_all(is_straight, &mut passed.values, into)?;
    let v = value(site, a, marks, into)?;
    pass(site, a.of, v, passed, into)
}

// Operands wait for another one, by whether that is straight. A call has at most 127 arguments.
fn hold_all(is_straight: bool, values: &mut Vec<Operand>, into: &mut State) -> Result<(), Memory>
    ensures { OnOk result ((n : ℕ) (l : Low) → Shows into.old l → ShowsPassed into.new values.new.items n (all_held is_straight n (all_typed values.old.items) l)) }
{
    for i in 0..values.len() {
        let kept = into.hold(is_straight, values[i])?;
        values[i] = kept;
    }
    Ok(())
}

// An operand of this type is passed behind the others; of a structure, the place of a copy.
fn pass(
    site: &Site,
    of: TypeId,
    v: Operand,
    passed: &mut Passed,
    into: &mut State,
) -> Result<(), Memory>
    ensures { OnOk result ((p : PassedSo) → ShowsPassed into.old passed.old.values.items passed.old.next p → ShowsPassed into.new passed.new.values.items passed.new.next (passed_by (is_record_type (type_in site.now of)) (context_of site.now) (type_in site.now of) p (with_value (typed_of v) p.low))) }
{
    if is_whole(site, of) {
        let place = copy_place(site, passed.next, of)?;
        let next = next_local(passed.next)?;
        copy(site, &mut into.block, of, place, v)?;
        passed.values.push(place)?;
        passed.next = next;
        Ok(())
    } else {
        passed.values.push(v)?;
        Ok(())
    }
}

// The next local. `Memory` where there can be none, which is so in no checked unit.
fn next_local(n: u32) -> Result<u32, Memory>
    ensures { IfOk result (λ m. m ≡ suc n) }
{
    match n.checked_add(1) {
        Some(next) => Ok(next),
        None => Err(Memory),
    }
}

// The first operand is called with the others, and gives a value of this type.
fn make(site: &Site, of: TypeId, passed: &Passed, into: &mut State) -> Result<Operand, Memory>
    ensures { IfOk result (λ v. (l : Low) → Shows into.old l → Comes into.new v (made (context_of site.now) (type_in site.now of) passed.now.next (all_typed passed.now.values.items) l)) }
{
    let (function, words) = first_and_words(passed.values.as_slice())?;
    if is_whole(site, of) {
        let place = copy_place(site, passed.next, of)?;
        whole_given(&mut into.block, place, function, words)
    } else if is_void(site, of) {
        nothing_given(&mut into.block, function, words)
    } else {
        let suffix = result_suffix(gives_pointer(site, of));
        let offset = into.new_slot()?;
        scalar_given(&mut into.block, suffix, offset, function, words)
    }
}

// The first operand, and the others. `Memory` where there is none, which is so in no call.
fn first_and_words(values: &[Operand]) -> Result<(Operand, &[Operand]), Memory>
    ensures { IfOk result (λ r. values.now ≡ r.0 ∷ r.1.now) }
{
    match values {
        [first, words @ ..] => Ok((*first, words)),
        [] => Err(Memory),
    }
}

// A structure at a place.
fn whole_given(
    block: &mut OpenBlock,
    place: Operand,
    function: Operand,
    words: &[Operand],
) -> Result<Operand, Memory>
    ensures { IfOk result (λ v. Gives block.old (λ l. whole_given_by (typed_of place) (typed_of function) (all_typed words.now) l) v block.new) }
{
    block.pass(place)?;
    pass_words(block, words)?;
    block.call(function)?;
    block.placed(place)
}

// Nothing.
fn nothing_given(
    block: &mut OpenBlock,
    function: Operand,
    words: &[Operand],
) -> Result<Operand, Memory>
    ensures { IfOk result (λ v. Gives block.old (λ l. nothing_given_by (typed_of function) (all_typed words.now) l) v block.new) }
{
    pass_words(block, words)?;
    block.call(function)?;
    Ok(Operand::number(true, 0))
}

// A scalar, in a slot.
fn scalar_given(
    block: &mut OpenBlock,
    suffix: Suffix,
    offset: i32,
    function: Operand,
    words: &[Operand],
) -> Result<Operand, Memory>
    ensures { IfOk result (λ v. Gives block.old (λ l. called_in offset suffix (typed_of function) (all_passed (all_typed words.now) l)) v block.new) }
{
    pass_words(block, words)?;
    block.store_call(offset, function)?;
    block.slot_read(suffix, offset)
}

// The argument words in order.
fn pass_words(block: &mut OpenBlock, words: &[Operand]) -> Result<(), Memory>
    ensures { OnOk result (Acts block.old (λ l. all_passed (all_typed words.now) l) block.new) }
{
    for v in words {
        pass_word(block, v)?;
    }
    Ok(())
}

fn pass_word(block: &mut OpenBlock, v: &Operand) -> Result<(), Memory>
    ensures { OnOk result (Acts block.old (λ l. word_passed v.now.suffix (template_of v.now) l) block.new) }
{
    block.pass(*v)
}

// Whether a type is a structure or a union.
fn is_whole(site: &Site, of: TypeId) -> bool
    ensures { result ≡ is_record_type (type_in site.now of) }
{
    is_record(site.program.core.types(), of)
}

// Whether it is a pointer.
fn gives_pointer(site: &Site, of: TypeId) -> bool
    ensures { result ≡ is_pointer_type (type_in site.now of) }
{
    is_pointer(site.program.core.types(), of)
}

// Whether it is void.
fn is_void(site: &Site, of: TypeId) -> bool
    ensures { result ≡ is_void_type (type_in site.now of) }
{
    let types = site.program.core.types();
    kinds::is_void(types, known_type(types, of))
}

// The suffix of what a call gives, by whether it is a pointer.
fn result_suffix(is_pointer: bool) -> Suffix
    ensures { result ≡ result_suffix_by is_pointer }
{
    if is_pointer { Suffix::P } else { Suffix::I }
}
