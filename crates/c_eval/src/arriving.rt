//! What an expression gave comes to the frame on top.
ghost use Rattle.std.specs.Prelude.{◌≡◌, ◌+◌, ◌++◌, ◌∷◌, [], ℕ, IfNone, IfOk, IfSome, slice_get};
ghost use Rattle.c_filling.specs.Filled.{seen_places};
ghost use Rattle.c_meaning.specs.CoreTrees.{cores_of, line_of, type_of};
ghost use Rattle.c_meaning.specs.Types.{is_record};
ghost use Rattle.c_runs.specs.Expressions.{argument, arguments as passed_on, copied_to, parts_of};
ghost use Rattle.c_worlds.specs.Shown.{giving};
ghost use Rattle.c_meaning.specs.StmtTrees.{stmt_of};
ghost use Rattle.c_runs.specs.Outcomes.{Gives, GivesNone, branch, then_do};
ghost use Rattle.c_runs.specs.Statements.{Start, exec};
ghost use Rattle.c_worlds.specs.Programs.{HasNames, tree, trees};
ghost use Rattle.lcc_base.specs.declared.cause.Cause.TheVariants as Cause;
ghost use Rattle.c_runs.specs.Calls.{Setting};
ghost use Rattle.c_runs.specs.Worlds.{World};
ghost use Rattle.c_worlds.specs.declared.program.Program.{Program};
ghost use Rattle.c_eval.specs.declared.focus.Focus.TheVariants as Focus;
ghost use Rattle.c_eval.specs.declared.how.How.TheVariants as How;
ghost use Rattle.c_eval.specs.Came.{IsUnused};
ghost use Rattle.c_eval.specs.Ends.{OfExpression, OfStatement};
ghost use Rattle.c_eval.specs.Frames.{frames};
ghost use Rattle.c_eval.specs.Loops.{asked_of};
ghost use Rattle.c_eval.specs.Stacks.{arguments_from, called, calling_on, filled_from, first_from, passed, statement};
ghost use Rattle.c_eval.specs.States.{own};
ghost use Rattle.c_eval.specs.Steps.{IsBelow, IsQuiet, Meets};
ghost use Rattle.c_eval.specs.Weights.{places_of, weight_es, weight_places_tail, weight_s, weight_tail};

use crate::expressions::{holds, stopped, stray};
use crate::focus::Focus;
use crate::form::Form;
use crate::frame::Frame;
use crate::how::How;
use crate::machine::Machine;
use c_entries::copy_argument;
use c_filling::fill_place;
use c_meaning::{CoreExpr, CoreStmt, FilledPlace};
use c_worlds::{Program, is_record};
use lcc_base::{Cause, Memory};
use objects::Value;

impl<'a> Machine<'a> {
    /// A value comes.
    pub fn give(&mut self, program: &Program<'a>, value: Value) -> Result<Focus<'a>, Memory>
        requires { HasNames program.now }
        ensures same { IfOk result (λ focus. Meets program.now self.old (λ k w. OfExpression (Gives value k w)) self.new focus) }
        ensures quiet { IfOk result (λ _. IsQuiet self.old self.new) }
        ensures less { IfOk result (λ focus. IsBelow (1) self.old self.new focus) }
    {
        match self.stack.pop() {
            None => Ok(stray(0)),
            Some(Frame::First(e)) => self.first(program, e, value),
            Some(Frame::Second(e, left)) => self.second(program, e, left, value),
            Some(Frame::Right(e)) => self.right(program, e, value),
            Some(Frame::Comma(parts)) => self.further(parts),
            Some(Frame::Argument(arguments, n)) => self.pass(program, arguments, n, value),
            Some(Frame::Drop) => Ok(Focus::Next),
            Some(Frame::Branch(test, then, otherwise)) => {
                self.branch(program, test, then, otherwise, value)
            }
            Some(Frame::Initial(s)) => self.tested(program, s),
            Some(Frame::Last(s)) => self.tested(program, s),
            Some(Frame::Test(s)) => self.decide(program, s, value),
            Some(Frame::Switch(s)) => self.switch(s, value),
            Some(Frame::Return(e)) => Ok(Focus::Return(Some(value), e.line)),
            Some(Frame::Fill(places, base)) => self.filled(program, places, base, value),
            Some(Frame::Passed(_, _)) => Ok(Focus::Value(value)),
            Some(Frame::Called(_, _)) => Ok(Focus::Value(value)),
            Some(Frame::Activation(_, _, _, _)) => Ok(stray(0)),
            Some(Frame::Then(_)) => Ok(Focus::Value(value)),
            Some(Frame::Catch(_)) => Ok(Focus::Value(value)),
            Some(Frame::Body(_)) => Ok(Focus::Value(value)),
            Some(Frame::Switched) => Ok(Focus::Value(value)),
        }
    }

    /// No value comes, from a call in this line or from what is void.
    pub fn give_none(&mut self, program: &Program<'a>, line: u32) -> Result<Focus<'a>, Memory>
        requires { HasNames program.now }
        ensures same { IfOk result (λ focus. Meets program.now self.old (λ k w. OfExpression (GivesNone line k w)) self.new focus) }
        ensures quiet { IfOk result (λ _. IsQuiet self.old self.new) }
        ensures less { IfOk result (λ focus. IsBelow (1) self.old self.new focus) }
    {
        match self.stack.pop() {
            None => Ok(stray(0)),
            Some(Frame::First(e)) => Ok(unused(e, line)),
            Some(Frame::Comma(parts)) => self.further(parts),
            Some(Frame::Drop) => Ok(Focus::Next),
            Some(Frame::Initial(s)) => self.tested(program, s),
            Some(Frame::Last(s)) => self.tested(program, s),
            Some(Frame::Second(_, _)) => Ok(no_result(line)),
            Some(Frame::Right(_)) => Ok(no_result(line)),
            Some(Frame::Argument(_, _)) => Ok(no_result(line)),
            Some(Frame::Branch(_, _, _)) => Ok(no_result(line)),
            Some(Frame::Test(_)) => Ok(no_result(line)),
            Some(Frame::Switch(_)) => Ok(no_result(line)),
            Some(Frame::Return(_)) => Ok(no_result(line)),
            Some(Frame::Fill(_, _)) => Ok(no_result(line)),
            Some(Frame::Passed(_, _)) => Ok(Focus::NoValue(line)),
            Some(Frame::Called(_, _)) => Ok(Focus::NoValue(line)),
            Some(Frame::Activation(_, _, _, _)) => Ok(stray(0)),
            Some(Frame::Then(_)) => Ok(Focus::NoValue(line)),
            Some(Frame::Catch(_)) => Ok(Focus::NoValue(line)),
            Some(Frame::Body(_)) => Ok(Focus::NoValue(line)),
            Some(Frame::Switched) => Ok(Focus::NoValue(line)),
        }
    }

    /// An argument's value is passed; a structure as a copy, in local n.
    fn pass(
        &mut self,
        program: &Program<'a>,
        arguments: &'a [CoreExpr],
        n: u32,
        value: Value,
    ) -> Result<Focus<'a>, Memory>
        ensures same { IfOk result (λ focus. Meets program.now self.old (λ k w. OfExpression (arguments_from program.now (own program.now) (frames self.old.stack) (trees program.now arguments.now) n (Gives value k w))) self.new focus) }
        ensures quiet { IfOk result (λ _. IsQuiet self.old self.new) }
        ensures less { IfOk result (λ focus. IsBelow (2 + weight_tail arguments.now) self.old self.new focus) }
    {
        match first_argument(arguments) {
            None => Ok(Focus::Value(value)),
            Some((first, rest)) => {
                if is_structure(program, first) {
                    self.pass_copy(program, first, rest, n, value)
                } else {
                    self.pass_on(first, value, rest, n)
                }
            }
        }
    }

    /// A copy of a structure is passed, and the next one goes to the local behind it.
    fn pass_copy(
        &mut self,
        program: &Program<'a>,
        first: &'a CoreExpr,
        rest: &'a [CoreExpr],
        n: u32,
        value: Value,
    ) -> Result<Focus<'a>, Memory>
        ensures same { IfOk result (λ focus. Meets program.now self.old (λ k w. OfExpression (copied_to (own program.now) (slice_get w.locals n) (giving (tree program.now first.now) value) value k w (λ x k1 w1. passed_on (own program.now) (n + 1) (parts_of (own program.now) (trees program.now rest.now)) (passed program.now (frames self.old.stack) ++ x ∷ []) k1 w1 (λ m xs k2 w2. calling_on program.now (own program.now) (called (frames self.old.stack)) m xs k2 w2)))) self.new focus) }
        ensures quiet { IfOk result (λ _. IsQuiet self.old self.new) }
        ensures less { IfOk result (λ focus. IsBelow (1 + weight_es (cores_of rest.now)) self.old self.new focus) }
    {
        if n == u32::MAX {
            return Err(Memory);
        }
        match copy_argument(program, &mut self.world, first, n, value) {
            Ok(copy) => self.pass_on(first, copy, rest, n + 1),
            Err(stop) => stopped(stop),
        }
    }

    /// An argument is passed with this value, and the next one is evaluated.
    fn pass_on(
        &mut self,
        first: &'a CoreExpr,
        value: Value,
        rest: &'a [CoreExpr],
        n: u32,
    ) -> Result<Focus<'a>, Memory>
        ensures same { IfOk result (λ focus. (p : Program) → Meets p self.old (λ k w. OfExpression (passed_on (own p) n (parts_of (own p) (trees p rest.now)) (passed p (frames self.old.stack) ++ argument (giving (tree p first.now) value) value ∷ []) k w (λ m xs k1 w1. calling_on p (own p) (called (frames self.old.stack)) m xs k1 w1))) self.new focus) }
        ensures quiet { IfOk result (λ _. IsQuiet self.old self.new) }
        ensures less { IfOk result (λ focus. IsBelow (1 + weight_es (cores_of rest.now)) self.old self.new focus) }
    {
        self.stack.push(Frame::Passed(first, value))?;
        self.argument(rest, n)
    }

    /// The value of an `if`'s test comes.
    fn branch(
        &mut self,
        program: &Program<'a>,
        test: &'a CoreExpr,
        then: &'a CoreStmt,
        otherwise: &'a CoreStmt,
        value: Value,
    ) -> Result<Focus<'a>, Memory>
        ensures same { IfOk result (λ focus. Meets program.now self.old (λ k w. OfStatement (then_do (asked_of (tree program.now test.now) (line_of test.now) (Gives value k w)) (λ v k1 w1. branch v (λ k2 w2. exec (own program.now) (statement program.now then.now) Start k2 w2) (λ k2 w2. exec (own program.now) (statement program.now otherwise.now) Start k2 w2) k1 w1))) self.new focus) }
        ensures quiet { IfOk result (λ _. IsQuiet self.old self.new) }
        ensures less { IfOk result (λ focus. IsBelow (2 + (weight_s (stmt_of then.now) + weight_s (stmt_of otherwise.now))) self.old self.new focus) }
    {
        match holds(program, &self.world, test, value) {
            Ok(true) => Ok(Focus::Start(then)),
            Ok(false) => Ok(Focus::Start(otherwise)),
            Err(stop) => stopped(stop),
        }
    }

    /// The value of the first of these places comes.
    fn filled(
        &mut self,
        program: &Program<'a>,
        places: &'a [FilledPlace],
        base: Value,
        value: Value,
    ) -> Result<Focus<'a>, Memory>
        ensures same { IfOk result (λ focus. Meets program.now self.old (λ k w. OfStatement (filled_from (own program.now) base (seen_places program.now places.now) (Gives value k w))) self.new focus) }
        ensures quiet { IfOk result (λ _. IsQuiet self.old self.new) }
        ensures less { IfOk result (λ focus. IsBelow (3 + weight_places_tail (places_of places.now)) self.old self.new focus) }
    {
        match first_place(places) {
            None => Ok(Focus::Next),
            Some((first, rest)) => {
                match fill_place(self.alloc, program, &mut self.world, first, base, value) {
                    Ok(()) => Ok(Focus::Fill(rest, base)),
                    Err(stop) => stopped(stop),
                }
            }
        }
    }
}

/// The first of some arguments, and those behind it.
fn first_argument(arguments: &[CoreExpr]) -> Option<(&CoreExpr, &[CoreExpr])>
    ensures some { IfSome result (λ r. arguments.now ≡ r.0.now ∷ r.1.now) }
    ensures none { IfNone result (arguments.now ≡ []) }
{
    match arguments {
        [] => None,
        [first, rest @ ..] => Some((first, rest)),
    }
}

/// The first of some places, and those behind it.
fn first_place(places: &[FilledPlace]) -> Option<(&FilledPlace, &[FilledPlace])>
    ensures some { IfSome result (λ r. places.now ≡ r.0.now ∷ r.1.now) }
    ensures none { IfNone result (places.now ≡ []) }
{
    match places {
        [] => None,
        [first, rest @ ..] => Some((first, rest)),
    }
}

/// Whether an expression is of structure or union type.
fn is_structure(program: &Program, e: &CoreExpr) -> bool
    ensures { result ≡ is_record (type_of (tree program.now e.now)) }
{
    is_record(program.core.types(), e.of)
}

/// No value comes to the first part of an expression: it may only be converted to void.
fn unused<'a>(e: &CoreExpr, line: u32) -> Focus<'a>
    ensures { (p : Program) → (s : Setting) → (k : ℕ) → (w : World) → IsUnused (first_from s (tree p e.now) (GivesNone line k w)) k w result }
{
    match Form::of(e) {
        Form::Leaf => Focus::NoValue(line),
        Form::Dropped(_) => Focus::NoValue(0),
        Form::Unary(_) => no_result(line),
        Form::Binary(_, _) => no_result(line),
        Form::Logical(_, _) => no_result(line),
        Form::Conditional(_, _, _) => no_result(line),
        Form::Comma(_, _) => Focus::NoValue(line),
        Form::Call(_, _) => no_result(line),
        Form::Stray => Focus::NoValue(line),
    }
}

/// A call in this line gave no value that is used.
pub fn no_result<'a>(line: u32) -> Focus<'a>
    ensures { result ≡ Focus.Over (How.Undefined Cause.NoResult line) }
{
    Focus::Over(How::Undefined(Cause::NoResult, line))
}
