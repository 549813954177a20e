//! Loops: their tests, and what stands between two repetitions (C89 3.6.5).
ghost use Rattle.std.specs.Prelude.{◌≡◌, ◌<◌, ◌+◌, ℕ, IfNone, IfOk, IfSome, List, None, Some};
ghost use Rattle.objects.specs.declared.value.Value.{Value};
ghost use Rattle.c_runs.specs.Worlds.{World};
ghost use Rattle.c_worlds.specs.declared.program.Program.{Program};
ghost use Rattle.c_eval.specs.declared.frame.Frame.{Frame};
ghost use Rattle.c_meaning.specs.StmtTrees.{maybe_seen, stmt_of};
ghost use Rattle.c_runs.specs.Outcomes.{Gives, Next, either, is_true};
ghost use Rattle.c_runs.specs.Statements.{maybe_dropped};
ghost use Rattle.c_worlds.specs.Programs.{HasNames, known};
ghost use Rattle.c_eval.specs.Ends.{OfStatement};
ghost use Rattle.c_eval.specs.LoopParts.{last_in, test_in};
ghost use Rattle.c_eval.specs.Loops.{between_of, repeated, repeated_by, test_of, tested_of};
ghost use Rattle.c_eval.specs.Stacks.{statement};
ghost use Rattle.c_eval.specs.States.{ends, own, state};
ghost use Rattle.c_eval.specs.Steps.{IsBelow, IsQuiet, Meets};
ghost use Rattle.c_eval.specs.Weights.{weight, weight_between, weight_maybe, weight_test};

use crate::expressions::stopped;
use crate::focus::Focus;
use crate::frame::Frame;
use crate::machine::Machine;
use c_acts::asked;
use c_meaning::{CoreExpr, CoreStmt};
use c_plain::{effect_at_once, test_at_once};
use c_worlds::Program;
use lcc_base::Memory;
use objects::Value;

impl<'a> Machine<'a> {
    /// A loop's test stands in front of its next repetition.
    pub fn tested(&mut self, program: &Program<'a>, s: &'a CoreStmt) -> Result<Focus<'a>, Memory>
        requires { HasNames program.now }
        ensures same { IfOk result (λ focus. Meets program.now self.old (λ k w. OfStatement (repeated_by (own program.now) (statement program.now s.now) (test_of (own program.now) (statement program.now s.now) k w))) self.new focus) }
        ensures quiet { IfOk result (λ _. IsQuiet self.old self.new) }
        ensures less { IfOk result (λ focus. IsBelow (2 + weight_test (stmt_of s.now)) self.old self.new focus) }
    {
        match test_of(s) {
            None => Ok(Focus::Repeat(s)),
            Some(test) => self.ask(program, s, test),
        }
    }

    /// A loop's test is asked.
    fn ask(
        &mut self,
        program: &Program<'a>,
        s: &'a CoreStmt,
        test: &'a CoreExpr,
    ) -> Result<Focus<'a>, Memory>
        requires names { HasNames program.now }
        requires test { test_in (stmt_of s.now) ≡ Some test.now }
        ensures same { IfOk result (λ focus. Meets program.now self.old (λ k w. OfStatement (repeated_by (own program.now) (statement program.now s.now) (test_of (own program.now) (statement program.now s.now) k w))) self.new focus) }
        ensures quiet { IfOk result (λ _. IsQuiet self.old self.new) }
        ensures less { IfOk result (λ focus. IsBelow (2 + weight_test (stmt_of s.now)) self.old self.new focus) }
    {
        match test_at_once(program, &mut self.world, test) {
            Some(Ok(true)) => Ok(Focus::Repeat(s)),
            Some(Ok(false)) => Ok(Focus::Next),
            Some(Err(stop)) => stopped(stop),
            None => {
                self.stack.push(Frame::Test(s))?;
                Ok(Focus::Eval(test))
            }
        }
    }

    /// The value of a loop's test comes.
    pub fn decide(
        &mut self,
        program: &Program<'a>,
        s: &'a CoreStmt,
        value: Value,
    ) -> Result<Focus<'a>, Memory>
        ensures same { IfOk result (λ focus. Meets program.now self.old (λ k w. OfStatement (repeated_by (own program.now) (statement program.now s.now) (tested_of (statement program.now s.now) (Gives value k w)))) self.new focus) }
        ensures quiet { IfOk result (λ _. IsQuiet self.old self.new) }
        ensures less { IfOk result (λ focus. IsBelow (2) self.old self.new focus) }
    {
        match test_of(s) {
            None => Ok(repeated(s, is_true(value))),
            Some(test) => match asked(program, &self.world, test, value, test.line) {
                Ok(answer) => Ok(repeated(s, answer)),
                Err(stop) => stopped(stop),
            },
        }
    }

    /// A loop's body has ended.
    pub fn between(&mut self, program: &Program<'a>, s: &'a CoreStmt) -> Result<Focus<'a>, Memory>
        requires { HasNames program.now }
        ensures same { IfOk result (λ focus. Meets program.now self.old (λ k w. OfStatement (repeated_by (own program.now) (statement program.now s.now) (between_of (own program.now) (statement program.now s.now) k w))) self.new focus) }
        ensures quiet { IfOk result (λ _. IsQuiet self.old self.new) }
        ensures less { IfOk result (λ focus. IsBelow (2 + weight_between (stmt_of s.now)) self.old self.new focus) }
    {
        match last_of(s) {
            None => self.tested(program, s),
            Some(last) => self.step(program, s, last),
        }
    }

    /// The last part of a `for` is evaluated.
    fn step(
        &mut self,
        program: &Program<'a>,
        s: &'a CoreStmt,
        last: &'a CoreExpr,
    ) -> Result<Focus<'a>, Memory>
        requires names { HasNames program.now }
        requires last { last_in (stmt_of s.now) ≡ Some last.now }
        ensures same { IfOk result (λ focus. Meets program.now self.old (λ k w. OfStatement (repeated_by (own program.now) (statement program.now s.now) (between_of (own program.now) (statement program.now s.now) k w))) self.new focus) }
        ensures quiet { IfOk result (λ _. IsQuiet self.old self.new) }
        ensures less { IfOk result (λ focus. IsBelow (2 + weight_between (stmt_of s.now)) self.old self.new focus) }
    {
        match effect_at_once(program, &mut self.world, last) {
            Some(Ok(())) => self.tested(program, s),
            Some(Err(stop)) => stopped(stop),
            None => {
                self.stack.push(Frame::Last(s))?;
                Ok(Focus::Eval(last))
            }
        }
    }

    /// A `for` begins with its first part.
    pub fn begin(
        &mut self,
        program: &Program<'a>,
        s: &'a CoreStmt,
        first: &'a Option<CoreExpr>,
    ) -> Result<Focus<'a>, Memory>
        requires { HasNames program.now }
        ensures same { IfOk result (λ focus. Meets program.now self.old (λ k w. OfStatement (maybe_dropped (own program.now) (maybe_seen (known program.now) first.now) k w (λ k1 w1. repeated_by (own program.now) (statement program.now s.now) (test_of (own program.now) (statement program.now s.now) k1 w1)))) self.new focus) }
        ensures quiet { IfOk result (λ _. IsQuiet self.old self.new) }
        ensures less { IfOk result (λ focus. IsBelow (4 + (weight_maybe first.now + weight_test (stmt_of s.now))) self.old self.new focus) }
    {
        match first {
            None => self.tested(program, s),
            Some(first) => self.prepare(program, s, first),
        }
    }

    /// The first part of a `for` is evaluated.
    fn prepare(
        &mut self,
        program: &Program<'a>,
        s: &'a CoreStmt,
        first: &'a CoreExpr,
    ) -> Result<Focus<'a>, Memory>
        requires { HasNames program.now }
        ensures same { IfOk result (λ focus. Meets program.now self.old (λ k w. OfStatement (maybe_dropped (own program.now) (maybe_seen (known program.now) (Some first.now)) k w (λ k1 w1. repeated_by (own program.now) (statement program.now s.now) (test_of (own program.now) (statement program.now s.now) k1 w1)))) self.new focus) }
        ensures quiet { IfOk result (λ _. IsQuiet self.old self.new) }
        ensures less { IfOk result (λ focus. IsBelow (4 + (weight_maybe (Some first.now) + weight_test (stmt_of s.now))) self.old self.new focus) }
    {
        match effect_at_once(program, &mut self.world, first) {
            Some(Ok(())) => self.tested(program, s),
            Some(Err(stop)) => stopped(stop),
            None => {
                self.stack.push(Frame::Initial(s))?;
                Ok(Focus::Eval(first))
            }
        }
    }
}

/// The test of a loop, if it has one.
fn test_of<'a>(s: &'a CoreStmt) -> Option<&'a CoreExpr>
    ensures some { IfSome result (λ e. test_in (stmt_of s.now) ≡ Some e.now) }
    ensures none { IfNone result (test_in (stmt_of s.now) ≡ None) }
{
    match s {
        CoreStmt::While { test, .. } | CoreStmt::Do { test, .. } => Some(test),
        CoreStmt::For { head, .. } => head.test.as_ref(),
        _ => None,
    }
}

/// The last part of a `for`, if it has one.
fn last_of<'a>(s: &'a CoreStmt) -> Option<&'a CoreExpr>
    ensures some { IfSome result (λ e. last_in (stmt_of s.now) ≡ Some e.now) }
    ensures none { IfNone result (last_in (stmt_of s.now) ≡ None) }
{
    match s {
        CoreStmt::For { head, .. } => head.last.as_ref(),
        _ => None,
    }
}

/// A loop goes on, or ends.
fn repeated<'a>(s: &'a CoreStmt, answer: bool) -> Focus<'a>
    ensures goes { (p : Program) → (below : List Value) → (fs : List Frame) → (k : ℕ) → (w : World) → state p below fs result k w ≡ ends p below fs (OfStatement (either answer (λ k1 w1. repeated (own p) (statement p s.now) k1 w1) (λ k1 w1. Next k1 w1) k w)) }
    ensures light { weight result < 2 }
{
    if answer {
        Focus::Repeat(s)
    } else {
        Focus::Next
    }
}

/// Whether a value is other than 0.
fn is_true(value: Value) -> bool
    ensures { result ≡ is_true value }
{
    match value {
        Value::Number(n) => n != 0,
        _ => true,
    }
}
