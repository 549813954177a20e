//! Statements that begin, or are entered at a label (C89 3.6).
ghost use Rattle.std.specs.Prelude.{◌≡◌, ◌+◌, ◌∷◌, Some, IfOk, IfNone, IfSome, slice_get};
ghost use Rattle.c_filling.specs.Filled.{seen_places};
ghost use Rattle.c_meaning.specs.CoreTrees.{line_of};
ghost use Rattle.c_meaning.specs.StmtTrees.{stmt_of};
ghost use Rattle.c_runs.specs.Expressions.{eval, test as test_of};
ghost use Rattle.c_runs.specs.Outcomes.{Gives, Next, Return, branch, then_do, then_go};
ghost use Rattle.c_runs.specs.Statements.{At, Start, chosen, exec, exec_all, fill, initialised};
ghost use Rattle.c_worlds.specs.declared.program.Program.{Program};
ghost use Rattle.c_worlds.specs.Programs.{Calls, HasNames, setting_of, tree};
ghost use Rattle.c_worlds.specs.Shown.{Goes, StaysBelow};
ghost use Rattle.c_eval.specs.Ends.{OfStatement};
ghost use Rattle.c_eval.specs.Stacks.{statement, statements as trees_of, switched_from};
ghost use Rattle.c_eval.specs.States.{own};
ghost use Rattle.c_eval.specs.Steps.{IsBelow, IsQuiet, Meets};
ghost use Rattle.c_eval.specs.Weights.{places_of, statements_of, weight_body, weight_e, weight_places, weight_s, weight_ss};

use crate::arriving::no_result;
use crate::expressions::{stopped, stray};
use crate::focus::Focus;
use crate::frame::Frame;
use crate::how::How;
use crate::labels::{from_label, has_label};
use crate::machine::Machine;
use c_filling::{are_plain, fill, make_zero};
use c_meaning::{CoreCase, CoreExpr, CoreStmt, FilledPlace};
use c_plain::{effect_at_once, test_at_once, value_at_once};
use c_worlds::{Program, Stop, World};
use lcc_base::{Cause, Memory};
use objects::Value;

impl<'a> Machine<'a> {
    /// A statement begins.
    pub fn start(&mut self, program: &Program<'a>, s: &'a CoreStmt) -> Result<Focus<'a>, Memory>
        requires { HasNames program.now }
        ensures same { IfOk result (λ focus. Meets program.now self.old (λ k w. OfStatement (exec (own program.now) (statement program.now s.now) Start k w)) self.new focus) }
        ensures quiet { IfOk result (λ _. IsQuiet self.old self.new) }
        ensures less { IfOk result (λ focus. IsBelow (1 + weight_s (stmt_of s.now)) self.old self.new focus) }
    {
        match s {
            CoreStmt::Expression(e) => self.drop_value(program, e),
            CoreStmt::If {
                test,
                then,
                otherwise,
            } => self.choose(program, test, then, otherwise),
            CoreStmt::Block { statements, .. } => {
                self.stack.push(Frame::Catch(statements.as_slice()))?;
                Ok(Focus::List(statements.as_slice()))
            }
            CoreStmt::While { .. } => self.tested(program, s),
            CoreStmt::Do { .. } => Ok(Focus::Repeat(s)),
            CoreStmt::For { head, .. } => self.begin(program, s, &head.first),
            CoreStmt::Initialise {
                local,
                zero,
                places,
            } => self.initialise(program, *local, *zero, places.as_slice()),
            CoreStmt::Switch { value, .. } => self.start_switch(program, s, value),
            CoreStmt::Label(_, labelled) => Ok(Focus::Start(labelled)),
            CoreStmt::Return(Some(e)) => self.return_value(program, e),
            CoreStmt::Return(None) => Ok(Focus::Return(None, 0)),
            CoreStmt::Goto(label) => Ok(Focus::Goto(*label)),
            CoreStmt::Break => Ok(Focus::Break),
            CoreStmt::Continue => Ok(Focus::Continue),
            CoreStmt::Nothing => Ok(Focus::Next),
        }
    }

    /// An expression whose value isn't used.
    fn drop_value(&mut self, program: &Program<'a>, e: &'a CoreExpr) -> Result<Focus<'a>, Memory>
        requires { HasNames program.now }
        ensures same { IfOk result (λ focus. Meets program.now self.old (λ k w. OfStatement (then_go (eval (own program.now) (tree program.now e.now) k w) (λ k1 w1. Next k1 w1))) self.new focus) }
        ensures quiet { IfOk result (λ _. IsQuiet self.old self.new) }
        ensures less { IfOk result (λ focus. IsBelow (4 + weight_e e.now) self.old self.new focus) }
    {
        match effect_at_once(program, &mut self.world, e) {
            Some(Ok(())) => Ok(Focus::Next),
            Some(Err(stop)) => stopped(stop),
            None => {
                self.stack.push(Frame::Drop)?;
                Ok(Focus::Eval(e))
            }
        }
    }

    /// A value that is returned.
    fn return_value(&mut self, program: &Program<'a>, e: &'a CoreExpr) -> Result<Focus<'a>, Memory>
        requires { HasNames program.now }
        ensures same { IfOk result (λ focus. Meets program.now self.old (λ k w. OfStatement (then_do (eval (own program.now) (tree program.now e.now) k w) (λ v k1 w1. Return (Some v) (line_of e.now) k1 w1))) self.new focus) }
        ensures quiet { IfOk result (λ _. IsQuiet self.old self.new) }
        ensures less { IfOk result (λ focus. IsBelow (4 + weight_e e.now) self.old self.new focus) }
    {
        match value_at_once(program, &mut self.world, e) {
            Some(Ok(Some(value))) => Ok(Focus::Return(Some(value), e.line)),
            Some(Ok(None)) => Ok(no_result(0)),
            Some(Err(stop)) => stopped(stop),
            None => {
                self.stack.to_call()?;
                self.stack.push(Frame::Return(e))?;
                Ok(Focus::Eval(e))
            }
        }
    }

    /// One of two statements, by a test.
    fn choose(
        &mut self,
        program: &Program<'a>,
        test: &'a CoreExpr,
        then: &'a CoreStmt,
        otherwise: &'a CoreStmt,
    ) -> Result<Focus<'a>, Memory>
        requires { HasNames program.now }
        ensures same { IfOk result (λ focus. Meets program.now self.old (λ k w. OfStatement (then_do (test_of (own program.now) (tree program.now test.now) k w) (λ v k1 w1. branch v (λ k2 w2. exec (own program.now) (statement program.now then.now) Start k2 w2) (λ k2 w2. exec (own program.now) (statement program.now otherwise.now) Start k2 w2) k1 w1))) self.new focus) }
        ensures quiet { IfOk result (λ _. IsQuiet self.old self.new) }
        ensures less { IfOk result (λ focus. IsBelow (4 + (weight_e test.now + (weight_s (stmt_of then.now) + weight_s (stmt_of otherwise.now)))) self.old self.new focus) }
    {
        match test_at_once(program, &mut self.world, test) {
            Some(Ok(true)) => Ok(Focus::Start(then)),
            Some(Ok(false)) => Ok(Focus::Start(otherwise)),
            Some(Err(stop)) => stopped(stop),
            None => {
                self.stack.push(Frame::Branch(test, then, otherwise))?;
                Ok(Focus::Eval(test))
            }
        }
    }

    /// A local object gets its first value.
    fn initialise(
        &mut self,
        program: &Program<'a>,
        local: u32,
        zero: bool,
        places: &'a [FilledPlace],
    ) -> Result<Focus<'a>, Memory>
        requires { HasNames program.now }
        ensures same { IfOk result (λ focus. Meets program.now self.old (λ k w. OfStatement (initialised (own program.now) (slice_get w.locals local) zero (seen_places program.now places.now) k w)) self.new focus) }
        ensures quiet { IfOk result (λ _. IsQuiet self.old self.new) }
        ensures less { IfOk result (λ focus. IsBelow (4 + weight_places (places_of places.now)) self.old self.new focus) }
    {
        match self.world.locals.get(local) {
            None => Ok(stray(0)),
            Some(base) => {
                if zero {
                    match make_zero(&mut self.world, base) {
                        Ok(()) => self.fill(program, places, base),
                        Err(stop) => stopped(stop),
                    }
                } else {
                    self.fill(program, places, base)
                }
            }
        }
    }

    /// The places of an object are filled in turn.
    pub fn fill(
        &mut self,
        program: &Program<'a>,
        places: &'a [FilledPlace],
        base: Value,
    ) -> Result<Focus<'a>, Memory>
        requires { HasNames program.now }
        ensures same { IfOk result (λ focus. Meets program.now self.old (λ k w. OfStatement (fill (own program.now) base (seen_places program.now places.now) k w)) self.new focus) }
        ensures quiet { IfOk result (λ _. IsQuiet self.old self.new) }
        ensures less { IfOk result (λ focus. IsBelow (1 + weight_places (places_of places.now)) self.old self.new focus) }
    {
        if are_plain(places) {
            return match fill(self.alloc, program, &mut self.world, base, places) {
                Ok(()) => Ok(Focus::Next),
                Err(stop) => stopped(stop),
            };
        }
        match places {
            [] => Ok(Focus::Next),
            [first, ..] => {
                self.stack.push(Frame::Fill(places, base))?;
                Ok(Focus::Eval(&first.value))
            }
        }
    }

    /// A `switch` begins with its value.
    fn start_switch(
        &mut self,
        program: &Program<'a>,
        s: &'a CoreStmt,
        value: &'a CoreExpr,
    ) -> Result<Focus<'a>, Memory>
        requires { HasNames program.now }
        ensures same { IfOk result (λ focus. Meets program.now self.old (λ k w. OfStatement (switched_from (own program.now) (statement program.now s.now) (eval (own program.now) (tree program.now value.now) k w))) self.new focus) }
        ensures quiet { IfOk result (λ _. IsQuiet self.old self.new) }
        ensures less { IfOk result (λ focus. IsBelow (5 + (weight_e value.now + weight_body (stmt_of s.now))) self.old self.new focus) }
    {
        match value_at_once(program, &mut self.world, value) {
            Some(Ok(Some(given))) => self.switch(s, given),
            Some(Ok(None)) => Ok(no_result(0)),
            Some(Err(stop)) => stopped(stop),
            None => {
                self.stack.push(Frame::Switch(s))?;
                Ok(Focus::Eval(value))
            }
        }
    }

    /// A `switch` by its value.
    pub fn switch(&mut self, s: &'a CoreStmt, given: Value) -> Result<Focus<'a>, Memory>
        ensures same { IfOk result (λ focus. (p : Program) → Meets p self.old (λ k w. OfStatement (switched_from (own p) (statement p s.now) (Gives given k w))) self.new focus) }
        ensures quiet { IfOk result (λ _. IsQuiet self.old self.new) }
        ensures less { IfOk result (λ focus. IsBelow (1 + (1 + weight_body (stmt_of s.now))) self.old self.new focus) }
    {
        match s {
            CoreStmt::Switch {
                value,
                cases,
                default,
                body,
            } => match given {
                Value::Number(n) => match chosen(cases.as_slice(), *default, n) {
                    None => Ok(Focus::Next),
                    Some(label) => {
                        self.stack.push(Frame::Switched)?;
                        Ok(Focus::At(body, label))
                    }
                },
                _ => Ok(Focus::Over(How::Undefined(Cause::PointerNumber, value.line))),
            },
            _ => Ok(Focus::Next),
        }
    }

    /// Statements begin in order.
    pub fn list(
        &mut self,
        program: &Program<'a>,
        statements: &'a [CoreStmt],
    ) -> Result<Focus<'a>, Memory>
        requires { HasNames program.now }
        ensures same { IfOk result (λ focus. Meets program.now self.old (λ k w. OfStatement (exec_all (own program.now) (trees_of program.now statements.now) Start k w)) self.new focus) }
        ensures quiet { IfOk result (λ _. IsQuiet self.old self.new) }
        ensures less { IfOk result (λ focus. IsBelow (1 + weight_ss (statements_of statements.now)) self.old self.new focus) }
    {
        match statements {
            [] => Ok(Focus::Next),
            [first, rest @ ..] => self.list_from(program, first, rest),
        }
    }

    /// A statement and those behind it begin in order.
    fn list_from(
        &mut self,
        program: &Program<'a>,
        first: &'a CoreStmt,
        rest: &'a [CoreStmt],
    ) -> Result<Focus<'a>, Memory>
        requires { HasNames program.now }
        ensures same { IfOk result (λ focus. Meets program.now self.old (λ k w. OfStatement (exec_all (own program.now) (trees_of program.now (first.now ∷ rest.now)) Start k w)) self.new focus) }
        ensures quiet { IfOk result (λ _. IsQuiet self.old self.new) }
        ensures less { IfOk result (λ focus. IsBelow (1 + weight_ss (statements_of (first.now ∷ rest.now))) self.old self.new focus) }
    {
        match first_at_once(program, &mut self.world, first) {
            Some(Ok(())) => Ok(Focus::List(rest)),
            Some(Err(stop)) => stopped(stop),
            None => match rest {
                [] => Ok(Focus::Start(first)),
                [_, ..] => {
                    self.stack.push(Frame::Then(rest))?;
                    Ok(Focus::Start(first))
                }
            },
        }
    }

    /// Statements are entered at a label.
    pub fn list_at(&mut self, statements: &'a [CoreStmt], label: u32) -> Result<Focus<'a>, Memory>
        ensures same { IfOk result (λ focus. (p : Program) → Meets p self.old (λ k w. OfStatement (exec_all (own p) (trees_of p statements.now) (At label) k w)) self.new focus) }
        ensures quiet { IfOk result (λ _. IsQuiet self.old self.new) }
        ensures less { IfOk result (λ focus. IsBelow (1 + weight_ss (statements_of statements.now)) self.old self.new focus) }
    {
        match from_label(statements, label) {
            [] => Ok(Focus::Next),
            [first, rest @ ..] => {
                self.stack.push(Frame::Then(rest))?;
                Ok(Focus::At(first, label))
            }
        }
    }

    /// A statement is entered at a label.
    pub fn start_at(
        &mut self,
        program: &Program<'a>,
        s: &'a CoreStmt,
        label: u32,
    ) -> Result<Focus<'a>, Memory>
        requires { HasNames program.now }
        ensures same { IfOk result (λ focus. Meets program.now self.old (λ k w. OfStatement (exec (own program.now) (statement program.now s.now) (At label) k w)) self.new focus) }
        ensures quiet { IfOk result (λ _. IsQuiet self.old self.new) }
        ensures less { IfOk result (λ focus. IsBelow (1 + weight_s (stmt_of s.now)) self.old self.new focus) }
    {
        match s {
            CoreStmt::Block { statements, .. } => {
                self.stack.push(Frame::Catch(statements.as_slice()))?;
                Ok(Focus::ListAt(statements.as_slice(), label))
            }
            CoreStmt::If {
                then,
                otherwise,
                ..
            } => {
                if has_label(then, label) {
                    Ok(Focus::At(then, label))
                } else {
                    Ok(Focus::At(otherwise, label))
                }
            }
            CoreStmt::While { body, .. } | CoreStmt::Do { body, .. } | CoreStmt::For { body, .. } =>
                {
                    self.stack.push(Frame::Body(s))?;
                    Ok(Focus::At(body, label))
                }
            CoreStmt::Switch { body, .. } => {
                self.stack.push(Frame::Switched)?;
                Ok(Focus::At(body, label))
            }
            CoreStmt::Label(own, labelled) => {
                if label == *own {
                    Ok(Focus::Start(labelled))
                } else {
                    Ok(Focus::At(labelled, label))
                }
            }
            CoreStmt::Expression(e) => self.drop_value(program, e),
            CoreStmt::Initialise {
                local,
                zero,
                places,
            } => self.initialise(program, *local, *zero, places.as_slice()),
            CoreStmt::Return(Some(e)) => self.return_value(program, e),
            CoreStmt::Return(None) => Ok(Focus::Return(None, 0)),
            CoreStmt::Goto(label) => Ok(Focus::Goto(*label)),
            CoreStmt::Break => Ok(Focus::Break),
            CoreStmt::Continue => Ok(Focus::Continue),
            CoreStmt::Nothing => Ok(Focus::Next),
        }
    }
}

/// What comes of a statement that is an expression that calls nothing; else `None`, and nothing has changed.
fn first_at_once(program: &Program, world: &mut World, s: &CoreStmt) -> Option<Result<(), Stop>>
    requires { HasNames program.now }
    ensures goes { IfSome result (λ r. (calls : Calls) → Goes (λ k w. exec (setting_of program.now calls) (statement program.now s.now) Start k w) world.old world.new r) }
    ensures same { IfNone result (world.new ≡ world.old) }
    ensures stays { StaysBelow world.old world.new }
{
    match s {
        CoreStmt::Expression(e) => effect_at_once(program, world, e),
        _ => None,
    }
}

/// The label of a number's case, else the default's.
fn chosen(cases: &[CoreCase], default: Option<u32>, n: u32) -> Option<u32>
    ensures { result ≡ chosen cases.now default n }
{
    for case in cases {
        if case.number == n {
            return Some(case.label);
        }
    }
    default
}
