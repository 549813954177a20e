//! Expressions: those that call nothing are evaluated in one go, the others part by part.
ghost use Rattle.std.specs.Prelude.{◌≡◌, ◌+◌, ◌∷◌, [], IfOk};
ghost use Rattle.c_acts.specs.Shapes.{shape_of};
ghost use Rattle.c_acts.specs.declared.shape.Shape.TheVariants as Shape;
ghost use Rattle.c_meaning.specs.CoreTrees.{NoCore, cores_of, kids_of, line_of, one, two, type_of, what_of};
ghost use Rattle.c_runs.specs.Expressions.{arguments as passed_on, asked, call_by, eval, parts_of};
ghost use Rattle.c_runs.specs.Outcomes.{Gives, branch, then_give};
ghost use Rattle.c_worlds.specs.declared.program.Program.{Program};
ghost use Rattle.c_worlds.specs.Programs.{HasNames, known, tree, trees};
ghost use Rattle.c_worlds.specs.Shown.{Gets, giving};
ghost use Rattle.c_acts.specs.Tests.{truth_of};
ghost use Rattle.lcc_base.specs.declared.cause.Cause.TheVariants as Cause;
ghost use Rattle.c_eval.specs.declared.focus.Focus.TheVariants as Focus;
ghost use Rattle.c_eval.specs.declared.how.How.TheVariants as How;
ghost use Rattle.c_eval.specs.Came.{IsCame, IsStopped, IsTold};
ghost use Rattle.c_eval.specs.Ends.{OfExpression};
ghost use Rattle.c_eval.specs.Forms.{copies_of};
ghost use Rattle.c_eval.specs.Frames.{frames};
ghost use Rattle.c_eval.specs.Stacks.{called, calling_on, comma_of, first_from, passed, right_from, second_from};
ghost use Rattle.c_eval.specs.States.{own};
ghost use Rattle.c_eval.specs.Steps.{IsBelow, IsQuiet, Meets};
ghost use Rattle.c_eval.specs.Weights.{weight_e, weight_es, weight_rest};

use crate::focus::Focus;
use crate::form::{Form, first_copy, is_and, line_of, two_parts};
use crate::frame::Frame;
use crate::how::How;
use crate::machine::Machine;
use c_acts::{Parts, asked, binary_act, leaf, unary_act};
use c_meaning::CoreExpr;
use c_plain::value_at_once;
use c_worlds::{Program, Stop, World};
use lcc_base::{Cause, Memory};
use objects::Value;

/// The end of a run that can't go on.
pub fn stopped<'a>(stop: Stop) -> Result<Focus<'a>, Memory>
    ensures { IfOk result (λ focus. IsStopped stop focus) }
{
    match stop {
        Stop::Undefined(cause, line) => Ok(Focus::Over(How::Undefined(cause, line))),
        Stop::Memory => Err(Memory),
    }
}

/// What comes of an evaluation: a value, or none, or the end of the run.
pub fn came<'a>(given: Result<Option<Value>, Stop>) -> Result<Focus<'a>, Memory>
    ensures { IfOk result (λ focus. IsCame given focus) }
{
    match given {
        Ok(Some(value)) => Ok(Focus::Value(value)),
        Ok(None) => Ok(Focus::NoValue(0)),
        Err(stop) => stopped(stop),
    }
}

/// The same of a test.
pub fn told<'a>(answer: Result<bool, Stop>) -> Result<Focus<'a>, Memory>
    ensures { IfOk result (λ focus. IsTold answer focus) }
{
    match answer {
        Ok(true) => Ok(Focus::Value(Value::Number(1))),
        Ok(false) => Ok(Focus::Value(Value::Number(0))),
        Err(stop) => stopped(stop),
    }
}

/// Whether the value of an expression holds as a test at its own line.
pub fn holds(program: &Program, world: &World, test: &CoreExpr, value: Value) -> Result<bool, Stop>
    ensures { Gets (λ k w. asked (giving (tree program.now test.now) value) (line_of test.now) k w) world.now world.now (truth_of result) }
{
    asked(program, world, test, value, line_of(test))
}

/// What no checked unit holds.
pub fn stray<'a>(line: u32) -> Focus<'a>
    ensures { result ≡ Focus.Over (How.Undefined Cause.Outside line) }
{
    Focus::Over(How::Undefined(Cause::Outside, line))
}

impl<'a> Machine<'a> {
    /// An expression is evaluated.
    pub fn eval(&mut self, program: &Program<'a>, e: &'a CoreExpr) -> Result<Focus<'a>, Memory>
        requires { HasNames program.now }
        ensures same { IfOk result (λ focus. Meets program.now self.old (λ k w. OfExpression (eval (own program.now) (tree program.now e.now) k w)) self.new focus) }
        ensures quiet { IfOk result (λ _. IsQuiet self.old self.new) }
        ensures less { IfOk result (λ focus. IsBelow (1 + weight_e e.now) self.old self.new focus) }
    {
        match value_at_once(program, &mut self.world, e) {
            Some(given) => came(given),
            None => self.eval_parts(program, e),
        }
    }

    /// An expression is evaluated part by part.
    fn eval_parts(&mut self, program: &Program<'a>, e: &'a CoreExpr) -> Result<Focus<'a>, Memory>
        requires { HasNames program.now }
        ensures same { IfOk result (λ focus. Meets program.now self.old (λ k w. OfExpression (eval (own program.now) (tree program.now e.now) k w)) self.new focus) }
        ensures quiet { IfOk result (λ _. IsQuiet self.old self.new) }
        ensures less { IfOk result (λ focus. IsBelow (1 + weight_e e.now) self.old self.new focus) }
    {
        match Form::of(e) {
            Form::Leaf => self.leaf(program, e),
            Form::Dropped(first) => self.await_first(e, first),
            Form::Unary(first) => self.await_first(e, first),
            Form::Binary(first, _) => self.await_first(e, first),
            Form::Logical(first, _) => self.await_first(e, first),
            Form::Conditional(first, _, _) => self.await_first(e, first),
            Form::Comma(first, rest) => self.comma(first, rest),
            Form::Call(first, _) => self.await_first(e, first),
            Form::Stray => Ok(stray(line_of(e))),
        }
    }

    /// An expression without parts.
    fn leaf(&mut self, program: &Program<'a>, e: &'a CoreExpr) -> Result<Focus<'a>, Memory>
        requires names { HasNames program.now }
        requires kids { kids_of e.now ≡ NoCore }
        ensures same { IfOk result (λ focus. Meets program.now self.old (λ k w. OfExpression (eval (own program.now) (tree program.now e.now) k w)) self.new focus) }
        ensures quiet { IfOk result (λ _. IsQuiet self.old self.new) }
        ensures less { IfOk result (λ focus. IsBelow 2 self.old self.new focus) }
    {
        came(leaf(program, &self.world, e))
    }

    /// The first part of an expression is evaluated.
    fn await_first(&mut self, e: &'a CoreExpr, first: &'a CoreExpr) -> Result<Focus<'a>, Memory>
        ensures same { IfOk result (λ focus. (p : Program) → Meets p self.old (λ k w. OfExpression (first_from (own p) (tree p e.now) (eval (own p) (tree p first.now) k w))) self.new focus) }
        ensures quiet { IfOk result (λ _. IsQuiet self.old self.new) }
        ensures less { IfOk result (λ focus. IsBelow (5 + (weight_rest e.now + weight_e first.now)) self.old self.new focus) }
    {
        self.stack.push(Frame::First(e))?;
        Ok(Focus::Eval(first))
    }

    /// The parts of a comma, of which the last gives the value.
    fn comma(&mut self, first: &'a CoreExpr, rest: &'a [CoreExpr]) -> Result<Focus<'a>, Memory>
        ensures same { IfOk result (λ focus. (p : Program) → Meets p self.old (λ k w. OfExpression (comma_of (parts_of (own p) (trees p (first.now ∷ rest.now))) k w)) self.new focus) }
        ensures quiet { IfOk result (λ _. IsQuiet self.old self.new) }
        ensures less { IfOk result (λ focus. IsBelow (weight_e first.now + (4 + weight_es (cores_of rest.now))) self.old self.new focus) }
    {
        match rest {
            [] => Ok(Focus::Eval(first)),
            [_, ..] => {
                self.stack.push(Frame::Comma(rest))?;
                Ok(Focus::Eval(first))
            }
        }
    }

    /// The parts of a comma that are left.
    pub fn further(&mut self, parts: &'a [CoreExpr]) -> Result<Focus<'a>, Memory>
        ensures same { IfOk result (λ focus. (p : Program) → Meets p self.old (λ k w. OfExpression (comma_of (parts_of (own p) (trees p parts.now)) k w)) self.new focus) }
        ensures quiet { IfOk result (λ _. IsQuiet self.old self.new) }
        ensures less { IfOk result (λ focus. IsBelow (1 + weight_es (cores_of parts.now)) self.old self.new focus) }
    {
        match parts {
            [] => Ok(stray(0)),
            [first, rest @ ..] => self.comma(first, rest),
        }
    }

    /// A value comes to the first part of an expression.
    pub fn first(
        &mut self,
        program: &Program<'a>,
        e: &'a CoreExpr,
        value: Value,
    ) -> Result<Focus<'a>, Memory>
        requires { HasNames program.now }
        ensures same { IfOk result (λ focus. Meets program.now self.old (λ k w. OfExpression (first_from (own program.now) (tree program.now e.now) (Gives value k w))) self.new focus) }
        ensures quiet { IfOk result (λ _. IsQuiet self.old self.new) }
        ensures less { IfOk result (λ focus. IsBelow (4 + weight_rest e.now) self.old self.new focus) }
    {
        match Form::of(e) {
            Form::Leaf => Ok(Focus::Value(value)),
            Form::Dropped(_) => Ok(Focus::NoValue(0)),
            Form::Unary(part) => self.unary(program, e, part, value),
            Form::Binary(_, right) => self.await_second(e, value, right),
            Form::Logical(left, right) => self.decided(program, e, left, right, value),
            Form::Conditional(test, then, otherwise) => {
                self.chosen(program, test, then, otherwise, value)
            }
            Form::Comma(_, _) => Ok(Focus::Value(value)),
            Form::Call(_, arguments) => self.call(e, arguments, value),
            Form::Stray => Ok(Focus::Value(value)),
        }
    }

    /// The only part of an expression gave a value.
    fn unary(
        &mut self,
        program: &Program<'a>,
        e: &'a CoreExpr,
        part: &'a CoreExpr,
        value: Value,
    ) -> Result<Focus<'a>, Memory>
        requires shape { shape_of (what_of e.now) ≡ Shape.Unary }
        requires kids { kids_of e.now ≡ one part.now }
        ensures same { IfOk result (λ focus. Meets program.now self.old (λ k w. OfExpression (first_from (own program.now) (tree program.now e.now) (Gives value k w))) self.new focus) }
        ensures quiet { IfOk result (λ _. IsQuiet self.old self.new) }
        ensures less { IfOk result (λ focus. IsBelow 2 self.old self.new focus) }
    {
        came(unary_act(program, &self.world, e, part, value))
    }

    /// The second part of an expression is evaluated, whose first gave this value.
    fn await_second(
        &mut self,
        e: &'a CoreExpr,
        value: Value,
        second: &'a CoreExpr,
    ) -> Result<Focus<'a>, Memory>
        ensures same { IfOk result (λ focus. (p : Program) → Meets p self.old (λ k w. OfExpression (second_from (own p) (tree p e.now) value (eval (own p) (tree p second.now) k w))) self.new focus) }
        ensures quiet { IfOk result (λ _. IsQuiet self.old self.new) }
        ensures less { IfOk result (λ focus. IsBelow (3 + weight_e second.now) self.old self.new focus) }
    {
        self.stack.push(Frame::Second(e, value))?;
        Ok(Focus::Eval(second))
    }

    /// The left part of a `&&` or `||` decides, or the right one is evaluated.
    fn decided(
        &mut self,
        program: &Program<'a>,
        e: &'a CoreExpr,
        left: &'a CoreExpr,
        right: &'a CoreExpr,
        value: Value,
    ) -> Result<Focus<'a>, Memory>
        requires shape { shape_of (what_of e.now) ≡ Shape.Logical }
        requires kids { kids_of e.now ≡ two left.now right.now }
        ensures same { IfOk result (λ focus. Meets program.now self.old (λ k w. OfExpression (first_from (own program.now) (tree program.now e.now) (Gives value k w))) self.new focus) }
        ensures quiet { IfOk result (λ _. IsQuiet self.old self.new) }
        ensures less { IfOk result (λ focus. IsBelow (3 + weight_e right.now) self.old self.new focus) }
    {
        match asked(program, &self.world, left, value, line_of(e)) {
            Ok(answer) => {
                if answer == is_and(e) {
                    self.stack.push(Frame::Right(e))?;
                    Ok(Focus::Eval(right))
                } else {
                    told(Ok(answer))
                }
            }
            Err(stop) => stopped(stop),
        }
    }

    /// One of two parts is evaluated, by a test's value.
    fn chosen(
        &mut self,
        program: &Program<'a>,
        test: &'a CoreExpr,
        then: &'a CoreExpr,
        otherwise: &'a CoreExpr,
        value: Value,
    ) -> Result<Focus<'a>, Memory>
        ensures same { IfOk result (λ focus. Meets program.now self.old (λ k w. OfExpression (then_give (asked (giving (tree program.now test.now) value) (line_of test.now) k w) (λ u k1 w1. branch u (λ k2 w2. eval (own program.now) (tree program.now then.now) k2 w2) (λ k2 w2. eval (own program.now) (tree program.now otherwise.now) k2 w2) k1 w1))) self.new focus) }
        ensures quiet { IfOk result (λ _. IsQuiet self.old self.new) }
        ensures less { IfOk result (λ focus. IsBelow (2 + (weight_e then.now + weight_e otherwise.now)) self.old self.new focus) }
    {
        match holds(program, &self.world, test, value) {
            Ok(true) => Ok(Focus::Eval(then)),
            Ok(false) => Ok(Focus::Eval(otherwise)),
            Err(stop) => stopped(stop),
        }
    }

    /// A call's arguments are evaluated, which calls this value.
    fn call(
        &mut self,
        e: &'a CoreExpr,
        arguments: &'a [CoreExpr],
        value: Value,
    ) -> Result<Focus<'a>, Memory>
        ensures same { IfOk result (λ focus. (p : Program) → Meets p self.old (λ k w. OfExpression (passed_on (own p) (copies_of (what_of e.now)) (parts_of (own p) (trees p arguments.now)) [] k w (λ m xs k1 w1. call_by (own p) (known p (type_of e.now)) (line_of e.now) value m xs k1 w1))) self.new focus) }
        ensures quiet { IfOk result (λ _. IsQuiet self.old self.new) }
        ensures less { IfOk result (λ focus. IsBelow (1 + weight_es (cores_of arguments.now)) self.old self.new focus) }
    {
        self.stack.push(Frame::Called(e, value))?;
        self.argument(arguments, first_copy(e))
    }

    /// A value comes to the second part of an expression.
    pub fn second(
        &mut self,
        program: &Program<'a>,
        e: &'a CoreExpr,
        left_value: Value,
        right_value: Value,
    ) -> Result<Focus<'a>, Memory>
        ensures same { IfOk result (λ focus. Meets program.now self.old (λ k w. OfExpression (second_from (own program.now) (tree program.now e.now) left_value (Gives right_value k w))) self.new focus) }
        ensures quiet { IfOk result (λ _. IsQuiet self.old self.new) }
        ensures less { IfOk result (λ focus. IsBelow (2) self.old self.new focus) }
    {
        match Form::of(e) {
            Form::Binary(left, right) => {
                let parts = Parts {
                    left,
                    left_value,
                    right,
                    right_value,
                };
                came(binary_act(program, &mut self.world, e, &parts))
            }
            _ => Ok(Focus::Value(right_value)),
        }
    }

    /// A value comes to the right part of a `&&` or `||`.
    pub fn right(
        &mut self,
        program: &Program<'a>,
        e: &'a CoreExpr,
        value: Value,
    ) -> Result<Focus<'a>, Memory>
        ensures same { IfOk result (λ focus. Meets program.now self.old (λ k w. OfExpression (right_from (tree program.now e.now) (Gives value k w))) self.new focus) }
        ensures quiet { IfOk result (λ _. IsQuiet self.old self.new) }
        ensures less { IfOk result (λ focus. IsBelow (2) self.old self.new focus) }
    {
        match two_parts(e) {
            Some((_, right)) => told(asked(program, &self.world, right, value, line_of(e))),
            None => Ok(Focus::Value(value)),
        }
    }

    /// The next argument is evaluated, or the call is made; n is the local of its next copy.
    pub fn argument(&mut self, arguments: &'a [CoreExpr], n: u32) -> Result<Focus<'a>, Memory>
        ensures same { IfOk result (λ focus. (p : Program) → Meets p self.old (λ k w. OfExpression (passed_on (own p) n (parts_of (own p) (trees p arguments.now)) (passed p (frames self.old.stack)) k w (λ m xs k1 w1. calling_on p (own p) (called (frames self.old.stack)) m xs k1 w1))) self.new focus) }
        ensures quiet { IfOk result (λ _. IsQuiet self.old self.new) }
        ensures less { IfOk result (λ focus. IsBelow (weight_es (cores_of arguments.now)) self.old self.new focus) }
    {
        match arguments {
            [] => Ok(Focus::Invoke(n)),
            [first, ..] => {
                self.stack.push(Frame::Argument(arguments, n))?;
                Ok(Focus::Eval(first))
            }
        }
    }
}
