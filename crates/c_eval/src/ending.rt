//! A statement has ended: as it stands, by a jump, or by a return.
ghost use Rattle.std.specs.Prelude.{◌≡◌, ℕ, IfOk};
ghost use Rattle.lcc_base.specs.Traces.{output_of};
ghost use Rattle.c_runs.specs.Outcomes.{Next, Break, Continue, Return, Goto};
ghost use Rattle.c_runs.specs.Run.{ended_by};
ghost use Rattle.c_runs.specs.Worlds.{World};
ghost use Rattle.c_worlds.specs.declared.program.Program.{Program};
ghost use Rattle.c_worlds.specs.Programs.{HasNames};
ghost use Rattle.c_eval.specs.Ends.{OfStatement, final, final_of, how_of};
ghost use Rattle.c_eval.specs.Steps.{IsBelow, IsQuiet, Meets, Reaches, Resumes};

use crate::expressions::{came, stopped, stray};
use crate::focus::Focus;
use crate::frame::Frame;
use crate::how::How;
use crate::labels::any_has_label;
use crate::machine::Machine;
use c_entries::{Waiting, leave};
use c_meaning::CoreExpr;
use c_worlds::Program;
use lcc_base::{Cause, Memory};
use objects::Value;

impl<'a> Machine<'a> {
    /// A statement has ended, and what stands behind it begins.
    pub fn next(&mut self, program: &Program<'a>) -> Result<Focus<'a>, Memory>
        requires { HasNames program.now }
        ensures reaches { IfOk result (λ focus. Reaches program.now self.old (λ k w. OfStatement (Next k w)) self.new focus) }
        ensures turns { IfOk result (λ _. self.new.turns ≡ self.old.turns) }
        ensures less { IfOk result (λ focus. IsBelow (1) self.old self.new focus) }
    {
        let Some(frame) = self.stack.pop() else {
            return Ok(Focus::Over(How::Exit(0)));
        };
        match frame {
            Frame::Then(statements) => Ok(Focus::List(statements)),
            Frame::Body(s) => self.between(program, s),
            Frame::Activation(call, result, objects, base) => {
                let waiting = Waiting {
                    result,
                    objects,
                    base,
                };
                self.leave(program, call, waiting, None, 0)
            }
            _ => Ok(Focus::Next),
        }
    }

    /// A `break` leaves the innermost loop or `switch`.
    pub fn break_off(&mut self) -> Focus<'a>
        ensures same { (p : Program) → Meets p self.old (λ k w. OfStatement (Break k w)) self.new result }
        ensures quiet { IsQuiet self.old self.new }
        ensures less { IsBelow (1) self.old self.new result }
    {
        let Some(frame) = self.stack.pop() else {
            return stray(0);
        };
        match frame {
            Frame::Body(_) | Frame::Switched => Focus::Next,
            Frame::Activation(call, _, _, _) => stray(call.line),
            _ => Focus::Break,
        }
    }

    /// A `continue` ends the body of the innermost loop.
    pub fn go_on(&mut self, program: &Program<'a>) -> Result<Focus<'a>, Memory>
        requires { HasNames program.now }
        ensures same { IfOk result (λ focus. Meets program.now self.old (λ k w. OfStatement (Continue k w)) self.new focus) }
        ensures quiet { IfOk result (λ _. IsQuiet self.old self.new) }
        ensures less { IfOk result (λ focus. IsBelow (1) self.old self.new focus) }
    {
        let Some(frame) = self.stack.pop() else {
            return Ok(stray(0));
        };
        match frame {
            Frame::Body(s) => self.between(program, s),
            Frame::Activation(call, _, _, _) => Ok(stray(call.line)),
            _ => Ok(Focus::Continue),
        }
    }

    /// A `goto` goes to the innermost block with its label.
    pub fn go_to(&mut self, label: u32) -> Focus<'a>
        ensures same { (p : Program) → Meets p self.old (λ k w. OfStatement (Goto label k w)) self.new result }
        ensures quiet { IsQuiet self.old self.new }
        ensures less { IsBelow (1) self.old self.new result }
    {
        let Some(frame) = self.stack.pop() else {
            return stray(0);
        };
        match frame {
            Frame::Catch(statements) => {
                if any_has_label(statements, label) {
                    Focus::Jump(statements, label)
                } else {
                    Focus::Goto(label)
                }
            }
            Frame::Activation(call, _, _, _) => stray(call.line),
            _ => Focus::Goto(label),
        }
    }

    /// A `return` ends the call, or of main's first call the run.
    pub fn give_back(
        &mut self,
        program: &Program<'a>,
        value: Option<Value>,
        line: u32,
    ) -> Result<Focus<'a>, Memory>
        ensures reaches { IfOk result (λ focus. Reaches program.now self.old (λ k w. OfStatement (Return value line k w)) self.new focus) }
        ensures turns { IfOk result (λ _. self.new.turns ≡ self.old.turns) }
        ensures less { IfOk result (λ focus. IsBelow (1) self.old self.new focus) }
    {
        let Some(frame) = self.stack.pop() else {
            return Ok(Focus::Over(status(value, line)));
        };
        match frame {
            Frame::Activation(call, result, objects, base) => {
                let waiting = Waiting {
                    result,
                    objects,
                    base,
                };
                self.leave(program, call, waiting, value, line)
            }
            _ => Ok(Focus::Return(value, line)),
        }
    }

    /// The running call is over, and the one that waits goes on.
    fn leave(
        &mut self,
        program: &Program<'a>,
        call: &'a CoreExpr,
        waiting: Waiting,
        value: Option<Value>,
        line: u32,
    ) -> Result<Focus<'a>, Memory>
        ensures resumes { IfOk result (λ focus. Resumes program.now call.now waiting value line self.old self.new focus) }
        ensures turns { IfOk result (λ _. self.new.turns ≡ self.old.turns) }
        ensures less { IfOk result (λ focus. IsBelow 2 self.old self.new focus) }
    {
        match leave(program, &mut self.world, call, waiting, value, line) {
            Ok(Some(given)) => Ok(Focus::Value(given)),
            Ok(None) => Ok(Focus::NoValue(call.line)),
            Err(stop) => stopped(stop),
        }
    }
}

/// How the run ends where main returns.
fn status(value: Option<Value>, line: u32) -> How
    ensures { (k : ℕ) → (w : World) → final (how_of result) (output_of w.trace) ≡ final_of (ended_by (Return value line k w)) }
{
    match value {
        None => How::Exit(0),
        Some(Value::Number(n)) => How::Exit(n),
        Some(_) => How::Undefined(Cause::PointerNumber, line),
    }
}
