//! A run goes on until a turn is to be spent, and then spends it.
ghost use Rattle.std.specs.Prelude.{◌≡◌, ◌≤◌, ℕ, List, IfOk};
ghost use Rattle.objects.specs.declared.value.Value.{Value};
ghost use Rattle.c_runs.specs.Worlds.{World};
ghost use Rattle.c_worlds.specs.declared.program.Program.{Program};
ghost use Rattle.c_worlds.specs.Programs.{HasNames};
ghost use Rattle.c_eval.specs.declared.focus.Focus.TheVariants as Focus;
ghost use Rattle.c_eval.specs.declared.frame.Frame.{Frame};
ghost use Rattle.c_eval.specs.Ends.{OfStatement};
ghost use Rattle.c_eval.specs.Loops.{body_of};
ghost use Rattle.c_eval.specs.Stacks.{statement};
ghost use Rattle.c_eval.specs.States.{ends, own, state};
ghost use Rattle.c_eval.specs.Steps.{IsSpent, Leads, Same};
ghost use Rattle.c_eval.specs.Waits.{waits};
ghost use Rattle.c_eval.specs.Weights.{going};

use crate::focus::Focus;
use crate::frame::Frame;
use crate::how::How;
use crate::machine::Machine;
use c_entries::Argument;
use c_meaning::CoreStmt;
use c_runs::{turns_are_repetitions, turns_fall};
use c_worlds::Program;
use lcc_base::Memory;

/// What waits for a turn, or the end.
#[derive(Clone, Copy)]
pub enum Waiting<'a> {
    Repeat(&'a CoreStmt),
    Jump(&'a [CoreStmt], u32),
    Invoke(u32),
    Over(How),
}

impl<'a> Machine<'a> {
    /// Runs until a turn is to be spent, or to the end.
    pub fn until_turn(
        &mut self,
        program: &Program<'a>,
        focus: Focus<'a>,
    ) -> Result<Waiting<'a>, Memory>
        requires { HasNames program.now }
        ensures leads { IfOk result (λ wait. Leads program.now self.old focus.entry self.new (waits wait)) }
        ensures turns { IfOk result (λ _. self.new.turns ≡ self.old.turns) }
        ensures going { IfOk result (λ wait. going (waits wait) ≤ going focus.entry) }
    {
        let mut at = focus;
        loop {
            at = match at {
                Focus::Eval(e) => self.eval(program, e)?,
                Focus::Value(value) => self.give(program, value)?,
                Focus::NoValue(line) => self.give_none(program, line)?,
                Focus::Start(s) => self.start(program, s)?,
                Focus::At(s, label) => self.start_at(program, s, label)?,
                Focus::List(statements) => self.list(program, statements)?,
                Focus::ListAt(statements, label) => self.list_at(statements, label)?,
                Focus::Fill(places, base) => self.fill(program, places, base)?,
                Focus::Next => self.next(program)?,
                Focus::Break => self.break_off(),
                Focus::Continue => self.go_on(program)?,
                Focus::Return(value, line) => self.give_back(program, value, line)?,
                Focus::Goto(label) => self.go_to(label),
                Focus::Repeat(s) => return Ok(Waiting::Repeat(s)),
                Focus::Jump(statements, label) => return Ok(Waiting::Jump(statements, label)),
                Focus::Invoke(n) => return Ok(Waiting::Invoke(n)),
                Focus::Over(how) => return Ok(Waiting::Over(how)),
            };
        }
    }

    /// A loop's body begins once more.
    pub fn repeat(&mut self, s: &'a CoreStmt) -> Result<Focus<'a>, Memory>
        ensures same { IfOk result (λ focus. (p : Program) → Same p self.old (Focus.Repeat s.entry) self.new focus) }
        ensures output { IfOk result (λ _. self.new.world.output ≡ self.old.world.output) }
        ensures spent { IfOk result (λ focus. IsSpent self.old self.new focus) }
    {
        turns_are_repetitions();
        turns_fall();
        if self.turns == 0 {
            return Ok(Focus::Over(How::OutOfTurns));
        }
        self.turns -= 1;
        self.stack.push(Frame::Body(s))?;
        Ok(body_of(s))
    }

    /// A block's statements are entered at a label.
    pub fn jump(&mut self, statements: &'a [CoreStmt], label: u32) -> Result<Focus<'a>, Memory>
        ensures same { IfOk result (λ focus. (p : Program) → Same p self.old (Focus.Jump statements.entry label) self.new focus) }
        ensures output { IfOk result (λ _. self.new.world.output ≡ self.old.world.output) }
        ensures spent { IfOk result (λ focus. IsSpent self.old self.new focus) }
    {
        turns_are_repetitions();
        turns_fall();
        if self.turns == 0 {
            return Ok(Focus::Over(How::OutOfTurns));
        }
        self.turns -= 1;
        self.stack.push(Frame::Catch(statements))?;
        Ok(Focus::ListAt(statements, label))
    }
}

/// The body of a loop begins.
fn body_of<'a>(s: &'a CoreStmt) -> Focus<'a>
    ensures { (p : Program) → (below : List Value) → (fs : List Frame) → (k : ℕ) → (w : World) → state p below fs result k w ≡ ends p below fs (OfStatement (body_of (own p) (statement p s.now) k w)) }
{
    match s {
        CoreStmt::While { body, .. } | CoreStmt::Do { body, .. } | CoreStmt::For { body, .. } => {
            Focus::Start(body)
        }
        _ => Focus::Next,
    }
}
