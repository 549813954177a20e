//! What is left to do, the innermost on top.
ghost use Rattle.std.specs.Prelude.{◌≡◌, ◌∷◌, [], IfOk, IfSome, IfNone, reverse};
ghost use Rattle.c_eval.specs.Frames.{apart, below, frames, from_call, joined};

use crate::frame::Frame;
use crate::kept::{Counts, Kept, Ways};
use c_meaning::{CoreExpr, CoreStmt, FilledPlace};
use lcc_base::Memory;
use objects::Value;
use std::alloc::Global;

/// What is left to do: frames, and apart of them what only some have, each of one kind by itself. So a frame takes 16
/// bytes, and what stands apart of it.
#[derive(Drop)]
pub struct Stack<'a> {
    kept: Vec<Kept<'a>>,
    values: Vec<Value>,
    parts: Vec<&'a [CoreExpr]>,
    statements: Vec<&'a [CoreStmt]>,
    ways: Vec<Ways<'a>>,
    places: Vec<&'a [FilledPlace]>,
    counts: Vec<Counts>,
}

impl<'a> Stack<'a> {
    /// Nothing.
    #[tactic(auto, unfolding(crate::specs::Frames::frames))]
    pub fn new(alloc: Global) -> Self
        ensures { frames result ≡ [] }
    {
        Stack {
            kept: Vec::new(alloc),
            values: Vec::new(alloc),
            parts: Vec::new(alloc),
            statements: Vec::new(alloc),
            ways: Vec::new(alloc),
            places: Vec::new(alloc),
            counts: Vec::new(alloc),
        }
    }

    /// A further frame on top.
    #[inline(always)]
    #[tactic(auto, unfolding(crate::specs::Frames::frames))]
    pub fn push(&mut self, frame: Frame<'a>) -> Result<(), Memory>
        ensures { IfOk result (λ _. frames self.new ≡ frame.entry ∷ frames self.old) }
    {
        let kept = self.part(frame)?;
        self.kept.push(kept)?;
        Ok(())
    }

    /// The frame on top, taken off.
    #[inline(always)]
    #[tactic(auto, unfolding(crate::specs::Frames::frames))]
    pub fn pop(&mut self) -> Option<Frame<'a>>
        ensures some { IfSome result (λ f. frames self.old ≡ f ∷ frames self.new) }
        ensures none { IfNone result (frames self.old ≡ []) }
        ensures empty { IfNone result (frames self.new ≡ []) }
    {
        let kept = self.kept.pop()?;
        Some(self.join(kept))
    }

    /// The frames above the innermost call's, taken off.
    pub fn to_call(&mut self) -> Result<(), Memory>
        ensures { IfOk result (λ _. frames self.new ≡ from_call (frames self.old)) }
    {
        'inside: loop {
            match self.pop() {
                Some(Frame::Activation(call, result, objects, base)) => {
                    return self.push(Frame::Activation(call, result, objects, base));
                }
                Some(_) => {}
                None => return Ok(()),
            }
        }
    }

    /// Puts what stands apart of a frame on top of the others' of its kind, and gives what is left of it.
    #[inline(always)]
    fn part(&mut self, frame: Frame<'a>) -> Result<Kept<'a>, Memory>
        ensures joined { IfOk result (λ k. joined k (apart self.new) ≡ frame.entry) }
        ensures below { IfOk result (λ k. below k (apart self.new) ≡ apart self.old) }
        ensures same { self.new.kept.items ≡ self.old.kept.items }
    {
        match frame {
            Frame::First(e) => Ok(Kept::First(e)),
            Frame::Second(e, value) => {
                self.values.push(value)?;
                Ok(Kept::Second(e))
            }
            Frame::Right(e) => Ok(Kept::Right(e)),
            Frame::Comma(parts) => {
                self.parts.push(parts)?;
                Ok(Kept::Comma)
            }
            Frame::Argument(arguments, n) => {
                self.parts.push(arguments)?;
                Ok(Kept::Argument(n))
            }
            Frame::Passed(e, value) => {
                self.values.push(value)?;
                Ok(Kept::Passed(e))
            }
            Frame::Called(e, value) => {
                self.values.push(value)?;
                Ok(Kept::Called(e))
            }
            Frame::Activation(call, result, objects, base) => {
                if objects > u32::MAX as usize || base > u32::MAX as usize {
                    return Err(Memory);
                }
                let counts = Counts {
                    objects: objects as u32,
                    base: base as u32,
                };
                self.counts.push(counts)?;
                Ok(Kept::Activation(result, call))
            }
            Frame::Drop => Ok(Kept::Drop),
            Frame::Then(statements) => {
                self.statements.push(statements)?;
                Ok(Kept::Then)
            }
            Frame::Catch(statements) => {
                self.statements.push(statements)?;
                Ok(Kept::Catch)
            }
            Frame::Branch(test, then, otherwise) => {
                self.ways.push(Ways { then, otherwise })?;
                Ok(Kept::Branch(test))
            }
            Frame::Initial(s) => Ok(Kept::Initial(s)),
            Frame::Body(s) => Ok(Kept::Body(s)),
            Frame::Last(s) => Ok(Kept::Last(s)),
            Frame::Test(s) => Ok(Kept::Test(s)),
            Frame::Switch(s) => Ok(Kept::Switch(s)),
            Frame::Switched => Ok(Kept::Switched),
            Frame::Return(e) => Ok(Kept::Return(e)),
            Frame::Fill(places, value) => {
                self.values.push(value)?;
                self.places.push(places)?;
                Ok(Kept::Fill)
            }
        }
    }

    /// Takes what stands apart of such a frame off the others', and gives the frame.
    #[inline(always)]
    fn join(&mut self, kept: Kept<'a>) -> Frame<'a>
        ensures joined { result ≡ joined kept.entry (apart self.old) }
        ensures below { apart self.new ≡ below kept.entry (apart self.old) }
        ensures same { self.new.kept.items ≡ self.old.kept.items }
    {
        match kept {
            Kept::First(e) => Frame::First(e),
            Kept::Second(e) => match self.values.pop() {
                Some(value) => Frame::Second(e, value),
                None => Frame::Drop,
            },
            Kept::Right(e) => Frame::Right(e),
            Kept::Comma => match self.parts.pop() {
                Some(parts) => Frame::Comma(parts),
                None => Frame::Drop,
            },
            Kept::Argument(n) => match self.parts.pop() {
                Some(arguments) => Frame::Argument(arguments, n),
                None => Frame::Drop,
            },
            Kept::Passed(e) => match self.values.pop() {
                Some(value) => Frame::Passed(e, value),
                None => Frame::Drop,
            },
            Kept::Called(e) => match self.values.pop() {
                Some(value) => Frame::Called(e, value),
                None => Frame::Drop,
            },
            Kept::Activation(result, call) => match self.counts.pop() {
                Some(counts) => {
                    Frame::Activation(call, result, counts.objects as usize, counts.base as usize)
                }
                None => Frame::Drop,
            },
            Kept::Drop => Frame::Drop,
            Kept::Then => match self.statements.pop() {
                Some(statements) => Frame::Then(statements),
                None => Frame::Drop,
            },
            Kept::Catch => match self.statements.pop() {
                Some(statements) => Frame::Catch(statements),
                None => Frame::Drop,
            },
            Kept::Branch(test) => match self.ways.pop() {
                Some(ways) => Frame::Branch(test, ways.then, ways.otherwise),
                None => Frame::Drop,
            },
            Kept::Initial(s) => Frame::Initial(s),
            Kept::Body(s) => Frame::Body(s),
            Kept::Last(s) => Frame::Last(s),
            Kept::Test(s) => Frame::Test(s),
            Kept::Switch(s) => Frame::Switch(s),
            Kept::Switched => Frame::Switched,
            Kept::Return(e) => Frame::Return(e),
            Kept::Fill => match (self.places.pop(), self.values.pop()) {
                (Some(places), Some(value)) => Frame::Fill(places, value),
                (_, _) => Frame::Drop,
            },
        }
    }
}
