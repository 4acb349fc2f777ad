//! What is open while a formula is read.
ghost use Rattle.formula_syntax.specs.Parser.{depth_of};
ghost use Rattle.formula_syntax.specs.Frames.{frames_of};
ghost use Rattle.std.specs.Prelude.{◌≡◌, ◌≤◌, [], ◌∷◌, OnOk, MatchOption, IsTrue, ◌↔◌};

use formula_trees::{BinaryOperator, Expr, Span, UnaryOperator};
use std::alloc::{AllocError, Global};

/// A name that was read, of itself or of a member.
#[derive(Drop)]
pub enum Callee {
    Free(Span),
    Of(Expr, Span),
}

/// What is open.
#[derive(Drop)]
pub enum Frame {
    Group,
    Call(Callee, Vec<Expr>),
    Items(Span, Vec<Expr>),
    Unary(UnaryOperator, Span),
    Binary(BinaryOperator, Span, Expr),
    Question(Span, Expr),
    Colon(Span, Expr, Expr),
}

/// All that is open. Contracts see it as a list, the last one first.
#[derive(Drop)]
pub struct Stack {
    frames: Vec<Frame>,
    depth: usize,
    ghost counted: { depth ≡ depth_of (frames_of frames.items) },
}

impl Frame {
    ghost use Rattle.formula_syntax.specs.Frames.{frame_of};
    ghost use Rattle.formula_syntax.specs.Parser.{depth_of};

    // The number of marks of a frame.
    fn depth(&self) -> usize
        ensures at_most_one { result ≤ 1 }
        ensures value { result ≡ depth_of (frame_of self.now ∷ []) }
    {
        match self {
            Frame::Binary(_, _, _) => 0,
            _ => 1,
        }
    }
}

impl Stack {
    ghost use Rattle.formula_syntax.specs.Stacks.{stack_of};
    ghost use Rattle.formula_syntax.specs.Frames.{frame_of, IsLast};

    /// Nothing is open.
    pub fn new(alloc: Global) -> Stack
        ensures { stack_of result ≡ [] }
    {
        Stack {
            frames: Vec::new(alloc),
            depth: 0,
        }
    }

    /// Opens one more.
    #[tactic(auto, using(crate::proofs::Depths::depth_frames))]
    pub fn push(&mut self, frame: Frame) -> Result<(), AllocError>
        ensures { OnOk result (stack_of self.new ≡ frame_of frame ∷ stack_of self.old) }
    {
        let marks = frame.depth();
        self.frames.push(frame)?;
        let _count = self.frames.len();
        self.depth += marks;
        Ok(())
    }

    /// Takes the last one off.
    pub fn pop(&mut self) -> Option<Frame>
        ensures { MatchOption result ((stack_of self.old ≡ []) × (stack_of self.new ≡ [])) (λ f. stack_of self.old ≡ frame_of f ∷ stack_of self.new) }
    {
        let frame = self.frames.pop()?;
        self.depth -= frame.depth();
        Some(frame)
    }

    /// The last one, which stays open.
    pub fn last(&self) -> Option<&Frame>
        ensures { MatchOption result (stack_of self.now ≡ []) (λ f. IsLast (frame_of f.now) (stack_of self.now)) }
    {
        self.frames.last()
    }

    /// How many marks are open.
    pub fn depth(&self) -> usize
        ensures { result ≡ depth_of (stack_of self.now) }
    {
        self.depth
    }

    /// Whether nothing is open.
    pub fn is_empty(&self) -> bool
        ensures { IsTrue result ↔ (stack_of self.now ≡ []) }
    {
        self.frames.is_empty()
    }
}
