//! Verified code.

ghost use Rattle.std.specs.Prelude.{◌≡◌, ◌≤◌};
ghost use Rattle.ar_value.specs.View.{shape_view};
ghost use Rattle.ar_value.specs.Limits.{most_operands};
ghost use Rattle.ar_op.specs.Code.{IsCode};
ghost use Rattle.ar_safety.specs.Safety.{RunsSafely};
ghost use Rattle.ar_safety.specs.Verdict.{IsVerified};
ghost use Rattle.ar_safety.specs.Bounds.{greatest_budget, verified_of};

use ar_op::code::Code;
use ar_value::shape::Shape;
use ar_value::shared_shape::SharedShape;
use std::marker::Model;

/// The greatest budget that code is accepted with.
pub const GREATEST_BUDGET: u64 = 1_000_000_000;

/// Code that was verified for a shape of the measured value, with what a run may cost at most and
/// how many operands it may have. Contracts see it as the `Verified` of `specs/Bounds`.
#[derive(Drop)]
pub struct Verified {
    code: Code,
    shape: SharedShape,
    budget: u64,
    depth: usize,
}

impl Model for Verified {
    ghost use Rattle.std.specs.Coded.{codes};
    ghost use Rattle.ar_value.specs.contracts.shape.Shape as shape_row;
    ghost use Rattle.ar_value.specs.View.{shape_view};
    ghost use Rattle.ar_op.specs.Code.{IsCode};
    ghost use Rattle.ar_safety.specs.Verdict.{IsVerified};
    ghost use Rattle.ar_safety.specs.Bounds.{Verified as Parts, verified_of};

    ghost Value = { Parts };

    ghost coded = { Prim.hlevel (codes, shape_row.the_row.coded) };

    ghost view = { λ v. verified_of v.code v.shape v.budget v.depth };

    ghost invariant = { λ v. IsVerified v.code (shape_view v.shape) v.budget v.depth × IsCode v.code };
}

impl Verified {
    /// Code with the bounds with which it is verified.
    pub fn new(code: Code, shape: SharedShape, budget: u64, depth: usize) -> Verified
        requires code { IsCode code }
        requires verified { IsVerified code (shape_view shape) budget depth }
        ensures is { result ≡ verified_of code shape budget depth }
        // On each value of the shape it runs to an answer within the budget, is never stuck, and has few
        // operands and open loops.
        ensures safe { RunsSafely result }
    {
        Verified {
            code,
            shape,
            budget,
            depth,
        }
    }

    /// The code, and what is known of it: its bounds, and how it runs on each value of its shape.
    pub fn code(&self) -> &Code
        ensures code { result.now ≡ self.now.code }
        // It was verified with these bounds.
        ensures verified { IsVerified self.now.code (shape_view self.now.shape) self.now.budget self.now.depth }
        // On each value of the shape it runs to an answer within the budget, is never stuck, and has few
        // operands and open loops.
        ensures safe { RunsSafely self.now }
    {
        &self.code
    }

    pub fn shape(&self) -> &Shape
        ensures { result.now ≡ self.now.shape }
    {
        self.shape.get()
    }

    /// What a run costs at most.
    pub fn budget(&self) -> u64
        ensures budget { result ≡ self.now.budget }
        ensures payable { result ≤ greatest_budget }
    {
        self.budget
    }

    /// How many operands a run has at most.
    pub fn depth(&self) -> usize
        ensures depth { result ≡ self.now.depth }
        ensures shallow { result ≤ most_operands }
    {
        self.depth
    }
}
