//! Laws of verdicts. A law is the contract of a function that does nothing.

ghost use Rattle.std.specs.Prelude.{◌≡◌, ◌⊎◌, ℕ};
ghost use Rattle.ar_value.specs.Shape.{Shape};
ghost use Rattle.ar_op.specs.Code.{Code};
ghost use Rattle.ar_safety.specs.Verdict.{IsFault, IsVerified};
ghost use Rattle.ar_safety.specs.declared.error.Reason.{Reason};

/// All code is verified for a shape, or has a fault.
pub fn some_verdict()
    ensures { (code : Code) (shape : Shape) → ((budget : ℕ) × ((depth : ℕ) × IsVerified code shape budget depth))
        ⊎ ((index : ℕ) × ((reason : Reason) × IsFault code shape index reason)) }
{}

/// No code is both verified for a shape and at fault.
#[tactic(auto, using(crate::proofs::OneVerdict::one_verdict))]
pub fn one_verdict()
    ensures { (code : Code) (shape : Shape) (budget depth index : ℕ) (reason : Reason)
        → IsVerified code shape budget depth
        → IsFault code shape index reason → ⊥ }
{}

/// Verified code has one budget and one depth: those of the code and the shape alone.
#[tactic(auto, using(crate::proofs::OneVerdict::same_bounds))]
pub fn same_bounds()
    ensures { (code : Code) (shape : Shape) (budget depth other_budget other_depth : ℕ)
        → IsVerified code shape budget depth
        → IsVerified code shape other_budget other_depth → (budget ≡ other_budget) × (depth ≡ other_depth) }
{}

/// Code that isn't verified has one fault, at one operation: the first that the passes meet.
#[tactic(auto, using(crate::proofs::OneVerdict::same_fault))]
pub fn same_fault()
    ensures { (code : Code) (shape : Shape) (index other_index : ℕ) (reason other_reason : Reason)
        → IsFault code shape index reason
        → IsFault code shape other_index other_reason → (index ≡ other_index) × (reason ≡ other_reason) }
{}
