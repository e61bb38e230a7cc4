//! Laws of limits. A law is the contract of a function that does nothing.

ghost use Rattle.std.specs.Prelude.{◌≡◌, Ok};
ghost use Rattle.ar_value.specs.Shape.{Shape};
ghost use Rattle.ar_tree.specs.Expression.{Expression};
ghost use Rattle.ar_tree.specs.Limits.{InLimits, WrittenInLimits};
ghost use Rattle.ar_tree.specs.Typed.{Typed};
ghost use Rattle.ar_check.specs.Check.{checked};

/// A checked condition is within limits where its tree as written is.
#[tactic(auto, using(crate::proofs::Checked::checked_in_limits))]
pub fn checked_is_in_limits()
    ensures { (shape : Shape) (tree : Expression) (condition : Typed) → checked shape tree ≡ Ok condition
        → WrittenInLimits tree → InLimits condition }
{}
