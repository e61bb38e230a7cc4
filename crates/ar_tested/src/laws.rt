//! Laws of runs. A law is the contract of a function that does nothing.

ghost use Rattle.std.specs.Prelude.{◌≡◌, ℕ};
ghost use Rattle.ar_value.specs.Value.{Value};
ghost use Rattle.ar_op.specs.Code.{Code};
ghost use Rattle.ar_tested.specs.Run.{EndsAs};
ghost use Rattle.ar_tested.specs.declared.outcome.Ended.{Ended};

/// A run ends in one way only.
#[tactic(auto, using(crate::proofs::Ends::one_end))]
pub fn one_end()
    ensures { (code : Code) (value : Value) (fuel : ℕ) (first second : Ended) → EndsAs code value fuel first
        → EndsAs code value fuel second → first ≡ second }
{}
