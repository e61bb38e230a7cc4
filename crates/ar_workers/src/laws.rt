//! A law of lost numbers. A law is the contract of a function that does nothing.

ghost use Rattle.std.specs.Prelude.{ℕ, List, map};
ghost use Rattle.ar_bundle.specs.Bundle.{Bundle};
ghost use Rattle.ar_board.specs.declared.lost.Lost.{Lost};
ghost use Rattle.ar_workers.specs.Joined.{IsDoubleOrUnmet, IsShown};

/// A number that is lost is a double, or a receipt for it isn't met.
#[tactic(auto, using(crate::proofs::Lost::double_or_unmet))]
pub fn lost_is_double_or_unmet()
    ensures { (bundle : Bundle) (lost : Lost) (doubles : List ℕ) → IsShown bundle lost doubles
        → IsDoubleOrUnmet lost.number lost.histories (map (λ own. own.items) lost.receipts.items) doubles }
{}
