//! Laws of histories. A law is the contract of a function that does nothing.

ghost use Rattle.std.specs.Prelude.{List};
ghost use Rattle.ar_bundle.specs.Bundle.{Bundle};
ghost use Rattle.ar_bundle.specs.Lawful.{AreHistoriesSoFar, AreLawful};
ghost use Rattle.ar_bundle.specs.declared.history.Entry.{Entry};

/// Lawful histories have each number at most once.
#[tactic(auto, using(crate::proofs::SoFar::lawful_are_so_far))]
pub fn lawful_are_so_far()
    ensures { (bundle : Bundle) (histories : List (List Entry)) → AreLawful bundle histories
        → AreHistoriesSoFar bundle histories }
{}
