//! Laws of receipts, and of the core: what holds in each state that a list of steps leads to, whoever makes
//! them and in whatever order. A law is the contract of a function that does nothing.

ghost use Rattle.std.specs.Prelude.{◌≡◌, ◌⊎◌, ℕ, Bool, List, [], ◌∷◌, true, false};
ghost use Rattle.ar_bundle.specs.declared.history.Entry.{Entry};
ghost use Rattle.std.specs.List.{AllByRecursion};
ghost use Rattle.ar_board.specs.Lost.{AreAsMany};
ghost use Rattle.ar_board.specs.Receipts.{IsElsewhere, IsMet, IsMissing, IsOutOfOrder};
ghost use Rattle.ar_board.specs.declared.cell.receipt.Receipt.{Receipt};
ghost use Rattle.ar_bundle.specs.Sound.{IsBundle};
ghost use Rattle.ar_bundle.specs.Bundle.{Bundle};
ghost use Rattle.ar_board.specs.Core.{HasEachOnce, IsAtRest, after_steps, is_parked, lacking, opening};
ghost use Rattle.ar_bundle.specs.Lawful.{AllRise, AreHistories, AreLawful};
ghost use Rattle.ar_board.specs.declared.core_steps.CoreStep.{CoreStep};

/// A receipt that histories don't meet has one of three causes at least, and one that they meet has
/// none.
pub fn receipts_are_met_or_not()
    ensures met_or_not { (histories : List (List Entry)) (earlier : List Receipt) (receipt : Receipt)
        → IsMet histories earlier receipt
        ⊎ (IsMissing histories receipt ⊎ (IsElsewhere histories receipt ⊎ IsOutOfOrder earlier receipt)) }
    ensures not_both { (histories : List (List Entry)) (earlier : List Receipt) (receipt : Receipt)
        → IsMet histories earlier receipt
        → IsMissing histories receipt ⊎ (IsElsewhere histories receipt ⊎ IsOutOfOrder earlier receipt) → ⊥ }
{}

/// Where no seat has a receipt, no history has an entry, if there are as many under each lock. A new board's seats
/// have none, and closing gives as many entries as receipts, so a board that is closed as it was made has empty
/// histories.
#[tactic(auto, using(crate::proofs::Unposted::nothing_stored))]
pub fn no_receipts_no_entries()
    ensures { (histories : List (List Entry)) (receipts : List (List Receipt))
        → AllByRecursion (λ own. own ≡ []) receipts → AreAsMany receipts histories
        → AllByRecursion (λ history. history ≡ []) histories }
{}

/// Each number of the bundle is just once in what is still to put, the queue, the hands, the
/// parked numbers and the histories.
#[tactic(auto, using(crate::proofs::CoreLaws::each_once))]
pub fn each_number_once()
    ensures { (bundle : Bundle) (workers places : ℕ) (ordered : Bool) (steps : List CoreStep) → IsBundle bundle
        → HasEachOnce bundle (after_steps bundle places ordered (opening bundle workers) steps) }
{}

/// Each run's history has its own numbers alone, each with its finding and the effect that it has
/// there.
#[tactic(auto, using(crate::proofs::CoreLaws::histories_of_runs))]
pub fn histories_are_of_runs()
    ensures { (bundle : Bundle) (workers places : ℕ) (ordered : Bool) (steps : List CoreStep) → IsBundle bundle
        → AreHistories bundle 0 bundle.runs
        (after_steps bundle places ordered (opening bundle workers) steps).histories }
{}

/// In an ordered core the numbers rise in each history.
#[tactic(auto, using(crate::proofs::CoreLaws::histories_rise))]
pub fn ordered_histories_rise()
    ensures { (bundle : Bundle) (workers places : ℕ) (steps : List CoreStep) → IsBundle bundle
        → AllRise (after_steps bundle places true (opening bundle workers) steps).histories }
{}

/// In an ordered core the least number that a run's history lacks isn't parked: a parked number waits for a lower one
/// of its run.
pub fn parked_numbers_wait()
    ensures { (bundle : Bundle) (workers places run number : ℕ) (others : List ℕ) (steps : List CoreStep)
        → IsBundle bundle
        → lacking bundle (after_steps bundle places true (opening bundle workers) steps) run ≡ number ∷ others
        → is_parked (after_steps bundle places true (opening bundle workers) steps) number ≡ false }
{}

/// Where nothing is left to put, to take or to post, and nothing is parked, the histories are lawful.
#[tactic(auto, using(crate::proofs::CoreLaws::at_rest))]
pub fn lawful_at_rest()
    ensures { (bundle : Bundle) (workers places : ℕ) (ordered : Bool) (steps : List CoreStep) → IsBundle bundle
        → IsAtRest bundle (after_steps bundle places ordered (opening bundle workers) steps)
        → AreLawful bundle (after_steps bundle places ordered (opening bundle workers) steps).histories }
{}
