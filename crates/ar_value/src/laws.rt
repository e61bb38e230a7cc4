//! Laws of kinds. A law is the contract of a function that does nothing.

ghost use Rattle.std.specs.Prelude.{◌≡◌, ◌||◌, Some, true};
ghost use Rattle.ar_value.specs.Kind.{Kind, fits_kind, merge};
ghost use Rattle.ar_value.specs.Value.{Value};

/// What has the one kind or the other has the merge of the two.
#[tactic(auto, using(crate::proofs::Merges::merge_has_both))]
pub fn merge_has_both()
    ensures { (left right merged : Kind) (value : Value) → merge left right ≡ Some merged
        → (fits_kind value left || fits_kind value right) ≡ true → fits_kind value merged ≡ true }
{}

/// A kind with itself is that kind.
#[tactic(auto, using(crate::proofs::Merges::merge_with_itself))]
pub fn merge_with_itself()
    ensures { (kind : Kind) → merge kind kind ≡ Some kind }
{}

/// The merge of two kinds doesn't depend on their order.
#[tactic(auto, using(crate::proofs::Merges::merge_either_way))]
pub fn merge_either_way()
    ensures { (left right : Kind) → merge left right ≡ merge right left }
{}
