//! Laws of what is read. A law is the contract of a function that does nothing.

ghost use Rattle.std.specs.Prelude.{◌≡◌, ℕ, List, Ok, Err};
ghost use Rattle.ar_bundle.specs.Bundle.{Bundle};
ghost use Rattle.ar_document.specs.Document.{ReadsInput};
ghost use Rattle.ar_document.specs.declared.error.BundleError.{BundleError};

/// No input is a bundle and refused, too.
#[tactic(auto, using(crate::proofs::OneAnswer::bundle_or_fault))]
pub fn bundle_or_fault()
    ensures { (input : List ℕ) (bundle : Bundle) (error : BundleError) → ReadsInput input (Ok bundle)
        → ReadsInput input (Err error) → ⊥ }
{}

/// An input that is refused is refused for one fault, whatever else is wrong with it.
#[tactic(auto, using(crate::proofs::OneAnswer::same_fault))]
pub fn same_fault()
    ensures { (input : List ℕ) (error other : BundleError) → ReadsInput input (Err error) → ReadsInput input (Err other)
        → error ≡ other }
{}
