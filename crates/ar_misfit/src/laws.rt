//! Laws of misfits. A law is the contract of a function that does nothing.

ghost use Rattle.std.specs.Prelude.{◌≡◌, Err, None, Ok, Some};
ghost use Rattle.serde_json.specs.Data.{Data};
ghost use Rattle.ar_value.specs.Shape.{Shape};
ghost use Rattle.ar_value.specs.Value.{Value};
ghost use Rattle.ar_json.specs.Reading.{read};
ghost use Rattle.ar_misfit.specs.Misfit.{Misfit, found_at, misfit};

/// Reading refuses a value that has a misfit, by the same name, and gives a value where there is none.
#[tactic(auto, using(crate::proofs::Faults::misfit_refused, crate::proofs::Faults::no_misfit_read))]
pub fn misfits_are_faults()
    ensures refused { (shape : Shape) (json : Data) (found : Misfit)
        → misfit shape json ≡ Some found → read shape json ≡ Err found.fault }
    ensures given { (shape : Shape) (json : Data)
        → misfit shape json ≡ None → (value : Value) × (read shape json ≡ Ok value) }
{}

/// The path of a misfit leads to what was found, or to no value where a field is missing.
#[tactic(auto, using(crate::proofs::Paths::path_leads))]
pub fn paths_lead_to_what_was_found()
    ensures { (shape : Shape) (json : Data) (found : Misfit)
        → misfit shape json ≡ Some found → found_at found.path json ≡ found.found }
{}
