//! Laws of what is shown of an event. Each function does nothing: its contract is the law, which its proof shows.

ghost use Rattle.ar_reason.specs.ReasonLaws.{MisfitIsOfVerdict, VerdictIsByShown};

/// The verdict of a measured value is what the conditions that are shown for it say, by the meaning of their trees.
pub fn verdict_is_by_shown()
    ensures { VerdictIsByShown }
{}

/// A value that its shape refuses is shown with where it doesn't fit, and for the fault of its verdict.
pub fn misfit_is_of_verdict()
    ensures { MisfitIsOfVerdict }
{}
