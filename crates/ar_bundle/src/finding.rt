//! The result of a number of a bundle.

ghost use Rattle.std.specs.Prelude.{◌≡◌};
ghost use Rattle.ar_bundle.specs.Bundle.{verdict_mark};

use ar_judge::Verdict;
use ar_limits::Mark;

/// The result of an entry of a bundle.
#[derive(Clone, Copy)]
pub enum Finding {
    /// The verdict of a measurement.
    Judged(Verdict),
    /// The run is stopped from outside.
    Stop,
}

/// What a verdict counts as.
pub fn mark_of(verdict: Verdict) -> Mark
    ensures { result ≡ verdict_mark verdict }
{
    match verdict {
        Verdict::Successful => Mark::Successful,
        Verdict::Failed => Mark::Failed,
        Verdict::Inconclusive => Mark::Inconclusive,
        Verdict::Error(_) => Mark::Error,
    }
}
