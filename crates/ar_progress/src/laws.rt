//! Laws of the definitions. Each function does nothing: its contract is the law, which its proof shows.

ghost use Rattle.ar_progress.specs.Laws.{ChangesAreOfFronts, ClosedByAStop, ClosedByTheLast, ClosersAreFirstOver, CountsAreOfEvents, CountsStay, LastCountsAreReported, LateAfterTheCloser, LateAfterTheCompleter, LateForAReason, NotClosedSinceDry, SettledByTheClose};

/// What an event changes are the phase and the counts of its metric: before, those of the events before it, and after,
/// those of these and it.
pub fn changes_are_of_fronts()
    ensures { ChangesAreOfFronts }
{}

/// The counts of a metric after one of its events stay until its next one; after its last they are those of the report.
#[tactic(auto, using(crate::proofs::Changes::counts_stay, crate::proofs::Changes::last_counts_are_reported))]
pub fn counts_stay()
    ensures until_the_next { CountsStay }
    ensures reported { LastCountsAreReported }
{}

/// A metric has counted no more measurements than its run has events.
pub fn counts_are_of_events()
    ensures { CountsAreOfEvents }
{}

/// An event that closes its run without success is the first after which the count that the reason names exceeds its
/// limit.
pub fn closers_are_first_over()
    ensures { ClosersAreFirstOver }
{}

/// An event that closes its run as a stop is one; after one that closes it as the last metric completes, each metric is
/// complete, and Successful unless it is dry.
pub fn other_closers()
    ensures stop { ClosedByAStop }
    ensures last { ClosedByTheLast }
{}

/// An event that closes no run because its metric is dry leaves the metric complete without success, and the run open.
pub fn not_closed_since_dry()
    ensures { NotClosedSinceDry }
{}

/// An event that is late by its run comes after the event that the reason names, which is the only one that closes the
/// run.
pub fn late_after_the_closer()
    ensures { LateAfterTheCloser }
{}

/// An event that is late by its metric comes after the event that the reason names, which completed the metric.
pub fn late_after_the_completer()
    ensures { LateAfterTheCompleter }
{}

/// A late event is late by its run or by its metric.
pub fn late_for_a_reason()
    ensures { LateForAReason }
{}

/// A metric whose counts decide nothing in the end is one that its run's close made Successful: its own marks had not
/// completed it then.
#[tactic(auto, using(crate::proofs::Closes::settled_by_the_close))]
pub fn settled_by_the_close()
    ensures { SettledByTheClose }
{}
