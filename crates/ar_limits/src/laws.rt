//! Laws of the definitions. Each function does nothing: its contract is the law, which its proof shows.
ghost use Rattle.ar_limits.specs.Laws.{OneMetricPhase, OneRunPhase, ClosedForAReason, WithoutDryMetrics, DryMarksDecideNothing, DryMarksCloseWithSuccess, AllDrySucceeds, MetricPhaseStays, RunPhaseStays, LateChangesNothing, OnlyTimelyMatters, ClosedMetricsAreComplete, FailuresFirst, InconclusiveSecond, ErrorsThird, CountLast, OneForEachMetric, EffectsInOrder};

/// A metric has at most one phase: the one that its shortest deciding prefix decides.
pub fn at_most_one_metric_phase()
    ensures { OneMetricPhase }
{}

/// A run has at most one phase: that of its shortest closing prefix, whichever reason to close it
/// has.
pub fn at_most_one_run_phase()
    ensures { OneRunPhase }
{}

/// A run is closed only for one of three reasons, by the shortest prefix of its events that has one: a stop at its end,
/// a metric that isn't dry and is complete without success, or that all metrics are complete.
pub fn closed_for_a_reason()
    ensures { ClosedForAReason }
{}

/// Where no metric is dry, a run that isn't stopped is closed by the phases of its metrics alone.
pub fn without_dry_metrics()
    ensures { WithoutDryMetrics }
{}

/// What a dry metric is judged as changes no run's phase, nor what any event does: two lists of events that
/// differ in the marks of dry metrics alone have the same ones, where these are complete after as many
/// events in both.
pub fn dry_marks_decide_nothing()
    ensures { DryMarksDecideNothing }
{}

/// A mark of a dry metric closes a run only as Successful, where it completes the last metric; and a run
/// whose metrics are all dry closes as Successful.
pub fn dry_metrics_close_with_success()
    ensures marks { DryMarksCloseWithSuccess }
    ensures all { AllDrySucceeds }
{}

/// A metric that is complete keeps its phase, whatever marks follow.
pub fn metric_phase_stays()
    ensures { MetricPhaseStays }
{}

/// A run that is closed keeps its phase, and its metrics theirs with their counts, whatever events
/// follow.
pub fn run_phase_stays()
    ensures { RunPhaseStays }
{}

/// A late event changes no phase and no count.
pub fn late_changes_nothing()
    ensures { LateChangesNothing }
{}

/// Two lists of events that differ in late events alone have the same phases and counts.
pub fn only_timely_matters()
    ensures { OnlyTimelyMatters }
{}

/// After closing no metric is Pending or Running.
pub fn closed_metrics_are_complete()
    ensures { ClosedMetricsAreComplete }
{}

/// The order of the tests: failures before inconclusive marks, these before errors, and the count last.
pub fn limits_before_count()
    ensures failures { FailuresFirst }
    ensures inconclusive { InconclusiveSecond }
    ensures errors { ErrorsThird }
    ensures count { CountLast }
{}

/// There is one phase and one set of counts for each metric.
pub fn one_for_each_metric()
    ensures { OneForEachMetric }
{}

/// The effects of a list are those of the list before, and that of the last event.
pub fn effects_in_order()
    ensures { EffectsInOrder }
{}
