//! What a metric waits for, and what a run does.

ghost use Rattle.std.specs.Prelude.{◌≡◌, ◌++◌, IfOk, OnOk, length, option_map, string_bytes};
ghost use Rattle.ar_facts.specs.Facts.{facts_of_metrics, metric_facts};
ghost use Rattle.ar_progress.specs.Waiting.{progress_of, progress_text, run_waits_for, separated, waiting_text, waits_for, with_metric};

use crate::counts::measured;
use ar_bundle::MetricPart;
use ar_limits::{Counts, Limits, Phase, RunState};
use ar_quote::push_name;
use std::alloc::{AllocError, Global};
use std::fmt::Write;

// ---- a metric

/// How many measurements of a metric count so far, next to its `count`.
#[derive(Clone, Copy)]
pub struct Progress {
    /// All but errors. The sum may have more than 64 bits.
    pub measured: u128,
    pub count: Option<u32>,
}

/// How far a metric with these counts is.
pub fn progress_of(limits: Limits, counts: Counts) -> Progress
    ensures { result ≡ progress_of limits counts }
{
    Progress {
        measured: measured(counts),
        count: limits.count,
    }
}

/// How far a metric is that isn't complete, and so waits for more.
pub fn waits_for(phase: Phase, limits: Limits, counts: Counts) -> Option<Progress>
    ensures { result ≡ waits_for phase limits counts }
{
    if phase.is_complete() {
        None
    } else {
        Some(progress_of(limits, counts))
    }
}

/// Appends how far a metric is.
#[tactic(auto, unfolding(crate::specs::Waiting::progress_text))]
pub(crate) fn push_progress(out: &mut String, progress: Progress) -> Result<(), AllocError>
    ensures { OnOk result (string_bytes out.new ≡ string_bytes out.old ++ progress_text progress) }
{
    let Progress { measured, count } = progress;
    match count {
        Some(count) => write!(out, "{measured} of count {count}"),
        None => write!(out, "{measured} measured, no count"),
    }
}

/// Appends what a metric waits for that is so far.
///
/// # Errors
///
/// Out of memory alone.
#[tactic(auto, unfolding(crate::specs::Waiting::waiting_text))]
pub fn push_waiting(out: &mut String, progress: Progress) -> Result<(), AllocError>
    ensures { OnOk result (string_bytes out.new ≡ string_bytes out.old ++ waiting_text progress) }
{
    push_progress(out, progress)?;
    match progress.count {
        Some(_) => Ok(()),
        None => out.push_str(": until a limit is exceeded or the run is closed"),
    }
}

// ---- a run

/// Appends what separates others from one more.
fn push_separator(out: &mut String) -> Result<(), AllocError>
    ensures { OnOk result (string_bytes out.new ≡ separated (string_bytes out.old)) }
{
    if out.is_empty() {
        return Ok(());
    }
    out.push_str("; ")
}

/// Appends a metric after others, if it isn't complete.
#[tactic(auto, unfolding(crate::specs::Waiting::waiting_metric))]
fn push_waiting_metric(
    out: &mut String,
    metric: &MetricPart,
    limits: Limits,
    phase: Phase,
    counts: Counts,
) -> Result<(), AllocError>
    ensures { OnOk result (string_bytes out.new
        ≡ with_metric (string_bytes out.old) (metric_facts metric.now limits phase counts)) }
{
    if phase.is_complete() {
        return Ok(());
    }
    push_separator(out)?;
    push_name(out, metric.name.as_str())?;
    out.push_str(" ")?;
    push_progress(out, progress_of(limits, counts))
}

/// What a run waits for, if it isn't closed.
///
/// # Errors
///
/// Out of memory alone.
#[tactic(auto, using(crate::proofs::Waits::next_wait, crate::proofs::Waits::no_wait_left))]
pub fn run_waits_for(
    alloc: Global,
    metrics: &[MetricPart],
    limits: &[Limits],
    state: &RunState,
) -> Result<Option<String>, AllocError>
    requires limits { length limits.now ≡ length metrics.now }
    requires metrics { length state.now.limits ≡ length metrics.now }
    ensures { IfOk result (λ words. option_map string_bytes words ≡ run_waits_for state.now.phase
        (facts_of_metrics metrics.now limits.now state.now.phases state.now.counts)) }
{
    if state.phase().is_complete() {
        return Ok(None);
    }
    let mut words = String::new(alloc);
    for (number, metric) in metrics.iter().enumerate() {
        let (phase, counts) = (state.metric_phase(number), state.counts(number));
        push_waiting_metric(&mut words, metric, limits[number], phase, counts)?;
    }
    if words.is_empty() {
        return Ok(None);
    }
    Ok(Some(words))
}
