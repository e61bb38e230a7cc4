//! Why an event closed its run, or what had made it late.

ghost use Rattle.std.specs.Prelude.{◌≡◌, ◌++◌, OnOk, string_bytes};
ghost use Rattle.ar_facts.specs.Names.{phase_name};
ghost use Rattle.ar_progress.specs.declared.why.Why.TheVariants.{Exceeded, MetricWas};
ghost use Rattle.ar_progress.specs.Why.{why_applied, why_closed, why_late, why_of, why_words};

use crate::excess::{Excess, excess_of, push_excess};
use crate::steps::{Change, Step};
use ar_facts::phase_name;
use ar_limits::{Effect, Phase};
use std::alloc::AllocError;
use std::fmt::Write;

/// Why an event closed its run, why it didn't, or what had made it late.
#[derive(Clone, Copy)]
pub enum Why {
    /// The run was stopped from outside.
    Stopped,
    /// Its metric completed with this phase, since this count exceeded its limit.
    Exceeded(Phase, Excess),
    /// Its metric was the last to complete.
    AllComplete,
    /// Its metric completed with this phase, but is dry.
    Dry(Phase),
    /// The event with this number had closed the run.
    AfterClose(u64),
    /// Its metric was complete with this phase, since the event with the number.
    MetricWas(Phase, Option<u64>),
}

fn why_closed(phase: Phase, change: Option<Change>) -> Why
    ensures { result ≡ why_closed phase change }
{
    let Some(change) = change else {
        return Why::Stopped;
    };
    match excess_of(phase, change.limits, change.after.counts) {
        Some(excess) => Why::Exceeded(phase, excess),
        None => Why::AllComplete,
    }
}

fn why_late(closer: Option<u64>, change: Option<Change>, completer: Option<u64>) -> Option<Why>
    ensures { result ≡ why_late closer change completer }
{
    match (closer, change) {
        (Some(number), _) => Some(Why::AfterClose(number)),
        (None, Some(change)) => Some(Why::MetricWas(change.before.phase, completer)),
        (None, None) => None,
    }
}

fn why_applied(change: Option<Change>) -> Option<Why>
    ensures { result ≡ why_applied change }
{
    let change = change?;
    let phase = change.after.phase;
    if change.limits.dry && phase.is_unsuccessful() {
        Some(Why::Dry(phase))
    } else {
        None
    }
}

/// Why an event closed its run, why it didn't, or what had made it late, where there is a reason to give.
pub fn why_of(step: Step) -> Option<Why>
    ensures { result ≡ why_of step }
{
    match step.entry.effect {
        Effect::Applied => why_applied(step.change),
        Effect::Closed(phase) => Some(why_closed(phase, step.change)),
        Effect::Late => why_late(step.closer, step.change, step.completer),
    }
}

fn push_phase(out: &mut String, before: &str, phase: Phase, after: &str) -> Result<(), AllocError>
    ensures { OnOk result
        (string_bytes out.new ≡ string_bytes out.old ++ (before.now ++ (phase_name phase ++ after.now))) }
{
    out.push_str(before)?;
    out.push_str(phase_name(phase))?;
    out.push_str(after)
}

fn push_exceeded(out: &mut String, phase: Phase, excess: Excess) -> Result<(), AllocError>
    ensures { OnOk result (string_bytes out.new ≡ string_bytes out.old ++ why_words (Exceeded phase excess)) }
{
    push_phase(out, "closed: the metric is ", phase, ": ")?;
    push_excess(out, excess)
}

fn push_metric_was(out: &mut String, phase: Phase, since: Option<u64>) -> Result<(), AllocError>
    ensures { OnOk result (string_bytes out.new ≡ string_bytes out.old ++ why_words (MetricWas phase since)) }
{
    let Some(number) = since else {
        return out.push_str("late: the metric was complete");
    };
    push_phase(out, "late: the metric was ", phase, " since event ")?;
    write!(out, "{number}")
}

/// Appends such a reason in words.
///
/// # Errors
///
/// Out of memory alone.
pub fn push_why(out: &mut String, why: Why) -> Result<(), AllocError>
    ensures { OnOk result (string_bytes out.new ≡ string_bytes out.old ++ why_words why) }
{
    match why {
        Why::Stopped => out.push_str("closed: the run was stopped"),
        Why::Exceeded(phase, excess) => push_exceeded(out, phase, excess),
        Why::AllComplete => {
            out.push_str("closed: each metric is Successful, or dry and complete")
        }
        Why::Dry(phase) => push_phase(out, "not closed: the metric is ", phase, ", but dry"),
        Why::AfterClose(number) => write!(out, "late: event {number} had closed the run"),
        Why::MetricWas(phase, since) => push_metric_was(out, phase, since),
    }
}
