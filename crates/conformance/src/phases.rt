//! Calls on limits, events and phases.

use crate::lists::{Item, number_in, read_all};
use ar_limits::{Counts, Effect, Event, Limits, MOST_EVENTS, Mark, Phase, RunState};
use cases_of_values::fault::{CaseFault, Written};
use cases_of_values::members;
use cases_of_values::output::Output;
use serde_json::Value as Json;
use std::alloc::Global;

fn phase_of(name: &str) -> Option<Phase> {
    match name {
        "Pending" => Some(Phase::Pending),
        "Running" => Some(Phase::Running),
        "Successful" => Some(Phase::Successful),
        "Failed" => Some(Phase::Failed),
        "Error" => Some(Phase::Error),
        "Inconclusive" => Some(Phase::Inconclusive),
        _ => None,
    }
}

/// Whether a phase is complete, and whether it is so without success.
pub(crate) fn put_phase(case: &Json, out: &mut Output) -> Written {
    let phase = phase_of(members::text(case, "phase")?).ok_or(CaseFault::Member)?;
    write!(
        out,
        "complete={} unsuccessful={}",
        phase.is_complete(),
        phase.is_unsuccessful()
    );
    Ok(())
}

/// A limit at an index of a metric's list.
fn limit_of(item: &Json, place: usize) -> Option<u32> {
    u32::try_from(number_in(item.get(place))?).ok()
}

/// Whether the text `dry` comes after a metric's limits.
fn is_dry(item: &Json) -> bool {
    item.get(4usize).and_then(Json::as_str) == Some("dry")
}

/// The limits of a metric: of failures, of inconclusive marks, of consecutive errors, the count or null,
/// and `"dry"` where it is.
fn limits_of(item: &Json) -> Option<Limits> {
    let count = match item.get(3usize)? {
        Json::Null => None,
        _ => Some(limit_of(item, 3)?),
    };
    Some(Limits {
        failure: limit_of(item, 0)?,
        inconclusive: limit_of(item, 1)?,
        consecutive_error: limit_of(item, 2)?,
        count,
        dry: is_dry(item),
    })
}

impl Item for Limits {
    fn read(_alloc: Global, json: &Json) -> Result<Limits, CaseFault> {
        limits_of(json).ok_or(CaseFault::Member)
    }
}

fn all_limits(alloc: Global, case: &Json) -> Result<Vec<Limits>, CaseFault> {
    read_all(alloc, members::list(case, "limits")?)
}

pub(crate) fn put_positive(alloc: Global, case: &Json, out: &mut Output) -> Written {
    let limits = all_limits(alloc, case)?;
    write!(out, "{}", Limits::have_positive_counts(&limits));
    Ok(())
}

fn mark_of(name: &str) -> Option<Mark> {
    match name {
        "Successful" => Some(Mark::Successful),
        "Failed" => Some(Mark::Failed),
        "Inconclusive" => Some(Mark::Inconclusive),
        "Error" => Some(Mark::Error),
        _ => None,
    }
}

/// The text `stop`, or a list of a metric's number and a mark.
fn event_of(item: &Json) -> Option<Event> {
    match item.as_str() {
        Some("stop") => Some(Event::Stop),
        Some(_) => None,
        None => mark_event(
            number_in(item.get(0usize))?,
            item.get(1usize).and_then(Json::as_str)?,
        ),
    }
}

fn mark_event(metric: usize, mark: &str) -> Option<Event> {
    Some(Event::Mark(metric, mark_of(mark)?))
}

/// Applies an event, where the run takes one more and has its metric.
fn apply(state: &mut RunState, event: Event) -> Option<Effect> {
    if state.handed() >= MOST_EVENTS {
        return None;
    }
    match event {
        Event::Mark(metric, mark) if metric < state.metrics() => {
            Some(state.apply(Event::Mark(metric, mark)))
        }
        Event::Mark(..) => None,
        Event::Stop => Some(state.apply(Event::Stop)),
    }
}

pub(crate) fn put_effect(out: &mut Output, effect: Effect) {
    match effect {
        Effect::Applied => out.put("applied"),
        Effect::Late => out.put("late"),
        Effect::Closed(phase) => write!(out, "closed {phase:?}"),
    }
}

/// Applies all events, and writes what each did.
fn put_effects(events: &[Json], state: &mut RunState, out: &mut Output) -> Option<()> {
    let mut separator = "";
    for item in events {
        out.put(separator);
        separator = ", ";
        put_effect(out, apply(state, event_of(item)?)?);
    }
    Some(())
}

fn put_metrics(state: &RunState, out: &mut Output) {
    for metric in 0..state.metrics() {
        write!(out, " / metric {:?}", state.metric_phase(metric));
        put_counts(state.counts(metric), out);
    }
}

fn put_counts(counts: Counts, out: &mut Output) {
    write!(out, " successful={}", counts.successful);
    write!(out, " failed={}", counts.failed);
    write!(out, " inconclusive={}", counts.inconclusive);
    write!(out, " error={}", counts.error);
    write!(out, " consecutiveError={}", counts.succession);
}

/// The run of limits before any event.
fn opened(alloc: Global, case: &Json) -> Result<RunState, CaseFault> {
    let limits = all_limits(alloc, case)?;
    if !Limits::have_positive_counts(&limits) {
        return Err(CaseFault::Member);
    }
    Ok(RunState::new(alloc, &limits)?)
}

/// The effect of each event, then the phase of the run, how many events it was handed, and the phase and
/// the counts of each metric.
pub(crate) fn put_phases(alloc: Global, case: &Json, out: &mut Output) -> Written {
    put_run(case, &mut opened(alloc, case)?, out)
}

fn put_run(case: &Json, state: &mut RunState, out: &mut Output) -> Written {
    out.put("[");
    put_effects(members::list(case, "events")?, state, out).ok_or(CaseFault::Member)?;
    write!(out, "] / run {:?} handed={}", state.phase(), state.handed());
    put_metrics(state, out);
    Ok(())
}
