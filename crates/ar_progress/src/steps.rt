//! What each event of a run's history did to its metric.

ghost use Rattle.std.specs.Prelude.{◌≡◌, ◌+◌, ◌<◌, ◌≤◌, ◌∷◌, ◌++◌, [], IfOk, List, Some, length};
ghost use Rattle.std.specs.List.{AllByRecursion, list_any};
ghost use Rattle.ar_limits.specs.Replay.{ForEachReplay, IsOfMetricBelow, Replays, TakesEvent, most_events};
ghost use Rattle.ar_bundle.specs.Bundle.{events_of, finding_at};
ghost use Rattle.ar_bundle.specs.Lawful.{numbers_of};
ghost use Rattle.ar_bundle.specs.Sound.{IsRun};
ghost use Rattle.ar_progress.specs.Private.Completers.{IsOfMetric, closer_or, known_completer, with_completer};
ghost use Rattle.ar_progress.specs.Steps.{chosen_steps, closer_of, closes, is_chosen, is_chosen_run, is_entry_of, is_of_metric, own_change, metric_after, step_after};

use crate::chosen::Chosen;
use ar_bundle::{Bundle, Entry, RunPart, What};
use ar_limits::{Counts, Effect, Event, Limits, Phase, RunState};
use std::alloc::{AllocError, Global};

/// A metric of a run at some time.
#[derive(Clone, Copy)]
pub struct MetricState {
    pub phase: Phase,
    pub counts: Counts,
}

/// What an event did to its metric.
#[derive(Clone, Copy)]
pub struct Change {
    pub metric: usize,
    pub limits: Limits,
    pub before: MetricState,
    pub after: MetricState,
}

/// An event of a run's history.
#[derive(Clone, Copy)]
pub struct Step {
    pub entry: Entry,
    /// Nothing where it is a stop.
    pub change: Option<Change>,
    /// The event before it that had closed the run, if one had.
    pub closer: Option<u64>,
    /// The event before it that had completed its metric, if one had.
    pub completer: Option<u64>,
}

fn state_of(state: &RunState, metric: usize) -> MetricState
    requires { metric < length state.now.limits }
    ensures { ForEachReplay state.now (λ limits events. metric_after limits events metric ≡ Some result) }
{
    MetricState {
        phase: state.metric_phase(metric),
        counts: state.counts(metric),
    }
}

/// Hands an event to a run, and returns what it did to its metric.
fn apply(state: &mut RunState, limits: &[Limits], event: Event) -> Option<Change>
    requires room { state.old.handed < most_events }
    requires metric { IsOfMetricBelow (length state.old.limits) event }
    requires limits { state.old.limits ≡ limits.now }
    ensures replays { ForEachReplay state.old (λ limits events. Replays limits (events ++ event ∷ []) state.new) }
    ensures change { ForEachReplay state.old (λ limits events. own_change limits events event ≡ result) }
    ensures own { IsOfMetric (length limits.now) result }
    ensures limits { state.new.limits ≡ state.old.limits }
    ensures handed { state.new.handed ≡ state.old.handed + 1 }
{
    let Event::Mark(metric, _) = event else {
        state.apply(event);
        return None;
    };
    let before = state_of(state, metric);
    state.apply(event);
    Some(Change {
        metric,
        limits: limits[metric],
        before,
        after: state_of(state, metric),
    })
}

fn closes(effect: Effect) -> bool
    ensures { result ≡ closes effect }
{
    match effect {
        Effect::Closed(_) => true,
        Effect::Applied | Effect::Late => false,
    }
}

/// The event that closed the run after one event more.
fn closer_after(closer: Option<u64>, entry: Entry) -> Option<u64>
    ensures { result ≡ closer_or closer entry }
{
    match closer {
        Some(number) => Some(number),
        None if closes(entry.effect) => Some(entry.number),
        None => None,
    }
}

/// The event that completed the metric which an event changes, of those that completed each metric.
fn completer_of(completers: &[Option<u64>], change: Option<Change>) -> Option<u64>
    requires { IsOfMetric (length completers.now) change }
    ensures { result ≡ known_completer completers.now change }
{
    completers[change?.metric]
}

/// Keeps the event with a number, if it is the first that leaves its metric complete.
fn keep_completer(completers: &mut Vec<Option<u64>>, change: Option<Change>, number: u64)
    requires { IsOfMetric (length completers.old.items) change }
    ensures { completers.new.items ≡ with_completer completers.old.items change number }
{
    let Some(change) = change else {
        return;
    };
    if change.after.phase.is_complete() {
        completers[change.metric] = completers[change.metric].or(Some(number));
    }
}

fn is_of_metric(metric: usize, change: Option<Change>) -> bool
    ensures { result ≡ is_of_metric metric change }
{
    match change {
        Some(change) => change.metric == metric,
        None => true,
    }
}

fn is_chosen(chosen: Chosen, step: Step) -> bool
    ensures { result ≡ is_chosen chosen step }
{
    match chosen {
        Chosen::All | Chosen::Run(_) => true,
        Chosen::Event(number) => step.entry.number == number,
        Chosen::Metric(metric) => is_of_metric(metric, step.change),
    }
}

/// A run's history, as far as it is asked for.
#[derive(Drop)]
pub struct Trace {
    /// The events that are asked for, each with what it did to its metric.
    pub steps: Vec<Step>,
    /// The event that closed the run, if one did.
    pub closer: Option<u64>,
}

/// The events of a run's history that are asked for, and the one that closed it.
///
/// # Errors
///
/// Out of memory alone.
#[tactic(auto, using(ar_facts::proofs::Lines::is_found, ar_facts::proofs::Replaying::no_entry_left, ar_facts::proofs::Replaying::of_metric, ar_facts::proofs::Replaying::room_left, crate::proofs::Completers::no_completers, crate::proofs::Histories::closer_of_all, crate::proofs::Histories::none_chosen_left))]
pub fn traced(
    alloc: Global,
    bundle: &Bundle,
    chosen: Chosen,
    run: &RunPart,
    entries: &[Entry],
) -> Result<Trace, AllocError>
    requires run { IsRun bundle.now.metrics run.now }
    requires found { AllByRecursion (λ entry. finding_at bundle.now entry.number ≡ Some entry.finding) entries.now }
    requires few { length entries.now ≤ most_events }
    ensures steps { IfOk result
        (λ found. found.steps.items ≡ chosen_steps bundle.now chosen run.now.limits entries.now) }
    ensures closer { IfOk result (λ found. found.closer ≡ closer_of entries.now) }
{
    let limits = run.limits.as_slice();
    let mut state = RunState::new(alloc, limits)?;
    let mut steps = Vec::new(alloc);
    let mut closer = None;
    let mut completers = vec![in alloc; None; limits.len()]?;
    for entry in entries {
        let event = bundle.event(entry.number, entry.finding);
        let change = apply(&mut state, limits, event);
        let step = Step {
            entry: *entry,
            change,
            closer,
            completer: completer_of(&completers, change),
        };
        if is_chosen(chosen, step) {
            steps.push(step)?;
        }
        closer = closer_after(closer, *entry);
        keep_completer(&mut completers, change, entry.number);
    }
    Ok(Trace { steps, closer })
}

fn is_entry_of(bundle: &Bundle, metric: usize, entry: Entry) -> bool
    ensures { result ≡ is_entry_of bundle.now metric entry }
{
    match bundle.entries().get(entry.number as usize) {
        Some(part) => match &part.what {
            What::Measure(own, _) => *own == metric,
            What::Stop => false,
        },
        None => false,
    }
}

/// Whether a history has events of a metric.
#[tactic(auto, using(crate::proofs::Histories::found_of_metric, crate::proofs::Histories::none_of_metric, crate::proofs::Histories::other_metric))]
fn has_metric(bundle: &Bundle, metric: usize, entries: &[Entry]) -> bool
    ensures { result ≡ list_any (is_entry_of bundle.now metric) entries.now }
{
    for entry in entries {
        if is_entry_of(bundle, metric, *entry) {
            return true;
        }
    }
    false
}

/// Whether a run with a history is printed.
pub fn is_chosen_run(bundle: &Bundle, chosen: Chosen, run: usize, entries: &[Entry]) -> bool
    ensures { result ≡ is_chosen_run bundle.now chosen run entries.now }
{
    match chosen {
        Chosen::All => true,
        Chosen::Metric(metric) => has_metric(bundle, metric, entries),
        Chosen::Event(number) => match bundle.entries().get(number as usize) {
            Some(entry) => entry.run == run,
            None => false,
        },
        Chosen::Run(own) => own == run,
    }
}
