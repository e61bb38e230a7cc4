//! The lines of a report.

ghost use Rattle.std.specs.Prelude.{◌≡◌, ◌≤◌, ◌++◌, IfOk, OnOk, flat_map, length, map, string_bytes};
ghost use Rattle.ar_limits.specs.Replay.{Replays, most_events};
ghost use Rattle.ar_bundle.specs.Sound.{IsRun};
ghost use Rattle.ar_bundle.specs.Bundle.{events_of};
ghost use Rattle.ar_bundle.specs.Finished.{AreFinished, AreStatesOf};
ghost use Rattle.ar_limits.specs.Run.{effects};
ghost use Rattle.ar_facts.specs.Facts.{facts_of_metrics, report_facts, run_facts};
ghost use Rattle.ar_facts.specs.Private.Entries.{AreFound, facts_of_entries};
ghost use Rattle.ar_bundle.specs.Lawful.{AreHistoriesSoFar, numbers_of};
ghost use Rattle.ar_facts.specs.Report.{event_line, metric_line, report_text, run_text};

use ar_bundle::{Bundle, Entry, Finished, Histories, MetricPart, RunPart};
use ar_facts::{Naming, put_event, put_metric, put_run_line};
use ar_limits::{Limits, RunState};
use std::alloc::{AllocError, Global};

/// The lines of a run's metrics, as the run is.
#[tactic(auto, using(ar_facts::proofs::Lines::next_metric, ar_facts::proofs::Lines::no_metric))]
fn put_metrics(
    out: &mut String,
    metrics: &[MetricPart],
    limits: &[Limits],
    state: &RunState,
) -> Result<(), AllocError>
    requires limits { length limits.now ≡ length metrics.now }
    requires metrics { length state.now.limits ≡ length metrics.now }
    ensures { OnOk result (string_bytes out.new ≡ string_bytes out.old
        ++ flat_map metric_line (facts_of_metrics metrics.now limits.now state.now.phases state.now.counts)) }
{
    for (number, metric) in metrics.iter().enumerate() {
        put_metric(
            out,
            Naming::Verbatim,
            metric,
            limits[number],
            state.metric_phase(number),
            state.counts(number),
        )?;
    }
    Ok(())
}

/// The lines of a run's events.
#[tactic(auto, using(ar_facts::proofs::Lines::next_event, ar_facts::proofs::Lines::no_event, ar_facts::proofs::Lines::is_found))]
fn put_events(out: &mut String, bundle: &Bundle, entries: &[Entry]) -> Result<(), AllocError>
    requires { AreFound bundle.now entries.now }
    ensures { OnOk result
        (string_bytes out.new ≡ string_bytes out.old ++ flat_map event_line (facts_of_entries bundle.now entries.now)) }
{
    for entry in entries {
        put_event(out, Naming::Verbatim, bundle, *entry)?;
    }
    Ok(())
}

/// The state of a run after its entries.
#[tactic(auto, using(ar_facts::proofs::Lines::is_found, ar_facts::proofs::Replaying::next_entry, ar_facts::proofs::Replaying::no_entry_left, ar_facts::proofs::Replaying::of_metric, ar_facts::proofs::Replaying::room_left))]
fn replayed(
    alloc: Global,
    bundle: &Bundle,
    run: &RunPart,
    entries: &[Entry],
) -> Result<RunState, AllocError>
    requires run { IsRun bundle.now.metrics run.now }
    requires found { AreFound bundle.now entries.now }
    requires few { length entries.now ≤ most_events }
    ensures { IfOk result (λ state. Replays run.now.limits (events_of bundle.now (numbers_of entries.now)) state) }
{
    let mut state = RunState::new(alloc, run.limits.as_slice())?;
    for entry in entries {
        state.apply(bundle.event(entry.number, entry.finding));
    }
    Ok(state)
}

/// The states that the histories of a bundle's runs lead to.
#[tactic(auto, using(ar_facts::proofs::Runs::has_history, ar_facts::proofs::Runs::run_is_run, ar_facts::proofs::States::no_states, ar_facts::proofs::States::next_state, ar_facts::proofs::States::all_states))]
fn states_of(
    alloc: Global,
    bundle: &Bundle,
    histories: &Histories,
) -> Result<Vec<RunState>, AllocError>
    requires { AreHistoriesSoFar bundle.now histories.now }
    ensures { IfOk result (λ states. AreStatesOf bundle.now histories.now states.items) }
{
    let histories = histories.runs();
    let mut states = Vec::with_capacity(alloc, histories.len())?;
    for (number, run) in bundle.runs().iter().enumerate() {
        states.push(replayed(alloc, bundle, run, histories[number].entries())?)?;
    }
    Ok(states)
}

/// The lines of a run.
#[tactic(auto, using(ar_facts::proofs::Lines::run_is))]
fn put_run(
    out: &mut String,
    bundle: &Bundle,
    run: &RunPart,
    entries: &[Entry],
    state: &RunState,
) -> Result<(), AllocError>
    requires run { IsRun bundle.now.metrics run.now }
    requires found { AreFound bundle.now entries.now }
    requires effects { map (λ entry. entry.effect) entries.now ≡ effects run.now.limits
        (events_of bundle.now (numbers_of entries.now)) }
    requires state { Replays run.now.limits (events_of bundle.now (numbers_of entries.now)) state.now }
    ensures { OnOk result
        (string_bytes out.new
        ≡ string_bytes out.old ++ run_text (run_facts bundle.now run.now (numbers_of entries.now))) }
{
    put_run_line(out, Naming::Verbatim, run, state.phase())?;
    put_metrics(out, bundle.metrics(), run.limits.as_slice(), state)?;
    put_events(out, bundle, entries)
}

/// The report of a bundle's runs by their histories and the states that these lead to.
#[tactic(auto, using(ar_facts::proofs::Runs::has_history, ar_facts::proofs::Runs::next_run, ar_facts::proofs::Runs::no_run, ar_facts::proofs::Runs::run_is_run, ar_facts::proofs::States::state_inside))]
fn report_with(
    alloc: Global,
    bundle: &Bundle,
    histories: &Histories,
    states: &[RunState],
) -> Result<String, AllocError>
    requires so_far { AreHistoriesSoFar bundle.now histories.now }
    requires states { AreStatesOf bundle.now histories.now states.now }
    ensures { IfOk result
        (λ text. string_bytes text ≡ report_text (report_facts bundle.now (map numbers_of histories.now))) }
{
    let mut out = String::new(alloc);
    let histories = histories.runs();
    for (number, run) in bundle.runs().iter().enumerate() {
        let entries = histories[number].entries();
        put_run(&mut out, bundle, run, entries, &states[number])?;
    }
    Ok(out)
}

/// The report of a bundle's runs by their histories, each of which has numbers of its own run, each
/// at most once, with their findings and effects. Its lines are those of `specs/Report`.
///
/// # Errors
///
/// Out of memory alone.
pub fn report(alloc: Global, bundle: &Bundle, histories: &Histories) -> Result<String, AllocError>
    requires { AreHistoriesSoFar bundle.now histories.now }
    ensures { IfOk result
        (λ text. string_bytes text ≡ report_text (report_facts bundle.now (map numbers_of histories.now))) }
{
    let states = states_of(alloc, bundle, histories)?;
    report_with(alloc, bundle, histories, &states)
}

/// The report of a bundle's finished runs, with the lines of [`report`].
///
/// # Errors
///
/// Out of memory alone.
#[tactic(auto, using(ar_bundle::proofs::SoFar::lawful_are_so_far))]
pub fn finished_report(
    alloc: Global,
    bundle: &Bundle,
    finished: &Finished,
) -> Result<String, AllocError>
    requires { AreFinished bundle.now finished.now }
    ensures { IfOk result (λ text. string_bytes text
        ≡ report_text (report_facts bundle.now (map numbers_of finished.now.histories))) }
{
    report_with(alloc, bundle, &finished.histories, &finished.states)
}
