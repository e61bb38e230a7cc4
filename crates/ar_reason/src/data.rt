//! Reasons as one JSON object.

ghost use Rattle.std.specs.Prelude.{◌≡◌, ◌++◌, ◌≤◌, IfOk, OnOk, Some, codes, flat_map, length, map, option_map, slice_get, string_bytes};
ghost use Rattle.std.specs.List.{AllByRecursion};
ghost use Rattle.std.specs.Option.{option_map_or};
ghost use Rattle.serde_json.specs.Data.{null};
ghost use Rattle.serde_json.specs.View.{view};
ghost use Rattle.ar_value.specs.View.{value_view};
ghost use Rattle.ar_limits.specs.Replay.{Replays, most_events};
ghost use Rattle.ar_limits.specs.declared.phase.Phase.{Phase};
ghost use Rattle.ar_bundle.specs.Bundle.{events_of, finding_at};
ghost use Rattle.ar_bundle.specs.Finished.{AreFinished};
ghost use Rattle.ar_bundle.specs.Lawful.{IsFound, numbers_of};
ghost use Rattle.ar_bundle.specs.Sound.{IsRun};
ghost use Rattle.ar_judge.specs.Verdict.{sample_view};
ghost use Rattle.ar_facts.specs.Facts.{event_facts, facts_of_metrics, metric_facts};
ghost use Rattle.ar_object.specs.Line.{IsJsonLine};
ghost use Rattle.ar_object.specs.Object.{array_of};
ghost use Rattle.ar_object.specs.Written.{AddsMember, AddsValue, AddsValues};
ghost use Rattle.ar_progress.specs.Why.{why_of};
ghost use Rattle.ar_show.specs.Values.{shown_value};
ghost use Rattle.ar_reason.specs.Reason.{conditions_by, conditions_of, lacks_conditions, reason_of, reason_with, reasons_of, run_reasons};
ghost use Rattle.ar_evaluation.specs.EvaluatedData.{evaluated_data};
ghost use Rattle.ar_reason.specs.ReasonData.{awaited, awaited_data, change_data, given_error, given_misfit, given_shown, given_value, measured_data, progress_data, reason_data, reasons_data, run_reasons_data, run_waits_data, settled_data, value_pointer, waiting_data};
ghost use Rattle.ar_reason.specs.Views.{given_view};
ghost use Rattle.ar_reason.specs.Private.Found.{AreFoundSteps};
ghost use Rattle.ar_evaluation.specs.Private.Trees.{trees_of, judge_trees_view};
ghost use Rattle.ar_reason.specs.Private.Trees.{run_trees};

use crate::given::{Given, given_of};
use crate::lines::{judge_at, lacks_conditions};
use crate::why_data::put_why;
use ar_bundle::{Bundle, Entry, Finished, MetricPart, RunPart, What};
use ar_evaluation::{JudgeTrees, trees_at, trees_of, write_conditions};
use ar_exact::{exact_of, put_exact};
use ar_facts::{phase_name, write_counts, write_event, write_limits, write_metric};
use ar_judge::{Judge, Sample};
use ar_limits::{Counts, Limits, Phase, RunState};
use ar_machine::operand::OperandRef;
use ar_machine::operand::borrowed::value_ref;
use ar_misfit::write_misfit;
use ar_object::JsonText;
use ar_progress::{
    Change, Chosen, Progress, Settled, Step, is_chosen_run, progress_of, settled_by, traced,
    waits_for, why_of,
};
use ar_show::push_value;
use ar_value::value::Value;
use serde_json::Value as Json;
use std::alloc::{AllocError, Global};
use std::fmt::Write;

/// The version of the form of the object.
const FORM: u64 = 2;

// ---- events

fn write_judged(
    alloc: Global,
    json: &mut JsonText,
    judge: Option<&Judge>,
    trees: Option<&JudgeTrees>,
    sample: &Sample,
) -> Result<(), AllocError>
    requires { option_map judge_trees_view (option_map (λ trees. trees.now) trees)
        ≡ option_map trees_of (option_map (λ judge. judge.now) judge) }
    ensures { OnOk result (AddsValues (map evaluated_data
        (conditions_by (option_map (λ judge. judge.now) judge.entry) (sample_view sample.now)))
        json.old.written json.new.written) }
{
    match (judge, trees, sample) {
        (Some(judge), Some(trees), Sample::Measured(value)) => {
            write_conditions(alloc, json, judge, trees, value)
        }
        (_, _, Sample::Measured(_) | Sample::Misfit(_) | Sample::Provider) => Ok(()),
    }
}

fn write_evaluated(
    alloc: Global,
    json: &mut JsonText,
    bundle: &Bundle,
    run: usize,
    trees: &[JudgeTrees],
    what: &What,
) -> Result<(), AllocError>
    requires { map judge_trees_view trees.now ≡ run_trees bundle.now run }
    ensures { OnOk result (AddsValues (map evaluated_data (conditions_of bundle.now run what.now))
        json.old.written json.new.written) }
{
    match what {
        What::Measure(metric, sample) => {
            let judge = judge_at(bundle, run, *metric);
            write_judged(alloc, json, judge, trees_at(trees, *metric), sample)
        }
        What::Stop => Ok(()),
    }
}

/// Writes the text of a provider's error, or null.
fn put_error(json: &mut JsonText, given: &Given<'_>)
    ensures { AddsMember (codes "error") (given_error (given_view given.now)) json.old.written json.new.written }
{
    match given {
        Given::Error(text) => json.put_text("error", text),
        Given::Nothing | Given::Misfit(_) | Given::Value(_) => json.put_null("error"),
    }
}

/// The pointer to the value of a measurement.
fn value_pointer(alloc: Global, number: u64) -> Result<String, AllocError>
    ensures { IfOk result (λ pointer. string_bytes pointer ≡ value_pointer number) }
{
    let mut pointer = String::new(alloc);
    write!(pointer, "/measurements/{number}/value")?;
    Ok(pointer)
}

/// Writes where a measured value doesn't fit its shape, or null.
fn put_misfit(
    alloc: Global,
    json: &mut JsonText,
    number: u64,
    given: &Given<'_>,
) -> Result<(), AllocError>
    ensures { OnOk result (AddsMember (codes "misfit") (given_misfit number (given_view given.now))
        json.old.written json.new.written) }
{
    let Given::Misfit(misfit) = given else {
        json.put_null("misfit");
        return Ok(());
    };
    let pointer = value_pointer(alloc, number)?;
    json.put_key("misfit");
    write_misfit(alloc, json, &pointer, misfit)
}

fn value_text(alloc: Global, value: &Value) -> Result<String, AllocError>
    ensures { IfOk result (λ text. string_bytes text ≡ shown_value (value_view value.now)) }
{
    let mut text = String::new(alloc);
    push_value(&mut text, OperandRef::Borrowed(value_ref(value)))?;
    Ok(text)
}

/// Writes a measured value as lines show it, or null.
fn put_shown(alloc: Global, json: &mut JsonText, given: &Given<'_>) -> Result<(), AllocError>
    ensures { OnOk result (AddsMember (codes "shown") (given_shown (given_view given.now))
        json.old.written json.new.written) }
{
    let Given::Value(value) = given else {
        json.put_null("shown");
        return Ok(());
    };
    let text = value_text(alloc, value)?;
    json.put_text("shown", &text);
    Ok(())
}

/// Writes a measured value where JSON has it, or null.
fn put_value(alloc: Global, json: &mut JsonText, given: &Given<'_>) -> Result<(), AllocError>
    ensures { OnOk result (AddsMember (codes "value") (given_value (given_view given.now))
        json.old.written json.new.written) }
{
    let Given::Value(value) = given else {
        json.put_null("value");
        return Ok(());
    };
    let exact = exact_of(alloc, OperandRef::Borrowed(value_ref(value)))?;
    put_exact(json, "value", &exact);
    Ok(())
}

fn write_change(json: &mut JsonText, change: Change)
    ensures { AddsValue (change_data change) json.old.written json.new.written }
{
    json.begin_object();
    json.put_key("after");
    write_counts(json, change.after.counts);
    json.put_key("before");
    write_counts(json, change.before.counts);
    json.put_key("limits");
    write_limits(json, change.limits);
    json.end_object()
}

/// Writes the counts of an event's metric before and after it, or null for a stop.
fn put_change(json: &mut JsonText, change: Option<Change>)
    ensures { AddsMember (codes "counts") (option_map_or change_data change null) json.old.written json.new.written }
{
    let Some(change) = change else {
        return json.put_null("counts");
    };
    json.put_key("counts");
    write_change(json, change)
}

/// Writes what led to an event of a run, for which the provider gave this.
fn write_reason_of(
    alloc: Global,
    json: &mut JsonText,
    bundle: &Bundle,
    run: usize,
    trees: &[JudgeTrees],
    step: Step,
    what: &What,
    given: &Given<'_>,
) -> Result<(), AllocError>
    requires found { finding_at bundle.now step.entry.number ≡ Some step.entry.finding }
    requires trees { map judge_trees_view trees.now ≡ run_trees bundle.now run }
    ensures { OnOk result (AddsValue (reason_data (reason_with
        (event_facts bundle.now step.entry.number step.entry.effect) (given_view given.now)
        (conditions_of bundle.now run what.now) (lacks_conditions bundle.now run what.now) step))
        json.old.written json.new.written) }
{
    json.begin_object();
    json.begin_list("conditions");
    write_evaluated(alloc, json, bundle, run, trees, what)?;
    json.end_list();
    put_change(json, step.change);
    put_error(json, given);
    json.put_key("event");
    write_event(json, bundle, step.entry);
    put_misfit(alloc, json, step.entry.number, given)?;
    json.put_flag("noCondition", lacks_conditions(bundle, run, what));
    put_why(json, why_of(step));
    put_shown(alloc, json, given)?;
    put_value(alloc, json, given)?;
    json.end_object();
    Ok(())
}

#[tactic(auto, using(ar_facts::proofs::Lines::found_inside))]
fn write_reason(
    alloc: Global,
    json: &mut JsonText,
    document: &Json,
    bundle: &Bundle,
    run: usize,
    trees: &[JudgeTrees],
    step: Step,
) -> Result<(), AllocError>
    requires found { IsFound bundle.now run step.entry }
    requires trees { map judge_trees_view trees.now ≡ run_trees bundle.now run }
    ensures { OnOk result (AddsValue (reason_data (reason_of (view document.now) bundle.now step))
        json.old.written json.new.written) }
{
    let number = step.entry.number;
    let part = &bundle.entries()[number as usize];
    let given = given_of(alloc, document, bundle, number, &part.what)?;
    write_reason_of(alloc, json, bundle, run, trees, step, &part.what, &given)
}

/// Writes what led to each event that is asked for.
fn put_reasons(
    alloc: Global,
    json: &mut JsonText,
    document: &Json,
    bundle: &Bundle,
    run: usize,
    trees: &[JudgeTrees],
    steps: &[Step],
) -> Result<(), AllocError>
    requires found { AreFoundSteps bundle.now run steps.now }
    requires trees { map judge_trees_view trees.now ≡ run_trees bundle.now run }
    ensures { OnOk result (AddsMember (codes "events")
        (array_of (map reason_data (map (reason_of (view document.now) bundle.now) steps.now)))
        json.old.written json.new.written) }
{
    json.begin_list("events");
    for step in steps {
        write_reason(alloc, json, document, bundle, run, trees, *step)?;
    }
    json.end_list();
    Ok(())
}

// ---- metrics

/// A number of measurements, or the greatest that has 64 bits.
fn put_measured(json: &mut JsonText, measured: u128)
    ensures { AddsMember (codes "measured") (measured_data measured) json.old.written json.new.written }
{
    let most = u128::from(u64::MAX);
    json.put_count("measured", measured.min(most) as u64)
}

fn write_progress(json: &mut JsonText, progress: Progress)
    ensures { AddsValue (progress_data progress) json.old.written json.new.written }
{
    json.begin_object();
    json.put_count_if_there("count", progress.count);
    put_measured(json, progress.measured);
    json.end_object()
}

/// Writes what a metric waits for, or null where it is complete.
fn put_waits(json: &mut JsonText, waits: Option<Progress>)
    ensures { AddsMember (codes "waitsFor") (option_map_or progress_data waits null)
        json.old.written json.new.written }
{
    let Some(progress) = waits else {
        return json.put_null("waitsFor");
    };
    json.put_key("waitsFor");
    write_progress(json, progress)
}

fn write_settled(json: &mut JsonText, settled: Settled)
    ensures { AddsValue (settled_data settled) json.old.written json.new.written }
{
    json.begin_object();
    json.put_count_if_there("count", settled.count);
    json.put_count("event", settled.closer);
    put_measured(json, settled.measured);
    json.end_object()
}

/// Writes by which event the close of its run settled a metric, or null.
fn put_settled(json: &mut JsonText, settled: Option<Settled>)
    ensures { AddsMember (codes "settled") (option_map_or settled_data settled null)
        json.old.written json.new.written }
{
    let Some(settled) = settled else {
        return json.put_null("settled");
    };
    json.put_key("settled");
    write_settled(json, settled)
}

/// Writes a metric, whose run this event closed, if one did.
fn write_waiting(
    json: &mut JsonText,
    metric: &MetricPart,
    limits: Limits,
    phase: Phase,
    counts: Counts,
    closer: Option<u64>,
)
    ensures { AddsValue (waiting_data closer (metric_facts metric.now limits phase counts))
        json.old.written json.new.written }
{
    json.begin_object();
    json.put_key("metric");
    write_metric(json, metric, limits, phase, counts);
    put_settled(json, settled_by(closer, limits, counts));
    put_waits(json, waits_for(phase, limits, counts));
    json.end_object()
}

/// Writes a run's metrics, as the run is.
fn put_metrics(
    json: &mut JsonText,
    metrics: &[MetricPart],
    limits: &[Limits],
    state: &RunState,
    closer: Option<u64>,
)
    requires limits { length limits.now ≡ length metrics.now }
    requires metrics { length state.now.limits ≡ length metrics.now }
    ensures { AddsMember (codes "metrics") (array_of (map (waiting_data closer)
        (facts_of_metrics metrics.now limits.now state.now.phases state.now.counts)))
        json.old.written json.new.written }
{
    json.begin_list("metrics");
    for (number, metric) in metrics.iter().enumerate() {
        let (phase, counts) = (state.metric_phase(number), state.counts(number));
        write_waiting(json, metric, limits[number], phase, counts, closer);
    }
    json.end_list()
}

/// Writes a metric that its run waits for.
fn write_awaited(json: &mut JsonText, name: &str, progress: Progress)
    ensures { AddsValue (awaited_data name.now progress) json.old.written json.new.written }
{
    json.begin_object();
    json.put_count_if_there("count", progress.count);
    put_measured(json, progress.measured);
    json.put_text("metric", name);
    json.end_object()
}

/// Writes a metric, unless it is complete.
#[tactic(auto, using(ar_object::proofs::Texts::no_values))]
fn write_if_awaited(
    json: &mut JsonText,
    metric: &MetricPart,
    limits: Limits,
    phase: Phase,
    counts: Counts,
)
    ensures { AddsValues (awaited (metric_facts metric.now limits phase counts)) json.old.written json.new.written }
{
    if !phase.is_complete() {
        write_awaited(json, metric.name.as_str(), progress_of(limits, counts))
    }
}

/// Writes the metrics that aren't complete.
fn write_all_awaited(
    json: &mut JsonText,
    metrics: &[MetricPart],
    limits: &[Limits],
    state: &RunState,
)
    requires limits { length limits.now ≡ length metrics.now }
    requires metrics { length state.now.limits ≡ length metrics.now }
    ensures { AddsValues (flat_map awaited
        (facts_of_metrics metrics.now limits.now state.now.phases state.now.counts))
        json.old.written json.new.written }
{
    for (number, metric) in metrics.iter().enumerate() {
        let (phase, counts) = (state.metric_phase(number), state.counts(number));
        write_if_awaited(json, metric, limits[number], phase, counts);
    }
}

fn put_awaited(json: &mut JsonText, metrics: &[MetricPart], limits: &[Limits], state: &RunState)
    requires limits { length limits.now ≡ length metrics.now }
    requires metrics { length state.now.limits ≡ length metrics.now }
    ensures { AddsMember (codes "waitsFor") (array_of (flat_map awaited
        (facts_of_metrics metrics.now limits.now state.now.phases state.now.counts)))
        json.old.written json.new.written }
{
    json.begin_list("waitsFor");
    write_all_awaited(json, metrics, limits, state);
    json.end_list()
}

/// Writes what a run waits for, or null where it is closed.
fn put_run_waits(json: &mut JsonText, metrics: &[MetricPart], limits: &[Limits], state: &RunState)
    requires limits { length limits.now ≡ length metrics.now }
    requires metrics { length state.now.limits ≡ length metrics.now }
    ensures { AddsMember (codes "waitsFor") (run_waits_data state.now.phase
        (facts_of_metrics metrics.now limits.now state.now.phases state.now.counts))
        json.old.written json.new.written }
{
    if state.phase().is_complete() {
        json.put_null("waitsFor")
    } else {
        put_awaited(json, metrics, limits, state)
    }
}

// ---- runs

#[tactic(auto, using(crate::proofs::Runs::are_found, crate::proofs::Trees::trees_are, ar_facts::proofs::Runs::are_found))]
fn write_run(
    alloc: Global,
    json: &mut JsonText,
    document: &Json,
    bundle: &Bundle,
    chosen: Chosen,
    number: usize,
    run: &RunPart,
    entries: &[Entry],
    state: &RunState,
) -> Result<(), AllocError>
    requires run { IsRun bundle.now.metrics run.now }
    requires there { slice_get bundle.now.runs number ≡ Some run.now }
    requires found { AllByRecursion (IsFound bundle.now number) entries.now }
    requires few { length entries.now ≤ most_events }
    requires state { Replays run.now.limits (events_of bundle.now (numbers_of entries.now)) state.now }
    ensures { OnOk result (AddsValue
        (run_reasons_data (run_reasons (view document.now) bundle.now chosen run.now entries.now))
        json.old.written json.new.written) }
{
    let trees = trees_of(alloc, run.judges.as_slice())?;
    let (metrics, limits) = (bundle.metrics(), run.limits.as_slice());
    let found = traced(alloc, bundle, chosen, run, entries)?;
    json.begin_object();
    put_reasons(alloc, json, document, bundle, number, &trees, &found.steps)?;
    put_metrics(json, metrics, limits, state, found.closer);
    json.put_text("name", run.name.as_str());
    json.put_text("phase", phase_name(state.phase()));
    put_run_waits(json, metrics, limits, state);
    json.end_object();
    Ok(())
}

/// Writes the runs that are asked for.
#[tactic(auto, using(ar_facts::proofs::Runs::has_history, ar_facts::proofs::States::state_inside, ar_bundle::proofs::SoFar::lawful_are_so_far))]
fn put_runs(
    alloc: Global,
    json: &mut JsonText,
    document: &Json,
    bundle: &Bundle,
    finished: &Finished,
    chosen: Chosen,
) -> Result<(), AllocError>
    requires { AreFinished bundle.now finished.now }
    ensures { OnOk result (AddsMember (codes "runs") (array_of (map run_reasons_data
        (reasons_of (view document.now) bundle.now chosen finished.now.histories)))
        json.old.written json.new.written) }
{
    json.begin_list("runs");
    let histories = finished.histories.runs();
    for (number, run) in bundle.runs().iter().enumerate() {
        let (entries, state) = (histories[number].entries(), &finished.states[number]);
        if is_chosen_run(bundle, chosen, number, entries) {
            write_run(
                alloc, json, document, bundle, chosen, number, run, entries, state,
            )?;
        }
    }
    json.end_list();
    Ok(())
}

/// What led to the verdict and the effect of each event that is asked for, as one JSON object.
///
/// # Errors
///
/// Out of memory alone.
pub fn reasons_json(
    alloc: Global,
    document: &Json,
    bundle: &Bundle,
    finished: &Finished,
    chosen: Chosen,
) -> Result<String, AllocError>
    requires { AreFinished bundle.now finished.now }
    ensures { IfOk result (λ text. IsJsonLine
        (reasons_data (reasons_of (view document.now) bundle.now chosen finished.now.histories))
        (string_bytes text)) }
{
    let mut json = JsonText::new(alloc);
    json.begin_object();
    put_runs(alloc, &mut json, document, bundle, finished, chosen)?;
    json.put_count("version", FORM);
    json.end_object();
    json.finish()
}
