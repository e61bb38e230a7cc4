//! The lines of events, metrics and runs.

ghost use Rattle.std.specs.Prelude.{◌≡◌, ◌≤◌, ◌++◌, IfOk, OnOk, Some, codes, flat_map, length, map, option_map, slice_get, string_bytes};
ghost use Rattle.std.specs.List.{AllByRecursion};
ghost use Rattle.serde_json.specs.View.{view};
ghost use Rattle.ar_limits.specs.Replay.{Replays, most_events};
ghost use Rattle.ar_bundle.specs.Bundle.{events_of, judge_at};
ghost use Rattle.ar_bundle.specs.Finished.{AreFinished};
ghost use Rattle.ar_bundle.specs.Lawful.{IsFound, numbers_of};
ghost use Rattle.ar_bundle.specs.Sound.{IsRun};
ghost use Rattle.ar_judge.specs.Verdict.{sample_view};
ghost use Rattle.ar_facts.specs.Facts.{facts_of_metrics, metric_facts};
ghost use Rattle.ar_facts.specs.Report.{run_line};
ghost use Rattle.ar_value.specs.Value as values;
ghost use Rattle.ar_value.specs.View.{value_view};
ghost use Rattle.ar_misfit.specs.MisfitText.{misfit_text};
ghost use Rattle.ar_misfit.specs.Views.{misfit_view};
ghost use Rattle.ar_quote.specs.Shown.{shown_name};
ghost use Rattle.ar_show.specs.Values.{shown_value};
ghost use Rattle.ar_reason.specs.Reason.{conditions_by, conditions_of, lacks_conditions, reason_of, reasons_of, run_reasons};
ghost use Rattle.ar_evaluation.specs.EvaluatedText.{condition_text};
ghost use Rattle.ar_reason.specs.ReasonText.{change_line, given_line, line_if_there, metric_lines, no_condition_line, outcome_lines, reason_text, reasons_text, run_reasons_text, waits_line, why_line};
ghost use Rattle.ar_reason.specs.Views.{given_view};
ghost use Rattle.ar_progress.specs.Settled.{settled_text};
ghost use Rattle.ar_progress.specs.Waiting.{run_waits_for};
ghost use Rattle.ar_progress.specs.Why.{why_of};
ghost use Rattle.ar_reason.specs.Private.Found.{AreFoundSteps};
ghost use Rattle.ar_evaluation.specs.Private.Trees.{trees_of, judge_trees_view};
ghost use Rattle.ar_reason.specs.Private.Trees.{run_trees};

use crate::given::{Given, given_of};
use ar_bundle::{Bundle, Entry, Finished, MetricPart, RunPart, What};
use ar_evaluation::{JudgeTrees, push_conditions, trees_at, trees_of};
use ar_facts::{Naming, phase_name, put_event, put_metric, put_run_line};
use ar_judge::{Judge, Sample, Which};
use ar_limits::{Counts, Limits, Phase, RunState};
use ar_machine::operand::OperandRef;
use ar_machine::operand::borrowed::{ValueRef, value_ref};
use ar_misfit::{Misfit, push_misfit};
use ar_progress::{
    Change, Chosen, Progress, Settled, Step, Why, is_chosen_run, push_counts, push_settled,
    push_waiting, push_why, run_waits_for, settled_by, traced, waits_for, why_of,
};
use ar_show::push_value;
use ar_value::value::Value;
use serde_json::Value as Json;
use std::alloc::{AllocError, Global};

// ---- events

fn push_line(out: &mut String, name: &str, text: &str) -> Result<(), AllocError>
    ensures { OnOk result (string_bytes out.new ≡ string_bytes out.old ++ (name.now ++ (text.now ++ codes "\n"))) }
{
    out.push_str(name)?;
    out.push_str(text)?;
    out.push_str("\n")
}

fn push_measured(out: &mut String, value: &Value) -> Result<(), AllocError>
    ensures { OnOk result (string_bytes out.new ≡ string_bytes out.old
        ++ (codes "  value: " ++ (shown_value (value_view value.now) ++ codes "\n"))) }
{
    out.push_str("  value: ")?;
    push_value(out, OperandRef::Borrowed(value_ref(value)))?;
    out.push_str("\n")
}

fn push_error(out: &mut String, text: &str) -> Result<(), AllocError>
    ensures { OnOk result (string_bytes out.new ≡ string_bytes out.old
        ++ (codes "  error: " ++ (shown_value (values.text text.now) ++ codes "\n"))) }
{
    out.push_str("  error: ")?;
    push_value(out, OperandRef::Borrowed(ValueRef::Text(text)))?;
    out.push_str("\n")
}

fn push_misfit_line(out: &mut String, misfit: &Misfit<'_>) -> Result<(), AllocError>
    ensures { OnOk result (string_bytes out.new ≡ string_bytes out.old
        ++ (codes "  misfit: " ++ (misfit_text (misfit_view misfit.now) ++ codes "\n"))) }
{
    out.push_str("  misfit: ")?;
    push_misfit(out, misfit)?;
    out.push_str("\n")
}

fn push_given(out: &mut String, given: &Given<'_>) -> Result<(), AllocError>
    ensures { OnOk result (string_bytes out.new ≡ string_bytes out.old ++ given_line (given_view given.now)) }
{
    match given {
        Given::Nothing => Ok(()),
        Given::Value(value) => push_measured(out, value),
        Given::Error(text) => push_error(out, text),
        Given::Misfit(misfit) => push_misfit_line(out, misfit),
    }
}

fn push_change(out: &mut String, change: Option<Change>) -> Result<(), AllocError>
    ensures { OnOk result (string_bytes out.new ≡ string_bytes out.old ++ change_line change) }
{
    let Some(change) = change else {
        return Ok(());
    };
    out.push_str("  counts: ")?;
    push_counts(
        out,
        change.limits,
        change.before.counts,
        change.after.counts,
    )?;
    out.push_str("\n")
}

fn push_why_line(out: &mut String, why: Option<Why>) -> Result<(), AllocError>
    ensures { OnOk result (string_bytes out.new ≡ string_bytes out.old ++ why_line why) }
{
    let Some(why) = why else {
        return Ok(());
    };
    out.push_str("  ")?;
    push_why(out, why)?;
    out.push_str("\n")
}

fn push_judged(
    alloc: Global,
    out: &mut String,
    judge: Option<&Judge>,
    trees: Option<&JudgeTrees>,
    sample: &Sample,
) -> Result<(), AllocError>
    requires { option_map judge_trees_view (option_map (λ trees. trees.now) trees)
        ≡ option_map trees_of (option_map (λ judge. judge.now) judge) }
    ensures { OnOk result (string_bytes out.new ≡ string_bytes out.old ++ flat_map condition_text
        (conditions_by (option_map (λ judge. judge.now) judge.entry) (sample_view sample.now))) }
{
    match (judge, trees, sample) {
        (Some(judge), Some(trees), Sample::Measured(value)) => {
            push_conditions(alloc, out, judge, trees, value)
        }
        (_, _, Sample::Measured(_) | Sample::Misfit(_) | Sample::Provider) => Ok(()),
    }
}

/// The judge of a run for a metric.
pub(crate) fn judge_at(bundle: &Bundle, run: usize, metric: usize) -> Option<&Judge>
    ensures { option_map (λ judge. judge.now) result ≡ judge_at bundle.now run metric }
{
    bundle.runs().get(run)?.judges.as_slice().get(metric)
}

/// Whether a value was measured, and its metric has no condition.
pub(crate) fn lacks_conditions(bundle: &Bundle, run: usize, what: &What) -> bool
    ensures { result ≡ lacks_conditions bundle.now run what.now }
{
    match what {
        What::Measure(metric, Sample::Measured(_)) => match judge_at(bundle, run, *metric) {
            Some(judge) => {
                judge.condition(Which::Success).is_none()
                    && judge.condition(Which::Failure).is_none()
            }
            None => false,
        },
        What::Measure(_, Sample::Misfit(_) | Sample::Provider) | What::Stop => false,
    }
}

fn push_no_condition(out: &mut String, lacks: bool) -> Result<(), AllocError>
    ensures { OnOk result (string_bytes out.new ≡ string_bytes out.old ++ no_condition_line lacks) }
{
    if lacks {
        return out.push_str("  no condition: each value is Successful\n");
    }
    Ok(())
}

fn push_evaluated(
    alloc: Global,
    out: &mut String,
    bundle: &Bundle,
    run: usize,
    trees: &[JudgeTrees],
    what: &What,
) -> Result<(), AllocError>
    requires { map judge_trees_view trees.now ≡ run_trees bundle.now run }
    ensures { OnOk result (string_bytes out.new ≡ string_bytes out.old
        ++ flat_map condition_text (conditions_of bundle.now run what.now)) }
{
    match what {
        What::Measure(metric, sample) => {
            let judge = judge_at(bundle, run, *metric);
            push_judged(alloc, out, judge, trees_at(trees, *metric), sample)
        }
        What::Stop => Ok(()),
    }
}

fn push_outcome(out: &mut String, step: Step) -> Result<(), AllocError>
    ensures { OnOk result
        (string_bytes out.new ≡ string_bytes out.old ++ (change_line step.change ++ why_line (why_of step))) }
{
    push_change(out, step.change)?;
    push_why_line(out, why_of(step))
}

/// The lines of an event of a run.
#[tactic(auto, using(ar_facts::proofs::Lines::found_inside))]
fn push_reason(
    alloc: Global,
    out: &mut String,
    document: &Json,
    bundle: &Bundle,
    run: usize,
    trees: &[JudgeTrees],
    step: Step,
) -> Result<(), AllocError>
    requires found { IsFound bundle.now run step.entry }
    requires trees { map judge_trees_view trees.now ≡ run_trees bundle.now run }
    ensures { OnOk result (string_bytes out.new ≡ string_bytes out.old
        ++ reason_text (reason_of (view document.now) bundle.now step)) }
{
    let number = step.entry.number;
    let part = &bundle.entries()[number as usize];
    let given = given_of(alloc, document, bundle, number, &part.what)?;
    put_event(out, Naming::Clear, bundle, step.entry)?;
    push_given(out, &given)?;
    push_evaluated(alloc, out, bundle, run, trees, &part.what)?;
    push_no_condition(out, lacks_conditions(bundle, run, &part.what))?;
    push_outcome(out, step)
}

#[tactic(auto, using(crate::proofs::Events::next_step, crate::proofs::Events::no_step_left, crate::proofs::Events::is_found))]
fn push_reasons(
    alloc: Global,
    out: &mut String,
    document: &Json,
    bundle: &Bundle,
    run: usize,
    trees: &[JudgeTrees],
    steps: &[Step],
) -> Result<(), AllocError>
    requires found { AreFoundSteps bundle.now run steps.now }
    requires trees { map judge_trees_view trees.now ≡ run_trees bundle.now run }
    ensures { OnOk result (string_bytes out.new ≡ string_bytes out.old
        ++ flat_map reason_text (map (reason_of (view document.now) bundle.now) steps.now)) }
{
    for step in steps {
        push_reason(alloc, out, document, bundle, run, trees, *step)?;
    }
    Ok(())
}

// ---- metrics

/// A line that begins so, where there are words for it.
fn push_if_there(out: &mut String, before: &str, words: Option<String>) -> Result<(), AllocError>
    ensures { OnOk result (string_bytes out.new
        ≡ string_bytes out.old ++ line_if_there before.now (option_map string_bytes words)) }
{
    match words {
        Some(words) => push_line(out, before, &words),
        None => Ok(()),
    }
}

fn push_waits(out: &mut String, phase: Phase, waits: Option<Progress>) -> Result<(), AllocError>
    ensures { OnOk result (string_bytes out.new ≡ string_bytes out.old ++ waits_line phase waits) }
{
    let Some(progress) = waits else {
        return Ok(());
    };
    out.push_str("  ")?;
    out.push_str(phase_name(phase))?;
    out.push_str(": ")?;
    push_waiting(out, progress)?;
    out.push_str("\n")
}

/// That the close of a run settled a metric, if it did.
fn push_settled_line(out: &mut String, settled: Option<Settled>) -> Result<(), AllocError>
    ensures { OnOk result (string_bytes out.new
        ≡ string_bytes out.old ++ line_if_there (codes "  ") (option_map settled_text settled)) }
{
    let Some(settled) = settled else {
        return Ok(());
    };
    out.push_str("  ")?;
    push_settled(out, settled)?;
    out.push_str("\n")
}

/// The lines of a metric, whose run this event closed, if one did.
fn push_metric(
    out: &mut String,
    metric: &MetricPart,
    limits: Limits,
    phase: Phase,
    counts: Counts,
    closer: Option<u64>,
) -> Result<(), AllocError>
    ensures { OnOk result (string_bytes out.new ≡ string_bytes out.old
        ++ metric_lines closer (metric_facts metric.now limits phase counts)) }
{
    put_metric(out, Naming::Clear, metric, limits, phase, counts)?;
    push_waits(out, phase, waits_for(phase, limits, counts))?;
    push_settled_line(out, settled_by(closer, limits, counts))
}

/// The lines of a run's metrics, as the run is.
#[tactic(auto, using(crate::proofs::Metrics::next_metric, crate::proofs::Metrics::no_metric_left))]
fn push_metrics(
    out: &mut String,
    metrics: &[MetricPart],
    limits: &[Limits],
    state: &RunState,
    closer: Option<u64>,
) -> Result<(), AllocError>
    requires limits { length limits.now ≡ length metrics.now }
    requires metrics { length state.now.limits ≡ length metrics.now }
    ensures { OnOk result (string_bytes out.new ≡ string_bytes out.old
        ++ flat_map (metric_lines closer)
        (facts_of_metrics metrics.now limits.now state.now.phases state.now.counts)) }
{
    for (number, metric) in metrics.iter().enumerate() {
        let (phase, counts) = (state.metric_phase(number), state.counts(number));
        push_metric(out, metric, limits[number], phase, counts, closer)?;
    }
    Ok(())
}

// ---- runs

/// The line of a run, and what it waits for.
fn push_head(
    alloc: Global,
    out: &mut String,
    metrics: &[MetricPart],
    run: &RunPart,
    state: &RunState,
) -> Result<(), AllocError>
    requires limits { length run.now.limits ≡ length metrics.now }
    requires metrics { length state.now.limits ≡ length metrics.now }
    ensures { OnOk result (string_bytes out.new ≡ string_bytes out.old
        ++ (run_line (shown_name run.now.name) state.now.phase
        ++ line_if_there (codes "  waits for: ") (run_waits_for state.now.phase
        (facts_of_metrics metrics.now run.now.limits state.now.phases state.now.counts)))) }
{
    let waits = run_waits_for(alloc, metrics, run.limits.as_slice(), state)?;
    put_run_line(out, Naming::Clear, run, state.phase())?;
    push_if_there(out, "  waits for: ", waits)
}

/// The lines of a run, by its number, its history and its state.
#[tactic(auto, using(crate::proofs::Runs::text_is, crate::proofs::Runs::are_found, crate::proofs::Trees::trees_are, ar_facts::proofs::Runs::are_found))]
fn push_run(
    alloc: Global,
    out: &mut String,
    document: &Json,
    bundle: &Bundle,
    chosen: Chosen,
    number: usize,
    run: &RunPart,
    entries: &[Entry],
    state: &RunState,
) -> Result<(), AllocError>
    requires run { IsRun bundle.now.metrics run.now }
    requires there { slice_get bundle.now.runs number ≡ Some run.now }
    requires found { AllByRecursion (IsFound bundle.now number) entries.now }
    requires few { length entries.now ≤ most_events }
    requires state { Replays run.now.limits (events_of bundle.now (numbers_of entries.now)) state.now }
    ensures { OnOk result (string_bytes out.new ≡ string_bytes out.old
        ++ run_reasons_text (run_reasons (view document.now) bundle.now chosen run.now entries.now)) }
{
    let trees = trees_of(alloc, run.judges.as_slice())?;
    let (metrics, limits) = (bundle.metrics(), run.limits.as_slice());
    let found = traced(alloc, bundle, chosen, run, entries)?;
    push_head(alloc, out, metrics, run, state)?;
    push_reasons(alloc, out, document, bundle, number, &trees, &found.steps)?;
    push_metrics(out, metrics, limits, state, found.closer)
}

/// What led to the verdict and the effect of each event that is asked for, in lines.
///
/// # Errors
///
/// Out of memory alone.
#[tactic(auto, using(ar_facts::proofs::Runs::has_history, ar_facts::proofs::States::state_inside, ar_bundle::proofs::SoFar::lawful_are_so_far, crate::proofs::Runs::next_run, crate::proofs::Runs::run_passed, crate::proofs::Runs::no_run_left))]
pub fn reasons_text(
    alloc: Global,
    document: &Json,
    bundle: &Bundle,
    finished: &Finished,
    chosen: Chosen,
) -> Result<String, AllocError>
    requires { AreFinished bundle.now finished.now }
    ensures { IfOk result (λ text. string_bytes text
        ≡ reasons_text (reasons_of (view document.now) bundle.now chosen finished.now.histories)) }
{
    let mut out = String::new(alloc);
    let histories = finished.histories.runs();
    for (number, run) in bundle.runs().iter().enumerate() {
        let (entries, state) = (histories[number].entries(), &finished.states[number]);
        if is_chosen_run(bundle, chosen, number, entries) {
            push_run(
                alloc, &mut out, document, bundle, chosen, number, run, entries, state,
            )?;
        }
    }
    Ok(out)
}
