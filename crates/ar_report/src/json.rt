//! Reports as JSON.

ghost use Rattle.std.specs.Prelude.{◌≡◌, IfOk, codes, length, map, string_bytes};
ghost use Rattle.ar_limits.specs.Replay.{Replays};
ghost use Rattle.ar_limits.specs.Run.{effects};
ghost use Rattle.ar_bundle.specs.Bundle.{events_of};
ghost use Rattle.ar_bundle.specs.Finished.{AreFinished};
ghost use Rattle.ar_bundle.specs.Lawful.{numbers_of};
ghost use Rattle.ar_bundle.specs.Sound.{IsRun};
ghost use Rattle.ar_facts.specs.Facts.{check_facts, facts_of_metrics, report_facts, run_facts};
ghost use Rattle.ar_facts.specs.Private.Entries.{AreFound, facts_of_entries};
ghost use Rattle.ar_report.specs.Private.Shown.{condition_seen, conditions_seen};
ghost use Rattle.ar_facts.specs.ReportData.{answer_data, check_data, condition_data, event_data, metric_data, most_data, report_data, run_data};
ghost use Rattle.ar_object.specs.Line.{IsJsonLine};
ghost use Rattle.ar_object.specs.Object.{array_of};
ghost use Rattle.ar_object.specs.Written.{AddsMember, AddsValue};

use crate::conditions::{NamedCondition, conditions};
use ar_bundle::{Bundle, Entry, Finished, MetricPart, RunPart};
use ar_facts::{phase_name, write_event, write_metric};
use ar_json::document::MOST_BYTES;
use ar_json::shape_reading::MOST_LIST_ITEMS;
use ar_limits::{Limits, MOST_EVENTS, RunState};
use ar_object::{JsonText, VERSION};
use ar_value::Fault;
use ar_value::limits::{MOST_METRICS, MOST_RUNS, MOST_TEXT_BYTES};
use std::alloc::{AllocError, Global};

/// The version of the form of [`check_json`].
const CHECK_VERSION: u64 = 2;

// ---- runs

/// Writes a run's metrics, as the run is.
fn put_metrics(json: &mut JsonText, metrics: &[MetricPart], limits: &[Limits], state: &RunState)
    requires limits { length limits.now ≡ length metrics.now }
    requires metrics { length state.now.limits ≡ length metrics.now }
    ensures { AddsMember (codes "metrics") (array_of (map metric_data
        (facts_of_metrics metrics.now limits.now state.now.phases state.now.counts)))
        json.old.written json.new.written }
{
    json.begin_list("metrics");
    for (number, metric) in metrics.iter().enumerate() {
        let (phase, counts) = (state.metric_phase(number), state.counts(number));
        write_metric(json, metric, limits[number], phase, counts);
    }
    json.end_list()
}

/// Writes a run's events.
fn put_events(json: &mut JsonText, bundle: &Bundle, entries: &[Entry])
    requires { AreFound bundle.now entries.now }
    ensures { AddsMember (codes "events") (array_of (map event_data (facts_of_entries bundle.now entries.now)))
        json.old.written json.new.written }
{
    json.begin_list("events");
    for entry in entries {
        write_event(json, bundle, *entry);
    }
    json.end_list()
}

fn write_run(
    json: &mut JsonText,
    bundle: &Bundle,
    run: &RunPart,
    entries: &[Entry],
    state: &RunState,
)
    requires run { IsRun bundle.now.metrics run.now }
    requires found { AreFound bundle.now entries.now }
    requires effects { map (λ entry. entry.effect) entries.now ≡ effects run.now.limits
        (events_of bundle.now (numbers_of entries.now)) }
    requires state { Replays run.now.limits (events_of bundle.now (numbers_of entries.now)) state.now }
    ensures { AddsValue (run_data (run_facts bundle.now run.now (numbers_of entries.now)))
        json.old.written json.new.written }
{
    json.begin_object();
    put_events(json, bundle, entries);
    put_metrics(json, bundle.metrics(), run.limits.as_slice(), state);
    json.put_text("name", run.name.as_str());
    json.put_text("phase", phase_name(state.phase()));
    json.end_object()
}

#[tactic(auto, using(ar_facts::proofs::Runs::has_history, ar_facts::proofs::Runs::run_is_run, ar_facts::proofs::States::state_inside, ar_bundle::proofs::SoFar::lawful_are_so_far))]
fn put_runs(json: &mut JsonText, bundle: &Bundle, finished: &Finished)
    requires { AreFinished bundle.now finished.now }
    ensures { AddsMember (codes "runs") (array_of (map run_data
        (report_facts bundle.now (map numbers_of finished.now.histories)))) json.old.written json.new.written }
{
    json.begin_list("runs");
    let histories = finished.histories.runs();
    for (number, run) in bundle.runs().iter().enumerate() {
        let entries = histories[number].entries();
        write_run(json, bundle, run, entries, &finished.states[number]);
    }
    json.end_list()
}

/// The report of a bundle's finished runs as one JSON object, with the facts of
/// [`finished_report`](crate::finished_report).
///
/// # Errors
///
/// Out of memory alone.
pub fn report_json(
    alloc: Global,
    bundle: &Bundle,
    finished: &Finished,
) -> Result<String, AllocError>
    requires { AreFinished bundle.now finished.now }
    ensures { IfOk result (λ text. IsJsonLine
        (report_data (report_facts bundle.now (map numbers_of finished.now.histories))) (string_bytes text)) }
{
    let mut json = JsonText::new(alloc);
    json.begin_object();
    put_runs(&mut json, bundle, finished);
    json.put_count("version", VERSION);
    json.end_object();
    json.finish()
}

// ---- conditions

fn write_condition(json: &mut JsonText, condition: NamedCondition<'_>)
    ensures { AddsValue (condition_data (condition_seen condition.entry)) json.old.written json.new.written }
{
    json.begin_object();
    json.put_count("budget", condition.verified.budget());
    json.put_text("condition", condition.which);
    json.put_count("depth", condition.verified.depth() as u64);
    json.put_text("metric", condition.metric);
    json.put_count("operations", condition.verified.code().ops().len() as u64);
    json.put_text("run", condition.run);
    json.end_object()
}

fn put_conditions(json: &mut JsonText, conditions: &[NamedCondition<'_>])
    ensures { AddsMember (codes "conditions") (array_of (map condition_data (conditions_seen conditions.entry.now)))
        json.old.written json.new.written }
{
    json.begin_list("conditions");
    for condition in conditions {
        write_condition(json, *condition);
    }
    json.end_list()
}

/// Writes how much the program takes at most.
fn write_most(json: &mut JsonText)
    ensures { AddsValue most_data json.old.written json.new.written }
{
    json.begin_object();
    json.put_count("conditionBytes", MOST_TEXT_BYTES as u64);
    json.put_count("documentBytes", MOST_BYTES as u64);
    json.put_count("listItems", MOST_LIST_ITEMS);
    json.put_count("measurements", MOST_EVENTS);
    json.put_count("metrics", MOST_METRICS as u64);
    json.put_count("runs", MOST_RUNS as u64);
    json.end_object()
}

/// The bounds of each condition of a bundle as one JSON object, with the facts of
/// [`check_text`](crate::check_text), and how much the program takes.
///
/// # Errors
///
/// Out of memory alone.
pub fn check_json(alloc: Global, bundle: &Bundle) -> Result<String, AllocError>
    ensures { IfOk result (λ text. IsJsonLine (check_data (check_facts bundle.now)) (string_bytes text)) }
{
    let found = conditions(alloc, bundle)?;
    let mut json = JsonText::new(alloc);
    json.begin_object();
    put_conditions(&mut json, &found);
    json.put_key("limits");
    write_most(&mut json);
    json.put_count("version", CHECK_VERSION);
    json.end_object();
    json.finish()
}

// ---- one condition on one value

fn write_answer(json: &mut JsonText, answer: Result<bool, Fault>)
    ensures { AddsValue (answer_data answer) json.old.written json.new.written }
{
    json.begin_object();
    match answer {
        Ok(holds) => {
            json.put_flag("answer", holds);
            json.put_null("fault");
        }
        Err(fault) => {
            json.put_null("answer");
            json.put_text("fault", fault.name());
        }
    }
    json.put_count("version", VERSION);
    json.end_object()
}

/// What a condition says of a value, as one JSON object.
///
/// # Errors
///
/// Out of memory alone.
pub fn answer_json(alloc: Global, answer: Result<bool, Fault>) -> Result<String, AllocError>
    ensures { IfOk result (λ text. IsJsonLine (answer_data answer) (string_bytes text)) }
{
    let mut json = JsonText::new(alloc);
    write_answer(&mut json, answer);
    json.finish()
}
