//! The objects of metrics and events.

ghost use Rattle.std.specs.Prelude.{◌≡◌, Some};
ghost use Rattle.ar_bundle.specs.Bundle.{finding_at};
ghost use Rattle.ar_facts.specs.Facts.{event_facts, finding_facts, judged, metric_facts, stopped};
ghost use Rattle.ar_facts.specs.ReportData.{counts_data, event_data, finding_data, limits_data, metric_data};
ghost use Rattle.ar_object.specs.Written.{AddsValue};

use crate::names::{
    cause_if_error, closed_as, effect_name, fault_if_error, phase_name, verdict_name,
};
use crate::text::name_at;
use ar_bundle::{Bundle, Entry, Finding, MetricPart, What};
use ar_judge::Verdict;
use ar_limits::{Counts, Effect, Limits, Phase};
use ar_object::JsonText;

// ---- metrics

/// The counts of a metric.
pub fn write_counts(json: &mut JsonText, counts: Counts)
    ensures { AddsValue (counts_data counts) json.old.written json.new.written }
{
    json.begin_object();
    json.put_count("consecutiveError", counts.succession);
    json.put_count("error", counts.error);
    json.put_count("failed", counts.failed);
    json.put_count("inconclusive", counts.inconclusive);
    json.put_count("successful", counts.successful);
    json.end_object()
}

/// The limits of a metric.
pub fn write_limits(json: &mut JsonText, own: Limits)
    ensures { AddsValue (limits_data own) json.old.written json.new.written }
{
    json.begin_object();
    json.put_count("consecutiveErrorLimit", own.consecutive_error as u64);
    json.put_count_if_there("count", own.count);
    json.put_count("failureLimit", own.failure as u64);
    json.put_count("inconclusiveLimit", own.inconclusive as u64);
    json.end_object()
}

/// A metric with its phase and counts.
pub fn write_metric(
    json: &mut JsonText,
    metric: &MetricPart,
    own: Limits,
    phase: Phase,
    counts: Counts,
)
    ensures { AddsValue (metric_data (metric_facts metric.now own phase counts)) json.old.written json.new.written }
{
    json.begin_object();
    json.put_key("counts");
    write_counts(json, counts);
    json.put_flag("dryRun", own.dry);
    json.put_key("limits");
    write_limits(json, own);
    json.put_text("name", metric.name.as_str());
    json.put_text("phase", phase_name(phase));
    json.end_object()
}

// ---- events

/// A measurement of a metric, with its verdict.
fn write_judged(json: &mut JsonText, number: u64, effect: Effect, metric: &str, verdict: Verdict)
    ensures { AddsValue (finding_data number effect (judged metric.now verdict)) json.old.written json.new.written }
{
    json.begin_object();
    json.put_text_if_there("cause", cause_if_error(verdict));
    json.put_text("effect", effect_name(effect));
    json.put_text_if_there("fault", fault_if_error(verdict));
    json.put_text("metric", metric);
    json.put_count("number", number);
    json.put_text_if_there("phase", closed_as(effect));
    json.put_flag("stop", false);
    json.put_text("verdict", verdict_name(verdict));
    json.end_object()
}

fn write_stop(json: &mut JsonText, number: u64, effect: Effect)
    ensures { AddsValue (finding_data number effect stopped) json.old.written json.new.written }
{
    json.begin_object();
    json.put_null("cause");
    json.put_text("effect", effect_name(effect));
    json.put_null("fault");
    json.put_null("metric");
    json.put_count("number", number);
    json.put_text_if_there("phase", closed_as(effect));
    json.put_flag("stop", true);
    json.put_null("verdict");
    json.end_object()
}

/// What happened to a run, by its finding.
fn write_finding(json: &mut JsonText, metrics: &[MetricPart], what: &What, entry: Entry)
    ensures { AddsValue (finding_data entry.number entry.effect (finding_facts metrics.now what.now entry.finding))
        json.old.written json.new.written }
{
    match (what, entry.finding) {
        (What::Measure(metric, _), Finding::Judged(verdict)) => {
            let name = name_at(metrics, *metric);
            write_judged(json, entry.number, entry.effect, name, verdict)
        }
        (What::Measure(..), Finding::Stop) | (What::Stop, _) => {
            write_stop(json, entry.number, entry.effect)
        }
    }
}

/// An event of a history.
#[tactic(auto, using(crate::proofs::Lines::found_inside, crate::proofs::Lines::facts_found_are))]
pub fn write_event(json: &mut JsonText, bundle: &Bundle, entry: Entry)
    requires { finding_at bundle.now entry.number ≡ Some entry.finding }
    ensures { AddsValue (event_data (event_facts bundle.now entry.number entry.effect))
        json.old.written json.new.written }
{
    let what = &bundle.entries()[entry.number as usize].what;
    write_finding(json, bundle.metrics(), what, entry)
}
