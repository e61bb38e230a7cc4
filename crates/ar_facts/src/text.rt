//! The lines of runs, metrics and events.

ghost use Rattle.std.specs.Prelude.{◌≡◌, ◌++◌, OnOk, Some, codes, decimal, string_bytes};
ghost use Rattle.ar_bundle.specs.Bundle.{finding_at};
ghost use Rattle.ar_facts.specs.Facts.{event_facts, finding_facts, metric_facts, name_at};
ghost use Rattle.ar_facts.specs.Names.{effect_text};
ghost use Rattle.ar_facts.specs.Report.{figure_text, counts_text, dry_text, errors_text, event_line, finding_text, metric_line, printed_name, printed_event, printed_finding, printed_metric, run_line};

use crate::names::{phase_name, put_effect, put_verdict};
use ar_bundle::{Bundle, Entry, Finding, MetricPart, RunPart, What};
use ar_limits::{Counts, Effect, Limits, Phase};
use ar_quote::push_name;
use itoa::Buffer;
use std::alloc::AllocError;

/// How the names of runs and metrics are printed.
#[derive(Clone, Copy)]
pub enum Naming {
    /// As the document has them.
    Verbatim,
    /// As a JSON string where a line of words can't have the name as it is.
    Clear,
}

fn put_name(out: &mut String, naming: Naming, name: &str) -> Result<(), AllocError>
    ensures { OnOk result (string_bytes out.new ≡ string_bytes out.old ++ printed_name naming name.now) }
{
    match naming {
        Naming::Verbatim => out.push_str(name),
        Naming::Clear => push_name(out, name),
    }
}

fn put_number(out: &mut String, number: u64) -> Result<(), AllocError>
    ensures { OnOk result (string_bytes out.new ≡ string_bytes out.old ++ decimal number) }
{
    let mut buffer = Buffer::new();
    out.push_str(buffer.format(number))
}

/// Writes a figure with its name after what is in a text.
#[tactic(auto, unfolding(crate::specs::Report::figure_text))]
pub fn put_counted(out: &mut String, name: &str, number: u64) -> Result<(), AllocError>
    ensures { OnOk result (string_bytes out.new ≡ string_bytes out.old ++ figure_text name.now number) }
{
    out.push_str(" ")?;
    out.push_str(name)?;
    out.push_str("=")?;
    put_number(out, number)
}

fn put_errors(out: &mut String, counts: Counts) -> Result<(), AllocError>
    ensures { OnOk result (string_bytes out.new ≡ string_bytes out.old ++ errors_text counts) }
{
    put_counted(out, "error", counts.error)?;
    put_counted(out, "consecutiveError", counts.succession)
}

fn put_counts(out: &mut String, counts: Counts) -> Result<(), AllocError>
    ensures { OnOk result (string_bytes out.new ≡ string_bytes out.old ++ counts_text counts) }
{
    put_counted(out, "successful", counts.successful)?;
    put_counted(out, "failed", counts.failed)?;
    put_counted(out, "inconclusive", counts.inconclusive)?;
    put_errors(out, counts)
}

/// That a metric is dry, where it is.
fn put_dry(out: &mut String, own: Limits) -> Result<(), AllocError>
    ensures { OnOk result (string_bytes out.new ≡ string_bytes out.old ++ dry_text own) }
{
    if own.dry {
        out.push_str(" dryRun")?;
    }
    Ok(())
}

/// Writes the line of a metric after what is in a text.
pub fn put_metric(
    out: &mut String,
    naming: Naming,
    metric: &MetricPart,
    own: Limits,
    phase: Phase,
    counts: Counts,
) -> Result<(), AllocError>
    ensures { OnOk result (string_bytes out.new
        ≡ string_bytes out.old ++ metric_line (printed_metric naming (metric_facts metric.now own phase counts))) }
{
    out.push_str("metric ")?;
    put_name(out, naming, metric.name.as_str())?;
    out.push_str(" ")?;
    out.push_str(phase_name(phase))?;
    put_counts(out, counts)?;
    put_dry(out, own)?;
    out.push_str("\n")
}

/// The name of the metric with a number.
pub(crate) fn name_at(metrics: &[MetricPart], metric: usize) -> &str
    ensures { result.now ≡ name_at metrics.now metric }
{
    match metrics.get(metric) {
        Some(part) => part.name.as_str(),
        None => "",
    }
}

/// The result of an entry: its metric and verdict, or that it is a stop.
fn put_finding(
    out: &mut String,
    naming: Naming,
    metrics: &[MetricPart],
    what: &What,
    finding: Finding,
) -> Result<(), AllocError>
    ensures { OnOk result (string_bytes out.new
        ≡ string_bytes out.old ++ finding_text (printed_finding naming (finding_facts metrics.now what.now finding))) }
{
    match (what, finding) {
        (What::Measure(metric, _), Finding::Judged(verdict)) => {
            put_name(out, naming, name_at(metrics, *metric))?;
            out.push_str(" ")?;
            put_verdict(out, verdict)
        }
        (What::Measure(..), Finding::Stop) | (What::Stop, _) => out.push_str("stop"),
    }
}

/// Writes the line of an event after what is in a text.
#[tactic(auto, using(crate::proofs::Lines::found_inside))]
pub fn put_event(
    out: &mut String,
    naming: Naming,
    bundle: &Bundle,
    entry: Entry,
) -> Result<(), AllocError>
    requires { finding_at bundle.now entry.number ≡ Some entry.finding }
    ensures { OnOk result (string_bytes out.new ≡ string_bytes out.old
        ++ event_line (printed_event naming (event_facts bundle.now entry.number entry.effect))) }
{
    let what = &bundle.entries()[entry.number as usize].what;
    put_event_number(out, entry.number)?;
    put_finding(out, naming, bundle.metrics(), what, entry.finding)?;
    put_event_effect(out, entry.effect)
}

fn put_event_number(out: &mut String, number: u64) -> Result<(), AllocError>
    ensures { OnOk result
        (string_bytes out.new ≡ string_bytes out.old ++ (codes "event " ++ (decimal number ++ codes " "))) }
{
    out.push_str("event ")?;
    put_number(out, number)?;
    out.push_str(" ")
}

fn put_event_effect(out: &mut String, effect: Effect) -> Result<(), AllocError>
    ensures { OnOk result
        (string_bytes out.new ≡ string_bytes out.old ++ (codes " " ++ (effect_text effect ++ codes "\n"))) }
{
    out.push_str(" ")?;
    put_effect(out, effect)?;
    out.push_str("\n")
}

/// Writes the line of a run after what is in a text.
pub fn put_run_line(
    out: &mut String,
    naming: Naming,
    run: &RunPart,
    phase: Phase,
) -> Result<(), AllocError>
    ensures { OnOk result
        (string_bytes out.new ≡ string_bytes out.old ++ run_line (printed_name naming run.now.name) phase) }
{
    out.push_str("run ")?;
    put_name(out, naming, run.name.as_str())?;
    out.push_str(" ")?;
    out.push_str(phase_name(phase))?;
    out.push_str("\n")
}
