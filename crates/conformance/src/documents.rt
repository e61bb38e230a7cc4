//! Calls on documents, and on the bundles that they are read as; a core is made of such a bundle (`boards`).

use crate::boards::put_core;
use crate::inputs::input_of;
use crate::parts::{Part, put_all};
use ar_bundle::{Bundle, Finding, MetricPart, RunPart};
use ar_document::read_bundle;
use ar_json::read_json;
use ar_limits::{Event, Limits, Mark};
use cases_of_conditions::put_verdict;
use cases_of_values::fault::Written;
use cases_of_values::output::Output;
use cases_of_values::printing::{put_or_none, put_quoted, put_refusal, put_shape};
use serde_json::Value as Json;
use std::alloc::Global;

pub(crate) fn put_json(alloc: Global, case: &Json, out: &mut Output) -> Written {
    match read_json(alloc, &input_of(alloc, case)?) {
        Ok(json) => put_json_text(alloc, &json, out),
        Err(refusal) => put_refusal(alloc, case, out, refusal),
    }
    Ok(())
}

fn put_json_text(alloc: Global, json: &Json, out: &mut Output) {
    match json.to_string(alloc) {
        Ok(text) => out.put(text.as_str()),
        Err(_) => out.lose(),
    }
}

pub(crate) fn put_document(alloc: Global, call: &str, case: &Json, out: &mut Output) -> Written {
    match read_bundle(alloc, &input_of(alloc, case)?) {
        Ok(bundle) => put_bundle(alloc, call, case, &bundle, out),
        Err(refusal) => {
            put_refusal(alloc, case, out, refusal);
            Ok(())
        }
    }
}

/// What a call returns on the bundle of a document.
fn put_bundle(
    alloc: Global,
    call: &str,
    case: &Json,
    bundle: &Bundle,
    out: &mut Output,
) -> Written {
    match call {
        "core" => return put_core(alloc, case, bundle, out),
        "findings" => return put_findings(alloc, bundle, out),
        "limits" => put_limits(bundle.runs(), out),
        _ => put_parts(bundle, out),
    }
    Ok(())
}

/// The metrics with their shapes, the names of runs, and how many entries there are.
fn put_parts(bundle: &Bundle, out: &mut Output) {
    put_metrics(bundle.metrics(), out);
    put_names(bundle.runs(), out);
    write!(out, " entries={}", bundle.events());
}

fn put_metrics(metrics: &[MetricPart], out: &mut Output) {
    out.put("metrics={");
    put_all(out, ",", metrics);
    out.put("}");
}

impl Part for MetricPart {
    fn put(&self, out: &mut Output) {
        put_quoted(out, self.name.as_str());
        out.put(":");
        put_shape(out, self.shape.get());
    }
}

fn put_names(runs: &[RunPart], out: &mut Output) {
    out.put(" runs=[");
    put_all(out, ",", runs);
    out.put("]");
}

impl Part for RunPart {
    fn put(&self, out: &mut Output) {
        put_quoted(out, self.name.as_str());
    }
}

/// The run of each entry, the entry's finding, and what it is to the run.
fn put_findings(alloc: Global, bundle: &Bundle, out: &mut Output) -> Written {
    let mut separator = "";
    for number in 0..bundle.events() {
        let finding = bundle.finding(alloc, number)?;
        out.put(separator);
        separator = " / ";
        write!(out, "run {}: ", bundle.run_of(number));
        put_finding(alloc, finding, out);
        put_event(out, bundle.event(number, finding));
    }
    Ok(())
}

fn put_finding(alloc: Global, finding: Finding, out: &mut Output) {
    match finding {
        Finding::Judged(verdict) => put_verdict(alloc, out, verdict),
        Finding::Stop => out.put("stop"),
    }
}

fn put_event(out: &mut Output, event: Event) {
    match event {
        Event::Mark(metric, mark) => write!(out, ", metric {metric} {}", mark_name(mark)),
        Event::Stop => out.put(", stop"),
    }
}

fn mark_name(mark: Mark) -> &'static str {
    match mark {
        Mark::Successful => "Successful",
        Mark::Failed => "Failed",
        Mark::Inconclusive => "Inconclusive",
        Mark::Error => "Error",
    }
}

/// The limits of each metric of each run.
fn put_limits(runs: &[RunPart], out: &mut Output) {
    let mut separator = "run ";
    for run in runs {
        out.put(separator);
        separator = " / run ";
        out.put(run.name.as_str());
        out.put(":");
        put_run_limits(out, run.limits.as_slice());
    }
}

fn put_run_limits(out: &mut Output, limits: &[Limits]) {
    for limits in limits {
        write!(
            out,
            " {},{},{},",
            limits.failure, limits.inconclusive, limits.consecutive_error
        );
        put_or_none(out, limits.count);
        if limits.dry {
            out.put(",dry");
        }
    }
}
