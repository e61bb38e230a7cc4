//! Calls on templates and their arguments.

use ar_manifest::{Args, BoundMetric, Template};
use ar_value::Text;
use cases_of_values::fault::{CaseFault, Written};
use cases_of_values::members;
use cases_of_values::output::Output;
use cases_of_values::printing::{put_or_none, put_quoted, put_refusal};
use serde_json::Value as Json;
use std::alloc::Global;

/// The name of the template and the metrics that it is bound to, or the refusal of either step.
pub(crate) fn put_bound(alloc: Global, case: &Json, out: &mut Output) -> Written {
    match Template::read(alloc, members::json(case, "template")?) {
        Ok(template) => put_bound_with(alloc, case, &template, out),
        Err(refusal) => {
            out.put("read: ");
            put_refusal(alloc, case, out, refusal);
            Ok(())
        }
    }
}

fn put_bound_with(alloc: Global, case: &Json, template: &Template, out: &mut Output) -> Written {
    let mut arguments = Args::new(alloc);
    put_bound_to(alloc, case, template, &mut arguments, out)
}

/// Binds the template to arguments that have yet to be read.
fn put_bound_to(
    alloc: Global,
    case: &Json,
    template: &Template,
    arguments: &mut Args,
    out: &mut Output,
) -> Written {
    read_arguments(alloc, case, arguments)?;
    match template.bind(alloc, arguments) {
        Ok(bound) => {
            put_quoted(out, template.name.as_str());
            put_metrics(out, bound.metrics());
        }
        Err(refusal) => {
            out.put("bind: ");
            put_refusal(alloc, case, out, refusal);
        }
    }
    Ok(())
}

fn put_metrics(out: &mut Output, metrics: &[BoundMetric]) {
    for metric in metrics {
        out.put(" / ");
        put_quoted(out, metric.name.as_str());
        put_condition(out, " success=", &metric.success_condition);
        put_condition(out, " failure=", &metric.failure_condition);
        put_limits(out, metric);
    }
}

fn put_limits(out: &mut Output, metric: &BoundMetric) {
    write!(
        out,
        " limits={},{},{} count=",
        metric.failure_limit, metric.inconclusive_limit, metric.consecutive_error_limit,
    );
    put_or_none(out, metric.count);
    if metric.dry {
        out.put(" dry");
    }
}

fn put_condition(out: &mut Output, name: &str, text: &Option<Text>) {
    out.put(name);
    put_text_or_none(out, text.as_ref());
}

fn put_text_or_none(out: &mut Output, text: Option<&Text>) {
    match text {
        Some(text) => put_quoted(out, text.as_str()),
        None => out.put("none"),
    }
}

/// Adds the member `arguments`, where it is there: a list of pairs, each a list of a name and a value.
fn read_arguments(alloc: Global, case: &Json, arguments: &mut Args) -> Written {
    for pair in members::list_or_none(case, "arguments")? {
        add_pair(alloc, arguments, pair)?;
    }
    Ok(())
}

/// The text at position `index` of a list.
fn text_at(list: &Json, index: usize) -> Result<&str, CaseFault> {
    list.get(index)
        .and_then(Json::as_str)
        .ok_or(CaseFault::Member)
}

fn add_pair(alloc: Global, arguments: &mut Args, pair: &Json) -> Written {
    let name = text_at(pair, 0)?;
    let value = Text::of(alloc, text_at(pair, 1)?)?;
    arguments.insert(alloc, name, value)?;
    Ok(())
}

pub(crate) fn put_arguments(alloc: Global, case: &Json, out: &mut Output) -> Written {
    let mut arguments = Args::new(alloc);
    put_found(alloc, case, &mut arguments, out)
}

/// How many names have a value, and the value of a name, by arguments that have yet to be read.
fn put_found(alloc: Global, case: &Json, arguments: &mut Args, out: &mut Output) -> Written {
    read_arguments(alloc, case, arguments)?;
    let name = members::text(case, "argument")?;
    write!(out, "{}: ", arguments.len());
    put_text_or_none(out, arguments.get(name));
    Ok(())
}
