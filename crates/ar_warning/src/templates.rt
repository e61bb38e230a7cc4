//! Warnings of templates: metrics without a condition, and fields that are ignored and close to ones that are
//! read.

ghost use Rattle.std.specs.Prelude.{◌≡◌, [], ◌++◌, IfOk, OnOk, map, option_and_then, option_map, unwrap_or};
ghost use Rattle.serde_json.specs.View.{view};
ghost use Rattle.ar_json.specs.Members.{list_of};
ghost use Rattle.ar_warning.specs.Each.{each_from};
ghost use Rattle.ar_warning.specs.Private.Sites.{place_at};
ghost use Rattle.ar_warning.specs.Templates.{close, close_to_metric, close_to_spec, close_warning, close_warnings, condition_warning, has_no_condition, ignored, is_left_out, metric_warnings, spec_warnings, template_warnings, unconditional};

use ar_diagnostic::{Diagnostic, Item, Place, SpecPart, Within, copy_of};
use ar_json::members::{list_of, member, member_of_member, text_member};
use ar_value::Text;
use serde_json::Value as Json;
use std::alloc::{AllocError, Global};

/// A name that is ignored, and the one that it is close to.
type Close = (&'static str, &'static str);

/// Names that are close to fields of `spec`.
fn close_to_spec() -> &'static [Close]
    ensures { map (λ name. close name.0.now name.1.now) result.now ≡ close_to_spec }
{
    &[
        ("dryrun", "dryRun"),
        ("dryRuns", "dryRun"),
        ("dry_run", "dryRun"),
        ("DryRun", "dryRun"),
        ("metric", "metrics"),
        ("arg", "args"),
        ("arguments", "args"),
    ]
}

/// Names that are close to fields of a metric.
fn close_to_metric() -> &'static [Close]
    ensures { map (λ name. close name.0.now name.1.now) result.now ≡ close_to_metric }
{
    &[
        ("sucessCondition", "successCondition"),
        ("succesCondition", "successCondition"),
        ("successcondition", "successCondition"),
        ("successConditions", "successCondition"),
        ("SuccessCondition", "successCondition"),
        ("success_condition", "successCondition"),
        ("condition", "successCondition"),
        ("failurecondition", "failureCondition"),
        ("failureConditions", "failureCondition"),
        ("FailureCondition", "failureCondition"),
        ("failure_condition", "failureCondition"),
        ("failCondition", "failureCondition"),
        ("failurelimit", "failureLimit"),
        ("failureLimits", "failureLimit"),
        ("failLimit", "failureLimit"),
        ("inconclusivelimit", "inconclusiveLimit"),
        ("consecutiveErrorLimits", "consecutiveErrorLimit"),
        ("consecutiveerrorlimit", "consecutiveErrorLimit"),
        ("errorLimit", "consecutiveErrorLimit"),
        ("counts", "count"),
        ("intervals", "interval"),
    ]
}

/// Where a warning is.
#[derive(Clone, Copy)]
enum Site<'d> {
    Spec,
    /// A metric, by its number.
    Metric(usize, &'d Json),
}

fn place_at(alloc: Global, site: Site<'_>) -> Result<Place, AllocError>
    ensures { IfOk result (λ place. place ≡ place_at site.entry) }
{
    match site {
        Site::Spec => Ok(Place::Spec(SpecPart::Spec)),
        Site::Metric(number, metric) => {
            let name = copy_of(alloc, text_member(metric, "name"))?;
            Ok(Place::Metric(Within::Template, Item { number, name }))
        }
    }
}

// ---- fields that are ignored

/// A field that isn't read, and that which is close to it.
fn ignored(alloc: Global, place: Place, name: &str, meant: &str) -> Result<Diagnostic, AllocError>
    ensures { IfOk result (λ it. it ≡ ignored place (close name.now meant.now)) }
{
    let found = Text::from(format!(in alloc; "\"{name}\" is not read")?);
    let hint = Text::from(format!(in alloc; "did you mean \"{meant}\"?")?);
    let it = Diagnostic::named(alloc, place, "IgnoredField")?;
    Ok(it.with_found(Some(found)).with_hint(Some(hint)))
}

/// A warning of a name that an object has.
fn push_close(
    alloc: Global,
    out: &mut Vec<Diagnostic>,
    site: Site<'_>,
    object: &Json,
    name: &str,
    meant: &str,
) -> Result<(), AllocError>
    ensures { OnOk result (out.new.items
        ≡ out.old.items ++ close_warning (place_at site.entry) (view object.now) (close name.now meant.now)) }
{
    if member(object, name).is_none() {
        return Ok(());
    }
    let it = ignored(alloc, place_at(alloc, site)?, name, meant)?;
    Ok(out.push(it)?)
}

/// Warnings of the names that an object has of some.
#[tactic(auto, using(crate::proofs::Warned::next_close, crate::proofs::Warned::no_close))]
fn push_all_close(
    alloc: Global,
    out: &mut Vec<Diagnostic>,
    site: Site<'_>,
    object: &Json,
    names: &[Close],
) -> Result<(), AllocError>
    ensures { OnOk result (out.new.items ≡ out.old.items ++ close_warnings (place_at site.entry)
        (map (λ name. close name.0.now name.1.now) names.now) (view object.now)) }
{
    for name in names {
        push_close(alloc, out, site, object, name.0, name.1)?;
    }
    Ok(())
}

// ---- metrics without a condition

fn is_left_out(text: Option<&str>) -> bool
    ensures { result ≡ is_left_out (option_map (λ text. text.now) text.entry) }
{
    match text {
        Some(text) => text.is_empty(),
        None => true,
    }
}

fn has_no_condition(metric: &Json) -> bool
    ensures { result ≡ has_no_condition (view metric.now) }
{
    is_left_out(text_member(metric, "successCondition"))
        && is_left_out(text_member(metric, "failureCondition"))
}

/// A metric without a condition.
fn unconditional(alloc: Global, place: Place) -> Result<Diagnostic, AllocError>
    ensures { IfOk result (λ it. it ≡ unconditional place) }
{
    let found = Text::of(alloc, "no condition, so each measured value is Successful")?;
    Ok(Diagnostic::named(alloc, place, "NoCondition")?.with_found(Some(found)))
}

/// A warning of a metric that has no condition.
fn push_condition(
    alloc: Global,
    out: &mut Vec<Diagnostic>,
    site: Site<'_>,
    metric: &Json,
) -> Result<(), AllocError>
    ensures { OnOk result
        (out.new.items ≡ out.old.items ++ condition_warning (place_at site.entry) (view metric.now)) }
{
    if !has_no_condition(metric) {
        return Ok(());
    }
    let it = unconditional(alloc, place_at(alloc, site)?)?;
    Ok(out.push(it)?)
}

// ---- templates

/// The items of a list, if there is one.
fn items_of(found: Option<&Json>) -> &[Json]
    ensures { map (λ item. view item) result.now
        ≡ unwrap_or (option_and_then list_of (option_map (λ json. view json.now) found.entry)) [] }
{
    match found {
        Some(found) => list_of(found).unwrap_or(&[]),
        None => &[],
    }
}

/// Warnings of a metric.
#[tactic(auto, using(crate::proofs::Warned::two))]
fn push_metric(
    alloc: Global,
    out: &mut Vec<Diagnostic>,
    number: usize,
    metric: &Json,
) -> Result<(), AllocError>
    ensures { OnOk result (out.new.items ≡ out.old.items ++ metric_warnings number (view metric.now)) }
{
    let site = Site::Metric(number, metric);
    push_all_close(alloc, out, site, metric, close_to_metric())?;
    push_condition(alloc, out, site, metric)
}

#[tactic(auto, using(crate::proofs::Warned::next_item))]
fn push_metrics(
    alloc: Global,
    out: &mut Vec<Diagnostic>,
    metrics: &[Json],
) -> Result<(), AllocError>
    ensures { OnOk result (out.new.items
        ≡ out.old.items ++ each_from metric_warnings 0 (map (λ metric. view metric) metrics.now)) }
{
    for (number, metric) in metrics.iter().enumerate() {
        push_metric(alloc, out, number, metric)?;
    }
    Ok(())
}

/// Warnings of a template's `spec`, and of its metrics.
#[tactic(auto, using(crate::proofs::Warned::two))]
fn push_spec(alloc: Global, out: &mut Vec<Diagnostic>, spec: &Json) -> Result<(), AllocError>
    ensures { OnOk result (out.new.items ≡ out.old.items ++ spec_warnings (view spec.now)) }
{
    push_all_close(alloc, out, Site::Spec, spec, close_to_spec())?;
    push_metrics(alloc, out, items_of(member(spec, "metrics")))
}

/// The warnings of a document's template.
///
/// # Errors
///
/// Out of memory alone.
pub fn template_warnings(alloc: Global, document: &Json) -> Result<Vec<Diagnostic>, AllocError>
    ensures { IfOk result (λ found. found.items ≡ template_warnings (view document.now)) }
{
    let mut found = Vec::new(alloc);
    if let Some(spec) = member_of_member(document, "manifest", "spec") {
        push_spec(alloc, &mut found, spec)?;
    }
    Ok(found)
}
