//! The template and the arguments of a run: the conditions of its metrics, bound, and what binding finds
//! where it is refused.

ghost use Rattle.std.specs.Prelude.{◌≡◌, IfOk, IsErr, Err, option_map};
ghost use Rattle.serde_json.specs.View.{view};
ghost use Rattle.ar_manifest.specs.declared.error.ManifestError.TheVariants.{OutOfMemory};
ghost use Rattle.ar_words.specs.Bindings.{binding_of, bound_metrics, condition_in, limit_in, made, own_of, refused_condition, given_template, unbound_of_run};

use crate::lists::{item_at, runs};
use ar_diagnostic::copy_of;
use ar_document::BundleError;
use ar_document::runs::own_arguments;
use ar_judge::BuildError;
use ar_manifest::{Args, Bound, BoundMetric, ManifestError, RefusedLimit, Template};
use ar_value::text::Text;
use serde_json::Value as Json;
use std::alloc::{AllocError, Global};

// ---- templates and arguments

/// The arguments of the run with a number.
fn own_of(alloc: Global, document: &Json, run: usize) -> Result<Option<Args>, AllocError>
    ensures { IfOk result (λ own. own ≡ own_of (view document.now) run) }
{
    let Some(item) = item_at(runs(document), run) else {
        return Ok(None);
    };
    match own_arguments(alloc, item.get("args")) {
        Ok(own) => Ok(Some(own)),
        Err(BundleError::OutOfMemory) => Err(AllocError),
        Err(_) => Ok(None),
    }
}

/// What was made, unless it was refused.
fn made<T: Drop>(answer: Result<T, ManifestError>) -> Result<Option<T>, AllocError>
    ensures made { IfOk result (λ found. found ≡ made answer) }
    ensures memory { answer ≡ Err OutOfMemory → IsErr result }
{
    match answer {
        Ok(made) => Ok(Some(made)),
        Err(ManifestError::OutOfMemory) => Err(AllocError),
        Err(_) => Ok(None),
    }
}

/// The template of a document, unless it is refused.
fn template_in(alloc: Global, document: &Json) -> Result<Option<Template>, AllocError>
    ensures { IfOk result (λ template. template ≡ given_template (view document.now)) }
{
    match document.get("manifest") {
        Some(manifest) => made(Template::read(alloc, manifest)),
        None => Ok(None),
    }
}

/// The template, and the arguments that the run with a number gives it.
fn binding_of(
    alloc: Global,
    document: &Json,
    run: usize,
) -> Result<Option<(Template, Args)>, AllocError>
    ensures { IfOk result (λ binding. binding ≡ binding_of (view document.now) run) }
{
    let Some(own) = own_of(alloc, document, run)? else {
        return Ok(None);
    };
    match template_in(alloc, document)? {
        Some(template) => Ok(Some((template, own))),
        None => Ok(None),
    }
}

// ---- conditions

/// The metrics of the template, bound to the arguments of the run with a number.
pub(crate) fn bound_of(
    alloc: Global,
    document: &Json,
    run: usize,
) -> Result<Option<Bound>, AllocError>
    ensures { IfOk result (λ bound. bound ≡ bound_metrics (view document.now) run) }
{
    match binding_of(alloc, document, run)? {
        Some((template, own)) => made(template.bind_shortened(alloc, &own)),
        None => Ok(None),
    }
}

/// The condition of a metric that is refused.
fn chosen(metric: &BoundMetric, error: BuildError) -> Option<&str>
    ensures { option_map (λ text. text.now) result ≡ refused_condition error metric.now }
{
    let condition = match error {
        BuildError::Success(_) => &metric.success_condition,
        BuildError::Failure(_) => &metric.failure_condition,
        BuildError::OutOfMemory => return None,
    };
    match condition {
        Some(text) => Some(text.as_str()),
        None => None,
    }
}

/// The condition that is refused, of the metric with a number.
pub(crate) fn refused_condition(
    bound: &Option<Bound>,
    metric: usize,
    error: BuildError,
) -> Option<&str>
    ensures { option_map (λ text. text.now) result ≡ condition_in bound.now metric error }
{
    let Some(bound) = bound else {
        return None;
    };
    chosen(bound.metrics().get(metric)?, error)
}

// ---- refusals of binding

/// A copy of the first reference in the texts of a metric that has no value.
pub(crate) fn unbound_in(
    alloc: Global,
    document: &Json,
    run: usize,
    metric: usize,
) -> Result<Option<Text>, AllocError>
    ensures { IfOk result (λ reference. reference ≡ unbound_of_run (view document.now) run metric) }
{
    let Some((template, own)) = binding_of(alloc, document, run)? else {
        return Ok(None);
    };
    copy_of(alloc, template.unbound_reference(&own, metric))
}

/// The limit of a metric that is refused.
pub(crate) fn limit_in(
    alloc: Global,
    document: &Json,
    run: usize,
    metric: usize,
) -> Result<Option<RefusedLimit>, AllocError>
    ensures { IfOk result (λ limit. limit ≡ limit_in (view document.now) run metric) }
{
    match binding_of(alloc, document, run)? {
        Some((template, own)) => template.refused_limit(alloc, &own, metric),
        None => Ok(None),
    }
}
