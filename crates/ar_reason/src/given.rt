//! What the provider of a metric gave.

ghost use Rattle.std.specs.Prelude.{◌≡◌, IfOk, codes, option_and_then, option_map, slice_get};
ghost use Rattle.serde_json.specs.Find.{as_str};
ghost use Rattle.serde_json.specs.View.{view};
ghost use Rattle.ar_judge.specs.Verdict.{sample_view};
ghost use Rattle.ar_reason.specs.Reason.{error_of, given_by, given_unfit, given_of, measured_member, misfit_there};
ghost use Rattle.ar_reason.specs.Views.{given_view};

use ar_bundle::{Bundle, MetricPart, What};
use ar_judge::Sample;
use ar_misfit::{Misfit, misfit_of};
use ar_value::value::Value;
use serde_json::Value as Json;
use std::alloc::{AllocError, Global};

/// What the provider of a metric gave.
#[derive(Drop)]
pub(crate) enum Given<'d> {
    /// Nothing: the event is a stop, or the provider failed without a text.
    Nothing,
    /// An error with this text.
    Error(&'d str),
    Value(&'d Value),
    /// What doesn't fit the metric's shape.
    Misfit(Misfit<'d>),
}

/// A member of a measurement, as the document has it.
fn measured_member<'d>(document: &'d Json, number: u64, name: &str) -> Option<&'d Json>
    ensures { option_map (λ json. view json.now) result
        ≡ measured_member name.now (view document.now) number }
{
    document
        .get("measurements")?
        .get(number as usize)?
        .get(name)
}

/// Where a value doesn't fit the shape of its metric.
fn misfit_there<'d>(
    alloc: Global,
    found: Option<&'d Json>,
    metric: Option<&'d MetricPart>,
) -> Result<Given<'d>, AllocError>
    ensures { IfOk result (λ given. given_view given ≡ given_unfit (misfit_there
        (option_map (λ json. view json.now) found.entry) (option_map (λ metric. metric.now) metric.entry))) }
{
    let (Some(found), Some(metric)) = (found, metric) else {
        return Ok(Given::Nothing);
    };
    match misfit_of(alloc, found, metric.shape.get())? {
        Some(misfit) => Ok(Given::Misfit(misfit)),
        None => Ok(Given::Nothing),
    }
}

/// The text of a provider's error, where the document has one.
fn error_text(document: &Json, number: u64) -> Option<&str>
    ensures { option_map (λ text. text.now) result
        ≡ option_and_then as_str (measured_member (codes "error") (view document.now) number) }
{
    measured_member(document, number, "error")?.as_str()
}

/// An error of a provider, with this text where there is one.
fn error_of<'d>(text: Option<&'d str>) -> Given<'d>
    ensures { given_view result ≡ error_of (option_map (λ text. text.now) text.entry) }
{
    match text {
        Some(text) => Given::Error(text),
        None => Given::Nothing,
    }
}

/// What a sample is, of which the document has a value or the text of an error there and the metric is known.
fn sample_given<'d>(
    alloc: Global,
    sample: &'d Sample,
    value: Option<&'d Json>,
    error: Option<&'d str>,
    metric: Option<&'d MetricPart>,
) -> Result<Given<'d>, AllocError>
    ensures { IfOk result (λ given. given_view given ≡ given_by (misfit_there
        (option_map (λ json. view json.now) value.entry) (option_map (λ metric. metric.now) metric.entry))
        (error_of (option_map (λ text. text.now) error.entry)) (sample_view sample.now)) }
{
    match sample {
        Sample::Provider => Ok(error_of(error)),
        Sample::Misfit(_) => misfit_there(alloc, value, metric),
        Sample::Measured(value) => Ok(Given::Value(value)),
    }
}

/// What an event's provider gave, if it isn't a stop.
pub(crate) fn given_of<'d>(
    alloc: Global,
    document: &'d Json,
    bundle: &'d Bundle,
    number: u64,
    what: &'d What,
) -> Result<Given<'d>, AllocError>
    ensures { IfOk result
        (λ given. given_view given ≡ given_of (view document.now) bundle.now number what.now) }
{
    match what {
        What::Measure(metric, sample) => {
            let value = measured_member(document, number, "value");
            let error = error_text(document, number);
            sample_given(alloc, sample, value, error, bundle.metrics().get(*metric))
        }
        What::Stop => Ok(Given::Nothing),
    }
}
