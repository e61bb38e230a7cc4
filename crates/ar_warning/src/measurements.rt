//! Warnings of measurements: of each metric, the first whose value is refused for its kind.

ghost use Rattle.std.specs.Prelude.{◌≡◌, ◌++◌, IfOk, OnOk};
ghost use Rattle.ar_warning.specs.Measurements.{fault_of_metric, metric_misfits, misfit_found, misfit_warning, misfit_warnings, warned_fault};

use crate::misfits::misfit_expected;
use ar_bundle::{Bundle, EventPart, MetricPart, What};
use ar_diagnostic::{Diagnostic, EntryPart, Place};
use ar_json::ShapeFault;
use ar_judge::Sample;
use ar_quote::push_quoted;
use ar_value::Text;
use std::alloc::{AllocError, Global};

/// The fault of a value that is warned of: a number that isn't taken, or another kind than its shape.
fn warned_fault(sample: &Sample) -> Option<ShapeFault>
    ensures { result ≡ warned_fault sample.now }
{
    match sample {
        Sample::Misfit(ShapeFault::FloatNumber) => Some(ShapeFault::FloatNumber),
        Sample::Misfit(ShapeFault::WrongKind) => Some(ShapeFault::WrongKind),
        _ => None,
    }
}

/// The fault that an event is warned of, if it measures the metric with this number.
fn fault_of_metric(metric: usize, what: &What) -> Option<ShapeFault>
    ensures { result ≡ fault_of_metric metric what.now }
{
    match what {
        What::Measure(measured, sample) if *measured == metric => warned_fault(sample),
        What::Measure(..) | What::Stop => None,
    }
}

fn misfit_found(alloc: Global, metric: &str, fault: ShapeFault) -> Result<Text, AllocError>
    ensures { IfOk result (λ text. text ≡ misfit_found metric.now fault) }
{
    let mut text = format!(in alloc; "{}, the first such error of metric ", fault.name())?;
    push_quoted(&mut text, metric)?;
    Ok(Text::from(text))
}

/// A measurement of a metric counts as an error for the kind of its value.
fn misfit_warning(
    alloc: Global,
    metric: &str,
    number: usize,
    fault: ShapeFault,
) -> Result<Diagnostic, AllocError>
    ensures { IfOk result (λ it. it ≡ misfit_warning metric.now number fault) }
{
    let found = misfit_found(alloc, metric, fault)?;
    let hint = Text::from(format!(in alloc; "`explain --event {number}` shows where")?);
    let place = Place::EntryMember(number, EntryPart::Value);
    let it = Diagnostic::expecting(alloc, place, fault.name(), misfit_expected(fault))?;
    Ok(it.with_found(Some(found)).with_hint(Some(hint)))
}

/// Puts the warning of a metric's first event that has one after others.
#[tactic(auto, using(crate::proofs::FirstMisfit::first_misfit, crate::proofs::FirstMisfit::later_misfit, crate::proofs::FirstMisfit::no_misfit))]
fn push_metric(
    alloc: Global,
    out: &mut Vec<Diagnostic>,
    events: &[EventPart],
    number: usize,
    metric: &MetricPart,
) -> Result<(), AllocError>
    ensures { OnOk result (out.new.items ≡ out.old.items ++ metric_misfits events.now number metric.now) }
{
    for (event_number, event) in events.iter().enumerate() {
        if let Some(fault) = fault_of_metric(number, &event.what) {
            let it = misfit_warning(alloc, metric.name.as_str(), event_number, fault)?;
            return Ok(out.push(it)?);
        }
    }
    Ok(())
}

/// Puts the warnings of a bundle's measurements after others.
///
/// # Errors
///
/// Out of memory alone.
#[tactic(auto, using(crate::proofs::Warned::next_item, crate::proofs::Warned::no_item))]
pub fn push_misfits(
    alloc: Global,
    out: &mut Vec<Diagnostic>,
    bundle: &Bundle,
) -> Result<(), AllocError>
    ensures { OnOk result (out.new.items ≡ out.old.items ++ misfit_warnings bundle.now) }
{
    let metrics = bundle.metrics();
    for (number, metric) in metrics.iter().enumerate() {
        push_metric(alloc, out, bundle.entries(), number, metric)?;
    }
    Ok(())
}
