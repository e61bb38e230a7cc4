//! What `explain` says of an input.

ghost use Rattle.std.specs.Prelude.{◌≡◌, ℕ, Err, IfOk, List, Ok, string_bytes};
ghost use Rattle.serde_json.specs.Data.{Data};
ghost use Rattle.serde_json.specs.View.{view};
ghost use Rattle.ar_value.specs.Answer.{IfRefused};
ghost use Rattle.ar_bundle.specs.Finished.{AreFinished};
ghost use Rattle.ar_document.specs.Document.{ReadsInput};
ghost use Rattle.ar_document.specs.Unmeasured.{KeepsUnmeasured};
ghost use Rattle.ar_document.specs.Opening.{index_of_name};
ghost use Rattle.ar_json.specs.Document.{json_in};
ghost use Rattle.ar_reason.specs.Reason.{reasons_of};
ghost use Rattle.ar_reason.specs.ReasonData.{reasons_data};
ghost use Rattle.ar_reason.specs.ReasonText.{reasons_text};
ghost use Rattle.ar_command.specs.Private.Counting.{metric_names, run_names};
ghost use Rattle.ar_command.specs.Private.Refusing.{NamesRefusal, is_serve_memory};
ghost use Rattle.ar_command.specs.Serving.{Explains, IsPrinted, RefusesInput, Says, chosen_of};
ghost use Rattle.ar_command.specs.Warned.{AreWarningsOf};
ghost use Rattle.ar_command_line.specs.Selection.{selected};
ghost use Rattle.ar_command_line.specs.declared.command_line.Command.TheVariants as commands;

use crate::answer::{Answered, well_said};
use crate::reading::{Reading, read_kept};
use crate::serving::{Refusal, ServeError};
use ar_bundle::{Bundle, Finished, MetricPart, RunPart, finish_plain};
use ar_command_line::{Format, Selection};
use ar_progress::Chosen;
use ar_reason::{reasons_json, reasons_text};
use serde_json::Value as Json;
use std::alloc::{AllocError, Global};

/// The number of the run of a name.
#[tactic(auto, using(crate::proofs::Naming::run_here, crate::proofs::Naming::run_later, crate::proofs::Naming::no_run, crate::proofs::Naming::from_first_run))]
fn run_named(runs: &[RunPart], name: &str) -> Option<usize>
    ensures { result ≡ index_of_name name.now (run_names runs.now) }
{
    for (number, run) in runs.iter().enumerate() {
        if name == run.name.as_str() {
            return Some(number);
        }
    }
    None
}

/// The number of the metric of a name.
#[tactic(auto, using(crate::proofs::Naming::metric_here, crate::proofs::Naming::metric_later, crate::proofs::Naming::no_metric, crate::proofs::Naming::from_first_metric))]
fn metric_named(metrics: &[MetricPart], name: &str) -> Option<usize>
    ensures { result ≡ index_of_name name.now (metric_names metrics.now) }
{
    for (number, metric) in metrics.iter().enumerate() {
        if name == metric.name.as_str() {
            return Some(number);
        }
    }
    None
}

/// The events that a selection asks for, where the bundle has what it names.
fn chosen_of(bundle: &Bundle, selection: Selection<'_>) -> Option<Chosen>
    ensures { result ≡ chosen_of bundle.now (selected selection.entry) }
{
    match selection {
        Selection::All => Some(Chosen::All),
        Selection::Event(number) if number < bundle.events() => Some(Chosen::Event(number)),
        Selection::Event(_) => None,
        Selection::Run(name) => Some(Chosen::Run(run_named(bundle.runs(), name)?)),
        Selection::Metric(name) => Some(Chosen::Metric(metric_named(bundle.metrics(), name)?)),
    }
}

/// What led to the events that are asked for, as it is to be written, where these values are given.
fn reasons(
    alloc: Global,
    format: Format,
    given: &Json,
    bundle: &Bundle,
    finished: &Finished,
    chosen: Chosen,
) -> Result<String, AllocError>
    requires { AreFinished bundle.now finished.now }
    ensures { IfOk result (λ text. IsPrinted format
        (reasons_text (reasons_of (view given.now) bundle.now chosen finished.now.histories))
        (reasons_data (reasons_of (view given.now) bundle.now chosen finished.now.histories))
        (string_bytes text)) }
{
    match format {
        Format::Text => reasons_text(alloc, given, bundle, finished, chosen),
        Format::Json => reasons_json(alloc, given, bundle, finished, chosen),
    }
}

/// What `explain` says of a bundle, of whose document the measurements that gave no value are kept.
fn said_of(
    alloc: Global,
    selection: Selection<'_>,
    format: Format,
    kept: &Json,
    bundle: &Bundle,
) -> Result<String, ServeError>
    ensures said { (input : List ℕ) (document : Data) → json_in input ≡ Ok document
        → KeepsUnmeasured bundle.now document (view kept.now) → ReadsInput input (Ok bundle.now)
        → IfOk result (λ text. Explains (selected selection.entry) format input (string_bytes text)) }
    ensures refused { (input : List ℕ) → ReadsInput input (Ok bundle.now) → IfRefused is_serve_memory result
        (NamesRefusal (RefusesInput (commands.Explain selection.entry format) input)) }
{
    let Some(chosen) = chosen_of(bundle, selection) else {
        return Err(ServeError::Refused(Refusal::NotThere));
    };
    let finished = finish_plain(alloc, bundle)?;
    Ok(reasons(alloc, format, kept, bundle, &finished, chosen)?)
}

pub(crate) fn explained(
    alloc: Global,
    selection: Selection<'_>,
    format: Format,
    input: &[u8],
) -> Result<Answered, ServeError>
    ensures said { IfOk result
        (λ it. Says (commands.Explain selection.entry format) input.now (string_bytes it.said.text) it.said.closing) }
    ensures warns { IfOk result (λ it. AreWarningsOf input.now it.warnings.items) }
    ensures refused { IfRefused is_serve_memory result
        (NamesRefusal (RefusesInput (commands.Explain selection.entry format) input.now)) }
{
    let (kept, Reading { bundle, warnings }) = read_kept(alloc, input)?;
    let text = said_of(alloc, selection, format, &kept, &bundle)?;
    Ok(well_said(text, warnings))
}
