//! One entry of a document: what happened to a run.

ghost use Rattle.std.specs.Prelude.{◌≡◌, ◌<◌, ℕ, List, IfErr, IfOk, Option, Some, codes, false, length, option_and_then, option_map};
ghost use Rattle.json.specs.Find.{as_str, get as get_in};
ghost use Rattle.json.specs.Value.{value_view};
ghost use Rattle.serde_json.specs.Data.{Data};
ghost use Rattle.serde_json.specs.Find.{get};
ghost use Rattle.serde_json.specs.Read.{of_json};
ghost use Rattle.ar_value.specs.Answer.{Gives, there_or};
ghost use Rattle.ar_value.specs.View.{shape_view};
ghost use Rattle.ar_json.specs.Reading.{is_reading_memory as is_fault_of_memory};
ghost use Rattle.ar_judge.specs.Verdict.{misfit, sample_view};
ghost use Rattle.ar_bundle.specs.Sound.{FitsBundle, SampleSuits};
ghost use Rattle.ar_document.specs.Document.{is_bundle_memory};
ghost use Rattle.ar_document.specs.Entries.{Entry, entry_in, entry_saying, entry_view, just_one, measured_of, measurement_of, stated_by, sample_of, stop_of};
ghost use Rattle.ar_document.specs.Opening.{names_of, index_of_name};
ghost use Rattle.ar_document.specs.Private.Naming.{AreNumbers};
ghost use Rattle.ar_document.specs.Private.Opened.{IsOpened, opened_view};
ghost use Rattle.ar_document.specs.Private.Saying.{IsGiven, is_true_in, stated_with};
ghost use Rattle.ar_document.specs.declared.error.BundleError.TheVariants.{OutOfMemory, UnknownRun};

use crate::error::BundleError;
use crate::names::Numbers;
use crate::opening::Opened;
use ar_bundle::{EventPart, What};
use ar_json::value_reading::ShapeFault;
use ar_judge::Sample;
use ar_measured::Measurer;
use json::Value as Json;
use std::alloc::Global;

/// The number of a name.
fn number_of(numbers: &Numbers, name: &str) -> Option<usize>
    ensures { (names : List (List ℕ)) → AreNumbers names numbers.now → result ≡ index_of_name name.now names }
{
    numbers.get(name).copied()
}

/// What an entry says.
#[derive(Clone, Copy)]
struct Stated<'v, 'a> {
    run: Option<&'a str>,
    metric: Option<&'a str>,
    stops: bool,
    value: Option<&'v Json<'a>>,
    /// Is there an error?
    fails: bool,
}

/// A member that is a text.
fn text_of<'a>(item: &Json<'a>, name: &str) -> Option<&'a str>
    ensures { option_map (λ text. text.now) result ≡ option_and_then as_str (get_in name.now (value_view item.now)) }
{
    item.get(name)?.as_str()
}

fn is_true(found: Option<&Json<'_>>) -> bool
    ensures { result ≡ is_true_in (option_map (λ json. value_view json.now) found.entry) }
{
    match found {
        Some(Json::Bool(value)) => *value,
        _ => false,
    }
}

/// What an item says as an entry.
fn stated_by<'v, 'a>(item: &'v Json<'a>) -> Stated<'v, 'a>
    ensures says { (made : Data) → of_json (value_view item.now) ≡ Some made
        → stated_with result (get (codes "value") made) ≡ stated_by made }
    ensures value { (made : Data) → of_json (value_view item.now) ≡ Some made
        → IsGiven result.value (get (codes "value") made) }
{
    Stated {
        run: text_of(item, "run"),
        metric: text_of(item, "metric"),
        stops: is_true(item.get("stop")),
        value: item.get("value"),
        fails: item.get("error").is_some(),
    }
}

/// Is just one of the two there?
fn just_one(value: bool, error: bool) -> bool
    ensures { result ≡ just_one value error }
{
    value != error
}

/// A misfit, unless it is out of memory.
fn misfit_of(fault: ShapeFault) -> Result<Sample, BundleError>
    ensures misfit { IfOk result (λ sample. (sample_view sample ≡ misfit fault) × (is_fault_of_memory fault ≡ false)) }
    ensures memory { IfErr result (λ e. e ≡ OutOfMemory) }
{
    match fault {
        ShapeFault::OutOfMemory => Err(BundleError::OutOfMemory),
        fault => Ok(Sample::Misfit(fault)),
    }
}

/// The sample of a value, read under the shape of its metric; with no value the provider failed.
fn sample_of(
    alloc: Global,
    measurer: &Measurer,
    found: Option<&Json<'_>>,
) -> Result<Sample, BundleError>
    ensures exact { (given : Option Data) → IsGiven found.entry given
        → IfOk result (λ sample. sample_view sample ≡ sample_of (shape_view measurer.now) given) }
    ensures suits { IfOk result (λ sample. SampleSuits (shape_view measurer.now) (sample_view sample)) }
    ensures memory { IfErr result (λ e. e ≡ OutOfMemory) }
{
    let Some(json) = found else {
        return Ok(Sample::Provider);
    };
    match measurer.read(alloc, json) {
        Ok(value) => Ok(Sample::Measured(value)),
        Err(fault) => misfit_of(fault),
    }
}

/// The number of the run with a name, which the entry with a number names.
#[tactic(auto, using(crate::proofs::Naming::run_inside))]
fn run_number(opened: &Opened, number: usize, name: &str) -> Result<usize, BundleError>
    requires { IsOpened opened.now }
    ensures exact { Gives (λ _. false) (λ run. run) result
        (there_or (UnknownRun number) (index_of_name name.now (names_of opened.now.runs.items))) }
    ensures inside { IfOk result (λ run. run < length opened.now.runs.items) }
{
    number_of(&opened.run_numbers, name).ok_or(BundleError::UnknownRun(number))
}

/// A stop of the run with a name.
fn stop_of(opened: &Opened, number: usize, name: &str) -> Result<EventPart, BundleError>
    requires { IsOpened opened.now }
    ensures exact { Gives (λ _. false) entry_view result (stop_of (opened_view opened.now) number name.now) }
    ensures entry { IfOk result (FitsBundle opened.now.metrics.items (length opened.now.runs.items)) }
{
    let run = run_number(opened, number, name)?;
    Ok(EventPart {
        run,
        what: What::Stop,
    })
}

/// A measurement of the metric with a name.
fn measured_of(
    alloc: Global,
    opened: &Opened,
    number: usize,
    run: usize,
    name: &str,
    found: Option<&Json<'_>>,
) -> Result<EventPart, BundleError>
    requires opened { IsOpened opened.now }
    requires run { run < length opened.now.runs.items }
    ensures exact { (given : Option Data) → IsGiven found.entry given → Gives is_bundle_memory entry_view result
        (measured_of (opened_view opened.now) number run name.now given) }
    ensures entry { IfOk result (FitsBundle opened.now.metrics.items (length opened.now.runs.items)) }
{
    let metric = number_of(&opened.metric_numbers, name).ok_or(BundleError::UnknownMetric(number))?;
    let measurer = opened
        .measurers
        .get(metric)
        .ok_or(BundleError::UnknownMetric(number))?;
    let sample = sample_of(alloc, measurer, found)?;
    Ok(EventPart {
        run,
        what: What::Measure(metric, sample),
    })
}

/// A measurement, of the run with a name.
fn measurement_of(
    alloc: Global,
    opened: &Opened,
    number: usize,
    name: &str,
    said: &Stated<'_, '_>,
) -> Result<EventPart, BundleError>
    requires { IsOpened opened.now }
    ensures exact { (given : Option Data) → IsGiven said.now.value given → Gives is_bundle_memory entry_view result
        (measurement_of (opened_view opened.now) number name.now (stated_with said.now given)) }
    ensures entry { IfOk result (FitsBundle opened.now.metrics.items (length opened.now.runs.items)) }
{
    let Some(metric) = said.metric else {
        return Err(BundleError::BadEntry(number));
    };
    if !just_one(said.value.is_some(), said.fails) {
        return Err(BundleError::BadEntry(number));
    }
    let run = run_number(opened, number, name)?;
    measured_of(alloc, opened, number, run, metric, said.value)
}

/// The entry with a number, which says this.
fn entry_saying(
    alloc: Global,
    opened: &Opened,
    number: usize,
    said: &Stated<'_, '_>,
) -> Result<EventPart, BundleError>
    requires { IsOpened opened.now }
    ensures exact { (given : Option Data) → IsGiven said.now.value given → Gives is_bundle_memory entry_view result
        (entry_saying (opened_view opened.now) number (stated_with said.now given)) }
    ensures entry { IfOk result (FitsBundle opened.now.metrics.items (length opened.now.runs.items)) }
{
    let Some(name) = said.run else {
        return Err(BundleError::BadEntry(number));
    };
    if said.stops {
        stop_of(opened, number, name)
    } else {
        measurement_of(alloc, opened, number, name, said)
    }
}

/// The entry with a number.
pub(crate) fn entry_of(
    alloc: Global,
    opened: &Opened,
    number: usize,
    item: &Json<'_>,
) -> Result<EventPart, BundleError>
    requires { IsOpened opened.now }
    // Where the item is data.
    ensures exact { (earlier : List Entry) → length earlier ≡ number
        → (made : Data) → of_json (value_view item.now) ≡ Some made
        → Gives is_bundle_memory entry_view result (entry_in (opened_view opened.now) earlier made) }
    ensures entry { IfOk result (FitsBundle opened.now.metrics.items (length opened.now.runs.items)) }
{
    entry_saying(alloc, opened, number, &stated_by(item))
}
