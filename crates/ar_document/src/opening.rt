//! What a document has before its runs are examined one by one.

ghost use Rattle.std.specs.Prelude.{◌≡◌, IfOk, List, length, map, option_and_then, option_map};
ghost use Rattle.serde_json.specs.Find.{get};
ghost use Rattle.serde_json.specs.View.{view};
ghost use Rattle.ar_value.specs.Answer.{Gives};
ghost use Rattle.ar_json.specs.Declaration.{shape_of as declared_shape};
ghost use Rattle.ar_value.specs.View.{shape_view};
ghost use Rattle.ar_judge.specs.Saying.{refused_as};
ghost use Rattle.ar_document.specs.Document.{is_bundle_memory};
ghost use Rattle.ar_document.specs.Opening.{Metric as Named, metric_view, metrics_in, opened_of, template_in, with_shape};
ghost use Rattle.ar_document.specs.declared.error.BundleError.TheVariants.{Shapes};
ghost use Rattle.ar_document.specs.Private.Naming.{AreNumbers};
ghost use Rattle.ar_document.specs.Private.Opened.{IsOpened, metric_names, opened_view};

use crate::error::BundleError;
use crate::names::{Numbers, add_name};
use crate::runs::{Run, read_runs};
use ar_bundle::MetricPart;
use ar_json::shape_reading::{ShapeError, read_shape};
use ar_manifest::{ManifestError, Metric, Template};
use ar_measured::Measurer;
use ar_value::holding::{try_push, zip_ok};
use ar_value::shared_shape::SharedShape;
use ar_value::text::Text;
use serde_json::Value as Json;
use std::alloc::{AllocError, Global};
use std::mem;

/// A document's template, its metrics with their shapes and what reads their values, its runs as they
/// are written, and the numbers of metrics and runs by their names.
#[derive(Drop)]
pub(crate) struct Opened {
    pub template: Template,
    pub metrics: Vec<MetricPart>,
    /// One for each metric.
    pub measurers: Vec<Measurer>,
    pub runs: Vec<Run>,
    pub run_numbers: Numbers,
    pub metric_numbers: Numbers,
}

impl Opened {
    /// Its template, metrics and runs, once no more entries are read.
    pub(crate) fn into_declared(self) -> (Template, Vec<MetricPart>, Vec<Run>)
        ensures template { result.0 ≡ self.template }
        ensures metrics { result.1 ≡ self.metrics }
        ensures runs { result.2 ≡ self.runs }
    {
        mem::drop((self.measurers, self.run_numbers, self.metric_numbers));
        (self.template, self.metrics, self.runs)
    }
}

/// The template of a document.
fn template_of(alloc: Global, document: &Json) -> Result<Template, BundleError>
    ensures { Gives is_bundle_memory (λ template. template) result (template_in (view document.now)) }
{
    let manifest = document.get("manifest").unwrap_or(&Json::Null);
    match Template::read(alloc, manifest) {
        Ok(template) => Ok(template),
        Err(ManifestError::OutOfMemory) => Err(BundleError::OutOfMemory),
        Err(error) => Err(BundleError::Manifest(error)),
    }
}

/// The shape that a JSON value declares for the metric with a number.
fn shape_of(alloc: Global, declared: &Json, number: usize) -> Result<SharedShape, BundleError>
    ensures { Gives is_bundle_memory shape_view result
        (refused_as (Shapes number) (declared_shape (view declared.now))) }
{
    match read_shape(alloc, declared) {
        Ok(shape) => Ok(SharedShape::new(alloc, shape)?),
        Err(ShapeError::OutOfMemory) => Err(BundleError::OutOfMemory),
        Err(error) => Err(BundleError::Shapes(number, error)),
    }
}

/// What is declared for a name.
fn declared<'a>(shapes: Option<&'a Json>, name: &str) -> Option<&'a Json>
    ensures { option_map (λ json. view json.now) result ≡ option_and_then (get name.now)
        (option_map (λ json. view json.now) shapes.entry) }
{
    shapes?.get(name)
}

/// A metric with the shape that is declared for it.
fn metric_of(
    alloc: Global,
    shapes: Option<&Json>,
    metric: &Metric,
    number: usize,
) -> Result<MetricPart, BundleError>
    ensures { (earlier : List Named) → length earlier ≡ number
        → Gives is_bundle_memory metric_view result
        (with_shape (option_map (λ json. view json.now) shapes.entry) earlier metric.now) }
{
    let name = metric.name.as_str();
    let Some(declared) = declared(shapes, name) else {
        return Err(BundleError::ShapeMissing(number));
    };
    let shape = shape_of(alloc, declared, number)?;
    Ok(MetricPart {
        name: Text::of(alloc, name)?,
        shape,
    })
}

/// The metrics of a template with the shapes that are declared for them.
fn metrics_of(
    alloc: Global,
    shapes: Option<&Json>,
    metrics: &[Metric],
) -> Result<Vec<MetricPart>, BundleError>
    ensures exact { Gives is_bundle_memory (λ parts. map metric_view parts.items) result
        (metrics_in (option_map (λ json. view json.now) shapes.entry) metrics.now) }
    ensures each { IfOk result (λ parts. length parts.items ≡ length metrics.now) }
{
    let mut parts = Vec::with_capacity(alloc, metrics.len())?;
    for (number, metric) in metrics.iter().enumerate() {
        let part = metric_of(alloc, shapes, metric, number)?;
        try_push(&mut parts, part)?;
    }
    Ok(parts)
}

/// The numbers of metrics by their names.
fn numbers_of(alloc: Global, metrics: &[MetricPart]) -> Result<Numbers, AllocError>
    ensures { IfOk result (AreNumbers (metric_names (map metric_view metrics.now))) }
{
    let mut numbers = Numbers::new(alloc);
    for (number, metric) in metrics.iter().enumerate() {
        add_name(alloc, &mut numbers, metric.name.as_str(), number)?;
    }
    Ok(numbers)
}

/// What reads the values of each metric.
fn measurers_of(alloc: Global, metrics: &[MetricPart]) -> Result<Vec<Measurer>, AllocError>
    ensures { IfOk result (λ measurers. measurers.items ≡ map (λ metric. metric.shape) metrics.now) }
{
    let mut measurers = Vec::with_capacity(alloc, metrics.len())?;
    for metric in metrics {
        let shape = metric.shape.share()?;
        let measurer = Measurer::new(alloc, shape)?;
        try_push(&mut measurers, measurer)?;
    }
    Ok(measurers)
}

/// The numbers of metrics by their names, and what reads their values.
fn numbers_and_measurers(
    alloc: Global,
    metrics: &[MetricPart],
) -> Result<(Numbers, Vec<Measurer>), AllocError>
    ensures numbers { IfOk result (λ made. AreNumbers (metric_names (map metric_view metrics.now)) made.0) }
    ensures measurers { IfOk result (λ made. made.1.items ≡ map (λ metric. metric.shape) metrics.now) }
{
    let numbers = numbers_of(alloc, metrics)?;
    zip_ok(numbers, measurers_of(alloc, metrics))
}

/// The metrics of a template with their shapes, their numbers by their names, and what reads their values.
fn numbered_metrics(
    alloc: Global,
    shapes: Option<&Json>,
    metrics: &[Metric],
) -> Result<(Vec<MetricPart>, (Numbers, Vec<Measurer>)), BundleError>
    ensures exact { Gives is_bundle_memory (λ made. map metric_view made.0.items) result
        (metrics_in (option_map (λ json. view json.now) shapes.entry) metrics.now) }
    ensures each { IfOk result (λ made. length made.0.items ≡ length metrics.now) }
    ensures numbers { IfOk result (λ made. AreNumbers (metric_names (map metric_view made.0.items)) made.1.0) }
    ensures measurers { IfOk result (λ made. made.1.1.items ≡ map (λ metric. metric.shape) made.0.items) }
{
    let parts = metrics_of(alloc, shapes, metrics)?;
    let found = numbers_and_measurers(alloc, &parts);
    Ok(zip_ok(parts, found)?)
}

/// A document's template, metrics and runs.
#[tactic(auto, using(crate::proofs::Templates::few_metrics), unfolding(crate::specs::Opening::opened_of))]
pub(crate) fn open(alloc: Global, document: &Json) -> Result<Opened, BundleError>
    ensures exact { Gives is_bundle_memory opened_view result (opened_of (view document.now)) }
    ensures opened { IfOk result IsOpened }
{
    let template = template_of(alloc, document)?;
    let metrics = numbered_metrics(alloc, document.get("shapes"), template.metrics.as_slice());
    let held = zip_ok(template, metrics)?;
    let (held, runs) = zip_ok(held, read_runs(alloc, document))?;
    let (template, (metrics, (metric_numbers, measurers))) = held;
    let (runs, run_numbers) = runs;
    Ok(Opened {
        template,
        metrics,
        measurers,
        runs,
        run_numbers,
        metric_numbers,
    })
}
