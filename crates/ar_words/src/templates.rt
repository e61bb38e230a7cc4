//! Refusals of templates, and of their binding to the arguments of a run.

ghost use Rattle.std.specs.Prelude.{◌≡◌, ◌++◌, IfOk, OnOk, Some, map, option_and_then, option_map, string_bytes};
ghost use Rattle.serde_json.specs.View.{view};
ghost use Rattle.ar_words.specs.Fields.{metric_misfit, misfit_of};
ghost use Rattle.ar_diagnostic.specs.Diagnostic.{expecting};
ghost use Rattle.ar_diagnostic.specs.declared.place.Place.TheVariants as places;
ghost use Rattle.ar_words.specs.Bindings.{limit_in};
ghost use Rattle.ar_words.specs.Lists.{list_item, metrics};
ghost use Rattle.ar_words.specs.Templates.{argument_place, arguments_there, arguments_diagnostic, binding_diagnostic, bound_place, dry_run_diagnostic, dry_run_hint, expecting_field, field_diagnostic, field_of_limit, given_kind, head_diagnostic, kind_of_list, limit_diagnostic, limit_field, limit_said, list_diagnostic, list_kind, manifest_hint, metric_diagnostic, metric_place, reference_said, template_diagnostic, unknown_argument, unnamed_dry_run, unnamed_place, unvalued_argument, value_said};

use crate::bindings::{limit_in, unbound_in};
use crate::fields::{FieldMisfit, field_said, metric_misfit};
use crate::items::{metric_item, named_item, run_item};
use crate::lists::{item_at, list_in, metrics, template_list, text_at};
use crate::names::{no_metric_named, those_there};
use ar_diagnostic::{
    Diagnostic, Item, Member, MetricField, Place, SpecPart, TemplateField, Within, copy_of,
    with_quoted,
};
use ar_json::members::text_member;
use ar_manifest::{LimitField, LimitValue, ManifestError, RefusedLimit};
use ar_quote::push_quoted;
use ar_value::Text;
use serde_json::Value as Json;
use std::alloc::{AllocError, Global};
use std::fmt::Write;

// ---- the head of a template

/// A kind, if it is one of lists.
fn kind_of_list(kind: Option<&str>) -> Option<&str>
    ensures { option_map (λ kind. kind.now) result ≡ kind_of_list (option_map (λ kind. kind.now) kind.entry) }
{
    match kind {
        Some("List" | "AnalysisTemplateList" | "ClusterAnalysisTemplateList") => kind,
        _ => None,
    }
}

/// The kind of what has `items`, if it is one of lists.
fn list_kind(json: &Json) -> Option<&str>
    ensures { option_map (λ kind. kind.now) result ≡ list_kind (view json.now) }
{
    match list_in(json, "items") {
        Some(_) => kind_of_list(text_member(json, "kind")),
        None => None,
    }
}

/// The kind of a list of templates that is in place of a template, or is the whole document.
fn given_kind(document: &Json) -> Option<&str>
    ensures { option_map (λ kind. kind.now) result ≡ given_kind (view document.now) }
{
    match document.get("manifest") {
        Some(manifest) => list_kind(manifest),
        None => list_kind(document),
    }
}

/// What helps where the template is the whole document.
fn manifest_hint(manifest: Option<&Json>) -> Option<&'static str>
    ensures { option_map (λ hint. hint.now) result ≡ manifest_hint (option_map (λ json. view json.now) manifest.entry) }
{
    match manifest {
        None => Some("the document has no member `manifest`, which takes the template"),
        Some(_) => None,
    }
}

/// A list of templates is in place of a template.
fn list_diagnostic(alloc: Global, name: &str, kind: &str) -> Result<Diagnostic, AllocError>
    ensures { IfOk result (λ it. it ≡ list_diagnostic name.now kind.now) }
{
    let found = with_quoted(alloc, "", kind, " is a list of templates")?;
    let hint = Text::of(alloc, "`manifest` takes one of its `items`")?;
    let it = Diagnostic::named(alloc, Place::Member(Member::Manifest), name)?;
    Ok(it.with_found(Some(found)).with_hint(Some(hint)))
}

/// The version or the kind is another one, as that of a list of templates is.
fn head_diagnostic(
    alloc: Global,
    document: &Json,
    field: TemplateField,
    name: &str,
    expected: &str,
) -> Result<Diagnostic, AllocError>
    ensures { IfOk result (λ it. it
        ≡ head_diagnostic (view document.now) field name.now expected.now (given_kind (view document.now))) }
{
    if let Some(kind) = given_kind(document) {
        return list_diagnostic(alloc, name, kind);
    }
    let hint = copy_of(alloc, manifest_hint(document.get("manifest")))?;
    let it = Diagnostic::expecting(alloc, Place::Template(field), name, expected)?;
    Ok(it.with_hint(hint))
}

// ---- the template

/// An argument, if there is one of the number, or all of them.
fn argument_place(item: Item, argument: Option<&Json>) -> Place
    ensures { result ≡ argument_place item (option_map (λ json. view json.now) argument.entry) }
{
    match argument {
        Some(_) => Place::Argument(item),
        None => Place::Spec(SpecPart::Args),
    }
}

fn arguments_diagnostic(
    alloc: Global,
    number: usize,
    arguments: Option<&[Json]>,
) -> Result<Diagnostic, AllocError>
    ensures { IfOk result (λ it. it ≡ arguments_diagnostic number
        (option_map (λ list. map (λ item. view item) list.now) arguments.entry)) }
{
    let expected = format!(in alloc;
        "a list, and of argument {number} a text `name` of its own and no `value` but a text"
    )?;
    let item = named_item(alloc, number, arguments)?;
    let place = argument_place(item, item_at(arguments, number));
    Diagnostic::expecting(alloc, place, "BadArgs", expected.as_str())
}

/// A metric of a template, or a field of it.
fn metric_place(
    alloc: Global,
    document: &Json,
    metric: usize,
    field: Option<MetricField>,
) -> Result<Place, AllocError>
    ensures { IfOk result (λ place. place ≡ metric_place (view document.now) metric field) }
{
    Ok(Place::Metric(
        Within::Manifest(field),
        metric_item(alloc, document, metric)?,
    ))
}

/// Something else is expected of a field of a metric.
fn expecting_field(
    alloc: Global,
    document: &Json,
    metric: usize,
    field: MetricField,
    name: &str,
    expected: &str,
) -> Result<Diagnostic, AllocError>
    ensures { IfOk result
        (λ it. it ≡ expecting_field (view document.now) metric field name.now expected.now) }
{
    let place = metric_place(alloc, document, metric, Some(field))?;
    Diagnostic::expecting(alloc, place, name, expected)
}

/// This field of a metric holds a value of another kind than it takes.
fn misfit_diagnostic(
    alloc: Global,
    document: &Json,
    metric: usize,
    misfit: FieldMisfit<'_>,
) -> Result<Diagnostic, AllocError>
    ensures { IfOk result (λ it. it ≡ field_diagnostic (view document.now) metric
        (Some (misfit_of misfit.entry.field (view misfit.entry.value.now) misfit.entry.expected.now))) }
{
    let found = field_said(alloc, misfit)?;
    let place = metric_place(alloc, document, metric, Some(misfit.field))?;
    let it = Diagnostic::expecting(alloc, place, "BadField", misfit.expected)?;
    Ok(it.with_found(Some(found)))
}

/// A field of a metric holds a value of another kind than it takes: the first one, which is looked for.
fn field_diagnostic(alloc: Global, document: &Json, metric: usize) -> Result<Diagnostic, AllocError>
    ensures { IfOk result (λ it. it ≡ field_diagnostic (view document.now) metric
        (option_and_then metric_misfit (list_item metric (metrics (view document.now))))) }
{
    match metric_misfit(item_at(metrics(document), metric)) {
        Some(misfit) => misfit_diagnostic(alloc, document, metric, misfit),
        None => {
            let place = metric_place(alloc, document, metric, None)?;
            let expected = "texts for conditions and `interval`, numbers or texts for limits";
            Diagnostic::expecting(alloc, place, "BadField", expected)
        }
    }
}

/// An item of `dryRun`, if there is one of the number, or all of them.
fn unnamed_place(number: usize, item: Option<&Json>) -> Place
    ensures { result ≡ unnamed_place number (option_map (λ json. view json.now) item.entry) }
{
    match item {
        Some(_) => Place::UnnamedDryRun(number),
        None => Place::Spec(SpecPart::DryRun),
    }
}

/// `dryRun` is no list, or an item of it has no name.
fn unnamed_dry_run(
    alloc: Global,
    number: usize,
    items: Option<&[Json]>,
) -> Result<Diagnostic, AllocError>
    ensures { IfOk result (λ it. it ≡ unnamed_dry_run number
        (option_map (λ list. map (λ item. view item) list.now) items.entry)) }
{
    let expected = format!(in alloc;
        "a list, and of item {number} a text `metricName` that isn't empty"
    )?;
    let place = unnamed_place(number, item_at(items, number));
    Diagnostic::expecting(alloc, place, "BadDryRun", expected.as_str())
}

fn dry_run_hint(
    alloc: Global,
    name: Option<&str>,
    found: Option<&[Json]>,
) -> Result<Option<Text>, AllocError>
    ensures { IfOk result (λ hint. hint ≡ dry_run_hint (option_map (λ name. name.now) name.entry)
        (option_map (λ list. map (λ item. view item) list.now) found.entry)) }
{
    let (Some(name), Some(found)) = (name, found) else {
        return Ok(None);
    };
    Ok(Some(no_metric_named(alloc, name, found)?))
}

/// An item of `dryRun` names no metric.
fn dry_run_diagnostic(
    alloc: Global,
    document: &Json,
    number: usize,
) -> Result<Diagnostic, AllocError>
    ensures { IfOk result (λ it. it ≡ dry_run_diagnostic (view document.now) number) }
{
    let name = text_at(template_list(document, "dryRun"), number, "metricName");
    let hint = dry_run_hint(alloc, name, metrics(document))?;
    let expected = "a metric's whole name, or `.*` alone";
    let it = Diagnostic::expecting(alloc, Place::DryRunName(number), "UnknownDryRun", expected)?;
    Ok(it.with_hint(hint))
}

/// The refusal of a metric of a template.
#[tactic(auto, unfolding(crate::specs::Templates::metric_diagnostic))]
fn metric_diagnostic(
    alloc: Global,
    document: &Json,
    error: ManifestError,
) -> Result<Diagnostic, AllocError>
    ensures { IfOk result (λ it. it ≡ metric_diagnostic (view document.now) error) }
{
    match error {
        ManifestError::MetricNameMissing(metric) => {
            let (field, expected) = (MetricField::Name, "a text `name`");
            expecting_field(
                alloc,
                document,
                metric,
                field,
                "MetricNameMissing",
                expected,
            )
        }
        ManifestError::DoubleMetric(metric) => {
            let (field, expected) = (MetricField::Name, "a name that no earlier metric has");
            expecting_field(alloc, document, metric, field, "DoubleMetric", expected)
        }
        ManifestError::BadField(metric) => field_diagnostic(alloc, document, metric),
        ManifestError::Unsupported(metric) => {
            let field = MetricField::ConsecutiveSuccessLimit;
            let expected = "no `consecutiveSuccessLimit`";
            expecting_field(alloc, document, metric, field, "Unsupported", expected)
        }
        _ => Diagnostic::named(alloc, Place::Member(Member::Manifest), error.name()),
    }
}

/// Something else is expected of a field that each template has.
fn expecting_template(
    alloc: Global,
    field: TemplateField,
    name: &str,
    expected: &str,
) -> Result<Diagnostic, AllocError>
    ensures { IfOk result (λ it. it ≡ expecting (places.Template field) name.now expected.now) }
{
    Diagnostic::expecting(alloc, Place::Template(field), name, expected)
}

/// The refusal of a template.
#[tactic(auto, unfolding(crate::specs::Templates::template_diagnostic))]
pub(crate) fn template_diagnostic(
    alloc: Global,
    document: &Json,
    error: ManifestError,
) -> Result<Diagnostic, AllocError>
    ensures { IfOk result (λ it. it ≡ template_diagnostic (view document.now) error) }
{
    match error {
        ManifestError::WrongVersion => {
            let expected = "`apiVersion` \"argoproj.io/v1alpha1\"";
            head_diagnostic(
                alloc,
                document,
                TemplateField::Version,
                "WrongVersion",
                expected,
            )
        }
        ManifestError::WrongKind => {
            let expected = "`kind` \"AnalysisTemplate\" or \"ClusterAnalysisTemplate\"";
            head_diagnostic(alloc, document, TemplateField::Kind, "WrongKind", expected)
        }
        ManifestError::NameMissing => {
            let expected = "a text `metadata.name` that isn't empty";
            expecting_template(alloc, TemplateField::Name, "NameMissing", expected)
        }
        ManifestError::BadArgs(number) => {
            arguments_diagnostic(alloc, number, template_list(document, "args"))
        }
        ManifestError::NoMetrics => {
            let expected = "a list `spec.metrics` of at least one metric";
            expecting_template(alloc, TemplateField::Metrics, "NoMetrics", expected)
        }
        ManifestError::TooManyMetrics => {
            let expected = "at most 64 metrics";
            expecting_template(alloc, TemplateField::Metrics, "TooManyMetrics", expected)
        }
        ManifestError::BadDryRun(number) => {
            unnamed_dry_run(alloc, number, template_list(document, "dryRun"))
        }
        ManifestError::UnknownDryRun(number) => dry_run_diagnostic(alloc, document, number),
        _ => metric_diagnostic(alloc, document, error),
    }
}

// ---- its binding

/// A metric, or a field of it, with the arguments of a run.
pub(crate) fn bound_place(
    alloc: Global,
    document: &Json,
    run: usize,
    metric: usize,
    field: Option<MetricField>,
) -> Result<Place, AllocError>
    ensures { IfOk result (λ place. place ≡ bound_place (view document.now) run metric field) }
{
    let run = run_item(alloc, document, run)?;
    Ok(Place::BoundMetric(run, metric_item(alloc, document, metric)?, field))
}

/// Words about the first reference in a metric's texts that has no value.
fn reference_said(
    alloc: Global,
    document: &Json,
    run: usize,
    metric: usize,
    words: &str,
) -> Result<Option<Text>, AllocError>
    ensures { IfOk result (λ said. said ≡ reference_said (view document.now) run metric words.now) }
{
    match unbound_in(alloc, document, run, metric)? {
        Some(reference) => Ok(Some(with_quoted(alloc, "", reference.as_str(), words)?)),
        None => Ok(None),
    }
}

fn push_value(out: &mut String, value: &LimitValue) -> Result<(), AllocError>
    ensures { OnOk result (string_bytes out.new ≡ string_bytes out.old ++ value_said value.now) }
{
    match value {
        LimitValue::Whole(number) => write!(out, "{number}"),
        LimitValue::OtherNumber => out.push_str("a number not of digits alone, or too large"),
        LimitValue::Text(text) => push_quoted(out, text.as_str()),
        LimitValue::LongText => out.push_str("a text of more than 256 bytes"),
    }
}

/// What is said of a limit that is refused.
fn limit_said(alloc: Global, limit: Option<RefusedLimit>) -> Result<Option<Text>, AllocError>
    ensures { IfOk result (λ said. said ≡ option_map limit_said limit) }
{
    let Some(limit) = limit else {
        return Ok(None);
    };
    let mut said = format!(in alloc; "`{}` is ", limit.field.name())?;
    push_value(&mut said, &limit.value)?;
    Ok(Some(Text::from(said)))
}

fn field_of_limit(field: LimitField) -> MetricField
    ensures { result ≡ field_of_limit field }
{
    match field {
        LimitField::Count => MetricField::Count,
        LimitField::Failure => MetricField::FailureLimit,
        LimitField::Inconclusive => MetricField::InconclusiveLimit,
        LimitField::ConsecutiveError => MetricField::ConsecutiveErrorLimit,
    }
}

fn limit_field(limit: &Option<RefusedLimit>) -> Option<MetricField>
    ensures { result ≡ option_map limit_field limit.now }
{
    match limit {
        Some(limit) => Some(field_of_limit(limit.field)),
        None => None,
    }
}

/// The arguments of the template.
fn arguments_there(alloc: Global, document: &Json) -> Result<Text, AllocError>
    ensures { IfOk result (λ text. text ≡ arguments_there (view document.now)) }
{
    let arguments = template_list(document, "args").unwrap_or(&[]);
    those_there(alloc, "arguments", arguments)
}

/// A text of a metric names no argument of the template.
fn unknown_argument(
    alloc: Global,
    document: &Json,
    run: usize,
    metric: usize,
) -> Result<Diagnostic, AllocError>
    ensures { IfOk result (λ it. it ≡ unknown_argument (view document.now) run metric) }
{
    let found = reference_said(alloc, document, run, metric, " in braces")?;
    let hint = arguments_there(alloc, document)?;
    let place = bound_place(alloc, document, run, metric, None)?;
    let expected = "args.NAME with a name of `spec.args`";
    let it = Diagnostic::expecting(alloc, place, "UnknownArg", expected)?;
    Ok(it.with_found(found).with_hint(Some(hint)))
}

/// A text of a metric names an argument that has no value.
fn unvalued_argument(
    alloc: Global,
    document: &Json,
    run: usize,
    metric: usize,
) -> Result<Diagnostic, AllocError>
    ensures { IfOk result (λ it. it ≡ unvalued_argument (view document.now) run metric) }
{
    let found = reference_said(alloc, document, run, metric, " in braces has no value")?;
    let place = bound_place(alloc, document, run, metric, None)?;
    let it = Diagnostic::expecting(alloc, place, "NoValue", "one from the run or the template")?;
    Ok(it.with_found(found))
}

/// A limit of a metric is refused. Where it is known, its value is said.
fn limit_diagnostic(
    alloc: Global,
    document: &Json,
    run: usize,
    metric: usize,
) -> Result<Diagnostic, AllocError>
    ensures { IfOk result (λ it. it ≡ limit_diagnostic (view document.now) run metric
        (limit_in (view document.now) run metric)) }
{
    let limit = limit_in(alloc, document, run, metric)?;
    let field = limit_field(&limit);
    let found = limit_said(alloc, limit)?;
    let place = bound_place(alloc, document, run, metric, field)?;
    let expected = "0 to 1000000000 in one to ten digits";
    let it = Diagnostic::expecting(alloc, place, "BadLimit", expected)?;
    Ok(it.with_found(found))
}

/// The refusal of a template's binding to the arguments of the run with a number.
#[tactic(auto, unfolding(crate::specs::Templates::binding_diagnostic))]
pub(crate) fn binding_diagnostic(
    alloc: Global,
    document: &Json,
    run: usize,
    error: ManifestError,
) -> Result<Diagnostic, AllocError>
    ensures { IfOk result (λ it. it ≡ binding_diagnostic (view document.now) run error) }
{
    match error {
        ManifestError::OpenBraces(metric) => {
            let place = bound_place(alloc, document, run, metric, None)?;
            Diagnostic::expecting(alloc, place, "OpenBraces", "}} after {{")
        }
        ManifestError::UnknownArg(metric) => unknown_argument(alloc, document, run, metric),
        ManifestError::NoValue(metric) => unvalued_argument(alloc, document, run, metric),
        ManifestError::BadLimit(metric) => limit_diagnostic(alloc, document, run, metric),
        ManifestError::IntervalMissing(metric) => {
            let place = bound_place(alloc, document, run, metric, Some(MetricField::Interval))?;
            let expected = "an `interval` with a `count` above 1";
            Diagnostic::expecting(alloc, place, "IntervalMissing", expected)
        }
        _ => template_diagnostic(alloc, document, error),
    }
}
