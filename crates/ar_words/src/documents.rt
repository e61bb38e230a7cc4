//! Refusals of documents: of those that have runs, and of that which `eval` reads.

ghost use Rattle.std.specs.Prelude.{◌≡◌, IfOk, map, option_map};
ghost use Rattle.serde_json.specs.View.{view};
ghost use Rattle.ar_words.specs.Documents.{braces_hint, built_diagnostic, bundle_diagnostic, double_run, eval_diagnostic, grammar_diagnostic, has_braces, missing_shape, missing_shape_hint, run_diagnostic, shape_diagnostic, shape_expected, shape_place, unknown_name_diagnostic, unknown_metric, unknown_run};

use crate::bindings::{bound_of, refused_condition};
use crate::items::{metric_item, run_item};
use crate::lists::{entry_text, metrics, runs};
use crate::names::{nothing_named, those_there};
use crate::shapes::{close_shape, declaration_in, declared_shape};
use crate::templates::{binding_diagnostic, bound_place, template_diagnostic};
use ar_condition_words::{code_diagnostic, condition_diagnostic, length_diagnostic};
use ar_diagnostic::{
    Diagnostic, EntryPart, Expected, Item, Member, MetricField, Place, Within, rule, thing,
    with_quoted,
};
use ar_document::BundleError;
use ar_eval::EvalError;
use ar_json::members::text_member;
use ar_json::shape_reading::ShapeError;
use ar_judge::{BuildCause, BuildError};
use ar_syntax::SyntaxError;
use ar_value::Text;
use ar_warning::misfit_expected;
use serde_json::Value as Json;
use std::alloc::{AllocError, Global};

// ---- shapes

fn shape_expected(alloc: Global, error: ShapeError) -> Result<Option<Expected>, AllocError>
    ensures { IfOk result (λ expected. expected ≡ shape_expected error) }
{
    match error {
        ShapeError::TooDeep => rule(alloc, "a shape has at most 16 levels"),
        ShapeError::UnknownShape => thing(
            alloc,
            "\"bool\", \"whole\", \"decimal\", \"text\", {\"list\":shape,\"max\":number}, \
             {\"record\":{name:shape,..}} or {\"optional\":shape}",
        ),
        ShapeError::MaxMissing => thing(
            alloc,
            "a list's greatest length as \"max\", a whole number of 0 or more",
        ),
        ShapeError::MaxTooLarge => rule(alloc, "the greatest length of a list is at most 10000"),
        ShapeError::NestedOptional => {
            rule(alloc, "an optional shape holds one that isn't optional")
        }
        ShapeError::OutOfMemory => Ok(None),
    }
}

fn shape_diagnostic(
    alloc: Global,
    place: Place,
    error: ShapeError,
) -> Result<Diagnostic, AllocError>
    ensures { IfOk result (λ it. it ≡ shape_diagnostic place error) }
{
    let expected = shape_expected(alloc, error)?;
    let it = Diagnostic::named(alloc, place, error.name())?;
    Ok(Diagnostic { expected, ..it })
}

// ---- conditions of metrics

/// The refusal of a condition of a metric, bound to the arguments of a run.
#[tactic(auto, unfolding(crate::specs::Bindings::condition_bound_for, crate::specs::Documents::built_diagnostic))]
fn built_diagnostic(
    alloc: Global,
    document: &Json,
    run: usize,
    metric: usize,
    error: BuildError,
) -> Result<Diagnostic, AllocError>
    ensures { IfOk result (λ it. it ≡ built_diagnostic (view document.now) run metric error) }
{
    let (field, cause) = match error {
        BuildError::Success(cause) => (MetricField::SuccessCondition, cause),
        BuildError::Failure(cause) => (MetricField::FailureCondition, cause),
        BuildError::OutOfMemory => return Diagnostic::named(alloc, Place::Document, "OutOfMemory"),
    };
    let bound = bound_of(alloc, document, run)?;
    let condition = refused_condition(&bound, metric, error);
    let shape = declared_shape(alloc, declaration_in(document, metric))?;
    let place = bound_place(alloc, document, run, metric, Some(field))?;
    condition_diagnostic(alloc, place, &shape, condition, cause)
}

// ---- entries

/// A part of an entry names none of the items.
fn unknown_name_diagnostic(
    alloc: Global,
    entry: usize,
    part: EntryPart,
    error: &str,
    name: Option<&str>,
    items: Option<&[Json]>,
) -> Result<Diagnostic, AllocError>
    ensures { IfOk result (λ it. it ≡ unknown_name_diagnostic entry part error.now
        (option_map (λ name. name.now) name.entry)
        (option_map (λ list. map (λ item. view item) list.now) items.entry)) }
{
    let (Some(name), Some(items)) = (name, items) else {
        return Diagnostic::named(alloc, Place::EntryMember(entry, part), error);
    };
    let found = nothing_named(alloc, part.name(), name)?;
    let kinds = format!(in alloc; "{}s", part.name())?;
    let hint = those_there(alloc, kinds.as_str(), items)?;
    let it = Diagnostic::named(alloc, Place::EntryMember(entry, part), error)?;
    Ok(it.with_found(Some(found)).with_hint(Some(hint)))
}

fn unknown_run(alloc: Global, document: &Json, entry: usize) -> Result<Diagnostic, AllocError>
    ensures { IfOk result (λ it. it ≡ unknown_run (view document.now) entry) }
{
    let name = entry_text(document, entry, "run");
    let found = runs(document);
    unknown_name_diagnostic(alloc, entry, EntryPart::Run, "UnknownRun", name, found)
}

fn unknown_metric(alloc: Global, document: &Json, entry: usize) -> Result<Diagnostic, AllocError>
    ensures { IfOk result (λ it. it ≡ unknown_metric (view document.now) entry) }
{
    let name = entry_text(document, entry, "metric");
    let found = metrics(document);
    unknown_name_diagnostic(
        alloc,
        entry,
        EntryPart::Metric,
        "UnknownMetric",
        name,
        found,
    )
}

// ---- documents that have runs

fn double_run(alloc: Global, name: &Option<Text>) -> Result<Text, AllocError>
    ensures { IfOk result (λ text. text ≡ double_run name.now) }
{
    match name {
        Some(name) => with_quoted(
            alloc,
            "an earlier run has the name ",
            name.as_str(),
            ", too",
        ),
        None => Text::of(alloc, "an earlier run has the name, too"),
    }
}

/// A run has the name of an earlier one.
fn run_diagnostic(alloc: Global, run: Item) -> Result<Diagnostic, AllocError>
    ensures { IfOk result (λ it. it ≡ run_diagnostic run) }
{
    let found = double_run(alloc, &run.name)?;
    let it = Diagnostic::named(alloc, Place::Run(run), "DoubleRun")?;
    Ok(it.with_found(Some(found)))
}

fn shape_place(alloc: Global, document: &Json, metric: usize) -> Result<Place, AllocError>
    ensures { IfOk result (λ place. place ≡ shape_place (view document.now) metric) }
{
    Ok(Place::Metric(Within::Shapes, metric_item(alloc, document, metric)?))
}

/// What helps where no shape has a metric's name: the key that is probably meant, if there is one.
fn missing_shape_hint(alloc: Global, close: Option<Text>) -> Result<Text, AllocError>
    ensures { IfOk result (λ hint. hint ≡ missing_shape_hint close) }
{
    match close {
        Some(key) => {
            let after = "; recipes/shapes proposes shapes of results";
            with_quoted(alloc, "shapes has ", key.as_str(), after)
        }
        None => Text::of(alloc, "recipes/shapes proposes shapes of results"),
    }
}

/// No shape has a metric's name.
fn missing_shape(alloc: Global, document: &Json, metric: usize) -> Result<Diagnostic, AllocError>
    ensures { IfOk result (λ it. it ≡ missing_shape (view document.now) metric) }
{
    let hint = missing_shape_hint(alloc, close_shape(alloc, document, metric)?)?;
    let place = shape_place(alloc, document, metric)?;
    let expected = "a shape in `shapes` for each metric, by its name";
    let it = Diagnostic::expecting(alloc, place, "ShapeMissing", expected)?;
    Ok(it.with_hint(Some(hint)))
}

/// The refusal of a document that has runs.
///
/// # Errors
///
/// Out of memory alone.
#[tactic(auto, unfolding(crate::specs::Documents::bundle_diagnostic))]
pub fn bundle_diagnostic(
    alloc: Global,
    document: &Json,
    error: BundleError,
) -> Result<Diagnostic, AllocError>
    ensures { IfOk result (λ it. it ≡ bundle_diagnostic (view document.now) error) }
{
    match error {
        BundleError::Manifest(cause) => template_diagnostic(alloc, document, cause),
        BundleError::ShapeMissing(metric) => missing_shape(alloc, document, metric),
        BundleError::Shapes(metric, cause) => {
            let place = shape_place(alloc, document, metric)?;
            shape_diagnostic(alloc, place, cause)
        }
        BundleError::Runs => {
            let expected =
                "a list of 1 to 64 runs, each with a text `name` and no `args` but texts by name";
            Diagnostic::expecting(alloc, Place::Member(Member::Runs), error.name(), expected)
        }
        BundleError::DoubleRun(run) => run_diagnostic(alloc, run_item(alloc, document, run)?),
        BundleError::Bind(run, cause) => binding_diagnostic(alloc, document, run, cause),
        BundleError::Build(run, metric, cause) => {
            built_diagnostic(alloc, document, run, metric, cause)
        }
        BundleError::TooManyMeasurements => {
            let place = Place::Member(Member::Measurements);
            Diagnostic::expecting(alloc, place, error.name(), "at most 100000 entries")
        }
        BundleError::BadEntry(entry) => {
            let expected = "a list of entries with a text `run`, and `\"stop\":true` or a text \
                            `metric` and one of `value` and `error`";
            Diagnostic::expecting(alloc, Place::Entry(entry), error.name(), expected)
        }
        BundleError::UnknownRun(entry) => unknown_run(alloc, document, entry),
        BundleError::UnknownMetric(entry) => unknown_metric(alloc, document, entry),
        BundleError::TooLarge | BundleError::Utf8OrJson | BundleError::OutOfMemory => {
            Diagnostic::named(alloc, Place::Document, error.name())
        }
    }
}

// ---- the document that `eval` reads

/// Whether a condition has braces, as references to arguments have in a template.
fn has_braces(condition: Option<&str>) -> bool
    ensures { result ≡ has_braces (option_map (λ text. text.now) condition.entry) }
{
    match condition {
        Some(text) => text.contains("{{"),
        None => false,
    }
}

/// Arguments in braces are bound in templates alone.
fn braces_hint(
    alloc: Global,
    error: SyntaxError,
    condition: Option<&str>,
) -> Result<Option<Text>, AllocError>
    ensures { IfOk result
        (λ hint. hint ≡ braces_hint error (option_map (λ text. text.now) condition.entry)) }
{
    match error {
        SyntaxError::Unexpected(_) if has_braces(condition) => {
            let hint = "arguments as {{args.NAME}} are bound in a template, by check, list and run";
            Ok(Some(Text::of(alloc, hint)?))
        }
        _ => Ok(None),
    }
}

fn grammar_diagnostic(
    alloc: Global,
    error: SyntaxError,
    condition: Option<&str>,
) -> Result<Diagnostic, AllocError>
    ensures { IfOk result
        (λ it. it ≡ grammar_diagnostic error (option_map (λ text. text.now) condition.entry)) }
{
    let hint = braces_hint(alloc, error, condition)?;
    let (place, cause) = (Place::Member(Member::Condition), BuildCause::Grammar(error));
    let it = condition_diagnostic(alloc, place, &None, condition, cause)?;
    match hint {
        Some(hint) => Ok(it.with_hint(Some(hint))),
        None => Ok(it),
    }
}

/// The refusal of what `eval` reads.
///
/// # Errors
///
/// Out of memory alone.
#[tactic(auto, unfolding(crate::specs::Documents::eval_diagnostic))]
pub fn eval_diagnostic(
    alloc: Global,
    document: &Json,
    error: EvalError,
) -> Result<Diagnostic, AllocError>
    ensures { IfOk result (λ it. it ≡ eval_diagnostic (view document.now) error) }
{
    let condition = text_member(document, "condition");
    match error {
        EvalError::BadDocument => {
            let expected = "an object with a text `condition`, a `shape` and a `value`";
            Diagnostic::expecting(alloc, Place::Document, "BadDocument", expected)
        }
        EvalError::Shape(error) => { shape_diagnostic(alloc, Place::Member(Member::Shape), error) }
        EvalError::Grammar(error) => grammar_diagnostic(alloc, error, condition),
        EvalError::Kinds(error) => {
            let shape = declared_shape(alloc, document.get("shape"))?;
            let (place, cause) = (Place::Member(Member::Condition), BuildCause::Kinds(error));
            condition_diagnostic(alloc, place, &shape, condition, cause)
        }
        EvalError::Compiler(_) => length_diagnostic(alloc, Place::Member(Member::Condition)),
        EvalError::Verifier(_, reason) => {
            code_diagnostic(alloc, Place::Member(Member::Condition), reason)
        }
        EvalError::Misfit(fault) => {
            let place = Place::Member(Member::Value);
            Diagnostic::expecting(alloc, place, fault.name(), misfit_expected(fault))
        }
        EvalError::TooLarge => Diagnostic::named(alloc, Place::Document, "TooLarge"),
        EvalError::Utf8OrJson => Diagnostic::named(alloc, Place::Document, "Utf8OrJson"),
        EvalError::OutOfMemory => Diagnostic::named(alloc, Place::Document, "OutOfMemory"),
    }
}
