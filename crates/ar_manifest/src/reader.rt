//! Reading a template from JSON.

ghost use Rattle.std.specs.Prelude.{◌≡◌, [], if◌then◌else◌, Err, IfOk, IsOk, Ok, false, fold, length, map, option_map, true};
ghost use Rattle.std.specs.Hash.DefaultHasher.{initial};
ghost use Rattle.std.specs.List.{list_any};
ghost use Rattle.serde_json.specs.Find.{as_u64};
ghost use Rattle.serde_json.specs.View.{number_view, view};
ghost use Rattle.ar_value.specs.Answer.{Gives, Refuses, each_after};
ghost use Rattle.ar_manifest.specs.Refusals.{is_memory};
ghost use Rattle.ar_manifest.specs.Arguments.{value_of};
ghost use Rattle.ar_manifest.specs.Private.Early.{counted_of, first_counted};
ghost use Rattle.ar_manifest.specs.Private.Feeding.{fed_argument};
ghost use Rattle.ar_manifest.specs.Private.Made.{marked_metrics, two_limits};
ghost use Rattle.ar_manifest.specs.Template.{HasNoArguments, argument_of, arguments_of, counted_metrics, has_text_or, head_of, is_kind, is_named, is_text, limit_or, lists_nothing, metric_limits, metric_of, named_metric, new_name, number_limit, template_name, template_of};

use crate::arguments::Arguments;
use crate::dry_run::with_dry_run;
use crate::error::ManifestError;
use crate::names_hasher::NamesHasher;
use crate::template::{Limit, Metric, MetricLimits, Metrics, Template};
use ar_json::members::{list_of, member, member_of_member, text_member, text_or};
use ar_value::Text;
use ar_value::holding::{try_push, zip_ok};
use ar_value::limits::MOST_METRICS;
use serde_json::{Number, Value as Json};
use std::alloc::{AllocError, Global};

/// The only `apiVersion` of an AnalysisTemplate.
const VERSION: &str = "argoproj.io/v1alpha1";

/// The `kind` of a template of a namespace.
const NAMESPACED: &str = "AnalysisTemplate";

/// The `kind` of a template of a cluster.
const OF_CLUSTER: &str = "ClusterAnalysisTemplate";

fn number_limit(number: &Number) -> Limit
    ensures { result ≡ number_limit (as_u64 (number_view number.now)) }
{
    match number.as_u64() {
        Some(whole) => Limit::Whole(whole),
        None => Limit::OtherNumber,
    }
}

/// A limit that may be missing, and is refused where it is neither a number nor a text.
fn limit_or(
    alloc: Global,
    found: Option<&Json>,
    refusal: ManifestError,
) -> Result<Option<Limit>, ManifestError>
    ensures exact { Gives is_memory (λ limit. limit) result
        (limit_or refusal (option_map (λ json. view json.now) found.entry)) }
    ensures refused { Refuses result (limit_or refusal (option_map (λ json. view json.now) found.entry)) }
{
    match found {
        None => Ok(None),
        Some(Json::Number(number)) => Ok(Some(number_limit(number))),
        Some(Json::String(text)) => Ok(Some(Limit::Text(Text::of(alloc, text)?))),
        Some(_) => Err(refusal),
    }
}

/// Whether there is a text that isn't empty. Any other value is refused.
fn has_text_or(found: Option<&Json>, refusal: ManifestError) -> Result<bool, ManifestError>
    ensures { result ≡ has_text_or refusal (option_map (λ json. view json.now) found.entry) }
{
    match found {
        None => Ok(false),
        Some(Json::String(text)) => Ok(!text.is_empty()),
        Some(_) => Err(refusal),
    }
}

/// Two limits of a metric, by their names.
fn two_limits(
    alloc: Global,
    json: &Json,
    first: &str,
    second: &str,
    refusal: ManifestError,
) -> Result<(Option<Limit>, Option<Limit>), ManifestError>
    ensures { Gives is_memory (λ made. made) result (two_limits refusal first.now second.now (view json.now)) }
{
    let held = limit_or(alloc, member(json, first), refusal)?;
    zip_ok(held, limit_or(alloc, member(json, second), refusal))
}

/// The limits of a metric.
#[tactic(auto, unfolding(crate::specs::Template::metric_limits))]
fn metric_limits(alloc: Global, json: &Json, i: usize) -> Result<MetricLimits, ManifestError>
    ensures { Gives is_memory (λ made. made) result (metric_limits i (view json.now)) }
{
    let refusal = ManifestError::BadField(i);
    let held = two_limits(alloc, json, "count", "failureLimit", refusal)?;
    let others = two_limits(
        alloc,
        json,
        "inconclusiveLimit",
        "consecutiveErrorLimit",
        refusal,
    );
    let (held, others) = zip_ok(held, others)?;
    Ok(MetricLimits {
        count: held.0,
        failure: held.1,
        inconclusive: others.0,
        consecutive_error: others.1,
    })
}

/// Copies of a metric's name and conditions.
fn copied_texts(
    alloc: Global,
    name: &str,
    success: Option<&str>,
    failure: Option<&str>,
) -> Result<(Text, (Option<Text>, Option<Text>)), AllocError>
    ensures { IfOk result (λ copies. copies ≡ (
      name.now,
      (
        option_map (λ text. text.now) success.entry,
        option_map (λ text. text.now) failure.entry,
      ),
    )) }
{
    let success = copied(alloc, success)?;
    let conditions = zip_ok(success, copied(alloc, failure))?;
    let (conditions, name) = zip_ok(conditions, Text::of(alloc, name))?;
    Ok((name, conditions))
}

/// The metric of a name.
#[tactic(auto, unfolding(crate::specs::Template::named_metric))]
fn named_metric(alloc: Global, json: &Json, name: &str, i: usize) -> Result<Metric, ManifestError>
    ensures { Gives is_memory (λ made. made) result (named_metric i name.now (view json.now)) }
{
    let refusal = ManifestError::BadField(i);
    let success = text_or(member(json, "successCondition"), refusal)?;
    let failure = text_or(member(json, "failureCondition"), refusal)?;
    let has_interval = has_text_or(member(json, "interval"), refusal)?;
    let limits = metric_limits(alloc, json, i)?;
    let (limits, texts) = zip_ok(limits, copied_texts(alloc, name, success, failure))?;
    let (name, (success_condition, failure_condition)) = texts;
    Ok(Metric {
        name,
        success_condition,
        failure_condition,
        has_interval,
        dry: false,
        limits,
    })
}

/// Whether a metric has the name.
fn is_taken(name: &str, metrics: &[Metric]) -> bool
    ensures { result ≡ list_any (is_named name.now) metrics.now }
{
    metrics.iter().any(|metric| metric.name.as_str() == name)
}

/// The name of a metric after earlier ones.
fn new_name<'a>(json: &'a Json, earlier: &[Metric]) -> Result<&'a str, ManifestError>
    ensures { Gives (λ _. false) (λ name. name.now) result (new_name earlier.now (view json.now)) }
{
    let i = earlier.len();
    let Some(name) = text_member(json, "name") else {
        return Err(ManifestError::MetricNameMissing(i));
    };
    if is_taken(name, earlier) {
        return Err(ManifestError::DoubleMetric(i));
    }
    Ok(name)
}

/// A metric after earlier ones.
#[tactic(auto, unfolding(crate::specs::Template::metric_of))]
fn metric(alloc: Global, json: &Json, earlier: &[Metric]) -> Result<Metric, ManifestError>
    ensures { Gives is_memory (λ metric. metric) result (metric_of earlier.now (view json.now)) }
{
    let i = earlier.len();
    let name = new_name(json, earlier)?;
    let metric = named_metric(alloc, json, name, i)?;
    let is_refused = member(json, "consecutiveSuccessLimit").is_some();
    refuse_if(is_refused, metric, ManifestError::Unsupported(i))
}

/// What is held, or the refusal.
fn refuse_if<A: Drop, E: Drop>(is_refused: bool, held: A, refusal: E) -> Result<A, E>
    ensures { result ≡ (if is_refused then Err refusal else Ok held) }
{
    if is_refused { Err(refusal) } else { Ok(held) }
}

/// The metrics of a JSON list.
fn metrics(alloc: Global, list: &[Json]) -> Result<Vec<Metric>, ManifestError>
    ensures { Gives is_memory (λ made. made.items) result
        (each_after metric_of [] (map (λ json. view json) list.now)) }
{
    let mut metrics = Vec::new(alloc);
    for json in list {
        let metric = metric(alloc, json, &metrics)?;
        try_push(&mut metrics, metric)?;
    }
    Ok(metrics)
}

/// The values at `spec.metrics`, 1 to 64 of them.
#[tactic(auto, using(crate::proofs::Lists::counted_many, crate::proofs::Lists::counted_some))]
fn counted_metrics(found: Option<&Json>) -> Result<&[Json], ManifestError>
    ensures { Gives (λ _. false) (λ list. map (λ json. view json) list.now) result
        (counted_metrics (option_map (λ json. view json.now) found.entry)) }
{
    let list = found.and_then(list_of).ok_or(ManifestError::NoMetrics)?;
    if list.is_empty() {
        return Err(ManifestError::NoMetrics);
    }
    if list.len() > MOST_METRICS {
        return Err(ManifestError::TooManyMetrics);
    }
    Ok(list)
}

/// The name and the value of an argument after earlier ones, before they are copied.
#[tactic(auto, unfolding(crate::specs::Template::argument_of))]
fn found_argument<'a>(
    json: &'a Json,
    earlier: &Arguments<Option<Text>>,
) -> Result<(&'a str, Option<&'a str>), ManifestError>
    ensures exact { Gives (λ _. false) (λ argument. (argument.0.now, option_map (λ text. text.now) argument.1)) result
        (argument_of earlier.now (view json.now)) }
    ensures new { IfOk result (λ argument. value_of argument.0.now earlier.now ≡ None) }
{
    let refusal = ManifestError::BadArgs(earlier.len());
    let Some(name) = text_member(json, "name") else {
        return Err(refusal);
    };
    if earlier.get(name).is_some() {
        return Err(refusal);
    }
    Ok((name, text_or(member(json, "value"), refusal)?))
}

/// A copy of a text that may be missing.
fn copied(alloc: Global, text: Option<&str>) -> Result<Option<Text>, AllocError>
    ensures { IfOk result (λ copy. copy ≡ option_map (λ text. text.now) text.entry) }
{
    match text {
        None => Ok(None),
        Some(text) => Ok(Some(Text::of(alloc, text)?)),
    }
}

/// An argument after earlier ones.
fn argument(
    alloc: Global,
    json: &Json,
    earlier: &Arguments<Option<Text>>,
) -> Result<(Text, Option<Text>), ManifestError>
    ensures exact { Gives is_memory (λ argument. argument) result (argument_of earlier.now (view json.now)) }
    ensures refused { Refuses result (argument_of earlier.now (view json.now)) }
    ensures new { IfOk result (λ argument. value_of argument.0 earlier.now ≡ None) }
{
    let (name, value) = found_argument(json, earlier)?;
    Ok((Text::of(alloc, name)?, copied(alloc, value)?))
}

/// Feeds a hasher the name of an argument. One that has none will be refused.
fn feed_argument(hasher: &mut NamesHasher, json: &Json)
    ensures { hasher.new ≡ fed_argument hasher.old (view json.now) }
{
    if let Some(name) = text_member(json, "name") {
        hasher.feed(name);
    }
}

/// What will hash the names of a list's arguments.
fn names_hasher(list: &[Json]) -> NamesHasher
    ensures { result ≡ fold (λ state json. fed_argument state (view json)) initial list.now }
{
    let mut hasher = NamesHasher::new();
    for json in list {
        feed_argument(&mut hasher, json);
    }
    hasher
}

/// The arguments of a JSON list.
fn listed_arguments(alloc: Global, list: &[Json]) -> Result<Arguments<Option<Text>>, ManifestError>
    ensures exact { Gives is_memory (λ arguments. arguments) result
        (each_after argument_of [] (map (λ json. view json) list.now)) }
    ensures none { length list.now ≡ 0 → IsOk result }
{
    let mut arguments = Arguments::with_hasher(alloc, names_hasher(list));
    for json in list {
        let (name, value) = argument(alloc, json, &arguments)?;
        arguments.push(name, value)?;
    }
    Ok(arguments)
}

/// The arguments at `spec.args`.
fn arguments_of(
    alloc: Global,
    found: Option<&Json>,
) -> Result<Arguments<Option<Text>>, ManifestError>
    ensures exact { Gives is_memory (λ arguments. arguments) result
        (arguments_of (option_map (λ json. view json.now) found.entry)) }
    ensures none { lists_nothing (option_map (λ json. view json.now) found.entry) ≡ true → IsOk result }
{
    match found {
        None => Ok(Arguments::new(alloc)),
        Some(json) => { listed_arguments(alloc, list_of(json).ok_or(ManifestError::BadArgs(0))?) }
    }
}

fn is_text(found: Option<&str>, wanted: &str) -> bool
    ensures { result ≡ is_text wanted.now (option_map (λ text. text.now) found.entry) }
{
    match found {
        Some(text) => text == wanted,
        None => false,
    }
}

fn is_kind(found: Option<&str>) -> bool
    ensures { result ≡ is_kind (option_map (λ text. text.now) found.entry) }
{
    is_text(found, NAMESPACED) || is_text(found, OF_CLUSTER)
}

/// The text at `metadata.name`, where it isn't empty.
fn template_name(json: &Json) -> Option<&str>
    ensures { option_map (λ name. name.now) result ≡ template_name (view json.now) }
{
    let name = member_of_member(json, "metadata", "name")?.as_str()?;
    if name.is_empty() { None } else { Some(name) }
}

/// Whether what is found is nothing, or an empty list.
fn lists_nothing(found: Option<&Json>) -> bool
    ensures { result ≡ lists_nothing (option_map (λ json. view json.now) found.entry) }
{
    match found {
        Some(json) => match list_of(json) {
            Some(list) => list.is_empty(),
            None => false,
        },
        None => true,
    }
}

/// The name of a template, checked after its version and kind.
fn head(json: &Json) -> Result<&str, ManifestError>
    ensures { Gives (λ _. false) (λ name. name.now) result (head_of (view json.now)) }
{
    if !is_text(text_member(json, "apiVersion"), VERSION) {
        return Err(ManifestError::WrongVersion);
    }
    if !is_kind(text_member(json, "kind")) {
        return Err(ManifestError::WrongKind);
    }
    template_name(json).ok_or(ManifestError::NameMissing)
}

/// The metrics of a template, dry where it says so.
fn marked_metrics(alloc: Global, json: &Json) -> Result<Metrics, ManifestError>
    ensures exact { Gives is_memory (λ metrics. metrics) result (marked_metrics (view json.now)) }
    ensures counted { Refuses result (counted_of (view json.now)) }
{
    let list = counted_metrics(member_of_member(json, "spec", "metrics"))?;
    let metrics = metrics(alloc, list)?;
    with_dry_run(alloc, member_of_member(json, "spec", "dryRun"), metrics)
}

/// The template that a JSON document is.
pub(crate) fn template(alloc: Global, json: &Json) -> Result<Template, ManifestError>
    ensures exact { Gives is_memory (λ template. template) result (template_of (view json.now)) }
    ensures head { Refuses result (head_of (view json.now)) }
    ensures counted { HasNoArguments (view json.now) → Refuses result (first_counted (view json.now)) }
{
    let name = head(json)?;
    let arguments = arguments_of(alloc, member_of_member(json, "spec", "args"))?;
    let held = zip_ok(arguments, marked_metrics(alloc, json))?;
    let (held, name) = zip_ok(held, Text::of(alloc, name))?;
    Ok(Template {
        name,
        arguments: held.0,
        metrics: held.1,
    })
}
