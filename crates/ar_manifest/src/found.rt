//! For what the binding of a metric is refused.

ghost use Rattle.std.specs.Prelude.{◌≡◌, IfOk, option_map};
ghost use Rattle.ar_manifest.specs.Cut.{parts_of};
ghost use Rattle.ar_manifest.specs.Found.{field_name, limit_at, limit_text, refused_in_field, refused_in_metric, refused_limit, refused_value, unbound_in, unbound_in_metric, unbound_in_text, unbound_reference};
ghost use Rattle.ar_manifest.specs.Private.Shown.{refused_bound, refused_number, refused_text};

use crate::arguments::Args;
use crate::binding::{Scope, cut_at, trimmed};
use crate::error::ManifestError;
use crate::limit::{limit_of_number, limit_within};
use crate::template::{Limit, Metric, MetricLimits, Template};
use ar_value::Text;
use std::alloc::{AllocError, Global};

/// A bound text of at most this many bytes is shown.
const MOST_SHOWN: usize = 256;

/// A limit of a metric that isn't one once its arguments are bound.
#[derive(Drop)]
pub struct RefusedLimit {
    pub field: LimitField,
    pub value: LimitValue,
}

/// The field of a limit.
#[derive(Clone, Copy)]
pub enum LimitField {
    Count,
    Failure,
    Inconclusive,
    ConsecutiveError,
}

/// What a limit is once its arguments are bound.
#[derive(Drop)]
pub enum LimitValue {
    Whole(u64),
    /// A JSON number that isn't of digits alone, or is too large for 64 bits.
    OtherNumber,
    Text(Text),
    /// A text of more than 256 bytes.
    LongText,
}

/// The fields of limits, in the order in which they are bound.
const FIELDS: [LimitField; 4] = [
    LimitField::Count,
    LimitField::Failure,
    LimitField::Inconclusive,
    LimitField::ConsecutiveError,
];

impl LimitField {
    /// The field's name in a template.
    pub fn name(self) -> &'static str
        ensures { result.now ≡ field_name self }
    {
        match self {
            LimitField::Count => "count",
            LimitField::Failure => "failureLimit",
            LimitField::Inconclusive => "inconclusiveLimit",
            LimitField::ConsecutiveError => "consecutiveErrorLimit",
        }
    }
}

/// What the texts of a metric are bound to.
fn scope_of<'a>(template: &'a Template, own: &'a Args, metric: usize) -> Scope<'a>
    ensures arguments { result.arguments.now ≡ template.now.arguments }
    ensures own { result.own.now ≡ own.now }
    ensures metric { result.metric ≡ metric }
{
    Scope {
        arguments: &template.arguments,
        own,
        metric,
        shortens: false,
    }
}

/// The first reference of a text that has no value.
fn unbound_in<'a>(scope: &Scope, text: &'a str) -> Option<&'a str>
    ensures { option_map (λ between. between.now) result
        ≡ unbound_in scope.now.arguments.now scope.now.own.now scope.now.metric (parts_of text.now) }
{
    let mut rest = text;
    while let Some((_, opened)) = cut_at(rest, "{{") {
        let Some((between, after)) = cut_at(opened, "}}") else {
            return None;
        };
        if !scope.has_value(between) {
            return Some(trimmed(between));
        }
        rest = after;
    }
    None
}

fn unbound_in_condition<'a>(scope: &Scope, condition: &'a Option<Text>) -> Option<&'a str>
    ensures { option_map (λ between. between.now) result
        ≡ unbound_in_text scope.now.arguments.now scope.now.own.now scope.now.metric condition.now }
{
    match condition {
        Some(text) => unbound_in(scope, text.as_str()),
        None => None,
    }
}

fn unbound_in_limit<'a>(scope: &Scope, limit: &'a Option<Limit>) -> Option<&'a str>
    ensures { option_map (λ between. between.now) result
        ≡ unbound_in_text scope.now.arguments.now scope.now.own.now scope.now.metric (limit_text limit.now) }
{
    match limit {
        Some(Limit::Text(text)) => unbound_in(scope, text.as_str()),
        Some(Limit::Whole(_)) | Some(Limit::OtherNumber) | None => None,
    }
}

/// The first reference in a metric's texts that has no value.
fn unbound_in_metric<'a>(scope: &Scope, metric: &'a Metric) -> Option<&'a str>
    ensures { option_map (λ between. between.now) result
        ≡ unbound_in_metric scope.now.arguments.now scope.now.own.now scope.now.metric metric.now }
{
    unbound_in_condition(scope, &metric.success_condition)
        .or(unbound_in_condition(scope, &metric.failure_condition))
        .or(unbound_in_limit(scope, &metric.limits.count))
        .or(unbound_in_limit(scope, &metric.limits.failure))
        .or(unbound_in_limit(scope, &metric.limits.inconclusive))
        .or(unbound_in_limit(scope, &metric.limits.consecutive_error))
}

/// The first reference in the texts of a metric that has no value.
#[tactic(auto, unfolding(crate::specs::Found::unbound_reference))]
pub(crate) fn unbound_reference<'a>(
    template: &'a Template,
    own: &Args,
    metric: usize,
) -> Option<&'a str>
    ensures { option_map (λ text. text.now) result ≡ unbound_reference template.now own.now metric }
{
    let scope = scope_of(template, own, metric);
    unbound_in_metric(&scope, template.metrics.as_slice().get(metric)?)
}

/// The limit of a field.
fn limit_at(limits: &MetricLimits, field: LimitField) -> &Option<Limit>
    ensures { result.now ≡ limit_at limits.now field }
{
    match field {
        LimitField::Count => &limits.count,
        LimitField::Failure => &limits.failure,
        LimitField::Inconclusive => &limits.inconclusive,
        LimitField::ConsecutiveError => &limits.consecutive_error,
    }
}

/// A number, if it is no limit of metric `i`.
fn refused_number(number: u64, i: usize) -> Option<LimitValue>
    ensures { result ≡ refused_number i number }
{
    if limit_of_number(number, i).is_ok() {
        None
    } else {
        Some(LimitValue::Whole(number))
    }
}

/// A bound text, if it is no limit of metric `i`.
#[tactic(auto, unfolding(crate::specs::Private::Shown::refused_bound))]
fn refused_bound(bound: Option<Text>, i: usize) -> Option<LimitValue>
    ensures { result ≡ refused_bound i bound }
{
    if limit_within(&bound, i).is_ok() {
        return None;
    }
    match bound {
        Some(text) => Some(LimitValue::Text(text)),
        None => Some(LimitValue::LongText),
    }
}

/// A text, bound, if it is no limit then.
#[tactic(auto, using(crate::proofs::Refusing::refused_as_bound, crate::proofs::Refusing::not_bound))]
fn refused_text(alloc: Global, scope: &Scope, text: &str) -> Result<Option<LimitValue>, AllocError>
    ensures { IfOk result (λ value. value
        ≡ refused_text scope.now.arguments.now scope.now.own.now scope.now.metric text.now) }
{
    match scope.text(alloc, text, Some(MOST_SHOWN)) {
        Ok(bound) => Ok(refused_bound(bound, scope.metric)),
        Err(ManifestError::OutOfMemory) => Err(AllocError),
        Err(_) => Ok(None),
    }
}

/// What a limit is once it is bound, if that is no limit.
#[tactic(auto, unfolding(crate::specs::Found::refused_value, crate::specs::Bound::bound_limit))]
fn refused_value(
    alloc: Global,
    scope: &Scope,
    limit: &Option<Limit>,
) -> Result<Option<LimitValue>, AllocError>
    ensures { IfOk result (λ value. value
        ≡ refused_value scope.now.arguments.now scope.now.own.now scope.now.metric limit.now) }
{
    match limit {
        None => Ok(None),
        Some(Limit::Whole(number)) => Ok(refused_number(*number, scope.metric)),
        Some(Limit::OtherNumber) => Ok(Some(LimitValue::OtherNumber)),
        Some(Limit::Text(text)) => refused_text(alloc, scope, text.as_str()),
    }
}

/// The limit of a field, if it is refused once it is bound.
fn refused_in_field(
    alloc: Global,
    scope: &Scope,
    limits: &MetricLimits,
    field: LimitField,
) -> Result<Option<RefusedLimit>, AllocError>
    ensures { IfOk result (λ found. found
        ≡ refused_in_field scope.now.arguments.now scope.now.own.now scope.now.metric limits.now field) }
{
    match refused_value(alloc, scope, limit_at(limits, field))? {
        Some(value) => Ok(Some(RefusedLimit { field, value })),
        None => Ok(None),
    }
}

/// The first limit of a metric that is refused once it is bound.
fn refused_in_metric(
    alloc: Global,
    scope: &Scope,
    metric: &Metric,
) -> Result<Option<RefusedLimit>, AllocError>
    ensures { IfOk result (λ found. found
        ≡ refused_in_metric scope.now.arguments.now scope.now.own.now scope.now.metric metric.now) }
{
    for field in FIELDS {
        let refused = refused_in_field(alloc, scope, &metric.limits, field)?;
        if refused.is_some() {
            return Ok(refused);
        }
    }
    Ok(None)
}

/// The first limit of a metric that isn't one once it is bound.
#[tactic(auto, unfolding(crate::specs::Found::refused_limit))]
pub(crate) fn refused_limit(
    alloc: Global,
    template: &Template,
    own: &Args,
    metric: usize,
) -> Result<Option<RefusedLimit>, AllocError>
    ensures { IfOk result (λ found. found ≡ refused_limit template.now own.now metric) }
{
    let scope = scope_of(template, own, metric);
    match template.metrics.as_slice().get(metric) {
        Some(metric) => refused_in_metric(alloc, &scope, metric),
        None => Ok(None),
    }
}
