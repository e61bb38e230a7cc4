//! Binding the metrics of a template.

ghost use Rattle.std.specs.Prelude.{◌≡◌, [], IfOk, None, Ok};
ghost use Rattle.ar_value.specs.Answer.{Gives, Refuses, each_after};
ghost use Rattle.ar_manifest.specs.Refusals.{is_memory};
ghost use Rattle.ar_manifest.specs.Private.BoundParts.{bound_limits, limit_in};
ghost use Rattle.ar_manifest.specs.Private.Within.{condition_within, kept_bound, kept_condition, kept_conditions, most_kept, next_kept};
ghost use Rattle.ar_manifest.specs.Shortened.{shortened_of, spaces};
ghost use Rattle.ar_manifest.specs.Bound.{IsNumber, IsPlain, RefusesFirst, bound_limit, bound_metric, bound_of};

use crate::arguments::{Args, Arguments};
use crate::binding::Scope;
use crate::bound::{Bound, BoundMetric};
use crate::error::ManifestError;
use crate::limit::{MOST_LIMIT_DIGITS, effective_count, limit_of_number, limit_within};
use crate::template::{Limit, Metric, Template};
use ar_value::Text;
use ar_value::holding::{try_push, zip_ok};
use ar_value::limits::MOST_TEXT_BYTES;
use std::alloc::{AllocError, Global};

/// `failureLimit`, where a metric has none.
const FAILURES: u32 = 0;

/// `inconclusiveLimit`, where a metric has none.
const INCONCLUSIVE: u32 = 0;

/// `consecutiveErrorLimit`, where a metric has none.
const CONSECUTIVE_ERRORS: u32 = 4;

/// The limits of a metric, bound.
#[derive(Clone, Copy)]
struct BoundLimits {
    failure: u32,
    inconclusive: u32,
    consecutive_error: u32,
    count: Option<u32>,
}

/// A text of n spaces.
#[tactic(auto, unfolding(crate::specs::Shortened::spaces))]
fn spaces(alloc: Global, n: usize) -> Result<Text, AllocError>
    ensures { IfOk result (λ text. text ≡ spaces n) }
{
    Ok(Text::from(" ".repeat(alloc, n)?))
}

/// How many bytes of a condition are kept, where it is shortened.
fn most_kept(shortens: bool) -> Option<usize>
    ensures { result ≡ most_kept shortens }
{
    if shortens {
        Some(MOST_TEXT_BYTES)
    } else {
        None
    }
}

/// A bound text as a condition. An empty one counts as missing, and spaces replace one that had
/// too many bytes.
#[tactic(auto, unfolding(crate::specs::Private::Within::condition_within))]
fn condition_within(alloc: Global, bound: Option<Text>) -> Result<Option<Text>, AllocError>
    ensures { IfOk result (λ condition. condition ≡ condition_within bound) }
{
    let Some(bound) = bound else {
        return Ok(Some(spaces(alloc, MOST_TEXT_BYTES + 1)?));
    };
    if bound.as_str().is_empty() {
        Ok(None)
    } else {
        Ok(Some(bound))
    }
}

/// A condition, bound, and shortened where the scope says so. An empty one counts as missing.
fn condition(
    alloc: Global,
    scope: &Scope,
    condition: &Option<Text>,
) -> Result<Option<Text>, ManifestError>
    ensures exact { Gives is_memory (λ bound. bound) result
        (kept_condition scope.now.arguments.now scope.now.own.now scope.now.metric scope.now.shortens condition.now) }
    ensures none { condition.now ≡ None → result ≡ Ok None }
{
    let Some(condition) = condition else {
        return Ok(None);
    };
    let bound = scope.text(alloc, condition.as_str(), most_kept(scope.shortens))?;
    Ok(condition_within(alloc, bound)?)
}

/// A text as a limit, bound.
fn limit_in(alloc: Global, scope: &Scope, text: &str) -> Result<u32, ManifestError>
    ensures { Gives is_memory (λ limit. limit) result
        (limit_in scope.now.arguments.now scope.now.own.now scope.now.metric text.now) }
{
    let bound = scope.text(alloc, text, Some(MOST_LIMIT_DIGITS))?;
    limit_within(&bound, scope.metric)
}

/// A limit, bound.
#[tactic(auto, unfolding(crate::specs::Bound::bound_limit))]
fn limit(alloc: Global, scope: &Scope, limit: &Option<Limit>) -> Result<Option<u32>, ManifestError>
    ensures exact { Gives is_memory (λ bound. bound) result
        (bound_limit scope.now.arguments.now scope.now.own.now scope.now.metric limit.now) }
    ensures number { IsNumber limit.now
        → result ≡ bound_limit scope.now.arguments.now scope.now.own.now scope.now.metric limit.now }
{
    match limit {
        None => Ok(None),
        Some(Limit::Whole(number)) => limit_of_number(*number, scope.metric).map(Some),
        Some(Limit::OtherNumber) => Err(ManifestError::BadLimit(scope.metric)),
        Some(Limit::Text(text)) => limit_in(alloc, scope, text.as_str()).map(Some),
    }
}

/// The conditions of a metric, bound.
fn conditions(
    alloc: Global,
    scope: &Scope,
    metric: &Metric,
) -> Result<(Option<Text>, Option<Text>), ManifestError>
    ensures exact { Gives is_memory (λ bound. bound) result
        (kept_conditions scope.now.arguments.now scope.now.own.now scope.now.metric scope.now.shortens metric.now) }
    ensures plain { IsPlain scope.now.arguments.now scope.now.own.now scope.now.metric metric.now
        → result ≡ Ok (None, None) }
{
    let success = condition(alloc, scope, &metric.success_condition)?;
    zip_ok(success, condition(alloc, scope, &metric.failure_condition))
}

/// The limits of a metric, bound.
fn limits(alloc: Global, scope: &Scope, metric: &Metric) -> Result<BoundLimits, ManifestError>
    ensures exact { Gives is_memory (λ bound. bound) result
        (bound_limits scope.now.arguments.now scope.now.own.now scope.now.metric metric.now) }
    ensures plain { IsPlain scope.now.arguments.now scope.now.own.now scope.now.metric metric.now
        → Refuses result (bound_limits scope.now.arguments.now scope.now.own.now scope.now.metric metric.now) }
{
    let count = limit(alloc, scope, &metric.limits.count)?;
    let failure = limit(alloc, scope, &metric.limits.failure)?;
    let inconclusive = limit(alloc, scope, &metric.limits.inconclusive)?;
    let consecutive_error = limit(alloc, scope, &metric.limits.consecutive_error)?;
    let count = effective_count(count, metric.has_interval, scope.metric)?;
    Ok(BoundLimits {
        failure: failure.unwrap_or(FAILURES),
        inconclusive: inconclusive.unwrap_or(INCONCLUSIVE),
        consecutive_error: consecutive_error.unwrap_or(CONSECUTIVE_ERRORS),
        count,
    })
}

/// A metric, bound.
fn metric(alloc: Global, scope: &Scope, metric: &Metric) -> Result<BoundMetric, ManifestError>
    ensures exact { Gives is_memory (λ bound. bound) result
        (kept_bound scope.now.arguments.now scope.now.own.now scope.now.metric scope.now.shortens metric.now) }
    ensures plain { IsPlain scope.now.arguments.now scope.now.own.now scope.now.metric metric.now
        → Refuses result (bound_metric scope.now.arguments.now scope.now.own.now scope.now.metric metric.now) }
{
    let held = conditions(alloc, scope, metric)?;
    let (held, limits) = zip_ok(held, limits(alloc, scope, metric))?;
    let (held, name) = zip_ok(held, Text::of(alloc, metric.name.as_str()))?;
    Ok(BoundMetric {
        name,
        success_condition: held.0,
        failure_condition: held.1,
        failure_limit: limits.failure,
        inconclusive_limit: limits.inconclusive,
        consecutive_error_limit: limits.consecutive_error,
        count: limits.count,
        dry: metric.dry,
    })
}

/// The metrics, bound one after another.
fn metrics(
    alloc: Global,
    list: &[Metric],
    arguments: &Arguments<Option<Text>>,
    own: &Args,
    shortens: bool,
) -> Result<Bound, ManifestError>
    ensures exact { Gives is_memory (λ bound. bound) result
        (each_after (next_kept arguments.now own.now shortens) [] list.now) }
    ensures first { RefusesFirst arguments.now own.now list.now result }
{
    let mut metrics: Vec<BoundMetric> = Vec::new(alloc);
    for metric in list {
        let scope = Scope {
            arguments,
            own,
            metric: metrics.len(),
            shortens,
        };
        let bound = self::metric(alloc, &scope, metric)?;
        try_push(&mut metrics, bound)?;
    }
    Ok(Bound::from(metrics))
}

/// The template, bound.
pub(crate) fn bound(alloc: Global, template: &Template, own: &Args) -> Result<Bound, ManifestError>
    ensures exact { Gives is_memory (λ bound. bound) result (bound_of template.now own.now) }
    ensures first { RefusesFirst template.now.arguments own.now template.now.metrics result }
{
    metrics(
        alloc,
        template.metrics.as_slice(),
        &template.arguments,
        own,
        false,
    )
}

/// The template, bound, and its conditions shortened.
pub(crate) fn shortened(
    alloc: Global,
    template: &Template,
    own: &Args,
) -> Result<Bound, ManifestError>
    ensures exact { Gives is_memory (λ bound. bound) result (shortened_of template.now own.now) }
    ensures first { RefusesFirst template.now.arguments own.now template.now.metrics result }
{
    metrics(
        alloc,
        template.metrics.as_slice(),
        &template.arguments,
        own,
        true,
    )
}
