//! The field of a metric that holds a value of another kind than it takes.

ghost use Rattle.std.specs.Prelude.{◌≡◌, IfOk, option_and_then, option_map};
ghost use Rattle.serde_json.specs.View.{view};
ghost use Rattle.ar_words.specs.Fields.{json_said, limit_misfit, limits_misfit, metric_misfit, misfit_of, text_misfit, texts_misfit};

use ar_diagnostic::MetricField;
use ar_json::members::member;
use ar_value::Text;
use serde_json::Value as Json;
use std::alloc::{AllocError, Global};

/// A field of a metric, with a value of another kind than it takes.
#[derive(Clone, Copy)]
pub(crate) struct FieldMisfit<'a> {
    pub field: MetricField,
    pub value: &'a Json,
    pub expected: &'static str,
}

fn json_said(json: &Json) -> &'static str
    ensures { result.now ≡ json_said (view json.now) }
{
    match json {
        Json::Null => "null",
        Json::Bool(_) => "a boolean",
        Json::Number(_) => "a number",
        Json::String(_) => "a text",
        Json::Array(_) => "a list",
        Json::Object(_) => "an object",
    }
}

fn text_misfit<'a>(metric: &'a Json, field: MetricField) -> Option<FieldMisfit<'a>>
    ensures { option_map (λ found. misfit_of found.field (view found.value.now) found.expected.now) result
        ≡ text_misfit field (view metric.now) }
{
    match member(metric, field.name())? {
        Json::String(_) => None,
        value => Some(FieldMisfit {
            field,
            value,
            expected: "a text",
        }),
    }
}

fn limit_misfit<'a>(metric: &'a Json, field: MetricField) -> Option<FieldMisfit<'a>>
    ensures { option_map (λ found. misfit_of found.field (view found.value.now) found.expected.now) result
        ≡ limit_misfit field (view metric.now) }
{
    match member(metric, field.name())? {
        Json::Number(_) | Json::String(_) => None,
        value => Some(FieldMisfit {
            field,
            value,
            expected: "a number or a text",
        }),
    }
}

/// The first misfit among conditions and `interval`.
fn texts_misfit(metric: &Json) -> Option<FieldMisfit<'_>>
    ensures { option_map (λ found. misfit_of found.field (view found.value.now) found.expected.now) result
        ≡ texts_misfit (view metric.now) }
{
    text_misfit(metric, MetricField::SuccessCondition)
        .or(text_misfit(metric, MetricField::FailureCondition))
        .or(text_misfit(metric, MetricField::Interval))
}

/// The first misfit among limits.
fn limits_misfit(metric: &Json) -> Option<FieldMisfit<'_>>
    ensures { option_map (λ found. misfit_of found.field (view found.value.now) found.expected.now) result
        ≡ limits_misfit (view metric.now) }
{
    limit_misfit(metric, MetricField::Count)
        .or(limit_misfit(metric, MetricField::FailureLimit))
        .or(limit_misfit(metric, MetricField::InconclusiveLimit))
        .or(limit_misfit(metric, MetricField::ConsecutiveErrorLimit))
}

/// What the field of a misfit holds.
pub(crate) fn field_said(alloc: Global, misfit: FieldMisfit<'_>) -> Result<Text, AllocError>
    ensures { IfOk result (λ text. text
        ≡ (misfit_of misfit.entry.field (view misfit.entry.value.now) misfit.entry.expected.now).found) }
{
    let kind = json_said(misfit.value);
    Ok(Text::from(format!(in alloc; "`{}` is {kind}", misfit.field.name())?))
}

/// A metric's first field that holds a value of another kind than it takes.
pub(crate) fn metric_misfit(metric: Option<&Json>) -> Option<FieldMisfit<'_>>
    ensures { option_map (λ found. misfit_of found.field (view found.value.now) found.expected.now) result
        ≡ option_and_then metric_misfit (option_map (λ json. view json.now) metric.entry) }
{
    let metric = metric?;
    texts_misfit(metric).or(limits_misfit(metric))
}
