//! Templates as they are read, before their arguments are bound.

ghost use Rattle.std.specs.Prelude.{◌≡◌, IfOk, option_map};
ghost use Rattle.serde_json.specs.View.{view};
ghost use Rattle.ar_value.specs.Answer.{Gives};
ghost use Rattle.ar_manifest.specs.Answer.{ReadsTo};
ghost use Rattle.ar_manifest.specs.Refusals.{is_memory};
ghost use Rattle.ar_manifest.specs.Bound.{RefusesFirst, bound_of};
ghost use Rattle.ar_manifest.specs.Found.{refused_limit, unbound_reference};
ghost use Rattle.ar_manifest.specs.Shortened.{shortened_of};

use crate::arguments::{Args, Arguments};
use crate::binder::{bound, shortened};
use crate::bound::Bound;
use crate::error::ManifestError;
use crate::found::{RefusedLimit, refused_limit, unbound_reference};
use crate::reader::template;
use ar_value::Text;
use serde_json::Value as Json;
use std::alloc::{AllocError, Global};
use std::marker::Model;

/// A limit as a template has it, which may contain arguments.
#[derive(Drop)]
pub enum Limit {
    /// A whole JSON number without a sign.
    Whole(u64),
    /// Any other JSON number, which is no limit.
    OtherNumber,
    Text(Text),
}

/// The limits of a metric, as far as they are there.
#[derive(Drop)]
pub struct MetricLimits {
    pub count: Option<Limit>,
    pub failure: Option<Limit>,
    pub inconclusive: Option<Limit>,
    pub consecutive_error: Option<Limit>,
}

/// A metric of a template.
#[derive(Drop)]
pub struct Metric {
    pub name: Text,
    pub success_condition: Option<Text>,
    pub failure_condition: Option<Text>,
    /// Whether the metric has an `interval` that isn't empty.
    pub has_interval: bool,
    /// Whether the metric is judged and counted, and decides nothing.
    pub dry: bool,
    pub limits: MetricLimits,
}

/// Metrics in their order, which contracts see as a list.
#[derive(Drop)]
pub struct Metrics {
    metrics: Vec<Metric>,
}

impl Model for Metrics {
    ghost use Rattle.std.specs.Prelude.{List};
    ghost use Rattle.ar_manifest.specs.declared.template.Metric.{Metric};

    ghost Value = { List Metric };

    ghost view = { λ metrics. metrics.metrics.items };
}

impl Metrics {
    pub fn as_slice(&self) -> &[Metric]
        ensures { result.now ≡ self.now }
    {
        &self.metrics
    }

    /// The metrics as a `Vec`, without taking memory.
    pub fn into_vec(self) -> Vec<Metric>
        ensures { result.items ≡ self }
    {
        self.metrics
    }
}

impl From<Vec<Metric>> for Metrics {
    ghost from_gives = { λ vec metrics. metrics ≡ vec.items };

    fn from(metrics: Vec<Metric>) -> Metrics {
        Metrics { metrics }
    }
}

/// An AnalysisTemplate or a ClusterAnalysisTemplate: what of it says how measurements are judged.
#[derive(Drop)]
pub struct Template {
    pub name: Text,
    /// The arguments of `spec.args`, each with its value if it has one.
    pub arguments: Arguments<Option<Text>>,
    pub metrics: Metrics,
}

impl Template {
    /// The template that a JSON document is, as `kubectl get analysistemplate NAME -o json` or
    /// `kubectl get clusteranalysistemplate NAME -o json` prints it. Of Argo Rollouts' templates it
    /// reads `metadata.name`, `spec.args`, of each metric of `spec.metrics` its name, conditions,
    /// limits and `interval`, and `spec.dryRun`. Other fields are ignored, null counts as missing,
    /// and what should be an object and isn't has no fields.
    ///
    /// # Errors
    ///
    /// The first that holds of `WrongVersion`, `WrongKind`, `NameMissing`, `BadArgs`, `NoMetrics`
    /// and `TooManyMetrics`; then, metric by metric, of `MetricNameMissing`, `DoubleMetric`,
    /// `BadField` and `Unsupported`; then, item by item of `spec.dryRun`, of `BadDryRun` and
    /// `UnknownDryRun`.
    /// `OutOfMemory` where a growth was refused: never instead of the first three, nor of
    /// `NoMetrics` and `TooManyMetrics` where there are no arguments.
    pub fn read(alloc: Global, json: &Json) -> Result<Template, ManifestError>
        ensures { ReadsTo (view json.now) result }
    {
        template(alloc, json)
    }

    /// The template with its arguments bound: in both conditions and the four limits of each
    /// metric, `{{args.name}}` is replaced by the argument's value. Spaces next to the braces are
    /// dropped, and a value isn't searched again. A run's own argument takes precedence over the template's;
    /// one that `spec.args` doesn't name is ignored.
    ///
    /// A limit is a whole JSON number, or a text of one to ten digits, from 0 to 1,000,000,000.
    /// `failureLimit` and `inconclusiveLimit` are 0 by default, `consecutiveErrorLimit` 4. A
    /// `count` of 0 counts as missing, and so does a condition that is empty once it is bound.
    ///
    /// # Errors
    ///
    /// Metric by metric, over success condition, failure condition, `count`, `failureLimit`,
    /// `inconclusiveLimit` and `consecutiveErrorLimit`, the first in each from left to right:
    /// `OpenBraces`, `UnknownArg` or `NoValue`, and for a limit then `BadLimit`; last
    /// `IntervalMissing`. `OutOfMemory` where a growth was refused: never instead of a refusal of
    /// the first metric, as `BadLimit` of a number, that no text is bound before.
    pub fn bind(&self, alloc: Global, args: &Args) -> Result<Bound, ManifestError>
        ensures exact { Gives is_memory (λ bound. bound) result (bound_of self.now args.now) }
        ensures first { RefusesFirst self.now.arguments args.now self.now.metrics result }
    {
        bound(alloc, self, args)
    }

    /// The template bound as by `bind`, but a condition that has more than 4,096 bytes once it is
    /// bound, which is too long for a condition, is a text of 4,097 spaces. So it is refused as too
    /// long, as it would be if it were made whole, and takes no memory for the rest of its bytes.
    ///
    /// # Errors
    ///
    /// As those of `bind`.
    pub fn bind_shortened(&self, alloc: Global, args: &Args) -> Result<Bound, ManifestError>
        ensures exact { Gives is_memory (λ bound. bound) result (shortened_of self.now args.now) }
        ensures first { RefusesFirst self.now.arguments args.now self.now.metrics result }
    {
        shortened(alloc, self, args)
    }

    /// The first reference in the texts of a metric that has no value, without its braces: neither the
    /// run's arguments nor the template's give one. The texts are searched in the order of `bind`,
    /// each from left to right. Where `bind` refuses the metric by `UnknownArg` or `NoValue`, this
    /// is what it refuses. It takes no memory.
    pub fn unbound_reference(&self, args: &Args, metric: usize) -> Option<&str>
        ensures { option_map (λ text. text.now) result ≡ unbound_reference self.now args.now metric }
    {
        unbound_reference(self, args, metric)
    }

    /// The first limit of a metric that isn't one once it is bound, in the order of `bind`, with
    /// what it is then. Where `bind` refuses the metric by `BadLimit`, this is what it refuses.
    ///
    /// # Errors
    ///
    /// Out of memory alone. No text of more than 256 bytes is made.
    pub fn refused_limit(
        &self,
        alloc: Global,
        args: &Args,
        metric: usize,
    ) -> Result<Option<RefusedLimit>, AllocError>
        ensures { IfOk result (λ found. found ≡ refused_limit self.now args.now metric) }
    {
        refused_limit(alloc, self, args, metric)
    }
}
