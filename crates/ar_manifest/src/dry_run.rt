//! `spec.dryRun`: which metrics are judged and counted, and decide nothing.

ghost use Rattle.std.specs.Prelude.{◌≡◌, [], false, map, option_map};
ghost use Rattle.std.specs.List.{list_any};
ghost use Rattle.serde_json.specs.View.{view};
ghost use Rattle.ar_value.specs.Answer.{Gives, each_after, there_or};
ghost use Rattle.ar_manifest.specs.DryRun.{dry_name, dry_names, names_metric, with_dry, with_dry_run};
ghost use Rattle.ar_json.specs.Members.{list_of};
ghost use Rattle.ar_manifest.specs.Refusals.{is_memory};
ghost use Rattle.ar_manifest.specs.declared.error.ManifestError.TheVariants.{BadDryRun};

use crate::error::ManifestError;
use crate::template::{Metric, Metrics};
use ar_json::members::{list_of, text_member};
use serde_json::Value as Json;
use std::alloc::Global;

/// The name that means all metrics.
const ALL: &str = ".*";

/// Whether a name is the metric's, or means all.
fn names_metric(name: &str, metric: &Metric) -> bool
    ensures { result ≡ names_metric name.now metric.now }
{
    name == ALL || name == metric.name.as_str()
}

fn names_any(name: &str, metrics: &[Metric]) -> bool
    ensures { result ≡ list_any (names_metric name.now) metrics.now }
{
    metrics.iter().any(|metric| names_metric(name, metric))
}

/// The name of an item after earlier ones.
#[tactic(auto, unfolding(crate::specs::DryRun::dry_name))]
fn name<'a>(
    json: &'a Json,
    metrics: &[Metric],
    earlier: &[&'a str],
) -> Result<&'a str, ManifestError>
    ensures { Gives (λ _. false) (λ name. name.now) result
        (dry_name metrics.now (map (λ name. name.now) earlier.now) (view json.now)) }
{
    let i = earlier.len();
    let Some(name) = text_member(json, "metricName") else {
        return Err(ManifestError::BadDryRun(i));
    };
    if name.is_empty() {
        return Err(ManifestError::BadDryRun(i));
    }
    if !names_any(name, metrics) {
        return Err(ManifestError::UnknownDryRun(i));
    }
    Ok(name)
}

/// The names of a JSON list.
fn listed_names<'a>(
    alloc: Global,
    list: &'a [Json],
    metrics: &[Metric],
) -> Result<Vec<&'a str>, ManifestError>
    ensures { Gives is_memory (λ names. map (λ name. name.now) names.items) result
        (each_after (dry_name metrics.now) [] (map (λ json. view json) list.now)) }
{
    let mut names = Vec::new(alloc);
    for json in list {
        let name = name(json, metrics, &names)?;
        names.push(name)?;
    }
    Ok(names)
}

/// The items of what is found at `spec.dryRun`.
fn items(json: &Json) -> Result<&[Json], ManifestError>
    ensures { Gives (λ _. false) (λ items. map (λ json. view json) items.now) result
        (there_or (BadDryRun 0) (list_of (view json.now))) }
{
    list_of(json).ok_or(ManifestError::BadDryRun(0))
}

/// The names at `spec.dryRun`.
fn dry_names<'a>(
    alloc: Global,
    found: Option<&'a Json>,
    metrics: &[Metric],
) -> Result<Vec<&'a str>, ManifestError>
    ensures { Gives is_memory (λ names. map (λ name. name.now) names.items) result
        (dry_names metrics.now (option_map (λ json. view json.now) found.entry)) }
{
    match found {
        None => Ok(Vec::new(alloc)),
        Some(json) => listed_names(alloc, items(json)?, metrics),
    }
}

fn is_dry(names: &[&str], metric: &Metric) -> bool
    ensures { result ≡ list_any (λ name. names_metric name.now metric.now) names.now }
{
    names.iter().any(|name| names_metric(name, metric))
}

/// Makes the metrics dry that are named.
#[tactic(auto)]
fn make_dry(names: &[&str], metrics: &mut [Metric])
    ensures { metrics.new ≡ map (with_dry (map (λ name. name.now) names.now)) metrics.old }
{
    for metric in metrics.iter_mut() {
        metric.dry = is_dry(names, metric);
    }
}

/// The metrics, dry where what is found at `spec.dryRun` names them.
pub(crate) fn with_dry_run(
    alloc: Global,
    found: Option<&Json>,
    mut metrics: Vec<Metric>,
) -> Result<Metrics, ManifestError>
    ensures { Gives is_memory (λ marked. marked) result
        (with_dry_run (option_map (λ json. view json.now) found.entry) metrics.items) }
{
    let names = dry_names(alloc, found, &metrics)?;
    make_dry(&names, &mut metrics);
    Ok(Metrics::from(metrics))
}
