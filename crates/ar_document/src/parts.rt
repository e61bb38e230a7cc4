//! Parts of the bundle for the runs of a document.

ghost use Rattle.std.specs.Prelude.{◌≡◌, IfErr, IfOk, IfSome, List, Some, length, map, take};
ghost use Rattle.std.specs.List.{AllByRecursion};
ghost use Rattle.ar_limits.specs.Metric.{HasPositiveCounts};
ghost use Rattle.ar_judge.specs.Verdict.{IsJudge};
ghost use Rattle.ar_manifest.specs.Shortened.{shortened_of};
ghost use Rattle.ar_bundle.specs.Sound.{IsRun, JudgesEach};
ghost use Rattle.ar_value.specs.Answer.{Gives, IfRefused};
ghost use Rattle.ar_value.specs.View.{shape_view};
ghost use Rattle.ar_judge.specs.Saying.{refused_as};
ghost use Rattle.ar_document.specs.Document.{is_bundle_memory};
ghost use Rattle.ar_document.specs.Opening.{metric_view};
ghost use Rattle.ar_document.specs.Parts.{AreJudges, HaveParts, IsPart, RefusesRun, RefusesRuns, limits_of};
ghost use Rattle.ar_document.specs.Private.Earlier.{AllOfTheirTexts, AreOfTheirTexts, IsOfEarlier, IsOfRun};
ghost use Rattle.ar_document.specs.Private.Opened.{opened_with};
ghost use Rattle.ar_document.specs.Private.Parts.{RefusesJudge, RefusesJudges, part_with};
ghost use Rattle.ar_document.specs.declared.error.BundleError.TheVariants.{Bind};
ghost use Rattle.ar_document.specs.declared.runs.Run.{Run as Written};

use crate::error::BundleError;
use crate::runs::Run;
use ar_bundle::{Judges, MetricPart, RunLimits, RunPart};
use ar_judge::{BuildError, Judge, SharedCondition, Which};
use ar_limits::Limits;
use ar_manifest::{Bound, BoundMetric, ManifestError, Template};
use ar_value::holding::{try_push, zip_ok};
use ar_value::text::Text;
use std::alloc::{AllocError, Global};

/// The template, bound to the arguments of the run with a number. Conditions that are too long are shortened.
fn bound(alloc: Global, template: &Template, run: &Run, number: usize) -> Result<Bound, BundleError>
    ensures { Gives is_bundle_memory (λ bound. bound) result
        (refused_as (Bind number) (shortened_of template.now run.now.own)) }
{
    match template.bind_shortened(alloc, &run.own) {
        Ok(bound) => Ok(bound),
        Err(ManifestError::OutOfMemory) => Err(BundleError::OutOfMemory),
        Err(error) => Err(BundleError::Bind(number, error)),
    }
}

/// One of the conditions that a run has for the metric with a number, if it is of a text.
fn condition_in<'p>(
    part: &'p RunPart,
    which: Which,
    number: usize,
    text: &str,
) -> Option<&'p SharedCondition>
    ensures { IfSome result (λ condition. IsOfRun part.now which number condition.now
        × (condition.now.text ≡ text.now)) }
{
    let condition = part.judges.as_slice().get(number)?.condition(which)?;
    if condition.is_of(text) {
        Some(condition)
    } else {
        None
    }
}

/// The condition of a text that an earlier run has for the metric with a number.
fn earlier_condition<'p>(
    earlier: &'p [RunPart],
    which: Which,
    number: usize,
    text: &Option<Text>,
) -> Option<&'p SharedCondition>
    ensures { IfSome result (λ condition. IsOfEarlier earlier.now which number condition.now
        × (text.now ≡ Some condition.now.text)) }
{
    let text = text.as_ref()?;
    for part in earlier {
        if let Some(condition) = condition_in(part, which, number, text.as_str()) {
            return Some(condition);
        }
    }
    None
}

/// The judge of a metric, whose number and whose run's number are reported where there is none. A text that an
/// earlier run's metric has, too, isn't built again.
fn judge_of(
    alloc: Global,
    run: usize,
    number: usize,
    metric: &MetricPart,
    bound: &BoundMetric,
    earlier: &[RunPart],
) -> Result<Judge, BundleError>
    requires { AreOfTheirTexts number metric.now earlier.now }
    ensures built { IfOk result
        (IsJudge (shape_view metric.now.shape) bound.now.success_condition bound.now.failure_condition) }
    ensures refused { IfRefused is_bundle_memory result (RefusesJudge run number metric.now bound.now) }
{
    let success = earlier_condition(earlier, Which::Success, number, &bound.success_condition);
    let failure = earlier_condition(earlier, Which::Failure, number, &bound.failure_condition);
    match Judge::build_with(alloc, bound, &metric.shape, success, failure) {
        Ok(judge) => Ok(judge),
        Err(BuildError::OutOfMemory) => Err(BundleError::OutOfMemory),
        Err(error) => Err(BundleError::Build(run, number, error)),
    }
}

/// A judge for each metric.
fn judges_of(
    alloc: Global,
    run: usize,
    metrics: &[MetricPart],
    bound: &[BoundMetric],
    earlier: &[RunPart],
) -> Result<Judges, BundleError>
    requires many { length bound.now ≡ length metrics.now }
    requires earlier { AllOfTheirTexts metrics.now earlier.now }
    ensures built { IfOk result (AreJudges (map metric_view metrics.now) bound.now) }
    ensures refused { IfRefused is_bundle_memory result (RefusesJudges run metrics.now bound.now) }
{
    let mut judges = Vec::with_capacity(alloc, metrics.len())?;
    for (number, metric) in metrics.iter().enumerate() {
        let judge = judge_of(alloc, run, number, metric, &bound[number], earlier)?;
        try_push(&mut judges, judge)?;
    }
    Ok(Judges::from(judges))
}

fn limits_of(metric: &BoundMetric) -> Limits
    ensures { result ≡ limits_of metric.now }
{
    Limits {
        failure: metric.failure_limit,
        inconclusive: metric.inconclusive_limit,
        consecutive_error: metric.consecutive_error_limit,
        count: metric.count,
        dry: metric.dry,
    }
}

/// Limits for each metric.
fn all_limits(alloc: Global, bound: &[BoundMetric]) -> Result<RunLimits, AllocError>
    ensures { IfOk result (λ limits. limits ≡ map limits_of bound.now) }
{
    let mut limits = Vec::with_capacity(alloc, bound.len())?;
    for metric in bound {
        limits.push(limits_of(metric))?;
    }
    Ok(RunLimits::from(limits))
}

/// A judge and limits for each metric.
fn judges_and_limits(
    alloc: Global,
    run: usize,
    metrics: &[MetricPart],
    bound: &[BoundMetric],
    earlier: &[RunPart],
) -> Result<(Judges, RunLimits), BundleError>
    requires many { length bound.now ≡ length metrics.now }
    requires earlier { AllOfTheirTexts metrics.now earlier.now }
    ensures built { IfOk result (λ made. AreJudges (map metric_view metrics.now) bound.now made.0) }
    ensures limits { IfOk result (λ made. made.1 ≡ map limits_of bound.now) }
    ensures refused { IfRefused is_bundle_memory result (RefusesJudges run metrics.now bound.now) }
{
    let judges = judges_of(alloc, run, metrics, bound, earlier)?;
    Ok(zip_ok(judges, all_limits(alloc, bound))?)
}

/// A judge and limits for each metric of a run, which comes after those of the earlier parts.
fn judged_run(
    alloc: Global,
    template: &Template,
    metrics: &[MetricPart],
    run: &Run,
    earlier: &[RunPart],
) -> Result<(Judges, RunLimits), BundleError>
    requires many { length metrics.now ≡ length template.now.metrics }
    requires earlier { AllOfTheirTexts metrics.now earlier.now }
    ensures judged { (runs : List Written) → IfOk result (λ judged.
        IsPart (opened_with template.now metrics.now runs) run.now (part_with run.now judged)) }
    ensures refused { (runs : List Written) → IfRefused is_bundle_memory result
        (RefusesRun (opened_with template.now metrics.now runs) (length earlier.now) run.now) }
{
    let number = earlier.len();
    let bound = bound(alloc, template, run, number)?;
    judges_and_limits(alloc, number, metrics, bound.metrics(), earlier)
}

/// The part of a run, after those of earlier runs.
fn part_of(
    alloc: Global,
    template: &Template,
    metrics: &[MetricPart],
    run: Run,
    earlier: &[RunPart],
) -> Result<RunPart, BundleError>
    requires many { length metrics.now ≡ length template.now.metrics }
    requires earlier { AllOfTheirTexts metrics.now earlier.now }
    ensures part { (runs : List Written)
        → IfOk result (IsPart (opened_with template.now metrics.now runs) run) }
    ensures refused { (runs : List Written) → IfRefused is_bundle_memory result
        (RefusesRun (opened_with template.now metrics.now runs) (length earlier.now) run) }
{
    let judged = judged_run(alloc, template, metrics, &run, earlier);
    let (run, judged) = zip_ok(run, judged)?;
    Ok(RunPart {
        name: run.name,
        judges: judged.0,
        limits: judged.1,
    })
}

/// The parts of all runs.
pub(crate) fn parts_of(
    alloc: Global,
    template: &Template,
    metrics: &[MetricPart],
    runs: Vec<Run>,
) -> Result<Vec<RunPart>, BundleError>
    requires { length metrics.now ≡ length template.now.metrics }
    ensures parts { IfOk result (λ parts.
        HaveParts (opened_with template.now metrics.now runs.items) runs.items parts.items) }
    ensures refused { IfRefused is_bundle_memory result
        (RefusesRuns (opened_with template.now metrics.now runs.items)) }
{
    let mut parts = Vec::with_capacity(alloc, runs.len())?;
    for run in runs {
        let part = part_of(alloc, template, metrics, run, &parts)?;
        try_push(&mut parts, part)?;
    }
    Ok(parts)
}
