//! The conditions of a metric.

ghost use Rattle.std.specs.Prelude.{◌≡◌, IfOk, IfSome, IsOk, None, Some, option_map};
ghost use Rattle.ar_value.specs.View.{shape_view, value_view};
ghost use Rattle.ar_judge.specs.JudgeHeadline.{BuildsJudge};
ghost use Rattle.ar_judge.specs.Judging.{FitsEach, BeginsNoFilterIfThere, Suits, TakesNoMemory, condition_as};
ghost use Rattle.ar_judge.specs.Verdict.{AreBuilt, said_of, said_where, sample_view, verdict, verdict_by};
ghost use Rattle.ar_judge.specs.Private.Building.{BuildsEach, failure_refused, success_refused};
ghost use Rattle.ar_judge.specs.Private.Readiness.{said_view};

use crate::condition::Condition;
use crate::error::{BuildCause, BuildError};
use crate::sample::Sample;
use crate::shared_condition::SharedCondition;
use crate::verdict::{Cause, Verdict};
use ar_machine::Answer;
use ar_manifest::BoundMetric;
use ar_safety::Verified;
use ar_value::Text;
use ar_value::shared_shape::SharedShape;
use ar_value::value::Value;
use std::alloc::{AllocError, Global};
use std::marker::Model;

/// A metric's success condition and failure condition, each where it is there. Contracts see it as
/// the `Judge` of `specs/Verdict`.
#[derive(Drop)]
pub struct Judge {
    success: Option<SharedCondition>,
    failure: Option<SharedCondition>,
}

/// One of a metric's two conditions.
#[derive(Clone, Copy)]
pub enum Which {
    Success,
    Failure,
}

impl Model for Judge {
    ghost use Rattle.std.specs.Coded.{codes};
    ghost use Rattle.ar_value.specs.contracts.shape.Shape as shape_row;
    ghost use Rattle.ar_judge.specs.Verdict.{Judge as Parts, judge_of};

    ghost Value = { Parts };

    ghost coded = { Prim.hlevel (codes, shape_row.the_row.coded) };

    ghost view = { λ j. judge_of j.success j.failure };
}

impl Judge {
    /// The judge of a metric's conditions where a measured value has a shape, which they keep.
    ///
    /// # Errors
    ///
    /// The first text, the success condition's before the failure condition's, that is no condition
    /// that can be run, and why.
    pub fn build(
        alloc: Global,
        metric: &BoundMetric,
        shape: &SharedShape,
    ) -> Result<Judge, BuildError>
        ensures { BuildsJudge (shape_view shape.now)
            metric.now.success_condition metric.now.failure_condition result }
    {
        Judge::build_with(alloc, metric, shape, None, None)
    }

    /// The judge that `build` gives, with the conditions of the metric's texts that are there already, as those
    /// of another run.
    ///
    /// # Errors
    ///
    /// As those of `build`.
    pub fn build_with(
        alloc: Global,
        metric: &BoundMetric,
        shape: &SharedShape,
        known_success: Option<&SharedCondition>,
        known_failure: Option<&SharedCondition>,
    ) -> Result<Judge, BuildError>
        requires success { IfSome known_success
            (λ condition. AreBuilt (shape_view shape.now) metric.now.success_condition (Some condition.now)) }
        requires failure { IfSome known_failure
            (λ condition. AreBuilt (shape_view shape.now) metric.now.failure_condition (Some condition.now)) }
        ensures { BuildsJudge (shape_view shape.now)
            metric.now.success_condition metric.now.failure_condition result }
    {
        let success = built(alloc, &metric.success_condition, shape, known_success);
        let success = success.map_err(success_refused)?;
        let failure = built(alloc, &metric.failure_condition, shape, known_failure);
        let failure = failure.map_err(failure_refused)?;
        Ok(Judge { success, failure })
    }

    /// One of its conditions, where it is there.
    pub fn condition(&self, which: Which) -> Option<&SharedCondition>
        ensures { option_map (λ condition. condition.now) result ≡ condition_as which self.now }
    {
        match which {
            Which::Success => self.success.as_ref(),
            Which::Failure => self.failure.as_ref(),
        }
    }

    /// The verified code of the success condition.
    pub fn success(&self) -> Option<&Verified>
        ensures { option_map (λ verified. verified.now) result
            ≡ option_map (λ condition. condition.verified) self.now.success }
    {
        verified_of(&self.success)
    }

    /// The verified code of the failure condition.
    pub fn failure(&self) -> Option<&Verified>
        ensures { option_map (λ verified. verified.now) result
            ≡ option_map (λ condition. condition.verified) self.now.failure }
    {
        verified_of(&self.failure)
    }

    /// The verdict of a sample. Its value, if it has one, must fit the shape that the conditions are
    /// for, and its misfit, if it has one, must not be out of memory.
    ///
    /// # Errors
    ///
    /// Out of memory alone, which only the begin of a loop of a `filter` over items takes.
    pub fn judge(&self, alloc: Global, sample: &Sample) -> Result<Verdict, AllocError>
        requires { Suits self.now (sample_view sample.now) }
        ensures exact { IfOk result (λ found. found ≡ verdict self.now (sample_view sample.now)) }
        // Where no run of a condition begins a loop of a `filter` over items, out of memory is never returned.
        ensures without_memory { TakesNoMemory self.now (sample_view sample.now) → IsOk result }
    {
        match sample {
            Sample::Provider => Ok(Verdict::Error(Cause::Provider)),
            Sample::Misfit(fault) => Ok(Verdict::Error(Cause::Shape(*fault))),
            Sample::Measured(value) => {
                let success = said(alloc, &self.success, value)?;
                if let Some(Err(fault)) = success {
                    return Ok(Verdict::Error(Cause::Success(fault)));
                }
                let failure = said(alloc, &self.failure, value)?;
                Ok(verdict_by(success, failure))
            }
        }
    }
}

/// The verified code of a condition, where it is there.
fn verified_of(condition: &Option<SharedCondition>) -> Option<&Verified>
    ensures { option_map (λ verified. verified.now) result
        ≡ option_map (λ condition. condition.verified) condition.now }
{
    match condition {
        Some(condition) => Some(condition.get().verified()),
        None => None,
    }
}

/// The condition of a text, where there is one, and where it isn't there already.
fn built(
    alloc: Global,
    text: &Option<Text>,
    shape: &SharedShape,
    there: Option<&SharedCondition>,
) -> Result<Option<SharedCondition>, BuildCause>
    requires { IfSome there (λ condition. AreBuilt (shape_view shape.now) text.now (Some condition.now)) }
    ensures built { BuildsEach (shape_view shape.now) text.now result }
    ensures without_memory { text.now ≡ None → IsOk result }
{
    match there {
        Some(condition) => Ok(Some(condition.share()?)),
        None => newly_built(alloc, text, shape),
    }
}

fn newly_built(
    alloc: Global,
    text: &Option<Text>,
    shape: &SharedShape,
) -> Result<Option<SharedCondition>, BuildCause>
    ensures built { BuildsEach (shape_view shape.now) text.now result }
    ensures without_memory { text.now ≡ None → IsOk result }
{
    match text {
        Some(text) => {
            let condition = Condition::build(alloc, text.as_str(), shape.share()?)?;
            Ok(Some(SharedCondition::new(alloc, condition)?))
        }
        None => Ok(None),
    }
}

fn success_refused(cause: BuildCause) -> BuildError
    ensures { result ≡ success_refused cause }
{
    match cause {
        BuildCause::OutOfMemory => BuildError::OutOfMemory,
        cause => BuildError::Success(cause),
    }
}

fn failure_refused(cause: BuildCause) -> BuildError
    ensures { result ≡ failure_refused cause }
{
    match cause {
        BuildCause::OutOfMemory => BuildError::OutOfMemory,
        cause => BuildError::Failure(cause),
    }
}

/// What a condition says of a value, where there is one.
fn said(
    alloc: Global,
    condition: &Option<SharedCondition>,
    value: &Value,
) -> Result<Option<Answer>, AllocError>
    requires { FitsEach (value_view value.now) condition.now }
    ensures said { IfOk result (λ said. said_view said ≡ said_where (said_of (value_view value.now)) condition.now) }
    ensures without_memory { BeginsNoFilterIfThere (value_view value.now) condition.now → IsOk result }
{
    match condition {
        Some(condition) => Ok(Some(condition.get().answer(alloc, value)?)),
        None => Ok(None),
    }
}

/// The verdict by what the two conditions say, where they are there.
fn verdict_by(success: Option<Answer>, failure: Option<Answer>) -> Verdict
    ensures { result ≡ verdict_by (said_view success) (said_view failure) }
{
    match (success, failure) {
        (Some(Err(fault)), _) => Verdict::Error(Cause::Success(fault)),
        (_, Some(Err(fault))) => Verdict::Error(Cause::Failure(fault)),
        (None, None) | (Some(Ok(true)), None | Some(Ok(false))) | (None, Some(Ok(false))) => {
            Verdict::Successful
        }
        (Some(Ok(false)), None) | (_, Some(Ok(true))) => Verdict::Failed,
        (Some(Ok(false)), Some(Ok(false))) => Verdict::Inconclusive,
    }
}
