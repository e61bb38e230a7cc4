//! Calls on conditions that can be run, and on judges.

ghost use Rattle.std.specs.Prelude.{IfOk};
ghost use Rattle.ar_bundle.specs.Sound.{JudgesShape, SampleSuits};
ghost use Rattle.ar_facts.specs.Names.{verdict_text};
ghost use Rattle.ar_judge.specs.Verdict.{sample_view};
ghost use Rattle.ar_value.specs.View.{shape_view};
ghost use Rattle.cases_of_values.specs.Output.{Writes};

use crate::made::{Made, put_made};
use ar_json::{ShapeFault, read_value};
use ar_judge::{Condition, Judge, Sample, Verdict};
use ar_manifest::BoundMetric;
use ar_safety::Verified;
use ar_value::{Shape, SharedShape, Text};
use cases_of_values::fault::{CaseFault, Written};
use cases_of_values::members;
use cases_of_values::output::Output;
use cases_of_values::printing::{put_answer, put_quoted, put_refusal};
use serde_json::Value as Json;
use std::alloc::Global;

/// A condition that can be run: its text, and what it says of the value.
pub(crate) fn put_condition(alloc: Global, case: &Json, out: &mut Output) -> Written {
    let text = members::text(case, "condition")?;
    let shape = members::shape(alloc, case, "shape")?;
    put_made(alloc, case, out, Condition::build(alloc, text, shape))
}

impl Made for Condition {
    fn answer_case(&self, alloc: Global, case: &Json, out: &mut Output) -> Written {
        let value = members::value(alloc, case, self.verified().shape())?;
        put_quoted(out, self.text());
        out.put(" ");
        put_answer(out, self.answer(alloc, &value)?);
        Ok(())
    }
}

/// The text of a member, where it is there.
fn text_of(alloc: Global, case: &Json, name: &str) -> Result<Option<Text>, CaseFault> {
    if case.get(name).is_none() {
        return Ok(None);
    }
    Ok(Some(Text::of(alloc, members::text(case, name)?)?))
}

/// A metric with the conditions `success` and `failure`, each where it is there.
fn metric_of(alloc: Global, case: &Json) -> Result<BoundMetric, CaseFault> {
    Ok(BoundMetric {
        name: Text::of(alloc, "metric")?,
        success_condition: text_of(alloc, case, "success")?,
        failure_condition: text_of(alloc, case, "failure")?,
        failure_limit: 0,
        inconclusive_limit: 0,
        consecutive_error_limit: 4,
        count: None,
        dry: false,
    })
}

/// What was measured: the member `value`, or nothing.
fn sample_of(alloc: Global, case: &Json, shape: &Shape) -> Result<Sample, CaseFault>
    ensures { IfOk result (λ sample. SampleSuits (shape_view shape.now) (sample_view sample)) }
{
    match case.get("value") {
        Some(json) => match read_value(alloc, json, shape) {
            Ok(value) => Ok(Sample::Measured(value)),
            Err(ShapeFault::OutOfMemory) => Err(CaseFault::OutOfMemory),
            Err(fault) => Ok(Sample::Misfit(fault)),
        },
        None => Ok(Sample::Provider),
    }
}

pub(crate) fn put_judge(alloc: Global, call: &str, case: &Json, out: &mut Output) -> Written {
    let shape = members::shape(alloc, case, "shape")?;
    let metric = metric_of(alloc, case)?;
    put_built(alloc, call, case, &shape, &metric, out)
}

#[tactic(auto, using(crate::proofs::Suiting::of_shape))]
fn put_built(
    alloc: Global,
    call: &str,
    case: &Json,
    shape: &SharedShape,
    metric: &BoundMetric,
    out: &mut Output,
) -> Written {
    match Judge::build(alloc, metric, shape) {
        Ok(judge) => put_judge_of(alloc, call, case, shape.get(), &judge, out),
        Err(refusal) => {
            put_refusal(alloc, case, out, refusal);
            Ok(())
        }
    }
}

/// The verdict of a judge of the shape, or the bounds of the code of each condition.
fn put_judge_of(
    alloc: Global,
    call: &str,
    case: &Json,
    shape: &Shape,
    judge: &Judge,
    out: &mut Output,
) -> Written
    requires { JudgesShape (shape_view shape.now) judge.now }
{
    if call == "judge" {
        return put_verdict_of(alloc, case, shape, judge, out);
    }
    put_both_bounds(out, judge);
    Ok(())
}

#[tactic(auto, using(crate::proofs::Suiting::suits))]
fn put_verdict_of(
    alloc: Global,
    case: &Json,
    shape: &Shape,
    judge: &Judge,
    out: &mut Output,
) -> Written
    requires { JudgesShape (shape_view shape.now) judge.now }
{
    let sample = sample_of(alloc, case, shape)?;
    put_verdict(alloc, out, judge.judge(alloc, &sample)?);
    Ok(())
}

/// Writes a verdict as reports do.
pub fn put_verdict(alloc: Global, out: &mut Output, verdict: Verdict)
    ensures { Writes out.old out.new (verdict_text verdict) }
{
    let mut text = String::new(alloc);
    match ar_facts::put_verdict(&mut text, verdict) {
        Ok(()) => out.put(text.as_str()),
        Err(_) => out.lose(),
    }
}

fn put_both_bounds(out: &mut Output, judge: &Judge) {
    out.put("success");
    put_bounds(out, judge.success());
    out.put(" / failure");
    put_bounds(out, judge.failure());
}

fn put_bounds(out: &mut Output, verified: Option<&Verified>) {
    match verified {
        Some(verified) => put_bounds_of(out, verified),
        None => out.put(" none"),
    }
}

/// The bounds of verified code.
pub(crate) fn put_bounds_of(out: &mut Output, verified: &Verified) {
    write!(
        out,
        " depth={} budget={}",
        verified.depth(),
        verified.budget()
    );
}
