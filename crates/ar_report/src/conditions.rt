//! What is known of conditions before any run.

ghost use Rattle.std.specs.Prelude.{◌≡◌, ◌++◌, IfOk, OnOk, length, option_map, string_bytes};
ghost use Rattle.ar_bundle.specs.Sound.{IsRun};
ghost use Rattle.ar_report.specs.Check.{bounds_line, check_text, condition_name, list_text, listed_text};
ghost use Rattle.ar_facts.specs.Facts.{check_facts, condition_facts, facts_if_there, facts_of_judges, judge_facts};
ghost use Rattle.ar_report.specs.Private.Shown.{condition_seen, conditions_seen};

use ar_bundle::{Bundle, MetricPart, RunPart};
use ar_code::listing;
use ar_facts::put_counted;
use ar_judge::Judge;
use ar_safety::Verified;
use std::alloc::{AllocError, Global};

/// A condition of a bundle, with the names of its run and metric, and which of the metric's two it is.
#[derive(Clone, Copy)]
pub(crate) struct NamedCondition<'b> {
    pub run: &'b str,
    pub metric: &'b str,
    pub which: &'static str,
    pub verified: &'b Verified,
}

// ---- gathering

/// One more condition, if it is there.
fn push_condition<'b>(
    out: &mut Vec<NamedCondition<'b>>,
    run: &'b str,
    metric: &'b str,
    which: &'static str,
    verified: Option<&'b Verified>,
) -> Result<(), AllocError>
    ensures { OnOk result (conditions_seen out.new.items ≡ conditions_seen out.old.items
        ++ facts_if_there run.entry.now metric.entry.now which.entry.now
        (option_map (λ verified. verified.now) verified.entry)) }
{
    let Some(verified) = verified else {
        return Ok(());
    };
    out.push(NamedCondition {
        run,
        metric,
        which,
        verified,
    })?;
    Ok(())
}

/// The conditions of a metric of a run.
fn push_judge<'b>(
    out: &mut Vec<NamedCondition<'b>>,
    run: &'b str,
    metric: &'b str,
    judge: &'b Judge,
) -> Result<(), AllocError>
    ensures { OnOk result (conditions_seen out.new.items ≡ conditions_seen out.old.items
        ++ judge_facts run.entry.now metric.entry.now judge.entry.now) }
{
    push_condition(out, run, metric, "success", judge.success())?;
    push_condition(out, run, metric, "failure", judge.failure())
}

/// The conditions of a run.
#[tactic(auto, using(crate::proofs::Shown::judge_inside, crate::proofs::Shown::next_judge, crate::proofs::Shown::no_judge))]
fn push_judges<'b>(
    out: &mut Vec<NamedCondition<'b>>,
    metrics: &'b [MetricPart],
    run: &'b RunPart,
) -> Result<(), AllocError>
    requires { IsRun metrics.now run.now }
    ensures { OnOk result (conditions_seen out.new.items ≡ conditions_seen out.old.items
        ++ facts_of_judges run.entry.now.name metrics.entry.now run.entry.now.judges) }
{
    let judges = run.judges.as_slice();
    for (number, metric) in metrics.iter().enumerate() {
        push_judge(
            out,
            run.name.as_str(),
            metric.name.as_str(),
            &judges[number],
        )?;
    }
    Ok(())
}

/// The conditions of a bundle: run by run, metric by metric, success before failure.
#[tactic(auto, using(crate::proofs::Shown::next_of_runs, crate::proofs::Shown::no_run_left, ar_facts::proofs::Runs::run_is_run))]
pub(crate) fn conditions(
    alloc: Global,
    bundle: &Bundle,
) -> Result<Vec<NamedCondition<'_>>, AllocError>
    ensures { IfOk result (λ found. conditions_seen found.items ≡ check_facts bundle.now) }
{
    let mut found = Vec::new(alloc);
    for run in bundle.runs() {
        push_judges(&mut found, bundle.metrics(), run)?;
    }
    Ok(found)
}

// ---- printing

#[tactic(auto, unfolding(crate::specs::Check::condition_name))]
fn put_name(out: &mut String, condition: NamedCondition<'_>) -> Result<(), AllocError>
    ensures { OnOk result (string_bytes out.new ≡ string_bytes out.old
        ++ condition_name condition.entry.run.now condition.entry.metric.now condition.entry.which.now) }
{
    out.push_str("run ")?;
    out.push_str(condition.run)?;
    out.push_str(" metric ")?;
    out.push_str(condition.metric)?;
    out.push_str(" ")?;
    out.push_str(condition.which)
}

#[tactic(auto, unfolding(crate::specs::Check::bounds_line))]
fn put_bounds(out: &mut String, condition: NamedCondition<'_>) -> Result<(), AllocError>
    ensures { OnOk result
        (string_bytes out.new ≡ string_bytes out.old ++ bounds_line (condition_seen condition.entry)) }
{
    put_name(out, condition)?;
    put_counted(
        out,
        "operations",
        condition.verified.code().ops().len() as u64,
    )?;
    put_counted(out, "depth", condition.verified.depth() as u64)?;
    put_counted(out, "budget", condition.verified.budget())?;
    out.push_str("\n")
}

#[tactic(auto, unfolding(crate::specs::Check::listed_text))]
fn put_listing(
    alloc: Global,
    out: &mut String,
    condition: NamedCondition<'_>,
) -> Result<(), AllocError>
    ensures { OnOk result
        (string_bytes out.new ≡ string_bytes out.old ++ listed_text (condition_seen condition.entry)) }
{
    let lines = listing(alloc, condition.verified.code())?;
    put_name(out, condition)?;
    out.push_str("\n")?;
    out.push_str(lines.as_str())
}

/// A line for each condition of a bundle: its run and metric, which of the two it is, how many
/// operations its code has, and how many operands a run may have and what it may cost at most.
///
/// # Errors
///
/// Out of memory alone.
#[tactic(auto, using(crate::proofs::Shown::next_line, crate::proofs::Shown::no_line))]
pub fn check_text(alloc: Global, bundle: &Bundle) -> Result<String, AllocError>
    ensures { IfOk result (λ text. string_bytes text ≡ check_text (check_facts bundle.now)) }
{
    let found = conditions(alloc, bundle)?;
    let mut out = String::new(alloc);
    for condition in &found {
        put_bounds(&mut out, *condition)?;
    }
    Ok(out)
}

/// The listing of each condition's code, after a line with its run and metric and which of the two
/// it is.
///
/// # Errors
///
/// Out of memory alone.
#[tactic(auto, using(crate::proofs::Shown::next_line, crate::proofs::Shown::no_line))]
pub fn list_text(alloc: Global, bundle: &Bundle) -> Result<String, AllocError>
    ensures { IfOk result (λ text. string_bytes text ≡ list_text (check_facts bundle.now)) }
{
    let found = conditions(alloc, bundle)?;
    let mut out = String::new(alloc);
    for condition in &found {
        put_listing(alloc, &mut out, *condition)?;
    }
    Ok(out)
}
