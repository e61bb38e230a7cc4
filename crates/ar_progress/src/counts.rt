//! The counts of a metric next to its limits.

ghost use Rattle.std.specs.Prelude.{◌≡◌, ◌++◌, OnOk, string_bytes};
ghost use Rattle.ar_limits.specs.Metric.{counted};
ghost use Rattle.ar_progress.specs.Counts.{measured_text, count_and_limit, change_text, changed_counts, limits_text, next_limit, order_text};

use crate::excess::LimitName;
use ar_limits::{Counts, Limits};
use std::alloc::AllocError;
use std::fmt::Write;

/// The measurements that count towards the `count`. Their sum may have more than 64 bits.
pub(crate) fn measured(counts: Counts) -> u128
    ensures { result ≡ counted counts }
{
    u128::from(counts.successful) + u128::from(counts.failed) + u128::from(counts.inconclusive)
}

fn push_change(out: &mut String, before: u128, after: u128) -> Result<(), AllocError>
    ensures { OnOk result (string_bytes out.new ≡ string_bytes out.old ++ change_text before after) }
{
    if before == after {
        return write!(out, "{after}");
    }
    write!(out, "{before} -> {after}")
}

fn order_of(count: u64, limit: u32) -> &'static str
    ensures { result.now ≡ order_text count limit }
{
    if count > u64::from(limit) {
        " > "
    } else {
        " <= "
    }
}

/// Appends the count that a limit bounds, before and after a measurement, next to the limit.
#[tactic(auto, unfolding(crate::specs::Counts::count_and_limit))]
fn push_count_and_limit(
    out: &mut String,
    name: LimitName,
    limits: Limits,
    before: Counts,
    after: Counts,
) -> Result<(), AllocError>
    ensures { OnOk result
        (string_bytes out.new ≡ string_bytes out.old ++ count_and_limit name limits before after) }
{
    let (was, is, limit) = (name.count(before), name.count(after), name.value(limits));
    out.push_str(name.count_name())?;
    out.push_str(" ")?;
    push_change(out, u128::from(was), u128::from(is))?;
    out.push_str(order_of(is, limit))?;
    write!(out, "{} {limit}", name.name())
}

#[tactic(auto, unfolding(crate::specs::Counts::measured_text))]
fn push_measured(
    out: &mut String,
    before: u128,
    after: u128,
    count: Option<u32>,
) -> Result<(), AllocError>
    ensures { OnOk result (string_bytes out.new ≡ string_bytes out.old ++ measured_text before after count) }
{
    out.push_str("measured ")?;
    push_change(out, before, after)?;
    match count {
        Some(count) => write!(out, " of count {count}"),
        None => out.push_str(", no count"),
    }
}

#[tactic(auto, unfolding(crate::specs::Counts::next_limit))]
fn push_next_limit(
    out: &mut String,
    name: LimitName,
    limits: Limits,
    before: Counts,
    after: Counts,
) -> Result<(), AllocError>
    ensures { OnOk result
        (string_bytes out.new ≡ string_bytes out.old ++ next_limit name limits before after) }
{
    out.push_str(", ")?;
    push_count_and_limit(out, name, limits, before, after)
}

fn push_limits(
    out: &mut String,
    limits: Limits,
    before: Counts,
    after: Counts,
) -> Result<(), AllocError>
    ensures { OnOk result (string_bytes out.new ≡ string_bytes out.old ++ limits_text limits before after) }
{
    push_count_and_limit(out, LimitName::Failure, limits, before, after)?;
    push_next_limit(out, LimitName::Inconclusive, limits, before, after)?;
    push_next_limit(out, LimitName::ConsecutiveError, limits, before, after)
}

/// Appends the counts of a metric before and after a measurement, each next to its limit.
///
/// # Errors
///
/// Out of memory alone.
#[tactic(auto, unfolding(crate::specs::Counts::changed_counts))]
pub fn push_counts(
    out: &mut String,
    limits: Limits,
    before: Counts,
    after: Counts,
) -> Result<(), AllocError>
    ensures { OnOk result (string_bytes out.new ≡ string_bytes out.old ++ changed_counts limits before after) }
{
    push_limits(out, limits, before, after)?;
    out.push_str(", ")?;
    push_measured(out, measured(before), measured(after), limits.count)
}
