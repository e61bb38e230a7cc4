//! The limits of a metric by their names, and counts that exceed them.

ghost use Rattle.std.specs.Prelude.{◌≡◌, ◌++◌, OnOk, string_bytes};
ghost use Rattle.ar_progress.specs.Excess.{count_name, bounded_count, excess_of, excess_text, limit_name, limit_of, limit_exceeded};

use ar_limits::{Counts, Limits, Phase};
use std::alloc::AllocError;
use std::fmt::Write;

/// A limit of a metric, which bounds one of its counts.
#[derive(Clone, Copy)]
pub enum LimitName {
    /// Of the measurements that failed.
    Failure,
    /// Of the inconclusive measurements.
    Inconclusive,
    /// Of the errors one after another.
    ConsecutiveError,
}

impl LimitName {
    /// The limit's name in a template.
    pub fn name(self) -> &'static str
        ensures { result.now ≡ limit_name self }
    {
        match self {
            LimitName::Failure => "failureLimit",
            LimitName::Inconclusive => "inconclusiveLimit",
            LimitName::ConsecutiveError => "consecutiveErrorLimit",
        }
    }

    /// The name of the count that it bounds.
    pub fn count_name(self) -> &'static str
        ensures { result.now ≡ count_name self }
    {
        match self {
            LimitName::Failure => "failed",
            LimitName::Inconclusive => "inconclusive",
            LimitName::ConsecutiveError => "consecutiveError",
        }
    }

    /// How much the limit allows.
    pub fn value(self, limits: Limits) -> u32
        ensures { result ≡ limit_of self limits }
    {
        match self {
            LimitName::Failure => limits.failure,
            LimitName::Inconclusive => limits.inconclusive,
            LimitName::ConsecutiveError => limits.consecutive_error,
        }
    }

    /// The count that it bounds.
    pub fn count(self, counts: Counts) -> u64
        ensures { result ≡ bounded_count self counts }
    {
        match self {
            LimitName::Failure => counts.failed,
            LimitName::Inconclusive => counts.inconclusive,
            LimitName::ConsecutiveError => counts.succession,
        }
    }
}

/// A count that exceeds its limit.
#[derive(Clone, Copy)]
pub struct Excess {
    pub limit: LimitName,
    /// How much the limit allows.
    pub value: u32,
    /// The count, which is greater.
    pub count: u64,
}

/// The limit that a metric with a phase has exceeded.
fn limit_exceeded(phase: Phase) -> Option<LimitName>
    ensures { result ≡ limit_exceeded phase }
{
    match phase {
        Phase::Failed => Some(LimitName::Failure),
        Phase::Inconclusive => Some(LimitName::Inconclusive),
        Phase::Error => Some(LimitName::ConsecutiveError),
        Phase::Pending | Phase::Running | Phase::Successful => None,
    }
}

/// The count by which a metric with these counts has a phase, next to its limit.
pub(crate) fn excess_of(phase: Phase, limits: Limits, counts: Counts) -> Option<Excess>
    ensures { result ≡ excess_of phase limits counts }
{
    let limit = limit_exceeded(phase)?;
    Some(Excess {
        limit,
        value: limit.value(limits),
        count: limit.count(counts),
    })
}

/// Appends a count that exceeds its limit, next to that.
#[tactic(auto, unfolding(crate::specs::Excess::excess_text))]
pub(crate) fn push_excess(out: &mut String, excess: Excess) -> Result<(), AllocError>
    ensures { OnOk result (string_bytes out.new ≡ string_bytes out.old ++ excess_text excess) }
{
    let (count, limit) = (excess.limit.count_name(), excess.limit.name());
    write!(out, "{count} {} > {limit} {}", excess.count, excess.value)
}
