//! That the close of a run settled a metric.

ghost use Rattle.std.specs.Prelude.{◌≡◌, ◌++◌, OnOk, is_some, string_bytes};
ghost use Rattle.ar_limits.specs.Metric.{decided_by};
ghost use Rattle.ar_progress.specs.Settled.{settled_by, settled_text};

use crate::counts::measured;
use crate::waiting::{Progress, push_progress};
use ar_limits::{Counts, Limits};
use std::alloc::AllocError;
use std::fmt::Write;

/// That a metric is Successful because its run closed, not by its own measurements.
#[derive(Clone, Copy)]
pub struct Settled {
    /// The event that closed the run.
    pub closer: u64,
    /// The measurements that count, all but errors. The sum may have more than 64 bits.
    pub measured: u128,
    pub count: Option<u32>,
}

/// Whether the counts of a metric exceed a limit or reach the `count`.
fn is_decided(limits: Limits, counts: Counts) -> bool
    ensures { result ≡ is_some (decided_by limits counts) }
{
    if counts.failed > u64::from(limits.failure)
        || counts.inconclusive > u64::from(limits.inconclusive)
        || counts.succession > u64::from(limits.consecutive_error)
    {
        return true;
    }
    match limits.count {
        Some(count) => measured(counts) >= u128::from(count),
        None => false,
    }
}

/// That the close of its run settled a metric with these counts in the end, if it did.
pub fn settled_by(closer: Option<u64>, limits: Limits, counts: Counts) -> Option<Settled>
    ensures { result ≡ settled_by closer limits counts }
{
    let closer = closer?;
    if is_decided(limits, counts) {
        return None;
    }
    Some(Settled {
        closer,
        measured: measured(counts),
        count: limits.count,
    })
}

/// Appends that the close of its run settled a metric.
///
/// # Errors
///
/// Out of memory alone.
#[tactic(auto, unfolding(crate::specs::Settled::settled_text))]
pub fn push_settled(out: &mut String, settled: Settled) -> Result<(), AllocError>
    ensures { OnOk result (string_bytes out.new ≡ string_bytes out.old ++ settled_text settled) }
{
    let Settled {
        closer,
        measured,
        count,
    } = settled;
    write!(out, "Successful, since the run closed at event {closer}; ")?;
    push_progress(out, Progress { measured, count })
}
