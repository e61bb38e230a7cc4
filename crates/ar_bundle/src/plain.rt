//! The plain run.

ghost use Rattle.std.specs.Prelude.{IfOk};
ghost use Rattle.ar_bundle.specs.Finished.{AreFinished};
ghost use Rattle.ar_bundle.specs.Lawful.{AllRise, AreLawful};

use crate::runs::Runs;
use crate::{Bundle, Finished, Histories};
use std::alloc::{AllocError, Global};

/// A bundle's runs, finished in one thread: its numbers in their order, each judged and applied to its run.
///
/// # Errors
///
/// Out of memory alone.
#[tactic(auto, using(crate::proofs::Lawful::all_rise))]
pub fn finish_plain(alloc: Global, bundle: &Bundle) -> Result<Finished, AllocError>
    ensures finished { IfOk result (AreFinished bundle.now) }
    // Numbers rise in each history.
    ensures in_order { IfOk result (λ finished. AllRise finished.histories) }
{
    let events = bundle.events();
    let mut runs = Runs::open(alloc, bundle)?;
    for number in 0..events {
        let finding = bundle.finding(alloc, number)?;
        runs.apply(bundle, number, finding)?;
    }
    Ok(runs.finish())
}

/// The histories of the runs that [`finish_plain`] gives.
///
/// # Errors
///
/// Out of memory alone.
pub fn run_plain(alloc: Global, bundle: &Bundle) -> Result<Histories, AllocError>
    ensures lawful { IfOk result (AreLawful bundle.now) }
    // Numbers rise in each history.
    ensures in_order { IfOk result AllRise }
{
    Ok(finish_plain(alloc, bundle)?.histories)
}
