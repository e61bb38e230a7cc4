//! Bundles and their parts.

ghost use Rattle.std.specs.Prelude.{◌≡◌, ◌<◌, IfOk, IsOk, Some, length};
ghost use Rattle.ar_limits.specs.Replay.{IsOfMetricBelow};
ghost use Rattle.ar_bundle.specs.Sound.{FoundWithoutMemory, IsBundle, NeedsNoMemory, SuitsMetric, sizes_of};
ghost use Rattle.ar_bundle.specs.Bundle.{bundle_of, finding_at, found_of, happened, run_at};
ghost use Rattle.ar_bundle.specs.declared.bundle.What.TheVariants as What;
ghost use Rattle.ar_judge.specs.Verdict.{sample_view};

use crate::finding::{Finding, mark_of};
use ar_judge::{Judge, Sample};
use ar_limits::{Event, Limits};
use ar_value::shared_shape::SharedShape;
use ar_value::text::Text;
use std::alloc::{AllocError, Global};
use std::marker::Model;

/// A metric of the template.
#[derive(Drop)]
pub struct MetricPart {
    pub name: Text,
    /// Of its measured values.
    pub shape: SharedShape,
}

/// The judges of a run, one for each metric. Contracts see their list.
#[derive(Drop)]
pub struct Judges {
    judges: Vec<Judge>,
}

/// The limits of a run, one for each metric. Contracts see their list.
#[derive(Drop)]
pub struct RunLimits {
    limits: Vec<Limits>,
}

/// An analysis run.
#[derive(Drop)]
pub struct RunPart {
    pub name: Text,
    pub judges: Judges,
    pub limits: RunLimits,
}

/// What happens to a run.
#[derive(Drop)]
pub enum What {
    /// A measurement of the metric with this number, counted from 0.
    Measure(usize, Sample),
    /// The run is stopped from outside.
    Stop,
}

/// An entry of a bundle: what happened to the run with this number, counted from 0.
#[derive(Drop)]
pub struct EventPart {
    pub run: usize,
    pub what: What,
}

/// The metrics of a template, its runs, and what happened to them. Contracts see it as the `Bundle`
/// of `specs/Bundle`.
#[derive(Drop)]
pub struct Bundle {
    metrics: Vec<MetricPart>,
    runs: Vec<RunPart>,
    entries: Vec<EventPart>,
}

impl Model for Judges {
    ghost use Rattle.std.specs.Coded.{codes};
    ghost use Rattle.std.specs.Prelude.{List};
    ghost use Rattle.ar_value.specs.contracts.shape.Shape as shape_row;
    ghost use Rattle.ar_judge.specs.Verdict.{Judge};

    ghost Value = { List Judge };

    ghost coded = { Prim.hlevel (codes, shape_row.the_row.coded) };

    ghost view = { λ judges. judges.judges.items };
}

impl Judges {
    pub fn as_slice(&self) -> &[Judge]
        ensures { result.now ≡ self.now }
    {
        &self.judges
    }

    /// The judges as a `Vec`, without taking memory.
    pub fn into_vec(self) -> Vec<Judge>
        ensures { result.items ≡ self }
    {
        self.judges
    }
}

impl From<Vec<Judge>> for Judges {
    ghost from_gives = { λ list judges. judges ≡ list.items };

    fn from(judges: Vec<Judge>) -> Judges {
        Judges { judges }
    }
}

impl Model for RunLimits {
    ghost use Rattle.std.specs.Prelude.{List};
    ghost use Rattle.ar_limits.specs.declared.limits.Limits.{Limits};

    ghost Value = { List Limits };

    ghost view = { λ limits. limits.limits.items };
}

impl RunLimits {
    pub fn as_slice(&self) -> &[Limits]
        ensures { result.now ≡ self.now }
    {
        &self.limits
    }

    /// The limits as a `Vec`, without taking memory.
    pub fn into_vec(self) -> Vec<Limits>
        ensures { result.items ≡ self }
    {
        self.limits
    }
}

impl From<Vec<Limits>> for RunLimits {
    ghost from_gives = { λ list limits. limits ≡ list.items };

    fn from(limits: Vec<Limits>) -> RunLimits {
        RunLimits { limits }
    }
}

impl Model for Bundle {
    ghost use Rattle.std.specs.Coded.{codes};
    ghost use Rattle.ar_value.specs.contracts.shape.Shape as shape_row;
    ghost use Rattle.ar_value.specs.contracts.value.Value as value_row;
    ghost use Rattle.ar_bundle.specs.Bundle.{Bundle as Parts, bundle_of};
    ghost use Rattle.ar_bundle.specs.Sound.{IsBundle};

    ghost Value = { Parts };

    ghost coded = { Prim.hlevel (codes, shape_row.the_row.coded, value_row.the_row.coded) };

    ghost view = { λ b. bundle_of b.metrics.items b.runs.items b.entries.items };

    ghost invariant = { λ b. IsBundle (bundle_of b.metrics.items b.runs.items b.entries.items) };
}

impl Bundle {
    /// The bundle of these parts: 64 metrics, 64 runs and 100,000 entries at most; each run with a
    /// judge of each metric's shape, and limits for it whose `count`, if there is one, is 1 or more;
    /// each entry of a run and a metric that are there, with a value of the metric's shape or a misfit
    /// that isn't out of memory. No memory is taken.
    pub fn of_parts(metrics: Vec<MetricPart>, runs: Vec<RunPart>, entries: Vec<EventPart>) -> Bundle
        requires { IsBundle (bundle_of metrics.items runs.items entries.items) }
        ensures { result ≡ bundle_of metrics.items runs.items entries.items }
    {
        Bundle {
            metrics,
            runs,
            entries,
        }
    }

    /// The metrics of its template, in their order.
    pub fn metrics(&self) -> &[MetricPart]
        ensures { result.now ≡ self.now.metrics }
    {
        &self.metrics
    }

    /// Its runs, in their order; and that it is a bundle, which a caller may need to know.
    pub fn runs(&self) -> &[RunPart]
        ensures runs { result.now ≡ self.now.runs }
        ensures bundle { IsBundle self.now }
    {
        &self.runs
    }

    /// Its measurements and stops, each at its number.
    pub fn entries(&self) -> &[EventPart]
        ensures { result.now ≡ self.now.entries }
    {
        &self.entries
    }

    /// How many entries each run has, in one pass over them.
    ///
    /// # Errors
    ///
    /// Out of memory alone.
    #[tactic(auto, using(crate::proofs::Sizes::all_counted, crate::proofs::Sizes::none_counted))]
    pub fn sizes(&self, alloc: Global) -> Result<Vec<usize>, AllocError>
        ensures exact { IfOk result (λ sizes. sizes.items ≡ sizes_of self.now) }
    {
        let mut sizes = vec![in alloc; 0; self.runs.len()]?;
        for entry in self.entries.as_slice() {
            sizes[entry.run] += 1;
        }
        Ok(sizes)
    }

    /// How many entries there are.
    pub fn events(&self) -> u64
        ensures count { result ≡ length self.now.entries }
        ensures bundle { IsBundle self.now }
    {
        self.entries.len() as u64
    }

    /// The result of an entry: the verdict of its sample by its run's judge for its metric, or a
    /// stop.
    ///
    /// # Errors
    ///
    /// Out of memory alone, which runs of conditions with a `filter` take.
    #[tactic(auto, using(crate::proofs::Bundles::entry_there, crate::proofs::Bundles::measure_suits, crate::proofs::Bundles::run_there))]
    pub fn finding(&self, alloc: Global, number: u64) -> Result<Finding, AllocError>
        requires { number < length self.now.entries }
        ensures exact { IfOk result (λ finding. finding_at self.now number ≡ Some finding) }
        // Where no condition with a `filter` is run, out of memory is never returned.
        ensures without_memory { FoundWithoutMemory self.now number → IsOk result }
    {
        let entry = &self.entries[number as usize];
        match &entry.what {
            What::Measure(metric, sample) => self.judged(alloc, entry.run, *metric, sample),
            What::Stop => Ok(Finding::Stop),
        }
    }

    /// The verdict of a sample by a run's judge for a metric.
    #[tactic(auto, using(crate::proofs::Bundles::judge_inside))]
    fn judged(
        &self,
        alloc: Global,
        run: usize,
        metric: usize,
        sample: &Sample,
    ) -> Result<Finding, AllocError>
        requires run { run < length self.now.runs }
        requires suits { SuitsMetric self.now.metrics metric (sample_view sample.now) }
        ensures exact { IfOk result (λ finding. found_of self.now run (What.Measure metric sample.now) ≡ Some finding) }
        ensures without_memory { NeedsNoMemory self.now run (What.Measure metric sample.now) → IsOk result }
    {
        let judges = self.runs[run].judges.as_slice();
        Ok(Finding::Judged(judges[metric].judge(alloc, sample)?))
    }

    /// The run of an entry.
    pub fn run_of(&self, number: u64) -> usize
        requires { number < length self.now.entries }
        ensures own { run_at self.now number ≡ Some result }
        ensures there { result < length self.now.runs }
    {
        self.entries[number as usize].run
    }

    /// What an entry with its finding is to its run.
    pub fn event(&self, number: u64, finding: Finding) -> Event
        requires { finding_at self.now number ≡ Some finding }
        ensures exact { happened self.now number ≡ Some result }
        ensures metric { IsOfMetricBelow (length self.now.metrics) result }
    {
        match (&self.entries[number as usize].what, finding) {
            (What::Measure(metric, _), Finding::Judged(verdict)) => {
                Event::Mark(*metric, mark_of(verdict))
            }
            (What::Measure(..), Finding::Stop) | (What::Stop, _) => Event::Stop,
        }
    }
}
