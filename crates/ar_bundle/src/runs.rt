//! The runs of a bundle, to which its numbers are applied in their order.

ghost use Rattle.std.specs.Prelude.{◌≡◌, ◌<◌, ◌+◌, IfOk, OnOk, Some, length};
ghost use Rattle.ar_bundle.specs.Sound.{IsBundle};
ghost use Rattle.ar_bundle.specs.Bundle.{finding_at};
ghost use Rattle.ar_bundle.specs.Growing.{AreGrown};

use crate::{Bundle, Entry, Finding, Finished, Histories, History};
use ar_limits::RunState;
use std::alloc::{AllocError, Global};

/// The runs of a bundle, as their numbers are applied: the state of each, and its history.
#[derive(Drop)]
pub struct Runs {
    pub states: Vec<RunState>,
    pub histories: Vec<History>,
}

impl Runs {
    /// The bundle's runs before any event: each with its metrics' limits and an empty history.
    #[tactic(auto, using(crate::proofs::Grown::positive))]
    pub fn open(alloc: Global, bundle: &Bundle) -> Result<Runs, AllocError>
        requires { IsBundle bundle.now }
        ensures { IfOk result (λ runs. AreGrown bundle.now 0 0 bundle.now.runs runs.states.items runs.histories.items) }
    {
        let parts = bundle.runs();
        let mut states = Vec::with_capacity(alloc, parts.len())?;
        let mut histories = Vec::with_capacity(alloc, parts.len())?;
        for part in parts {
            states.push(RunState::new(alloc, part.limits.as_slice())?)?;
            histories.push(History::new(alloc))?;
        }
        Ok(Runs { states, histories })
    }

    /// Applies the next number to its run.
    pub fn apply(
        &mut self,
        bundle: &Bundle,
        number: u64,
        finding: Finding,
    ) -> Result<(), AllocError>
        requires bundle { IsBundle bundle.now }
        requires there { number < length bundle.now.entries }
        requires finding { finding_at bundle.now number ≡ Some finding }
        requires grown { AreGrown bundle.now number 0 bundle.now.runs self.old.states.items self.old.histories.items }
        ensures { OnOk result
            (AreGrown bundle.now (number + 1) 0 bundle.now.runs self.new.states.items self.new.histories.items) }
    {
        let event = bundle.event(number, finding);
        let run = bundle.run_of(number);
        let effect = self.states[run].apply(event);
        self.histories[run].push(Entry {
            number,
            finding,
            effect,
        })?;
        Ok(())
    }

    /// The runs as they are now, as finished ones.
    pub fn finish(self) -> Finished
        ensures histories { result.histories ≡ self.histories.items }
        ensures states { result.states.items ≡ self.states.items }
    {
        Finished {
            histories: Histories::from(self.histories),
            states: self.states,
        }
    }
}
