//! Posts of an ordered core.

ghost use Rattle.std.specs.Prelude.{◌≡◌, ◌<◌, ◌↔◌, true, false, length};
ghost use Rattle.ar_board.specs.Core.{core_stepped};
ghost use Rattle.ar_board.specs.Private.Posts.{IsTurn, next_own, settled_core};
ghost use Rattle.ar_board.specs.declared.core_steps.CoreStep.TheVariants.{Post};
ghost use Rattle.ar_board.specs.declared.core_steps.Moved.TheVariants.{Idle};

use crate::core_state::{CoreState, append};
use crate::core_steps::Moved;

impl<'b> CoreState<'b> {
    /// The number in the worker's hand is parked, and what is parked of its run moves to the run's
    /// history as far as it can.
    pub(super) fn post_in_order(&mut self, worker: usize) -> Moved
        requires { self.old.ordered ≡ true }
        ensures after { self.new ≡ core_stepped self.old (Post worker) }
        ensures idle { (result ≡ Idle) ↔ (self.new.state ≡ self.old.state) }
    {
        let Some(number) = self.held(worker) else {
            return Moved::Idle;
        };
        let run = self.bundle.run_of(number);
        self.hands[worker] = None;
        self.parked[number as usize] = true;
        self.settle(run);
        Moved::Done
    }

    /// As long as the least number that the run's history lacks is parked, it moves to the history's
    /// end.
    fn settle(&mut self, run: usize)
        requires ordered { self.old.ordered ≡ true }
        requires there { run < length self.old.bundle.runs }
        ensures { self.new ≡ settled_core self.old run }
    {
        'turns: while self.move_next(run) {}
    }

    /// The least number that the run's history lacks moves to the history's end, if it is parked.
    fn move_next(&mut self, run: usize) -> bool
        requires ordered { self.old.ordered ≡ true }
        requires there { run < length self.old.bundle.runs }
        ensures moves { result ≡ true → IsTurn run self.old self.new }
        ensures stays { result ≡ false → (self.new ≡ self.old) × (settled_core self.old run ≡ self.old) }
    {
        let Some(number) = self.least_lacking(run) else {
            return false;
        };
        if !self.parked[number as usize] {
            return false;
        }
        append(self.bundle, &self.findings, &mut self.runs[run], number);
        self.parked[number as usize] = false;
        true
    }

    /// The least number that the run's history lacks. As the history has the run's first numbers, it is
    /// the next of these.
    fn least_lacking(&self, run: usize) -> Option<u64>
        requires ordered { self.now.ordered ≡ true }
        requires there { run < length self.now.bundle.runs }
        ensures { result ≡ next_own self.now run }
    {
        match self.own[run].get(self.runs[run].entries.len()) {
            Some(number) => Some(*number),
            None => None,
        }
    }
}
