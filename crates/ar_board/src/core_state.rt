//! The core of a board in memory.

ghost use Rattle.std.specs.Prelude.{◌≡◌, ◌<◌, ◌↔◌, true, false, [], IfOk, None, Some, length, replicate, slice_get};
ghost use Rattle.ar_bundle.specs.Sound.{IsBundle};
ghost use Rattle.ar_board.specs.Core.{HasAll, IsStateOf, core_after, held, core_stepped};
ghost use Rattle.ar_bundle.specs.Lawful.{AllRise};
ghost use Rattle.ar_board.specs.Private.Inside.{AreJudged, AreOpened};
ghost use Rattle.ar_board.specs.Private.Posts.{HasRoom, IsAppended, stepped_by};
ghost use Rattle.ar_board.specs.declared.core_steps.CoreStep.TheVariants.{Put, Take, Post};
ghost use Rattle.ar_board.specs.declared.core_steps.Moved.TheVariants.{Idle};

use crate::RunHistory;
use crate::core_state::own_numbers::own_numbers_if;
use crate::core_steps::{CoreStep, Moved};
use ar_bundle::{Bundle, Entry, Finding};
use ar_limits::RunState;
use std::alloc::{AllocError, Global};
use std::collections::VecDeque;
use std::marker::Model;

mod ordered;
pub(crate) mod own_numbers;

/// The core of a board of a bundle. Contracts see it as the `Core` of `specs/Core`.
#[derive(Drop)]
pub struct CoreState<'b> {
    bundle: &'b Bundle,
    /// Of each number.
    findings: Vec<Finding>,
    places: usize,
    next: u64,
    /// With room for `places` numbers, or for all of the bundle's where these are fewer.
    queue: VecDeque<u64>,
    hands: Vec<Option<u64>>,
    ordered: bool,
    /// Of each number, whether it is parked.
    parked: Vec<bool>,
    /// The numbers of each run, in rising order; no lists where the core isn't ordered.
    own: Vec<Vec<u64>>,
    runs: Vec<RunHistory>,
}

impl<'b> Model for CoreState<'b> {
    ghost use Rattle.std.specs.Coded.{codes};
    ghost use Rattle.ar_value.specs.contracts.shape.Shape as shape_row;
    ghost use Rattle.ar_value.specs.contracts.value.Value as value_row;
    ghost use Rattle.ar_board.specs.Core.{Core};

    ghost Value = { Core };

    ghost coded = { Prim.hlevel (codes, shape_row.the_row.coded, value_row.the_row.coded) };

    ghost use Rattle.ar_board.specs.Private.Inside.{IsCore, core_of};

    ghost view = { core_of };

    ghost invariant = { IsCore };
}

/// The finding of each number.
#[tactic(auto, using(crate::proofs::CoreOpening::found_next))]
fn findings_of(alloc: Global, bundle: &Bundle) -> Result<Vec<Finding>, AllocError>
    ensures { IfOk result (λ findings. AreJudged bundle.now findings.items) }
{
    let events = bundle.events();
    let mut findings = Vec::with_capacity(alloc, events as usize)?;
    for number in 0..events {
        findings.push(bundle.finding(alloc, number)?)?;
    }
    Ok(findings)
}

/// The runs, to which nothing has happened.
#[tactic(auto, using(crate::proofs::CoreOpening::all_opened))]
fn opened(alloc: Global, bundle: &Bundle) -> Result<Vec<RunHistory>, AllocError>
    ensures opened { IfOk result (λ runs. AreOpened bundle.now bundle.now.runs runs.items) }
    ensures bundle { IfOk result (λ _. IsBundle bundle.now) }
{
    let sizes = bundle.sizes(alloc)?;
    let parts = bundle.runs();
    let mut runs = Vec::with_capacity(alloc, parts.len())?;
    for part in parts {
        let size = sizes[runs.len()];
        runs.push(RunHistory::open(alloc, part.limits.as_slice(), size)?)?;
    }
    Ok(runs)
}

/// The hands of `workers` workers, all empty.
fn empty_hands(alloc: Global, workers: usize) -> Result<Vec<Option<u64>>, AllocError>
    ensures { IfOk result (λ hands. hands.items ≡ replicate workers None) }
{
    vec![in alloc; None; workers]
}

impl<'b> CoreState<'b> {
    /// The core to which nothing has happened, of `workers` workers and with `places` slots in its
    /// queue. Every number is judged here, and all room made: no step takes memory.
    ///
    /// # Errors
    ///
    /// Out of memory alone.
    pub fn new(
        alloc: Global,
        bundle: &'b Bundle,
        workers: usize,
        places: usize,
    ) -> Result<CoreState<'b>, AllocError>
        ensures exact { IfOk result (λ core. core ≡ core_after bundle.now workers places false []) }
        // What is true of each bundle, for callers.
        ensures bundle { IfOk result (λ _. IsBundle bundle.now) }
    {
        CoreState::open(alloc, bundle, workers, places, false)
    }

    /// The same of an ordered core, in which the numbers rise in each history: a posted number is parked
    /// until its run's history has all lower numbers of the run.
    ///
    /// # Errors
    ///
    /// Out of memory alone.
    pub fn new_ordered(
        alloc: Global,
        bundle: &'b Bundle,
        workers: usize,
        places: usize,
    ) -> Result<CoreState<'b>, AllocError>
        ensures exact { IfOk result (λ core. core ≡ core_after bundle.now workers places true []) }
        // What is true of each bundle, for callers.
        ensures bundle { IfOk result (λ _. IsBundle bundle.now) }
    {
        CoreState::open(alloc, bundle, workers, places, true)
    }

    /// The core to which nothing has happened, ordered or not.
    fn open(
        alloc: Global,
        bundle: &'b Bundle,
        workers: usize,
        places: usize,
        ordered: bool,
    ) -> Result<CoreState<'b>, AllocError>
        ensures exact { IfOk result (λ core. core ≡ core_after bundle.now workers places ordered []) }
        ensures bundle { IfOk result (λ _. IsBundle bundle.now) }
    {
        Ok(CoreState {
            bundle,
            findings: findings_of(alloc, bundle)?,
            places,
            next: 0,
            queue: VecDeque::with_capacity(alloc, places.min(bundle.entries().len()))?,
            hands: empty_hands(alloc, workers)?,
            ordered,
            parked: vec![in alloc; false; bundle.entries().len()]?,
            own: own_numbers_if(alloc, bundle, ordered)?,
            runs: opened(alloc, bundle)?,
        })
    }

    /// The next number to put.
    pub fn next(&self) -> u64
        ensures { result ≡ self.now.state.next }
    {
        self.next
    }

    /// The queue, its first number in front.
    pub fn queue(&self) -> &VecDeque<u64>
        ensures { result.now.items ≡ self.now.state.queue }
    {
        &self.queue
    }

    /// What each worker holds.
    pub fn hands(&self) -> &[Option<u64>]
        ensures { result.now ≡ self.now.state.hands }
    {
        &self.hands
    }

    /// Of each number, whether it is parked. In a core that isn't ordered none is.
    pub fn parked(&self) -> &[bool]
        ensures { result.now ≡ self.now.state.parked }
    {
        &self.parked
    }

    /// The history of a run.
    pub fn history(&self, run: usize) -> &[Entry]
        requires { run < length self.now.bundle.runs }
        ensures { slice_get self.now.state.histories run ≡ Some result.now }
    {
        &self.runs[run].entries
    }

    /// The state of a run after its history: its phases and counts are those of the events that its
    /// history's numbers are.
    pub fn run_state(&self, run: usize) -> &RunState
        requires { run < length self.now.bundle.runs }
        ensures { IsStateOf self.now run result.now }
    {
        &self.runs[run].state
    }

    /// The next number moves to the queue's end, if there is a free slot.
    fn put(&mut self) -> Moved
        ensures after { self.new ≡ core_stepped self.old Put }
        ensures idle { (result ≡ Idle) ↔ (self.new.state ≡ self.old.state) }
    {
        if self.next >= self.bundle.events() || self.queue.len() >= self.places {
            return Moved::Idle;
        }
        self.queue.push_back_reserved(self.next);
        self.next += 1;
        Moved::Done
    }

    /// The queue's first number moves into the worker's empty hand.
    fn take(&mut self, worker: usize) -> Moved
        ensures after { self.new ≡ core_stepped self.old (Take worker) }
        ensures idle { (result ≡ Idle) ↔ (self.new.state ≡ self.old.state) }
    {
        let Some(None) = self.hands.get(worker) else {
            return Moved::Idle;
        };
        let Some(number) = self.queue.pop_front() else {
            return Moved::Idle;
        };
        self.hands[worker] = Some(number);
        Moved::Done
    }

    /// What a worker holds. One that isn't there holds nothing.
    fn held(&self, worker: usize) -> Option<u64>
        ensures { result ≡ held self.now.state worker }
    {
        match self.hands.get(worker) {
            Some(hand) => *hand,
            None => None,
        }
    }

    /// The number in the worker's hand moves to the end of its run's history.
    fn post_at_once(&mut self, worker: usize) -> Moved
        requires { self.old.ordered ≡ false }
        ensures after { self.new ≡ core_stepped self.old (Post worker) }
        ensures idle { (result ≡ Idle) ↔ (self.new.state ≡ self.old.state) }
    {
        let Some(number) = self.held(worker) else {
            return Moved::Idle;
        };
        let run = self.bundle.run_of(number);
        append(self.bundle, &self.findings, &mut self.runs[run], number);
        self.hands[worker] = None;
        Moved::Done
    }

    /// The number in the worker's hand is posted, as the core is ordered or not.
    fn post(&mut self, worker: usize) -> Moved
        ensures after { self.new ≡ core_stepped self.old (Post worker) }
        ensures idle { (result ≡ Idle) ↔ (self.new.state ≡ self.old.state) }
    {
        if self.ordered {
            self.post_in_order(worker)
        } else {
            self.post_at_once(worker)
        }
    }
}

/// A number moves to the end of its run's history, with its finding and the effect that it has there.
fn append(bundle: &Bundle, findings: &[Finding], run: &mut RunHistory, number: u64)
    requires findings { AreJudged bundle.now findings.now }
    requires inside { number < length bundle.now.entries }
    requires room { HasRoom bundle.now run.old }
    ensures { IsAppended bundle.now number run.old run.new }
{
    let finding = findings[number as usize];
    let event = bundle.event(number, finding);
    run.append(number, finding, event);
}

/// Makes a step, in constant time but for what it moves to histories and for the events that close a
/// run. No memory is taken.
pub fn core_step(core: &mut CoreState<'_>, step: CoreStep) -> Moved
    ensures after { core.new ≡ core_stepped core.old step }
    // Nothing was done exactly where the state stays.
    ensures idle { (result ≡ Idle) ↔ (core.new.state ≡ core.old.state) }
{
    match step {
        CoreStep::Put => core.put(),
        CoreStep::Take(worker) => core.take(worker),
        CoreStep::Post(worker) => core.post(worker),
    }
}

/// Makes these steps, each where it can be made.
fn make_steps(core: &mut CoreState<'_>, steps: &[CoreStep])
    ensures { core.new ≡ stepped_by core.old steps.now }
{
    for step in steps {
        core_step(core, *step);
    }
}

/// The core of a bundle after these steps, each made where it can be.
///
/// # Errors
///
/// Out of memory alone.
pub fn core_run<'b>(
    alloc: Global,
    bundle: &'b Bundle,
    workers: usize,
    places: usize,
    steps: &[CoreStep],
) -> Result<CoreState<'b>, AllocError>
    ensures exact { IfOk result (λ core. core ≡ core_after bundle.now workers places false steps.now) }
    // Each number is just once in what is still to put, the queue, the hands and the histories, and
    // each run's history has its own numbers, each with its finding and its effect there.
    ensures all { IfOk result (λ core. HasAll bundle.now core.state) }
{
    let mut core = CoreState::new(alloc, bundle, workers, places)?;
    make_steps(&mut core, steps);
    Ok(core)
}

/// The ordered core of a bundle after these steps, each made where it can be. A number that is posted
/// before a lower one of its run is parked meanwhile.
///
/// # Errors
///
/// Out of memory alone.
pub fn core_run_ordered<'b>(
    alloc: Global,
    bundle: &'b Bundle,
    workers: usize,
    places: usize,
    steps: &[CoreStep],
) -> Result<CoreState<'b>, AllocError>
    ensures exact { IfOk result (λ core. core ≡ core_after bundle.now workers places true steps.now) }
    // Each number is there just once, the parked ones among them, and each run's history has its own
    // numbers, each with its finding and its effect there.
    ensures all { IfOk result (λ core. HasAll bundle.now core.state) }
    // In each history the numbers rise.
    ensures in_order { IfOk result (λ core. AllRise core.state.histories) }
{
    let mut core = CoreState::new_ordered(alloc, bundle, workers, places)?;
    make_steps(&mut core, steps);
    Ok(core)
}
