//! What the core of a board does.

ghost use Rattle.std.specs.Prelude.{◌≡◌, IfOk};

use crate::lists::{Item, number_in, read_all};
use crate::parts::{Part, put_all};
use crate::phases::put_effect;
use ar_board::{CoreState, CoreStep, Moved, core_run, core_run_ordered, core_step};
use ar_bundle::{Bundle, Entry};
use cases_of_values::fault::{CaseFault, Written};
use cases_of_values::members;
use cases_of_values::output::Output;
use cases_of_values::printing::put_or_none;
use serde_json::Value as Json;
use std::alloc::{AllocError, Global};

/// How a core is made.
#[derive(Clone, Copy)]
struct Making {
    workers: usize,
    places: usize,
    ordered: bool,
}

/// The core to which nothing has happened.
fn opened<'b>(
    alloc: Global,
    bundle: &'b Bundle,
    making: Making,
) -> Result<CoreState<'b>, AllocError>
    ensures { IfOk result (λ core. core.bundle ≡ bundle.now) }
{
    let Making {
        workers,
        places,
        ordered,
    } = making;
    if ordered {
        CoreState::new_ordered(alloc, bundle, workers, places)
    } else {
        CoreState::new(alloc, bundle, workers, places)
    }
}

/// The core after some steps.
fn run<'b>(
    alloc: Global,
    bundle: &'b Bundle,
    making: Making,
    steps: &[CoreStep],
) -> Result<CoreState<'b>, AllocError>
    ensures { IfOk result (λ core. core.bundle ≡ bundle.now) }
{
    let Making {
        workers,
        places,
        ordered,
    } = making;
    if ordered {
        core_run_ordered(alloc, bundle, workers, places, steps)
    } else {
        core_run(alloc, bundle, workers, places, steps)
    }
}

/// What the steps of a case do to a core of a bundle.
pub(crate) fn put_core(alloc: Global, case: &Json, bundle: &Bundle, out: &mut Output) -> Written {
    let making = making_of(case).ok_or(CaseFault::Member)?;
    let steps = read_all(alloc, members::list(case, "steps")?)?;
    put_states(alloc, bundle, making, &steps, out)
}

/// What each step did, and the state after them; after it that of `core_run` or `core_run_ordered`, where
/// it is another.
fn put_states(
    alloc: Global,
    bundle: &Bundle,
    making: Making,
    steps: &[CoreStep],
    out: &mut Output,
) -> Written {
    let stepped = stepped(alloc, bundle, making, steps, out)?;
    let run = state_after(alloc, bundle, making, steps)?;
    out.put(stepped.as_str());
    if run.as_str() != stepped.as_str() {
        out.put(" / core_run");
        out.put(run.as_str());
    }
    Ok(())
}

fn making_of(case: &Json) -> Option<Making> {
    Some(Making {
        workers: number_in(case.get("workers"))?,
        places: number_in(case.get("places"))?,
        ordered: match case.get("ordered") {
            Some(ordered) => ordered.as_bool()?,
            None => false,
        },
    })
}

/// The text `put`, or a list of `take` or `post` and a worker.
fn step_of(item: &Json) -> Option<CoreStep> {
    match item.as_str() {
        Some("put") => Some(CoreStep::Put),
        Some(_) => None,
        None => worker_step(
            item.get(0usize).and_then(Json::as_str)?,
            number_in(item.get(1usize))?,
        ),
    }
}

fn worker_step(name: &str, worker: usize) -> Option<CoreStep> {
    match name {
        "take" => Some(CoreStep::Take(worker)),
        "post" => Some(CoreStep::Post(worker)),
        _ => None,
    }
}

impl Item for CoreStep {
    fn read(_alloc: Global, json: &Json) -> Result<CoreStep, CaseFault> {
        step_of(json).ok_or(CaseFault::Member)
    }
}

/// Makes the steps one by one: what each did is written, and the last state is given.
fn stepped(
    alloc: Global,
    bundle: &Bundle,
    making: Making,
    steps: &[CoreStep],
    out: &mut Output,
) -> Result<String, CaseFault> {
    let mut core = opened(alloc, bundle, making)?;
    put_moves(&mut core, steps, out);
    state_text(alloc, bundle, &core, making.ordered)
}

/// The state to which all steps in one call come.
fn state_after(
    alloc: Global,
    bundle: &Bundle,
    making: Making,
    steps: &[CoreStep],
) -> Result<String, CaseFault> {
    let core = run(alloc, bundle, making, steps)?;
    state_text(alloc, bundle, &core, making.ordered)
}

fn state_text(
    alloc: Global,
    bundle: &Bundle,
    core: &CoreState<'_>,
    ordered: bool,
) -> Result<String, CaseFault>
    requires { core.now.bundle ≡ bundle.now }
{
    let mut state = Output::new(alloc);
    put_state(bundle, core, ordered, &mut state);
    state.finish(Ok(()))
}

fn put_moves(core: &mut CoreState<'_>, steps: &[CoreStep], out: &mut Output)
    ensures { core.new.bundle ≡ core.old.bundle }
{
    out.put("[");
    let mut separator = "";
    for step in steps {
        out.put(separator);
        separator = ", ";
        out.put(moved_name(core_step(core, *step)));
    }
    out.put("]");
}

fn moved_name(moved: Moved) -> &'static str {
    match moved {
        Moved::Done => "done",
        Moved::Idle => "idle",
    }
}

/// The next number, the queue, the hands, the parked numbers of an ordered core, and each run with its
/// history.
fn put_state(bundle: &Bundle, core: &CoreState<'_>, ordered: bool, out: &mut Output)
    requires { core.now.bundle ≡ bundle.now }
{
    write!(out, " / next={}", core.next());
    put_queue(core, out);
    put_hands(core.hands(), out);
    if ordered {
        put_parked(core.parked(), out);
    }
    for run in 0..bundle.runs().len() {
        write!(out, " / run {run} {:?}", core.run_state(run).phase());
        put_history(core.history(run), out);
    }
}

fn put_queue(core: &CoreState<'_>, out: &mut Output) {
    out.put(" queue=[");
    let mut separator = "";
    for number in core.queue().iter() {
        write!(out, "{separator}{number}");
        separator = ", ";
    }
    out.put("]");
}

fn put_hands(hands: &[Option<u64>], out: &mut Output) {
    out.put(" hands=[");
    put_all(out, ", ", hands);
    out.put("]");
}

impl Part for Option<u64> {
    fn put(&self, out: &mut Output) {
        put_or_none(out, *self);
    }
}

/// The numbers that are parked.
fn put_parked(parked: &[bool], out: &mut Output) {
    out.put(" parked=[");
    let mut separator = "";
    for (number, is_parked) in parked.iter().enumerate() {
        if *is_parked {
            write!(out, "{separator}{number}");
            separator = ", ";
        }
    }
    out.put("]");
}

/// Each entry after the colon of its run.
fn put_history(history: &[Entry], out: &mut Output) {
    out.put(if history.is_empty() { ":" } else { ": " });
    put_all(out, ", ", history);
}

/// The number of an entry, and what it did to its run.
impl Part for Entry {
    fn put(&self, out: &mut Output) {
        write!(out, "{} ", self.number);
        put_effect(out, self.effect);
    }
}
