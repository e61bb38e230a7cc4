//! Runs and commands with workers: that several of them judge at once, and what is reported.

ghost use Rattle.std.specs.Prelude.{◌≤◌};
ghost use Rattle.ar_command.specs.Serving.{RunsWith};

use crate::gates::{FAILING, Meeting, TWO_RUNS};
use ar_bundle::{Bundle, Histories};
use ar_command::{Closing, Command, Device, Format, serve};
use ar_document::read_bundle;
use ar_workers::{WorkError, run_all, run_ordered};
use std::alloc::Global;
use std::fmt::Write;
use std::process::Abort;
use std::sync::Wait;
use std::thread::Threads;

/// A run that is measured three times, and stays open.
const THREE_ENTRIES: &str =
    r#"{"manifest":{"apiVersion":"argoproj.io/v1alpha1","kind":"AnalysisTemplate","metadata":{"name":"t"},
    "spec":{"metrics":[{"name":"m","interval":"1m","successCondition":"result > 1"}]}},
    "shapes":{"m":"whole"},"runs":[{"name":"r0"}],
    "measurements":[{"run":"r0","metric":"m","value":2},{"run":"r0","metric":"m","value":3},
    {"run":"r0","metric":"m","value":4}]}"#;

/// What is reported of `TWO_RUNS`.
const REPORT: &str = "\
run r0 Successful
metric m Successful successful=1 failed=0 inconclusive=0 error=0 consecutiveError=0
event 0 m Successful closed Successful
run r1 Successful
metric m Successful successful=1 failed=0 inconclusive=0 error=0 consecutiveError=0
event 1 m Successful closed Successful
";

/// What is reported of `FAILING` in the order of its numbers.
const FAILING_IN_ORDER: &str = "\
run r0 Failed
metric m Failed successful=1 failed=2 inconclusive=0 error=0 consecutiveError=0
event 0 m Successful applied
event 1 m Failed applied
event 2 m Failed closed Failed
";

/// A run with workers at a gate, and what its histories may have: their numbers, run by run.
struct Case {
    document: &'static str,
    workers: usize,
    ordered: bool,
    waiting: u64,
    wanted: usize,
    shown: &'static [&'static str],
}

const CASES: &[Case] = &[
    // Two workers judge at the same time: each waits for the other's number before it judges its own.
    Case {
        document: TWO_RUNS,
        workers: 2,
        ordered: false,
        waiting: 2,
        wanted: 2,
        shown: &["0 / 1 / "],
    },
    // While one worker holds number 0 the other posts number 1, which the history then shows before it.
    Case {
        document: THREE_ENTRIES,
        workers: 2,
        ordered: false,
        waiting: 1,
        wanted: 3,
        shown: &["1 0 2 / ", "1 2 0 / "],
    },
    // Where two workers have judged while a third holds number 0, an ordered run has it first all the same.
    Case {
        document: FAILING,
        workers: 3,
        ordered: true,
        waiting: 1,
        wanted: 3,
        shown: &["0 1 2 / "],
    },
    // As many workers come as were asked for, each with a number of its own.
    Case {
        document: THREE_ENTRIES,
        workers: 3,
        ordered: false,
        waiting: 3,
        wanted: 3,
        shown: &[
            "0 1 2 / ", "0 2 1 / ", "1 0 2 / ", "1 2 0 / ", "2 0 1 / ", "2 1 0 / ",
        ],
    },
    // The same of an ordered run.
    Case {
        document: FAILING,
        workers: 3,
        ordered: true,
        waiting: 3,
        wanted: 3,
        shown: &["0 1 2 / "],
    },
];

/// Writes the numbers of each run's history. What there is no memory for is left out, so a comparison fails.
fn put_numbers(text: &mut String, histories: &Histories) {
    for history in histories.runs() {
        for entry in history.entries() {
            let _ = write!(text, "{} ", entry.number);
        }
        let _ = text.push_str("/ ");
    }
}

/// What comes of a run by n workers, ordered or not.
fn outcome_of<R: Threads + Wait + Sync>(
    rt: &R,
    alloc: Global,
    bundle: &Bundle,
    workers: usize,
    ordered: bool,
    gate: &Meeting,
) -> Result<Histories, WorkError>
    requires { (1 ≤ workers) × (workers ≤ 16) }
{
    if ordered {
        run_ordered(rt, alloc, bundle, workers, gate)
    } else {
        run_all(rt, alloc, bundle, workers, gate)
    }
}

/// Writes the numbers in the histories of a document's run, if there are histories.
fn put_run<R: Threads + Wait + Sync>(
    rt: &R,
    alloc: Global,
    document: &str,
    workers: usize,
    ordered: bool,
    gate: &Meeting,
    text: &mut String,
)
    requires { (1 ≤ workers) × (workers ≤ 16) }
{
    if let Ok(bundle) = read_bundle(alloc, document.as_bytes()) {
        if let Ok(histories) = outcome_of(rt, alloc, &bundle, workers, ordered, gate) {
            put_numbers(text, &histories);
        }
    }
}

/// Whether the numbers that wait meet at the gate, as many workers come as numbers, and the histories are as they
/// may be.
fn holds<R: Threads + Wait + Sync>(rt: &R, alloc: Global, case: &Case) -> bool {
    if case.workers < 1 || case.workers > 16 {
        return false;
    }
    let gate = Meeting::new(case.waiting, case.wanted);
    let mut numbers = String::new(alloc);
    put_run(
        rt,
        alloc,
        case.document,
        case.workers,
        case.ordered,
        &gate,
        &mut numbers,
    );
    gate.is_held()
        && (case.waiting < 3 || gate.has_three())
        && is_one_of(numbers.as_str(), case.shown)
}

fn is_one_of(shown: &str, all: &[&str]) -> bool {
    for other in all {
        if shown == *other {
            return true;
        }
    }
    false
}

#[test]
fn runs(rt: HostRuntime) {
    for (place, case) in CASES.iter().enumerate() {
        assert!(rt; holds(&rt, rt.alloc(), case), "case {place}");
    }
}

/// Asserts that a document is served with workers, closing so, and what is written then.
fn assert_served<R: Threads + Wait + Sync + Abort>(
    rt: &R,
    alloc: Global,
    command: Command,
    document: &str,
    gate: &Meeting,
    closing: Closing,
    report: &str,
)
    requires { RunsWith command 16 }
{
    let mut output = Vec::new(alloc);
    let is_so = is_served(rt, alloc, command, document, &mut output, gate, closing);
    assert!(rt; is_so && output.as_slice() == report.as_bytes());
}

/// Whether a document is served with workers, closing so.
fn is_served<R: Threads + Wait + Sync>(
    rt: &R,
    alloc: Global,
    command: Command,
    document: &str,
    output: &mut Vec<u8>,
    gate: &Meeting,
    closing: Closing,
) -> bool
    requires { RunsWith command 16 }
{
    let mut reader = Device::new(document.as_bytes());
    let mut writer = Device::new(output);
    let outcome = serve(rt, alloc, command, &mut reader, &mut writer, gate);
    matches!(outcome, Ok(own) if own == closing) && gate.is_held()
}

/// Two workers judge at the same time where a document is served: each waits for the other's number.
#[test]
fn two_workers_meet_in_a_command(rt: HostRuntime) {
    let meeting = Meeting::new(2, 2);
    let command = Command::Run(2, Format::Text);
    assert_served(
        &rt,
        rt.alloc(),
        command,
        TWO_RUNS,
        &meeting,
        Closing::Good,
        REPORT,
    );
}

/// Where two workers have judged while a third holds number 0, an ordered document is served, whose
/// report is that of the plain run.
#[test]
fn in_order_in_a_command(rt: HostRuntime) {
    let holding = Meeting::new(1, 3);
    let command = Command::Ordered(3, Format::Text);
    assert_served(
        &rt,
        rt.alloc(),
        command,
        FAILING,
        &holding,
        Closing::Bad,
        FAILING_IN_ORDER,
    );
}
