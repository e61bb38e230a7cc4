//! Boards, by the names that contracts give their bundle and their locks: posts and looks by seats, and
//! what closing gives.

ghost use Rattle.std.specs.Prelude.{◌≡◌, ◌<◌, ◌≤◌, length};
ghost use Rattle.ar_board.specs.Locks.{AreOf};

use crate::gates::TWO_RUNS;
use ar_board::locks::First;
use ar_board::{Blanks, Board, LockNames, Lost, Receipt, RunCell, Seat};
use ar_bundle::{Bundle, BundleName, Finding, Histories};
use ar_document::read_bundle;
use ar_judge::Verdict;
use std::alloc::{AllocError, Global};
use std::fmt::{Debug, Write};
use std::marker::Brand;
use std::process::Abort;
use std::sync::Wait;

/// What a worker does at a board.
enum Call {
    /// It posts a number.
    Post(u64),
    /// It looks at a run.
    Look(usize),
    /// It looks at run 0 while it holds the lock of that run, and posts number 1 and looks at run 1
    /// meanwhile.
    Hold,
}

/// Two runs that are measured three times each: the first succeeds at its second measurement, the second
/// fails at its second.
const THREE_EACH: &str =
    r#"{"manifest":{"apiVersion":"argoproj.io/v1alpha1","kind":"AnalysisTemplate","metadata":{"name":"t"},
    "spec":{"metrics":[{"name":"m","interval":"1m","count":2,"successCondition":"result > 0"}]}},
    "shapes":{"m":"whole"},"runs":[{"name":"r0"},{"name":"r1"}],
    "measurements":[{"run":"r0","metric":"m","value":1},{"run":"r1","metric":"m","value":1},
    {"run":"r0","metric":"m","value":2},{"run":"r0","metric":"m","value":0},
    {"run":"r1","metric":"m","value":0},{"run":"r1","metric":"m","value":5}]}"#;

/// A run with a measurement, a stop, and another measurement, and one with a measurement.
const STOPPED: &str =
    r#"{"manifest":{"apiVersion":"argoproj.io/v1alpha1","kind":"AnalysisTemplate","metadata":{"name":"t"},
    "spec":{"metrics":[{"name":"m","interval":"1m","successCondition":"result > 0"}]}},
    "shapes":{"m":"whole"},"runs":[{"name":"r0"},{"name":"r1"}],
    "measurements":[{"run":"r0","metric":"m","value":1},{"run":"r1","metric":"m","value":1},
    {"run":"r0","stop":true},{"run":"r0","metric":"m","value":0}]}"#;

/// Receipts of `STOPPED` in another order than that of the posts.
const OUT_OF_ORDER: &[Receipt] = &[
    Receipt {
        run: 0,
        number: 3,
        place: 1,
    },
    Receipt {
        run: 0,
        number: 2,
        place: 0,
    },
];

/// A receipt that no seat has.
const ELSEWHERE: &[Receipt] = &[Receipt {
    run: 0,
    number: 0,
    place: 1,
}];

/// Writes an answer, a line. What there is no memory for is left out, so a comparison fails.
fn put_line<T: Debug>(text: &mut String, answer: &T) {
    let _ = writeln!(text, "{answer:?}");
}

/// Writes what the cell of the first lock shows of run 0 to a worker: with these receipts, with none, with one of
/// another position, and with some that are out of order.
fn put_shown<M: BundleName, L: LockNames>(
    alloc: Global,
    cell: &RunCell<'_, M, First<L>>,
    worker: usize,
    receipts: &[Receipt],
    text: &mut String,
)
    requires worker { worker < M.workers }
    requires runs { 1 ≤ length M.bundle.runs }
{
    put_line(text, &cell.show(alloc, 0, worker, receipts));
    put_line(text, &cell.show(alloc, 0, worker, &[]));
    put_line(text, &cell.show(alloc, 0, worker, ELSEWHERE));
    put_line(text, &cell.show(alloc, 0, worker, OUT_OF_ORDER));
}

/// Writes the result of posting a number that is there.
fn put_post<M: BundleName, L: LockNames>(
    rt: &impl Wait,
    alloc: Global,
    bundle: &Bundle,
    board: &Board<'_, M, L>,
    seat: &mut Seat<M, L>,
    number: u64,
    text: &mut String,
)
    requires bundle { bundle.now ≡ M.bundle }
    requires there { number < length M.bundle.entries }
{
    if let Ok(finding) = bundle.finding(alloc, number) {
        put_line(text, &board.post(rt, seat, number, finding));
    }
}

/// Writes what the first lock's cell shows of run 0 while the lock is held, and the result of posting
/// number 1 and looking at run 1 meanwhile.
fn put_held<M: BundleName, L: LockNames>(
    rt: &impl Wait,
    alloc: Global,
    bundle: &Bundle,
    board: &Board<'_, M, L>,
    seat: &mut Seat<M, L>,
    text: &mut String,
)
    requires bundle { bundle.now ≡ M.bundle }
    requires sizes { (2 ≤ length M.bundle.runs) × (2 ≤ length M.bundle.entries) }
{
    let cell = board.first.lock(rt);
    put_shown::<M, L>(alloc, &cell, seat.worker(), seat.receipts(), text);
    put_post(rt, alloc, bundle, board, seat, 1, text);
    put_line(text, &board.look(rt, alloc, seat, 1));
}

/// Writes the result of a call by a seat, where what it names is there.
fn put_answer<M: BundleName, L: LockNames>(
    rt: &impl Wait,
    alloc: Global,
    bundle: &Bundle,
    board: &Board<'_, M, L>,
    seat: &mut Seat<M, L>,
    call: &Call,
    text: &mut String,
)
    requires bundle { bundle.now ≡ M.bundle }
{
    match *call {
        Call::Post(number) => {
            if number < bundle.events() {
                put_post(rt, alloc, bundle, board, seat, number, text);
            }
        }
        Call::Look(run) => {
            if run < bundle.runs().len() {
                put_line(text, &board.look(rt, alloc, seat, run));
            }
        }
        Call::Hold => {
            if bundle.runs().len() >= 2 && bundle.events() >= 2 {
                put_held(rt, alloc, bundle, board, seat, text);
            }
        }
    }
}

/// Writes the results of calls, each by the seat at a place, where there is one.
fn put_answers<M: BundleName, L: LockNames>(
    rt: &impl Wait,
    alloc: Global,
    bundle: &Bundle,
    board: &Board<'_, M, L>,
    seats: &mut Vec<Seat<M, L>>,
    calls: &[(usize, Call)],
    text: &mut String,
)
    requires bundle { bundle.now ≡ M.bundle }
    ensures seats { length seats.new.items ≡ length seats.old.items }
{
    for (place, call) in calls {
        if *place < seats.len() {
            put_answer(rt, alloc, bundle, board, &mut seats[*place], call, text);
        }
    }
}

/// A finding in a word.
fn word_of(finding: Finding) -> &'static str {
    match finding {
        Finding::Stop => "stop",
        Finding::Judged(Verdict::Successful) => "Successful",
        Finding::Judged(Verdict::Failed) => "Failed",
        Finding::Judged(Verdict::Inconclusive) => "Inconclusive",
        Finding::Judged(Verdict::Error(_)) => "Error",
    }
}

/// Writes histories run by run: of each entry its number, its finding and its effect.
fn put_histories(text: &mut String, histories: &Histories) {
    for history in histories.runs() {
        for entry in history.entries() {
            let word = word_of(entry.finding);
            let _ = write!(text, "{} {word} {:?}, ", entry.number, entry.effect);
        }
        let _ = text.push_str("/ ");
    }
}

/// Writes what closing gives; where a number is lost, it is before what there is.
fn put_closed(text: &mut String, outcome: &Result<Histories, Lost>) {
    match outcome {
        Ok(histories) => put_histories(text, histories),
        Err(lost) => {
            let _ = write!(text, "lost {}: ", lost.number);
            put_histories(text, &lost.histories);
            put_line(text, &lost.receipts);
        }
    }
}

/// Writes the results of calls at a new board, a line each, and what closing gives after them.
fn put_board<M: BundleName, L: LockNames, R: Wait>(
    rt: &R,
    alloc: Global,
    bundle: &Bundle,
    workers: usize,
    blanks: Blanks,
    calls: &[(usize, Call)],
    text: &mut String,
) -> Result<(), AllocError>
    requires bundle { bundle.now ≡ M.bundle }
    requires workers { workers ≡ M.workers }
    requires most { (1 ≤ workers) × (workers ≤ 16) }
    requires blanks { AreOf L.names L.parts blanks }
    requires parts { L.parts ≡ M.workers }
{
    let (board, mut seats) = Board::<M, L>::new(alloc, blanks, bundle, workers)?;
    put_answers(rt, alloc, bundle, &board, &mut seats, calls, text);
    put_closed(text, &board.close(seats));
    Ok(())
}

/// The same for a board of a document's bundle.
fn put_document<R: Wait>(
    rt: &R,
    alloc: Global,
    document: &str,
    workers: usize,
    calls: &[(usize, Call)],
    text: &mut String,
)
    requires most { (1 ≤ workers) × (workers ≤ 16) }
{
    if let Ok(bundle) = read_bundle(alloc, document.as_bytes()) {
        let blanks = Blanks::new(workers as u64);
        let _ = put_board::<Brand, Brand, R>(rt, alloc, &bundle, workers, blanks, calls, text);
    }
}

/// Asserts the results of calls at a new board for a document, and what closing gives. What can't be called
/// has no line.
fn assert_board<R: Wait + Abort>(
    rt: &R,
    alloc: Global,
    document: &str,
    workers: usize,
    calls: &[(usize, Call)],
    expected: &str,
)
    requires most { (1 ≤ workers) × (workers ≤ 16) }
{
    let mut text = String::new(alloc);
    put_document(rt, alloc, document, workers, calls, &mut text);
    assert!(rt; text.as_str() == expected, "{text}");
}

/// A number that nobody posted is lost; once both are posted the histories have both.
#[test]
fn one_seat(rt: HostRuntime) {
    const CALLS: &[(usize, Call)] = &[
        (0, Call::Post(0)),
        (0, Call::Look(0)),
        (0, Call::Post(0)),
        (0, Call::Look(0)),
    ];
    let expected = "Ok(Posted { place: 0, effect: Closed(Successful) })
Ok(Snapshot { phase: Successful, metrics: [Successful], posts: [1] })
Err(Double)
Ok(Snapshot { phase: Successful, metrics: [Successful], posts: [1] })
lost 1: 0 Successful Closed(Successful), / / [[Receipt { run: 0, number: 0, place: 0 }]]
";
    assert_board(&rt, rt.alloc(), TWO_RUNS, 1, CALLS, expected);
    const BOTH: &[(usize, Call)] = &[
        (0, Call::Post(0)),
        (0, Call::Look(0)),
        (0, Call::Post(0)),
        (0, Call::Look(0)),
        (0, Call::Post(1)),
    ];
    let expected = "Ok(Posted { place: 0, effect: Closed(Successful) })
Ok(Snapshot { phase: Successful, metrics: [Successful], posts: [1] })
Err(Double)
Ok(Snapshot { phase: Successful, metrics: [Successful], posts: [1] })
Ok(Posted { place: 0, effect: Closed(Successful) })
0 Successful Closed(Successful), / 1 Successful Closed(Successful), / ";
    assert_board(&rt, rt.alloc(), TWO_RUNS, 1, BOTH, expected);
}

/// A seat sees the posts of another, and can't post what that one posted.
#[test]
fn two_seats(rt: HostRuntime) {
    const CALLS: &[(usize, Call)] = &[
        (0, Call::Post(0)),
        (1, Call::Look(0)),
        (1, Call::Post(0)),
        (1, Call::Post(1)),
    ];
    let expected = "Ok(Posted { place: 0, effect: Closed(Successful) })
Ok(Snapshot { phase: Successful, metrics: [Successful], posts: [1, 0] })
Err(Double)
Ok(Posted { place: 0, effect: Closed(Successful) })
0 Successful Closed(Successful), / 1 Successful Closed(Successful), / ";
    assert_board(&rt, rt.alloc(), TWO_RUNS, 2, CALLS, expected);
}

/// A look returns what the cell shows while the lock is held, and a run under another lock is posted to
/// and looked at meanwhile.
#[test]
fn held_lock(rt: HostRuntime) {
    const CALLS: &[(usize, Call)] = &[(0, Call::Post(0)), (0, Call::Look(0)), (0, Call::Hold)];
    let expected = "Ok(Posted { place: 0, effect: Closed(Successful) })
Ok(Snapshot { phase: Successful, metrics: [Successful], posts: [1] })
Ok(Snapshot { phase: Successful, metrics: [Successful], posts: [1] })
Err(Stale(1))
Err(Stale(1))
Err(Stale(1))
Ok(Posted { place: 0, effect: Closed(Successful) })
Ok(Snapshot { phase: Successful, metrics: [Successful], posts: [1] })
0 Successful Closed(Successful), / 1 Successful Closed(Successful), / ";
    assert_board(&rt, rt.alloc(), TWO_RUNS, 1, CALLS, expected);
}

/// What is posted after a stop is late, and is shown among the posts; receipts out of order are stale.
#[test]
fn stopped(rt: HostRuntime) {
    const CALLS: &[(usize, Call)] = &[(0, Call::Post(2)), (0, Call::Post(3)), (0, Call::Hold)];
    let expected = "Ok(Posted { place: 0, effect: Closed(Successful) })
Ok(Posted { place: 1, effect: Late })
Ok(Snapshot { phase: Successful, metrics: [Successful], posts: [2] })
Err(Stale(2))
Err(Stale(2))
Err(Stale(2))
Ok(Posted { place: 0, effect: Applied })
Ok(Snapshot { phase: Running, metrics: [Running], posts: [1] })
lost 0: 2 stop Closed(Successful), 3 Failed Late, / 1 Successful Applied, / \
    [[Receipt { run: 0, number: 2, place: 0 }, Receipt { run: 0, number: 3, place: 1 }, \
    Receipt { run: 1, number: 1, place: 0 }]]
";
    assert_board(&rt, rt.alloc(), STOPPED, 1, CALLS, expected);
}

/// Two seats post three numbers to each of two runs under different locks; after each post both see it.
#[test]
fn posts_of_two_seats(rt: HostRuntime) {
    const CALLS: &[(usize, Call)] = &[
        (0, Call::Post(0)),
        (0, Call::Look(0)),
        (1, Call::Look(0)),
        (1, Call::Post(2)),
        (0, Call::Look(0)),
        (1, Call::Look(0)),
        (0, Call::Post(3)),
        (0, Call::Look(0)),
        (1, Call::Look(0)),
        (1, Call::Post(1)),
        (0, Call::Look(1)),
        (1, Call::Look(1)),
        (0, Call::Post(4)),
        (0, Call::Look(1)),
        (1, Call::Look(1)),
        (1, Call::Post(5)),
        (0, Call::Look(1)),
        (1, Call::Look(1)),
    ];
    let expected = "Ok(Posted { place: 0, effect: Applied })
Ok(Snapshot { phase: Running, metrics: [Running], posts: [1, 0] })
Ok(Snapshot { phase: Running, metrics: [Running], posts: [1, 0] })
Ok(Posted { place: 1, effect: Closed(Successful) })
Ok(Snapshot { phase: Successful, metrics: [Successful], posts: [1, 1] })
Ok(Snapshot { phase: Successful, metrics: [Successful], posts: [1, 1] })
Ok(Posted { place: 2, effect: Late })
Ok(Snapshot { phase: Successful, metrics: [Successful], posts: [2, 1] })
Ok(Snapshot { phase: Successful, metrics: [Successful], posts: [2, 1] })
Ok(Posted { place: 0, effect: Applied })
Ok(Snapshot { phase: Running, metrics: [Running], posts: [0, 1] })
Ok(Snapshot { phase: Running, metrics: [Running], posts: [0, 1] })
Ok(Posted { place: 1, effect: Closed(Failed) })
Ok(Snapshot { phase: Failed, metrics: [Failed], posts: [1, 1] })
Ok(Snapshot { phase: Failed, metrics: [Failed], posts: [1, 1] })
Ok(Posted { place: 2, effect: Late })
Ok(Snapshot { phase: Failed, metrics: [Failed], posts: [1, 2] })
Ok(Snapshot { phase: Failed, metrics: [Failed], posts: [1, 2] })
0 Successful Applied, 2 Successful Closed(Successful), 3 Failed Late, \
    / 1 Successful Applied, 4 Failed Closed(Failed), 5 Successful Late, / ";
    assert_board(&rt, rt.alloc(), THREE_EACH, 2, CALLS, expected);
}
