//! Why code is refused, and how runs of code end, printed.

ghost use Rattle.std.specs.Prelude.{◌++◌, codes, decimal};
ghost use Rattle.cases_of_values.specs.Output.{Writes};
ghost use Rattle.cases_of_conditions.specs.Endings.{done_text, ended_text};

use ar_machine::Outcome;
use ar_safety::Cause;
use ar_tested::Ended;
use cases_of_values::output::Output;
use cases_of_values::printing::put_answer;

/// How a run of code ends.
pub(crate) fn put_ended(out: &mut Output, ended: Ended)
    ensures { Writes out.old out.new (ended_text ended) }
{
    match ended {
        Ended::Done(outcome) => put_done(out, outcome),
        Ended::Stuck(index) => put_stuck(out, index),
        Ended::Spent => out.put("spent"),
    }
}

fn put_done(out: &mut Output, outcome: Outcome)
    ensures { Writes out.old out.new (done_text outcome) }
{
    put_answer(out, outcome.answer);
    write!(out, " cost={}", outcome.cost);
}

fn put_stuck(out: &mut Output, index: usize)
    ensures { Writes out.old out.new (codes "stuck " ++ decimal index) }
{
    write!(out, "stuck {index}");
}

/// Why code is refused. Memory ran out where that is the cause.
pub(crate) fn put_code_fault(out: &mut Output, cause: Cause) {
    match cause {
        Cause::Fault { index, reason } => write!(out, "{reason:?} at {index}"),
        Cause::OutOfMemory => out.lose(),
    }
}
