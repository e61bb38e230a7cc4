//! Calls on the code of the stack machine.

ghost use Rattle.std.specs.Prelude.{◌≡◌, true};
ghost use Rattle.ar_value.specs.Fits.{fits};
ghost use Rattle.ar_value.specs.View.{shape_view, value_view};

use crate::changes::put_changes;
use crate::endings::{put_code_fault, put_ended};
use crate::judges::put_bounds_of;
use crate::made::{Made, granted, put_made};
use ar_check::check;
use ar_code::{Code, decode, encode, listing};
use ar_compile::{CompileError, compile, in_limits};
use ar_machine::{Outcome, run};
use ar_safety::{Refused, Verified};
use ar_syntax::parse;
use ar_tested::{Ended, run_tested};
use ar_tree::Typed;
use ar_value::{Shape, Value};
use ar_verify::verify;
use cases_of_values::fault::{CaseFault, Written};
use cases_of_values::members;
use cases_of_values::output::Output;
use cases_of_values::printing::{put_between, put_lines, put_quoted, put_refusal};
use serde_json::Value as Json;
use std::alloc::{AllocError, Global};

/// How a run without memory is printed.
pub(crate) const OUT_OF_MEMORY: &str = "out of memory";

/// The code of an image: its own image, its texts, its names and its listing, or the refusal.
pub(crate) fn put_decoded(alloc: Global, case: &Json, out: &mut Output) -> Written {
    let made = decode(alloc, &members::bytes(alloc, case, "image")?);
    put_made(alloc, case, out, made)
}

impl Made for Code {
    fn answer_case(&self, alloc: Global, _case: &Json, out: &mut Output) -> Written {
        put_image(alloc, out, self);
        put_texts(out, " / texts=[", self.texts());
        put_texts(out, "] names=[", self.names());
        write!(out, "] operations={} / ", self.ops().len());
        put_listing(alloc, out, self);
        Ok(())
    }
}

fn put_image(alloc: Global, out: &mut Output, code: &Code) {
    match encode(alloc, code) {
        Ok(bytes) => put_bytes(out, &bytes),
        Err(_) => out.lose(),
    }
}

fn put_bytes(out: &mut Output, bytes: &[u8]) {
    for byte in bytes {
        write!(out, "{byte:02x}");
    }
}

fn put_listing(alloc: Global, out: &mut Output, code: &Code) {
    match listing(alloc, code) {
        Ok(lines) => put_lines(out, lines.as_str()),
        Err(_) => out.lose(),
    }
}

fn put_texts(out: &mut Output, name: &str, texts: &[String]) {
    out.put(name);
    let mut first = true;
    for text in texts {
        put_between(out, first, ",");
        first = false;
        put_quoted(out, text.as_str());
    }
}

/// The typed tree of a condition that has kinds under a shape.
fn typed_of(alloc: Global, case: &Json) -> Result<Box<Typed>, CaseFault> {
    let shape = members::shape(alloc, case, "shape")?;
    let tree = granted(alloc, case, parse(alloc, members::text(case, "condition")?))?;
    let typed = check(alloc, Box::into_inner(tree), shape.get());
    granted(alloc, case, typed)
}

/// What such a condition is compiled to.
fn compiled(alloc: Global, case: &Json) -> Result<Result<Code, CompileError>, CaseFault> {
    let typed = typed_of(alloc, case)?;
    if in_limits(&typed) {
        Ok(compile(alloc, &typed))
    } else {
        Err(CaseFault::Member)
    }
}

pub(crate) fn put_compiled(alloc: Global, case: &Json, out: &mut Output) -> Written {
    match compiled(alloc, case)? {
        Ok(code) => put_listing(alloc, out, &code),
        Err(refusal) => put_refusal(alloc, case, out, refusal),
    }
    Ok(())
}

/// The code of the member `image`, or else of `condition` under `shape`.
fn code_of(alloc: Global, case: &Json) -> Result<Box<Code>, CaseFault> {
    if case.get("image").is_none() {
        granted(alloc, case, compiled(alloc, case)?)
    } else {
        let code = decode(alloc, &members::bytes(alloc, case, "image")?);
        granted(alloc, case, code)
    }
}

/// The verdict on code, and how the runs of the values end, where there are any: of verified code as `run`
/// ends them, which has to be how `run_tested` ends with just the fuel that they cost; of other code with
/// the case's fuel.
pub(crate) fn put_verified(alloc: Global, case: &Json, out: &mut Output) -> Written {
    let code = code_of(alloc, case)?;
    let shape = members::shape(alloc, case, "shape")?;
    match verify(alloc, Box::into_inner(code), shape) {
        Ok(verified) => put_accepted(alloc, case, &verified, " / ", out),
        Err(refused) => put_refused(alloc, case, &refused, out),
    }
}

/// The bounds of accepted code, and how the runs of the values end, each after a separator.
pub(crate) fn put_accepted(
    alloc: Global,
    case: &Json,
    verified: &Verified,
    separator: &str,
    out: &mut Output,
) -> Written {
    write!(out, "accepted operations={}", verified.code().ops().len());
    put_bounds_of(out, verified);
    for json in members::list_or_none(case, "values")? {
        let value = members::value_of(alloc, json, verified.shape())?;
        out.put(separator);
        put_run(alloc, verified, &value, out);
    }
    Ok(())
}

fn put_refused(alloc: Global, case: &Json, refused: &Refused, out: &mut Output) -> Written {
    put_code_fault(out, refused.cause);
    put_tested_runs(alloc, case, &refused.code, out)
}

/// How a run of any code ends with so much fuel.
pub(crate) fn put_tested(alloc: Global, case: &Json, out: &mut Output) -> Written {
    let code = code_of(alloc, case)?;
    let shape = members::shape(alloc, case, "shape")?;
    let value = members::value(alloc, case, shape.get())?;
    put_tested_run(alloc, case, &code, &value, out)
}

/// How a run of a value ends. One without memory is said to be, so that the next can be tried.
fn put_run(alloc: Global, verified: &Verified, value: &Value, out: &mut Output)
    requires { fits (value_view value.now) (shape_view verified.now.shape) ≡ true }
{
    match run(alloc, verified, value) {
        Ok(outcome) => put_outcome(alloc, verified.code(), value, outcome, out),
        Err(_) => out.put(OUT_OF_MEMORY),
    }
}

fn put_outcome(alloc: Global, code: &Code, value: &Value, outcome: Outcome, out: &mut Output) {
    put_ended(out, Ended::Done(outcome));
    match takes_just(alloc, code, value, outcome) {
        Ok(true) => {}
        Ok(false) => out.put(", but not with just this fuel"),
        Err(_) => out.lose(),
    }
}

/// Whether a run of a code ends so with just the fuel that it costs, and with less not at all.
fn takes_just(
    alloc: Global,
    code: &Code,
    value: &Value,
    outcome: Outcome,
) -> Result<bool, AllocError> {
    let with_all = run_tested(alloc, code, value, outcome.cost)?;
    let with_less = run_tested(alloc, code, value, outcome.cost.saturating_sub(1))?;
    Ok(with_all == Ended::Done(outcome) && with_less == Ended::Spent)
}

fn put_tested_runs(alloc: Global, case: &Json, code: &Code, out: &mut Output) -> Written {
    let shape = members::shape(alloc, case, "shape")?;
    for json in members::list_or_none(case, "values")? {
        put_tested_value(alloc, case, code, shape.get(), json, out)?;
    }
    Ok(())
}

fn put_tested_value(
    alloc: Global,
    case: &Json,
    code: &Code,
    shape: &Shape,
    json: &Json,
    out: &mut Output,
) -> Written {
    let value = members::value_of(alloc, json, shape)?;
    out.put(" / ");
    put_tested_run(alloc, case, code, &value, out)
}

/// How a run of any code ends with the case's fuel.
fn put_tested_run(
    alloc: Global,
    case: &Json,
    code: &Code,
    value: &Value,
    out: &mut Output,
) -> Written {
    let fuel = members::number(case, "fuel")?;
    put_ended(out, run_tested(alloc, code, value, fuel)?);
    Ok(())
}
