//! `conformance`: answers the cases of the conformance suite by the libraries of this repository.
//!
//! Standard input has a case a line: a JSON object whose text `call` names a call, with the members that
//! the call takes; docs/design/conformance.md lists them. Standard output gets a line for each, with what the
//! call returned. Other members, as `name` and `answer`, are ignored. The first line that is no
//! case is reported on standard error with its number, from 1, and ends the program with status 2; so empty
//! lines and remarks are left out before (`conformance/check` does it).
//!
//! `cases_of_values` handles those on numbers, texts, shapes and values, and `cases_of_conditions` those on templates,
//! conditions, code and judges.
//!
//! - `phases`, `documents`, `boards`, `commands`: the other calls, by their subjects
//! - `inputs`: the bytes of the documents of cases
//! - `lists`: the lists of a case
//! - `parts`: parts of answers, printed one after another
//!
//! Which names are those of calls is proved of every case (`specs/Calls`). What these calls return is only
//! tested, by the suite.
#![tactic(auto)]

ghost use Rattle.std.specs.Prelude.{◌≡◌, is_some};
ghost use Rattle.conformance.specs.Calls.{is_suite_call, is_own_call};

mod boards;
mod commands;
mod documents;
mod inputs;
mod lists;
mod parts;
mod phases;

use crate::commands::put_command;
use crate::documents::{put_document, put_json};
use crate::phases::{put_phase, put_phases, put_positive};
use cases_of_values::fault::{CaseFault, LineFault, Written};
use cases_of_values::members;
use cases_of_values::output::Output;
use serde_json::Value as Json;
use std::alloc::Global;
use std::io;
use std::process::ExitCode;

fn main(rt: HostRuntime) -> ExitCode {
    ExitCode::from(run(&rt))
}

/// Answers each line, and gives the exit status.
fn run<R: AllocGlobal + Input + Print + Eprint>(rt: &R) -> u8 {
    for (number, line) in rt.lines(rt.alloc()).enumerate() {
        let answered = match line {
            Ok(line) => print_answer(rt, line.as_str()),
            Err(error) => Err(of_device(&error)),
        };
        if let Err(fault) = answered {
            let line = number.saturating_add(1);
            let _ = eprintln!(rt; "conformance: line {line}: {fault}");
            return fault.status();
        }
    }
    0
}

/// A read or a write that failed, or out of memory.
fn of_device(error: &io::Error) -> LineFault {
    if error.kind() == io::ErrorKind::OutOfMemory {
        LineFault::Case(CaseFault::OutOfMemory)
    } else {
        LineFault::Device
    }
}

fn print_answer<R: AllocGlobal + Print>(rt: &R, line: &str) -> Result<(), LineFault> {
    let answer = answer_of(rt.alloc(), line)?;
    match println!(rt; "{answer}") {
        Ok(()) => Ok(()),
        Err(error) => Err(of_device(&error)),
    }
}

/// The answer to a line.
fn answer_of(alloc: Global, line: &str) -> Result<String, LineFault> {
    answer_to_case(alloc, &case_of(alloc, line)?)
}

fn case_of(alloc: Global, line: &str) -> Result<Json, LineFault> {
    match Json::from_str(alloc, line) {
        Ok(case) => Ok(case),
        Err(error) if error.is_memory() => Err(LineFault::Case(CaseFault::OutOfMemory)),
        Err(_) => Err(LineFault::NoJson),
    }
}

fn answer_to_case(alloc: Global, case: &Json) -> Result<String, LineFault> {
    let call = members::text(case, "call")?;
    match answer_to(alloc, call, case) {
        Some(Ok(answer)) => Ok(answer),
        Some(Err(fault)) => Err(LineFault::Case(fault)),
        None => Err(LineFault::UnknownCall),
    }
}

/// What a call of any subject returns on a case; `None` where it is none.
fn answer_to(alloc: Global, call: &str, case: &Json) -> Option<Result<String, CaseFault>>
    ensures { is_some result ≡ is_suite_call call.now }
{
    if let Some(answered) = cases_of_values::answer(alloc, call, case) {
        return Some(answered);
    }
    if let Some(answered) = cases_of_conditions::answer(alloc, call, case) {
        return Some(answered);
    }
    own_answer(alloc, call, case)
}

/// What a call of this program's own subjects returns.
fn own_answer(alloc: Global, call: &str, case: &Json) -> Option<Result<String, CaseFault>>
    ensures { is_some result ≡ is_own_call call.now }
{
    let mut out = Output::new(alloc);
    let written = put(alloc, call, case, &mut out)?;
    Some(out.finish(written))
}

fn put(alloc: Global, call: &str, case: &Json, out: &mut Output) -> Option<Written>
    ensures { is_some result ≡ is_own_call call.now }
{
    match call {
        "phase" => Some(put_phase(case, out)),
        "positive_counts" => Some(put_positive(alloc, case, out)),
        "phases" => Some(put_phases(alloc, case, out)),
        "read_json" => Some(put_json(alloc, case, out)),
        "read_bundle" | "findings" | "limits" | "core" => {
            Some(put_document(alloc, call, case, out))
        }
        "command_of" => Some(put_command(alloc, case, out)),
        _ => None,
    }
}
