//! The outcome of an image when one of its bytes is changed.

ghost use Rattle.std.specs.Prelude.{◌<◌, IfOk, length};

use crate::codes::{OUT_OF_MEMORY, put_accepted};
use crate::endings::put_code_fault;
use ar_code::{Code, decode, encode};
use ar_value::holding::try_push;
use ar_verify::verify;
use cases_of_values::fault::{CaseFault, Written};
use cases_of_values::members;
use cases_of_values::output::Output;
use cases_of_values::printing::{put_between, put_refusal};
use serde_json::Value as Json;
use std::alloc::Global;

/// Gives the byte of an image at an offset each of its values: stretches of values with the same outcome.
pub(crate) fn put_changes(alloc: Global, case: &Json, out: &mut Output) -> Written {
    let image = members::bytes(alloc, case, "image")?;
    let outcomes = outcomes_of(alloc, case, &image)?;
    put_stretches(out, &outcomes);
    Ok(())
}

fn put_stretches(out: &mut Output, outcomes: &[String]) {
    let mut first = 0;
    for (last, outcome) in outcomes.iter().enumerate() {
        let next = last.saturating_add(1);
        if !is_outcome(outcomes, next, outcome.as_str()) {
            put_stretch(out, first, last, outcome.as_str());
            first = next;
        }
    }
}

/// Whether a value of the byte has this outcome.
fn is_outcome(outcomes: &[String], byte: usize, outcome: &str) -> bool {
    match outcomes.get(byte) {
        Some(other) => other.as_str() == outcome,
        None => false,
    }
}

fn put_stretch(out: &mut Output, first: usize, last: usize, outcome: &str) {
    put_between(out, first == 0, " / ");
    write!(out, "{first:02x}");
    if first < last {
        write!(out, "-{last:02x}");
    }
    out.put(" ");
    out.put(outcome);
}

/// The outcome for each value of the byte.
fn outcomes_of(alloc: Global, case: &Json, image: &[u8]) -> Result<Vec<String>, CaseFault> {
    let offset = offset_of(case, image)?;
    let mut outcomes = Vec::new(alloc);
    for byte in 0..=u8::MAX {
        let outcome = changed_outcome(alloc, case, image, offset, byte)?;
        try_push(&mut outcomes, outcome)?;
    }
    Ok(outcomes)
}

/// The offset of a byte of the image.
fn offset_of(case: &Json, image: &[u8]) -> Result<usize, CaseFault>
    ensures { IfOk result (λ offset. offset < length image.now) }
{
    match usize::try_from(members::number(case, "place")?) {
        Ok(offset) if offset < image.len() => Ok(offset),
        _ => Err(CaseFault::Member),
    }
}

/// The outcome of the image with another byte at `offset`.
fn changed_outcome(
    alloc: Global,
    case: &Json,
    image: &[u8],
    offset: usize,
    byte: u8,
) -> Result<String, CaseFault>
    requires { offset < length image.now }
{
    let mut changed = image.to_vec(alloc)?;
    changed[offset] = byte;
    let mut out = Output::new(alloc);
    let written = put_outcome(alloc, case, &changed, &mut out);
    let outcome = out.finish(written)?;
    if outcome.contains(OUT_OF_MEMORY) {
        return Err(CaseFault::OutOfMemory);
    }
    Ok(outcome)
}

/// The refusal of an image, or the outcome of its code.
fn put_outcome(alloc: Global, case: &Json, image: &[u8], out: &mut Output) -> Written {
    match decode(alloc, image) {
        Ok(code) => put_code(alloc, case, image, Box::new(alloc, code)?, out),
        Err(refusal) => {
            put_refusal(alloc, case, out, refusal);
            Ok(())
        }
    }
}

/// The verdict on the code of an image. Other bytes that it is encoded as are printed before it.
fn put_code(
    alloc: Global,
    case: &Json,
    image: &[u8],
    code: Box<Code>,
    out: &mut Output,
) -> Written {
    put_encoding(alloc, image, &code, out);
    let shape = members::shape(alloc, case, "shape")?;
    match verify(alloc, Box::into_inner(code), shape) {
        Ok(verified) => put_accepted(alloc, case, &verified, ", ", out),
        Err(refused) => {
            put_code_fault(out, refused.cause);
            Ok(())
        }
    }
}

fn put_encoding(alloc: Global, image: &[u8], code: &Code, out: &mut Output) {
    match encode(alloc, code) {
        Ok(bytes) if bytes.as_slice() == image => {}
        Ok(_) => out.put("encoded otherwise, "),
        Err(_) => out.lose(),
    }
}
