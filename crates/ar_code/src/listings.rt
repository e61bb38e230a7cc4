//! Code as lines for people.

ghost use Rattle.std.specs.Prelude.{◌≡◌, ◌++◌, [], IfOk, OnOk, get_or, map, string_bytes};
ghost use Rattle.ar_code.specs.Listing.{fields_text, line, lines, listing, numbered, scalar_name, source_text};

use crate::form::form_of;
use ar_op::code::Code;
use ar_op::op::{Op, Source};
use ar_value::operator::Scalar;
use std::alloc::{AllocError, Global};
use std::fmt::Write;

fn scalar_name(scalar: Scalar) -> &'static str
    ensures { result.now ≡ scalar_name scalar }
{
    match scalar {
        Scalar::Bool => "bool",
        Scalar::Whole => "whole",
        Scalar::Decimal => "decimal",
        Scalar::Text => "text",
    }
}

/// The entry of a table, in which there is one for each number of a code.
#[tactic(auto, using(crate::proofs::Entries::entry_there, crate::proofs::Entries::no_entry))]
fn entry(texts: &[String], number: u32) -> &str
    ensures { result.now ≡ get_or (map string_bytes texts.now) number [] }
{
    let index = number as usize;
    if index < texts.len() {
        texts[index].as_str()
    } else {
        ""
    }
}

/// An entry's number, and the entry itself.
fn put_entry(out: &mut String, texts: &[String], number: u32) -> Result<(), AllocError>
    ensures { OnOk result
        (string_bytes out.new ≡ string_bytes out.old ++ numbered (map string_bytes texts.now) number) }
{
    let text = entry(texts, number);
    write!(out, " {number} {text}")
}

fn put_source(out: &mut String, code: &Code, source: Source) -> Result<(), AllocError>
    ensures { OnOk result (string_bytes out.new ≡ string_bytes out.old ++ source_text code.now source) }
{
    match source {
        Source::Bool(holds) => write!(out, " {holds}"),
        Source::Whole(value) => write!(out, " {value}"),
        Source::Decimal(millionths) => write!(out, " {millionths}"),
        Source::Text(number) => put_entry(out, code.texts(), number),
        Source::Nil | Source::Result | Source::Item => Ok(()),
    }
}

fn put_fields(out: &mut String, code: &Code, op: Op) -> Result<(), AllocError>
    ensures { OnOk result (string_bytes out.new ≡ string_bytes out.old ++ fields_text code.now op) }
{
    match op {
        Op::Push(source) => put_source(out, code, source),
        Op::MakeList { scalar, count } => write!(out, " {} {count}", scalar_name(scalar)),
        Op::Field(number) => put_entry(out, code.names(), number),
        Op::Jump(_, index) | Op::Enter(_, index) | Op::Step(_, index) => write!(out, " {index}"),
        Op::Unary(_) | Op::Binary(_) | Op::Return => Ok(()),
    }
}

fn put_line(out: &mut String, code: &Code, index: usize, op: Op) -> Result<(), AllocError>
    ensures { OnOk result (string_bytes out.new ≡ string_bytes out.old ++ line code.now index op) }
{
    write!(out, "{index} {}", form_of(op).name)?;
    put_fields(out, code, op)?;
    out.push('\n')
}

/// The listing of code: a line for each operation, with its index, its name and its fields, one space
/// between, and the text itself after a text's or name's number. A text is listed as it is.
///
/// # Errors
///
/// Out of memory, which the lines take.
#[tactic(auto, using(crate::proofs::Entries::no_line))]
pub fn listing(alloc: Global, code: &Code) -> Result<String, AllocError>
    ensures { IfOk result (λ text. string_bytes text ≡ listing code.now) }
{
    let mut out = String::new(alloc);
    for (index, op) in code.ops().iter().enumerate() {
        put_line(&mut out, code, index, *op)?;
    }
    Ok(out)
}
