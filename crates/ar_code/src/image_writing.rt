//! Writing an image.

ghost use Rattle.std.specs.Prelude.{◌≡◌, ◌++◌, length, map, string_bytes, IfOk, Ok, OnOk};
ghost use Rattle.std.specs.List.{AllByRecursion, flat_map};
ghost use Rattle.ar_op.specs.Code.{InRange, IsCode, IsText};
ghost use Rattle.ar_op.specs.declared.op.Op.TheVariants.{Push};
ghost use Rattle.ar_code.specs.Decoding.{decoded};
ghost use Rattle.ar_code.specs.Image.{fields_of, groups, image, number, op_bytes, scalar_number, source_fields, string, strings, zigzag};

use crate::form::form_of;
use crate::version::version_of;
use ar_op::code::Code;
use ar_op::op::{Op, Source};
use ar_value::operator::Scalar;
use std::alloc::{AllocError, Global};

/// What an image begins with.
pub(crate) const MAGIC: [u8; 4] = *b"ARCV";

/// How many bytes at most come after the first of a number.
const MORE_NUMBER_BYTES: usize = 9;

/// Seven bits a byte, the lowest first, in at most `more` bytes after the first.
#[tactic(auto, using(crate::proofs::Joins::one_more, crate::proofs::Joins::more_groups))]
fn put_groups(out: &mut Vec<u8>, more: usize, n: u64) -> Result<(), AllocError>
    ensures { OnOk result (out.new.items ≡ out.old.items ++ groups more n) }
{
    if more == 0 {
        return Ok(out.push((n % 128) as u8)?);
    }
    if n < 128 {
        return Ok(out.push(n as u8)?);
    }
    out.push((128 + n % 128) as u8)?;
    put_groups(out, more - 1, n / 128)
}

fn put_number(out: &mut Vec<u8>, n: u64) -> Result<(), AllocError>
    ensures { OnOk result (out.new.items ≡ out.old.items ++ number n) }
{
    put_groups(out, MORE_NUMBER_BYTES, n)
}

/// A signed number as an unsigned one.
fn zigzag(value: i64) -> u64
    ensures { result ≡ zigzag value }
{
    if value < 0 {
        2 * (-(value + 1)) as u64 + 1
    } else {
        2 * value as u64
    }
}

#[tactic(auto, using(crate::proofs::Joins::two_parts, crate::proofs::Texts::utf8))]
fn put_string(out: &mut Vec<u8>, text: &str) -> Result<(), AllocError>
    ensures written { OnOk result (out.new.items ≡ out.old.items ++ string text.now) }
    ensures utf8 { OnOk result (IsText text.now) }
{
    put_number(out, text.len() as u64)?;
    out.extend_from_slice(text.as_bytes())?;
    Ok(())
}

fn put_strings(out: &mut Vec<u8>, texts: &[String]) -> Result<(), AllocError>
    ensures written { OnOk result (out.new.items ≡ out.old.items ++ strings (map string_bytes texts.now)) }
    ensures utf8 { OnOk result (AllByRecursion IsText (map string_bytes texts.now)) }
{
    put_number(out, texts.len() as u64)?;
    for text in texts {
        put_string(out, text)?;
    }
    Ok(())
}

fn scalar_number(scalar: Scalar) -> u8
    ensures { result ≡ scalar_number scalar }
{
    match scalar {
        Scalar::Bool => 0,
        Scalar::Whole => 1,
        Scalar::Decimal => 2,
        Scalar::Text => 3,
    }
}

#[tactic(auto, using(crate::proofs::Joins::two_parts))]
fn put_list(out: &mut Vec<u8>, scalar: Scalar, count: u8) -> Result<(), AllocError>
    ensures { OnOk result (out.new.items ≡ out.old.items ++ (number (scalar_number scalar) ++ number count)) }
{
    put_number(out, u64::from(scalar_number(scalar)))?;
    put_number(out, u64::from(count))
}

fn put_source(out: &mut Vec<u8>, source: Source) -> Result<(), AllocError>
    ensures written { OnOk result (out.new.items ≡ out.old.items ++ source_fields source) }
    ensures range { InRange (Push source) }
{
    match source {
        Source::Bool(holds) => Ok(out.push(u8::from(holds))?),
        Source::Whole(value) => put_number(out, zigzag(value)),
        Source::Decimal(millionths) => put_number(out, zigzag(millionths)),
        Source::Text(number) => put_number(out, u64::from(number)),
        Source::Nil | Source::Result | Source::Item => Ok(()),
    }
}

fn put_fields(out: &mut Vec<u8>, op: Op) -> Result<(), AllocError>
    ensures written { OnOk result (out.new.items ≡ out.old.items ++ fields_of op) }
    ensures range { InRange op }
{
    match op {
        Op::Push(source) => put_source(out, source),
        Op::MakeList { scalar, count } => put_list(out, scalar, count),
        Op::Field(number) => put_number(out, u64::from(number)),
        Op::Jump(_, index) | Op::Enter(_, index) | Op::Step(_, index) => {
            put_number(out, u64::from(index))
        }
        Op::Unary(_) | Op::Binary(_) | Op::Return => Ok(()),
    }
}

#[tactic(auto, using(crate::proofs::Joins::one_more))]
fn put_op(out: &mut Vec<u8>, op: Op) -> Result<(), AllocError>
    ensures written { OnOk result (out.new.items ≡ out.old.items ++ op_bytes op) }
    ensures range { OnOk result (InRange op) }
{
    out.push(form_of(op).code)?;
    put_fields(out, op)
}

fn put_ops(out: &mut Vec<u8>, ops: &[Op]) -> Result<(), AllocError>
    ensures written { OnOk result (out.new.items ≡ out.old.items ++ flat_map op_bytes ops.now) }
    ensures ranges { OnOk result (AllByRecursion InRange ops.now) }
{
    for op in ops {
        put_op(out, *op)?;
    }
    Ok(())
}

/// The image of code. What was written were texts in UTF-8, and numbers in their ranges.
fn image_of(alloc: Global, code: &Code) -> Result<Vec<u8>, AllocError>
    ensures image { IfOk result (λ bytes. bytes.items ≡ image code.now) }
    ensures code { IfOk result (λ _. IsCode code.now) }
    ensures texts { IfOk result (λ _. AllByRecursion IsText code.now.texts) }
    ensures names { IfOk result (λ _. AllByRecursion IsText code.now.names) }
    ensures ranges { IfOk result (λ _. AllByRecursion InRange code.now.ops) }
{
    let mut out = Vec::new(alloc);
    out.extend_from_slice(&MAGIC)?;
    out.push(version_of(code.ops()).byte())?;
    put_strings(&mut out, code.texts())?;
    put_strings(&mut out, code.names())?;
    put_number(&mut out, code.ops().len() as u64)?;
    put_ops(&mut out, code.ops())?;
    Ok(out)
}

/// The image of code.
///
/// # Errors
///
/// Out of memory, which the bytes take.
#[tactic(auto, using(crate::proofs::Again::read_again))]
pub fn encode(alloc: Global, code: &Code) -> Result<Vec<u8>, AllocError>
    ensures image { IfOk result (λ bytes. bytes.items ≡ image code.now) }

    // The image is read as the code.
    ensures read { IfOk result (λ bytes. decoded bytes.items ≡ Ok code.now) }
{
    Ok(image_of(alloc, code)?)
}
