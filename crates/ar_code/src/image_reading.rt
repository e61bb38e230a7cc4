//! Reading an image.

ghost use Rattle.std.specs.Prelude.{◌≡◌, ◌≤◌, false, length, map, option_map, string_bytes, IfOk, Ok};
ghost use Rattle.ar_value.specs.Answer.{Gives};
ghost use Rattle.ar_op.specs.Code.{Code as Parts, IsWritable};
ghost use Rattle.ar_code.specs.Decoding.{bit_at, decoded, entry_at, expected, fields_at, is_memory, items_at, letters_at, list_at, of_version, op_at, parts_at, scalar_at, scalar_of, so_many_ops, so_many_texts, source_at, text_at, text_of, texts_at, version_at, whole};
ghost use Rattle.ar_code.specs.Image.{image};

use crate::error::ImageError;
use crate::form::op_of;
use crate::image_writing::MAGIC;
use crate::reader::{byte_at, count_at, narrow_at, offset, signed, wide_at};
use crate::version::{Version, version_of};
use ar_op::code::Code;
use ar_op::op::{Op, Source};
use ar_value::limits::MOST_LITERAL_ITEMS;
use ar_value::operator::Scalar;
use std::alloc::Global;

fn bit_at(end: usize, bytes: &[u8]) -> Result<(bool, &[u8]), ImageError>
    requires { length bytes.now ≤ end }
    ensures exact { Gives (λ _. false) (λ read. (read.0, read.1.now)) result (bit_at end bytes.now) }
    ensures shorter { IfOk result (λ read. length read.1.now ≤ length bytes.now) }
{
    match bytes {
        [] => Err(ImageError::Truncated(end)),
        [0, rest @ ..] => Ok((false, rest)),
        [1, rest @ ..] => Ok((true, rest)),
        [_, ..] => Err(ImageError::BadNumber(offset(end, bytes))),
    }
}

fn scalar_of(number: u64) -> Option<Scalar>
    ensures { result ≡ scalar_of number }
{
    match number {
        0 => Some(Scalar::Bool),
        1 => Some(Scalar::Whole),
        2 => Some(Scalar::Decimal),
        3 => Some(Scalar::Text),
        _ => None,
    }
}

#[tactic(auto, unfolding(crate::specs::Decoding::scalar_at))]
fn scalar_at(end: usize, bytes: &[u8]) -> Result<(Scalar, &[u8]), ImageError>
    requires { length bytes.now ≤ end }
    ensures exact { Gives (λ _. false) (λ read. (read.0, read.1.now)) result (scalar_at end bytes.now) }
    ensures shorter { IfOk result (λ read. length read.1.now ≤ length bytes.now) }
{
    let (number, rest) = wide_at(end, bytes)?;
    match scalar_of(number) {
        Some(scalar) => Ok((scalar, rest)),
        None => Err(ImageError::BadNumber(offset(end, bytes))),
    }
}

/// How many items a list has.
#[tactic(auto, unfolding(crate::specs::Decoding::items_at))]
fn items_at(end: usize, bytes: &[u8]) -> Result<(u8, &[u8]), ImageError>
    requires { length bytes.now ≤ end }
    ensures exact { Gives (λ _. false) (λ read. (read.0, read.1.now)) result (items_at end bytes.now) }
    ensures shorter { IfOk result (λ read. length read.1.now ≤ length bytes.now) }
{
    let (count, rest) = wide_at(end, bytes)?;
    if count > MOST_LITERAL_ITEMS as u64 {
        return Err(ImageError::BadNumber(offset(end, bytes)));
    }
    Ok((count as u8, rest))
}

/// The number of one of `count` entries, in the operation at the offset `at`.
#[tactic(auto, unfolding(crate::specs::Decoding::entry_at))]
fn entry_at(end: usize, at: usize, count: usize, bytes: &[u8]) -> Result<(u32, &[u8]), ImageError>
    requires { length bytes.now ≤ end }
    ensures exact { Gives (λ _. false) (λ read. (read.0, read.1.now)) result (entry_at end at count bytes.now) }
    ensures shorter { IfOk result (λ read. length read.1.now ≤ length bytes.now) }
{
    let (number, rest) = narrow_at(end, bytes)?;
    if number as usize >= count {
        return Err(ImageError::BadText(at));
    }
    Ok((number, rest))
}

/// How many texts and names there are.
#[derive(Clone, Copy)]
struct Tables {
    texts: usize,
    names: usize,
}

/// A source with the field that comes after its code.
#[tactic(auto, unfolding(crate::specs::Decoding::source_at))]
fn source_at(
    end: usize,
    at: usize,
    texts: usize,
    source: Source,
    bytes: &[u8],
) -> Result<(Source, &[u8]), ImageError>
    requires { length bytes.now ≤ end }
    ensures exact { Gives (λ _. false) (λ read. (read.0, read.1.now)) result
        (source_at end at texts source bytes.now) }
    ensures shorter { IfOk result (λ read. length read.1.now ≤ length bytes.now) }
{
    match source {
        Source::Bool(_) => {
            let (holds, rest) = bit_at(end, bytes)?;
            Ok((Source::Bool(holds), rest))
        }
        Source::Whole(_) => {
            let (number, rest) = wide_at(end, bytes)?;
            Ok((Source::Whole(signed(number)), rest))
        }
        Source::Decimal(_) => {
            let (number, rest) = wide_at(end, bytes)?;
            Ok((Source::Decimal(signed(number)), rest))
        }
        Source::Text(_) => {
            let (number, rest) = entry_at(end, at, texts, bytes)?;
            Ok((Source::Text(number), rest))
        }
        Source::Nil | Source::Result | Source::Item => Ok((source, bytes)),
    }
}

#[tactic(auto, unfolding(crate::specs::Decoding::list_at))]
fn list_at(end: usize, bytes: &[u8]) -> Result<(Op, &[u8]), ImageError>
    requires { length bytes.now ≤ end }
    ensures exact { Gives (λ _. false) (λ read. (read.0, read.1.now)) result (list_at end bytes.now) }
    ensures shorter { IfOk result (λ read. length read.1.now ≤ length bytes.now) }
{
    let (scalar, rest) = scalar_at(end, bytes)?;
    let (count, rest) = items_at(end, rest)?;
    Ok((Op::MakeList { scalar, count }, rest))
}

/// An operation with the fields that come after its code.
#[tactic(auto, unfolding(crate::specs::Decoding::fields_at))]
fn fields_at(
    end: usize,
    at: usize,
    tables: Tables,
    op: Op,
    bytes: &[u8],
) -> Result<(Op, &[u8]), ImageError>
    requires { length bytes.now ≤ end }
    ensures exact { Gives (λ _. false) (λ read. (read.0, read.1.now)) result
        (fields_at end at tables.texts tables.names op bytes.now) }
    ensures shorter { IfOk result (λ read. length read.1.now ≤ length bytes.now) }
{
    match op {
        Op::Push(source) => {
            let (source, rest) = source_at(end, at, tables.texts, source, bytes)?;
            Ok((Op::Push(source), rest))
        }
        Op::MakeList { .. } => list_at(end, bytes),
        Op::Field(_) => {
            let (number, rest) = entry_at(end, at, tables.names, bytes)?;
            Ok((Op::Field(number), rest))
        }
        Op::Jump(jump, _) => {
            let (index, rest) = narrow_at(end, bytes)?;
            Ok((Op::Jump(jump, index), rest))
        }
        Op::Enter(predicate, _) => {
            let (step, rest) = narrow_at(end, bytes)?;
            Ok((Op::Enter(predicate, step), rest))
        }
        Op::Step(predicate, _) => {
            let (enter, rest) = narrow_at(end, bytes)?;
            Ok((Op::Step(predicate, enter), rest))
        }
        Op::Unary(_) | Op::Binary(_) | Op::Return => Ok((op, bytes)),
    }
}

/// An operation, its code and its fields.
#[tactic(auto, unfolding(crate::specs::Decoding::op_at))]
fn op_at(
    end: usize,
    version: Version,
    tables: Tables,
    bytes: &[u8],
) -> Result<(Op, &[u8]), ImageError>
    requires { length bytes.now ≤ end }
    ensures exact { Gives (λ _. false) (λ read. (read.0, read.1.now)) result
        (op_at end version tables.texts tables.names bytes.now) }
    ensures shorter { IfOk result (λ read. length read.1.now ≤ length bytes.now) }
{
    let at = offset(end, bytes);
    let (code, rest) = byte_at(end, bytes)?;
    match op_of(version, code) {
        Some(op) => fields_at(end, at, tables, op, rest),
        None => Err(ImageError::UnknownOp(at)),
    }
}

/// `count` operations.
fn ops_at(
    alloc: Global,
    end: usize,
    version: Version,
    tables: Tables,
    count: usize,
    bytes: &[u8],
) -> Result<(Vec<Op>, &[u8]), ImageError>
    requires { length bytes.now ≤ end }
    ensures exact { Gives is_memory (λ read. (read.0.items, read.1.now)) result
        (so_many_ops end version tables.texts tables.names count bytes.now) }
    ensures shorter { IfOk result (λ read. length read.1.now ≤ length bytes.now) }
{
    let mut ops = Vec::new(alloc);
    let mut rest = bytes;
    for _ in 0..count {
        let (op, after) = op_at(end, version, tables, rest)?;
        ops.push(op)?;
        rest = after;
    }
    Ok((ops, rest))
}

/// A text, its length and its bytes.
#[tactic(auto, using(crate::proofs::Freely::gives_freely), unfolding(crate::specs::Decoding::text_at))]
fn text_at(alloc: Global, end: usize, bytes: &[u8]) -> Result<(String, &[u8]), ImageError>
    requires { length bytes.now ≤ end }
    ensures exact { Gives is_memory (λ read. (string_bytes read.0, read.1.now)) result (text_at end bytes.now) }
    ensures shorter { IfOk result (λ read. length read.1.now ≤ length bytes.now) }
{
    let (len, rest) = count_at(end, bytes)?;
    let (letters, after) = letters_at(end, len, rest)?;
    Ok((String::from_str(alloc, letters)?, after))
}

/// `len` bytes, which have to be UTF-8.
fn letters_at(end: usize, len: usize, bytes: &[u8]) -> Result<(&str, &[u8]), ImageError>
    requires { length bytes.now ≤ end }
    ensures exact { Gives (λ _. false) (λ read. (read.0.now, read.1.now)) result (letters_at end len bytes.now) }
    ensures shorter { IfOk result (λ read. length read.1.now ≤ length bytes.now) }
{
    if bytes.len() < len {
        return Err(ImageError::Truncated(end));
    }
    let (letters, rest) = bytes.split_at(len);
    match as_text(letters) {
        Some(letters) => Ok((letters, rest)),
        None => Err(ImageError::BadText(offset(end, bytes))),
    }
}

/// The text that bytes are in UTF-8.
#[tactic(auto, using(crate::proofs::Texts::utf8, crate::proofs::Texts::no_utf8))]
fn as_text(bytes: &[u8]) -> Option<&str>
    ensures { option_map (λ text. text.now) result ≡ text_of bytes.now }
{
    match std::str::from_utf8(bytes) {
        Ok(text) => Some(text),
        Err(_) => None,
    }
}

/// `count` texts.
fn so_many_texts(
    alloc: Global,
    end: usize,
    count: usize,
    bytes: &[u8],
) -> Result<(Vec<String>, &[u8]), ImageError>
    requires { length bytes.now ≤ end }
    ensures exact { Gives is_memory (λ read. (map string_bytes read.0.items, read.1.now)) result
        (so_many_texts end count bytes.now) }
    ensures shorter { IfOk result (λ read. length read.1.now ≤ length bytes.now) }
{
    let mut texts = Vec::new(alloc);
    let mut rest = bytes;
    for _ in 0..count {
        let (text, after) = text_at(alloc, end, rest)?;
        texts.push(text)?;
        rest = after;
    }
    Ok((texts, rest))
}

/// A table of texts: how many, and each.
#[tactic(auto, using(crate::proofs::Freely::gives_freely), unfolding(crate::specs::Decoding::texts_at))]
fn texts_at(alloc: Global, end: usize, bytes: &[u8]) -> Result<(Vec<String>, &[u8]), ImageError>
    requires { length bytes.now ≤ end }
    ensures exact { Gives is_memory (λ read. (map string_bytes read.0.items, read.1.now)) result
        (texts_at end bytes.now) }
    ensures shorter { IfOk result (λ read. length read.1.now ≤ length bytes.now) }
{
    let (count, rest) = count_at(end, bytes)?;
    so_many_texts(alloc, end, count, rest)
}

/// Bytes that are required there, one by one.
fn expected<'b>(
    end: usize,
    wanted: &[u8],
    error: ImageError,
    bytes: &'b [u8],
) -> Result<&'b [u8], ImageError>
    ensures exact { Gives (λ _. false) (λ rest. rest.now) result (expected end error wanted.now bytes.now) }
    ensures shorter { IfOk result (λ rest. length rest.now ≤ length bytes.now) }
{
    let [first, others @ ..] = wanted else {
        return Ok(bytes);
    };
    let (byte, rest) = byte_at(end, bytes)?;
    if byte == *first {
        expected(end, others, error, rest)
    } else {
        Err(error)
    }
}

/// The version that the byte in front names.
#[tactic(auto, unfolding(crate::specs::Decoding::version_at))]
fn version_at(end: usize, bytes: &[u8]) -> Result<(Version, &[u8]), ImageError>
    ensures exact { Gives (λ _. false) (λ read. (read.0, read.1.now)) result (version_at end bytes.now) }
    ensures shorter { IfOk result (λ read. length read.1.now ≤ length bytes.now) }
{
    let (byte, rest) = byte_at(end, bytes)?;
    match Version::named(byte) {
        Some(version) => Ok((version, rest)),
        None => Err(ImageError::BadVersion),
    }
}

/// Texts, names and operations.
#[tactic(auto, using(crate::proofs::Freely::gives_freely), unfolding(crate::specs::Decoding::parts_at))]
fn parts_at(
    alloc: Global,
    end: usize,
    version: Version,
    bytes: &[u8],
) -> Result<(Code, &[u8]), ImageError>
    requires { length bytes.now ≤ end }
    ensures exact { Gives is_memory (λ read. (read.0, read.1.now)) result (parts_at end version bytes.now) }
    ensures shorter { IfOk result (λ read. length read.1.now ≤ length bytes.now) }
{
    let (texts, rest) = texts_at(alloc, end, bytes)?;
    let (names, rest) = texts_at(alloc, end, rest)?;
    let (count, rest) = count_at(end, rest)?;
    let tables = Tables {
        texts: texts.len(),
        names: names.len(),
    };
    let (ops, rest) = ops_at(alloc, end, version, tables, count, rest)?;
    Ok((Code::of_parts(ops, texts, names), rest))
}

/// The code whose image the bytes are: that of `encode`, which writes one image for each code.
///
/// # Errors
///
/// The first fault from left to right, with its offset.
pub fn decode(alloc: Global, bytes: &[u8]) -> Result<Code, ImageError>
    // This code, or this fault.
    ensures exact { Gives is_memory (λ code. code) result (decoded bytes.now) }

    // What is accepted is the image of what was read.
    ensures image { IfOk result (λ code. bytes.now ≡ image code) }

    // The image of code is read as that code.
    ensures only { (code : Parts) → IsWritable code → bytes.now ≡ image code
        → Gives is_memory (λ read. read) result (Ok code) }
{
    whole_code(alloc, bytes)
}

/// The version that an image names has to be that of its code.
fn of_version(version: Version, code: &Code) -> Result<(), ImageError>
    ensures { Gives (λ _. false) (λ done. done) result (of_version version code.now) }
{
    if version.byte() == version_of(code.ops()).byte() {
        Ok(())
    } else {
        Err(ImageError::BadVersion)
    }
}

/// No bytes may be left.
fn whole(end: usize, code: Code, rest: &[u8]) -> Result<Code, ImageError>
    requires { length rest.now ≤ end }
    ensures { Gives (λ _. false) (λ code. code) result (whole end (code, rest.now)) }
{
    if rest.is_empty() {
        Ok(code)
    } else {
        Err(ImageError::Trailing(offset(end, rest)))
    }
}

#[tactic(auto, using(crate::proofs::Freely::gives_freely), unfolding(crate::specs::Decoding::decoded))]
fn whole_code(alloc: Global, bytes: &[u8]) -> Result<Code, ImageError>
    ensures { Gives is_memory (λ code. code) result (decoded bytes.now) }
{
    let end = bytes.len();
    let rest = expected(end, &MAGIC, ImageError::BadMagic, bytes)?;
    let (version, rest) = version_at(end, rest)?;
    let (code, rest) = parts_at(alloc, end, version, rest)?;
    of_version(version, &code)?;
    whole(end, code, rest)
}
