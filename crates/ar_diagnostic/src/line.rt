//! Diagnostics as lines.

ghost use Rattle.std.specs.Prelude.{◌≡◌, [], ◌∷◌, ◌++◌, IfOk, OnOk, Some, map, option_map, string_bytes};
ghost use Rattle.std.specs.List.{cons_option, filter_map};
ghost use Rattle.ar_diagnostic.specs.Place.{place_text};
ghost use Rattle.ar_diagnostic.specs.Diagnostic.{after_colon, excerpt_part, found_part, parts, refusal_text_of, position_text, rule_part, spot_text, thing_part, warning_text_of, words_of};

use crate::diagnostic::{Diagnostic, Expected, Position, Spot};
use crate::place_text::push_place;
use ar_value::Text;
use std::alloc::{AllocError, Global};
use std::fmt::Write;

// ---- parts

/// A part that is a text after words.
fn part_of(alloc: Global, before: &str, text: &Text) -> Result<Option<Text>, AllocError>
    ensures { IfOk result (λ part. part ≡ Some (before.now ++ text.now)) }
{
    let mut part = before.to_string(alloc)?;
    part.push_str(text.as_str())?;
    Ok(Some(Text::from(part)))
}

fn rule_part(alloc: Global, expected: &Option<Expected>) -> Result<Option<Text>, AllocError>
    ensures { IfOk result (λ part. part ≡ rule_part expected.now) }
{
    match expected {
        Some(Expected::Rule(rule)) => part_of(alloc, "", rule),
        Some(Expected::Thing(_)) | None => Ok(None),
    }
}

fn found_part(
    alloc: Global,
    expected: &Option<Expected>,
    found: &Option<Text>,
) -> Result<Option<Text>, AllocError>
    ensures { IfOk result (λ part. part ≡ found_part expected.now found.now) }
{
    let Some(found) = found else {
        return Ok(None);
    };
    match expected {
        Some(Expected::Rule(_)) => part_of(alloc, "found ", found),
        Some(Expected::Thing(_)) | None => part_of(alloc, "", found),
    }
}

fn thing_part(alloc: Global, expected: &Option<Expected>) -> Result<Option<Text>, AllocError>
    ensures { IfOk result (λ part. part ≡ thing_part expected.now) }
{
    match expected {
        Some(Expected::Thing(thing)) => part_of(alloc, "expected ", thing),
        Some(Expected::Rule(_)) | None => Ok(None),
    }
}

fn position_part(alloc: Global, position: Option<Position>) -> Result<Option<Text>, AllocError>
    ensures { IfOk result (λ part. part ≡ option_map position_text position) }
{
    match position {
        None => Ok(None),
        Some(Position::End) => Ok(Some(Text::of(alloc, "the text ends too early")?)),
        Some(Position::At(line, column)) => {
            let text = format!(in alloc; "the fault is at line {line}, column {column}")?;
            Ok(Some(Text::from(text)))
        }
    }
}

fn excerpt_part(alloc: Global, spot: &Option<Spot>) -> Result<Option<Text>, AllocError>
    ensures { IfOk result (λ part. part ≡ excerpt_part spot.now) }
{
    let Some(spot) = spot else {
        return Ok(None);
    };
    match &spot.excerpt {
        Some(excerpt) => part_of(alloc, "in ", excerpt),
        None => Ok(None),
    }
}

fn hint_part(alloc: Global, hint: &Option<Text>) -> Result<Option<Text>, AllocError>
    ensures { IfOk result (λ part. part ≡ hint.now) }
{
    match hint {
        Some(hint) => part_of(alloc, "", hint),
        None => Ok(None),
    }
}

/// A part after others, if there is one.
fn push_part(parts: &mut Vec<String>, part: Option<Text>) -> Result<(), AllocError>
    ensures { OnOk result (map string_bytes parts.new.items
        ≡ map string_bytes parts.old.items ++ cons_option part []) }
{
    if let Some(part) = part {
        parts.push(part.into_string())?;
    }
    Ok(())
}

/// The parts that there are.
#[tactic(auto, using(crate::proofs::Parts::six_parts))]
fn parts_of(alloc: Global, it: &Diagnostic) -> Result<Vec<String>, AllocError>
    ensures { IfOk result (λ found.
        map string_bytes found.items ≡ filter_map (λ part. part) (parts it.now)) }
{
    let mut parts = Vec::new(alloc);
    push_part(&mut parts, rule_part(alloc, &it.expected)?)?;
    push_part(&mut parts, found_part(alloc, &it.expected, &it.found)?)?;
    push_part(&mut parts, thing_part(alloc, &it.expected)?)?;
    push_part(&mut parts, position_part(alloc, it.position)?)?;
    push_part(&mut parts, excerpt_part(alloc, &it.spot)?)?;
    push_part(&mut parts, hint_part(alloc, &it.hint)?)?;
    Ok(parts)
}

/// The parts that there are, each but the first after a semicolon.
fn words_of(alloc: Global, it: &Diagnostic) -> Result<String, AllocError>
    ensures { IfOk result (λ words. string_bytes words ≡ words_of it.now) }
{
    parts_of(alloc, it)?.join(alloc, "; ")
}

// ---- lines

/// A place, and the byte of its condition.
fn push_where(out: &mut String, it: &Diagnostic) -> Result<(), AllocError>
    ensures { OnOk result (string_bytes out.new
        ≡ string_bytes out.old ++ (place_text it.now.place ++ spot_text it.now.spot)) }
{
    push_place(out, &it.place)?;
    match &it.spot {
        Some(spot) => write!(out, ", byte {}", spot.offset),
        None => Ok(()),
    }
}

/// Words after a colon, if there are any.
fn push_after_colon(out: &mut String, words: &str) -> Result<(), AllocError>
    ensures { OnOk result (string_bytes out.new ≡ string_bytes out.old ++ after_colon words.now) }
{
    if words.is_empty() {
        return Ok(());
    }
    out.push_str(": ")?;
    out.push_str(words)
}

/// The line of a refusal, without a line feed.
///
/// # Errors
///
/// Out of memory alone.
#[tactic(auto, unfolding(crate::specs::Diagnostic::refusal_text_of))]
pub fn refusal_line(alloc: Global, it: &Diagnostic) -> Result<String, AllocError>
    ensures { IfOk result (λ line. string_bytes line ≡ refusal_text_of it.now) }
{
    let words = words_of(alloc, it)?;
    let mut line = String::new(alloc);
    push_where(&mut line, it)?;
    line.push_str(": ")?;
    line.push_str(it.name.as_str())?;
    push_after_colon(&mut line, words.as_str())?;
    Ok(line)
}

/// The line of a warning, without a line feed.
///
/// # Errors
///
/// Out of memory alone.
#[tactic(auto, unfolding(crate::specs::Diagnostic::warning_text_of))]
pub fn warning_line(alloc: Global, it: &Diagnostic) -> Result<String, AllocError>
    ensures { IfOk result (λ line. string_bytes line ≡ warning_text_of it.now) }
{
    let words = words_of(alloc, it)?;
    let mut line = String::new(alloc);
    push_where(&mut line, it)?;
    push_after_colon(&mut line, words.as_str())?;
    Ok(line)
}
