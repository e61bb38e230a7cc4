//! Values as they are shown to a person.

ghost use Rattle.std.specs.Prelude.{◌≡◌, ◌++◌, OnOk, codes, length, map, option_map, string_bytes, true, unwrap_or};
ghost use Rattle.std.specs.Str.{chars};
ghost use Rattle.ar_value.specs.Value as values;
ghost use Rattle.ar_value.specs.Value.{fields_from, items_of};
ghost use Rattle.ar_value.specs.View.{fields_view, value_view};
ghost use Rattle.ar_machine.specs.Operand.{list_values, operand_value, value_of};
ghost use Rattle.ar_quote.specs.Shown.{quoted};
ghost use Rattle.ar_show.specs.Values.{most_fields, most_shown_items, shown_fields, shown_items, shown_text, shown_value, shown_within};
ghost use Rattle.ar_show.specs.Words.{between};

use crate::words::{plural, push_between, push_boolean, push_left_out};
use ar_machine::operand::OperandRef;
use ar_machine::operand::borrowed::{ValueRef, value_ref};
use ar_machine::operand::list::ListRef;
use ar_quote::push_quoted;
use ar_value::value::value_at;
use ar_value::{Decimal, Fields, Indices, Text, Value};
use std::alloc::AllocError;
use std::fmt::Write;

/// How many characters of a text are shown.
const MOST_CHARACTERS: usize = 64;
/// How many items of a list are shown.
const MOST_ITEMS: usize = 3;
/// How many fields of a record are shown.
const MOST_FIELDS: usize = 8;
/// How many lists and records are shown within one another.
const MOST_LEVELS: usize = 3;

fn character_count(text: &str) -> usize
    ensures { result ≡ length (chars text.now) }
{
    text.chars().count()
}

/// A text with the number of its characters that are left out.
#[tactic(auto, unfolding(crate::specs::Values::shown_text))]
fn push_text(out: &mut String, text: &str) -> Result<(), AllocError>
    ensures { OnOk result (string_bytes out.new ≡ string_bytes out.old ++ shown_text text.now) }
{
    push_quoted(out, text)?;
    push_left_out(
        out,
        "character",
        character_count(text).saturating_sub(MOST_CHARACTERS),
    )
}

/// A value, with at most `levels` lists and records shown within one another; those below are counted.
#[cycle(push_within)]
fn push_within(out: &mut String, value: ValueRef<'_>, levels: usize) -> Result<(), AllocError>
    ensures { OnOk result (string_bytes out.new ≡ string_bytes out.old
        ++ shown_within levels (value_of value.entry)) }
{
    match value {
        ValueRef::Nil => out.push_str("nil"),
        ValueRef::Bool(boolean) => push_boolean(out, boolean),
        ValueRef::Whole(whole) => write!(out, "{whole}"),
        ValueRef::Decimal(millionths) => write!(out, "{}", Decimal::from_millionths(millionths)),
        ValueRef::Text(text) => push_text(out, text),
        ValueRef::List(items) => push_list(out, ListRef::Borrowed(items), levels),
        ValueRef::Object(fields) => push_record(out, fields, levels),
    }
}

#[cycle(push_within)]
fn push_list(out: &mut String, list: ListRef<'_, '_>, levels: usize) -> Result<(), AllocError>
    ensures { OnOk result (string_bytes out.new ≡ string_bytes out.old
        ++ shown_within levels (values.list (items_of (list_values list.entry)))) }
{
    if levels == 0 {
        let number = list.len();
        return write!(out, "[{number} item{}]", plural(number));
    }
    out.push_str("[")?;
    push_items(out, list, levels - 1)?;
    out.push_str("]")
}

/// The first items of a list.
#[cycle(push_within)]
#[tactic(auto, using(crate::proofs::Shortened::next_item, crate::proofs::Shortened::no_item))]
fn push_items(out: &mut String, list: ListRef<'_, '_>, levels: usize) -> Result<(), AllocError>
    ensures { OnOk result (string_bytes out.new ≡ string_bytes out.old
        ++ shown_items levels most_shown_items true (items_of (list_values list.entry))) }
{
    let mut first = true;
    for index in 0..list.len().min(MOST_ITEMS) {
        push_between(out, first)?;
        push_within(out, list.item(index), levels)?;
        first = false;
    }
    push_left_out(out, "item", list.len().saturating_sub(MOST_ITEMS))
}

#[cycle(push_within)]
fn push_record(out: &mut String, fields: &Fields, levels: usize) -> Result<(), AllocError>
    ensures { OnOk result (string_bytes out.new ≡ string_bytes out.old
        ++ shown_within levels (values.object (fields_view fields.now))) }
{
    let names = fields.names.as_slice();
    if levels == 0 {
        let number = names.len();
        return write!(out, "{{{number} field{}}}", plural(number));
    }
    out.push_str("{")?;
    push_fields(out, names, &fields.indices, &fields.values, levels - 1)?;
    out.push_str("}")
}

/// The first fields of a record.
#[cycle(push_within)]
#[tactic(auto, using(crate::proofs::Shortened::next_field, crate::proofs::Shortened::no_field))]
fn push_fields(
    out: &mut String,
    names: &[Text],
    indices: &Indices,
    given: &[Value],
    levels: usize,
) -> Result<(), AllocError>
    ensures { OnOk result (string_bytes out.new ≡ string_bytes out.old
        ++ shown_fields levels most_fields true (fields_from 0 names.now indices.now (map value_view given.now))) }
{
    let mut first = true;
    for index in 0..names.len().min(MOST_FIELDS) {
        push_between(out, first)?;
        push_field(
            out,
            names[index].as_str(),
            value_at(indices, given, index),
            levels,
        )?;
        first = false;
    }
    push_left_out(out, "field", names.len().saturating_sub(MOST_FIELDS))
}

/// A name with its value, or with nil where there is none.
#[cycle(push_within)]
fn push_field(
    out: &mut String,
    name: &str,
    value: Option<&Value>,
    levels: usize,
) -> Result<(), AllocError>
    ensures { OnOk result (string_bytes out.new ≡ string_bytes out.old ++ (quoted name.now ++ (codes ": "
        ++ shown_within levels (unwrap_or (option_map (λ value. value_view value.now) value.entry) values.nil)))) }
{
    push_quoted(out, name)?;
    out.push_str(": ")?;
    push_found(out, value, levels)
}

/// A value, or nil where there is none.
#[cycle(push_within)]
fn push_found(out: &mut String, value: Option<&Value>, levels: usize) -> Result<(), AllocError>
    ensures { OnOk result (string_bytes out.new ≡ string_bytes out.old
        ++ shown_within levels (unwrap_or (option_map (λ value. value_view value.now) value.entry) values.nil)) }
{
    match value {
        Some(value) => push_within(out, value_ref(value), levels),
        None => out.push_str("nil"),
    }
}

/// A value in the words of conditions, shortened.
#[tactic(auto, unfolding(crate::specs::Values::shown_value))]
pub fn push_value(out: &mut String, value: OperandRef<'_, '_>) -> Result<(), AllocError>
    ensures { OnOk result (string_bytes out.new ≡ string_bytes out.old
        ++ shown_value (operand_value value.entry)) }
{
    match value {
        OperandRef::Borrowed(value) => push_within(out, value, MOST_LEVELS),
        OperandRef::Made(items) => push_list(out, ListRef::Made(items), MOST_LEVELS),
    }
}
