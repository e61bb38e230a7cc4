//! Texts, numbers, shapes, values and refusals as they are printed.

ghost use Rattle.std.specs.Prelude.{◌≡◌, ◌<◌, ◌++◌, ◌==◌, [], None, IfSome, codes, false, flat_map, if◌then◌else◌, map, nat_lt, not, option_and_then, option_map, slice_get, true, unwrap_or};
ghost use Rattle.std.specs.Char.{encode_utf8};
ghost use Rattle.std.specs.Fmt.{signed_decimal};
ghost use Rattle.std.specs.Str.{chars};
ghost use Rattle.serde_json.specs.View.{view};
ghost use Rattle.ar_value.specs.Shape.{field_shapes_of, list, object, optional};
ghost use Rattle.ar_value.specs.Value as values;
ghost use Rattle.ar_value.specs.Value.{fields_from, items_of};
ghost use Rattle.ar_value.specs.View.{shape_view, value_view};
ghost use Rattle.cases_of_values.specs.Members.{is_true};
ghost use Rattle.cases_of_values.specs.Output.{Extends, Writes};
ghost use Rattle.cases_of_values.specs.Printing.{answer_text, between, code_escape, escaped, field_shapes_text, fields_text, items_text, lines_text, number_text, quoted, shape_text, boolean_text, value_text};

use crate::members;
use crate::output::Output;
use ar_value::{Fault, Indices, Number, Shape, Text, Value};
use serde_json::Value as Json;
use std::alloc::Global;
use std::fmt::{Debug, Display};

/// A text as a JSON string.
#[tactic(auto, unfolding(crate::specs::Printing::quoted))]
pub fn put_quoted(out: &mut Output, text: &str)
    ensures { Writes out.old out.new (quoted text.now) }
{
    out.put("\"");
    put_escaped(out, text);
    out.put("\"")
}

fn put_escaped(out: &mut Output, text: &str)
    ensures { Writes out.old out.new (flat_map escaped (chars text.now)) }
{
    for character in text.chars() {
        put_character(out, character);
    }
}

fn put_character(out: &mut Output, character: char)
    ensures { Writes out.old out.new (escaped character) }
{
    match character {
        '"' => out.put("\\\""),
        '\\' => out.put("\\\\"),
        '\n' => out.put("\\n"),
        '\r' => out.put("\\r"),
        '\t' => out.put("\\t"),
        _ => put_other(out, character),
    }
}

/// A character without an escape of its own.
#[tactic(auto, using(crate::proofs::Escapes::control))]
fn put_other(out: &mut Output, character: char)
    ensures { Writes out.old out.new
        (if nat_lt character 32 then code_escape character else encode_utf8 character) }
{
    if character <= '\u{1f}' {
        write!(out, "\\u00{:02x}", u32::from(character));
    } else {
        out.put_character(character);
    }
}

/// Two words with a blank between them.
pub fn put_pair(out: &mut Output, first: &str, second: &str)
    ensures { Writes out.old out.new (first.now ++ (codes " " ++ second.now)) }
{
    write!(out, "{first} {second}");
}

/// What is shown, or that there is none.
pub fn put_or_none<D: Display + Drop>(out: &mut Output, found: Option<D>)
    ensures none { found ≡ None → Writes out.old out.new (codes "none") }
    ensures some { IfSome found (λ shown. IfSome (D.output shown) (λ text. Writes out.old out.new text)) }
{
    match found {
        Some(shown) => write!(out, "{shown}"),
        None => out.put("none"),
    }
}

/// What comes before each item of a list but the first.
pub fn put_between(out: &mut Output, first: bool, separator: &str)
    ensures { Writes out.old out.new (between first separator.now) }
{
    if !first {
        out.put(separator);
    }
}

/// Lines, with ` / ` between each and the next.
#[tactic(auto, unfolding(crate::specs::Printing::lines_text))]
pub fn put_lines(out: &mut Output, lines: &str)
    ensures { Writes out.old out.new (lines_text lines.now) }
{
    let mut ended = false;
    for character in lines.chars() {
        put_line_part(out, ended, character);
        ended = character == '\n';
    }
}

/// A character of lines, after the end of a line or not.
fn put_line_part(out: &mut Output, ended: bool, character: char)
    ensures { Writes out.old out.new
        (between (not ended) (codes " / ") ++ (if character == 10 then [] else encode_utf8 character)) }
{
    put_between(out, !ended, " / ");
    if character != '\n' {
        out.put_character(character);
    }
}

pub(crate) fn put_number(out: &mut Output, number: Number)
    ensures { Writes out.old out.new (number_text number) }
{
    match number {
        Number::Whole(whole) => put_whole(out, whole),
        Number::Decimal(decimal) => write!(out, "{decimal}"),
    }
}

pub fn put_whole(out: &mut Output, whole: i64)
    ensures { Writes out.old out.new (signed_decimal whole) }
{
    write!(out, "{whole}");
}

/// A refusal by its name with its numbers, or in its own words where the case requires these. Memory ran out
/// where that is what the refusal says.
pub fn put_refusal<E: Debug + Display + Drop>(
    alloc: Global,
    case: &Json,
    out: &mut Output,
    refusal: E,
)
    ensures later { Extends out.old out.new }
    ensures words { is_true (codes "words") (view case.now) ≡ true → IfSome (E.output refusal)
        (λ words. Writes out.old out.new words) }
    ensures named { is_true (codes "words") (view case.now) ≡ false → IfSome (E.debug_output refusal)
        (λ name. Writes out.old out.new name) }
{
    match format!(in alloc; "{refusal:?}") {
        Ok(name) => put_named(alloc, case, out, name.as_str(), &refusal),
        Err(_) => out.lose(),
    }
}

/// A refusal whose name is known.
fn put_named<E: Display>(alloc: Global, case: &Json, out: &mut Output, name: &str, refusal: &E)
    ensures later { Extends out.old out.new }
    ensures words { is_true (codes "words") (view case.now) ≡ true → IfSome (E.output refusal.now)
        (λ words. Writes out.old out.new words) }
    ensures named { is_true (codes "words") (view case.now) ≡ false → Writes out.old out.new name.now }
{
    if name.contains("OutOfMemory") {
        out.lose();
    } else if members::is_true(case, "words") {
        put_words(alloc, out, refusal);
    } else {
        out.put(name);
    }
}

fn put_words<E: Display>(alloc: Global, out: &mut Output, refusal: &E)
    ensures later { Extends out.old out.new }
    ensures words { IfSome (E.output refusal.now) (λ words. Writes out.old out.new words) }
{
    match format!(in alloc; "{refusal}") {
        Ok(words) => out.put(words.as_str()),
        Err(_) => out.lose(),
    }
}

/// What a condition says of a value.
pub fn put_answer(out: &mut Output, answer: Result<bool, Fault>)
    ensures { Writes out.old out.new (answer_text answer) }
{
    match answer {
        Ok(boolean) => put_boolean(out, boolean),
        Err(fault) => put_pair(out, "fault", fault.name()),
    }
}

/// A value as JSON, but for decimals, which are written as numbers with a point.
#[cycle(put_value)]
pub(crate) fn put_value(out: &mut Output, value: &Value)
    ensures { Writes out.old out.new (value_text (value_view value.now)) }
{
    match value {
        Value::Nil => out.put("null"),
        Value::Bool(boolean) => put_boolean(out, *boolean),
        Value::Whole(whole) => put_whole(out, *whole),
        Value::Decimal(decimal) => write!(out, "{decimal}"),
        Value::Text(text) => put_quoted(out, text.as_str()),
        Value::List(values) => put_list_value(out, &values.items),
        Value::Object(fields) => {
            put_object(
                out,
                fields.names.as_slice(),
                &fields.indices,
                &fields.values,
            )
        }
    }
}

pub fn put_boolean(out: &mut Output, boolean: bool)
    ensures { Writes out.old out.new (boolean_text boolean) }
{
    if boolean {
        out.put("true")
    } else {
        out.put("false")
    }
}

#[cycle(put_value)]
fn put_list_value(out: &mut Output, items: &[Value])
    ensures { Writes out.old out.new
        (value_text (values.list (items_of (map value_view items.now)))) }
{
    out.put("[");
    put_items(out, items);
    out.put("]")
}

#[cycle(put_value)]
#[tactic(auto, using(crate::proofs::Joined::next_item, crate::proofs::Joined::no_item))]
fn put_items(out: &mut Output, items: &[Value])
    ensures { Writes out.old out.new
        (items_text true (items_of (map value_view items.now))) }
{
    let mut first = true;
    for item in items {
        put_item(out, first, item);
        first = false;
    }
}

#[cycle(put_value)]
fn put_item(out: &mut Output, first: bool, item: &Value)
    ensures { Writes out.old out.new
        (between first (codes ",") ++ value_text (value_view item.now)) }
{
    put_between(out, first, ",");
    put_value(out, item)
}

#[cycle(put_value)]
fn put_object(out: &mut Output, names: &[Text], indices: &Indices, given: &[Value])
    ensures { Writes out.old out.new
        (value_text (values.object (fields_from 0 names.now indices.now (map value_view given.now)))) }
{
    out.put("{");
    put_fields(out, names, indices, given);
    out.put("}")
}

#[cycle(put_value)]
fn put_fields(out: &mut Output, names: &[Text], indices: &Indices, given: &[Value])
    ensures { Writes out.old out.new
        (fields_text true (fields_from 0 names.now indices.now (map value_view given.now))) }
{
    let mut first = true;
    for position in 0..names.len() {
        put_field(
            out,
            first,
            names[position].as_str(),
            given,
            indices.index_of(position),
        );
        first = false;
    }
}

/// A name with its value, given at an index, or with nil.
#[cycle(put_value)]
fn put_field(out: &mut Output, first: bool, name: &str, given: &[Value], index: Option<usize>)
    ensures { Writes out.old out.new
        (between first (codes ",") ++ (quoted name.now ++ (codes ":"
        ++ value_text (unwrap_or (option_map value_view (option_and_then (slice_get given.now) index)) values.nil)))) }
{
    put_between(out, first, ",");
    put_quoted(out, name);
    out.put(":");
    put_given(out, given, index)
}

/// A value, given at an index, or nil.
#[cycle(put_value)]
#[tactic(auto, using(crate::proofs::Joined::given_there, crate::proofs::Joined::given_past, crate::proofs::Joined::none_given))]
fn put_given(out: &mut Output, given: &[Value], index: Option<usize>)
    ensures { Writes out.old out.new
        (value_text (unwrap_or (option_map value_view (option_and_then (slice_get given.now) index)) values.nil)) }
{
    match index {
        Some(index) if index < given.len() => put_value(out, &given[index]),
        _ => out.put("null"),
    }
}

/// A value, or nil where there is none.
pub(crate) fn put_found(out: &mut Output, found: Option<&Value>)
    ensures { Writes out.old out.new
        (value_text (unwrap_or (option_map (λ value. value_view value.now) found.entry) values.nil)) }
{
    match found {
        Some(value) => put_value(out, value),
        None => out.put("null"),
    }
}

/// A shape as the JSON that declares it.
#[cycle(put_shape)]
pub fn put_shape(out: &mut Output, shape: &Shape)
    ensures { Writes out.old out.new (shape_text (shape_view shape.now)) }
{
    match shape {
        Shape::Bool => out.put("\"bool\""),
        Shape::Whole => out.put("\"whole\""),
        Shape::Decimal => out.put("\"decimal\""),
        Shape::Text => out.put("\"text\""),
        Shape::List { item, max } => put_list(out, item, *max),
        Shape::Object(fields) => put_record(out, fields.names.as_slice(), &fields.shapes),
        Shape::Optional(plain) => put_optional(out, plain),
    }
}

#[cycle(put_shape)]
fn put_list(out: &mut Output, item: &Shape, max: usize)
    ensures { Writes out.old out.new
        (shape_text (list (shape_view item.now) max)) }
{
    out.put("{\"list\":");
    put_shape(out, item);
    write!(out, ",\"max\":{max}}}");
}

#[cycle(put_shape)]
fn put_optional(out: &mut Output, plain: &Shape)
    ensures { Writes out.old out.new
        (shape_text (optional (shape_view plain.now))) }
{
    out.put("{\"optional\":");
    put_shape(out, plain);
    out.put("}")
}

#[cycle(put_shape)]
fn put_record(out: &mut Output, names: &[Text], shapes: &[Shape])
    ensures { Writes out.old out.new
        (shape_text (object (field_shapes_of names.now (map shape_view shapes.now)))) }
{
    out.put("{\"record\":{");
    put_field_shapes(out, names, shapes);
    out.put("}}")
}

#[cycle(put_shape)]
#[tactic(auto, using(crate::proofs::Joined::next_field_shape, crate::proofs::Joined::no_field_shape))]
fn put_field_shapes(out: &mut Output, names: &[Text], shapes: &[Shape])
    ensures { Writes out.old out.new
        (field_shapes_text true (field_shapes_of names.now (map shape_view shapes.now))) }
{
    let mut first = true;
    for position in 0..names.len().min(shapes.len()) {
        put_field_shape(out, first, names[position].as_str(), &shapes[position]);
        first = false;
    }
}

#[cycle(put_shape)]
fn put_field_shape(out: &mut Output, first: bool, name: &str, shape: &Shape)
    ensures { Writes out.old out.new
        (between first (codes ",") ++ (quoted name.now ++ (codes ":" ++ shape_text (shape_view shape.now)))) }
{
    put_between(out, first, ",");
    put_quoted(out, name);
    out.put(":");
    put_shape(out, shape)
}
