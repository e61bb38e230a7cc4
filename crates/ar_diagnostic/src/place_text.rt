//! Places, as lines and JSON Pointers say them.

ghost use Rattle.std.specs.Prelude.{◌≡◌, ◌++◌, IfOk, OnOk, option_map, string_bytes};
ghost use Rattle.ar_diagnostic.specs.Place.{after_blank, bound_metric_text, condition_named, entry_place_text, item_place_text, metric_pointer, place_text, pointer, pointer_character, pointer_token, shape_pointer, spec_pointer, spec_text, template_pointer, within_text};

use crate::place::{Item, MetricField, Place, SpecPart, TemplateField, Within};
use ar_quote::push_quoted;
use ar_value::Text;
use std::alloc::{AllocError, Global};
use std::fmt::Write;

// ---- in a line

/// A name after a blank, if there is one.
fn push_after_blank(out: &mut String, name: &Option<Text>) -> Result<(), AllocError>
    ensures { OnOk result (string_bytes out.new ≡ string_bytes out.old ++ after_blank name.now) }
{
    let Some(name) = name else {
        return Ok(());
    };
    out.push_str(" ")?;
    push_quoted(out, name.as_str())
}

/// An item by its kind, its number and its name.
fn push_item(out: &mut String, kind: &str, item: &Item) -> Result<(), AllocError>
    ensures { OnOk result (string_bytes out.new ≡ string_bytes out.old ++ item_place_text kind.now item.now) }
{
    write!(out, "{kind} {}", item.number)?;
    push_after_blank(out, &item.name)
}

fn spec_text(part: SpecPart) -> &'static str
    ensures { result.now ≡ spec_text part }
{
    match part {
        SpecPart::Spec => "spec",
        SpecPart::Args => "manifest: spec.args",
        SpecPart::DryRun => "manifest: spec.dryRun",
    }
}

fn within_text(within: Within) -> &'static str
    ensures { result.now ≡ within_text within }
{
    match within {
        Within::Template => "",
        Within::Manifest(_) => "manifest: ",
        Within::Shapes => "shapes: ",
    }
}

/// A condition after its metric: of any other field that is refused, the words that follow name it.
fn condition_named(field: Option<MetricField>) -> &'static str
    ensures { result.now ≡ condition_named field }
{
    match field {
        Some(MetricField::SuccessCondition) => ", successCondition",
        Some(MetricField::FailureCondition) => ", failureCondition",
        _ => "",
    }
}

/// A metric, with the arguments of a run.
fn push_bound(
    out: &mut String,
    run: &Item,
    metric: &Item,
    field: Option<MetricField>,
) -> Result<(), AllocError>
    ensures { OnOk result (string_bytes out.new
        ≡ string_bytes out.old ++ bound_metric_text run.now metric.now field) }
{
    push_item(out, "run", run)?;
    out.push_str(", ")?;
    push_item(out, "metric", metric)?;
    out.push_str(condition_named(field))
}

fn push_entry(out: &mut String, number: usize) -> Result<(), AllocError>
    ensures { OnOk result (string_bytes out.new ≡ string_bytes out.old ++ entry_place_text number) }
{
    write!(out, "measurements[{number}]")
}

pub(crate) fn push_place(out: &mut String, place: &Place) -> Result<(), AllocError>
    ensures { OnOk result (string_bytes out.new ≡ string_bytes out.old ++ place_text place.now) }
{
    match place {
        Place::CommandLine(None) => out.push_str("command line"),
        Place::CommandLine(Some(flag)) => write!(out, "command line, {}", flag.name()),
        Place::CommandNumber => out.push_str("command"),
        Place::Document => out.push_str("document"),
        Place::Member(member) => out.push_str(member.name()),
        Place::Template(_) => out.push_str("manifest"),
        Place::Spec(part) => out.push_str(spec_text(*part)),
        Place::Argument(argument) => {
            out.push_str("manifest: ")?;
            push_item(out, "argument", argument)
        }
        Place::UnnamedDryRun(_) => out.push_str("manifest: spec.dryRun"),
        Place::DryRunName(number) => write!(out, "manifest: spec.dryRun[{number}].metricName"),
        Place::Metric(within, metric) => {
            out.push_str(within_text(*within))?;
            push_item(out, "metric", metric)
        }
        Place::Run(run) => write!(out, "runs[{}]", run.number),
        Place::BoundMetric(run, metric, field) => push_bound(out, run, metric, *field),
        Place::Entry(number) => push_entry(out, *number),
        Place::EntryMember(number, part) => {
            push_entry(out, *number)?;
            write!(out, ".{}", part.name())
        }
    }
}

// ---- as a pointer

pub fn push_token_character(out: &mut String, character: char) -> Result<(), AllocError>
    ensures { OnOk result (string_bytes out.new ≡ string_bytes out.old ++ pointer_character character) }
{
    match character {
        '~' => out.push_str("~0"),
        '/' => out.push_str("~1"),
        _ => out.push(character),
    }
}

/// A name as a reference token of a JSON Pointer.
pub fn push_token(out: &mut String, name: &str) -> Result<(), AllocError>
    ensures { OnOk result (string_bytes out.new ≡ string_bytes out.old ++ pointer_token name.now) }
{
    for character in name.chars() {
        push_token_character(out, character)?;
    }
    Ok(())
}

fn template_pointer(field: TemplateField) -> &'static str
    ensures { result.now ≡ template_pointer field }
{
    match field {
        TemplateField::Version => "/manifest/apiVersion",
        TemplateField::Kind => "/manifest/kind",
        TemplateField::Name => "/manifest/metadata/name",
        TemplateField::Metrics => "/manifest/spec/metrics",
    }
}

fn spec_pointer(part: SpecPart) -> &'static str
    ensures { result.now ≡ spec_pointer part }
{
    match part {
        SpecPart::Spec => "/manifest/spec",
        SpecPart::Args => "/manifest/spec/args",
        SpecPart::DryRun => "/manifest/spec/dryRun",
    }
}

/// The pointer of a metric, or of a field of it.
fn metric_pointer(
    alloc: Global,
    number: usize,
    field: Option<MetricField>,
) -> Result<String, AllocError>
    ensures { IfOk result (λ text. string_bytes text ≡ metric_pointer number field) }
{
    match field {
        None => format!(in alloc; "/manifest/spec/metrics/{number}"),
        Some(field) => format!(in alloc; "/manifest/spec/metrics/{number}/{}", field.name()),
    }
}

/// The pointer of the shape of a metric with this name.
fn shape_pointer(alloc: Global, name: &Option<Text>) -> Result<String, AllocError>
    ensures { IfOk result (λ text. string_bytes text ≡ shape_pointer name.now) }
{
    let Some(name) = name else {
        return "/shapes".to_string(alloc);
    };
    let mut text = "/shapes/".to_string(alloc)?;
    push_token(&mut text, name.as_str())?;
    Ok(text)
}

/// The JSON Pointer of a place in the document.
pub(crate) fn pointer(alloc: Global, place: &Place) -> Result<Option<String>, AllocError>
    ensures { IfOk result (λ found. option_map string_bytes found ≡ pointer place.now) }
{
    let text = match place {
        Place::CommandLine(_) | Place::CommandNumber => return Ok(None),
        Place::Document => String::new(alloc),
        Place::Member(member) => format!(in alloc; "/{}", member.name())?,
        Place::Template(field) => template_pointer(*field).to_string(alloc)?,
        Place::Spec(part) => spec_pointer(*part).to_string(alloc)?,
        Place::Argument(argument) => {
            format!(in alloc; "/manifest/spec/args/{}", argument.number)?
        }
        Place::UnnamedDryRun(number) | Place::DryRunName(number) => {
            format!(in alloc; "/manifest/spec/dryRun/{number}/metricName")?
        }
        Place::Metric(Within::Shapes, metric) => shape_pointer(alloc, &metric.name)?,
        Place::Metric(Within::Template, metric) => metric_pointer(alloc, metric.number, None)?,
        Place::Metric(Within::Manifest(field), metric) | Place::BoundMetric(_, metric, field) => {
            metric_pointer(alloc, metric.number, *field)?
        }
        Place::Run(run) => format!(in alloc; "/runs/{}", run.number)?,
        Place::Entry(number) => format!(in alloc; "/measurements/{number}")?,
        Place::EntryMember(number, part) => {
            format!(in alloc; "/measurements/{number}/{}", part.name())?
        }
    };
    Ok(Some(text))
}
