//! What a document lacks of what `explain` was asked for.

ghost use Rattle.std.specs.Prelude.{◌≡◌, IfOk};
ghost use Rattle.serde_json.specs.View.{view};
ghost use Rattle.ar_command_line.specs.Selection.{selected};
ghost use Rattle.ar_refusal.specs.Refused.{lacking_diagnostic, lacking_event, lacking_name, measurement_count, no_item};

use ar_command::Selection;
use ar_diagnostic::{Diagnostic, Flag, Place};
use ar_json::members::{list_of, member};
use ar_quote::push_quoted;
use ar_value::Text;
use ar_words::{metrics_there, runs_there};
use serde_json::Value as Json;
use std::alloc::{AllocError, Global};

/// What the document lacks of a selection.
#[tactic(auto, unfolding(crate::specs::Refused::lacking_diagnostic))]
pub(crate) fn lacking_diagnostic(
    alloc: Global,
    selection: Selection<'_>,
    document: &Json,
) -> Result<Diagnostic, AllocError>
    ensures { IfOk result
        (λ it. it ≡ lacking_diagnostic (selected selection.entry) (view document.now)) }
{
    match selection {
        Selection::All => Diagnostic::named(alloc, Place::CommandLine(None), "NotThere"),
        Selection::Event(number) => lacking_event(alloc, number, measurement_count(document)),
        Selection::Run(name) => {
            let there = runs_there(alloc, document)?;
            lacking_name(alloc, Flag::Run, "run", name, there)
        }
        Selection::Metric(name) => {
            let there = metrics_there(alloc, document)?;
            lacking_name(alloc, Flag::Metric, "metric", name, there)
        }
    }
}

/// How many measurements a document has.
fn measurement_count(document: &Json) -> usize
    ensures { result ≡ measurement_count (view document.now) }
{
    match member(document, "measurements").and_then(list_of) {
        Some(items) => items.len(),
        None => 0,
    }
}

/// A document has no measurement of a number.
fn lacking_event(alloc: Global, number: u64, count: usize) -> Result<Diagnostic, AllocError>
    ensures { IfOk result (λ it. it ≡ lacking_event number count) }
{
    let place = Place::CommandLine(Some(Flag::Event));
    let expected = format!(in alloc; "a number below {count}")?;
    let mut it = Diagnostic::expecting(alloc, place, "NotThere", expected.as_str())?;
    it.found = Some(Text::from(format!(in alloc; "the document has no measurement {number}")?));
    Ok(it)
}

/// That a document has no item of a kind and a name.
fn no_item(alloc: Global, kind: &str, name: &str) -> Result<Text, AllocError>
    ensures { IfOk result (λ text. text ≡ no_item kind.now name.now) }
{
    let mut text = format!(in alloc; "the document has no {kind} ")?;
    push_quoted(&mut text, name)?;
    Ok(Text::from(text))
}

/// A document has no run or no metric of a name; these are there.
fn lacking_name(
    alloc: Global,
    flag: Flag,
    kind: &str,
    name: &str,
    there: Text,
) -> Result<Diagnostic, AllocError>
    ensures { IfOk result (λ it. it ≡ lacking_name flag kind.now name.now there) }
{
    let place = Place::CommandLine(Some(flag));
    let expected = "the name of one that it has";
    let mut it = Diagnostic::expecting(alloc, place, "NotThere", expected)?;
    it.found = Some(no_item(alloc, kind, name)?);
    it.hint = Some(there);
    Ok(it)
}
