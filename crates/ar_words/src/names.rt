//! How names of a document are listed.

ghost use Rattle.std.specs.Prelude.{◌≡◌, [], ◌++◌, IfOk, OnOk, codes, map, option_map};
ghost use Rattle.std.specs.List.{cons_option};
ghost use Rattle.serde_json.specs.View.{view};
ghost use Rattle.ar_words.specs.Names.{item_name, item_names, metrics_there, nothing_named, runs_there, those_there};

use crate::lists::{metrics, runs};
use ar_diagnostic::{first_listed, those_listed};
use ar_json::members::text_member;
use ar_quote::push_quoted;
use ar_value::Text;
use serde_json::Value as Json;
use std::alloc::{AllocError, Global};

fn name_of(item: &Json) -> Option<&str>
    ensures { option_map (λ name. name.now) result ≡ item_name (view item.now) }
{
    text_member(item, "name")
}

/// A name after others, if there is one.
fn push_name(alloc: Global, names: &mut Vec<Text>, name: Option<&str>) -> Result<(), AllocError>
    ensures { OnOk result (names.new.items
        ≡ names.old.items ++ cons_option (option_map (λ name. name.now) name.entry) []) }
{
    if let Some(name) = name {
        names.push(Text::of(alloc, name)?)?;
    }
    Ok(())
}

/// The names of the items that have one.
fn names_of(alloc: Global, items: &[Json]) -> Result<Vec<Text>, AllocError>
    ensures { IfOk result (λ names. names.items ≡ item_names (map (λ item. view item) items.now)) }
{
    let mut names = Vec::new(alloc);
    for item in items {
        push_name(alloc, &mut names, name_of(item))?;
    }
    Ok(names)
}

/// Those of a kind that there are.
pub(crate) fn those_there(alloc: Global, kinds: &str, items: &[Json]) -> Result<Text, AllocError>
    ensures { IfOk result (λ text. text ≡ those_there kinds.now (map (λ item. view item) items.now)) }
{
    let names = names_of(alloc, first_listed(items))?;
    those_listed(alloc, kinds, &names, items.len())
}

/// That no item of a kind has a name.
pub(crate) fn nothing_named(alloc: Global, kind: &str, name: &str) -> Result<Text, AllocError>
    ensures { IfOk result (λ text. text ≡ nothing_named kind.now name.now) }
{
    let mut text = format!(in alloc; "no {kind} has the name ")?;
    push_quoted(&mut text, name)?;
    Ok(Text::from(text))
}

/// That no metric has a name, and the metrics that there are.
pub(crate) fn no_metric_named(alloc: Global, name: &str, found: &[Json]) -> Result<Text, AllocError>
    ensures { IfOk result (λ text. text ≡ nothing_named (codes "metric") name.now
        ++ (codes "; " ++ those_there (codes "metrics") (map (λ item. view item) found.now))) }
{
    let mut text = nothing_named(alloc, "metric", name)?.into_string();
    text.push_str("; ")?;
    text.push_str(those_there(alloc, "metrics", found)?.as_str())?;
    Ok(Text::from(text))
}

/// The runs of a document.
///
/// # Errors
///
/// Out of memory alone.
pub fn runs_there(alloc: Global, document: &Json) -> Result<Text, AllocError>
    ensures { IfOk result (λ text. text ≡ runs_there (view document.now)) }
{
    those_there(alloc, "runs", runs(document).unwrap_or(&[]))
}

/// The metrics of a document.
///
/// # Errors
///
/// Out of memory alone.
pub fn metrics_there(alloc: Global, document: &Json) -> Result<Text, AllocError>
    ensures { IfOk result (λ text. text ≡ metrics_there (view document.now)) }
{
    those_there(alloc, "metrics", metrics(document).unwrap_or(&[]))
}
