//! Lists of a document, whose items have names.

ghost use Rattle.std.specs.Prelude.{◌≡◌, map, option_map};
ghost use Rattle.serde_json.specs.View.{view};
ghost use Rattle.ar_words.specs.Lists.{entry_text, list_item, list_in, metrics, runs, template_list, text_at};

use ar_json::members::{list_of, member, member_of_member, text_member};
use serde_json::Value as Json;

/// A list of an object.
pub(crate) fn list_in<'a>(json: &'a Json, name: &str) -> Option<&'a [Json]>
    ensures { option_map (λ list. map (λ item. view item) list.now) result ≡ list_in name.now (view json.now) }
{
    list_of(member(json, name)?)
}

/// A list of the template.
pub(crate) fn template_list<'a>(document: &'a Json, name: &str) -> Option<&'a [Json]>
    ensures { option_map (λ list. map (λ item. view item) list.now) result
        ≡ template_list name.now (view document.now) }
{
    list_in(member_of_member(document, "manifest", "spec")?, name)
}

pub(crate) fn metrics(document: &Json) -> Option<&[Json]>
    ensures { option_map (λ list. map (λ item. view item) list.now) result ≡ metrics (view document.now) }
{
    template_list(document, "metrics")
}

pub(crate) fn runs(document: &Json) -> Option<&[Json]>
    ensures { option_map (λ list. map (λ item. view item) list.now) result ≡ runs (view document.now) }
{
    list_in(document, "runs")
}

pub(crate) fn item_at(items: Option<&[Json]>, number: usize) -> Option<&Json>
    ensures { option_map (λ item. view item.now) result
        ≡ list_item number (option_map (λ list. map (λ item. view item) list.now) items.entry) }
{
    items?.get(number)
}

/// A text of an item of a list.
pub(crate) fn text_at<'a>(items: Option<&'a [Json]>, number: usize, name: &str) -> Option<&'a str>
    ensures { option_map (λ text. text.now) result
        ≡ text_at name.now number (option_map (λ list. map (λ item. view item) list.now) items.entry) }
{
    text_member(item_at(items, number)?, name)
}

/// The text that an entry has by a name.
pub(crate) fn entry_text<'a>(document: &'a Json, entry: usize, name: &str) -> Option<&'a str>
    ensures { option_map (λ text. text.now) result ≡ entry_text name.now entry (view document.now) }
{
    text_at(list_in(document, "measurements"), entry, name)
}
