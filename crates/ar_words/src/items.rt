//! Items of a document's lists, as places name them.

ghost use Rattle.std.specs.Prelude.{◌≡◌, IfOk, map, option_map};
ghost use Rattle.serde_json.specs.View.{view};
ghost use Rattle.ar_words.specs.Items.{named_item, metric_item, run_item};

use crate::lists::{metrics, runs, text_at};
use ar_diagnostic::{Item, copy_of};
use serde_json::Value as Json;
use std::alloc::{AllocError, Global};

/// The item of a number, with its name, if it has one.
pub(crate) fn named_item(
    alloc: Global,
    number: usize,
    items: Option<&[Json]>,
) -> Result<Item, AllocError>
    ensures { IfOk result (λ item. item
        ≡ named_item number (option_map (λ list. map (λ item. view item) list.now) items.entry)) }
{
    Ok(Item {
        number,
        name: copy_of(alloc, text_at(items, number, "name"))?,
    })
}

pub(crate) fn metric_item(alloc: Global, document: &Json, number: usize) -> Result<Item, AllocError>
    ensures { IfOk result (λ item. item ≡ metric_item (view document.now) number) }
{
    named_item(alloc, number, metrics(document))
}

pub(crate) fn run_item(alloc: Global, document: &Json, number: usize) -> Result<Item, AllocError>
    ensures { IfOk result (λ item. item ≡ run_item (view document.now) number) }
{
    named_item(alloc, number, runs(document))
}
