//! Values that own what they hold, made of borrowed ones.

ghost use Rattle.std.specs.Prelude.{◌≡◌, false};
ghost use Rattle.json.specs.Value.{items_view as borrowed_items, members_view as borrowed_members, value_view};
ghost use Rattle.serde_json.specs.Data.{no_members};
ghost use Rattle.serde_json.specs.Read.{number_of, of_items, of_json, of_members};
ghost use Rattle.serde_json.specs.View.{items_view, members_view, number_view, view};
ghost use Rattle.ar_value.specs.Answer.{Gives, there_or};
ghost use Rattle.ar_borrowed.specs.Tree.{is_tree_memory};
ghost use Rattle.ar_borrowed.specs.declared.trees.TreeError.TheVariants.{OutOfMemory, OutOfRange};

use crate::numbers;
use json::Value as Borrowed;
use serde_json::{Map, Number, Value as Json};
use std::alloc::{AllocError, AllocFailed, Global};
use thiserror::Error;

/// Why nothing is made of a borrowed value.
#[derive(Clone, Copy, Debug, Error)]
pub enum TreeError {
    #[error("a number is out of range")]
    OutOfRange,
    #[error("out of memory")]
    OutOfMemory,
}

impl From<AllocError> for TreeError {
    ghost from_gives = { λ _ e. e ≡ OutOfMemory };

    fn from(_error: AllocError) -> TreeError {
        TreeError::OutOfMemory
    }
}

impl<T: Drop> From<AllocFailed<T>> for TreeError {
    ghost from_gives = { λ _ e. e ≡ OutOfMemory };

    fn from(_error: AllocFailed<T>) -> TreeError {
        TreeError::OutOfMemory
    }
}

/// serde_json's value of a borrowed one. Of an object's members with the same name the last one
/// stays.
///
/// # Errors
///
/// `OutOfRange` where a number is outside the range of floats; `OutOfMemory` where a growth was
/// refused.
#[cycle(tree_of)]
pub fn tree_of(alloc: Global, value: &Borrowed<'_>) -> Result<Json, TreeError>
    ensures { Gives is_tree_memory view result (there_or OutOfRange (of_json (value_view value.now))) }
{
    match value {
        Borrowed::Null => Ok(Json::Null),
        Borrowed::Bool(boolean) => Ok(Json::Bool(*boolean)),
        Borrowed::Number(text) => Ok(Json::Number(number(text)?)),
        Borrowed::String(text) => Ok(Json::String(String::from_str(alloc, text)?)),
        Borrowed::Array(items) => Ok(Json::Array(items_of(alloc, items)?)),
        Borrowed::Object(members) => Ok(Json::Object(members_of(alloc, members)?)),
    }
}

/// The number of a text. All refusals but out of memory come from here.
fn number(text: &str) -> Result<Number, TreeError>
    ensures { Gives (λ _. false) number_view result (there_or OutOfRange (number_of text.now)) }
{
    numbers::number_of(text).ok_or(TreeError::OutOfRange)
}

/// The values of an array, one after another.
#[cycle(tree_of)]
fn items_of(alloc: Global, borrowed: &[Borrowed<'_>]) -> Result<Vec<Json>, TreeError>
    ensures { Gives is_tree_memory (λ items. items_view items.items) result
        (there_or OutOfRange (of_items (borrowed_items borrowed.now))) }
{
    let mut items = Vec::with_capacity(alloc, borrowed.len())?;
    for item in borrowed {
        let item = tree_of(alloc, item)?;
        items.push(item)?;
    }
    Ok(items)
}

/// The members of an object, each put in its place after those before it.
#[cycle(tree_of)]
fn members_of(
    alloc: Global,
    borrowed: &[(&str, Borrowed<'_>)],
) -> Result<Map<String, Json>, TreeError>
    ensures { Gives is_tree_memory (λ members. members_view members.entries) result
        (there_or OutOfRange (of_members (borrowed_members borrowed.now) no_members)) }
{
    let mut members = Map::new(alloc);
    for member in borrowed {
        let name = String::from_str(alloc, member.0)?;
        let value = tree_of(alloc, &member.1)?;
        drop(members.insert(name, value)?);
    }
    Ok(members)
}
