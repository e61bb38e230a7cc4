//! Runs as a document writes them.

ghost use Rattle.std.specs.Prelude.{◌≡◌, ◌≤◌, ◌++◌, ◌∷◌, ℕ, List, [], IfOk, OnOk, false, is_none, length, map, option_map};
ghost use Rattle.std.specs.Hash.DefaultHasher.{initial};
ghost use Rattle.serde_json.specs.View.{members_view, view};
ghost use Rattle.ar_value.specs.Answer.{Gives, each_after, holds_or};
ghost use Rattle.ar_value.specs.Limits.{most_runs};
ghost use Rattle.ar_document.specs.Document.{is_bundle_memory};
ghost use Rattle.ar_document.specs.Opening.{are_new, names_of, index_of_name, own_arguments, run_items, run_of, runs_in, texts_by_name};
ghost use Rattle.ar_document.specs.Private.Naming.{AreNumbers, fed_members, with_argument_text};
ghost use Rattle.ar_document.specs.declared.error.BundleError.TheVariants.{DoubleRun};

use crate::error::BundleError;
use crate::names::{Numbers, add_name};
use ar_json::members::list_of;
use ar_manifest::{Args, NamesHasher};
use ar_value::holding::{try_push, zip_ok};
use ar_value::limits::MOST_RUNS;
use ar_value::text::Text;
use serde_json::{Map, Value as Json};
use std::alloc::Global;

/// A run as a document writes it.
#[derive(Drop)]
pub struct Run {
    pub name: Text,
    /// Its own arguments, which take precedence over the template's.
    pub own: Args,
}

/// Adds a text by its name.
fn add_text(alloc: Global, own: &mut Args, name: &str, json: &Json) -> Result<(), BundleError>
    ensures { Gives is_bundle_memory (λ _. own.new) result (with_argument_text own.old name.now (view json.now)) }
{
    let Json::String(text) = json else {
        return Err(BundleError::Runs);
    };
    let text = Text::of(alloc, text)?;
    Ok(own.insert(alloc, name, text)?)
}

/// What will hash the names of members.
fn names_hasher(members: &Map<String, Json>) -> NamesHasher
    ensures { result ≡ fed_members initial (members_view members.now.entries) }
{
    let mut hasher = NamesHasher::new();
    for (name, _) in members.iter() {
        hasher.feed(name.as_str());
    }
    hasher
}

/// Texts by name.
fn texts_by_name(alloc: Global, members: &Map<String, Json>) -> Result<Args, BundleError>
    ensures { Gives is_bundle_memory (λ own. own) result (texts_by_name [] (members_view members.now.entries)) }
{
    let mut own = Args::with_hasher(alloc, names_hasher(members));
    for (name, json) in members.iter() {
        add_text(alloc, &mut own, name.as_str(), json)?;
    }
    Ok(own)
}

/// A run's own arguments, at its `args`, which may be missing or null.
///
/// # Errors
///
/// `Runs` where they are no texts by name; `OutOfMemory` where a growth was refused.
pub fn own_arguments(alloc: Global, found: Option<&Json>) -> Result<Args, BundleError>
    ensures { Gives is_bundle_memory (λ own. own) result
        (own_arguments (option_map (λ json. view json.now) found.entry)) }
{
    match found {
        None | Some(Json::Null) => Ok(Args::new(alloc)),
        Some(Json::Object(members)) => texts_by_name(alloc, members),
        Some(_) => Err(BundleError::Runs),
    }
}

fn run_of(alloc: Global, item: &Json) -> Result<Run, BundleError>
    ensures { Gives is_bundle_memory (λ run. run) result (run_of (view item.now)) }
{
    let Some(name) = item.get("name").and_then(Json::as_str) else {
        return Err(BundleError::Runs);
    };
    let own = own_arguments(alloc, item.get("args"))?;
    let (own, name) = zip_ok(own, Text::of(alloc, name))?;
    Ok(Run { name, own })
}

/// The items of `runs`, 1 to 64 of them.
#[tactic(auto, using(crate::proofs::Counting::many_runs, crate::proofs::Counting::some_runs))]
fn run_items(document: &Json) -> Result<&[Json], BundleError>
    ensures exact { Gives (λ _. false) (λ items. map (λ json. view json) items.now) result
        (run_items (view document.now)) }
    ensures few { IfOk result (λ items. length items.now ≤ most_runs) }
{
    let items = document
        .get("runs")
        .and_then(list_of)
        .ok_or(BundleError::Runs)?;
    if items.is_empty() || items.len() > MOST_RUNS {
        return Err(BundleError::Runs);
    }
    Ok(items)
}

/// The runs of a document, whose names may still be the same.
fn runs_of(alloc: Global, items: &[Json]) -> Result<Vec<Run>, BundleError>
    ensures exact { Gives is_bundle_memory (λ runs. runs.items) result
        (each_after (λ earlier. run_of) [] (map (λ json. view json) items.now)) }
    ensures each { IfOk result (λ runs. length runs.items ≡ length items.now) }
{
    let mut runs = Vec::with_capacity(alloc, items.len())?;
    for item in items {
        let made = run_of(alloc, item)?;
        try_push(&mut runs, made)?;
    }
    Ok(runs)
}

/// Gives a run's name the next number.
fn add_run(
    alloc: Global,
    numbers: &mut Numbers,
    run: &Run,
    number: usize,
) -> Result<(), BundleError>
    ensures new { (names : List (List ℕ)) → AreNumbers names numbers.old → length names ≡ number
        → Gives is_bundle_memory (λ _. tt) result
        (holds_or (DoubleRun number) (is_none (index_of_name run.now.name names))) }
    ensures numbers { (names : List (List ℕ)) → AreNumbers names numbers.old → length names ≡ number
        → OnOk result (AreNumbers (names ++ run.now.name ∷ []) numbers.new) }
{
    if add_name(alloc, numbers, run.name.as_str(), number)? {
        Ok(())
    } else {
        Err(BundleError::DoubleRun(number))
    }
}

/// The numbers of runs by their names, each of which is new.
fn numbers_of(alloc: Global, runs: &[Run]) -> Result<Numbers, BundleError>
    ensures new { Gives is_bundle_memory (λ _. tt) result (are_new [] (names_of runs.now)) }
    ensures numbers { IfOk result (AreNumbers (names_of runs.now)) }
{
    let mut numbers = Numbers::new(alloc);
    for (number, run) in runs.iter().enumerate() {
        add_run(alloc, &mut numbers, run, number)?;
    }
    Ok(numbers)
}

/// The runs of a document, each of a name of its own, and their numbers by these.
pub(crate) fn read_runs(alloc: Global, document: &Json) -> Result<(Vec<Run>, Numbers), BundleError>
    ensures exact { Gives is_bundle_memory (λ read. read.0.items) result (runs_in (view document.now)) }
    ensures few { IfOk result (λ read. length read.0.items ≤ most_runs) }
    ensures numbers { IfOk result (λ read. AreNumbers (names_of read.0.items) read.1) }
{
    let items = run_items(document)?;
    let runs = runs_of(alloc, items)?;
    let numbers = numbers_of(alloc, &runs);
    zip_ok(runs, numbers)
}
