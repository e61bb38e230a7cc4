//! The entries of a document, read one after another from its text.

ghost use Rattle.std.specs.Prelude.{◌≡◌, ◌<◌, ◌≤◌, ◌+◌, ◌++◌, ◌∷◌, List, [], Err, IfErr, IfOk, IsErr, None, OnOk, Some, codes, false, length, map, true};
ghost use Rattle.json.specs.Json.{items, members, value};
ghost use Rattle.json.specs.Value.{value_view};
ghost use Rattle.serde_json.specs.Data.{Data, Items, Members, no_members, put};
ghost use Rattle.serde_json.specs.Find.{get_member};
ghost use Rattle.serde_json.specs.Read.{converted, of_items, of_json, of_members, read};
ghost use Rattle.ar_value.specs.Answer.{Gives, IfRefused};
ghost use Rattle.ar_json.specs.Members.{listed, unless_null};
ghost use Rattle.ar_limits.specs.Replay.{most_events};
ghost use Rattle.ar_stream.specs.Error.{is_stream_memory};
ghost use Rattle.ar_stream.specs.Passing.{data_at};
ghost use Rattle.ar_stream.specs.declared.error.StreamError.TheVariants.{NotJson};
ghost use Rattle.ar_document.specs.Document.{is_bundle_memory};
ghost use Rattle.ar_document.specs.Entries.{entries_in, entries_of_list, entries_given, entry_view};
ghost use Rattle.ar_document.specs.Private.Measured.{AreEntries, HasRead, IfFound, IsRead, IsReadOf, listed_as, with_one};
ghost use Rattle.ar_document.specs.Private.Opened.{IsOpened, opened_view};

use crate::entries::entry_of;
use crate::error::BundleError;
use crate::opening::Opened;
use ar_bundle::EventPart;
use ar_limits::MOST_EVENTS;
use ar_stream::{Entered, StreamError, enter, enter_object, pass_value, read_borrowed};
use ar_value::holding::try_push;
use json::{Reader, Scratch, Value as Json};
use std::alloc::Global;

/// How many levels of arrays and objects the members of a document may have.
const MOST_LEVELS: usize = 126;

/// Entries, or the first fault among them.
type Entries = Result<Vec<EventPart>, BundleError>;

/// What was read of a list so far.
#[derive(Drop)]
struct Listed {
    entries: Entries,
    /// How many more items the list may have.
    left: usize,
}

/// Entries with one more, unless it is refused.
fn with_entry(
    alloc: Global,
    opened: &Opened,
    mut entries: Vec<EventPart>,
    item: &Json<'_>,
) -> Result<Entries, StreamError>
    requires { IsOpened opened.now }
    ensures exact { (made : Data) → of_json (value_view item.now) ≡ Some made
        → IfOk result (λ later. Gives (λ _. false) (λ found. map entry_view found.items) later
        (with_one (opened_view opened.now) (map entry_view entries.items) made)) }
    ensures each { AreEntries opened.now entries.items → IfOk result (λ later. IfOk later (λ found.
        AreEntries opened.now found.items × (length found.items ≡ length entries.items + 1))) }
    ensures memory { IfErr result (λ e. is_stream_memory e ≡ true) }
{
    match entry_of(alloc, opened, entries.len(), item) {
        Ok(entry) => {
            try_push(&mut entries, entry)?;
            Ok(Ok(entries))
        }
        Err(BundleError::OutOfMemory) => Err(StreamError::OutOfMemory),
        Err(fault) => Ok(Err(fault)),
    }
}

/// Entries with that of a list's next item, or its fault.
fn with_next_entry(
    alloc: Global,
    opened: &Opened,
    entries: Vec<EventPart>,
    reader: &mut Reader<'_>,
    levels: usize,
) -> Result<Entries, StreamError>
    requires { IsOpened opened.now }
    ensures read { IfOk result (λ later. IfFound (data_at levels reader.old) reader.new
        (λ made. Gives (λ _. false) (λ found. map entry_view found.items) later
        (with_one (opened_view opened.now) (map entry_view entries.items) made))) }
    ensures each { AreEntries opened.now entries.items → IfOk result (λ later. IfOk later (λ found.
        AreEntries opened.now found.items × (length found.items ≡ length entries.items + 1))) }
    ensures refused { IfRefused is_stream_memory result (λ _. data_at levels reader.old ≡ None) }
    ensures shorter { OnOk result (length reader.new < length reader.old) }
{
    let item = read_borrowed(alloc, reader, levels)?;
    with_entry(alloc, opened, entries, &item)
}

/// What was read of a list with a fault before its next item, which is passed over.
fn with_passed(
    fault: BundleError,
    left: usize,
    reader: &mut Reader<'_>,
    levels: usize,
) -> Result<Listed, StreamError>
    ensures read { IfOk result (λ later. (made : Data) × (data_at levels reader.old ≡ Some (made, reader.new))
        × (later ≡ listed_as (Err fault) left)) }
    ensures refused { IfErr result (λ error. (error ≡ NotJson) × (data_at levels reader.old ≡ None)) }
    ensures shorter { OnOk result (length reader.new < length reader.old) }
{
    pass_value(reader, levels)?;
    Ok(Listed {
        entries: Err(fault),
        left,
    })
}

impl Listed {
    /// Nothing was read yet.
    fn new(alloc: Global) -> Listed
        ensures { (opened : Opened) → HasRead opened [] result }
    {
        Listed {
            entries: Ok(Vec::new(alloc)),
            left: MOST_EVENTS as usize,
        }
    }

    /// What was read of a list with its next item. After a fault an item only counts.
    fn with_next(
        self,
        alloc: Global,
        opened: &Opened,
        reader: &mut Reader<'_>,
        levels: usize,
    ) -> Result<Listed, StreamError>
        requires { IsOpened opened.now }
        ensures read { IfOk result (λ later. IfFound (data_at levels reader.old) reader.new (λ made.
            (done : List Data) → HasRead opened.now done self → HasRead opened.now (done ++ made ∷ []) later)) }
        ensures refused { IfRefused is_stream_memory result (λ _. data_at levels reader.old ≡ None) }
        ensures after_fault { IsErr self.entries → IfErr result (λ error. error ≡ NotJson) }
        ensures shorter { OnOk result (length reader.new < length reader.old) }
    {
        if self.left == 0 {
            return with_passed(BundleError::TooManyMeasurements, 0, reader, levels);
        }
        let left = self.left - 1;
        match self.entries {
            Ok(entries) => {
                let entries = with_next_entry(alloc, opened, entries, reader, levels)?;
                Ok(Listed { entries, left })
            }
            Err(fault) => with_passed(fault, left, reader, levels),
        }
    }
}

/// The entries of the rest of a list.
fn read_list(
    alloc: Global,
    opened: &Opened,
    reader: &mut Reader<'_>,
    levels: usize,
) -> Result<Entries, StreamError>
    requires { IsOpened opened.now }
    ensures read { IfOk result (λ entries.
        IfFound (converted of_items (items (value levels) (length reader.old) reader.old)) reader.new
        (λ list. IsRead opened.now (entries_of_list (opened_view opened.now) (listed list)) entries)) }
    ensures refused { IfRefused is_stream_memory result
        (λ _. converted of_items (items (value levels) (length reader.old) reader.old) ≡ None) }
    ensures no_longer { OnOk result (length reader.new ≤ length reader.old) }
{
    let mut listed = Listed::new(alloc);
    'items: while !reader.take_end_array() {
        listed = listed.with_next(alloc, opened, reader, levels)?;
    }
    Ok(listed.entries)
}

/// The entries of a document whose `measurements` come next.
fn read_measurements(
    alloc: Global,
    opened: &Opened,
    reader: &mut Reader<'_>,
    levels: usize,
) -> Result<Entries, StreamError>
    requires { IsOpened opened.now }
    ensures read { IfOk result (λ entries. IfFound (data_at levels reader.old) reader.new
        (λ given. IsRead opened.now (entries_given (opened_view opened.now) (unless_null (Some given))) entries)) }
    ensures refused { IfRefused is_stream_memory result (λ _. data_at levels reader.old ≡ None) }
    ensures shorter { OnOk result (length reader.new < length reader.old) }
{
    match enter(reader, levels)? {
        Entered::Array => read_list(alloc, opened, reader, levels - 1),
        Entered::Null => Ok(Ok(Vec::new(alloc))),
        Entered::Other => Ok(Err(BundleError::BadEntry(0))),
    }
}

/// The entries after the member with a name, where those before it are given.
fn with_member(
    alloc: Global,
    opened: &Opened,
    name: &str,
    entries: Entries,
    reader: &mut Reader<'_>,
    levels: usize,
) -> Result<Entries, StreamError>
    requires { IsOpened opened.now }
    ensures read { IfOk result (λ later. IfFound (data_at levels reader.old) reader.new
        (λ given. (earlier : Members) → IsReadOf opened.now earlier entries
        → IsReadOf opened.now (put name.now given earlier) later)) }
    ensures refused { IfRefused is_stream_memory result (λ _. data_at levels reader.old ≡ None) }
    ensures shorter { OnOk result (length reader.new < length reader.old) }
{
    if name == "measurements" {
        return read_measurements(alloc, opened, reader, levels);
    }
    pass_value(reader, levels)?;
    Ok(entries)
}

/// The entries of the rest of a document that is an object: those of its last member `measurements`.
fn read_members(
    alloc: Global,
    opened: &Opened,
    reader: &mut Reader<'_>,
    levels: usize,
) -> Result<Entries, StreamError>
    requires { IsOpened opened.now }
    ensures read { IfOk result (λ entries. IfFound
        (converted (λ found. of_members found no_members) (members (value levels) (length reader.old) reader.old))
        reader.new (λ all. IsReadOf opened.now all entries)) }
    ensures refused { IfRefused is_stream_memory result (λ _. converted (λ found. of_members found no_members)
        (members (value levels) (length reader.old) reader.old) ≡ None) }
{
    let mut entries = Ok(Vec::new(alloc));
    'members: while let Some(name) = reader.next_key()? {
        entries = with_member(alloc, opened, name, entries, reader, levels)?;
    }
    Ok(entries)
}

/// The entries of a text that is a document.
pub(crate) fn read_entries(
    alloc: Global,
    opened: &Opened,
    text: &str,
    scratch: &mut Scratch,
) -> Result<Vec<EventPart>, BundleError>
    requires opened { IsOpened opened.now }
    requires document { (document : Data) × (read text.now ≡ Some document) }
    ensures exact { (document : Data) → read text.now ≡ Some document → Gives is_bundle_memory
        (λ entries. map entry_view entries.items) result (entries_in (opened_view opened.now) document) }
    ensures fit { IfOk result (λ entries. AreEntries opened.now entries.items × (length entries.items ≤ most_events)) }
{
    let mut reader = Reader::new(text, scratch)?;
    if !enter_object(&mut reader) {
        return Ok(Vec::new(alloc));
    }
    match read_members(alloc, opened, &mut reader, MOST_LEVELS) {
        Ok(entries) => entries,
        Err(StreamError::NotJson) => Err(BundleError::Utf8OrJson),
        Err(StreamError::OutOfMemory) => Err(BundleError::OutOfMemory),
    }
}
