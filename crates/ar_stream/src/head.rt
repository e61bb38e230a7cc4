//! Documents without what is large.

ghost use Rattle.std.specs.Prelude.{◌≡◌, ◌<◌, IfOk, IfSome, None, OnOk, Some, length};
ghost use Rattle.json.specs.Json.{members, value};
ghost use Rattle.json.specs.Lex.{tokens};
ghost use Rattle.serde_json.specs.Data.{Data, Members, no_members, put};
ghost use Rattle.serde_json.specs.Read.{converted, of_members, read};
ghost use Rattle.serde_json.specs.View.{members_view, view};
ghost use Rattle.ar_value.specs.Answer.{IfRefused};
ghost use Rattle.ar_stream.specs.Head.{IsHead, is_among};
ghost use Rattle.ar_stream.specs.Error.{is_stream_memory};
ghost use Rattle.ar_stream.specs.Passing.{BeginsNoObject, data_at};
ghost use Rattle.ar_stream.specs.Picked.{HasPicked};
ghost use Rattle.ar_stream.specs.Private.Keeping.{IsKept, Keeps, with_member};

use crate::error::StreamError;
use crate::passing::{enter_object, pass_value};
use crate::picked::read_kept;
use json::{Reader, Scratch};
use serde_json::{Map, Value as Json};
use std::alloc::{AllocError, Global};

/// How many levels of arrays and objects a document may have.
const MOST_LEVELS: usize = 127;

/// What is wanted of a document that is an object.
#[derive(Clone, Copy)]
pub(crate) struct Wanted<'a> {
    /// The names of its members.
    names: &'a [&'a str],
    /// Which items of their arrays, where not all that they have is wanted.
    picks: Option<&'a [bool]>,
}

/// Is a name one of these?
fn is_among(names: &[&str], name: &str) -> bool
    ensures { result ≡ is_among names.now name.now }
{
    names.iter().any(|one| *one == name)
}

/// Reads the member with a name, and keeps what is wanted of it.
fn read_member(
    alloc: Global,
    wanted: &Wanted<'_>,
    name: &str,
    kept: &mut Map<String, Json>,
    reader: &mut Reader<'_>,
    levels: usize,
) -> Result<(), StreamError>
    ensures read { IfOk result (λ _. (member : Data) × (data_at levels reader.old ≡ Some (member, reader.new))
        × (members_view kept.new.entries ≡ with_member wanted.now name.now member (members_view kept.old.entries))) }
    ensures refused { IfRefused is_stream_memory result (λ _. data_at levels reader.old ≡ None) }
    ensures shorter { OnOk result (length reader.new < length reader.old) }
{
    if !is_among(wanted.names, name) {
        return Ok(pass_value(reader, levels)?);
    }
    let tree = read_kept(alloc, wanted.picks, reader, levels)?;
    Ok(put(alloc, kept, name, tree)?)
}

/// Puts a member at its name, in the place of an earlier one.
fn put(
    alloc: Global,
    kept: &mut Map<String, Json>,
    name: &str,
    tree: Json,
) -> Result<(), AllocError>
    ensures { OnOk result (members_view kept.new.entries ≡ put name.now (view tree) (members_view kept.old.entries)) }
{
    kept.insert(String::from_str(alloc, name)?, tree)?;
    Ok(())
}

/// What is wanted of the members that are the rest of an object.
fn read_members(
    alloc: Global,
    wanted: &Wanted<'_>,
    reader: &mut Reader<'_>,
    levels: usize,
) -> Result<Map<String, Json>, StreamError>
    ensures read { IfOk result (λ kept. (all : Members)
        × (converted (λ found. of_members found no_members) (members (value levels) (length reader.old) reader.old)
        ≡ Some (all, reader.new)) × Keeps wanted.now (members_view kept.entries) all) }
    ensures refused { IfRefused is_stream_memory result (λ _. converted (λ found. of_members found no_members)
        (members (value levels) (length reader.old) reader.old) ≡ None) }
{
    let mut kept = Map::new(alloc);
    'members: while let Some(name) = reader.next_key()? {
        read_member(alloc, wanted, name, &mut kept, reader, levels)?;
    }
    Ok(kept)
}

/// What is wanted of a document that is an object; nothing where no object begins.
fn read_object(
    alloc: Global,
    wanted: &Wanted<'_>,
    text: &str,
    scratch: &mut Scratch,
) -> Result<Option<Json>, StreamError>
    ensures object { IfOk result (λ found. IfSome found (λ kept. IsKept wanted.now text.now (view kept))) }
    ensures other { IfOk result (λ found. found ≡ None → BeginsNoObject (tokens text.now)) }
    ensures refused { IfRefused is_stream_memory result (λ _. read text.now ≡ None) }
{
    let mut reader = Reader::new(text, scratch)?;
    if !enter_object(&mut reader) {
        return Ok(None);
    }
    let members = read_members(alloc, wanted, &mut reader, MOST_LEVELS - 1)?;
    match reader.next() {
        None => Ok(Some(Json::Object(members))),
        Some(_) => Err(StreamError::NotJson),
    }
}

/// Checks a document of which nothing is kept.
fn check_text(text: &str, scratch: &mut Scratch) -> Result<(), StreamError>
    ensures good { IfOk result (λ _. (document : Data) × (read text.now ≡ Some document)) }
    ensures refused { IfRefused is_stream_memory result (λ _. read text.now ≡ None) }
{
    let mut reader = Reader::new(text, scratch)?;
    pass_value(&mut reader, MOST_LEVELS)?;
    if reader.next().is_some() {
        return Err(StreamError::NotJson);
    }
    Ok(())
}

/// What is wanted of a document: an object, or null where the document is no object.
fn read_wanted(
    alloc: Global,
    wanted: &Wanted<'_>,
    text: &str,
    scratch: &mut Scratch,
) -> Result<Json, StreamError>
    ensures kept { IfOk result (λ kept. IsKept wanted.now text.now (view kept)) }
    ensures refused { IfRefused is_stream_memory result (λ _. read text.now ≡ None) }
{
    if let Some(kept) = read_object(alloc, wanted, text, scratch)? {
        return Ok(kept);
    }
    check_text(text, scratch)?;
    Ok(Json::Null)
}

/// The members of these names of a document: an object that has them and no others, or null where the document is no
/// object.
///
/// # Errors
///
/// `NotJson` where the text is no document.
pub fn read_head(
    alloc: Global,
    names: &[&str],
    text: &str,
    scratch: &mut Scratch,
) -> Result<Json, StreamError>
    ensures head { IfOk result (λ head. IsHead names.now text.now (view head)) }
    ensures refused { IfRefused is_stream_memory result (λ _. read text.now ≡ None) }
{
    let wanted = Wanted { names, picks: None };
    read_wanted(alloc, &wanted, text, scratch)
}

/// The member of this name of a document: an object that has it and no others, or null where the document is no object.
/// Of an array it has the items that are picked, with null in place of the others; of anything else it has null.
///
/// # Errors
///
/// `NotJson` where the text is no document.
pub fn read_picked(
    alloc: Global,
    name: &str,
    picks: &[bool],
    text: &str,
    scratch: &mut Scratch,
) -> Result<Json, StreamError>
    ensures head { IfOk result (λ kept. HasPicked name.now picks.now text.now (view kept)) }
    ensures refused { IfRefused is_stream_memory result (λ _. read text.now ≡ None) }
{
    let names = [name];
    let wanted = Wanted {
        names: &names,
        picks: Some(picks),
    };
    read_wanted(alloc, &wanted, text, scratch)
}
