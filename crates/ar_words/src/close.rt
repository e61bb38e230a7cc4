//! Names that are nearly the same.

ghost use Rattle.std.specs.Prelude.{◌≡◌, ◌≤◌, IfOk, length};
ghost use Rattle.std.specs.List.{find};
ghost use Rattle.serde_json.specs.View.{members_view, view};
ghost use Rattle.ar_words.specs.Close.{are_close, as_one_word, close_key, common_bytes, common_end, common_front, is_between_words, is_mostly_common, is_slip, keys_of};

use ar_value::Text;
use serde_json::{Map, Value as Json};
use std::alloc::{AllocError, Global};

/// A hyphen, an underscore, a point or a blank, as between the words of a name.
fn is_between_words(byte: u8) -> bool
    ensures { result ≡ is_between_words byte }
{
    matches!(byte, b'-' | b'_' | b'.' | b' ')
}

/// A name as one word, in lower case.
fn as_one_word(alloc: Global, name: &str) -> Result<Vec<u8>, AllocError>
    ensures { IfOk result (λ word. word.items ≡ as_one_word name.now) }
{
    let mut word = name.as_bytes().to_ascii_lowercase(alloc)?;
    word.retain(|byte| !is_between_words(*byte));
    Ok(word)
}

/// How many bytes both begin with.
fn common_front(one: &[u8], other: &[u8]) -> usize
    ensures count { result ≡ common_front one.now other.now }
    ensures inside { (result ≤ length one.now) × (result ≤ length other.now) }
{
    let mut count = 0;
    while count < one.len() && count < other.len() && one[count] == other[count] {
        count += 1;
    }
    count
}

/// How many bytes both end with.
fn common_end(one: &[u8], other: &[u8]) -> usize
    ensures count { result ≡ common_end one.now other.now }
    ensures inside { result ≤ length one.now }
{
    let (length, others) = (one.len(), other.len());
    let mut count = 0;
    while count < length && count < others && one[length - 1 - count] == other[others - 1 - count] {
        count += 1;
    }
    count
}

/// How many bytes are common at the front, and then at the end of what is left.
fn common_bytes(one: &[u8], other: &[u8]) -> usize
    ensures { result ≡ common_bytes one.now other.now }
{
    let front = common_front(one, other);
    front + common_end(&one[front..], &other[front..])
}

/// Whether at most two bytes of a name aren't common, and fewer than those that are.
fn is_mostly_common(common: usize, name: &[u8]) -> bool
    ensures { result ≡ is_mostly_common common name.now }
{
    let left = name.len().saturating_sub(common);
    left <= 2 && left < common
}

/// Whether two names are the same but for one place.
fn is_slip(one: &[u8], other: &[u8]) -> bool
    ensures { result ≡ is_slip one.now other.now }
{
    let common = common_bytes(one, other);
    is_mostly_common(common, one) && is_mostly_common(common, other)
}

/// Whether a name, which is given as one word, too, and another are close.
fn are_close(alloc: Global, word: &[u8], name: &str, other: &str) -> Result<bool, AllocError>
    ensures { IfOk result (λ close. close ≡ are_close word.now name.now other.now) }
{
    let is_same = word == as_one_word(alloc, other)?.as_slice();
    Ok(is_same || is_slip(name.as_bytes(), other.as_bytes()))
}

/// The first key that is close to a name.
#[tactic(auto, using(crate::proofs::Nearly::next_key, crate::proofs::Nearly::found_key, crate::proofs::Nearly::no_key))]
fn key_among(
    alloc: Global,
    word: &[u8],
    name: &str,
    members: &Map<String, Json>,
) -> Result<Option<Text>, AllocError>
    ensures { IfOk result (λ key. key
        ≡ find (are_close word.now name.now) (keys_of (members_view members.now.entries))) }
{
    for (key, _) in members.iter() {
        if are_close(alloc, word, name, key.as_str())? {
            return Ok(Some(Text::of(alloc, key.as_str())?));
        }
    }
    Ok(None)
}

/// The first key of an object, in byte order, that is close to a name.
pub(crate) fn close_key(alloc: Global, name: &str, json: &Json) -> Result<Option<Text>, AllocError>
    ensures { IfOk result (λ key. key ≡ close_key name.now (view json.now)) }
{
    let Json::Object(members) = json else {
        return Ok(None);
    };
    key_among(alloc, &as_one_word(alloc, name)?, name, members)
}
