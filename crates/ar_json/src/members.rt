//! Looking into a JSON document.

ghost use Rattle.std.specs.Prelude.{◌≡◌, false, map, option_map};
ghost use Rattle.serde_json.specs.View.{view};
ghost use Rattle.ar_value.specs.Answer.{Gives};
ghost use Rattle.ar_json.specs.Members.{list_of, member, member_of_member, text_member, text_or};

use serde_json::Value as Json;

/// The member of an object, where it is there and not null.
pub fn member<'a>(json: &'a Json, name: &str) -> Option<&'a Json>
    ensures { option_map (λ found. view found.now) result ≡ member name.now (view json.now) }
{
    match json.get(name) {
        Some(Json::Null) => None,
        found => found,
    }
}

/// The member of an object's member.
pub fn member_of_member<'a>(json: &'a Json, outer: &str, name: &str) -> Option<&'a Json>
    ensures { option_map (λ found. view found.now) result ≡ member_of_member outer.now name.now (view json.now) }
{
    member(member(json, outer)?, name)
}

/// The member of an object, where it is a text.
pub fn text_member<'a>(json: &'a Json, name: &str) -> Option<&'a str>
    ensures { option_map (λ text. text.now) result ≡ text_member name.now (view json.now) }
{
    member(json, name)?.as_str()
}

/// A text that may be missing, and is refused where it is any other value.
pub fn text_or<E: Drop>(found: Option<&Json>, refusal: E) -> Result<Option<&str>, E>
    ensures { Gives (λ _. false) (λ text. option_map (λ text. text.now) text) result
        (text_or refusal (option_map (λ json. view json.now) found.entry)) }
{
    match found {
        None => Ok(None),
        Some(Json::String(text)) => Ok(Some(text)),
        Some(_) => Err(refusal),
    }
}

/// The values of a JSON list.
pub fn list_of(json: &Json) -> Option<&[Json]>
    ensures { option_map (λ list. map (λ item. view item) list.now) result ≡ list_of (view json.now) }
{
    match json {
        Json::Array(list) => Some(list),
        _ => None,
    }
}
