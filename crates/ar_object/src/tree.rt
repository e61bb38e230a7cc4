//! JSON values in memory, written into a text.

ghost use Rattle.std.specs.Prelude.{◌≡◌, false};
ghost use Rattle.serde_json.specs.Data.{array, number, object};
ghost use Rattle.serde_json.specs.Find.{is_float};
ghost use Rattle.serde_json.specs.View.{items_view, members_view, number_view, view};
ghost use Rattle.serde_json.specs.Written.{has_float, items_have_float, members_have_float};
ghost use Rattle.ar_object.specs.Written.{AddsMember, AddsValue};

use crate::written::JsonText;
use json::Token;
use serde_json::{Map, Number, Value as Json};

impl JsonText {
    /// A value without a name.
    #[cycle(put_json_value)]
    pub fn put_json_value(&mut self, value: &Json)
        requires { has_float (view value.now) ≡ false }
        ensures { AddsValue (view value.now) self.old.written self.new.written }
    {
        match value {
            Json::Null => self.put_token(Token::Null),
            Json::Bool(holds) => self.put_token(Token::Bool(*holds)),
            Json::Number(number) => self.put_integer_number(number),
            Json::String(text) => self.put_token(Token::String(text.as_str())),
            Json::Array(items) => self.put_items(items),
            Json::Object(members) => self.put_members(members),
        }
    }

    fn put_integer_number(&mut self, integer: &Number)
        requires { is_float (number_view integer.now) ≡ false }
        ensures { AddsValue (number (number_view integer.now)) self.old.written self.new.written }
    {
        if let Some(count) = integer.as_u64() {
            return self.put_count_value(count);
        }
        match integer.as_i64() {
            Some(below_zero) => self.put_integer_value(below_zero),
            None => unreachable!(),
        }
    }

    #[cycle(put_json_value)]
    fn put_items(&mut self, items: &[Json])
        requires { items_have_float (items_view items.now) ≡ false }
        ensures { AddsValue (array (items_view items.now)) self.old.written self.new.written }
    {
        self.put_token(Token::BeginArray);
        for item in items {
            self.put_json_value(item);
        }
        self.put_token(Token::EndArray)
    }

    #[cycle(put_json_value)]
    fn put_members(&mut self, members: &Map<String, Json>)
        requires { members_have_float (members_view members.now.entries) ≡ false }
        ensures { AddsValue (object (members_view members.now.entries)) self.old.written self.new.written }
    {
        self.put_token(Token::BeginObject);
        for (name, value) in members.iter() {
            self.put_key(name.as_str());
            self.put_json_value(value);
        }
        self.put_token(Token::EndObject)
    }

    /// A value as a member.
    pub fn put_json(&mut self, name: &str, value: &Json)
        requires { has_float (view value.now) ≡ false }
        ensures { AddsMember name.now (view value.now) self.old.written self.new.written }
    {
        self.put_key(name);
        self.put_json_value(value)
    }
}
