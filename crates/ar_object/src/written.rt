//! The text of a JSON value, which is written one token after another.

ghost use Rattle.std.specs.Prelude.{◌≡◌, ◌≤◌, [], ◌∷◌, IfOk, decimal, option_map, string_bytes};
ghost use Rattle.std.specs.Fmt.{signed_decimal};
ghost use Rattle.std.specs.Result.{ForOk};
ghost use Rattle.json.specs.Lex.{tokens};
ghost use Rattle.json.specs.Print.{IsPrintable, print};
ghost use Rattle.json.specs.Reads.{token_of};
ghost use Rattle.json.specs.Token.{begin_array, begin_object, end_array, end_object, key, number};
ghost use Rattle.serde_json.specs.Data.{Data, boolean, depth, null, string};
ghost use Rattle.serde_json.specs.Read.{max_depth};
ghost use Rattle.ar_object.specs.Line.{IsJsonLine};
ghost use Rattle.ar_object.specs.Object.{count_data, count_or_null, integer_data, text_or_null};
ghost use Rattle.ar_object.specs.Written.{AddsMember, AddsTokens, AddsValue, HasTokens, HasValue};

use json::{Token, Writer};
use std::alloc::{AllocError, Global};

/// The text of a JSON value that is being written. A refused growth of memory is returned at the end, as by
/// [`Object`](crate::Object). The caller puts the members of an object in the byte order of their names.
#[derive(Drop)]
pub struct JsonText {
    /// What was written, unless memory was refused.
    pub written: Result<Writer, AllocError>,
    // Nothing comes before it.
    ghost alone: { ForOk written (λ writer. writer.before ≡ []) },
}

impl JsonText {
    /// A text in which nothing is written.
    pub fn new(alloc: Global) -> JsonText
        ensures { HasTokens result.written [] }
    {
        JsonText {
            written: Ok(Writer::new(Vec::new(alloc))),
        }
    }

    // ---- tokens

    pub(crate) fn put_token(&mut self, token: Token<'_>)
        requires { IsPrintable (token_of token) }
        ensures { AddsTokens (token_of token.entry ∷ []) self.old.written self.new.written }
    {
        let Ok(writer) = &mut self.written else {
            return;
        };
        if let Err(error) = writer.token(token) {
            self.written = Err(error);
        }
    }

    fn put_number(&mut self, count: u64)
        ensures { AddsTokens (number (decimal count) ∷ []) self.old.written self.new.written }
    {
        let Ok(writer) = &mut self.written else {
            return;
        };
        if let Err(error) = writer.u64(count) {
            self.written = Err(error);
        }
    }

    pub fn begin_object(&mut self)
        ensures { AddsTokens (begin_object ∷ []) self.old.written self.new.written }
    {
        self.put_token(Token::BeginObject)
    }

    pub fn end_object(&mut self)
        ensures { AddsTokens (end_object ∷ []) self.old.written self.new.written }
    {
        self.put_token(Token::EndObject)
    }

    /// The name of a member, whose value is written next.
    pub fn put_key(&mut self, name: &str)
        ensures { AddsTokens (key name.now ∷ []) self.old.written self.new.written }
    {
        self.put_token(Token::Key(name))
    }

    /// The name of a member, and the beginning of the list that is its value.
    pub fn begin_list(&mut self, name: &str)
        ensures { AddsTokens (key name.now ∷ begin_array ∷ []) self.old.written self.new.written }
    {
        self.put_key(name);
        self.put_token(Token::BeginArray)
    }

    pub fn end_list(&mut self)
        ensures { AddsTokens (end_array ∷ []) self.old.written self.new.written }
    {
        self.put_token(Token::EndArray)
    }

    /// A count without a name, as an item of a list.
    pub fn put_count_value(&mut self, count: u64)
        ensures { AddsValue (count_data count) self.old.written self.new.written }
    {
        self.put_number(count)
    }

    /// A text without a name.
    pub fn put_text_value(&mut self, text: &str)
        ensures { AddsValue (string text.now) self.old.written self.new.written }
    {
        self.put_token(Token::String(text))
    }

    fn put_integer(&mut self, integer: i64)
        ensures { AddsTokens (number (signed_decimal integer) ∷ []) self.old.written self.new.written }
    {
        let Ok(writer) = &mut self.written else {
            return;
        };
        if let Err(error) = writer.i64(integer) {
            self.written = Err(error);
        }
    }

    /// An integer without a name.
    pub fn put_integer_value(&mut self, integer: i64)
        ensures { AddsValue (integer_data integer) self.old.written self.new.written }
    {
        self.put_integer(integer)
    }

    // ---- members

    pub fn put_null(&mut self, name: &str)
        ensures { AddsMember name.now null self.old.written self.new.written }
    {
        self.put_key(name);
        self.put_token(Token::Null)
    }

    pub fn put_flag(&mut self, name: &str, holds: bool)
        ensures { AddsMember name.now (boolean holds) self.old.written self.new.written }
    {
        self.put_key(name);
        self.put_token(Token::Bool(holds))
    }

    pub fn put_integer_member(&mut self, name: &str, integer: i64)
        ensures { AddsMember name.now (integer_data integer) self.old.written self.new.written }
    {
        self.put_key(name);
        self.put_integer_value(integer)
    }

    pub fn put_count(&mut self, name: &str, count: u64)
        ensures { AddsMember name.now (count_data count) self.old.written self.new.written }
    {
        self.put_key(name);
        self.put_count_value(count)
    }

    /// Puts a count, or null where there is none.
    pub fn put_count_if_there(&mut self, name: &str, count: Option<u32>)
        ensures { AddsMember name.now (count_or_null count) self.old.written self.new.written }
    {
        match count {
            Some(count) => self.put_count(name, count as u64),
            None => self.put_null(name),
        }
    }

    pub fn put_text(&mut self, name: &str, text: &str)
        ensures { AddsMember name.now (string text.now) self.old.written self.new.written }
    {
        self.put_key(name);
        self.put_token(Token::String(text))
    }

    /// Puts a text, or null where there is none.
    pub fn put_text_if_there(&mut self, name: &str, text: Option<&str>)
        ensures { AddsMember name.now (text_or_null (option_map (λ text. text.now) text.entry))
            self.old.written self.new.written }
    {
        match text {
            Some(text) => self.put_text(name, text),
            None => self.put_null(name),
        }
    }

    // ---- the text

    /// The value that was written, in a line.
    ///
    /// # Errors
    ///
    /// Out of memory alone.
    pub fn finish(self) -> Result<String, AllocError>
        ensures { (value : Data) → HasValue value self.written → depth value ≤ max_depth
            → IfOk result (λ text. IsJsonLine value (string_bytes text)) }
    {
        let JsonText { written } = self;
        let mut text = text_of(written?);
        text.push_str("\n")?;
        Ok(text)
    }
}

/// The text of a writer into an empty buffer.
fn text_of(writer: Writer) -> String
    requires { writer.before ≡ [] }
    ensures text { string_bytes result ≡ print writer.tokens }
    ensures reads_back { tokens (print writer.tokens) ≡ writer.tokens }
{
    String::from_utf8(writer.into_inner()).unwrap()
}
