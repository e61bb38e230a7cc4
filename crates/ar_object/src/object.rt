//! A JSON object that is being made.

ghost use Rattle.std.specs.Prelude.{◌≡◌, IfOk, map, option_map};
ghost use Rattle.serde_json.specs.Data.{Data, Members, boolean, no_members, null, object, put, string};
ghost use Rattle.serde_json.specs.View.{view};
ghost use Rattle.ar_object.specs.Object.{Has, array_of, count_data, text_or_null};

use serde_json::{Map, Value as Json};
use std::alloc::{AllocError, Global};

/// The version of the forms of all objects that the program writes.
pub const VERSION: u64 = 1;

/// A JSON object that is being made, one member after another. A refused growth of memory is returned at the end, as
/// std's `DebugStruct` returns a failed write, so that members are put without a look at each.
#[derive(Drop)]
pub struct Object {
    alloc: Global,
    /// The members so far, unless memory was refused.
    pub made: Result<Map<String, Json>, AllocError>,
}

impl Object {
    /// An object without members.
    pub fn new(alloc: Global) -> Object
        ensures { Has result.made no_members }
    {
        Object {
            alloc,
            made: Ok(Map::new(alloc)),
        }
    }

    /// Puts a member, if its value could be made.
    pub fn put(&mut self, name: &str, value: Result<Json, AllocError>)
        ensures { (members : Members) (given : Data) → Has self.old.made members
            → IfOk value (λ json. view json ≡ given) → Has self.new.made (put name.now given members) }
    {
        let putting = match (&mut self.made, value) {
            (Ok(members), Ok(value)) => serde_json::put(members, self.alloc, name, value),
            (Ok(_), Err(error)) => Err(error),
            (Err(_), _) => return,
        };
        if let Err(error) = putting {
            self.made = Err(error);
        }
    }

    pub fn put_null(&mut self, name: &str)
        ensures { (members : Members) → Has self.old.made members → Has self.new.made (put name.now null members) }
    {
        self.put(name, Ok(Json::Null))
    }

    pub fn put_flag(&mut self, name: &str, holds: bool)
        ensures { (members : Members) → Has self.old.made members
            → Has self.new.made (put name.now (boolean holds) members) }
    {
        self.put(name, Ok(Json::Bool(holds)))
    }

    pub fn put_count(&mut self, name: &str, count: u64)
        ensures { (members : Members) → Has self.old.made members
            → Has self.new.made (put name.now (count_data count) members) }
    {
        self.put(name, Ok(Json::from(count)))
    }

    pub fn put_text(&mut self, name: &str, text: &str)
        ensures { (members : Members) → Has self.old.made members
            → Has self.new.made (put name.now (string text.now) members) }
    {
        self.put(name, Json::try_from_str(self.alloc, text))
    }

    /// Puts a text, or null where there is none.
    pub fn put_text_if_there(&mut self, name: &str, text: Option<&str>)
        ensures { (members : Members) → Has self.old.made members
            → Has self.new.made (put name.now (text_or_null (option_map (λ text. text.now) text.entry)) members) }
    {
        match text {
            Some(text) => self.put_text(name, text),
            None => self.put_null(name),
        }
    }

    pub fn put_list(&mut self, name: &str, items: Vec<Json>)
        ensures { (members : Members) → Has self.old.made members
            → Has self.new.made (put name.now (array_of (map view items.items)) members) }
    {
        self.put(name, Ok(Json::Array(items)))
    }

    /// The object.
    pub fn finish(self) -> Result<Json, AllocError>
        ensures { (members : Members) → Has self.made members → IfOk result (λ json. view json ≡ object members) }
    {
        let Object { made, .. } = self;
        made.map(Json::Object)
    }
}
