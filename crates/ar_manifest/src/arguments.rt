//! Arguments: values by name.

ghost use Rattle.std.specs.Prelude.{◌≡◌, ◌==◌, ◌++◌, [], ◌∷◌, length, OnOk, OnErr, option_copied};
ghost use Rattle.ar_manifest.specs.Arguments.{value_of, with_value};

use crate::names_hasher::NamesHasher;
use ar_value::Text;
use indexmap::IndexMap;
use std::alloc::{AllocError, Global};
use std::marker::Model;

/// Values by name, in the order in which the names came. Contracts see the list of names with
/// their values.
#[derive(Drop)]
pub struct Arguments<V> {
    values: IndexMap<String, V, NamesHasher>,
}

/// A run's own arguments: texts by name.
pub type Args = Arguments<Text>;

impl<V> Model for Arguments<V> {
    ghost use Rattle.std.specs.Prelude.{List, ℕ};

    ghost Value = { List (List ℕ × V) };

    ghost use Rattle.ar_manifest.specs.Arguments.{by_name};

    ghost view = { λ arguments. by_name arguments.values.entries };
}

impl<V> Arguments<V> {
    /// No arguments. Names are always hashed in the same way: use [`Arguments::with_hasher`] for those of a document
    /// that isn't trusted.
    pub fn new(alloc: Global) -> Arguments<V>
        ensures { result ≡ [] }
    {
        Arguments::with_hasher(alloc, NamesHasher::new())
    }

    /// No arguments, whose names will be hashed by `hasher`. Feed it all of them first, so that names which were made
    /// to collide don't.
    pub fn with_hasher(alloc: Global, hasher: NamesHasher) -> Arguments<V>
        ensures { result ≡ [] }
    {
        Arguments {
            values: IndexMap::with_hasher(alloc, hasher),
        }
    }

    /// The value of a name.
    #[tactic(auto, using(crate::proofs::Entries::value_of_entry))]
    pub fn get(&self, name: &str) -> Option<&V>
        ensures { option_copied result ≡ value_of name.now self.now }
    {
        self.values.get(name)
    }

    /// How many names have a value.
    #[tactic(auto, using(crate::proofs::Entries::len_entries))]
    pub fn len(&self) -> usize
        ensures { result ≡ length self.now }
    {
        self.values.len()
    }

    pub fn is_empty(&self) -> bool
        ensures { result ≡ (length self.now == 0) }
    {
        self.len() == 0
    }

    /// Gives the name a value, in place of the one that it has, or else after all others.
    pub fn insert(&mut self, alloc: Global, name: &str, value: V) -> Result<(), AllocError>
    where
        V: Drop,
        ensures ok { OnOk result (self.new ≡ with_value self.old name.now value) }
        ensures err { OnErr result (self.new ≡ self.old) }
    {
        self.put(Text::of(alloc, name)?, value)
    }

    #[tactic(auto, using(crate::proofs::Entries::with_value_entry))]
    fn put(&mut self, name: Text, value: V) -> Result<(), AllocError>
    where
        V: Drop,
        ensures ok { OnOk result (self.new ≡ with_value self.old name value) }
        ensures err { OnErr result (self.new ≡ self.old) }
    {
        self.values.insert(name.into_string(), value)?;
        Ok(())
    }

    /// Gives a name that has none a value, after all others.
    #[tactic(auto, using(crate::proofs::Entries::with_new_value))]
    pub(crate) fn push(&mut self, name: Text, value: V) -> Result<(), AllocError>
    where
        V: Drop,
        requires { value_of name self.old ≡ None }
        ensures ok { OnOk result (self.new ≡ self.old ++ (name, value) ∷ []) }
        ensures err { OnErr result (self.new ≡ self.old) }
    {
        self.put(name, value)
    }
}
