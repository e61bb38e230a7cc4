//! The names of a record's fields.

ghost use Rattle.std.specs.Prelude.{◌≡◌, ◌+◌, IfOk, drop, option_map, take};
ghost use Rattle.ar_value.specs.Names.{Rise, index_named};

use crate::text::Text;
use std::alloc::{AllocError, Global};
use std::marker::Model;
use std::sync::Arc;

/// The names of a record's fields in byte order, each once. They have several owners: a shape, its copies and the
/// values that are read under it. Contracts see the list of the names.
#[derive(Drop)]
pub struct Names {
    all: Arc<Vec<Text>>,
    /// How many of them, from the front, are the names.
    count: usize,
}

impl Model for Names {
    ghost use Rattle.std.specs.Prelude.{ℕ, List, take};
    ghost use Rattle.std.specs.Arc.{arc_value};
    ghost use Rattle.ar_value.specs.Names.{Rise};

    ghost Value = { List (List ℕ) };

    ghost view = { λ names. take names.count (arc_value names.all).items };

    ghost invariant = { λ names. Rise (arc_value names.all).items };
}

impl Names {
    /// Names with one owner.
    pub fn new(alloc: Global, names: Vec<Text>) -> Result<Names, AllocError>
        requires { Rise names.items }
        ensures { IfOk result (λ shared. shared ≡ names.items) }
    {
        let count = names.len();
        Ok(Names {
            all: Arc::new(alloc, names)?,
            count,
        })
    }

    /// The first `count` names, or all if there are fewer, for another owner. It takes no memory: it is refused only
    /// where there are more owners than can be counted.
    pub fn first(&self, count: usize) -> Result<Names, AllocError>
        ensures { IfOk result (λ first. first ≡ take count self.now) }
    {
        Ok(Names {
            all: self.all.clone()?,
            count: self.count.min(count),
        })
    }

    /// The same names for another owner, which takes no memory: it is refused only where there are more owners than can
    /// be counted.
    pub fn share(&self) -> Result<Names, AllocError>
        ensures { IfOk result (λ shared. shared ≡ self.now) }
    {
        Ok(Names {
            all: self.all.clone()?,
            count: self.count,
        })
    }

    pub fn as_slice(&self) -> &[Text]
        ensures names { result.now ≡ self.now }
        ensures rise { Rise self.now }
    {
        let all: &[Text] = &self.all;
        &all[..self.count.min(all.len())]
    }

    /// The index of a name, found by binary search.
    pub fn index_of(&self, name: &str) -> Option<usize>
        ensures { result ≡ index_named name.now self.now }
    {
        search(self.as_slice(), name)
    }

    /// The index of a name among those from an index on, found by binary search.
    #[tactic(auto, using(crate::proofs::Orders::index_within))]
    pub fn index_from(&self, from: usize, name: &str) -> Option<usize>
        ensures { result ≡ option_map (λ index. from + index) (index_named name.now (drop from self.now)) }
    {
        let names = self.as_slice();
        if from > names.len() {
            return None;
        }
        Some(from + search(&names[from..], name)?)
    }
}

fn search(names: &[Text], name: &str) -> Option<usize>
    requires { Rise names.now }
    ensures { result ≡ index_named name.now names.now }
{
    names.binary_search_by(|of| of.as_str().cmp(name)).ok()
}
