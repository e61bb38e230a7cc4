//! The hasher of arguments' names.

ghost use Rattle.std.specs.Prelude.{◌≡◌};
ghost use Rattle.std.specs.Hash.DefaultHasher.{initial};
ghost use Rattle.ar_manifest.specs.Names.{fed};

use std::hash::{BuildHasher, DefaultHasher, Hash};
use std::marker::Model;

/// Hashes each name from a state that was fed all names of the list that is to be read. So names that collide in one
/// list needn't in another: who wants a list of them has to search anew with each change of it.
#[derive(Drop)]
pub struct NamesHasher {
    started: DefaultHasher,
}

impl Model for NamesHasher {
    ghost use Rattle.std.specs.declared.hash.DefaultHasher.{DefaultHasher as State};

    ghost Value = { State };

    ghost view = { λ hasher. hasher.started };
}

impl NamesHasher {
    /// A hasher that was fed no name.
    pub fn new() -> NamesHasher
        ensures { result ≡ initial }
    {
        NamesHasher {
            started: DefaultHasher::new(),
        }
    }

    /// Feeds the hasher one more of the names that are to be read.
    pub fn feed(&mut self, name: &str)
        ensures { self.new ≡ fed self.old name.now }
    {
        name.hash(&mut self.started);
    }
}

impl BuildHasher for NamesHasher {
    type Hasher = DefaultHasher;

    ghost build_hasher = { λ hasher. hasher };

    fn build_hasher(&self) -> DefaultHasher {
        self.started
    }
}
