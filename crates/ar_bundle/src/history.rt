//! Histories of runs.

ghost use Rattle.std.specs.Prelude.{◌≡◌, ◌∷◌, ◌++◌, [], OnErr, OnOk};

use crate::finding::Finding;
use ar_limits::Effect;
use std::alloc::{AllocError, Global};
use std::marker::Model;

/// A number of a bundle, as it is in its run's history.
#[derive(Clone, Copy)]
pub struct Entry {
    pub number: u64,
    pub finding: Finding,
    /// What it did to the run, after the entries before it.
    pub effect: Effect,
}

/// The entries of one run, in the order in which they were applied. Contracts see their list.
#[derive(Drop)]
pub struct History {
    entries: Vec<Entry>,
}

impl Model for History {
    ghost use Rattle.std.specs.Prelude.{List};
    ghost use Rattle.ar_bundle.specs.declared.history.Entry.{Entry};

    ghost Value = { List Entry };

    ghost view = { λ history. history.entries.items };
}

impl History {
    /// That of a run to which nothing has happened.
    pub fn new(alloc: Global) -> History
        ensures { result ≡ [] }
    {
        History {
            entries: Vec::new(alloc),
        }
    }

    /// One entry more, after the others. Where memory is refused the history stays as it was.
    pub fn push(&mut self, entry: Entry) -> Result<(), AllocError>
        ensures pushed { OnOk result (self.new ≡ self.old ++ entry ∷ []) }
        ensures refused { OnErr result (self.new ≡ self.old) }
    {
        self.entries.push(entry)?;
        Ok(())
    }

    /// Its entries, in the order in which they were added.
    pub fn entries(&self) -> &[Entry]
        ensures { result.now ≡ self.now }
    {
        &self.entries
    }

    /// The entries as a `Vec`, without taking memory.
    pub fn into_vec(self) -> Vec<Entry>
        ensures { result.items ≡ self }
    {
        self.entries
    }
}

impl From<Vec<Entry>> for History {
    ghost from_gives = { λ entries history. history ≡ entries.items };

    fn from(entries: Vec<Entry>) -> History {
        History { entries }
    }
}

/// The history of each run of a bundle, in their order. Contracts see the list of the histories.
#[derive(Drop)]
pub struct Histories {
    runs: Vec<History>,
}

impl Model for Histories {
    ghost use Rattle.std.specs.Prelude.{List};
    ghost use Rattle.ar_bundle.specs.declared.history.Entry.{Entry};

    ghost Value = { List (List Entry) };

    ghost view = { λ histories. histories.runs.items };
}

impl Histories {
    /// Each run's history, at the index of the run.
    pub fn runs(&self) -> &[History]
        ensures { result.now ≡ self.now }
    {
        &self.runs
    }

    /// The histories as a `Vec`, without taking memory.
    pub fn into_vec(self) -> Vec<History>
        ensures { result.items ≡ self }
    {
        self.runs
    }
}

impl From<Vec<History>> for Histories {
    ghost from_gives = { λ runs histories. histories ≡ runs.items };

    fn from(runs: Vec<History>) -> Histories {
        Histories { runs }
    }
}
