//! The indices, among a record's names, of its fields that are there.

ghost use Rattle.std.specs.Prelude.{◌≡◌, ◌<◌, ◌++◌, ◌∷◌, [], All, IfOk, OnErr, OnOk};
ghost use Rattle.ar_value.specs.Names.{index_of};

use std::alloc::{AllocError, Global};
use std::marker::Model;

/// The indices of those fields of a record that are there, each after the one before. Contracts see the list of the
/// numbers.
#[derive(Drop)]
pub struct Indices {
    items: Vec<usize>,
}

impl Model for Indices {
    ghost use Rattle.std.specs.Prelude.{ℕ, List};
    ghost use Rattle.std.specs.List.Sorted.{IsStrictlySortedBy};
    ghost use Rattle.std.specs.Ordering.{nat_cmp};

    ghost Value = { List ℕ };

    ghost view = { λ indices. indices.items.items };

    ghost invariant = { λ indices. IsStrictlySortedBy nat_cmp indices.items.items };
}

impl Indices {
    /// No indices, with memory for a number of them.
    pub fn with_capacity(alloc: Global, capacity: usize) -> Result<Indices, AllocError>
        ensures { IfOk result (λ indices. indices ≡ []) }
    {
        Ok(Indices {
            items: Vec::with_capacity(alloc, capacity)?,
        })
    }

    /// Adds an index after the others, or leaves them as they are where there is no memory for it.
    pub fn push(&mut self, index: usize) -> Result<(), AllocError>
        requires { All (λ earlier. earlier < index) self.old }
        ensures added { OnOk result (self.new ≡ self.old ++ index ∷ []) }
        ensures unchanged { OnErr result (self.new ≡ self.old) }
    {
        self.items.push(index)?;
        Ok(())
    }

    /// Where an index is in the list, found by binary search.
    pub fn index_of(&self, index: usize) -> Option<usize>
        ensures { result ≡ index_of index self.now }
    {
        self.items.binary_search(&index).ok()
    }
}
