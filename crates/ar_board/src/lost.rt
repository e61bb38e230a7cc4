//! What shows that a number was lost.

use crate::Receipt;
use ar_bundle::Histories;
use std::fmt;

/// A board's histories don't hold each number of the bundle.
#[derive(Drop)]
pub struct Lost {
    /// The least that they don't hold.
    pub number: u64,
    pub histories: Histories,
    /// Of each seat, in the order in which `close` was given them.
    pub receipts: Vec<Vec<Receipt>>,
}

/// Its number alone: histories and receipts are as long as the bundle.
impl fmt::Debug for Lost {
    fn fmt<W: fmt::Write>(&self, f: &mut fmt::Formatter<W>) -> fmt::Result {
        write!(f, "Lost {{ number: {}, .. }}", self.number)
    }
}
