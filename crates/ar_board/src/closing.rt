//! How a board is closed: which numbers its histories don't hold.

ghost use Rattle.std.specs.Prelude.{◌≡◌, ◌<◌, ◌≤◌, ◌↔◌, false, IfOk, IsTrue, length, replicate};
ghost use Rattle.std.specs.List.{AllByRecursion};
ghost use Rattle.ar_bundle.specs.Sound.{IsBundle};
ghost use Rattle.ar_bundle.specs.Lawful.{numbers_of, times, times_in};
ghost use Rattle.ar_board.specs.Private.Closing.{AreAllMarked, AreInside, AreMarked, AreOwn, AreStored, FirstLost, FirstUnheld, IsAt, IsAfter, IsLaterOf, IsReady, lists_of};

use crate::Receipt;
use ar_bundle::{Bundle, BundleName, Entry, History, Runs};
use ar_value::limits::MOST_RUNS;
use std::alloc::{AllocError, Global};

/// What closing a board requires, reserved when the board is made.
#[derive(Drop)]
pub(crate) struct Room {
    /// The runs as they are before any event, until the board is closed.
    pub(crate) runs: Runs,
    /// Of each seat; none until the board is closed, with room for them.
    pub(crate) receipts: Vec<Vec<Receipt>>,
    /// By number, whether a receipt for it isn't met; all false until the board is closed.
    pub(crate) unmet: Vec<bool>,
    /// By number, whether it is in a history; all false until the board is closed.
    pub(crate) stored: Vec<bool>,
}

impl Room {
    /// For the runs and numbers of a bundle and `workers` workers.
    pub(crate) fn new(alloc: Global, bundle: &Bundle, workers: usize) -> Result<Room, AllocError>
        requires { 1 ≤ workers }
        ensures { IfOk result (IsReady bundle.now workers) }
    {
        let numbers = bundle.events() as usize;
        Ok(Room {
            runs: Runs::open(alloc, bundle)?,
            receipts: Vec::with_capacity(alloc, workers)?,
            unmet: vec![in alloc; false; numbers]?,
            stored: vec![in alloc; false; numbers]?,
        })
    }

    /// The least number that the histories don't hold, by the receipts of all seats.
    #[tactic(auto, using(crate::proofs::Closed::first_lost))]
    pub(crate) fn first_lost<M: BundleName>(&mut self) -> Option<u64>
        requires bundle { IsBundle M.bundle }
        requires runs { length self.old.runs.histories.items ≡ length M.bundle.runs }
        requires inside { AllByRecursion (AreInside (length M.bundle.entries)) self.old.runs.histories.items }
        requires own { AllByRecursion (AreOwn M.bundle) (lists_of self.old.receipts.items) }
        requires none_unmet { self.old.unmet.items ≡ replicate (length M.bundle.entries) false }
        requires none_stored { self.old.stored.items ≡ replicate (length M.bundle.entries) false }
        ensures least { FirstLost M.bundle self.old.runs.histories.items (lists_of self.old.receipts.items) result }
        ensures runs { self.new.runs ≡ self.old.runs }
        ensures receipts { self.new.receipts ≡ self.old.receipts }
    {
        note_all_stored(&self.runs.histories, &mut self.stored);
        note_all_unmet::<M>(&self.runs.histories, &self.receipts, &mut self.unmet);
        first_unheld(&self.unmet, &self.stored)
    }
}

/// Notes the numbers of a history as stored.
#[tactic(auto, using(crate::proofs::Stored::stored_first, crate::proofs::Stored::stored_next, crate::proofs::Stored::number_fits))]
fn note_stored(history: &[Entry], stored: &mut Vec<bool>)
    requires inside { AreInside (length stored.old.items) history.now }
    ensures { AreStored (λ number. times_in number (numbers_of history.now)) stored.old.items stored.new.items }
{
    for entry in history {
        stored[entry.number as usize] = true;
    }
}

/// Notes the numbers of all histories as stored.
#[tactic(auto, using(crate::proofs::Stored::all_stored_first, crate::proofs::Stored::all_stored_next, crate::proofs::Stored::inside_there))]
fn note_all_stored(histories: &[History], stored: &mut Vec<bool>)
    requires inside { AllByRecursion (AreInside (length stored.old.items)) histories.now }
    ensures { AreStored (λ number. times number histories.now) stored.old.items stored.new.items }
{
    for history in histories {
        note_stored(history.entries(), stored);
    }
}

/// Notes the numbers for which a seat has a receipt that isn't met.
#[tactic(auto, using(crate::proofs::Marks::run_there, crate::proofs::Marks::number_there, crate::proofs::Marks::marked_first, crate::proofs::Marks::marked_met, crate::proofs::Marks::marked_unmet, crate::proofs::Marks::last_first, crate::proofs::Marks::last_next))]
fn note_unmet<M: BundleName>(histories: &[History], own: &[Receipt], unmet: &mut Vec<bool>)
    requires bundle { IsBundle M.bundle }
    requires runs { length histories.now ≡ length M.bundle.runs }
    requires own { AreOwn M.bundle own.now }
    requires as_many { length unmet.old.items ≡ length M.bundle.entries }
    ensures { AreMarked histories.now own.now unmet.old.items unmet.new.items }
{
    let mut last = [None; MOST_RUNS];
    for receipt in own {
        let so_far = last[receipt.run];
        if !is_met(histories, receipt, so_far) {
            unmet[receipt.number as usize] = true;
        }
        last[receipt.run] = Some(later(so_far, receipt.place));
    }
}

/// Whether a receipt's number is at its position, after the last position so far.
fn is_met(histories: &[History], receipt: &Receipt, last: Option<usize>) -> bool
    requires there { receipt.now.run < length histories.now }
    ensures { IsTrue result ↔ (IsAt histories.now receipt.now × IsAfter last receipt.now.place) }
{
    let is_after = match last {
        Some(last) => last < receipt.place,
        None => true,
    };
    is_after && is_at(histories, receipt)
}

/// Whether a receipt's number is at its position.
fn is_at(histories: &[History], receipt: &Receipt) -> bool
    requires there { receipt.now.run < length histories.now }
    ensures { IsTrue result ↔ IsAt histories.now receipt.now }
{
    match histories[receipt.run].entries().get(receipt.place) {
        Some(entry) => entry.number == receipt.number,
        None => false,
    }
}

/// The later of two positions.
fn later(last: Option<usize>, place: usize) -> usize
    ensures { IsLaterOf last place result }
{
    match last {
        Some(last) if place < last => last,
        _ => place,
    }
}

/// Notes the numbers for which one of the seats has a receipt that isn't met.
#[tactic(auto, using(crate::proofs::Marks::all_marked_first, crate::proofs::Marks::all_marked_next, crate::proofs::Marks::own_there))]
fn note_all_unmet<M: BundleName>(
    histories: &[History],
    receipts: &[Vec<Receipt>],
    unmet: &mut Vec<bool>,
)
    requires bundle { IsBundle M.bundle }
    requires runs { length histories.now ≡ length M.bundle.runs }
    requires own { AllByRecursion (AreOwn M.bundle) (lists_of receipts.now) }
    requires none_unmet { unmet.old.items ≡ replicate (length M.bundle.entries) false }
    ensures { AreAllMarked M.bundle histories.now (lists_of receipts.now) unmet.new.items }
{
    for own in receipts {
        note_unmet::<M>(histories, own.as_slice(), unmet);
    }
}

/// The first number that is unmet, or that is nowhere.
#[tactic(auto, using(crate::proofs::Stored::first_unmet, crate::proofs::Stored::first_nowhere, crate::proofs::Stored::there_next))]
fn first_unheld(unmet: &[bool], stored: &[bool]) -> Option<u64>
    requires { length stored.now ≡ length unmet.now }
    ensures { FirstUnheld unmet.now stored.now result }
{
    for number in 0..unmet.len() {
        if unmet[number] || !stored[number] {
            return Some(number as u64);
        }
    }
    None
}
