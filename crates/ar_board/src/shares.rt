//! Shares of the ledgers of a board's four locks.

ghost use Rattle.std.specs.Prelude.{◌≡◌, ◌-◌, ◌≤◌};
ghost use Rattle.ar_board.specs.Seats.{held_with, nothing, together};

use crate::locks::{First, Fourth, LockNames, Second, Third};
use std::marker::Model;
use std::sync::ledger::Share;

/// A share of the ledger of each lock, all of as many parts. Contracts see them as the `Held` of
/// `specs/Seats`.
#[derive(Drop)]
pub(crate) struct Shares<L: LockNames> {
    pub(crate) first: Share<First<L>>,
    pub(crate) second: Share<Second<L>>,
    pub(crate) third: Share<Third<L>>,
    pub(crate) fourth: Share<Fourth<L>>,
}

impl<L: LockNames> Model for Shares<L> {
    ghost use Rattle.std.specs.Prelude.{◌≡◌};
    ghost use Rattle.ar_board.specs.Locks.{per_lock};
    ghost use Rattle.ar_board.specs.Seats.{Held, held_with};

    ghost Value = { Held };

    ghost view = { λ s. held_with s.first.parts
        (per_lock s.first.amount s.second.amount s.third.amount s.fourth.amount) };

    ghost invariant = { λ s. (s.second.parts ≡ s.first.parts) × (s.third.parts ≡ s.first.parts)
        × (s.fourth.parts ≡ s.first.parts) };
}

impl<L: LockNames> Shares<L> {
    /// One part of each ledger is split off; there is no amount.
    pub(crate) fn split_off(&mut self) -> Shares<L>
        requires some { 1 ≤ self.old.parts }
        requires nothing { self.old.amounts ≡ nothing }
        ensures one { result ≡ held_with 1 nothing }
        ensures left { self.new ≡ held_with (self.old.parts - 1) nothing }
    {
        Shares {
            first: self.first.split_off(1, 0),
            second: self.second.split_off(1, 0),
            third: self.third.split_off(1, 0),
            fourth: self.fourth.split_off(1, 0),
        }
    }

    /// Shares that have no part of the ledgers.
    pub(crate) fn empty(&mut self) -> Shares<L>
        ensures none { result ≡ held_with 0 nothing }
        ensures same { self.new ≡ self.old }
    {
        Shares {
            first: self.first.empty(),
            second: self.second.empty(),
            third: self.third.empty(),
            fourth: self.fourth.empty(),
        }
    }

    /// Puts others to these, ledger by ledger.
    pub(crate) fn merge(&mut self, other: Shares<L>)
        ensures { self.new ≡ together self.old other }
    {
        self.first.merge(other.first);
        self.second.merge(other.second);
        self.third.merge(other.third);
        self.fourth.merge(other.fourth);
    }
}
