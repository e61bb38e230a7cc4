//! How many items a predicate has looked at that aren't shown.

ghost use Rattle.std.specs.Prelude.{◌≡◌, ◌+◌, ◌<◌, ◌≤◌};
ghost use Rattle.ar_explain.specs.Lines.{after_item, is_early, may_show, none_seen};
ghost use Rattle.ar_explain.specs.Private.Places.{seen_view};

use ar_value::operator::{Gather, Predicate};

/// How many of the first items of a list are shown, where the predicate finds items of those that it finds.
const FEW_ITEMS: usize = 3;

/// The items that a predicate has looked at.
#[derive(Clone, Copy)]
pub(crate) struct Seen {
    /// How many are shown.
    pub shown: usize,
    /// How many there are after the last shown one.
    pub items: usize,
    /// Of how many of those the body holds.
    pub held: usize,
}

fn may_show(gather: Gather, holds: bool) -> bool
    ensures { result ≡ may_show gather holds }
{
    match gather {
        Gather::Nothing => true,
        Gather::Number | Gather::Items => holds,
    }
}

impl Seen {
    pub(crate) fn none() -> Seen
        ensures { seen_view result ≡ none_seen }
    {
        Seen {
            shown: 0,
            items: 0,
            held: 0,
        }
    }

    /// Whether the next item is among the first few.
    pub(crate) fn is_early(self, predicate: Predicate, holds: bool) -> bool
        ensures { result ≡ is_early predicate (seen_view self) holds }
    {
        self.shown < FEW_ITEMS && may_show(predicate.gathers(), holds)
    }

    /// After an item that isn't the last.
    pub(crate) fn after(self, predicate: Predicate, holds: bool) -> Seen
        requires items { self.items < usize.MAX }
        requires held { self.held < usize.MAX }
        ensures exact { seen_view result ≡ after_item predicate (seen_view self) holds }
        ensures items { result.items ≤ self.items + 1 }
        ensures held { result.held ≤ self.held + 1 }
    {
        if self.is_early(predicate, holds) {
            return Seen {
                shown: self.shown + 1,
                items: 0,
                held: 0,
            };
        }
        Seen {
            shown: self.shown,
            items: self.items + 1,
            held: if holds { self.held + 1 } else { self.held },
        }
    }
}
