//! Items that predicates look at, and what is said of them.

ghost use Rattle.std.specs.Prelude.{◌≡◌, ◌||◌, Ok, not};
ghost use Rattle.ar_explain.specs.Lines.{is_last, is_shown};
ghost use Rattle.ar_explain.specs.Private.Places.{as_meant, seen_view};

use crate::place::Place;
use crate::seen::Seen;
use ar_machine::operand::borrowed::ValueRef;
use ar_machine::operand::predicate::decided;
use ar_operand::operand::Failure;
use ar_value::operator::Predicate;

/// An item that a predicate looks at.
#[derive(Clone, Copy)]
pub(crate) struct Looked<'v> {
    pub predicate: Predicate,
    pub number: usize,
    pub item: ValueRef<'v>,
    /// Whether no item comes after it.
    pub at_end: bool,
    /// The items before it.
    pub seen: Seen,
}

/// Whether an item needs no second look: nothing is to be said of it.
pub(crate) fn is_enough(
    looked: Looked<'_>,
    place: &Place<'_>,
    holds: &Result<bool, Failure>,
) -> bool
    ensures { result ≡ (place.now.silent || not (is_shown looked.entry.predicate (seen_view looked.entry.seen)
        looked.entry.at_end (as_meant (λ it. it) holds.now))) }
{
    place.silent || !is_shown(looked, holds)
}

fn is_shown(looked: Looked<'_>, holds: &Result<bool, Failure>) -> bool
    ensures { result ≡ is_shown looked.entry.predicate (seen_view looked.entry.seen) looked.entry.at_end
        (as_meant (λ it. it) holds.now) }
{
    match holds {
        Ok(holds) => { looked.seen.is_early(looked.predicate, *holds) || is_last(looked, *holds) }
        Err(_) => true,
    }
}

/// Whether a predicate looks at no item after one on which its body gave a boolean.
fn is_last(looked: Looked<'_>, holds: bool) -> bool
    ensures { result ≡ is_last looked.entry.predicate looked.entry.at_end (Ok holds) }
{
    looked.at_end || decided(looked.predicate, holds).is_some()
}
