//! The numbers of each run, in rising order.

ghost use Rattle.std.specs.Prelude.{◌≡◌, [], IfOk, replicate, true};
ghost use Rattle.ar_board.specs.Private.Own.{AreOwn, items_of_each};

use ar_bundle::Bundle;
use std::alloc::{AllocError, Global};

/// `count` lists, all empty.
fn empty_lists(alloc: Global, count: usize) -> Result<Vec<Vec<u64>>, AllocError>
    ensures { IfOk result (λ lists. items_of_each lists.items ≡ replicate count []) }
{
    let mut lists = Vec::with_capacity(alloc, count)?;
    for _ in 0..count {
        lists.push(Vec::new(alloc))?;
    }
    Ok(lists)
}

/// The numbers of each run, in one pass over the entries.
fn own_numbers(alloc: Global, bundle: &Bundle) -> Result<Vec<Vec<u64>>, AllocError>
    ensures { IfOk result (λ own. AreOwn bundle.now bundle.now.entries (items_of_each own.items)) }
{
    let mut own = empty_lists(alloc, bundle.runs().len())?;
    for number in 0..bundle.events() {
        let list = &mut own[bundle.run_of(number)];
        list.push(number)?;
    }
    Ok(own)
}

/// The same where the lists are required, and none where they aren't.
pub(crate) fn own_numbers_if(
    alloc: Global,
    bundle: &Bundle,
    wanted: bool,
) -> Result<Vec<Vec<u64>>, AllocError>
    ensures { IfOk result (λ own. wanted ≡ true → AreOwn bundle.now bundle.now.entries (items_of_each own.items)) }
{
    if wanted {
        own_numbers(alloc, bundle)
    } else {
        Ok(Vec::new(alloc))
    }
}
