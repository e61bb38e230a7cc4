//! The queue from which workers take numbers: how many slots it has.

ghost use Rattle.std.specs.Prelude.{◌<◌, length};

use ar_bundle::BundleName;
use ar_queue::queue::Puts;
use ar_queue::{Item, PLACES, open};
use std::alloc::{AllocError, Global};
use std::marker::Brand;
use std::test::Fail;

/// How many numbers a queue takes before it is full, up to one more than it has slots.
fn taken<M: BundleName>(alloc: Global) -> Result<u64, AllocError>
    requires { PLACES < length M.bundle.entries }
{
    let (queue, mut pass) = open::<M>(alloc)?;
    for number in 0..=PLACES as u64 {
        if queue
            .try_push_as::<Puts>(&mut pass, Item::Number(number))
            .is_err()
        {
            return Ok(number);
        }
    }
    Ok(PLACES as u64 + 1)
}

/// A queue takes 64 numbers, and is full for the one after them.
#[test]
fn places(rt: HostRuntime) -> Result<(), Fail> {
    assert_eq!(rt; taken::<Brand>(rt.alloc())?, 64);
    Ok(())
}
