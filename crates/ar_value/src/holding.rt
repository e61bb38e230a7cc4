//! Holding values while others are made.

ghost use Rattle.std.specs.Prelude.{◌≡◌, ◌++◌, ◌∷◌, [], Err, IfErr, IfOk, Ok, OnOk};

use std::alloc::AllocError;

/// What is held together with another value, if that could be made; otherwise what is held is dropped.
pub fn zip_ok<A: Drop, B: Drop, E: Drop>(held: A, made: Result<B, E>) -> Result<(A, B), E>
    ensures ok { IfOk result (λ both. (made ≡ Ok both.1) × (both.0 ≡ held)) }
    ensures err { IfErr result (λ refusal. made ≡ Err refusal) }
{
    match made {
        Ok(made) => Ok((held, made)),
        Err(refusal) => Err(refusal),
    }
}

/// Adds an item to a list, or drops it where there is no memory for it.
///
/// # Errors
///
/// A refused allocation.
pub fn try_push<T: Drop>(list: &mut Vec<T>, item: T) -> Result<(), AllocError>
    ensures { OnOk result (list.new.items ≡ list.old.items ++ item ∷ []) }
{
    list.push(item)?;
    Ok(())
}
