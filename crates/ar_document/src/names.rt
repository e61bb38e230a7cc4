//! Numbers by name.

ghost use Rattle.std.specs.Prelude.{◌≡◌, ◌++◌, ◌∷◌, [], ℕ, List, IfOk, OnOk, length, is_none};
ghost use Rattle.ar_document.specs.Opening.{index_of_name};
ghost use Rattle.ar_document.specs.Private.Naming.{AreNumbers};

use std::alloc::{AllocError, Global};
use std::collections::BTreeMap;

/// Names with their numbers. Names are compared, so that no choice of names makes finding one slow.
pub(crate) type Numbers = BTreeMap<String, usize>;

/// Gives the next name its number, unless an earlier one is the same, and returns whether it is new.
#[tactic(auto, using(crate::proofs::Naming::new_name, crate::proofs::Naming::old_name))]
pub(crate) fn add_name(
    alloc: Global,
    numbers: &mut Numbers,
    name: &str,
    number: usize,
) -> Result<bool, AllocError>
    ensures new { (names : List (List ℕ)) → AreNumbers names numbers.old
        → IfOk result (λ new. new ≡ is_none (index_of_name name.now names)) }
    ensures numbers { (names : List (List ℕ)) → AreNumbers names numbers.old → length names ≡ number
        → OnOk result (AreNumbers (names ++ name.now ∷ []) numbers.new) }
{
    if numbers.get(name).is_some() {
        return Ok(false);
    }
    numbers.insert(String::from_str(alloc, name)?, number)?;
    Ok(true)
}
