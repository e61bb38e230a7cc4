//! The line of a JSON value.

ghost use Rattle.std.specs.Prelude.{◌≡◌, ◌≤◌, IfOk, false, string_bytes};
ghost use Rattle.serde_json.specs.Data.{depth};
ghost use Rattle.serde_json.specs.Read.{max_depth};
ghost use Rattle.serde_json.specs.View.{view};
ghost use Rattle.serde_json.specs.Written.{has_float};
ghost use Rattle.ar_object.specs.Line.{IsJsonLine};

use serde_json::Value as Json;
use std::alloc::{AllocError, Global};

/// The text of a JSON value, and a line feed.
///
/// # Errors
///
/// Out of memory alone.
#[tactic(auto, using(crate::proofs::Lines::line_read))]
pub fn json_line(alloc: Global, object: &Json) -> Result<String, AllocError>
    requires exact { has_float (view object.now) ≡ false }
    requires flat { depth (view object.now) ≤ max_depth }
    ensures { IfOk result (λ text. IsJsonLine (view object.now) (string_bytes text)) }
{
    let mut text = object.to_string(alloc)?;
    text.push_str("\n")?;
    Ok(text)
}
