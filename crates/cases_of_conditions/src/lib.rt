//! The calls of the conformance suite on templates, conditions, code and judges.
//!
//! [`answer`] gives what such a call returns on a case; what all cases need, and the calls on numbers,
//! texts, shapes and values, are in `cases_of_values`.
//!
//! - `templates`, `conditions`, `codes`, `judges`: the calls, by their subjects
//! - `trees`, `typed`, `endings`: conditions as written, conditions as typed, and why code is refused and how its
//!   runs end, printed
//! - `changes`: the outcome of an image when one of its bytes is changed
//! - `made`: what a call made of a case, or why it refused it
//!
//! Which names are those of calls is proved of every case (`specs/Calls`), and how ends of runs and verdicts are
//! printed (`specs/Endings`, and `verdict_text` of `ar_facts`). What these calls return is only tested, by the suite.
#![tactic(auto)]

ghost use Rattle.std.specs.Prelude.{◌≡◌, is_some};
ghost use Rattle.cases_of_conditions.specs.Calls.{is_library_call};

mod changes;
mod codes;
mod conditions;
mod endings;
mod judges;
mod made;
mod templates;
mod trees;
mod typed;

use crate::changes::put_changes;
use crate::codes::{put_compiled, put_decoded, put_tested, put_verified};
use crate::conditions::{put_checked, put_parsed, put_tokens};
use crate::judges::{put_condition, put_judge};
use crate::templates::{put_arguments, put_bound};
use cases_of_values::fault::{CaseFault, Written};
use cases_of_values::output::Output;
pub use judges::put_verdict;
use serde_json::Value as Json;
use std::alloc::Global;

/// What a call returns on a case. `None` where it is one of another subject, or none at all.
pub fn answer(alloc: Global, call: &str, case: &Json) -> Option<Result<String, CaseFault>>
    ensures { is_some result ≡ is_library_call call.now }
{
    let mut out = Output::new(alloc);
    let written = put(alloc, call, case, &mut out)?;
    Some(out.finish(written))
}

fn put(alloc: Global, call: &str, case: &Json, out: &mut Output) -> Option<Written>
    ensures { is_some result ≡ is_library_call call.now }
{
    match call {
        "bind" => Some(put_bound(alloc, case, out)),
        "arguments" => Some(put_arguments(alloc, case, out)),
        "tokens" => Some(put_tokens(alloc, case, out)),
        "parse" => Some(put_parsed(alloc, case, out)),
        "check" => Some(put_checked(alloc, case, out)),
        "decode" => Some(put_decoded(alloc, case, out)),
        "compile" => Some(put_compiled(alloc, case, out)),
        "verify" => Some(put_verified(alloc, case, out)),
        "run_tested" => Some(put_tested(alloc, case, out)),
        "change_byte" => Some(put_changes(alloc, case, out)),
        "condition" => Some(put_condition(alloc, case, out)),
        "judge" | "judge_code" => Some(put_judge(alloc, call, case, out)),
        _ => None,
    }
}
