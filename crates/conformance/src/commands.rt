//! Calls on command lines.

use crate::lists::{Item, read_all};
use ar_command_line::{UsageError, command_of};
use cases_of_values::fault::{CaseFault, Written};
use cases_of_values::members;
use cases_of_values::output::Output;
use serde_json::Value as Json;
use std::alloc::Global;

/// The command that words ask for, or why they ask for none.
pub(crate) fn put_command(alloc: Global, case: &Json, out: &mut Output) -> Written {
    let words = read_all(alloc, members::list(case, "command")?)?;
    match command_of(alloc, words.as_slice()) {
        Ok(command) => write!(out, "{command:?}"),
        Err(UsageError::OutOfMemory) => out.lose(),
        Err(error) => write!(out, "{error:?}"),
    }
    Ok(())
}

impl Item for String {
    fn read(alloc: Global, json: &Json) -> Result<String, CaseFault> {
        Ok(json.as_str().ok_or(CaseFault::Member)?.to_string(alloc)?)
    }
}
