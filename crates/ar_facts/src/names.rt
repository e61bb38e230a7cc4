//! Phases, verdicts and effects as they are printed.

ghost use Rattle.std.specs.Prelude.{◌≡◌, ◌++◌, OnOk, option_map, string_bytes};
ghost use Rattle.ar_facts.specs.Names.{cause_if_error, cause_name, cause_text, closed_as, effect_name, effect_text, fault_if_error, fault_of_cause, phase_name, verdict_name, verdict_text};

use ar_judge::{Cause, Verdict};
use ar_limits::{Effect, Phase};
use std::alloc::AllocError;
use std::fmt::Write;

/// The name of a phase, as reports print it.
pub fn phase_name(phase: Phase) -> &'static str
    ensures { result.now ≡ phase_name phase }
{
    match phase {
        Phase::Pending => "Pending",
        Phase::Running => "Running",
        Phase::Successful => "Successful",
        Phase::Failed => "Failed",
        Phase::Error => "Error",
        Phase::Inconclusive => "Inconclusive",
    }
}

/// Writes a verdict after what is in a text.
pub fn put_verdict(out: &mut String, verdict: Verdict) -> Result<(), AllocError>
    ensures { OnOk result (string_bytes out.new ≡ string_bytes out.old ++ verdict_text verdict) }
{
    match verdict {
        Verdict::Successful => out.push_str("Successful"),
        Verdict::Failed => out.push_str("Failed"),
        Verdict::Inconclusive => out.push_str("Inconclusive"),
        Verdict::Error(cause) => {
            out.push_str("Error ")?;
            put_cause(out, cause)
        }
    }
}

fn put_cause(out: &mut String, cause: Cause) -> Result<(), AllocError>
    ensures { OnOk result (string_bytes out.new ≡ string_bytes out.old ++ cause_text cause) }
{
    match cause {
        Cause::Provider => out.push_str("provider"),
        Cause::Shape(fault) => write!(out, "shape {}", fault.name()),
        Cause::Success(fault) => write!(out, "success {}", fault.name()),
        Cause::Failure(fault) => write!(out, "failure {}", fault.name()),
    }
}

pub(crate) fn put_effect(out: &mut String, effect: Effect) -> Result<(), AllocError>
    ensures { OnOk result (string_bytes out.new ≡ string_bytes out.old ++ effect_text effect) }
{
    match effect {
        Effect::Applied => out.push_str("applied"),
        Effect::Closed(phase) => write!(out, "closed {}", phase_name(phase)),
        Effect::Late => out.push_str("late"),
    }
}

// ---- the parts of verdicts and effects, each by itself

pub(crate) fn verdict_name(verdict: Verdict) -> &'static str
    ensures { result.now ≡ verdict_name verdict }
{
    match verdict {
        Verdict::Successful => "Successful",
        Verdict::Failed => "Failed",
        Verdict::Inconclusive => "Inconclusive",
        Verdict::Error(_) => "Error",
    }
}

fn cause_name(cause: Cause) -> &'static str
    ensures { result.now ≡ cause_name cause }
{
    match cause {
        Cause::Provider => "provider",
        Cause::Shape(_) => "shape",
        Cause::Success(_) => "success",
        Cause::Failure(_) => "failure",
    }
}

/// The name of a misfit or a fault.
fn fault_of_cause(cause: Cause) -> Option<&'static str>
    ensures { option_map (λ name. name.now) result ≡ fault_of_cause cause }
{
    match cause {
        Cause::Provider => None,
        Cause::Shape(fault) => Some(fault.name()),
        Cause::Success(fault) | Cause::Failure(fault) => Some(fault.name()),
    }
}

pub(crate) fn cause_if_error(verdict: Verdict) -> Option<&'static str>
    ensures { option_map (λ name. name.now) result ≡ cause_if_error verdict }
{
    match verdict {
        Verdict::Successful | Verdict::Failed | Verdict::Inconclusive => None,
        Verdict::Error(cause) => Some(cause_name(cause)),
    }
}

pub(crate) fn fault_if_error(verdict: Verdict) -> Option<&'static str>
    ensures { option_map (λ name. name.now) result ≡ fault_if_error verdict }
{
    match verdict {
        Verdict::Successful | Verdict::Failed | Verdict::Inconclusive => None,
        Verdict::Error(cause) => fault_of_cause(cause),
    }
}

pub(crate) fn effect_name(effect: Effect) -> &'static str
    ensures { result.now ≡ effect_name effect }
{
    match effect {
        Effect::Applied => "applied",
        Effect::Closed(_) => "closed",
        Effect::Late => "late",
    }
}

/// The phase with which an event closed its run, if it did.
pub(crate) fn closed_as(effect: Effect) -> Option<&'static str>
    ensures { option_map (λ name. name.now) result ≡ closed_as effect }
{
    match effect {
        Effect::Closed(phase) => Some(phase_name(phase)),
        Effect::Applied | Effect::Late => None,
    }
}
