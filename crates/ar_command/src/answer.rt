//! What each command says of an input.

ghost use Rattle.std.specs.Prelude.{◌≡◌, ◌≤◌, ℕ, Err, IfOk, List, [], Ok, map, string_bytes};
ghost use Rattle.std.specs.List.{list_any};
ghost use Rattle.ar_value.specs.Answer.{IfRefused};
ghost use Rattle.ar_bundle.specs.Finished.{AreFinished};
ghost use Rattle.ar_bundle.specs.Lawful.{AllRise, numbers_of};
ghost use Rattle.ar_bundle.specs.declared.history.Entry.{Entry};
ghost use Rattle.ar_limits.specs.Metric.{is_unsuccessful};
ghost use Rattle.ar_document.specs.Document.{ReadsInput};
ghost use Rattle.ar_facts.specs.Facts.{report_facts};
ghost use Rattle.ar_facts.specs.ReportData.{answer_data};
ghost use Rattle.ar_command.specs.Private.Refusing.{Names, NamesRefusal, NamesWork, is_serve_memory};
ghost use Rattle.ar_command.specs.Serving.{Breaks, IsCauseOf, IsChecked, IsPrinted, IsReport, IsReported, RefusesInput, ReportsInOrder, RunsAlone, RunsWith, Says, closing_of, line_of};
ghost use Rattle.ar_command.specs.Warned.{AreWarningsOf, Warns};
ghost use Rattle.ar_command.specs.declared.serving.Closing.TheVariants.{Good};
ghost use Rattle.ar_command_line.specs.declared.command_line.Command.TheVariants as commands;

use crate::explained::explained;
use crate::reading::{Reading, read};
use crate::serving::{Closing, ServeError};
use ar_board::MOST_WORKERS;
use ar_bundle::{Bundle, Finished, finish_plain};
use ar_command_line::{Command, Format};
use ar_diagnostic::Diagnostic;
use ar_document::read_bundle;
use ar_eval::evaluate;
use ar_limits::RunState;
use ar_machine::Answer;
use ar_report::{answer_json, check_json, check_text, finished_report, list_text, report_json};
use ar_workers::{Gate, finish_all, finish_ordered};
use std::alloc::{AllocError, Global};
use std::sync::Wait;
use std::thread::Threads;

/// A text to be written, and how its command closes.
#[derive(Drop)]
pub(crate) struct Said {
    pub text: String,
    pub closing: Closing,
}

/// What a command says of an input, and what it warns of.
#[derive(Drop)]
pub(crate) struct Answered {
    pub said: Said,
    pub warnings: Vec<Diagnostic>,
}

/// What a command that runs on one thread says of an input, or why the input is refused.
pub(crate) fn answer(
    alloc: Global,
    command: Command<'_>,
    input: &[u8],
) -> Result<Answered, ServeError>
    requires { RunsAlone command }
    ensures said { IfOk result
        (λ it. Says command.entry input.now (string_bytes it.said.text) it.said.closing) }
    ensures warns { IfOk result (λ it. Warns command.entry input.now it.warnings.items) }
    ensures refused { IfRefused is_serve_memory result (NamesRefusal (RefusesInput command.entry input.now)) }
{
    match command {
        Command::Eval(format) => evaluated(alloc, format, input),
        Command::Check(format) => checked(alloc, format, input),
        Command::List => listed(alloc, input),
        Command::Plain(format) => reported_in_order(alloc, format, input),
        Command::Explain(selection, format) => explained(alloc, selection, format, input),
        Command::Run(..) | Command::Ordered(..) => unreachable!(),
    }
}

/// What a run with workers says of an input.
pub(crate) fn judged<G: Gate, R: Threads + Wait + Sync>(
    rt: &R,
    alloc: Global,
    command: Command<'_>,
    input: &[u8],
    gate: &G,
) -> Result<Answered, ServeError>
    requires { RunsWith command MOST_WORKERS }
    ensures said { IfOk result
        (λ it. Says command.entry input.now (string_bytes it.said.text) it.said.closing) }
    ensures warns { IfOk result (λ it. Warns command.entry input.now it.warnings.items) }
    ensures ends { IfRefused is_serve_memory result
        (Names (RefusesInput command.entry input.now) (Breaks command.entry input.now)) }
{
    let Reading { bundle, warnings } = read(alloc, input)?;
    let said = reported(rt, alloc, command, &bundle, gate)?;
    Ok(Answered { said, warnings })
}

/// What a run with workers says of a bundle.
fn reported<G: Gate, R: Threads + Wait + Sync>(
    rt: &R,
    alloc: Global,
    command: Command<'_>,
    bundle: &Bundle,
    gate: &G,
) -> Result<Said, ServeError>
    requires { RunsWith command MOST_WORKERS }
    ensures said { (input : List ℕ) → ReadsInput input (Ok bundle.now)
        → IfOk result (λ said. Says command.entry input (string_bytes said.text) said.closing) }
    ensures ends { (input : List ℕ) → ReadsInput input (Ok bundle.now)
        → IfRefused is_serve_memory result (Names (RefusesInput command.entry input) (Breaks command.entry input)) }
{
    match command {
        Command::Run(workers, format) => posted(rt, alloc, workers, format, bundle, gate),
        Command::Ordered(workers, format) => put_in_order(rt, alloc, workers, format, bundle, gate),
        Command::Eval(_)
        | Command::Check(_)
        | Command::List
        | Command::Plain(_)
        | Command::Explain(..) => unreachable!(),
    }
}

/// What a run says whose workers post to a board.
fn posted<G: Gate, R: Threads + Wait + Sync>(
    rt: &R,
    alloc: Global,
    workers: usize,
    format: Format,
    bundle: &Bundle,
    gate: &G,
) -> Result<Said, ServeError>
    requires { (1 ≤ workers) × (workers ≤ MOST_WORKERS) }
    ensures said { IfOk result (λ said. (histories : List (List Entry))
        × IsReported format bundle.now histories (string_bytes said.text) said.closing) }
    ensures ends { IfRefused is_serve_memory result
        (NamesWork (IsCauseOf (commands.Run workers format) bundle.now)) }
{
    let finished = finish_all(rt, alloc, bundle, workers, gate)?;
    Ok(report_of(alloc, format, bundle, &finished)?)
}

/// What a run says whose workers judge and whose numbers are applied in their order.
fn put_in_order<G: Gate, R: Threads + Wait + Sync>(
    rt: &R,
    alloc: Global,
    workers: usize,
    format: Format,
    bundle: &Bundle,
    gate: &G,
) -> Result<Said, ServeError>
    requires { (1 ≤ workers) × (workers ≤ MOST_WORKERS) }
    ensures said { IfOk result (λ said. (histories : List (List Entry)) × AllRise histories
        × IsReported format bundle.now histories (string_bytes said.text) said.closing) }
    ensures ends { IfRefused is_serve_memory result
        (NamesWork (IsCauseOf (commands.Ordered workers format) bundle.now)) }
{
    let finished = finish_ordered(rt, alloc, bundle, workers, gate)?;
    Ok(report_of(alloc, format, bundle, &finished)?)
}

/// The line of what a condition says.
fn line(alloc: Global, answer: Answer) -> Result<String, AllocError>
    ensures { IfOk result (λ text. string_bytes text ≡ line_of answer) }
{
    let mut out = String::new(alloc);
    match answer {
        Ok(true) => out.push_str("true\n")?,
        Ok(false) => out.push_str("false\n")?,
        Err(fault) => {
            out.push_str("fault ")?;
            out.push_str(fault.name())?;
            out.push_str("\n")?;
        }
    }
    Ok(out)
}

/// What a condition says, as it is to be written.
fn answer_text(alloc: Global, format: Format, answer: Answer) -> Result<String, AllocError>
    ensures { IfOk result
        (λ text. IsPrinted format (line_of answer) (answer_data answer) (string_bytes text)) }
{
    match format {
        Format::Text => line(alloc, answer),
        Format::Json => answer_json(alloc, answer),
    }
}

fn evaluated(alloc: Global, format: Format, input: &[u8]) -> Result<Answered, ServeError>
    ensures said { IfOk result
        (λ it. Says (commands.Eval format) input.now (string_bytes it.said.text) it.said.closing) }
    ensures warns { IfOk result (λ it. it.warnings.items ≡ []) }
    ensures refused { IfRefused is_serve_memory result (NamesRefusal (RefusesInput (commands.Eval format) input.now)) }
{
    let answer = evaluate(alloc, input)?;
    let text = answer_text(alloc, format, answer)?;
    Ok(well_said(text, Vec::new(alloc)))
}

/// A text whose command closes well.
pub(crate) fn well_said(text: String, warnings: Vec<Diagnostic>) -> Answered
    ensures text { string_bytes result.said.text ≡ string_bytes text }
    ensures closing { result.said.closing ≡ Good }
    ensures warnings { result.warnings.items ≡ warnings.items }
{
    let closing = Closing::Good;
    Answered {
        said: Said { text, closing },
        warnings,
    }
}

/// The bounds of a bundle's conditions, as they are to be written.
fn bounds_text(alloc: Global, format: Format, bundle: &Bundle) -> Result<String, AllocError>
    ensures { IfOk result (λ text. IsChecked format bundle.now (string_bytes text)) }
{
    match format {
        Format::Text => check_text(alloc, bundle),
        Format::Json => check_json(alloc, bundle),
    }
}

fn checked(alloc: Global, format: Format, input: &[u8]) -> Result<Answered, ServeError>
    ensures said { IfOk result
        (λ it. Says (commands.Check format) input.now (string_bytes it.said.text) it.said.closing) }
    ensures warns { IfOk result (λ it. AreWarningsOf input.now it.warnings.items) }
    ensures refused { IfRefused is_serve_memory result
        (NamesRefusal (RefusesInput (commands.Check format) input.now)) }
{
    let Reading { bundle, warnings } = read(alloc, input)?;
    let text = bounds_text(alloc, format, &bundle)?;
    Ok(well_said(text, warnings))
}

fn listed(alloc: Global, input: &[u8]) -> Result<Answered, ServeError>
    ensures said { IfOk result
        (λ it. Says commands.List input.now (string_bytes it.said.text) it.said.closing) }
    ensures warns { IfOk result (λ it. it.warnings.items ≡ []) }
    ensures refused { IfRefused is_serve_memory result (NamesRefusal (RefusesInput commands.List input.now)) }
{
    let bundle = read_bundle(alloc, input)?;
    let text = list_text(alloc, &bundle)?;
    Ok(well_said(text, Vec::new(alloc)))
}

fn reported_in_order(alloc: Global, format: Format, input: &[u8]) -> Result<Answered, ServeError>
    ensures said { IfOk result
        (λ it. ReportsInOrder format input.now (string_bytes it.said.text) it.said.closing) }
    ensures warns { IfOk result (λ it. AreWarningsOf input.now it.warnings.items) }
    ensures refused { IfRefused is_serve_memory result
        (NamesRefusal (RefusesInput (commands.Plain format) input.now)) }
{
    let Reading { bundle, warnings } = read(alloc, input)?;
    let said = plain_report(alloc, format, &bundle)?;
    Ok(Answered { said, warnings })
}

/// The report of a bundle's plain run.
fn plain_report(alloc: Global, format: Format, bundle: &Bundle) -> Result<Said, AllocError>
    ensures { IfOk result (λ said. (histories : List (List Entry)) × AllRise histories
        × IsReported format bundle.now histories (string_bytes said.text) said.closing) }
{
    let finished = finish_plain(alloc, bundle)?;
    report_of(alloc, format, bundle, &finished)
}

/// The report of finished runs, as it is to be written.
fn report_text(
    alloc: Global,
    format: Format,
    bundle: &Bundle,
    finished: &Finished,
) -> Result<String, AllocError>
    requires { AreFinished bundle.now finished.now }
    ensures { IfOk result (λ text. IsReport format
        (report_facts bundle.now (map numbers_of finished.now.histories)) (string_bytes text)) }
{
    match format {
        Format::Text => finished_report(alloc, bundle, finished),
        Format::Json => report_json(alloc, bundle, finished),
    }
}

/// The report of finished runs, and how it closes.
#[tactic(auto, using(crate::proofs::Reporting::reported_of))]
fn report_of(
    alloc: Global,
    format: Format,
    bundle: &Bundle,
    finished: &Finished,
) -> Result<Said, AllocError>
    requires { AreFinished bundle.now finished.now }
    ensures { IfOk result
        (λ said. IsReported format bundle.now finished.now.histories (string_bytes said.text) said.closing) }
{
    let text = report_text(alloc, format, bundle, finished)?;
    Ok(Said {
        text,
        closing: closing_of(&finished.states),
    })
}

/// Whether a run is Failed, Error or Inconclusive.
fn is_bad(state: &RunState) -> bool
    ensures { result ≡ is_unsuccessful state.now.phase }
{
    state.phase().is_unsuccessful()
}

fn any_bad(states: &[RunState]) -> bool
    ensures { result ≡ list_any (λ state. is_unsuccessful state.phase) states.now }
{
    states.iter().any(is_bad)
}

#[tactic(auto, using(crate::proofs::Reporting::bad_phases))]
fn closing_of(states: &[RunState]) -> Closing
    ensures { result ≡ closing_of (map (λ state. state.phase) states.now) }
{
    if any_bad(states) {
        Closing::Bad
    } else {
        Closing::Good
    }
}
