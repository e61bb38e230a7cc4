//! A command, carried out from the bytes read to the bytes written.

ghost use Rattle.std.specs.Prelude.{◌≡◌, ◌≢◌, [], false, true, Err, IfErr, IfOk, OnErr, OnOk, string_bytes};
ghost use Rattle.ar_command.specs.Serving.{Breaks, IsBroken, RunsAlone, RunsWith};
ghost use Rattle.ar_command_line.specs.Output.{AppendsAll, AppendsFront};
ghost use Rattle.ar_command.specs.Served.{IfBroken, Served, ServedInput, ServedKeeping};
ghost use Rattle.ar_command.specs.Warned.{Warns, WarnsOnce};

use crate::answer::{Answered, answer, judged};
use ar_board::MOST_WORKERS;
use ar_command_line::{Command, InputError, Sink, Source, read_input, write_output};
use ar_diagnostic::Diagnostic;
use ar_document::BundleError;
use ar_eval::EvalError;
use ar_workers::{Gate, WorkError};
use std::alloc::{AllocError, Global};
use std::sync::Wait;
use std::thread::Threads;
use thiserror::Error;

/// What is kept of a command besides its answer.
#[derive(Drop)]
pub struct Kept {
    /// The input as it was read: it has the names that a refusal shows.
    pub input: Vec<u8>,
    pub warnings: Vec<Diagnostic>,
}

impl Kept {
    /// Keeps nothing yet.
    pub fn new(alloc: Global) -> Kept
        ensures input { result.input.items ≡ [] }
        ensures warnings { result.warnings.items ≡ [] }
    {
        Kept {
            input: Vec::new(alloc),
            warnings: Vec::new(alloc),
        }
    }
}

/// How a command ended.
#[derive(Clone, Copy)]
pub enum Closing {
    Good,
    /// A run is reported as Failed, Error or Inconclusive.
    Bad,
}

/// Why an input is refused.
#[derive(Clone, Copy, Debug, Error)]
pub enum Refusal {
    #[error(transparent)]
    Eval(EvalError),
    #[error(transparent)]
    Bundle(BundleError),
    /// There is no run, metric or measurement that was named.
    #[error("NotThere")]
    NotThere,
}

/// Why a command wasn't carried out.
#[derive(Debug, Drop, Error)]
pub enum ServeError {
    #[error("input: Read: the input can't be read")]
    Read,
    #[error(transparent)]
    Refused(Refusal),
    #[error(transparent)]
    Work(WorkError),
    #[error("output: Write: the output can't be written")]
    Write,
    #[error("out of memory")]
    OutOfMemory,
}

impl From<InputError> for ServeError {
    ghost use Rattle.std.specs.Prelude.{◌≡◌};
    ghost use Rattle.ar_command.specs.Serving.{of_input};

    ghost from_gives = { λ input e. e ≡ of_input input };

    fn from(error: InputError) -> ServeError {
        match error {
            InputError::Read => ServeError::Read,
            InputError::OutOfMemory => ServeError::OutOfMemory,
        }
    }
}

impl From<EvalError> for ServeError {
    ghost use Rattle.std.specs.Prelude.{◌≡◌};
    ghost use Rattle.ar_command.specs.Serving.{of_eval};

    ghost from_gives = { λ eval e. e ≡ of_eval eval };

    fn from(error: EvalError) -> ServeError {
        match error {
            EvalError::OutOfMemory => ServeError::OutOfMemory,
            error => ServeError::Refused(Refusal::Eval(error)),
        }
    }
}

impl From<BundleError> for ServeError {
    ghost use Rattle.std.specs.Prelude.{◌≡◌};
    ghost use Rattle.ar_command.specs.Serving.{of_bundle};

    ghost from_gives = { λ bundle e. e ≡ of_bundle bundle };

    fn from(error: BundleError) -> ServeError {
        match error {
            BundleError::OutOfMemory => ServeError::OutOfMemory,
            error => ServeError::Refused(Refusal::Bundle(error)),
        }
    }
}

impl From<WorkError> for ServeError {
    ghost use Rattle.std.specs.Prelude.{◌≡◌};
    ghost use Rattle.ar_command.specs.Serving.{of_work};

    ghost from_gives = { λ work e. e ≡ of_work work };

    fn from(error: WorkError) -> ServeError {
        match error {
            WorkError::OutOfMemory => ServeError::OutOfMemory,
            error => ServeError::Work(error),
        }
    }
}

impl From<AllocError> for ServeError {
    ghost use Rattle.std.specs.Prelude.{◌≡◌};
    ghost use Rattle.ar_command.specs.declared.serving.ServeError.TheVariants.{OutOfMemory};

    ghost from_gives = { λ _ e. e ≡ OutOfMemory };

    fn from(_error: AllocError) -> ServeError {
        ServeError::OutOfMemory
    }
}

/// Reads a document, runs it with workers, and writes the report. A refused document, workers that
/// give no report, or out of memory, have nothing written.
///
/// # Errors
///
/// `Read` and `Write` where the reader or the writer failed, `Refused` for the first fault of the
/// document, `Work` where a thread couldn't be started or a number was lost.
pub fn serve<S: Source, W: Sink, G: Gate, R: Threads + Wait + Sync>(
    rt: &R,
    alloc: Global,
    command: Command<'_>,
    reader: &mut S,
    writer: &mut W,
    gate: &G,
) -> Result<Closing, ServeError>
    requires command { RunsWith command MOST_WORKERS }
    requires reader_works { S.has_failed reader.old ≡ false }
    requires writer_works { W.has_failed writer.old ≡ false }

    ensures served { Served command.entry S.taken S.remaining S.reads S.has_failed reader.old reader.new
        W.contents W.calls W.has_failed writer.old writer.new result }

    // A lost number is shown, and an ordered run loses none.
    ensures work { IfBroken result (IsBroken command.entry (S.taken reader.old) (S.taken reader.new)) }
{
    let mut kept = Kept::new(alloc);
    serve_keeping(rt, alloc, command, reader, writer, gate, &mut kept)
}

/// [`serve`], of which the input and the warnings are kept.
///
/// # Errors
///
/// Those of [`serve`].
pub fn serve_keeping<S: Source, W: Sink, G: Gate, R: Threads + Wait + Sync>(
    rt: &R,
    alloc: Global,
    command: Command<'_>,
    reader: &mut S,
    writer: &mut W,
    gate: &G,
    kept: &mut Kept,
) -> Result<Closing, ServeError>
    requires command { RunsWith command MOST_WORKERS }
    requires reader_works { S.has_failed reader.old ≡ false }
    requires writer_works { W.has_failed writer.old ≡ false }

    ensures served { ServedKeeping command.entry S.taken S.remaining S.reads S.has_failed reader.old reader.new
        W.contents W.calls W.has_failed writer.old writer.new kept.old kept.new result }
    ensures work { IfBroken result (Breaks command.entry kept.new.input.items) }
{
    let input = read_input(alloc, reader)?;
    let result = serve_input(rt, alloc, command, &input, writer, gate, &mut kept.warnings);
    kept.input = input;
    result
}

/// [`serve`] of an input that was read before, with what the command warns of.
///
/// # Errors
///
/// Those of [`serve`], without `Read`.
pub fn serve_input<W: Sink, G: Gate, R: Threads + Wait + Sync>(
    rt: &R,
    alloc: Global,
    command: Command<'_>,
    input: &[u8],
    writer: &mut W,
    gate: &G,
    warnings: &mut Vec<Diagnostic>,
) -> Result<Closing, ServeError>
    requires command { RunsWith command MOST_WORKERS }
    requires writer_works { W.has_failed writer.old ≡ false }

    ensures served { ServedInput command.entry input.now
        W.contents W.calls W.has_failed writer.old writer.new result }
    ensures warns { WarnsOnce result warnings.old.items warnings.new.items (Warns command.entry input.now) }

    // A lost number is shown, and an ordered run loses none.
    ensures work { IfBroken result (Breaks command.entry input.now) }
{
    let answered = judged(rt, alloc, command, input, gate)?;
    write(writer, answered, warnings)
}

/// Reads a document, carries a command for one thread out on it, and writes the answer. For a refused
/// document, or out of memory, nothing is written.
///
/// # Errors
///
/// `Read` and `Write` where the reader or the writer failed, `Refused` for the first fault of the
/// document.
pub fn serve_plain<S: Source, W: Sink>(
    alloc: Global,
    command: Command<'_>,
    reader: &mut S,
    writer: &mut W,
) -> Result<Closing, ServeError>
    requires command { RunsAlone command }
    requires reader_works { S.has_failed reader.old ≡ false }
    requires writer_works { W.has_failed writer.old ≡ false }

    ensures served { Served command.entry S.taken S.remaining S.reads S.has_failed reader.old reader.new
        W.contents W.calls W.has_failed writer.old writer.new result }

    // There are no workers.
    ensures work { (error : WorkError) → result ≢ Err (ServeError.Work error) }
{
    let mut kept = Kept::new(alloc);
    serve_plain_keeping(alloc, command, reader, writer, &mut kept)
}

/// [`serve_plain`], of which the input and the warnings are kept.
///
/// # Errors
///
/// Those of [`serve_plain`].
pub fn serve_plain_keeping<S: Source, W: Sink>(
    alloc: Global,
    command: Command<'_>,
    reader: &mut S,
    writer: &mut W,
    kept: &mut Kept,
) -> Result<Closing, ServeError>
    requires command { RunsAlone command }
    requires reader_works { S.has_failed reader.old ≡ false }
    requires writer_works { W.has_failed writer.old ≡ false }

    ensures served { ServedKeeping command.entry S.taken S.remaining S.reads S.has_failed reader.old reader.new
        W.contents W.calls W.has_failed writer.old writer.new kept.old kept.new result }
    ensures work { (error : WorkError) → result ≢ Err (ServeError.Work error) }
{
    let input = read_input(alloc, reader)?;
    let result = serve_plain_input(alloc, command, &input, writer, &mut kept.warnings);
    kept.input = input;
    result
}

/// [`serve_plain`] of an input that was read before, with what the command warns of.
///
/// # Errors
///
/// Those of [`serve_plain`], without `Read`.
pub fn serve_plain_input<W: Sink>(
    alloc: Global,
    command: Command<'_>,
    input: &[u8],
    writer: &mut W,
    warnings: &mut Vec<Diagnostic>,
) -> Result<Closing, ServeError>
    requires command { RunsAlone command }
    requires writer_works { W.has_failed writer.old ≡ false }

    ensures served { ServedInput command.entry input.now
        W.contents W.calls W.has_failed writer.old writer.new result }
    ensures warns { WarnsOnce result warnings.old.items warnings.new.items (Warns command.entry input.now) }

    // There are no workers.
    ensures work { (error : WorkError) → result ≢ Err (ServeError.Work error) }
{
    let answered = answer(alloc, command, input)?;
    write(writer, answered, warnings)
}

/// Writes what a command says, hands on its warnings, and returns how it closes.
fn write<W: Sink>(
    writer: &mut W,
    answered: Answered,
    warnings: &mut Vec<Diagnostic>,
) -> Result<Closing, ServeError>
    requires { W.has_failed writer.old ≡ false }
    ensures closing { IfOk result (λ closing. closing ≡ answered.said.closing) }
    ensures wrote { OnOk result
        (AppendsAll W.contents W.calls writer.old writer.new (string_bytes answered.said.text)) }
    ensures front { OnErr result
        (AppendsFront W.contents W.calls writer.old writer.new (string_bytes answered.said.text)) }
    ensures works { OnOk result (W.has_failed writer.new ≡ false) }
    ensures fails { IfErr result (λ e. (e ≡ ServeError.Write) × (W.has_failed writer.new ≡ true)) }
    ensures warns { WarnsOnce result warnings.old.items warnings.new.items (λ found. found ≡ answered.warnings.items) }
{
    match write_output(writer, answered.said.text.as_bytes()) {
        Ok(()) => {
            *warnings = answered.warnings;
            Ok(answered.said.closing)
        }
        Err(_) => Err(ServeError::Write),
    }
}
