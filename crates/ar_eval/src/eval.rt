//! `eval`: one condition, judged on one value.

ghost use Rattle.std.specs.Prelude.{◌≡◌, ◌<◌, Err, List, false, length, ℕ};
ghost use Rattle.ar_value.specs.Answer.{UnlessMemory};
ghost use Rattle.serde_json.specs.View.{view};
ghost use Rattle.ar_value.specs.Answer as answer;
ghost use Rattle.ar_eval.specs.Evaluation.{Answers, Evaluates, Follows, is_eval_memory, prepared_of, document_parts, prepared};
ghost use Rattle.ar_value.specs.Shape.{Shape as Declared};
ghost use Rattle.ar_value.specs.View.{shape_view};
ghost use Rattle.ar_judge.specs.Built.{IsBuilt};
ghost use Rattle.ar_json.specs.Document.{most_bytes};
ghost use Rattle.ar_eval.specs.declared.eval.EvalError.TheVariants.{TooLarge};

use ar_check::TypeError;
use ar_compile::CompileError;
use ar_json::shape_reading::{ShapeError, read_shape};
use ar_json::value_reading::{ShapeFault, read_value};
use ar_json::{JsonError, read_json};
use ar_judge::{BuildCause, Condition};
use ar_machine::Answer;
use ar_safety::Reason;
use ar_syntax::SyntaxError;
use ar_value::shared_shape::SharedShape;
use serde_json::Value as Json;
use std::alloc::{AllocError, Global};
use thiserror::Error;

/// Why an input can't be evaluated, in the order of the checks.
#[derive(Clone, Copy, Debug, Error)]
pub enum EvalError {
    #[error("TooLarge")]
    TooLarge,
    #[error("Utf8OrJson")]
    Utf8OrJson,
    #[error("BadDocument")]
    BadDocument,
    #[error("{0}")]
    Shape(ShapeError),
    #[error("{0}")]
    Grammar(SyntaxError),
    #[error("{0}")]
    Kinds(TypeError),
    #[error("{0}")]
    Compiler(CompileError),
    /// The verifier refuses the condition's code at an operation, counted from 0.
    #[error("{1} at {0}")]
    Verifier(usize, Reason),
    #[error("{0}")]
    Misfit(ShapeFault),
    #[error("OutOfMemory")]
    OutOfMemory,
}

impl From<BuildCause> for EvalError {
    ghost use Rattle.std.specs.Prelude.{◌≡◌};
    ghost use Rattle.ar_eval.specs.Evaluation.{of_build};

    ghost from_gives = { λ cause e. e ≡ of_build cause };

    fn from(cause: BuildCause) -> EvalError {
        match cause {
            BuildCause::Grammar(error) => EvalError::Grammar(error),
            BuildCause::Kinds(error) => EvalError::Kinds(error),
            BuildCause::Compiler(error) => EvalError::Compiler(error),
            BuildCause::Verifier(index, reason) => EvalError::Verifier(index, reason),
            BuildCause::OutOfMemory => EvalError::OutOfMemory,
        }
    }
}

impl From<ShapeError> for EvalError {
    ghost use Rattle.std.specs.Prelude.{◌≡◌};
    ghost use Rattle.ar_eval.specs.Evaluation.{of_shape};

    ghost from_gives = { λ error e. e ≡ of_shape error };

    fn from(error: ShapeError) -> EvalError {
        match error {
            ShapeError::OutOfMemory => EvalError::OutOfMemory,
            error => EvalError::Shape(error),
        }
    }
}

impl From<ShapeFault> for EvalError {
    ghost use Rattle.std.specs.Prelude.{◌≡◌};
    ghost use Rattle.ar_eval.specs.Evaluation.{of_misfit};

    ghost from_gives = { λ fault e. e ≡ of_misfit fault };

    fn from(fault: ShapeFault) -> EvalError {
        match fault {
            ShapeFault::OutOfMemory => EvalError::OutOfMemory,
            fault => EvalError::Misfit(fault),
        }
    }
}

impl From<AllocError> for EvalError {
    ghost use Rattle.std.specs.Prelude.{◌≡◌};
    ghost use Rattle.ar_eval.specs.declared.eval.EvalError.TheVariants.{OutOfMemory};

    ghost from_gives = { λ _ e. e ≡ OutOfMemory };

    fn from(_error: AllocError) -> EvalError {
        EvalError::OutOfMemory
    }
}

impl From<JsonError> for EvalError {
    ghost use Rattle.std.specs.Prelude.{◌≡◌};
    ghost use Rattle.ar_eval.specs.Evaluation.{eval_json_error};

    ghost from_gives = { λ error e. e ≡ eval_json_error error };

    fn from(error: JsonError) -> EvalError {
        match error {
            JsonError::TooLarge => EvalError::TooLarge,
            JsonError::Utf8OrJson => EvalError::Utf8OrJson,
            JsonError::OutOfMemory => EvalError::OutOfMemory,
        }
    }
}

/// What the condition of a JSON document says of its value: the document is an object with a text
/// `condition`, a `shape` and a `value`.
///
/// # Errors
///
/// The first fault in the input, in the order of `EvalError`.
#[tactic(auto, using(crate::proofs::Judging::of_document, crate::proofs::Judging::of_no_document))]
pub fn evaluate(alloc: Global, input: &[u8]) -> Result<Answer, EvalError>
    ensures exact { UnlessMemory is_eval_memory result (Evaluates input.now) }

    // An input that is too large is refused for that alone.
    ensures too_large { most_bytes < length input.now → result ≡ Err TooLarge }
{
    let document = read_json(alloc, input)?;
    judge(alloc, &document)
}

/// What the condition of a document says of its value.
#[tactic(auto, unfolding(crate::specs::Evaluation::prepared))]
fn judge(alloc: Global, document: &Json) -> Result<Answer, EvalError>
    ensures { UnlessMemory is_eval_memory result (Follows (prepared (view document.now))) }
{
    let (text, declared, measured) = parts_of(document)?;
    let shape = SharedShape::new(alloc, read_shape(alloc, declared)?)?;
    judge_text(alloc, text, shape, measured)
}

/// What a condition's text says of what was measured.
#[tactic(auto, using(crate::proofs::Judging::not_built))]
fn judge_text(
    alloc: Global,
    text: &str,
    shape: SharedShape,
    measured: &Json,
) -> Result<Answer, EvalError>
    ensures { UnlessMemory is_eval_memory result
        (Answers (prepared_of text.now (shape_view shape) (view measured.now))) }
{
    let condition = Condition::build(alloc, text, shape)?;
    answer(alloc, &condition, measured)
}

/// The answer of a condition on a measured JSON value: a boolean or a fault, or why the value doesn't fit the shape.
#[tactic(auto, using(crate::proofs::Judging::answered))]
fn answer(alloc: Global, condition: &Condition, measured: &Json) -> Result<Answer, EvalError>
    ensures { (text : List ℕ) (shape : Declared) → IsBuilt shape text condition.now
        → UnlessMemory is_eval_memory result (Answers (prepared_of text shape (view measured.now))) }
{
    let value = read_value(alloc, measured, condition.verified().shape())?;
    Ok(condition.answer(alloc, &value)?)
}

/// A document's condition, shape and value.
fn parts_of(document: &Json) -> Result<(&str, &Json, &Json), EvalError>
    ensures { answer.Gives (λ _. false) (λ parts. (parts.0.now, view parts.1.now, view parts.2.now)) result
        (document_parts (view document.now)) }
{
    let condition = document
        .get("condition")
        .and_then(Json::as_str)
        .ok_or(EvalError::BadDocument)?;
    let declared = document.get("shape").ok_or(EvalError::BadDocument)?;
    let measured = document.get("value").ok_or(EvalError::BadDocument)?;
    Ok((condition, declared, measured))
}
