//! A condition that can be run.

ghost use Rattle.std.specs.Prelude.{◌≡◌, Some, true, IfOk, IsOk};
ghost use Rattle.ar_value.specs.Fits.{fits};
ghost use Rattle.ar_value.specs.View.{shape_view, value_view};
ghost use Rattle.ar_machine.specs.Filter.{BeginsNoFilter};
ghost use Rattle.ar_judge.specs.Building.{BuildsTo};
ghost use Rattle.ar_judge.specs.Saying.{said};
ghost use Rattle.ar_judge.specs.Headline.{HeadlineHolds};
ghost use Rattle.ar_judge.specs.Private.Readiness.{HasCode};

use crate::error::BuildCause;
use ar_check::check;
use ar_compile::compile;
use ar_machine::{Answer, run};
use ar_op::code::Code;
use ar_safety::Verified;
use ar_syntax::parse;
use ar_value::shape::Shape;
use ar_value::shared_shape::SharedShape;
use ar_value::text::Text;
use ar_value::value::Value;
use ar_verify::verify;
use std::alloc::{AllocError, Global};
use std::marker::Model;
use std::mem;

/// A condition's text with its verified code. Contracts see it as the `Condition` of
/// `specs/Headline`.
#[derive(Drop)]
pub struct Condition {
    text: Text,
    verified: Verified,
}

impl Model for Condition {
    ghost use Rattle.std.specs.Coded.{codes};
    ghost use Rattle.ar_value.specs.contracts.shape.Shape as shape_row;
    ghost use Rattle.ar_judge.specs.Condition.{Condition as Parts, condition_with};
    ghost use Rattle.ar_judge.specs.Private.Readiness.{IsReady};

    ghost Value = { Parts };

    ghost coded = { Prim.hlevel (codes, shape_row.the_row.coded) };

    ghost view = { λ c. condition_with c.text c.verified };

    ghost invariant = { λ c. IsReady c.text c.verified };
}

impl Condition {
    /// The condition of a text where `result` has a shape.
    ///
    /// # Errors
    ///
    /// The first fault of its grammar, of its kinds, or of its code.
    pub fn build(alloc: Global, text: &str, shape: SharedShape) -> Result<Condition, BuildCause>
        ensures built { BuildsTo (shape_view shape) text.now result }
        // On each value of the shape its code ends within its budget, is never stuck, and returns what the
        // text means.
        ensures headline { IfOk result (HeadlineHolds (shape_view shape) text.now) }
    {
        let code = code_of(alloc, text, shape.get())?;
        match verify(alloc, code, shape) {
            Ok(verified) => Ok(Condition {
                text: Text::of(alloc, text)?,
                verified,
            }),
            Err(refused) => Err(refused.cause.into()),
        }
    }

    /// The text that it was built of.
    pub fn text(&self) -> &str
        ensures { result.now ≡ self.now.text }
    {
        self.text.as_str()
    }

    /// Its verified code.
    #[tactic(auto, using(crate::proofs::Ready::ready_holds))]
    pub fn verified(&self) -> &Verified
        ensures verified { result.now ≡ self.now.verified }
        // On each value of the shape its code ends within its budget, is never stuck, and answers what the
        // text means.
        ensures headline { HeadlineHolds (shape_view self.now.verified.shape) self.now.text self.now }
    {
        &self.verified
    }

    /// The boolean or the named fault that its text means on a value of its shape, by the machine.
    ///
    /// # Errors
    ///
    /// Out of memory alone, which only the begin of a loop of a `filter` over items takes.
    #[tactic(auto, using(crate::proofs::Running::run_says))]
    pub fn answer(&self, alloc: Global, value: &Value) -> Result<Answer, AllocError>
        requires { fits (value_view value.now) (shape_view self.now.verified.shape) ≡ true }
        ensures exact { IfOk result (λ answer.
            said (shape_view self.now.verified.shape) self.now.text (value_view value.now) ≡ Some answer) }
        // A run that begins no loop of a `filter` over items succeeds whatever memory is left.
        ensures without_memory { BeginsNoFilter self.now.verified.code (value_view value.now) → IsOk result }
    {
        Ok(run(alloc, &self.verified, value)?.answer)
    }
}

/// The code of the tree of a text that has kinds where `result` has a shape.
fn code_of(alloc: Global, text: &str, shape: &Shape) -> Result<Code, BuildCause>
    ensures { HasCode (shape_view shape.now) text.now result }
{
    let tree = check(alloc, parse(alloc, text)?, shape)?;
    let code = compile(alloc, &tree);
    mem::drop(tree);
    Ok(code?)
}
