//! The first half of the headline, that the parser says what the grammar says, and which conditions are
//! judged whatever memory is left. A law is the contract of a function that changes nothing.

ghost use Rattle.std.specs.Prelude.{◌≡◌, ◌↔◌, ℕ, Bool, List, Option, Result, Some};
ghost use Rattle.ar_value.specs.Shape.{Shape};
ghost use Rattle.ar_value.specs.Value.{Value};
ghost use Rattle.ar_value.specs.View.{shape_view};
ghost use Rattle.ar_value.specs.declared.fault.Fault.{Fault};
ghost use Rattle.ar_judge.specs.Built.{IsBuilt};
ghost use Rattle.ar_judge.specs.Condition.{Condition};
ghost use Rattle.ar_judge.specs.Filters.{BeginsOnlyWrittenFilters};
ghost use Rattle.ar_judge.specs.Headline.{HeadlineHolds};
ghost use Rattle.ar_judge.specs.JudgeHeadline.{JudgeHeadlineHolds};
ghost use Rattle.ar_judge.specs.Saying.{said};
ghost use Rattle.ar_judge.specs.Text.{TextSays};
ghost use Rattle.ar_judge.specs.Verdict.{IsJudge, Judge};

use crate::condition::Condition;

/// A condition that the verifier accepts, run on any measurement of its declared shape, ends within
/// its budget, never meets a missing or ill-kinded operand or a jump outside its code, and gives the
/// verdict or named fault of its expression's definition. Only `Condition::build` makes conditions.
pub fn headline(condition: &Condition)
    ensures { HeadlineHolds (shape_view condition.now.verified.shape) condition.now.text condition.now }
{
    let _verified = condition.verified();
}

/// The headline of each condition that a text is built to under a shape, as the definitions have it: what `headline`
/// says of the values that the program makes.
pub fn built_headline()
    ensures { (shape : Shape) (text : List ℕ) (condition : Condition)
        → IsBuilt shape text condition → HeadlineHolds shape text condition }
{}

/// The verdict of a metric's measured value is by what its conditions' code returns.
pub fn judge_headline()
    ensures { (shape : Shape) (success failure : Option (List ℕ)) (judge : Judge)
        → IsJudge shape success failure judge → JudgeHeadlineHolds shape success failure judge }
{}

/// What the parser makes of a text says of a value what the text says by the grammar.
pub fn said_is_by_grammar()
    ensures { (shape : Shape) (text : List ℕ) (value : Value) (answer : Result Bool Fault)
        → (said shape text value ≡ Some answer) ↔ TextSays shape text value answer }
{}

/// A condition whose tree has no `filter` has code without one, so that it is run whatever memory is left.
#[tactic(auto, using(crate::proofs::Filters::filters_as_written))]
pub fn filters_as_written()
    ensures { (shape : Shape) (text : List ℕ) (condition : Condition)
        → IsBuilt shape text condition → BeginsOnlyWrittenFilters shape text condition }
{}
