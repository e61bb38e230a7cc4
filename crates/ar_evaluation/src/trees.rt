//! The trees of conditions, by which they are evaluated part by part.

ghost use Rattle.std.specs.Prelude.{◌≡◌, IfOk, map, option_map, slice_get};
ghost use Rattle.ar_judge.specs.Saying.{typed_text};
ghost use Rattle.ar_tree.specs.Views.{typed_view};
ghost use Rattle.ar_value.specs.View.{shape_view};
ghost use Rattle.ar_evaluation.specs.Private.Trees.{tree_in, condition_tree, trees_of, judge_trees_view};

use ar_check::{TypeError, check};
use ar_judge::{Condition, Judge, SharedCondition, Which};
use ar_syntax::{SyntaxError, parse};
use ar_tree::{Tree, Typed};
use std::alloc::{AllocError, Global};

/// The trees of a judge's conditions, each where the condition is there.
#[derive(Drop)]
pub struct JudgeTrees {
    pub success: Option<Typed>,
    pub failure: Option<Typed>,
}

/// The tree of a condition's text, if it has one. A bundle's conditions have trees.
fn tree_in(alloc: Global, condition: &Condition) -> Result<Option<Typed>, AllocError>
    ensures { IfOk result (λ tree. option_map typed_view tree
        ≡ tree_in (typed_text (shape_view condition.now.verified.shape) condition.now.text)) }
{
    let tree = match parse(alloc, condition.text()) {
        Ok(tree) => tree,
        Err(SyntaxError::OutOfMemory) => return Err(AllocError),
        Err(_) => return Ok(None),
    };
    match check(alloc, tree, condition.verified().shape()) {
        Ok(tree) => Ok(Some(tree)),
        Err(TypeError::OutOfMemory) => Err(AllocError),
        Err(_) => Ok(None),
    }
}

/// The tree of a condition, where it is there.
fn condition_tree(
    alloc: Global,
    condition: Option<&SharedCondition>,
) -> Result<Option<Typed>, AllocError>
    ensures { IfOk result (λ tree. option_map typed_view tree
        ≡ condition_tree (option_map (λ condition. condition.now) condition.entry)) }
{
    match condition {
        Some(condition) => tree_in(alloc, condition.get()),
        None => Ok(None),
    }
}

fn judge_trees(alloc: Global, judge: &Judge) -> Result<JudgeTrees, AllocError>
    ensures { IfOk result (λ trees. judge_trees_view trees ≡ trees_of judge.now) }
{
    Ok(JudgeTrees {
        success: condition_tree(alloc, judge.condition(Which::Success))?,
        failure: condition_tree(alloc, judge.condition(Which::Failure))?,
    })
}

/// The trees of judges, made once for all events of a run.
#[tactic(auto, using(crate::proofs::Judges::next_judge, crate::proofs::Judges::no_judge_left))]
pub fn trees_of(alloc: Global, judges: &[Judge]) -> Result<Vec<JudgeTrees>, AllocError>
    ensures { IfOk result (λ trees. map judge_trees_view trees.items ≡ map trees_of judges.now) }
{
    let mut trees = Vec::with_capacity(alloc, judges.len())?;
    for judge in judges {
        trees.push(judge_trees(alloc, judge)?)?;
    }
    Ok(trees)
}

/// The trees of the metric with a number.
pub fn trees_at(trees: &[JudgeTrees], metric: usize) -> Option<&JudgeTrees>
    ensures { option_map (λ trees. trees.now) result ≡ slice_get trees.now metric }
{
    trees.get(metric)
}

/// A condition's tree with its text, and which of a metric's two it is.
#[derive(Clone, Copy)]
pub(crate) struct NamedTree<'t> {
    pub which: &'t str,
    pub text: &'t str,
    pub tree: &'t Typed,
}
