//! Nodes on the heap.

ghost use Rattle.std.specs.Prelude.{◌≡◌, IfOk};
ghost use Rattle.ar_tree.specs.Views.{expression_of};
ghost use Rattle.ar_syntax.specs.Private.Steps.{IsOperand};

use crate::state::{Refusal, State};
use ar_tree::tree::Tree;
use std::alloc::{AllocError, Global};

/// The node in a box.
pub(crate) fn boxed(alloc: Global, tree: Tree) -> Result<Box<Tree>, AllocError>
    ensures { IfOk result (λ boxed. boxed.value ≡ tree) }
{
    Ok(Box::new(alloc, tree)?)
}

/// The node as an operand that is there.
pub(crate) fn operand(alloc: Global, tree: Tree) -> Result<State, Refusal>
    ensures { IsOperand (expression_of tree) result }
{
    Ok(State::Have(Box::new(alloc, tree)?))
}
