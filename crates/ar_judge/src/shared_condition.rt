//! Conditions with several owners.

ghost use Rattle.std.specs.Prelude.{◌≡◌, IfOk};
ghost use Rattle.std.specs.Bool.{Decides};

use crate::condition::Condition;
use std::alloc::{AllocError, Global};
use std::marker::Model;
use std::sync::Arc;

/// A condition that is built once and has several owners, in any threads: the judges of the runs that bind the
/// same text. Contracts see the condition.
#[derive(Drop)]
pub struct SharedCondition {
    condition: Arc<Condition>,
}

impl Model for SharedCondition {
    ghost use Rattle.std.specs.Arc.{arc_value};
    ghost use Rattle.std.specs.Coded.{codes};
    ghost use Rattle.ar_value.specs.contracts.shape.Shape as shape_row;
    ghost use Rattle.ar_judge.specs.Condition.{Condition as Parts};

    ghost Value = { Parts };

    ghost coded = { Prim.hlevel (codes, shape_row.the_row.coded) };

    ghost view = { λ shared. arc_value shared.condition };
}

impl SharedCondition {
    /// A condition with one owner.
    pub fn new(alloc: Global, condition: Condition) -> Result<SharedCondition, AllocError>
        ensures { IfOk result (λ shared. shared ≡ condition) }
    {
        Ok(SharedCondition {
            condition: Arc::new(alloc, condition)?,
        })
    }

    /// The same condition for one owner more, which takes no memory: it is refused only where there are more
    /// owners than can be counted.
    pub fn share(&self) -> Result<SharedCondition, AllocError>
        ensures { IfOk result (λ shared. shared ≡ self.now) }
    {
        Ok(SharedCondition {
            condition: self.condition.clone()?,
        })
    }

    pub fn get(&self) -> &Condition
        ensures { result.now ≡ self.now }
    {
        &self.condition
    }

    /// Whether it was built of a text.
    pub fn is_of(&self, text: &str) -> bool
        ensures { Decides result (self.now.text ≡ text.now) }
    {
        self.get().text() == text
    }
}
