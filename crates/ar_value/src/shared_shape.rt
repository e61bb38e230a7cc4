//! Shapes with several owners.

ghost use Rattle.std.specs.Prelude.{◌≡◌, IfOk};

use crate::shape::Shape;
use std::alloc::{AllocError, Global};
use std::marker::Model;
use std::sync::Arc;

/// A shape that is kept once and has several owners, in any threads, as the conditions of a metric in
/// all runs. Contracts see the shape.
#[derive(Drop)]
pub struct SharedShape {
    shape: Arc<Shape>,
}

impl Model for SharedShape {
    ghost use Rattle.std.specs.Arc.{arc_value};
    ghost use Rattle.ar_value.specs.contracts.shape.Shape as shape_row;
    ghost use Rattle.ar_value.specs.declared.shape.Shape.{Shape};

    ghost Value = { Shape };

    ghost coded = { shape_row.the_row.coded };

    ghost view = { λ shared. arc_value shared.shape };
}

impl SharedShape {
    /// A shape with one owner.
    pub fn new(alloc: Global, shape: Shape) -> Result<SharedShape, AllocError>
        ensures { IfOk result (λ shared. shared ≡ shape) }
    {
        Ok(SharedShape {
            shape: Arc::new(alloc, shape)?,
        })
    }

    /// The same shape for one owner more, which takes no memory: it is refused only where there are
    /// more owners than can be counted.
    pub fn share(&self) -> Result<SharedShape, AllocError>
        ensures { IfOk result (λ shared. shared ≡ self.now) }
    {
        Ok(SharedShape {
            shape: self.shape.clone()?,
        })
    }

    pub fn get(&self) -> &Shape
        ensures { result.now ≡ self.now }
    {
        &self.shape
    }
}
