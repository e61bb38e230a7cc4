//! The shape of the measured value, by a name: all of one name are the same, which no reference shows.

ghost use Rattle.std.specs.Prelude.{◌≡◌};
ghost use Rattle.std.specs.Coded.{codes};
ghost use Rattle.ar_value.specs.contracts.shape.Shape as shape_row;

use ar_value::shape::Shape;
use ar_value::shared_shape::SharedShape;
use std::alloc::{AllocError, Global};
use std::marker::{Brand, PhantomData};
use std::rc::Rc;

/// Names the shape of the measured value.
pub(crate) trait ShapeName {
    ghost use Rattle.ar_value.specs.declared.shape.Shape.{Shape};

    ghost shape: { Shape };
}

impl ShapeName for Brand {
    ghost use Rattle.ar_value.specs.declared.shape.Shape.TheVariants.{Bool};

    ghost shape = { Bool };
}

/// The shape that is named, which exists once.
#[derive(Drop)]
pub(crate) struct Whole<M: ShapeName> {
    shape: Rc<SharedShape>,
    name: PhantomData<M>,
    ghost is: { shape.value ≡ M.shape } by { Prim.hlevel (codes, shape_row.the_row.coded) },
}

impl<M: ShapeName> Whole<M> {
    pub(crate) fn new(alloc: Global, shape: &SharedShape) -> Result<Whole<M>, AllocError>
        requires { shape.now ≡ M.shape }
    {
        Ok(Whole {
            shape: Rc::new(alloc, shape.share()?)?,
            name: PhantomData,
        })
    }

    pub(crate) fn get(&self) -> &Shape
        ensures { result.now ≡ M.shape }
    {
        self.shape.get()
    }

    /// One owner more, which takes no memory.
    pub(crate) fn try_clone(&self) -> Result<Whole<M>, AllocError> {
        Ok(Whole {
            shape: self.shape.clone()?,
            name: PhantomData,
        })
    }
}
