//! A misfit in memory.

ghost use Rattle.std.specs.Prelude.{◌≡◌, IfOk, map, option_map, reverse};
ghost use Rattle.serde_json.specs.View.{view};
ghost use Rattle.ar_value.specs.View.{shape_view};
ghost use Rattle.ar_misfit.specs.Misfit.{after_step, misfit_here};
ghost use Rattle.ar_misfit.specs.Private.Inward.{inward_view};
ghost use Rattle.ar_misfit.specs.Views.{misfit_view, step_view};

use ar_json::ShapeFault;
use ar_value::shape::Shape;
use serde_json::Value as Json;
use std::alloc::{AllocError, Global};

/// A step from a list to its item of an index, from 0, or from a record to its field of a name.
#[derive(Clone, Copy)]
pub enum Step<'d> {
    Index(usize),
    Named(&'d str),
}

/// The first place at which a value doesn't fit its shape.
#[derive(Drop)]
pub struct Misfit<'d> {
    /// The steps to it, the outermost first.
    pub path: Vec<Step<'d>>,
    /// The shape with which a value there is read.
    pub expected: &'d Shape,
    /// Nothing where a field is missing.
    pub found: Option<&'d Json>,
    pub fault: ShapeFault,
}

impl<'d> Misfit<'d> {
    /// A misfit that no step leads to.
    pub(crate) fn here(
        alloc: Global,
        expected: &'d Shape,
        found: Option<&'d Json>,
        fault: ShapeFault,
    ) -> Misfit<'d>
        ensures { inward_view result
            ≡ misfit_here (shape_view expected.now) (option_map (λ json. view json.now) found.entry) fault }
    {
        Misfit {
            path: Vec::new(alloc),
            expected,
            found,
            fault,
        }
    }

    /// The misfit in what a step leads to, whose steps are in memory from the innermost on.
    pub(crate) fn after(self, step: Step<'d>) -> Result<Misfit<'d>, AllocError>
        ensures { IfOk result
            (λ longer. inward_view longer ≡ after_step (step_view step.entry) (inward_view self.entry)) }
    {
        let mut longer = self;
        longer.path.push(step)?;
        Ok(longer)
    }

    /// The misfit with its steps from the outermost on.
    pub(crate) fn outward(self) -> Misfit<'d>
        ensures { misfit_view result ≡ inward_view self.entry }
    {
        let mut outward = self;
        outward.path.reverse();
        outward
    }
}
