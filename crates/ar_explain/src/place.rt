//! Where parts are evaluated.

ghost use Rattle.std.specs.Prelude.{◌≡◌, [], IfOk, None, false};
ghost use Rattle.ar_value.specs.View.{value_view};
ghost use Rattle.ar_machine.specs.Operand.{value_of};
ghost use Rattle.ar_explain.specs.Private.Places.{at_item, place_view};

use ar_machine::operand::borrowed::ValueRef;
use ar_value::value::Value;
use std::alloc::{AllocError, Global};

/// Where a part is evaluated.
#[derive(Drop)]
pub(crate) struct Place<'v> {
    /// The measured value.
    pub value: &'v Value,
    /// The innermost item, if there is one.
    pub here: Option<ValueRef<'v>>,
    /// The numbers of the items around, the outermost first.
    pub items: Vec<usize>,
    /// Whether nothing is said of the part.
    pub silent: bool,
}

impl<'v> Place<'v> {
    /// Outside of all predicates.
    pub(crate) fn outermost(alloc: Global, value: &'v Value) -> Place<'v>
        ensures { place_view result
            ≡ record { result = value_view value.now; here = None; items = []; silent = false } }
    {
        Place {
            value,
            here: None,
            items: Vec::new(alloc),
            silent: false,
        }
    }

    /// The same place on an item.
    pub(crate) fn on_item(
        &self,
        alloc: Global,
        number: usize,
        item: ValueRef<'v>,
        silent: bool,
    ) -> Result<Place<'v>, AllocError>
        ensures { IfOk result
            (λ place. place_view place ≡ at_item number (value_of item.entry) silent (place_view self.now)) }
    {
        let mut items = self.items.as_slice().to_vec(alloc)?;
        items.push(number)?;
        Ok(Place {
            value: self.value,
            here: Some(item),
            items,
            silent,
        })
    }
}
