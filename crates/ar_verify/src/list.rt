//! The shapes of lists among those of operands.

ghost use Rattle.std.proofs.Props.{props};
ghost use Rattle.std.specs.Prelude.{◌≡◌, true};
ghost use Rattle.ar_verify.specs.Private.Lists.{is_list};
ghost use Rattle.ar_verify.specs.Private.Shapes.{parts_view};

use crate::parts::Parts;
use crate::whole::ShapeName;
use std::rc::Rc;

/// The shape of an operand that is a list.
#[derive(Drop)]
pub(crate) struct ListShape<M: ShapeName> {
    pub parts: Rc<Parts<M>>,
    ghost is_list: { is_list (parts_view parts.value) ≡ true } by { Prim.hlevel props },
}
