//! The shapes of operands, as the parts that were joined in them.

ghost use Rattle.std.proofs.Props.{props};
ghost use Rattle.std.specs.Prelude.{◌≡◌, true, map};
ghost use Rattle.ar_verify.specs.Private.Forms.{all_alike};
ghost use Rattle.ar_verify.specs.Private.Parts.{part_view};

use crate::path::Part;
use crate::whole::ShapeName;
use std::rc::Rc;

/// The shape of an operand: that of a part, or of joined parts, which differ in greatest lengths only.
/// Of these the greatest count; no shape is made of them.
#[derive(Drop)]
pub(crate) struct Parts<M: ShapeName> {
    pub first: Rc<Part<M>>,
    /// Each is here once.
    pub others: Vec<Rc<Part<M>>>,
    ghost alike: { all_alike (part_view first.value) (map (λ other. part_view other.value) others.items)
        ≡ true } by { Prim.hlevel props },
}
