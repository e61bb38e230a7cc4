//! Stacks of kinds, of which the last is on top.

ghost use Rattle.std.specs.Prelude.{◌≡◌, ◌++◌, ◌∷◌, [], MatchOption, OnOk};
ghost use Rattle.ar_verify.specs.Private.Kinds.{parts_kind};
ghost use Rattle.ar_verify.specs.Private.Stacks.{from_top};

use crate::kind::Kind;
use crate::whole::ShapeName;
use ar_value::holding::try_push;
use std::alloc::AllocError;

pub(crate) fn push<M: ShapeName>(kinds: &mut Vec<Kind<M>>, kind: Kind<M>) -> Result<(), AllocError>
    ensures { OnOk result (from_top kinds.new.items ≡ parts_kind kind ∷ from_top kinds.old.items) }
{
    try_push(kinds, kind)
}

pub(crate) fn pop<M: ShapeName>(kinds: &mut Vec<Kind<M>>) -> Option<Kind<M>>
    ensures { MatchOption result ((from_top kinds.old.items ≡ []) × (from_top kinds.new.items ≡ []))
        (λ kind. from_top kinds.old.items ≡ parts_kind kind ∷ from_top kinds.new.items) }
{
    kinds.pop()
}
