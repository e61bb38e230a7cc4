//! Operands on the way to an index, by their kinds.

ghost use Rattle.std.specs.Prelude.{◌≡◌, ◌++◌, ◌∷◌, [], IfOk, MatchOption, OnOk, map, option_map};
ghost use Rattle.ar_safety.specs.Arrivals.{floor_height, height, merged, of_loops, operands};
ghost use Rattle.ar_verify.specs.Private.Held.{around_view, arrival_view, counted, from_innermost, operands_view};
ghost use Rattle.ar_verify.specs.Private.Kinds.{parts_kind};
ghost use Rattle.ar_verify.specs.Private.Stacks.{from_top};

use crate::kind::{Kind, merge};
use crate::list::ListShape;
use crate::whole::ShapeName;
use ar_safety::Reason;
use ar_value::holding::try_push;
use std::alloc::{AllocError, Global};

/// A loop around an index.
#[derive(Drop)]
pub(crate) struct Around<M: ShapeName> {
    pub list: ListShape<M>,
    /// The operands below its floor and above that of the loop around it, of which the last is on top.
    pub below: Vec<Kind<M>>,
}

#[derive(Drop)]
pub(crate) struct Operands<M: ShapeName> {
    /// Those above the floor of the innermost loop, of which the last is on top.
    pub kinds: Vec<Kind<M>>,
    /// The last is the innermost.
    pub loops: Vec<Around<M>>,
}

/// Adds a kind once more.
fn copy_onto<M: ShapeName>(copies: &mut Vec<Kind<M>>, kind: &Kind<M>) -> Result<(), AllocError>
    ensures { OnOk result
        (map parts_kind copies.new.items ≡ map parts_kind copies.old.items ++ parts_kind kind.now ∷ []) }
{
    try_push(copies, kind.share()?)
}

fn copy_kinds<M: ShapeName>(alloc: Global, kinds: &[Kind<M>]) -> Result<Vec<Kind<M>>, AllocError>
    ensures { IfOk result (λ copies. map parts_kind copies.items ≡ map parts_kind kinds.now) }
{
    let mut copies = Vec::with_capacity(alloc, kinds.len())?;
    for kind in kinds {
        copy_onto(&mut copies, kind)?;
    }
    Ok(copies)
}

impl<M: ShapeName> Around<M> {
    fn copy(&self, alloc: Global) -> Result<Around<M>, AllocError>
        ensures { IfOk result (λ copy. around_view copy ≡ around_view self.now) }
    {
        let list = self.list.share()?;
        let below = copy_kinds(alloc, &self.below)?;
        Ok(Around { list, below })
    }
}

fn copy_loops<M: ShapeName>(
    alloc: Global,
    loops: &[Around<M>],
) -> Result<Vec<Around<M>>, AllocError>
    ensures { IfOk result (λ copies. map around_view copies.items ≡ map around_view loops.now) }
{
    let mut copies = Vec::with_capacity(alloc, loops.len())?;
    for around in loops {
        try_push(&mut copies, around.copy(alloc)?)?;
    }
    Ok(copies)
}

/// How many operands are below the floor of the innermost loop.
fn floor<M: ShapeName>(loops: &[Around<M>]) -> usize
    ensures { result ≡ counted (floor_height (from_innermost loops.now)) }
{
    let mut floor: usize = 0;
    for around in loops {
        floor = floor.saturating_add(around.below.len());
    }
    floor
}

impl<M: ShapeName> Operands<M> {
    /// A run begins without operands.
    pub(crate) fn none(alloc: Global) -> Operands<M>
        ensures { operands_view result ≡ operands [] [] }
    {
        Operands {
            kinds: Vec::new(alloc),
            loops: Vec::new(alloc),
        }
    }

    pub(crate) fn copy(&self, alloc: Global) -> Result<Operands<M>, AllocError>
        ensures { IfOk result (λ copy. operands_view copy ≡ operands_view self.now) }
    {
        let kinds = copy_kinds(alloc, &self.kinds)?;
        let loops = copy_loops(alloc, &self.loops)?;
        Ok(Operands { kinds, loops })
    }

    /// How many operands there are, those below the floor too.
    pub(crate) fn height(&self) -> usize
        ensures { result ≡ counted (height (operands_view self.now)) }
    {
        floor(&self.loops).saturating_add(self.kinds.len())
    }
}

/// What two stacks have in common, kind by kind, where they are as high.
#[tactic(auto, using(crate::proofs::Joins::unlike_heights))]
fn merge_all<M: ShapeName>(
    alloc: Global,
    lefts: &[Kind<M>],
    rights: &[Kind<M>],
) -> Result<Option<Vec<Kind<M>>>, AllocError>
    ensures { IfOk result (λ kinds. option_map (λ kinds. map parts_kind kinds.items) kinds
        ≡ merged (map parts_kind lefts.now) (map parts_kind rights.now)) }
{
    if lefts.len() != rights.len() {
        return Ok(None);
    }
    let mut kinds = Vec::with_capacity(alloc, lefts.len())?;
    for (index, left) in lefts.iter().enumerate() {
        match merge(alloc, left, &rights[index])? {
            Some(kind) => try_push(&mut kinds, kind)?,
            None => return Ok(None),
        }
    }
    Ok(Some(kinds))
}

/// What arrives where some operands arrived already. They come from inside the same loops, so they
/// differ above the floor alone.
pub(crate) fn join<M: ShapeName>(
    alloc: Global,
    so_far: Operands<M>,
    next: &Operands<M>,
) -> Result<Result<Operands<M>, Reason>, AllocError>
    ensures { IfOk result (λ joined. arrival_view joined ≡ of_loops (operands_view so_far).loops
        (merged (operands_view so_far).kinds (operands_view next.now).kinds)) }
{
    match merge_all(alloc, &so_far.kinds, &next.kinds)? {
        Some(kinds) => Ok(Ok(Operands {
            kinds,
            loops: so_far.loops,
        })),
        None => Ok(Err(Reason::BadMerge)),
    }
}
