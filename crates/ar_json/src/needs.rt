//! What reading needs to know of a shape's records, computed once for a shape.

ghost use Rattle.std.specs.Prelude.{◌≡◌, IfErr, IfOk, map, true};
ghost use Rattle.ar_value.specs.Shape.{field_shapes_of};
ghost use Rattle.ar_value.specs.View.{shape_view};
ghost use Rattle.ar_json.specs.Private.Needs.{inner_needs, inner_of, item_needs, needs_inside, needs_of, needs_view, required_in, required_indices};
ghost use Rattle.ar_json.specs.Reading.{is_memory_under};
ghost use Rattle.ar_json.specs.declared.value_reading.ShapeFault.TheVariants.{OutOfMemory};

use ar_value::kind::is_optional;
use ar_value::shape::Shape;
use ar_value::text::Text;
use std::alloc::{AllocError, Global};

/// Which fields are required in the records of a shape. An optional shape has what its plain shape has. Contracts
/// see it by `needs_view` of `specs/Private/Needs`.
#[cycle(needs)]
#[derive(Drop)]
pub(crate) enum Needs {
    /// A scalar's.
    Nothing,
    /// A list's: those of its items.
    Items(Box<Needs>),
    /// A record's.
    Fields(Box<FieldNeeds>),
}

#[cycle(needs)]
#[derive(Drop)]
pub(crate) struct FieldNeeds {
    /// The indices of the required fields, in their order.
    pub required: Vec<usize>,
    /// What the shape of each field needs.
    pub inner: Vec<Needs>,
}

impl Needs {
    /// What a shape needs.
    pub fn of(alloc: Global, shape: &Shape) -> Result<Needs, AllocError>
        ensures of { IfOk result (λ needs. needs_view needs ≡ needs_of (shape_view shape.now)) }

        // Only lists and records take memory.
        ensures memory { IfErr result (λ _. is_memory_under (shape_view shape.now) OutOfMemory ≡ true) }
    {
        needs_of(alloc, shape)
    }

    /// What the items of a list need.
    pub fn items(&self) -> &Needs
        ensures { needs_view result.now ≡ item_needs (needs_view self.now) }
    {
        match self {
            Needs::Items(items) => items,
            Needs::Nothing | Needs::Fields(_) => self,
        }
    }

    /// The indices of the fields that a record is required to have.
    pub fn required(&self) -> &[usize]
        ensures { result.now ≡ required_indices (needs_view self.now) }
    {
        match self {
            Needs::Fields(fields) => &fields.required,
            Needs::Nothing | Needs::Items(_) => &[],
        }
    }

    /// What the fields of a record need.
    pub fn inner(&self) -> &[Needs]
        ensures { inner_of (map needs_view result.now) ≡ needs_inside (needs_view self.now) }
    {
        match self {
            Needs::Fields(fields) => &fields.inner,
            Needs::Nothing | Needs::Items(_) => &[],
        }
    }
}

#[cycle(needs_of)]
fn needs_of(alloc: Global, shape: &Shape) -> Result<Needs, AllocError>
    ensures of { IfOk result (λ needs. needs_view needs ≡ needs_of (shape_view shape.now)) }
    ensures memory { IfErr result (λ _. is_memory_under (shape_view shape.now) OutOfMemory ≡ true) }
{
    match shape {
        Shape::Bool | Shape::Whole | Shape::Decimal | Shape::Text => Ok(Needs::Nothing),
        Shape::List { item, .. } => Ok(Needs::Items(boxed_needs_of(alloc, item)?)),
        Shape::Object(of) => {
            let required = required_of(alloc, &of.shapes, of.names.as_slice())?;
            let inner = inner_of(alloc, &of.shapes, of.names.as_slice())?;
            let fields = Box::new(alloc, FieldNeeds { required, inner })?;
            Ok(Needs::Fields(fields))
        }
        Shape::Optional(plain) => needs_of(alloc, plain),
    }
}

#[cycle(needs_of)]
fn boxed_needs_of(alloc: Global, shape: &Shape) -> Result<Box<Needs>, AllocError>
    ensures { IfOk result (λ needs. needs_view needs.value ≡ needs_of (shape_view shape.now)) }
{
    Ok(Box::new(alloc, needs_of(alloc, shape)?)?)
}

/// What each field of these names and shapes needs.
#[cycle(needs_of)]
#[tactic(auto, using(crate::proofs::NeedsLemmas::no_inner, crate::proofs::NeedsLemmas::next_inner, crate::proofs::NeedsLemmas::inner_done))]
fn inner_of(alloc: Global, shapes: &[Shape], names: &[Text]) -> Result<Vec<Needs>, AllocError>
    ensures { IfOk result (λ inner. inner_of (map needs_view inner.items)
        ≡ inner_needs (field_shapes_of names.now (map shape_view shapes.now))) }
{
    let count = names.len().min(shapes.len());
    let mut inner = Vec::with_capacity(alloc, count)?;
    for index in 0..count {
        inner.push(needs_of(alloc, &shapes[index])?)?;
    }
    Ok(inner)
}

/// The indices of the required ones among the fields of these names and shapes.
#[tactic(auto, using(crate::proofs::NeedsLemmas::none_required, crate::proofs::NeedsLemmas::next_required, crate::proofs::NeedsLemmas::next_optional, crate::proofs::NeedsLemmas::required_done))]
fn required_of(alloc: Global, shapes: &[Shape], names: &[Text]) -> Result<Vec<usize>, AllocError>
    ensures { IfOk result (λ indices. indices.items
        ≡ required_in 0 (field_shapes_of names.now (map shape_view shapes.now))) }
{
    let mut indices = Vec::new(alloc);
    for index in 0..names.len().min(shapes.len()) {
        if !is_optional(&shapes[index]) {
            indices.push(index)?;
        }
    }
    Ok(indices)
}
