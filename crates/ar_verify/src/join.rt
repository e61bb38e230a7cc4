//! How the shapes of operands are joined, and what is known of those shapes. Two are joined where they are of one
//! form: where they differ in the greatest lengths of lists only.

ghost use Rattle.std.specs.Bool.{Decides};
ghost use Rattle.std.specs.Prelude.{◌≡◌, true, IfOk, OnOk, map, option_map};
ghost use Rattle.ar_value.specs.Kind.{is_optional, plain, widest};
ghost use Rattle.ar_value.specs.View.{shape_view};
ghost use Rattle.ar_verify.specs.Private.Forms.{all_alike, form, wider, widest_of, field_forms};
ghost use Rattle.ar_verify.specs.Private.Lists.{longest};
ghost use Rattle.ar_verify.specs.Private.Parts.{part_view};
ghost use Rattle.ar_verify.specs.Private.Roots.{child};
ghost use Rattle.ar_verify.specs.Private.Shapes.{parts_view};
ghost use Rattle.ar_value.specs.Private.Same.{same_fields, same_shape};
ghost use Rattle.ar_value.specs.Shape.{field_shapes_of};
ghost use Rattle.ar_value.specs.Shape as shapes;

use crate::parts::Parts;
use crate::path::{INNER, Part, are_one};
use crate::whole::{ShapeName, Whole};
use ar_value::holding::try_push;
use ar_value::kind;
use ar_value::shape::Shape;
use ar_value::text::Text;
use std::alloc::{AllocError, Global};
use std::rc::Rc;

impl<M: ShapeName> Parts<M> {
    fn new(
        alloc: Global,
        first: Rc<Part<M>>,
        others: Vec<Rc<Part<M>>>,
    ) -> Result<Rc<Parts<M>>, AllocError>
        requires { all_alike (part_view first.value) (map (λ other. part_view other.value) others.items) ≡ true }
        ensures { IfOk result (λ parts. parts_view parts.value
            ≡ widest_of (part_view first.value) (map (λ other. part_view other.value) others.items)) }
    {
        Ok(Rc::new(alloc, Parts { first, others })?)
    }

    fn alone(alloc: Global, part: Rc<Part<M>>) -> Result<Rc<Parts<M>>, AllocError>
        ensures { IfOk result (λ alone. parts_view alone.value ≡ part_view part.value) }
    {
        Parts::new(alloc, part, Vec::new(alloc))
    }

    /// The shape of the measured value.
    pub(crate) fn measured(alloc: Global, whole: &Whole<M>) -> Result<Rc<Parts<M>>, AllocError>
        ensures { IfOk result (λ measured. parts_view measured.value ≡ shape_view M.shape) }
    {
        Parts::alone(alloc, Part::measured(alloc, whole)?)
    }

    /// A single shape.
    pub(crate) fn made(alloc: Global, shape: Shape) -> Result<Rc<Parts<M>>, AllocError>
        ensures { IfOk result (λ made. parts_view made.value ≡ shape_view shape) }
    {
        Parts::alone(alloc, Part::made(alloc, shape)?)
    }

    /// A shape of the same form: lists in it may be shorter.
    pub(crate) fn representative(&self) -> &Shape
        ensures { form (shape_view result.now) ≡ form (parts_view self.now) }
    {
        self.first.get()
    }

    /// How many items it has at most, where it is that of a list.
    pub(crate) fn longest(&self) -> usize
        ensures { result ≡ longest (parts_view self.now) }
    {
        let mut most = longest(self.first.get());
        for part in &self.others {
            most = most.max(longest(part.get()));
        }
        most
    }

    /// A part by its number, of each of the joined parts.
    pub(crate) fn child(&self, alloc: Global, number: usize) -> Result<Rc<Parts<M>>, AllocError>
        ensures { IfOk result (λ part. parts_view part.value ≡ child number (parts_view self.now)) }
    {
        let others = children(alloc, &self.others, number)?;
        Parts::new(alloc, self.first.child(alloc, number)?, others)
    }

    pub(crate) fn is_optional(&self) -> bool
        ensures { result ≡ is_optional (parts_view self.now) }
    {
        kind::is_optional(self.representative())
    }
}

fn longest(shape: &Shape) -> usize
    ensures { result ≡ longest (shape_view shape.now) }
{
    match shape {
        Shape::List { max, .. } => *max,
        Shape::Bool
        | Shape::Whole
        | Shape::Decimal
        | Shape::Text
        | Shape::Object(_)
        | Shape::Optional(_) => 0,
    }
}

fn children<M: ShapeName>(
    alloc: Global,
    parts: &[Rc<Part<M>>],
    number: usize,
) -> Result<Vec<Rc<Part<M>>>, AllocError>
    ensures { IfOk result (λ children. map (λ part. part_view part.value) children.items
        ≡ map (child number) (map (λ part. part_view part.value) parts.now)) }
{
    let mut children = Vec::with_capacity(alloc, parts.len())?;
    for part in parts {
        try_push(&mut children, part.child(alloc, number)?)?;
    }
    Ok(children)
}

/// The shape of what isn't nil.
pub(crate) fn plain<M: ShapeName>(
    alloc: Global,
    shape: &Rc<Parts<M>>,
) -> Result<Rc<Parts<M>>, AllocError>
    ensures { IfOk result (λ inner. parts_view inner.value ≡ plain (parts_view shape.now.value)) }
{
    if shape.is_optional() {
        shape.child(alloc, INNER)
    } else {
        shape.clone()
    }
}

/// Whether a part is among others.
fn is_among<M: ShapeName>(part: &Part<M>, others: &[Rc<Part<M>>]) -> bool
    ensures { result ≡ true → (shape : shapes.Shape) →
        wider (widest_of shape (map (λ other. part_view other.value) others.now)) (part_view part.now)
        ≡ widest_of shape (map (λ other. part_view other.value) others.now) }
{
    for other in others {
        if are_one(other, part) {
            return true;
        }
    }
    false
}

/// Whether a part is the first or among the others.
#[tactic(auto, using(crate::proofs::Meets::met_already))]
fn is_there<M: ShapeName>(first: &Part<M>, others: &[Rc<Part<M>>], part: &Part<M>) -> bool
    ensures { result ≡ true →
        wider (widest_of (part_view first.now) (map (λ other. part_view other.value) others.now)) (part_view part.now)
        ≡ widest_of (part_view first.now) (map (λ other. part_view other.value) others.now) }
{
    are_one(first, part) || is_among(part, others)
}

/// Adds a part to others of its form, unless it is one of them.
#[tactic(auto, using(crate::proofs::Meets::alike_added))]
fn add_part<M: ShapeName>(
    first: &Part<M>,
    others: &mut Vec<Rc<Part<M>>>,
    part: &Rc<Part<M>>,
) -> Result<(), AllocError>
    requires alike { all_alike (part_view first.now) (map (λ other. part_view other.value) others.old.items) ≡ true }
    requires form { form (part_view first.now) ≡ form (part_view part.now.value) }
    ensures wider { OnOk result (widest_of (part_view first.now) (map (λ other. part_view other.value) others.new.items)
        ≡ wider (widest_of (part_view first.now) (map (λ other. part_view other.value) others.old.items))
        (part_view part.now.value)) }
    ensures alike { OnOk result
        (all_alike (part_view first.now) (map (λ other. part_view other.value) others.new.items) ≡ true) }
{
    if is_there(first, others, part) {
        Ok(())
    } else {
        try_push(others, part.clone()?)
    }
}

/// Adds parts to others of their form.
fn add_parts<M: ShapeName>(
    first: &Part<M>,
    others: &mut Vec<Rc<Part<M>>>,
    parts: &[Rc<Part<M>>],
) -> Result<(), AllocError>
    requires alike { all_alike (part_view first.now) (map (λ other. part_view other.value) others.old.items) ≡ true }
    requires parts { all_alike (part_view first.now) (map (λ part. part_view part.value) parts.now) ≡ true }
    ensures wider { OnOk result (widest_of (part_view first.now) (map (λ other. part_view other.value) others.new.items)
        ≡ widest_of (widest_of (part_view first.now) (map (λ other. part_view other.value) others.old.items))
        (map (λ part. part_view part.value) parts.now)) }
    ensures alike { OnOk result
        (all_alike (part_view first.now) (map (λ other. part_view other.value) others.new.items) ≡ true) }
{
    for part in parts {
        add_part(first, others, part)?;
    }
    Ok(())
}

/// The shape of parts that were joined, in two shapes of one form.
#[tactic(auto, using(crate::proofs::Meets::all_together))]
fn together<M: ShapeName>(
    alloc: Global,
    left: &Parts<M>,
    right: &Parts<M>,
) -> Result<Rc<Parts<M>>, AllocError>
    requires { form (parts_view left.now) ≡ form (parts_view right.now) }
    ensures { IfOk result (λ both. parts_view both.value ≡ wider (parts_view left.now) (parts_view right.now)) }
{
    let mut others = Vec::new(alloc);
    add_parts(&left.first, &mut others, &left.others)?;
    add_part(&left.first, &mut others, &right.first)?;
    add_parts(&left.first, &mut others, &right.others)?;
    Parts::new(alloc, left.first.clone()?, others)
}

/// Whether shapes are of one form. Those of which the first part is one are not examined.
fn are_alike<M: ShapeName>(left: &Parts<M>, right: &Parts<M>) -> bool
    ensures { Decides result (form (parts_view left.now) ≡ form (parts_view right.now)) }
{
    are_one(&left.first, &right.first)
        || are_of_one_form(left.representative(), right.representative())
}

/// The shape of what has the one shape or the other, where they differ in greatest lengths only.
pub(crate) fn meet<M: ShapeName>(
    alloc: Global,
    left: &Parts<M>,
    right: &Parts<M>,
) -> Result<Option<Rc<Parts<M>>>, AllocError>
    ensures { IfOk result (λ met. option_map (λ met. parts_view met.value) met
        ≡ widest (parts_view left.now) (parts_view right.now)) }
{
    if are_alike(left, right) {
        Ok(Some(together(alloc, left, right)?))
    } else {
        Ok(None)
    }
}

pub(crate) fn are_of_one_form(left: &Shape, right: &Shape) -> bool
    ensures { Decides result (form (shape_view left.now) ≡ form (shape_view right.now)) }
{
    is_alike(left, right)
}

#[cycle(is_alike)]
fn is_alike(left: &Shape, right: &Shape) -> bool
    ensures { result ≡ same_shape (form (shape_view left.now)) (form (shape_view right.now)) }
{
    match left {
        Shape::Bool => matches!(right, Shape::Bool),
        Shape::Whole => matches!(right, Shape::Whole),
        Shape::Decimal => matches!(right, Shape::Decimal),
        Shape::Text => matches!(right, Shape::Text),
        Shape::List { item, .. } => match right {
            Shape::List { item: other, .. } => is_alike(item, other),
            Shape::Bool
            | Shape::Whole
            | Shape::Decimal
            | Shape::Text
            | Shape::Object(_)
            | Shape::Optional(_) => false,
        },
        Shape::Object(fields) => match right {
            Shape::Object(others) => are_fields_alike(
                &fields.shapes,
                fields.names.as_slice(),
                &others.shapes,
                others.names.as_slice(),
            ),
            Shape::Bool
            | Shape::Whole
            | Shape::Decimal
            | Shape::Text
            | Shape::List { .. }
            | Shape::Optional(_) => false,
        },
        Shape::Optional(plain) => match right {
            Shape::Optional(other) => is_alike(plain, other),
            Shape::Bool
            | Shape::Whole
            | Shape::Decimal
            | Shape::Text
            | Shape::List { .. }
            | Shape::Object(_) => false,
        },
    }
}

/// Whether fields of the same names have shapes of one form.
#[cycle(is_alike)]
#[tactic(auto, using(crate::proofs::OneForm::lengths_differ, crate::proofs::OneForm::next, crate::proofs::OneForm::none_left))]
fn are_fields_alike(shapes: &[Shape], names: &[Text], others: &[Shape], of: &[Text]) -> bool
    ensures { result ≡ same_fields (field_forms (field_shapes_of names.now (map shape_view shapes.now)))
        (field_forms (field_shapes_of of.now (map shape_view others.now))) }
{
    let count = names.len().min(shapes.len());
    if count != of.len().min(others.len()) {
        return false;
    }
    for index in 0..count {
        if names[index] != of[index] {
            return false;
        }
        if !is_alike(&shapes[index], &others[index]) {
            return false;
        }
    }
    true
}
