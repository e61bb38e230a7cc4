//! Whether two shapes are the same. It takes no memory.

ghost use Rattle.std.specs.Bool.{Decides};
ghost use Rattle.std.specs.Prelude.{◌≡◌, map};
ghost use Rattle.ar_value.specs.Shape.{field_shapes_of};
ghost use Rattle.ar_value.specs.View.{shape_view};
ghost use Rattle.ar_value.specs.Private.Same.{same_fields, same_shape};

use crate::shape::Shape;
use crate::text::Text;

/// Whether two shapes are the same, with fields of the same names in the same order.
pub fn are_same_shapes(left: &Shape, right: &Shape) -> bool
    ensures { Decides result (shape_view left.now ≡ shape_view right.now) }
{
    is_same(left, right)
}

#[cycle(is_same)]
#[tactic(auto, using(crate::proofs::Same::same_lists))]
fn is_same(left: &Shape, right: &Shape) -> bool
    ensures { result ≡ same_shape (shape_view left.now) (shape_view right.now) }
{
    match left {
        Shape::Bool => matches!(right, Shape::Bool),
        Shape::Whole => matches!(right, Shape::Whole),
        Shape::Decimal => matches!(right, Shape::Decimal),
        Shape::Text => matches!(right, Shape::Text),
        Shape::List { item, max } => match right {
            Shape::List {
                item: other,
                max: most,
            } => *max == *most && is_same(item, other),
            Shape::Bool
            | Shape::Whole
            | Shape::Decimal
            | Shape::Text
            | Shape::Object(_)
            | Shape::Optional(_) => false,
        },
        Shape::Object(fields) => match right {
            Shape::Object(others) => are_fields_same(
                &fields.shapes,
                fields.names.as_slice(),
                &others.shapes,
                others.names.as_slice(),
            ),
            Shape::Bool
            | Shape::Whole
            | Shape::Decimal
            | Shape::Text
            | Shape::List { .. }
            | Shape::Optional(_) => false,
        },
        Shape::Optional(plain) => match right {
            Shape::Optional(other) => is_same(plain, other),
            Shape::Bool
            | Shape::Whole
            | Shape::Decimal
            | Shape::Text
            | Shape::List { .. }
            | Shape::Object(_) => false,
        },
    }
}

/// Whether fields of the same names have the same shapes.
#[cycle(is_same)]
#[tactic(auto, using(crate::proofs::Same::lengths_differ, crate::proofs::Same::next, crate::proofs::Same::none_left))]
fn are_fields_same(shapes: &[Shape], names: &[Text], others: &[Shape], of: &[Text]) -> bool
    ensures { result ≡ same_fields (field_shapes_of names.now (map shape_view shapes.now))
        (field_shapes_of of.now (map shape_view others.now)) }
{
    let count = names.len().min(shapes.len());
    if count != of.len().min(others.len()) {
        return false;
    }
    for index in 0..count {
        if names[index] != of[index] {
            return false;
        }
        if !is_same(&shapes[index], &others[index]) {
            return false;
        }
    }
    true
}
