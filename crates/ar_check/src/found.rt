//! What the operands at an offset of a condition were found to be.

ghost use Rattle.std.specs.Prelude.{◌≡◌, ◌<◌, ◌==◌, if◌then◌else◌, IfOk, IfSome, map, option_map};
ghost use Rattle.std.specs.Option.{option_or};
ghost use Rattle.ar_value.specs.View.{field_shapes_view, shape_view};
ghost use Rattle.ar_value.specs.Limits.{most_loops};
ghost use Rattle.ar_tree.specs.Expression.{expressions, BinaryAt, ChoiceAt, IndexAt};
ghost use Rattle.ar_tree.specs.Views.{expression_of};
ghost use Rattle.ar_check.specs.Found.{any_has_offset, before, entered_item, fields_of, found_kind, found_shape, has_offset, entered_list, items_shape, member_found, one, operands_at, owner_found, record_names, right_found, two};
ghost use Rattle.ar_check.specs.Private.Inside.{view_of_kind};
ghost use Rattle.ar_check.specs.Private.Search.{body_over, kind_at, offset_among, offset_in, offset_in_predicate, offset_over};

use crate::error::TypeError;
use crate::operand::{Kind, plain_shape};
use crate::typing::{Scope, child, in_predicate};
use ar_tree::tree::{Binary, Tree};
use ar_value::limits::MOST_LOOPS;
use ar_value::names::Names;
use ar_value::shape::{FieldShapes, Shape};
use std::alloc::{AllocError, Global};

/// What an operand was found to be, whether or not it may be nil as well.
#[derive(Clone, Copy)]
pub enum OperandKind {
    Nil,
    Bool,
    Whole,
    Decimal,
    Text,
    List,
    Object,
}

/// What was found where an operand isn't of a kind that is taken.
#[derive(Drop)]
pub enum Operands {
    /// What is before a field's name, of another kind than a record.
    Before(OperandKind),
    /// The names of the fields of the record that is before a field's name.
    Record(Names),
    /// The one that is expected of another kind.
    One(OperandKind),
    /// Both, at an operator between two.
    Two(OperandKind, OperandKind),
}

/// What the operands of the tree at an offset are: None where no tree that takes operands of some kinds
/// is there, or where one of them has no kind. Right of `in` and `not in` the items describe a list.
///
/// # Errors
///
/// Out of memory alone.
pub fn operands_at(
    alloc: Global,
    tree: Tree,
    shape: &Shape,
    offset: usize,
) -> Result<Option<Operands>, AllocError>
    ensures { IfOk result (λ found. found ≡ operands_at (shape_view shape.now) (expression_of tree) offset) }
{
    let scope = Scope {
        measured: shape,
        item: None,
        around: 0,
    };
    found_in(alloc, tree, &scope, offset)
}

/// What is found at an offset in a tree.
#[cycle(found_in)]
fn found_in(
    alloc: Global,
    tree: Tree,
    scope: &Scope<'_>,
    offset: usize,
) -> Result<Option<Operands>, AllocError>
    ensures { IfOk result (λ found. found ≡ offset_in scope.now offset (expression_of tree)) }
{
    match tree {
        Tree::Result { .. } | Tree::Item { .. } | Tree::Literal { .. } => Ok(None),
        Tree::Field { at, owner, .. } => in_field(alloc, at, owner, scope, offset),
        Tree::Index { at, list, index } => in_index(alloc, at, list, index, scope, offset),
        Tree::Unary { at, operand, .. } => in_operand(alloc, at, operand, scope, offset),
        Tree::Binary {
            at,
            operator,
            left,
            right,
        } => in_binary(alloc, at, operator, left, right, scope, offset),
        Tree::Choice {
            at,
            condition,
            then_branch,
            else_branch,
        } => in_choice(
            alloc,
            at,
            condition,
            then_branch,
            else_branch,
            scope,
            offset,
        ),
        Tree::List { items, .. } => found_among(alloc, items.items, scope, offset),
        Tree::Len { list, .. } => in_child(alloc, list, scope, offset),
        Tree::IsNil { operand, .. } => in_child(alloc, operand, scope, offset),
        Tree::Default {
            operand,
            otherwise,
            ..
        } => in_either(alloc, operand, otherwise, scope, offset),
        Tree::Predicate { at, list, body, .. } => in_list_or_body(
            alloc, at, list, body, scope, offset,
        ),
    }
}

/// What is found in a tree below another.
#[cycle(found_in)]
fn in_child(
    alloc: Global,
    tree: Box<Tree>,
    scope: &Scope<'_>,
    offset: usize,
) -> Result<Option<Operands>, AllocError>
    ensures { IfOk result (λ found. found ≡ offset_in scope.now offset (expression_of tree.value)) }
{
    found_in(alloc, Box::into_inner(tree), scope, offset)
}

/// What is found in the first of two trees, else in the other.
#[cycle(found_in)]
fn in_either(
    alloc: Global,
    first: Box<Tree>,
    other: Box<Tree>,
    scope: &Scope<'_>,
    offset: usize,
) -> Result<Option<Operands>, AllocError>
    ensures { IfOk result (λ found. found ≡ option_or (offset_in scope.now offset (expression_of first.value))
        (offset_in scope.now offset (expression_of other.value))) }
{
    match in_child(alloc, first, scope, offset)? {
        Some(found) => Ok(Some(found)),
        None => in_child(alloc, other, scope, offset),
    }
}

/// What is found at a field, or in what is before its name.
#[cycle(found_in)]
fn in_field(
    alloc: Global,
    at: usize,
    owner: Box<Tree>,
    scope: &Scope<'_>,
    offset: usize,
) -> Result<Option<Operands>, AllocError>
    ensures { IfOk result (λ found. found
        ≡ (if at == offset then before (kind_at scope.now (expression_of owner.value))
        else offset_in scope.now offset (expression_of owner.value))) }
{
    if at == offset {
        before(alloc, owner, scope)
    } else {
        in_child(alloc, owner, scope, offset)
    }
}

/// What is found at a tree of one operand, or in this.
#[cycle(found_in)]
fn in_operand(
    alloc: Global,
    at: usize,
    operand: Box<Tree>,
    scope: &Scope<'_>,
    offset: usize,
) -> Result<Option<Operands>, AllocError>
    ensures { IfOk result (λ found. found
        ≡ (if at == offset then one (kind_at scope.now (expression_of operand.value))
        else offset_in scope.now offset (expression_of operand.value))) }
{
    if at == offset {
        one(alloc, operand, scope)
    } else {
        in_child(alloc, operand, scope, offset)
    }
}

/// What is found at an item of a list, at an index, or in one of the two.
#[cycle(found_in)]
fn in_index(
    alloc: Global,
    at: usize,
    list: Box<Tree>,
    index: Box<Tree>,
    scope: &Scope<'_>,
    offset: usize,
) -> Result<Option<Operands>, AllocError>
    ensures { IfOk result (λ found. found ≡ offset_in scope.now offset
        (IndexAt at (expression_of list.value) (expression_of index.value))) }
{
    if at == offset {
        one(alloc, index, scope)
    } else {
        in_either(alloc, list, index, scope, offset)
    }
}

/// What is found at an operator between two operands, or in one of them.
#[cycle(found_in)]
fn in_binary(
    alloc: Global,
    at: usize,
    operator: Binary,
    left: Box<Tree>,
    right: Box<Tree>,
    scope: &Scope<'_>,
    offset: usize,
) -> Result<Option<Operands>, AllocError>
    ensures { IfOk result (λ found. found ≡ offset_in scope.now offset
        (BinaryAt at operator (expression_of left.value) (expression_of right.value))) }
{
    if at == offset {
        two(alloc, operator, left, right, scope)
    } else {
        in_either(alloc, left, right, scope, offset)
    }
}

/// What is found at a choice, in its condition or in one of its branches.
#[cycle(found_in)]
fn in_choice(
    alloc: Global,
    at: usize,
    condition: Box<Tree>,
    then_branch: Box<Tree>,
    else_branch: Box<Tree>,
    scope: &Scope<'_>,
    offset: usize,
) -> Result<Option<Operands>, AllocError>
    ensures { IfOk result (λ found. found ≡ offset_in scope.now offset
        (ChoiceAt at (expression_of condition.value) (expression_of then_branch.value)
        (expression_of else_branch.value))) }
{
    if at == offset {
        return one(alloc, condition, scope);
    }
    match in_child(alloc, condition, scope, offset)? {
        Some(found) => Ok(Some(found)),
        None => in_either(alloc, then_branch, else_branch, scope, offset),
    }
}

/// What is found in the first of some trees that has something.
#[cycle(found_in)]
fn found_among(
    alloc: Global,
    trees: Vec<Tree>,
    scope: &Scope<'_>,
    offset: usize,
) -> Result<Option<Operands>, AllocError>
    ensures { IfOk result (λ found. found
        ≡ offset_among scope.now offset (expressions (map expression_of trees.items))) }
{
    for tree in trees {
        if let Some(found) = found_in(alloc, tree, scope, offset)? {
            return Ok(Some(found));
        }
    }
    Ok(None)
}

/// What is found at a predicate, in its body if the offset is there, or else in its list.
#[cycle(found_in)]
fn in_list_or_body(
    alloc: Global,
    at: usize,
    list: Box<Tree>,
    body: Box<Tree>,
    scope: &Scope<'_>,
    offset: usize,
) -> Result<Option<Operands>, AllocError>
    ensures { IfOk result (λ found. found ≡ offset_in_predicate scope.now offset at (expression_of list.value)
        (expression_of body.value)) }
{
    if at == offset {
        one_inside(alloc, list, body, scope)
    } else if has_offset(&body, offset) {
        in_body(alloc, list, body, scope, offset)
    } else {
        in_child(alloc, list, scope, offset)
    }
}

/// What is found in the body of a predicate over a list.
#[cycle(found_in)]
fn in_body(
    alloc: Global,
    list: Box<Tree>,
    body: Box<Tree>,
    scope: &Scope<'_>,
    offset: usize,
) -> Result<Option<Operands>, AllocError>
    ensures { IfOk result (λ found. found ≡ offset_over scope.now offset
        (entered_list scope.now.around (kind_at scope.now (expression_of list.value))) (expression_of body.value)) }
{
    match kind_of(alloc, list, scope)? {
        Some(list) => in_body_over(alloc, &list, body, scope, offset),
        None => Ok(None),
    }
}

/// What is found in the body of a predicate over a list of a kind.
#[cycle(found_in)]
fn in_body_over(
    alloc: Global,
    list: &Kind<'_>,
    body: Box<Tree>,
    scope: &Scope<'_>,
    offset: usize,
) -> Result<Option<Operands>, AllocError>
    ensures { IfOk result (λ found. found ≡ offset_over scope.now offset
        (entered_item scope.now.around (view_of_kind list.now)) (expression_of body.value)) }
{
    let Some(item) = entered_item(scope.around, list) else {
        return Ok(None);
    };
    let inside = in_predicate(&*scope, item, scope.around + 1);
    in_child(alloc, body, &inside, offset)
}

/// Whether a tree, or one inside it, is at an offset.
#[cycle(has_offset)]
fn has_offset(tree: &Tree, offset: usize) -> bool
    ensures { result ≡ has_offset offset (expression_of tree.now) }
{
    match tree {
        Tree::Result { at } | Tree::Item { at } | Tree::Literal { at, .. } => *at == offset,
        Tree::Field { at, owner, .. } => *at == offset || has_offset(owner, offset),
        Tree::Index { at, list, index } => *at == offset
            || (has_offset(list, offset) || has_offset(index, offset)),
        Tree::Unary { at, operand, .. } => *at == offset || has_offset(operand, offset),
        Tree::Binary {
            at,
            left,
            right,
            ..
        } => *at == offset || (has_offset(left, offset) || has_offset(right, offset)),
        Tree::Choice {
            at,
            condition,
            then_branch,
            else_branch,
        } => *at == offset
            || (has_offset(condition, offset)
                || (has_offset(then_branch, offset) || has_offset(else_branch, offset))),
        Tree::List { at, items } => *at == offset || any_has_offset(&items.items, offset),
        Tree::Len { at, list } => *at == offset || has_offset(list, offset),
        Tree::IsNil { at, operand } => *at == offset || has_offset(operand, offset),
        Tree::Default {
            at,
            operand,
            otherwise,
        } => *at == offset || (has_offset(operand, offset) || has_offset(otherwise, offset)),
        Tree::Predicate { at, list, body, .. } => *at == offset
            || (has_offset(list, offset) || has_offset(body, offset)),
    }
}

#[cycle(has_offset)]
fn any_has_offset(trees: &[Tree], offset: usize) -> bool
    ensures { result ≡ any_has_offset offset (expressions (map expression_of trees.now)) }
{
    for tree in trees {
        if has_offset(tree, offset) {
            return true;
        }
    }
    false
}

/// What is before a field's name.
fn before(
    alloc: Global,
    owner: Box<Tree>,
    scope: &Scope<'_>,
) -> Result<Option<Operands>, AllocError>
    ensures { IfOk result (λ found. found ≡ before (kind_at scope.now (expression_of owner.value))) }
{
    match kind_of(alloc, owner, scope)? {
        Some(kind) => Ok(Some(owner_found(&kind)?)),
        None => Ok(None),
    }
}

/// What is before a field's name: of a record the names of its fields, which take no memory.
fn owner_found(kind: &Kind<'_>) -> Result<Operands, AllocError>
    ensures { IfOk result (λ found. found ≡ owner_found (view_of_kind kind.now)) }
{
    match fields_of(kind) {
        Some(fields) => Ok(Operands::Record(record_names(fields)?)),
        None => Ok(Operands::Before(found_kind(kind))),
    }
}

/// The names of a record's fields.
#[tactic(auto, using(crate::proofs::Records::names_taken))]
fn record_names(fields: &FieldShapes) -> Result<Names, AllocError>
    ensures { IfOk result (λ names. names ≡ record_names (field_shapes_view fields.now)) }
{
    fields.names.first(fields.shapes.len())
}

/// What the one operand is that is expected of a kind.
fn one(alloc: Global, operand: Box<Tree>, scope: &Scope<'_>) -> Result<Option<Operands>, AllocError>
    ensures { IfOk result (λ found. found ≡ one (kind_at scope.now (expression_of operand.value))) }
{
    match kind_of(alloc, operand, scope)? {
        Some(kind) => Ok(Some(Operands::One(found_kind(&kind)))),
        None => Ok(None),
    }
}

/// What both operands of an operator are.
fn two(
    alloc: Global,
    operator: Binary,
    left: Box<Tree>,
    right: Box<Tree>,
    scope: &Scope<'_>,
) -> Result<Option<Operands>, AllocError>
    ensures { IfOk result (λ found. found ≡ two operator (kind_at scope.now (expression_of left.value))
        (kind_at scope.now (expression_of right.value))) }
{
    let Some(left) = kind_of(alloc, left, scope)? else {
        return Ok(None);
    };
    let Some(right) = kind_of(alloc, right, scope)? else {
        return Ok(None);
    };
    let right = right_found(operator, &right);
    Ok(Some(Operands::Two(found_kind(&left), right)))
}

/// What the body of a predicate over a list is.
fn one_inside(
    alloc: Global,
    list: Box<Tree>,
    body: Box<Tree>,
    scope: &Scope<'_>,
) -> Result<Option<Operands>, AllocError>
    ensures { IfOk result (λ found. found ≡ body_over scope.now
        (entered_list scope.now.around (kind_at scope.now (expression_of list.value))) (expression_of body.value)) }
{
    match kind_of(alloc, list, scope)? {
        Some(list) => one_over(alloc, &list, body, scope),
        None => Ok(None),
    }
}

/// What the body of a predicate over a list of a kind is.
fn one_over(
    alloc: Global,
    list: &Kind<'_>,
    body: Box<Tree>,
    scope: &Scope<'_>,
) -> Result<Option<Operands>, AllocError>
    ensures { IfOk result (λ found. found ≡ body_over scope.now
        (entered_item scope.now.around (view_of_kind list.now)) (expression_of body.value)) }
{
    let Some(item) = entered_item(scope.around, list) else {
        return Ok(None);
    };
    let inside = in_predicate(scope, item, scope.around + 1);
    one(alloc, body, &inside)
}

/// The kind of a tree, if it has one.
fn kind_of<'s>(
    alloc: Global,
    tree: Box<Tree>,
    scope: &Scope<'s>,
) -> Result<Option<Kind<'s>>, AllocError>
    ensures { IfOk result (λ kind. option_map view_of_kind kind ≡ kind_at scope.now (expression_of tree.value)) }
{
    match child(alloc, tree, scope) {
        Ok(operand) => Ok(Some(Box::into_inner(operand).kind)),
        Err(TypeError::OutOfMemory) => Err(AllocError),
        Err(
            TypeError::WrongOperand(_)
            | TypeError::NoSuchField(_)
            | TypeError::NotAList(_)
            | TypeError::NoCommonKind(_)
            | TypeError::NotScalar(_)
            | TypeError::NotTruth(_)
            | TypeError::PredicatesTooDeep(_),
        ) => Ok(None),
    }
}

/// The shape of a list's items, where one more predicate may speak of them.
fn entered_item<'a>(around: usize, list: &'a Kind<'_>) -> Option<&'a Shape>
    ensures item { option_map (λ shape. shape_view shape.now) result ≡ entered_item around (view_of_kind list.now) }
    ensures few { IfSome result (λ _. around < most_loops) }
{
    if around < MOST_LOOPS {
        items_of(list)
    } else {
        None
    }
}

/// The shape of a list's items.
fn items_of<'a>(kind: &'a Kind<'_>) -> Option<&'a Shape>
    ensures { option_map (λ shape. shape_view shape.now) result ≡ items_shape (view_of_kind kind.now) }
{
    match plain_shape(kind)? {
        Shape::List { item, .. } => Some(item),
        Shape::Bool
        | Shape::Whole
        | Shape::Decimal
        | Shape::Text
        | Shape::Object(_)
        | Shape::Optional(_) => None,
    }
}

/// The fields of a record.
fn fields_of<'a>(kind: &'a Kind<'_>) -> Option<&'a FieldShapes>
    ensures { option_map (λ fields. field_shapes_view fields.now) result ≡ fields_of (view_of_kind kind.now) }
{
    match plain_shape(kind)? {
        Shape::Object(fields) => Some(fields),
        Shape::Bool
        | Shape::Whole
        | Shape::Decimal
        | Shape::Text
        | Shape::List { .. }
        | Shape::Optional(_) => None,
    }
}

/// What the right operand of an operator is: that of `in` and `not in` is described by its items.
fn right_found(operator: Binary, kind: &Kind<'_>) -> OperandKind
    ensures { result ≡ right_found operator (view_of_kind kind.now) }
{
    match operator {
        Binary::In | Binary::NotIn => member_found(kind),
        Binary::Or
        | Binary::And
        | Binary::Comparison(_)
        | Binary::TextTest(_)
        | Binary::Add
        | Binary::Subtract
        | Binary::Multiply
        | Binary::Divide
        | Binary::Remainder => found_kind(kind),
    }
}

/// What the items of a list are; of no list, what it is itself.
fn member_found(kind: &Kind<'_>) -> OperandKind
    ensures { result ≡ member_found (view_of_kind kind.now) }
{
    match items_of(kind) {
        Some(item) => found_shape(item),
        None => found_kind(kind),
    }
}

fn found_kind(kind: &Kind<'_>) -> OperandKind
    ensures { result ≡ found_kind (view_of_kind kind.now) }
{
    match kind {
        Kind::Nil => OperandKind::Nil,
        Kind::Declared(shape) => found_shape(shape),
        Kind::Made(shape) => found_shape(shape),
    }
}

fn found_shape(shape: &Shape) -> OperandKind
    ensures { result ≡ found_shape (shape_view shape.now) }
{
    match shape {
        Shape::Bool => OperandKind::Bool,
        Shape::Whole => OperandKind::Whole,
        Shape::Decimal => OperandKind::Decimal,
        Shape::Text => OperandKind::Text,
        Shape::List { .. } => OperandKind::List,
        Shape::Object(_) => OperandKind::Object,
        Shape::Optional(plain) => found_shape(plain),
    }
}
