//! From the tree of a condition to its typed tree.

ghost use Rattle.std.specs.Prelude.{◌≡◌, false, IfOk, map, None, Some, option_map};
ghost use Rattle.ar_value.specs.declared.operator.BinaryOperator.TheVariants as binary;
ghost use Rattle.ar_value.specs.Answer.{Gives};
ghost use Rattle.ar_value.specs.Kind.{shaped};
ghost use Rattle.ar_value.specs.View.{shape_view};
ghost use Rattle.ar_tree.specs.Expression.{expressions, BinaryAt, ChoiceAt, DefaultAt, FieldAt, IndexAt, IsNilAt, LenAt, ListAt, PredicateAt, UnaryAt};
ghost use Rattle.ar_tree.specs.Views.{expression_of};
ghost use Rattle.ar_check.specs.Answer.{ChecksTo};
ghost use Rattle.ar_check.specs.Basics.{literal_kind};
ghost use Rattle.ar_check.specs.Check.{choice_of, choice_tree, common_default, default_of, default_tree, field_of, given, index_of, innermost, is_nil_literal, len_of, over_items, plain_kind, predicate_kind, predicate_of};
ghost use Rattle.ar_check.specs.Operand.{unwrapped, operand};
ghost use Rattle.ar_check.specs.Private.Inside.{boxed_view, inside, item_in, item_view, items_in_scope, view_of_kind, operand_view, converted_where, typed_in};
ghost use Rattle.ar_tree.specs.Typed as typed;
ghost use Rattle.ar_tree.specs.Views.{typed_view};
ghost use Rattle.ar_check.specs.Memory.{is_memory};

use crate::build::{self, node};
use crate::error::TypeError;
use crate::list::{Item, list};
use crate::operand::{
    Kind, Operand, as_boolean, common, converted, converted_both, converts, field_kind, given,
    given_unary, is_boolean, item_kind, item_shape, plain_kind, scalar, unwrapped, without_nil,
};
use crate::operators::{binary, boolean, is_nil_of, unary, where_wanted};
use ar_tree::tree::{Binary, Literal, Tree, Unary};
use ar_tree::typed::Typed;
use ar_value::holding::zip_ok;
use ar_value::limits::MOST_LOOPS;
use ar_value::operator::{BinaryOperator, Predicate, Scalar, UnaryOperator};
use ar_value::shape::Shape;
use ar_value::text::Text;
use std::alloc::{AllocError, Global};

/// The typed tree of a condition under the shape of `result`, or its first type fault: children are checked before
/// their parent, from left to right. On each value of the shape the typed tree means a boolean or a named fault.
///
/// # Errors
///
/// The first fault in that order, with the offset of the tree that requires something else. At one tree
/// `NotAList`, `NoSuchField`, `NotScalar` and `NoCommonKind` take precedence over `WrongOperand`. `NotTruth`
/// where the whole is no boolean.
pub fn check(alloc: Global, tree: Tree, shape: &Shape) -> Result<Typed, TypeError>
    ensures { ChecksTo (shape_view shape.now) (expression_of tree) result }
{
    let at = tree.offset();
    let scope = Scope {
        measured: shape,
        item: None,
        around: 0,
    };
    let condition = typed(alloc, tree, &scope)?;
    if is_boolean(&condition) {
        Ok(Box::into_inner(unwrapped(alloc, condition)?))
    } else {
        Err(TypeError::NotTruth(at))
    }
}

/// What the names of a condition refer to at a point.
#[derive(Clone, Copy)]
pub(crate) struct Scope<'s> {
    /// The shape of `result`.
    pub measured: &'s Shape,
    /// The shape of the innermost item.
    pub item: Option<&'s Shape>,
    /// How many predicates enclose this point.
    pub around: usize,
}

/// A tree where `result` has a shape, and so has the innermost item, inside n predicates.
#[cycle(typed)]
fn typed<'s>(alloc: Global, tree: Tree, scope: &Scope<'s>) -> Result<Box<Operand<'s>>, TypeError>
    ensures { Gives is_memory boxed_view result (typed_in scope.now (expression_of tree)) }
{
    match tree {
        Tree::Result { .. } => measured_of(alloc, scope.measured),
        Tree::Item { at } => item_of(alloc, at, scope.item),
        Tree::Literal { literal, .. } => literal_of(alloc, literal),
        Tree::Field { at, owner, name } => typed_field(alloc, at, owner, name, scope),
        Tree::Index { at, list, index } => typed_index(alloc, at, list, index, scope),
        Tree::Unary {
            at,
            operator,
            operand,
        } => typed_unary(alloc, at, operator, operand, scope),
        Tree::Binary {
            at,
            operator,
            left,
            right,
        } => typed_binary(alloc, at, operator, left, right, scope),
        Tree::Choice {
            at,
            condition,
            then_branch,
            else_branch,
        } => typed_choice(alloc, at, condition, then_branch, else_branch, scope),
        Tree::List { at, items } => typed_list(alloc, at, items.items, scope),
        Tree::Len { at, list } => typed_len(alloc, at, list, scope),
        Tree::IsNil { at, operand } => typed_is_nil(alloc, at, operand, scope),
        Tree::Default {
            at,
            operand,
            otherwise,
        } => typed_default(alloc, at, operand, otherwise, scope),
        Tree::Predicate {
            at,
            predicate,
            list,
            body,
        } => typed_predicate(alloc, at, predicate, list, body, scope),
    }
}

/// A tree below another.
#[cycle(typed)]
pub(crate) fn child<'s>(
    alloc: Global,
    tree: Box<Tree>,
    scope: &Scope<'s>,
) -> Result<Box<Operand<'s>>, TypeError>
    ensures { Gives is_memory boxed_view result (typed_in scope.now (expression_of tree.value)) }
{
    typed(alloc, Box::into_inner(tree), scope)
}

/// A field of a record.
#[cycle(typed)]
fn typed_field<'s>(
    alloc: Global,
    at: usize,
    owner: Box<Tree>,
    name: Text,
    scope: &Scope<'s>,
) -> Result<Box<Operand<'s>>, TypeError>
    ensures { Gives is_memory boxed_view result
        (typed_in scope.now (FieldAt at (expression_of owner.value) name)) }
{
    let owner = child(alloc, owner, scope)?;
    field_of(alloc, at, name, owner)
}

/// A sign or `not` before its operand.
#[cycle(typed)]
fn typed_unary<'s>(
    alloc: Global,
    at: usize,
    operator: Unary,
    operand: Box<Tree>,
    scope: &Scope<'s>,
) -> Result<Box<Operand<'s>>, TypeError>
    ensures { Gives is_memory boxed_view result
        (typed_in scope.now (UnaryAt at operator (expression_of operand.value))) }
{
    let operand = child(alloc, operand, scope)?;
    unary(alloc, at, operator, operand)
}

/// A list literal.
#[cycle(typed)]
fn typed_list<'s>(
    alloc: Global,
    at: usize,
    items: Vec<Tree>,
    scope: &Scope<'s>,
) -> Result<Box<Operand<'s>>, TypeError>
    ensures { Gives is_memory boxed_view result
        (typed_in scope.now (ListAt at (expressions (map expression_of items.items)))) }
{
    let items = typed_items(alloc, items, scope)?;
    list(alloc, at, items)
}

/// How many items a list has.
#[cycle(typed)]
fn typed_len<'s>(
    alloc: Global,
    at: usize,
    list: Box<Tree>,
    scope: &Scope<'s>,
) -> Result<Box<Operand<'s>>, TypeError>
    ensures { Gives is_memory boxed_view result
        (typed_in scope.now (LenAt at (expression_of list.value))) }
{
    let list = child(alloc, list, scope)?;
    len_of(alloc, at, list)
}

/// Whether an operand is nil.
#[cycle(typed)]
fn typed_is_nil<'s>(
    alloc: Global,
    at: usize,
    operand: Box<Tree>,
    scope: &Scope<'s>,
) -> Result<Box<Operand<'s>>, TypeError>
    ensures { Gives is_memory boxed_view result
        (typed_in scope.now (IsNilAt at (expression_of operand.value))) }
{
    let operand = child(alloc, operand, scope)?;
    is_nil_of(alloc, operand)
}

/// An item of a list, at an index.
#[cycle(typed)]
fn typed_index<'s>(
    alloc: Global,
    at: usize,
    list: Box<Tree>,
    index: Box<Tree>,
    scope: &Scope<'s>,
) -> Result<Box<Operand<'s>>, TypeError>
    ensures { Gives is_memory boxed_view result
        (typed_in scope.now (IndexAt at (expression_of list.value) (expression_of index.value))) }
{
    let list = child(alloc, list, scope)?;
    let index = child(alloc, index, scope)?;
    index_of(alloc, at, list, index)
}

/// An operator between two operands.
#[cycle(typed)]
fn typed_binary<'s>(
    alloc: Global,
    at: usize,
    operator: Binary,
    left: Box<Tree>,
    right: Box<Tree>,
    scope: &Scope<'s>,
) -> Result<Box<Operand<'s>>, TypeError>
    ensures { Gives is_memory boxed_view result
        (typed_in scope.now (BinaryAt at operator (expression_of left.value) (expression_of right.value))) }
{
    let nil_left = is_nil_literal(&left);
    let nil_right = is_nil_literal(&right);
    let left = child(alloc, left, scope)?;
    let right = child(alloc, right, scope)?;
    binary(alloc, at, operator, nil_left, nil_right, left, right)
}

/// One of two branches.
#[cycle(typed)]
fn typed_choice<'s>(
    alloc: Global,
    at: usize,
    condition: Box<Tree>,
    then_branch: Box<Tree>,
    else_branch: Box<Tree>,
    scope: &Scope<'s>,
) -> Result<Box<Operand<'s>>, TypeError>
    ensures { Gives is_memory boxed_view result
        (typed_in scope.now (ChoiceAt at (expression_of condition.value) (expression_of then_branch.value)
        (expression_of else_branch.value))) }
{
    let condition = child(alloc, condition, scope)?;
    let then_branch = child(alloc, then_branch, scope)?;
    let else_branch = child(alloc, else_branch, scope)?;
    choice_of(alloc, at, condition, then_branch, else_branch)
}

/// An operand, or its replacement where it is nil.
#[cycle(typed)]
fn typed_default<'s>(
    alloc: Global,
    at: usize,
    operand: Box<Tree>,
    otherwise: Box<Tree>,
    scope: &Scope<'s>,
) -> Result<Box<Operand<'s>>, TypeError>
    ensures { Gives is_memory boxed_view result
        (typed_in scope.now (DefaultAt at (expression_of operand.value) (expression_of otherwise.value))) }
{
    let operand = child(alloc, operand, scope)?;
    let otherwise = child(alloc, otherwise, scope)?;
    default_of(alloc, at, operand, otherwise)
}

/// What a predicate makes of a list.
#[cycle(typed)]
fn typed_predicate<'s>(
    alloc: Global,
    at: usize,
    predicate: Predicate,
    list: Box<Tree>,
    body: Box<Tree>,
    scope: &Scope<'s>,
) -> Result<Box<Operand<'s>>, TypeError>
    ensures { Gives is_memory boxed_view result
        (typed_in scope.now (PredicateAt at predicate (expression_of list.value) (expression_of body.value))) }
{
    let list = child(alloc, list, scope)?;
    let body = typed_body(alloc, at, body, &list.kind, scope)?;
    predicate_of(alloc, at, predicate, list, body)
}

/// The items of a list literal, unwrapped.
#[cycle(typed)]
#[tactic(auto, using(crate::proofs::Items::all_left))]
fn typed_items(alloc: Global, trees: Vec<Tree>, scope: &Scope<'_>) -> Result<Vec<Item>, TypeError>
    ensures { Gives is_memory (λ items. map item_view items.items) result
        (items_in_scope scope.now (expressions (map expression_of trees.items))) }
{
    let mut items = Vec::with_capacity(alloc, trees.len())?;
    for tree in trees {
        items.push(typed_item(alloc, tree, scope)?)?;
    }
    Ok(items)
}

/// An item of a list literal, unwrapped.
#[cycle(typed)]
fn typed_item(alloc: Global, tree: Tree, scope: &Scope<'_>) -> Result<Item, TypeError>
    ensures { Gives is_memory item_view result (item_in scope.now (expression_of tree)) }
{
    let at = tree.offset();
    let operand = typed(alloc, tree, scope)?;
    let scalar = scalar(&operand);
    let tree = unwrapped(alloc, operand)?;
    Ok(Item { at, scalar, tree })
}

/// What a predicate says of the items of a list: whether it is a boolean, and its tree.
#[cycle(typed)]
fn typed_body(
    alloc: Global,
    at: usize,
    body: Box<Tree>,
    list: &Kind<'_>,
    scope: &Scope<'_>,
) -> Result<(bool, Box<Typed>), TypeError>
    ensures { Gives is_memory (λ found. (found.0, typed_view found.1.value)) result
        (over_items at scope.now.around (view_of_kind list.now)
        (λ shape. inside scope.now shape (expression_of body.value))) }
{
    let shape = item_shape(at, list)?;
    if scope.around >= MOST_LOOPS {
        return Err(TypeError::PredicatesTooDeep(at));
    }
    let inside = in_predicate(scope, shape, scope.around + 1);
    Ok(as_boolean(alloc, child(alloc, body, &inside)?)?)
}

/// What names refer to where a predicate speaks of an item, inside `around` predicates.
pub(crate) fn in_predicate<'s>(scope: &Scope<'s>, item: &'s Shape, around: usize) -> Scope<'s>
    ensures measured { shape_view result.measured.now ≡ shape_view scope.now.measured.now }
    ensures item { option_map (λ shape. shape_view shape.now) result.item ≡ Some (shape_view item.now) }
    ensures around { result.around ≡ around }
{
    Scope {
        measured: scope.measured,
        item: Some(item),
        around,
    }
}

fn measured_of(alloc: Global, shape: &Shape) -> Result<Box<Operand<'_>>, TypeError>
    ensures { Gives is_memory boxed_view result (given typed.result (shaped (shape_view shape.now))) }
{
    let tree = node(alloc, Typed::Result)?;
    given(alloc, tree, Kind::Declared(shape))
}

#[tactic(auto, using(crate::proofs::Freely::gives_freely))]
fn item_of<'s>(
    alloc: Global,
    at: usize,
    item: Option<&'s Shape>,
) -> Result<Box<Operand<'s>>, TypeError>
    ensures { Gives is_memory boxed_view result
        (innermost at (option_map (λ shape. shape_view shape.now) item.entry)) }
{
    let tree = node(alloc, Typed::Item)?;
    given(alloc, tree, innermost_kind(at, item)?)
}

/// The kind of the innermost item.
fn innermost_kind(at: usize, item: Option<&Shape>) -> Result<Kind<'_>, TypeError>
    ensures { Gives (λ _. false) (λ kind. operand typed.item (view_of_kind kind)) result
        (innermost at (option_map (λ shape. shape_view shape.now) item.entry)) }
{
    match item {
        Some(shape) => Ok(Kind::Declared(shape)),
        None => Err(TypeError::WrongOperand(at)),
    }
}

fn literal_of<'s>(alloc: Global, literal: Literal) -> Result<Box<Operand<'s>>, TypeError>
    ensures { Gives is_memory boxed_view result (given (typed.literal literal) (literal_kind literal)) }
{
    let kind = match &literal {
        Literal::Nil => Kind::Nil,
        Literal::Bool(_) => Kind::Made(Shape::Bool),
        Literal::Whole(_) => Kind::Made(Shape::Whole),
        Literal::Decimal(_) => Kind::Made(Shape::Decimal),
        Literal::Text(_) => Kind::Made(Shape::Text),
    };
    let tree = node(alloc, Typed::Literal(literal))?;
    given(alloc, tree, kind)
}

/// Whether a tree is the literal `nil`.
fn is_nil_literal(tree: &Tree) -> bool
    ensures { result ≡ is_nil_literal (expression_of tree.now) }
{
    match tree {
        Tree::Literal { literal, .. } => matches!(literal, Literal::Nil),
        _ => false,
    }
}

fn field_of<'s>(
    alloc: Global,
    at: usize,
    name: Text,
    owner: Box<Operand<'s>>,
) -> Result<Box<Operand<'s>>, TypeError>
    ensures { Gives is_memory boxed_view result (field_of at name (operand_view owner.entry.value)) }
{
    let kind = field_kind(alloc, at, name.as_str(), &owner.kind)?;
    let (kind, tree) = zip_ok(kind, field_tree(alloc, owner, name))?;
    given(alloc, tree, kind)
}

/// The tree of a field, of a plain record.
fn field_tree(alloc: Global, owner: Box<Operand<'_>>, name: Text) -> Result<Box<Typed>, AllocError>
    ensures { IfOk result (λ tree. typed_view tree.value
        ≡ typed.field (unwrapped (operand_view owner.entry.value)) name) }
{
    let owner = unwrapped(alloc, owner)?;
    node(alloc, Typed::Field { owner, name })
}

fn index_of<'s>(
    alloc: Global,
    at: usize,
    list: Box<Operand<'s>>,
    position: Box<Operand<'_>>,
) -> Result<Box<Operand<'s>>, TypeError>
    ensures { Gives is_memory boxed_view result
        (index_of at (operand_view list.entry.value) (operand_view position.entry.value)) }
{
    let kind = item_kind(alloc, at, &list.kind)?;
    let wanted = matches!(scalar(&position), Some(Scalar::Whole));
    let (kind, tree) = zip_ok(kind, index_tree(alloc, list, position))?;
    where_wanted(alloc, at, wanted, tree, kind)
}

/// The tree of an item, of a plain list at a plain index.
fn index_tree(
    alloc: Global,
    list: Box<Operand<'_>>,
    position: Box<Operand<'_>>,
) -> Result<Box<Typed>, AllocError>
    ensures { IfOk result (λ tree. typed_view tree.value
        ≡ typed.binary binary.Index (unwrapped (operand_view list.entry.value))
        (unwrapped (operand_view position.entry.value))) }
{
    let list = unwrapped(alloc, list)?;
    build::binary(
        alloc,
        BinaryOperator::Index,
        list,
        unwrapped(alloc, position)?,
    )
}

#[tactic(auto, using(crate::proofs::Freely::gives_freely))]
fn len_of<'s>(
    alloc: Global,
    at: usize,
    list: Box<Operand<'_>>,
) -> Result<Box<Operand<'s>>, TypeError>
    ensures { Gives is_memory boxed_view result (len_of at (operand_view list.entry.value)) }
{
    item_shape(at, &list.kind)?;
    let list = unwrapped(alloc, list)?;
    given_unary(alloc, UnaryOperator::Len, list, Kind::Made(Shape::Whole))
}

/// One of two branches, which have their common kind.
fn choice_of<'s>(
    alloc: Global,
    at: usize,
    condition: Box<Operand<'_>>,
    then_branch: Box<Operand<'s>>,
    else_branch: Box<Operand<'s>>,
) -> Result<Box<Operand<'s>>, TypeError>
    ensures { Gives is_memory boxed_view result
        (choice_of at (operand_view condition.entry.value)
        (operand_view then_branch.entry.value) (operand_view else_branch.entry.value)) }
{
    let kind = common(alloc, &then_branch.kind, &else_branch.kind)?;
    let wanted = is_boolean(&condition);
    let (kind, tree) = zip_ok(
        kind,
        choice_tree(alloc, condition, then_branch, else_branch),
    )?;
    match kind {
        Some(kind) => where_wanted(alloc, at, wanted, tree, kind),
        None => Err(TypeError::NoCommonKind(at)),
    }
}

/// The tree of a choice, whose branches are converted to the kind that both have.
fn choice_tree(
    alloc: Global,
    condition: Box<Operand<'_>>,
    then_branch: Box<Operand<'_>>,
    else_branch: Box<Operand<'_>>,
) -> Result<Box<Typed>, AllocError>
    ensures { IfOk result (λ tree. typed_view tree.value
        ≡ choice_tree (unwrapped (operand_view condition.entry.value))
        (operand_view then_branch.entry.value) (operand_view else_branch.entry.value)) }
{
    let condition = unwrapped(alloc, condition)?;
    let (then_branch, else_branch) = converted_both(alloc, then_branch, else_branch)?;
    node(
        alloc,
        Typed::Choice {
            condition,
            then_branch,
            else_branch,
        },
    )
}

/// An operand, or its replacement where it is nil.
fn default_of<'s>(
    alloc: Global,
    at: usize,
    first: Box<Operand<'s>>,
    other: Box<Operand<'s>>,
) -> Result<Box<Operand<'s>>, TypeError>
    ensures { Gives is_memory boxed_view result
        (default_of at (operand_view first.entry.value) (operand_view other.entry.value)) }
{
    let Operand { tree, kind } = Box::into_inner(first);
    let plain = without_nil(kind);
    let converts_first = converts(&other.kind, &plain);
    let converts_other = converts(&plain, &other.kind);
    let Operand {
        tree: other,
        kind: of_other,
    } = Box::into_inner(other);
    let kind = default_kind(alloc, plain, of_other)?;
    let made = default_tree(alloc, converts_first, tree, converts_other, other);
    let (kind, tree) = zip_ok(kind, made)?;
    match kind {
        Some(kind) => given(alloc, tree, kind),
        None => Err(TypeError::NoCommonKind(at)),
    }
}

/// The tree of a default, each side of which is converted where it is a whole next to a decimal.
fn default_tree(
    alloc: Global,
    converts_first: bool,
    first: Box<Typed>,
    converts_other: bool,
    other: Box<Typed>,
) -> Result<Box<Typed>, AllocError>
    ensures { IfOk result (λ tree. typed_view tree.value
        ≡ typed.binary binary.Default (converted_where converts_first (typed_view first.value))
        (converted_where converts_other (typed_view other.value))) }
{
    let first = converted(alloc, converts_first, first)?;
    let other = converted(alloc, converts_other, other)?;
    build::binary(alloc, BinaryOperator::Default, first, other)
}

/// The kind of a default: the other's where the first is always nil.
fn default_kind<'s>(
    alloc: Global,
    plain: Kind<'s>,
    other: Kind<'s>,
) -> Result<Option<Kind<'s>>, AllocError>
    ensures { IfOk result
        (λ kind. option_map view_of_kind kind ≡ common_default (view_of_kind plain.entry) (view_of_kind other.entry)) }
{
    if matches!(plain, Kind::Nil) {
        return Ok(Some(other));
    }
    common(alloc, &plain, &other)
}

fn predicate_of<'s>(
    alloc: Global,
    at: usize,
    over: Predicate,
    list: Box<Operand<'s>>,
    body: (bool, Box<Typed>),
) -> Result<Box<Operand<'s>>, TypeError>
    ensures { Gives is_memory boxed_view result
        (predicate_of at over (operand_view list.entry.value) body.0 (typed_view body.1.value)) }
{
    let kind = predicate_kind(alloc, over, &list.kind)?;
    let (wanted, body) = body;
    let (kind, tree) = zip_ok(kind, predicate_tree(alloc, over, list, body))?;
    where_wanted(alloc, at, wanted, tree, kind)
}

/// The tree of a predicate, over a plain list.
fn predicate_tree(
    alloc: Global,
    over: Predicate,
    list: Box<Operand<'_>>,
    body: Box<Typed>,
) -> Result<Box<Typed>, AllocError>
    ensures { IfOk result (λ tree. typed_view tree.value
        ≡ typed.predicate over (unwrapped (operand_view list.entry.value)) (typed_view body.value)) }
{
    let list = unwrapped(alloc, list)?;
    node(
        alloc,
        Typed::Predicate {
            predicate: over,
            list,
            body,
        },
    )
}

/// The kind of what a predicate makes of a list.
fn predicate_kind<'s>(
    alloc: Global,
    over: Predicate,
    list: &Kind<'s>,
) -> Result<Kind<'s>, AllocError>
    ensures { IfOk result (λ kind. view_of_kind kind ≡ predicate_kind over (plain_kind (view_of_kind list.now))) }
{
    match over {
        Predicate::All | Predicate::Any | Predicate::None | Predicate::One => Ok(boolean()),
        Predicate::Count => Ok(Kind::Made(Shape::Whole)),
        Predicate::Filter => plain_kind(alloc, list),
    }
}
