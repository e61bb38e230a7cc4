//! How deep a tree is.

ghost use Rattle.std.specs.Prelude.{◌≡◌, map, nat_le};
ghost use Rattle.ar_tree.specs.Expression.{expressions};
ghost use Rattle.ar_syntax.specs.Condition.{depth, items_depth};
ghost use Rattle.ar_tree.specs.Views.{expression_of};

use ar_tree::tree::Tree;

/// Whether a tree has at most `levels` levels. It recurs no deeper than that.
#[cycle(fits)]
#[tactic(auto, using(crate::proofs::Depths::no_level, crate::proofs::Depths::leaf_level, crate::proofs::Depths::one_level, crate::proofs::Depths::two_levels, crate::proofs::Depths::three_levels))]
pub(crate) fn fits(tree: &Tree, levels: usize) -> bool
    ensures { result ≡ nat_le (depth (expression_of tree.now)) levels }
{
    if levels == 0 {
        return false;
    }
    let inner = levels - 1;
    match tree {
        Tree::Result { .. } | Tree::Item { .. } | Tree::Literal { .. } => true,
        Tree::Field { owner, .. } => fits(owner, inner),
        Tree::Index { list, index, .. } => fits(list, inner) && fits(index, inner),
        Tree::Unary { operand, .. } => fits(operand, inner),
        Tree::Binary { left, right, .. } => fits(left, inner) && fits(right, inner),
        Tree::Choice {
            condition,
            then_branch,
            else_branch,
            ..
        } => fits(condition, inner) && (fits(then_branch, inner) && fits(else_branch, inner)),
        Tree::List { items, .. } => all_fit(&items.items, inner),
        Tree::Len { list, .. } => fits(list, inner),
        Tree::IsNil { operand, .. } => fits(operand, inner),
        Tree::Default {
            operand,
            otherwise,
            ..
        } => fits(operand, inner) && fits(otherwise, inner),
        Tree::Predicate { list, body, .. } => fits(list, inner) && fits(body, inner),
    }
}

#[cycle(fits)]
#[tactic(auto, using(crate::proofs::Depths::next_tree, crate::proofs::Depths::no_tree_left))]
fn all_fit(trees: &[Tree], levels: usize) -> bool
    ensures { result ≡ nat_le (items_depth (expressions (map expression_of trees.now))) levels }
{
    for tree in trees {
        if !fits(tree, levels) {
            return false;
        }
    }
    true
}
