//! Conditions as written, printed: a node as `(operator@index child child)`, a leaf as `leaf@index`.

use ar_tree::tree::{Binary, Comparison, Literal, Tree, Unary};
use ar_value::operator::{Predicate, TextTest};
use cases_of_values::output::Output;
use cases_of_values::printing::put_quoted;

pub(crate) fn put_literal(out: &mut Output, literal: &Literal) {
    match literal {
        Literal::Nil => out.put("nil"),
        Literal::Bool(boolean) => write!(out, "{boolean}"),
        Literal::Whole(whole) => write!(out, "{whole}"),
        Literal::Decimal(decimal) => write!(out, "{decimal}"),
        Literal::Text(text) => put_quoted(out, text.as_str()),
    }
}

pub(crate) fn comparison_sign(comparison: Comparison) -> &'static str {
    match comparison {
        Comparison::Equal => "==",
        Comparison::NotEqual => "!=",
        Comparison::Less => "<",
        Comparison::LessOrEqual => "<=",
        Comparison::Greater => ">",
        Comparison::GreaterOrEqual => ">=",
    }
}

pub(crate) fn test_name(test: TextTest) -> &'static str {
    match test {
        TextTest::Contains => "contains",
        TextTest::StartsWith => "startsWith",
        TextTest::EndsWith => "endsWith",
    }
}

fn binary_sign(operator: Binary) -> &'static str {
    match operator {
        Binary::Or => "or",
        Binary::And => "and",
        Binary::Comparison(comparison) => comparison_sign(comparison),
        Binary::In => "in",
        Binary::NotIn => "not-in",
        Binary::TextTest(test) => test_name(test),
        Binary::Add => "+",
        Binary::Subtract => "-",
        Binary::Multiply => "*",
        Binary::Divide => "/",
        Binary::Remainder => "%",
    }
}

fn unary_sign(operator: Unary) -> &'static str {
    match operator {
        Unary::Plus => "+",
        Unary::Minus => "-",
        Unary::Not => "not",
    }
}

pub(crate) fn predicate_name(predicate: Predicate) -> &'static str {
    match predicate {
        Predicate::All => "all",
        Predicate::Any => "any",
        Predicate::None => "none",
        Predicate::One => "one",
        Predicate::Count => "count",
        Predicate::Filter => "filter",
    }
}

/// The word of a node; a literal has none.
fn word(tree: &Tree) -> &'static str {
    match tree {
        Tree::Result { .. } => "result",
        Tree::Item { .. } => "#",
        Tree::Literal { .. } => "",
        Tree::Field { .. } => "field",
        Tree::Index { .. } => "index",
        Tree::Unary { operator, .. } => unary_sign(*operator),
        Tree::Binary { operator, .. } => binary_sign(*operator),
        Tree::Choice { .. } => "choice",
        Tree::List { .. } => "list",
        Tree::Len { .. } => "len",
        Tree::IsNil { .. } => "isNil",
        Tree::Default { .. } => "default",
        Tree::Predicate { predicate, .. } => predicate_name(*predicate),
    }
}

fn put_index(out: &mut Output, tree: &Tree) {
    write!(out, "@{}", tree.offset());
}

fn put_leaf(out: &mut Output, tree: &Tree) {
    out.put(word(tree));
    put_index(out, tree);
}

/// A tree with a blank before it.
#[cycle(put_tree)]
fn put_child(out: &mut Output, tree: &Tree) {
    out.put(" ");
    put_tree(out, tree);
}

#[cycle(put_tree)]
pub(crate) fn put_tree(out: &mut Output, tree: &Tree) {
    match tree {
        Tree::Result { .. } | Tree::Item { .. } => put_leaf(out, tree),
        Tree::Literal { literal, .. } => {
            put_literal(out, literal);
            put_index(out, tree);
        }
        _ => {
            out.put("(");
            put_leaf(out, tree);
            put_parts(out, tree);
            out.put(")");
        }
    }
}

/// The parts of a node, each after a blank; a leaf has none.
#[cycle(put_tree)]
fn put_parts(out: &mut Output, tree: &Tree) {
    match tree {
        Tree::Result { .. } | Tree::Item { .. } | Tree::Literal { .. } => {}
        Tree::Field { owner, name, .. } => {
            put_child(out, owner);
            out.put(" ");
            put_quoted(out, name.as_str());
        }
        Tree::Unary { operand, .. }
        | Tree::IsNil { operand, .. }
        | Tree::Len { list: operand, .. } => put_child(out, operand),
        Tree::Binary { left, right, .. }
        | Tree::Index {
            list: left,
            index: right,
            ..
        }
        | Tree::Default {
            operand: left,
            otherwise: right,
            ..
        }
        | Tree::Predicate {
            list: left,
            body: right,
            ..
        } => {
            put_child(out, left);
            put_child(out, right);
        }
        Tree::Choice {
            condition,
            then_branch,
            else_branch,
            ..
        } => {
            put_child(out, condition);
            put_child(out, then_branch);
            put_child(out, else_branch);
        }
        Tree::List { items, .. } => {
            for item in &items.items {
                put_child(out, item);
            }
        }
    }
}
