//! The lines of a condition that was evaluated: its parts in the order of evaluation, and its answer.

ghost use Rattle.std.specs.Prelude.{◌≡◌, ◌++◌, IfOk, OnOk, codes, flat_map, map, option_map, string_bytes};
ghost use Rattle.std.specs.List.{list_any};
ghost use Rattle.ar_value.specs.View.{value_view};
ghost use Rattle.ar_operand.specs.Failures.{failure_of};
ghost use Rattle.ar_tree.specs.Views.{typed_view};
ghost use Rattle.ar_apart.specs.Views.{apart_view};
ghost use Rattle.ar_explain.specs.Views.{explanation_view, line_view, said_view};
ghost use Rattle.ar_show.specs.PartText.{shown_part};
ghost use Rattle.ar_evaluation.specs.Evaluated.{conditions_on, evaluated_if_there, evaluated_with, has_failed, is_failure};
ghost use Rattle.ar_evaluation.specs.Private.Trees.{condition_tree, trees_of, judge_trees_view};
ghost use Rattle.ar_evaluation.specs.EvaluatedText.{apart_text, condition_text, conversion_text, between_text, failure_name, held_text, hold_word, is_conversion_part, item_text, left_out_line, operands_text, part_line, parts_text, said_part, said_text};

use crate::trees::{JudgeTrees, NamedTree};
use ar_apart::Apart;
use ar_explain::{Explanation, Line, Said, tell};
use ar_judge::{Judge, SharedCondition, Which};
use ar_operand::operand::Failure;
use ar_show::{plural, push_part};
use ar_tree::Typed;
use ar_value::operator::UnaryOperator;
use ar_value::value::Value;
use std::alloc::{AllocError, Global};
use std::collections::VecDeque;
use std::fmt::Write;

pub(crate) fn failure_name(failure: Failure) -> &'static str
    ensures { result.now ≡ failure_name (failure_of failure) }
{
    match failure {
        Failure::Fault(fault) => fault.name(),
        Failure::IllKinded => "IllKinded",
    }
}

/// On which operands a failure arose, if it arose in the part.
fn push_operands(out: &mut String, on: &Option<String>) -> Result<(), AllocError>
    ensures { OnOk result (string_bytes out.new ≡ string_bytes out.old
        ++ operands_text (option_map (λ on. string_bytes on) on.now)) }
{
    match on {
        None => Ok(()),
        Some(on) => {
            out.push_str(": ")?;
            out.push_str(on)
        }
    }
}

/// How many things come between two others.
fn push_between(out: &mut String, what: &str, number: usize) -> Result<(), AllocError>
    ensures { OnOk result (string_bytes out.new ≡ string_bytes out.old ++ between_text what.now number) }
{
    write!(out, "{number} {what}{} between", plural(number))
}

fn hold_word(held: usize) -> &'static str
    ensures { result.now ≡ hold_word held }
{
    if held == 1 { "holds" } else { "hold" }
}

/// Of how many of some items a body holds.
fn push_held(out: &mut String, items: usize, held: usize) -> Result<(), AllocError>
    ensures { OnOk result (string_bytes out.new ≡ string_bytes out.old ++ held_text items held) }
{
    if held == 0 {
        return out.push_str("none holds");
    }
    if held == items {
        return out.push_str("each holds");
    }
    write!(out, "{held} {}", hold_word(held))
}

fn push_gap(out: &mut String, items: usize, held: usize) -> Result<(), AllocError>
    ensures { OnOk result (string_bytes out.new ≡ string_bytes out.old
        ++ (between_text (codes "item") items ++ (codes ", " ++ held_text items held))) }
{
    push_between(out, "item", items)?;
    out.push_str(", ")?;
    push_held(out, items, held)
}

/// Where two texts differ that are shown alike, where there are such.
fn push_apart(out: &mut String, apart: &Option<Apart>) -> Result<(), AllocError>
    ensures { OnOk result (string_bytes out.new
        ≡ string_bytes out.old ++ apart_text (option_map apart_view apart.now)) }
{
    match apart {
        None => Ok(()),
        Some(apart) => write!(
            out,
            "; byte {} differs: {} and {}",
            apart.byte, apart.left, apart.right
        ),
    }
}

fn push_said(out: &mut String, said: &Said) -> Result<(), AllocError>
    ensures { OnOk result (string_bytes out.new ≡ string_bytes out.old ++ said_text (said_view said.now)) }
{
    match said {
        Said::Valued(shown, apart) => {
            out.push_str(" = ")?;
            out.push_str(&shown.text)?;
            push_apart(out, apart)
        }
        Said::Item(shown) => {
            out.push_str(" = ")?;
            out.push_str(&shown.text)
        }
        Said::Failed(failure, on) => {
            out.push_str(": ")?;
            out.push_str(failure_name(*failure))?;
            push_operands(out, on)
        }
        Said::Unneeded => out.push_str(": not needed"),
        Said::Passed { items, held } => push_gap(out, *items, *held),
    }
}

/// Does a part convert its operand to a decimal, which its text doesn't show?
pub(crate) fn is_conversion_part(part: &Typed) -> bool
    ensures { result ≡ is_conversion_part (typed_view part.now) }
{
    match part {
        Typed::Unary {
            operator: UnaryOperator::ToDecimal,
            ..
        } => true,
        _ => false,
    }
}

fn conversion_text(part: &Typed) -> &'static str
    ensures { result.now ≡ conversion_text (typed_view part.now) }
{
    if is_conversion_part(part) {
        " as a decimal"
    } else {
        ""
    }
}

fn push_failed_part(out: &mut String, part: &Typed) -> Result<(), AllocError>
    ensures { OnOk result (string_bytes out.new ≡ string_bytes out.old
        ++ (shown_part (typed_view part.now) ++ conversion_text (typed_view part.now))) }
{
    push_part(out, part)?;
    out.push_str(conversion_text(part))
}

/// The part itself, but where only items of it are counted.
fn push_said_part(out: &mut String, part: &Typed, said: &Said) -> Result<(), AllocError>
    ensures { OnOk result
        (string_bytes out.new ≡ string_bytes out.old ++ said_part (typed_view part.now) (said_view said.now)) }
{
    match said {
        Said::Passed { .. } => Ok(()),
        Said::Item(_) => out.push_str("#"),
        Said::Failed(..) => push_failed_part(out, part),
        Said::Valued(..) | Said::Unneeded => push_part(out, part),
    }
}

/// The numbers of the items on which the bodies of predicates were evaluated.
#[tactic(auto, using(crate::proofs::Lists::next_item, crate::proofs::Lists::no_item_left), unfolding(crate::specs::EvaluatedText::item_text))]
fn push_items(out: &mut String, items: &[usize]) -> Result<(), AllocError>
    ensures { OnOk result (string_bytes out.new ≡ string_bytes out.old ++ flat_map item_text items.now) }
{
    for number in items {
        write!(out, "item {number}: ")?;
    }
    Ok(())
}

#[tactic(auto, unfolding(crate::specs::EvaluatedText::part_line))]
fn push_part_line(out: &mut String, line: &Line<'_>) -> Result<(), AllocError>
    ensures { OnOk result (string_bytes out.new ≡ string_bytes out.old ++ part_line (line_view line.now)) }
{
    out.push_str("    ")?;
    push_items(out, &line.items)?;
    push_said_part(out, line.part, &line.said)?;
    push_said(out, &line.said)?;
    out.push_str("\n")
}

#[tactic(auto, using(crate::proofs::Lists::next_line, crate::proofs::Lists::no_line_left))]
fn push_lines(out: &mut String, lines: &[Line<'_>]) -> Result<(), AllocError>
    ensures { OnOk result
        (string_bytes out.new ≡ string_bytes out.old ++ flat_map part_line (map line_view lines.now)) }
{
    for line in lines {
        push_part_line(out, line)?;
    }
    Ok(())
}

fn push_last(out: &mut String, lines: &VecDeque<Line<'_>>) -> Result<(), AllocError>
    ensures { OnOk result
        (string_bytes out.new ≡ string_bytes out.old ++ flat_map part_line (map line_view lines.now.items)) }
{
    let (first, second) = lines.as_slices();
    push_lines(out, first)?;
    push_lines(out, second)
}

fn push_lines_between(out: &mut String, number: u64) -> Result<(), AllocError>
    ensures { OnOk result (string_bytes out.new ≡ string_bytes out.old
        ++ (codes "    " ++ (between_text (codes "line") number ++ codes "\n"))) }
{
    out.push_str("    ")?;
    push_between(out, "line", number as usize)?;
    out.push_str("\n")
}

fn push_left_out(out: &mut String, left_out: u64) -> Result<(), AllocError>
    ensures { OnOk result (string_bytes out.new ≡ string_bytes out.old ++ left_out_line left_out) }
{
    if left_out == 0 {
        return Ok(());
    }
    push_lines_between(out, left_out)
}

fn push_parts(out: &mut String, parts: &Explanation<'_>) -> Result<(), AllocError>
    ensures { OnOk result
        (string_bytes out.new ≡ string_bytes out.old ++ parts_text (explanation_view parts.now)) }
{
    push_lines(out, &parts.lines)?;
    push_left_out(out, parts.left_out)?;
    push_last(out, &parts.last)
}

/// Whether a condition has failed.
pub(crate) fn is_failure(said: &Said) -> bool
    ensures { result ≡ is_failure (said_view said.now) }
{
    matches!(said, Said::Failed(..))
}

fn push_head(out: &mut String, which: &str, tree: &Typed) -> Result<(), AllocError>
    ensures { OnOk result (string_bytes out.new ≡ string_bytes out.old
        ++ (codes "  " ++ (which.now ++ (codes ": " ++ (shown_part (typed_view tree.now) ++ codes "\n"))))) }
{
    out.push_str("  ")?;
    out.push_str(which)?;
    out.push_str(": ")?;
    push_part(out, tree)?;
    out.push_str("\n")
}

fn push_answer(out: &mut String, answer: &Said) -> Result<(), AllocError>
    ensures { OnOk result (string_bytes out.new ≡ string_bytes out.old
        ++ (codes "    answer" ++ (said_text (said_view answer.now) ++ codes "\n"))) }
{
    out.push_str("    answer")?;
    push_said(out, answer)?;
    out.push_str("\n")
}

/// A condition's tree on a value, and whether it has failed there.
#[tactic(auto, unfolding(crate::specs::EvaluatedText::condition_text))]
fn push_tree(
    alloc: Global,
    out: &mut String,
    condition: &NamedTree<'_>,
    value: &Value,
) -> Result<bool, AllocError>
    ensures text { OnOk result (string_bytes out.new ≡ string_bytes out.old
        ++ condition_text (evaluated_with condition.now.which.now condition.now.text.now (value_view value.now)
        (typed_view condition.now.tree.now))) }
    ensures fails { IfOk result (λ failed. failed ≡ has_failed (evaluated_with condition.now.which.now
        condition.now.text.now (value_view value.now) (typed_view condition.now.tree.now))) }
{
    let evaluation = tell(alloc, condition.tree, value)?;
    push_head(out, condition.which, condition.tree)?;
    push_parts(out, &evaluation.parts)?;
    push_answer(out, &evaluation.answer)?;
    Ok(is_failure(&evaluation.answer))
}

/// A condition with its tree on a value, where it is there, and whether it has failed.
fn push_condition(
    alloc: Global,
    out: &mut String,
    which: &str,
    condition: Option<&SharedCondition>,
    tree: &Option<Typed>,
    value: &Value,
) -> Result<bool, AllocError>
    requires { option_map typed_view tree.now
        ≡ condition_tree (option_map (λ condition. condition.now) condition) }
    ensures text { OnOk result (string_bytes out.new ≡ string_bytes out.old
        ++ flat_map condition_text (evaluated_if_there which.now (value_view value.now)
        (option_map (λ condition. condition.now) condition.entry))) }
    ensures fails { IfOk result (λ failed. failed ≡ list_any has_failed (evaluated_if_there which.now
        (value_view value.now) (option_map (λ condition. condition.now) condition.entry))) }
{
    match (condition, tree) {
        (Some(condition), Some(tree)) => {
            let text = condition.get().text();
            push_tree(alloc, out, &NamedTree { which, text, tree }, value)
        }
        (_, None) | (None, _) => Ok(false),
    }
}

/// What a judge's conditions say of a value.
pub fn push_conditions(
    alloc: Global,
    out: &mut String,
    judge: &Judge,
    trees: &JudgeTrees,
    value: &Value,
) -> Result<(), AllocError>
    requires { judge_trees_view trees.now ≡ trees_of judge.now }
    ensures { OnOk result (string_bytes out.new ≡ string_bytes out.old
        ++ flat_map condition_text (conditions_on judge.now (value_view value.now))) }
{
    let success = judge.condition(Which::Success);
    if push_condition(alloc, out, "success", success, &trees.success, value)? {
        return Ok(());
    }
    let failure = judge.condition(Which::Failure);
    push_condition(alloc, out, "failure", failure, &trees.failure, value)?;
    Ok(())
}
