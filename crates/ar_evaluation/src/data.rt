//! The parts of a condition, and conditions that were evaluated, as JSON objects.

ghost use Rattle.std.specs.Prelude.{◌≡◌, ◌++◌, IfOk, OnOk, codes, map, option_map, string_bytes};
ghost use Rattle.std.specs.List.{list_any};
ghost use Rattle.std.specs.Option.{option_map_or};
ghost use Rattle.serde_json.specs.Data.{null};
ghost use Rattle.ar_value.specs.View.{value_view};
ghost use Rattle.ar_explain.specs.Lines.{passed};
ghost use Rattle.ar_apart.specs.Views.{apart_view};
ghost use Rattle.ar_explain.specs.Views.{explanation_view, line_view, said_view};
ghost use Rattle.ar_object.specs.Object.{array_of, count_data};
ghost use Rattle.ar_object.specs.Written.{AddsMember, AddsValue, AddsValues};
ghost use Rattle.ar_tree.specs.Views.{typed_view};
ghost use Rattle.ar_show.specs.PartText.{shown_part};
ghost use Rattle.ar_evaluation.specs.Evaluated.{conditions_on, evaluated_if_there, evaluated_with, has_failed};
ghost use Rattle.ar_evaluation.specs.EvaluatedData.{condition_answer, apart_data, apart_if_there, converts, evaluated_data, evaluation_data, failure_if_there, gap_data, operands_if_there, part_data, part_name, shown_if_there, value_if_there, was_needed};
ghost use Rattle.ar_evaluation.specs.Private.Trees.{condition_tree, trees_of, judge_trees_view};

use crate::lines::{failure_name, is_conversion_part, is_failure};
use crate::trees::{JudgeTrees, NamedTree};
use ar_apart::Apart;
use ar_exact::put_exact;
use ar_explain::{Evaluation, Explanation, Line, Said, tell};
use ar_judge::{Judge, SharedCondition, Which};
use ar_object::JsonText;
use ar_show::push_part;
use ar_tree::Typed;
use ar_value::value::Value;
use std::alloc::{AllocError, Global};

// ---- a part

fn shown_if_there(said: &Said) -> Option<&str>
    ensures { option_map (λ text. text.now) result ≡ shown_if_there (said_view said.now) }
{
    match said {
        Said::Valued(shown, _) | Said::Item(shown) => Some(shown.text.as_str()),
        Said::Failed(..) | Said::Unneeded | Said::Passed { .. } => None,
    }
}

fn failure_if_there(said: &Said) -> Option<&'static str>
    ensures { option_map (λ text. text.now) result ≡ failure_if_there (said_view said.now) }
{
    match said {
        Said::Failed(failure, _) => Some(failure_name(*failure)),
        Said::Valued(..) | Said::Item(_) | Said::Unneeded | Said::Passed { .. } => None,
    }
}

/// On which operands a failure arose, if it arose in the part.
fn operands_if_there(said: &Said) -> Option<&str>
    ensures { option_map (λ text. text.now) result ≡ operands_if_there (said_view said.now) }
{
    match said {
        Said::Failed(_, Some(on)) => Some(on.as_str()),
        Said::Failed(_, None)
        | Said::Valued(..)
        | Said::Item(_)
        | Said::Unneeded
        | Said::Passed { .. } => None,
    }
}

fn was_needed(said: &Said) -> bool
    ensures { result ≡ was_needed (said_view said.now) }
{
    !matches!(said, Said::Unneeded)
}

/// Is a part a conversion that failed?
fn converts(part: &Typed, said: &Said) -> bool
    ensures { result ≡ converts (typed_view part.now) (said_view said.now) }
{
    matches!(said, Said::Failed(..)) && is_conversion_part(part)
}

fn part_text(alloc: Global, part: &Typed) -> Result<String, AllocError>
    ensures { IfOk result (λ text. string_bytes text ≡ shown_part (typed_view part.now)) }
{
    let mut text = String::new(alloc);
    push_part(&mut text, part)?;
    Ok(text)
}

/// A part, or `#` for an item itself.
fn part_name(alloc: Global, part: &Typed, said: &Said) -> Result<String, AllocError>
    ensures { IfOk result (λ text. string_bytes text ≡ part_name (typed_view part.now) (said_view said.now)) }
{
    match said {
        Said::Item(_) => "#".to_string(alloc),
        Said::Valued(..) | Said::Failed(..) | Said::Unneeded | Said::Passed { .. } => {
            part_text(alloc, part)
        }
    }
}

fn write_gap(json: &mut JsonText, items: usize, held: usize)
    ensures { AddsValue (gap_data (passed items held)) json.old.written json.new.written }
{
    json.begin_object();
    json.put_count("hold", held as u64);
    json.put_count("items", items as u64);
    json.end_object()
}

/// Writes how many items aren't shown, or null.
fn put_gap(json: &mut JsonText, said: &Said)
    ensures { AddsMember (codes "between") (gap_data (said_view said.now)) json.old.written json.new.written }
{
    match said {
        Said::Passed { items, held } => {
            json.put_key("between");
            write_gap(json, *items, *held)
        }
        Said::Valued(..) | Said::Item(_) | Said::Failed(..) | Said::Unneeded => {
            json.put_null("between")
        }
    }
}

fn write_apart(json: &mut JsonText, apart: &Apart)
    ensures { AddsValue (apart_data (apart_view apart.now)) json.old.written json.new.written }
{
    json.begin_object();
    json.put_count("byte", apart.byte as u64);
    json.put_text("left", &apart.left);
    json.put_text("right", &apart.right);
    json.end_object()
}

/// Writes where two texts differ that are shown alike, or null.
fn put_apart(json: &mut JsonText, said: &Said)
    ensures { AddsMember (codes "differ") (option_map_or apart_data (apart_if_there (said_view said.now)) null)
        json.old.written json.new.written }
{
    match said {
        Said::Valued(_, Some(apart)) => {
            json.put_key("differ");
            write_apart(json, apart)
        }
        Said::Valued(_, None)
        | Said::Item(_)
        | Said::Failed(..)
        | Said::Unneeded
        | Said::Passed { .. } => json.put_null("differ"),
    }
}

/// Writes a part's value where JSON has it, or null.
fn put_value(json: &mut JsonText, said: &Said)
    ensures { AddsMember (codes "value") (value_if_there (said_view said.now)) json.old.written json.new.written }
{
    match said {
        Said::Valued(shown, _) | Said::Item(shown) => put_exact(json, "value", &shown.exact),
        Said::Failed(..) | Said::Unneeded | Said::Passed { .. } => json.put_null("value"),
    }
}

/// Writes a condition's boolean, or the name of its failure.
fn put_answer(json: &mut JsonText, answer: &Said)
    ensures { AddsMember (codes "answer") (condition_answer (said_view answer.now))
        json.old.written json.new.written }
{
    match answer {
        Said::Valued(shown, _) => put_exact(json, "answer", &shown.exact),
        Said::Failed(failure, _) => json.put_text("answer", failure_name(*failure)),
        Said::Item(_) | Said::Unneeded | Said::Passed { .. } => json.put_null("answer"),
    }
}

/// Writes the items that a part has lines of.
fn put_items(json: &mut JsonText, items: &[usize])
    ensures { AddsMember (codes "items") (array_of (map count_data items.now)) json.old.written json.new.written }
{
    json.begin_list("items");
    for item in items {
        json.put_count_value(*item as u64);
    }
    json.end_list()
}

fn write_part(alloc: Global, json: &mut JsonText, line: &Line<'_>) -> Result<(), AllocError>
    ensures { OnOk result (AddsValue (part_data (line_view line.now)) json.old.written json.new.written) }
{
    let part = part_name(alloc, line.part, &line.said)?;
    json.begin_object();
    json.put_flag("asDecimal", converts(line.part, &line.said));
    put_gap(json, &line.said);
    put_apart(json, &line.said);
    json.put_text_if_there("failure", failure_if_there(&line.said));
    put_items(json, &line.items);
    json.put_flag("needed", was_needed(&line.said));
    json.put_text_if_there("on", operands_if_there(&line.said));
    json.put_text("part", &part);
    json.put_text_if_there("shown", shown_if_there(&line.said));
    put_value(json, &line.said);
    json.end_object();
    Ok(())
}

fn write_parts(alloc: Global, json: &mut JsonText, lines: &[Line<'_>]) -> Result<(), AllocError>
    ensures { OnOk result
        (AddsValues (map part_data (map line_view lines.now)) json.old.written json.new.written) }
{
    for line in lines {
        write_part(alloc, json, line)?;
    }
    Ok(())
}

/// Writes the first parts, then the last ones.
fn put_parts(alloc: Global, json: &mut JsonText, parts: &Explanation<'_>) -> Result<(), AllocError>
    ensures { OnOk result (AddsMember (codes "parts") (array_of (map part_data
        ((explanation_view parts.now).lines ++ (explanation_view parts.now).last)))
        json.old.written json.new.written) }
{
    let (first, second) = parts.last.as_slices();
    json.begin_list("parts");
    write_parts(alloc, json, &parts.lines)?;
    write_parts(alloc, json, first)?;
    write_parts(alloc, json, second)?;
    json.end_list();
    Ok(())
}

// ---- a condition

/// Writes a condition with the parts and the answer of its evaluation.
fn write_evaluation(
    alloc: Global,
    json: &mut JsonText,
    which: &str,
    text: &str,
    evaluation: &Evaluation<'_>,
) -> Result<(), AllocError>
    ensures { OnOk result (AddsValue (evaluation_data which.now text.now (explanation_view evaluation.now.parts)
        (said_view evaluation.now.answer)) json.old.written json.new.written) }
{
    json.begin_object();
    put_answer(json, &evaluation.answer);
    json.put_text("condition", which);
    put_apart(json, &evaluation.answer);
    json.put_count("leftOut", evaluation.parts.left_out);
    json.put_text_if_there("on", operands_if_there(&evaluation.answer));
    put_parts(alloc, json, &evaluation.parts)?;
    json.put_text("text", text);
    json.end_object();
    Ok(())
}

/// Writes a condition's tree on a value, and returns whether the condition has failed there.
fn write_tree(
    alloc: Global,
    json: &mut JsonText,
    condition: &NamedTree<'_>,
    value: &Value,
) -> Result<bool, AllocError>
    ensures json { OnOk result (AddsValue (evaluated_data (evaluated_with condition.now.which.now
        condition.now.text.now (value_view value.now) (typed_view condition.now.tree.now)))
        json.old.written json.new.written) }
    ensures fails { IfOk result (λ failed. failed ≡ has_failed (evaluated_with condition.now.which.now
        condition.now.text.now (value_view value.now) (typed_view condition.now.tree.now))) }
{
    let evaluation = tell(alloc, condition.tree, value)?;
    write_evaluation(alloc, json, condition.which, condition.text, &evaluation)?;
    Ok(is_failure(&evaluation.answer))
}

/// Writes a condition with its tree on a value, where it is there, and returns whether it has failed.
fn write_condition(
    alloc: Global,
    json: &mut JsonText,
    which: &str,
    condition: Option<&SharedCondition>,
    tree: &Option<Typed>,
    value: &Value,
) -> Result<bool, AllocError>
    requires { option_map typed_view tree.now
        ≡ condition_tree (option_map (λ condition. condition.now) condition) }
    ensures json { OnOk result (AddsValues (map evaluated_data (evaluated_if_there which.now (value_view value.now)
        (option_map (λ condition. condition.now) condition.entry))) json.old.written json.new.written) }
    ensures fails { IfOk result (λ failed. failed ≡ list_any has_failed (evaluated_if_there which.now
        (value_view value.now) (option_map (λ condition. condition.now) condition.entry))) }
{
    match (condition, tree) {
        (Some(condition), Some(tree)) => {
            let text = condition.get().text();
            write_tree(alloc, json, &NamedTree { which, text, tree }, value)
        }
        (_, None) | (None, _) => Ok(false),
    }
}

/// Writes what a judge's conditions say of a value.
pub fn write_conditions(
    alloc: Global,
    json: &mut JsonText,
    judge: &Judge,
    trees: &JudgeTrees,
    value: &Value,
) -> Result<(), AllocError>
    requires { judge_trees_view trees.now ≡ trees_of judge.now }
    ensures { OnOk result (AddsValues (map evaluated_data (conditions_on judge.now (value_view value.now)))
        json.old.written json.new.written) }
{
    let success = judge.condition(Which::Success);
    if !write_condition(alloc, json, "success", success, &trees.success, value)? {
        let failure = judge.condition(Which::Failure);
        write_condition(alloc, json, "failure", failure, &trees.failure, value)?;
    }
    Ok(())
}
