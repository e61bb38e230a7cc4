//! What is said of an evaluation.

ghost use Rattle.std.specs.Prelude.{◌≡◌, ◌+◌, ◌-◌, ◌^◌, ◌++◌, [], ◌∷◌, IfOk, OnOk, drop, map, min, option_map, string_bytes};
ghost use Rattle.ar_tree.specs.Views.{typed_view};
ghost use Rattle.ar_machine.specs.Operand.{operand_value};
ghost use Rattle.ar_explain.specs.Private.Keeping.{with_last, with_line};
ghost use Rattle.ar_explain.specs.Private.Places.{place_view, said_by, with_lines_at};
ghost use Rattle.ar_show.specs.Values.{shown_value};
ghost use Rattle.ar_explain.specs.Lines.{shown_of};
ghost use Rattle.ar_explain.specs.Views.{explanation_view, line_view, said_view, shown_view};

use crate::applied::operand_ref;
use crate::place::Place;
use crate::seen::Seen;
use ar_apart::{Apart, Texts, texts_apart};
use ar_exact::exact_of;
use ar_machine::operand::OperandRef;
use ar_machine::operand::borrowed::ValueRef;
use ar_operand::operand::{Failure, Operand};
use ar_show::push_value;
use ar_tree::Typed;
use serde_json::Value as Json;
use std::alloc::{AllocError, Global};
use std::collections::VecDeque;

/// How many of the first lines are kept, and how many of the last ones.
const MOST_AT_EACH_END: usize = 500;

/// A value as people see it, and as programs have it.
#[derive(Drop)]
pub struct Shown {
    pub text: String,
    pub exact: Json,
}

/// What is said of a part.
#[derive(Drop)]
pub enum Said {
    /// It has a value. Where its operands are texts that differ and are shown alike, they are apart so.
    Valued(Shown, Option<Apart>),
    /// It fails, on these operands where the failure arises in it.
    Failed(Failure, Option<String>),
    /// It wasn't needed.
    Unneeded,
    /// It is a predicate's body, evaluated on an item that is shown so.
    Item(Shown),
    /// It is a predicate's body, evaluated on items that aren't shown, of `held` of which it holds.
    Passed { items: usize, held: usize },
}

/// What is said of a part that is evaluated on these items, by their numbers, the outermost first.
#[derive(Drop)]
pub struct Line<'t> {
    pub items: Vec<usize>,
    pub part: &'t Typed,
    pub said: Said,
}

/// The first lines of parts, and the last ones.
#[derive(Drop)]
pub struct Explanation<'t> {
    pub lines: Vec<Line<'t>>,
    /// How many lines come between.
    pub left_out: u64,
    /// The last of the lines after the first.
    pub last: VecDeque<Line<'t>>,
}

/// What is said of the evaluation of a condition.
#[derive(Drop)]
pub struct Evaluation<'t> {
    /// The lines of its parts, in the order of evaluation.
    pub parts: Explanation<'t>,
    /// The value or the failure of the whole condition.
    pub answer: Said,
}

/// What is to be said of a part, before it has a text.
#[derive(Clone, Copy)]
pub(crate) enum Remark<'s, 'v> {
    /// With the operands that it is made of, if they are texts.
    Value(&'s Operand<'v>, Option<Texts<'v>>),
    /// With the operands on which it arises in the part, if it does.
    Failure(Failure, Option<&'s str>),
    Unneeded,
    /// Of an item that is shown.
    Item(ValueRef<'v>),
    /// Of items that aren't shown.
    Passed(Seen),
}

fn text_of(alloc: Global, value: OperandRef<'_, '_>) -> Result<String, AllocError>
    ensures { IfOk result (λ text. string_bytes text ≡ shown_value (operand_value value.entry)) }
{
    let mut text = String::new(alloc);
    push_value(&mut text, value)?;
    Ok(text)
}

fn shown_of(alloc: Global, value: OperandRef<'_, '_>) -> Result<Shown, AllocError>
    ensures { IfOk result (λ shown. shown_view shown ≡ shown_of (operand_value value.entry)) }
{
    Ok(Shown {
        text: text_of(alloc, value)?,
        exact: exact_of(alloc, value)?,
    })
}

fn owned(alloc: Global, text: Option<&str>) -> Result<Option<String>, AllocError>
    ensures { IfOk result (λ owned. option_map string_bytes owned ≡ option_map (λ text. text.now) text.entry) }
{
    let Some(text) = text else { return Ok(None) };
    let mut owned = String::new(alloc);
    owned.push_str(text)?;
    Ok(Some(owned))
}

pub(crate) fn said_of(alloc: Global, remark: Remark<'_, '_>) -> Result<Said, AllocError>
    ensures { IfOk result (λ said. said_view said ≡ said_by remark.entry) }
{
    match remark {
        Remark::Value(operand, texts) => {
            let shown = shown_of(alloc, operand_ref(operand))?;
            Ok(Said::Valued(shown, texts_apart(alloc, texts)?))
        }
        Remark::Failure(failure, on) => Ok(Said::Failed(failure, owned(alloc, on)?)),
        Remark::Unneeded => Ok(Said::Unneeded),
        Remark::Item(value) => Ok(Said::Item(shown_of(alloc, OperandRef::Borrowed(value))?)),
        Remark::Passed(seen) => Ok(Said::Passed {
            items: seen.items,
            held: seen.held,
        }),
    }
}

fn line_of<'t>(
    alloc: Global,
    items: &[usize],
    part: &'t Typed,
    remark: Remark<'_, '_>,
) -> Result<Line<'t>, AllocError>
    ensures { IfOk result (λ line. line_view line
        ≡ record { items = items.now; part = typed_view part.now; said = said_by remark.entry }) }
{
    let said = said_of(alloc, remark)?;
    let items = items.to_vec(alloc)?;
    Ok(Line { items, part, said })
}

impl<'t> Explanation<'t> {
    pub(crate) fn new(alloc: Global) -> Explanation<'t>
        ensures { explanation_view result ≡ record { lines = []; left_out = 0; last = [] } }
    {
        Explanation {
            lines: Vec::new(alloc),
            left_out: 0,
            last: VecDeque::new(alloc),
        }
    }

    /// Drops the first of the last lines, and counts it.
    fn drop_first(&mut self)
        ensures lines { self.new.lines ≡ self.old.lines }
        ensures left_out { self.new.left_out ≡ min (self.old.left_out + 1) (2 ^ 64 - 1) }
        ensures last { self.new.last.items ≡ drop 1 self.old.last.items }
    {
        self.last.pop_front();
        self.left_out = self.left_out.saturating_add(1);
    }

    fn push_last(&mut self, line: Line<'t>) -> Result<(), AllocError>
        ensures { OnOk result (explanation_view self.new ≡ record (explanation_view self.old) {
          last = map line_view self.old.last.items ++ line_view line.entry ∷ [];
        }) }
    {
        self.last.push_back(line)?;
        Ok(())
    }

    /// Keeps a line as one of the last. Where there is no room the first of those is dropped.
    fn keep_last(&mut self, line: Line<'t>) -> Result<(), AllocError>
        ensures { OnOk result
            (explanation_view self.new ≡ with_last (explanation_view self.old) (line_view line.entry)) }
    {
        if self.last.len() < MOST_AT_EACH_END {
            return self.push_last(line);
        }
        self.drop_first();
        self.push_last(line)
    }

    /// Keeps a line as one of the first where there is room.
    fn keep(&mut self, line: Line<'t>) -> Result<(), AllocError>
        ensures { OnOk result
            (explanation_view self.new ≡ with_line (explanation_view self.old) (line_view line.entry)) }
    {
        if self.lines.len() >= MOST_AT_EACH_END {
            return self.keep_last(line);
        }
        self.lines.push(line)?;
        Ok(())
    }

    /// Says of a part what came of it, unless the place is silent.
    pub(crate) fn say(
        &mut self,
        alloc: Global,
        place: &Place<'_>,
        part: &'t Typed,
        remark: Remark<'_, '_>,
    ) -> Result<(), AllocError>
        ensures { OnOk result (explanation_view self.new ≡ with_lines_at (place_view place.now) self.old
            (record { items = []; part = typed_view part.now; said = said_by remark.entry } ∷ [])) }
    {
        if place.silent {
            return Ok(());
        }
        self.keep(line_of(alloc, &place.items, part, remark)?)
    }
}
