//! Laws of traces. A law is the contract of a function that does nothing.

ghost use Rattle.std.specs.Prelude.{◌≡◌, ◌++◌, ◌∷◌, [], All, Err, List, Ok, Option, Some, false, true, ℕ};
ghost use Rattle.ar_value.specs.Operators.{Failure};
ghost use Rattle.ar_value.specs.Value.{Items, Value, item, list};
ghost use Rattle.ar_value.specs.declared.operator.Predicate.{Predicate};
ghost use Rattle.ar_tree.specs.Meaning.{mean};
ghost use Rattle.ar_tree.specs.Typed.{Typed};
ghost use Rattle.ar_explain.specs.Operands.{apart_on};
ghost use Rattle.ar_explain.specs.Lines.{Line, all_lines, earlier_lines, own_line};
ghost use Rattle.ar_explain.specs.Operands.{failed_on};
ghost use Rattle.ar_explain.specs.Parts.{Fails, IsEntryOf, child, is_evaluated, with_part};
ghost use Rattle.ar_explain.specs.Sources.{IsFrom, IsLeftOutIfUnneeded, IsOfBodyIfItem, LooksLastAt, SayInOrder, SayUnneeded, SaysAllItems, is_body, lines_of_meanings};
ghost use Rattle.ar_explain.specs.Trace.{TraceEntry, root_entry, trace};

/// Each entry is of a part of the tree, and has its meaning.
pub fn entries_are_of_parts()
    ensures { (result : Value) (here : Option Value) (tree : Typed)
        → All (IsEntryOf result here tree) (trace result here tree) }
{}

/// The last entry is the root's: its meaning is the condition's.
#[tactic(auto, using(crate::proofs::Roots::root_last))]
pub fn root_is_last()
    ensures { (result : Value) (here : Option Value) (tree : Typed)
        → (earlier : List TraceEntry) × (trace result here tree ≡ earlier ++ root_entry result here tree ∷ []) }
{}

/// Where an entry's part fails, the condition fails with the same failure.
pub fn failures_are_of_the_root()
    ensures { (result : Value) (here : Option Value) (tree : Typed) (failure : Failure)
        → All (λ (entry : TraceEntry). entry.meaning ≡ Err failure → mean result here tree ≡ Err failure)
        (trace result here tree) }
{}

/// A part without an entry isn't needed: any tree in its place leaves the meaning unchanged.
#[tactic(auto, using(crate::proofs::LeftOut::left_out))]
pub fn parts_left_out_arent_needed()
    ensures { (result : Value) (here : Option Value) (tree other : Typed) (path : List ℕ)
        → is_evaluated path (trace result here tree) ≡ false
        → mean result here (with_part path other tree) ≡ mean result here tree }
{}

/// A part with an entry is needed: with a tree in its place that always fails, the condition fails, too.
pub fn parts_evaluated_are_needed()
    ensures { (result : Value) (here : Option Value) (tree broken : Typed) (path : List ℕ) (failure : Failure)
        → Fails result failure broken → is_evaluated path (trace result here tree) ≡ true
        → mean result here (with_part path broken tree) ≡ Err failure }
{}

/// Each line that says a value or a failure is of an entry of the trace: it has the entry's part and items, and says
/// its meaning, and where a failure arises, on which operands. So is each line that shows an item: the entry's part is
/// evaluated on it.
pub fn lines_are_of_entries()
    ensures { (result : Value) (here : Option Value) (tree : Typed)
        → All (IsFrom result (trace result here tree)) (all_lines result here tree) }
{}

/// Each line that shows an item has the body of a predicate as its part, and shows the item to which its numbers lead.
pub fn items_shown_are_of_bodies()
    ensures { (result : Value) (here : Option Value) (tree : Typed)
        → All (IsOfBodyIfItem result here tree) (all_lines result here tree) }
{}

/// The lines that say values and failures are in the order of the trace's entries: each is of one after that of the
/// line before.
pub fn lines_are_in_order()
    ensures { (result : Value) (here : Option Value) (tree : Typed)
        → SayInOrder result (trace result here tree) (lines_of_meanings (all_lines result here tree)) }
{}

/// A part of which a line says that it isn't needed has no entry on the line's items, and the part around it has one.
pub fn unneeded_parts_have_no_entry()
    ensures { (result : Value) (here : Option Value) (tree : Typed)
        → All (IsLeftOutIfUnneeded tree (trace result here tree)) (all_lines result here tree) }
{}

/// Of a part that has a value, each child without an entry has a line that says it isn't needed. That isn't said of the
/// body of a predicate, which is evaluated on items.
pub fn children_without_an_entry_are_unneeded()
    ensures { (result : Value) (here : Option Value) (tree part : Typed) (value : Value) (number : ℕ)
        → mean result here tree ≡ Ok value → child tree number ≡ Some part → is_body tree number ≡ false
        → is_evaluated (number ∷ []) (trace result here tree) ≡ false
        → SayUnneeded part (earlier_lines result here tree) }
{}

/// The last line is the root's own, with its meaning.
pub fn root_line_is_last()
    ensures { (result : Value) (here : Option Value) (tree : Typed)
        → (earlier : List Line) × (all_lines result here tree
        ≡ earlier
        ++ own_line tree (mean result here tree) (failed_on result here tree) (apart_on result here tree) ∷ []) }
{}

/// The last item that a predicate looks at has its line and those of the body on it, whatever other items are left out
/// of the lines.
pub fn last_items_have_lines()
    ensures { (result : Value) (here : Option Value) (predicate : Predicate) (many body : Typed) (first : Value)
        (others : Items) → mean result here many ≡ Ok (list (item first others))
        → (number : ℕ) × (value : Value) × LooksLastAt result here predicate many body number value }
{}

/// Each item on which a predicate's body is evaluated is shown, or counted in the line of a gap with those next to it:
/// the numbers of items and the counts of gaps are exact.
pub fn items_are_shown_or_counted()
    ensures { (result : Value) (here : Option Value) (predicate : Predicate) (many body : Typed)
        → SaysAllItems result here predicate many body }
{}
