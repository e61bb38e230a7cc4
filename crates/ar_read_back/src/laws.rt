//! Laws of explanations. A law is the contract of a function that does nothing.

ghost use Rattle.ar_read_back.specs.StatedLaws.{AnswersAreMeant, EventLinesAreStated, ExplanationsReadBack, LinesLookAsTheyAre, PartLinesAreStated, RunLinesAreStated};

/// A reader of an explanation's object finds what it states, each fact by its name.
#[tactic(auto, using(crate::proofs::ReadBack::explanation_read))]
pub fn explanations_read_back()
    ensures { ExplanationsReadBack }
{}

/// The text says nothing of runs and their metrics that the object doesn't state.
#[tactic(auto, using(crate::proofs::Texts::runs_stated))]
pub fn run_lines_are_stated()
    ensures { RunLinesAreStated }
{}

/// The text says nothing of an event that the object doesn't state, but for its conditions.
#[tactic(auto, using(crate::proofs::Texts::events_stated))]
pub fn event_lines_are_stated()
    ensures { EventLinesAreStated }
{}

/// The text says nothing of a condition's parts that the object doesn't state.
#[tactic(auto, using(crate::proofs::Texts::parts_stated))]
pub fn part_lines_are_stated()
    ensures { PartLinesAreStated }
{}

/// Each line of a condition's parts is stated as what it says, though an item's would look in JSON as the value of a
/// part that is the item itself: no line says that.
#[tactic(auto, using(crate::proofs::Looks::lines_look))]
pub fn lines_look_as_they_are()
    ensures { LinesLookAsTheyAre }
{}

/// A condition's answer is stated as what it means, though a failure's name would look in JSON as a value that is such
/// a text: the value of a condition is true or false.
#[tactic(auto, using(crate::proofs::Meant::answers_meant))]
pub fn answers_are_meant()
    ensures { AnswersAreMeant }
{}
