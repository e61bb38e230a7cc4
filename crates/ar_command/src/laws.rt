//! Laws of what commands say. A law is the contract of a function that does nothing.

ghost use Rattle.std.specs.Prelude.{◌≡◌, ◌≢◌, ℕ, List, Ok};
ghost use Rattle.ar_bundle.specs.Bundle.{Bundle};
ghost use Rattle.ar_document.specs.Document.{ReadsInput};
ghost use Rattle.ar_command.specs.Alike.{AreOfSameRuns, IsSameBundle};
ghost use Rattle.ar_command.specs.Serving.{Says};
ghost use Rattle.ar_command.specs.declared.serving.Closing.{Closing};
ghost use Rattle.ar_command_line.specs.declared.command_line.Command.{Command};
ghost use Rattle.ar_command_line.specs.declared.command_line.Command.TheVariants as commands;
ghost use Rattle.ar_command_line.specs.declared.command_line.Format.{Format};
ghost use Rattle.ar_command_line.specs.declared.command_line.Format.TheVariants as formats;

/// An input is one bundle, up to where its parts are in memory.
#[tactic(auto, using(crate::proofs::OneText::one_bundle))]
pub fn one_bundle()
    ensures { (input : List ℕ) (one other : Bundle) → ReadsInput input (Ok one) → ReadsInput input (Ok other)
        → IsSameBundle one other }
{}

/// A command says one text of an input, and closes in one way. Only where workers post to a board there may
/// be several reports, as many as there are orders of the events.
pub fn one_text()
    ensures { (command : Command) (input text other : List ℕ) (closing closing_of_other : Closing)
        → ((workers : ℕ) (format : Format) → command ≢ commands.Run workers format) → Says command input text closing
        → Says command input other closing_of_other
        → (text ≡ other) × (closing ≡ closing_of_other) }
{}

/// An ordered run says of an input what the plain run says of it, whatever the number of its workers and
/// whatever their threads do, and closes as that does.
pub fn ordered_is_plain()
    ensures { (workers : ℕ) (format : Format) (input text other : List ℕ) (closing closing_of_other : Closing)
        → Says (commands.Ordered workers format) input text closing
        → Says (commands.Plain format) input other closing_of_other
        → (text ≡ other) × (closing ≡ closing_of_other) }
{}

/// What the plain run says of an input in words and as JSON are the same facts of runs, and both close alike.
pub fn formats_have_same_facts()
    ensures { (input words object : List ℕ) (closing closing_of_other : Closing)
        → Says (commands.Plain formats.Text) input words closing
        → Says (commands.Plain formats.Json) input object closing_of_other
        → AreOfSameRuns words object × (closing ≡ closing_of_other) }
{}
