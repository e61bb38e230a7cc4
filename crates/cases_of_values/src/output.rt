//! What is written of an answer.

ghost use Rattle.std.specs.Prelude.{◌≡◌, [], IfSome};
ghost use Rattle.std.specs.Char.{encode_utf8};
ghost use Rattle.cases_of_values.specs.Output.{Holds, IsLost, Writes, given_of};

use crate::fault::{CaseFault, Written};
use std::alloc::Global;
use std::fmt::{Display, Write};

/// The text of an answer, written piece by piece.
///
/// If memory for a piece is lacking, the text ends: nothing more is taken, and it is never given out. So
/// writing returns nothing, and only the end reports out of memory.
#[derive(Drop)]
pub struct Output {
    text: String,
    is_whole: bool,
}

impl Output {
    pub fn new(alloc: Global) -> Output
        ensures { Holds result [] }
    {
        Output {
            text: String::new(alloc),
            is_whole: true,
        }
    }

    pub fn put(&mut self, text: &str)
        ensures { Writes self.old self.new text.now }
    {
        if self.is_whole {
            self.is_whole = self.text.push_str(text).is_ok();
        }
    }

    pub fn put_character(&mut self, character: char)
        ensures { Writes self.old self.new (encode_utf8 character) }
    {
        if self.is_whole {
            self.is_whole = self.text.push(character).is_ok();
        }
    }

    /// What `write!` writes by.
    pub fn write_fmt<D: Display + Drop>(&mut self, shown: D)
        ensures { IfSome (D.output shown) (λ text. Writes self.old self.new text) }
    {
        if self.is_whole {
            self.is_whole = self.text.write_fmt(shown).is_ok();
        }
    }

    /// Memory ran out.
    pub fn lose(&mut self)
        ensures { IsLost self.new }
    {
        self.is_whole = false;
    }

    /// The text with all of its pieces, or why the case has no answer: out of memory precedes other
    /// faults.
    pub fn finish(self, written: Written) -> Result<String, CaseFault>
        ensures { result ≡ given_of self written }
    {
        if !self.is_whole {
            return Err(CaseFault::OutOfMemory);
        }
        match written {
            Ok(()) => Ok(self.text),
            Err(fault) => Err(fault),
        }
    }
}
