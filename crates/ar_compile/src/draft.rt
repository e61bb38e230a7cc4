//! Code that grows.

ghost use Rattle.std.specs.Prelude.{◌≡◌, ◌<◌, ◌≤◌, ◌^◌, [], OnOk, length, map, string_bytes};
ghost use Rattle.ar_value.specs.Limits.{most_code_entries};
ghost use Rattle.ar_op.specs.Code.{IsCode, code_of_parts};
ghost use Rattle.ar_compile.specs.Private.Drafts.{no_code, draft_index, with_field, with_op, with_push_text, with_set};

use crate::table::{add_text, number_of};
use ar_op::op::Source;
use ar_op::{Code, Op};
use std::alloc::{AllocError, Global};
use std::marker::Model;

/// Operations, texts and names so far. There is an operation for each text and each name.
#[derive(Drop)]
pub(crate) struct Draft {
    ops: Vec<Op>,
    texts: Vec<String>,
    names: Vec<String>,
}

impl Model for Draft {
    ghost use Rattle.std.specs.Prelude.{◌≤◌, length, map, string_bytes};
    ghost use Rattle.ar_op.specs.Code.{Code as Parts, code_of_parts};

    ghost Value = { Parts };

    ghost view = { λ d. code_of_parts d.ops.items (map string_bytes d.texts.items) (map string_bytes d.names.items) };

    ghost invariant = { λ d. (length d.texts.items ≤ length d.ops.items)
        × (length d.names.items ≤ length d.ops.items) };
}

impl Draft {
    pub(crate) fn new(alloc: Global) -> Draft
        ensures { result ≡ no_code }
    {
        Draft {
            ops: Vec::new(alloc),
            texts: Vec::new(alloc),
            names: Vec::new(alloc),
        }
    }

    /// The index of the next operation.
    pub(crate) fn index(&self) -> usize
        ensures { result ≡ draft_index self.now }
    {
        self.ops.len()
    }

    pub(crate) fn push(&mut self, op: Op) -> Result<(), AllocError>
        ensures { OnOk result (self.new ≡ with_op op self.old) }
    {
        self.ops.push(op)?;
        Ok(())
    }

    /// Adds the operation that pushes a text, with the text's number.
    pub(crate) fn push_text(&mut self, alloc: Global, text: &str) -> Result<(), AllocError>
        requires { draft_index self.old ≤ most_code_entries }
        ensures { OnOk result (self.new ≡ with_push_text text.now self.old) }
    {
        let number = number_of(&self.texts, text);
        self.ops.push(Op::Push(Source::Text(number as u32)))?;
        add_text(alloc, &mut self.texts, text, number)
    }

    /// Adds the operation that takes a record's field, with its name's number.
    pub(crate) fn push_field(&mut self, alloc: Global, name: &str) -> Result<(), AllocError>
        requires { draft_index self.old ≤ most_code_entries }
        ensures { OnOk result (self.new ≡ with_field name.now self.old) }
    {
        let number = number_of(&self.names, name);
        self.ops.push(Op::Field(number as u32))?;
        add_text(alloc, &mut self.names, name, number)
    }

    /// Puts another operation at `index`.
    pub(crate) fn set(&mut self, index: usize, op: Op)
        requires { index < draft_index self.old }
        ensures { self.new ≡ with_set index op self.old }
    {
        self.ops[index] = op;
    }

    pub(crate) fn into_code(self) -> Code
        requires { IsCode self }
        ensures { result ≡ self }
    {
        Code::of_parts(self.ops, self.texts, self.names)
    }
}
