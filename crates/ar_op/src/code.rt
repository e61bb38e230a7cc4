//! Code: operations with their texts and names.

ghost use Rattle.std.specs.Prelude.{◌≡◌, map, string_bytes};
ghost use Rattle.ar_op.specs.Code.{IsCode, code_of_parts};

use crate::op::Op;
use std::fmt;
use std::marker::Model;

/// Operations, and the texts and names that they speak of by number: at most 4,096 of each, of at
/// most 4,096 bytes, and each number is inside its table. Contracts see it as the `Code` of
/// `specs/Code`.
#[derive(Drop)]
pub struct Code {
    ops: Vec<Op>,
    texts: Vec<String>,
    names: Vec<String>,
}

impl Model for Code {
    ghost use Rattle.std.specs.Prelude.{map, string_bytes};
    ghost use Rattle.ar_op.specs.Code.{Code as Parts, IsCode, code_of_parts};

    ghost Value = { Parts };

    ghost view = { λ c. code_of_parts c.ops.items (map string_bytes c.texts.items) (map string_bytes c.names.items) };

    ghost invariant = { λ c. IsCode
        (code_of_parts c.ops.items (map string_bytes c.texts.items) (map string_bytes c.names.items)) };
}

impl Code {
    /// The code of its parts, which has to be one: at most 4,096 operations, texts and names, texts
    /// and names of at most 4,096 bytes, lists of at most 16 items, and each number inside its table.
    pub fn of_parts(ops: Vec<Op>, texts: Vec<String>, names: Vec<String>) -> Code
        requires { IsCode (code_of_parts ops.items (map string_bytes texts.items) (map string_bytes names.items)) }
        ensures { result ≡ code_of_parts ops.items (map string_bytes texts.items) (map string_bytes names.items) }
    {
        Code { ops, texts, names }
    }

    /// Its operations, each at its index.
    pub fn ops(&self) -> &[Op]
        ensures ops { result.now ≡ self.now.ops }
        // Code keeps its limits, and each number is inside its table.
        ensures code { IsCode self.now }
    {
        &self.ops
    }

    pub fn texts(&self) -> &[String]
        ensures { map string_bytes result.now ≡ self.now.texts }
    {
        &self.texts
    }

    pub fn names(&self) -> &[String]
        ensures { map string_bytes result.now ≡ self.now.names }
    {
        &self.names
    }
}

/// Nothing of its parts: `ar_code::listing` shows them.
impl fmt::Debug for Code {
    fn fmt<W: fmt::Write>(&self, f: &mut fmt::Formatter<W>) -> fmt::Result {
        f.write_str("Code { .. }")
    }
}
