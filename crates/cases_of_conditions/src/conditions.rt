//! Calls on conditions as texts: tokens, trees, and trees whose kinds are known.

use crate::made::{Made, put_made};
use crate::trees::put_tree;
use crate::typed::put_typed;
use ar_check::check;
use ar_syntax::{Token, TokenKind, parse, tokens};
use ar_tree::{Tree, Typed};
use cases_of_values::fault::Written;
use cases_of_values::members;
use cases_of_values::output::Output;
use cases_of_values::printing::{put_between, put_pair, put_quoted, put_refusal};
use serde_json::Value as Json;
use std::alloc::Global;

pub(crate) fn put_tokens(alloc: Global, case: &Json, out: &mut Output) -> Written {
    let made = tokens(alloc, members::text(case, "condition")?);
    put_made(alloc, case, out, made)
}

impl Made for Vec<Token> {
    fn answer_case(&self, _alloc: Global, _case: &Json, out: &mut Output) -> Written {
        out.put("[");
        let mut first = true;
        for token in self.as_slice() {
            put_between(out, first, ", ");
            first = false;
            put_token(out, token);
        }
        out.put("]");
        Ok(())
    }
}

fn put_token(out: &mut Output, token: &Token) {
    write!(out, "{}-{} ", token.span.start, token.span.end);
    put_kind(out, &token.kind);
}

fn put_kind(out: &mut Output, kind: &TokenKind) {
    match kind {
        TokenKind::Word(word) => put_pair(out, "word", word.letters()),
        TokenKind::Name(name) => put_pair(out, "name", name.as_str()),
        TokenKind::Whole(whole) => write!(out, "whole {whole}"),
        TokenKind::Decimal(decimal) => write!(out, "decimal {decimal}"),
        TokenKind::Text(text) => {
            out.put("text ");
            put_quoted(out, text.as_str());
        }
        TokenKind::Sign(sign) => put_pair(out, "sign", sign.spelling()),
    }
}

pub(crate) fn put_parsed(alloc: Global, case: &Json, out: &mut Output) -> Written {
    let made = parse(alloc, members::text(case, "condition")?);
    put_made(alloc, case, out, made)
}

impl Made for Tree {
    fn answer_case(&self, _alloc: Global, _case: &Json, out: &mut Output) -> Written {
        put_tree(out, self);
        Ok(())
    }
}

/// The typed tree of a condition that can be parsed. The shape is checked after the condition.
pub(crate) fn put_checked(alloc: Global, case: &Json, out: &mut Output) -> Written {
    match parse(alloc, members::text(case, "condition")?) {
        Ok(tree) => put_typed_of(alloc, case, Box::new(alloc, tree)?, out),
        Err(refusal) => {
            put_refusal(alloc, case, out, refusal);
            Ok(())
        }
    }
}

fn put_typed_of(alloc: Global, case: &Json, tree: Box<Tree>, out: &mut Output) -> Written {
    let shape = members::shape(alloc, case, "shape")?;
    let made = check(alloc, Box::into_inner(tree), shape.get());
    put_made(alloc, case, out, made)
}

impl Made for Typed {
    fn answer_case(&self, _alloc: Global, _case: &Json, out: &mut Output) -> Written {
        put_typed(out, self);
        Ok(())
    }
}
