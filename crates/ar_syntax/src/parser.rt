//! From a text's tokens to the tree of a condition.

ghost use Rattle.std.specs.Prelude.{◌≡◌, ◌<◌, length, Err, IfOk, false, option_map};
ghost use Rattle.ar_value.specs.Answer.{Gives};
ghost use Rattle.ar_value.specs.Limits.{most_text_bytes};
ghost use Rattle.ar_syntax.specs.Machine.{Have, finished, parser_step, whole};
ghost use Rattle.ar_syntax.specs.Parsed.{ParsesTo};
ghost use Rattle.ar_syntax.specs.Parse.{tree_at_end, limited, parse_of, state_after, tree_of};
ghost use Rattle.ar_syntax.specs.Condition.{strict};
ghost use Rattle.ar_syntax.specs.declared.error.SyntaxError.TheVariants.{TooLong};
ghost use Rattle.ar_syntax.specs.Private.Steps.{at_state};
ghost use Rattle.ar_syntax.specs.Spelling.{is_syntax_memory};
ghost use Rattle.ar_syntax.specs.Private.Frames.{frames_of};
ghost use Rattle.ar_tree.specs.Views.{expression_of};

use crate::climb::{Reach, climb};
use crate::depth::fits;
use crate::error::SyntaxError;
use crate::fault::{fault_by, is_inside, wants_operand};
use crate::machine::Frame;
use crate::scanner::tokens;
use crate::state::State;
use crate::step::step;
use crate::token::Token;
use ar_tree::tree::Tree;
use std::alloc::{AllocError, Global};

/// How many levels a tree may have.
const MOST_TREE_LEVELS: usize = 64;

/// The tree of a condition, by the grammar in expr-lang's Language Definition, of which this is a
/// part. A node has the offset of its operator, or of its first token.
///
/// # Errors
///
/// Those of [`tokens`](crate::tokens) first. Then the refusal of the first token that, with those
/// before it, begins no condition, at its first byte; the end of the text counts as a token.
/// `TooManyItems` and `WrongCount` where just the number of items or arguments is to blame,
/// `ItemOutside` for `#` outside a predicate, `UnknownName` for a word that the language doesn't
/// name where an operand is expected, `TooDeep` for the opener after 64 unfinished ones, else
/// `Unexpected`. Last, `TooDeep` at byte 0 for a tree of more than 64 levels.
pub fn parse(alloc: Global, text: &str) -> Result<Tree, SyntaxError>
    ensures { ParsesTo text.now result }
{
    tree(alloc, text)
}

/// The tree of a text, or its first refusal: tokens come first, all of them.
#[tactic(auto, unfolding(crate::specs::Parse::parse_of))]
fn tree(alloc: Global, text: &str) -> Result<Tree, SyntaxError>
    ensures too_long { most_text_bytes < length text.now → result ≡ Err TooLong }
    ensures exact { Gives is_syntax_memory expression_of result (parse_of text.now) }
{
    let tokens = tokens(alloc, text)?;
    tree_of_tokens(alloc, &tokens, text.len())
}

/// The tree of tokens whose text ends at an offset.
#[tactic(auto, unfolding(crate::specs::Parse::tree_of))]
fn tree_of_tokens(alloc: Global, tokens: &[Token], end: usize) -> Result<Tree, SyntaxError>
    ensures { Gives is_syntax_memory expression_of result (tree_of end tokens.now) }
{
    let mut stack = Vec::new(alloc);
    let mut state = State::Want;
    for token in tokens {
        state = stepped(alloc, &mut stack, state, token)?;
    }
    ended(alloc, stack, state, end)
}

/// One token more, or its refusal.
#[tactic(auto, using(crate::proofs::Openers::stepped_refused))]
fn stepped(
    alloc: Global,
    stack: &mut Vec<Frame>,
    state: State,
    token: &Token,
) -> Result<State, SyntaxError>
    ensures { Gives is_syntax_memory (λ next. at_state stack.new.items next) result
        (state_after (at_state stack.old.items state) token.now
        (parser_step strict (at_state stack.old.items state) token.now)) }
{
    let wants = wants_operand(&state);
    let inside = is_inside(stack, &state);
    match step(alloc, stack, state, token) {
        Ok(next) => Ok(next),
        Err(refusal) => Err(fault_by(refusal, wants, inside, token)),
    }
}

/// The tree where the tokens end.
fn ended(alloc: Global, stack: Vec<Frame>, state: State, end: usize) -> Result<Tree, SyntaxError>
    ensures { Gives is_syntax_memory expression_of result (tree_at_end end (finished (at_state stack.items state))) }
{
    let tree = finished(alloc, stack, state)?;
    complete(tree, end)
}

/// The tree of tokens that end at an offset, where they are a condition.
fn complete(tree: Option<Box<Tree>>, end: usize) -> Result<Tree, SyntaxError>
    ensures { Gives (λ _. false) expression_of result
        (tree_at_end end (option_map (λ tree. expression_of tree.value) tree)) }
{
    match tree {
        Some(tree) => limited(tree),
        None => Err(SyntaxError::Unexpected(end)),
    }
}

/// A tree that isn't too deep.
fn limited(tree: Box<Tree>) -> Result<Tree, SyntaxError>
    ensures { Gives (λ _. false) expression_of result (limited (expression_of tree.value)) }
{
    if fits(&tree, MOST_TREE_LEVELS) {
        Ok(Box::into_inner(tree))
    } else {
        Err(SyntaxError::TooDeep(0))
    }
}

/// The tree that ends the tokens, where they may end.
fn finished(alloc: Global, stack: Vec<Frame>, state: State) -> Result<Option<Box<Tree>>, AllocError>
    ensures { IfOk result (λ whole. option_map (λ tree. expression_of tree.value) whole
        ≡ finished (at_state stack.items state)) }
{
    let State::Have(tree) = state else {
        return Ok(None);
    };
    let mut stack = stack;
    let tree = climb(alloc, &mut stack, Reach::Ender, tree)?;
    Ok(whole(&stack, tree))
}

/// A tree that no frame waits for.
#[tactic(auto, using(crate::proofs::Openers::no_whole, crate::proofs::Climbs::pops))]
fn whole(stack: &[Frame], tree: Box<Tree>) -> Option<Box<Tree>>
    ensures { option_map (λ tree. expression_of tree.value) result
        ≡ whole (Have (frames_of stack.now) (expression_of tree.value)) }
{
    match stack {
        [] => Some(tree),
        [..] => None,
    }
}
