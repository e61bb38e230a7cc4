//! What is in a call's parentheses, as the two arguments of `default(result, 0)`.

ghost use Rattle.std.specs.Prelude.{◌≡◌, ◌∷◌, ◌++◌, ◌<◌, [], length, map, IfOk};
ghost use Rattle.ar_syntax.specs.Machine.{Have, WantArgument, close_braced, when};
ghost use Rattle.ar_syntax.specs.Grammar.{takes_all, takes_more};
ghost use Rattle.ar_syntax.specs.Roles.{arity, called, follows, is_group};
ghost use Rattle.ar_syntax.specs.Private.Steps.{Steps, StepsFreely};
ghost use Rattle.ar_tree.specs.Views.{expression_of};

use crate::build::{boxed, operand};
use crate::role::{Call, Ender, Follow, follow_of, is_group};
use crate::state::{Refusal, State};
use crate::token::Token;
use ar_tree::tree::Tree;
use std::alloc::{AllocError, Global};

/// After the name of a call.
pub(crate) fn want_group(
    alloc: Global,
    at: usize,
    function: Call,
    token: &Token,
) -> Result<State, Refusal>
    ensures { (stack : _)
        → StepsFreely (λ rules. when rules (is_group token.now) (WantArgument stack at function [])) stack result }
{
    if is_group(token) {
        let so_far = Vec::new(alloc);
        Ok(State::WantArgument {
            at,
            function,
            so_far,
        })
    } else {
        Err(Refusal::Other)
    }
}

/// After an argument in braces.
pub(crate) fn have_argument(
    alloc: Global,
    at: usize,
    function: Call,
    arguments: Vec<Tree>,
    token: &Token,
) -> Result<State, Refusal>
    ensures { (stack : _) → Steps
        (λ rules. close_braced rules stack at function (map expression_of arguments.items) (follows token.now))
        stack result }
{
    match follow_of(token) {
        Follow::Ends(Ender::EndGroup) => end_call(alloc, at, function, arguments),
        Follow::Ends(Ender::Comma) => next_argument(at, function, arguments),
        _ => Err(Refusal::Other),
    }
}

/// One more argument of a call, where there may be one.
#[tactic(auto, using(crate::proofs::Openers::argument_left, crate::proofs::Openers::no_argument_left))]
pub(crate) fn next_argument(at: usize, function: Call, so_far: Vec<Tree>) -> Result<State, Refusal>
    ensures { (stack : _) → StepsFreely
        (λ rules. when rules (takes_more rules function (length (map expression_of so_far.items)))
        (WantArgument stack at function (map expression_of so_far.items)))
        stack result }
{
    if so_far.len() < function.arity() {
        Ok(State::WantArgument {
            at,
            function,
            so_far,
        })
    } else {
        Err(Refusal::Arguments)
    }
}

/// The end of a call, where it has all arguments.
#[tactic(auto, using(crate::proofs::Openers::all_arguments, crate::proofs::Openers::not_all_arguments))]
pub(crate) fn end_call(
    alloc: Global,
    at: usize,
    function: Call,
    arguments: Vec<Tree>,
) -> Result<State, Refusal>
    ensures { (stack : _) → Steps
        (λ rules. when rules (takes_all rules function (length (map expression_of arguments.items)))
        (Have stack (called at function (map expression_of arguments.items))))
        stack result }
{
    if arguments.len() == function.arity() {
        operand(alloc, call(alloc, at, function, arguments)?)
    } else {
        Err(Refusal::Arguments)
    }
}

/// The node of a call with all its arguments.
fn call(alloc: Global, at: usize, function: Call, arguments: Vec<Tree>) -> Result<Tree, AllocError>
    requires { length arguments.items ≡ arity function }
    ensures { IfOk result (λ tree. expression_of tree ≡ called at function (map expression_of arguments.items)) }
{
    let mut arguments = arguments;
    let last = pop_argument(alloc, &mut arguments)?;
    match function {
        Call::Len => Ok(Tree::Len { at, list: last }),
        Call::IsNil => Ok(Tree::IsNil { at, operand: last }),
        Call::Default => {
            let operand = pop_argument(alloc, &mut arguments)?;
            Ok(Tree::Default {
                at,
                operand,
                otherwise: last,
            })
        }
        Call::Over(predicate) => {
            let list = pop_argument(alloc, &mut arguments)?;
            Ok(Tree::Predicate {
                at,
                predicate,
                list,
                body: last,
            })
        }
    }
}

/// Takes the last argument, which is required.
fn pop_argument(alloc: Global, arguments: &mut Vec<Tree>) -> Result<Box<Tree>, AllocError>
    requires { 0 < length arguments.old.items }
    ensures { IfOk result (λ last. arguments.old.items ≡ arguments.new.items ++ last.value ∷ []) }
{
    match arguments.pop() {
        Some(last) => boxed(alloc, last),
        None => unreachable!(),
    }
}
