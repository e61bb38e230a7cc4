//! One token more.

ghost use Rattle.std.specs.Prelude.{◌≡◌, ◌∷◌, ◌++◌, [], length, map, pred, Some, IfOk};
ghost use Rattle.ar_tree.specs.Expression.{LiteralAt};
ghost use Rattle.ar_syntax.specs.Grammar.{ends_bracket, may_continue, may_open};
ghost use Rattle.ar_syntax.specs.Machine.{Argued, Body, Braced, Frame, Grouped, Have, Indexed, Listed, RightOf, Then, Want, WantArgument, argue, argument_start, begun_with, choose, climbed, close_empty, close_text, end_with, have, openers_left, open_index, operate, negate, select, parser_step, unwound, want, when};
ghost use Rattle.ar_syntax.specs.Roles.{follows, is_body, is_brace, is_in, precedence, field_name_of, literal_text};
ghost use Rattle.ar_tree.specs.declared.tree.Binary.TheVariants.{NotIn};
ghost use Rattle.ar_tree.specs.declared.tree.Literal.TheVariants.{Text as TextLiteral};
ghost use Rattle.ar_syntax.specs.Private.Steps.{Steps, StepsFreely, is_empty_call, start_of, state_of};
ghost use Rattle.ar_syntax.specs.Private.Frames.{frame_of, frames_of};
ghost use Rattle.ar_tree.specs.Views.{expression_of};

use crate::build::{boxed, operand};
use crate::call::{end_call, have_argument, next_argument, want_group};
use crate::climb::{Reach, climb};
use crate::machine::Frame;
use crate::role::{Call, Ender, Follow, follow_of, is_brace, is_in, precedence};
use crate::stack::{inside, left};
use crate::start::{Begin, begin_of};
use crate::state::{Refusal, State};
use crate::token::{Token, TokenKind};
use ar_tree::tree::{Binary, Literal, Tree, Trees};
use ar_value::limits::MOST_LITERAL_ITEMS;
use ar_value::text::Text;
use std::alloc::{AllocError, Global};
use std::mem;

/// The level of a choice's condition: all operators bind tighter.
const CONDITION_LEVEL: usize = 5;

/// One more phrase, whose operand is expected next.
#[tactic(auto, using(crate::proofs::Climbs::pops))]
fn wait(stack: &mut Vec<Frame>, frame: Frame) -> Result<State, Refusal>
    ensures { Steps (λ rules. Some (Want (frame_of frame ∷ frames_of stack.old.items)))
        (frames_of stack.new.items) result }
{
    stack.push(frame)?;
    Ok(State::Want)
}

/// One more opener, where one may begin.
#[tactic(auto, using(crate::proofs::Openers::opener_left, crate::proofs::Openers::no_opener_left, crate::proofs::Climbs::pops))]
fn open(stack: &mut Vec<Frame>, frame: Frame) -> Result<State, Refusal>
    ensures { Steps
        (λ rules. when rules (may_open rules (openers_left (frames_of stack.old.items)))
        (Want (frame_of frame ∷ frames_of stack.old.items)))
        (frames_of stack.new.items) result }
{
    if left(stack) == 0 {
        mem::drop(frame);
        Err(Refusal::Depth)
    } else {
        wait(stack, frame)
    }
}

/// The state after an opener that makes no frame yet, where one may begin.
#[tactic(auto, using(crate::proofs::Openers::opener_left, crate::proofs::Openers::no_opener_left))]
fn with_opener(stack: &[Frame], state: State) -> Result<State, Refusal>
    ensures { Steps
        (λ rules. when rules
        (may_open rules (openers_left (frames_of stack.now))) (state_of (frames_of stack.now) state))
        (frames_of stack.now) result }
{
    if left(stack) == 0 {
        Err(Refusal::Depth)
    } else {
        Ok(state)
    }
}

/// Where an operand is expected.
fn want(alloc: Global, stack: &mut Vec<Frame>, token: &Token) -> Result<State, Refusal>
    ensures { Steps (λ rules. want rules (frames_of stack.old.items) token.now) (frames_of stack.new.items) result }
{
    let start = begin_of(alloc, inside(stack), token)?;
    begin_with(alloc, stack, token.span.start, start)
}

/// What a token begins, where an operand is expected.
fn begin_with(
    alloc: Global,
    stack: &mut Vec<Frame>,
    at: usize,
    start: Begin,
) -> Result<State, Refusal>
    ensures { Steps (λ rules. begun_with rules (frames_of stack.old.items) at (start_of start))
        (frames_of stack.new.items) result }
{
    match start {
        Begin::Leaf(tree) => Ok(State::Have(tree)),
        Begin::Prefix(operator) => open(stack, Frame::Prefixed { at, operator }),
        Begin::Group => open(stack, Frame::Grouped),
        Begin::Bracket => {
            let so_far = Vec::new(alloc);
            open(stack, Frame::Listed { at, so_far })
        }
        Begin::Calls(function) => with_opener(stack, State::WantGroup { at, function }),
        Begin::ItemPoint => Ok(State::WantName {
            at,
            owner: boxed(alloc, Tree::Item { at })?,
        }),
        Begin::NoStart => Err(Refusal::Other),
    }
}

/// A phrase more, whose operand begins with this token.
#[tactic(auto, using(crate::proofs::Climbs::pops))]
fn wait_at(
    alloc: Global,
    stack: &mut Vec<Frame>,
    frame: Frame,
    token: &Token,
) -> Result<State, Refusal>
    ensures { Steps (λ rules. want rules (frame_of frame ∷ frames_of stack.old.items) token.now)
        (frames_of stack.new.items) result }
{
    stack.push(frame)?;
    want(alloc, stack, token)
}

/// Items with one more.
fn with_item(items: Vec<Tree>, item: Box<Tree>) -> Result<Vec<Tree>, AllocError>
    ensures { IfOk result
        (λ all. map expression_of all.items ≡ map expression_of items.items ++ expression_of item.value ∷ []) }
{
    let mut items = items;
    items.push(Box::into_inner(item))?;
    Ok(items)
}

/// After an operand.
fn have(
    alloc: Global,
    stack: &mut Vec<Frame>,
    tree: Box<Tree>,
    token: &Token,
) -> Result<State, Refusal>
    ensures { Steps (λ rules. have rules (frames_of stack.old.items) (expression_of tree.value) token.now)
        (frames_of stack.new.items) result }
{
    let at = token.span.start;
    match follow_of(token) {
        Follow::Operator(operator) => operate(alloc, stack, tree, at, operator),
        Follow::NotOf => negate(alloc, stack, tree, at),
        Follow::Choose => choose(alloc, stack, tree, at),
        Follow::Select => Ok(State::WantName { at, owner: tree }),
        Follow::Open => with_opener(stack, State::WantIndex { at, owner: tree }),
        Follow::Ends(ender) => end_with(alloc, stack, tree, ender),
        Follow::NoFollow => Err(Refusal::Other),
    }
}

/// An operator after its first operand.
#[tactic(auto, using(crate::proofs::Climbs::pops))]
fn operate(
    alloc: Global,
    stack: &mut Vec<Frame>,
    tree: Box<Tree>,
    at: usize,
    operator: Binary,
) -> Result<State, Refusal>
    ensures { Steps
        (λ rules. operate rules at operator
        (climbed (precedence operator) (frames_of stack.old.items) (expression_of tree.value)))
        (frames_of stack.new.items) result }
{
    let first = climb(alloc, stack, Reach::Level(precedence(operator)), tree)?;
    wait(
        stack,
        Frame::RightOf {
            at,
            operator,
            first,
        },
    )
}

/// `not` after the first operand of `not in`.
fn negate(
    alloc: Global,
    stack: &mut Vec<Frame>,
    tree: Box<Tree>,
    at: usize,
) -> Result<State, Refusal>
    ensures { Steps
        (λ rules. negate rules at (climbed (precedence NotIn) (frames_of stack.old.items) (expression_of tree.value)))
        (frames_of stack.new.items) result }
{
    let first = climb(alloc, stack, Reach::Level(precedence(Binary::NotIn)), tree)?;
    Ok(State::WantIn { at, first })
}

/// `?` after its condition.
fn choose(
    alloc: Global,
    stack: &mut Vec<Frame>,
    tree: Box<Tree>,
    at: usize,
) -> Result<State, Refusal>
    ensures { Steps
        (λ rules. choose rules at (climbed 5 (frames_of stack.old.items) (expression_of tree.value)))
        (frames_of stack.new.items) result }
{
    let condition = climb(alloc, stack, Reach::Level(CONDITION_LEVEL), tree)?;
    open(stack, Frame::Then { at, condition })
}

/// A closing sign, a comma or a colon after the operand that it ends.
fn end_with(
    alloc: Global,
    stack: &mut Vec<Frame>,
    tree: Box<Tree>,
    ender: Ender,
) -> Result<State, Refusal>
    ensures { Steps
        (λ rules. end_with rules ender (unwound (frames_of stack.old.items) (expression_of tree.value)))
        (frames_of stack.new.items) result }
{
    let tree = climb(alloc, stack, Reach::Ender, tree)?;
    end_newest(alloc, stack, tree, ender)
}

/// What a closing sign, a comma or a colon makes of the newest frame.
#[tactic(auto, using(crate::proofs::Climbs::pops))]
fn end_newest(
    alloc: Global,
    stack: &mut Vec<Frame>,
    tree: Box<Tree>,
    ender: Ender,
) -> Result<State, Refusal>
    ensures { Steps
        (λ rules. end_with rules ender (Have (frames_of stack.old.items) (expression_of tree.value)))
        (frames_of stack.new.items) result }
{
    match stack.pop() {
        Some(frame) => end_frame(alloc, stack, frame, tree, ender),
        None => Err(Refusal::Other),
    }
}

/// What a closing sign, a comma or a colon makes of the frame that waited for the operand.
fn end_frame(
    alloc: Global,
    stack: &mut Vec<Frame>,
    frame: Frame,
    tree: Box<Tree>,
    ender: Ender,
) -> Result<State, Refusal>
    ensures { Steps
        (λ rules. end_with rules ender (Have (frame_of frame ∷ frames_of stack.old.items) (expression_of tree.value)))
        (frames_of stack.new.items) result }
{
    match frame {
        Frame::Then { at, condition } => end_then(stack, at, condition, tree, ender),
        Frame::Grouped => end_group(tree, ender),
        Frame::Indexed { at, list } => end_index(alloc, at, list, tree, ender),
        Frame::Listed { at, so_far } => end_item(alloc, stack, at, so_far, tree, ender),
        Frame::Argued {
            at,
            function,
            so_far,
        } => end_argument(alloc, at, function, so_far, tree, ender),
        Frame::Body {
            at,
            function,
            so_far,
        } => end_argument(alloc, at, function, so_far, tree, ender),
        Frame::Braced {
            at,
            function,
            so_far,
        } => end_braces(at, function, so_far, tree, ender),
        Frame::RightOf { .. } => Err(Refusal::Other),
        Frame::Prefixed { .. } => Err(Refusal::Other),
        Frame::Else { .. } => Err(Refusal::Other),
    }
}

/// The end of what is in parentheses.
fn end_group(tree: Box<Tree>, ender: Ender) -> Result<State, Refusal>
    ensures { (stack : _)
        → StepsFreely (λ rules. end_with rules ender (Have (Grouped ∷ stack) (expression_of tree.value))) stack result }
{
    match ender {
        Ender::EndGroup => Ok(State::Have(tree)),
        _ => Err(Refusal::Other),
    }
}

/// An index ends.
fn end_index(
    alloc: Global,
    at: usize,
    list: Box<Tree>,
    tree: Box<Tree>,
    ender: Ender,
) -> Result<State, Refusal>
    ensures { (stack : _) → Steps
        (λ rules. end_with rules ender
        (Have (Indexed at (expression_of list.value) ∷ stack) (expression_of tree.value)))
        stack result }
{
    match ender {
        Ender::EndBracket => operand(
            alloc,
            Tree::Index {
                at,
                list,
                index: tree,
            },
        ),
        _ => Err(Refusal::Other),
    }
}

/// An argument in braces ends.
fn end_braces(
    at: usize,
    function: Call,
    so_far: Vec<Tree>,
    tree: Box<Tree>,
    ender: Ender,
) -> Result<State, Refusal>
    ensures { (stack : _) → Steps
        (λ rules. end_with rules ender
        (Have (Braced at function (map expression_of so_far.items) ∷ stack) (expression_of tree.value)))
        stack result }
{
    let arguments = with_item(so_far, tree)?;
    match ender {
        Ender::EndBrace => Ok(State::HaveArgument {
            at,
            function,
            arguments,
        }),
        _ => Err(Refusal::Other),
    }
}

/// What comes after `?` ends.
#[tactic(auto, using(crate::proofs::Climbs::pops))]
fn end_then(
    stack: &mut Vec<Frame>,
    at: usize,
    condition: Box<Tree>,
    then_branch: Box<Tree>,
    ender: Ender,
) -> Result<State, Refusal>
    ensures { Steps
        (λ rules. end_with rules ender
        (Have (Then at (expression_of condition.value) ∷ frames_of stack.old.items) (expression_of then_branch.value)))
        (frames_of stack.new.items) result }
{
    match ender {
        Ender::Colon => wait(
            stack,
            Frame::Else {
                at,
                condition,
                then_branch,
            },
        ),
        _ => Err(Refusal::Other),
    }
}

/// An item of a list ends.
fn end_item(
    alloc: Global,
    stack: &mut Vec<Frame>,
    at: usize,
    so_far: Vec<Tree>,
    tree: Box<Tree>,
    ender: Ender,
) -> Result<State, Refusal>
    ensures { Steps
        (λ rules. end_with rules ender
        (Have (Listed at (map expression_of so_far.items) ∷ frames_of stack.old.items) (expression_of tree.value)))
        (frames_of stack.new.items) result }
{
    let items = with_item(so_far, tree)?;
    match ender {
        Ender::EndBracket => operand(
            alloc,
            Tree::List {
                at,
                items: Trees { items },
            },
        ),
        Ender::Comma => next_item(stack, at, items),
        _ => Err(Refusal::Other),
    }
}

/// An argument of a call ends.
fn end_argument(
    alloc: Global,
    at: usize,
    function: Call,
    so_far: Vec<Tree>,
    tree: Box<Tree>,
    ender: Ender,
) -> Result<State, Refusal>
    ensures plain { (stack : _) → Steps
        (λ rules. end_with rules ender
        (Have (Argued at function (map expression_of so_far.items) ∷ stack) (expression_of tree.value)))
        stack result }
    ensures body { (stack : _) → Steps
        (λ rules. end_with rules ender
        (Have (Body at function (map expression_of so_far.items) ∷ stack) (expression_of tree.value)))
        stack result }
{
    let arguments = with_item(so_far, tree)?;
    match ender {
        Ender::EndGroup => end_call(alloc, at, function, arguments),
        Ender::Comma => next_argument(at, function, arguments),
        _ => Err(Refusal::Other),
    }
}

/// One more item of a list, where there may be one.
#[tactic(auto, using(crate::proofs::Climbs::pops, crate::proofs::Openers::item_left, crate::proofs::Openers::no_item_left))]
fn next_item(stack: &mut Vec<Frame>, at: usize, so_far: Vec<Tree>) -> Result<State, Refusal>
    ensures { Steps
        (λ rules. when rules (may_continue rules (length (map expression_of so_far.items)))
        (Want (Listed at (map expression_of so_far.items) ∷ frames_of stack.old.items)))
        (frames_of stack.new.items) result }
{
    if so_far.len() < MOST_LITERAL_ITEMS {
        wait(stack, Frame::Listed { at, so_far })
    } else {
        Err(Refusal::Items)
    }
}

/// After the point of a field.
fn select(alloc: Global, at: usize, owner: Box<Tree>, token: &Token) -> Result<State, Refusal>
    ensures { (stack : _)
        → Steps (λ rules. select rules stack at (expression_of owner.value) (field_name_of token.now)) stack result }
{
    match name_of(alloc, token)? {
        Some(name) => operand(alloc, Tree::Field { at, owner, name }),
        None => Err(Refusal::Other),
    }
}

/// What a token names after a point.
#[tactic(auto, unfolding(crate::specs::Roles::field_name_of))]
fn name_of(alloc: Global, token: &Token) -> Result<Option<Text>, AllocError>
    ensures { IfOk result (λ name. name ≡ field_name_of token.now) }
{
    let name = match &token.kind {
        TokenKind::Word(word) => word.letters(),
        TokenKind::Name(name) => name.as_str(),
        _ => return Ok(None),
    };
    Ok(Some(Text::of(alloc, name)?))
}

/// A text token's text.
#[tactic(auto, unfolding(crate::specs::Roles::literal_text))]
fn text_of(alloc: Global, token: &Token) -> Result<Option<Text>, AllocError>
    ensures { IfOk result (λ text. text ≡ literal_text token.now) }
{
    match &token.kind {
        TokenKind::Text(text) => Ok(Some(Text::of(alloc, text.as_str())?)),
        _ => Ok(None),
    }
}

/// After the `[` of an index or field.
#[tactic(auto, using(crate::proofs::Climbs::pops))]
fn open_index(
    alloc: Global,
    stack: &mut Vec<Frame>,
    at: usize,
    owner: Box<Tree>,
    token: &Token,
) -> Result<State, Refusal>
    ensures { Steps
        (λ rules. open_index rules (frames_of stack.old.items) at (expression_of owner.value) token.now
        (literal_text token.now))
        (frames_of stack.new.items) result }
{
    match text_of(alloc, token)? {
        Some(text) => Ok(State::HaveText {
            at,
            owner,
            text_at: token.span.start,
            text,
        }),
        None => wait_at(alloc, stack, Frame::Indexed { at, list: owner }, token),
    }
}

/// Whether the token is `]`.
fn closes_bracket(token: &Token) -> bool
    ensures { result ≡ ends_bracket (follows token.now) }
{
    matches!(follow_of(token), Follow::Ends(Ender::EndBracket))
}

/// After a text that comes after such a `[`.
#[tactic(auto, using(crate::proofs::Climbs::pops, crate::proofs::Openers::text_continues, crate::proofs::Openers::text_is_name))]
fn close_text(
    alloc: Global,
    stack: &mut Vec<Frame>,
    at: usize,
    owner: Box<Tree>,
    literal: (usize, Text),
    token: &Token,
) -> Result<State, Refusal>
    ensures { Steps
        (λ rules. close_text rules (frames_of stack.old.items) at
        (expression_of owner.value) literal.0 literal.1 token.now (follows token.now))
        (frames_of stack.new.items) result }
{
    let (text_at, text) = literal;
    if closes_bracket(token) {
        return operand(
            alloc,
            Tree::Field {
                at,
                owner,
                name: text,
            },
        );
    }
    let tree = text_operand(alloc, text_at, text)?;
    have_indexed(alloc, stack, at, owner, tree, token)
}

fn text_operand(alloc: Global, at: usize, text: Text) -> Result<Box<Tree>, AllocError>
    ensures { IfOk result (λ tree. expression_of tree.value ≡ LiteralAt at (TextLiteral text)) }
{
    let literal = Literal::Text(text);
    boxed(alloc, Tree::Literal { at, literal })
}

/// After the operand of an index.
#[tactic(auto, using(crate::proofs::Climbs::pops))]
fn have_indexed(
    alloc: Global,
    stack: &mut Vec<Frame>,
    at: usize,
    list: Box<Tree>,
    tree: Box<Tree>,
    token: &Token,
) -> Result<State, Refusal>
    ensures { Steps
        (λ rules. have rules (Indexed at (expression_of list.value) ∷ frames_of stack.old.items)
        (expression_of tree.value) token.now)
        (frames_of stack.new.items) result }
{
    stack.push(Frame::Indexed { at, list })?;
    have(alloc, stack, tree, token)
}

/// After the `not` of `not in`.
#[tactic(auto, using(crate::proofs::Climbs::pops))]
fn want_in(
    stack: &mut Vec<Frame>,
    at: usize,
    first: Box<Tree>,
    token: &Token,
) -> Result<State, Refusal>
    ensures { Steps
        (λ rules. when rules (is_in token.now)
        (Want (RightOf at NotIn (expression_of first.value) ∷ frames_of stack.old.items)))
        (frames_of stack.new.items) result }
{
    if is_in(token) {
        let operator = Binary::NotIn;
        wait(
            stack,
            Frame::RightOf {
                at,
                operator,
                first,
            },
        )
    } else {
        Err(Refusal::Other)
    }
}

/// Where an argument of a call is expected.
fn want_argument(
    alloc: Global,
    stack: &mut Vec<Frame>,
    at: usize,
    function: Call,
    so_far: Vec<Tree>,
    token: &Token,
) -> Result<State, Refusal>
    ensures { Steps
        (λ rules. close_empty rules (frames_of stack.old.items) at function token.now (map expression_of so_far.items)
        (follows token.now))
        (frames_of stack.new.items) result }
{
    if is_empty_call(&so_far, token) {
        return Err(Refusal::Arguments);
    }
    argue(alloc, stack, at, function, so_far, token)
}

/// Whether the token is `)` directly after `(`.
fn is_empty_call(so_far: &[Tree], token: &Token) -> bool
    ensures { result ≡ is_empty_call (map expression_of so_far.now) (follows token.now) }
{
    so_far.is_empty() && matches!(follow_of(token), Follow::Ends(Ender::EndGroup))
}

/// An argument, in braces or not.
#[tactic(auto, using(crate::proofs::Climbs::pops, crate::proofs::Openers::length_of_map))]
fn argue(
    alloc: Global,
    stack: &mut Vec<Frame>,
    at: usize,
    function: Call,
    so_far: Vec<Tree>,
    token: &Token,
) -> Result<State, Refusal>
    ensures { Steps
        (λ rules. argue rules (frames_of stack.old.items) at function (map expression_of so_far.items) token.now
        (argument_start function (length (map expression_of so_far.items)) token.now))
        (frames_of stack.new.items) result }
{
    if !function.is_body(so_far.len()) {
        return wait_at(
            alloc,
            stack,
            Frame::Argued {
                at,
                function,
                so_far,
            },
            token,
        );
    }
    if is_brace(token) {
        return open_braces(stack, at, function, so_far);
    }
    wait_at(
        alloc,
        stack,
        Frame::Body {
            at,
            function,
            so_far,
        },
        token,
    )
}

/// A predicate in braces, where its call and its braces may be unfinished.
#[tactic(auto, using(crate::proofs::Climbs::pops, crate::proofs::Openers::braces_left, crate::proofs::Openers::no_braces_left))]
fn open_braces(
    stack: &mut Vec<Frame>,
    at: usize,
    function: Call,
    so_far: Vec<Tree>,
) -> Result<State, Refusal>
    ensures { Steps
        (λ rules. when rules (may_open rules (pred (openers_left (frames_of stack.old.items))))
        (Want (Braced at function (map expression_of so_far.items) ∷ frames_of stack.old.items)))
        (frames_of stack.new.items) result }
{
    if left(stack) < 2 {
        Err(Refusal::Depth)
    } else {
        wait(
            stack,
            Frame::Braced {
                at,
                function,
                so_far,
            },
        )
    }
}

/// One more token: the state after it, or why it can't be here.
#[tactic(auto, unfolding(crate::specs::Machine::parser_step))]
pub(crate) fn step(
    alloc: Global,
    stack: &mut Vec<Frame>,
    state: State,
    token: &Token,
) -> Result<State, Refusal>
    ensures { Steps (λ rules. parser_step rules (state_of (frames_of stack.old.items) state) token.now)
        (frames_of stack.new.items) result }
{
    match state {
        State::Want => want(alloc, stack, token),
        State::Have(tree) => have(alloc, stack, tree, token),
        State::WantName { at, owner } => select(alloc, at, owner, token),
        State::WantIndex { at, owner } => open_index(alloc, stack, at, owner, token),
        State::HaveText {
            at,
            owner,
            text_at,
            text,
        } => close_text(alloc, stack, at, owner, (text_at, text), token),
        State::WantIn { at, first } => want_in(stack, at, first, token),
        State::WantGroup { at, function } => want_group(alloc, at, function, token),
        State::WantArgument {
            at,
            function,
            so_far,
        } => want_argument(alloc, stack, at, function, so_far, token),
        State::HaveArgument {
            at,
            function,
            arguments,
        } => have_argument(alloc, at, function, arguments, token),
    }
}
