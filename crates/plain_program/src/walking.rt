ghost use Rattle.std.specs.Prelude.{◌≡◌, ◌+◌, ◌<◌, ◌^◌, ℕ, Some, IfOk};
ghost use Rattle.sp_model.specs.Settling.{Refuse, judged, attempts_of};
ghost use Rattle.sp_model.specs.Walk.{and_then, visit_all, accepted, ended, unsteady, walk_from, walk};
ghost use Rattle.sp_model.specs.declared.outcome.Walk.{Walk};
ghost use Rattle.plain_program.specs.Sources.{source_of, next_of, IsBelow};

use crate::replies::Replies;
use crate::settle::{is_ignored, is_retried};
use sp_model::{Call, Cause, Ending, Reply, Rule, Walk, WalkState};
use sp_value::{Cell, Memory, Text, TryCopy};
use std::alloc::Global;

/// A call's function and rules, and whether it may give one item at most.
#[derive(Drop)]
pub struct Source {
    pub function: Text,
    pub rule: Rule,
    pub single: bool,
}

/// What is done with each item of a call.
pub trait Visit {
    ghost use Rattle.std.specs.Prelude.{IfOk, ◌≡◌};
    ghost use Rattle.sp_value.specs.declared.cell.Cell.{Cell};
    ghost use Rattle.sp_model.specs.declared.outcome.Walk.{Walk};
    ghost use Rattle.sp_model.specs.declared.outcome.WalkState.{WalkState};

    ghost visits: { Self → Cell → WalkState → Walk };

    fn visit(&self, alloc: Global, item: &Cell, state: WalkState) -> Result<Walk, Memory>
        ensures { IfOk result (λ w. w ≡ visits self.now item.now state) };
}

/// How an attempt ends: the walk is done with it, or the call is asked again.
#[derive(Drop)]
enum Next {
    Done(Walk),
    Again,
}

fn visit_all<V: Visit>(
    alloc: Global,
    visitor: &V,
    items: &[Cell],
    state: WalkState,
) -> Result<Walk, Memory>
    ensures { IfOk result (λ w. w ≡ visit_all (V.visits visitor.now) items.now state) }
{
    let mut reached = state;
    for item in items {
        match visitor.visit(alloc, item, reached)? {
            Walk::Going(next) => reached = next,
            Walk::Full(last) => return Ok(Walk::Full(last)),
            Walk::Failed { row, column, cause } => {
                return Ok(Walk::Failed { row, column, cause });
            }
            Walk::Waiting => return Ok(Walk::Waiting),
        }
    }
    Ok(Walk::Going(reached))
}

/// The number of the row after those of a state.
pub(crate) fn next_row(state: &WalkState) -> Result<u64, Memory>
    ensures { IfOk result (λ n. n ≡ state.now.items + 1) }
{
    match state.items.checked_add(1) {
        Some(row) => Ok(row),
        None => Err(Memory),
    }
}

fn accepted(alloc: Global, source: &Source, count: usize, state: WalkState) -> Result<Walk, Memory>
    ensures { IfOk result (λ w. w ≡ accepted (source_of source.now) count state) }
{
    if source.single && count > 1 {
        let row = next_row(&state)?;
        return Ok(Walk::Failed {
            row,
            column: None,
            cause: Cause::TooMany {
                function: source.function.copy(alloc)?,
                count: count as u64,
            },
        });
    }
    Ok(Walk::Going(state))
}

fn refused(
    alloc: Global,
    source: &Source,
    attempt: u32,
    text: Text,
    state: &WalkState,
) -> Result<Walk, Memory>
    ensures { IfOk result (λ w. (again : Walk) (count : ℕ) → w ≡ ended (source_of source.now) attempt (Refuse text) count state.now again) }
{
    let row = next_row(state)?;
    Ok(Walk::Failed {
        row,
        column: None,
        cause: Cause::Error {
            function: source.function.copy(alloc)?,
            attempt,
            text,
        },
    })
}

fn end(
    alloc: Global,
    source: &Source,
    attempt: u32,
    ending: Ending,
    count: usize,
    state: WalkState,
) -> Result<Next, Memory>
    ensures value { IfOk result (λ n. (again : Walk) → next_of n again ≡ ended (source_of source.now) attempt (judged source.now.rule attempt (Some ending)) count state again) }
    ensures below { IfOk result (λ n. IsBelow n attempt (attempts_of source.now.rule.retry)) }
{
    let Ending::Error(text) = ending else {
        return Ok(Next::Done(accepted(alloc, source, count, state)?));
    };
    if is_ignored(&source.rule.ignore, &text) {
        return Ok(Next::Done(accepted(alloc, source, count, state)?));
    }
    if is_retried(&source.rule.retry, attempt, &text) {
        return Ok(Next::Again);
    }
    Ok(Next::Done(refused(alloc, source, attempt, text, &state)?))
}

fn end_walk(
    alloc: Global,
    source: &Source,
    attempt: u32,
    ending: Ending,
    count: usize,
    walked: Walk,
) -> Result<Next, Memory>
    ensures value { IfOk result (λ n. (again : Walk) → next_of n again ≡ and_then walked (λ t. ended (source_of source.now) attempt (judged source.now.rule attempt (Some ending)) count t again)) }
    ensures below { IfOk result (λ n. IsBelow n attempt (attempts_of source.now.rule.retry)) }
{
    match walked {
        Walk::Going(state) => end(alloc, source, attempt, ending, count, state),
        Walk::Full(state) => Ok(Next::Done(Walk::Full(state))),
        Walk::Failed { row, column, cause } => Ok(Next::Done(Walk::Failed { row, column, cause })),
        Walk::Waiting => Ok(Next::Done(Walk::Waiting)),
    }
}

fn unsteady(state: WalkState) -> WalkState
    ensures { result ≡ unsteady state }
{
    WalkState {
        rows: state.rows,
        items: state.items,
        steady: false,
    }
}

fn walk_from<V: Visit, R: Replies>(
    alloc: Global,
    visitor: &V,
    replies: &R,
    source: &Source,
    call: &Call,
    attempt: u32,
    state: WalkState,
) -> Result<Walk, Memory>
    ensures { IfOk result (λ w. w ≡ walk_from (V.visits visitor.now) (source_of source.now) (R.answers replies.now call.now) attempt state) }
{
    let Some(reply) = replies.reply(alloc, call, attempt)? else {
        return Ok(Walk::Waiting);
    };
    let Reply { items, ending } = reply;
    let entry = state.copy(alloc)?;
    let walked = visit_all(alloc, visitor, items.as_slice(), state)?;
    match end_walk(alloc, source, attempt, ending, items.len(), walked)? {
        Next::Done(walk) => Ok(walk),
        Next::Again => {
            let later = walk_from(
                alloc,
                visitor,
                replies,
                source,
                call,
                attempt + 1,
                unsteady(entry),
            )?;
            Ok(later)
        }
    }
}

/// The walk of a call, asked again by its rule.
pub fn walk<V: Visit, R: Replies>(
    alloc: Global,
    visitor: &V,
    replies: &R,
    source: &Source,
    call: &Call,
    state: WalkState,
) -> Result<Walk, Memory>
    ensures { IfOk result (λ w. w ≡ walk (V.visits visitor.now) (source_of source.now) (R.answers replies.now call.now) state) }
{
    let walked = walk_from(alloc, visitor, replies, source, call, 1, state)?;
    Ok(walked)
}
