// Answers and notes, written.

ghost use Rattle.std.specs.Prelude.{◌≡◌, ◌⊎◌, ◌++◌, map, IfOk, OnOk};
ghost use Rattle.sp_outside.specs.Causes.{Rose};
ghost use Rattle.steampipe_top.specs.Running.{is_memory, is_rows, any_memory, all_rows, blocks_status, IsNoted, IsWritten, IsPastFiles, IfAnswered, IfRefused};
ghost use Rattle.steampipe_top.specs.Shown.{shown_block, texts_of, blocks_text, notes_from, notes_text};

use crate::shown::{ShownBlock, shown_block};
use crate::status::Status;
use answer_text::{Form, block, notes};
use run_lines::Block;
use sp_outside::{Sink, write_all};
use sp_value::Memory;
use sqlite_items::Items;
use statement_run::AnswerEnd;
use std::alloc::Global;

/// Writes one line to the notes, as far as they take it.
#[tactic(auto, using(crate::proofs::Answered::noted))]
pub(crate) fn refuse<N: Sink>(notes: &mut N, line: &[u8], status: Status) -> Status
    ensures status { result ≡ status }
    ensures line { IsNoted (N.faulted notes.old) (N.faulted notes.new) (N.held notes.old) (N.held notes.new) line.now }
{
    let _ = write_all(notes, line);
    status
}

fn is_memory(block: &Block) -> bool
    ensures { result ≡ is_memory block.now.answer.end }
{
    matches!(block.answer.end, AnswerEnd::Memory)
}

fn is_rows(block: &Block) -> bool
    ensures { result ≡ is_rows block.now.answer.end }
{
    matches!(block.answer.end, AnswerEnd::Rows(_))
}

fn any_memory(blocks: &[Block]) -> bool
    ensures { result ≡ any_memory blocks.now }
{
    blocks.iter().any(is_memory)
}

fn all_rows(blocks: &[Block]) -> bool
    ensures { result ≡ all_rows blocks.now }
{
    blocks.iter().all(is_rows)
}

pub(crate) fn blocks_status(blocks: &[Block]) -> Status
    ensures { result ≡ blocks_status blocks.now }
{
    if any_memory(blocks) {
        Status::Memory
    } else if all_rows(blocks) {
        Status::Done
    } else {
        Status::Failed
    }
}

/// Blocks as they are shown, in their order.
pub(crate) fn shown_blocks(alloc: Global, blocks: Items<Block>) -> Result<Vec<ShownBlock>, Memory>
    ensures { IfOk result (λ v. v.items ≡ map shown_block blocks) }
{
    let mut left = blocks;
    let mut shown = Vec::with_capacity(alloc, left.len())?;
    'more: while let Some(block) = left.pop() {
        let Ok(()) = shown.push(shown_block(block)) else {
            return Err(Memory);
        };
    }
    shown.reverse();
    Ok(shown)
}

/// The texts of blocks in a form, one empty line between two of them.
pub(crate) fn texts_of(alloc: Global, form: Form, blocks: &[ShownBlock]) -> Result<Vec<u8>, Memory>
    ensures { IfOk result (λ v. v.items ≡ texts_of form blocks.now) }
{
    let mut text = Vec::new(alloc);
    let mut rest = blocks;
    'more: while let [shown, others @ ..] = rest {
        let answer = block(alloc, form, &shown.answer)?;
        push_all(&mut text, &answer)?;
        if !others.is_empty() {
            push_all(&mut text, b"\n")?;
        }
        rest = others;
    }
    Ok(text)
}

/// The notes of blocks, which count from 1.
fn notes_of(alloc: Global, blocks: &[ShownBlock]) -> Result<Vec<u8>, Memory>
    ensures { IfOk result (λ v. v.items ≡ notes_from 0 blocks.now) }
{
    let mut text = Vec::new(alloc);
    let mut number: u64 = 0;
    for shown in blocks {
        number += 1;
        let lines = notes(alloc, number, shown.session, &shown.answer)?;
        push_all(&mut text, &lines)?;
    }
    Ok(text)
}

/// What is to be written: the answers and the notes of blocks.
#[derive(Drop)]
struct Written {
    answers: Vec<u8>,
    notes: Vec<u8>,
}

fn to_write(alloc: Global, form: Form, blocks: Items<Block>) -> Result<Written, Memory>
    ensures answers { IfOk result (λ w. w.answers.items ≡ blocks_text form blocks) }
    ensures notes { IfOk result (λ w. w.notes.items ≡ notes_text blocks) }
{
    let shown = shown_blocks(alloc, blocks)?;
    let answers = texts_of(alloc, form, &shown)?;
    let notes = notes_of(alloc, &shown)?;
    Ok(Written { answers, notes })
}

fn push_all(text: &mut Vec<u8>, more: &[u8]) -> Result<(), Memory>
    ensures { OnOk result (text.new.items ≡ text.old.items ++ more.now) }
{
    match text.extend_from_slice(more) {
        Ok(()) => Ok(()),
        Err(_) => Err(Memory),
    }
}

/// Writes the answers of blocks and then their notes. Where memory is wanting for their texts, nothing is written.
#[tactic(auto, using(crate::proofs::Answered::written_so))]
pub(crate) fn write_blocks<O: Sink, N: Sink>(
    alloc: Global,
    form: Form,
    blocks: Items<Block>,
    answers: &mut O,
    notes: &mut N,
) -> Status
    ensures written { IfAnswered result ((O.held answers.new ≡ O.held answers.old) × (N.held notes.new ≡ N.held notes.old)) (IsWritten form result blocks (O.held answers.old) (O.held answers.new) (N.held notes.old) (N.held notes.new)) }
    ensures ends { IfRefused result (λ _. ⊥) }
    ensures later { IsPastFiles result }
    ensures cause { result ≡ Status.WriteFault → Rose (O.faulted answers.old) (O.faulted answers.new) ⊎ Rose (N.faulted notes.old) (N.faulted notes.new) }
{
    let status = blocks_status(blocks.as_slice());
    let Ok(written) = to_write(alloc, form, blocks) else {
        return Status::Memory;
    };
    if write_all(answers, &written.answers).is_err() {
        return Status::WriteFault;
    }
    if write_all(notes, &written.notes).is_err() {
        return Status::WriteFault;
    }
    status
}
