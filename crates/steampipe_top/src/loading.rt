// A load of generated rows.

ghost use Rattle.std.specs.Prelude.{◌≡◌, ◌⊎◌, [], ◌∷◌, List, Option, Some, None, IfOk, MatchOption, length};
ghost use Rattle.load_gen.specs.Summary.{load_settings};
ghost use Rattle.run_lines.specs.Blocks.{CameBack, with_child};
ghost use Rattle.sp_outside.specs.Causes.{Rose};
ghost use Rattle.steampipe_top.specs.Running.{IsPastFiles, IfAnswered, IfRefused};
ghost use Rattle.steampipe_top.specs.Loading.{load_line, rows_of, load_text, IsLoadWritten, HasLoaded};
ghost use Rattle.steampipe_top.specs.Shown.{blocks_text};

use crate::status::Status;
use crate::writing::{blocks_status, shown_blocks, texts_of};
use answer_text::Form;
use input_lines::Line;
use load_gen::{load_settings, load_statement, summary};
use run_lines::{Block, Ran, run_lines};
use sp_outside::{Clock, Nursery, Sink, write_all};
use sp_value::{Memory, Rows, Text};
use sp_world::World;
use sqlite_items::Items;
use statement_run::AnswerEnd;
use std::alloc::Global;
use std::sync::Wait;

/// The only line of a load.
fn load_line(alloc: Global, count: u64) -> Result<Line, Memory>
    ensures { IfOk result (λ line. line ≡ load_line count) }
{
    let statement = load_statement(alloc, count)?;
    Ok(Line::Statement {
        session: 1,
        text: Text::from_string(statement),
    })
}

fn load_lines(alloc: Global, count: u64) -> Result<Items<Line>, Memory>
    ensures { IfOk result (λ lines. lines ≡ load_line count ∷ []) }
{
    let mut lines = Items::new(alloc);
    lines.push(load_line(alloc, count)?)?;
    Ok(lines)
}

/// The rows of the only answer, where it has some.
fn rows_of(blocks: &[Block]) -> Option<&Rows>
    ensures { MatchOption result (rows_of blocks.now ≡ None) (λ rows. rows_of blocks.now ≡ Some rows.now) }
{
    match blocks {
        [block] => match &block.answer.end {
            AnswerEnd::Rows(rows) => Some(rows),
            _ => None,
        },
        _ => None,
    }
}

fn blocks_text(alloc: Global, form: Form, blocks: Items<Block>) -> Result<Vec<u8>, Memory>
    ensures { IfOk result (λ text. text.items ≡ blocks_text form blocks) }
{
    let shown = shown_blocks(alloc, blocks)?;
    texts_of(alloc, form, &shown)
}

/// What a load prints: how many rows and calls there were and the sum; where the answer isn't rows, its block.
fn load_text(alloc: Global, form: Form, ran: Ran) -> Result<Vec<u8>, Memory>
    ensures { IfOk result (λ text. text.items ≡ load_text form ran.blocks ran.calls) }
{
    let Ran { blocks, calls } = ran;
    match rows_of(blocks.as_slice()) {
        Some(rows) => summary(alloc, rows, calls),
        None => blocks_text(alloc, form, blocks),
    }
}

/// Writes what a load prints. Where memory is wanting for its text, nothing is written.
#[tactic(auto, using(crate::proofs::Loads::loaded_so))]
fn write_load<O: Sink>(alloc: Global, form: Form, ran: Ran, answers: &mut O) -> Status
    ensures written { IfAnswered result (O.held answers.new ≡ O.held answers.old) (IsLoadWritten form result ran.blocks ran.calls (O.held answers.old) (O.held answers.new)) }
    ensures ends { IfRefused result (λ _. ⊥) }
    ensures later { IsPastFiles result }
    ensures cause { result ≡ Status.WriteFault → Rose (O.faulted answers.old) (O.faulted answers.new) }
{
    let status = blocks_status(ran.blocks.as_slice());
    let Ok(text) = load_text(alloc, form, ran) else {
        return Status::Memory;
    };
    match write_all(answers, &text) {
        Ok(()) => status,
        Err(_) => Status::WriteFault,
    }
}

/// The program's `load`: answers a statement over so many rows, from 1 to 100,000, by settings of its own, over a child of their one
/// connection, and writes how many rows and calls there were and the sum of the third column. Where the answer isn't rows, its block is
/// written in the form. It reads no input and notes nothing.
pub(crate) fn load<R: Wait, W: World, O: Sink, M: Nursery<W>, K: Clock>(
    rt: &R,
    alloc: Global,
    form: Form,
    count: u64,
    answers: &mut O,
    nursery: &mut M,
    clock: &K,
) -> Status
    requires all_back { length (M.back nursery.old) ≡ M.made nursery.old }
    ensures loaded { IfAnswered result (O.held answers.new ≡ O.held answers.old) (HasLoaded M.Kid.Child W.World count form result (O.held answers.old) (O.held answers.new) (M.back nursery.old) (M.back nursery.new)) }
    ensures ends { IfRefused result (λ _. ⊥) }
    ensures later { IsPastFiles result }
    ensures cause { result ≡ Status.WriteFault → Rose (O.faulted answers.old) (O.faulted answers.new) }
    ensures children { (M.back nursery.new ≡ M.back nursery.old) ⊎ ((children : List M.Kid) × CameBack M.Kid.Child W.World (with_child load_settings.connections) (M.back nursery.old) (M.back nursery.new) children) }
    ensures back { length (M.back nursery.new) ≡ M.made nursery.new }
{
    let Ok(settings) = load_settings(alloc) else {
        return Status::Memory;
    };
    let Ok(lines) = load_lines(alloc, count) else {
        return Status::Memory;
    };
    match run_lines::<R, W, M, K>(rt, alloc, &settings, lines.as_slice(), nursery, clock) {
        Ok(ran) => write_load(alloc, form, ran, answers),
        Err(Memory) => Status::Memory,
    }
}
