// Lines, one after another.

ghost use Rattle.std.specs.Prelude.{◌≡◌, ◌≤◌, [], ◌∷◌, true, IsTrue, IfOk};
ghost use Rattle.declaration_run.specs.Declaring.{IsTold, AreRead};
ghost use Rattle.scan_run.specs.Asked.{SubsetKeysFilter};
ghost use Rattle.statement_words.specs.Advances.{AreTrue, IsRun};
ghost use Rattle.statement_words.specs.Runs.{IsGone, IsLater};
ghost use Rattle.statement_words.specs.Turns.{AreInTurn};
ghost use Rattle.statement_run.specs.Answers.{refused, IsAnswer, IsByText, IfSpent};
ghost use Rattle.statement_run.specs.Settings.{members_are_plain};
ghost use Rattle.statement_run.specs.declared.answer.BlockFault.TheVariants as fault;
ghost use Rattle.run_lines.specs.Blocks.{IsBlockSo, AreAnswers, AreByText, AreTrulyNoted, AllSpent, line_ticks, block_ticks};

use crate::block::Block;
use desk::Desk;
use input_lines::Line;
use sp_value::Memory;
use sp_world::World;
use sql_bind::Catalog;
use sqlite_items::Items;
use statement_run::{Answer, AnswerEnd, BlockFault, run_statement};
use std::alloc::Global;
use std::sync::Wait;

fn refused(alloc: Global, began: u64, fault: BlockFault) -> Answer
    ensures { result ≡ refused began fault }
{
    Answer {
        end: AnswerEnd::Refused(fault),
        names: Items::new(alloc),
        kinds: Items::new(alloc),
        notes: Items::new(alloc),
        began,
    }
}

/// Answers one line.
#[tactic(auto, using(crate::proofs::BlockLaws::none_true, statement_words::proofs::Stops::later_refl, statement_words::proofs::Stops::later_tick))]
fn answer_line<R: Wait, W: World, D: Desk<W>>(
    rt: &R,
    alloc: Global,
    desk: &mut D,
    catalog: &mut Catalog,
    line: &Line,
) -> Block
    requires run { IsRun catalog.old.settings (D.state desk.old) }
    requires served { members_are_plain catalog.old.settings ≡ true }
    requires told { IsTrue W.tells → IsTold W.book catalog.old }
    requires read { AreRead catalog.old }
    ensures settings { catalog.new.settings ≡ catalog.old.settings }
    ensures told { IsTrue W.tells → IsTold W.book catalog.new }
    ensures read { AreRead catalog.new }
    ensures answer { IsTrue W.tells → SubsetKeysFilter W.book → IsBlockSo (IsAnswer W.book catalog.old.settings) line.now result }
    ensures text { IsBlockSo (IsByText catalog.old.settings) line.now result }
    ensures notes { IsTrue W.tells → AreTrue W.book catalog.old.settings.options result.answer.began result.answer.notes }
    ensures spent { IfSpent result.answer.end (IsGone (D.state desk.new)) }
    ensures turn { AreInTurn (D.state desk.old).tick (D.state desk.new).tick (line_ticks line.now result) }
    ensures state { IsLater (D.state desk.old) (D.state desk.new) }
{
    match line {
        Line::Statement { session, text } => Block {
            session: *session,
            answer: run_statement::<R, W, D>(rt, alloc, desk, catalog, text),
        },
        Line::ClearCache { session } => {
            let began = desk.now();
            Block {
                session: *session,
                answer: refused(alloc, began, BlockFault::NotYet),
            }
        }
        Line::BadForm => Block {
            session: 1,
            answer: refused(alloc, 0, BlockFault::LineForm),
        },
    }
}

/// Answers lines one after another at a desk of the catalog's settings. What connections declare is kept from line to line.
pub fn answer_lines<R: Wait, W: World, D: Desk<W>>(
    rt: &R,
    alloc: Global,
    desk: &mut D,
    catalog: &mut Catalog,
    lines: &[Line],
) -> Result<Items<Block>, Memory>
    requires run { IsRun catalog.old.settings (D.state desk.old) }
    requires served { members_are_plain catalog.old.settings ≡ true }
    requires told { IsTrue W.tells → IsTold W.book catalog.old }
    requires read { AreRead catalog.old }
    ensures told { IsTrue W.tells → SubsetKeysFilter W.book → IfOk result (AreAnswers W.book catalog.old.settings lines.now) }
    ensures text { IfOk result (AreByText catalog.old.settings lines.now) }
    ensures notes { IsTrue W.tells → IfOk result (AreTrulyNoted W.book catalog.old.settings.options) }
    ensures spent { IfOk result (AllSpent (IsGone (D.state desk.new))) }
    ensures turns { IfOk result (λ blocks. AreInTurn (D.state desk.old).tick (D.state desk.new).tick (block_ticks lines.now blocks)) }
    ensures state { IsLater (D.state desk.old) (D.state desk.new) }
{
    let mut blocks = Items::new(alloc);
    for line in lines {
        let block = answer_line::<R, W, D>(rt, alloc, desk, catalog, line);
        let Ok(()) = blocks.push(block) else {
            return Err(Memory);
        };
    }
    Ok(blocks)
}
