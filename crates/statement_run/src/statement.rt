// One statement.

ghost use Rattle.std.specs.Prelude.{◌≡◌, ◌⊎◌, ◌≤◌, [], true, IsTrue};
ghost use Rattle.scan_run.specs.Asked.{SubsetKeysFilter};
ghost use Rattle.declaration_run.specs.Declaring.{IsTold, AreRead};
ghost use Rattle.sql_bind.specs.Answer.{needed};
ghost use Rattle.statement_words.specs.Advances.{AreTrue, IsRun};
ghost use Rattle.statement_words.specs.Runs.{IsGone, IsLater};
ghost use Rattle.statement_words.specs.Turns.{AreInTurn, ticks_of};
ghost use Rattle.statement_run.specs.Answers.{plain_answer, answer_ticks, end_of, IsAnswer, IsByText, IsStatementAnswer, IsByNeeded, IfSpent};
ghost use Rattle.statement_run.specs.Parts.{IsReadyPlan};
ghost use Rattle.statement_run.specs.Settings.{members_are_plain};
ghost use Rattle.statement_run.specs.declared.answer.AnswerEnd.TheVariants as ends;

use crate::answer::{Answer, AnswerEnd};
use crate::naming::parsed;
use crate::planning::ready_plan;
use desk::Desk;
use plan_run::{Ran, run_plan};
use sp_model::Settings;
use sp_value::{Rows, Text};
use sp_world::World;
use sql_bind::Catalog;
use sql_parser::Statement;
use sqlite_items::Items;
use statement_plan::{Heading, Plan};
use statement_words::Stop;
use std::alloc::Global;
use std::sync::Wait;

/// An answer without rows and notes.
fn plain_answer(alloc: Global, began: u64, end: AnswerEnd) -> Answer
    ensures { result ≡ plain_answer began end }
{
    Answer {
        end,
        names: Items::new(alloc),
        kinds: Items::new(alloc),
        notes: Items::new(alloc),
        began,
    }
}

/// How a statement ends whose plan ended so.
fn end_of(end: Result<Rows, Stop>) -> AnswerEnd
    ensures { result ≡ end_of end }
{
    match end {
        Ok(rows) => AnswerEnd::Rows(rows),
        Err(
            Stop::ScanFailed {
                scan,
                row,
                column,
                cause,
            },
        ) => AnswerEnd::ScanFailed {
            scan,
            row,
            column,
            cause,
        },
        Err(Stop::RestartsSpent { connection, losses }) => {
            AnswerEnd::RestartsSpent { connection, losses }
        }
        Err(Stop::Memory) => AnswerEnd::Memory,
    }
}

/// The answer of a plan that ran so.
fn answer_of(began: u64, heading: Heading, ran: Ran) -> Answer
    ensures end { result.end ≡ end_of ran.end }
    ensures names { result.names ≡ heading.names }
    ensures kinds { result.kinds ≡ heading.kinds }
    ensures notes { result.notes ≡ ran.notes }
    ensures began { result.began ≡ began }
{
    let Heading { names, kinds } = heading;
    let Ran { end, notes } = ran;
    Answer {
        end: end_of(end),
        names,
        kinds,
        notes,
        began,
    }
}

/// Runs the plan of a statement that began at a tick.
#[tactic(auto, using(crate::proofs::Running::ran_answer, crate::proofs::Running::ran_by_needed, crate::proofs::Running::ran_spent))]
fn run_planned<R: Wait, W: World, D: Desk<W>>(
    rt: &R,
    alloc: Global,
    desk: &mut D,
    settings: &Settings,
    plan: Plan,
    statement: &Statement,
    began: u64,
) -> Answer
    requires run { IsRun settings.now (D.state desk.old) }
    requires ready { IsReadyPlan W.tells W.book settings.now statement.now plan }
    requires began { began ≤ (D.state desk.old).tick }
    ensures told { IsTrue W.tells → SubsetKeysFilter W.book → IsStatementAnswer W.book settings.now result statement.now }
    ensures text { IsByNeeded result (needed settings.now statement.now) }
    ensures notes { IsTrue W.tells → AreTrue W.book settings.now.options began result.notes }
    ensures turn { AreInTurn began (D.state desk.new).tick (ticks_of result.notes) }
    ensures spent { IfSpent result.end (IsGone (D.state desk.new)) }
    ensures began { result.began ≡ began }
    ensures state { IsLater (D.state desk.old) (D.state desk.new) }
{
    let ran = run_plan::<R, W, D>(rt, alloc, desk, settings, &plan);
    answer_of(began, plan.heading, ran)
}

/// Answers a statement that began at a tick.
#[tactic(auto, using(crate::proofs::Running::early_answer, crate::proofs::Running::none_true))]
fn run_read<R: Wait, W: World, D: Desk<W>>(
    rt: &R,
    alloc: Global,
    desk: &mut D,
    catalog: &mut Catalog,
    statement: &Statement,
    began: u64,
) -> Answer
    requires run { IsRun catalog.old.settings (D.state desk.old) }
    requires served { members_are_plain catalog.old.settings ≡ true }
    requires began { began ≤ (D.state desk.old).tick }
    requires told { IsTrue W.tells → IsTold W.book catalog.old }
    requires read { AreRead catalog.old }
    ensures settings { catalog.new.settings ≡ catalog.old.settings }
    ensures told { IsTrue W.tells → IsTold W.book catalog.new }
    ensures read { AreRead catalog.new }
    ensures answer { IsTrue W.tells → SubsetKeysFilter W.book → (result ≡ plain_answer began ends.Memory) ⊎ IsStatementAnswer W.book catalog.old.settings result statement.now }
    ensures text { (result ≡ plain_answer began ends.Memory) ⊎ IsByNeeded result (needed catalog.old.settings statement.now) }
    ensures notes { IsTrue W.tells → AreTrue W.book catalog.old.settings.options began result.notes }
    ensures turn { AreInTurn began (D.state desk.new).tick (ticks_of result.notes) }
    ensures spent { IfSpent result.end (IsGone (D.state desk.new)) }
    ensures began { result.began ≡ began }
    ensures state { IsLater (D.state desk.old) (D.state desk.new) }
{
    match ready_plan::<R, W, D>(rt, alloc, desk, catalog, statement) {
        Ok(plan) => run_planned::<R, W, D>(
            rt,
            alloc,
            desk,
            catalog.settings(),
            plan,
            statement,
            began,
        ),
        Err(end) => plain_answer(alloc, began, end),
    }
}

/// Answers the statement that a text is, over a desk of the catalog's settings. A connection is asked what it declares when a statement
/// first needs it, and again as long as that is refused.
pub fn run_statement<R: Wait, W: World, D: Desk<W>>(
    rt: &R,
    alloc: Global,
    desk: &mut D,
    catalog: &mut Catalog,
    text: &Text,
) -> Answer
    requires run { IsRun catalog.old.settings (D.state desk.old) }
    requires served { members_are_plain catalog.old.settings ≡ true }
    requires told { IsTrue W.tells → IsTold W.book catalog.old }
    requires read { AreRead catalog.old }
    ensures settings { catalog.new.settings ≡ catalog.old.settings }
    ensures told { IsTrue W.tells → IsTold W.book catalog.new }
    ensures read { AreRead catalog.new }
    ensures answer { IsTrue W.tells → SubsetKeysFilter W.book → IsAnswer W.book catalog.old.settings text.now result }
    ensures text { IsByText catalog.old.settings text.now result }
    ensures notes { IsTrue W.tells → AreTrue W.book catalog.old.settings.options result.began result.notes }
    ensures spent { IfSpent result.end (IsGone (D.state desk.new)) }
    ensures turn { AreInTurn (D.state desk.old).tick (D.state desk.new).tick (answer_ticks result) }
    ensures state { IsLater (D.state desk.old) (D.state desk.new) }
{
    let began = desk.now();
    match parsed(alloc, text) {
        Ok(statement) => run_read::<R, W, D>(rt, alloc, desk, catalog, &statement, began),
        Err(end) => plain_answer(alloc, began, end),
    }
}
