// The plan of a statement, by what its connections declare.

ghost use Rattle.std.specs.Prelude.{◌≡◌, All, Ok, true, IsTrue, IfOk, IfErr, OnOk};
ghost use Rattle.declaration_run.specs.Declaring.{IsTold, AreRead, ArePlain, AreDone};
ghost use Rattle.source_run.specs.Ready.{IsReady};
ghost use Rattle.source_scans.specs.Planned.{IsPlanned};
ghost use Rattle.sql_bind.specs.Answer.{needed, bound, plain_connections};
ghost use Rattle.sql_bind.specs.Known.{declaration_of};
ghost use Rattle.statement_plan.specs.Plans.{IsPlanOf};
ghost use Rattle.statement_words.specs.Runs.{IsLater};
ghost use Rattle.statement_run.specs.Answers.{groups_of};
ghost use Rattle.statement_run.specs.Parts.{IsBoundPlan, IsMissingEnd, IsUnplanned, IsEarlyEnd, IsReadyPlan, undeclared_end};
ghost use Rattle.statement_run.specs.Settings.{members_are_plain};

use crate::answer::{AnswerEnd, BlockFault};
use crate::naming::{connections, end_of_fault, groups};
use declaration_run::{Undeclared, declare_all};
use desk::Desk;
use sp_world::World;
use sql_bind::{Bound, Catalog, bind};
use sql_parser::Statement;
use statement_plan::{Plan, PlanFault};
use std::alloc::Global;
use std::sync::Wait;

/// The plan of a bound statement.
fn plan_of(alloc: Global, bound: Bound) -> Result<Plan, AnswerEnd>
    ensures plan { IfOk result (IsPlanOf bound) }
    ensures planned { IfOk result (λ p. All IsPlanned p.sources) }
    ensures missing { IfErr result (IsMissingEnd bound) }
{
    match Plan::of(alloc, &bound) {
        Ok(plan) => Ok(plan),
        Err(PlanFault::MissingKeys { source, columns }) => {
            Err(AnswerEnd::Refused(BlockFault::MissingKeys { source, columns }))
        }
        Err(PlanFault::Memory) => Err(AnswerEnd::Memory),
    }
}

/// The plan of a statement whose connections are declared.
#[tactic(auto, using(crate::proofs::Sources::ok_ready))]
fn planned<W: World>(
    alloc: Global,
    statement: &Statement,
    catalog: &Catalog,
) -> Result<Plan, AnswerEnd>
    requires told { IsTrue W.tells → IsTold W.book catalog.now }
    requires read { AreRead catalog.now }
    requires plain { ArePlain catalog.now.settings (plain_connections catalog.now.settings statement.now) }
    requires done { AreDone catalog.now (groups_of catalog.now.settings statement.now) (plain_connections catalog.now.settings statement.now) }
    ensures plan { IfOk result (IsBoundPlan (bound catalog.now.settings (declaration_of catalog.now) statement.now)) }
    ensures ready { IfOk result (λ p. All (IsReady W.tells W.book catalog.now.settings.connections) p.sources) }
    ensures none { IfErr result (IsUnplanned (bound catalog.now.settings (declaration_of catalog.now) statement.now)) }
{
    match bind(alloc, statement, catalog) {
        Ok(bound) => plan_of(alloc, bound),
        Err(fault) => Err(end_of_fault(fault)),
    }
}

/// The end of a statement of which a connection has no declaration.
fn undeclared_end(undeclared: Undeclared) -> AnswerEnd
    ensures { result ≡ undeclared_end undeclared }
{
    match undeclared {
        Undeclared::Refused { connection, fault } => {
            AnswerEnd::Refused(BlockFault::BadDeclaration { connection, fault })
        }
        Undeclared::Differs { connection } => {
            AnswerEnd::Refused(BlockFault::DeclarationsDiffer { connection })
        }
        Undeclared::RestartsSpent { connection, losses } => {
            AnswerEnd::RestartsSpent { connection, losses }
        }
        Undeclared::Memory => AnswerEnd::Memory,
    }
}

/// Has the connections of a statement declared.
#[tactic(auto, using(crate::proofs::Early::unknown_early, crate::proofs::Early::undeclared_early, crate::proofs::Plain::needed_plain))]
fn declare<R: Wait, W: World, D: Desk<W>>(
    rt: &R,
    alloc: Global,
    desk: &mut D,
    catalog: &mut Catalog,
    statement: &Statement,
) -> Result<(), AnswerEnd>
    requires settings { (D.state desk.old).settings ≡ catalog.old.settings }
    requires served { members_are_plain catalog.old.settings ≡ true }
    requires told { IsTrue W.tells → IsTold W.book catalog.old }
    requires read { AreRead catalog.old }
    ensures settings { catalog.new.settings ≡ catalog.old.settings }
    ensures told { IsTrue W.tells → IsTold W.book catalog.new }
    ensures read { AreRead catalog.new }
    ensures needed { OnOk result (needed catalog.old.settings statement.now ≡ Ok (plain_connections catalog.old.settings statement.now)) }
    ensures plain { OnOk result (ArePlain catalog.old.settings (plain_connections catalog.old.settings statement.now)) }
    ensures done { OnOk result (AreDone catalog.new (groups_of catalog.old.settings statement.now) (plain_connections catalog.old.settings statement.now)) }
    ensures early { IfErr result (IsEarlyEnd W.tells W.book (D.state desk.new) catalog.old.settings statement.now) }
    ensures state { IsLater (D.state desk.old) (D.state desk.new) }
{
    let connections = match connections(alloc, statement, catalog) {
        Ok(connections) => connections,
        Err(end) => return Err(end),
    };
    let Ok(groups) = groups(alloc, statement, catalog) else {
        return Err(AnswerEnd::Memory);
    };
    match declare_all::<R, W, D>(
        rt,
        alloc,
        desk,
        catalog,
        connections.as_slice(),
        groups.as_slice(),
    ) {
        Ok(()) => Ok(()),
        Err(undeclared) => Err(undeclared_end(undeclared)),
    }
}

/// The plan of a statement, once its connections are declared, or why it ends before any scan.
#[tactic(auto, using(crate::proofs::Early::unplanned_early, crate::proofs::Early::ready_plan))]
pub(crate) fn ready_plan<R: Wait, W: World, D: Desk<W>>(
    rt: &R,
    alloc: Global,
    desk: &mut D,
    catalog: &mut Catalog,
    statement: &Statement,
) -> Result<Plan, AnswerEnd>
    requires settings { (D.state desk.old).settings ≡ catalog.old.settings }
    requires served { members_are_plain catalog.old.settings ≡ true }
    requires told { IsTrue W.tells → IsTold W.book catalog.old }
    requires read { AreRead catalog.old }
    ensures settings { catalog.new.settings ≡ catalog.old.settings }
    ensures told { IsTrue W.tells → IsTold W.book catalog.new }
    ensures read { AreRead catalog.new }
    ensures ready { IfOk result (IsReadyPlan W.tells W.book catalog.old.settings statement.now) }
    ensures early { IfErr result (IsEarlyEnd W.tells W.book (D.state desk.new) catalog.old.settings statement.now) }
    ensures state { IsLater (D.state desk.old) (D.state desk.new) }
{
    match declare::<R, W, D>(rt, alloc, desk, catalog, statement) {
        Ok(()) => planned::<W>(alloc, statement, catalog),
        Err(end) => Err(end),
    }
}
