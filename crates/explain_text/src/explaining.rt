// What is explained of a text.

ghost use Rattle.std.specs.Prelude.{◌≡◌, All, Ok, IfOk, IfErr};
ghost use Rattle.std.specs.Arc.{arc_value};
ghost use Rattle.sql_lex.specs.Lex.{tokens};
ghost use Rattle.sql_grammar.specs.Grammar.{StatementPhrase};
ghost use Rattle.sql_grammar.specs.Theorem.{depth};
ghost use Rattle.sql_bind.specs.Answer.{bound};
ghost use Rattle.sql_bind.specs.Known.{declaration_of};
ghost use Rattle.statement_plan.specs.Plans.{IsPlanOf, first_missing};
ghost use Rattle.explain_text.specs.Functions.{CanHydrate};
ghost use Rattle.explain_text.specs.Lines.{plan_text};
ghost use Rattle.explain_text.specs.Explained.{AreSound, HasLines, IsExplained, IsRefused, IsUnread, IsUnbound, IsUnplanned};

use crate::fault::ExplainFault;
use crate::lines::lines_of;
use sp_value::Text;
use sql_bind::{BindFault, Bound, Catalog, bind};
use sql_parser::{SqlFault, Statement, parse};
use statement_plan::{Plan, PlanFault};
use std::alloc::Global;

fn read(alloc: Global, text: &Text) -> Result<Statement, ExplainFault>
    ensures ok { IfOk result (λ s. StatementPhrase depth (tokens text.now) s) }
    ensures err { IfErr result (IsUnread text.now) }
{
    match parse(alloc, text.as_str()) {
        Ok(statement) => Ok(statement),
        Err(SqlFault::Memory) => Err(ExplainFault::Memory),
        Err(fault) => Err(ExplainFault::Sql(fault)),
    }
}

fn bound(alloc: Global, statement: &Statement, catalog: &Catalog) -> Result<Bound, ExplainFault>
    ensures ok { IfOk result (λ b. bound catalog.now.settings (declaration_of catalog.now) statement.now ≡ Ok b) }
    ensures err { IfErr result (IsUnbound (bound catalog.now.settings (declaration_of catalog.now) statement.now)) }
{
    match bind(alloc, statement, catalog) {
        Ok(bound) => Ok(bound),
        Err(BindFault::Memory) => Err(ExplainFault::Memory),
        Err(fault) => Err(ExplainFault::Bind(fault)),
    }
}

fn planned(alloc: Global, bound: &Bound) -> Result<Plan, ExplainFault>
    ensures ok { IfOk result (IsPlanOf bound.now) }
    ensures err { IfErr result (IsUnplanned bound.now) }
{
    match Plan::of(alloc, bound) {
        Ok(plan) => Ok(plan),
        Err(PlanFault::MissingKeys { source, columns }) => {
            Err(ExplainFault::MissingKeys { source, columns })
        }
        Err(PlanFault::Memory) => Err(ExplainFault::Memory),
    }
}

/// The lines of a bound statement's plan, or the keys that a source lacks.
#[tactic(auto, using(crate::proofs::Sounds::plans_sound, crate::proofs::Refusing::lines_are))]
fn lines(alloc: Global, bound: &Bound) -> Result<Vec<u8>, ExplainFault>
    requires { All (λ s. CanHydrate s.table) bound.now.sources }
    ensures ok { IfOk result (λ lines. HasLines lines.items bound.now) }
    ensures err { IfErr result (IsUnplanned bound.now) }
{
    let plan = planned(alloc, bound)?;
    let lines = lines_of(alloc, bound.sources.as_slice(), plan.sources.as_slice())?;
    Ok(lines)
}

/// What the statement that a text is would scan: a line for each of its sources. Or the first refusal, in the order of `ExplainFault`.
#[tactic(auto, using(crate::proofs::Sounds::bound_sound, crate::proofs::Refusing::unread, crate::proofs::Refusing::unbound, crate::proofs::Refusing::unplanned, crate::proofs::Refusing::explained))]
pub fn explain(alloc: Global, text: &Text, catalog: &Catalog) -> Result<Vec<u8>, ExplainFault>
    requires sound { AreSound (declaration_of catalog.now) }
    ensures lines { IfOk result (λ lines. IsExplained catalog.now.settings (declaration_of catalog.now) text.now lines.items) }
    ensures refused { IfErr result (IsRefused catalog.now.settings (declaration_of catalog.now) text.now) }
{
    let statement = read(alloc, text)?;
    let bound = bound(alloc, &statement, catalog)?;
    lines(alloc, &bound)
}
