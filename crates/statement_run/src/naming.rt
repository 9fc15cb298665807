// What a statement's text says, and the connections that it needs.

ghost use Rattle.std.specs.Prelude.{◌≡◌, map, Ok, IfOk, MatchResult};
ghost use Rattle.sql_lex.specs.Lex.{tokens};
ghost use Rattle.sql_grammar.specs.Grammar.{StatementPhrase};
ghost use Rattle.sql_grammar.specs.Theorem.{depth};
ghost use Rattle.sql_bind.specs.Answer.{needed, connections_named};
ghost use Rattle.sql_bind.specs.Members.{members_named};
ghost use Rattle.statement_run.specs.Answers.{groups_of};
ghost use Rattle.statement_run.specs.Parts.{IsUnparsed, IsUnknown, IsEndOfFault};

use crate::answer::{AnswerEnd, BlockFault};
use sp_value::{Memory, Text, Texts};
use sql_bind::{BindFault, Catalog, connections_named, connections_of};
use sql_parser::{SqlFault, Statement, parse};
use sqlite_items::Items;
use std::alloc::Global;

/// The statement that a text is.
pub(crate) fn parsed(alloc: Global, text: &Text) -> Result<Statement, AnswerEnd>
    ensures { MatchResult result (λ s. StatementPhrase depth (tokens text.now) s) (IsUnparsed text.now) }
{
    match parse(alloc, text.as_str()) {
        Ok(statement) => Ok(statement),
        Err(SqlFault::Memory) => Err(AnswerEnd::Memory),
        Err(fault) => Err(AnswerEnd::Refused(BlockFault::Sql(fault))),
    }
}

/// The end of a statement whose names don't fit.
pub(crate) fn end_of_fault(fault: BindFault) -> AnswerEnd
    ensures { IsEndOfFault fault result }
{
    match fault {
        BindFault::Memory => AnswerEnd::Memory,
        fault => AnswerEnd::Refused(BlockFault::Bind(fault)),
    }
}

/// The plain connections that a statement needs, in order of first use.
pub(crate) fn connections(
    alloc: Global,
    statement: &Statement,
    catalog: &Catalog,
) -> Result<Texts, AnswerEnd>
    ensures { MatchResult result (λ cs. needed catalog.now.settings statement.now ≡ Ok cs) (IsUnknown (needed catalog.now.settings statement.now)) }
{
    match connections_of(alloc, statement, catalog) {
        Ok(connections) => Ok(connections),
        Err(fault) => Err(end_of_fault(fault)),
    }
}

/// The members of each of these connections.
fn members_of(alloc: Global, catalog: &Catalog, names: &[Text]) -> Result<Items<Texts>, Memory>
    ensures { IfOk result (λ groups. groups ≡ map (members_named catalog.now.settings) names.now) }
{
    let mut groups = Items::new(alloc);
    for name in names {
        let members = catalog.members(alloc, name)?;
        let Ok(()) = groups.push(members) else {
            return Err(Memory);
        };
    }
    Ok(groups)
}

/// The connections that have to declare the same, in groups.
pub(crate) fn groups(
    alloc: Global,
    statement: &Statement,
    catalog: &Catalog,
) -> Result<Items<Texts>, Memory>
    ensures { IfOk result (λ groups. groups ≡ groups_of catalog.now.settings statement.now) }
{
    let names = connections_named(alloc, statement)?;
    members_of(alloc, catalog, names.as_slice())
}
