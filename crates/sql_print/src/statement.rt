// Statements.

ghost use Rattle.std.specs.Prelude.{◌≡◌, ℕ, List, OnOk, IfOk};
ghost use Rattle.sql_lex.specs.declared.token.Token.{Token};
ghost use Rattle.sql_grammar.specs.Grammar.{StatementPhrase};
ghost use Rattle.sql_print.specs.Said as say;
ghost use Rattle.sql_print.specs.Spelling.{writes, statement_text};
ghost use Rattle.sql_print.specs.Page.{state};
ghost use Rattle.sql_print.specs.Again.{SaysAgain};

use crate::condition::alone;
use crate::page::Page;
use crate::parts::{alias, column, name};
use sp_value::{Memory, Text};
use sql_grammar::{Expr, Item, Join, Key, Shown, Statement, TableRef};
use sql_lex::Kind;
use std::alloc::Global;

#[tactic(auto, using(crate::proofs::Writing::writes_append))]
fn item(page: &mut Page, item: &Item) -> Result<(), Memory>
    ensures { OnOk result (state page.new ≡ writes (state page.old) (say.said_item item.now)) }
{
    column(page, &item.of)?;
    alias(page, &item.alias)
}

#[tactic(auto, using(crate::proofs::Writing::writes_append))]
fn items(page: &mut Page, list: &[Item]) -> Result<(), Memory>
    ensures { OnOk result (state page.new ≡ writes (state page.old) (say.said_items list.now)) }
{
    'more: for (i, member) in list.iter().enumerate() {
        if i > 0 {
            page.word(Kind::Comma)?;
        }
        item(page, member)?;
    }
    Ok(())
}

fn shown(page: &mut Page, shown: &Shown) -> Result<(), Memory>
    ensures { OnOk result (state page.new ≡ writes (state page.old) (say.said_shown shown.now)) }
{
    match shown {
        Shown::All => page.word(Kind::Star),
        Shown::Items(list) => items(page, list.as_slice()),
    }
}

#[tactic(auto, using(crate::proofs::Writing::writes_append))]
fn source(page: &mut Page, source: &TableRef) -> Result<(), Memory>
    ensures { OnOk result (state page.new ≡ writes (state page.old) (say.said_source source.now)) }
{
    name(page, &source.connection)?;
    page.word(Kind::Dot)?;
    name(page, &source.table)?;
    alias(page, &source.alias)
}

#[tactic(auto, using(crate::proofs::Writing::writes_append))]
fn join(page: &mut Page, join: &Join) -> Result<(), Memory>
    ensures { OnOk result (state page.new ≡ writes (state page.old) (say.said_join join.now)) }
{
    page.word(Kind::Join)?;
    source(page, &join.source)?;
    page.word(Kind::On)?;
    alone(page, &join.on)
}

#[tactic(auto, using(crate::proofs::Writing::writes_append))]
fn joins(page: &mut Page, list: &[Join]) -> Result<(), Memory>
    ensures { OnOk result (state page.new ≡ writes (state page.old) (say.said_joins list.now)) }
{
    'more: for member in list {
        join(page, member)?;
    }
    Ok(())
}

#[tactic(auto, using(crate::proofs::Writing::writes_append))]
fn condition(page: &mut Page, test: &Option<Expr>) -> Result<(), Memory>
    ensures { OnOk result (state page.new ≡ writes (state page.old) (say.said_where test.now)) }
{
    match test {
        None => Ok(()),
        Some(found) => {
            page.word(Kind::Where)?;
            alone(page, found)
        }
    }
}

#[tactic(auto, using(crate::proofs::Writing::writes_append))]
fn key(page: &mut Page, key: &Key) -> Result<(), Memory>
    ensures { OnOk result (state page.new ≡ writes (state page.old) (say.said_key key.now)) }
{
    column(page, &key.of)?;
    direction(page, key.descending)
}

fn direction(page: &mut Page, descending: bool) -> Result<(), Memory>
    ensures { OnOk result (state page.new ≡ writes (state page.old) (say.said_direction descending)) }
{
    if descending {
        page.word(Kind::Desc)
    } else {
        Ok(())
    }
}

#[tactic(auto, using(crate::proofs::Writing::writes_append))]
fn keys(page: &mut Page, list: &[Key]) -> Result<(), Memory>
    ensures { OnOk result (state page.new ≡ writes (state page.old) (say.said_keys list.now)) }
{
    'more: for (i, member) in list.iter().enumerate() {
        if i > 0 {
            page.word(Kind::Comma)?;
        }
        key(page, member)?;
    }
    Ok(())
}

#[tactic(auto, using(crate::proofs::Writing::writes_append))]
fn order(page: &mut Page, list: &[Key]) -> Result<(), Memory>
    ensures { OnOk result (state page.new ≡ writes (state page.old) (say.said_order list.now)) }
{
    match list {
        [] => Ok(()),
        [_, ..] => {
            page.word(Kind::Order)?;
            page.word(Kind::By)?;
            keys(page, list)
        }
    }
}

#[tactic(auto, using(crate::proofs::Writing::writes_append))]
fn limit(page: &mut Page, limit: Option<u64>) -> Result<(), Memory>
    ensures { OnOk result (state page.new ≡ writes (state page.old) (say.said_limit limit)) }
{
    match limit {
        None => Ok(()),
        Some(n) => {
            page.word(Kind::Limit)?;
            page.count(n)
        }
    }
}

#[tactic(auto, using(crate::proofs::Writing::writes_append))]
fn statement(page: &mut Page, statement: &Statement) -> Result<(), Memory>
    ensures { OnOk result (state page.new ≡ writes (state page.old) (say.said_statement statement.now)) }
{
    page.word(Kind::Select)?;
    shown(page, &statement.shown)?;
    page.word(Kind::From)?;
    source(page, &statement.from)?;
    joins(page, statement.joins.as_slice())?;
    condition(page, &statement.test)?;
    order(page, statement.order.as_slice())?;
    limit(page, statement.limit)
}

/// The text of a statement. What is printed of a statement that was read is read again, with the same
/// meaning but for places.
#[tactic(auto, using(crate::proofs::Writing::writes_text))]
pub fn print(alloc: Global, statement_of: &Statement) -> Result<Text, Memory>
    ensures value { IfOk result (λ t. t ≡ statement_text statement_of.now) }
    ensures again { (n : ℕ) → (ts : List Token) → StatementPhrase n ts statement_of.now → IfOk result (λ t. SaysAgain n t statement_of.now) }
{
    let mut page = Page::new(alloc);
    statement(&mut page, statement_of)?;
    Ok(page.into_text())
}
