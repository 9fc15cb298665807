// Literals, and the cells of earlier sources.

ghost use Rattle.std.specs.Prelude.{◌≡◌, ◌++◌, OnOk};
ghost use Rattle.std.specs.Fmt.{signed_decimal};
ghost use Rattle.sql_lex.specs.Quotes.{quoted};
ghost use Rattle.explain_text.specs.Words.{literal_text, cell_text};

use crate::listing::push_dotted;
use answer_text::push_all;
use source_scans::PlanSource;
use sp_value::{Cell, Memory, Text};
use sql_bind::BoundSource;
use sql_lex::quote_text;
use std::alloc::Global;

fn push_integer(alloc: Global, text: &mut Vec<u8>, n: i64) -> Result<(), Memory>
    ensures { OnOk result (text.new.items ≡ text.old.items ++ signed_decimal n) }
{
    match format!(in alloc; "{n}") {
        Ok(digits) => push_all(text, digits.as_bytes()),
        Err(_) => Err(Memory),
    }
}

fn push_quoted(alloc: Global, text: &mut Vec<u8>, words: &Text) -> Result<(), Memory>
    ensures { OnOk result (text.new.items ≡ text.old.items ++ quoted 39 words.now) }
{
    let quoted = quote_text(alloc, b'\'', words.as_str())?;
    push_all(text, quoted.as_bytes())
}

/// Appends a literal as SQL spells it.
pub(crate) fn push_literal(alloc: Global, text: &mut Vec<u8>, literal: &Cell) -> Result<(), Memory>
    ensures { OnOk result (text.new.items ≡ text.old.items ++ literal_text literal.now) }
{
    match literal {
        Cell::Null => push_all(text, b"null"),
        Cell::Bool(true) => push_all(text, b"true"),
        Cell::Bool(false) => push_all(text, b"false"),
        Cell::Int(n) => push_integer(alloc, text, *n),
        Cell::Text(words) => push_quoted(alloc, text, words),
        Cell::List(_) => Ok(()),
        Cell::Object(_) => Ok(()),
    }
}

/// Appends the name of the cell at a place of the rows of all sources beside each other.
pub(crate) fn push_cell(
    text: &mut Vec<u8>,
    sources: &[BoundSource],
    plans: &[PlanSource],
    place: u32,
) -> Result<(), Memory>
    ensures { OnOk result (text.new.items ≡ text.old.items ++ cell_text sources.now plans.now place) }
{
    let mut left = place as usize;
    let mut rest = sources;
    let mut others = plans;
    'more: while let [source, more @ ..] = rest {
        let [plan, later @ ..] = others else {
            return Ok(());
        };
        if let Some(column) = plan.columns.get(left) {
            return push_dotted(text, &source.alias, column);
        }
        left = left.saturating_sub(plan.columns.len());
        rest = more;
        others = later;
    }
    Ok(())
}
