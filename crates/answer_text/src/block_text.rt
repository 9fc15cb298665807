ghost use Rattle.std.specs.Prelude.{◌≡◌, IfOk, codes};
ghost use Rattle.answer_text.specs.Blocks.{rows_text, block_text};

use crate::answer::{Answer, Form, ShownEnd};
use crate::csv_text::csv_text;
use crate::errors::{error_line, error_text};
use crate::json_text::json_text;
use crate::line_text::line_text;
use crate::table_text::table_text;
use sp_value::{Cells, Kind, Memory, Text};
use std::alloc::Global;

fn rows_text(
    alloc: Global,
    form: Form,
    names: &[Text],
    kinds: &[Kind],
    rows: &[Cells],
) -> Result<Vec<u8>, Memory>
    ensures { IfOk result (λ v. v.items ≡ rows_text form names.now kinds.now rows.now) }
{
    match form {
        Form::Line => line_text(alloc, names, kinds, rows),
        Form::Csv => csv_text(alloc, names, kinds, rows),
        Form::Json => json_text(alloc, names, rows),
        Form::Table => table_text(alloc, names, kinds, rows),
    }
}

fn cleared_text(alloc: Global) -> Result<Vec<u8>, Memory>
    ensures { IfOk result (λ v. v.items ≡ codes "cache cleared\n") }
{
    let text = Vec::from_slice(alloc, b"cache cleared\n")?;
    Ok(text)
}

/// The text of an answer: rows in that form, everything else as one line. A cell without a column, and a column without a cell, is left out.
pub fn block(alloc: Global, form: Form, answer: &Answer) -> Result<Vec<u8>, Memory>
    ensures { IfOk result (λ v. v.items ≡ block_text form answer.now) }
{
    match &answer.end {
        ShownEnd::Rows(rows) => rows_text(
            alloc,
            form,
            answer.names.as_slice(),
            answer.kinds.as_slice(),
            rows.as_slice(),
        ),
        ShownEnd::Cleared => cleared_text(alloc),
        ShownEnd::Error(error) => error_text(alloc, error),
        ShownEnd::Memory => error_line(alloc, "memory"),
    }
}
