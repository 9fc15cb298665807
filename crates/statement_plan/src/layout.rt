// The columns of each source's rows, and where they stand.

ghost use Rattle.std.specs.Prelude.{◌≡◌, ◌+◌, ◌++◌, [], bytes_eq, option_map, option_copied, option_to_list, IfOk, OnOk};
ghost use Rattle.std.specs.List.{filter_map, position_or_len};
ghost use Rattle.sp_model.specs.RowOf.{names_of_columns, columns_named};
ghost use Rattle.statement_plan.specs.Columns.{column_name, name_within, names_within, columns_for, layout_from, place_in, place_of};

use sp_model::{ColumnDecl, TableDecl, has_name};
use sp_value::{Memory, Text, Texts, TryCopy};
use sql_bind::{BoundSource, Column};
use sqlite_items::Items;
use std::alloc::Global;

/// The name of a column, where its source has it.
pub(crate) fn column_name<'a>(sources: &'a [BoundSource], column: Column) -> Option<&'a Text>
    ensures { option_map (λ n. n.now) result ≡ column_name sources.now column }
{
    let Some(source) = sources.get(column.source as usize) else {
        return None;
    };
    match source.table.columns.get(column.column as usize) {
        Some(declared) => Some(&declared.name),
        None => None,
    }
}

pub(crate) fn name_within<'a>(
    sources: &'a [BoundSource],
    source: u32,
    column: Column,
) -> Option<&'a Text>
    ensures { option_map (λ n. n.now) result ≡ name_within sources.now source column }
{
    if column.source == source {
        column_name(sources, column)
    } else {
        None
    }
}

fn push_name(alloc: Global, names: &mut Texts, name: Option<&Text>) -> Result<(), Memory>
    ensures { OnOk result (names.new ≡ names.old ++ option_to_list (option_copied name.entry)) }
{
    if let Some(name) = name {
        let name = name.copy(alloc)?;
        let Ok(()) = names.push(name) else {
            return Err(Memory);
        };
    }
    Ok(())
}

/// The names of those columns that are of a source.
fn names_within(
    alloc: Global,
    sources: &[BoundSource],
    source: u32,
    columns: &[Column],
) -> Result<Texts, Memory>
    ensures { IfOk result (λ names. names ≡ names_within sources.now source columns.now) }
{
    let mut names = Items::new(alloc);
    for column in columns {
        push_name(alloc, &mut names, name_within(sources, source, *column))?;
    }
    Ok(names)
}

/// The names of the columns that have one of these names, in the order of the table.
fn names_among(alloc: Global, names: &[Text], columns: &[ColumnDecl]) -> Result<Texts, Memory>
    ensures { IfOk result (λ found. found ≡ names_of_columns (columns_named names.now columns.now)) }
{
    let mut found = Items::new(alloc);
    for column in columns {
        if has_name(names, &column.name) {
            let name = column.name.copy(alloc)?;
            let Ok(()) = found.push(name) else {
                return Err(Memory);
            };
        }
    }
    Ok(found)
}

pub(crate) fn columns_for(
    alloc: Global,
    sources: &[BoundSource],
    named: &[Column],
    source: u32,
    table: &TableDecl,
) -> Result<Texts, Memory>
    ensures { IfOk result (λ columns. columns ≡ columns_for sources.now named.now source table.now) }
{
    let names = names_within(alloc, sources, source, named)?;
    let columns = names_among(alloc, names.as_slice(), table.columns.as_slice())?;
    Ok(columns)
}

/// The columns of each source's rows, where these are the columns that the statement names.
pub(crate) fn layout_from(
    alloc: Global,
    sources: &[BoundSource],
    named: &[Column],
) -> Result<Items<Texts>, Memory>
    ensures { IfOk result (λ layout. layout ≡ layout_from sources.now named.now 0 sources.now) }
{
    let mut layout = Items::new(alloc);
    let mut number: u32 = 0;
    for source in sources {
        let columns = columns_for(alloc, sources, named, number, &source.table)?;
        let Ok(()) = layout.push(columns) else {
            return Err(Memory);
        };
        let Some(next) = number.checked_add(1) else {
            return Err(Memory);
        };
        number = next;
    }
    Ok(layout)
}

fn place_of_name(columns: &[Text], name: &Text) -> usize
    ensures { result ≡ position_or_len (bytes_eq name.now) columns.now }
{
    for (place, column) in columns.iter().enumerate() {
        if *name == *column {
            return place;
        }
    }
    columns.len()
}

/// The place of a source's column in the rows of all sources beside each other.
fn place_in(layout: &[Texts], source: u32, name: &Text) -> Result<usize, Memory>
    ensures { IfOk result (λ place. place ≡ place_in layout.now source name.now) }
{
    let mut before: usize = 0;
    let mut left = source;
    for columns in layout {
        if left == 0 {
            return sum(before, place_of_name(columns.as_slice(), name));
        }
        before = sum(before, columns.len())?;
        left -= 1;
    }
    Ok(before)
}

/// Numbers beyond the machine's count as want of memory.
fn sum(left: usize, right: usize) -> Result<usize, Memory>
    ensures { IfOk result (λ n. n ≡ left + right) }
{
    match left.checked_add(right) {
        Some(sum) => Ok(sum),
        None => Err(Memory),
    }
}

/// The place of a column in the rows of all sources beside each other.
pub(crate) fn place_of(
    alloc: Global,
    sources: &[BoundSource],
    layout: &[Texts],
    column: Column,
) -> Result<u32, Memory>
    ensures { IfOk result (λ place. place ≡ place_of sources.now layout.now column) }
{
    let place = match column_name(sources, column) {
        Some(name) => place_in(layout, column.source, name)?,
        None => {
            let none = Text::from_str(alloc, "")?;
            place_in(layout, column.source, &none)?
        }
    };
    match u32::try_from(place) {
        Ok(place) => Ok(place),
        Err(_) => Err(Memory),
    }
}
