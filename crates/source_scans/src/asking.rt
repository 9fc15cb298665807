// What one left row asks for.

ghost use Rattle.std.specs.Prelude.{◌≡◌, [], ◌∷◌, ◌++◌, map, option_map, option_to_list, IfOk, OnOk};
ghost use Rattle.std.specs.List.{list_all, flat_map};
ghost use Rattle.sp_value.specs.declared.cell.Cell as Cell;
ghost use Rattle.sp_model.specs.Conditions.{is_scalar};
ghost use Rattle.sp_model.specs.Units.{same_scalar, agrees, all_agree, unit_of_sent, with_value};
ghost use Rattle.source_scans.specs.Asking.{operand_at, condition_at, unit_scan, units_at};
ghost use Rattle.source_scans.specs.Collecting.{with_fan, scans_under, scans_at};
ghost use Rattle.source_scans.specs.Planned.{IsPlanned, conditions_of};

use crate::source::{Fan, PlanCondition, PlanOperand, PlanSource};
use crate::unit_scan::UnitScan;
use crate::value::same_value;
use key_columns::canonical;
use sp_model::{Condition, Conditions, is_scalar};
use sp_value::{Cell, Memory, Op, Text, TryCopy};
use sqlite_items::Items;
use std::alloc::Global;

fn operand_at<'a>(left: &'a [Cell], operand: &'a PlanOperand, null: &'a Cell) -> &'a Cell
    requires { null.now ≡ Cell.Null }
    ensures { result.now ≡ operand_at left.now operand.now }
{
    match operand {
        PlanOperand::Literal(value) => value,
        PlanOperand::Left(place) => left.get(*place as usize).unwrap_or(null),
    }
}

fn condition_at(
    alloc: Global,
    left: &[Cell],
    condition: &PlanCondition,
) -> Result<Condition, Memory>
    ensures { IfOk result (λ c. c ≡ condition_at left.now condition.now) }
{
    let null = Cell::Null;
    let value = operand_at(left, &condition.operand, &null).copy(alloc)?;
    let column = condition.column.copy(alloc)?;
    Ok(Condition {
        column,
        operator: condition.operator,
        value,
    })
}

/// Puts the conditions of a source at the end, with the cells of a left row.
fn push_conditions(
    alloc: Global,
    into: &mut Conditions,
    left: &[Cell],
    conditions: &[PlanCondition],
) -> Result<(), Memory>
    ensures { OnOk result (into.new ≡ into.old ++ map (condition_at left.now) conditions.now) }
{
    for condition in conditions {
        let condition = condition_at(alloc, left, condition)?;
        let Ok(()) = into.push(condition) else {
            return Err(Memory);
        };
    }
    Ok(())
}

#[tactic(auto, using(crate::proofs::SameValues::same_values))]
fn same_scalar(left: &Cell, right: &Cell) -> bool
    ensures { result ≡ same_scalar left.now right.now }
{
    same_value(left, right)
}

fn agrees(left: &Condition, right: &Condition) -> bool
    ensures { result ≡ agrees left.now right.now }
{
    !(left.operator == Op::Eq && right.operator == Op::Eq && left.column == right.column)
        || same_scalar(&left.value, &right.value)
}

fn agrees_with_all(first: &Condition, conditions: &[Condition]) -> bool
    ensures { result ≡ list_all (agrees first.now) conditions.now }
{
    conditions.iter().all(|condition| agrees(first, condition))
}

/// Whether no column would have to equal two values.
fn all_agree(conditions: &[Condition]) -> bool
    ensures { result ≡ all_agree conditions.now }
{
    let mut rest = conditions;
    while let [first, later @ ..] = rest {
        if !agrees_with_all(first, later) {
            return false;
        }
        rest = later;
    }
    true
}

fn are_scalar(conditions: &[Condition]) -> bool
    ensures { result ≡ list_all (λ condition. is_scalar condition.value) conditions.now }
{
    conditions
        .iter()
        .all(|condition| is_scalar(&condition.value))
}

/// Puts the scan of a connection under these conditions at the end, where there is one.
fn push_unit(
    alloc: Global,
    units: &mut Items<UnitScan>,
    connection: &Text,
    conditions: &[Condition],
) -> Result<(), Memory>
    ensures { OnOk result (units.new ≡ units.old ++ option_to_list (option_map unit_scan (unit_of_sent connection.now conditions.now))) }
{
    if !are_scalar(conditions) || !all_agree(conditions) {
        return Ok(());
    }
    let conditions = canonical(alloc, conditions)?;
    let connection = connection.copy(alloc)?;
    let Ok(()) = units.push(UnitScan {
        connection,
        conditions,
    }) else {
        return Err(Memory);
    };
    Ok(())
}

/// The conditions of a left row, with a value of the fan in front.
fn conditions_with(
    alloc: Global,
    left: &[Cell],
    column: &Text,
    value: &Cell,
    conditions: &[PlanCondition],
) -> Result<Conditions, Memory>
    ensures { IfOk result (λ cs. cs ≡ with_value column.now (map (condition_at left.now) conditions.now) value.now) }
{
    let mut found = Items::new(alloc);
    let column = column.copy(alloc)?;
    let value = value.copy(alloc)?;
    let Ok(()) = found.push(Condition {
        column,
        operator: Op::Eq,
        value,
    }) else {
        return Err(Memory);
    };
    push_conditions(alloc, &mut found, left, conditions)?;
    Ok(found)
}

/// Puts a scan for each value of the fan at the end.
fn push_fan(
    alloc: Global,
    units: &mut Items<UnitScan>,
    left: &[Cell],
    connection: &Text,
    fan: &Fan,
    conditions: &[PlanCondition],
) -> Result<(), Memory>
    ensures { OnOk result (units.new ≡ units.old ++ scans_under connection.now (map (with_value fan.now.column (map (condition_at left.now) conditions.now)) fan.now.values)) }
{
    for value in fan.values.as_slice() {
        let conditions = conditions_with(alloc, left, &fan.column, value, conditions)?;
        push_unit(alloc, units, connection, conditions.as_slice())?;
    }
    Ok(())
}

/// Puts the scan without a fan at the end.
fn push_alone(
    alloc: Global,
    units: &mut Items<UnitScan>,
    left: &[Cell],
    connection: &Text,
    conditions: &[PlanCondition],
) -> Result<(), Memory>
    ensures { OnOk result (units.new ≡ units.old ++ scans_under connection.now ((map (condition_at left.now) conditions.now) ∷ [])) }
{
    let mut found = Items::new(alloc);
    push_conditions(alloc, &mut found, left, conditions)?;
    push_unit(alloc, units, connection, found.as_slice())
}

/// Puts the scans of a connection at the end.
fn push_scans(
    alloc: Global,
    units: &mut Items<UnitScan>,
    left: &[Cell],
    connection: &Text,
    source: &PlanSource,
) -> Result<(), Memory>
    ensures { OnOk result (units.new ≡ units.old ++ scans_at source.now left.now connection.now) }
{
    let conditions = source.conditions.as_slice();
    match &source.fan {
        Some(fan) => push_fan(alloc, units, left, connection, fan, conditions),
        None => push_alone(alloc, units, left, connection, conditions),
    }
}

fn all_scans(alloc: Global, source: &PlanSource, left: &[Cell]) -> Result<Items<UnitScan>, Memory>
    ensures { IfOk result (λ units. units ≡ flat_map (scans_at source.now left.now) source.now.connections) }
{
    let mut units = Items::new(alloc);
    for connection in source.connections.as_slice() {
        push_scans(alloc, &mut units, left, connection, source)?;
    }
    Ok(units)
}

/// The scans that a left row asks for.
#[tactic(auto, using(crate::proofs::RowUnits::scans_are_units))]
pub(crate) fn units_at(
    alloc: Global,
    source: &PlanSource,
    left: &[Cell],
) -> Result<Items<UnitScan>, Memory>
    requires { IsPlanned source.now }
    ensures { IfOk result (λ units. units ≡ units_at source.now left.now) }
{
    let units = all_scans(alloc, source, left)?;
    Ok(units)
}

/// The conditions of a source before any left row is there: a column of an earlier source counts as null.
pub fn conditions_of(alloc: Global, conditions: &[PlanCondition]) -> Result<Conditions, Memory>
    ensures { IfOk result (λ cs. cs ≡ conditions_of conditions.now) }
{
    let mut found = Items::new(alloc);
    push_conditions(alloc, &mut found, &[], conditions)?;
    Ok(found)
}
