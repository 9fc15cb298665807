use column_tests::Test;
use sp_model::{Access, KeyDecl, TableDecl};
use sp_value::{Cell, Cells, Op, Text, Texts};
use sqlite_items::Items;
use std::alloc::Global;
use std::sync::Arc;

/// What a condition of a source compares its column with: a value, or the cell at a place of the rows of the sources before it.
#[derive(Drop)]
pub enum PlanOperand {
    Literal(Cell),
    Left(u32),
}

/// A condition of a source.
#[derive(Drop)]
pub struct PlanCondition {
    pub column: Text,
    pub operator: Op,
    pub operand: PlanOperand,
}

/// The `in` list that is fanned out: one scan for each value. The values have no repeats and no nulls.
#[derive(Drop)]
pub struct Fan {
    pub column: Text,
    pub values: Cells,
}

/// A source: the plain connections that it stands for, its table, how its items are asked for, the columns that its rows have, in
/// table order, those key columns of its access that only filter, its keys, the conditions that are sent, and the tests of which every
/// source is there once its rows are. A limit is given where a part of the rows is enough.
#[derive(Drop)]
pub struct PlanSource {
    pub connections: Texts,
    pub table: Arc<TableDecl, Global>,
    pub access: Access,
    pub columns: Texts,
    pub subset: Texts,
    pub keys: Items<KeyDecl>,
    pub conditions: Items<PlanCondition>,
    pub fan: Option<Fan>,
    pub limit: Option<u64>,
    pub tests: Items<Test<u32>>,
}
