// A statement with columns in place of names.

use column_tests::Test;
use sp_model::TableDecl;
use sp_value::{Kind, Text, Texts};
use sqlite_items::Items;

/// A column of a source, both counted from 0.
#[derive(Clone, Copy, Debug, PartialEq, Eq)]
pub struct Column {
    pub source: u32,
    pub column: u32,
}

/// A source: the connection as the statement names it, the plain connections that it stands for, in the order of the settings, the name by
/// which refs name it, its table, and the condition on which its rows are joined. The first source has none.
#[derive(Drop)]
pub struct BoundSource {
    pub connection: Text,
    pub members: Texts,
    pub alias: Text,
    pub table: TableDecl,
    pub on: Option<Test<Column>>,
}

/// A column that is shown, under its name in the answer.
#[derive(Drop)]
pub struct BoundItem {
    pub column: Column,
    pub name: Text,
    pub kind: Kind,
}

/// A key of the order.
#[derive(Clone, Copy, Debug, PartialEq, Eq)]
pub struct BoundKey {
    pub column: Column,
    pub down: bool,
}

/// A statement whose names are bound. It has 1 to 8 sources.
#[derive(Drop)]
pub struct Bound {
    pub sources: Items<BoundSource>,
    pub shown: Items<BoundItem>,
    pub test: Option<Test<Column>>,
    pub order: Items<BoundKey>,
    pub limit: Option<u64>,
}
