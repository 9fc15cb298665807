// What a statement says. A place is that of a first byte, in bytes from 0.

use sp_value::{Op, Text};
use sqlite_items::{Boxed, Items};

/// A name as it is compared, with its place.
#[derive(Drop)]
pub struct Name {
    pub text: Text,
    pub place: u64,
}

/// A column, of the source that is named or of any.
#[derive(Drop)]
pub struct Ref {
    pub source: Option<Name>,
    pub column: Name,
    pub place: u64,
}

#[derive(Drop)]
pub enum Constant {
    Null,
    Bool(bool),
    Int(i64),
    Text(Text),
}

/// A constant with its place.
#[derive(Drop)]
pub struct Literal {
    pub constant: Constant,
    pub place: u64,
}

#[derive(Drop)]
pub enum Operand {
    Ref(Ref),
    Literal(Literal),
}

/// What is asked of a test's first operand.
#[derive(Drop)]
pub enum Predicate {
    /// Whether it is true.
    Truth,
    Compares { op: Op, with: Operand },
    IsIn { negated: bool, list: Items<Literal> },
    IsNull { negated: bool },
}

/// A condition. The lists have two members at least, and a test's place is its first operand's.
#[derive(Drop)]
pub enum Expr {
    Or(Items<Expr>),
    And(Items<Expr>),
    Not(Boxed<Expr>),
    Test { of: Operand, predicate: Predicate },
}

#[derive(Drop)]
pub struct Item {
    pub of: Ref,
    pub alias: Option<Name>,
}

/// The items, or all columns of all sources.
#[derive(Drop)]
pub enum Shown {
    All,
    Items(Items<Item>),
}

/// A table of a connection.
#[derive(Drop)]
pub struct TableRef {
    pub connection: Name,
    pub table: Name,
    pub alias: Option<Name>,
}

/// A further source, and the condition on which its rows are joined.
#[derive(Drop)]
pub struct Join {
    pub source: TableRef,
    pub on: Expr,
}

/// A key of the order. Its place is its column's.
#[derive(Drop)]
pub struct Key {
    pub of: Ref,
    pub descending: bool,
}

#[derive(Drop)]
pub struct Statement {
    pub shown: Shown,
    pub from: TableRef,
    pub joins: Items<Join>,
    pub test: Option<Expr>,
    pub order: Items<Key>,
    pub limit: Option<u64>,
}
