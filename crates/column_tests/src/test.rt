use sp_value::{Cell, Cells, Op};
use sqlite_items::{Boxed, Items};

/// What a test reads.
#[derive(Drop)]
pub enum Operand<C> {
    Column(C),
    Literal(Cell),
}

/// What is asked of an operand.
#[derive(Drop)]
pub enum Question<C> {
    /// Whether it is true.
    Truth,
    Compares { op: Op, with: Operand<C> },
    IsIn { negated: bool, list: Cells },
    IsNull { negated: bool },
}

/// A test on the values of columns.
#[derive(Drop)]
pub enum Test<C> {
    Or(Items<Test<C>>),
    And(Items<Test<C>>),
    Not(Boxed<Test<C>>),
    Asks {
        of: Operand<C>,
        question: Question<C>,
    },
}
