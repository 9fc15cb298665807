use sqlite_items::Items;
use statement_run::Answer;

/// The answer to a line, in its session, from 1 to 64. A line of bad form is answered in the first.
#[derive(Drop)]
pub struct Block {
    pub session: u32,
    pub answer: Answer,
}

/// The answers to the lines of an input, and how many calls were sent for them, failed sends too.
#[derive(Drop)]
pub struct Ran {
    pub blocks: Items<Block>,
    pub calls: u64,
}
