/// Where a value stands in a pool, and which of the values that stood there it is. Generations count from 1.
#[derive(Clone, Copy, Debug, PartialEq, Eq)]
pub struct Key {
    pub slot: usize,
    pub generation: u64,
}
