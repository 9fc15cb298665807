/// A value, and its generation.
#[derive(Drop)]
pub(crate) struct Held<T> {
    pub(crate) generation: u64,
    pub(crate) value: T,
}
